//! The nets on which the lines of a stage stand, and the nets of operands.
ghost use Rattle.std.specs.Prelude.{◌≡◌, ◌↔◌, ◌+◌, ◌%◌, ◌^◌, ◌∷◌, [], ◌<◌, ◌≤◌, length, Some, IfNone, IfOk, IfSome, IsSome, slice_get};
ghost use Rattle.std.specs.List.{AllByRecursion as Each};
ghost use Rattle.ap_desc.specs.Designs.{IsArg, field_value};
ghost use Rattle.ap_net.specs.Cells.{IsNet};
ghost use Rattle.ap_net.specs.Draft.{CanFresh};
ghost use Rattle.ap_net.specs.Readings.{Carries};
ghost use Rattle.ap_stage.specs.Sources.{HasNet, IsGround, IsOperandNet, IsRow, LieIn, LiesIn, source_numbers};
ghost use Rattle.ap_stage.specs.Wiring.{IsWiring};

use crate::wiring::{constant, sliced};
use ap_bits::{Items, NoMemory};
use ap_desc::design::{Arg, Field};
use ap_net::builder::Builder;
use ap_net::cell::{Cell, TwoOp, Wire};

/// The nets on which the lines of a stage stand.
#[derive(Drop)]
pub struct Ground {
    /// The stage's word.
    pub word: Wire,
    /// The word's address.
    pub place: Wire,
    /// The address after the word and its slots.
    pub link: Wire,
    /// The registers, by their numbers.
    pub regs: Items<Wire>,
    /// The input ports, by their numbers.
    pub inputs: Items<Wire>,
}

/// What the lines of an instruction may name besides the nets of their stage.
#[derive(Drop)]
pub struct Scope {
    /// The fields of the instruction's format.
    pub fields: Items<Field>,
    /// The widths of its locals.
    pub widths: Items<u32>,
}

/// The net at a place of a row.
pub(crate) fn net_at(row: &[Option<Wire>], place: u32) -> Option<Wire>
    requires { place < length row.now }
    ensures { slice_get row.now place ≡ Some result }
{
    row[place as usize]
}

/// The field at a place.
fn field_at(fields: &[Field], place: u32) -> &Field
    requires { place < length fields.now }
    ensures { slice_get fields.now place ≡ Some result.now }
{
    &fields[place as usize]
}

/// The bits of a word that a field has.
fn field_net(out: &mut Builder, word: Wire, field: &Field) -> Result<Wire, NoMemory>
    requires fresh { CanFresh out.old }
    requires word { IsNet out.old.nets word }
    requires field { LiesIn word.width field.now }
    ensures carries { IfOk result (Carries out.new field.now.width (λ r x.
        x ≡ field_value field.now (r.read word.number))) }
    ensures wiring { IfOk result (IsWiring (word.number ∷ []) out.old out.new) }
{
    let bits = sliced(out, word, field.low + field.width - 1, field.low)?;
    Ok(bits)
}

/// The net of an operand, where its local has one. Nothing is made where it has none.
pub fn operand_net(
    out: &mut Builder,
    ground: &Ground,
    scope: &Scope,
    row: &[Option<Wire>],
    arg: Arg,
) -> Result<Option<Wire>, NoMemory>
    requires fresh { CanFresh out.old }
    requires ground { IsGround out.old.nets ground.now }
    requires fields { LieIn ground.now.word.width scope.now }
    requires row { IsRow out.old.nets scope.now row.now }
    requires arg { IsArg (length scope.now.widths) scope.now.fields arg }
    ensures net { IfOk result (λ o.
        IfSome o (IsOperandNet out.new ground.now scope.now row.now arg)) }
    ensures wiring { IfOk result (λ o.
        IfSome o (IsWiring (source_numbers ground.now row.now) out.old out.new)) }
    ensures none { IfOk result (λ o. IfNone o (out.new ≡ out.old)) }
    ensures found { IfOk result (λ o. HasNet row.now arg ↔ IsSome o) }
{
    match arg {
        Arg::Local(i) => Ok(net_at(row, i)),
        Arg::Field(i) => {
            let fields = scope.fields.as_slice();
            let field = field_at(fields, i);
            let bits = field_net(out, ground.word, field)?;
            Ok(Some(bits))
        }
        Arg::Pc => Ok(Some(ground.place)),
        Arg::Link => Ok(Some(ground.link)),
    }
}

/// How far the address after a word and so many slots is from the word's, modulo 2^width.
fn step_of(slots: u32, width: u32) -> u64
    requires few { slots ≤ 8 }
    requires low { 1 ≤ width }
    requires high { width ≤ 64 }
    ensures { result ≡ (1 + slots) % 2 ^ width }
{
    let step = u64::from(1 + slots);
    if width < 8 {
        return step % (1 << width);
    }
    step
}

/// The address after a word and so many slots, from the word's address.
#[tactic(auto, using(ap_net::proofs::Laws::laws))]
pub fn link_net(out: &mut Builder, place: Wire, slots: u32) -> Result<Wire, NoMemory>
    requires fresh { CanFresh out.old }
    requires place { IsNet out.old.nets place }
    requires few { slots ≤ 8 }
    ensures carries { IfOk result (Carries out.new place.width (λ r x.
        x ≡ (r.read place.number + 1 + slots) % 2 ^ place.width)) }
    ensures wiring { IfOk result (IsWiring (place.number ∷ []) out.old out.new) }
{
    let step = constant(out, place.width, step_of(slots, place.width))?;
    let link = out.make(place.width, Cell::Two(TwoOp::Add, place, step))?;
    Ok(link)
}
