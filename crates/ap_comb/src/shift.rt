//! The kind `shift`: shifts to the left and to the right, and a rotation.
ghost use Rattle.std.specs.Prelude.{◌≡◌, ℕ, ◌-◌, ◌/◌, ◌%◌, ◌^◌, ◌<◌, ◌≤◌, ◌==◌, nat_lt, if◌then◌else◌, IfOk, OnOk, slice_get, Some, bit_and, bit_or, bit_xor, length, IsTrue, ◌∷◌, [], codes};
ghost use Rattle.ap_net.specs.Cells.{IsNet, AreOfOneWidth};
ghost use Rattle.ap_net.specs.Draft.{CanFresh, Means};
ghost use Rattle.ap_net.specs.Making.{Makes};
ghost use Rattle.ap_bits.specs.declared.term.BinOp.{BinOp};
ghost use Rattle.ap_bits.specs.Operations.{binary_value};
ghost use Rattle.ap_comb.specs.Moves.{moved_left, moved_right};
ghost use Rattle.ap_bits.specs.Cards.{allows};
ghost use Rattle.ap_bits.specs.declared.card.Widths.TheVariants.{PowersOfTwo};
ghost use Rattle.ap_bits.specs.KindCards.{shift_card};
ghost use Rattle.ap_comb.specs.Shifts.{shift_ops};
ghost use Rattle.ap_bits.specs.Cards.{FitsWidth};
ghost use Rattle.ap_unit.specs.Built.{IsBlank, IsUnitDraft};
ghost use Rattle.ap_unit.specs.Named.{NamesPlainly};

use crate::levels::{Way, shift_by_levels};
use crate::parts::{bit, repeated, upper_bits};
use ap_bits::value::binary;
use ap_bits::{BinOp, NoMemory};
use ap_net::builder::Builder;
use ap_net::cell::{Cell, TwoOp, Wire};
use ap_unit::{UnitKind, declare_inputs, show_result};

/// Whether a shift is below 2^`count`: none of its bits from `count` on is 1.
#[tactic(auto, using(ap_net::proofs::Laws::laws))]
pub fn is_within(out: &mut Builder, shift: Wire, count: u32) -> Result<Wire, NoMemory>
    requires fresh { CanFresh out.old }
    requires shift { IsNet out.old.nets shift }
    requires bits { count < shift.width }
    ensures net { IfOk result (λ y. IsNet out.new.nets y × (y.width ≡ 1)) }
    ensures value { IfOk result (λ y. Means out.old out.new (λ read.
        read y.number ≡ (if nat_lt (read shift.number) (2 ^ count) then 1 else 0))) }
    ensures makes { OnOk result (Makes out.old out.new) }
{
    let beyond = upper_bits(out, shift, count)?;
    let zero = out.make(shift.width - count, Cell::Const(0))?;
    let within = out.make(1, Cell::Two(TwoOp::Eq, beyond, zero))?;
    Ok(within)
}

/// The bit that comes in above: the high bit of `a` where the net `signed` is 1, else 0.
#[tactic(auto, using(ap_net::proofs::Laws::laws))]
pub fn fill_bit(out: &mut Builder, signed: Wire, a: Wire) -> Result<Wire, NoMemory>
    requires fresh { CanFresh out.old }
    requires signed { IsNet out.old.nets signed }
    requires one_bit { signed.width ≡ 1 }
    requires a { IsNet out.old.nets a }
    ensures net { IfOk result (λ y. IsNet out.new.nets y × (y.width ≡ 1)) }
    ensures value { IfOk result (λ y. Means out.old out.new (λ read.
        read y.number ≡ bit_and (read signed.number) (read a.number / 2 ^ (a.width - 1) % 2))) }
    ensures makes { OnOk result (Makes out.old out.new) }
{
    let sign = bit(out, a, a.width - 1)?;
    let fill = out.make(1, Cell::Two(TwoOp::And, signed, sign))?;
    Ok(fill)
}

/// What says which shift it is: the two bits of the operation's number, and the bit that comes in above.
#[derive(Clone, Copy, Debug)]
pub struct Control {
    /// The low bit of the number.
    pub low: Wire,
    /// The high bit of the number.
    pub high: Wire,
    /// The bit that comes in above.
    pub fill: Wire,
}

/// Makes the control: of the operations 0 to 3 the bit `high` tells a signed shift from one of 1 and 2, and a rotation from
/// a shift to the left of 0 and 3.
#[tactic(auto, using(ap_net::proofs::Laws::laws))]
pub fn make_control(out: &mut Builder, sel: Wire, a: Wire) -> Result<Control, NoMemory>
    requires fresh { CanFresh out.old }
    requires sel { IsNet out.old.nets sel }
    requires two_bits { sel.width ≡ 2 }
    requires a { IsNet out.old.nets a }
    ensures low { IfOk result (λ c. IsNet out.new.nets c.low × (c.low.width ≡ 1)) }
    ensures high { IfOk result (λ c. IsNet out.new.nets c.high × (c.high.width ≡ 1)) }
    ensures fill { IfOk result (λ c. IsNet out.new.nets c.fill × (c.fill.width ≡ 1)) }
    ensures value { IfOk result (λ c. Means out.old out.new (λ read.
        (read c.low.number ≡ read sel.number / 2 ^ 0 % 2) × (read c.high.number
        ≡ read sel.number / 2 ^ 1 % 2) × (read c.fill.number
        ≡ bit_and (read sel.number / 2 ^ 1 % 2) (read a.number / 2 ^ (a.width - 1) % 2)))) }
    ensures makes { OnOk result (Makes out.old out.new) }
{
    let low = bit(out, sel, 0)?;
    let high = bit(out, sel, 1)?;
    let fill = fill_bit(out, high, a)?;
    Ok(Control { low, high, fill })
}

/// The shift or rotation by as many places as the lowest `count` bits of `b` say: to the right for the operations 1 and 2.
#[tactic(auto, using(ap_net::proofs::Laws::laws))]
pub fn shift_near(
    out: &mut Builder,
    control: Control,
    a: Wire,
    b: Wire,
    count: u32,
) -> Result<Wire, NoMemory>
    requires fresh { CanFresh out.old }
    requires low { IsNet out.old.nets control.low × (control.low.width ≡ 1) }
    requires high { IsNet out.old.nets control.high × (control.high.width ≡ 1) }
    requires fill { IsNet out.old.nets control.fill × (control.fill.width ≡ 1) }
    requires a { IsNet out.old.nets a }
    requires b { IsNet out.old.nets b }
    requires width { a.width ≡ 2 ^ count }
    requires bits { count ≤ b.width }
    ensures net { IfOk result (λ y. IsNet out.new.nets y × (y.width ≡ a.width)) }
    ensures value { IfOk result (λ y. Means out.old out.new (λ read.
        read y.number ≡ (if bit_xor (read control.low.number) (read control.high.number) == 1
        then moved_right (read control.fill.number == 1) a.width (read a.number)
        (read b.number % 2 ^ count)
        else moved_left (read control.high.number == 1) a.width (read a.number)
        (read b.number % 2 ^ count)))) }
    ensures makes { OnOk result (Makes out.old out.new) }
{
    let left = shift_by_levels(out, Way::Left(control.high), a, b, count)?;
    let right = shift_by_levels(out, Way::Right(control.fill), a, b, count)?;
    let is_right = out.make(1, Cell::Two(TwoOp::Xor, control.low, control.high))?;
    let chosen = out.make(a.width, Cell::Choose(is_right, right, left))?;
    Ok(chosen)
}

/// The shift where it is below 2^`count`, else what a shift by more leaves. A rotation, operation 3, is never too far.
#[tactic(auto, using(ap_net::proofs::Laws::laws))]
pub fn limited(
    out: &mut Builder,
    control: Control,
    near: Wire,
    b: Wire,
    count: u32,
) -> Result<Wire, NoMemory>
    requires fresh { CanFresh out.old }
    requires low { IsNet out.old.nets control.low × (control.low.width ≡ 1) }
    requires high { IsNet out.old.nets control.high × (control.high.width ≡ 1) }
    requires fill { IsNet out.old.nets control.fill × (control.fill.width ≡ 1) }
    requires near { IsNet out.old.nets near }
    requires b { IsNet out.old.nets b }
    requires bits { count < b.width }
    ensures net { IfOk result (λ y. IsNet out.new.nets y × (y.width ≡ near.width)) }
    ensures value { IfOk result (λ y. Means out.old out.new (λ read.
        read y.number ≡ (if bit_or (if nat_lt (read b.number) (2 ^ count) then 1 else 0)
        (bit_and (read control.low.number) (read control.high.number)) == 1
        then read near.number
        else (if read control.fill.number == 1 then 2 ^ near.width - 1 else 0)))) }
    ensures makes { OnOk result (Makes out.old out.new) }
{
    let within = is_within(out, b, count)?;
    let turns = out.make(1, Cell::Two(TwoOp::And, control.low, control.high))?;
    let takes = out.make(1, Cell::Two(TwoOp::Or, within, turns))?;
    let far = repeated(out, control.fill, near.width)?;
    let chosen = out.make(near.width, Cell::Choose(takes, near, far))?;
    Ok(chosen)
}

/// The operation `sel` of a shifter on nets of 2^`count` bits.
#[tactic(auto, using(ap_net::proofs::Laws::laws))]
pub fn shifted(out: &mut Builder, sel: Wire, a: Wire, b: Wire, count: u32) -> Result<Wire, NoMemory>
    requires fresh { CanFresh out.old }
    requires sel { IsNet out.old.nets sel }
    requires two_bits { sel.width ≡ 2 }
    requires operands { AreOfOneWidth out.old.nets a b }
    requires width { a.width ≡ 2 ^ count }
    ensures net { IfOk result (λ y. IsNet out.new.nets y × (y.width ≡ a.width)) }
    ensures value { IfOk result (λ y. Means out.old out.new (λ read.
        (op : BinOp) → slice_get shift_ops (read sel.number) ≡ Some op
        → read y.number ≡ binary_value op a.width (read a.number) (read b.number))) }
    ensures makes { OnOk result (Makes out.old out.new) }
{
    let control = make_control(out, sel, a)?;
    let near = shift_near(out, control, a, b, count)?;
    let limited = limited(out, control, near, b, count)?;
    Ok(limited)
}

/// The operation of this number.
fn operation(op: u32) -> BinOp
    requires { op < 4 }
    ensures { slice_get shift_ops op ≡ Some result }
{
    match op {
        0 => BinOp::Sll,
        1 => BinOp::Srl,
        2 => BinOp::Sra,
        _ => BinOp::Rol,
    }
}

/// The number of levels for a width that is a power of two.
fn levels_of(w: u32) -> u32
    requires { IsTrue (allows PowersOfTwo w) }
    ensures { w ≡ 2 ^ result }
{
    w.trailing_zeros()
}

/// A shifter: `sll`, `srl`, `sra` and `rol`, at widths that are powers of two.
#[derive(Clone, Copy, Debug, PartialEq, Eq)]
pub struct Shift;

impl UnitKind for Shift {
    ghost card = { λ _. shift_card };

    fn name(&self) -> &str {
        "shift"
    }

    fn op_count(&self) -> u32 {
        4
    }

    fn op_name(&self, i: u32) -> &str {
        match i {
            0 => "sll",
            1 => "srl",
            2 => "sra",
            _ => "rol",
        }
    }

    fn fits(&self, w: u32) -> bool {
        matches!(w, 1 | 2 | 4 | 8 | 16 | 32 | 64)
    }

    fn latency(&self, _w: u32) -> u32 {
        1
    }

    fn value(&self, w: u32, op: u32, a: u64, b: u64) -> u64 {
        binary(operation(op), w, a, b)
    }

    /// Builds the unit; the wires of its module are named `n` and digits, and there are no registers.
    fn build(&self, w: u32, out: &mut Builder) -> Result<(), NoMemory>
        requires width { FitsWidth shift_card w }
        requires new { IsBlank out.old }
        ensures name { OnOk result (out.new.name ≡ out.old.name) }
        ensures unit { OnOk result (IsUnitDraft out.new shift_card w) }
        ensures names { OnOk result (NamesPlainly out.new) }
    {
        let inputs = declare_inputs(out, 2, w)?;
        let y = shifted(out, inputs.sel, inputs.a, inputs.b, levels_of(w))?;
        show_result(out, inputs, y)
    }
}
