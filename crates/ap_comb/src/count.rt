//! The kind `count`: how many bits are 1, and how many stand above the highest 1.
ghost use Rattle.std.specs.Prelude.{◌≡◌, ℕ, ◌-◌, ◌^◌, ◌<◌, ◌≤◌, ◌==◌, if◌then◌else◌, IfOk, OnOk, slice_get, Some};
ghost use Rattle.ap_net.specs.Cells.{IsNet};
ghost use Rattle.ap_net.specs.Draft.{CanFresh, Means};
ghost use Rattle.ap_net.specs.Making.{Makes};
ghost use Rattle.ap_bits.specs.declared.term.UnOp.{UnOp};
ghost use Rattle.ap_bits.specs.Operations.{unary_value, zeros_above};
ghost use Rattle.ap_bits.specs.KindCards.{count_card};
ghost use Rattle.ap_comb.specs.Counts.{count_ops};
ghost use Rattle.ap_bits.specs.Cards.{FitsWidth};
ghost use Rattle.ap_unit.specs.Built.{IsBlank, IsUnitDraft};
ghost use Rattle.ap_unit.specs.Named.{NamesPlainly};

use crate::leading::running_or;
use crate::sums::ones;
use ap_bits::value::unary;
use ap_bits::{NoMemory, UnOp};
use ap_net::builder::Builder;
use ap_net::cell::{Cell, Wire};
use ap_unit::{UnitKind, declare_inputs, show_result};

/// The bits to be counted: where the net `leading` is 1, ones above the highest 1 of `x`, else `x`.
#[tactic(auto, using(ap_net::proofs::Laws::laws))]
pub fn counted_bits(out: &mut Builder, leading: Wire, x: Wire) -> Result<Wire, NoMemory>
    requires fresh { CanFresh out.old }
    requires leading { IsNet out.old.nets leading }
    requires one_bit { leading.width ≡ 1 }
    requires x { IsNet out.old.nets x }
    ensures net { IfOk result (λ y. IsNet out.new.nets y × (y.width ≡ x.width)) }
    ensures value { IfOk result (λ y. Means out.old out.new (λ read.
        read y.number ≡ (if read leading.number == 1
        then 2 ^ x.width - 1 - (2 ^ (x.width - zeros_above x.width (read x.number)) - 1)
        else read x.number))) }
    ensures makes { OnOk result (Makes out.old out.new) }
{
    let run = running_or(out, x)?;
    let above = out.make(x.width, Cell::Not(run))?;
    let chosen = out.make(x.width, Cell::Choose(leading, above, x))?;
    Ok(chosen)
}

/// The operation `sel` of a counter of bits.
#[tactic(auto, using(ap_net::proofs::Laws::laws))]
pub fn number_of_bits(out: &mut Builder, sel: Wire, a: Wire) -> Result<Wire, NoMemory>
    requires fresh { CanFresh out.old }
    requires sel { IsNet out.old.nets sel }
    requires one_bit { sel.width ≡ 1 }
    requires a { IsNet out.old.nets a }
    ensures net { IfOk result (λ y. IsNet out.new.nets y × (y.width ≡ a.width)) }
    ensures value { IfOk result (λ y. Means out.old out.new (λ read.
        (op : UnOp) → slice_get count_ops (read sel.number) ≡ Some op
        → read y.number ≡ unary_value op a.width (read a.number))) }
    ensures makes { OnOk result (Makes out.old out.new) }
{
    let counted = counted_bits(out, sel, a)?;
    let number = ones(out, counted)?;
    Ok(number)
}

/// The operation of this number.
fn operation(op: u32) -> UnOp
    requires { op < 2 }
    ensures { slice_get count_ops op ≡ Some result }
{
    if op == 0 { UnOp::Pop } else { UnOp::Clz }
}

/// A counter of bits: `pop` and `clz`, of the first operand.
#[derive(Clone, Copy, Debug, PartialEq, Eq)]
pub struct Count;

impl UnitKind for Count {
    ghost card = { λ _. count_card };

    fn name(&self) -> &str {
        "count"
    }

    fn op_count(&self) -> u32 {
        2
    }

    fn op_name(&self, i: u32) -> &str {
        if i == 0 { "pop" } else { "clz" }
    }

    fn fits(&self, w: u32) -> bool {
        1 <= w && w <= 64
    }

    fn latency(&self, _w: u32) -> u32 {
        1
    }

    fn value(&self, w: u32, op: u32, a: u64, _b: u64) -> u64 {
        unary(operation(op), w, a)
    }

    /// Builds the unit; the wires of its module are named `n` and digits, and there are no registers.
    fn build(&self, w: u32, out: &mut Builder) -> Result<(), NoMemory>
        requires width { FitsWidth count_card w }
        requires new { IsBlank out.old }
        ensures name { OnOk result (out.new.name ≡ out.old.name) }
        ensures unit { OnOk result (IsUnitDraft out.new count_card w) }
        ensures names { OnOk result (NamesPlainly out.new) }
    {
        let inputs = declare_inputs(out, 1, w)?;
        let y = number_of_bits(out, inputs.sel, inputs.a)?;
        show_result(out, inputs, y)
    }
}
