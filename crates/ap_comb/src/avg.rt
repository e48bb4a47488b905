//! The kind `avg`: half of the sum.
ghost use Rattle.std.specs.Prelude.{◌≡◌, ℕ, ◌/◌, ◌%◌, ◌^◌, ◌<◌, ◌≤◌, IfOk, OnOk};
ghost use Rattle.ap_net.specs.Cells.{IsNet, AreOfOneWidth};
ghost use Rattle.ap_net.specs.Draft.{CanFresh, Means};
ghost use Rattle.ap_net.specs.Making.{Makes};
ghost use Rattle.ap_bits.specs.declared.term.BinOp.TheVariants.{Add, Srl};
ghost use Rattle.ap_bits.specs.Operations.{binary_value};
ghost use Rattle.ap_bits.specs.KindCards.{avg_card};
ghost use Rattle.ap_bits.specs.Cards.{FitsWidth};
ghost use Rattle.ap_unit.specs.Built.{IsBlank, IsUnitDraft};
ghost use Rattle.ap_unit.specs.Named.{NamesPlainly};

use crate::parts::{upper_bits, widened};
use ap_bits::value::binary;
use ap_bits::{BinOp, NoMemory};
use ap_net::builder::Builder;
use ap_net::cell::{Cell, TwoOp, Wire};
use ap_unit::{UnitKind, declare_inputs, show_result};

/// The sum of two nets of more than one bit, its carry left out, moved to the right by one place.
#[tactic(auto, using(ap_net::proofs::Laws::laws))]
pub fn half_of_sum(out: &mut Builder, a: Wire, b: Wire) -> Result<Wire, NoMemory>
    requires fresh { CanFresh out.old }
    requires operands { AreOfOneWidth out.old.nets a b }
    requires low { 1 < a.width }
    ensures net { IfOk result (λ y. IsNet out.new.nets y × (y.width ≡ a.width)) }
    ensures value { IfOk result (λ y. Means out.old out.new (λ read.
        read y.number ≡ binary_value Add a.width (read a.number) (read b.number) / 2 ^ 1)) }
    ensures makes { OnOk result (Makes out.old out.new) }
{
    let sum = out.make(a.width, Cell::Two(TwoOp::Add, a, b))?;
    let half = upper_bits(out, sum, 1)?;
    let wide = widened(out, half, a.width)?;
    Ok(wide)
}

/// The sum of two nets, its carry left out, shifted right by 1: at one bit this is 0.
#[tactic(auto, using(ap_net::proofs::Laws::laws))]
pub fn average(out: &mut Builder, a: Wire, b: Wire) -> Result<Wire, NoMemory>
    requires fresh { CanFresh out.old }
    requires operands { AreOfOneWidth out.old.nets a b }
    ensures net { IfOk result (λ y. IsNet out.new.nets y × (y.width ≡ a.width)) }
    ensures value { IfOk result (λ y. Means out.old out.new (λ read.
        read y.number ≡ binary_value Srl a.width
        (binary_value Add a.width (read a.number) (read b.number)) 1)) }
    ensures makes { OnOk result (Makes out.old out.new) }
{
    if a.width == 1 {
        let zero = out.make(1, Cell::Const(0))?;
        return Ok(zero);
    }
    half_of_sum(out, a, b)
}

/// An averager: `avg`, half of the sum rounded down, where the sum leaves its carry out.
#[derive(Clone, Copy, Debug, PartialEq, Eq)]
pub struct Avg;

impl UnitKind for Avg {
    ghost card = { λ _. avg_card };

    fn name(&self) -> &str {
        "avg"
    }

    fn op_count(&self) -> u32 {
        1
    }

    fn op_name(&self, _i: u32) -> &str {
        "avg"
    }

    fn fits(&self, w: u32) -> bool {
        1 <= w && w <= 64
    }

    fn latency(&self, _w: u32) -> u32 {
        1
    }

    fn value(&self, w: u32, _op: u32, a: u64, b: u64) -> u64 {
        binary(BinOp::Srl, w, binary(BinOp::Add, w, a, b), 1)
    }

    /// Builds the unit; the wires of its module are named `n` and digits, and there are no registers.
    fn build(&self, w: u32, out: &mut Builder) -> Result<(), NoMemory>
        requires width { FitsWidth avg_card w }
        requires new { IsBlank out.old }
        ensures name { OnOk result (out.new.name ≡ out.old.name) }
        ensures unit { OnOk result (IsUnitDraft out.new avg_card w) }
        ensures names { OnOk result (NamesPlainly out.new) }
    {
        let inputs = declare_inputs(out, 1, w)?;
        let y = average(out, inputs.a, inputs.b)?;
        show_result(out, inputs, y)
    }
}
