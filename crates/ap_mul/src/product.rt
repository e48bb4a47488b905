//! The multiplier.
ghost use Rattle.std.specs.Prelude.{◌≡◌, ◌+◌, ◌-◌, ◌*◌, ◌/◌, ◌%◌, ◌^◌, ◌≤◌, IfOk, OnOk};
ghost use Rattle.ap_net.specs.Cells.{IsNet};
ghost use Rattle.ap_net.specs.Draft.{CanFresh};
ghost use Rattle.ap_net.specs.Making.{Makes};
ghost use Rattle.ap_bits.specs.Cards.{FitsWidth};
ghost use Rattle.ap_unit.specs.Built.{IsBlank, IsUnitDraft};
ghost use Rattle.ap_unit.specs.Named.{NamesPlainly};
ghost use Rattle.ap_unit.specs.Stepping.{HoldsStepper, IsPair, MakesStep, Gives, state_of};
ghost use Rattle.ap_bits.specs.KindCards.{mul_card};
ghost use Rattle.ap_mul.specs.Products.{multiply, product_step};

use crate::sum::sum_with_carry;
use ap_bits::value::binary;
use ap_bits::{BinOp, NoMemory};
use ap_comb::parts::{bit, upper_bits};
use ap_net::builder::Builder;
use ap_net::cell::{Cell, Wire};
use ap_unit::{Pair, Stepper, UnitKind, begin_steps, end_steps, state_before};

/// A net moved down by one place, with a bit set in at the top.
#[tactic(auto, using(ap_net::proofs::Laws::laws))]
fn moved_down(out: &mut Builder, x: Wire, top: Wire) -> Result<Wire, NoMemory>
    requires fresh { CanFresh out.old }
    requires x { IsNet out.old.nets x }
    requires top { IsNet out.old.nets top }
    requires one_bit { top.width ≡ 1 }
    requires low { 1 ≤ x.width }
    requires high { x.width ≤ 64 }
    ensures net { IfOk result (λ y. IsNet out.new.nets y × (y.width ≡ x.width)) }
    ensures value { IfOk result (λ y. Gives out.old out.new (λ read.
        read y.number ≡ read top.number * 2 ^ (x.width - 1) + read x.number / 2)) }
    ensures makes { OnOk result (Makes out.old out.new) }
{
    if x.width == 1 {
        return Ok(top);
    }
    let upper = upper_bits(out, x, 1)?;
    let moved = out.make(x.width, Cell::Cat(top, upper))?;
    Ok(moved)
}

/// The net `a` where the lowest bit of `x` is 1, else 0.
#[tactic(auto, using(ap_net::proofs::Laws::laws))]
fn once_or_never(out: &mut Builder, a: Wire, x: Wire) -> Result<Wire, NoMemory>
    requires fresh { CanFresh out.old }
    requires a { IsNet out.old.nets a }
    requires x { IsNet out.old.nets x }
    requires same { x.width ≡ a.width }
    requires low { 1 ≤ a.width }
    requires high { a.width ≤ 64 }
    ensures net { IfOk result (λ y. IsNet out.new.nets y × (y.width ≡ a.width)) }
    ensures value { IfOk result (λ y. Gives out.old out.new (λ read.
        read y.number ≡ read x.number % 2 * read a.number)) }
    ensures makes { OnOk result (Makes out.old out.new) }
{
    let lowest = bit(out, x, 0)?;
    let zero = out.make(a.width, Cell::Const(0))?;
    let addend = out.make(a.width, Cell::Choose(lowest, a, zero))?;
    Ok(addend)
}

/// A step: the first factor is added where the lowest bit is 1, and the sum and the low number move down by a bit.
#[tactic(auto, using(ap_net::proofs::Laws::laws))]
fn make_step(out: &mut Builder, a: Wire, before: Pair) -> Result<Pair, NoMemory>
    requires fresh { CanFresh out.old }
    requires a { IsNet out.old.nets a }
    requires before { IsPair out.old.nets a.width before }
    requires low { 1 ≤ a.width }
    requires high { a.width ≤ 64 }
    ensures pair { IfOk result (λ y. IsPair out.new.nets a.width y) }
    ensures value { IfOk result (λ y. Gives out.old out.new (λ read.
        state_of read y ≡ product_step a.width (read a.number) (state_of read before))) }
    ensures makes { OnOk result (Makes out.old out.new) }
{
    let addend = once_or_never(out, a, before.low)?;
    let total = sum_with_carry(out, before.high, addend)?;
    let lowest = bit(out, total.sum, 0)?;
    let high = moved_down(out, total.sum, total.carry)?;
    let low = moved_down(out, before.low, lowest)?;
    Ok(Pair { high, low })
}

/// The nets of a step of the multiplier, from 0 and the second factor on.
#[tactic(auto, using(ap_net::proofs::Laws::laws, ap_unit::proofs::Begun::begun_laws))]
fn multiply_step(out: &mut Builder, unit: Stepper) -> Result<Pair, NoMemory>
    requires unit { HoldsStepper out.old unit }
    requires fresh { CanFresh out.old }
    ensures pair { IfOk result (λ y. IsPair out.new.nets unit.a.width y) }
    ensures step { IfOk result (λ y. MakesStep out.new unit (multiply unit.a.width) y) }
    ensures makes { OnOk result (Makes out.old out.new) }
{
    let zero = out.make(unit.a.width, Cell::Const(0))?;
    let first = Pair {
        high: zero,
        low: unit.b,
    };
    let before = state_before(out, unit, first)?;
    let next = make_step(out, unit.a, before)?;
    Ok(next)
}

/// A multiplier: `mullo` and `mulhi`, the low and the high half of the product of two numbers without sign.
#[derive(Clone, Copy, Debug, PartialEq, Eq)]
pub struct Mul;

#[tactic(auto, using(ap_unit::proofs::Laws::kind_cards))]
impl UnitKind for Mul {
    ghost card = { λ _. mul_card };

    fn name(&self) -> &str {
        "mul"
    }

    fn op_count(&self) -> u32 {
        2
    }

    fn op_name(&self, i: u32) -> &str {
        if i == 0 { "mullo" } else { "mulhi" }
    }

    fn fits(&self, w: u32) -> bool {
        1 <= w && w <= 64
    }

    fn latency(&self, w: u32) -> u32 {
        w + 1
    }

    fn value(&self, w: u32, op: u32, a: u64, b: u64) -> u64 {
        if op == 0 {
            binary(BinOp::Mullo, w, a, b)
        } else {
            binary(BinOp::Mulhi, w, a, b)
        }
    }

    /// Builds the unit; the wires of its module are named `n` and digits, its registers `q` and digits.
    fn build(&self, w: u32, out: &mut Builder) -> Result<(), NoMemory>
        requires width { FitsWidth mul_card w }
        requires new { IsBlank out.old }
        ensures name { OnOk result (out.new.name ≡ out.old.name) }
        ensures unit { OnOk result (IsUnitDraft out.new mul_card w) }
        ensures names { OnOk result (NamesPlainly out.new) }
    {
        let unit = begin_steps(out, w)?;
        let next = multiply_step(out, unit)?;
        end_steps(out, unit, next)
    }
}
