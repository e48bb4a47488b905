//! The divider.
ghost use Rattle.std.specs.Prelude.{◌≡◌, ◌+◌, ◌-◌, ◌*◌, ◌/◌, ◌%◌, ◌^◌, ◌≤◌, bit_or, IfOk, OnOk};
ghost use Rattle.ap_net.specs.Cells.{IsNet};
ghost use Rattle.ap_net.specs.Draft.{CanFresh};
ghost use Rattle.ap_net.specs.Making.{Makes};
ghost use Rattle.ap_bits.specs.Cards.{FitsWidth};
ghost use Rattle.ap_unit.specs.Built.{IsBlank, IsUnitDraft};
ghost use Rattle.ap_unit.specs.Named.{NamesPlainly};
ghost use Rattle.ap_unit.specs.Stepping.{HoldsStepper, IsPair, MakesStep, Gives, state_of};
ghost use Rattle.ap_bits.specs.KindCards.{div_card};
ghost use Rattle.ap_div.specs.Quotients.{divide, longer_rest, quotient_step};

use crate::difference::difference_with_cover;
use ap_bits::value::binary;
use ap_bits::{BinOp, NoMemory};
use ap_comb::parts::{bit, lower_bits};
use ap_net::builder::Builder;
use ap_net::cell::{Cell, TwoOp, Wire};
use ap_unit::{Pair, Stepper, UnitKind, begin_steps, end_steps, state_before};

/// A net moved up by one place, with a bit set in below; its highest bit goes out.
#[tactic(auto, using(ap_net::proofs::Laws::laws))]
fn moved_up(out: &mut Builder, x: Wire, lowest: Wire) -> Result<Wire, NoMemory>
    requires fresh { CanFresh out.old }
    requires x { IsNet out.old.nets x }
    requires lowest { IsNet out.old.nets lowest }
    requires one_bit { lowest.width ≡ 1 }
    requires low { 1 ≤ x.width }
    requires high { x.width ≤ 64 }
    ensures net { IfOk result (λ y. IsNet out.new.nets y × (y.width ≡ x.width)) }
    ensures value { IfOk result (λ y. Gives out.old out.new (λ read.
        read y.number ≡ read x.number % 2 ^ (x.width - 1) * 2 + read lowest.number)) }
    ensures makes { OnOk result (Makes out.old out.new) }
{
    if x.width == 1 {
        return Ok(lowest);
    }
    let lower = lower_bits(out, x, x.width - 1)?;
    let moved = out.make(x.width, Cell::Cat(lower, lowest))?;
    Ok(moved)
}

/// The rest with the next bit of the dividend below it, without the bit that goes out at the top.
#[tactic(auto, using(ap_net::proofs::Laws::laws))]
fn longer(out: &mut Builder, before: Pair) -> Result<Wire, NoMemory>
    requires fresh { CanFresh out.old }
    requires before { IsPair out.old.nets before.high.width before }
    requires low { 1 ≤ before.high.width }
    requires high { before.high.width ≤ 64 }
    ensures net { IfOk result (λ y. IsNet out.new.nets y × (y.width ≡ before.high.width)) }
    ensures value { IfOk result (λ y. Gives out.old out.new (λ read.
        read y.number ≡ longer_rest before.high.width (state_of read before) % 2 ^ before.high.width)) }
    ensures makes { OnOk result (Makes out.old out.new) }
{
    let next = bit(out, before.low, before.low.width - 1)?;
    let rest = moved_up(out, before.high, next)?;
    Ok(rest)
}

/// Whether a bit is 1 at the top of the rest before, or at this net.
#[tactic(auto, using(ap_net::proofs::Laws::laws))]
fn top_or(out: &mut Builder, x: Wire, other: Wire) -> Result<Wire, NoMemory>
    requires fresh { CanFresh out.old }
    requires x { IsNet out.old.nets x }
    requires other { IsNet out.old.nets other }
    requires one_bit { other.width ≡ 1 }
    requires low { 1 ≤ x.width }
    ensures net { IfOk result (λ y. IsNet out.new.nets y × (y.width ≡ 1)) }
    ensures value { IfOk result (λ y. Gives out.old out.new (λ read.
        read y.number ≡ bit_or (read x.number / 2 ^ (x.width - 1) % 2) (read other.number))) }
    ensures makes { OnOk result (Makes out.old out.new) }
{
    let top = bit(out, x, x.width - 1)?;
    let either = out.make(1, Cell::Two(TwoOp::Or, top, other))?;
    Ok(either)
}

/// A step: the divisor is taken off the longer rest where it goes into it, and a bit of the quotient says so.
#[tactic(auto, using(ap_net::proofs::Laws::laws))]
fn make_step(out: &mut Builder, b: Wire, before: Pair) -> Result<Pair, NoMemory>
    requires fresh { CanFresh out.old }
    requires b { IsNet out.old.nets b }
    requires before { IsPair out.old.nets b.width before }
    requires low { 1 ≤ b.width }
    requires high { b.width ≤ 64 }
    ensures pair { IfOk result (λ y. IsPair out.new.nets b.width y) }
    ensures value { IfOk result (λ y. Gives out.old out.new (λ read.
        state_of read y ≡ quotient_step b.width (read b.number) (state_of read before))) }
    ensures makes { OnOk result (Makes out.old out.new) }
{
    let rest = longer(out, before)?;
    let less = difference_with_cover(out, rest, b)?;
    let fits = top_or(out, before.high, less.covers)?;
    let high = out.make(b.width, Cell::Choose(fits, less.difference, rest))?;
    let low = moved_up(out, before.low, fits)?;
    Ok(Pair { high, low })
}

/// The nets of a step of the divider, from 0 and the dividend on.
#[tactic(auto, using(ap_net::proofs::Laws::laws, ap_unit::proofs::Begun::begun_laws))]
fn divide_step(out: &mut Builder, unit: Stepper) -> Result<Pair, NoMemory>
    requires unit { HoldsStepper out.old unit }
    requires fresh { CanFresh out.old }
    ensures pair { IfOk result (λ y. IsPair out.new.nets unit.a.width y) }
    ensures step { IfOk result (λ y. MakesStep out.new unit (divide unit.a.width) y) }
    ensures makes { OnOk result (Makes out.old out.new) }
{
    let zero = out.make(unit.a.width, Cell::Const(0))?;
    let first = Pair {
        high: zero,
        low: unit.a,
    };
    let before = state_before(out, unit, first)?;
    let next = make_step(out, unit.b, before)?;
    Ok(next)
}

/// A divider: `divu` and `remu`, the quotient and the remainder of two numbers without sign. With a divisor of 0 they are all
/// ones and the dividend.
#[derive(Clone, Copy, Debug, PartialEq, Eq)]
pub struct Div;

#[tactic(auto, using(ap_unit::proofs::Laws::kind_cards))]
impl UnitKind for Div {
    ghost card = { λ _. div_card };

    fn name(&self) -> &str {
        "div"
    }

    fn op_count(&self) -> u32 {
        2
    }

    fn op_name(&self, i: u32) -> &str {
        if i == 0 { "divu" } else { "remu" }
    }

    fn fits(&self, w: u32) -> bool {
        1 <= w && w <= 64
    }

    fn latency(&self, w: u32) -> u32 {
        w + 1
    }

    fn value(&self, w: u32, op: u32, a: u64, b: u64) -> u64 {
        if op == 0 {
            binary(BinOp::Divu, w, a, b)
        } else {
            binary(BinOp::Remu, w, a, b)
        }
    }

    /// Builds the unit; the wires of its module are named `n` and digits, its registers `q` and digits.
    fn build(&self, w: u32, out: &mut Builder) -> Result<(), NoMemory>
        requires width { FitsWidth div_card w }
        requires new { IsBlank out.old }
        ensures name { OnOk result (out.new.name ≡ out.old.name) }
        ensures unit { OnOk result (IsUnitDraft out.new div_card w) }
        ensures names { OnOk result (NamesPlainly out.new) }
    {
        let unit = begin_steps(out, w)?;
        let next = divide_step(out, unit)?;
        end_steps(out, unit, next)
    }
}
