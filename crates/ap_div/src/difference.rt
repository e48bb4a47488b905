//! A difference, and whether the second operand goes into the first. The highest bits tell it, with no further comparison.
ghost use Rattle.std.specs.Prelude.{◌≡◌, ◌≤◌, IfOk, OnOk};
ghost use Rattle.ap_net.specs.Cells.{IsNet};
ghost use Rattle.ap_net.specs.Draft.{CanFresh};
ghost use Rattle.ap_net.specs.Making.{Makes};
ghost use Rattle.ap_unit.specs.Stepping.{Gives};
ghost use Rattle.ap_div.specs.Differences.{difference_at, cover_of, cover_by};

use ap_bits::NoMemory;
use ap_comb::parts::bit;
use ap_net::builder::Builder;
use ap_net::cell::{Cell, TwoOp, Wire};

/// A difference of the operands' width, and one bit that is 1 where the second operand isn't above the first.
#[derive(Clone, Copy, Debug)]
pub struct Difference {
    pub difference: Wire,
    pub covers: Wire,
}

/// Whether a difference is not below 0, by the highest bits of the operands and of the difference.
#[tactic(auto, using(ap_net::proofs::Laws::laws))]
fn covers_by(out: &mut Builder, a: Wire, b: Wire, difference: Wire) -> Result<Wire, NoMemory>
    requires fresh { CanFresh out.old }
    requires a { IsNet out.old.nets a }
    requires b { IsNet out.old.nets b }
    requires difference { IsNet out.old.nets difference }
    requires a_bit { a.width ≡ 1 }
    requires b_bit { b.width ≡ 1 }
    requires difference_bit { difference.width ≡ 1 }
    ensures net { IfOk result (λ y. IsNet out.new.nets y × (y.width ≡ 1)) }
    ensures value { IfOk result (λ y. Gives out.old out.new (λ read.
        read y.number ≡ cover_by (read difference.number) (read a.number) (read b.number))) }
    ensures makes { OnOk result (Makes out.old out.new) }
{
    let other = out.make(1, Cell::Not(b))?;
    let both = out.make(1, Cell::Two(TwoOp::And, a, other))?;
    let either = out.make(1, Cell::Two(TwoOp::Or, a, other))?;
    let covers = out.make(1, Cell::Choose(difference, both, either))?;
    Ok(covers)
}

/// Whether a difference of two nets is not below 0.
#[tactic(auto, using(ap_net::proofs::Laws::laws))]
fn covers_out(out: &mut Builder, a: Wire, b: Wire, difference: Wire) -> Result<Wire, NoMemory>
    requires fresh { CanFresh out.old }
    requires a { IsNet out.old.nets a }
    requires b { IsNet out.old.nets b }
    requires difference { IsNet out.old.nets difference }
    requires same { b.width ≡ a.width }
    requires difference_width { difference.width ≡ a.width }
    requires low { 1 ≤ a.width }
    ensures net { IfOk result (λ y. IsNet out.new.nets y × (y.width ≡ 1)) }
    ensures value { IfOk result (λ y. Gives out.old out.new (λ read.
        read difference.number ≡ difference_at a.width (read a.number) (read b.number)
        → read y.number ≡ cover_of (read a.number) (read b.number))) }
    ensures makes { OnOk result (Makes out.old out.new) }
{
    let top = a.width - 1;
    let a_top = bit(out, a, top)?;
    let b_top = bit(out, b, top)?;
    let difference_top = bit(out, difference, top)?;
    let covers = covers_by(out, a_top, b_top, difference_top)?;
    Ok(covers)
}

/// The difference of two nets.
#[tactic(auto, using(ap_net::proofs::Laws::laws))]
pub fn difference_with_cover(out: &mut Builder, a: Wire, b: Wire) -> Result<Difference, NoMemory>
    requires fresh { CanFresh out.old }
    requires a { IsNet out.old.nets a }
    requires b { IsNet out.old.nets b }
    requires same { b.width ≡ a.width }
    requires low { 1 ≤ a.width }
    requires high { a.width ≤ 64 }
    ensures difference { IfOk result (λ d. IsNet out.new.nets d.difference × (d.difference.width ≡ a.width)) }
    ensures covers { IfOk result (λ d. IsNet out.new.nets d.covers × (d.covers.width ≡ 1)) }
    ensures value { IfOk result (λ d. Gives out.old out.new (λ read.
        (read d.difference.number ≡ difference_at a.width (read a.number) (read b.number))
        × (read d.covers.number ≡ cover_of (read a.number) (read b.number)))) }
    ensures makes { OnOk result (Makes out.old out.new) }
{
    let difference = out.make(a.width, Cell::Two(TwoOp::Sub, a, b))?;
    let covers = covers_out(out, a, b, difference)?;
    Ok(Difference { difference, covers })
}
