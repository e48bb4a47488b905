//! A sum with its carry, which the subset has no operator for: no net is wider than 64 bits.
ghost use Rattle.std.specs.Prelude.{◌≡◌, ◌≤◌, IfOk, OnOk};
ghost use Rattle.ap_net.specs.Cells.{IsNet};
ghost use Rattle.ap_net.specs.Draft.{CanFresh};
ghost use Rattle.ap_net.specs.Making.{Makes};
ghost use Rattle.ap_unit.specs.Stepping.{Gives};
ghost use Rattle.ap_mul.specs.Sums.{sum_at, carry_at, carry_by};

use ap_bits::NoMemory;
use ap_comb::parts::bit;
use ap_net::builder::Builder;
use ap_net::cell::{Cell, TwoOp, Wire};

/// A sum of the operands' width, and the bit above it.
#[derive(Clone, Copy, Debug)]
pub struct Sum {
    pub sum: Wire,
    pub carry: Wire,
}

/// What the highest bits of two operands and of their sum carry: both bits where the sum's is 1, else either of them.
#[tactic(auto, using(ap_net::proofs::Laws::laws))]
fn carry_of(out: &mut Builder, a: Wire, b: Wire, sum: Wire) -> Result<Wire, NoMemory>
    requires fresh { CanFresh out.old }
    requires a { IsNet out.old.nets a }
    requires b { IsNet out.old.nets b }
    requires sum { IsNet out.old.nets sum }
    requires a_bit { a.width ≡ 1 }
    requires b_bit { b.width ≡ 1 }
    requires sum_bit { sum.width ≡ 1 }
    ensures net { IfOk result (λ y. IsNet out.new.nets y × (y.width ≡ 1)) }
    ensures value { IfOk result (λ y. Gives out.old out.new (λ read.
        read y.number ≡ carry_by (read sum.number) (read a.number) (read b.number))) }
    ensures makes { OnOk result (Makes out.old out.new) }
{
    let both = out.make(1, Cell::Two(TwoOp::And, a, b))?;
    let either = out.make(1, Cell::Two(TwoOp::Or, a, b))?;
    let carry = out.make(1, Cell::Choose(sum, both, either))?;
    Ok(carry)
}

/// What a sum of two nets carries out of their width.
#[tactic(auto, using(ap_net::proofs::Laws::laws))]
fn carry_out(out: &mut Builder, a: Wire, b: Wire, sum: Wire) -> Result<Wire, NoMemory>
    requires fresh { CanFresh out.old }
    requires a { IsNet out.old.nets a }
    requires b { IsNet out.old.nets b }
    requires sum { IsNet out.old.nets sum }
    requires same { b.width ≡ a.width }
    requires sum_width { sum.width ≡ a.width }
    requires low { 1 ≤ a.width }
    ensures net { IfOk result (λ y. IsNet out.new.nets y × (y.width ≡ 1)) }
    ensures value { IfOk result (λ y. Gives out.old out.new (λ read.
        read sum.number ≡ sum_at a.width (read a.number) (read b.number)
        → read y.number ≡ carry_at a.width (read a.number) (read b.number))) }
    ensures makes { OnOk result (Makes out.old out.new) }
{
    let top = a.width - 1;
    let a_top = bit(out, a, top)?;
    let b_top = bit(out, b, top)?;
    let sum_top = bit(out, sum, top)?;
    let carry = carry_of(out, a_top, b_top, sum_top)?;
    Ok(carry)
}

/// The sum of two nets.
#[tactic(auto, using(ap_net::proofs::Laws::laws))]
pub fn sum_with_carry(out: &mut Builder, a: Wire, b: Wire) -> Result<Sum, NoMemory>
    requires fresh { CanFresh out.old }
    requires a { IsNet out.old.nets a }
    requires b { IsNet out.old.nets b }
    requires same { b.width ≡ a.width }
    requires low { 1 ≤ a.width }
    requires high { a.width ≤ 64 }
    ensures sum { IfOk result (λ s. IsNet out.new.nets s.sum × (s.sum.width ≡ a.width)) }
    ensures carry { IfOk result (λ s. IsNet out.new.nets s.carry × (s.carry.width ≡ 1)) }
    ensures value { IfOk result (λ s. Gives out.old out.new (λ read.
        (read s.sum.number ≡ sum_at a.width (read a.number) (read b.number))
        × (read s.carry.number ≡ carry_at a.width (read a.number) (read b.number)))) }
    ensures makes { OnOk result (Makes out.old out.new) }
{
    let sum = out.make(a.width, Cell::Two(TwoOp::Add, a, b))?;
    let carry = carry_out(out, a, b, sum)?;
    Ok(Sum { sum, carry })
}
