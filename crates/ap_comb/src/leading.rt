//! The bits above the highest 1.
ghost use Rattle.std.specs.Prelude.{◌≡◌, ℕ, [], ◌∷◌, ◌-◌, ◌/◌, ◌^◌, ◌<◌, ◌≤◌, IfOk, OnOk, bit_or};
ghost use Rattle.ap_net.specs.Cells.{IsNet};
ghost use Rattle.ap_net.specs.Draft.{CanFresh, Means};
ghost use Rattle.ap_net.specs.Making.{Makes};
ghost use Rattle.ap_net.specs.Readings.{Carries};
ghost use Rattle.ap_net.specs.Pending.{Yields};
ghost use Rattle.ap_bits.specs.Operations.{zeros_above};

use crate::parts::{upper_bits, widened};
use ap_bits::NoMemory;
use ap_net::builder::Builder;
use ap_net::cell::{Cell, TwoOp, Wire};

/// Each bit of a net or the one that stands `places` above it.
#[tactic(auto, using(ap_net::proofs::Laws::laws))]
fn or_above(out: &mut Builder, x: Wire, places: u32) -> Result<Wire, NoMemory>
    requires fresh { CanFresh out.old }
    requires x { IsNet out.old.nets x }
    requires some { 1 ≤ places }
    requires within { places < x.width }
    ensures net { IfOk result (λ y. IsNet out.new.nets y × (y.width ≡ x.width)) }
    ensures value { IfOk result (λ y. Means out.old out.new (λ read.
        read y.number ≡ bit_or (read x.number) (read x.number / 2 ^ places))) }
    ensures reads { IfOk result (Yields (x.number ∷ []) out.old out.new) }
    ensures makes { OnOk result (Makes out.old out.new) }
{
    let above = upper_bits(out, x, places)?;
    let lowered = widened(out, above, x.width)?;
    let either = out.make(x.width, Cell::Two(TwoOp::Or, x, lowered))?;
    Ok(either)
}

/// The running or from the top: ones from the highest 1 of a net down. In each round it reaches twice as far.
#[tactic(auto, using(ap_net::proofs::Laws::laws))]
pub fn running_or(out: &mut Builder, x: Wire) -> Result<Wire, NoMemory>
    requires fresh { CanFresh out.old }
    requires x { IsNet out.old.nets x }
    ensures net { IfOk result (λ y. IsNet out.new.nets y × (y.width ≡ x.width)) }
    ensures value { IfOk result (λ y. Means out.old out.new (λ read.
        read y.number ≡ 2 ^ (x.width - zeros_above x.width (read x.number)) - 1)) }
    ensures carries { IfOk result (Carries out.new x.width (λ r y.
        y ≡ 2 ^ (x.width - zeros_above x.width (r.read x.number)) - 1)) }
    ensures reads { IfOk result (Yields (x.number ∷ []) out.old out.new) }
    ensures makes { OnOk result (Makes out.old out.new) }
{
    let mut run = x;
    let mut reach = 1;
    while reach < x.width {
        run = or_above(out, run, reach)?;
        reach *= 2;
    }
    Ok(run)
}
