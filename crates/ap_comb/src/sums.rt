//! How many bits are 1, by a balanced tree of sums.
ghost use Rattle.std.specs.Prelude.{◌≡◌, ℕ, [], ◌∷◌, ◌+◌, ◌/◌, ◌^◌, ◌<◌, ◌≤◌, IfOk, OnOk};
ghost use Rattle.ap_net.specs.Cells.{IsNet};
ghost use Rattle.ap_net.specs.Draft.{CanFresh, Means};
ghost use Rattle.ap_net.specs.Making.{Makes};
ghost use Rattle.ap_net.specs.Readings.{Carries};
ghost use Rattle.ap_net.specs.Pending.{Yields};
ghost use Rattle.ap_bits.specs.Operations.{ones_among};

use crate::parts::{bit, widened};
use ap_bits::NoMemory;
use ap_net::builder::Builder;
use ap_net::cell::{Cell, TwoOp, Wire};

/// One bit of a net, in `width` bits.
#[tactic(auto, using(ap_net::proofs::Laws::laws))]
fn wide_bit(out: &mut Builder, x: Wire, place: u32, width: u32) -> Result<Wire, NoMemory>
    requires fresh { CanFresh out.old }
    requires x { IsNet out.old.nets x }
    requires within { place < x.width }
    requires some { 1 ≤ width }
    requires high { width ≤ 64 }
    ensures net { IfOk result (λ y. IsNet out.new.nets y × (y.width ≡ width)) }
    ensures value { IfOk result (λ y. Means out.old out.new (λ read.
        read y.number ≡ ones_among 1 (read x.number / 2 ^ place))) }
    ensures reads { IfOk result (Yields (x.number ∷ []) out.old out.new) }
    ensures makes { OnOk result (Makes out.old out.new) }
{
    let narrow = bit(out, x, place)?;
    let wide = widened(out, narrow, width)?;
    Ok(wide)
}

/// How many of the `count` bits of `x` from the bit `low` on are 1, in `width` bits: the sum of those of each half.
#[tactic(auto, using(ap_net::proofs::Laws::laws))]
fn ones_from(out: &mut Builder, x: Wire, low: u32, count: u32, width: u32) -> Result<Wire, NoMemory>
    requires fresh { CanFresh out.old }
    requires x { IsNet out.old.nets x }
    requires some { 1 ≤ count }
    requires within { low + count ≤ x.width }
    requires room { count < 2 ^ width }
    requires width { 1 ≤ width }
    requires high { width ≤ 64 }
    ensures net { IfOk result (λ y. IsNet out.new.nets y × (y.width ≡ width)) }
    ensures value { IfOk result (λ y. Means out.old out.new (λ read.
        read y.number ≡ ones_among count (read x.number / 2 ^ low))) }
    ensures reads { IfOk result (Yields (x.number ∷ []) out.old out.new) }
    ensures makes { OnOk result (Makes out.old out.new) }
{
    if count == 1 {
        return wide_bit(out, x, low, width);
    }
    let half = count / 2;
    let lower = ones_from(out, x, low, half, width)?;
    let upper = ones_from(out, x, low + half, count - half, width)?;
    let sum = out.make(width, Cell::Two(TwoOp::Add, lower, upper))?;
    Ok(sum)
}

/// How many bits of a net are 1, in as many bits as it has. The sums have no more bits than are needed for 64.
#[tactic(auto, using(ap_net::proofs::Laws::laws))]
pub fn ones(out: &mut Builder, x: Wire) -> Result<Wire, NoMemory>
    requires fresh { CanFresh out.old }
    requires x { IsNet out.old.nets x }
    ensures net { IfOk result (λ y. IsNet out.new.nets y × (y.width ≡ x.width)) }
    ensures value { IfOk result (λ y. Means out.old out.new (λ read.
        read y.number ≡ ones_among x.width (read x.number))) }
    ensures carries { IfOk result (Carries out.new x.width (λ r y.
        y ≡ ones_among x.width (r.read x.number))) }
    ensures reads { IfOk result (Yields (x.number ∷ []) out.old out.new) }
    ensures makes { OnOk result (Makes out.old out.new) }
{
    let counted = ones_from(out, x, 0, x.width, x.width.min(7))?;
    let wide = widened(out, counted, x.width)?;
    Ok(wide)
}
