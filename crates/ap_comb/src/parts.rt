//! Pieces of nets: some of their bits, and bits set beside them.
ghost use Rattle.std.specs.Prelude.{◌≡◌, ℕ, [], ◌∷◌, ◌+◌, ◌-◌, ◌/◌, ◌%◌, ◌^◌, ◌<◌, ◌≤◌, ◌==◌, if◌then◌else◌, IfOk, OnOk};
ghost use Rattle.ap_net.specs.Cells.{IsNet};
ghost use Rattle.ap_net.specs.Draft.{CanFresh, Means};
ghost use Rattle.ap_net.specs.Making.{Makes};
ghost use Rattle.ap_net.specs.Readings.{Carries};
ghost use Rattle.ap_net.specs.Pending.{Yields};

use ap_bits::{NoMemory, mask};
use ap_net::builder::Builder;
use ap_net::cell::{Cell, Wire};

/// The lowest `count` bits of a net.
#[tactic(auto, using(ap_net::proofs::Laws::laws))]
pub fn lower_bits(out: &mut Builder, x: Wire, count: u32) -> Result<Wire, NoMemory>
    requires fresh { CanFresh out.old }
    requires x { IsNet out.old.nets x }
    requires some { 1 ≤ count }
    requires within { count ≤ x.width }
    ensures net { IfOk result (λ y. IsNet out.new.nets y × (y.width ≡ count)) }
    ensures value { IfOk result (λ y. Means out.old out.new (λ read. read y.number ≡ read x.number % 2 ^ count)) }
    ensures carries { IfOk result (Carries out.new count (λ r y. y ≡ r.read x.number % 2 ^ count)) }
    ensures reads { IfOk result (Yields (x.number ∷ []) out.old out.new) }
    ensures makes { OnOk result (Makes out.old out.new) }
{
    let cut = out.make(count, Cell::Slice(x, count - 1, 0))?;
    Ok(cut)
}

/// The bits of a net from the bit `from` on.
#[tactic(auto, using(ap_net::proofs::Laws::laws))]
pub fn upper_bits(out: &mut Builder, x: Wire, from: u32) -> Result<Wire, NoMemory>
    requires fresh { CanFresh out.old }
    requires x { IsNet out.old.nets x }
    requires within { from < x.width }
    ensures net { IfOk result (λ y. IsNet out.new.nets y × (y.width ≡ x.width - from)) }
    ensures value { IfOk result (λ y. Means out.old out.new (λ read. read y.number ≡ read x.number / 2 ^ from)) }
    ensures carries { IfOk result (Carries out.new (x.width - from) (λ r y.
        y ≡ r.read x.number / 2 ^ from)) }
    ensures reads { IfOk result (Yields (x.number ∷ []) out.old out.new) }
    ensures makes { OnOk result (Makes out.old out.new) }
{
    let cut = out.make(x.width - from, Cell::Slice(x, x.width - 1, from))?;
    Ok(cut)
}

/// One bit of a net.
#[tactic(auto, using(ap_net::proofs::Laws::laws))]
pub fn bit(out: &mut Builder, x: Wire, place: u32) -> Result<Wire, NoMemory>
    requires fresh { CanFresh out.old }
    requires x { IsNet out.old.nets x }
    requires within { place < x.width }
    ensures net { IfOk result (λ y. IsNet out.new.nets y × (y.width ≡ 1)) }
    ensures value { IfOk result (λ y. Means out.old out.new (λ read.
        read y.number ≡ read x.number / 2 ^ place % 2)) }
    ensures carries { IfOk result (Carries out.new 1 (λ r y. y ≡ r.read x.number / 2 ^ place % 2)) }
    ensures reads { IfOk result (Yields (x.number ∷ []) out.old out.new) }
    ensures makes { OnOk result (Makes out.old out.new) }
{
    let cut = out.make(1, Cell::Slice(x, place, place))?;
    Ok(cut)
}

/// A bit `count` times.
#[tactic(auto, using(ap_net::proofs::Laws::laws))]
pub fn repeated(out: &mut Builder, bit: Wire, count: u32) -> Result<Wire, NoMemory>
    requires fresh { CanFresh out.old }
    requires bit { IsNet out.old.nets bit }
    requires one_bit { bit.width ≡ 1 }
    requires low { 1 ≤ count }
    requires high { count ≤ 64 }
    ensures net { IfOk result (λ y. IsNet out.new.nets y × (y.width ≡ count)) }
    ensures value { IfOk result (λ y. Means out.old out.new (λ read.
        read y.number ≡ (if read bit.number == 1 then 2 ^ count - 1 else 0))) }
    ensures carries { IfOk result (Carries out.new count (λ r y.
        y ≡ (if r.read bit.number == 1 then 2 ^ count - 1 else 0))) }
    ensures reads { IfOk result (Yields (bit.number ∷ []) out.old out.new) }
    ensures makes { OnOk result (Makes out.old out.new) }
{
    let ones = out.make(count, Cell::Const(mask(count)))?;
    let zeros = out.make(count, Cell::Const(0))?;
    let filled = out.make(count, Cell::Choose(bit, ones, zeros))?;
    Ok(filled)
}

/// A net with zeros above it, to `width` bits.
#[tactic(auto, using(ap_net::proofs::Laws::laws))]
pub fn widened(out: &mut Builder, x: Wire, width: u32) -> Result<Wire, NoMemory>
    requires fresh { CanFresh out.old }
    requires x { IsNet out.old.nets x }
    requires room { x.width ≤ width }
    requires high { width ≤ 64 }
    ensures net { IfOk result (λ y. IsNet out.new.nets y × (y.width ≡ width)) }
    ensures value { IfOk result (λ y. Means out.old out.new (λ read. read y.number ≡ read x.number)) }
    ensures carries { IfOk result (Carries out.new width (λ r y. y ≡ r.read x.number)) }
    ensures reads { IfOk result (Yields (x.number ∷ []) out.old out.new) }
    ensures makes { OnOk result (Makes out.old out.new) }
{
    if width == x.width {
        return Ok(x);
    }
    let zeros = out.make(width - x.width, Cell::Const(0))?;
    let wide = out.make(width, Cell::Cat(zeros, x))?;
    Ok(wide)
}
