//! Bits set beside each other and cut out, without a `? :`.
ghost use Rattle.std.specs.Prelude.{◌≡◌, ◌∷◌, [], ◌+◌, ◌-◌, ◌*◌, ◌/◌, ◌%◌, ◌^◌, ◌<◌, ◌≤◌, ◌==◌, if◌then◌else◌, IfOk};
ghost use Rattle.ap_bits.specs.Operations.{sign_extended};
ghost use Rattle.ap_net.specs.Cells.{IsNet};
ghost use Rattle.ap_net.specs.Draft.{CanFresh};
ghost use Rattle.ap_net.specs.Readings.{Carries};
ghost use Rattle.ap_stage.specs.Wiring.{IsWiring};

use ap_bits::NoMemory;
use ap_net::builder::Builder;
use ap_net::cell::{Cell, Wire};

/// The bits of a net from `high` down to `low`.
#[tactic(auto, using(ap_net::proofs::Laws::laws))]
pub fn sliced(out: &mut Builder, a: Wire, high: u32, low: u32) -> Result<Wire, NoMemory>
    requires fresh { CanFresh out.old }
    requires a { IsNet out.old.nets a }
    requires order { low ≤ high }
    requires within { high < a.width }
    ensures carries { IfOk result (Carries out.new (high - low + 1) (λ r y.
        y ≡ (r.read a.number / 2 ^ low) % 2 ^ (high - low + 1))) }
    ensures wiring { IfOk result (IsWiring (a.number ∷ []) out.old out.new) }
{
    let bits = out.make(high - low + 1, Cell::Slice(a, high, low))?;
    Ok(bits)
}

/// The net `a` above the net `b`.
#[tactic(auto, using(ap_net::proofs::Laws::laws))]
pub fn joined(out: &mut Builder, a: Wire, b: Wire) -> Result<Wire, NoMemory>
    requires fresh { CanFresh out.old }
    requires a { IsNet out.old.nets a }
    requires b { IsNet out.old.nets b }
    requires high { a.width + b.width ≤ 64 }
    ensures carries { IfOk result (Carries out.new (a.width + b.width) (λ r y.
        y ≡ r.read a.number * 2 ^ b.width + r.read b.number)) }
    ensures wiring { IfOk result (IsWiring (a.number ∷ b.number ∷ []) out.old out.new) }
{
    let all = out.make(a.width + b.width, Cell::Cat(a, b))?;
    Ok(all)
}

/// A constant.
#[tactic(auto, using(ap_net::proofs::Laws::laws))]
pub fn constant(out: &mut Builder, width: u32, value: u64) -> Result<Wire, NoMemory>
    requires fresh { CanFresh out.old }
    requires low { 1 ≤ width }
    requires high { width ≤ 64 }
    requires fits { value < 2 ^ width }
    ensures carries { IfOk result (Carries out.new width (λ r y. y ≡ value)) }
    ensures wiring { IfOk result (IsWiring [] out.old out.new) }
{
    let net = out.make(width, Cell::Const(value))?;
    Ok(net)
}

/// The net with zeros above it, to `width` bits.
pub fn zero_extended(out: &mut Builder, a: Wire, width: u32) -> Result<Wire, NoMemory>
    requires fresh { CanFresh out.old }
    requires a { IsNet out.old.nets a }
    requires order { a.width ≤ width }
    requires high { width ≤ 64 }
    ensures carries { IfOk result (Carries out.new width (λ r y. y ≡ r.read a.number)) }
    ensures wiring { IfOk result (IsWiring (a.number ∷ []) out.old out.new) }
{
    if width == a.width {
        return Ok(a);
    }
    let zeros = constant(out, width - a.width, 0)?;
    let wide = joined(out, zeros, a)?;
    Ok(wide)
}

/// A bit `count` times.
pub fn repeated(out: &mut Builder, bit: Wire, count: u32) -> Result<Wire, NoMemory>
    requires fresh { CanFresh out.old }
    requires bit { IsNet out.old.nets bit }
    requires one_bit { bit.width ≡ 1 }
    requires low { 1 ≤ count }
    requires high { count ≤ 64 }
    ensures carries { IfOk result (Carries out.new count (λ r y.
        y ≡ (if r.read bit.number == 1 then 2 ^ count - 1 else 0))) }
    ensures wiring { IfOk result (IsWiring (bit.number ∷ []) out.old out.new) }
{
    if count == 1 {
        return Ok(bit);
    }
    let half = repeated(out, bit, count / 2)?;
    let both = joined(out, half, half)?;
    let odd = count % 2;
    if odd == 0 {
        return Ok(both);
    }
    let all = joined(out, both, bit)?;
    Ok(all)
}

/// The net with its high bit above it, to `width` bits.
pub fn sign_extended(out: &mut Builder, a: Wire, width: u32) -> Result<Wire, NoMemory>
    requires fresh { CanFresh out.old }
    requires a { IsNet out.old.nets a }
    requires order { a.width ≤ width }
    requires high { width ≤ 64 }
    ensures carries { IfOk result (Carries out.new width (λ r y.
        y ≡ sign_extended (r.read a.number) a.width width)) }
    ensures wiring { IfOk result (IsWiring (a.number ∷ []) out.old out.new) }
{
    if width == a.width {
        return Ok(a);
    }
    let bit = sliced(out, a, a.width - 1, a.width - 1)?;
    let fill = repeated(out, bit, width - a.width)?;
    let wide = joined(out, fill, a)?;
    Ok(wide)
}
