//! Shifts by levels: level i moves a value by 2^i places where bit i of the shift is 1.
ghost use Rattle.std.specs.Prelude.{◌≡◌, ℕ, [], ◌∷◌, ◌+◌, ◌-◌, ◌*◌, ◌/◌, ◌%◌, ◌^◌, ◌<◌, ◌≤◌, ◌==◌, if◌then◌else◌, IfOk, OnOk};
ghost use Rattle.ap_net.specs.Cells.{IsNet};
ghost use Rattle.ap_net.specs.Draft.{CanFresh, Means};
ghost use Rattle.ap_net.specs.Making.{Makes};
ghost use Rattle.ap_net.specs.Readings.{Carries};
ghost use Rattle.ap_net.specs.Pending.{Yields};
ghost use Rattle.ap_comb.specs.Moves.{moved_left, moved_right, moved, inlet};

use crate::parts::{bit, lower_bits, repeated, upper_bits};
use ap_bits::NoMemory;
use ap_net::builder::Builder;
use ap_net::cell::{Cell, Wire};

/// Which way a value is moved, and a net of one bit that says what comes in.
#[derive(Clone, Copy, Debug, PartialEq, Eq)]
pub enum Way {
    /// To the left: where the net is 1, what goes out at the top comes in below, else zeros come in.
    Left(Wire),
    /// To the right: the net comes in above, at each place.
    Right(Wire),
}

/// What comes in below: where the net `turn` is 1 the highest `places` bits of `x`, else zeros.
#[tactic(auto, using(ap_net::proofs::Laws::laws))]
fn incoming(out: &mut Builder, x: Wire, turn: Wire, places: u32) -> Result<Wire, NoMemory>
    requires fresh { CanFresh out.old }
    requires x { IsNet out.old.nets x }
    requires turn { IsNet out.old.nets turn }
    requires one_bit { turn.width ≡ 1 }
    requires some { 1 ≤ places }
    requires within { places < x.width }
    ensures net { IfOk result (λ y. IsNet out.new.nets y × (y.width ≡ places)) }
    ensures value { IfOk result (λ y. Means out.old out.new (λ read.
        read y.number ≡ (if read turn.number == 1
        then read x.number / 2 ^ (x.width - places) else 0))) }
    ensures reads { IfOk result (Yields (x.number ∷ turn.number ∷ []) out.old out.new) }
    ensures makes { OnOk result (Makes out.old out.new) }
{
    let gone = upper_bits(out, x, x.width - places)?;
    let zeros = out.make(places, Cell::Const(0))?;
    let chosen = out.make(places, Cell::Choose(turn, gone, zeros))?;
    Ok(chosen)
}

/// A net moved to the left.
#[tactic(auto, using(ap_net::proofs::Laws::laws))]
fn move_left(out: &mut Builder, x: Wire, turn: Wire, places: u32) -> Result<Wire, NoMemory>
    requires fresh { CanFresh out.old }
    requires x { IsNet out.old.nets x }
    requires turn { IsNet out.old.nets turn }
    requires one_bit { turn.width ≡ 1 }
    requires some { 1 ≤ places }
    requires within { places < x.width }
    ensures net { IfOk result (λ y. IsNet out.new.nets y × (y.width ≡ x.width)) }
    ensures value { IfOk result (λ y. Means out.old out.new (λ read.
        read y.number ≡ moved_left (read turn.number == 1) x.width (read x.number) places)) }
    ensures reads { IfOk result (Yields (x.number ∷ turn.number ∷ []) out.old out.new) }
    ensures makes { OnOk result (Makes out.old out.new) }
{
    let below = incoming(out, x, turn, places)?;
    let kept = lower_bits(out, x, x.width - places)?;
    let moved = out.make(x.width, Cell::Cat(kept, below))?;
    Ok(moved)
}

/// A net moved to the right.
#[tactic(auto, using(ap_net::proofs::Laws::laws))]
fn move_right(out: &mut Builder, x: Wire, fill: Wire, places: u32) -> Result<Wire, NoMemory>
    requires fresh { CanFresh out.old }
    requires x { IsNet out.old.nets x }
    requires fill { IsNet out.old.nets fill }
    requires one_bit { fill.width ≡ 1 }
    requires some { 1 ≤ places }
    requires within { places < x.width }
    ensures net { IfOk result (λ y. IsNet out.new.nets y × (y.width ≡ x.width)) }
    ensures value { IfOk result (λ y. Means out.old out.new (λ read.
        read y.number ≡ moved_right (read fill.number == 1) x.width (read x.number) places)) }
    ensures reads { IfOk result (Yields (x.number ∷ fill.number ∷ []) out.old out.new) }
    ensures makes { OnOk result (Makes out.old out.new) }
{
    let above = repeated(out, fill, places)?;
    let kept = upper_bits(out, x, places)?;
    let moved = out.make(x.width, Cell::Cat(above, kept))?;
    Ok(moved)
}

/// A net moved in a way.
fn move_by(out: &mut Builder, way: Way, x: Wire, places: u32) -> Result<Wire, NoMemory>
    requires fresh { CanFresh out.old }
    requires x { IsNet out.old.nets x }
    requires way { IsNet out.old.nets (inlet way) }
    requires one_bit { (inlet way).width ≡ 1 }
    requires some { 1 ≤ places }
    requires within { places < x.width }
    ensures net { IfOk result (λ y. IsNet out.new.nets y × (y.width ≡ x.width)) }
    ensures value { IfOk result (λ y. Means out.old out.new (λ read.
        read y.number ≡ moved read way x.width (read x.number) places)) }
    ensures reads { IfOk result (Yields (x.number ∷ (inlet way).number ∷ []) out.old out.new) }
    ensures makes { OnOk result (Makes out.old out.new) }
{
    match way {
        Way::Left(turn) => move_left(out, x, turn, places),
        Way::Right(fill) => move_right(out, x, fill, places),
    }
}

/// A level: the net moved by so many places where the net `by` of one bit is 1, else as it is.
#[tactic(auto, using(ap_net::proofs::Laws::laws))]
fn level(out: &mut Builder, way: Way, x: Wire, by: Wire, places: u32) -> Result<Wire, NoMemory>
    requires fresh { CanFresh out.old }
    requires x { IsNet out.old.nets x }
    requires way { IsNet out.old.nets (inlet way) }
    requires one_bit { (inlet way).width ≡ 1 }
    requires by { IsNet out.old.nets by }
    requires by_one_bit { by.width ≡ 1 }
    requires some { 1 ≤ places }
    requires within { places < x.width }
    ensures net { IfOk result (λ y. IsNet out.new.nets y × (y.width ≡ x.width)) }
    ensures value { IfOk result (λ y. Means out.old out.new (λ read.
        read y.number ≡ (if read by.number == 1
        then moved read way x.width (read x.number) places else read x.number))) }
    ensures reads { IfOk result
        (Yields (x.number ∷ (inlet way).number ∷ by.number ∷ []) out.old out.new) }
    ensures makes { OnOk result (Makes out.old out.new) }
{
    let away = move_by(out, way, x, places)?;
    let chosen = out.make(x.width, Cell::Choose(by, away, x))?;
    Ok(chosen)
}

/// The net `x` of 2^`count` bits moved in a way, by as many places as the lowest `count` bits of the net `by` say.
#[tactic(auto, using(ap_net::proofs::Laws::laws))]
pub fn shift_by_levels(
    out: &mut Builder,
    way: Way,
    x: Wire,
    by: Wire,
    count: u32,
) -> Result<Wire, NoMemory>
    requires fresh { CanFresh out.old }
    requires x { IsNet out.old.nets x }
    requires width { x.width ≡ 2 ^ count }
    requires way { IsNet out.old.nets (inlet way) }
    requires one_bit { (inlet way).width ≡ 1 }
    requires by { IsNet out.old.nets by }
    requires bits { count ≤ by.width }
    ensures net { IfOk result (λ y. IsNet out.new.nets y × (y.width ≡ x.width)) }
    ensures value { IfOk result (λ y. Means out.old out.new (λ read.
        read y.number ≡ moved read way x.width (read x.number) (read by.number % 2 ^ count))) }
    ensures carries { IfOk result (Carries out.new x.width (λ r y.
        y ≡ moved r.read way x.width (r.read x.number) (r.read by.number % 2 ^ count))) }
    ensures reads { IfOk result
        (Yields (x.number ∷ (inlet way).number ∷ by.number ∷ []) out.old out.new) }
    ensures makes { OnOk result (Makes out.old out.new) }
{
    let mut shifted = x;
    for i in 0..count {
        let by = bit(out, by, i)?;
        shifted = level(out, way, shifted, by, 1 << i)?;
    }
    Ok(shifted)
}
