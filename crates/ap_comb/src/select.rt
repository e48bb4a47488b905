//! The choice of a net by its number: a balanced tree of `? :` over the bits of the number.
ghost use Rattle.std.specs.Prelude.{◌≡◌, ℕ, ◌∷◌, ◌+◌, ◌/◌, ◌%◌, ◌^◌, ◌<◌, ◌≤◌, IfOk, IfSome, OnOk, All, length, slice_get, slice_index};
ghost use Rattle.ap_net.specs.Cells.{IsNet};
ghost use Rattle.ap_net.specs.Draft.{CanFresh, Means};
ghost use Rattle.ap_net.specs.Making.{Makes};
ghost use Rattle.ap_net.specs.Ready.{numbers};
ghost use Rattle.ap_net.specs.Readings.{Carries};
ghost use Rattle.ap_net.specs.Pending.{Yields};
ghost use Rattle.ap_comb.specs.Choices.{IsOfWidth, YieldsEach, values_of, pair_value, pair_numbers};

use crate::parts::bit;
use ap_bits::NoMemory;
use ap_net::builder::Builder;
use ap_net::cell::{Cell, Wire};

/// Of two nets the second where the net `bit` is 1, else the first; the first where it is alone.
#[tactic(auto, using(ap_net::proofs::Laws::laws))]
fn one_of(out: &mut Builder, bit: Wire, first: Wire, second: Option<Wire>) -> Result<Wire, NoMemory>
    requires fresh { CanFresh out.old }
    requires bit { IsNet out.old.nets bit }
    requires one_bit { bit.width ≡ 1 }
    requires first { IsNet out.old.nets first }
    requires second { IfSome second (IsOfWidth out.old.nets first.width) }
    ensures net { IfOk result (IsOfWidth out.new.nets first.width) }
    ensures value { IfOk result (λ y. Means out.old out.new (λ read.
        read y.number ≡ pair_value read (read bit.number) first second)) }
    ensures reads { IfOk result (Yields (pair_numbers bit first second) out.old out.new) }
    ensures makes { OnOk result (Makes out.old out.new) }
{
    let Some(second) = second else {
        return Ok(first);
    };
    let chosen = out.make(first.width, Cell::Choose(bit, second, first))?;
    Ok(chosen)
}

/// The net at a place, if there is one.
#[tactic(auto, using(std::proofs::lemmas::Option::gets))]
fn net_at(nets: &[Wire], place: usize) -> Option<Wire>
    ensures { result ≡ slice_get nets.now place }
{
    nets.get(place).copied()
}

/// One net for each two neighbours: the second of them where the net `bit` is 1, else the first. A last one alone stays.
#[tactic(auto, using(ap_net::proofs::Laws::laws))]
fn halved(out: &mut Builder, bit: Wire, level: &[Wire], width: u32) -> Result<Vec<Wire>, NoMemory>
    requires fresh { CanFresh out.old }
    requires bit { IsNet out.old.nets bit }
    requires one_bit { bit.width ≡ 1 }
    requires level { All (IsOfWidth out.old.nets width) level.now }
    requires low { 1 ≤ width }
    requires high { width ≤ 64 }
    ensures long { IfOk result (λ made. length made.items ≡ (length level.now + 1) / 2) }
    ensures nets { IfOk result (λ made. All (IsOfWidth out.new.nets width) made.items) }
    ensures value { IfOk result (λ made. Means out.old out.new (λ read.
        (j : ℕ) → j < length level.now → read bit.number ≡ j % 2
        → slice_index (values_of read made.items) (j / 2)
        ≡ slice_index (values_of read level.now) j)) }
    ensures reads { IfOk result (λ made.
        YieldsEach (bit.number ∷ numbers level.now) out.old out.new made.items) }
    ensures makes { OnOk result (Makes out.old out.new) }
{
    let mut made = Vec::new(out.allocator());
    for i in 0..level.len().div_ceil(2) {
        let second = net_at(level, 2 * i + 1);
        let chosen = one_of(out, bit, level[2 * i], second)?;
        made.push(chosen)?;
    }
    Ok(made)
}

/// Of some nets of `width` bits the one whose number `sel` has. What stands for larger numbers is free.
#[tactic(auto, using(ap_net::proofs::Laws::laws))]
pub fn select(out: &mut Builder, sel: Wire, choices: &[Wire], width: u32) -> Result<Wire, NoMemory>
    requires fresh { CanFresh out.old }
    requires sel { IsNet out.old.nets sel }
    requires some { 1 ≤ length choices.now }
    requires room { length choices.now ≤ 2 ^ sel.width }
    requires choices { All (IsOfWidth out.old.nets width) choices.now }
    requires low { 1 ≤ width }
    requires high { width ≤ 64 }
    ensures net { IfOk result (IsOfWidth out.new.nets width) }
    ensures value { IfOk result (λ y. Means out.old out.new (λ read.
        read sel.number < length choices.now
        → read y.number ≡ slice_index (values_of read choices.now) (read sel.number))) }
    ensures carries { IfOk result (Carries out.new width (λ r y.
        r.read sel.number < length choices.now
        → y ≡ slice_index (values_of r.read choices.now) (r.read sel.number))) }
    ensures reads { IfOk result (Yields (sel.number ∷ numbers choices.now) out.old out.new) }
    ensures makes { OnOk result (Makes out.old out.new) }
{
    let mut level = Vec::from_slice(out.allocator(), choices)?;
    let mut place = 0;
    while level.len() > 1 {
        let chosen = bit(out, sel, place)?;
        level = halved(out, chosen, &level, width)?;
        place += 1;
    }
    Ok(level[0])
}
