ghost use Rattle.std.specs.Prelude.{length};
ghost use Rattle.ap_bits.specs.Cards.{IsLeastPower, select_width};

use crate::term::Term;
use crate::{Items, Name};

/// Which widths a resource has.
#[derive(Clone, Copy, Debug, PartialEq, Eq)]
pub enum Widths {
    /// Every width from 1 to 64 bits.
    Any,
    /// 1, 2, 4, 8, 16, 32 and 64 bits.
    PowersOfTwo,
}

/// How many cycles a resource takes, the one in which its result stands included.
#[derive(Clone, Copy, Debug, PartialEq, Eq)]
pub enum Latency {
    /// One.
    One,
    /// One more than the width has bits.
    WidthPlusOne,
}

/// An operation of a resource: its name, and what it computes.
#[derive(Drop)]
pub struct OpCard {
    /// The name by which a description calls it.
    pub name: Name,
    /// What it computes.
    pub term: Term,
}

/// What is promised of a resource: its name, its operations, its widths and its latency.
#[derive(Drop)]
pub struct Card {
    /// The name of its kind.
    pub name: Name,
    /// Its operations, numbered from 0.
    pub ops: Items<OpCard>,
    /// The widths that it can have.
    pub widths: Widths,
    /// How long it takes.
    pub latency: Latency,
}

/// The width of `sel` is the least of at least 1 at which each operation has a number of its own.
#[tactic(auto, using(crate::proofs::LeastPowers::select_width_is_least))]
pub fn select_width_is_least(card: &Card)
    ensures { IsLeastPower (length card.now.ops) (select_width card.now) }
{}
