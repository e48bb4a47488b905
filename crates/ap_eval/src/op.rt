//! Operations on the values of nets.
ghost use Rattle.std.specs.Prelude.{◌≡◌, length, slice_index};
ghost use Rattle.ap_eval.specs.Ops.{ShapeFits, load_of, shape_value};

use crate::memory::Memory;

/// What gives a value, from the values of some nets. A mask has the bits of the result.
#[derive(Clone, Copy, Debug, PartialEq, Eq)]
pub(crate) enum Shape {
    /// `~a`.
    Not { a: usize, mask: u64 },
    /// `a + b`.
    Add { a: usize, b: usize, mask: u64 },
    /// `a - b`.
    Sub { a: usize, b: usize, mask: u64 },
    /// `a & b`.
    And { a: usize, b: usize },
    /// `a | b`.
    Or { a: usize, b: usize },
    /// `a ^ b`.
    Xor { a: usize, b: usize },
    /// `a == b`.
    Eq { a: usize, b: usize },
    /// `a < b`.
    Ltu { a: usize, b: usize },
    /// `s ? a : b`.
    Choose { s: usize, a: usize, b: usize },
    /// `{a, b}`, where b has so many bits.
    Cat { a: usize, b: usize, bits: u32 },
    /// `a` from the bit `low` on.
    Slice { a: usize, low: u32, mask: u64 },
    /// The word of a memory at an address.
    Load { memory: usize, address: usize },
}

/// An operation: the net whose value it gives, and how.
#[derive(Clone, Copy, Debug, PartialEq, Eq)]
pub(crate) struct Op {
    pub(crate) to: usize,
    pub(crate) shape: Shape,
}

impl Shape {
    /// The value that it gives, where the nets have these values and the memories these words.
    pub(crate) fn value(self, values: &[u64], memories: &[Memory]) -> u64
        requires { ShapeFits (length values.now) (length memories.now) self }
        ensures { result ≡ shape_value (slice_index values.now) (load_of memories.now) self }
    {
        match self {
            Shape::Not { a, mask } => mask.saturating_sub(values[a]),
            Shape::Add { a, b, mask } => values[a].wrapping_add(values[b]) & mask,
            Shape::Sub { a, b, mask } => values[a].wrapping_sub(values[b]) & mask,
            Shape::And { a, b } => values[a] & values[b],
            Shape::Or { a, b } => values[a] | values[b],
            Shape::Xor { a, b } => values[a] ^ values[b],
            Shape::Eq { a, b } => u64::from(values[a] == values[b]),
            Shape::Ltu { a, b } => u64::from(values[a] < values[b]),
            Shape::Choose { s, a, b } => { if values[s] == 1 { values[a] } else { values[b] } }
            Shape::Cat { a, b, bits } => (values[a] << bits) | values[b],
            Shape::Slice { a, low, mask } => (values[a] >> low) & mask,
            Shape::Load { memory, address } => memories[memory].word(values[address]),
        }
    }
}
