//! Sets of nodes, and which nodes lead to which.
ghost use Rattle.std.specs.Prelude.{◌≡◌, ◌<◌, ◌↔◌, ◌⊎◌, ℕ, length, slice_index, true};
ghost use Rattle.ap_ports.specs.Orders.{AreAhead, bits_below};
ghost use Rattle.ap_ports.specs.Ways.{Has, LeadsTo, joined};

use crate::number::NODES;

/// Which nodes of a stage lead to which by the edges so far. Node j is bit j of a set.
#[derive(Clone, Copy)]
pub(crate) struct Ways {
    rows: [u128; NODES],
}

/// The set of one node.
pub(crate) fn single(node: usize) -> u128
    requires { node < 68 }
    ensures { (n : ℕ) → Has result n ↔ (n ≡ node) }
{
    1 << node
}

impl Ways {
    /// No edges: each node leads to itself alone.
    pub(crate) fn new() -> Ways
        ensures { (x y : ℕ) → x < 68 → LeadsTo result x y ↔ (x ≡ y) }
    {
        let mut rows = [0; NODES];
        for (node, row) in rows.iter_mut().enumerate() {
            *row = single(node);
        }
        Ways { rows }
    }

    /// With an edge from each of these nodes to one.
    pub(crate) fn add(&mut self, sources: u128, to: usize)
        requires { to < 68 }
        ensures { (x y : ℕ) → LeadsTo self.new x y
            ↔ (LeadsTo self.old x y
            ⊎ ((u : ℕ) × Has sources u × LeadsTo self.old x u × LeadsTo self.old to y)) }
    {
        let behind = self.rows[to];
        join(&mut self.rows, sources, behind);
    }

    /// How many nodes each one leads to, itself among them.
    pub(crate) fn ahead(&self) -> [usize; NODES]
        ensures { AreAhead self.now result }
    {
        let mut ahead = [0; NODES];
        for (node, count) in ahead.iter_mut().enumerate() {
            *count = count_of(self.rows[node]);
        }
        ahead
    }

    /// Whether the node leads to one of these, or is one of them.
    pub(crate) fn leads(&self, from: usize, among: u128) -> bool
        requires { from < 68 }
        ensures { (result ≡ true) ↔ ((u : ℕ) × Has among u × LeadsTo self.now from u) }
    {
        self.rows[from] & among != 0
    }
}

/// Adds what stands behind to each row that has one of the sources.
fn join(rows: &mut [u128], sources: u128, behind: u128)
    ensures length { length rows.new ≡ length rows.old }
    ensures each { (k : ℕ) → k < length rows.old
        → slice_index rows.new k ≡ joined sources behind (slice_index rows.old k) }
{
    for row in rows.iter_mut() {
        if *row & sources != 0 {
            *row |= behind;
        }
    }
}

/// Whether the node is in the set.
pub(crate) fn has(set: u128, node: usize) -> bool
    requires { node < 68 }
    ensures { (result ≡ true) ↔ Has set node }
{
    set >> node & 1 == 1
}

/// How many nodes are in the set.
fn count_of(set: u128) -> usize
    ensures { result ≡ bits_below set 68 }
{
    let mut count = 0;
    for node in 0..NODES {
        if has(set, node) {
            count += 1;
        }
    }
    count
}
