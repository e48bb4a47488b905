//! A bench that runs an opened netlist cycle by cycle on an image and a trace, as `ap_net`'s definitions of a run say.
//!
//! [`Bench::start`] makes a straight list of operations from the netlist, once: a copied net has none and is read where the
//! net stands that it copies, a constant stands in its place from the start, and every other net has one operation, in an
//! order in which each comes after those on which it depends. [`Bench::step`] goes over that list once, and moves the
//! registers and the written words at the edge; it takes no memory.
#![tactic(auto)]

pub mod bench;
mod memory;
mod op;
mod plan;
pub mod row;
mod spot;

pub use ap_bits::NoMemory;
pub use bench::{Bench, benches_follow_runs};
pub use row::{RowView, WriteView};
