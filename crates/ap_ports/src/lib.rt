//! The faults of a design's ports and stages, and the order in which a stage's nodes are computed.
#![tactic(auto)]

mod edges;
mod faults;
mod first;
mod flow;
mod number;
mod order;
mod places;
mod ways;

pub use faults::judge;
pub use order::{ChainFault, chain_order};
