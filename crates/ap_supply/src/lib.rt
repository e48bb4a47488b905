//! With what the nodes of a design are served in their stages, by what was placed for them.
#![tactic(auto)]

pub mod laws;
pub mod reads;
pub mod supplies;
pub mod units;

pub use ap_bits::NoMemory;
