//! The data of one stage after another, from a design's tables: the ports that a stage serves, the nets on which its instructions
//! stand, and what they get from these ports.
#![tactic(auto)]

pub mod begin;
mod copy;
pub mod laws;
mod link;
pub mod nodes;
pub mod own;
pub mod stage;
pub mod stages;

pub use ap_bits::NoMemory;
