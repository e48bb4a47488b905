//! What the instructions of a stage hand on: to write ports, to the pc, and to the slots of the next stage.
#![tactic(auto)]

pub mod hand;
pub mod laws;
pub mod leave;
pub mod list;

pub use ap_bits::NoMemory;
