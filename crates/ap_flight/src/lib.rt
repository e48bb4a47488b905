//! The registers in which the stages of a pipeline have their flights: word, address, and the slots of live locals. They are declared
//! and driven: they stay where their stage is held, and else take what comes from the stage before.
#![tactic(auto)]

pub mod entry;
pub mod laws;
pub mod plan;
pub mod slots;
pub mod stage;

pub use ap_bits::NoMemory;
