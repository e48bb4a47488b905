//! What each operand of a port is selected from: the instructions that use the port, each with what it hands in. `specs/Choices.antt` says
//! what is selected.
#![tactic(auto)]

mod gather;
pub mod laws;
mod select;
pub mod table;

pub use gather::merge;
pub use table::{Choice, Merged, Select, Source};
