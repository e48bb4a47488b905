//! Control of a pipelined processor: which instruction a stage's word matches, which stages hold a word, which are held, what a
//! transfer kills, and which flights fire.
#![tactic(auto)]

pub mod busy;
pub mod control;
pub mod decode;
pub mod field;
pub mod gate;
pub mod laws;
pub mod move_on;
pub mod nets;

pub use ap_bits::NoMemory;
pub use nets::{ControlGiven, ControlNets};
