//! The circuits of a stage's data: what an operand of a port is selected from, ports that many instructions use, and the nets of the
//! locals that a stage's lines make.
#![tactic(auto)]

pub mod chain;
pub mod choose;
pub mod laws;
pub mod line;
pub mod node;
pub mod offer;
pub mod place;
pub mod row;
pub mod serve;
pub mod slot;
pub mod source;
pub mod user;
pub mod wiring;

pub use ap_bits::NoMemory;
