//! The circuits of what a stage's lines do besides making locals: writes through ports, and the transfer.
#![tactic(auto)]

pub mod enable;
mod gate;
pub mod laws;
pub mod line;
pub mod transfer;
pub mod write;

pub use ap_bits::NoMemory;
