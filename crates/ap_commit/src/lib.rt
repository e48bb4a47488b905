//! What a stage does besides its locals: it writes through ports, and transfers.
#![tactic(auto)]

pub mod laws;
pub mod transfer;
pub mod write;

pub use ap_bits::NoMemory;
