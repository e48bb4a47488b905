//! The first part of a processor's `top`: its ports, the registers of the front and of the design, and what is written to registers and
//! register files.
#![tactic(auto)]

pub mod declare;
pub mod laws;
pub mod store;
pub mod writes;

pub use ap_bits::NoMemory;
