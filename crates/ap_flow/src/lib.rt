//! The last part of a processor's `top`: the registers of its front get what they take, the address is fetched, and control is shown.
#![tactic(auto)]

pub mod flow;
pub mod laws;
pub mod leave;

pub use ap_bits::NoMemory;
