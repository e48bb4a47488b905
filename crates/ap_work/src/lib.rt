//! The second part of a processor's `top`, after its ports, registers and files: units of several cycles, control, and what control tells
//! them.
#![tactic(auto)]

pub mod laws;
pub mod work;

pub use ap_bits::NoMemory;
