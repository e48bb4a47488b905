//! The modules of which a processor's `top` has instances, and what `top` knows of them.
#![tactic(auto)]

pub mod laws;
pub mod modules;

pub use ap_bits::NoMemory;
