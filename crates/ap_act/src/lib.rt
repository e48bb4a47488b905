//! What the lines of a processor's stages do in its `top`: what they write is shown at its outputs, and its transfer is taken.
#![tactic(auto)]

pub mod laws;
pub mod outputs;
mod select;
pub mod transfer;
pub mod write;

pub use ap_bits::NoMemory;
