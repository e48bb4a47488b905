//! What no line of a design uses, at rest in its processor's `top`: units that take one cycle, read ports of files and memories, and the
//! outputs at which a memory would be written.
#![tactic(auto)]

pub mod idle;
pub mod laws;
pub mod reads;
pub mod uses;

pub use ap_bits::NoMemory;
