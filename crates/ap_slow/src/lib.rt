//! Units that take several cycles in a processor's `top`: they are placed over wires that are driven later, and asked by the words in the
//! stages that use them.
#![tactic(auto)]

pub mod ask;
pub mod drive;
pub mod laws;
pub mod place;

pub use ap_bits::NoMemory;
