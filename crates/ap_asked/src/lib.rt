//! Units that take several cycles, as a whole processor has them: placed and driven they are what the border asks.
#![tactic(auto)]

pub mod laws;

pub use ap_bits::NoMemory;
