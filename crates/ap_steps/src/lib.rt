//! A draft that grows in steps, from its ports to a finished module: which of its nets are ready, which registers take something, and which
//! instances it has.
#![tactic(auto)]

pub mod laws;
