//! From the pieces of which `top` was built to the whole processor.
#![tactic(auto)]

pub mod laws;
