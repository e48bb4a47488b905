//! The stages of a processor as they were made, as stages of its design.
#![tactic(auto)]

pub mod laws;
