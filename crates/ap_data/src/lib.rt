//! From a stage's served instructions to its data as the border between a circuit's cycle and what it stores asks for it.
#![tactic(auto)]

pub mod laws;
