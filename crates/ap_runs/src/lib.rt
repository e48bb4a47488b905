//! A run of a finished draft with its instances opened, read cycle by cycle.
#![tactic(auto)]

pub mod laws;
