//! From what the nets of a finished draft always mean to the border between a circuit's cycle and what it stores.
#![tactic(auto)]

pub mod laws;
