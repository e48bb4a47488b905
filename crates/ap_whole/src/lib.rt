//! A finished draft that has everything that a processor has runs on every image and trace, and is the machine.
#![tactic(auto)]

pub mod laws;
