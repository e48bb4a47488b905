//! The values of operands of a stage's instructions: by their nets, and the address after a word and its slots by itself.
#![tactic(auto)]

pub mod laws;
