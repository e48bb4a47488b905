//! The code words of a design: the faults of its instructions' words, the instruction that a word matches, and the word that
//! gives an instruction's operands their values. None of these calls takes memory.
#![tactic(auto)]

pub mod faults;
pub mod word;

pub use faults::judge;
pub use word::{FieldRange, encode, find};
