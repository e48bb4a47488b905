//! Worked rows on the law of spaced programs, computed on the definitions.
#![tactic(auto)]

pub mod rows;
