//! Tests of register files: worked rows on the definitions, and modules that are evaluated cycle by cycle, against values that
//! were worked out by hand.
//!
//! They stand in a crate of their own, so that [`ap_store`] is proved once and not a second time with its tests.
#![tactic(auto)]

#[cfg(test)]
mod bench;
#[cfg(test)]
mod file_tests;
pub mod rows;
