//! Tests of the assembler: calls of [`ap_asm`] with values from outside.
//!
//! They stand in a crate of their own, so that it is proved once and not a second time with its tests.
#![tactic(auto)]

#[cfg(test)]
mod faults;
#[cfg(test)]
mod processor;
#[cfg(test)]
mod programs;
