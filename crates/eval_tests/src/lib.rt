//! Tests of the bench: small netlists on images and traces, against rows that were worked out by hand.
//!
//! They stand in a crate of their own, so that [`ap_eval`] is proved once and not a second time with its tests.
#![tactic(auto)]

#[cfg(test)]
mod bench_tests;
#[cfg(test)]
mod operators;
#[cfg(test)]
mod texts;
