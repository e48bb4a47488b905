//! Tests of opening: small netlists against what the definitions say of them. The rows were worked out by hand.
//!
//! They stand in a crate of their own, so that [`ap_flat`] is proved once and not a second time with its tests.
#![tactic(auto)]

#[cfg(test)]
mod flat_tests;
#[cfg(test)]
mod netlists;
#[cfg(test)]
mod port_tests;
