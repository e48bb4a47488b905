//! Tests of the program's one call, on desks in memory and on shelves with kinds of their own, and of the desks themselves.
//!
//! They stand in a crate of their own, so that [`ap_top`] and [`ap_desk`] are proved once and not a second time with their tests.
#![tactic(auto)]

#[cfg(test)]
mod asm_tests;
#[cfg(test)]
mod desk_tests;
#[cfg(test)]
mod kinds;
#[cfg(test)]
mod serve_tests;
#[cfg(test)]
mod sim_tests;
