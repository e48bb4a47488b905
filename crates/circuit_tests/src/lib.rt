//! Tests of circuits: worked rows on the definitions of units, and calls of [`ap_net`], [`ap_unit`] and the kinds of units with values
//! from outside. Two kinds of units stand here that no program has: `reverse`, the example of docs/CONTRIBUTING.md, and `nand`. Two
//! small processors, [`counter`] and [`tiny`], are proved by the laws on nets that are read before they are driven.
//!
//! They stand in a crate of their own, so that those crates are proved once and not a second time with their tests.
#![tactic(auto)]

#[cfg(test)]
mod alu_tests;
pub mod counter;
#[cfg(test)]
mod div_rows;
#[cfg(test)]
mod div_tests;
#[cfg(test)]
mod evaluate;
#[cfg(test)]
mod kind_tests;
#[cfg(test)]
mod mul_rows;
#[cfg(test)]
mod mul_tests;
#[cfg(test)]
mod nand;
#[cfg(test)]
mod net_tests;
#[cfg(test)]
mod reverse;
pub mod tiny;
#[cfg(test)]
mod unit_rows;
