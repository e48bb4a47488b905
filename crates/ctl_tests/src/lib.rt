//! Tests of [`ap_ctl`]: worked rows of what control means, and its nets by an evaluator of the tests' own.
#![tactic(auto)]

#[cfg(test)]
mod bench;
#[cfg(test)]
mod control_rows;
#[cfg(test)]
mod control_tests;
#[cfg(test)]
mod evaluate;
#[cfg(test)]
mod processor;
