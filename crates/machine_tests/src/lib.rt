//! Tests of the machine: worked rows on its definitions and on those of distances and places, and calls of [`ap_image`], [`ap_plain`] and
//! [`ap_dist`] with values from outside.
//!
//! They stand in a crate of their own, so that those are proved once and not a second time with their tests.
#![tactic(auto)]

#[cfg(test)]
mod distance_rows;
#[cfg(test)]
mod distance_tests;
#[cfg(test)]
mod image_rows;
#[cfg(test)]
mod image_tests;
#[cfg(test)]
mod machine_rows;
#[cfg(test)]
mod plain_tests;
#[cfg(test)]
mod program_rows;
