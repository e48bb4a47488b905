//! Tests of the reader of netlist texts: a small text, and its changes.
//!
//! They stand in a crate of their own, so that [`ap_vr`] is proved once and not a second time with its tests.
#![tactic(auto)]

#[cfg(test)]
mod example_tests;
#[cfg(test)]
mod line_tests;
#[cfg(test)]
mod return_tests;
#[cfg(test)]
mod texts;
#[cfg(test)]
mod top_text;
#[cfg(test)]
mod unit_texts;
