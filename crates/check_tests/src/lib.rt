//! Tests of the resolver: texts that are changed in places, and the faults that are due.
//!
//! They stand in a crate of their own, so that [`ap_check`] is proved once and not a second time with its tests.
#![tactic(auto)]

#[cfg(test)]
mod calls;
#[cfg(test)]
mod names_and_widths;
#[cfg(test)]
mod texts;
#[cfg(test)]
mod words_ports_and_stages;
