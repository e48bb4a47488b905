//! Tests of words, texts and the language: worked rows on the definitions of [`ap_bits`], [`ap_text`] and [`ap_desc`], and calls of these,
//! of [`ap_read`], [`ap_enc`] and [`ap_ports`] with values from outside.
//!
//! They stand in a crate of their own, so that those are proved once and not a second time with their tests.
#![tactic(auto)]

#[cfg(test)]
mod code_tests;
#[cfg(test)]
mod description_rows;
#[cfg(test)]
mod flow_rows;
#[cfg(test)]
mod law_rows;
#[cfg(test)]
mod meaning_rows;
#[cfg(test)]
mod port_designs;
#[cfg(test)]
mod port_judging;
#[cfg(test)]
mod port_orders;
#[cfg(test)]
mod read_tests;
#[cfg(test)]
mod show_tests;
#[cfg(test)]
mod statement_rows;
#[cfg(test)]
mod statement_tests;
#[cfg(test)]
mod text_rows;
#[cfg(test)]
mod word_rows;
#[cfg(test)]
mod word_tests;
