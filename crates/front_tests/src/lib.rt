//! Tests of [`ap_front`]: the ports of a design's `top`, the pc and the registers of its stages, by the numbers and widths of their nets.
#![tactic(auto)]

#[cfg(test)]
mod design;
#[cfg(test)]
mod front_tests;
