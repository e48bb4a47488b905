//! Tests of [`ap_flight`]: worked rows of its definitions, the registers of a design's stages declared, and those of one stage driven and
//! evaluated.
#![tactic(auto)]

#[cfg(test)]
mod bench;
#[cfg(test)]
mod declare_tests;
#[cfg(test)]
mod design;
#[cfg(test)]
mod drive_tests;
#[cfg(test)]
mod evaluate;
#[cfg(test)]
mod rows;
