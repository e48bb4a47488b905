//! Tests of [`ap_course`]: the lines that an instruction has in a stage, and where its live locals stand.
#![tactic(auto)]

#[cfg(test)]
mod stages;
