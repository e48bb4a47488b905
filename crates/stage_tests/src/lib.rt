//! Tests of [`ap_stage`]: nets of selections, of wiring and of rows, evaluated cell by cell.
#![tactic(auto)]

#[cfg(test)]
mod evaluate;
#[cfg(test)]
mod nets;
#[cfg(test)]
mod units;
