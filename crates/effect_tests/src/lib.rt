//! Tests of [`ap_effect`]: the nets of a write port and of the transfer, evaluated cell by cell.
#![tactic(auto)]

#[cfg(test)]
mod evaluate;
#[cfg(test)]
mod ports;
#[cfg(test)]
mod transfers;
