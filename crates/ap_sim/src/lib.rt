//! Simulation of the text of a netlist: which texts can be run, and on what.
#![tactic(auto)]

pub mod fault;
pub mod laws;
mod reading;
pub mod rows;

pub use fault::{RunFault, RunKind};
pub use reading::read_netlist;
pub use rows::Rows;
