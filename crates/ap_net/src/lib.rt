//! Nets, cells and modules of the Verilog subset: what they mean, and a builder that makes them. What the one spelling of a netlist is
//! stands in `specs/Text.antt`.
#![tactic(auto)]

pub mod builder;
pub mod cell;
mod finish;
pub mod module;
pub mod name;
pub mod net;
pub mod readiness;
pub mod solve;

pub use ap_bits::NoMemory;
