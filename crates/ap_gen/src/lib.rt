//! The `top` of any design, part after part in one builder: ports, registers and files; units of several cycles and control; the data of the
//! stages; what no line uses, at rest; writes and the transfer. And what a whole `top` is.
#![tactic(auto)]

pub mod act;
pub mod data;
pub mod laws;
mod nets;
pub mod rest;
pub mod start;
pub mod tables;
pub mod top;

pub use ap_bits::NoMemory;
