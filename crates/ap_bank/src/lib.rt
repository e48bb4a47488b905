//! The storages of a processor's `top`: registers by their names, register files as instances, and the ports of memories. Each piece says
//! what the border asks of it.
#![tactic(auto)]

pub mod bank;
pub mod files;
pub mod join;
pub mod late;
pub mod laws;
pub mod regs;
pub mod stages;

pub use ap_bits::NoMemory;
