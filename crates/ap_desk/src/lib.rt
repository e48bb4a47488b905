//! A desk: named files and standard output, by a trait, in memory and on the system.
#![tactic(auto)]

mod calls;
pub mod counts;
pub mod desk;
pub mod memory;
pub mod pieces;
pub mod sure;
pub mod system;
mod table;
