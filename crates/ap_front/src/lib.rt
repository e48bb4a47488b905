//! What stands around the stages' data in a processor's `top`: its ports, the pc, the registers of flights, and what control is given and
//! shows. Each piece says what the border asks of it.
#![tactic(auto)]

pub mod coming;
pub mod control;
pub mod fetch;
pub mod flights;
pub mod groups;
pub mod laws;
pub mod ports;
pub mod registers;
pub mod show;

pub use ap_bits::NoMemory;
