//! The text of a program: what its lines say, the faults that they have by themselves, and the program that they are.
//!
//! What a line says stands in `specs/Statements.antt`, the faults of lines in `specs/LineFaults.antt`, and the program of lines in
//! `specs/Sources.antt`. Where it stands in the memories is up to the crate `ap_asm`.
#![tactic(auto)]

pub mod fault;
mod judging;
mod labels;
mod lines;
pub mod operands;
mod reading;
mod so_far;
mod sources;
pub mod statement;

pub use fault::{AsmFault, AsmKind};
pub use operands::does_transfer;
pub use reading::{Program, read_program};
