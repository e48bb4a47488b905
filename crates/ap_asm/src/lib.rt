//! The assembler: from the text of a program to the words of a processor's memories.
//!
//! The program that a text says is read by the crate `ap_program`. How far apart its lines stand is defined in
//! `specs/LinePlaces.antt`, the faults of a text in `specs/AsmFaults.antt`, and the listing in `specs/Listings.antt`. Where a program
//! stands is defined in the crate `ap_dist`.
#![tactic(auto)]

mod assembling;
mod encoding;
mod listing;
mod placing;
mod shaping;
mod slots;
mod words;

pub use ap_program::{AsmFault, AsmKind};
pub use assembling::{Assembled, assemble};
pub use shaping::shape_of;
