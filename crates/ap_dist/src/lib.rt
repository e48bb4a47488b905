//! How far apart two words of a program have to stand. An older and a younger word that access one register, cell or memory, and not
//! only to read it, conflict; the definitions stand in `specs/Distances.antt`, and what an image keeps to in `specs/Spaced.antt`. Where an assembler places a program, a [`Source`], stands in
//! `specs/Places.antt` and `specs/LeastStarts.antt`.
#![tactic(auto)]

pub mod access;
pub mod distance;
pub mod laws;
pub mod source;
mod trail;

pub use access::{Access, Part};
pub use distance::{dist, out};
pub use source::{Group, Operand, Source, SourceLine};
