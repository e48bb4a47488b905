//! The statements of a processor description and how they are spelled, the faults that a description may have, and the
//! design that it describes.
//!
//! A [`Description`] is a list of [`Statement`]s, one variant for each form of the language; [`show`] writes it as text.
//! What a text says, and which faults of form it has, stands in `specs/Reading.antt` and `specs/Faults.antt`. A
//! [`design::Design`] is what the statements of a description without fault amount to.
#![tactic(auto)]

pub mod description;
pub mod design;
pub mod fault;
pub mod laws;
pub mod limits;
pub mod statement;
pub mod writing;

pub use description::{Description, Numbered};
pub use fault::{DescFault, Fault, Refusal};
pub use statement::{FieldNumber, Statement, Word};
pub use writing::show;
