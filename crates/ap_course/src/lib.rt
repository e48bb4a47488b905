//! The instructions of a stage, as a design has them: what each of them may name, which of its lines the stage has, where the locals stand
//! that come from earlier stages, and the nodes of the stage. `specs/Lines.antt` says which lines there are, `specs/Slots.antt` where
//! locals stand.
#![tactic(auto)]

pub mod laws;
mod line;
mod scope;
mod slots;
mod start;

pub use line::{lines_of, uses_of};
pub use scope::scope_of;
pub use slots::stored_of;
pub use start::{start_course, start_courses, start_row};
