//! Reads the text of a description: its statements, or the least fault of form.
//!
//! [`read`] first looks for what the text as a whole lacks, and then goes over its lines one by one:
//! [`statement::statement`] says which statement the tokens of a line spell, and a few numbers say whether it may stand
//! there. What a text says and which faults it has stands in `specs/Reading.antt` and `specs/Faults.antt` of `ap_desc`.
#![tactic(auto)]

mod declaration;
pub mod laws;
mod micro;
mod missing;
mod parts;
mod place;
pub mod reading;
pub mod statement;
mod token;

pub use ap_desc::limits::DESCRIPTION_LIMIT;
pub use reading::read;
