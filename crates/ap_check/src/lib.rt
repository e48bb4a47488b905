//! Judges what a description means: its names and its widths, and makes the design that it describes.
//!
//! [`resolve`] goes once over the statements. `Declared` has the names so far, `Draft` the design so far. Each statement is looked up
//! in the one, which gives what it uses, then judged over the other, and then added to both. A fault of names ends the work, since
//! names are looked at before widths; the first fault of widths is noted, and ends it after the last line. What the faults are and
//! which design a description means stands in `ap_desc`.
#![tactic(auto)]

mod adding;
mod declared;
mod draft;
mod environment;
mod fields;
mod line_uses;
mod lines;
mod names;
mod numbers;
pub mod resolving;
mod stop;
mod uses;

pub use resolving::resolve;
