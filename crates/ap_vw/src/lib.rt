//! Writes the text of a netlist, line by line.
//!
//! A netlist has one text. [`Printer`] appends its lines one after another and holds no text; [`write`] appends all of
//! them. What the lines are stands in `specs/NetLines.antt`, and that they are the text that `ap_net` defines is a clause
//! of [`Printer::new`](printer::Printer::new).
#![tactic(auto)]

mod left;
mod line;
mod piece;
pub mod printer;

pub use printer::{Printer, write};
