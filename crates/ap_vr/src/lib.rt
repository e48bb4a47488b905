//! Reads the text of a netlist back.
#![tactic(auto)]

mod building;
mod driving;
pub mod fault;
mod judging;
pub mod line;
mod line_reading;
mod line_text;
pub mod module;
mod names;
mod nets;
mod piece;
mod place;
mod reading;
mod scope;
mod token;
mod unread;
mod widths;

pub use building::{faultless_modules_build, read_back, texts_spell_one};
pub use fault::{NetFault, NetKind, TEXT_LIMIT};
pub use judging::read_named;
pub use module::NamedModule;
pub use reading::read_modules;
