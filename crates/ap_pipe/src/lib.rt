//! The slots in which the pipeline keeps the locals of its instructions from one stage to the next. `specs/Slots.antt` says how wide they
//! are and what a home of a local is.
#![tactic(auto)]

mod homes;
mod live;
pub mod table;

pub use homes::slots;
pub use table::{Home, SlotTable, StageSlots};
