//! What a processor is run on, the words of its memories and the values of its inputs in each cycle;
//! and what a cycle shows.
//!
//! A [`Shape`] says which memories and inputs there are, and how wide they are. That an [`Image`], a
//! line of a trace or a [`Trace`] fits a shape is defined in `specs/FitsShape.antt`. [`read_image`]
//! and [`read_trace`] give what a text says, or its least fault, and [`write_image`] and
//! [`write_trace`] write such texts; what these texts say stands in `specs/ImageTexts.antt` and
//! `specs/TraceTexts.antt`. A [`Row`] is what one cycle shows, of the machine that a description
//! means and of a netlist; [`write_row`] writes the text of one, which is defined in `specs/RowTexts.antt`.
#![tactic(auto)]

pub mod fault;
pub mod image;
mod image_reading;
pub mod row;
mod row_writing;
pub mod shape;
mod so_far;
pub mod trace;
mod trace_reading;
mod writing;

pub use fault::{TEXT_LIMIT, TextFault, TextKind};
pub use image::Image;
pub use image_reading::read_image;
pub use row::{Row, Write};
pub use row_writing::write_row;
pub use shape::{MemShape, Shape};
pub use trace::{Trace, TraceLine};
pub use trace_reading::read_trace;
pub use writing::{write_image, write_trace};
