//! Kinds of units: what a unit of a card is, the trait of kinds, and the shelf that holds them by name.
//!
//! A kind has a card, which says what each of its operations computes and how many cycles it takes. It builds the module of
//! a unit for each width of the card, and what such a module is stands in `specs/Units.antt`. Who uses a unit knows it by
//! its card alone; one that takes several cycles is placed by [`place_slow`], and `specs/Slow.antt` says what its user may
//! rely on. A unit that takes one cycle is built of [`declare_inputs`], pieces of circuit over the inputs, and
//! [`show_result`]; one that makes a step a cycle of [`begin_steps`], pieces of circuit that make the step, and [`end_steps`].
#![tactic(auto)]

pub mod kind;
pub mod pieces;
pub mod shelf;
pub mod slow;
pub mod stepper;

pub use kind::UnitKind;
pub use pieces::{Inputs, declare_inputs, show_result};
pub use shelf::{Shelf, ShelfFault};
pub use slow::{SlowInputs, SlowOutputs, asked_units_show, place_slow, slow_units_depend};
pub use stepper::{Pair, Stepper, begin_steps, end_steps, state_before};
