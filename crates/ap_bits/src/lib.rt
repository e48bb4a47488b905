//! Values of some width, terms over them, the cards of resources, and names.
//!
//! A value of `w` bits is a number below 2^w. What each operation gives stands in `specs/Operations.antt`, over whole
//! numbers, the value of a [`Term`] in `specs/Terms.antt`, and what a [`Card`] says of its resource in `specs/Cards.antt`.
//! [`eval`] computes a term's value, and [`unary`] and [`binary`] that of an operation. In a clause of another crate a term
//! is written as `Bin Srl (Bin Add A B) (Const 1)`, and the set `term_values` of `proofs/TermValues.antt` takes its value
//! apart.
#![tactic(auto)]

pub mod boxed;
pub mod card;
pub mod items;
pub mod limits;
pub mod memory;
pub mod name;
pub mod term;
pub mod value;
pub mod words;

pub use boxed::Boxed;
pub use card::{Card, Latency, OpCard, Widths, select_width_is_least};
pub use items::Items;
pub use memory::NoMemory;
pub use name::{Name, is_name};
pub use term::{BinOp, Term, UnOp};
pub use value::{binary, eval, unary};
pub use words::{mask, sext};
