//! The kinds of units that take one cycle, and the pieces of circuit that they are built of.
//!
//! A piece is a function over a builder that answers the net that it made. Its clauses say that the net is there and has
//! its width, which value it has in every solution, and that fresh wires alone were made.
#![tactic(auto)]

pub mod alu;
pub mod avg;
pub mod count;
pub mod leading;
pub mod levels;
pub mod parts;
pub mod select;
pub mod shift;
pub mod sums;

pub use alu::Alu;
pub use avg::Avg;
pub use count::Count;
pub use shift::Shift;
