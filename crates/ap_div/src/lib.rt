//! The kind `div`: a divider, which takes one cycle more than it has bits.
//!
//! It divides as on paper, from the highest bit of the dividend on: a step sets the next bit below the rest so far, and takes
//! the divisor off where it goes into that. The bit of the quotient comes in below what is left of the dividend. A divisor of
//! 0 goes into every rest, so that the quotient is all ones and the remainder the dividend, as the table of operations has it.
#![tactic(auto)]

pub mod difference;
pub mod quotient;

pub use quotient::Div;
