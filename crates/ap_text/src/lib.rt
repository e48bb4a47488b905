//! Plain texts: their lines, the tokens of a line, and numbers.
//!
//! Descriptions, programs, images and traces are plain texts. [`lines`] cuts such a text into lines and their tokens,
//! each of which is a [`Span`] of the text, and [`number`] gives the value that a token spells. [`put_dec`] and
//! [`put_hex`] append a number to a text. What a line, a token and a number are stands in `specs/Lines.antt` and
//! `specs/Numbers.antt`.
#![tactic(auto)]

pub mod digits;
pub mod line;
pub mod numbers;
pub mod reading;

pub use digits::{put_dec, put_hex, written_is_read};
pub use line::{Line, Span};
pub use numbers::{NumberFault, number};
pub use reading::lines;
