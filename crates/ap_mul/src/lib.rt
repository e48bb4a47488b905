//! The kind `mul`: a multiplier, which takes one cycle more than it has bits.
//!
//! It multiplies as on paper, from the lowest bit of the second factor on: a step adds the first factor where that bit is 1,
//! and moves the sum and what is left of the second factor down by a bit. After as many steps as the width has bits the two
//! registers hold the whole product.
#![tactic(auto)]

pub mod product;
pub mod sum;

pub use product::Mul;
