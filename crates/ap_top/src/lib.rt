//! The program's one call: it reads the words of a command, does what they say on a desk, and answers a status.
#![tactic(auto)]

pub mod addition;
mod assembling;
pub mod command;
pub mod design;
pub mod example;
pub mod form;
mod generate;
pub mod machine;
mod numbers;
pub mod pattern;
mod printing;
pub mod refusal;
pub mod serve;
mod showing;
mod simulating;
mod streaming;
