//! A spaced program's pipeline writes, storage by storage, what its instructions write one at a time.
#![tactic(auto)]

mod laws;

pub use laws::prefix;
