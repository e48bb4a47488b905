//! The machines that a processor's text stands for: overlapped execution, cycle by cycle, and one instruction at a time.
//!
//! What a stage does with a word stands in `specs/Fire.antt`; the machine of overlapped execution in `specs/States.antt`,
//! `specs/Stalls.antt`, `specs/Cycles.antt` and `specs/ShownRows.antt`; the machine that runs one instruction at a time in
//! `specs/Sequence.antt`. The types here are those that the definitions speak of.
#![tactic(auto)]

pub mod laws;
pub mod sequence;
pub mod state;
pub mod storage;

pub use sequence::{Pending, Progress};
pub use state::{Entry, Flight, InputRead, Pass, Sample, StageEffect, State};
pub use storage::{PortWrite, Storage, Storages, WritePort};
