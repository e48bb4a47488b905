use crate::storage::{PortWrite, Storages};
use ap_bits::Items;

/// The value that an input read took, by the line of the read.
#[derive(Clone, Copy, Debug, PartialEq, Eq)]
pub struct InputRead {
    /// The line of the description.
    pub line: u32,
    /// The value.
    pub value: u64,
}

/// What a word's instruction does in one stage.
#[derive(Debug, Drop)]
pub struct StageEffect {
    /// The instruction's locals up to the end of the stage, in order of assignment.
    pub locals: Items<u64>,
    /// The values that its input reads took.
    pub reads: Items<InputRead>,
    /// The target of the transfer that it takes.
    pub target: Option<u64>,
    /// Its writes: registers in order of declaration, then files with their ports by number, then memories.
    pub writes: Items<PortWrite>,
}

/// An instruction on its way through the stages.
#[derive(Debug, Drop)]
pub struct Flight {
    /// How many words were fetched before it and not killed: its number in order of execution.
    pub number: u64,
    /// Its code word.
    pub word: u64,
    /// The address of its word.
    pub place: u64,
    /// The locals that it has assigned, in order.
    pub locals: Items<u64>,
    /// For how many cycles it has been held in its stage.
    pub waited: u64,
}

/// A write that was made, with the instruction and the stage that made it.
#[derive(Clone, Copy, Debug, PartialEq, Eq)]
pub struct Entry {
    /// The number of the instruction.
    pub number: u64,
    /// The stage in which it stood.
    pub stage: u32,
    /// The write.
    pub write: PortWrite,
}

/// The value that an instruction's input read took.
#[derive(Clone, Copy, Debug, PartialEq, Eq)]
pub struct Sample {
    /// The number of the instruction.
    pub number: u64,
    /// The line of the read.
    pub line: u32,
    /// The value.
    pub value: u64,
}

/// A stage that an instruction has been through.
#[derive(Clone, Copy, Debug, PartialEq, Eq)]
pub struct Pass {
    /// The number of the instruction.
    pub number: u64,
    /// The stage.
    pub stage: u32,
}

/// What the machine of overlapped execution holds between two cycles.
#[derive(Debug, Drop)]
pub struct State {
    /// The address of the word that is fetched next.
    pub pc: u64,
    /// Registers, files and memories.
    pub storages: Storages,
    /// The flight in each stage from 1 on, stage 1 first; nothing where a stage is empty.
    pub flights: Items<Option<Flight>>,
    /// The number of the word that is fetched next.
    pub next: u64,
    /// The writes that were made, the oldest first.
    pub log: Items<Entry>,
    /// The samples that unkilled instructions took.
    pub sampled: Items<Sample>,
    /// The stages that unkilled instructions have been through.
    pub passes: Items<Pass>,
}
