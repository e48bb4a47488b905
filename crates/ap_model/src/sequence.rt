use crate::state::Entry;
use crate::storage::Storages;
use ap_bits::Items;

/// A transfer that was taken and hasn't happened yet.
#[derive(Clone, Copy, Debug, PartialEq, Eq)]
pub struct Pending {
    /// How many further instructions run before it happens.
    pub left: u32,
    /// The address that it goes to.
    pub target: u64,
}

/// What the machine that runs one instruction at a time holds between two instructions.
#[derive(Debug, Drop)]
pub struct Progress {
    /// The address of the next instruction.
    pub pc: u64,
    /// Registers, files and memories.
    pub storages: Storages,
    /// The transfer that is on its way.
    pub pending: Option<Pending>,
    /// The number of the next instruction.
    pub next: u64,
    /// The writes that were made, the oldest first.
    pub log: Items<Entry>,
}
