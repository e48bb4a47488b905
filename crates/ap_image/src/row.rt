use ap_bits::Items;

/// A write that a row shows. The write groups are numbered from 0 in the order of their ports, and
/// the data memories after them. In a processor that was made from a description the groups are
/// first the registers that some line writes, in order of declaration; then the write ports that some
/// line uses, file by file, the later stage first and within a stage by number.
#[derive(Clone, Copy, Debug, PartialEq, Eq)]
pub struct Write {
    /// The number of the write's group or memory.
    pub group: u32,
    /// The index of a file's cell or the address of a memory's word; none at a register.
    pub index: Option<u64>,
    /// What is written.
    pub value: u64,
}

/// What one cycle shows.
#[derive(Debug, Drop)]
pub struct Row {
    /// Whether the cycle is stalled.
    pub stall: bool,
    /// Whether a transfer is taken in it.
    pub kill: bool,
    /// The writes, by group.
    pub writes: Items<Write>,
}
