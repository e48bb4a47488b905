use ap_bits::Items;

/// What registers, files and data memories hold, in order of declaration. A word of a memory beyond its list is 0.
#[derive(Debug, Drop)]
pub struct Storages {
    /// A value for each register.
    pub regs: Items<u64>,
    /// The cells of each file.
    pub files: Items<Items<u64>>,
    /// The words of each memory, from address 0 on.
    pub mems: Items<Items<u64>>,
}

/// What a line writes through: a register's write, a write port of a file, or a memory's write. Each is named by its place in
/// the design's lists.
#[derive(Clone, Copy, Debug, PartialEq, Eq)]
pub enum WritePort {
    /// The write of a register.
    Register(u32),
    /// A write port of a file, by its number.
    Cell { file: u32, port: u32 },
    /// The write of a memory.
    Memory(u32),
}

/// A write through a port.
#[derive(Clone, Copy, Debug, PartialEq, Eq)]
pub struct PortWrite {
    /// The port.
    pub port: WritePort,
    /// The index of the cell or the address of the word; 0 at a register.
    pub at: u64,
    /// What is written.
    pub value: u64,
}

/// What counts as one storage: a register, a cell of a file, or a whole data memory.
#[derive(Clone, Copy, Debug, PartialEq, Eq)]
pub enum Storage {
    /// A register.
    Register(u32),
    /// A cell of a file.
    Cell { file: u32, index: u64 },
    /// A data memory.
    Memory(u32),
}
