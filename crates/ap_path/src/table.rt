use ap_bits::Items;
use ap_desc::design::{Arg, Node};

/// What the lines of a design's instructions use, and how the nodes of its stages are ordered.
#[derive(Drop)]
pub struct PathTable {
    /// One for each line that uses a port, by instruction and then by line.
    pub uses: Items<PathUse>,
    /// For each stage from 1 on its nodes, in an order in which every edge of the stage's union graph goes forward.
    pub orders: Items<Items<Node>>,
}

/// The use of a port by a line of an instruction.
#[derive(Drop)]
pub struct PathUse {
    /// The place of the instruction among the design's.
    pub instr: u32,
    /// The place of the line among the instruction's.
    pub micro: u32,
    pub stage: u32,
    pub port: PathPort,
    /// The operands in the order of the line's form, without guard and condition. A transfer has its target alone.
    pub operands: Items<Arg>,
    /// The guard of a write, the condition of a branch.
    pub guard: Option<Arg>,
}

/// A port: it is used in one stage, and at most once by an instruction.
#[derive(Clone, Copy, Debug, PartialEq, Eq)]
pub enum PathPort {
    /// The unit at this place.
    Unit(u32),
    /// A read port of a file.
    FileRead { file: u32, port: u32 },
    /// A write port of a file.
    FileWrite { file: u32, port: u32 },
    /// The write of the register at this place.
    RegWrite(u32),
    /// The read of the memory at this place.
    MemRead(u32),
    /// The write of the memory at this place.
    MemWrite(u32),
    /// The one transfer.
    Transfer,
}
