use ap_bits::{Items, Name};

/// What a description without fault describes. Widths are in bits; lines are those of the description's text. Parts are
/// named by their places in the lists, counted from 0.
#[derive(Drop)]
pub struct Design {
    /// Stages of the pipeline, from 2 to 8.
    pub stages: u32,
    /// Bits of a code address, from 4 to 16.
    pub address: u32,
    /// Bits of a code word, from 8 to 64.
    pub word: u32,
    /// The stage of branches and jumps.
    pub branch: u32,
    /// How many instructions after a transfer still run.
    pub slots: u32,
    /// The line of `transfer`.
    pub transfer_line: u32,
    pub regs: Items<Reg>,
    pub files: Items<File>,
    pub mems: Items<Mem>,
    pub inputs: Items<InPort>,
    pub units: Items<Unit>,
    pub formats: Items<Format>,
    pub instrs: Items<Instr>,
}

/// A register and its value at the start.
#[derive(Drop)]
pub struct Reg {
    pub name: Name,
    pub width: u32,
    pub reset: u64,
}

/// A register file, with its numbers of cells, read ports and write ports. Cells start at 0.
#[derive(Drop)]
pub struct File {
    pub name: Name,
    pub width: u32,
    pub cells: u32,
    pub reads: u32,
    pub writes: u32,
}

/// A data memory: the bits of an address and of a word.
#[derive(Drop)]
pub struct Mem {
    pub name: Name,
    pub address: u32,
    pub width: u32,
}

/// An input port.
#[derive(Drop)]
pub struct InPort {
    pub name: Name,
    pub width: u32,
}

/// A unit: the place of its kind on the shelf, its width, and the cycles that it takes.
#[derive(Drop)]
pub struct Unit {
    pub name: Name,
    pub kind: u32,
    pub width: u32,
    pub latency: u32,
}

/// A format: the fields of a code word, the first in the high bits.
#[derive(Drop)]
pub struct Format {
    pub name: Name,
    pub line: u32,
    pub fields: Items<Field>,
}

/// A field: its width, and the place of its lowest bit, which is the sum of the widths of the later fields.
#[derive(Drop)]
pub struct Field {
    pub name: Name,
    pub width: u32,
    pub low: u32,
}

/// An instruction. A word matches it where the bits of `fixed_mask` are those of `fixed_value`.
#[derive(Drop)]
pub struct Instr {
    pub name: Name,
    pub line: u32,
    /// The place of its format.
    pub format: u32,
    /// For each field of the format the value that the `instr` line gives it.
    pub fixed: Items<Option<u64>>,
    /// The bits of the fixed fields that lie below the word's end and whose value fits.
    pub fixed_mask: u64,
    /// Those fields' values at their places.
    pub fixed_value: u64,
    /// The widths of the locals in the order of assignment.
    pub locals: Items<u32>,
    pub micros: Items<Micro>,
}

/// A micro-operation: its line, its stage and what it does.
#[derive(Clone, Copy, Debug, PartialEq, Eq)]
pub struct Micro {
    pub line: u32,
    pub stage: u32,
    pub act: Act,
}

/// An operand.
#[derive(Clone, Copy, Debug, PartialEq, Eq)]
pub enum Arg {
    /// The instruction's local at this place.
    Local(u32),
    /// The field of the instruction's format at this place.
    Field(u32),
    /// The address of the instruction's own word.
    Pc,
    /// The address after the slots.
    Link,
}

/// What a micro-operation does. Each of the first ten assigns the instruction's next local.
#[derive(Clone, Copy, Debug, PartialEq, Eq)]
pub enum Act {
    /// An operation of a unit, by its number on the kind's card.
    Compute {
        unit: u32,
        op: u32,
        a: Arg,
        b: Arg,
    },
    /// A read port of a file.
    ReadFile {
        file: u32,
        port: u32,
        index: Arg,
    },
    /// A register.
    ReadReg {
        reg: u32,
    },
    /// A word of a memory.
    ReadMem {
        mem: u32,
        at: Arg,
    },
    /// An input port.
    ReadIn {
        input: u32,
    },
    /// A constant.
    Const {
        width: u32,
        value: u64,
    },
    /// Extension by 0.
    Zext {
        width: u32,
        a: Arg,
    },
    /// Extension by the high bit.
    Sext {
        width: u32,
        a: Arg,
    },
    /// The bits from `high` down to `low`.
    Slice {
        high: u32,
        low: u32,
        a: Arg,
    },
    /// `a` above `b`.
    Cat {
        a: Arg,
        b: Arg,
    },
    /// A write port of a file.
    WriteFile {
        file: u32,
        port: u32,
        index: Arg,
        value: Arg,
        guard: Option<Arg>,
    },
    /// A write of a register.
    WriteReg {
        reg: u32,
        value: Arg,
        guard: Option<Arg>,
    },
    /// A write of a memory.
    WriteMem {
        mem: u32,
        at: Arg,
        value: Arg,
        guard: Option<Arg>,
    },
    /// A transfer where the condition is 1.
    Branch {
        cond: Arg,
        target: Arg,
    },
    /// A transfer.
    Jump {
        target: Arg,
    },
}

/// What a stage computes with and that may depend on another such node within the stage.
#[derive(Clone, Copy, Debug, PartialEq, Eq)]
pub enum Node {
    /// A unit.
    Unit(u32),
    /// A read port of a file.
    FileRead { file: u32, port: u32 },
    /// The read of a memory.
    MemRead(u32),
}
