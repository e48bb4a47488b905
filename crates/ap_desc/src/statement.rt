ghost use Rattle.std.specs.Prelude.{◌≡◌};
ghost use Rattle.ap_desc.specs.Spelling.{word_text};

use ap_bits::{Items, Name};

/// An operand of a micro-operation.
#[derive(Drop)]
pub enum Word {
    /// The address of the instruction's own word.
    Pc,
    /// The address after the slots of the instruction's transfer.
    Link,
    /// A local of the instruction or a field of its format.
    Named(Name),
}

impl Word {
    /// The word as text.
    pub fn as_str(&self) -> &str
        ensures { result.now ≡ word_text self.now }
    {
        match self {
            Word::Pc => "pc",
            Word::Link => "link",
            Word::Named(name) => name.as_str(),
        }
    }
}

/// A field's name and the number that stands with it: its width in a format, its value in an instruction.
#[derive(Drop)]
pub struct FieldNumber {
    pub field: Name,
    pub number: u64,
}

/// A statement of a description: one variant for each form, with the form's words in their order.
///
/// In micro-operations `stage` is the pipeline stage and `to` the new local. Forms that are spelled alike are one variant:
/// `1 x = M.read a b` is a [`Statement::Compute`], whatever `M` is declared as.
#[derive(Drop)]
pub enum Statement {
    /// `stages N`: how many stages the pipeline has.
    Stages {
        count: u64,
    },
    /// `address A`: the bits of a code address.
    Address {
        bits: u64,
    },
    /// `word W`: the bits of a code word.
    Word {
        bits: u64,
    },
    /// `transfer B K`: the stage of branches and jumps, and the slots after them.
    Transfer {
        stage: u64,
        slots: u64,
    },
    /// `reg NAME WIDTH RESET`: a register and its value at the start.
    Reg {
        name: Name,
        width: u64,
        reset: u64,
    },
    /// `file NAME WIDTH CELLS READS WRITES`: a register file, with its numbers of cells, read ports and write ports.
    File {
        name: Name,
        width: u64,
        cells: u64,
        reads: u64,
        writes: u64,
    },
    /// `mem NAME ADDRESSBITS WIDTH`: a data memory.
    Mem {
        name: Name,
        address: u64,
        width: u64,
    },
    /// `in NAME WIDTH`: an input port.
    In {
        name: Name,
        width: u64,
    },
    /// `unit NAME KIND WIDTH`: a unit of a kind of the shelf.
    Unit {
        name: Name,
        kind: Name,
        width: u64,
    },
    /// `format NAME FIELD:WIDTH ..`: the fields of a code word, the first in the high bits.
    Format {
        name: Name,
        fields: Items<FieldNumber>,
    },
    /// `instr NAME FORMAT FIELD=VALUE ..`: an instruction begins, with the fields that have one value.
    Instr {
        name: Name,
        format: Name,
        fixed: Items<FieldNumber>,
    },
    /// `S x = U.op a b`: an operation of a unit.
    Compute {
        stage: u64,
        to: Name,
        unit: Name,
        op: Name,
        a: Word,
        b: Word,
    },
    /// `S x = F.rN i`: a read port of a file.
    ReadFile {
        stage: u64,
        to: Name,
        file: Name,
        port: u64,
        index: Word,
    },
    /// `S x = R`: a register.
    ReadRegister {
        stage: u64,
        to: Name,
        reg: Name,
    },
    /// `S x = M.read a`: a word of a memory.
    ReadMemory {
        stage: u64,
        to: Name,
        mem: Name,
        at: Word,
    },
    /// `S x = in P`: an input port.
    ReadInput {
        stage: u64,
        to: Name,
        input: Name,
    },
    /// `S x = const W V`: a constant.
    Const {
        stage: u64,
        to: Name,
        width: u64,
        value: u64,
    },
    /// `S x = zext W a`: extension by 0.
    Zext {
        stage: u64,
        to: Name,
        width: u64,
        a: Word,
    },
    /// `S x = sext W a`: extension by the high bit.
    Sext {
        stage: u64,
        to: Name,
        width: u64,
        a: Word,
    },
    /// `S x = slice H L a`: the bits H down to L.
    Slice {
        stage: u64,
        to: Name,
        high: u64,
        low: u64,
        a: Word,
    },
    /// `S x = cat a b`: a above b.
    Cat {
        stage: u64,
        to: Name,
        a: Word,
        b: Word,
    },
    /// `S F.wN i v`: a write port of a file.
    WriteFile {
        stage: u64,
        file: Name,
        port: u64,
        index: Word,
        value: Word,
        guard: Option<Word>,
    },
    /// `S R <- v`: a write of a register.
    WriteRegister {
        stage: u64,
        reg: Name,
        value: Word,
        guard: Option<Word>,
    },
    /// `S M.write a v`: a write of a memory.
    WriteMemory {
        stage: u64,
        mem: Name,
        at: Word,
        value: Word,
        guard: Option<Word>,
    },
    /// `S branch c t`: a transfer where the condition is 1.
    Branch {
        stage: u64,
        cond: Word,
        target: Word,
    },
    /// `S jump t`: a transfer.
    Jump {
        stage: u64,
        target: Word,
    },
    /// `end`: the instruction is complete.
    End,
}
