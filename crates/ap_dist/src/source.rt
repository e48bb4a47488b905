use ap_bits::Items;

/// A program without its text: what an assembler has to place.
#[derive(Drop)]
pub struct Source {
    /// Its instructions, in the order of the text.
    pub groups: Items<Group>,
    /// Whether a label stands after the last of them.
    pub labelled_end: bool,
    /// The first words of each data memory, in the order of the design.
    pub mems: Items<Items<u64>>,
}

/// An instruction, and its slot lines where it is a transfer.
#[derive(Drop)]
pub struct Group {
    /// Whether a label stands before it.
    pub labelled: bool,
    pub first: SourceLine,
    /// The instructions in its slots, in order; slots beyond them hold NOP.
    pub in_slots: Items<SourceLine>,
}

/// An instruction of the design, by its place in the list, with an operand for each field that it leaves free.
#[derive(Drop)]
pub struct SourceLine {
    pub instr: u32,
    pub operands: Items<Operand>,
}

/// What a line has for a field.
#[derive(Clone, Copy, Debug, PartialEq, Eq)]
pub enum Operand {
    /// A value of the field.
    Value(u64),
    /// The landing before the group of this number, counted from 0; after the last one where it is their number.
    Landing(usize),
}
