use ap_bits::{Boxed, Items};
use ap_desc::design::Arg;
use ap_path::PathPort;

/// What the operands of all ports are selected from.
#[derive(Drop)]
pub struct Merged {
    /// One for each operand of a port that some line hands in.
    pub choices: Items<Choice>,
}

/// An operand of a port, and what it is selected from.
#[derive(Drop)]
pub struct Choice {
    pub port: PathPort,
    /// The number of the operand, from 0. A guard or a condition comes after the others.
    pub operand: u32,
    /// What the instructions that use the port hand in, by instruction.
    pub entries: Items<Source>,
    /// Which entry is taken.
    pub select: Select,
}

/// What an instruction hands in.
#[derive(Clone, Copy, Debug, PartialEq, Eq)]
pub struct Source {
    /// The place of the instruction among the design's.
    pub instr: u32,
    pub from: Arg,
}

/// Which of some entries is taken, by the conditions of their instructions.
#[derive(Debug, Drop)]
pub enum Select {
    /// The entry at this place.
    Take(u32),
    /// `yes` where the condition of an entry from `from` up to the one before `to` is 1, else `no`.
    Ask {
        from: u32,
        to: u32,
        yes: Boxed<Select>,
        no: Boxed<Select>,
    },
}
