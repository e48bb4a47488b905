//! What the lines of a program say.
use ap_bits::{Items, Name};

/// An operand as it is written.
#[derive(Drop)]
pub enum Written {
    Number(u64),
    /// A minus sign and a number behind it.
    Minus(u64),
    Label(Name),
}

/// An instruction as it is written: its name and its operands.
#[derive(Drop)]
pub struct Call {
    pub instr: Name,
    pub operands: Items<Written>,
}

/// What a line says.
#[derive(Drop)]
pub enum Statement {
    /// `NAME:`
    Label(Name),
    /// `INSTR op op ..`
    Instr(Call),
    /// `| INSTR op op ..`
    Slot(Call),
    /// `data MEM v v ..`
    Data { mem: Name, words: Items<u64> },
}

/// A line of a program: its number in the text, and what it says; nothing where it is of no form.
#[derive(Drop)]
pub struct ProgramLine {
    pub number: u32,
    pub says: Option<Statement>,
}
