//! What the lines of an instruction access.
ghost use Rattle.std.specs.Prelude.{◌≡◌, ◌==◌, ◌≤◌, length, IfSome};
ghost use Rattle.ap_desc.specs.Designs.{assigned_count};
ghost use Rattle.ap_dist.specs.Accesses.{access_of, constant_of, index_of};
ghost use Rattle.ap_dist.specs.Constants.{HasConstants};
ghost use Rattle.ap_dist.specs.declared.access.Part.TheVariants as part;

use ap_desc::design::{Act, Arg, Design, Instr, Micro};
use ap_enc::word::{field_value, fields_of};

/// The most lines of an instruction.
pub(crate) const LINES: usize = 64;

/// What is accessed: a register, a cell of a file, or a data memory, by its place in the design's lists.
#[derive(Clone, Copy, Debug, PartialEq, Eq)]
pub enum Part {
    Register(u32),
    /// The cell with this index, or any cell of the file, where the index isn't fixed.
    Cell { file: u32, index: Option<u64> },
    Memory(u32),
}

/// A read or a write by a line of an instruction.
#[derive(Clone, Copy, Debug, PartialEq, Eq)]
pub struct Access {
    pub part: Part,
    /// Whether it writes. It does also where a guard may keep it from writing.
    pub writes: bool,
    pub stage: u32,
}

/// Whether the line assigns a local.
fn makes_local(micro: &Micro) -> bool
    ensures { result ≡ (assigned_count micro.now.act == 1) }
{
    !matches!(
        micro.act,
        Act::WriteFile { .. }
            | Act::WriteReg { .. }
            | Act::WriteMem { .. }
            | Act::Branch { .. }
            | Act::Jump { .. }
    )
}

/// The value of the constant that the line makes, if it makes one.
fn constant_of(micro: &Micro) -> Option<u64>
    ensures { result ≡ constant_of micro.now }
{
    match micro.act {
        Act::Const { value, .. } => Some(value),
        _ => None,
    }
}

/// For each local of an instruction the constant that it is, if it is one.
#[derive(Clone, Copy)]
pub(crate) struct Constants {
    pub values: [Option<u64>; LINES],
}

/// The constants among the locals of an instruction.
pub(crate) fn constants_of(instr: &Instr) -> Constants
    requires { length instr.now.micros ≤ 64 }
    ensures { HasConstants instr.now result.values }
{
    let mut values = [None; LINES];
    let mut count = 0;
    for micro in instr.micros.as_slice() {
        if makes_local(micro) {
            values[count] = constant_of(micro);
            count += 1;
        }
    }
    Constants { values }
}

/// The index of a cell, where the word fixes it.
fn index_of(
    design: &Design,
    instr: &Instr,
    constants: &Constants,
    word: Option<u64>,
    index: Arg,
) -> Option<u64>
    requires { HasConstants instr.now constants.now.values }
    ensures { result ≡ index_of design.now instr.now word index }
{
    let word = word?;
    match index {
        Arg::Local(local) => *constants.values.get(local as usize)?,
        Arg::Field(field) => {
            let field = fields_of(design, instr).get(field as usize)?;
            Some(field_value(field, word))
        }
        Arg::Pc | Arg::Link => None,
    }
}

/// The cell of a file at an index.
fn cell_of(
    design: &Design,
    instr: &Instr,
    constants: &Constants,
    word: Option<u64>,
    file: u32,
    index: Arg,
) -> Part
    requires { HasConstants instr.now constants.now.values }
    ensures { result ≡ part.Cell file (index_of design.now instr.now word index) }
{
    Part::Cell {
        file,
        index: index_of(design, instr, constants, word, index),
    }
}

/// What the line accesses, if anything, where the instruction has these constants and this word, or any.
pub(crate) fn access_of(
    design: &Design,
    instr: &Instr,
    constants: &Constants,
    word: Option<u64>,
    micro: &Micro,
) -> Option<Access>
    requires { HasConstants instr.now constants.now.values }
    ensures access { result ≡ access_of design.now instr.now word micro.now }
    ensures stage { IfSome result (λ access. access.stage ≡ micro.now.stage) }
{
    let (part, writes) = match micro.act {
        Act::ReadReg { reg } => (Part::Register(reg), false),
        Act::ReadFile { file, index, .. } => {
            (cell_of(design, instr, constants, word, file, index), false)
        }
        Act::ReadMem { mem, .. } => (Part::Memory(mem), false),
        Act::WriteReg { reg, .. } => (Part::Register(reg), true),
        Act::WriteFile { file, index, .. } => {
            (cell_of(design, instr, constants, word, file, index), true)
        }
        Act::WriteMem { mem, .. } => (Part::Memory(mem), true),
        _ => return None,
    };
    Some(Access {
        part,
        writes,
        stage: micro.stage,
    })
}
