//! The lines of a stage that write through a port, and those that transfer, by instruction.
ghost use Rattle.std.specs.Prelude.{◌≡◌, IfOk, find};
ghost use Rattle.ap_desc.specs.Clean.{IsClean};
ghost use Rattle.ap_desc.specs.Ports.{is_transfer};
ghost use Rattle.ap_model.specs.Ports.{writes_through};
ghost use Rattle.ap_effect.specs.Lines.{handed_by, is_line_of, line_of, transfer_lines, write_lines};

use ap_bits::{Items, NoMemory};
use ap_desc::design::{Act, Arg, Design, Instr, Micro};
use ap_desc::laws::clean_is_encoded;
use ap_model::storage::WritePort;
use std::alloc::Global;

/// What a line of an instruction hands to a write port, or to the pc.
#[derive(Clone, Copy, Debug, PartialEq, Eq)]
pub struct PortLine {
    /// The place of the instruction among the design's.
    pub instr: u32,
    /// The index of a cell or the address of a word; none at a register and at a transfer.
    pub index: Option<Arg>,
    /// What is written, or the target.
    pub value: Arg,
    /// The guard of a write, the condition of a branch.
    pub guard: Option<Arg>,
}

/// Whether a line writes through the port.
fn writes_through(port: WritePort, act: Act) -> bool
    ensures { result ≡ writes_through port act }
{
    match (port, act) {
        (WritePort::Register(reg), Act::WriteReg { reg: other, .. }) => reg == other,
        (
            WritePort::Cell { file, port },
            Act::WriteFile {
                file: other,
                port: number,
                ..
            },
        ) => file == other && port == number,
        (WritePort::Memory(mem), Act::WriteMem { mem: other, .. }) => mem == other,
        _ => false,
    }
}

/// Whether a line is a transfer.
fn is_transfer(act: Act) -> bool
    ensures { result ≡ is_transfer act }
{
    matches!(act, Act::Branch { .. } | Act::Jump { .. })
}

/// What a line of this instruction hands to a write port, or to the pc, if it does.
fn handed_by(instr: u32, act: Act) -> Option<PortLine>
    ensures { result ≡ handed_by instr act }
{
    match act {
        Act::WriteFile {
            index,
            value,
            guard,
            ..
        } => Some(PortLine {
            instr,
            index: Some(index),
            value,
            guard,
        }),
        Act::WriteReg { value, guard, .. } => Some(PortLine {
            instr,
            index: None,
            value,
            guard,
        }),
        Act::WriteMem {
            at,
            value,
            guard,
            ..
        } => Some(PortLine {
            instr,
            index: Some(at),
            value,
            guard,
        }),
        Act::Branch { cond, target } => Some(PortLine {
            instr,
            index: None,
            value: target,
            guard: Some(cond),
        }),
        Act::Jump { target } => Some(PortLine {
            instr,
            index: None,
            value: target,
            guard: None,
        }),
        _ => None,
    }
}

/// The first of these lines that writes through the port in the stage.
fn first_write(micros: &[Micro], stage: u32, port: WritePort) -> Option<Micro>
    ensures { result ≡ find (is_line_of (writes_through port) stage) micros.now }
{
    micros
        .iter()
        .find(|m| m.stage == stage && writes_through(port, m.act))
        .copied()
}

/// The first of these lines that transfers in the stage.
fn first_transfer(micros: &[Micro], stage: u32) -> Option<Micro>
    ensures { result ≡ find (is_line_of is_transfer stage) micros.now }
{
    micros
        .iter()
        .find(|m| m.stage == stage && is_transfer(m.act))
        .copied()
}

/// What the line of an instruction hands in that writes through the port in the stage, if one does.
fn write_line(instr: &Instr, number: u32, stage: u32, port: WritePort) -> Option<PortLine>
    ensures { result ≡ line_of (writes_through port) stage (number, instr.now) }
{
    match first_write(instr.micros.as_slice(), stage, port) {
        None => None,
        Some(m) => handed_by(number, m.act),
    }
}

/// What the line of an instruction hands in that transfers in the stage, if one does.
fn transfer_line(instr: &Instr, number: u32, stage: u32) -> Option<PortLine>
    ensures { result ≡ line_of is_transfer stage (number, instr.now) }
{
    match first_transfer(instr.micros.as_slice(), stage) {
        None => None,
        Some(m) => handed_by(number, m.act),
    }
}

/// The lines that write through the port in the stage, by instruction. An instruction of a clean design has one at most.
pub fn write_lines(
    alloc: Global,
    design: &Design,
    stage: u32,
    port: WritePort,
) -> Result<Items<PortLine>, NoMemory>
    requires { IsClean design.now }
    ensures { IfOk result (λ lines. lines ≡ write_lines design.now stage port) }
{
    clean_is_encoded();
    let mut lines = Items::new(alloc);
    for (number, instr) in design.instrs.as_slice().iter().enumerate() {
        if let Some(line) = write_line(instr, number as u32, stage, port) {
            lines.push(line)?;
        }
    }
    Ok(lines)
}

/// The lines that transfer in the stage, by instruction. An instruction of a clean design has one at most.
pub fn transfer_lines(
    alloc: Global,
    design: &Design,
    stage: u32,
) -> Result<Items<PortLine>, NoMemory>
    requires { IsClean design.now }
    ensures { IfOk result (λ lines. lines ≡ transfer_lines design.now stage) }
{
    clean_is_encoded();
    let mut lines = Items::new(alloc);
    for (number, instr) in design.instrs.as_slice().iter().enumerate() {
        if let Some(line) = transfer_line(instr, number as u32, stage) {
            lines.push(line)?;
        }
    }
    Ok(lines)
}
