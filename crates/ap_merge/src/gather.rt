//! What is selected from, operand by operand.
ghost use Rattle.std.specs.Prelude.{◌≡◌, ◌+◌, ◌<◌, length, IfOk, OnOk};
ghost use Rattle.std.specs.List.{list_any};
ghost use Rattle.ap_desc.specs.Clean.{IsClean};
ghost use Rattle.ap_path.specs.Tables.{ArePathsOf};
ghost use Rattle.ap_path.specs.Uses.{operand_at};
ghost use Rattle.ap_merge.specs.Choices.{AreChoices, is_port, sources_of};
ghost use Rattle.ap_merge.specs.Gathered.{AreFew, AreGathered, ArePorts};

use crate::select::balanced;
use crate::table::{Choice, Merged, Source};
use ap_bits::{Items, NoMemory};
use ap_desc::design::{Arg, Design};
use ap_path::{PathPort, PathTable, PathUse};
use std::alloc::Global;

/// How many operands a port has at most, a guard among them.
const OPERANDS: u32 = 3;

/// Whether both are one port.
fn is_port(one: PathPort, other: PathPort) -> bool
    ensures { result ≡ is_port one other }
{
    match (one, other) {
        (PathPort::Unit(a), PathPort::Unit(b))
        | (PathPort::RegWrite(a), PathPort::RegWrite(b))
        | (PathPort::MemRead(a), PathPort::MemRead(b))
        | (PathPort::MemWrite(a), PathPort::MemWrite(b)) => a == b,
        (PathPort::FileRead { file: a, port: p }, PathPort::FileRead { file: b, port: q })
        | (PathPort::FileWrite { file: a, port: p }, PathPort::FileWrite { file: b, port: q }) => a
            == b
            && p == q,
        (PathPort::Transfer, PathPort::Transfer) => true,
        _ => false,
    }
}

/// The operand of a use with this number, a guard as the one after the last.
fn operand_at(used: &PathUse, number: u32) -> Option<Arg>
    ensures { result ≡ operand_at used.now number }
{
    let operands = used.operands.as_slice();
    let number = number as usize;
    if number < operands.len() {
        return Some(operands[number]);
    }
    if number == operands.len() {
        return used.guard;
    }
    None
}

/// What the instructions hand in for an operand of a port.
fn sources_of(
    alloc: Global,
    uses: &[PathUse],
    port: PathPort,
    operand: u32,
) -> Result<Items<Source>, NoMemory>
    ensures { IfOk result (λ entries. entries ≡ sources_of uses.now port operand) }
{
    let mut entries = Items::new(alloc);
    for used in uses {
        if is_port(used.port, port) {
            if let Some(from) = operand_at(used, operand) {
                let instr = used.instr;
                entries.push(Source { instr, from })?;
            }
        }
    }
    Ok(entries)
}

/// Whether the port is among these.
fn is_known(ports: &[PathPort], port: PathPort) -> bool
    ensures { result ≡ list_any (is_port port) ports.now }
{
    let mut ports = ports.iter();
    ports.any(|known| is_port(port, *known))
}

/// The ports of these uses, each once.
fn ports_of(alloc: Global, uses: &[PathUse]) -> Result<Items<PathPort>, NoMemory>
    ensures { IfOk result (ArePorts uses.now) }
{
    let mut ports = Items::new(alloc);
    for used in uses {
        if !is_known(ports.as_slice(), used.port) {
            ports.push(used.port)?;
        }
    }
    Ok(ports)
}

/// Adds the choices for the operands of the port at this place.
fn add_choices(
    alloc: Global,
    choices: &mut Items<Choice>,
    uses: &[PathUse],
    ports: &[PathPort],
    place: usize,
) -> Result<(), NoMemory>
    requires there { place < length ports.now }
    requires ports { ArePorts uses.now ports.now }
    requires few { AreFew uses.now }
    requires gathered { AreGathered uses.now ports.now place 0 choices.old }
    ensures { OnOk result (AreGathered uses.now ports.now (place + 1) 0 choices.new) }
{
    let port = ports[place];
    for operand in 0..OPERANDS {
        let entries = sources_of(alloc, uses, port, operand)?;
        if !entries.is_empty() {
            let select = balanced(alloc, 0, entries.len() as u32)?;
            choices.push(Choice {
                port,
                operand,
                entries,
                select,
            })?;
        }
    }
    Ok(())
}

/// The choices for the operands that these uses hand in.
fn choices_of(alloc: Global, uses: &[PathUse]) -> Result<Items<Choice>, NoMemory>
    requires { AreFew uses.now }
    ensures { IfOk result (AreChoices uses.now) }
{
    let ports = ports_of(alloc, uses)?;
    let list = ports.as_slice();
    let mut choices = Items::new(alloc);
    for place in 0..list.len() {
        add_choices(alloc, &mut choices, uses, list, place)?;
    }
    Ok(choices)
}

/// For each operand of a port that some line hands in what it is selected from: for each instruction that uses the port what it hands in,
/// and a balanced selection that takes the one whose instruction's condition alone is 1. The design is clean, and the table is that of its
/// paths.
pub fn merge(alloc: Global, design: &Design, paths: &PathTable) -> Result<Merged, NoMemory>
    requires clean { IsClean design.now }
    requires paths { ArePathsOf design.now paths.now }
    ensures { IfOk result (λ merged. AreChoices paths.now.uses merged.choices) }
{
    let choices = choices_of(alloc, paths.uses.as_slice())?;
    Ok(Merged { choices })
}
