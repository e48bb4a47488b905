//! The uses of a design's lines and the orders of its stages.
ghost use Rattle.std.specs.Prelude.{◌≡◌, ◌++◌, ◌≤◌, length, IfOk, OnOk};
ghost use Rattle.ap_desc.specs.Chains.{IsChainOrder};
ghost use Rattle.ap_desc.specs.Clean.{IsClean};
ghost use Rattle.ap_desc.specs.Sound.{IsSound};
ghost use Rattle.ap_path.specs.Tables.{AreOrdersOf, ArePathsOf};
ghost use Rattle.ap_path.specs.Uses.{guard_of, handed, port_of_line, use_of, uses_in, uses_of};

use crate::table::{PathPort, PathTable, PathUse};
use ap_bits::{Items, NoMemory};
use ap_desc::design::{Act, Arg, Design, Micro, Node};
use ap_ports::{ChainFault, chain_order};
use std::alloc::Global;

/// The port that a line uses.
fn port_of_line(act: Act) -> Option<PathPort>
    ensures { result ≡ port_of_line act }
{
    match act {
        Act::Compute { unit, .. } => Some(PathPort::Unit(unit)),
        Act::ReadFile { file, port, .. } => Some(PathPort::FileRead { file, port }),
        Act::ReadMem { mem, .. } => Some(PathPort::MemRead(mem)),
        Act::WriteFile { file, port, .. } => Some(PathPort::FileWrite { file, port }),
        Act::WriteReg { reg, .. } => Some(PathPort::RegWrite(reg)),
        Act::WriteMem { mem, .. } => Some(PathPort::MemWrite(mem)),
        Act::Branch { .. } | Act::Jump { .. } => Some(PathPort::Transfer),
        _ => None,
    }
}

/// What a line hands to its port.
fn handed(alloc: Global, act: Act) -> Result<Items<Arg>, NoMemory>
    ensures { IfOk result (λ operands. operands ≡ handed act) }
{
    match act {
        Act::Compute { a, b, .. } => Items::copy_of(alloc, &[a, b]),
        Act::ReadFile { index, .. } => Items::copy_of(alloc, &[index]),
        Act::ReadMem { at, .. } => Items::copy_of(alloc, &[at]),
        Act::WriteFile { index, value, .. } => Items::copy_of(alloc, &[index, value]),
        Act::WriteReg { value, .. } => Items::copy_of(alloc, &[value]),
        Act::WriteMem { at, value, .. } => Items::copy_of(alloc, &[at, value]),
        Act::Branch { target, .. } | Act::Jump { target } => Items::copy_of(alloc, &[target]),
        _ => Ok(Items::new(alloc)),
    }
}

/// The operand that decides whether a line writes or transfers.
fn guard_of(act: Act) -> Option<Arg>
    ensures { result ≡ guard_of act }
{
    match act {
        Act::WriteFile { guard, .. } | Act::WriteReg { guard, .. } | Act::WriteMem { guard, .. } =>
            guard,
        Act::Branch { cond, .. } => Some(cond),
        _ => None,
    }
}

/// The use of the line at a place of an instruction, if it uses a port.
fn use_of(alloc: Global, instr: u32, place: u32, micro: &Micro) -> Result<Option<PathUse>, NoMemory>
    ensures { IfOk result (λ made. made ≡ use_of instr place micro.now) }
{
    let Some(port) = port_of_line(micro.act) else {
        return Ok(None);
    };
    let operands = handed(alloc, micro.act)?;
    Ok(Some(PathUse {
        instr,
        micro: place,
        stage: micro.stage,
        port,
        operands,
        guard: guard_of(micro.act),
    }))
}

/// Adds the uses of an instruction's lines.
fn add_uses(
    alloc: Global,
    uses: &mut Items<PathUse>,
    instr: u32,
    micros: &[Micro],
) -> Result<(), NoMemory>
    requires { length micros.now ≤ 64 }
    ensures { OnOk result (uses.new ≡ uses.old ++ uses_in instr micros.now) }
{
    for (place, micro) in micros.iter().enumerate() {
        if let Some(made) = use_of(alloc, instr, place as u32, micro)? {
            uses.push(made)?;
        }
    }
    Ok(())
}

/// The uses of all lines.
fn uses_of(alloc: Global, design: &Design) -> Result<Items<PathUse>, NoMemory>
    requires { IsSound design.now }
    ensures { IfOk result (λ uses. uses ≡ uses_of design.now) }
{
    let mut uses = Items::new(alloc);
    for (number, instr) in design.instrs.as_slice().iter().enumerate() {
        add_uses(alloc, &mut uses, number as u32, instr.micros.as_slice())?;
    }
    Ok(uses)
}

/// The order of a stage's nodes. In a clean design no line closes a loop.
fn order_of(alloc: Global, design: &Design, stage: u32) -> Result<Items<Node>, NoMemory>
    requires { IsClean design.now }
    ensures { IfOk result (IsChainOrder design.now stage) }
{
    match chain_order(alloc, design, stage) {
        Ok(order) => Ok(order),
        Err(ChainFault::Loop { .. }) => unreachable!(),
        Err(ChainFault::NoMemory) => Err(NoMemory),
    }
}

/// The orders of all stages from 1 on.
fn orders_of(alloc: Global, design: &Design) -> Result<Items<Items<Node>>, NoMemory>
    requires { IsClean design.now }
    ensures { IfOk result (AreOrdersOf design.now) }
{
    let mut orders = Items::new(alloc);
    for stage in 1..design.stages {
        orders.push(order_of(alloc, design, stage)?)?;
    }
    Ok(orders)
}

/// For each line that uses a port the port with its operands, by instruction and then by line, and for each stage from 1 on an order of its
/// nodes in which every edge of its union graph goes forward. The design is clean.
pub fn paths(alloc: Global, design: &Design) -> Result<PathTable, NoMemory>
    requires { IsClean design.now }
    ensures { IfOk result (ArePathsOf design.now) }
{
    let uses = uses_of(alloc, design)?;
    let orders = orders_of(alloc, design)?;
    Ok(PathTable { uses, orders })
}
