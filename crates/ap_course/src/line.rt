//! The lines of an instruction that make locals in a stage.
ghost use Rattle.std.specs.Prelude.{◌≡◌, ◌==◌, ◌≤◌, length, IfOk};
ghost use Rattle.ap_desc.specs.Chains.{makers};
ghost use Rattle.ap_desc.specs.Designs.{assigned_count};
ghost use Rattle.ap_ports.specs.Numbered.{AreNumbered};
ghost use Rattle.ap_ports.specs.Numbers.{IsNumbered, node_number};
ghost use Rattle.ap_course.specs.Lines.{asks_of, is_portless, line_of, lines_of, port_use, use_of, uses_of};

use ap_bits::{Items, NoMemory};
use ap_desc::design::{Act, Instr, Micro};
use ap_stage::node::PortUse;
use ap_stage::row::Line;
use ap_stage::user::{Asked, Use};
use std::alloc::Global;

/// Whether a line makes a local.
fn makes_local(act: Act) -> bool
    ensures { result ≡ (assigned_count act == 1) }
{
    match act {
        Act::WriteFile { .. }
        | Act::WriteReg { .. }
        | Act::WriteMem { .. }
        | Act::Branch { .. }
        | Act::Jump { .. } => false,
        _ => true,
    }
}

/// The lines that make locals.
fn makers(alloc: Global, instr: &Instr) -> Result<Items<Micro>, NoMemory>
    ensures { IfOk result (λ made. made ≡ makers instr.now) }
{
    let mut made = Items::new(alloc);
    for micro in instr.micros.as_slice() {
        if makes_local(micro.act) {
            made.push(*micro)?;
        }
    }
    Ok(made)
}

/// Whether a line makes a local and uses no port but a register's or an input's.
fn is_portless(act: Act) -> bool
    ensures { result ≡ is_portless act }
{
    match act {
        Act::ReadReg { .. }
        | Act::ReadIn { .. }
        | Act::Const { .. }
        | Act::Zext { .. }
        | Act::Sext { .. }
        | Act::Slice { .. }
        | Act::Cat { .. } => true,
        _ => false,
    }
}

/// The line that makes the local of this number, where it stands in the stage and uses no port.
fn line_of(stage: u32, local: u32, micro: &Micro) -> Option<Line>
    ensures { result ≡ line_of stage local micro.now }
{
    let act = micro.act;
    if micro.stage == stage && is_portless(act) {
        return Some(Line { act, local });
    }
    None
}

/// The number of the port whose result a line gives its local.
fn node_number(act: Act) -> Option<u32>
    requires { IsNumbered act }
    ensures { result ≡ node_number act }
{
    match act {
        Act::Compute { unit, .. } => Some(unit),
        Act::ReadFile { file, port, .. } => Some(32 + 4 * file + port),
        Act::ReadMem { mem, .. } => Some(64 + mem),
        _ => None,
    }
}

/// What a line asks of it.
fn asks_of(act: Act) -> Option<Asked>
    ensures { result ≡ asks_of act }
{
    match act {
        Act::Compute { op, a, b, .. } => Some(Asked::Operate(Use { op, a, b })),
        Act::ReadFile { index, .. } => Some(Asked::Read(index)),
        Act::ReadMem { at, .. } => Some(Asked::Read(at)),
        _ => None,
    }
}

/// The use of a port by the line that makes the local of this number.
fn port_use(local: u32, act: Act) -> Option<PortUse>
    requires { IsNumbered act }
    ensures { result ≡ port_use local act }
{
    match (node_number(act), asks_of(act)) {
        (Some(port), Some(asked)) => Some(PortUse { port, asked, local }),
        _ => None,
    }
}

/// The same, where the line stands in the stage.
fn use_of(stage: u32, local: u32, micro: &Micro) -> Option<PortUse>
    requires { IsNumbered micro.now.act }
    ensures { result ≡ use_of stage local micro.now }
{
    if micro.stage == stage {
        return port_use(local, micro.act);
    }
    None
}

/// The lines of the stage that make locals without a port, each with its local's number, in the order of the instruction's lines.
pub fn lines_of(alloc: Global, instr: &Instr, stage: u32) -> Result<Items<Line>, NoMemory>
    requires { length instr.now.micros ≤ 64 }
    ensures { IfOk result (λ lines. lines ≡ lines_of stage instr.now) }
{
    let mut lines = Items::new(alloc);
    let made = makers(alloc, instr)?;
    for (local, micro) in made.as_slice().iter().enumerate() {
        if let Some(line) = line_of(stage, local as u32, micro) {
            lines.push(line)?;
        }
    }
    Ok(lines)
}

/// The lines of the stage that use units and read ports, each with its local's number, in the order of the instruction's lines. A port has
/// the number of its node.
pub fn uses_of(alloc: Global, instr: &Instr, stage: u32) -> Result<Items<PortUse>, NoMemory>
    requires few { length instr.now.micros ≤ 64 }
    requires numbered { AreNumbered instr.now.micros }
    ensures { IfOk result (λ uses. uses ≡ uses_of stage instr.now) }
{
    let mut uses = Items::new(alloc);
    let made = makers(alloc, instr)?;
    for (local, micro) in made.as_slice().iter().enumerate() {
        if let Some(used) = use_of(stage, local as u32, micro) {
            uses.push(used)?;
        }
    }
    Ok(uses)
}
