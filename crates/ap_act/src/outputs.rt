//! The outputs of `top` at which is shown what lines write, port by port.
ghost use Rattle.std.specs.Prelude.{◌≡◌, ◌≤◌, ◌++◌, ◌∷◌, [], IfOk, OnOk, length, map};
ghost use Rattle.ap_desc.specs.Clean.{IsClean};
ghost use Rattle.ap_act.specs.Outputs.{IsStageOf, group_outputs, mem_outputs, shown_outputs, written_mems};

use ap_bits::{Items, NoMemory};
use ap_desc::design::Design;
use ap_effect::line::write_lines;
use ap_effect::write::WriteNets;
use ap_front::ports::{GroupPorts, MemPorts, Ports};
use ap_model::WritePort;
use std::alloc::Global;

/// The outputs at which is shown what is written through a port.
#[derive(Clone, Copy, Debug, PartialEq, Eq)]
pub struct PortOutputs {
    pub port: WritePort,
    /// Whether something is written, where, and what. They are driven by what the lines of the port's stage write.
    pub to: WriteNets,
}

/// The stage whose lines write through the port, and 0 where there is none.
pub fn port_stage(alloc: Global, design: &Design, port: WritePort) -> Result<u32, NoMemory>
    requires { IsClean design.now }
    ensures { IfOk result (IsStageOf design.now port) }
{
    for stage in 1..design.stages {
        let lines = write_lines(alloc, design, stage, port)?;
        if !lines.is_empty() {
            return Ok(stage);
        }
    }
    Ok(0)
}

/// The outputs of a register or of a write port of a file.
fn group_outputs(group: GroupPorts) -> PortOutputs
    ensures { result ≡ group_outputs group }
{
    PortOutputs {
        port: group.port,
        to: WriteNets {
            enable: group.enable,
            index: group.index,
            value: group.value,
        },
    }
}

/// The outputs of a memory.
fn mem_outputs(mem: u32, ports: MemPorts) -> PortOutputs
    ensures { result ≡ mem_outputs mem ports }
{
    PortOutputs {
        port: WritePort::Memory(mem),
        to: WriteNets {
            enable: ports.enable,
            index: Some(ports.address),
            value: ports.value,
        },
    }
}

/// Adds the outputs of registers and files.
fn add_groups(list: &mut Items<PortOutputs>, groups: &[GroupPorts]) -> Result<(), NoMemory>
    ensures { OnOk result (list.new ≡ list.old ++ map group_outputs groups.now) }
{
    for group in groups {
        list.push(group_outputs(*group))?;
    }
    Ok(())
}

/// Adds the outputs of a memory, where some line writes it.
fn add_mem(
    alloc: Global,
    list: &mut Items<PortOutputs>,
    design: &Design,
    mem: u32,
    ports: MemPorts,
) -> Result<(), NoMemory>
    requires clean { IsClean design.now }
    ensures { OnOk result (list.new ≡ list.old ++ written_mems design.now mem (ports ∷ [])) }
{
    let stage = port_stage(alloc, design, WritePort::Memory(mem))?;
    if stage == 0 {
        return Ok(());
    }
    list.push(mem_outputs(mem, ports))?;
    Ok(())
}

/// Adds the outputs of the memories that some line writes.
fn add_mems(
    alloc: Global,
    list: &mut Items<PortOutputs>,
    design: &Design,
    mems: &[MemPorts],
) -> Result<(), NoMemory>
    requires clean { IsClean design.now }
    requires few { length mems.now ≤ 4 }
    ensures { OnOk result (list.new ≡ list.old ++ written_mems design.now 0 mems.now) }
{
    for place in 0..mems.len() {
        add_mem(alloc, list, design, place as u32, mems[place])?;
    }
    Ok(())
}

/// The outputs of all ports through which some line writes: those of registers and files in the order of their groups, then those of
/// memories.
pub fn shown_outputs(
    alloc: Global,
    design: &Design,
    ports: &Ports,
) -> Result<Items<PortOutputs>, NoMemory>
    requires clean { IsClean design.now }
    requires few { length ports.now.mems ≤ 4 }
    ensures { IfOk result (λ list. list ≡ shown_outputs design.now ports.now) }
{
    let mut list = Items::new(alloc);
    add_groups(&mut list, ports.groups.as_slice())?;
    add_mems(alloc, &mut list, design, ports.mems.as_slice())?;
    Ok(list)
}
