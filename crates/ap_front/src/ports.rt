//! The ports of `top`, in their order. Outputs are driven later.
ghost use Rattle.std.specs.Prelude.{◌≡◌, ◌∷◌, [], ◌++◌, IfOk, OnOk, codes, flat_map, length, slice_get, Some, IsTrue};
ghost use Rattle.std.specs.List.{AllByRecursion as Each};
ghost use Rattle.ap_bits.specs.Names.{IsName};
ghost use Rattle.ap_desc.specs.Clean.{IsClean};
ghost use Rattle.ap_model.specs.Ports.{write_groups};
ghost use Rattle.ap_net.specs.Draft.{CanFresh, blank};
ghost use Rattle.ap_net.specs.Outside.{input, mem_name, output, ports_of};
ghost use Rattle.ap_desc.specs.Designs.{is_file_within};
ghost use Rattle.ap_signals.specs.DesignOutside.{file_group, mem_shape, outside_of, reg_group};
ghost use Rattle.ap_ctl.specs.Lists.{EachPair};
ghost use Rattle.ap_front.specs.Ports.{AreGroupPorts, AreMemPorts, ArePortsOf, CanDeclare, CanPort, HasPorts, IsInput, IsPort, group_ports_of, input_of, mem_of, ports_of_group, shown_name, with_ports};

use crate::groups::write_groups;
use ap_bits::{Items, NoMemory};
use ap_desc::design::{Design, File, InPort, Mem, Reg};
use ap_model::WritePort;
use ap_net::builder::Builder;
use ap_net::cell::Wire;
use ap_store::shape::index_width;

/// The ports of a data memory.
#[derive(Clone, Copy, Debug, PartialEq, Eq)]
pub struct MemPorts {
    /// The output at which the memory looks.
    pub read_address: Wire,
    /// The input that has its word there.
    pub read: Wire,
    /// The output, of one bit, that says that it is written.
    pub enable: Wire,
    /// Where.
    pub address: Wire,
    /// What.
    pub value: Wire,
}

/// The outputs that show the writes through a port.
#[derive(Clone, Copy, Debug, PartialEq, Eq)]
pub struct GroupPorts {
    /// The write port of a register or file.
    pub port: WritePort,
    /// One bit: it writes.
    pub enable: Wire,
    /// The index of the cell; none at a register.
    pub index: Option<Wire>,
    /// What is written.
    pub value: Wire,
}

/// The ports of `top` after `clk` and `rst`.
#[derive(Drop)]
pub struct Ports {
    /// The output with the address that is fetched.
    pub iaddr: Wire,
    /// The input with the code word there.
    pub idata: Wire,
    /// The input, of one bit, that has stages wait that read or write a memory.
    pub mwait: Wire,
    /// The design's input ports, in order.
    pub inputs: Items<Wire>,
    /// The ports of its data memories, in order.
    pub mems: Items<MemPorts>,
    /// The output, of one bit, that says that stage 0 is held.
    pub stall: Wire,
    /// The output, of one bit, that says that a transfer is taken.
    pub kill: Wire,
    /// The outputs of the write groups, in order.
    pub groups: Items<GroupPorts>,
}

/// Declares an output.
fn output_port(out: &mut Builder, name: &[u8], width: u32) -> Result<Wire, NoMemory>
    requires can { CanPort out.old (output name.now width) }
    requires fresh { CanFresh out.old }
    ensures ok { OnOk result (out.new ≡ with_ports out.old (output name.now width ∷ [])) }
    ensures is { IfOk result (IsPort out.new (output name.now width)) }
    ensures fresh { OnOk result (CanFresh out.new) }
{
    let wire = out.output(name, width)?;
    Ok(wire)
}

/// Declares an input.
fn input_port(out: &mut Builder, name: &[u8], width: u32) -> Result<Wire, NoMemory>
    requires can { CanPort out.old (input name.now width) }
    requires fresh { CanFresh out.old }
    ensures ok { OnOk result (out.new ≡ with_ports out.old (input name.now width ∷ [])) }
    ensures is { IfOk result (IsPort out.new (input name.now width)) }
    ensures fresh { OnOk result (CanFresh out.new) }
{
    let wire = out.input(name, width)?;
    Ok(wire)
}

/// Declares an input port of the design.
fn one_input(out: &mut Builder, input: &InPort) -> Result<Wire, NoMemory>
    requires can { CanDeclare (input_of input.now) out.old }
    requires fresh { CanFresh out.old }
    ensures ok { OnOk result (out.new ≡ with_ports out.old (input_of input.now)) }
    ensures is { IfOk result (IsInput out.new input.now) }
    ensures fresh { OnOk result (CanFresh out.new) }
{
    let name = format!(in out.allocator(); "p_{}", input.name.as_str())?;
    let wire = input_port(out, name.as_bytes(), input.width)?;
    Ok(wire)
}

/// Declares all input ports of the design.
fn input_ports(out: &mut Builder, inputs: &[InPort]) -> Result<Items<Wire>, NoMemory>
    requires can { CanDeclare (flat_map input_of inputs.now) out.old }
    requires fresh { CanFresh out.old }
    ensures ok { OnOk result (out.new ≡ with_ports out.old (flat_map input_of inputs.now)) }
    ensures is { IfOk result (EachPair (IsInput out.new) inputs.now) }
    ensures fresh { OnOk result (CanFresh out.new) }
{
    let mut made = Items::new(out.allocator());
    for input in inputs {
        let wire = one_input(out, input)?;
        made.push(wire)?;
    }
    Ok(made)
}

/// Declares an output of a data memory.
fn mem_output(out: &mut Builder, mem: &Mem, what: &str, width: u32) -> Result<Wire, NoMemory>
    requires can { CanPort out.old (output (mem_name (mem_shape mem.now) what.now) width) }
    requires fresh { CanFresh out.old }
    ensures ok { OnOk result (out.new ≡ with_ports out.old
        (output (mem_name (mem_shape mem.now) what.now) width ∷ [])) }
    ensures is { IfOk result (IsPort out.new
        (output (mem_name (mem_shape mem.now) what.now) width)) }
    ensures fresh { OnOk result (CanFresh out.new) }
{
    let name = format!(in out.allocator(); "m_{}_{what}", mem.name.as_str())?;
    let wire = output_port(out, name.as_bytes(), width)?;
    Ok(wire)
}

/// Declares the input that has a word of a data memory.
fn mem_input(out: &mut Builder, mem: &Mem) -> Result<Wire, NoMemory>
    requires can { CanPort out.old
        (input (mem_name (mem_shape mem.now) (codes "rd")) mem.now.width) }
    requires fresh { CanFresh out.old }
    ensures ok { OnOk result (out.new ≡ with_ports out.old
        (input (mem_name (mem_shape mem.now) (codes "rd")) mem.now.width ∷ [])) }
    ensures is { IfOk result (IsPort out.new
        (input (mem_name (mem_shape mem.now) (codes "rd")) mem.now.width)) }
    ensures fresh { OnOk result (CanFresh out.new) }
{
    let name = format!(in out.allocator(); "m_{}_rd", mem.name.as_str())?;
    let wire = input_port(out, name.as_bytes(), mem.width)?;
    Ok(wire)
}

/// Declares the ports of a data memory.
fn mem_ports(out: &mut Builder, mem: &Mem) -> Result<MemPorts, NoMemory>
    requires can { CanDeclare (mem_of mem.now) out.old }
    requires fresh { CanFresh out.old }
    ensures ok { OnOk result (out.new ≡ with_ports out.old (mem_of mem.now)) }
    ensures is { IfOk result (AreMemPorts out.new mem.now) }
    ensures fresh { OnOk result (CanFresh out.new) }
{
    let read_address = mem_output(out, mem, "ra", mem.address)?;
    let read = mem_input(out, mem)?;
    let enable = mem_output(out, mem, "we", 1)?;
    let address = mem_output(out, mem, "wa", mem.address)?;
    let value = mem_output(out, mem, "wd", mem.width)?;
    Ok(MemPorts {
        read_address,
        read,
        enable,
        address,
        value,
    })
}

/// Declares the ports of all data memories.
fn all_mem_ports(out: &mut Builder, mems: &[Mem]) -> Result<Items<MemPorts>, NoMemory>
    requires can { CanDeclare (flat_map mem_of mems.now) out.old }
    requires fresh { CanFresh out.old }
    ensures ok { OnOk result (out.new ≡ with_ports out.old (flat_map mem_of mems.now)) }
    ensures is { IfOk result (EachPair (AreMemPorts out.new) mems.now) }
    ensures fresh { OnOk result (CanFresh out.new) }
{
    let mut made = Items::new(out.allocator());
    for mem in mems {
        let ports = mem_ports(out, mem)?;
        made.push(ports)?;
    }
    Ok(made)
}

/// Declares an output of a write group, where `storage` names the register, or the file and its port.
fn group_port(out: &mut Builder, storage: &str, what: &str, width: u32) -> Result<Wire, NoMemory>
    requires can { CanPort out.old (output (shown_name storage.now what.now) width) }
    requires fresh { CanFresh out.old }
    ensures ok { OnOk result (out.new ≡ with_ports out.old
        (output (shown_name storage.now what.now) width ∷ [])) }
    ensures is { IfOk result (IsPort out.new (output (shown_name storage.now what.now) width)) }
    ensures fresh { OnOk result (CanFresh out.new) }
{
    let name = format!(in out.allocator(); "w_{storage}_{what}")?;
    let wire = output_port(out, name.as_bytes(), width)?;
    Ok(wire)
}

/// Declares the outputs that show the writes of a register.
fn reg_ports(out: &mut Builder, port: WritePort, reg: &Reg) -> Result<GroupPorts, NoMemory>
    requires can { CanDeclare (ports_of_group (reg_group reg.now)) out.old }
    requires fresh { CanFresh out.old }
    ensures ok { OnOk result (out.new ≡ with_ports out.old (ports_of_group (reg_group reg.now))) }
    ensures of { IfOk result (λ made. made.port ≡ port) }
    ensures is { IfOk result (AreGroupPorts out.new (reg_group reg.now)) }
    ensures fresh { OnOk result (CanFresh out.new) }
{
    let storage = reg.name.as_str();
    let enable = group_port(out, storage, "e", 1)?;
    let value = group_port(out, storage, "v", reg.width)?;
    Ok(GroupPorts {
        port,
        enable,
        index: None,
        value,
    })
}

/// Declares the outputs that show the writes through a port of a file.
fn cell_ports(
    out: &mut Builder,
    port: WritePort,
    number: u32,
    file: &File,
) -> Result<GroupPorts, NoMemory>
    requires within { IsTrue (is_file_within file.now) }
    requires can { CanDeclare (ports_of_group (file_group number file.now)) out.old }
    requires fresh { CanFresh out.old }
    ensures ok { OnOk result
        (out.new ≡ with_ports out.old (ports_of_group (file_group number file.now))) }
    ensures of { IfOk result (λ made. made.port ≡ port) }
    ensures is { IfOk result (AreGroupPorts out.new (file_group number file.now)) }
    ensures fresh { OnOk result (CanFresh out.new) }
{
    let storage = format!(in out.allocator(); "{}_{number}", file.name.as_str())?;
    let enable = group_port(out, &storage, "e", 1)?;
    let index = group_port(out, &storage, "x", index_width(file))?;
    let value = group_port(out, &storage, "v", file.width)?;
    Ok(GroupPorts {
        port,
        enable,
        index: Some(index),
        value,
    })
}

/// Declares the outputs that show the writes through a port.
fn group_ports(out: &mut Builder, design: &Design, port: WritePort) -> Result<GroupPorts, NoMemory>
    requires clean { IsClean design.now }
    requires can { CanDeclare (group_ports_of design.now port) out.old }
    requires fresh { CanFresh out.old }
    ensures ok { OnOk result (out.new ≡ with_ports out.old (group_ports_of design.now port)) }
    ensures is { IfOk result (ArePortsOf design.now out.new port) }
    ensures fresh { OnOk result (CanFresh out.new) }
{
    match port {
        WritePort::Register(reg) => {
            let made = reg_ports(out, port, &design.regs.as_slice()[reg as usize])?;
            Ok(made)
        }
        WritePort::Cell { file, port: number } => {
            let file = &design.files.as_slice()[file as usize];
            let made = cell_ports(out, port, number, file)?;
            Ok(made)
        }
        WritePort::Memory(_) => unreachable!(),
    }
}

/// Declares the outputs of all write groups.
fn all_group_ports(out: &mut Builder, design: &Design) -> Result<Items<GroupPorts>, NoMemory>
    requires clean { IsClean design.now }
    requires can { CanDeclare (flat_map (group_ports_of design.now) (write_groups design.now))
        out.old }
    requires fresh { CanFresh out.old }
    ensures ok { OnOk result (out.new ≡ with_ports out.old
        (flat_map (group_ports_of design.now) (write_groups design.now))) }
    ensures is { IfOk result (EachPair (ArePortsOf design.now out.new)
        (write_groups design.now)) }
    ensures fresh { OnOk result (CanFresh out.new) }
{
    let alloc = out.allocator();
    let groups = write_groups(alloc, design)?;
    let mut made = Items::new(alloc);
    for group in groups.as_slice() {
        let ports = group_ports(out, design, *group)?;
        made.push(ports)?;
    }
    Ok(made)
}

/// Declares all ports of a design's `top`, in their order, in a builder that has nothing but its name. After an error the builder is good
/// for nothing but to be dropped.
pub fn declare_ports(design: &Design, out: &mut Builder) -> Result<Ports, NoMemory>
    requires clean { IsClean design.now }
    requires empty { out.old ≡ blank (codes "top") }
    ensures ok { OnOk result
        (out.new ≡ with_ports (blank (codes "top")) (ports_of (outside_of design.now))) }
    ensures ports { IfOk result (HasPorts design.now out.new) }
    ensures fresh { OnOk result (CanFresh out.new) }
{
    let iaddr = output_port(out, b"iaddr", design.address)?;
    let idata = input_port(out, b"idata", design.word)?;
    let mwait = input_port(out, b"mwait", 1)?;
    let inputs = input_ports(out, design.inputs.as_slice())?;
    let mems = all_mem_ports(out, design.mems.as_slice())?;
    let stall = output_port(out, b"stall", 1)?;
    let kill = output_port(out, b"kill", 1)?;
    let groups = all_group_ports(out, design)?;
    Ok(Ports {
        iaddr,
        idata,
        mwait,
        inputs,
        mems,
        stall,
        kill,
        groups,
    })
}
