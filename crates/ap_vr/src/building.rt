//! Makes the netlist of modules without fault, and reads a text back.
ghost use Rattle.std.specs.Prelude.{◌≡◌, [], IfErr, IfOk, map};
ghost use Rattle.std.specs.List.{AllByRecursion as Each};
ghost use Rattle.ap_net.specs.Modules.{IsModule};
ghost use Rattle.ap_net.specs.Text.{Spells};
ghost use Rattle.ap_vr.specs.Built as builds;
ghost use Rattle.ap_vr.specs.Built.{AreClockedOnce, FaultlessBuild, HasSmallPlaces, HaveSmallPlaces, IsOnly, IsWantOfMemory, IsWithoutFault, SpellsOne, wire_of};
ghost use Rattle.ap_vr.specs.Judged.{IsFaultless, IsTextFault};
ghost use Rattle.ap_vr.specs.Named.{IsNamedModule};
ghost use Rattle.ap_vr.specs.Reading.{EndsInTop, HasFewLines};
ghost use Rattle.ap_vr.specs.Scope.{module_name, module_named};
ghost use Rattle.ap_vr.specs.Tables.{IsDistinct, listed, with_names};

use crate::fault::NetFault;
use crate::judging::read_named;
use crate::line::{Connection, NamedAssign, NamedInstance, NamedNext, Right};
use crate::module::NamedModule;
use crate::names::Names;
use crate::nets::Nets;
use crate::scope::{add_module, module_named};
use ap_bits::{Items, NoMemory};
use ap_net::cell::{Cell, Wire};
use ap_net::module::{Module, Netlist};
use ap_net::name::NetName;
use ap_net::net::{Assign, Instance, Net, Next, Port, RegNet};
use std::alloc::Global;

/// The net of a name.
fn wire(nets: &Nets, name: &NetName) -> Wire
    ensures { result ≡ wire_of nets.now.names nets.now.forms name.now }
{
    let number = nets.number(name);
    let form = nets.form(number);
    Wire {
        number,
        width: form.width,
    }
}

/// A right side by numbers.
fn cell(nets: &Nets, right: &Right) -> Cell
    requires { HasSmallPlaces right.now }
    ensures { result ≡ builds.cell_of (wire_of nets.now.names nets.now.forms) right.now }
{
    match right {
        Right::Const { value, .. } => Cell::Const(*value),
        Right::Copy(a) => Cell::Copy(wire(nets, a)),
        Right::Not(a) => Cell::Not(wire(nets, a)),
        Right::Two(op, a, b) => Cell::Two(*op, wire(nets, a), wire(nets, b)),
        Right::Choose(s, a, b) => Cell::Choose(wire(nets, s), wire(nets, a), wire(nets, b)),
        Right::Cat(a, b) => Cell::Cat(wire(nets, a), wire(nets, b)),
        Right::Slice(a, high, low) => Cell::Slice(wire(nets, a), *high as u32, *low as u32),
    }
}

/// An assign by numbers.
fn assign(nets: &Nets, said: &NamedAssign) -> Assign
    requires { HasSmallPlaces said.now.right }
    ensures { result ≡ builds.assign_of (wire_of nets.now.names nets.now.forms) said.now }
{
    let to = wire(nets, &said.to);
    let cell = cell(nets, &said.right);
    Assign { to, cell }
}

/// The assigns by numbers.
fn assigns(alloc: Global, nets: &Nets, said: &[NamedAssign]) -> Result<Vec<Assign>, NoMemory>
    requires { HaveSmallPlaces said.now }
    ensures { IfOk result (λ made. made.items
        ≡ map (builds.assign_of (wire_of nets.now.names nets.now.forms)) said.now) }
{
    let mut made = Vec::new(alloc);
    for one in said {
        made.push(assign(nets, one))?;
    }
    Ok(made)
}

/// The drivers of registers by numbers.
fn nexts(alloc: Global, nets: &Nets, said: &[NamedNext]) -> Result<Vec<Next>, NoMemory>
    ensures { IfOk result (λ made. made.items
        ≡ map (builds.next_of (wire_of nets.now.names nets.now.forms)) said.now) }
{
    let mut made = Vec::new(alloc);
    for one in said {
        let register = wire(nets, &one.register);
        let from = wire(nets, &one.from);
        made.push(Next { register, from })?;
    }
    Ok(made)
}

/// The nets that are connected, by numbers.
fn joined(alloc: Global, nets: &Nets, connections: &[Connection]) -> Result<Items<Wire>, NoMemory>
    ensures { IfOk result (λ made. made
        ≡ map (builds.net_joined (wire_of nets.now.names nets.now.forms)) connections.now) }
{
    let mut made = Items::new(alloc);
    for connection in connections {
        made.push(wire(nets, &connection.net))?;
    }
    Ok(made)
}

/// Which ports are outputs.
fn outputs(alloc: Global, ports: &[Port]) -> Result<Items<bool>, NoMemory>
    ensures { IfOk result (λ made. made ≡ map builds.output_of ports.now) }
{
    let mut made = Items::new(alloc);
    for port in ports {
        made.push(port.output)?;
    }
    Ok(made)
}

/// The ports of an instance's module.
fn ports_of<'a>(known: &Names, modules: &[&'a NamedModule], said: &NamedInstance) -> &'a [Port]
    requires { known.now ≡ map module_name (listed modules.now) }
    ensures { result.now ≡ builds.ports_by (module_named (listed modules.now) said.now.module) }
{
    match module_named(known, modules, said.module.as_str()) {
        Some(module) => module.ports.as_slice(),
        None => &[],
    }
}

/// An instance by numbers.
fn instance(
    alloc: Global,
    known: &Names,
    modules: &[&NamedModule],
    nets: &Nets,
    said: &NamedInstance,
) -> Result<Instance, NoMemory>
    requires { known.now ≡ map module_name (listed modules.now) }
    ensures { IfOk result (λ made. made ≡ builds.instance_of (module_named (listed modules.now))
        (wire_of nets.now.names nets.now.forms) said.now) }
{
    let drives = outputs(alloc, ports_of(known, modules, said))?;
    let name = said.name.copy(alloc)?;
    let module = said.module.copy(alloc)?;
    let nets = joined(alloc, nets, said.connections.as_slice())?;
    Ok(Instance {
        name,
        module,
        nets,
        drives,
    })
}

/// The instances by numbers.
fn instances(
    alloc: Global,
    known: &Names,
    modules: &[&NamedModule],
    nets: &Nets,
    said: &[NamedInstance],
) -> Result<Vec<Instance>, NoMemory>
    requires { known.now ≡ map module_name (listed modules.now) }
    ensures { IfOk result (λ made. made.items
        ≡ map (builds.instance_of (module_named (listed modules.now))
        (wire_of nets.now.names nets.now.forms)) said.now) }
{
    let mut made = Vec::new(alloc);
    for one in said {
        made.push(instance(alloc, known, modules, nets, one)?)?;
    }
    Ok(made)
}

/// The ports once more.
fn ports(alloc: Global, said: &[Port]) -> Result<Vec<Port>, NoMemory>
    ensures { IfOk result (λ made. made.items ≡ said.now) }
{
    let mut made = Vec::new(alloc);
    for port in said {
        let name = port.name.copy(alloc)?;
        made.push(Port {
            name,
            width: port.width,
            output: port.output,
        })?;
    }
    Ok(made)
}

/// The wires once more.
fn wires(alloc: Global, said: &[Net]) -> Result<Vec<Net>, NoMemory>
    ensures { IfOk result (λ made. made.items ≡ said.now) }
{
    let mut made = Vec::new(alloc);
    for wire in said {
        let name = wire.name.copy(alloc)?;
        made.push(Net {
            name,
            width: wire.width,
        })?;
    }
    Ok(made)
}

/// The registers that lines drive.
fn registers(alloc: Global, nexts: &[NamedNext]) -> Result<Names, NoMemory>
    ensures { IfOk result (λ names. names ≡ with_names [] (map builds.register_name nexts.now)) }
{
    let mut names = Names::new(alloc);
    for next in nexts {
        names.add(alloc, next.register.as_str())?;
    }
    Ok(names)
}

/// The value that a register takes at the reset edge.
fn reset(driven: &Names, nexts: &[NamedNext], name: &NetName) -> u64
    requires { driven.now ≡ map builds.register_name nexts.now }
    ensures { result ≡ builds.reset_among nexts.now name.now }
{
    match driven.place(name.as_str()) {
        Some(place) => match nexts.get(place) {
            Some(next) => next.reset,
            None => 0,
        },
        None => 0,
    }
}

/// The registers with their values after the reset edge.
fn regs(alloc: Global, nexts: &[NamedNext], said: &[Net]) -> Result<Vec<RegNet>, NoMemory>
    requires { AreClockedOnce nexts.now }
    ensures { IfOk result (λ made. made.items ≡ map (builds.reg_of nexts.now) said.now) }
{
    let driven = registers(alloc, nexts)?;
    let mut made = Vec::new(alloc);
    for reg in said {
        let name = reg.name.copy(alloc)?;
        made.push(RegNet {
            name,
            width: reg.width,
            reset: reset(&driven, nexts, &reg.name),
        })?;
    }
    Ok(made)
}

/// A module of a netlist.
fn build(
    alloc: Global,
    known: &Names,
    modules: &[&NamedModule],
    named: &NamedModule,
) -> Result<Module, NoMemory>
    requires known { known.now ≡ map module_name (listed modules.now) }
    requires few { HasFewLines named.now }
    requires distinct { IsDistinct named.now }
    requires rules { IsModule (builds.built_in (module_named (listed modules.now)) named.now) }
    ensures { IfOk result (λ made. made
        ≡ builds.built_in (module_named (listed modules.now)) named.now) }
{
    let nets = Nets::of(alloc, named)?;
    let name = named.name.copy(alloc)?;
    let ports = ports(alloc, named.ports.as_slice())?;
    let wires = wires(alloc, named.wires.as_slice())?;
    let regs = regs(alloc, named.nexts.as_slice(), named.regs.as_slice())?;
    let assigns = assigns(alloc, &nets, named.assigns.as_slice())?;
    let nexts = nexts(alloc, &nets, named.nexts.as_slice())?;
    let instances = instances(alloc, known, modules, &nets, named.instances.as_slice())?;
    Ok(Module::of_parts(name, ports, wires, regs, assigns, nexts, instances))
}

/// The netlist of modules without fault.
fn netlist(alloc: Global, modules: &[NamedModule]) -> Result<Netlist, NoMemory>
    requires few { Each HasFewLines modules.now }
    requires rules { Each IsNamedModule modules.now }
    requires top { EndsInTop modules.now }
    requires faultless { IsFaultless modules.now }
    ensures { IfOk result (λ net. net ≡ builds.built modules.now) }
{
    let mut known = Names::new(alloc);
    let mut earlier = Vec::new(alloc);
    let mut made = Vec::new(alloc);
    for module in modules {
        made.push(build(alloc, &known, &earlier, module)?)?;
        add_module(alloc, &mut known, &mut earlier, module)?;
    }
    Ok(Netlist::new(made))
}

/// Reads the text of a netlist back.
///
/// The netlist is the one that the text spells. A text is refused exactly where it has a fault, as [`read_named`]
/// says; the text of a netlist within the limit has none. `NoMemory` comes only where memory ran out. The time goes
/// with the number of bytes.
pub fn read_back(alloc: Global, text: &[u8]) -> Result<Netlist, NetFault>
    ensures spelled { IfOk result (λ net. Spells net text.now) }
    ensures only { IfOk result (IsOnly text.now) }
    ensures faultless { IfOk result (λ _. IsWithoutFault text.now) }
    ensures refused { IfErr result (IsTextFault text.now) }
    ensures written { IfErr result (IsWantOfMemory text.now) }
{
    let modules = read_named(alloc, text)?;
    let net = netlist(alloc, &modules)?;
    Ok(net)
}

/// Modules without fault, the last of which is `top`, make a netlist when they are built, and its text is theirs.
pub fn faultless_modules_build()
    ensures { FaultlessBuild }
{}

/// A text spells one netlist.
pub fn texts_spell_one()
    ensures { SpellsOne }
{}
