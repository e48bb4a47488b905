//! The names of a module's nets, and the lines that use or declare names wrongly.
ghost use Rattle.std.specs.Prelude.{◌≡◌, ◌<◌, ◌+◌, ◌^◌, ◌&&◌, ◌∷◌, ◌++◌, [], length, map, None, Some, IfOk, OnOk, option_copied, if◌then◌else◌};
ghost use Rattle.std.specs.List.{AllByRecursion as Each};
ghost use Rattle.std.specs.Option.{option_or};
ghost use Rattle.ap_vr.specs.Reading.{HasFewLines};
ghost use Rattle.ap_vr.specs.Scope as scopes;
ghost use Rattle.ap_vr.specs.Scope.{first_repeat, instance_name, is_among, module_name, module_named, net_name, own_names, port_name, usable};
ghost use Rattle.ap_vr.specs.Tables.{listed, with_names};

use crate::line::{Connection, NamedAssign, NamedInstance, NamedNext, Right};
use crate::module::NamedModule;
use crate::names::Names;
use ap_bits::NoMemory;
use ap_net::net::{Net, Port};
use std::alloc::Global;

/// The first line so far, where one more is right or not.
pub(crate) fn noted(first: Option<u32>, right: bool, line: u32) -> Option<u32>
    ensures { result ≡ option_or first (if right then None else Some line) }
{
    match first {
        Some(earlier) => Some(earlier),
        None => { if right { None } else { Some(line) } }
    }
}

/// Whether both hold.
pub(crate) fn both(a: bool, b: bool) -> bool
    ensures { result ≡ (a && b) }
{
    a && b
}

/// Adds the names of ports, whose lines begin with this one, and gives the first line whose name was there
/// before.
fn add_ports(
    names: &mut Names,
    alloc: Global,
    from: u32,
    ports: &[Port],
) -> Result<Option<u32>, NoMemory>
    requires { from + length ports.now < 2 ^ 32 }
    ensures table { OnOk result (names.new ≡ with_names names.old (map port_name ports.now)) }
    ensures first { IfOk result (λ line. line
        ≡ first_repeat names.old from (map port_name ports.now)) }
{
    let mut first = None;
    for (place, port) in ports.iter().enumerate() {
        let new = names.add(alloc, port.name.as_str())?;
        first = noted(first, new, from + place as u32);
    }
    Ok(first)
}

/// Adds the names of wires or registers, and gives the first line whose name was there before.
fn add_declared(
    names: &mut Names,
    alloc: Global,
    from: u32,
    nets: &[Net],
) -> Result<Option<u32>, NoMemory>
    requires { from + length nets.now < 2 ^ 32 }
    ensures table { OnOk result (names.new ≡ with_names names.old (map net_name nets.now)) }
    ensures first { IfOk result (λ line. line
        ≡ first_repeat names.old from (map net_name nets.now)) }
{
    let mut first = None;
    for (place, net) in nets.iter().enumerate() {
        let new = names.add(alloc, net.name.as_str())?;
        first = noted(first, new, from + place as u32);
    }
    Ok(first)
}

/// Adds the names of instances, and gives the first line whose name was there before.
fn add_instances(
    names: &mut Names,
    alloc: Global,
    from: u32,
    instances: &[NamedInstance],
) -> Result<Option<u32>, NoMemory>
    requires { from + length instances.now < 2 ^ 32 }
    ensures table { OnOk result (names.new
        ≡ with_names names.old (map instance_name instances.now)) }
    ensures first { IfOk result (λ line. line
        ≡ first_repeat names.old from (map instance_name instances.now)) }
{
    let mut first = None;
    for (place, instance) in instances.iter().enumerate() {
        let new = names.add(alloc, instance.name.as_str())?;
        first = noted(first, new, from + place as u32);
    }
    Ok(first)
}

/// The names of the two ports that every module has.
fn own_names(alloc: Global) -> Result<Names, NoMemory>
    ensures { IfOk result (λ names. names ≡ own_names) }
{
    let mut names = Names::new(alloc);
    names.add(alloc, "clk")?;
    names.add(alloc, "rst")?;
    Ok(names)
}

/// The first line of a module that declares a net or an instance whose name is taken.
fn repeated_in(alloc: Global, named: &NamedModule) -> Result<Option<u32>, NoMemory>
    requires { HasFewLines named.now }
    ensures { IfOk result (λ line. line ≡ scopes.repeated_in named.now) }
{
    let mut names = own_names(alloc)?;
    let ports = named.ports.as_slice();
    let port = add_ports(&mut names, alloc, named.ports_from(), ports)?;
    let wires = named.wires.as_slice();
    let wire = add_declared(&mut names, alloc, named.wires_from(), wires)?;
    let regs = named.regs.as_slice();
    let reg = add_declared(&mut names, alloc, named.regs_from(), regs)?;
    let instances = named.instances.as_slice();
    let instance = add_instances(&mut names, alloc, named.instances_from(), instances)?;
    Ok(port.or(wire).or(reg).or(instance))
}

/// The first line that declares a name that is taken.
pub(crate) fn first_repeated(
    alloc: Global,
    modules: &[NamedModule],
) -> Result<Option<u32>, NoMemory>
    requires { Each HasFewLines modules.now }
    ensures { IfOk result (λ line. line ≡ scopes.first_repeated modules.now) }
{
    let mut names = Names::new(alloc);
    for module in modules {
        let new = names.add(alloc, module.name.as_str())?;
        if !new {
            return Ok(Some(module.line));
        }
        let line = repeated_in(alloc, module)?;
        if line.is_some() {
            return Ok(line);
        }
    }
    Ok(None)
}

/// The names that lines of the module may use: those of its nets, and then `clk` and `rst`.
pub(crate) fn scope(alloc: Global, named: &NamedModule) -> Result<Names, NoMemory>
    requires { HasFewLines named.now }
    ensures { IfOk result (λ names. names ≡ with_names [] (usable named.now)) }
{
    let mut names = Names::new(alloc);
    add_ports(&mut names, alloc, 0, named.ports.as_slice())?;
    add_declared(&mut names, alloc, 0, named.wires.as_slice())?;
    add_declared(&mut names, alloc, 0, named.regs.as_slice())?;
    names.add(alloc, "clk")?;
    names.add(alloc, "rst")?;
    Ok(names)
}

/// Whether the names of a right side are there.
fn knows_right(names: &Names, right: &Right) -> bool
    ensures { result ≡ scopes.knows_right (is_among names.now) right.now }
{
    match right {
        Right::Const { .. } => true,
        Right::Copy(a) => names.contains(a.as_str()),
        Right::Not(a) => names.contains(a.as_str()),
        Right::Two(_, a, b) => names.contains(a.as_str()) && names.contains(b.as_str()),
        Right::Choose(s, a, b) => {
            names.contains(s.as_str()) && names.contains(a.as_str()) && names.contains(b.as_str())
        }
        Right::Cat(a, b) => names.contains(a.as_str()) && names.contains(b.as_str()),
        Right::Slice(a, _, _) => names.contains(a.as_str()),
    }
}

/// Whether the names of an assign are there.
fn knows_assign(names: &Names, assign: &NamedAssign) -> bool
    ensures { result ≡ scopes.knows_assign (is_among names.now) assign.now }
{
    names.contains(assign.to.as_str()) && knows_right(names, &assign.right)
}

/// Whether the names of a register's driver are there.
fn knows_next(names: &Names, next: &NamedNext) -> bool
    ensures { result ≡ scopes.knows_next (is_among names.now) next.now }
{
    names.contains(next.register.as_str()) && names.contains(next.from.as_str())
}

/// Whether the connections are those of these ports, in order.
fn connects(connections: &[Connection], ports: &[Port]) -> bool
    ensures { result ≡ scopes.connects connections.now ports.now }
{
    connections.len() == ports.len()
        && connections
            .iter()
            .zip(ports)
            .all(|(c, p)| c.port.as_str() == p.name.as_str())
}

/// Whether the nets that are connected are there.
fn knows_nets(names: &Names, connections: &[Connection]) -> bool
    ensures { result ≡ scopes.knows_nets (is_among names.now) connections.now }
{
    connections.iter().all(|c| names.contains(c.net.as_str()))
}

/// The first of some modules that has this name.
pub(crate) fn module_named<'a>(
    names: &Names,
    modules: &[&'a NamedModule],
    name: &str,
) -> Option<&'a NamedModule>
    requires { names.now ≡ map module_name (listed modules.now) }
    ensures { option_copied result ≡ module_named (listed modules.now) name.now }
{
    match names.place(name) {
        Some(place) => {
            let module = modules[place];
            Some(module)
        }
        None => None,
    }
}

/// Whether the names of an instance are there, and its connections are the ports of its module.
fn knows_instance(
    known: &Names,
    modules: &[&NamedModule],
    names: &Names,
    instance: &NamedInstance,
) -> bool
    requires { known.now ≡ map module_name (listed modules.now) }
    ensures { result ≡ scopes.knows_instance (module_named (listed modules.now))
        (is_among names.now) instance.now }
{
    match module_named(known, modules, instance.module.as_str()) {
        None => false,
        Some(module) => {
            let connections = instance.connections.as_slice();
            let joined = connects(connections, module.ports.as_slice());
            both(joined, knows_nets(names, connections))
        }
    }
}

/// The first assign that uses a name that isn't there, as its line, where their lines begin with this one.
fn unknown_assign(names: &Names, from: u32, assigns: &[NamedAssign]) -> Option<u32>
    requires { from + length assigns.now < 2 ^ 32 }
    ensures { result ≡ scopes.unknown_assign (is_among names.now) from assigns.now }
{
    for (place, assign) in assigns.iter().enumerate() {
        if !knows_assign(names, assign) {
            return Some(from + place as u32);
        }
    }
    None
}

/// The first driver of a register that uses a name that isn't there.
fn unknown_next(names: &Names, from: u32, nexts: &[NamedNext]) -> Option<u32>
    requires { from + length nexts.now < 2 ^ 32 }
    ensures { result ≡ scopes.unknown_next (is_among names.now) from nexts.now }
{
    for (place, next) in nexts.iter().enumerate() {
        if !knows_next(names, next) {
            return Some(from + place as u32);
        }
    }
    None
}

/// The first instance that uses a name that isn't there, or whose connections aren't its module's ports.
fn unknown_instance(
    known: &Names,
    modules: &[&NamedModule],
    names: &Names,
    from: u32,
    instances: &[NamedInstance],
) -> Option<u32>
    requires known { known.now ≡ map module_name (listed modules.now) }
    requires few { from + length instances.now < 2 ^ 32 }
    ensures { result ≡ scopes.unknown_instance (module_named (listed modules.now))
        (is_among names.now) from instances.now }
{
    for (place, instance) in instances.iter().enumerate() {
        if !knows_instance(known, modules, names, instance) {
            return Some(from + place as u32);
        }
    }
    None
}

/// The first line of a module that uses a name that isn't declared, after these modules.
fn unknown_in(
    alloc: Global,
    known: &Names,
    modules: &[&NamedModule],
    named: &NamedModule,
) -> Result<Option<u32>, NoMemory>
    requires known { known.now ≡ map module_name (listed modules.now) }
    requires few { HasFewLines named.now }
    ensures { IfOk result (λ line. line
        ≡ scopes.unknown_in (module_named (listed modules.now)) named.now) }
{
    let names = scope(alloc, named)?;
    let assigns = named.assigns.as_slice();
    let assign = unknown_assign(&names, named.assigns_from(), assigns);
    let nexts = named.nexts.as_slice();
    let next = unknown_next(&names, named.nexts_from(), nexts);
    let instances = named.instances.as_slice();
    let from = named.instances_from();
    let instance = unknown_instance(known, modules, &names, from, instances);
    Ok(assign.or(next).or(instance))
}

/// Adds a module to those that are found by their names: the first of a name is found.
pub(crate) fn add_module<'a>(
    alloc: Global,
    known: &mut Names,
    modules: &mut Vec<&'a NamedModule>,
    named: &'a NamedModule,
) -> Result<(), NoMemory>
    requires { known.old ≡ map module_name (listed modules.old.items) }
    ensures known { OnOk result (known.new ≡ map module_name (listed modules.new.items)) }
    ensures found { OnOk result (module_named (listed modules.new.items)
        ≡ module_named (listed modules.old.items ++ named.now ∷ [])) }
{
    let new = known.add(alloc, named.name.as_str())?;
    if !new {
        return Ok(());
    }
    modules.push(named)?;
    Ok(())
}

/// The first line that uses a name that isn't declared.
pub(crate) fn first_unknown(alloc: Global, modules: &[NamedModule]) -> Result<Option<u32>, NoMemory>
    requires { Each HasFewLines modules.now }
    ensures { IfOk result (λ line. line ≡ scopes.first_unknown modules.now) }
{
    let mut known = Names::new(alloc);
    let mut earlier = Vec::new(alloc);
    for module in modules {
        let line = unknown_in(alloc, &known, &earlier, module)?;
        if line.is_some() {
            return Ok(line);
        }
        add_module(alloc, &mut known, &mut earlier, module)?;
    }
    Ok(None)
}
