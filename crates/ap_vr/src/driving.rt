//! Lines that drive what they may not, and nets that nothing drives.
ghost use Rattle.std.specs.Prelude.{◌≡◌, ◌<◌, ◌≤◌, ◌+◌, ◌^◌, ◌&&◌, ◌∷◌, [], Some, IfOk, false, if◌then◌else◌, length, map, nat_lt, not, option_copied, slice_get, true};
ghost use Rattle.ap_vr.specs.Driving as driving;
ghost use Rattle.ap_vr.specs.Driving.{also_all, assign_drives, drives_wrongly, driven_after, first_wrong, instance_drives, next_drives, none_driven, port_drives, ports_drive};
ghost use Rattle.ap_vr.specs.Nets.{number_of};
ghost use Rattle.ap_vr.specs.Reading.{HasFewLines};
ghost use Rattle.ap_vr.specs.Scope.{module_name, module_named};
ghost use Rattle.ap_vr.specs.Tables.{listed};
ghost use Rattle.ap_vr.specs.Marks.{AreNumbered, IsNetsOf, marks};

use crate::line::{Connection, NamedAssign, NamedInstance, NamedNext};
use crate::module::NamedModule;
use crate::names::Names;
use crate::nets::{NetForm, Nets};
use crate::scope::{both, module_named, noted};
use ap_bits::NoMemory;
use ap_net::net::{Port, Role};
use std::alloc::Global;

/// Whether a line may drive a net: an `always` line a register, any other line a wire or an output.
fn may_drive(clocked: bool, role: Role) -> bool
    ensures { result ≡ driving.may_drive clocked role }
{
    match role {
        Role::Input => false,
        Role::Output | Role::Plain => !clocked,
        Role::Register(_) => clocked,
    }
}

/// Which nets are driven: none yet.
fn unmarked(alloc: Global, nets: &Nets) -> Result<Vec<bool>, NoMemory>
    ensures none { IfOk result (λ made. marks made.items ≡ none_driven) }
    ensures length { IfOk result (λ made. length made.items ≡ length nets.now.forms) }
{
    let mut marked = Vec::new(alloc);
    for _ in 0..nets.forms.len() {
        marked.push(false)?;
    }
    Ok(marked)
}

/// Drives one more net, and says whether a line of this sort may.
fn drive(marked: &mut Vec<bool>, nets: &Nets, clocked: bool, number: usize) -> bool
    requires { number < length marked.old.items }
    ensures right { result ≡ not (drives_wrongly nets.now.forms clocked (marks marked.old.items)
        (number ∷ [])) }
    ensures driven { marks marked.new.items ≡ also_all (marks marked.old.items) (number ∷ []) }
    ensures length { length marked.new.items ≡ length marked.old.items }
{
    let form = nets.form(number);
    let free = !marked[number];
    marked[number] = true;
    both(free, may_drive(clocked, form.role))
}

/// Drives the nets of assigns, and gives the first that may not.
fn drive_assigns(
    marked: &mut Vec<bool>,
    nets: &Nets,
    from: u32,
    assigns: &[NamedAssign],
) -> Option<u32>
    requires numbered { AreNumbered nets.now marked.old.items }
    requires few { from + length assigns.now < 2 ^ 32 }
    ensures first { result ≡ first_wrong nets.now.forms false (marks marked.old.items) from
        (map (assign_drives (number_of nets.now.names)) assigns.now) }
    ensures driven { marks marked.new.items ≡ driven_after (marks marked.old.items)
        (map (assign_drives (number_of nets.now.names)) assigns.now) }
    ensures length { length marked.new.items ≡ length marked.old.items }
{
    let mut first = None;
    for (place, assign) in assigns.iter().enumerate() {
        let right = drive(marked, nets, false, nets.number(&assign.to));
        first = noted(first, right, from + place as u32);
    }
    first
}

/// Drives registers, and gives the first line that may not.
fn drive_nexts(marked: &mut Vec<bool>, nets: &Nets, from: u32, nexts: &[NamedNext]) -> Option<u32>
    requires numbered { AreNumbered nets.now marked.old.items }
    requires few { from + length nexts.now < 2 ^ 32 }
    ensures first { result ≡ first_wrong nets.now.forms true (marks marked.old.items) from
        (map (next_drives (number_of nets.now.names)) nexts.now) }
    ensures driven { marks marked.new.items ≡ driven_after (marks marked.old.items)
        (map (next_drives (number_of nets.now.names)) nexts.now) }
    ensures length { length marked.new.items ≡ length marked.old.items }
{
    let mut first = None;
    for (place, next) in nexts.iter().enumerate() {
        let right = drive(marked, nets, true, nets.number(&next.register));
        first = noted(first, right, from + place as u32);
    }
    first
}

/// Drives the net that is connected to a port, where the port is an output, and says whether it may.
fn drive_port(marked: &mut Vec<bool>, nets: &Nets, port: &Port, connection: &Connection) -> bool
    requires { AreNumbered nets.now marked.old.items }
    ensures right { result ≡ not (drives_wrongly nets.now.forms false (marks marked.old.items)
        (port_drives (number_of nets.now.names) port.now (Some connection.now))) }
    ensures driven { marks marked.new.items ≡ also_all (marks marked.old.items)
        (port_drives (number_of nets.now.names) port.now (Some connection.now)) }
    ensures length { length marked.new.items ≡ length marked.old.items }
{
    let output = port.output;
    if !output {
        return true;
    }
    drive(marked, nets, false, nets.number(&connection.net))
}

/// The connection of a place.
fn connection_at(connections: &[Connection], place: usize) -> Option<&Connection>
    ensures { option_copied result ≡ slice_get connections.now place }
{
    connections.get(place)
}

/// Drives the net that is connected to the port of this place, where there is one.
fn drive_joined(
    marked: &mut Vec<bool>,
    nets: &Nets,
    port: &Port,
    connections: &[Connection],
    place: usize,
) -> bool
    requires { AreNumbered nets.now marked.old.items }
    ensures right { result ≡ not (drives_wrongly nets.now.forms false (marks marked.old.items)
        (port_drives (number_of nets.now.names) port.now (slice_get connections.now place))) }
    ensures driven { marks marked.new.items ≡ also_all (marks marked.old.items)
        (port_drives (number_of nets.now.names) port.now (slice_get connections.now place)) }
    ensures length { length marked.new.items ≡ length marked.old.items }
{
    match connection_at(connections, place) {
        None => true,
        Some(connection) => drive_port(marked, nets, port, connection),
    }
}

/// Drives the nets that are connected to outputs, and says whether an instance may.
fn drive_ports(
    marked: &mut Vec<bool>,
    nets: &Nets,
    ports: &[Port],
    connections: &[Connection],
) -> bool
    requires { AreNumbered nets.now marked.old.items }
    ensures right { result ≡ not (drives_wrongly nets.now.forms false (marks marked.old.items)
        (ports_drive (number_of nets.now.names) ports.now connections.now)) }
    ensures driven { marks marked.new.items ≡ also_all (marks marked.old.items)
        (ports_drive (number_of nets.now.names) ports.now connections.now) }
    ensures length { length marked.new.items ≡ length marked.old.items }
{
    let mut right = true;
    for (place, port) in ports.iter().enumerate() {
        let here = drive_joined(marked, nets, port, connections, place);
        right = both(right, here);
    }
    right
}

/// Drives the nets of an instance, and says whether it may.
fn drive_instance(
    marked: &mut Vec<bool>,
    known: &Names,
    modules: &[&NamedModule],
    nets: &Nets,
    instance: &NamedInstance,
) -> bool
    requires known { known.now ≡ map module_name (listed modules.now) }
    requires numbered { AreNumbered nets.now marked.old.items }
    ensures right { result ≡ not (drives_wrongly nets.now.forms false (marks marked.old.items)
        (instance_drives (module_named (listed modules.now)) (number_of nets.now.names) instance.now)) }
    ensures driven { marks marked.new.items ≡ also_all (marks marked.old.items)
        (instance_drives (module_named (listed modules.now)) (number_of nets.now.names) instance.now) }
    ensures length { length marked.new.items ≡ length marked.old.items }
{
    match module_named(known, modules, instance.module.as_str()) {
        None => true,
        Some(module) => {
            let connections = instance.connections.as_slice();
            drive_ports(marked, nets, module.ports.as_slice(), connections)
        }
    }
}

/// Drives the nets of instances, and gives the first that may not.
fn drive_instances(
    marked: &mut Vec<bool>,
    known: &Names,
    modules: &[&NamedModule],
    nets: &Nets,
    from: u32,
    instances: &[NamedInstance],
) -> Option<u32>
    requires known { known.now ≡ map module_name (listed modules.now) }
    requires numbered { AreNumbered nets.now marked.old.items }
    requires few { from + length instances.now < 2 ^ 32 }
    ensures first { result ≡ first_wrong nets.now.forms false (marks marked.old.items) from
        (map (instance_drives (module_named (listed modules.now)) (number_of nets.now.names))
        instances.now) }
    ensures driven { marks marked.new.items ≡ driven_after (marks marked.old.items)
        (map (instance_drives (module_named (listed modules.now)) (number_of nets.now.names))
        instances.now) }
    ensures length { length marked.new.items ≡ length marked.old.items }
{
    let mut first = None;
    for (place, instance) in instances.iter().enumerate() {
        let right = drive_instance(marked, known, modules, nets, instance);
        first = noted(first, right, from + place as u32);
    }
    first
}

/// Drives all nets that lines of a module drive, and gives the first line that drives what it may not.
fn drive_all(
    marked: &mut Vec<bool>,
    known: &Names,
    modules: &[&NamedModule],
    nets: &Nets,
    named: &NamedModule,
) -> Option<u32>
    requires known { known.now ≡ map module_name (listed modules.now) }
    requires few { HasFewLines named.now }
    requires numbered { AreNumbered nets.now marked.old.items }
    requires none { marks marked.old.items ≡ none_driven }
    ensures wrong { result ≡ driving.wrong_by (module_named (listed modules.now))
        (number_of nets.now.names) nets.now.forms named.now }
    ensures driven { marks marked.new.items
        ≡ driving.all_driven (module_named (listed modules.now)) (number_of nets.now.names) named.now }
    ensures length { length marked.new.items ≡ length marked.old.items }
{
    let assigns = named.assigns.as_slice();
    let assign = drive_assigns(marked, nets, named.assigns_from(), assigns);
    let nexts = named.nexts.as_slice();
    let next = drive_nexts(marked, nets, named.nexts_from(), nexts);
    let instances = named.instances.as_slice();
    let from = named.instances_from();
    let instance = drive_instances(marked, known, modules, nets, from, instances);
    assign.or(next).or(instance)
}

/// The first line of a module that drives what it may not.
pub(crate) fn wrong_line(
    alloc: Global,
    known: &Names,
    modules: &[&NamedModule],
    nets: &Nets,
    named: &NamedModule,
) -> Result<Option<u32>, NoMemory>
    requires known { known.now ≡ map module_name (listed modules.now) }
    requires few { HasFewLines named.now }
    requires nets { IsNetsOf named.now nets.now }
    ensures { IfOk result (λ line. line
        ≡ driving.driven_twice_in (module_named (listed modules.now)) named.now) }
{
    let mut marked = unmarked(alloc, nets)?;
    Ok(drive_all(&mut marked, known, modules, nets, named))
}

/// Whether a net needs a driver: an input alone doesn't.
fn needs_driver(role: Role) -> bool
    ensures { result ≡ driving.needs_driver role }
{
    match role {
        Role::Input => false,
        Role::Output | Role::Plain | Role::Register(_) => true,
    }
}

/// Whether a net that is driven or isn't lacks a driver.
fn lacks_driver(form: NetForm, driven: bool) -> bool
    ensures { result ≡ (driving.needs_driver form.role && not driven) }
{
    needs_driver(form.role) && !driven
}

/// The number of the first net that needs a driver and has none.
fn first_undriven(marked: &[bool], forms: &[NetForm]) -> Option<usize>
    requires { length forms.now ≡ length marked.now }
    ensures { result ≡ driving.first_undriven (marks marked.now) 0 forms.now }
{
    for (number, form) in forms.iter().enumerate() {
        if lacks_driver(*form, marked[number]) {
            return Some(number);
        }
    }
    None
}

/// How many lines a module has before the line of the net of a number, beside those of other nets.
fn lines_before(named: &NamedModule, number: usize) -> u32
    ensures lines { result ≡ (if nat_lt number (length named.now.ports) then 3 else 4) }
    ensures few { result ≤ 4 }
{
    if number < named.ports.len() { 3 } else { 4 }
}

/// The line in which the net of a number is declared.
fn net_line(named: &NamedModule, number: usize) -> u32
    requires few { HasFewLines named.now }
    requires number { number
        < length named.now.ports + length named.now.wires + length named.now.regs }
    ensures { result ≡ driving.net_line named.now number }
{
    named.line + lines_before(named, number) + number as u32
}

/// The first line of a module that declares a net without a driver.
pub(crate) fn undriven_line(
    alloc: Global,
    known: &Names,
    modules: &[&NamedModule],
    nets: &Nets,
    named: &NamedModule,
) -> Result<Option<u32>, NoMemory>
    requires known { known.now ≡ map module_name (listed modules.now) }
    requires few { HasFewLines named.now }
    requires nets { IsNetsOf named.now nets.now }
    ensures { IfOk result (λ line. line
        ≡ driving.undriven_in (module_named (listed modules.now)) named.now) }
{
    let mut marked = unmarked(alloc, nets)?;
    let _wrong = drive_all(&mut marked, known, modules, nets, named);
    let driven = marked.as_slice();
    let forms = nets.forms.as_slice();
    match first_undriven(driven, forms) {
        Some(number) => Ok(Some(net_line(named, number))),
        None => Ok(None),
    }
}
