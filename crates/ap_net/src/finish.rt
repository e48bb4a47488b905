ghost use Rattle.std.specs.Prelude.{◌≡◌, ℕ, ◌+◌, ◌<◌, List, length, map, slice_get, slice_index, Some, IfOk, ◌^◌};
ghost use Rattle.std.specs.List.{AllByRecursion as Each};
ghost use Rattle.ap_net.specs.declared.cell.Wire.{Wire};
ghost use Rattle.ap_net.specs.declared.net.ModuleNet.{ModuleNet};
ghost use Rattle.ap_net.specs.declared.net.Assign.{Assign};
ghost use Rattle.ap_net.specs.declared.net.Next.{Next};
ghost use Rattle.ap_net.specs.declared.net.Instance.{Instance};
ghost use Rattle.ap_net.specs.Cells.{operands};
ghost use Rattle.ap_net.specs.Wiring.{IsDriven};
ghost use Rattle.ap_net.specs.Draft.{IsDraft, draft_of, is_plain, wire_count};
ghost use Rattle.ap_net.specs.Finished.{IsFinished};
ghost use Rattle.ap_net.specs.Modules.{placed, cell_placed, assign_placed, next_placed, instance_placed, port_by, wire_by, reg_by, ports_among, wires_among, regs_among};
ghost use Rattle.ap_net.specs.Places.{has_port_role, has_register_role, one_more_if, number_by, port_count, place_by};

use crate::NoMemory;
use crate::cell::{Cell, Wire};
use crate::module::Module;
use crate::name::NetName;
use crate::net::{Assign, Instance, ModuleNet, Net, Next, Port, RegNet, Role};
use ap_bits::Items;
use std::alloc::Global;

/// The port that a net is, if it is one.
fn port_of(alloc: Global, net: &ModuleNet) -> Result<Option<Port>, NoMemory>
    ensures { IfOk result (λ port. port ≡ port_by net.now.role net.now) }
{
    let output = match net.role {
        Role::Input => false,
        Role::Output => true,
        Role::Plain | Role::Register(_) => return Ok(None),
    };
    let name = net.name.copy(alloc)?;
    let width = net.width;
    Ok(Some(Port {
        name,
        width,
        output,
    }))
}

/// The wire that a net is, if it is one.
fn wire_of(alloc: Global, net: &ModuleNet) -> Result<Option<Net>, NoMemory>
    ensures { IfOk result (λ wire. wire ≡ wire_by net.now.role net.now) }
{
    let Role::Plain = net.role else {
        return Ok(None);
    };
    let name = net.name.copy(alloc)?;
    let width = net.width;
    Ok(Some(Net { name, width }))
}

/// The register that a net is, if it is one.
fn reg_of(alloc: Global, net: &ModuleNet) -> Result<Option<RegNet>, NoMemory>
    ensures { IfOk result (λ reg. reg ≡ reg_by net.now.role net.now) }
{
    let Role::Register(reset) = net.role else {
        return Ok(None);
    };
    let name = net.name.copy(alloc)?;
    let width = net.width;
    Ok(Some(RegNet { name, width, reset }))
}

/// The ports among nets, in the order of their declaration.
fn ports_of(alloc: Global, nets: &[ModuleNet]) -> Result<Vec<Port>, NoMemory>
    ensures { IfOk result (λ ports. ports.items ≡ ports_among nets.now) }
{
    let mut ports = Vec::new(alloc);
    for net in nets {
        if let Some(port) = port_of(alloc, net)? {
            ports.push(port)?;
        }
    }
    Ok(ports)
}

/// The wires among nets, in the order of their declaration.
fn wires_of(alloc: Global, nets: &[ModuleNet]) -> Result<Vec<Net>, NoMemory>
    ensures { IfOk result (λ wires. wires.items ≡ wires_among nets.now) }
{
    let mut wires = Vec::new(alloc);
    for net in nets {
        if let Some(wire) = wire_of(alloc, net)? {
            wires.push(wire)?;
        }
    }
    Ok(wires)
}

/// The registers among nets, in the order of their declaration.
fn regs_of(alloc: Global, nets: &[ModuleNet]) -> Result<Vec<RegNet>, NoMemory>
    ensures { IfOk result (λ regs. regs.items ≡ regs_among nets.now) }
{
    let mut regs = Vec::new(alloc);
    for net in nets {
        if let Some(reg) = reg_of(alloc, net)? {
            regs.push(reg)?;
        }
    }
    Ok(regs)
}

/// The next free numbers of a port, a wire and a register.
#[derive(Clone, Copy)]
struct Free {
    port: usize,
    wire: usize,
    register: usize,
}

impl Free {
    /// The number for a net of this role.
    fn number(self, role: Role) -> usize
        ensures { result ≡ number_by role self.port self.wire self.register }
    {
        match role {
            Role::Input | Role::Output => self.port,
            Role::Plain => self.wire,
            Role::Register(_) => self.register,
        }
    }

    /// The free numbers after a net of this role.
    fn after(self, role: Role) -> Free
        requires { number_by role self.port self.wire self.register + 1 < 2 ^ 64 }
        ensures { result ≡ record {
          port = one_more_if (has_port_role role) self.port;
          wire = one_more_if (is_plain role) self.wire;
          register = one_more_if (has_register_role role) self.register;
        } }
    {
        let Free {
            port,
            wire,
            register,
        } = self;
        match role {
            Role::Input | Role::Output => Free {
                port: port + 1,
                wire,
                register,
            },
            Role::Plain => Free {
                port,
                wire: wire + 1,
                register,
            },
            Role::Register(_) => Free {
                port,
                wire,
                register: register + 1,
            },
        }
    }
}

/// The numbers that nets get in the finished module.
fn places_of(
    alloc: Global,
    nets: &[ModuleNet],
    ports: usize,
    wires: usize,
) -> Result<Vec<usize>, NoMemory>
    requires ports { ports ≡ port_count nets.now }
    requires wires { wires ≡ wire_count nets.now }
    ensures length { IfOk result (λ places. length places.items ≡ length nets.now) }
    ensures each { IfOk result (λ places. (n : ℕ) (net : ModuleNet)
        → slice_get nets.now n ≡ Some net
        → slice_index places.items n ≡ place_by net.role nets.now n) }
{
    let mut places = Vec::new(alloc);
    let mut free = Free {
        port: 0,
        wire: ports,
        register: ports + wires,
    };
    for net in nets {
        let role = net.role;
        places.push(free.number(role))?;
        free = free.after(role);
    }
    Ok(places)
}

/// The wire under its number in the finished module.
fn wire_placed(wire: Wire, places: &[usize]) -> Wire
    requires { wire.number < length places.now }
    ensures { result ≡ placed (slice_index places.now) wire }
{
    Wire {
        number: places[wire.number],
        width: wire.width,
    }
}

/// The cell over the numbers of the finished module.
fn cell_under(cell: Cell, places: &[usize]) -> Cell
    requires { Each (λ (o : Wire). o.number < length places.now) (operands cell) }
    ensures { result ≡ cell_placed (slice_index places.now) cell }
{
    match cell {
        Cell::Const(value) => Cell::Const(value),
        Cell::Copy(a) => Cell::Copy(wire_placed(a, places)),
        Cell::Not(a) => Cell::Not(wire_placed(a, places)),
        Cell::Two(op, a, b) => Cell::Two(op, wire_placed(a, places), wire_placed(b, places)),
        Cell::Choose(s, a, b) => Cell::Choose(
            wire_placed(s, places),
            wire_placed(a, places),
            wire_placed(b, places),
        ),
        Cell::Cat(a, b) => Cell::Cat(wire_placed(a, places), wire_placed(b, places)),
        Cell::Slice(a, high, low) => Cell::Slice(wire_placed(a, places), high, low),
    }
}

/// The assigns over the numbers of the finished module.
fn assigns_under(
    alloc: Global,
    assigns: &[Assign],
    places: &[usize],
) -> Result<Vec<Assign>, NoMemory>
    requires results { Each (λ (a : Assign). a.to.number < length places.now) assigns.now }
    requires operands { Each (λ (a : Assign).
        Each (λ (o : Wire). o.number < length places.now) (operands a.cell)) assigns.now }
    ensures { IfOk result (λ made. made.items
        ≡ map (assign_placed (slice_index places.now)) assigns.now) }
{
    let mut made = Vec::new(alloc);
    for assign in assigns {
        let to = wire_placed(assign.to, places);
        let cell = cell_under(assign.cell, places);
        made.push(Assign { to, cell })?;
    }
    Ok(made)
}

/// The registers' drivers over the numbers of the finished module.
fn nexts_under(alloc: Global, nexts: &[Next], places: &[usize]) -> Result<Vec<Next>, NoMemory>
    requires registers { Each (λ (x : Next). x.register.number < length places.now) nexts.now }
    requires froms { Each (λ (x : Next). x.from.number < length places.now) nexts.now }
    ensures { IfOk result (λ made. made.items
        ≡ map (next_placed (slice_index places.now)) nexts.now) }
{
    let mut made = Vec::new(alloc);
    for next in nexts {
        let register = wire_placed(next.register, places);
        let from = wire_placed(next.from, places);
        made.push(Next { register, from })?;
    }
    Ok(made)
}

/// The nets over the numbers of the finished module.
fn nets_under(alloc: Global, nets: &[Wire], places: &[usize]) -> Result<Items<Wire>, NoMemory>
    requires { Each (λ (w : Wire). w.number < length places.now) nets.now }
    ensures { IfOk result (λ made. made ≡ map (placed (slice_index places.now)) nets.now) }
{
    let mut made = Items::new(alloc);
    for net in nets {
        made.push(wire_placed(*net, places))?;
    }
    Ok(made)
}

/// The instance over the numbers of the finished module.
fn instance_under(
    alloc: Global,
    instance: &Instance,
    places: &[usize],
) -> Result<Instance, NoMemory>
    requires { Each (λ (w : Wire). w.number < length places.now) instance.now.nets }
    ensures { IfOk result (λ made. made ≡ instance_placed (slice_index places.now) instance.now) }
{
    let name = instance.name.copy(alloc)?;
    let module = instance.module.copy(alloc)?;
    let nets = nets_under(alloc, instance.nets.as_slice(), places)?;
    let drives = Items::copy_of(alloc, instance.drives.as_slice())?;
    Ok(Instance {
        name,
        module,
        nets,
        drives,
    })
}

/// The instances over the numbers of the finished module.
fn instances_under(
    alloc: Global,
    instances: &[Instance],
    places: &[usize],
) -> Result<Vec<Instance>, NoMemory>
    requires { Each (λ (i : Instance).
        Each (λ (w : Wire). w.number < length places.now) i.nets) instances.now }
    ensures { IfOk result (λ made.
        made.items ≡ map (instance_placed (slice_index places.now)) instances.now) }
{
    let mut made = Vec::new(alloc);
    for instance in instances {
        made.push(instance_under(alloc, instance, places)?)?;
    }
    Ok(made)
}

/// The finished module of these nets, what drives them, and these instances.
pub(crate) fn finished(
    alloc: Global,
    name: NetName,
    nets: &[ModuleNet],
    assigns: &[Assign],
    nexts: &[Next],
    instances: &[Instance],
) -> Result<Module, NoMemory>
    requires draft { IsDraft (draft_of name nets.now assigns.now nexts.now instances.now)
        (wire_count nets.now) }
    requires driven { IsDriven nets.now assigns.now nexts.now instances.now }
    requires port { 0 < length (ports_among nets.now) }
    ensures { IfOk result
        (IsFinished (draft_of name nets.now assigns.now nexts.now instances.now)) }
{
    let ports = ports_of(alloc, nets)?;
    let wires = wires_of(alloc, nets)?;
    let regs = regs_of(alloc, nets)?;
    let places = places_of(alloc, nets, ports.len(), wires.len())?;
    let places = places.as_slice();
    let assigns = assigns_under(alloc, assigns, places)?;
    let nexts = nexts_under(alloc, nexts, places)?;
    let instances = instances_under(alloc, instances, places)?;
    Ok(Module::of_parts(name, ports, wires, regs, assigns, nexts, instances))
}
