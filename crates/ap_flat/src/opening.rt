//! The nets of `top` and of its instances side by side.
ghost use Rattle.std.specs.Prelude.{◌≡◌, ◌≤◌, ◌+◌, ◌^◌, ◌<◌, ◌++◌, ◌∷◌, [], length, map, IfOk, IsSome, OnOk, Some};
ghost use Rattle.std.specs.List.{AllByRecursion as Each};
ghost use Rattle.ap_net.specs.declared.cell.Wire.{Wire};
ghost use Rattle.ap_net.specs.declared.net.Port.{Port};
ghost use Rattle.ap_net.specs.declared.net.Net.{Net};
ghost use Rattle.ap_net.specs.declared.net.RegNet.{RegNet};
ghost use Rattle.ap_net.specs.declared.net.Assign.{Assign};
ghost use Rattle.ap_net.specs.declared.net.Next.{Next};
ghost use Rattle.ap_net.specs.Cells.{operands};
ghost use Rattle.ap_net.specs.Modules.{nets_of, port_net, wire_net, reg_net, placed, cell_placed, assign_placed, next_placed, module_named};
ghost use Rattle.ap_net.specs.Names.{AreDistinct};
ghost use Rattle.ap_net.specs.Modules.{ModuleText, IsModule, IsInstanceIn};
ghost use Rattle.ap_net.specs.Flat.{joins_from, opened, opened_over};
ghost use Rattle.ap_flat.specs.Opening.{net_in, role_in, with_top, with_part};

use crate::names::Names;
use ap_bits::NoMemory;
use ap_net::cell::{Cell, Wire};
use ap_net::module::{Module, Netlist};
use ap_net::name::NetName;
use ap_net::net::{Assign, FlatNet, Instance, Join, Net, Next, Port, RegNet, Role};
use std::alloc::Global;
use std::marker::Model;

/// What is opened: the parts' names, the nets of all parts in one list, what drives them, and the connections. Contracts see
/// `ap_net`'s opened netlist.
#[derive(Drop)]
pub(crate) struct Opening {
    pub(crate) parts: Vec<NetName>,
    pub(crate) nets: Vec<FlatNet>,
    pub(crate) assigns: Vec<Assign>,
    pub(crate) nexts: Vec<Next>,
    pub(crate) joins: Vec<Join>,
}

impl Model for Opening {
    ghost use Rattle.ap_net.specs.Flat.{Flat};

    ghost Value = { Flat };

    ghost view = { λ o. record { parts = o.parts.items; nets = o.nets.items; assigns = o.assigns.items; nexts = o.nexts.items; joins = o.joins.items } };
}

/// Where the nets of a module stand: its part, and whether the part is `top`, whose ports remain ports.
#[derive(Clone, Copy)]
struct Place {
    top: bool,
    part: usize,
}

/// What a net is in the whole. A port of an instance is a plain net.
fn role_at(place: Place, role: Role) -> Role
    ensures { result ≡ role_in place.top role }
{
    if place.top {
        return role;
    }
    match role {
        Role::Register(reset) => Role::Register(reset),
        Role::Input | Role::Output | Role::Plain => Role::Plain,
    }
}

/// A net of the whole.
fn net_at(
    alloc: Global,
    place: Place,
    name: &NetName,
    width: u32,
    role: Role,
) -> Result<FlatNet, NoMemory>
    ensures { IfOk result (λ net. net ≡ net_in place.top place.part
        (record { name = name.now; width = width; role = role })) }
{
    let name = name.copy(alloc)?;
    let role = role_at(place, role);
    Ok(FlatNet {
        part: place.part,
        name,
        width,
        role,
    })
}

/// Adds the nets of ports.
fn put_ports(
    alloc: Global,
    place: Place,
    ports: &[Port],
    nets: &mut Vec<FlatNet>,
) -> Result<(), NoMemory>
    ensures { OnOk result (nets.new.items ≡ nets.old.items
        ++ map (λ (p : Port). net_in place.top place.part (port_net p)) ports.now) }
{
    for port in ports {
        let role = if port.output {
            Role::Output
        } else {
            Role::Input
        };
        nets.push(net_at(alloc, place, &port.name, port.width, role)?)?;
    }
    Ok(())
}

/// Adds the nets of wires.
fn put_wires(
    alloc: Global,
    place: Place,
    wires: &[Net],
    nets: &mut Vec<FlatNet>,
) -> Result<(), NoMemory>
    ensures { OnOk result (nets.new.items ≡ nets.old.items
        ++ map (λ (n : Net). net_in place.top place.part (wire_net n)) wires.now) }
{
    for wire in wires {
        nets.push(net_at(alloc, place, &wire.name, wire.width, Role::Plain)?)?;
    }
    Ok(())
}

/// Adds the nets of registers.
fn put_regs(
    alloc: Global,
    place: Place,
    regs: &[RegNet],
    nets: &mut Vec<FlatNet>,
) -> Result<(), NoMemory>
    ensures { OnOk result (nets.new.items ≡ nets.old.items
        ++ map (λ (r : RegNet). net_in place.top place.part (reg_net r)) regs.now) }
{
    for reg in regs {
        let role = Role::Register(reg.reset);
        nets.push(net_at(alloc, place, &reg.name, reg.width, role)?)?;
    }
    Ok(())
}

/// Adds the nets of a module.
fn put_nets(
    alloc: Global,
    place: Place,
    whole: &Module,
    nets: &mut Vec<FlatNet>,
) -> Result<(), NoMemory>
    ensures { OnOk result (nets.new.items ≡ nets.old.items
        ++ map (net_in place.top place.part) (nets_of whole.now)) }
{
    put_ports(alloc, place, whole.ports(), nets)?;
    put_wires(alloc, place, whole.wires(), nets)?;
    put_regs(alloc, place, whole.regs(), nets)?;
    Ok(())
}

/// The wire where the first net of its module has the number `base`.
fn wire_from(base: usize, wire: Wire) -> Wire
    requires { base + wire.number < 2 ^ 64 }
    ensures { result ≡ placed (λ n. base + n) wire }
{
    Wire {
        number: base + wire.number,
        width: wire.width,
    }
}

/// The cell where the first net of its module has the number `base`.
fn cell_from(base: usize, cell: Cell) -> Cell
    requires { Each (λ (o : Wire). base + o.number < 2 ^ 64) (operands cell) }
    ensures { result ≡ cell_placed (λ n. base + n) cell }
{
    match cell {
        Cell::Const(value) => Cell::Const(value),
        Cell::Copy(a) => Cell::Copy(wire_from(base, a)),
        Cell::Not(a) => Cell::Not(wire_from(base, a)),
        Cell::Two(op, a, b) => Cell::Two(op, wire_from(base, a), wire_from(base, b)),
        Cell::Choose(s, a, b) => Cell::Choose(
            wire_from(base, s),
            wire_from(base, a),
            wire_from(base, b),
        ),
        Cell::Cat(a, b) => Cell::Cat(wire_from(base, a), wire_from(base, b)),
        Cell::Slice(a, high, low) => Cell::Slice(wire_from(base, a), high, low),
    }
}

/// Adds the assigns of a module whose first net has the number `base`.
fn put_assigns(base: usize, assigns: &[Assign], out: &mut Vec<Assign>) -> Result<(), NoMemory>
    requires results { Each (λ (a : Assign). base + a.to.number < 2 ^ 64) assigns.now }
    requires operands { Each (λ (a : Assign).
        Each (λ (o : Wire). base + o.number < 2 ^ 64) (operands a.cell)) assigns.now }
    ensures { OnOk result (out.new.items ≡ out.old.items
        ++ map (assign_placed (λ n. base + n)) assigns.now) }
{
    for assign in assigns {
        let to = wire_from(base, assign.to);
        let cell = cell_from(base, assign.cell);
        out.push(Assign { to, cell })?;
    }
    Ok(())
}

/// Adds the registers' drivers of a module whose first net has the number `base`.
fn put_nexts(base: usize, nexts: &[Next], out: &mut Vec<Next>) -> Result<(), NoMemory>
    requires registers { Each (λ (x : Next). base + x.register.number < 2 ^ 64) nexts.now }
    requires froms { Each (λ (x : Next). base + x.from.number < 2 ^ 64) nexts.now }
    ensures { OnOk result (out.new.items ≡ out.old.items
        ++ map (next_placed (λ n. base + n)) nexts.now) }
{
    for next in nexts {
        let register = wire_from(base, next.register);
        let from = wire_from(base, next.from);
        out.push(Next { register, from })?;
    }
    Ok(())
}

/// The connection of a port to a net.
fn join_of(port: usize, net: Wire, drives: bool) -> Join
    ensures { result ∷ [] ≡ joins_from port (drives ∷ []) (net ∷ []) }
{
    let port = Wire {
        number: port,
        width: net.width,
    };
    if drives {
        Join {
            to: net,
            from: port,
        }
    } else {
        Join {
            to: port,
            from: net,
        }
    }
}

/// Adds the connections of an instance whose first net has the number `base`.
fn put_joins(
    base: usize,
    drives: &[bool],
    nets: &[Wire],
    out: &mut Vec<Join>,
) -> Result<(), NoMemory>
    requires paired { length drives.now ≡ length nets.now }
    requires low { base + length nets.now < 2 ^ 64 }
    ensures { OnOk result (out.new.items ≡ out.old.items ++ joins_from base drives.now nets.now) }
{
    for (i, net) in nets.iter().enumerate() {
        out.push(join_of(base + i, *net, drives[i]))?;
    }
    Ok(())
}

/// The first of these modules that has this name, which is among theirs.
fn module_at<'a>(modules: &'a [Module], names: &Names, name: &str) -> &'a Module
    requires distinct { AreDistinct (map (λ (m : ModuleText). m.name) modules.now) }
    requires names { names.now ≡ map (λ (m : ModuleText). m.name) modules.now }
    requires found { IsSome (module_named modules.now name.now) }
    ensures { module_named modules.now name.now ≡ Some result.now }
{
    let place = names.place(name).unwrap();
    &modules[place]
}

impl Opening {
    /// The module `top` alone.
    fn of_top(alloc: Global, top: &Module) -> Result<Opening, NoMemory>
        ensures { IfOk result (λ opening. opening ≡ with_top top.now) }
    {
        let place = Place { top: true, part: 0 };
        let mut parts = Vec::new(alloc);
        parts.push(top.name().copy(alloc)?)?;
        let mut nets = Vec::new(alloc);
        put_nets(alloc, place, top, &mut nets)?;
        let assigns = Vec::from_slice(alloc, top.assigns())?;
        let nexts = Vec::from_slice(alloc, top.nexts())?;
        Ok(Opening {
            parts,
            nets,
            assigns,
            nexts,
            joins: Vec::new(alloc),
        })
    }

    /// Adds an instance of a module as the last part.
    fn add_part(
        &mut self,
        alloc: Global,
        whole: &Module,
        instance: &Instance,
    ) -> Result<(), NoMemory>
        requires paired { length instance.now.drives ≡ length instance.now.nets }
        requires ports { length instance.now.nets ≤ length whole.now.ports }
        ensures { OnOk result (self.new ≡ with_part whole.now instance.now self.old) }
    {
        whole.rules();
        let base = self.nets.len();
        let part = self.parts.len();
        let place = Place { top: false, part };
        self.parts.push(instance.name.copy(alloc)?)?;
        put_nets(alloc, place, whole, &mut self.nets)?;
        let _end = self.nets.len();
        put_assigns(base, whole.assigns(), &mut self.assigns)?;
        put_nexts(base, whole.nexts(), &mut self.nexts)?;
        let drives = instance.drives.as_slice();
        let nets = instance.nets.as_slice();
        put_joins(base, drives, nets, &mut self.joins)?;
        Ok(())
    }
}

/// The module `top` opened over those of its instances.
fn open_over(alloc: Global, modules: &[Module], top: &Module) -> Result<Opening, NoMemory>
    requires distinct { AreDistinct (map (λ (m : ModuleText). m.name) modules.now) }
    requires within { Each (IsInstanceIn modules.now) top.now.instances }
    ensures { IfOk result (λ opening. opening ≡ opened_over modules.now top.now) }
{
    top.rules();
    let names = Names::of_modules(alloc, modules)?;
    let mut opening = Opening::of_top(alloc, top)?;
    for instance in top.instances() {
        let whole = module_at(modules, &names, instance.module.as_str());
        opening.add_part(alloc, whole, instance)?;
    }
    Ok(opening)
}

/// The netlist opened.
pub(crate) fn open(alloc: Global, net: &Netlist) -> Result<Opening, NoMemory>
    ensures { IfOk result (λ opening. opening ≡ opened net.now) }
{
    net.rules();
    let modules = net.modules();
    let last = modules.len() - 1;
    let opening = open_over(alloc, &modules[..last], &modules[last])?;
    Ok(opening)
}
