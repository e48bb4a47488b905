ghost use Rattle.std.specs.Prelude.{◌≡◌, ◌<◌, ◌∷◌, [], length, codes, IfOk};
ghost use Rattle.ap_net.specs.Modules.{IsNetlist, IsModule, module_of, nets_of, nets_among, name_at, reset_at};

use crate::NoMemory;
use crate::name::NetName;
use crate::net::{Assign, Instance, Net, Next, Port, RegNet};
use std::alloc::Global;
use std::marker::Model;

/// A finished module: its ports after `clk` and `rst`, its wires, its registers, what drives them, and its instances, each
/// list in the order of the text's lines. Nets are numbered through the ports, then the wires, then the registers. A module
/// keeps in its type that it is wired rightly, that every net which isn't an input has its driver, that it has a port, and
/// that it has no instances where it isn't named `top`.
#[derive(Drop)]
pub struct Module {
    name: NetName,
    ports: Vec<Port>,
    wires: Vec<Net>,
    regs: Vec<RegNet>,
    assigns: Vec<Assign>,
    nexts: Vec<Next>,
    instances: Vec<Instance>,
}

impl Model for Module {
    ghost use Rattle.ap_net.specs.Modules.{ModuleText, IsModule};

    ghost Value = { ModuleText };

    ghost view = { λ m. record { name = m.name; ports = m.ports.items; wires = m.wires.items; regs = m.regs.items; assigns = m.assigns.items; nexts = m.nexts.items; instances = m.instances.items } };

    ghost invariant = { λ m. IsModule (record { name = m.name; ports = m.ports.items; wires = m.wires.items; regs = m.regs.items; assigns = m.assigns.items; nexts = m.nexts.items; instances = m.instances.items }) };
}

/// The name of a net among ports, wires and registers, numbered through in this order.
fn name_among<'a>(ports: &'a [Port], wires: &'a [Net], regs: &'a [RegNet], number: usize) -> &'a str
    requires { number < length (nets_among ports.now wires.now regs.now) }
    ensures { result.now ≡ name_at (nets_among ports.now wires.now regs.now) number }
{
    if number < ports.len() {
        return ports[number].name.as_str();
    }
    let number = number - ports.len();
    if number < wires.len() {
        return wires[number].name.as_str();
    }
    regs[number - wires.len()].name.as_str()
}

/// The reset value of a net among ports, wires and registers, numbered through in this order; 0 for what is no register.
fn reset_among(ports: &[Port], wires: &[Net], regs: &[RegNet], number: usize) -> u64
    requires { number < length (nets_among ports.now wires.now regs.now) }
    ensures { result ≡ reset_at (nets_among ports.now wires.now regs.now) number }
{
    if number < ports.len() {
        return 0;
    }
    let number = number - ports.len();
    if number < wires.len() {
        return 0;
    }
    regs[number - wires.len()].reset
}

impl Module {
    /// A module of these parts.
    pub fn of_parts(
        name: NetName,
        ports: Vec<Port>,
        wires: Vec<Net>,
        regs: Vec<RegNet>,
        assigns: Vec<Assign>,
        nexts: Vec<Next>,
        instances: Vec<Instance>,
    ) -> Module
        requires { IsModule (module_of name ports.items wires.items regs.items assigns.items nexts.items
            instances.items) }
        ensures { result ≡ module_of name ports.items wires.items regs.items assigns.items nexts.items
            instances.items }
    {
        Module {
            name,
            ports,
            wires,
            regs,
            assigns,
            nexts,
            instances,
        }
    }

    /// The module's name.
    pub fn name(&self) -> &NetName
        ensures { result.now ≡ self.now.name }
    {
        &self.name
    }

    /// What every module keeps, as a fact that callers can use.
    pub fn rules(&self)
        ensures { IsModule self.now }
    {
        let _ = &self.name;
    }

    /// The name of a net, by its number.
    pub fn net_name(&self, number: usize) -> &str
        requires { number < length (nets_of self.now) }
        ensures { result.now ≡ name_at (nets_of self.now) number }
    {
        name_among(&self.ports, &self.wires, &self.regs, number)
    }

    /// The value of a net after the reset edge, by its number; 0 for what is no register.
    pub fn net_reset(&self, number: usize) -> u64
        requires { number < length (nets_of self.now) }
        ensures { result ≡ reset_at (nets_of self.now) number }
    {
        reset_among(&self.ports, &self.wires, &self.regs, number)
    }

    /// The ports after `clk` and `rst`.
    pub fn ports(&self) -> &[Port]
        ensures { result.now ≡ self.now.ports }
    {
        &self.ports
    }

    /// The wires.
    pub fn wires(&self) -> &[Net]
        ensures { result.now ≡ self.now.wires }
    {
        &self.wires
    }

    /// The registers.
    pub fn regs(&self) -> &[RegNet]
        ensures { result.now ≡ self.now.regs }
    {
        &self.regs
    }

    /// What drives the wires and outputs.
    pub fn assigns(&self) -> &[Assign]
        ensures { result.now ≡ self.now.assigns }
    {
        &self.assigns
    }

    /// What the registers take at the clock edge.
    pub fn nexts(&self) -> &[Next]
        ensures { result.now ≡ self.now.nexts }
    {
        &self.nexts
    }

    /// The instances of earlier modules.
    pub fn instances(&self) -> &[Instance]
        ensures { result.now ≡ self.now.instances }
    {
        &self.instances
    }
}

/// A netlist: modules of different names, the last of which is `top`. It keeps in its type that the instances of `top` are of
/// earlier modules, connect all their ports in order with the right widths, and say rightly which of them are outputs.
#[derive(Drop)]
pub struct Netlist {
    modules: Vec<Module>,
}

impl Model for Netlist {
    ghost use Rattle.std.specs.Prelude.{List};
    ghost use Rattle.ap_net.specs.Modules.{ModuleText, IsNetlist};

    ghost Value = { List ModuleText };

    ghost view = { λ n. n.modules.items };

    ghost invariant = { λ n. IsNetlist n.modules.items };
}

impl Netlist {
    /// The netlist of these modules.
    pub fn new(modules: Vec<Module>) -> Netlist
        requires { IsNetlist modules.items }
        ensures { result ≡ modules.items }
    {
        Netlist { modules }
    }

    /// The netlist of a module `top` alone, which has no instances.
    pub fn of_top(alloc: Global, top: Module) -> Result<Netlist, NoMemory>
        requires name { top.name ≡ codes "top" }
        requires alone { top.instances ≡ [] }
        ensures { IfOk result (λ net. net ≡ top ∷ []) }
    {
        let _ = &top.name;
        let mut modules = Vec::new(alloc);
        modules.push(top)?;
        Ok(Netlist { modules })
    }

    /// What every netlist keeps, as a fact that callers can use.
    pub fn rules(&self)
        ensures { IsNetlist self.now }
    {
        let _ = &self.modules;
    }

    /// The modules in the order of the text.
    pub fn modules(&self) -> &[Module]
        ensures { result.now ≡ self.now }
    {
        &self.modules
    }
}
