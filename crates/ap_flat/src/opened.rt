//! A netlist opened, with an order of its nets.
ghost use Rattle.std.specs.Prelude.{◌≡◌, List, Err, IfOk, length};
ghost use Rattle.ap_net.specs.Modules.{ModuleText};
ghost use Rattle.ap_net.specs.Flat.{opened, top_ports};
ghost use Rattle.ap_flat.specs.Clocked.{OpenedAreClocked};
ghost use Rattle.ap_flat.specs.Dependence.{DependsIn, IsLooped, IsOrder, IsRanked};
ghost use Rattle.ap_flat.specs.Drivers.{AreDrivers};
ghost use Rattle.ap_flat.specs.declared.order.OrderFault.TheVariants as fault;

use crate::driver::{Driver, drivers_of};
use crate::opening::{Opening, open};
use crate::order::{OrderFault, order_of};
use ap_bits::NoMemory;
use ap_net::module::Netlist;
use ap_net::net::{FlatNet, Next, Port};
use std::alloc::Global;
use std::marker::Model;

/// A netlist opened: the nets of `top` and of its instances in one list, what drives each of them, and an order in which each
/// stands after those on which it depends.
#[derive(Drop)]
pub struct Opened {
    opening: Opening,
    drivers: Vec<Driver>,
    order: Vec<usize>,
}

impl Model for Opened {
    ghost use Rattle.ap_flat.specs.OpenedParts.{OpenedParts};

    ghost Value = { OpenedParts };

    ghost view = { λ o. record { net = o.opening; drivers = o.drivers.items; order = o.order.items } };
}

/// The ports of the last module of a netlist, which are those of the whole.
pub(crate) fn ports_of(net: &Netlist) -> &[Port]
    ensures { result.now ≡ top_ports net.now }
{
    net.rules();
    let modules = net.modules();
    let top = &modules[modules.len() - 1];
    top.ports()
}

/// The netlist opened, with an order of its nets.
///
/// `Loop` comes exactly where some net then depends on itself: through assigns and connections, or through what an outside
/// that the ports name looks up in the same cycle. `NoMemory` comes only where memory ran out.
pub fn open_in_order(alloc: Global, net: &Netlist) -> Result<Opened, OrderFault>
    ensures opened { IfOk result (λ made. made.net ≡ opened net.now) }
    ensures drivers { IfOk result (λ made.
        AreDrivers (opened net.now) (top_ports net.now) made.drivers) }
    ensures order { IfOk result (λ made.
        IsOrder (DependsIn net.now) (length (opened net.now).nets) made.order) }
    ensures no_loop { IfOk result (λ _. IsLooped (DependsIn net.now) → ⊥) }
    ensures looped { result ≡ Err fault.Loop → IsLooped (DependsIn net.now) }
{
    net.rules();
    let ports = ports_of(net);
    let opening = open(alloc, net)?;
    let drivers = drivers_of(alloc, &opening, ports)?;
    let order = order_of(alloc, &drivers)?;
    Ok(Opened {
        opening,
        drivers,
        order,
    })
}

/// A netlist whose nets have ranks that rise along all dependences has no loop.
pub fn ranked_nets_have_no_loop()
    ensures { (net : List ModuleText) → IsRanked (DependsIn net) → IsLooped (DependsIn net) → ⊥ }
{}

/// Every register of a netlist that is opened over modules that keep their rules takes something at the edge.
pub fn registers_are_clocked()
    ensures { OpenedAreClocked }
{}

impl Opened {
    /// The nets of `top` and of all instances.
    pub fn nets(&self) -> &[FlatNet]
        ensures { result.now ≡ self.now.net.nets }
    {
        &self.opening.nets
    }

    /// What the registers take at the clock edge.
    pub fn nexts(&self) -> &[Next]
        ensures { result.now ≡ self.now.net.nexts }
    {
        &self.opening.nexts
    }

    /// What drives each net.
    pub fn drivers(&self) -> &[Driver]
        ensures { result.now ≡ self.now.drivers }
    {
        &self.drivers
    }

    /// The numbers of all nets, each after those on which it depends.
    pub fn order(&self) -> &[usize]
        ensures { result.now ≡ self.now.order }
    {
        &self.order
    }
}
