//! A netlist opened, with an order of its nets and the outside that its ports are due to.
ghost use Rattle.std.specs.Prelude.{◌≡◌, Err, IfOk};
ghost use Rattle.ap_net.specs.Flat.{opened, top_ports};
ghost use Rattle.ap_net.specs.Outside.{shape_of};
ghost use Rattle.ap_net.specs.Outside as outside;
ghost use Rattle.ap_flat.specs.Dependence.{DependsIn, IsLooped};
ghost use Rattle.ap_flat.specs.FlatFaults.{flat_fault};
ghost use Rattle.ap_flat.specs.Ports.{AreDue};
ghost use Rattle.ap_flat.specs.declared.flat.FlatFault.TheVariants as fault;

use crate::driver::Driver;
use crate::opened::{Opened, open_in_order, ports_of};
use crate::order::OrderFault;
use crate::outside::{Outside, outside_of};
use ap_bits::NoMemory;
use ap_image::Shape;
use ap_net::module::Netlist;
use ap_net::net::{FlatNet, Next};
use std::alloc::Global;
use std::marker::Model;

/// Why a netlist isn't one that can be run.
#[derive(Clone, Copy, Debug, PartialEq, Eq)]
pub enum FlatFault {
    /// V7: once instances are opened, some net depends on itself.
    Loop,
    /// V8: the ports of `top` are those of no outside.
    BadPorts,
    /// Memory ran out.
    NoMemory,
}

impl From<NoMemory> for FlatFault {
    ghost from_gives = { λ _ given. given ≡ fault.NoMemory };

    fn from(_: NoMemory) -> FlatFault {
        FlatFault::NoMemory
    }
}

impl From<OrderFault> for FlatFault {
    ghost from_gives = { λ fault given. given ≡ flat_fault fault };

    fn from(fault: OrderFault) -> FlatFault {
        match fault {
            OrderFault::Loop => FlatFault::Loop,
            OrderFault::NoMemory => FlatFault::NoMemory,
        }
    }
}

/// A netlist opened, with an order of its nets, and the outside to which the ports of `top` are due.
#[derive(Drop)]
pub struct Flat {
    opened: Opened,
    outside: Outside,
}

impl Model for Flat {
    ghost use Rattle.ap_flat.specs.Flats.{FlatParts, IsFlattened};

    ghost Value = { FlatParts };

    ghost view = { λ f. record { net = f.opened.net; drivers = f.opened.drivers; order = f.opened.order; outside = f.outside } };

    ghost invariant = { λ f. IsFlattened (record { net = f.opened.net; drivers = f.opened.drivers; order = f.opened.order; outside = f.outside }) };
}

/// The netlist opened, with an order of its nets and what its ports say of the outside.
///
/// `Loop` comes exactly where some net then depends on itself, and `BadPorts` exactly where none does and the ports of `top`
/// are those of no outside. `NoMemory` comes only where memory ran out.
pub fn flatten(alloc: Global, net: &Netlist) -> Result<Flat, FlatFault>
    ensures opened { IfOk result (λ flat. flat.net ≡ opened net.now) }
    ensures due { IfOk result (λ flat. AreDue (top_ports net.now) flat.outside) }
    ensures no_loop { IfOk result (λ _. IsLooped (DependsIn net.now) → ⊥) }
    ensures looped { result ≡ Err fault.Loop → IsLooped (DependsIn net.now) }
    ensures unlooped { result ≡ Err fault.BadPorts → IsLooped (DependsIn net.now) → ⊥ }
    ensures bad_ports { result ≡ Err fault.BadPorts
        → (o : outside.Outside) → AreDue (top_ports net.now) o → ⊥ }
{
    net.rules();
    let opened = open_in_order(alloc, net)?;
    let Some(outside) = outside_of(alloc, ports_of(net))? else {
        return Err(FlatFault::BadPorts);
    };
    Ok(Flat { opened, outside })
}

impl Flat {
    ghost use Rattle.ap_flat.specs.Flats.{IsFlattened};

    /// The shape of what it is run on.
    pub fn shape(&self) -> &Shape
        ensures { result.now ≡ shape_of self.now.outside }
    {
        self.outside.shape()
    }

    /// What every opened netlist keeps, as a fact that callers can use.
    pub fn rules(&self)
        ensures { IsFlattened self.now }
    {
        let _ = &self.opened;
    }

    /// The outside to which the ports of `top` are due.
    pub fn outside(&self) -> &Outside
        ensures { result.now ≡ self.now.outside }
    {
        &self.outside
    }

    /// The nets of `top` and of all instances.
    pub fn nets(&self) -> &[FlatNet]
        ensures { result.now ≡ self.now.net.nets }
    {
        self.opened.nets()
    }

    /// What the registers take at the clock edge.
    pub fn nexts(&self) -> &[Next]
        ensures { result.now ≡ self.now.net.nexts }
    {
        self.opened.nexts()
    }

    /// What drives each net.
    pub fn drivers(&self) -> &[Driver]
        ensures { result.now ≡ self.now.drivers }
    {
        self.opened.drivers()
    }

    /// The numbers of all nets, each after those on which it depends.
    pub fn order(&self) -> &[usize]
        ensures { result.now ≡ self.now.order }
    {
        self.opened.order()
    }
}
