//! What drives each net of an opened netlist.
ghost use Rattle.std.specs.Prelude.{◌≡◌, ◌<◌, length, map, IfOk, IfSome, IfNone, ℕ, List};
ghost use Rattle.std.specs.String.{string_bytes};
ghost use Rattle.ap_net.specs.declared.net.Port.{Port};
ghost use Rattle.ap_net.specs.Flat.{equations, IsOpenNetlist};
ghost use Rattle.ap_net.specs.Names.{AreDistinct};
ghost use Rattle.ap_flat.specs.Dependence.{IsAskedBy, Looks};
ghost use Rattle.ap_flat.specs.Drivers.{AreEquations, AreDrivers};
ghost use Rattle.ap_flat.specs.PortNets.{BeginsWithPorts};

use crate::between::name_between;
use crate::names::Names;
use crate::opening::Opening;
use ap_bits::NoMemory;
use ap_net::cell::Cell;
use ap_net::net::Port;
use std::alloc::Global;

/// What drives a net of an opened netlist.
#[derive(Clone, Copy, Debug, PartialEq, Eq)]
pub enum Driver {
    /// The outside, or the clock edge.
    Given,
    /// The outside, which looks it up by this net: a memory answers with the word at an address.
    Looks(usize),
    /// A cell over the nets of the whole. The net of a connection is a copy.
    Equation(Cell),
}

/// The drivers of so many nets, as far as equations give them.
fn equations_of(alloc: Global, opening: &Opening) -> Result<Vec<Driver>, NoMemory>
    requires { IsOpenNetlist opening.now }
    ensures long { IfOk result (λ drivers. length drivers.items ≡ length opening.now.nets) }
    ensures equations { IfOk result (λ drivers.
        AreEquations (equations opening.now) drivers.items) }
{
    let mut drivers = vec![in alloc; Driver::Given; opening.nets.len()]?;
    for assign in &opening.assigns {
        drivers[assign.to.number] = Driver::Equation(assign.cell);
    }
    for join in &opening.joins {
        drivers[join.to.number] = Driver::Equation(Cell::Copy(join.from));
    }
    Ok(drivers)
}

/// The name of the output by which the outside looks up an input of this name, if it does.
fn asking_name(alloc: Global, name: &str) -> Result<Option<String>, NoMemory>
    ensures some { IfOk result (λ found. IfSome found (λ asking. IsAskedBy name.now (string_bytes asking))) }
    ensures none { IfOk result (λ found. IfNone found ((asking : List ℕ) → IsAskedBy name.now asking → ⊥)) }
{
    if name == "idata" {
        let asking = String::from_str(alloc, "iaddr")?;
        return Ok(Some(asking));
    }
    let Some(memory) = name_between(alloc, name.as_bytes(), b"m_", b"_rd")? else {
        return Ok(None);
    };
    let memory = memory.as_str();
    let asking = format!(in alloc; "m_{memory}_ra")?;
    Ok(Some(asking))
}

/// The number of the output by which the outside looks up this port, if it does.
fn asking(
    alloc: Global,
    ports: &[Port],
    names: &Names,
    number: usize,
) -> Result<Option<usize>, NoMemory>
    requires low { number < length ports.now }
    requires names { names.now ≡ map (λ (p : Port). p.name) ports.now }
    requires distinct { AreDistinct (map (λ (p : Port). p.name) ports.now) }
    ensures some { IfOk result (λ found. IfSome found (Looks ports.now number)) }
    ensures none { IfOk result (λ found. IfNone found ((m : ℕ) → Looks ports.now number m → ⊥)) }
{
    let port = &ports[number];
    if port.output {
        return Ok(None);
    }
    let Some(asking) = asking_name(alloc, port.name.as_str())? else {
        return Ok(None);
    };
    let Some(place) = names.place(asking.as_str()) else {
        return Ok(None);
    };
    if !ports[place].output {
        return Ok(None);
    }
    Ok(Some(place))
}

/// What drives each net of a netlist that was opened, by the ports of its `top`.
pub(crate) fn drivers_of(
    alloc: Global,
    opening: &Opening,
    ports: &[Port],
) -> Result<Vec<Driver>, NoMemory>
    requires opened { IsOpenNetlist opening.now }
    requires ports { BeginsWithPorts ports.now opening.now.nets }
    requires distinct { AreDistinct (map (λ (p : Port). p.name) ports.now) }
    ensures { IfOk result (λ drivers. AreDrivers opening.now ports.now drivers.items) }
{
    let names = Names::of_ports(alloc, ports)?;
    let mut drivers = equations_of(alloc, opening)?;
    for number in 0..ports.len() {
        if let Some(output) = asking(alloc, ports, &names, number)? {
            drivers[number] = Driver::Looks(output);
        }
    }
    Ok(drivers)
}
