//! Units of several cycles, control, and what control tells the units.
ghost use Rattle.std.specs.Prelude.{◌≡◌, IfOk, codes, map};
ghost use Rattle.ap_desc.specs.Clean.{IsClean};
ghost use Rattle.ap_net.specs.Draft.{CanFresh};
ghost use Rattle.ap_ctl.specs.Nets.{HasNoValid};
ghost use Rattle.ap_slow.specs.Placed.{AreNewParts, HaveModules};
ghost use Rattle.ap_work.specs.Working.{HasFront, Works, busy_net};

use ap_bits::{Items, NoMemory};
use ap_ctl::control::control;
use ap_ctl::{ControlGiven, ControlNets};
use ap_desc::design::Design;
use ap_front::control::given;
use ap_front::ports::Ports;
use ap_front::registers::Registers;
use ap_net::builder::Builder;
use ap_net::cell::Wire;
use ap_net::module::Module;
use ap_slow::drive::drive_slow_units;
use ap_slow::place::{SlowPlaced, place_slow_units};
use std::alloc::Global;

/// The second part of `top`.
#[derive(Drop)]
pub struct Work {
    /// The units that take several cycles, in the order of their declaration. Of one that some line uses `sel`, `a` and `b` are driven later.
    pub units: Items<SlowPlaced>,
    /// One bit, driven later: the flight in the transfer's stage takes its transfer.
    pub taken: Wire,
    /// What control is given.
    pub given: ControlGiven,
    /// The nets of control.
    pub nets: ControlNets,
}

/// The nets at which units say that they aren't done.
fn busy_nets(alloc: Global, units: &[SlowPlaced]) -> Result<Items<Wire>, NoMemory>
    ensures { IfOk result (λ nets. nets ≡ map busy_net units.now) }
{
    let mut nets = Items::new(alloc);
    for unit in units {
        nets.push(unit.outputs.busy)?;
    }
    Ok(nets)
}

/// The second part of `top`: each unit of several cycles as an instance of the module at its place, over wires that are driven later; a wire
/// for whether a transfer is taken; control, which is given the words of the stages, mwait, that wire and the units' busy nets; and `go` and
/// `adv` of the units, driven by control. After an error the builder is good for nothing but to be dropped.
pub fn make_control(
    design: &Design,
    registers: &Registers,
    ports: &Ports,
    modules: &[Module],
    places: &[usize],
    out: &mut Builder,
) -> Result<Work, NoMemory>
    requires clean { IsClean design.now }
    requires front { HasFront design.now out.old registers.now ports.now }
    requires modules { HaveModules design.now modules.now places.now }
    requires units { AreNewParts design.now out.old }
    requires valid { HasNoValid design.now out.old }
    requires top { out.old.name ≡ codes "top" }
    requires fresh { CanFresh out.old }
    ensures { IfOk result (λ made. Works design.now registers.now ports.now modules.now places.now
        made out.old out.new) }
{
    let units = place_slow_units(out, design, modules, places)?;
    let taken = out.late(1)?;
    out.rules();
    let alloc = out.allocator();
    let busy = busy_nets(alloc, units.as_slice())?;
    let given = given(alloc, registers, ports, taken, busy.as_slice())?;
    let nets = control(design, &given, out)?;
    drive_slow_units(out, design, &nets, units.as_slice())?;
    Ok(Work {
        units,
        taken,
        given,
        nets,
    })
}
