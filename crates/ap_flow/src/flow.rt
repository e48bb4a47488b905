//! The registers of the front take what comes to them, the address is fetched, and control is shown.
ghost use Rattle.std.specs.Prelude.{◌≡◌, ◌≢◌, ◌≤◌, IfOk, length};
ghost use Rattle.ap_desc.specs.Clean.{IsClean};
ghost use Rattle.ap_net.specs.Draft.{CanFresh};
ghost use Rattle.ap_pipe.specs.Slots.{AreSlotsOf};
ghost use Rattle.ap_ctl.specs.Building.{IsBit};
ghost use Rattle.ap_flow.specs.Flowing.{CanFlow, DrivesFlights, Flows};

use crate::leave::all_leavings;
use ap_bits::{Items, NoMemory};
use ap_ctl::ControlNets;
use ap_desc::design::Design;
use ap_flight::stage::Coming;
use ap_front::coming::comings;
use ap_front::control::show_control;
use ap_front::fetch::{Fetching, fetch};
use ap_front::flights::drive_stages;
use ap_front::ports::Ports;
use ap_front::registers::Registers;
use ap_net::builder::Builder;
use ap_net::cell::Wire;
use ap_pipe::SlotTable;
use ap_stages::stage::ServedStage;

/// What the registers of the front take.
#[derive(Drop)]
pub struct Flow {
    /// What comes to the stages from 1 on.
    pub comings: Items<Coming>,
    /// The nets by which the pc and the address are driven.
    pub fetching: Fetching,
}

/// Drives the registers of the stages, where this net of control says whether they are held.
fn drive_flights(
    design: &Design,
    slots: &SlotTable,
    registers: &Registers,
    ports: &Ports,
    control: &ControlNets,
    target: Wire,
    hold: Wire,
    stages: &[ServedStage],
    out: &mut Builder,
) -> Result<Items<Coming>, NoMemory>
    requires clean { IsClean design.now }
    requires slots { AreSlotsOf design.now slots.now }
    requires fresh { CanFresh out.old }
    requires hold { IsBit out.old.nets hold }
    requires can { CanFlow design.now out.old slots.now registers.now ports.now control.now target
        stages.now }
    ensures { IfOk result (λ comings. DrivesFlights slots.now registers.now ports.now stages.now
        hold comings out.old out.new) }
{
    out.rules();
    let alloc = out.allocator();
    let table = slots.stages.as_slice();
    let locals = all_leavings(alloc, design, table, stages)?;
    let comings = comings(alloc, registers, ports.idata, hold, locals.as_slice())?;
    drive_stages(registers.stages.as_slice(), table, comings.as_slice(), out)?;
    Ok(comings)
}

/// The last part of `top`, where all its other nets stand: the registers of the stages take what comes to them, with the locals that the
/// instructions of the stage before leave; the pc takes the next address, or `target` where a transfer is taken; and three outputs show the
/// address that is fetched and what control says. `stages` are the stages from 1 on. After an error the builder is good for nothing but to be
/// dropped.
pub fn make_flow(
    design: &Design,
    slots: &SlotTable,
    registers: &Registers,
    ports: &Ports,
    control: &ControlNets,
    target: Wire,
    stages: &[ServedStage],
    out: &mut Builder,
) -> Result<Flow, NoMemory>
    requires clean { IsClean design.now }
    requires slots { AreSlotsOf design.now slots.now }
    requires fresh { CanFresh out.old }
    requires can { CanFlow design.now out.old slots.now registers.now ports.now control.now target
        stages.now }
    ensures { IfOk result (λ made. Flows design.now slots.now registers.now ports.now control.now
        target stages.now made out.old out.new) }
{
    let hold = control.hold.as_slice()[0];
    let comings = drive_flights(
        design, slots, registers, ports, control, target, hold, stages, out,
    )?;
    let fetching = Fetching {
        pc: registers.pc,
        address: ports.iaddr,
        hold,
        kill: control.kill,
        target,
    };
    fetch(fetching, out)?;
    show_control(control, ports.stall, ports.kill, out)?;
    Ok(Flow { comings, fetching })
}
