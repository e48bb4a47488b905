//! What control is given of the front, and the outputs that show what it says.
ghost use Rattle.std.specs.Prelude.{◌≡◌, ◌≢◌, ◌≤◌, IfOk, OnOk, length};
ghost use Rattle.std.specs.List.{AllByRecursion as Each};
ghost use Rattle.ap_net.specs.Late.{IsLate};
ghost use Rattle.ap_ctl.specs.Building.{IsBit};
ghost use Rattle.ap_flight.specs.declared.stage.StageRegisters.{StageRegisters};
ghost use Rattle.ap_front.specs.Controlling.{ShowsControl, words_of};

use crate::ports::Ports;
use crate::registers::Registers;
use crate::show::show;
use ap_bits::{Items, NoMemory};
use ap_ctl::{ControlGiven, ControlNets};
use ap_flight::stage::StageRegisters;
use ap_net::builder::Builder;
use ap_net::cell::Wire;
use std::alloc::Global;

/// The words of the stages.
fn words(alloc: Global, stages: &[StageRegisters]) -> Result<Items<Wire>, NoMemory>
    ensures { IfOk result (λ list. list ≡ words_of stages.now) }
{
    let mut list = Items::new(alloc);
    for stage in stages {
        list.push(stage.word)?;
    }
    Ok(list)
}

/// What control is given: the words of the stages, mwait, whether the flight in the transfer's stage takes its transfer, and the busy nets of
/// the units that take more than one cycle.
pub fn given(
    alloc: Global,
    registers: &Registers,
    ports: &Ports,
    taken: Wire,
    busy: &[Wire],
) -> Result<ControlGiven, NoMemory>
    ensures words { IfOk result (λ given. given.words ≡ words_of registers.now.stages) }
    ensures wait { IfOk result (λ given. given.mwait ≡ ports.now.mwait) }
    ensures taken { IfOk result (λ given. given.taken ≡ taken) }
    ensures busy { IfOk result (λ given. given.busy ≡ busy.now) }
{
    let words = words(alloc, registers.stages.as_slice())?;
    let busy = Items::copy_of(alloc, busy)?;
    Ok(ControlGiven {
        words,
        mwait: ports.mwait,
        taken,
        busy,
    })
}

/// Drives the outputs that show whether the stages are held and a transfer is taken, by copies of control's nets.
pub fn show_control(
    nets: &ControlNets,
    stall: Wire,
    kill: Wire,
    out: &mut Builder,
) -> Result<(), NoMemory>
    requires some { 1 ≤ length nets.now.hold }
    requires hold { Each (IsBit out.old.nets) nets.now.hold }
    requires killed { IsBit out.old.nets nets.now.kill }
    requires stall { IsLate out.old stall }
    requires stall_bit { stall.width ≡ 1 }
    requires kill { IsLate out.old kill }
    requires kill_bit { kill.width ≡ 1 }
    requires apart { kill.number ≢ stall.number }
    ensures { OnOk result (ShowsControl nets.now stall kill out.old out.new) }
{
    let hold = nets.hold.as_slice()[0];
    show(stall, hold, out)?;
    show(kill, nets.kill, out)?;
    Ok(())
}
