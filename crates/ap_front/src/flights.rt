//! The registers in which the stages have their flights, driven.
ghost use Rattle.std.specs.Prelude.{OnOk};
ghost use Rattle.ap_net.specs.Draft.{CanFresh};
ghost use Rattle.ap_front.specs.Driven.{CanDrive, DrivesStages};

use ap_bits::NoMemory;
use ap_flight::stage::{Coming, StageRegisters, drive_stage};
use ap_net::builder::Builder;
use ap_pipe::StageSlots;

/// Drives the registers of all stages from 1 on: where a stage is held they stay, and else its word and the word's address are those that
/// come, and each slot takes what is left to it. After an error the builder is good for nothing but to be dropped.
pub fn drive_stages(
    registers: &[StageRegisters],
    slots: &[StageSlots],
    comings: &[Coming],
    out: &mut Builder,
) -> Result<(), NoMemory>
    requires fresh { CanFresh out.old }
    requires stages { CanDrive out.old registers.now slots.now comings.now }
    ensures { OnOk result (DrivesStages registers.now slots.now comings.now out.old out.new) }
{
    for place in 0..registers.len() {
        let homes = slots[place].homes.as_slice();
        drive_stage(&registers[place], homes, &comings[place], out)?;
    }
    Ok(())
}
