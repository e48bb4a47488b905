//! The nets of each stage, from the registers of the stages and what control decodes.
ghost use Rattle.std.specs.Prelude.{◌≡◌, IfOk, length};
ghost use Rattle.ap_stages.specs.Own.{AreNetsOf, nets_of};

use crate::begin::StageNets;
use ap_bits::{Items, NoMemory};
use ap_flight::stage::StageRegisters;
use ap_net::cell::Wire;
use std::alloc::Global;

/// The nets of a stage, from its registers and the conditions of its instructions.
fn stage_nets(
    alloc: Global,
    registers: &StageRegisters,
    conditions: &[Wire],
) -> Result<StageNets, NoMemory>
    ensures { IfOk result (λ own. own ≡ nets_of registers.now conditions.now) }
{
    let conds = Items::copy_of(alloc, conditions)?;
    let slots = Items::copy_of(alloc, registers.slots.as_slice())?;
    Ok(StageNets {
        word: registers.word,
        place: registers.place,
        conds,
        slots,
    })
}

/// The nets of all stages from 1 on, from the registers of each and, for each, the conditions of its instructions.
pub fn nets_of_stages(
    alloc: Global,
    registers: &[StageRegisters],
    decoded: &[Items<Wire>],
) -> Result<Vec<StageNets>, NoMemory>
    requires { length decoded.now ≡ length registers.now }
    ensures { IfOk result (λ owns. AreNetsOf registers.now decoded.now owns.items) }
{
    let mut owns = Vec::new(alloc);
    for place in 0..registers.len() {
        let own = stage_nets(alloc, &registers[place], decoded[place].as_slice())?;
        owns.push(own)?;
    }
    Ok(owns)
}
