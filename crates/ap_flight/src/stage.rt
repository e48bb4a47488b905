//! The registers of a stage: declared, and driven.
ghost use Rattle.std.specs.Prelude.{◌≡◌, ◌-◌, ◌<◌, ◌≤◌, IfOk, OnOk, flat_map, length};
ghost use Rattle.std.specs.List.{AllByRecursion as Each};
ghost use Rattle.ap_desc.specs.Clean.{IsClean};
ghost use Rattle.ap_net.specs.Draft.{CanFresh};
ghost use Rattle.ap_net.specs.Late.{StayLate};
ghost use Rattle.ap_net.specs.Modules.{ports_among};
ghost use Rattle.ap_net.specs.Ready.{numbers};
ghost use Rattle.ap_net.specs.Wiring.{NoneTwice};
ghost use Rattle.ap_pipe.specs.Slots.{AreSlotsOf, AreStageSlots};
ghost use Rattle.ap_ctl.specs.Lists.{EachPair};
ghost use Rattle.ap_ctl.specs.Nets.{with_nexts};
ghost use Rattle.ap_flight.specs.Planned.{IsNewIn, KeepsOther, register_wires, stage_plan, stages_plan, with_registers};
ghost use Rattle.ap_flight.specs.Stages.{DrivesStage, IsComing, IsLike, IsOpen, stage_wires};

use crate::entry::{Leaving, either};
use crate::plan::{declare, plan};
use crate::slots::slot_nets;
use ap_bits::{Items, NoMemory};
use ap_desc::design::Design;
use ap_net::builder::Builder;
use ap_net::cell::Wire;
use ap_pipe::{Home, SlotTable, StageSlots};

/// The registers of a stage.
#[derive(Drop)]
pub struct StageRegisters {
    /// The stage's word, with the bits of a code word.
    pub word: Wire,
    /// Its address, with the bits of an address.
    pub place: Wire,
    /// The slots of the locals that are live into the stage, each with its bits.
    pub slots: Items<Wire>,
}

/// What comes to a stage, where it isn't held.
#[derive(Drop)]
pub struct Coming {
    /// One bit: the stage is held.
    pub hold: Wire,
    /// The word of the stage before, or the one that is fetched.
    pub word: Wire,
    /// Its address.
    pub place: Wire,
    /// For each home of the stage what is left to it, under the condition of its instruction.
    pub locals: Items<Leaving>,
}

/// Declares the registers of a stage, which are 0 after the reset edge. After an error the builder is good for nothing but to be dropped.
pub fn declare_stage(
    design: &Design,
    stage: u32,
    slots: &StageSlots,
    out: &mut Builder,
) -> Result<StageRegisters, NoMemory>
    requires clean { IsClean design.now }
    requires stage { stage < design.now.stages }
    requires slots { AreStageSlots design.now stage slots.now }
    requires new { Each (IsNewIn out.old) (stage_plan design.now stage slots.now.widths) }
    requires fresh { CanFresh out.old }
    ensures ok { OnOk result
        (out.new ≡ with_registers out.old (stage_plan design.now stage slots.now.widths)) }
    ensures wires { IfOk result (λ made. stage_wires made
        ≡ register_wires (length out.old.nets) (stage_plan design.now stage slots.now.widths)) }
    ensures fresh { OnOk result (CanFresh out.new) }
    ensures late { OnOk result (StayLate out.old out.new) }
    ensures ports { OnOk result (ports_among out.new.nets ≡ ports_among out.old.nets) }
    ensures others { OnOk result
        (KeepsOther (stage_plan design.now stage slots.now.widths) out.old out.new) }
{
    let alloc = out.allocator();
    let plan = plan(alloc, design, stage, slots.widths.as_slice())?;
    let made = declare(out, plan.as_slice())?;
    let wires = made.as_slice();
    let slots = Items::copy_of(alloc, &wires[2..])?;
    Ok(StageRegisters {
        word: wires[0],
        place: wires[1],
        slots,
    })
}

/// Declares the registers of all stages from 1 on. After an error the builder is good for nothing but to be dropped.
pub fn declare_stages(
    design: &Design,
    slots: &SlotTable,
    out: &mut Builder,
) -> Result<Items<StageRegisters>, NoMemory>
    requires clean { IsClean design.now }
    requires slots { AreSlotsOf design.now slots.now }
    requires new { Each (IsNewIn out.old) (stages_plan design.now 1 slots.now.stages) }
    requires fresh { CanFresh out.old }
    ensures ok { OnOk result
        (out.new ≡ with_registers out.old (stages_plan design.now 1 slots.now.stages)) }
    ensures wires { IfOk result (λ made. flat_map stage_wires made
        ≡ register_wires (length out.old.nets) (stages_plan design.now 1 slots.now.stages)) }
    ensures count { IfOk result (λ made. length made ≡ design.now.stages - 1) }
    ensures fresh { OnOk result (CanFresh out.new) }
    ensures late { OnOk result (StayLate out.old out.new) }
    ensures ports { OnOk result (ports_among out.new.nets ≡ ports_among out.old.nets) }
    ensures others { OnOk result
        (KeepsOther (stages_plan design.now 1 slots.now.stages) out.old out.new) }
{
    let mut made = Items::new(out.allocator());
    for (place, widths) in slots.stages.as_slice().iter().enumerate() {
        let stage = place as u32 + 1;
        let registers = declare_stage(design, stage, widths, out)?;
        made.push(registers)?;
    }
    Ok(made)
}

/// Gives each register a net.
fn clock(out: &mut Builder, registers: &[Wire], nets: &[Wire]) -> Result<(), NoMemory>
    requires registers { Each (IsOpen out.old) registers.now }
    requires apart { NoneTwice (numbers registers.now) }
    requires nets { EachPair (IsLike out.old.nets) registers.now nets.now }
    ensures ok { OnOk result (out.new ≡ with_nexts out.old registers.now nets.now) }
    ensures late { OnOk result (StayLate out.old out.new) }
{
    for place in 0..registers.len() {
        out.next(registers[place], nets[place])?;
    }
    Ok(())
}

/// Drives the registers of a stage: where it is held they stay, and else its word and the word's address are those that come, and each
/// slot takes what is left to it. After an error the builder is good for nothing but to be dropped.
pub fn drive_stage(
    registers: &StageRegisters,
    homes: &[Home],
    coming: &Coming,
    out: &mut Builder,
) -> Result<(), NoMemory>
    requires fresh { CanFresh out.old }
    requires few { length registers.now.slots ≤ 64 }
    requires registers { Each (IsOpen out.old) (stage_wires registers.now) }
    requires apart { NoneTwice (numbers (stage_wires registers.now)) }
    requires coming { IsComing registers.now homes.now out.old.nets coming.now }
    ensures { OnOk result (DrivesStage registers.now homes.now coming.now out.old out.new) }
{
    let hold = coming.hold;
    let word = either(out, hold, registers.word, coming.word)?;
    let place = either(out, hold, registers.place, coming.place)?;
    let slots = registers.slots.as_slice();
    let nets = slot_nets(out, hold, slots, homes, coming.locals.as_slice())?;
    out.next(registers.word, word)?;
    out.next(registers.place, place)?;
    clock(out, slots, nets.as_slice())?;
    Ok(())
}
