//! The slots of stages and the homes of locals in them.
ghost use Rattle.std.specs.Prelude.{◌≡◌, ◌++◌, ◌+◌, ◌<◌, ◌≤◌, length, max, IfOk, OnOk};
ghost use Rattle.ap_desc.specs.Clean.{IsClean};
ghost use Rattle.ap_desc.specs.Sound.{IsSound};
ghost use Rattle.ap_path.specs.Tables.{ArePathsOf};
ghost use Rattle.ap_pipe.specs.Ranks.{IsNextWidth, homes_from, homes_of, ranked_slots, ranked_widths};
ghost use Rattle.ap_pipe.specs.Slots.{AreSlotsOf};
ghost use Rattle.ap_pipe.specs.Widths.{widest};

use crate::live::{LiveLocal, ranked};
use crate::table::{Home, SlotTable, StageSlots};
use ap_bits::{Items, NoMemory};
use ap_desc::design::Design;
use ap_path::PathTable;
use std::alloc::Global;

/// The width of a slot that holds what it held and the local of its rank.
fn slot_width(widths: &[u32], list: &[LiveLocal], slot: usize) -> u32
    requires { slot < max (length widths.now) (length list.now) }
    ensures { IsNextWidth widths.now (ranked_widths list.now) slot result }
{
    if slot >= list.len() {
        return widths[slot];
    }
    let width = list[slot].width;
    if slot >= widths.len() {
        return width;
    }
    widths[slot].max(width)
}

/// Slots that hold what these held, and these locals.
fn widened(alloc: Global, widths: &[u32], list: &[LiveLocal]) -> Result<Items<u32>, NoMemory>
    ensures { IfOk result (λ made. made ≡ widest widths.now (ranked_widths list.now)) }
{
    let mut made = Items::new(alloc);
    for slot in 0..widths.len().max(list.len()) {
        made.push(slot_width(widths, list, slot))?;
    }
    Ok(made)
}

/// Adds the homes of an instruction's locals: each in the slot of its rank.
fn add_homes(homes: &mut Items<Home>, instr: u32, list: &[LiveLocal]) -> Result<(), NoMemory>
    requires { length list.now ≤ 64 }
    ensures { OnOk result (homes.new ≡ homes.old ++ homes_from instr 0 list.now) }
{
    for (slot, live) in list.iter().enumerate() {
        homes.push(Home {
            instr,
            local: live.local,
            slot: slot as u32,
        })?;
    }
    Ok(())
}

/// The slots of a stage.
fn stage_slots(alloc: Global, design: &Design, stage: u32) -> Result<StageSlots, NoMemory>
    requires { IsSound design.now }
    ensures widths { IfOk result (λ slots. slots.widths ≡ ranked_slots design.now stage) }
    ensures homes { IfOk result (λ slots. slots.homes ≡ homes_of design.now stage) }
{
    let mut widths = Items::new(alloc);
    let mut homes = Items::new(alloc);
    for (number, instr) in design.instrs.as_slice().iter().enumerate() {
        let list = ranked(alloc, instr, stage)?;
        widths = widened(alloc, widths.as_slice(), &list)?;
        add_homes(&mut homes, number as u32, &list)?;
    }
    Ok(StageSlots { widths, homes })
}

/// For each stage from 1 on the bits of its slots, and for each local that is live into it the slot in which it is found. The design is
/// clean, and the table is that of its paths.
pub fn slots(alloc: Global, design: &Design, paths: &PathTable) -> Result<SlotTable, NoMemory>
    requires clean { IsClean design.now }
    requires paths { ArePathsOf design.now paths.now }
    ensures { IfOk result (AreSlotsOf design.now) }
{
    let mut stages = Items::new(alloc);
    for stage in 1..design.stages {
        stages.push(stage_slots(alloc, design, stage)?)?;
    }
    Ok(SlotTable { stages })
}
