//! What the stages leave to the slots of the stages after them.
ghost use Rattle.std.specs.Prelude.{◌≡◌, ◌-◌, ◌≤◌, ℕ, IfOk, Some, length, slice_get};
ghost use Rattle.std.specs.List.{AllByRecursion as Each};
ghost use Rattle.ap_ctl.specs.Lists.{EachPair};
ghost use Rattle.ap_pipe.specs.declared.table.StageSlots.{StageSlots};
ghost use Rattle.ap_outcome.specs.Outcomes.{CanLeave, IsLeavingOf};
ghost use Rattle.ap_flow.specs.Left.{AreLeft, CanLeaveTo, courses_of};

use ap_bits::{Items, NoMemory};
use ap_desc::design::Design;
use ap_flight::entry::Leaving;
use ap_outcome::leave::leavings;
use ap_pipe::{Home, StageSlots};
use ap_stages::stage::ServedStage;
use std::alloc::Global;

/// What the stage of a number leaves to these homes; there is nothing where no stage is before.
fn left_by(
    alloc: Global,
    stages: &[ServedStage],
    stage: usize,
    homes: &[Home],
) -> Result<Items<Leaving>, NoMemory>
    requires stage { stage ≤ length stages.now }
    requires homes { Each (CanLeave (courses_of stages.now stage)) homes.now }
    ensures { IfOk result (EachPair (IsLeavingOf (courses_of stages.now stage)) homes.now) }
{
    if stage == 0 {
        return Ok(Items::new(alloc));
    }
    let before = &stages[stage - 1];
    let list = leavings(alloc, &before.courses, homes)?;
    Ok(list)
}

/// What is left to the homes of each stage's slots, from stage 1 on: what the instructions of the stage before leave, and nothing to those
/// of stage 1.
pub fn all_leavings(
    alloc: Global,
    design: &Design,
    slots: &[StageSlots],
    stages: &[ServedStage],
) -> Result<Items<Items<Leaving>>, NoMemory>
    requires slots { length slots.now ≡ design.now.stages - 1 }
    requires stages { length stages.now ≡ design.now.stages - 1 }
    requires homes { CanLeaveTo slots.now stages.now }
    ensures { IfOk result (AreLeft slots.now stages.now) }
{
    let mut locals = Items::new(alloc);
    for stage in 1..design.stages {
        let before = (stage - 1) as usize;
        let homes = slots[before].homes.as_slice();
        let list = left_by(alloc, stages, before, homes)?;
        locals.push(list)?;
    }
    Ok(locals)
}
