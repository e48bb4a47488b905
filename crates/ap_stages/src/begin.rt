//! The instructions of a stage at their beginning, over the nets of the stage.
ghost use Rattle.std.specs.Prelude.{◌≡◌, IfOk};
ghost use Rattle.std.specs.List.{AllByRecursion as Each};
ghost use Rattle.ap_course.specs.Laws.{FitsSome};
ghost use Rattle.ap_net.specs.Draft.{CanFresh};
ghost use Rattle.ap_pipe.specs.Slots.{AreHomes};
ghost use Rattle.ap_stage.specs.Trees.{IsShallow};
ghost use Rattle.ap_stages.specs.Begun.{AreShared, AreStageNets, IsBegun, IsGroundFor, base_numbers};

use crate::link::stage_link;
use ap_bits::{Items, NoMemory};
use ap_course::start_courses;
use ap_desc::design::Design;
use ap_net::builder::Builder;
use ap_net::cell::Wire;
use ap_pipe::StageSlots;
use ap_stage::node::Course;
use ap_stage::source::Ground;
use std::alloc::Global;

/// The nets that all stages read.
#[derive(Drop)]
pub struct SharedNets {
    /// The registers of the design, by their numbers.
    pub regs: Items<Wire>,
    /// The input ports, by their numbers.
    pub inputs: Items<Wire>,
}

/// The nets of a stage on which its data stand.
#[derive(Drop)]
pub struct StageNets {
    /// The register of the stage's word.
    pub word: Wire,
    /// The register of the word's address.
    pub place: Wire,
    /// For each instruction of the design whether the word matches it.
    pub conds: Items<Wire>,
    /// The registers of the stage's slots.
    pub slots: Items<Wire>,
}

/// The instructions of a stage, and the nets on which their lines stand.
#[derive(Drop)]
pub struct Begun {
    pub ground: Ground,
    pub courses: Vec<Course>,
}

/// The nets on which the lines of a stage stand.
fn ground_for(
    alloc: Global,
    shared: &SharedNets,
    own: &StageNets,
    link: Wire,
) -> Result<Ground, NoMemory>
    ensures ground { IfOk result (IsGroundFor shared.now own.now) }
    ensures link { IfOk result (λ ground. ground.link ≡ link) }
{
    let regs = Items::copy_of(alloc, shared.regs.as_slice())?;
    let inputs = Items::copy_of(alloc, shared.inputs.as_slice())?;
    Ok(Ground {
        word: own.word,
        place: own.place,
        link,
        regs,
        inputs,
    })
}

/// Begins a stage: the address after the slots is made where a line of the stage names it, and for each instruction of the design the locals
/// get nets that come from slots by wiring. `table` has the stage's slots and the homes of its live locals.
pub fn begin_stage(
    out: &mut Builder,
    design: &Design,
    stage: u32,
    table: &StageSlots,
    shared: &SharedNets,
    own: &StageNets,
) -> Result<Begun, NoMemory>
    requires fresh { CanFresh out.old }
    requires fits { FitsSome design.now }
    requires homes { AreHomes design.now stage table.now.widths table.now.homes }
    requires shared { AreShared design.now out.old.nets shared.now }
    requires own { AreStageNets design.now out.old.nets table.now own.now }
    requires low { Each (IsShallow out.old 0) (base_numbers shared.now own.now) }
    ensures { IfOk result (λ begun. IsBegun design.now stage table.now shared.now own.now
        out.old out.new begun.ground begun.courses.items) }
{
    let link = stage_link(out, design, stage, own.place)?;
    let ground = ground_for(out.allocator(), shared, own, link)?;
    let conds = own.conds.as_slice();
    let slots = own.slots.as_slice();
    let courses = start_courses(out, design, stage, &ground, conds, table, slots)?;
    Ok(Begun { ground, courses })
}
