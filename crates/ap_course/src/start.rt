//! The instructions of a stage at its start.
ghost use Rattle.std.specs.Prelude.{◌≡◌, ◌<◌, IfOk, Some, length, slice_get};
ghost use Rattle.std.specs.List.{AllByRecursion as Each};
ghost use Rattle.ap_net.specs.Cells.{IsNet};
ghost use Rattle.ap_net.specs.Draft.{CanFresh};
ghost use Rattle.ap_net.specs.Late.{Reads};
ghost use Rattle.ap_net.specs.Making.{Makes};
ghost use Rattle.ap_net.specs.Ready.{numbers};
ghost use Rattle.ap_pipe.specs.Slots.{AreHomes};
ghost use Rattle.ap_stage.specs.declared.slot.Stored.{Stored};
ghost use Rattle.ap_stage.specs.Rows.{AreLines, MakesNone};
ghost use Rattle.ap_stage.specs.Slots.{AreStoredOnce, IsStored};
ghost use Rattle.ap_stage.specs.Sources.{IsGround, LieIn};
ghost use Rattle.ap_stage.specs.Trees.{IsShallow};
ghost use Rattle.ap_course.specs.Homes.{AreSlots};
ghost use Rattle.ap_course.specs.Instrs.{IsGroundOf};
ghost use Rattle.ap_course.specs.Laws.{FitsSome};
ghost use Rattle.ap_course.specs.Starts.{AreConds, AreStarted, IsStartRow, IsStarted, IsStartedAt, sources};

use crate::line::{lines_of, uses_of};
use crate::scope::scope_of;
use crate::slots::stored_of;
use ap_bits::NoMemory;
use ap_desc::design::{Design, Instr};
use ap_net::builder::Builder;
use ap_net::cell::Wire;
use ap_pipe::StageSlots;
use ap_stage::node::Course;
use ap_stage::row::{Line, sweep};
use ap_stage::slot::{Stored, slot_row};
use ap_stage::source::{Ground, Scope};

/// The nets of an instruction's locals at the start of a stage: those that stand in slots, and those that its lines make of them without a
/// port.
pub fn start_row(
    out: &mut Builder,
    ground: &Ground,
    scope: &Scope,
    lines: &[Line],
    stored: &[Stored],
) -> Result<Vec<Option<Wire>>, NoMemory>
    requires fresh { CanFresh out.old }
    requires ground { IsGround out.old.nets ground.now }
    requires fields { LieIn ground.now.word.width scope.now }
    requires lines { AreLines ground.now scope.now lines.now }
    requires stored { Each (IsStored out.old.nets scope.now) stored.now }
    requires once { AreStoredOnce stored.now }
    requires apart { Each (λ (s : Stored). MakesNone lines.now s.local) stored.now }
    ensures { IfOk result (λ row.
        IsStartRow out.old out.new ground.now scope.now lines.now stored.now row.items) }
{
    let mut row = slot_row(out, scope, stored)?;
    sweep(out, ground, scope, lines, &mut row)?;
    Ok(row)
}

/// An instruction of the design at the start of a stage, under its condition: `number` is its place among the design's, `table` has the
/// homes of live locals, and `slots` are the registers of the stage's slots.
pub fn start_course(
    out: &mut Builder,
    design: &Design,
    stage: u32,
    number: u32,
    instr: &Instr,
    ground: &Ground,
    cond: Wire,
    table: &StageSlots,
    slots: &[Wire],
) -> Result<Course, NoMemory>
    requires fresh { CanFresh out.old }
    requires fits { FitsSome design.now }
    requires instr { slice_get design.now.instrs number ≡ Some instr.now }
    requires ground { IsGround out.old.nets ground.now }
    requires of { IsGroundOf design.now ground.now }
    requires cond { IsNet out.old.nets cond }
    requires one_bit { cond.width ≡ 1 }
    requires homes { AreHomes design.now stage table.now.widths table.now.homes }
    requires slots { AreSlots out.old.nets table.now.widths slots.now }
    requires low { Each (IsShallow out.old 0) (sources ground.now (numbers slots.now)) }
    ensures { IfOk result (IsStarted design.now stage number instr.now ground.now table.now.homes
        slots.now out.old out.new cond) }
{
    let alloc = out.allocator();
    let scope = scope_of(alloc, design, instr)?;
    let lines = lines_of(alloc, instr, stage)?;
    let uses = uses_of(alloc, instr, stage)?;
    let homes = table.homes.as_slice();
    let count = instr.locals.len() as u32;
    let stored = stored_of(alloc, homes, slots, number, count)?;
    let row = start_row(out, ground, &scope, lines.as_slice(), stored.as_slice())?;
    Ok(Course {
        cond,
        scope,
        lines,
        uses,
        row,
    })
}

/// The instruction at a place.
fn instr_at(design: &Design, number: u32) -> &Instr
    requires { number < length design.now.instrs }
    ensures { slice_get design.now.instrs number ≡ Some result.now }
{
    let instrs = design.instrs.as_slice();
    &instrs[number as usize]
}

/// The condition at a place.
fn cond_at(conds: &[Wire], number: u32) -> Wire
    requires { number < length conds.now }
    ensures { slice_get conds.now number ≡ Some result }
{
    conds[number as usize]
}

/// The instruction at a place at the start of a stage, under the condition of its place.
fn start_nth(
    out: &mut Builder,
    design: &Design,
    stage: u32,
    number: u32,
    ground: &Ground,
    conds: &[Wire],
    table: &StageSlots,
    slots: &[Wire],
) -> Result<Course, NoMemory>
    requires fresh { CanFresh out.old }
    requires fits { FitsSome design.now }
    requires there { number < length design.now.instrs }
    requires ground { IsGround out.old.nets ground.now }
    requires of { IsGroundOf design.now ground.now }
    requires conds { AreConds design.now out.old.nets conds.now }
    requires homes { AreHomes design.now stage table.now.widths table.now.homes }
    requires slots { AreSlots out.old.nets table.now.widths slots.now }
    requires low { Each (IsShallow out.old 0) (sources ground.now (numbers slots.now)) }
    ensures started { IfOk result (IsStartedAt design.now stage ground.now table.now.homes slots.now
        conds.now out.old out.new number) }
    ensures reads { IfOk result (λ c. Reads (sources ground.now (numbers slots.now))
        out.old out.new) }
    ensures makes { IfOk result (λ c. Makes out.old out.new) }
{
    let instr = instr_at(design, number);
    let cond = cond_at(conds, number);
    let course = start_course(
        out, design, stage, number, instr, ground, cond, table, slots,
    )?;
    Ok(course)
}

/// All instructions of the design at the start of a stage, in their order: `conds` has for each of them whether the stage's word matches
/// it, `table` the homes of live locals, and `slots` the registers of the stage's slots.
pub fn start_courses(
    out: &mut Builder,
    design: &Design,
    stage: u32,
    ground: &Ground,
    conds: &[Wire],
    table: &StageSlots,
    slots: &[Wire],
) -> Result<Vec<Course>, NoMemory>
    requires fresh { CanFresh out.old }
    requires fits { FitsSome design.now }
    requires ground { IsGround out.old.nets ground.now }
    requires of { IsGroundOf design.now ground.now }
    requires conds { AreConds design.now out.old.nets conds.now }
    requires homes { AreHomes design.now stage table.now.widths table.now.homes }
    requires slots { AreSlots out.old.nets table.now.widths slots.now }
    requires low { Each (IsShallow out.old 0) (sources ground.now (numbers slots.now)) }
    ensures { IfOk result (λ courses. AreStarted design.now stage ground.now table.now.homes
        slots.now conds.now out.old out.new courses.items) }
{
    let mut courses = Vec::new(out.allocator());
    for number in 0..conds.len() {
        let place = number as u32;
        let course = start_nth(out, design, stage, place, ground, conds, table, slots)?;
        courses.push(course)?;
    }
    Ok(courses)
}
