//! The instructions of a stage, and the locals that the results of ports give them.
ghost use Rattle.std.specs.Prelude.{◌≡◌, ◌≢◌, ◌∷◌, ◌==◌, find, length, slice_get, None, OnOk, Some, ℕ};
ghost use Rattle.std.specs.List.{AllByRecursion as Each};
ghost use Rattle.ap_desc.specs.Designs.{width_at};
ghost use Rattle.ap_net.specs.Cells.{IsNet};
ghost use Rattle.ap_net.specs.Draft.{CanFresh};
ghost use Rattle.ap_net.specs.Making.{Makes};
ghost use Rattle.ap_stage.specs.declared.node.PortUse.{PortUse};
ghost use Rattle.ap_stage.specs.Courses.{GoOn, GoesOn, HasResult, IsCourse, IsResultWide, IsUnserved, course_numbers, courses_numbers, use_of};
ghost use Rattle.ap_stage.specs.Reads.{AreFrom};
ghost use Rattle.ap_stage.specs.Rows.{AreClosed, AreLines, AreMade, Keeps, MakesNone};
ghost use Rattle.ap_stage.specs.Sources.{IsGround, IsRow, LieIn, source_numbers};
ghost use Rattle.ap_stage.specs.Trees.{IsShallow};

use crate::row::{Line, put, sweep};
use crate::source::{Ground, Scope};
use crate::user::Asked;
use ap_bits::{Items, NoMemory};
use ap_net::builder::Builder;
use ap_net::cell::Wire;

/// A line of an instruction that uses a port whose result it gives its local.
#[derive(Clone, Copy, Debug, PartialEq, Eq)]
pub struct PortUse {
    /// The number by which the stage knows the port.
    pub port: u32,
    pub asked: Asked,
    /// The number of the local that the line makes.
    pub local: u32,
}

/// An instruction in a stage.
#[derive(Drop)]
pub struct Course {
    /// One bit: 1 exactly where the stage's word matches the instruction.
    pub cond: Wire,
    pub scope: Scope,
    /// The lines of the stage that make locals without such a port.
    pub lines: Items<Line>,
    /// Those that use one.
    pub uses: Items<PortUse>,
    /// The nets of the instruction's locals, as far as they are made.
    pub row: Vec<Option<Wire>>,
}

/// The first of these lines that uses a port, if one does.
fn first_use(uses: &[PortUse], port: u32) -> Option<PortUse>
    ensures { result ≡ find (λ (u : PortUse). u.port == port) uses.now }
{
    uses.iter().find(|used| used.port == port).copied()
}

/// The line of an instruction that uses a port, if one does.
pub(crate) fn use_of(course: &Course, port: u32) -> Option<PortUse>
    ensures { result ≡ use_of port course.now }
{
    let uses = course.uses.as_slice();
    first_use(uses, port)
}

/// Puts a net at the place of a local that no line makes, and gives nets to the locals that can be had then.
fn take_net(
    out: &mut Builder,
    ground: &Ground,
    scope: &Scope,
    lines: &[Line],
    row: &mut [Option<Wire>],
    local: u32,
    net: Wire,
) -> Result<(), NoMemory>
    requires fresh { CanFresh out.old }
    requires ground { IsGround out.old.nets ground.now }
    requires fields { LieIn ground.now.word.width scope.now }
    requires row { IsRow out.old.nets scope.now row.old }
    requires lines { AreLines ground.now scope.now lines.now }
    requires made { AreMade out.old ground.now scope.now row.old lines.now }
    requires none { slice_get row.old local ≡ Some None }
    requires apart { MakesNone lines.now local }
    requires net { IsNet out.old.nets net }
    requires wide { net.width ≡ width_at (λ width. width) scope.now.widths local }
    requires low { Each (IsShallow out.old 0) (source_numbers ground.now row.old) }
    requires net_low { IsShallow out.old 0 net.number }
    ensures row { OnOk result (IsRow out.new.nets scope.now row.new) }
    ensures made { OnOk result (AreMade out.new ground.now scope.now row.new lines.now) }
    ensures closed { OnOk result (AreClosed row.new lines.now (length lines.now)) }
    ensures keeps { OnOk result (Keeps row.old row.new) }
    ensures has { OnOk result (slice_get row.new local ≡ Some (Some net)) }
    ensures others { OnOk result ((j : ℕ) → j ≢ local → MakesNone lines.now j
        → slice_get row.new j ≡ slice_get row.old j) }
    ensures low { OnOk result (Each (IsShallow out.new 0) (source_numbers ground.now row.new)) }
    ensures from { OnOk result (AreFrom (net.number ∷ source_numbers ground.now row.old) out.old
        out.new (source_numbers ground.now row.new)) }
    ensures makes { OnOk result (Makes out.old out.new) }
{
    put(row, local, net);
    sweep(out, ground, scope, lines, row)?;
    Ok(())
}

/// Gives a port's result to the local of the line that uses it, and nets to the locals that can be had then.
fn take_result(
    out: &mut Builder,
    ground: &Ground,
    course: &mut Course,
    port: u32,
    y: Wire,
) -> Result<(), NoMemory>
    requires fresh { CanFresh out.old }
    requires ground { IsGround out.old.nets ground.now }
    requires course { IsCourse out.old ground.now course.old }
    requires unserved { IsUnserved port course.old }
    requires y { IsNet out.old.nets y }
    requires wide { IsResultWide y.width port course.old }
    requires low { IsShallow out.old 0 y.number }
    ensures course { OnOk result (IsCourse out.new ground.now course.new) }
    ensures goes_on { OnOk result (GoesOn port course.old course.new) }
    ensures has { OnOk result (HasResult port y course.new) }
    ensures from { OnOk result (AreFrom (y.number ∷ course_numbers ground.now course.old) out.old
        out.new (course_numbers ground.now course.new)) }
    ensures makes { OnOk result (Makes out.old out.new) }
{
    let Some(used) = use_of(course, port) else {
        return Ok(());
    };
    let lines = course.lines.as_slice();
    take_net(
        out,
        ground,
        &course.scope,
        lines,
        &mut course.row,
        used.local,
        y,
    )?;
    Ok(())
}

/// Gives a port's result to all instructions that use it.
pub(crate) fn take_results(
    out: &mut Builder,
    ground: &Ground,
    courses: &mut [Course],
    port: u32,
    y: Wire,
) -> Result<(), NoMemory>
    requires fresh { CanFresh out.old }
    requires ground { IsGround out.old.nets ground.now }
    requires courses { Each (IsCourse out.old ground.now) courses.old }
    requires unserved { Each (IsUnserved port) courses.old }
    requires y { IsNet out.old.nets y }
    requires wide { Each (IsResultWide y.width port) courses.old }
    requires low { IsShallow out.old 0 y.number }
    ensures courses { OnOk result (Each (IsCourse out.new ground.now) courses.new) }
    ensures go_on { OnOk result (GoOn port courses.old courses.new) }
    ensures has { OnOk result (Each (HasResult port y) courses.new) }
    ensures from { OnOk result (AreFrom (y.number ∷ courses_numbers ground.now courses.old) out.old
        out.new (courses_numbers ground.now courses.new)) }
    ensures makes { OnOk result (Makes out.old out.new) }
{
    for course in courses.iter_mut() {
        take_result(out, ground, course, port, y)?;
    }
    Ok(())
}
