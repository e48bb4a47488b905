//! What a line of an instruction hands to a write port.
ghost use Rattle.std.specs.Prelude.{IfOk, IfSome, OnOk, option_to_list};
ghost use Rattle.std.specs.List.{AllByRecursion as Each};
ghost use Rattle.ap_net.specs.Draft.{CanFresh};
ghost use Rattle.ap_net.specs.Pending.{IsFrom};
ghost use Rattle.ap_net.specs.Ready.{numbers};
ghost use Rattle.ap_stage.specs.Courses.{IsCourse, course_numbers};
ghost use Rattle.ap_stage.specs.Sources.{IsGround, IsOperandNet, source_numbers};
ghost use Rattle.ap_stage.specs.Trees.{IsShallow};
ghost use Rattle.ap_stage.specs.Wiring.{IsWiring, ReadsOnly};
ghost use Rattle.ap_effect.specs.Writers.{writer_numbers};
ghost use Rattle.ap_outcome.specs.Outcomes.{CanHandIn, CanName, IsLowWriter, IsNetOf, IsWriterFor};

use ap_bits::NoMemory;
use ap_desc::design::Arg;
use ap_effect::line::PortLine;
use ap_effect::write::Writer;
use ap_net::builder::Builder;
use ap_net::cell::Wire;
use ap_stage::node::Course;
use ap_stage::source::{Ground, operand_net};

/// The net of an operand of an instruction, which has one.
fn operand(out: &mut Builder, ground: &Ground, course: &Course, arg: Arg) -> Result<Wire, NoMemory>
    requires fresh { CanFresh out.old }
    requires ground { IsGround out.old.nets ground.now }
    requires course { IsCourse out.old ground.now course.now }
    requires can { CanName course.now arg }
    ensures net { IfOk result
        (IsOperandNet out.new ground.now course.now.scope course.now.row.items arg) }
    ensures wiring { IfOk result
        (IsWiring (source_numbers ground.now course.now.row.items) out.old out.new) }
{
    let found = operand_net(out, ground, &course.scope, &course.row, arg)?;
    let Some(net) = found else {
        unreachable!();
    };
    Ok(net)
}

/// The net of an operand, where there is one.
fn optional(
    out: &mut Builder,
    ground: &Ground,
    course: &Course,
    arg: Option<Arg>,
) -> Result<Option<Wire>, NoMemory>
    requires fresh { CanFresh out.old }
    requires ground { IsGround out.old.nets ground.now }
    requires course { IsCourse out.old ground.now course.now }
    requires can { IfSome arg (CanName course.now) }
    ensures net { IfOk result (IsNetOf out.new ground.now course.now arg) }
    ensures low { IfOk result (λ o. IfSome o (λ w. IsShallow out.new 0 w.number)) }
    ensures from { IfOk result (λ o.
        Each (IsFrom (source_numbers ground.now course.now.row.items) out.old out.new)
        (numbers (option_to_list o))) }
    ensures reads { OnOk result
        (ReadsOnly (source_numbers ground.now course.now.row.items) out.old out.new) }
{
    match arg {
        None => Ok(None),
        Some(arg) => {
            let net = operand(out, ground, course, arg)?;
            Ok(Some(net))
        }
    }
}

/// What an instruction's line hands to a write port, under the instruction's condition.
pub fn writer(
    out: &mut Builder,
    ground: &Ground,
    course: &Course,
    line: PortLine,
) -> Result<Writer, NoMemory>
    requires fresh { CanFresh out.old }
    requires ground { IsGround out.old.nets ground.now }
    requires course { IsCourse out.old ground.now course.now }
    requires can { CanHandIn course.now line }
    ensures writer { IfOk result (IsWriterFor out.new ground.now course.now line) }
    ensures low { IfOk result (IsLowWriter out.new) }
    ensures from { IfOk result (λ w. Each (IsFrom (course_numbers ground.now course.now)
        out.old out.new) (writer_numbers w)) }
    ensures reads { OnOk result
        (ReadsOnly (source_numbers ground.now course.now.row.items) out.old out.new) }
{
    let guard = optional(out, ground, course, line.guard)?;
    let index = optional(out, ground, course, line.index)?;
    let value = operand(out, ground, course, line.value)?;
    let writer = Writer {
        cond: course.cond,
        guard,
        index,
        value,
    };
    Ok(writer)
}
