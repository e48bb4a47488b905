//! What the lines of a stage hand in that write through one port, or transfer.
ghost use Rattle.std.specs.Prelude.{◌≡◌, IfOk, None, OnOk, map};
ghost use Rattle.std.specs.List.{AllByRecursion as Each};
ghost use Rattle.ap_net.specs.Draft.{CanFresh};
ghost use Rattle.ap_stage.specs.Courses.{IsCourse, courses_numbers};
ghost use Rattle.ap_stage.specs.Sources.{IsGround};
ghost use Rattle.ap_stage.specs.Wiring.{ReadsOnly};
ghost use Rattle.ap_effect.specs.Writers.{writer_of};
ghost use Rattle.ap_outcome.specs.Outcomes.{AreLineWriters, AreWritersFrom, HasCourse};

use crate::hand::writer;
use ap_bits::{Items, NoMemory};
use ap_effect::line::PortLine;
use ap_effect::transfer::Transfer;
use ap_effect::write::Writer;
use ap_net::builder::Builder;
use ap_stage::node::Course;
use ap_stage::source::Ground;
use std::alloc::Global;

/// What these lines hand in, in their order, by the instructions of their stage, whose locals all have nets.
pub fn writers(
    out: &mut Builder,
    ground: &Ground,
    courses: &[Course],
    lines: &[PortLine],
) -> Result<Items<Writer>, NoMemory>
    requires fresh { CanFresh out.old }
    requires ground { IsGround out.old.nets ground.now }
    requires courses { Each (IsCourse out.old ground.now) courses.now }
    requires lines { Each (HasCourse courses.now) lines.now }
    ensures writers { IfOk result (AreLineWriters out.new ground.now courses.now lines.now) }
    ensures from { IfOk result (AreWritersFrom (courses_numbers ground.now courses.now)
        out.old out.new) }
    ensures reads { OnOk result
        (ReadsOnly (courses_numbers ground.now courses.now) out.old out.new) }
{
    let mut list = Items::new(out.allocator());
    for line in lines {
        let made = writer(out, ground, &courses[line.instr as usize], *line)?;
        list.push(made)?;
    }
    Ok(list)
}

/// The transfers of these writers, none of which has an index.
fn as_transfers(alloc: Global, writers: &[Writer]) -> Result<Items<Transfer>, NoMemory>
    requires none { Each (λ (w : Writer). w.index ≡ None) writers.now }
    ensures { IfOk result (λ list. map writer_of list ≡ writers.now) }
{
    let mut list = Items::new(alloc);
    for made in writers {
        list.push(Transfer {
            cond: made.cond,
            branch: made.guard,
            target: made.value,
        })?;
    }
    Ok(list)
}

/// The transfers of these lines, in their order, by the instructions of their stage, whose locals all have nets.
pub fn transfers(
    out: &mut Builder,
    ground: &Ground,
    courses: &[Course],
    lines: &[PortLine],
) -> Result<Items<Transfer>, NoMemory>
    requires fresh { CanFresh out.old }
    requires ground { IsGround out.old.nets ground.now }
    requires courses { Each (IsCourse out.old ground.now) courses.now }
    requires lines { Each (HasCourse courses.now) lines.now }
    requires none { Each (λ (l : PortLine). l.index ≡ None) lines.now }
    ensures transfers { IfOk result (λ list.
        AreLineWriters out.new ground.now courses.now lines.now (map writer_of list)) }
    ensures from { IfOk result (λ list. AreWritersFrom (courses_numbers ground.now courses.now)
        out.old out.new (map writer_of list)) }
    ensures reads { OnOk result
        (ReadsOnly (courses_numbers ground.now courses.now) out.old out.new) }
{
    let made = writers(out, ground, courses, lines)?;
    let list = as_transfers(out.allocator(), made.as_slice())?;
    Ok(list)
}
