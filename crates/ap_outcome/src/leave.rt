//! What a stage leaves to the slots of the next one.
ghost use Rattle.std.specs.Prelude.{◌≡◌, IfOk, None, slice_get, unwrap_or};
ghost use Rattle.std.specs.List.{AllByRecursion as Each};
ghost use Rattle.ap_ctl.specs.Lists.{EachPair};
ghost use Rattle.ap_outcome.specs.Outcomes.{CanLeave, IsLeavingOf};

use ap_bits::{Items, NoMemory};
use ap_flight::entry::Leaving;
use ap_net::cell::Wire;
use ap_pipe::Home;
use ap_stage::node::Course;
use std::alloc::Global;

/// The net of a local of an instruction, where it has one.
fn local_net(course: &Course, local: u32) -> Option<Wire>
    ensures { result ≡ unwrap_or (slice_get course.now.row.items local) None }
{
    match course.row.get(local as usize) {
        Some(net) => *net,
        None => None,
    }
}

/// What the instructions of a stage leave to these homes, in their order.
pub fn leavings(
    alloc: Global,
    courses: &[Course],
    homes: &[Home],
) -> Result<Items<Leaving>, NoMemory>
    requires homes { Each (CanLeave courses.now) homes.now }
    ensures leavings { IfOk result (EachPair (IsLeavingOf courses.now) homes.now) }
{
    let mut list = Items::new(alloc);
    for home in homes {
        let course = &courses[home.instr as usize];
        let Some(net) = local_net(course, home.local) else {
            unreachable!();
        };
        list.push(Leaving {
            cond: course.cond,
            net,
        })?;
    }
    Ok(list)
}
