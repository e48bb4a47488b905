//! The edges of a stage's union graph, added line by line up to the first one that closes a loop.
ghost use Rattle.std.specs.Prelude.{◌≡◌, ◌+◌, ◌<◌, IfErr, IfOk, OnOk, length, true};
ghost use Rattle.std.specs.List.{AllByRecursion as Each};
ghost use Rattle.ap_desc.specs.Chains.{ClosesLoop, IsLooped, operands_of};
ghost use Rattle.ap_desc.specs.Sound.{IsSound};
ghost use Rattle.ap_ports.specs.Flow.{IsLocalOf};
ghost use Rattle.ap_ports.specs.Graphs.{IsAdded, IsClosing, IsGraphOf, IsOpenAfter, lines_before};
ghost use Rattle.ap_ports.specs.Numbers.{IsNumbered};

use crate::flow::Locals;
use crate::number::node_number;
use crate::ways::Ways;
use ap_desc::design::{Design, Micro};

/// Adds the edges of a line where it stands in the stage; an error is the line's number, where an edge closes a loop.
fn add_line(ways: &mut Ways, locals: &Locals, micro: &Micro, stage: u32) -> Result<(), u32>
    requires operands { Each (IsLocalOf 64) (operands_of micro.now.act) }
    requires numbered { IsNumbered micro.now.act }
    ensures ok { OnOk result (IsAdded locals.now micro.now stage ways.old ways.new) }
    ensures closed { IfErr result (IsClosing locals.now micro.now stage ways.old) }
{
    if micro.stage != stage {
        return Ok(());
    }
    if let Some(to) = node_number(micro.act) {
        let sources = locals.sources(micro);
        if ways.leads(to, sources) {
            return Err(micro.line);
        }
        ways.add(sources, to);
    }
    Ok(())
}

/// Adds the edges that the lines of the instruction at this place make in the stage, up to the first line that closes a loop.
fn add_edges(ways: &mut Ways, design: &Design, number: usize, stage: u32) -> Result<(), u32>
    requires sound { IsSound design.now }
    requires number { number < length design.now.instrs }
    requires so_far { IsOpenAfter design.now stage (lines_before design.now number) ways.old }
    ensures ok { OnOk result
        (IsOpenAfter design.now stage (lines_before design.now (number + 1)) ways.new) }
    ensures closed { IfErr result (ClosesLoop design.now stage) }
{
    let instr = &design.instrs.as_slice()[number];
    let mut locals = Locals::new();
    for micro in instr.micros.as_slice() {
        add_line(ways, &locals, micro, stage)?;
        locals.take(design, micro);
    }
    Ok(())
}

/// Which nodes of a stage lead to which, or the line that closes a loop there.
pub(crate) fn stage_ways(design: &Design, stage: u32) -> Result<Ways, u32>
    requires { IsSound design.now }
    ensures graph { IfOk result (IsGraphOf design.now stage) }
    ensures unlooped { IfOk result (λ _. IsLooped design.now stage (λ n. true) → ⊥) }
    ensures closed { IfErr result (ClosesLoop design.now stage) }
{
    let mut ways = Ways::new();
    for number in 0..design.instrs.len() {
        add_edges(&mut ways, design, number, stage)?;
    }
    Ok(ways)
}
