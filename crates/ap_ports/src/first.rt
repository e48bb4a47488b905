//! The first line at which each kind of fault of ports and stages holds.
ghost use Rattle.std.specs.Prelude.{◌≡◌, IsTrue, length, min};
ghost use Rattle.std.specs.Option.{option_map_or};
ghost use Rattle.ap_desc.specs.Meaning.{MeetsPortFault};
ghost use Rattle.ap_desc.specs.Sound.{IsSound};
ghost use Rattle.ap_desc.specs.StageFaults.{has_too_many_slots};
ghost use Rattle.ap_ports.specs.Elsewhere.{AreFirstStages, AreNoted};
ghost use Rattle.ap_ports.specs.Numbered.{AreNumbered};
ghost use Rattle.ap_ports.specs.Firsts.{BreaksIn, ClosesSome, IsFirst};

use crate::edges::stage_ways;
use crate::number::{PORTS, port_number};
use crate::places::first_place;
use ap_desc::Fault;
use ap_desc::design::{Design, Micro};
use ap_desc::laws::loops_and_orders;

/// Notes the stage of the first of these lines that uses each port, where none is noted.
fn note_stages(stages: &mut [Option<u32>], micros: &[Micro])
    requires ports { length stages.old ≡ 153 }
    requires numbered { AreNumbered micros.now }
    ensures { AreNoted stages.old stages.new micros.now }
{
    for micro in micros {
        if let Some(port) = port_number(micro.act) {
            if stages[port].is_none() {
                stages[port] = Some(micro.stage);
            }
        }
    }
}

/// The stage of the first line that uses each port.
pub(crate) fn first_stages(design: &Design) -> [Option<u32>; PORTS]
    requires { IsSound design.now }
    ensures { AreFirstStages design.now result }
{
    let mut stages = [None; PORTS];
    for instr in design.instrs.as_slice() {
        note_stages(&mut stages, instr.micros.as_slice());
    }
    stages
}

/// The first line with a fault of a kind that a line shows without the graph.
fn first_in_instrs(design: &Design, stages: &[Option<u32>], kind: Fault) -> Option<u32>
    requires sound { IsSound design.now }
    requires stages { AreFirstStages design.now stages.now }
    ensures { IsFirst (BreaksIn design.now kind) result }
{
    for instr in design.instrs.as_slice() {
        if let Some(place) = first_place(design, stages, instr, kind) {
            return Some(instr.micros.as_slice()[place].line);
        }
    }
    None
}

/// The lower of two lines, where there is a first.
fn lower_of(least: Option<u32>, line: u32) -> u32
    ensures { result ≡ option_map_or (λ other. min other line) least line }
{
    match least {
        Some(other) => other.min(line),
        None => line,
    }
}

/// The first line that closes a loop of its stage.
fn first_loop(design: &Design) -> Option<u32>
    requires { IsSound design.now }
    ensures { IsFirst (ClosesSome design.now) result }
{
    loops_and_orders();
    let mut least = None;
    for stage in 0..design.stages {
        if let Err(line) = stage_ways(design, stage) {
            least = Some(lower_of(least, line));
        }
    }
    least
}

/// The line of `transfer`, where there are too many slots.
fn first_slots(design: &Design) -> Option<u32>
    ensures { IsFirst (λ line. IsTrue (has_too_many_slots design.now line)) result }
{
    if design.branch < design.slots {
        Some(design.transfer_line)
    } else {
        None
    }
}

/// The first line at which a kind of fault of ports and stages holds.
pub(crate) fn first_line(design: &Design, stages: &[Option<u32>], kind: Fault) -> Option<u32>
    requires sound { IsSound design.now }
    requires stages { AreFirstStages design.now stages.now }
    ensures { IsFirst (MeetsPortFault design.now kind) result }
{
    match kind {
        Fault::ChainLoop => first_loop(design),
        Fault::TooManySlots => first_slots(design),
        _ => first_in_instrs(design, stages, kind),
    }
}
