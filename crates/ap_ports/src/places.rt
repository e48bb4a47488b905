//! The first line of an instruction that breaks a rule of its own instruction, by its place.
ghost use Rattle.std.specs.Prelude.{◌≡◌, ◌↔◌, Contains, position, true};
ghost use Rattle.ap_ports.specs.Elsewhere.{AreFirstStages, IsAstray};
ghost use Rattle.ap_desc.specs.Sound.{IsSound};
ghost use Rattle.ap_ports.specs.Firsts.{BreaksAt, IsBack, IsFirst, IsTwice, LineAt, is_early, is_zero};
ghost use Rattle.ap_ports.specs.Numbered.{AreNumbered};
ghost use Rattle.ap_ports.specs.Numbers.{IsNumbered};

use crate::flow::first_unsteady;
use crate::number::{PORTS, is_transfer, is_write, port_number};
use ap_desc::Fault;
use ap_desc::design::{Design, Instr, Micro};

/// The first line whose port an earlier line uses.
fn first_twice(micros: &[Micro]) -> Option<usize>
    requires { AreNumbered micros.now }
    ensures { IsFirst (IsTwice micros.now) result }
{
    let mut used = [false; PORTS];
    for (place, micro) in micros.iter().enumerate() {
        if let Some(port) = port_number(micro.act) {
            if used[port] {
                return Some(place);
            }
            used[port] = true;
        }
    }
    None
}

/// The first line in stage 0.
fn first_zero(micros: &[Micro]) -> Option<usize>
    ensures { result ≡ position is_zero micros.now }
{
    micros.iter().position(|micro| micro.stage == 0)
}

/// The first line of a lower stage than the line before it.
fn first_back(micros: &[Micro]) -> Option<usize>
    ensures { IsFirst (IsBack micros.now) result }
{
    for place in 1..micros.len() {
        if micros[place].stage < micros[place - 1].stage {
            return Some(place);
        }
    }
    None
}

/// Whether the line is a write in a stage in which a transfer may still kill it.
fn is_early(design: &Design, micro: &Micro) -> bool
    ensures { result ≡ is_early design.now micro.now }
{
    let kept = u64::from(micro.stage) + u64::from(design.slots) + 1;
    is_write(micro.act) && kept < u64::from(design.branch)
}

/// The first write in a stage in which a transfer may still kill it.
fn first_early(design: &Design, micros: &[Micro]) -> Option<usize>
    ensures { result ≡ position (is_early design.now) micros.now }
{
    micros.iter().position(|micro| is_early(design, micro))
}

/// Whether the line uses a port in another stage than the first line that uses it, or is a transfer in a wrong one.
fn is_astray(stages: &[Option<u32>], design: &Design, micro: &Micro) -> bool
    requires stages { AreFirstStages design.now stages.now }
    requires numbered { IsNumbered micro.now.act }
    ensures { (result ≡ true) ↔ IsAstray design.now micro.now }
{
    if is_transfer(micro.act) && micro.stage != design.branch {
        return true;
    }
    match port_number(micro.act) {
        Some(port) => match stages[port] {
            Some(stage) => stage != micro.stage,
            None => false,
        },
        None => false,
    }
}

/// The first line of these that does so.
fn first_astray(stages: &[Option<u32>], design: &Design, micros: &[Micro]) -> Option<usize>
    requires stages { AreFirstStages design.now stages.now }
    requires numbered { AreNumbered micros.now }
    ensures { IsFirst (λ place. LineAt micros.now place (IsAstray design.now)) result }
{
    for (place, micro) in micros.iter().enumerate() {
        if is_astray(stages, design, micro) {
            return Some(place);
        }
    }
    None
}

/// The first line of an instruction with this fault, where it's one that a line shows without the graph.
pub(crate) fn first_place(
    design: &Design,
    stages: &[Option<u32>],
    instr: &Instr,
    kind: Fault,
) -> Option<usize>
    requires sound { IsSound design.now }
    requires stages { AreFirstStages design.now stages.now }
    requires instr { Contains design.now.instrs instr.now }
    ensures { IsFirst (BreaksAt design.now instr.now kind) result }
{
    let micros = instr.micros.as_slice();
    match kind {
        Fault::TwiceInInstruction => first_twice(micros),
        Fault::TwoStages => first_astray(stages, design, micros),
        Fault::StageZero => first_zero(micros),
        Fault::StageOrder => first_back(micros),
        Fault::EarlyCommit => first_early(design, micros),
        Fault::UnstableOperand => first_unsteady(design, instr),
        _ => None,
    }
}
