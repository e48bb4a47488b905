ghost use Rattle.std.specs.Prelude.{◌≡◌, ◌∷◌, ◌++◌, ◌+◌, ◌-◌, ◌<◌, ◌≤◌, IfOk, OnOk, length, ℕ, replicate};
ghost use Rattle.std.specs.List.{AllByRecursion as Each};
ghost use Rattle.ap_desc.specs.Clean.{IsClean};
ghost use Rattle.ap_net.specs.Draft.{CanFresh, names_of};
ghost use Rattle.ap_net.specs.Late.{StayLate};
ghost use Rattle.ap_net.specs.Names.{IsNew};
ghost use Rattle.ap_net.specs.Wiring.{NoneTwice};
ghost use Rattle.ap_signals.specs.NetRuns.{valid_name};
ghost use Rattle.ap_net.specs.Ready.{numbers};
ghost use Rattle.ap_ctl.specs.Building.{BuildsComparing, IsBit};
ghost use Rattle.ap_ctl.specs.Decoding.{compared_in};
ghost use Rattle.ap_ctl.specs.Given.{IsGiven, killing};
ghost use Rattle.ap_ctl.specs.Made.{IsMade, MadeFollows};
ghost use Rattle.ap_ctl.specs.Nets.{AddsControl, FollowsGiven, HasNoValid, IsControl, IsFreeRegister, KeepsOthers, valid_wires, with_valid, with_nexts};
ghost use Rattle.ap_net.specs.Modules.{ports_among};

use crate::busy::hold;
use crate::decode::decoded;
use crate::move_on::{Gates, fires, make_gates, next_valid};
use crate::nets::{ControlGiven, ControlNets};
use ap_bits::{Items, NoMemory};
use ap_desc::design::Design;
use ap_net::builder::Builder;
use ap_net::cell::Wire;
use std::alloc::Global;

/// Declares the registers that say whether there is a word in a stage, for this many stages from 1 on.
fn valid_bits(out: &mut Builder, count: u32) -> Result<Items<Wire>, NoMemory>
    requires few { count < 9 }
    requires names { (stage : ℕ) → 1 ≤ stage → stage ≤ count
        → IsNew (valid_name stage) (names_of out.old) }
    requires fresh { CanFresh out.old }
    ensures ok { OnOk result (out.new ≡ with_valid out.old count) }
    ensures wires { IfOk result (λ valid. valid ≡ valid_wires (length out.old.nets) count) }
    ensures fresh { OnOk result (CanFresh out.new) }
    ensures late { OnOk result (StayLate out.old out.new) }
    ensures ports { OnOk result (ports_among out.new.nets ≡ ports_among out.old.nets) }
    ensures others { OnOk result (KeepsOthers count out.old out.new) }
{
    let alloc = out.allocator();
    let mut valid = Items::new(alloc);
    for place in 0..count {
        let stage = place + 1;
        let name = format!(in alloc; "v_{stage}")?;
        let register = out.register(name.as_bytes(), 1, 0)?;
        valid.push(register)?;
    }
    Ok(valid)
}

/// Gives each register what it takes.
fn clock(out: &mut Builder, registers: &[Wire], nets: &[Wire]) -> Result<(), NoMemory>
    requires registers { Each (IsFreeRegister out.old) registers.now }
    requires apart { NoneTwice (numbers registers.now) }
    requires nets { Each (IsBit out.old.nets) nets.now }
    requires long { length nets.now ≡ length registers.now }
    ensures ok { OnOk result (out.new ≡ with_nexts out.old registers.now nets.now) }
    ensures late { OnOk result (StayLate out.old out.new) }
{
    for place in 0..registers.len() {
        out.next(registers[place], nets[place])?;
    }
    Ok(())
}

/// The net once for each stage.
fn for_each_stage(alloc: Global, net: Wire, stages: u32) -> Result<Items<Wire>, NoMemory>
    ensures { IfOk result (λ nets. nets ≡ replicate stages net) }
{
    let mut nets = Items::new(alloc);
    for _ in 0..stages {
        nets.push(net)?;
    }
    Ok(nets)
}

/// What is made of the valid bits.
#[derive(Drop)]
struct Made {
    decoded: Items<Items<Wire>>,
    gates: Gates,
    fires: Items<Wire>,
    next: Items<Wire>,
}

/// Makes all nets of control but the valid bits.
fn make_rest(
    out: &mut Builder,
    design: &Design,
    given: &ControlGiven,
    valid: &[Wire],
) -> Result<Made, NoMemory>
    requires clean { IsClean design.now }
    requires fresh { CanFresh out.old }
    requires given { IsGiven design.now out.old.nets given.now }
    requires stages { length valid.now ≡ design.now.stages - 1 }
    requires valid { Each (IsBit out.old.nets) valid.now }
    ensures made { IfOk result (IsMade design.now given.now valid.now out.new) }
    ensures builds { OnOk result (BuildsComparing (compared_in design.now given.now.words)
        (numbers valid.now ++ killing given.now) out.old out.new) }
    ensures follows { IfOk result (MadeFollows given.now valid.now out.new) }
{
    let decoded = decoded(out, design, given.words.as_slice())?;
    let hold = hold(out, design, given, valid, decoded.as_slice())?;
    let gates = make_gates(out, hold, given.taken)?;
    let fires = fires(out, design, gates, valid)?;
    let next = next_valid(out, design, gates, valid, fires.as_slice())?;
    Ok(Made {
        decoded,
        gates,
        fires,
        next,
    })
}

/// Makes control: the valid bits, which instruction a word matches, which stages are held, which flights fire, and whether a
/// transfer is taken. A stage is busy where a unit that it uses isn't done, or where memories have its word wait; busy stages
/// hold the stages before them. What a transfer kills is told by its stage and its slots. The nets that are given may be driven
/// later. After an error the builder is good for nothing but to be dropped.
pub fn control(
    design: &Design,
    given: &ControlGiven,
    out: &mut Builder,
) -> Result<ControlNets, NoMemory>
    requires clean { IsClean design.now }
    requires given { IsGiven design.now out.old.nets given.now }
    requires names { HasNoValid design.now out.old }
    requires fresh { CanFresh out.old }
    ensures control { IfOk result (IsControl design.now given.now out.new) }
    ensures adds { IfOk result (AddsControl design.now given.now out.old out.new) }
    ensures follows { IfOk result (FollowsGiven given.now out.old out.new) }
{
    out.rules();
    let alloc = out.allocator();
    let valid = valid_bits(out, design.stages - 1)?;
    let made = make_rest(out, design, given, valid.as_slice())?;
    let Made {
        decoded,
        gates,
        fires,
        next,
    } = made;
    clock(out, valid.as_slice(), next.as_slice())?;
    let hold = for_each_stage(alloc, gates.hold, design.stages)?;
    Ok(ControlNets {
        valid,
        decoded,
        hold,
        fires,
        kill: gates.kill,
    })
}
