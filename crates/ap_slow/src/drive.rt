//! What asks units of several cycles, and lets them go on: their wires `go` and `adv`, driven once control stands.
ghost use Rattle.std.specs.Prelude.{◌≡◌, ◌≢◌, ◌∷◌, ◌≤◌, ◌-◌, [], OnOk};
ghost use Rattle.std.specs.List.{AllByRecursion as Each, list_any};
ghost use Rattle.ap_desc.specs.declared.design.Instr.{Instr};
ghost use Rattle.ap_net.specs.Draft.{CanFresh};
ghost use Rattle.ap_net.specs.Late.{IsLate};
ghost use Rattle.ap_net.specs.Ready.{numbers};
ghost use Rattle.ap_net.specs.Wiring.{NoneTwice};
ghost use Rattle.ap_ctl.specs.Given.{is_used_in};
ghost use Rattle.ap_slow.specs.Asking.{uses_unit};
ghost use Rattle.ap_slow.specs.Driven.{AreThere, CanDrive, DrivesLate, DrivesUnits, IsAtRest, IsDriven, IsServed, asking, driven_of, unit_stage};
ghost use Rattle.ap_slow.specs.Placed.{late_nets};

use crate::ask::{asks_unit, uses_unit};
use crate::place::SlowPlaced;
use ap_bits::NoMemory;
use ap_ctl::nets::ControlNets;
use ap_desc::design::{Design, Instr};
use ap_net::builder::Builder;
use ap_net::cell::{Cell, Wire};

/// Whether some of these instructions uses the unit in the stage.
fn some_uses(instrs: &[Instr], stage: u32, unit: u32) -> bool
    ensures { result ≡ list_any (λ (i : Instr). uses_unit stage unit i) instrs.now }
{
    let mut instrs = instrs.iter();
    instrs.any(|i| uses_unit(i, stage, unit))
}

/// Whether a line of this stage uses the unit.
fn is_used_in(design: &Design, stage: u32, unit: u32) -> bool
    ensures { result ≡ is_used_in design.now stage unit }
{
    some_uses(design.instrs.as_slice(), stage, unit)
}

/// The first stage whose lines use the unit, and 0 where there is none.
pub fn unit_stage(design: &Design, unit: u32) -> u32
    ensures { result ≡ unit_stage design.now unit }
{
    for stage in 1..design.stages {
        if is_used_in(design, stage, unit) {
            return stage;
        }
    }
    0
}

/// Drives a wire that was declared by the constant 0.
fn rest(out: &mut Builder, to: Wire) -> Result<(), NoMemory>
    requires fresh { CanFresh out.old }
    requires late { IsLate out.old to }
    ensures rest { OnOk result (IsAtRest out.new to) }
    ensures drives { OnOk result (DrivesLate (to.number ∷ []) [] out.old out.new) }
{
    out.cell(to, Cell::Const(0))?;
    Ok(())
}

/// Drives what reaches a unit that no line uses: it is always 0.
fn rest_unit(out: &mut Builder, placed: SlowPlaced) -> Result<(), NoMemory>
    requires fresh { CanFresh out.old }
    requires late { Each (IsLate out.old) (late_nets placed) }
    requires apart { NoneTwice (numbers (late_nets placed)) }
    ensures rest { OnOk result (Each (IsAtRest out.new) (late_nets placed)) }
    ensures drives { OnOk result (DrivesLate (numbers (late_nets placed)) [] out.old out.new) }
{
    rest(out, placed.inputs.sel)?;
    rest(out, placed.inputs.a)?;
    rest(out, placed.inputs.b)?;
    rest(out, placed.inputs.go)?;
    rest(out, placed.inputs.adv)?;
    Ok(())
}

/// Drives `go` and `adv` of a unit that lines of the stage use.
fn drive_used(
    out: &mut Builder,
    design: &Design,
    nets: &ControlNets,
    stage: u32,
    placed: SlowPlaced,
) -> Result<(), NoMemory>
    requires fresh { CanFresh out.old }
    requires there { AreThere design.now out.old nets.now }
    requires low { 1 ≤ stage }
    requires high { stage ≤ design.now.stages - 1 }
    requires go { IsLate out.old placed.inputs.go }
    requires adv { IsLate out.old placed.inputs.adv }
    requires bits { (placed.inputs.go.width ≡ 1) × (placed.inputs.adv.width ≡ 1) }
    requires apart { placed.inputs.adv.number ≢ placed.inputs.go.number }
    ensures driven { OnOk result (IsDriven design.now nets.now out.new stage placed) }
    ensures drives { OnOk result
        (DrivesLate (placed.inputs.go.number ∷ placed.inputs.adv.number ∷ []) (asking nets.now)
        out.old out.new) }
{
    let place = (stage - 1) as usize;
    let valids = nets.valid.as_slice();
    let decoded = nets.decoded.as_slice();
    let holds = nets.hold.as_slice();
    let instrs = design.instrs.as_slice();
    let conditions = decoded[place].as_slice();
    let asks = asks_unit(out, instrs, conditions, stage, placed.unit, valids[place])?;
    out.cell(placed.inputs.go, Cell::Copy(asks))?;
    out.cell(placed.inputs.adv, Cell::Not(holds[0]))?;
    Ok(())
}

/// Drives `go` and `adv` of a unit in the stage whose lines use it, and all that reaches a unit that none uses.
fn drive_unit(
    out: &mut Builder,
    design: &Design,
    nets: &ControlNets,
    placed: SlowPlaced,
) -> Result<(), NoMemory>
    requires fresh { CanFresh out.old }
    requires there { AreThere design.now out.old nets.now }
    requires late { Each (IsLate out.old) (late_nets placed) }
    requires apart { NoneTwice (numbers (late_nets placed)) }
    requires bits { (placed.inputs.go.width ≡ 1) × (placed.inputs.adv.width ≡ 1) }
    ensures served { OnOk result (IsServed design.now nets.now out.new placed) }
    ensures drives { OnOk result
        (DrivesLate (numbers (driven_of design.now placed)) (asking nets.now) out.old out.new) }
{
    let stage = unit_stage(design, placed.unit);
    if stage == 0 {
        rest_unit(out, placed)?;
    } else {
        drive_used(out, design, nets, stage, placed)?;
    }
    Ok(())
}

/// Drives `go` and `adv` of each unit that takes several cycles: it is asked by the stage whose lines use it, and goes on where the stages
/// aren't held. A unit that no line uses is never asked. After an error the builder is good for nothing but to be dropped.
pub fn drive_slow_units(
    out: &mut Builder,
    design: &Design,
    nets: &ControlNets,
    placed: &[SlowPlaced],
) -> Result<(), NoMemory>
    requires fresh { CanFresh out.old }
    requires there { AreThere design.now out.old nets.now }
    requires can { CanDrive out.old placed.now }
    ensures { OnOk result (DrivesUnits design.now nets.now placed.now out.old out.new) }
{
    for unit in placed {
        drive_unit(out, design, nets, *unit)?;
    }
    Ok(())
}
