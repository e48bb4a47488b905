//! Which stages are busy, and which are held.
ghost use Rattle.std.specs.Prelude.{◌≡◌, ◌∷◌, ◌++◌, ◌&&◌, ◌||◌, ◌+◌, ◌-◌, ◌<◌, ◌≤◌, ◌==◌, ℕ, IfOk, OnOk, filter, length, map, zip};
ghost use Rattle.std.specs.List.{AllByRecursion as Each, list_any, range_with_len};
ghost use Rattle.ap_desc.specs.Clean.{IsClean};
ghost use Rattle.ap_desc.specs.declared.design.Instr.{Instr};
ghost use Rattle.ap_desc.specs.declared.design.Micro.{Micro};
ghost use Rattle.ap_model.specs.Stalls.{is_memory_line};
ghost use Rattle.ap_model.specs.UnitUse.{is_use_of, latency_of};
ghost use Rattle.ap_net.specs.Draft.{CanFresh};
ghost use Rattle.ap_net.specs.Readings.{Always};
ghost use Rattle.ap_net.specs.Ready.{numbers};
ghost use Rattle.ap_ctl.specs.Building.{Gives, GivesEach, IsBit, Tells, is_on};
ghost use Rattle.ap_ctl.specs.Given.{IsGiven, has_memory_line_in, is_used_in, memory_nets, net_of, slow_units, unit_nets};
ghost use Rattle.ap_ctl.specs.Lists.{EachFrom, EachPair};
ghost use Rattle.ap_ctl.specs.Meaning.{Look, Sees, is_busy, is_held};
ghost use Rattle.ap_ctl.specs.Moves.{busy_numbers, stage_numbers};
ghost use Rattle.ap_ctl.specs.Nets.{AreDecoded, Shows};

use crate::gate::{any_of, both};
use crate::nets::ControlGiven;
use ap_bits::{Items, NoMemory};
use ap_desc::design::{Act, Design, Instr};
use ap_desc::laws::clean_is_encoded;
use ap_net::builder::Builder;
use ap_net::cell::Wire;
use std::alloc::{AllocError, Global};

/// How many cycles a unit takes.
fn latency_of(design: &Design, unit: u32) -> u32
    ensures { result ≡ latency_of design.now unit }
{
    match design.units.as_slice().get(unit as usize) {
        Some(resource) => resource.latency,
        None => 0,
    }
}

/// The units that take more than one cycle, in the order of their declaration.
fn slow_units(alloc: Global, design: &Design) -> Result<Vec<u32>, AllocError>
    requires { length design.now.units ≤ 32 }
    ensures { IfOk result (λ units. units.items ≡ slow_units design.now) }
{
    let count = design.units.len() as u32;
    (0..count)
        .filter(|unit| latency_of(design, *unit) > 1)
        .collect(alloc)
}

/// Whether the line uses the unit.
fn is_use_of(unit: u32, act: Act) -> bool
    ensures { result ≡ is_use_of unit act }
{
    match act {
        Act::Compute { unit: other, .. } => other == unit,
        _ => false,
    }
}

/// Whether a line of this stage of the instruction uses the unit.
fn is_used_by(instr: &Instr, stage: u32, unit: u32) -> bool
    ensures { result
        ≡ list_any (λ (m : Micro). (m.stage == stage) && is_use_of unit m.act) instr.now.micros }
{
    let mut micros = instr.micros.as_slice().iter();
    micros.any(|m| m.stage == stage && is_use_of(unit, m.act))
}

/// Whether some instruction uses the unit in the stage.
fn some_uses(design: &Design, stage: u32, unit: u32) -> bool
    ensures { result ≡ list_any (λ (i : Instr).
        list_any (λ (m : Micro). (m.stage == stage) && is_use_of unit m.act) i.micros)
        design.now.instrs }
{
    let mut instrs = design.instrs.as_slice().iter();
    instrs.any(|i| is_used_by(i, stage, unit))
}

/// Whether a line of this stage uses the unit.
fn is_used_in(design: &Design, stage: u32, unit: u32) -> bool
    ensures { result ≡ is_used_in design.now stage unit }
{
    some_uses(design, stage, unit)
}

/// The nets of those of the units that the stage uses.
fn nets_in(
    alloc: Global,
    design: &Design,
    stage: u32,
    units: &[u32],
    busy: &[Wire],
) -> Result<Vec<Wire>, AllocError>
    ensures { IfOk result (λ nets. nets.items
        ≡ map net_of (filter (λ p. is_used_in design.now stage p.0) (zip units.now busy.now))) }
{
    units
        .iter()
        .zip(busy)
        .filter(|(unit, _)| is_used_in(design, stage, **unit))
        .map(|(_, net)| *net)
        .collect(alloc)
}

/// The busy nets of the units that the stage uses.
fn unit_nets(
    alloc: Global,
    design: &Design,
    stage: u32,
    busy: &[Wire],
) -> Result<Items<Wire>, NoMemory>
    requires { length design.now.units ≤ 32 }
    ensures { IfOk result (λ nets. nets ≡ unit_nets design.now stage busy.now) }
{
    let slow = slow_units(alloc, design)?;
    let units = Items::of(slow);
    let nets = nets_in(alloc, design, stage, units.as_slice(), busy)?;
    Ok(Items::of(nets))
}

/// Whether the line reads or writes a memory.
fn is_memory_line(act: Act) -> bool
    ensures { result ≡ is_memory_line act }
{
    matches!(act, Act::ReadMem { .. } | Act::WriteMem { .. })
}

/// Whether the instruction has a memory line in the stage.
fn has_memory_line_in(instr: &Instr, stage: u32) -> bool
    ensures { result ≡ has_memory_line_in stage instr.now }
{
    let micros = instr.micros.as_slice().iter();
    let mut lines = micros.filter(|m| m.stage == stage);
    lines.any(|m| is_memory_line(m.act))
}

/// Of each instruction whether it has a memory line in the stage.
fn readers_in(alloc: Global, instrs: &[Instr], stage: u32) -> Result<Vec<bool>, AllocError>
    ensures { IfOk result (λ marks. marks.items ≡ map (has_memory_line_in stage) instrs.now) }
{
    instrs
        .iter()
        .map(|instr| has_memory_line_in(instr, stage))
        .collect(alloc)
}

/// The nets of those that are marked.
fn marked(alloc: Global, marks: &[bool], nets: &[Wire]) -> Result<Vec<Wire>, AllocError>
    ensures { IfOk result (λ chosen. chosen.items
        ≡ map net_of (filter (λ p. p.0) (zip marks.now nets.now))) }
{
    marks
        .iter()
        .zip(nets)
        .filter(|(mark, _)| **mark)
        .map(|(_, net)| *net)
        .collect(alloc)
}

/// The conditions of the instructions that have a memory line in the stage.
fn memory_nets(
    alloc: Global,
    design: &Design,
    stage: u32,
    conditions: &[Wire],
) -> Result<Items<Wire>, NoMemory>
    ensures { IfOk result (λ nets. nets ≡ memory_nets design.now stage conditions.now) }
{
    let readers = readers_in(alloc, design.instrs.as_slice(), stage)?;
    let marks = Items::of(readers);
    let nets = marked(alloc, marks.as_slice(), conditions)?;
    Ok(Items::of(nets))
}

/// Whether a valid word that fulfils one of the conditions waits for a memory.
fn waits(out: &mut Builder, mwait: Wire, valid: Wire, conditions: &[Wire]) -> Result<Wire, NoMemory>
    requires fresh { CanFresh out.old }
    requires mwait { IsBit out.old.nets mwait }
    requires valid { IsBit out.old.nets valid }
    requires conditions { Each (IsBit out.old.nets) conditions.now }
    ensures tells { IfOk result (Tells out.new (λ r.
        is_on r mwait && is_on r valid && list_any (is_on r) conditions.now)) }
    ensures gives { IfOk result (Gives (mwait.number ∷ valid.number ∷ numbers conditions.now)
        out.old out.new) }
{
    let waiting = both(out, mwait, valid)?;
    let hit = any_of(out, conditions)?;
    let waits = both(out, waiting, hit)?;
    Ok(waits)
}

/// Nets of which one is 1 where the stage is busy: the busy nets of its units, and whether it waits for a memory.
fn stage_nets(
    out: &mut Builder,
    design: &Design,
    given: &ControlGiven,
    stage: u32,
    valid: Wire,
    conditions: &[Wire],
) -> Result<Items<Wire>, NoMemory>
    requires clean { IsClean design.now }
    requires fresh { CanFresh out.old }
    requires given { IsGiven design.now out.old.nets given.now }
    requires valid { IsBit out.old.nets valid }
    requires conditions { Each (IsBit out.old.nets) conditions.now }
    ensures nets { IfOk result (Each (IsBit out.new.nets)) }
    ensures tells { IfOk result (λ nets. Always out.new (λ r. list_any (is_on r) nets
        ≡ (list_any (is_on r) (unit_nets design.now stage given.now.busy)
        || (is_on r given.now.mwait && is_on r valid
        && list_any (is_on r) (memory_nets design.now stage conditions.now))))) }
    ensures gives { IfOk result (GivesEach (stage_numbers valid conditions.now given.now)
        out.old out.new) }
{
    let alloc = out.allocator();
    let mut nets = unit_nets(alloc, design, stage, given.busy.as_slice())?;
    let readers = memory_nets(alloc, design, stage, conditions)?;
    if readers.is_empty() {
        return Ok(nets);
    }
    let wait = waits(out, given.mwait, valid, readers.as_slice())?;
    nets.push(wait)?;
    Ok(nets)
}

/// Adds nets at the end of a list.
fn add_all(nets: &mut Items<Wire>, more: &[Wire]) -> Result<(), NoMemory>
    ensures { OnOk result (nets.new ≡ nets.old ++ more.now) }
{
    for net in more {
        nets.push(*net)?;
    }
    Ok(())
}

/// Nets of which one is 1 where some stage is busy.
fn busy_nets(
    out: &mut Builder,
    design: &Design,
    given: &ControlGiven,
    valid: &[Wire],
    decoded: &[Items<Wire>],
) -> Result<Items<Wire>, NoMemory>
    requires clean { IsClean design.now }
    requires fresh { CanFresh out.old }
    requires given { IsGiven design.now out.old.nets given.now }
    requires stages { length valid.now ≡ design.now.stages - 1 }
    requires valid { Each (IsBit out.old.nets) valid.now }
    requires decoded { EachPair (AreDecoded design.now out.old) given.now.words decoded.now }
    ensures nets { IfOk result (Each (IsBit out.new.nets)) }
    ensures tells { IfOk result (λ nets. Always out.new (λ r. (look : Look)
        → Sees design.now given.now valid.now r look
        → list_any (is_on r) nets ≡ list_any (λ b. b)
        (map (is_busy design.now look) (range_with_len 1 (design.now.stages - 1))))) }
    ensures gives { IfOk result (GivesEach (busy_numbers valid.now decoded.now given.now)
        out.old out.new) }
{
    clean_is_encoded();
    let mut nets = Items::new(out.allocator());
    for place in 0..valid.len() {
        let stage = place as u32 + 1;
        let conditions = decoded[place].as_slice();
        let more = stage_nets(out, design, given, stage, valid[place], conditions)?;
        add_all(&mut nets, more.as_slice())?;
    }
    Ok(nets)
}

/// Whether the stages are held: all of them are where one is busy.
pub fn hold(
    out: &mut Builder,
    design: &Design,
    given: &ControlGiven,
    valid: &[Wire],
    decoded: &[Items<Wire>],
) -> Result<Wire, NoMemory>
    requires clean { IsClean design.now }
    requires fresh { CanFresh out.old }
    requires given { IsGiven design.now out.old.nets given.now }
    requires stages { length valid.now ≡ design.now.stages - 1 }
    requires valid { Each (IsBit out.old.nets) valid.now }
    requires decoded { EachPair (AreDecoded design.now out.old) given.now.words decoded.now }
    ensures shows { IfOk result (λ w. (stage : ℕ)
        → Shows design.now given.now valid.now out.new (λ look. is_held design.now look stage) w) }
    ensures gives { IfOk result (Gives (busy_numbers valid.now decoded.now given.now)
        out.old out.new) }
{
    let nets = busy_nets(out, design, given, valid, decoded)?;
    let held = any_of(out, nets.as_slice())?;
    Ok(held)
}
