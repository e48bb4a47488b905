//! Units of several cycles: instances over wires that are driven later.
ghost use Rattle.std.specs.Prelude.{◌≡◌, ◌∷◌, [], IfOk, codes, nat_lt};
ghost use Rattle.ap_desc.specs.Clean.{IsClean};
ghost use Rattle.ap_net.specs.Draft.{CanFresh, names_of};
ghost use Rattle.ap_net.specs.Names.{IsNew};
ghost use Rattle.ap_signals.specs.NetRuns.{unit_part};
ghost use Rattle.ap_unit.specs.Slow.{input_nets};
ghost use Rattle.ap_ctl.specs.Given.{slow_units};
ghost use Rattle.ap_slow.specs.Placed.{AreNewParts, DeclaresLate, HasModule, HasSlowPorts, HaveModules, IsFit, PlacesOwn, PlacesUnit, PlacesUnits};

use ap_bits::{Items, NoMemory};
use ap_desc::design::{Design, Unit};
use ap_net::builder::Builder;
use ap_net::module::Module;
use ap_unit::slow::{SlowInputs, SlowOutputs, place_slow};

/// A unit of several cycles that was placed: the wires that reach it are driven later, what it shows is known.
#[derive(Clone, Copy, Debug, PartialEq, Eq)]
pub struct SlowPlaced {
    /// The number of the unit.
    pub unit: u32,
    pub inputs: SlowInputs,
    pub outputs: SlowOutputs,
}

/// Wires for the inputs of a unit with so many bits of `sel` and of the operands.
fn late_inputs(out: &mut Builder, select: u32, width: u32) -> Result<SlowInputs, NoMemory>
    requires fresh { CanFresh out.old }
    requires select { IsFit select }
    requires width { IsFit width }
    ensures { IfOk result (λ i.
        DeclaresLate (select ∷ width ∷ width ∷ 1 ∷ 1 ∷ []) (input_nets i) out.old out.new) }
{
    let sel = out.late(select)?;
    let a = out.late(width)?;
    let b = out.late(width)?;
    let go = out.late(1)?;
    let adv = out.late(1)?;
    Ok(SlowInputs { sel, a, b, go, adv })
}

/// Places a unit of several cycles: an instance of its module, named `u_` and the unit's name, over wires that are driven later. After an
/// error the builder is good for nothing but to be dropped.
fn place_unit(
    out: &mut Builder,
    number: u32,
    unit: &Unit,
    whole: &Module,
) -> Result<SlowPlaced, NoMemory>
    requires top { out.old.name ≡ codes "top" }
    requires fresh { CanFresh out.old }
    requires name { IsNew (unit_part unit.now) (names_of out.old) }
    requires has { HasSlowPorts unit.now whole.now }
    ensures number { IfOk result (λ made. made.unit ≡ number) }
    ensures places { IfOk result (λ made.
        PlacesUnit unit.now whole.now made out.old out.new) }
{
    whole.rules();
    let alloc = out.allocator();
    let name = format!(in alloc; "u_{}", unit.name.as_str())?;
    let ports = whole.ports();
    let select = ports[0].width;
    let inputs = late_inputs(out, select, unit.width)?;
    let outputs = place_slow(out, name.as_bytes(), whole, inputs)?;
    Ok(SlowPlaced {
        unit: number,
        inputs,
        outputs,
    })
}

/// Places a unit of several cycles as an instance of the module at its place.
fn place_own(
    out: &mut Builder,
    number: u32,
    unit: &Unit,
    modules: &[Module],
    places: &[usize],
) -> Result<SlowPlaced, NoMemory>
    requires top { out.old.name ≡ codes "top" }
    requires fresh { CanFresh out.old }
    requires name { IsNew (unit_part unit.now) (names_of out.old) }
    requires has { HasModule modules.now places.now number unit.now }
    ensures number { IfOk result (λ made. made.unit ≡ number) }
    ensures places { IfOk result (λ made.
        PlacesOwn modules.now places.now number unit.now made out.old out.new) }
{
    let at = number as usize;
    let place = places[at];
    let whole = &modules[place];
    let placed = place_unit(out, number, unit, whole)?;
    Ok(placed)
}

/// Whether the unit takes several cycles.
fn is_slow(unit: &Unit) -> bool
    ensures { result ≡ nat_lt 1 unit.now.latency }
{
    unit.latency > 1
}

/// Places each unit that takes several cycles, in the order of their declaration: an instance of the module at its place, over wires that
/// are driven later. After an error the builder is good for nothing but to be dropped.
pub fn place_slow_units(
    out: &mut Builder,
    design: &Design,
    modules: &[Module],
    places: &[usize],
) -> Result<Items<SlowPlaced>, NoMemory>
    requires top { out.old.name ≡ codes "top" }
    requires fresh { CanFresh out.old }
    requires clean { IsClean design.now }
    requires modules { HaveModules design.now modules.now places.now }
    requires names { AreNewParts design.now out.old }
    ensures { IfOk result (λ made.
        PlacesUnits design.now modules.now places.now (slow_units design.now) made out.old out.new) }
{
    let mut made = Items::new(out.allocator());
    for (number, unit) in design.units.as_slice().iter().enumerate() {
        if is_slow(unit) {
            let placed = place_own(out, number as u32, unit, modules, places)?;
            made.push(placed)?;
        }
    }
    Ok(made)
}
