//! Units that take one cycle and that no line uses: instances over nets that are always 0.
ghost use Rattle.std.specs.Prelude.{◌≡◌, Some, IfOk, OnOk, codes, slice_get};
ghost use Rattle.ap_desc.specs.Clean.{IsClean};
ghost use Rattle.ap_net.specs.Draft.{CanFresh, names_of};
ghost use Rattle.ap_net.specs.Names.{IsNew};
ghost use Rattle.ap_signals.specs.NetRuns.{unit_part};
ghost use Rattle.ap_rest.specs.Idle.{AreNewIdle, HasQuickModule, HasQuickPorts, HaveQuickModules, IdlesUnits, PlacesIdle, PlacesOwn, idle_units, is_idle};

use crate::uses::is_port_used;
use ap_bank::files::zero;
use ap_bits::NoMemory;
use ap_desc::design::{Design, Unit};
use ap_net::builder::Builder;
use ap_net::module::Module;
use ap_path::PathPort;
use ap_stage::place::place_quick;

/// Whether the unit takes one cycle and no line uses it.
fn is_idle(design: &Design, number: u32, unit: &Unit) -> bool
    requires { slice_get design.now.units number ≡ Some unit.now }
    ensures { result ≡ is_idle design.now number }
{
    let used = is_port_used(design, PathPort::Unit(number));
    unit.latency <= 1 && !used
}

/// Places a unit that takes one cycle: an instance of its module, named `u_` and the unit's name, over nets that are always 0. After an
/// error the builder is good for nothing but to be dropped.
fn place_idle(out: &mut Builder, unit: &Unit, whole: &Module) -> Result<(), NoMemory>
    requires top { out.old.name ≡ codes "top" }
    requires fresh { CanFresh out.old }
    requires name { IsNew (unit_part unit.now) (names_of out.old) }
    requires has { HasQuickPorts unit.now whole.now }
    ensures { OnOk result (PlacesIdle unit.now whole.now out.old out.new) }
{
    whole.rules();
    let alloc = out.allocator();
    let name = format!(in alloc; "u_{}", unit.name.as_str())?;
    let ports = whole.ports();
    let select = ports[0].width;
    let sel = zero(out, select)?;
    let operand = zero(out, unit.width)?;
    place_quick(out, name.as_bytes(), whole, sel, operand, operand)?;
    Ok(())
}

/// Places a unit that takes one cycle as an instance of the module at its place.
fn place_own(
    out: &mut Builder,
    number: u32,
    unit: &Unit,
    modules: &[Module],
    places: &[usize],
) -> Result<(), NoMemory>
    requires top { out.old.name ≡ codes "top" }
    requires fresh { CanFresh out.old }
    requires name { IsNew (unit_part unit.now) (names_of out.old) }
    requires has { HasQuickModule modules.now places.now number unit.now }
    ensures { OnOk result
        (PlacesOwn modules.now places.now number unit.now out.old out.new) }
{
    let at = number as usize;
    let place = places[at];
    let whole = &modules[place];
    place_idle(out, unit, whole)?;
    Ok(())
}

/// Places each unit that takes one cycle and that no line uses, in the order of their declaration: an instance of the module at its place,
/// over nets that are always 0. After an error the builder is good for nothing but to be dropped.
pub fn idle_units(
    out: &mut Builder,
    design: &Design,
    modules: &[Module],
    places: &[usize],
) -> Result<(), NoMemory>
    requires top { out.old.name ≡ codes "top" }
    requires fresh { CanFresh out.old }
    requires clean { IsClean design.now }
    requires modules { HaveQuickModules design.now modules.now places.now }
    requires names { AreNewIdle design.now out.old }
    ensures { OnOk result
        (IdlesUnits design.now modules.now places.now (idle_units design.now) out.old out.new) }
{
    for (number, unit) in design.units.as_slice().iter().enumerate() {
        if is_idle(design, number as u32, unit) {
            place_own(out, number as u32, unit, modules, places)?;
        }
    }
    Ok(())
}
