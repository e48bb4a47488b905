//! With what the units of a design are served.
ghost use Rattle.std.specs.Prelude.{◌≡◌, ◌<◌, ◌≤◌, ◌^◌, OnOk, Some, length, option_copied, slice_get};
ghost use Rattle.ap_supply.specs.Listing.{HasQuickModule, HaveQuickModules, IsQuickBy, IsSlowBy, IsUnitEntry, IsUnitNumber, Lists, ServesUnit, WasPlaced, WerePlaced, slow_for, wires_of};

use ap_bits::{Items, NoMemory};
use ap_desc::design::{Design, Unit};
use ap_net::module::Module;
use ap_slow::place::SlowPlaced;
use ap_stages::nodes::{Supplied, Supply};

/// The unit of a place.
fn unit_at(design: &Design, number: usize) -> &Unit
    requires { number < length design.now.units }
    ensures { slice_get design.now.units number ≡ Some result.now }
{
    let units = design.units.as_slice();
    &units[number]
}

/// The unit of several cycles of this number, as it was placed.
fn slow_for<'a>(slow: &'a [SlowPlaced], unit: u32) -> Option<&'a SlowPlaced>
    ensures { option_copied result ≡ slow_for slow.now unit }
{
    slow.iter().find(|x| x.unit == unit)
}

/// The wires over which a unit of several cycles was placed.
fn wires_of(x: &SlowPlaced) -> Supply
    ensures { result ≡ wires_of x.now }
{
    Supply::Slow {
        sel: x.inputs.sel,
        a: x.inputs.a,
        b: x.inputs.b,
        y: x.outputs.y,
    }
}

/// With what a unit of several cycles is served: the wires over which it was placed.
fn slow_supply(slow: &[SlowPlaced], unit: u32) -> Supply
    requires { WasPlaced slow.now unit }
    ensures { IsSlowBy slow.now unit result }
{
    let Some(x) = slow_for(slow, unit) else {
        unreachable!();
    };
    wires_of(x)
}

/// With what a unit of one cycle is served: the place of its module, and the width of the module's first port.
fn quick_supply(modules: &[Module], places: &[usize], number: usize, unit: &Unit) -> Supply
    requires few { length modules.now < 2 ^ 32 }
    requires has { HasQuickModule modules.now places.now number unit.now }
    ensures { IsQuickBy modules.now places.now number unit.now.width result }
{
    let place = places[number];
    let whole = &modules[place];
    let ports = whole.ports();
    Supply::Quick {
        place: place as u32,
        select_width: ports[0].width,
    }
}

/// With what a unit is served.
fn unit_supply(
    design: &Design,
    modules: &[Module],
    places: &[usize],
    slow: &[SlowPlaced],
    number: u32,
) -> Supply
    requires few { length modules.now < 2 ^ 32 }
    requires quick { HaveQuickModules design.now modules.now places.now }
    requires slow { WerePlaced design.now slow.now }
    requires there { number < length design.now.units }
    ensures { ServesUnit design.now modules.now places.now slow.now number result }
{
    let at = number as usize;
    let unit = unit_at(design, at);
    if unit.latency > 1 {
        return slow_supply(slow, number);
    }
    quick_supply(modules, places, at, unit)
}

/// Lists with what the units are served, in their order.
pub(crate) fn list_units(
    design: &Design,
    modules: &[Module],
    places: &[usize],
    slow: &[SlowPlaced],
    made: &mut Items<Supplied>,
) -> Result<(), NoMemory>
    requires few { length modules.now < 2 ^ 32 }
    requires units { length design.now.units ≤ 32 }
    requires quick { HaveQuickModules design.now modules.now places.now }
    requires slow { WerePlaced design.now slow.now }
    ensures { OnOk result (Lists (IsUnitEntry design.now modules.now places.now slow.now)
        (IsUnitNumber (length design.now.units)) made.old made.new) }
{
    for place in 0..design.units.len() {
        let number = place as u32;
        let supply = unit_supply(design, modules, places, slow, number);
        made.push(Supplied { number, supply })?;
    }
    Ok(())
}
