//! Laws of the definitions. They do nothing: their contracts are what they say.
ghost use Rattle.ap_asked.specs.Served.{KnownHaveModules, PlacedAreServed, ServedUnitsAreJoined, ServedUnitsGiveBorder, ServedUnitsGiveBusy, ServedUnitsShowBusy};

use ap_slow::laws::asking_is_shown;

/// The modules that a top knows are those that its units want, and units that were placed over them and driven are served in each later draft.
pub fn units_are_served()
    ensures modules { KnownHaveModules }
    ensures served { PlacedAreServed }
{}

/// Over any modules that have the design's parts served units are what the border asks: a unit in the stage that uses it, its busy net, and the
/// wires of the stage's port.
pub fn served_units_give_the_border()
    ensures units { ServedUnitsGiveBorder }
    ensures busy { ServedUnitsShowBusy }
    ensures all { ServedUnitsGiveBusy }
    ensures joined { ServedUnitsAreJoined }
{
    asking_is_shown();
}
