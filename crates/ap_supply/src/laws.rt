//! Laws of the definitions. They do nothing: their contracts are what they say.
ghost use Rattle.ap_supply.specs.Apart.{SuppliesAreApart};
ghost use Rattle.ap_supply.specs.Listing.{SlowWerePlaced};
ghost use Rattle.ap_supply.specs.Supplies.{EntriesAreSupplies};

/// Where each entry of a list is for the node of its number, what is found there for a node is of the node.
pub fn entries_are_supplies()
    ensures { EntriesAreSupplies }
{}

/// Where the units of several cycles were placed in the order of their declaration, each of them was.
pub fn slow_units_were_placed()
    ensures { SlowWerePlaced }
{}

/// Where no two of the wires that are driven for what was placed are one, no wire reaches two nodes.
pub fn supplies_are_apart()
    ensures { SuppliesAreApart }
{}
