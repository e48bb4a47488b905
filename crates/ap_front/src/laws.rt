//! Laws of the definitions. They do nothing: their contracts are what they say.
ghost use Rattle.ap_front.specs.Controlling.{BusyGoesOn, ControlGivesBorder, ControlGoesOn, HoldsEachStage, ValidBitsAreNamed};
ghost use Rattle.ap_front.specs.Driven.{FlightsGiveBorder, FlightsGoOn};
ghost use Rattle.ap_front.specs.Fetching.{FetchGivesBorder, FetchGoesOn};
ghost use Rattle.ap_front.specs.Homes.{HomesAreSlots, HomesAreWithin};
ghost use Rattle.ap_front.specs.NewNames.{FrontIsNew, PortsLeaveNames, RegistersLeaveNames, WiresLeaveNames};
ghost use Rattle.ap_front.specs.Opened.{NamesGoOn};
ghost use Rattle.ap_front.specs.PortNames.{PortsAreNew};
ghost use Rattle.ap_front.specs.PortNets.{PortsAreNets};
ghost use Rattle.ap_front.specs.Ready.{ControlStands, FrontGivesControl, OpenCanBeDriven};

/// What was made of the pc stays where the draft grows.
pub fn fetch_goes_on()
    ensures { FetchGoesOn }
{}

/// Where the nets say what control means of them, the pc is what the border asks.
pub fn fetch_gives_the_border()
    ensures { FetchGivesBorder }
{}

/// The names of registers stay where the draft grows.
pub fn names_go_on()
    ensures { NamesGoOn }
{}

/// The registers of flights stay as they are driven where the draft grows.
pub fn flights_go_on()
    ensures { FlightsGoOn }
{}

/// Driven and by their names they are what the border asks.
pub fn flights_give_the_border()
    ensures { FlightsGiveBorder }
{}

/// What control is and shows, and the busy nets that it is given, stay where the draft grows.
pub fn control_goes_on()
    ensures control { ControlGoesOn }
    ensures busy { BusyGoesOn }
{}

/// With the registers of flights control is what the border asks, and each of its nets says of every stage whether it is held.
pub fn control_gives_the_border()
    ensures control { ControlGivesBorder }
    ensures held { HoldsEachStage }
{}

/// All ports of a clean design's `top` can be declared: their names are names of the subset, and no two are one.
pub fn ports_are_new()
    ensures { PortsAreNew }
{}

/// Beside the ports of `top` the names of the pc, of the stages' registers, of registers, files and units are new; so the pc and the stages'
/// registers can be declared. These leave the others new, and so do fresh wires.
pub fn names_are_new()
    ensures ports { PortsLeaveNames }
    ensures front { FrontIsNew }
    ensures registers { RegistersLeaveNames }
    ensures wires { WiresLeaveNames }
{}

/// A declared port is a net at its name, an output is driven later, and ports stay where the draft grows.
pub fn ports_are_nets()
    ensures { PortsAreNets }
{}

/// The valid bits that come with control stand at their names.
pub fn valid_bits_are_named()
    ensures { ValidBitsAreNamed }
{}

/// Registers that are open can be driven by what comes to them; of the front control has what it is given, and then stands as the border asks.
pub fn front_is_ready()
    ensures driven { OpenCanBeDriven }
    ensures given { FrontGivesControl }
    ensures control { ControlStands }
{}

/// The slot that keeps a live local is that of one of its homes, and stands in its stage.
pub fn homes_are_slots()
    ensures slots { HomesAreSlots }
    ensures within { HomesAreWithin }
{}
