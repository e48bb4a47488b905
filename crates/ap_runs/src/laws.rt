//! Laws of the definitions. They do nothing: their contracts are what they say.
ghost use Rattle.ap_runs.specs.FirstPorts.{FirstPortsStay, PortsAreLookedAt};
ghost use Rattle.ap_runs.specs.RunReadings.{RunsAreRead};

/// Each cycle of a finished draft's run is a reading that solves the draft and its parts; in it the nets of top and of all parts
/// have the values that the run has by their names, and each register holds in the next cycle what it took.
pub fn runs_are_read()
    ensures { RunsAreRead }
{}

/// Ports that a draft declares before all else have the same numbers in the finished module. So an outside looks, for what it gives a port,
/// at the ports that the draft says, and at no other net.
pub fn first_ports_stay()
    ensures numbers { FirstPortsStay }
    ensures looks { PortsAreLookedAt }
{}
