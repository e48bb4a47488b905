ghost use Rattle.ap_net.specs.Readings.{FactsGoOn};
ghost use Rattle.ap_net.specs.Depends.{WalksMissThem};
ghost use Rattle.ap_net.specs.Pending.{Accounts};
ghost use Rattle.ap_net.specs.Responding.{DependOnAll, DependOnNeeded, ReadyHaveOrders, ReadyRespond, ReadyAreDriven, ReadyAreOrdered};
ghost use Rattle.ap_net.specs.Answering.{CyclesRun, ReadyRun};

/// What holds in every reading that solves a draft holds of each draft that it grows to.
pub fn facts_go_on()
    ensures { FactsGoOn }
{}

/// Dependence is what walks through the assigns show: from a net that depends on none of some others no walk leads to one
/// of them.
#[tactic(auto, using(crate::proofs::Walked::walked))]
pub fn walks_miss_them()
    ensures { WalksMissThem }
{}

/// A module may depend on all its inputs, and depends as it may where each output depends on none of those inputs on which
/// it may not.
pub fn modules_depend()
    ensures all { DependOnAll }
    ensures needed { DependOnNeeded }
{}

/// A builder keeps account of the nets that are to come.
pub fn pending_nets_are_accounted()
    ensures { Accounts }
{}

/// Where every net of a draft is ready, its wires and outputs have their drivers.
pub fn ready_nets_are_driven()
    ensures { ReadyAreDriven }
{}

/// No net depends on itself then: there is an order of the nets of top and of all instances, and one of a module without
/// instances.
pub fn ready_nets_have_orders()
    ensures whole { ReadyHaveOrders }
    ensures alone { ReadyAreOrdered }
{}

/// And the netlist has a solution for every outside that looks where it is said to.
pub fn ready_nets_respond()
    ensures { ReadyRespond }
{}

/// So a netlist that has the ports of an outside runs on every image and trace, for any number of cycles.
pub fn ready_nets_run()
    ensures cycles { CyclesRun }
    ensures runs { ReadyRun }
{}
