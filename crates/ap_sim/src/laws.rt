//! A text is judged in one way.
ghost use Rattle.ap_sim.specs.Laws.{FaultlessAreTaken, OneShapeIsAsked, OpenedNetlistsRun, RunnableAreFaultless};

/// A text whose netlist can be run has no fault; it spells one netlist, which asks for one shape, and a text that is judged by
/// that shape has no fault, or is refused.
pub fn texts_are_judged_in_one_way()
    ensures runnable { RunnableAreFaultless }
    ensures shape { OneShapeIsAsked }
    ensures faultless { FaultlessAreTaken }
{}

/// A netlist that is opened runs on every image and trace that fit its shape, for any number of cycles.
pub fn opened_netlists_run()
    ensures { OpenedNetlistsRun }
{}
