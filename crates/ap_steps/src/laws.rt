//! Laws of the definitions. They do nothing: their contracts are what they say.
ghost use Rattle.ap_steps.specs.Built.{BuiltAreFinished, BuiltCanFinish, BuiltEndNetlists, OutsideLooksForPorts, PortsComeFirst};
ghost use Rattle.ap_steps.specs.Clocked.{RegistersAreClocked};
ghost use Rattle.ap_steps.specs.Intervals.{IntervalsAreFound, IntervalsAreReady, SourcesAreReady};
ghost use Rattle.ap_steps.specs.Known.{KnownRegistersStay, SourcesAreKnown};
ghost use Rattle.ap_steps.specs.PortNumbers.{KnownAreSeen, MemoriesAreLookedAt, PortsAreNumbered};
ghost use Rattle.ap_steps.specs.Steps.{StepsGrow};
ghost use Rattle.ap_steps.specs.TopOrder.{TopsAreReady};

/// A draft that grows in steps has what it had, and the instances of all steps in their order.
pub fn steps_grow()
    ensures { StepsGrow }
{}

/// Where what came in each step is ready in the last draft, every net of it is; and how this is found of a step.
pub fn intervals_are_ready()
    ensures sources { SourcesAreReady }
    ensures found { IntervalsAreFound }
    ensures ready { IntervalsAreReady }
{}

/// A register that took something in a step takes it in each later draft.
pub fn registers_are_clocked()
    ensures { RegistersAreClocked }
{}

/// Where every net is ready by an outside that looks as it is known to for ports and registers that are known, there are no other inputs and
/// no other registers.
pub fn sources_are_known()
    ensures sources { SourcesAreKnown }
    ensures registers { KnownRegistersStay }
{}

/// Ports that were declared first stay first, and an outside looks for ports alone.
pub fn ports_come_first()
    ensures first { PortsComeFirst }
    ensures looks { OutsideLooksForPorts }
{}

/// A module that was built in steps can be finished; then it has the ports of the outside, which looks where it is said to, all its nets are
/// ready, and it ends a netlist after the modules of which it has instances.
pub fn built_modules_are_finished()
    ensures can { BuiltCanFinish }
    ensures finished { BuiltAreFinished }
    ensures netlist { BuiltEndNetlists }
{}

/// In the order in which they follow from each other, all nets of a processor's top are ready.
pub fn tops_are_ready()
    ensures { TopsAreReady }
{}

/// A net with the name of a port is this port. The outside looks for what it gives a memory's port at the one before, and for a known register
/// at nothing.
pub fn ports_are_numbered()
    ensures numbers { PortsAreNumbered }
    ensures memories { MemoriesAreLookedAt }
    ensures seen { KnownAreSeen }
{}
