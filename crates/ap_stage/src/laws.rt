//! Laws of the definitions. They do nothing: their contracts are what they say.
ghost use Rattle.ap_stage.specs.Resting.{LateWiresLeave, RestedAreReady};
ghost use Rattle.ap_stage.specs.Shown.{LinesAreShown, PortsAreShown};

/// In a reading in which the condition of one instruction alone is 1, each port that serves shows what this instruction asks of it and gets
/// from it; and the local of each line without a port has the value that the line gives.
pub fn stages_are_shown()
    ensures ports { PortsAreShown }
    ensures lines { LinesAreShown }
{}

/// The wires that a stage drives leave what is pending; where nothing is pending, every net is ready.
pub fn late_wires_leave()
    ensures leave { LateWiresLeave }
    ensures ready { RestedAreReady }
{}
