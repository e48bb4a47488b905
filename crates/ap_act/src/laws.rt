//! Laws of the definitions. They do nothing: their contracts are what they say.
ghost use Rattle.ap_act.specs.Apart.{OutputsAreFree, PortsAreApart};
ghost use Rattle.ap_act.specs.Follow.{OutputsAreNamed, TransferIsMade, TransferIsReady, WritesAreMade, WritesAreReady};
ghost use Rattle.ap_act.specs.Serving.{StagesCanAct};

use ap_commit::laws::{effects_stand, joined_ports_show};

/// The outputs of all ports through which lines of a clean design write have their names and their bits.
pub fn outputs_are_named()
    ensures { OutputsAreNamed }
{}

/// No two ports of a clean design's `top` are one net; so the outputs that show writes can be driven where each is driven later.
pub fn ports_are_apart()
    ensures ports { PortsAreApart }
    ensures outputs { OutputsAreFree }
{}

/// All that the lines of a stage that was served write or transfer by has nets.
pub fn stages_can_act()
    ensures { StagesCanAct }
{}

/// In each later draft a whole processor has the writes and the transfer that were made.
pub fn acts_are_made()
    ensures writes { WritesAreMade }
    ensures transfer { TransferIsMade }
{
    effects_stand();
    joined_ports_show();
}

/// What came with them, the outputs and the wire that says that the transfer is taken follow from what fires or has a word and from the
/// nets of the instructions; and each draft grows from the one before.
pub fn acts_follow()
    ensures writes { WritesAreReady }
    ensures transfer { TransferIsReady }
{}
