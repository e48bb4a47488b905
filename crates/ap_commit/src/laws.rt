//! Laws of the definitions. They do nothing: their contracts are what they say.
ghost use Rattle.ap_commit.specs.Standing.{JoinedPortsShow, LeavingStands, TransferStands, WritesStand};
ghost use Rattle.ap_commit.specs.Widths.{TransferLinesFit, WriteLinesFit};

use ap_whole::laws::instructions_hand_on;

/// The lines of a sound design that write through a port hand in what has the bits of the port, and the transfers what has those of the pc,
/// where courses have the scopes of their instructions.
pub fn lines_fit_ports()
    ensures writes { WriteLinesFit }
    ensures transfers { TransferLinesFit }
{}

/// Ports that were joined to the nets of a write show them.
pub fn joined_ports_show()
    ensures { JoinedPortsShow }
{}

/// The nets that were made for a write port and for the transfer of a stage are, in a later draft that shows them, what a whole processor
/// has of its writes and its transfer.
pub fn effects_stand()
    ensures writes { WritesStand }
    ensures transfer { TransferStands }
{
    instructions_hand_on();
}

/// What the instructions leave to the homes of the next stage are, where its registers take it, the locals that a whole processor passes on.
pub fn leaving_stands()
    ensures { LeavingStands }
{
    instructions_hand_on();
}
