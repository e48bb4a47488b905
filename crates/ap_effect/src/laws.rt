//! Laws of the definitions. They do nothing: their contracts are what they say.
ghost use Rattle.ap_effect.specs.Border.{PortsGiveBorder, TransferGivesBorder};
ghost use Rattle.ap_effect.specs.Lines.{ChoicesGoOverTransfers, ChoicesGoOverWrites};
ghost use Rattle.ap_effect.specs.Shown.{NetsShowTransfer, PortsShowWrites};
ghost use Rattle.ap_effect.specs.Writers.{PortsGoOn, TransfersGoOn};

use ap_desc::laws::{clean_is_encoded, clean_ports_are_apart};
use ap_model::laws::transfers_have_one_line;

/// What is said of the nets of write ports and of the transfer goes on where a draft grows.
pub fn effects_go_on()
    ensures ports { PortsGoOn }
    ensures transfers { TransfersGoOn }
{}

/// In a clean design, where each writer's condition tells whether the stage's word matches its line's instruction, and its nets have the
/// values of what the line hands in, the nets of a write port show what the border between a cycle and the next asks for: where the stage
/// fires, the write of the word's line; else none.
pub fn ports_show_writes()
    ensures { PortsShowWrites }
{
    clean_is_encoded();
}

/// The same of the transfer, which is shown where the stage has a word.
pub fn nets_show_transfer()
    ensures { NetsShowTransfer }
{
    clean_is_encoded();
    transfers_have_one_line();
}

/// In a clean design the entries of the choice of what is written through a port are what the lines hand in that write through it in its
/// stage, in their order; the entries of the choice of targets are what the transfers hand in. So a choice's selection is one over the
/// writers that are made of these lines.
pub fn choices_go_over_lines()
    ensures writes { ChoicesGoOverWrites }
    ensures transfers { ChoicesGoOverTransfers }
{
    clean_ports_are_apart();
}

/// What write ports show is what the border asks for: nothing is written where the stage's word doesn't go on, or matches no instruction;
/// else what the word's line writes.
pub fn ports_give_the_border()
    ensures { PortsGiveBorder }
{
    ports_show_writes();
}

/// What the transfer shows is what the border asks for, where it is taken unless its stage is held: none is taken where the stage is empty
/// or held, or its word matches no instruction; else that of the word's lines.
pub fn transfer_gives_the_border()
    ensures { TransferGivesBorder }
{
    nets_show_transfer();
}
