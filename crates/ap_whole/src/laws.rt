//! Laws of the definitions. They do nothing: their contracts are what they say.
ghost use Rattle.ap_whole.specs.Handed.{LinesAreWritten, LocalsAreLeft};
ghost use Rattle.ap_whole.specs.Homes.{HomesAreFound};
ghost use Rattle.ap_whole.specs.Whole.{WholeProcessorsRun};

use ap_border::laws::complete_processors_are_the_machine;
use ap_ctl::laws::control_gives_the_border;
use ap_desc::laws::{agreeing_patterns_share_words, clean_is_encoded, clean_ports_are_apart};
use ap_effect::laws::{ports_give_the_border, transfer_gives_the_border};
use ap_flight::laws::slots_take_locals;
use ap_net::readiness::ready_nets_run;
use ap_runs::laws::runs_are_read;

/// Where a finished draft is a whole processor, and each of its nets is ready, it runs on every image, every trace and for every number of
/// cycles; and each of its runs keeps the machine's state before each cycle and shows its rows.
pub fn whole_processors_run()
    ensures { WholeProcessorsRun }
{
    ready_nets_run();
    runs_are_read();
    clean_is_encoded();
    clean_ports_are_apart();
    control_gives_the_border();
    ports_give_the_border();
    transfer_gives_the_border();
    slots_take_locals();
    complete_processors_are_the_machine();
}

/// Where the instructions of a stage have their nets, writers of lines that were made of these write what the lines hand in, and what is left
/// to the homes of the next stage has the values of their locals: by values that are read off the nets.
pub fn instructions_hand_on()
    ensures writes { LinesAreWritten }
    ensures leaves { LocalsAreLeft }
{}

/// In a clean design the slot of a live local's first home is that of a home of it, and one of the stage's.
pub fn homes_are_found()
    ensures { HomesAreFound }
{
    clean_is_encoded();
    agreeing_patterns_share_words();
}
