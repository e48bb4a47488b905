//! Laws of the definitions. They do nothing: their contracts are what they say.
ghost use Rattle.ap_values.specs.Served.{FlightsNameSlots, ServedStagesAreOf};
ghost use Rattle.ap_values.specs.Values.{InstrsAreByData, LeavesAreByData, TransfersAreByData, WritesAreByData};

use ap_data::laws::stages_have_data;
use ap_desc::laws::{agreeing_patterns_share_words, clean_is_encoded};

/// Each instruction of a stage of the design has its data, by the values that the stage's writes, its transfer and what it leaves have.
pub fn instrs_are_by_data()
    ensures { InstrsAreByData }
{
    stages_have_data();
}

/// What a stage writes, takes and leaves by the values of nets, it does by the values of its data: the address after a word and its slots has
/// its net wherever a line of the stage names it.
pub fn effects_are_by_data()
    ensures writes { WritesAreByData }
    ensures transfer { TransfersAreByData }
    ensures leaves { LeavesAreByData }
{}

/// A stage whose instructions were started over named nets and the slots of first homes, and that its ports then served, is a stage of the
/// design, in each draft that goes on from there.
pub fn served_stages_are_of()
    ensures { ServedStagesAreOf }
{
    clean_is_encoded();
    agreeing_patterns_share_words();
}

/// The slots of a stage in which flights stand have the names of the stage's slots.
pub fn flights_name_slots()
    ensures { FlightsNameSlots }
{}
