//! Laws of the definitions. They do nothing: their contracts are what they say.
ghost use Rattle.ap_data.specs.Operands.{OperandsAreNets};
ghost use Rattle.ap_data.specs.Slots.{SlotsStand};
ghost use Rattle.ap_data.specs.Stage.{StagesHaveData};
ghost use Rattle.ap_data.specs.Units.{UnitsAreAsked};

use ap_desc::laws::clean_is_encoded;
use ap_stage::laws::stages_are_shown;

/// A stage whose instructions are those of a design, each with a net for each local that its lines make, and whose ports are those of the
/// design, has the data that the border asks for: a value for each operand, which meets the equation of each line where the stage's word
/// matches the instruction.
pub fn stages_have_data()
    ensures { StagesHaveData }
{
    clean_is_encoded();
    stages_are_shown();
}

/// In such a stage a unit of several cycles that an instruction asks is asked what the instruction's line asks, and the line's local has its
/// result.
pub fn units_are_asked()
    ensures { UnitsAreAsked }
{
    clean_is_encoded();
    stages_are_shown();
}

/// The net of an operand that a line of the stage names has always the operand's value, also where this is the address after the word and its
/// slots.
pub fn operands_are_nets()
    ensures { OperandsAreNets }
{}

/// A local that had the net of its slot at the start of the stage is the low bits of the slot's register once the ports are served.
pub fn slots_stand()
    ensures { SlotsStand }
{}
