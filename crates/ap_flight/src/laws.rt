//! Laws of the definitions. They do nothing: their contracts are what they say.
ghost use Rattle.ap_flight.specs.Locals.{RegistersPassOn, SlotsTakeLive};

use ap_desc::laws::clean_is_encoded;

/// In a clean design a slot takes the local whose home it is, of the instruction that comes to its stage.
pub fn slots_take_locals()
    ensures { SlotsTakeLive }
{
    clean_is_encoded();
}

/// A register that passes on stays where its stage is held, and else takes what comes.
pub fn registers_pass_on()
    ensures { RegistersPassOn }
{}
