ghost use Rattle.ap_ctl.specs.Border.{ControlGivesBorder};
ghost use Rattle.ap_ctl.specs.Decoding.{MatchesByFields, field_tests, NoneTwice};
ghost use Rattle.ap_desc.specs.declared.design.Design.{Design};

use ap_desc::laws::clean_is_encoded;

/// In a clean design a word matches an instruction exactly where each field that the instruction fixes has its value.
pub fn words_match_by_fields()
    ensures { MatchesByFields }
{
    clean_is_encoded();
}

/// No test of a field is made twice.
pub fn tests_are_shared()
    ensures { (design : Design) → NoneTwice (field_tests design) }
{}

/// What control means is what the border between a cycle and what it stores asks of it: which stages are held, where no
/// transfer is taken, which flights go on, the valid bits of the next cycle, and what the pc takes.
pub fn control_gives_the_border()
    ensures { ControlGivesBorder }
{}
