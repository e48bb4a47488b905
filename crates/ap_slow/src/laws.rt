//! Laws of the definitions. They do nothing: their contracts are what they say.
ghost use Rattle.ap_slow.specs.Asking.{AskingIsShown};

use ap_desc::laws::clean_is_encoded;

/// In a clean design a net that says whether a stage's word asks a unit, by the conditions that control made for the stage, shows what the
/// border asks of `go`.
pub fn asking_is_shown()
    ensures { AskingIsShown }
{
    clean_is_encoded();
}
