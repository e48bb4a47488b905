//! Laws of reading. They do nothing: their contracts are what they say.
ghost use Rattle.std.specs.Prelude.{◌≤◌, ℕ, List, length};
ghost use Rattle.ap_desc.specs.Descriptions.{IsDescription};
ghost use Rattle.ap_desc.specs.Faults.{IsWellFormed};
ghost use Rattle.ap_desc.specs.Limits.{description_limit};
ghost use Rattle.ap_desc.specs.Reading.{ReadsAs};
ghost use Rattle.ap_desc.specs.declared.description.Numbered.{Numbered};

use ap_desc::laws::spelling_is_unique;

/// A text within the limit that reads as a description has no fault of form.
pub fn descriptions_are_faultless()
    ensures { (text : List ℕ) (statements : List Numbered) → length text ≤ description_limit
        → IsDescription statements → ReadsAs text statements → IsWellFormed text }
{
    spelling_is_unique();
}
