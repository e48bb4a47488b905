//! Slot lines that are too near to the lines before them.
ghost use Rattle.std.specs.Prelude.{◌≡◌, ◌<◌, ◌^◌, ℕ, IfErr, IfNone, IfSome, OnOk, length};
ghost use Rattle.std.specs.Bool.{OnFalse, OnTrue};
ghost use Rattle.ap_bits.specs.Beside.{EachBeside};
ghost use Rattle.ap_desc.specs.Clean.{IsClean};
ghost use Rattle.ap_asm.specs.Conflicts.{AreFar, AreWordsApart, HasAsMany, IsNear, IsSlotFault};

use ap_bits::Items;
use ap_desc::design::Design;
use ap_dist::dist;
use ap_program::fault::at;
use ap_program::{AsmFault, AsmKind};

/// Whether a word of a group is nearer to an earlier one than their distance.
fn is_near(design: &Design, words: &[u64], younger: usize) -> bool
    requires clean { IsClean design.now }
    requires within { younger < length words.now }
    ensures near { OnTrue result (IsNear design.now words.now younger) }
    ensures far { OnFalse result (AreFar design.now words.now younger younger) }
{
    for older in 0..younger {
        let distance = dist(design, words[older], words[younger]) as usize;
        let apart = younger - older;
        if distance > apart {
            return true;
        }
    }
    false
}

/// The first word of a group that is too near to an earlier one.
fn first_near(design: &Design, words: &[u64]) -> Option<usize>
    requires { IsClean design.now }
    ensures near { IfSome result (IsNear design.now words.now) }
    ensures within { IfSome result (λ place. place < length words.now) }
    ensures first { IfSome result (λ place. (j : ℕ) → j < place
        → IsNear design.now words.now j → ⊥) }
    ensures far { IfNone result ((j : ℕ) → IsNear design.now words.now j → ⊥) }
{
    for younger in 0..words.len() {
        if is_near(design, words, younger) {
            return Some(younger);
        }
    }
    None
}

/// Finds the first slot line that is too near.
pub(crate) fn check_slots(
    design: &Design,
    words: &[Items<u64>],
    numbers: &[Items<u32>],
) -> Result<(), AsmFault>
    requires clean { IsClean design.now }
    requires beside { EachBeside HasAsMany words.now numbers.now }
    ensures apart { OnOk result (AreWordsApart design.now words.now) }
    ensures near { IfErr result (IsSlotFault design.now words.now numbers.now) }
{
    for (group, here) in words.iter().enumerate() {
        if let Some(place) = first_near(design, here.as_slice()) {
            let group_numbers = numbers[group].as_slice();
            let line = group_numbers[place];
            return Err(at(line, AsmKind::SlotConflict));
        }
    }
    Ok(())
}
