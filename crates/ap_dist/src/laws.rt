//! Laws of the definitions. They do nothing: their contracts are what they say.
ghost use Rattle.std.specs.Prelude.{◌≡◌, ◌+◌, ◌≤◌, ◌<◌, ℕ, IsTrue, true, false, Contains};
ghost use Rattle.ap_desc.specs.Clean.{IsClean};
ghost use Rattle.ap_desc.specs.declared.design.Design.{Design};
ghost use Rattle.ap_dist.specs.Accesses.{accesses_of};
ghost use Rattle.ap_dist.specs.Distances.{dist_of, do_conflict, out_of};
ghost use Rattle.ap_dist.specs.Spaced.{is_nop_word};
ghost use Rattle.ap_dist.specs.Touches.{touches};
ghost use Rattle.ap_dist.specs.declared.access.Access.{Access};
ghost use Rattle.ap_model.specs.declared.storage.Storage.{Storage};

use ap_desc::laws::clean_is_encoded;

/// Two accesses that may touch one storage conflict.
pub fn touching_is_conflict()
    ensures { (a b : Access) (storage : Storage) → IsTrue (touches a storage)
        → IsTrue (touches b storage) → IsTrue (do_conflict a b) }
{}

/// Every two accesses in conflict are kept apart by the distance of their words: a read comes at least a cycle after the write, and a
/// write not before an older read or write.
pub fn conflicts_are_kept_apart()
    ensures write_read { (design : Design) (x y : ℕ) (a b : Access)
        → Contains (accesses_of design x) a → Contains (accesses_of design y) b
        → IsTrue (do_conflict a b) → a.writes ≡ true → b.writes ≡ false
        → a.stage + 1 ≤ b.stage + dist_of design x y }
    ensures read_write { (design : Design) (x y : ℕ) (a b : Access)
        → Contains (accesses_of design x) a → Contains (accesses_of design y) b
        → IsTrue (do_conflict a b) → b.writes ≡ true
        → a.stage ≤ b.stage + dist_of design x y }
{}

/// A distance is from 1 to one less than the number of stages, and is at most the greatest of its older word's instruction. That of a word
/// without accesses is 1, as that of a NOP.
pub fn distances_are_bounded()
    ensures low { (design : Design) (x y : ℕ) → 1 ≤ dist_of design x y }
    ensures high { (design : Design) → IsClean design
        → (x y : ℕ) → dist_of design x y < design.stages }
    ensures out { (design : Design) (x y : ℕ) → dist_of design x y ≤ out_of design x }
    ensures out_low { (design : Design) (x : ℕ) → 1 ≤ out_of design x }
    ensures out_high { (design : Design) → IsClean design
        → (x : ℕ) → out_of design x < design.stages }
    ensures nop { (design : Design) → IsClean design → (x y : ℕ) → IsTrue (is_nop_word design y)
        → dist_of design x y ≡ 1 }
{
    clean_is_encoded();
}
