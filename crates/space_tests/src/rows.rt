ghost use Rattle.std.specs.Prelude.{◌≡◌, ℕ, [], ◌∷◌};
ghost use Rattle.ap_dist.specs.Spaced.{IsSpaced};
ghost use Rattle.ap_model.specs.Cycles.{over};
ghost use Rattle.ap_model.specs.Examples.{example_cards, logged, no_trace, processor};
ghost use Rattle.ap_model.specs.Landings.{LandsOn};
ghost use Rattle.ap_space.specs.Prefix.{one_at_a_time, passed_entries};
ghost use Rattle.space_tests.specs.Examples.{jump_code, near_code, undrained_code};

/// JAL 7 3 with ADDI 1 0 5 in its slot, and ADD 2 1 1 behind one NOP at 3. After seven cycles the jump and its slot have written; the addition
/// is in stage 2 and hasn't. One at a time, with the six instructions that were fetched and not killed, it has: what the pipeline wrote is
/// what of that was passed, and its beginning. A cycle later all three have written.
pub fn a_jump_writes_the_same()
    ensures spaced { IsSpaced processor jump_code (3 ∷ []) 1 }
    ensures lands { LandsOn processor example_cards jump_code no_trace 7 (3 ∷ []) }
    ensures pipeline { (over processor example_cards jump_code no_trace 7).log
        ≡ logged 0 7 2 ∷ logged 1 1 5 ∷ [] }
    ensures sequence { (one_at_a_time processor example_cards jump_code no_trace 7).log
        ≡ logged 0 7 2 ∷ logged 1 1 5 ∷ logged 3 2 10 ∷ [] }
    ensures passed { passed_entries processor example_cards jump_code no_trace 7
        ≡ logged 0 7 2 ∷ logged 1 1 5 ∷ [] }
    ensures later { (over processor example_cards jump_code no_trace 8).log
        ≡ logged 0 7 2 ∷ logged 1 1 5 ∷ logged 3 2 10 ∷ [] }
{}

/// Words that stand too near each other: the addition reads a cell before what it adds is written there, and writes 0 where it writes 10
/// one at a time.
pub fn near_words_write_another_value()
    ensures near { IsSpaced processor near_code [] 0 → ⊥ }
    ensures pipeline { (over processor example_cards near_code no_trace 5).log
        ≡ logged 0 1 5 ∷ logged 1 2 0 ∷ [] }
    ensures sequence { (one_at_a_time processor example_cards near_code no_trace 5).log
        ≡ logged 0 1 5 ∷ logged 1 2 10 ∷ [] }
{}

/// A landing that doesn't begin with a NOP: the addition there follows the slot at once, and reads too early.
pub fn a_landing_without_nops_writes_another_value()
    ensures undrained { (drain : ℕ) → IsSpaced processor undrained_code (5 ∷ []) drain → ⊥ }
    ensures pipeline { (over processor example_cards undrained_code no_trace 7).log
        ≡ logged 0 7 2 ∷ logged 1 1 5 ∷ logged 2 2 0 ∷ [] }
    ensures sequence { (one_at_a_time processor example_cards undrained_code no_trace 7).log
        ≡ logged 0 7 2 ∷ logged 1 1 5 ∷ logged 2 2 10 ∷ [] }
{}
