//! Worked rows: what the definitions of control say of cycles of the processor of four stages, whose transfers stand in stage 2 and have
//! one slot.
ghost use Rattle.std.specs.Prelude.{◌≡◌, ◌∷◌, [], length, map, true, false};
ghost use Rattle.ap_model.specs.Examples.{add, bz, inp, jr, nop, processor};
ghost use Rattle.ap_ctl.specs.Decoding.{field_tests, passes, tests_of};
ghost use Rattle.ap_ctl.specs.Given.{slow_units};
ghost use Rattle.ap_ctl.specs.Meaning.{fires, is_busy, is_held, is_killable, kills, next_valid};
ghost use Rattle.ctl_tests.specs.Looks.{branching, multiplying, waiting};

/// ADD has op = 1 and fn = 0, BZ op = 5 and z = 0, JR and INP fix all but rd.
fn fields_are_tests()
    ensures add { tests_of processor add ≡ record { low = 12; width = 4; value = 1 }
        ∷ record { low = 0; width = 3; value = 0 } ∷ [] }
    ensures bz { tests_of processor bz ≡ record { low = 12; width = 4; value = 5 }
        ∷ record { low = 6; width = 3; value = 0 } ∷ [] }
    ensures jr { tests_of processor jr ≡ record { low = 12; width = 4; value = 7 }
        ∷ record { low = 6; width = 3; value = 0 } ∷ record { low = 0; width = 6; value = 0 } ∷ [] }
    ensures nop { length (tests_of processor nop) ≡ 5 }
    ensures units { slow_units processor ≡ 2 ∷ [] }
{}

/// Nine values of op; rd, rs (which is z) and rt at 0; fn at 0, 1 and 2; and the six lowest bits at 0.
fn tests_are_made_once()
    ensures { length (field_tests processor) ≡ 16 }
{}

/// The multiplier holds all stages until it is done: no flight fires, each word stays, and a transfer isn't taken.
#[tactic(auto, unfolding(ap_model::specs::Stalls::has_memory_line, ap_model::specs::Fire::instr_of, ap_model::specs::Stalls::is_held_stage))]
fn a_unit_holds()
    ensures busy { map (is_busy processor multiplying) (1 ∷ 2 ∷ 3 ∷ []) ≡ false ∷ true ∷ false ∷ [] }
    ensures held { map (is_held processor multiplying) (0 ∷ 1 ∷ 2 ∷ 3 ∷ [])
        ≡ true ∷ true ∷ true ∷ true ∷ [] }
    ensures kill { kills processor multiplying ≡ false }
    ensures fires { map (fires processor multiplying) (1 ∷ 2 ∷ 3 ∷ []) ≡ false ∷ false ∷ false ∷ [] }
    ensures next { map (next_valid processor multiplying) (1 ∷ 2 ∷ 3 ∷ []) ≡ true ∷ true ∷ true ∷ [] }
{}

/// LD and ST wait in stage 2, where they use the memory; LD in stage 1 doesn't, nor does ADDI in stage 2.
#[tactic(auto, unfolding(ap_model::specs::Stalls::has_memory_line, ap_model::specs::Fire::instr_of, ap_model::specs::Stalls::is_held_stage))]
fn memory_words_wait()
    ensures load { map (is_busy processor (waiting 0x3240)) (1 ∷ 2 ∷ 3 ∷ [])
        ≡ false ∷ true ∷ false ∷ [] }
    ensures store { is_held processor (waiting 0x4240) 0 ≡ true }
    ensures other { is_held processor (waiting 0x2205) 0 ≡ false }
{}

/// A transfer that is taken kills the word that is fetched; the slot in stage 1 fires and goes on.
#[tactic(auto, unfolding(ap_model::specs::Stalls::has_memory_line, ap_model::specs::Fire::instr_of, ap_model::specs::Stalls::is_held_stage))]
fn the_fetched_word_is_killed()
    ensures killable { map (is_killable processor) (0 ∷ 1 ∷ 2 ∷ 3 ∷ [])
        ≡ true ∷ false ∷ false ∷ false ∷ [] }
    ensures kill { kills processor branching ≡ true }
    ensures fires { map (fires processor branching) (0 ∷ 1 ∷ 2 ∷ 3 ∷ [])
        ≡ false ∷ true ∷ true ∷ true ∷ [] }
    ensures next { map (next_valid processor branching) (1 ∷ 2 ∷ 3 ∷ [])
        ≡ false ∷ true ∷ true ∷ [] }
{}
