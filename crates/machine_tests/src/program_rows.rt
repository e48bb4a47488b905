//! Worked rows: where small programs stand, computed on the definitions.
ghost use Rattle.std.specs.Prelude.{◌≡◌, [], ◌∷◌, true, false};
ghost use Rattle.ap_dist.specs.LeastStarts.{AreLeastStarts, drain_of};
ghost use Rattle.ap_dist.specs.Places.{ArePlaces, end_before, is_landing, operand_value};
ghost use Rattle.ap_dist.specs.Programs.{jump_over_nothing, two_additions};
ghost use Rattle.ap_dist.specs.declared.source.Operand.TheVariants as operand;
ghost use Rattle.ap_model.specs.Examples.{code_of, processor};

/// The second addition reads what the first one writes, so it stands three places behind it, and neither two nor four.
fn two_additions_are_placed()
    ensures drain { drain_of processor two_additions ≡ 0 }
    ensures least { AreLeastStarts processor two_additions (0 ∷ 3 ∷ [])
        (code_of (0x2205 ∷ 0x0 ∷ 0x0 ∷ 0x1448 ∷ [])) 0 }
    ensures early { AreLeastStarts processor two_additions (0 ∷ 2 ∷ [])
        (code_of (0x2205 ∷ 0x0 ∷ 0x1448 ∷ [])) 0 → ⊥ }
    ensures late { AreLeastStarts processor two_additions (0 ∷ 4 ∷ [])
        (code_of (0x2205 ∷ 0x0 ∷ 0x0 ∷ 0x0 ∷ 0x1448 ∷ [])) 0 → ⊥ }
    ensures places { ArePlaces processor two_additions (0 ∷ 3 ∷ [])
        (code_of (0x2205 ∷ 0x0 ∷ 0x0 ∷ 0x1448 ∷ [])) [] }
{}

/// The jump and its slot take two places, and end where the label stands. What the slot writes is there three places behind it, and a word
/// at the landing comes two places behind it, so a NOP stands there first.
fn a_jump_is_placed()
    ensures drain { drain_of processor jump_over_nothing ≡ 1 }
    ensures landing { end_before processor jump_over_nothing (0 ∷ 3 ∷ []) 1 ≡ 2 }
    ensures labelled { is_landing processor jump_over_nothing 1 ≡ true }
    ensures before { is_landing processor jump_over_nothing 0 ≡ false }
    ensures behind { is_landing processor jump_over_nothing 2 ≡ false }
    ensures value { operand_value processor jump_over_nothing (0 ∷ 3 ∷ []) (operand.Landing 1) ≡ 2 }
    ensures least { AreLeastStarts processor jump_over_nothing (0 ∷ 3 ∷ [])
        (code_of (0x6e02 ∷ 0x2201 ∷ 0x0 ∷ 0x14d8 ∷ [])) 1 }
    ensures undrained { AreLeastStarts processor jump_over_nothing (0 ∷ 2 ∷ [])
        (code_of (0x6e02 ∷ 0x2201 ∷ 0x14d8 ∷ [])) 1 → ⊥ }
{}
