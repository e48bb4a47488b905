//! Worked rows: what the definitions of flights' registers say of a design of three stages, and of a stage with two slots.
ghost use Rattle.std.specs.Prelude.{◌≡◌, ◌∷◌, [], codes};
ghost use Rattle.ap_flight.specs.Entries.{left_to};
ghost use Rattle.ap_flight.specs.Planned.{register_wires, stage_plan};
ghost use Rattle.flight_tests.specs.Alone.{homes, left, leaving, wire};
ghost use Rattle.flight_tests.specs.Examples.{increments, planned};

/// A word of 8 bits, an address of 4, and a slot for each operand of INC's sum.
fn registers_of_a_stage()
    ensures plan { stage_plan increments 2 (8 ∷ 8 ∷ [])
        ≡ planned (codes "x_2") 8 ∷ planned (codes "a_2") 4
        ∷ planned (codes "l_2_0") 8 ∷ planned (codes "l_2_1") 8 ∷ [] }
    ensures wires { register_wires 7 (stage_plan increments 2 (8 ∷ 8 ∷ []))
        ≡ wire 7 8 ∷ wire 8 4 ∷ wire 9 8 ∷ wire 10 8 ∷ [] }
{}

/// Instructions 0 and 1 leave something to the first slot, 0 and 2 to the second, and none to a third.
fn what_is_left_to_slots()
    ensures first { left_to 0 homes left
        ≡ leaving (wire 3 1) (wire 6 16) ∷ leaving (wire 4 1) (wire 8 12) ∷ [] }
    ensures second { left_to 1 homes left
        ≡ leaving (wire 3 1) (wire 7 8) ∷ leaving (wire 5 1) (wire 9 4) ∷ [] }
    ensures third { left_to 2 homes left ≡ [] }
{}
