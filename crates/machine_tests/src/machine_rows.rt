//! Worked rows: what the machines show of small programs, computed on the definitions.
ghost use Rattle.std.specs.Prelude.{◌≡◌, ◌++◌, [], ◌∷◌, replicate};
ghost use Rattle.ap_desc.specs.Shelf.{IsOfCards};
ghost use Rattle.ap_desc.specs.Sound.{IsEncoded, IsSound};
ghost use Rattle.ap_model.specs.Examples.{branch_code, cell, example_cards, input_code, inputs_567, jump_code, kill, log_of_code, logged, no_trace, pass, processor, rows_of_code, run, sampled, stall, two_cells, two_memories, two_ports, two_ports_code, waiting_image, waiting_trace};
ghost use Rattle.ap_model.specs.Landings.{LandsOn, passed, samples};
ghost use Rattle.ap_model.specs.Runnable.{IsRunnable};
ghost use Rattle.ap_model.specs.Sequence.{sequential};
ghost use Rattle.ap_model.specs.ShownRows.{rows_of};

/// The processor's numbers are sound, and its units are of the cards.
pub(crate) fn sound_processor()
    ensures sound { IsSound processor }
    ensures cards { IsOfCards processor example_cards }
    ensures runs { IsRunnable processor example_cards }
    ensures two_ports { IsSound two_ports }
    ensures two_ports_run { IsRunnable two_ports example_cards }
    ensures two_memories { IsSound two_memories }
{}

/// Two additions with two words between: the second one reads what the first has written. With one word between it reads the old
/// value.
fn additions()
    ensures spaced { rows_of_code (0x2205 ∷ 0x0 ∷ 0x0 ∷ 0x1448 ∷ []) 8
        ≡ run ∷ run ∷ run ∷ cell 1 5 ∷ run ∷ run ∷ cell 2 10 ∷ run ∷ [] }
    ensures hazard { rows_of_code (0x2205 ∷ 0x0 ∷ 0x1448 ∷ []) 8
        ≡ run ∷ run ∷ run ∷ cell 1 5 ∷ run ∷ cell 2 0 ∷ run ∷ run ∷ [] }
{}

/// One at a time the second addition reads what the first has written, whatever stands between.
fn additions_in_sequence()
    ensures { log_of_code (0x2205 ∷ 0x0 ∷ 0x0 ∷ 0x1448 ∷ []) 4 ≡ logged 0 1 5 ∷ logged 3 2 10 ∷ [] }
{}

/// A word that matches no instruction does nothing.
fn no_instruction()
    ensures { rows_of_code (0x0001 ∷ []) 6 ≡ replicate 6 run }
{}

/// A multiplication of 16 bits takes 17 cycles: all stages are held for 16 of them, that of the older addition too.
fn multiplication_and_addition()
    ensures { rows_of_code (0x2206 ∷ 0x2407 ∷ 0x0 ∷ 0x2805 ∷ 0x1651 ∷ []) 24
        ≡ run ∷ run ∷ run ∷ cell 1 6 ∷ cell 2 7 ∷ run
        ∷ replicate 16 stall ++ cell 4 5 ∷ cell 3 42 ∷ [] }
{}

/// The same without the addition.
fn multiplication()
    ensures { rows_of_code (0x2206 ∷ 0x2407 ∷ 0x0 ∷ 0x0 ∷ 0x1651 ∷ []) 24
        ≡ run ∷ run ∷ run ∷ cell 1 6 ∷ cell 2 7 ∷ run
        ∷ replicate 16 stall ++ run ∷ cell 3 42 ∷ [] }
{}

/// The product is held past the multiplication's end, while another stage waits for a memory.
fn multiplication_and_wait()
    ensures { rows_of two_memories example_cards waiting_image waiting_trace 29
        ≡ run ∷ run ∷ run ∷ cell 1 6 ∷ cell 2 7 ∷ run
        ∷ replicate 20 stall ++ run ∷ cell 3 42 ∷ cell 4 9 ∷ [] }
{}

/// The younger instruction writes last of two that write one cell in one cycle, and both are shown.
fn two_writes()
    ensures { rows_of two_ports example_cards two_ports_code no_trace 8
        ≡ run ∷ run ∷ run ∷ two_cells 1 5 1 9 ∷ run ∷ run ∷ cell 2 18 ∷ run ∷ [] }
{}

/// A branch that is taken, with one slot: the word in the slot runs, and the word after it is killed.
fn branch_with_slot()
    ensures { rows_of processor example_cards branch_code no_trace 7
        ≡ run ∷ run ∷ kill ∷ run ∷ cell 1 1 ∷ run ∷ cell 3 3 ∷ [] }
{}

/// After address 63 comes address 0: the one instruction of the program runs a second time.
fn wrap()
    ensures { rows_of_code (0x2241 ∷ []) 70
        ≡ run ∷ run ∷ run ∷ cell 1 1 ∷ replicate 63 run ++ cell 1 2 ∷ run ∷ run ∷ [] }
{}

/// A jump with one slot: the word in the slot runs, the word after it is killed while it is being fetched, and the target is fetched in
/// the next cycle. The killed word keeps no number, takes no sample and passes no stage.
fn jump_with_slot()
    ensures rows { rows_of processor example_cards jump_code no_trace 8
        ≡ run ∷ run ∷ kill ∷ cell 7 2 ∷ cell 1 0 ∷ run ∷ cell 3 0 ∷ run ∷ [] }
    ensures samples { samples processor example_cards jump_code no_trace 7
        ≡ sampled 1 0 ∷ sampled 2 0 ∷ [] }
    ensures passed { passed processor example_cards jump_code no_trace 4
        ≡ pass 0 1 ∷ pass 0 2 ∷ pass 1 1 ∷ pass 0 3 ∷ pass 1 2 ∷ [] }
    ensures lands { LandsOn processor example_cards jump_code no_trace 4 (8 ∷ []) }
    ensures misses { LandsOn processor example_cards jump_code no_trace 4 (2 ∷ []) → ⊥ }
    ensures log { (sequential processor example_cards jump_code [] 3).log
        ≡ logged 0 7 2 ∷ logged 1 1 0 ∷ logged 2 3 0 ∷ [] }
{}

/// An input is read in the cycle in which its line fires, and the sample is kept.
fn input_read()
    ensures rows { rows_of processor example_cards input_code inputs_567 5
        ≡ run ∷ run ∷ run ∷ cell 1 7 ∷ run ∷ [] }
    ensures samples { samples processor example_cards input_code inputs_567 5 ≡ sampled 0 7 ∷ [] }
    ensures log { (sequential processor example_cards input_code (sampled 0 7 ∷ []) 1).log
        ≡ logged 0 1 7 ∷ [] }
{}
