//! Paths, slots and selections of two designs, worked out by hand and computed on the definitions.
ghost use Rattle.std.specs.Prelude.{◌≡◌, [], ◌∷◌, ◌++◌, flat_map, length, map};
ghost use Rattle.ap_desc.specs.declared.design.Arg.TheVariants as arg;
ghost use Rattle.ap_model.specs.Examples.{imm, processor, rd, rs, rt};
ghost use Rattle.ap_path.specs.Uses.{uses_of};
ghost use Rattle.ap_path.specs.declared.table.PathPort.TheVariants as path;
ghost use Rattle.ap_pipe.specs.Live.{live_locals};
ghost use Rattle.ap_pipe.specs.Widths.{falling, slot_widths, widest};
ghost use Rattle.ap_merge.specs.Choices.{sources_of};
ghost use Rattle.path_tests.specs.Examples.{increments, plain_use, six, source};

/// INC hands both its operands to ALU and the sum to R.
fn paths_of_increments()
    ensures { uses_of increments
        ≡ plain_use 1 2 2 (path.Unit 0) (arg.Local 1 ∷ arg.Local 0 ∷ [])
        ∷ plain_use 1 3 2 (path.RegWrite 0) (arg.Local 2 ∷ []) ∷ [] }
{}

/// The lines of ADD, MUL, SLL, ADDI and LD; `sext` and `slice` use no port.
fn paths_of_six()
    ensures { uses_of six
        ≡ plain_use 1 0 1 (path.FileRead 0 0) (rs ∷ [])
        ∷ plain_use 1 1 1 (path.FileRead 0 1) (rt ∷ [])
        ∷ plain_use 1 2 2 (path.Unit 0) (arg.Local 0 ∷ arg.Local 1 ∷ [])
        ∷ plain_use 1 3 3 (path.FileWrite 0 0) (rd ∷ arg.Local 2 ∷ [])
        ∷ plain_use 2 0 1 (path.FileRead 0 0) (rs ∷ [])
        ∷ plain_use 2 1 1 (path.FileRead 0 1) (rt ∷ [])
        ∷ plain_use 2 2 2 (path.Unit 2) (arg.Local 0 ∷ arg.Local 1 ∷ [])
        ∷ plain_use 2 3 3 (path.FileWrite 0 0) (rd ∷ arg.Local 2 ∷ [])
        ∷ plain_use 3 0 1 (path.FileRead 0 0) (rs ∷ [])
        ∷ plain_use 3 1 1 (path.FileRead 0 1) (rt ∷ [])
        ∷ plain_use 3 2 2 (path.Unit 1) (arg.Local 0 ∷ arg.Local 1 ∷ [])
        ∷ plain_use 3 3 3 (path.FileWrite 0 0) (rd ∷ arg.Local 2 ∷ [])
        ∷ plain_use 4 0 1 (path.FileRead 0 0) (rs ∷ [])
        ∷ plain_use 4 2 2 (path.Unit 0) (arg.Local 0 ∷ arg.Local 1 ∷ [])
        ∷ plain_use 4 3 3 (path.FileWrite 0 0) (rd ∷ arg.Local 2 ∷ [])
        ∷ plain_use 5 0 1 (path.FileRead 0 0) (rs ∷ [])
        ∷ plain_use 5 2 2 (path.Unit 0) (arg.Local 0 ∷ arg.Local 1 ∷ [])
        ∷ plain_use 5 4 2 (path.MemRead 0) (arg.Local 3 ∷ [])
        ∷ plain_use 5 5 3 (path.FileWrite 0 0) (rd ∷ arg.Local 4 ∷ []) ∷ [] }
{}

/// The two operands of INC's sum are live into stage 2.
fn slots_of_increments()
    ensures first { slot_widths increments 1 ≡ [] }
    ensures second { slot_widths increments 2 ≡ 8 ∷ 8 ∷ [] }
    ensures locals { map (live_locals increments 2) increments.instrs ≡ [] ∷ (0 ∷ 1 ∷ []) ∷ [] }
{}

/// Two operands are live into stage 2, and what is written into stage 3. ST needs a third slot in stage 2: base, value and offset.
fn slots_of_six()
    ensures first { slot_widths six 1 ≡ [] }
    ensures second { slot_widths six 2 ≡ 16 ∷ 16 ∷ [] }
    ensures third { slot_widths six 3 ≡ 16 ∷ [] }
    ensures whole { slot_widths processor 2 ≡ 16 ∷ 16 ∷ 16 ∷ [] }
    ensures into_second { map (live_locals six 2) six.instrs
        ≡ [] ∷ (0 ∷ 1 ∷ []) ∷ (0 ∷ 1 ∷ []) ∷ (0 ∷ 1 ∷ []) ∷ (0 ∷ 1 ∷ []) ∷ (0 ∷ 1 ∷ []) ∷ [] }
    ensures into_third { map (live_locals six 3) six.instrs
        ≡ [] ∷ (2 ∷ []) ∷ (2 ∷ []) ∷ (2 ∷ []) ∷ (2 ∷ []) ∷ (4 ∷ []) ∷ [] }
{}

/// Widths in falling order, and the greater of two at each place.
fn widest_slots()
    ensures falling { falling (3 ∷ 16 ∷ 1 ∷ 16 ∷ 8 ∷ []) ≡ 16 ∷ 16 ∷ 8 ∷ 3 ∷ 1 ∷ [] }
    ensures widest { widest (16 ∷ 2 ∷ []) (9 ∷ 9 ∷ 1 ∷ []) ≡ 16 ∷ 9 ∷ 1 ∷ [] }
{}

/// What the instructions hand to a read port, to a unit's second operand and to the write port's value.
fn sources_of_six()
    ensures read { sources_of (uses_of six) (path.FileRead 0 0) 0
        ≡ map (λ i. source i rs) (1 ∷ 2 ∷ 3 ∷ 4 ∷ 5 ∷ []) }
    ensures unit { sources_of (uses_of six) (path.Unit 0) 1
        ≡ map (λ i. source i (arg.Local 1)) (1 ∷ 4 ∷ 5 ∷ []) }
    ensures write { sources_of (uses_of six) (path.FileWrite 0 0) 1
        ≡ map (λ i. source i (arg.Local 2)) (1 ∷ 2 ∷ 3 ∷ 4 ∷ []) ++ source 5 (arg.Local 4) ∷ [] }
    ensures memory { sources_of (uses_of six) (path.MemRead 0) 0 ≡ source 5 (arg.Local 3) ∷ [] }
    ensures none { sources_of (uses_of six) (path.MemWrite 0) 0 ≡ [] }
{}
