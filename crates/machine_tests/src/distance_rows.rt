//! Worked rows: distances of words, computed on the definitions.
ghost use Rattle.std.specs.Prelude.{◌≡◌, [], ◌∷◌};
ghost use Rattle.ap_dist.specs.Distances.{dist_of, out_of};
ghost use Rattle.ap_dist.specs.Examples.{six_stages, with_cells, with_memory, with_register};
ghost use Rattle.ap_dist.specs.Spaced.{IsSpaced};
ghost use Rattle.ap_model.specs.Examples.{code_of, processor};

/// Words of the processor of four stages: ADDI 1 0 5, which writes the cell 1 in stage 3, and ADD 2 1 1, which reads it in stage 1; ADD 2 3 3,
/// which reads another one; a store and a load of one memory, both in stage 2; a load of a cell that is stored; words that match nothing.
fn words_of_the_processor()
    ensures read { dist_of processor 0x2205 0x1448 ≡ 3 }
    ensures turned { dist_of processor 0x1448 0x2205 ≡ 1 }
    ensures other_cell { dist_of processor 0x2205 0x14d8 ≡ 1 }
    ensures store_load { dist_of processor 0x4405 0x3205 ≡ 1 }
    ensures load_store { dist_of processor 0x3405 0x4405 ≡ 3 }
    ensures nothing { dist_of processor 0x2205 0x1 ≡ 1 }
    ensures from_nothing { dist_of processor 0x1 0x1448 ≡ 1 }
    ensures out { out_of processor 0x2201 ≡ 3 }
    ensures out_of_store { out_of processor 0x4405 ≡ 1 }
    ensures out_of_nothing { out_of processor 0x1 ≡ 1 }
{}

/// A register: the write in stage 4 and the read in stage 2; a read in stage 5 and a write in stage 4 or 2; two writes; a guarded write.
fn registers()
    ensures write_read { dist_of (six_stages with_register) 0x1000 0x2000 ≡ 3 }
    ensures read_write { dist_of (six_stages with_register) 0x3000 0x4000 ≡ 3 }
    ensures write_write { dist_of (six_stages with_register) 0x1000 0x4000 ≡ 2 }
    ensures reads { dist_of (six_stages with_register) 0x3000 0x2000 ≡ 1 }
    ensures guarded { dist_of (six_stages with_register) 0x5000 0x2000 ≡ 3 }
{}

/// Cells that are named by fields, by a constant, and by a register; and a word of two pairs, of which the last isn't the greatest.
fn cells()
    ensures same_field { dist_of (six_stages with_cells) 0x1600 0x20c0 ≡ 4 }
    ensures other_field { dist_of (six_stages with_cells) 0x1600 0x2080 ≡ 1 }
    ensures constant { dist_of (six_stages with_cells) 0x3000 0x2140 ≡ 4 }
    ensures other_constant { dist_of (six_stages with_cells) 0x3000 0x2100 ≡ 1 }
    ensures constants { dist_of (six_stages with_cells) 0x3000 0x4000 ≡ 4 }
    ensures computed { dist_of (six_stages with_cells) 0x5000 0x2080 ≡ 4 }
    ensures greatest { dist_of (six_stages with_cells) 0x6600 0x20c0 ≡ 4 }
    ensures other_pair { dist_of (six_stages with_cells) 0x6600 0x6080 ≡ 5 }
    ensures out { out_of (six_stages with_cells) 0x1600 ≡ 4 }
{}

/// A memory: the addresses are fields that differ, and don't count.
fn memories()
    ensures { dist_of (six_stages with_memory) 0x1600 0x2040 ≡ 3 }
{}

/// An image of NOPs is spaced. With two words between, the addition doesn't see what it adds; and a jump to the address 2, with an addition in its
/// slot, needs a drain of more than 0.
fn images()
    ensures nops { IsSpaced processor (code_of []) [] 0 }
    ensures hazard { IsSpaced processor (code_of (0x2205 ∷ 0x0 ∷ 0x1448 ∷ [])) [] 0 → ⊥ }
    ensures drain { IsSpaced processor (code_of (0x6e02 ∷ 0x2201 ∷ 0x14d8 ∷ [])) (2 ∷ []) 0 → ⊥ }
{}
