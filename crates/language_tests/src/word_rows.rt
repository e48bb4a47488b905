//! Worked rows: what the definitions say at the corners. The values on the right are worked out from the table of
//! operations in words, apart from these definitions and from the code.
ghost use Rattle.std.specs.Prelude.{◌≡◌, ◌∷◌, [], map, true, false};
ghost use Rattle.ap_bits.specs.Operations.{sign_extended, unary_value};
ghost use Rattle.ap_bits.specs.Rows.{corners, grid, shifts, turns};
ghost use Rattle.ap_bits.specs.Terms.{term_value};
ghost use Rattle.ap_bits.specs.Cards.{allows, cycles_at, select_width_for};
ghost use Rattle.ap_bits.specs.declared.term.BinOp.TheVariants as two;
ghost use Rattle.ap_bits.specs.declared.term.UnOp.TheVariants as one;
ghost use Rattle.ap_bits.specs.declared.term.Term.{Un, Bin, A, B, Const};
ghost use Rattle.ap_bits.specs.declared.card.Widths.TheVariants.{Any, PowersOfTwo};
ghost use Rattle.ap_bits.specs.declared.card.Latency.TheVariants.{One, WidthPlusOne};

/// Sums and differences, modulo 2^w.
fn adds()
    ensures add_1 { grid two.Add 1 (corners 1) (corners 1) ≡ (0 ∷ 1 ∷ []) ∷ (1 ∷ 0 ∷ []) ∷ [] }
    ensures add_8 { grid two.Add 8 (corners 8) (corners 8)
        ≡ (0 ∷ 1 ∷ 128 ∷ 255 ∷ []) ∷ (1 ∷ 2 ∷ 129 ∷ 0 ∷ []) ∷ (128 ∷ 129 ∷ 0 ∷ 127 ∷ [])
        ∷ (255 ∷ 0 ∷ 127 ∷ 254 ∷ []) ∷ [] }
    ensures add_64 { grid two.Add 64 (corners 64) (corners 64)
        ≡ (0 ∷ 1 ∷ 9223372036854775808 ∷ 18446744073709551615 ∷ [])
        ∷ (1 ∷ 2 ∷ 9223372036854775809 ∷ 0 ∷ [])
        ∷ (9223372036854775808 ∷ 9223372036854775809 ∷ 0 ∷ 9223372036854775807 ∷ [])
        ∷ (18446744073709551615 ∷ 0 ∷ 9223372036854775807 ∷ 18446744073709551614 ∷ []) ∷ [] }
    ensures sub_1 { grid two.Sub 1 (corners 1) (corners 1) ≡ (0 ∷ 1 ∷ []) ∷ (1 ∷ 0 ∷ []) ∷ [] }
    ensures sub_8 { grid two.Sub 8 (corners 8) (corners 8)
        ≡ (0 ∷ 255 ∷ 128 ∷ 1 ∷ []) ∷ (1 ∷ 0 ∷ 129 ∷ 2 ∷ []) ∷ (128 ∷ 127 ∷ 0 ∷ 129 ∷ [])
        ∷ (255 ∷ 254 ∷ 127 ∷ 0 ∷ []) ∷ [] }
    ensures sub_64 { grid two.Sub 64 (corners 64) (corners 64)
        ≡ (0 ∷ 18446744073709551615 ∷ 9223372036854775808 ∷ 1 ∷ [])
        ∷ (1 ∷ 0 ∷ 9223372036854775809 ∷ 2 ∷ [])
        ∷ (9223372036854775808 ∷ 9223372036854775807 ∷ 0 ∷ 9223372036854775809 ∷ [])
        ∷ (18446744073709551615 ∷ 18446744073709551614 ∷ 9223372036854775807 ∷ 0 ∷ []) ∷ [] }
{}

/// Bit by bit.
fn joins()
    ensures and_1 { grid two.And 1 (corners 1) (corners 1) ≡ (0 ∷ 0 ∷ []) ∷ (0 ∷ 1 ∷ []) ∷ [] }
    ensures and_8 { grid two.And 8 (corners 8) (corners 8)
        ≡ (0 ∷ 0 ∷ 0 ∷ 0 ∷ []) ∷ (0 ∷ 1 ∷ 0 ∷ 1 ∷ []) ∷ (0 ∷ 0 ∷ 128 ∷ 128 ∷ [])
        ∷ (0 ∷ 1 ∷ 128 ∷ 255 ∷ []) ∷ [] }
    ensures and_64 { grid two.And 64 (corners 64) (corners 64)
        ≡ (0 ∷ 0 ∷ 0 ∷ 0 ∷ []) ∷ (0 ∷ 1 ∷ 0 ∷ 1 ∷ [])
        ∷ (0 ∷ 0 ∷ 9223372036854775808 ∷ 9223372036854775808 ∷ [])
        ∷ (0 ∷ 1 ∷ 9223372036854775808 ∷ 18446744073709551615 ∷ []) ∷ [] }
    ensures or_1 { grid two.Or 1 (corners 1) (corners 1) ≡ (0 ∷ 1 ∷ []) ∷ (1 ∷ 1 ∷ []) ∷ [] }
    ensures or_8 { grid two.Or 8 (corners 8) (corners 8)
        ≡ (0 ∷ 1 ∷ 128 ∷ 255 ∷ []) ∷ (1 ∷ 1 ∷ 129 ∷ 255 ∷ []) ∷ (128 ∷ 129 ∷ 128 ∷ 255 ∷ [])
        ∷ (255 ∷ 255 ∷ 255 ∷ 255 ∷ []) ∷ [] }
    ensures or_64 { grid two.Or 64 (corners 64) (corners 64)
        ≡ (0 ∷ 1 ∷ 9223372036854775808 ∷ 18446744073709551615 ∷ [])
        ∷ (1 ∷ 1 ∷ 9223372036854775809 ∷ 18446744073709551615 ∷ [])
        ∷ (9223372036854775808 ∷ 9223372036854775809 ∷ 9223372036854775808 ∷ 18446744073709551615
        ∷ []) ∷ (18446744073709551615 ∷ 18446744073709551615 ∷ 18446744073709551615
        ∷ 18446744073709551615 ∷ []) ∷ [] }
    ensures xor_1 { grid two.Xor 1 (corners 1) (corners 1) ≡ (0 ∷ 1 ∷ []) ∷ (1 ∷ 0 ∷ []) ∷ [] }
    ensures xor_8 { grid two.Xor 8 (corners 8) (corners 8)
        ≡ (0 ∷ 1 ∷ 128 ∷ 255 ∷ []) ∷ (1 ∷ 0 ∷ 129 ∷ 254 ∷ []) ∷ (128 ∷ 129 ∷ 0 ∷ 127 ∷ [])
        ∷ (255 ∷ 254 ∷ 127 ∷ 0 ∷ []) ∷ [] }
    ensures xor_64 { grid two.Xor 64 (corners 64) (corners 64)
        ≡ (0 ∷ 1 ∷ 9223372036854775808 ∷ 18446744073709551615 ∷ [])
        ∷ (1 ∷ 0 ∷ 9223372036854775809 ∷ 18446744073709551614 ∷ [])
        ∷ (9223372036854775808 ∷ 9223372036854775809 ∷ 0 ∷ 9223372036854775807 ∷ [])
        ∷ (18446744073709551615 ∷ 18446744073709551614 ∷ 9223372036854775807 ∷ 0 ∷ []) ∷ [] }
{}

/// Comparisons. At 8 bits 128 is -128 and 255 is -1.
fn compares()
    ensures eq_1 { grid two.Eq 1 (corners 1) (corners 1) ≡ (1 ∷ 0 ∷ []) ∷ (0 ∷ 1 ∷ []) ∷ [] }
    ensures eq_8 { grid two.Eq 8 (corners 8) (corners 8)
        ≡ (1 ∷ 0 ∷ 0 ∷ 0 ∷ []) ∷ (0 ∷ 1 ∷ 0 ∷ 0 ∷ []) ∷ (0 ∷ 0 ∷ 1 ∷ 0 ∷ []) ∷ (0 ∷ 0 ∷ 0 ∷ 1 ∷ [])
        ∷ [] }
    ensures eq_64 { grid two.Eq 64 (corners 64) (corners 64)
        ≡ (1 ∷ 0 ∷ 0 ∷ 0 ∷ []) ∷ (0 ∷ 1 ∷ 0 ∷ 0 ∷ []) ∷ (0 ∷ 0 ∷ 1 ∷ 0 ∷ []) ∷ (0 ∷ 0 ∷ 0 ∷ 1 ∷ [])
        ∷ [] }
    ensures ltu_1 { grid two.Ltu 1 (corners 1) (corners 1) ≡ (0 ∷ 1 ∷ []) ∷ (0 ∷ 0 ∷ []) ∷ [] }
    ensures ltu_8 { grid two.Ltu 8 (corners 8) (corners 8)
        ≡ (0 ∷ 1 ∷ 1 ∷ 1 ∷ []) ∷ (0 ∷ 0 ∷ 1 ∷ 1 ∷ []) ∷ (0 ∷ 0 ∷ 0 ∷ 1 ∷ []) ∷ (0 ∷ 0 ∷ 0 ∷ 0 ∷ [])
        ∷ [] }
    ensures ltu_64 { grid two.Ltu 64 (corners 64) (corners 64)
        ≡ (0 ∷ 1 ∷ 1 ∷ 1 ∷ []) ∷ (0 ∷ 0 ∷ 1 ∷ 1 ∷ []) ∷ (0 ∷ 0 ∷ 0 ∷ 1 ∷ []) ∷ (0 ∷ 0 ∷ 0 ∷ 0 ∷ [])
        ∷ [] }
    ensures lts_1 { grid two.Lts 1 (corners 1) (corners 1) ≡ (0 ∷ 0 ∷ []) ∷ (1 ∷ 0 ∷ []) ∷ [] }
    ensures lts_8 { grid two.Lts 8 (corners 8) (corners 8)
        ≡ (0 ∷ 1 ∷ 0 ∷ 0 ∷ []) ∷ (0 ∷ 0 ∷ 0 ∷ 0 ∷ []) ∷ (1 ∷ 1 ∷ 0 ∷ 1 ∷ []) ∷ (1 ∷ 1 ∷ 0 ∷ 0 ∷ [])
        ∷ [] }
    ensures lts_64 { grid two.Lts 64 (corners 64) (corners 64)
        ≡ (0 ∷ 1 ∷ 0 ∷ 0 ∷ []) ∷ (0 ∷ 0 ∷ 0 ∷ 0 ∷ []) ∷ (1 ∷ 1 ∷ 0 ∷ 1 ∷ []) ∷ (1 ∷ 1 ∷ 0 ∷ 0 ∷ [])
        ∷ [] }
{}

/// Both halves of products.
fn multiplies()
    ensures mullo_1 { grid two.Mullo 1 (corners 1) (corners 1) ≡ (0 ∷ 0 ∷ []) ∷ (0 ∷ 1 ∷ []) ∷ [] }
    ensures mullo_8 { grid two.Mullo 8 (corners 8) (corners 8)
        ≡ (0 ∷ 0 ∷ 0 ∷ 0 ∷ []) ∷ (0 ∷ 1 ∷ 128 ∷ 255 ∷ []) ∷ (0 ∷ 128 ∷ 0 ∷ 128 ∷ [])
        ∷ (0 ∷ 255 ∷ 128 ∷ 1 ∷ []) ∷ [] }
    ensures mullo_64 { grid two.Mullo 64 (corners 64) (corners 64)
        ≡ (0 ∷ 0 ∷ 0 ∷ 0 ∷ []) ∷ (0 ∷ 1 ∷ 9223372036854775808 ∷ 18446744073709551615 ∷ [])
        ∷ (0 ∷ 9223372036854775808 ∷ 0 ∷ 9223372036854775808 ∷ [])
        ∷ (0 ∷ 18446744073709551615 ∷ 9223372036854775808 ∷ 1 ∷ []) ∷ [] }
    ensures mulhi_1 { grid two.Mulhi 1 (corners 1) (corners 1) ≡ (0 ∷ 0 ∷ []) ∷ (0 ∷ 0 ∷ []) ∷ [] }
    ensures mulhi_8 { grid two.Mulhi 8 (corners 8) (corners 8)
        ≡ (0 ∷ 0 ∷ 0 ∷ 0 ∷ []) ∷ (0 ∷ 0 ∷ 0 ∷ 0 ∷ []) ∷ (0 ∷ 0 ∷ 64 ∷ 127 ∷ [])
        ∷ (0 ∷ 0 ∷ 127 ∷ 254 ∷ []) ∷ [] }
    ensures mulhi_64 { grid two.Mulhi 64 (corners 64) (corners 64)
        ≡ (0 ∷ 0 ∷ 0 ∷ 0 ∷ []) ∷ (0 ∷ 0 ∷ 0 ∷ 0 ∷ [])
        ∷ (0 ∷ 0 ∷ 4611686018427387904 ∷ 9223372036854775807 ∷ [])
        ∷ (0 ∷ 0 ∷ 9223372036854775807 ∷ 18446744073709551614 ∷ []) ∷ [] }
{}

/// Quotients and remainders; the first column is division by 0.
fn divides()
    ensures divu_1 { grid two.Divu 1 (corners 1) (corners 1) ≡ (1 ∷ 0 ∷ []) ∷ (1 ∷ 1 ∷ []) ∷ [] }
    ensures divu_8 { grid two.Divu 8 (corners 8) (corners 8)
        ≡ (255 ∷ 0 ∷ 0 ∷ 0 ∷ []) ∷ (255 ∷ 1 ∷ 0 ∷ 0 ∷ []) ∷ (255 ∷ 128 ∷ 1 ∷ 0 ∷ [])
        ∷ (255 ∷ 255 ∷ 1 ∷ 1 ∷ []) ∷ [] }
    ensures divu_64 { grid two.Divu 64 (corners 64) (corners 64)
        ≡ (18446744073709551615 ∷ 0 ∷ 0 ∷ 0 ∷ []) ∷ (18446744073709551615 ∷ 1 ∷ 0 ∷ 0 ∷ [])
        ∷ (18446744073709551615 ∷ 9223372036854775808 ∷ 1 ∷ 0 ∷ [])
        ∷ (18446744073709551615 ∷ 18446744073709551615 ∷ 1 ∷ 1 ∷ []) ∷ [] }
    ensures remu_1 { grid two.Remu 1 (corners 1) (corners 1) ≡ (0 ∷ 0 ∷ []) ∷ (1 ∷ 0 ∷ []) ∷ [] }
    ensures remu_8 { grid two.Remu 8 (corners 8) (corners 8)
        ≡ (0 ∷ 0 ∷ 0 ∷ 0 ∷ []) ∷ (1 ∷ 0 ∷ 1 ∷ 1 ∷ []) ∷ (128 ∷ 0 ∷ 0 ∷ 128 ∷ [])
        ∷ (255 ∷ 0 ∷ 127 ∷ 0 ∷ []) ∷ [] }
    ensures remu_64 { grid two.Remu 64 (corners 64) (corners 64)
        ≡ (0 ∷ 0 ∷ 0 ∷ 0 ∷ []) ∷ (1 ∷ 0 ∷ 1 ∷ 1 ∷ [])
        ∷ (9223372036854775808 ∷ 0 ∷ 0 ∷ 9223372036854775808 ∷ [])
        ∷ (18446744073709551615 ∷ 0 ∷ 9223372036854775807 ∷ 0 ∷ []) ∷ [] }
{}

/// Shifts by 0, w - 1, w and more.
fn shifts()
    ensures sll_1 { grid two.Sll 1 (corners 1) (shifts 1) ≡ (0 ∷ 0 ∷ []) ∷ (1 ∷ 0 ∷ []) ∷ [] }
    ensures sll_8 { grid two.Sll 8 (corners 8) (shifts 8)
        ≡ (0 ∷ 0 ∷ 0 ∷ 0 ∷ []) ∷ (1 ∷ 128 ∷ 0 ∷ 0 ∷ []) ∷ (128 ∷ 0 ∷ 0 ∷ 0 ∷ [])
        ∷ (255 ∷ 128 ∷ 0 ∷ 0 ∷ []) ∷ [] }
    ensures sll_64 { grid two.Sll 64 (corners 64) (shifts 64)
        ≡ (0 ∷ 0 ∷ 0 ∷ 0 ∷ []) ∷ (1 ∷ 9223372036854775808 ∷ 0 ∷ 0 ∷ [])
        ∷ (9223372036854775808 ∷ 0 ∷ 0 ∷ 0 ∷ [])
        ∷ (18446744073709551615 ∷ 9223372036854775808 ∷ 0 ∷ 0 ∷ []) ∷ [] }
    ensures srl_1 { grid two.Srl 1 (corners 1) (shifts 1) ≡ (0 ∷ 0 ∷ []) ∷ (1 ∷ 0 ∷ []) ∷ [] }
    ensures srl_8 { grid two.Srl 8 (corners 8) (shifts 8)
        ≡ (0 ∷ 0 ∷ 0 ∷ 0 ∷ []) ∷ (1 ∷ 0 ∷ 0 ∷ 0 ∷ []) ∷ (128 ∷ 1 ∷ 0 ∷ 0 ∷ [])
        ∷ (255 ∷ 1 ∷ 0 ∷ 0 ∷ []) ∷ [] }
    ensures srl_64 { grid two.Srl 64 (corners 64) (shifts 64)
        ≡ (0 ∷ 0 ∷ 0 ∷ 0 ∷ []) ∷ (1 ∷ 0 ∷ 0 ∷ 0 ∷ []) ∷ (9223372036854775808 ∷ 1 ∷ 0 ∷ 0 ∷ [])
        ∷ (18446744073709551615 ∷ 1 ∷ 0 ∷ 0 ∷ []) ∷ [] }
    ensures sra_1 { grid two.Sra 1 (corners 1) (shifts 1) ≡ (0 ∷ 0 ∷ []) ∷ (1 ∷ 1 ∷ []) ∷ [] }
    ensures sra_8 { grid two.Sra 8 (corners 8) (shifts 8)
        ≡ (0 ∷ 0 ∷ 0 ∷ 0 ∷ []) ∷ (1 ∷ 0 ∷ 0 ∷ 0 ∷ []) ∷ (128 ∷ 255 ∷ 255 ∷ 255 ∷ [])
        ∷ (255 ∷ 255 ∷ 255 ∷ 255 ∷ []) ∷ [] }
    ensures sra_64 { grid two.Sra 64 (corners 64) (shifts 64)
        ≡ (0 ∷ 0 ∷ 0 ∷ 0 ∷ []) ∷ (1 ∷ 0 ∷ 0 ∷ 0 ∷ [])
        ∷ (9223372036854775808 ∷ 18446744073709551615 ∷ 18446744073709551615 ∷ 18446744073709551615
        ∷ []) ∷ (18446744073709551615 ∷ 18446744073709551615 ∷ 18446744073709551615
        ∷ 18446744073709551615 ∷ []) ∷ [] }
{}

/// Rotations by 0, w - 1, w and w + 3.
fn rotates()
    ensures rol_1 { grid two.Rol 1 (corners 1) (turns 1) ≡ (0 ∷ 0 ∷ []) ∷ (1 ∷ 1 ∷ []) ∷ [] }
    ensures rol_8 { grid two.Rol 8 (corners 8) (turns 8)
        ≡ (0 ∷ 0 ∷ 0 ∷ 0 ∷ []) ∷ (1 ∷ 128 ∷ 1 ∷ 8 ∷ []) ∷ (128 ∷ 64 ∷ 128 ∷ 4 ∷ [])
        ∷ (255 ∷ 255 ∷ 255 ∷ 255 ∷ []) ∷ [] }
    ensures rol_64 { grid two.Rol 64 (corners 64) (turns 64)
        ≡ (0 ∷ 0 ∷ 0 ∷ 0 ∷ []) ∷ (1 ∷ 9223372036854775808 ∷ 1 ∷ 8 ∷ [])
        ∷ (9223372036854775808 ∷ 4611686018427387904 ∷ 9223372036854775808 ∷ 4 ∷ [])
        ∷ (18446744073709551615 ∷ 18446744073709551615 ∷ 18446744073709551615 ∷ 18446744073709551615
        ∷ []) ∷ [] }
{}

/// Counts of bits, and the value as it is. 150 has the bits 10010110.
#[tactic(auto, unfolding(ap_bits::specs::Operations::ones_among, ap_bits::specs::Operations::zeros_above))]
fn counts()
    ensures pop_1 { map (unary_value one.Pop 1) (0 ∷ 1 ∷ []) ≡ 0 ∷ 1 ∷ [] }
    ensures pop_8 { map (unary_value one.Pop 8) (0 ∷ 1 ∷ 128 ∷ 255 ∷ 150 ∷ [])
        ≡ 0 ∷ 1 ∷ 1 ∷ 8 ∷ 4 ∷ [] }
    ensures pop_64 { map (unary_value one.Pop 64)
        (0 ∷ 1 ∷ 9223372036854775808 ∷ 18446744073709551615 ∷ 5 ∷ []) ≡ 0 ∷ 1 ∷ 1 ∷ 64 ∷ 2 ∷ [] }
    ensures clz_1 { map (unary_value one.Clz 1) (0 ∷ 1 ∷ []) ≡ 1 ∷ 0 ∷ [] }
    ensures clz_8 { map (unary_value one.Clz 8) (0 ∷ 1 ∷ 128 ∷ 255 ∷ 150 ∷ [])
        ≡ 8 ∷ 7 ∷ 0 ∷ 0 ∷ 0 ∷ [] }
    ensures clz_64 { map (unary_value one.Clz 64)
        (0 ∷ 1 ∷ 9223372036854775808 ∷ 18446744073709551615 ∷ 5 ∷ []) ≡ 64 ∷ 63 ∷ 0 ∷ 0 ∷ 61 ∷ [] }
    ensures pass_1 { map (unary_value one.Pass 1) (0 ∷ 1 ∷ []) ≡ 0 ∷ 1 ∷ [] }
    ensures pass_8 { map (unary_value one.Pass 8) (0 ∷ 1 ∷ 128 ∷ 255 ∷ 150 ∷ [])
        ≡ 0 ∷ 1 ∷ 128 ∷ 255 ∷ 150 ∷ [] }
    ensures pass_64 { map (unary_value one.Pass 64)
        (0 ∷ 1 ∷ 9223372036854775808 ∷ 18446744073709551615 ∷ 5 ∷ [])
        ≡ 0 ∷ 1 ∷ 9223372036854775808 ∷ 18446744073709551615 ∷ 5 ∷ [] }
{}

/// The mean of 255 and 3 wraps: the sum is 2 modulo 256. A number in a term is taken modulo 2^w.
#[tactic(auto, using(ap_bits::proofs::TermValues::term_values))]
fn composes()
    ensures avg { term_value (Bin two.Srl (Bin two.Add A B) (Const 1)) 8 255 3 ≡ 1 }
    ensures nand { term_value (Bin two.Xor (Bin two.And A B) (Const 18446744073709551615)) 8 0 5
        ≡ 255 }
    ensures nested { term_value (Un one.Pass (Bin two.Sub A B)) 1 0 1 ≡ 1 }
{}

/// Extensions by the high bit: of one bit, of 6 to 8, of 8 to 64, and to the same width.
fn extends()
    ensures bit { map (λ v. sign_extended v 1 64) (0 ∷ 1 ∷ []) ≡ 0 ∷ 18446744073709551615 ∷ [] }
    ensures six { map (λ v. sign_extended v 6 8) (0 ∷ 31 ∷ 32 ∷ 63 ∷ []) ≡ 0 ∷ 31 ∷ 224 ∷ 255 ∷ [] }
    ensures byte { map (λ v. sign_extended v 8 64) (127 ∷ 128 ∷ 255 ∷ [])
        ≡ 127 ∷ 18446744073709551488 ∷ 18446744073709551615 ∷ [] }
    ensures same { map (λ v. sign_extended v 8 8) (0 ∷ 127 ∷ 128 ∷ 255 ∷ [])
        ≡ 0 ∷ 127 ∷ 128 ∷ 255 ∷ [] }
{}

/// The width of `sel` for 1, 2, 3, 4, 5, 9 and 64 operations, the widths, and the latencies.
fn measures()
    ensures select { map select_width_for (1 ∷ 2 ∷ 3 ∷ 4 ∷ 5 ∷ 9 ∷ 64 ∷ [])
        ≡ 1 ∷ 1 ∷ 2 ∷ 2 ∷ 3 ∷ 4 ∷ 6 ∷ [] }
    ensures any { map (allows Any) (0 ∷ 1 ∷ 3 ∷ 64 ∷ 65 ∷ [])
        ≡ false ∷ true ∷ true ∷ true ∷ false ∷ [] }
    ensures powers { map (allows PowersOfTwo) (0 ∷ 1 ∷ 2 ∷ 3 ∷ 32 ∷ 48 ∷ 64 ∷ 128 ∷ [])
        ≡ false ∷ true ∷ true ∷ false ∷ true ∷ false ∷ true ∷ false ∷ [] }
    ensures latency { map (cycles_at WidthPlusOne) (1 ∷ 8 ∷ 64 ∷ []) ≡ 2 ∷ 9 ∷ 65 ∷ [] }
    ensures single { map (cycles_at One) (1 ∷ 64 ∷ []) ≡ 1 ∷ 1 ∷ [] }
{}
