//! Worked rows of what the laws speak of: patterns, the bits of an index, and a description line by line.
ghost use Rattle.std.specs.Prelude.{◌≡◌, [], ◌∷◌, codes};
ghost use Rattle.ap_desc.specs.Designs.{index_bits};
ghost use Rattle.ap_desc.specs.Examples.{adder_fields, adder_instr};
ghost use Rattle.ap_desc.specs.FlowExamples.{other_pattern, wide_pattern};
ghost use Rattle.ap_desc.specs.Patterns.{Agree, LiesInWord};
ghost use Rattle.ap_desc.specs.LineExamples.{after_eleven, after_ten};

/// Patterns of 16 bits: op=1 fn=0 agrees with op=1, and not with op=1 fn=1.
fn patterns()
    ensures lies { LiesInWord 16 adder_instr }
    ensures too_short { LiesInWord 15 adder_instr → ⊥ }
    ensures agree { Agree adder_instr wide_pattern }
    ensures differ { Agree adder_instr other_pattern → ⊥ }
{}

/// Eight cells have three bits, and sixty-four have six.
fn cells()
    ensures eight { index_bits (record {
      name = codes "F";
      width = 16;
      cells = 8;
      reads = 1;
      writes = 1;
    }) ≡ 3 }
    ensures most { index_bits (record {
      name = codes "F";
      width = 16;
      cells = 64;
      reads = 1;
      writes = 1;
    }) ≡ 6 }
{}

/// The line `1 a = GPR.r0 rs` adds a local of 16 bits, the end of an instruction nothing, and an instruction begins with no local.
fn lines()
    ensures begins { after_ten.instrs ≡ codes "ADD" ∷ codes "NOP" ∷ [] }
    ensures local { after_eleven.locals ≡ codes "a" ∷ [] }
    ensures width { after_eleven.widths ≡ 16 ∷ [] }
    ensures fields { after_ten.fields ≡ adder_fields }
{}
