//! Worked rows: what the definitions say of faults of words, ports and stages, each of a design that has the fault and of one like it
//! that hasn't.
ghost use Rattle.std.specs.Prelude.{ℕ, [], ◌∷◌};
ghost use Rattle.ap_desc.specs.Chains.{IsChainOrder};
ghost use Rattle.ap_desc.specs.Clean.{HasDesignFault};
ghost use Rattle.ap_desc.specs.Examples.{adder_design, adder_instr, smallest_design};
ghost use Rattle.ap_desc.specs.FlowExamples.{flow_design, long_design, one_jump, one_sum, one_write, other_pattern, smallest_with, times_input, times_memory, two_steps, two_units, wide_pattern};
ghost use Rattle.ap_desc.specs.Least.{HoldsNowhere};
ghost use Rattle.ap_desc.specs.Meaning.{IsLeastPortFault, MeetsPortFault};
ghost use Rattle.ap_desc.specs.declared.design.Act.TheVariants as act;
ghost use Rattle.ap_desc.specs.declared.design.Node.TheVariants as node;

use ap_desc::Fault;

/// Fields fill the word, fixed values fit their fields, and NOP is empty.
fn words()
    ensures sum { HasDesignFault (smallest_with 7 0 [] 0) Fault.FormatSum 5 }
    ensures sum_right { HasDesignFault smallest_design Fault.FormatSum 5 → ⊥ }
    ensures value { HasDesignFault (smallest_with 8 256 [] 0) Fault.FieldValue 6 }
    ensures value_right { HasDesignFault (smallest_with 8 255 [] 0) Fault.FieldValue 6 → ⊥ }
    ensures nop { HasDesignFault (smallest_with 8 0
        (record { line = 7; stage = 1; act = act.Const 8 1 } ∷ []) 0) Fault.NopNotEmpty 6 }
    ensures nop_right { HasDesignFault smallest_design Fault.NopNotEmpty 6 → ⊥ }
    ensures other_instr { HasDesignFault adder_design Fault.NopNotEmpty 10 → ⊥ }
{}

/// An instruction that fixes its first field alone shares words with one that fixes two; patterns that differ in one fixed bit don't.
fn patterns()
    ensures overlap { HasDesignFault
        (flow_design (adder_instr ∷ wide_pattern ∷ [])) Fault.Overlap 20 }
    ensures apart { (line : ℕ) → HasDesignFault
        (flow_design (adder_instr ∷ other_pattern ∷ [])) Fault.Overlap line → ⊥ }
{}

/// A port is used once in an instruction, and in one stage of all; a transfer stands in its stage.
fn ports()
    ensures twice { HasDesignFault (flow_design (adder_instr ∷ two_steps 0 ∷ []))
        Fault.TwiceInInstruction 23 }
    ensures twice_right { (line : ℕ)
        → HasDesignFault (flow_design (adder_instr ∷ two_steps 1 ∷ [])) Fault.TwiceInInstruction
        line → ⊥ }
    ensures stages { HasDesignFault
        (flow_design (adder_instr ∷ one_sum 1 ∷ [])) Fault.TwoStages 22 }
    ensures stages_right { (line : ℕ)
        → HasDesignFault (flow_design (adder_instr ∷ one_sum 2 ∷ [])) Fault.TwoStages line → ⊥ }
    ensures transfer { HasDesignFault (flow_design (one_jump 3 ∷ [])) Fault.TwoStages 21 }
    ensures transfer_right { (line : ℕ)
        → HasDesignFault (flow_design (one_jump 2 ∷ [])) Fault.TwoStages line → ⊥ }
{}

/// Stages begin at 1 and don't fall within an instruction, and writes stand where nothing is killed any more: here from stage 2 on.
fn stages()
    ensures zero { HasDesignFault (flow_design (one_jump 0 ∷ [])) Fault.StageZero 21 }
    ensures zero_right { (line : ℕ)
        → HasDesignFault (flow_design (one_jump 1 ∷ [])) Fault.StageZero line → ⊥ }
    ensures order { HasDesignFault (flow_design (one_write 0 ∷ [])) Fault.StageOrder 22 }
    ensures order_right { (line : ℕ)
        → HasDesignFault (flow_design (one_write 1 ∷ [])) Fault.StageOrder line → ⊥ }
    ensures commit { HasDesignFault (long_design (one_write 1 ∷ [])) Fault.EarlyCommit 22 }
    ensures commit_right { (line : ℕ)
        → HasDesignFault (long_design (one_write 2 ∷ [])) Fault.EarlyCommit line → ⊥ }
    ensures slots { HasDesignFault (smallest_with 8 0 [] 2) Fault.TooManySlots 4 }
    ensures slots_right { HasDesignFault (smallest_with 8 0 [] 1) Fault.TooManySlots 4 → ⊥ }
{}

/// The units of two instructions feed each other within a stage: the first line that closes the loop has the fault. One of the two alone
/// has none.
fn loops()
    ensures closes { HasDesignFault
        (flow_design (two_units 30 0 1 ∷ two_units 40 1 0 ∷ [])) Fault.ChainLoop 46 }
    ensures closes_right { (line : ℕ)
        → HasDesignFault (flow_design (two_units 30 0 1 ∷ [])) Fault.ChainLoop line → ⊥ }
    ensures own_loop { HasDesignFault (flow_design (two_steps 0 ∷ [])) Fault.ChainLoop 23 }
    ensures order { IsChainOrder (flow_design (two_units 30 0 1 ∷ [])) 2
        (node.Unit 0 ∷ node.Unit 1 ∷ []) }
{}

/// An operand of the slow unit is an input of its stage, or comes from a memory through wiring and another unit; read a stage before, the
/// input is stable.
fn slow_operands()
    ensures input { HasDesignFault (flow_design (times_input 2 ∷ [])) Fault.UnstableOperand 23 }
    ensures input_right { (line : ℕ)
        → HasDesignFault (flow_design (times_input 1 ∷ [])) Fault.UnstableOperand line → ⊥ }
    ensures memory { HasDesignFault (flow_design (times_memory ∷ [])) Fault.UnstableOperand 25 }
{}

/// The least faults of ports and stages of such designs.
fn least_faults()
    ensures twice { IsLeastPortFault (flow_design (adder_instr ∷ two_steps 0 ∷ []))
        (record { phase = 5; line = 23; kind = Fault.TwiceInInstruction }) }
    ensures stages { IsLeastPortFault (flow_design (adder_instr ∷ one_sum 1 ∷ []))
        (record { phase = 5; line = 22; kind = Fault.TwoStages }) }
    ensures commit { IsLeastPortFault (long_design (one_write 1 ∷ []))
        (record { phase = 6; line = 22; kind = Fault.EarlyCommit }) }
    ensures loop_closed { IsLeastPortFault (flow_design (two_units 30 0 1 ∷ two_units 40 1 0 ∷ []))
        (record { phase = 6; line = 46; kind = Fault.ChainLoop }) }
    ensures input { IsLeastPortFault (flow_design (times_input 2 ∷ []))
        (record { phase = 6; line = 23; kind = Fault.UnstableOperand }) }
    ensures none { HoldsNowhere (MeetsPortFault
        (flow_design (adder_instr ∷ two_units 30 0 1 ∷ []))) }
{}
