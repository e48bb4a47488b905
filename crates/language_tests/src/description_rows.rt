//! Worked rows: descriptions without fault of meaning, and the least faults of others.
ghost use Rattle.std.specs.Prelude.{[], ◌∷◌, codes};
ghost use Rattle.ap_desc.specs.Clean.{FitsCards};
ghost use Rattle.ap_desc.specs.Examples.{adder_card, adder_design, adder_statements, smallest, smallest_but};
ghost use Rattle.ap_desc.specs.Meaning.{IsLeastMeaningFault, IsMeaningful};

use ap_desc::{Fault, Statement};

/// The smallest description, and the adder, whose design fits its card.
fn without_fault()
    ensures smallest { IsMeaningful smallest [] }
    ensures adder { IsMeaningful adder_statements (adder_card ∷ []) }
    ensures fits { FitsCards adder_design (adder_card ∷ []) }
{}

/// The smallest description changed in one place: the width of the word, the slots, the field's width, the value of NOP, a line of NOP.
fn least_faults()
    ensures word { IsLeastMeaningFault (smallest_but 65 0 8 0 []) []
        (record { phase = 3; line = 3; kind = Fault.Range }) }
    ensures slots { IsLeastMeaningFault (smallest_but 8 2 8 0 []) []
        (record { phase = 6; line = 4; kind = Fault.TooManySlots }) }
    ensures sum { IsLeastMeaningFault (smallest_but 8 0 7 0 []) []
        (record { phase = 4; line = 5; kind = Fault.FormatSum }) }
    ensures value { IsLeastMeaningFault (smallest_but 8 0 8 256 []) []
        (record { phase = 4; line = 6; kind = Fault.FieldValue }) }
    ensures line_of_nop { IsLeastMeaningFault
        (smallest_but 8 0 8 0 (record { line = 7; statement = Statement.Const 1 (codes "x") 8 1 }
        ∷ [])) [] (record { phase = 4; line = 6; kind = Fault.NopNotEmpty }) }
{}
