//! Worked rows: what the definitions say of a session with a unit, and of a few assigns.
ghost use Rattle.std.specs.Prelude.{◌≡◌, [], ◌∷◌, map, codes, Some, None};
ghost use Rattle.ap_bits.specs.declared.card.Latency.TheVariants.{One, WidthPlusOne};
ghost use Rattle.ap_bits.specs.Cards.{operation_value};
ghost use Rattle.ap_unit.specs.Ages.{age_at, IsProperAt};
ghost use Rattle.ap_net.specs.Depends.{DependsOnNone};
ghost use Rattle.ap_unit.specs.Kinds.{place_of, StoodEarlier};
ghost use Rattle.ap_unit.specs.Units.{ports_by, in_port, out_port};
ghost use Rattle.ap_unit.specs.Methods.{after_steps, shown_of};
ghost use Rattle.circuit_tests.specs.UnitRows.{session_at, hasty_at, chain, less_card, named_card, adding_up};

/// The age rises while the unit is asked, and falls to 0 after a cycle with `adv` and after one in which it isn't asked.
fn ages()
    ensures session { map (age_at session_at) (0 ∷ 1 ∷ 2 ∷ 3 ∷ 4 ∷ 5 ∷ 6 ∷ 7 ∷ [])
        ≡ 0 ∷ 0 ∷ 1 ∷ 2 ∷ 3 ∷ 0 ∷ 1 ∷ 0 ∷ [] }
{}

/// For a unit of one operation that takes 4 cycles `adv` may come at age 3 and not at age 1; and one that has an age has to
/// be asked on.
fn proper_inputs()
    ensures asked { IsProperAt 1 4 session_at 3 }
    ensures advanced { IsProperAt 1 4 session_at 4 }
    ensures given_up { IsProperAt 1 4 session_at 6 → ⊥ }
    ensures hasty { IsProperAt 1 4 hasty_at 1 → ⊥ }
{}

/// In a short chain the net 2 depends on the nets 0, 1 and 3; so on none of others, and the net 3 not on the net 0.
fn dependences()
    ensures last { DependsOnNone chain 2 (4 ∷ 5 ∷ []) }
    ensures middle { DependsOnNone chain 3 (0 ∷ 2 ∷ []) }
{}

/// The ports in order.
fn ports()
    ensures one { ports_by One 1 8 ≡ in_port (codes "sel") 1 ∷ in_port (codes "a") 8 ∷ in_port (codes "b") 8
        ∷ out_port (codes "y") 8 ∷ [] }
    ensures several { map (λ p. p.name) (ports_by WidthPlusOne 1 8)
        ≡ codes "sel" ∷ codes "a" ∷ codes "b" ∷ codes "go" ∷ codes "adv" ∷ codes "busy"
        ∷ codes "y" ∷ [] }
{}

/// The operation of a number, and the first place of a name.
#[tactic(auto, using(ap_bits::proofs::TermValues::term_values))]
fn looks_up()
    ensures value { operation_value less_card 8 0 3 5 ≡ 254 }
    ensures first { place_of (codes "less") (map named_card (codes "more" ∷ codes "less" ∷ codes "less" ∷ []))
        ≡ Some 1 }
    ensures none { place_of (codes "nand") (map named_card (codes "more" ∷ codes "less" ∷ [])) ≡ None }
    ensures earlier { StoodEarlier (codes "less" ∷ codes "more" ∷ codes "less" ∷ []) 2 }
    ensures later { StoodEarlier (codes "less" ∷ codes "more" ∷ codes "less" ∷ []) 1 → ⊥ }
{}

/// A method that adds the second operand in each step: after three steps from 5 by 7 the high number is 21. Operation 0 shows
/// the low number, and operation 1 the high one.
fn steps()
    ensures none { after_steps adding_up 5 7 0 ≡ record { high = 0; low = 5 } }
    ensures three { after_steps adding_up 5 7 3 ≡ record { high = 21; low = 5 } }
    ensures low { shown_of 0 (record { high = 21; low = 5 }) ≡ 5 }
    ensures high { shown_of 1 (record { high = 21; low = 5 }) ≡ 21 }
{}
