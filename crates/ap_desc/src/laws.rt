//! Laws of the definitions. They do nothing: their contracts are what they say.
ghost use Rattle.std.specs.Prelude.{◌≡◌, ◌^◌, ◌<◌, ◌↔◌, ◌⊎◌, filter_map, nat_lt, ℕ, [], ◌∷◌, ◌++◌, Any, Contains, IsTrue, List, None, Some, slice_get, true};
ghost use Rattle.ap_bits.specs.declared.card.Card.{Card};
ghost use Rattle.ap_desc.specs.Chains.{ClosesLoop, EdgeBefore, EdgeOf, EdgeUpTo, IsChainOrder, IsLooped, IsMadeBy, IsWiredBehind, IsWiredFrom, Leads, MakesEdge, Reaches, TakesFrom, maker_in, makers, node_of, operands_of};
ghost use Rattle.ap_desc.specs.Clean.{IsClean};
ghost use Rattle.ap_desc.specs.Declarations.{declarations};
ghost use Rattle.ap_desc.specs.Descriptions.{IsDescription};
ghost use Rattle.ap_desc.specs.DesignOf.{design_of};
ghost use Rattle.ap_desc.specs.Forms.{statement_in};
ghost use Rattle.ap_desc.specs.Designs.{IsInstr, index_bits, local_width};
ghost use Rattle.ap_desc.specs.Least.{HoldsNowhere, IsLeast};
ghost use Rattle.ap_desc.specs.StatementFaults.{HasStatementFault};
ghost use Rattle.ap_desc.specs.Meaning.{IsLeastFault, IsLeastMeaningFault, IsLeastPortFault, IsLeastWordFault, IsMeaningful, MeetsFault, MeetsMeaningFault, MeetsPortFault, MeetsWordFault};
ghost use Rattle.ap_desc.specs.Patterns.{Agree, LiesInWord, ShareWord};
ghost use Rattle.ap_desc.specs.Order.{section};
ghost use Rattle.ap_desc.specs.Ports.{micros_in};
ghost use Rattle.ap_desc.specs.PortsApart.{PortsApart};
ghost use Rattle.ap_desc.specs.Reading.{ReadsAs};
ghost use Rattle.ap_desc.specs.Scope.{scope_after, scope_with, with_declared};
ghost use Rattle.ap_desc.specs.Shelf.{IsOfCards};
ghost use Rattle.ap_desc.specs.Shown.{renumbered, shown_text};
ghost use Rattle.ap_desc.specs.Sound.{IsEncoded, IsSound};
ghost use Rattle.ap_desc.specs.Spelling.{Spells};
ghost use Rattle.ap_desc.specs.Widths.{is_index};
ghost use Rattle.ap_desc.specs.declared.description.Numbered.{Numbered};
ghost use Rattle.ap_desc.specs.declared.design.Design.{Design};
ghost use Rattle.ap_desc.specs.declared.design.Arg.{Arg};
ghost use Rattle.ap_desc.specs.declared.design.Arg.TheVariants as arg;
ghost use Rattle.ap_desc.specs.declared.design.Field.{Field};
ghost use Rattle.ap_desc.specs.declared.design.File.{File};
ghost use Rattle.ap_desc.specs.declared.design.Instr.{Instr};
ghost use Rattle.ap_desc.specs.declared.design.Micro.{Micro};
ghost use Rattle.ap_desc.specs.declared.design.Node.{Node};
ghost use Rattle.ap_desc.specs.declared.fault.Refusal.{Refusal};
ghost use Rattle.ap_desc.specs.declared.statement.Statement.{Statement};

/// The statement that tokens give is the one that they spell.
pub fn forms_are_exact()
    ensures sound { (tokens : List (List ℕ)) (statement : Statement)
        → statement_in tokens ≡ Some statement → Spells statement tokens }
    ensures complete { (tokens : List (List ℕ)) (statement : Statement) → Spells statement tokens
        → statement_in tokens ≡ Some statement }
{}

/// No two statements have the same tokens.
#[tactic(auto, using(crate::proofs::FormsComplete::spelled_once))]
pub fn spelling_is_unique()
    ensures { (one other : Statement) (tokens : List (List ℕ)) → Spells one tokens
        → Spells other tokens → one ≡ other }
{}

/// A text reads as one list of statements at most.
pub fn reading_is_unique()
    ensures { (text : List ℕ) (one other : List Numbered) → ReadsAs text one → ReadsAs text other
        → one ≡ other }
{}

/// A description, a text and a design have one least fault at most.
pub fn least_fault_is_unique()
    ensures description { (statements : List Numbered) (cards : List Card) (one other : Refusal)
        → IsLeastMeaningFault statements cards one → IsLeastMeaningFault statements cards other
        → one ≡ other }
    ensures text { (text : List ℕ) (cards : List Card) (one other : Refusal)
        → IsLeastFault text cards one → IsLeastFault text cards other → one ≡ other }
    ensures words { (design : Design) (one other : Refusal) → IsLeastWordFault design one
        → IsLeastWordFault design other → one ≡ other }
    ensures ports { (design : Design) (one other : Refusal) → IsLeastPortFault design one
        → IsLeastPortFault design other → one ≡ other }
{}

/// The least fault among those that are looked at is the least of all whose conditions hold.
pub fn least_fault_is_looked_at()
    ensures description { (statements : List Numbered) (cards : List Card) (refusal : Refusal)
        → IsLeast (MeetsMeaningFault statements cards) refusal
        ↔ IsLeastMeaningFault statements cards refusal }
    ensures text { (text : List ℕ) (cards : List Card) (refusal : Refusal)
        → IsLeast (MeetsFault text cards) refusal ↔ IsLeastFault text cards refusal }
    ensures words { (design : Design) (refusal : Refusal) → IsLeast (MeetsWordFault design) refusal
        ↔ IsLeastWordFault design refusal }
    ensures ports { (design : Design) (refusal : Refusal) → IsLeast (MeetsPortFault design) refusal
        ↔ IsLeastPortFault design refusal }
{}

/// The least fault of a description is found phase by phase: among its lines; where they have none, among the words of its design; and
/// where these have none, among ports and stages.
pub fn least_fault_by_phases()
    ensures lines { (statements : List Numbered) (cards : List Card) (refusal : Refusal)
        → IsLeast (HasStatementFault statements cards) refusal
        → IsLeastMeaningFault statements cards refusal }
    ensures words { (statements : List Numbered) (cards : List Card) (refusal : Refusal)
        → HoldsNowhere (HasStatementFault statements cards)
        → IsLeastWordFault (design_of statements cards) refusal
        → IsLeastMeaningFault statements cards refusal }
    ensures ports { (statements : List Numbered) (cards : List Card) (refusal : Refusal)
        → HoldsNowhere (HasStatementFault statements cards)
        → HoldsNowhere (MeetsWordFault (design_of statements cards))
        → IsLeastPortFault (design_of statements cards) refusal
        → IsLeastMeaningFault statements cards refusal }
    ensures none { (statements : List Numbered) (cards : List Card)
        → HoldsNowhere (HasStatementFault statements cards)
        → HoldsNowhere (MeetsWordFault (design_of statements cards))
        → HoldsNowhere (MeetsPortFault (design_of statements cards))
        → IsMeaningful statements cards }
{}

/// A stage whose nodes have an order in which every edge goes forward has no loop. A line that closes a loop leaves the stage with one, and
/// it is the only such line.
pub fn loops_and_orders()
    ensures order { (design : Design) (stage : ℕ) (order : List Node)
        → IsChainOrder design stage order → IsLooped design stage (λ n. true) → ⊥ }
    ensures closed { (design : Design) (stage line : ℕ) → ClosesLoop design stage line
        → IsLooped design stage (λ n. true) }
    ensures line { (design : Design) (stage line other : ℕ) → ClosesLoop design stage line
        → ClosesLoop design stage other → line ≡ other }
{}

/// A description without fault of names and widths describes a sound design, and it is of the cards.
pub fn faultless_descriptions_are_sound()
    ensures sound { (statements : List Numbered) (cards : List Card) → IsDescription statements
        → HoldsNowhere (HasStatementFault statements cards)
        → IsSound (design_of statements cards) }
    ensures of_cards { (statements : List Numbered) (cards : List Card) → IsDescription statements
        → HoldsNowhere (HasStatementFault statements cards)
        → IsOfCards (design_of statements cards) cards }
{}

/// What the lines before a line of an instruction declare is what the whole description declares. One more line adds what it declares,
/// and one more line's scope is the scope before it with what the line adds.
pub fn descriptions_grow()
    ensures whole { (statements : List Numbered) (cards : List Card) (before : List Numbered)
        (n : Numbered)
        (after : List Numbered) → IsDescription statements → statements ≡ before ++ n ∷ after
        → section n.statement ≡ 10
        → declarations before cards ≡ declarations statements cards }
    ensures declared { (statements : List Numbered) (cards : List Card) (before : List Numbered)
        (n : Numbered) (after : List Numbered) → IsDescription statements
        → statements ≡ before ++ n ∷ after
        → declarations (before ++ n ∷ []) cards
        ≡ with_declared cards n.line n.statement (declarations before cards) }
    ensures scope { (statements : List Numbered) (cards : List Card) (before : List Numbered)
        (n : Numbered)
        (after : List Numbered) → IsDescription statements → statements ≡ before ++ n ∷ after
        → scope_after (before ++ n ∷ []) cards ≡ scope_with cards (scope_after before cards) n }
{}

/// The cells of a file are two to the power of its index bits, and an index has so many bits.
pub fn index_bits_number_cells()
    ensures cells { (design : Design) (file : File) → IsSound design → Contains design.files file
        → 2 ^ index_bits file ≡ file.cells }
    ensures index { (design : Design) (place : ℕ) (file : File) (bits : ℕ) → IsSound design
        → slice_get design.files place ≡ Some file
        → IsTrue (is_index design place bits) ↔ (bits ≡ index_bits file) }
{}

/// The widths of an instruction's locals are those that its lines assign, each asked with the widths of all.
pub fn locals_have_the_widths_of_lines()
    ensures { (design : Design) (fields : List Field) (instr : Instr) → IsInstr design fields instr
        → instr.locals
        ≡ filter_map (λ (m : Micro). local_width design instr.locals fields m.act) instr.micros }
{}

/// A stage with a loop has a line that closes it. The edges up to a line are those before it and its own.
pub fn loops_are_closed()
    ensures closes { (design : Design) (stage : ℕ) → IsLooped design stage (λ n. true)
        → (line : ℕ) × ClosesLoop design stage line }
    ensures up_to { (design : Design) (stage line : ℕ) (from to : Node)
        → EdgeUpTo design stage line from to
        ↔ (EdgeBefore design stage line from to ⊎ EdgeOf design stage line from to) }
{}

/// Of a sound design, in the stage of a line of an instruction: the line's own edges are those that it makes. With them a walk goes by the
/// edges before it, or by these to where one of its own begins and on from its node. Where the lines before it make no loop, it closes
/// one exactly where its node leads by their edges to one from which it takes an operand. A line that uses no node adds no edge.
pub fn lines_make_their_edges()
    ensures own { (design : Design) (instr : Instr) (m : Micro) (from to : Node) → IsSound design
        → Contains design.instrs instr → Contains instr.micros m
        → EdgeOf design m.stage m.line from to ↔ MakesEdge instr m from to }
    ensures leads { (design : Design) (instr : Instr) (m : Micro) → IsSound design
        → Contains design.instrs instr → Contains instr.micros m
        → (to : Node) → node_of m.act ≡ Some to → (x y : Node)
        → Leads (EdgeUpTo design m.stage m.line) x y
        ↔ (Leads (EdgeBefore design m.stage m.line) x y
        ⊎ ((u : Node) × TakesFrom instr m u × Leads (EdgeBefore design m.stage m.line) x u
        × Leads (EdgeBefore design m.stage m.line) to y)) }
    ensures closes { (design : Design) (instr : Instr) (m : Micro) → IsSound design
        → Contains design.instrs instr → Contains instr.micros m
        → (to : Node) → node_of m.act ≡ Some to
        → (IsLooped design m.stage (λ n. nat_lt n m.line) → ⊥)
        → ClosesLoop design m.stage m.line
        ↔ ((u : Node) × TakesFrom instr m u × Leads (EdgeBefore design m.stage m.line) to u) }
    ensures other { (design : Design) (instr : Instr) (m : Micro) → IsSound design
        → Contains design.instrs instr → Contains instr.micros m → node_of m.act ≡ None
        → (x y : Node) → EdgeUpTo design m.stage m.line x y → EdgeBefore design m.stage m.line x y }
{}

/// Of the lines of a sound design's instructions, of its instructions, and of the lines of one of them, those of a lower number stand
/// at an earlier place.
pub fn lines_stand_in_order()
    ensures micros { (design : Design) (i j : ℕ) (m n : Micro) → IsSound design
        → slice_get (micros_in design) i ≡ Some m → slice_get (micros_in design) j ≡ Some n
        → m.line < n.line ↔ i < j }
    ensures instrs { (design : Design) (i j : ℕ) (one other : Instr) → IsSound design
        → slice_get design.instrs i ≡ Some one → slice_get design.instrs j ≡ Some other
        → one.line < other.line ↔ i < j }
    ensures own { (design : Design) (instr : Instr) (i j : ℕ) (m n : Micro) → IsSound design
        → Contains design.instrs instr
        → slice_get instr.micros i ≡ Some m → slice_get instr.micros j ≡ Some n
        → m.line < n.line ↔ i < j }
{}

/// An operand comes from the line that makes it, or from where that line's operands come. The maker of a local is the line of its place
/// among those that make one, where that stands in the stage.
pub fn operands_come_from_makers()
    ensures reaches { (instr : Instr) (stage : ℕ) (a : Arg) (source : Micro)
        → Reaches instr stage a source
        ↔ IsMadeBy instr stage a source (λ m. Any (λ b. Reaches instr stage b source)
        (operands_of m.act)) }
    ensures wired { (instr : Instr) (stage : ℕ) (a : Arg) (source : Micro)
        → IsWiredFrom instr stage a source
        ↔ IsMadeBy instr stage a source
        (IsWiredBehind instr stage source) }
    ensures maker { (instr : Instr) (stage i : ℕ) (m : Micro)
        → maker_in instr stage (arg.Local i) ≡ Some m
        ↔ ((slice_get (makers instr) i ≡ Some m) × (m.stage ≡ stage)) }
{}

/// The words of a clean design are without fault.
#[tactic(auto, using(crate::proofs::Encoded::encoded_if_clean))]
pub fn clean_is_encoded()
    ensures { (design : Design) → IsClean design → IsEncoded design }
{}

/// The ports of a clean design are apart: each is used in one stage, and in an instruction by one line at most.
pub fn clean_ports_are_apart()
    ensures { (design : Design) → IsClean design → PortsApart design }
{}

/// In a sound design the fixed value of an instruction lies in its mask, and the mask in the word. So two patterns that agree where both
/// fix bits share a word, and only such two do.
pub fn agreeing_patterns_share_words()
    ensures lies { (design : Design) (instr : Instr) → IsSound design → Contains design.instrs instr
        → LiesInWord design.word instr }
    ensures shares { (design : Design) (one other : Instr) → IsSound design
        → Contains design.instrs one → Contains design.instrs other
        → Agree one other ↔ ShareWord design.word one other }
{}

/// The text that is shown of a description reads as its statements, at the lines 1, 2 and so on, and they are a
/// description too.
pub fn shown_is_read()
    ensures reads { (statements : List Numbered) → IsDescription statements
        → ReadsAs (shown_text statements) (renumbered 1 statements) }
    ensures description { (statements : List Numbered) → IsDescription statements
        → IsDescription (renumbered 1 statements) }
{}
