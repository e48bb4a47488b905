//! Laws of the definitions. They do nothing: their contracts are what they say.
ghost use Rattle.std.specs.Prelude.{◌≡◌, ℕ, ◌≤◌, Bool, true, false, List, Option};
ghost use Rattle.ap_bits.specs.declared.card.Card.{Card};
ghost use Rattle.ap_desc.specs.Clean.{FitsCards, IsClean};
ghost use Rattle.ap_desc.specs.declared.design.Design.{Design};
ghost use Rattle.ap_image.specs.declared.image.Image.{Image};
ghost use Rattle.ap_image.specs.declared.trace.Trace.{Trace};
ghost use Rattle.ap_image.specs.declared.trace.TraceLine.{TraceLine};
ghost use Rattle.ap_model.specs.Cycles.{after_control, over};
ghost use Rattle.ap_model.specs.FlightLocals.{HaveLocals, is_live};
ghost use Rattle.ap_model.specs.HeldStages.{HoldsAll, HoldsFromZero, all_held};
ghost use Rattle.ap_model.specs.LineForms.{FiresByLine, ReadingsAreRight};
ghost use Rattle.ap_model.specs.OneCount.{IsSameMachine};
ghost use Rattle.ap_model.specs.PortForms.{GoesByPorts, GoesThroughPorts, StageWritesByPorts, TargetsByLine, WritesByLine, Writing};
ghost use Rattle.ap_model.specs.Runnable.{IsRunnable};
ghost use Rattle.ap_model.specs.Stalls.{need};
ghost use Rattle.ap_model.specs.declared.state.State.{State};
ghost use Rattle.ap_model.specs.UnitUse.{AsksAreRight, NeedsItsUnits, StableAsks, asks, latency_of};

/// A busy stage is held, and with a stage all before it; with stage 0 the transfer's stage is held too.
#[tactic(auto, using(crate::proofs::HeldStages::holds_from_zero))]
pub fn busy_stages_hold()
    ensures { (design : Design) (busy : List Bool) → HoldsFromZero design busy }
{}

/// A cycle in which all stages are held changes nothing that is stored, and each flight stays in its stage.
pub fn held_cycles_change_nothing()
    ensures { (design : Design) (cards : List Card) (image : Image) (inputs : TraceLine)
        (state : State) (taken : Option ℕ)
        → HoldsAll state (after_control design cards image inputs state (all_held taken)) }
{}

/// While a busy stage holds all stages, the machine is the one with a single count of stalled cycles: it has the same states, where
/// each flight has waited for as many cycles as the count says, and shows the same rows.
#[tactic(auto, using(crate::proofs::CountedLaws::same_machine))]
pub fn one_count_is_the_same()
    ensures { (design : Design) (cards : List Card) (image : Image) (trace : Trace)
        → IsSameMachine design cards image trace }
{}

/// A design that is clean and whose units are of the cards can be run.
#[tactic(auto, using(crate::proofs::StageLemmas::clean_is_runnable))]
pub fn fitting_designs_can_be_run()
    ensures { (design : Design) (cards : List Card) → FitsCards design cards
        → IsRunnable design cards }
{}

/// Each flight has as many locals as the lines of its instruction's earlier stages assign, and none is live in stage 1.
pub fn flights_have_their_locals()
    ensures count { (design : Design) (cards : List Card) (image : Image) (trace : Trace)
        → IsRunnable design cards → (j : ℕ)
        → HaveLocals design 1 (over design cards image trace j).flights }
    ensures first { (design : Design) (cards : List Card) → IsRunnable design cards
        → (word i : ℕ) → is_live design word 1 i ≡ false }
{}

/// What a stage does, local by local: those from before stay, and each new one is what its line gives, looking at the locals as they
/// are after the stage.
pub fn locals_have_one_line()
    ensures { (design : Design) (cards : List Card) → FitsCards design cards
        → FiresByLine design cards }
{}

/// Values of operands that meet the equation of each line of a stage are the machine's: in locals, writes and the transfer.
pub fn readings_are_the_machine()
    ensures { (design : Design) (cards : List Card) → FitsCards design cards
        → ReadingsAreRight design cards }
{}

/// What a stage does, port by port: each port gets what the one line of the instruction writes that writes through it.
pub fn ports_have_one_line()
    ensures { (design : Design) (cards : List Card) → FitsCards design cards
        → WritesByLine design cards }
{}

/// The transfer of a stage is that of its one transfer line.
pub fn transfers_have_one_line()
    ensures { (design : Design) → IsClean design → TargetsByLine design }
{}

/// A cycle's writes, told by ports: a stage whose ports show what its word writes makes these writes; and a row and the storages
/// have the same of them as of the list.
pub fn writes_go_by_ports()
    ensures stage { (design : Design) (cards : List Card) (writing : Writing) → IsClean design
        → StageWritesByPorts design cards writing }
    ensures cycle { (design : Design) (writing : Writing) → IsClean design
        → GoesThroughPorts design writing → GoesByPorts design writing }
{}

/// What a unit of several cycles is asked: it needs only the equations of the other lines, and doesn't look at the inputs of the
/// cycle.
pub fn units_are_asked_early()
    ensures lines { (design : Design) (cards : List Card) → FitsCards design cards
        → AsksAreRight design cards }
    ensures inputs { (design : Design) (cards : List Card) → FitsCards design cards
        → StableAsks design cards }
{}

/// A flight needs its stage for another cycle exactly where one of the units that it asks isn't done, and for as long as each of them
/// takes.
pub fn flights_wait_for_their_units()
    ensures units { (design : Design) → NeedsItsUnits design }
    ensures latency { (design : Design) (stage word unit : ℕ) → asks design stage word unit ≡ true
        → latency_of design unit ≤ need design stage word }
{}
