//! Laws of the definitions. They do nothing: their contracts are what they say.
ghost use Rattle.std.specs.Prelude.{◌≡◌, ◌+◌, ◌≤◌, ◌<◌, ℕ, List, length};
ghost use Rattle.ap_bits.specs.declared.card.Card.{Card};
ghost use Rattle.ap_desc.specs.Clean.{FitsCards};
ghost use Rattle.ap_desc.specs.declared.design.Design.{Design};
ghost use Rattle.ap_image.specs.FitsShape.{line_at};
ghost use Rattle.ap_image.specs.declared.image.Image.{Image};
ghost use Rattle.ap_image.specs.declared.trace.Trace.{Trace};
ghost use Rattle.ap_model.specs.Cycles.{inputs_at, over};
ghost use Rattle.ap_model.specs.ShownRows.{row};
ghost use Rattle.ap_model.specs.declared.state.State.{State};
ghost use Rattle.ap_net.specs.Outside.{Outside, shape_of};
ghost use Rattle.ap_net.specs.Rows as net;
ghost use Rattle.ap_net.specs.Runs.{Runs};
ghost use Rattle.ap_cycle.specs.Circuit.{IsCircuit};
ghost use Rattle.ap_cycle.specs.KeptStates.{KeepsState};
ghost use Rattle.ap_cycle.specs.Signals.{Signals, shown_row};
ghost use Rattle.ap_signals.specs.Asked.{AgesGo, ProperForUnits};
ghost use Rattle.ap_signals.specs.DesignOutside.{outside_of};
ghost use Rattle.ap_signals.specs.KeptNets.{HasRegisters, KeepsMachine};
ghost use Rattle.ap_signals.specs.NetRuns.{NetRun, held_value, taken_value};
ghost use Rattle.ap_signals.specs.NetSignals.{net_signals};

/// The row that a netlist shows is the row of its signals, and it is given the inputs that the machine is given.
pub fn netlists_show_their_signals()
    ensures rows { (design : Design) (run : NetRun) (j : ℕ)
        → net.shown_row (outside_of design) run.flat (run.values j)
        ≡ shown_row design (net_signals design run j) }
    ensures inputs { (design : Design) (trace : Trace) (j : ℕ)
        → line_at trace (shape_of (outside_of design)).inputs j ≡ inputs_at design trace j }
{}

/// In a run a register holds in the next cycle what it took at the edge.
pub fn registers_hold_what_they_took()
    ensures { (o : Outside) (image : Image) (trace : Trace) (c : ℕ) (run : NetRun)
        → Runs o run.flat image trace c run.states run.values → (j : ℕ) → j < c
        → (name : List ℕ) → held_value run (j + 1) name ≡ taken_value run j name }
{}

/// Where the signals keep the machine's state, the netlist's state keeps it, in registers that are there.
pub fn netlists_keep_what_signals_keep()
    ensures { (design : Design) (run : NetRun) (j : ℕ) (state : State) → 1 ≤ design.stages
        → HasRegisters design run.flat → KeepsState design (net_signals design run j) state
        → KeepsMachine design run.flat (run.states j) state }
{}

/// A netlist whose signals meet the border keeps the machine's state before each cycle, and shows its rows.
pub fn netlists_are_the_machine()
    ensures keeps { (design : Design) (cards : List Card) (image : Image) (trace : Trace)
        (c : ℕ) (run : NetRun) → FitsCards design cards
        → length image.mems ≡ length design.mems → HasRegisters design run.flat
        → IsCircuit design cards image trace c (net_signals design run)
        → (j : ℕ) → j ≤ c
        → KeepsMachine design run.flat (run.states j) (over design cards image trace j) }
    ensures rows { (design : Design) (cards : List Card) (image : Image) (trace : Trace)
        (c : ℕ) (run : NetRun) → FitsCards design cards
        → length image.mems ≡ length design.mems
        → IsCircuit design cards image trace c (net_signals design run)
        → (j : ℕ) → j < c
        → net.shown_row (outside_of design) run.flat (run.values j)
        ≡ row design cards image trace j }
{}

/// What is proper for the signals is proper for the unit of a stage, and a unit's age goes on as the next state's equation says.
pub fn units_are_asked_properly()
    ensures proper { (design : Design) (signals : ℕ → Signals) → ProperForUnits design signals }
    ensures ages { (design : Design) (signals : ℕ → Signals) → AgesGo design signals }
{}
