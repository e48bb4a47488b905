//! Laws of the definitions. They do nothing: their contracts are what they say.
ghost use Rattle.std.specs.Prelude.{◌≡◌, ◌≤◌, ◌<◌, [], ℕ, List, length};
ghost use Rattle.ap_bits.specs.declared.card.Card.{Card};
ghost use Rattle.ap_desc.specs.Clean.{FitsCards};
ghost use Rattle.ap_desc.specs.declared.design.Design.{Design};
ghost use Rattle.ap_image.specs.declared.image.Image.{Image};
ghost use Rattle.ap_image.specs.declared.trace.Trace.{Trace};
ghost use Rattle.ap_model.specs.Cycles.{over};
ghost use Rattle.ap_model.specs.Examples.{setter};
ghost use Rattle.ap_model.specs.ShownRows.{row};
ghost use Rattle.ap_cycle.specs.Circuit.{IsCircuit};
ghost use Rattle.ap_cycle.specs.KeptStates.{KeepsState};
ghost use Rattle.ap_cycle.specs.Signals.{Signals, shown_row};
ghost use Rattle.ap_cycle.specs.SmallCircuit.{small_circuit};

/// A circuit keeps the machine's state before each cycle, and shows its rows.
pub fn circuits_are_the_machine()
    ensures keeps { (design : Design) (cards : List Card) (image : Image) (trace : Trace) (c : ℕ)
        (signals : ℕ → Signals) → FitsCards design cards → length image.mems ≡ length design.mems
        → IsCircuit design cards image trace c signals
        → (j : ℕ) → j ≤ c → KeepsState design (signals j) (over design cards image trace j) }
    ensures rows { (design : Design) (cards : List Card) (image : Image) (trace : Trace) (c : ℕ)
        (signals : ℕ → Signals) → FitsCards design cards → length image.mems ≡ length design.mems
        → IsCircuit design cards image trace c signals
        → (j : ℕ) → j < c → shown_row design (signals j) ≡ row design cards image trace j }
{}

/// The border can be met: the small processor's circuit meets it, on every image and trace and for every number of cycles. Its design
/// fits its cards, of which there is none, so that it is the machine.
pub fn the_small_circuit_meets_the_border()
    ensures fits { FitsCards setter [] }
    ensures meets { (image : Image) (trace : Trace) (c : ℕ)
        → IsCircuit setter [] image trace c (small_circuit image) }
{}
