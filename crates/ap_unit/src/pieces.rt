ghost use Rattle.std.specs.Prelude.{◌≡◌, ◌≤◌, OnOk, IfOk};
ghost use Rattle.ap_bits.specs.declared.card.Card.{Card};
ghost use Rattle.ap_bits.specs.declared.card.Latency.TheVariants.{One};
ghost use Rattle.ap_bits.specs.Cards.{select_width};
ghost use Rattle.ap_net.specs.Cells.{IsNet};
ghost use Rattle.ap_net.specs.Draft.{CanFresh};
ghost use Rattle.ap_net.specs.Making.{Makes};
ghost use Rattle.ap_unit.specs.Built.{IsBlank, IsUnitDraft};
ghost use Rattle.ap_unit.specs.Named.{NamesPlainly};
ghost use Rattle.ap_unit.specs.Pieces.{with_inputs, input_wires, HasValue};

use ap_bits::NoMemory;
use ap_net::builder::Builder;
use ap_net::cell::{Cell, Wire};

/// The inputs of a unit that takes one cycle.
#[derive(Clone, Copy, Debug)]
pub struct Inputs {
    /// The number of the operation.
    pub sel: Wire,
    /// The first operand.
    pub a: Wire,
    /// The second operand, of the same width.
    pub b: Wire,
}

/// Declares the inputs `sel`, of `select` bits, and `a` and `b`, of `w` bits, in a new builder.
pub fn declare_inputs(out: &mut Builder, select: u32, w: u32) -> Result<Inputs, NoMemory>
    requires new { IsBlank out.old }
    requires some { 1 ≤ select }
    requires few { select ≤ 64 }
    requires low { 1 ≤ w }
    requires high { w ≤ 64 }
    ensures ok { OnOk result (out.new ≡ with_inputs out.old.name select w) }
    ensures inputs { IfOk result (λ i. i ≡ input_wires select w) }
    ensures nets { IfOk result (λ i. IsNet out.new.nets i.sel × IsNet out.new.nets i.a
        × IsNet out.new.nets i.b) }
    ensures fresh { OnOk result (CanFresh out.new) }
{
    let sel = out.input(b"sel", select)?;
    let a = out.input(b"a", w)?;
    let b = out.input(b"b", w)?;
    Ok(Inputs { sel, a, b })
}

/// Shows a net as the output `y`. Where the builder holds the declared inputs and fresh wires over them, and the net has
/// the value of the operation that `sel` chooses, what it holds afterwards is a unit, whose wires are named `n` and digits.
pub fn show_result(out: &mut Builder, inputs: Inputs, y: Wire) -> Result<(), NoMemory>
    requires inputs { inputs ≡ input_wires inputs.sel.width inputs.a.width }
    requires made { Makes (with_inputs out.old.name inputs.sel.width inputs.a.width) out.old }
    requires net { IsNet out.old.nets y }
    requires same { y.width ≡ inputs.a.width }
    requires low { 1 ≤ y.width }
    requires high { y.width ≤ 64 }
    ensures name { OnOk result (out.new.name ≡ out.old.name) }
    ensures names { OnOk result (NamesPlainly out.new) }
    ensures unit { OnOk result ((card : Card) → card.latency ≡ One → inputs.sel.width ≡ select_width card
        → HasValue out.old inputs y card → IsUnitDraft out.new card inputs.a.width) }
{
    out.show(b"y", y.width, Cell::Copy(y))?;
    out.rules();
    Ok(())
}
