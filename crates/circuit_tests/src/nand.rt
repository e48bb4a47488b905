//! A kind of the tests' own: its one operation is the complement of the bitwise and.
ghost use Rattle.std.specs.Prelude.{◌≡◌, ◌^◌, ◌-◌, ◌≤◌, ◌<◌, ◌∷◌, [], codes, ℕ, IfOk, OnOk};
ghost use Rattle.ap_bits.specs.declared.term.BinOp.TheVariants.{And, Xor};
ghost use Rattle.ap_bits.specs.declared.term.Term.{Bin, A, B, Const};
ghost use Rattle.ap_bits.specs.declared.card.Widths.TheVariants.{Any};
ghost use Rattle.ap_bits.specs.declared.card.Latency.TheVariants.{One};
ghost use Rattle.ap_bits.specs.Operations.{binary_value};
ghost use Rattle.ap_net.specs.Cells.{IsNet, AreOfOneWidth};
ghost use Rattle.ap_net.specs.Draft.{CanFresh, Means};
ghost use Rattle.ap_net.specs.Making.{Makes};

use ap_bits::{NoMemory, mask};
use ap_net::builder::Builder;
use ap_net::cell::{Cell, TwoOp, Wire};
use ap_unit::{UnitKind, declare_inputs, show_result};

/// The bits that aren't 1 in both nets.
#[tactic(auto, using(ap_net::proofs::Laws::laws))]
fn not_both(out: &mut Builder, a: Wire, b: Wire) -> Result<Wire, NoMemory>
    requires fresh { CanFresh out.old }
    requires operands { AreOfOneWidth out.old.nets a b }
    ensures net { IfOk result (λ y. IsNet out.new.nets y × (y.width ≡ a.width)) }
    ensures value { IfOk result (λ y. Means out.old out.new (λ read.
        read y.number ≡ binary_value Xor a.width
        (binary_value And a.width (read a.number) (read b.number)) (2 ^ a.width - 1))) }
    ensures makes { OnOk result (Makes out.old out.new) }
{
    let both = out.make(a.width, Cell::Two(TwoOp::And, a, b))?;
    let ones = out.make(a.width, Cell::Const(mask(a.width)))?;
    let others = out.make(a.width, Cell::Two(TwoOp::Xor, both, ones))?;
    Ok(others)
}

/// The kind.
#[derive(Clone, Copy, Debug)]
pub struct Nand;

impl UnitKind for Nand {
    ghost card = { λ _. record { name = codes "nand"; ops = record { name = codes "nand"; term = Bin Xor (Bin And A B) (Const 18446744073709551615) } ∷ []; widths = Any; latency = One } };

    fn name(&self) -> &str {
        "nand"
    }

    fn op_count(&self) -> u32 {
        1
    }

    fn op_name(&self, _i: u32) -> &str {
        "nand"
    }

    fn fits(&self, w: u32) -> bool {
        1 <= w && w <= 64
    }

    fn latency(&self, _w: u32) -> u32 {
        1
    }

    fn value(&self, w: u32, _op: u32, a: u64, b: u64) -> u64 {
        (a & b) ^ mask(w)
    }

    fn build(&self, w: u32, out: &mut Builder) -> Result<(), NoMemory> {
        let inputs = declare_inputs(out, 1, w)?;
        let y = not_both(out, inputs.a, inputs.b)?;
        show_result(out, inputs, y)
    }
}
