//! The smallest kind: one operation, the second operand less the first.
ghost use Rattle.circuit_tests.specs.Reverse.{reverse_card};

use ap_bits::{BinOp, NoMemory, binary};
use ap_net::builder::Builder;
use ap_net::cell::{Cell, TwoOp};
use ap_unit::{UnitKind, declare_inputs, show_result};

/// The kind `reverse`.
#[derive(Clone, Copy, Debug)]
pub struct Reverse;

#[tactic(auto, using(ap_unit::proofs::Laws::kind_cards))]
impl UnitKind for Reverse {
    ghost card = { λ _. reverse_card };

    fn name(&self) -> &str {
        "reverse"
    }

    fn op_count(&self) -> u32 {
        1
    }

    fn op_name(&self, _i: u32) -> &str {
        "rsub"
    }

    fn fits(&self, w: u32) -> bool {
        (1..=64).contains(&w)
    }

    fn latency(&self, _w: u32) -> u32 {
        1
    }

    fn value(&self, w: u32, _op: u32, a: u64, b: u64) -> u64 {
        binary(BinOp::Sub, w, b, a)
    }

    fn build(&self, w: u32, out: &mut Builder) -> Result<(), NoMemory> {
        let inputs = declare_inputs(out, 1, w)?;
        let y = out.make(inputs.a.width, Cell::Two(TwoOp::Sub, inputs.b, inputs.a))?;
        show_result(out, inputs, y)?;
        Ok(())
    }
}
