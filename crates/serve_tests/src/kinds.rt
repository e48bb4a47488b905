//! Kinds of units named `alu`, of which shelves for the tests are made.
ghost use Rattle.std.specs.Prelude.{◌≡◌, ℕ, ◌≤◌, IfOk, OnOk};
ghost use Rattle.ap_net.specs.Cells.{IsNet};
ghost use Rattle.ap_net.specs.Draft.{CanFresh, SettlesDraft};
ghost use Rattle.ap_net.specs.Making.{Makes};
ghost use Rattle.serve_tests.specs.TestCards.{less_and_sum_card, sum_or_less_value};

use ap_bits::{BinOp, NoMemory, binary};
use ap_net::builder::Builder;
use ap_net::cell::{Cell, TwoOp, Wire};
use ap_unit::{Shelf, UnitKind, declare_inputs, show_result};
use std::alloc::Global;
use std::test::Fail;

/// The sum where `sel` is 1, and else the first operand less the second.
#[tactic(auto, using(ap_net::proofs::Laws::laws))]
fn sum_or_less(out: &mut Builder, sel: Wire, a: Wire, b: Wire) -> Result<Wire, NoMemory>
    requires fresh { CanFresh out.old }
    requires sel { IsNet out.old.nets sel }
    requires one_bit { sel.width ≡ 1 }
    requires a { IsNet out.old.nets a }
    requires b { IsNet out.old.nets b }
    requires same { b.width ≡ a.width }
    requires low { 1 ≤ a.width }
    requires high { a.width ≤ 64 }
    ensures net { IfOk result (λ y. IsNet out.new.nets y × (y.width ≡ a.width)) }
    ensures value { IfOk result (λ y. (read : ℕ → ℕ) → SettlesDraft out.new read
        → SettlesDraft out.old read × (read y.number
        ≡ sum_or_less_value a.width (read sel.number) (read a.number) (read b.number))) }
    ensures makes { OnOk result (Makes out.old out.new) }
{
    let less = out.make(a.width, Cell::Two(TwoOp::Sub, a, b))?;
    let sum = out.make(a.width, Cell::Two(TwoOp::Add, a, b))?;
    let y = out.make(a.width, Cell::Choose(sel, sum, less))?;
    Ok(y)
}

/// It has `sub` and `add`, in this order.
#[derive(Clone, Copy, Debug)]
pub struct LessAndSum;

#[tactic(auto, using(ap_unit::proofs::Laws::kind_cards))]
impl UnitKind for LessAndSum {
    ghost card = { λ _. less_and_sum_card };

    fn name(&self) -> &str {
        "alu"
    }

    fn op_count(&self) -> u32 {
        2
    }

    fn op_name(&self, i: u32) -> &str {
        if i == 0 { "sub" } else { "add" }
    }

    fn fits(&self, w: u32) -> bool {
        (1..=64).contains(&w)
    }

    fn latency(&self, _w: u32) -> u32 {
        1
    }

    fn value(&self, w: u32, op: u32, a: u64, b: u64) -> u64 {
        if op == 0 {
            binary(BinOp::Sub, w, a, b)
        } else {
            binary(BinOp::Add, w, a, b)
        }
    }

    fn build(&self, w: u32, out: &mut Builder) -> Result<(), NoMemory> {
        let inputs = declare_inputs(out, 1, w)?;
        let y = sum_or_less(out, inputs.sel, inputs.a, inputs.b)?;
        show_result(out, inputs, y)?;
        Ok(())
    }
}

/// A shelf without a kind.
pub fn empty_shelf(alloc: Global) -> Result<Shelf, Fail> {
    let kinds: Vec<Box<dyn UnitKind>> = Vec::new(alloc);
    Ok(Shelf::new(kinds).ok().ok_or("two kinds of one name")?)
}

/// A shelf of one kind.
pub fn shelf_of(alloc: Global, kind: Box<dyn UnitKind>) -> Result<Shelf, Fail> {
    let mut kinds: Vec<Box<dyn UnitKind>> = Vec::new(alloc);
    kinds.push(kind)?;
    Ok(Shelf::new(kinds).ok().ok_or("two kinds of one name")?)
}
