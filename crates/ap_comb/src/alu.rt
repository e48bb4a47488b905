//! The unit for sums, bits and comparisons.
ghost use Rattle.std.specs.Prelude.{◌≡◌, ℕ, ◌+◌, ◌-◌, ◌/◌, ◌%◌, ◌^◌, ◌<◌, ◌≤◌, ◌==◌, if◌then◌else◌, IfOk, OnOk, All, length, map, bit_xor};
ghost use Rattle.ap_bits.specs.declared.term.BinOp.TheVariants as two;
ghost use Rattle.ap_bits.specs.Operations.{binary_value};
ghost use Rattle.ap_net.specs.Cells.{IsNet, AreOfOneWidth, FitsTwo, two_value};
ghost use Rattle.ap_net.specs.Draft.{CanFresh, Means};
ghost use Rattle.ap_net.specs.Making.{Makes};
ghost use Rattle.ap_bits.specs.Cards.{operation_value, FitsWidth};
ghost use Rattle.ap_bits.specs.KindCards.{alu_card};
ghost use Rattle.ap_comb.specs.Alu.{name_of, result_of};
ghost use Rattle.ap_comb.specs.Choices.{IsOfWidth, values_of};
ghost use Rattle.ap_unit.specs.Built.{IsBlank, IsUnitDraft};
ghost use Rattle.ap_unit.specs.Named.{NamesPlainly};

use crate::parts::{bit, widened};
use crate::select::select;
use ap_bits::{BinOp, NoMemory, UnOp, binary, unary};
use ap_net::builder::Builder;
use ap_net::cell::{Cell, TwoOp, Wire};
use ap_unit::{Inputs, UnitKind, declare_inputs, show_result};

/// An operation of the unit.
#[derive(Clone, Copy, Debug, PartialEq, Eq)]
enum Operation {
    Add,
    Sub,
    And,
    Or,
    Xor,
    Eq,
    Ltu,
    Lts,
    Pass,
}

/// The operations in the order of their numbers.
const OPERATIONS: [Operation; 9] = [
    Operation::Add,
    Operation::Sub,
    Operation::And,
    Operation::Or,
    Operation::Xor,
    Operation::Eq,
    Operation::Ltu,
    Operation::Lts,
    Operation::Pass,
];

/// The bits of the input that chooses an operation.
const SELECT: u32 = 4;

/// A comparison of two nets, with zeros above it to their width.
#[tactic(auto, using(ap_net::proofs::Laws::laws))]
fn flag(out: &mut Builder, op: TwoOp, a: Wire, b: Wire) -> Result<Wire, NoMemory>
    requires fresh { CanFresh out.old }
    requires op { FitsTwo op 1 a.width }
    requires operands { AreOfOneWidth out.old.nets a b }
    ensures net { IfOk result (IsOfWidth out.new.nets a.width) }
    ensures value { IfOk result (λ y. Means out.old out.new (λ read.
        read y.number ≡ two_value op 1 (read a.number) (read b.number))) }
    ensures makes { OnOk result (Makes out.old out.new) }
{
    let holds = out.make(1, Cell::Two(op, a, b))?;
    let wide = widened(out, holds, a.width)?;
    Ok(wide)
}

/// The first of two signs where they differ, else `below`. Each is one bit.
#[tactic(auto, using(ap_net::proofs::Laws::laws))]
fn by_signs(out: &mut Builder, first: Wire, second: Wire, below: Wire) -> Result<Wire, NoMemory>
    requires fresh { CanFresh out.old }
    requires first { IsNet out.old.nets first }
    requires first_bit { first.width ≡ 1 }
    requires second { IsNet out.old.nets second }
    requires second_bit { second.width ≡ 1 }
    requires below { IsNet out.old.nets below }
    requires below_bit { below.width ≡ 1 }
    ensures net { IfOk result (IsOfWidth out.new.nets 1) }
    ensures value { IfOk result (λ y. Means out.old out.new (λ read.
        read y.number ≡ (if bit_xor (read first.number) (read second.number) == 1
        then read first.number else read below.number))) }
    ensures makes { OnOk result (Makes out.old out.new) }
{
    let differ = out.make(1, Cell::Two(TwoOp::Xor, first, second))?;
    let less = out.make(1, Cell::Choose(differ, first, below))?;
    Ok(less)
}

/// Whether the first of two nets is less as a two's complement number: one bit.
#[tactic(auto, using(ap_net::proofs::Laws::laws))]
fn is_less(out: &mut Builder, a: Wire, b: Wire) -> Result<Wire, NoMemory>
    requires fresh { CanFresh out.old }
    requires operands { AreOfOneWidth out.old.nets a b }
    ensures net { IfOk result (IsOfWidth out.new.nets 1) }
    ensures value { IfOk result (λ y. Means out.old out.new (λ read.
        read y.number ≡ binary_value two.Lts a.width (read a.number) (read b.number))) }
    ensures makes { OnOk result (Makes out.old out.new) }
{
    let first = bit(out, a, a.width - 1)?;
    let second = bit(out, b, a.width - 1)?;
    let below = out.make(1, Cell::Two(TwoOp::Ltu, a, b))?;
    let less = by_signs(out, first, second, below)?;
    Ok(less)
}

/// The signed comparison of two nets, with zeros above it to their width.
#[tactic(auto, using(ap_net::proofs::Laws::laws))]
fn signed_flag(out: &mut Builder, a: Wire, b: Wire) -> Result<Wire, NoMemory>
    requires fresh { CanFresh out.old }
    requires operands { AreOfOneWidth out.old.nets a b }
    ensures net { IfOk result (IsOfWidth out.new.nets a.width) }
    ensures value { IfOk result (λ y. Means out.old out.new (λ read.
        read y.number ≡ binary_value two.Lts a.width (read a.number) (read b.number))) }
    ensures makes { OnOk result (Makes out.old out.new) }
{
    let less = is_less(out, a, b)?;
    let wide = widened(out, less, a.width)?;
    Ok(wide)
}

/// A cell of an operator whose result has the width of its operands.
#[tactic(auto, using(ap_net::proofs::Laws::laws))]
fn word(out: &mut Builder, op: TwoOp, a: Wire, b: Wire) -> Result<Wire, NoMemory>
    requires fresh { CanFresh out.old }
    requires op { FitsTwo op a.width a.width }
    requires operands { AreOfOneWidth out.old.nets a b }
    ensures net { IfOk result (IsOfWidth out.new.nets a.width) }
    ensures value { IfOk result (λ y. Means out.old out.new (λ read.
        read y.number ≡ two_value op a.width (read a.number) (read b.number))) }
    ensures makes { OnOk result (Makes out.old out.new) }
{
    let made = out.make(a.width, Cell::Two(op, a, b))?;
    Ok(made)
}

impl Operation {
    /// The name by which descriptions call it.
    fn name(self) -> &'static str
        ensures { result.now ≡ name_of self }
    {
        match self {
            Operation::Add => "add",
            Operation::Sub => "sub",
            Operation::And => "and",
            Operation::Or => "or",
            Operation::Xor => "xor",
            Operation::Eq => "eq",
            Operation::Ltu => "ltu",
            Operation::Lts => "lts",
            Operation::Pass => "pass",
        }
    }

    /// What it gives at `w` bits.
    fn value(self, w: u32, a: u64, b: u64) -> u64
        requires low { 1 ≤ w }
        requires high { w ≤ 64 }
        requires a { a < 2 ^ w }
        requires b { b < 2 ^ w }
        ensures { result ≡ result_of self w a b }
    {
        match self {
            Operation::Add => binary(BinOp::Add, w, a, b),
            Operation::Sub => binary(BinOp::Sub, w, a, b),
            Operation::And => binary(BinOp::And, w, a, b),
            Operation::Or => binary(BinOp::Or, w, a, b),
            Operation::Xor => binary(BinOp::Xor, w, a, b),
            Operation::Eq => binary(BinOp::Eq, w, a, b),
            Operation::Ltu => binary(BinOp::Ltu, w, a, b),
            Operation::Lts => binary(BinOp::Lts, w, a, b),
            Operation::Pass => unary(UnOp::Pass, w, a),
        }
    }

    /// The net with its result.
    #[tactic(auto, using(ap_net::proofs::Laws::laws))]
    fn make(self, out: &mut Builder, a: Wire, b: Wire) -> Result<Wire, NoMemory>
        requires fresh { CanFresh out.old }
        requires operands { AreOfOneWidth out.old.nets a b }
        ensures net { IfOk result (IsOfWidth out.new.nets a.width) }
        ensures value { IfOk result (λ y. Means out.old out.new (λ read.
            read y.number ≡ result_of self a.width (read a.number) (read b.number))) }
        ensures makes { OnOk result (Makes out.old out.new) }
    {
        match self {
            Operation::Add => word(out, TwoOp::Add, a, b),
            Operation::Sub => word(out, TwoOp::Sub, a, b),
            Operation::And => word(out, TwoOp::And, a, b),
            Operation::Or => word(out, TwoOp::Or, a, b),
            Operation::Xor => word(out, TwoOp::Xor, a, b),
            Operation::Eq => flag(out, TwoOp::Eq, a, b),
            Operation::Ltu => flag(out, TwoOp::Ltu, a, b),
            Operation::Lts => signed_flag(out, a, b),
            Operation::Pass => Ok(a),
        }
    }
}

/// The nets with the results of all operations, in the order of their numbers.
#[tactic(auto, using(ap_net::proofs::Laws::laws))]
fn results(out: &mut Builder, a: Wire, b: Wire) -> Result<Vec<Wire>, NoMemory>
    requires fresh { CanFresh out.old }
    requires operands { AreOfOneWidth out.old.nets a b }
    ensures long { IfOk result (λ made. length made.items ≡ 9) }
    ensures nets { IfOk result (λ made. All (IsOfWidth out.new.nets a.width) made.items) }
    ensures value { IfOk result (λ made. Means out.old out.new (λ read. values_of read made.items
        ≡ map (λ o. result_of o a.width (read a.number) (read b.number)) OPERATIONS)) }
    ensures makes { OnOk result (Makes out.old out.new) }
{
    let mut made = Vec::new(out.allocator());
    for operation in OPERATIONS {
        let result = operation.make(out, a, b)?;
        made.push(result)?;
    }
    Ok(made)
}

/// The result of the operation that `sel` chooses.
#[tactic(auto, using(ap_net::proofs::Laws::laws))]
fn chosen(out: &mut Builder, inputs: Inputs) -> Result<Wire, NoMemory>
    requires fresh { CanFresh out.old }
    requires sel { IsNet out.old.nets inputs.sel }
    requires bits { inputs.sel.width ≡ SELECT }
    requires operands { AreOfOneWidth out.old.nets inputs.a inputs.b }
    ensures net { IfOk result (IsOfWidth out.new.nets inputs.a.width) }
    ensures value { IfOk result (λ y. Means out.old out.new (λ read.
        read inputs.sel.number < 9 → read y.number
        ≡ operation_value alu_card inputs.a.width (read inputs.sel.number)
        (read inputs.a.number) (read inputs.b.number))) }
    ensures makes { OnOk result (Makes out.old out.new) }
{
    let Inputs { sel, a, b } = inputs;
    let made = results(out, a, b)?;
    let result = select(out, sel, &made, a.width)?;
    Ok(result)
}

/// The unit `alu`: `add`, `sub`, `and`, `or`, `xor`, `eq`, `ltu`, `lts` and `pass`, at every width, in one cycle.
#[derive(Clone, Copy, Debug, PartialEq, Eq)]
pub struct Alu;

#[tactic(auto, using(ap_unit::proofs::Laws::kind_cards))]
impl UnitKind for Alu {
    ghost card = { λ _. alu_card };

    fn name(&self) -> &str {
        "alu"
    }

    fn op_count(&self) -> u32 {
        OPERATIONS.len() as u32
    }

    fn op_name(&self, i: u32) -> &str {
        OPERATIONS[i as usize].name()
    }

    fn fits(&self, w: u32) -> bool {
        (1..=64).contains(&w)
    }

    fn latency(&self, _: u32) -> u32 {
        1
    }

    fn value(&self, w: u32, op: u32, a: u64, b: u64) -> u64 {
        OPERATIONS[op as usize].value(w, a, b)
    }

    /// Builds the unit; the wires of its module are named `n` and digits, and there are no registers.
    fn build(&self, w: u32, out: &mut Builder) -> Result<(), NoMemory>
        requires width { FitsWidth alu_card w }
        requires new { IsBlank out.old }
        ensures name { OnOk result (out.new.name ≡ out.old.name) }
        ensures unit { OnOk result (IsUnitDraft out.new alu_card w) }
        ensures names { OnOk result (NamesPlainly out.new) }
    {
        let inputs = declare_inputs(out, SELECT, w)?;
        let y = chosen(out, inputs)?;
        show_result(out, inputs, y)?;
        Ok(())
    }
}
