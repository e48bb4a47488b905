ghost use Rattle.std.specs.Prelude.{◌≡◌, ◌^◌, ◌<◌, ◌≤◌};
ghost use Rattle.ap_bits.specs.Operations.{unary_value, binary_value};
ghost use Rattle.ap_bits.specs.Terms.{term_value};

use crate::term::{BinOp, Term, UnOp};
use crate::words;

/// The value of a term at `w` bits, for the operands `a` and `b`. `w` is from 1 to 64, and the operands are below 2^w, as
/// the value is. It takes no memory.
#[tactic(auto, using(crate::proofs::TermValues::term_values, std::proofs::lemmas::Nat::and_mask))]
pub fn eval(t: &Term, w: u32, a: u64, b: u64) -> u64
    requires low { 1 ≤ w }
    requires high { w ≤ 64 }
    requires a { a < 2 ^ w }
    requires b { b < 2 ^ w }
    ensures value { result ≡ term_value t.now w a b }
    ensures fits { result < 2 ^ w }
{
    match t {
        Term::A => a,
        Term::B => b,
        Term::Const(value) => *value & words::mask(w),
        Term::Un(op, part) => unary(*op, w, eval(part.get(), w, a, b)),
        Term::Bin(op, first, second) => {
            let first = eval(first.get(), w, a, b);
            let second = eval(second.get(), w, a, b);
            binary(*op, w, first, second)
        }
    }
}

/// The value of an operation on one value at `w` bits, from 1 to 64. The operand is below 2^w, as the value is. It takes no
/// memory.
pub fn unary(op: UnOp, w: u32, a: u64) -> u64
    requires low { 1 ≤ w }
    requires high { w ≤ 64 }
    requires a { a < 2 ^ w }
    ensures value { result ≡ unary_value op w a }
    ensures fits { result < 2 ^ w }
{
    match op {
        UnOp::Pop => words::ones(w, a),
        UnOp::Clz => words::leading(w, a),
        UnOp::Pass => a,
    }
}

/// The value of an operation on two values at `w` bits, from 1 to 64. The operands are below 2^w, as the value is. It takes
/// no memory.
pub fn binary(op: BinOp, w: u32, a: u64, b: u64) -> u64
    requires low { 1 ≤ w }
    requires high { w ≤ 64 }
    requires a { a < 2 ^ w }
    requires b { b < 2 ^ w }
    ensures value { result ≡ binary_value op w a b }
    ensures fits { result < 2 ^ w }
{
    match op {
        BinOp::Add => words::sum(w, a, b),
        BinOp::Sub => words::difference(w, a, b),
        BinOp::And => a & b,
        BinOp::Or => a | b,
        BinOp::Xor => a ^ b,
        BinOp::Eq => words::flag(a == b),
        BinOp::Ltu => words::flag(a < b),
        BinOp::Lts => words::flag(words::is_less(w, a, b)),
        BinOp::Sll => words::left(w, a, b),
        BinOp::Srl => words::right(w, a, b),
        BinOp::Sra => words::right_signed(w, a, b),
        BinOp::Rol => words::rotated(w, a, b),
        BinOp::Mullo => words::product_low(w, a, b),
        BinOp::Mulhi => words::product_high(w, a, b),
        BinOp::Divu => words::quotient(w, a, b),
        BinOp::Remu => words::remainder(a, b),
    }
}
