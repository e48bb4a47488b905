use crate::boxed::Boxed;

/// An operation on one value. What each gives stands in `specs/Operations.antt`.
#[derive(Clone, Copy, Debug, PartialEq, Eq)]
pub enum UnOp {
    /// The number of bits that are 1.
    Pop,
    /// The number of bits 0 above the highest 1, the width for 0.
    Clz,
    /// The value as it is.
    Pass,
}

/// An operation on two values of one width. What each gives stands in `specs/Operations.antt`.
#[derive(Clone, Copy, Debug, PartialEq, Eq)]
pub enum BinOp {
    /// The sum.
    Add,
    /// The difference.
    Sub,
    /// 1 where both bits are 1, bit by bit.
    And,
    /// 1 where a bit is 1, bit by bit.
    Or,
    /// 1 where one bit of the two is 1, bit by bit.
    Xor,
    /// 1 where the values are equal, else 0.
    Eq,
    /// 1 where the first is less, else 0.
    Ltu,
    /// 1 where the first is less as a two's complement number, else 0.
    Lts,
    /// The first shifted left by the second; 0 for shifts by the width or more.
    Sll,
    /// The first shifted right by the second; 0 for shifts by the width or more.
    Srl,
    /// The first shifted right by the second, its high bit copied in.
    Sra,
    /// The first rotated left by the second modulo the width.
    Rol,
    /// The low half of the product.
    Mullo,
    /// The high half of the product.
    Mulhi,
    /// The quotient rounded down; all ones where the divisor is 0.
    Divu,
    /// The remainder; the dividend where the divisor is 0.
    Remu,
}

/// What an operation of a resource computes from its two operands. The definition of its value stands in
/// `specs/Terms.antt`, and [`crate::eval`] computes it.
#[derive(Debug, Drop)]
pub enum Term {
    /// The first operand.
    A,
    /// The second operand.
    B,
    /// This number modulo 2^w.
    Const(u64),
    /// An operation on the value of a term.
    Un(UnOp, Boxed<Term>),
    /// An operation on the values of two terms.
    Bin(BinOp, Boxed<Term>, Boxed<Term>),
}
