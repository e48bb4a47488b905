/// A net, by its number in the list of nets that it belongs to, and its width in bits.
#[derive(Clone, Copy, Debug, PartialEq, Eq)]
pub struct Wire {
    pub number: usize,
    pub width: u32,
}

/// An operator with two operands, with its meaning in IEEE 1364 on unsigned nets.
#[derive(Clone, Copy, Debug, PartialEq, Eq)]
pub enum TwoOp {
    /// `a + b`, modulo 2 to the width.
    Add,
    /// `a - b`, modulo 2 to the width.
    Sub,
    /// `a & b`, bit by bit.
    And,
    /// `a | b`, bit by bit.
    Or,
    /// `a ^ b`, bit by bit.
    Xor,
    /// `a == b`, one bit.
    Eq,
    /// `a < b` as unsigned numbers, one bit.
    Ltu,
}

/// The right side of an assign.
#[derive(Clone, Copy, Debug, PartialEq, Eq)]
pub enum Cell {
    /// A constant of the result's width.
    Const(u64),
    /// The net itself.
    Copy(Wire),
    /// `~a`, bit by bit.
    Not(Wire),
    /// An operator between two nets of one width.
    Two(TwoOp, Wire, Wire),
    /// `s ? a : b`: a where the one-bit net s is 1, else b.
    Choose(Wire, Wire, Wire),
    /// `{a, b}`: a in the high bits, b in the low ones.
    Cat(Wire, Wire),
    /// `a[h:l]`: the bits from h down to l.
    Slice(Wire, u32, u32),
}
