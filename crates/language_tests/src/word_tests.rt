//! The calls on a few of the worked rows.
use ap_bits::{
    BinOp, Boxed, Card, Items, Latency, Name, NoMemory, OpCard, Term, UnOp, Widths, eval, mask,
    sext,
};
use std::alloc::Global;
use std::process::Abort;
use std::test::Fail;

/// An operation on both operands.
fn both(alloc: Global, op: BinOp) -> Result<Term, NoMemory> {
    let first = Boxed::new(alloc, Term::A)?;
    let second = Boxed::new(alloc, Term::B)?;
    Ok(Term::Bin(op, first, second))
}

/// The mean, as the sum shifted by one.
fn mean(alloc: Global) -> Result<Term, NoMemory> {
    let sum = Boxed::new(alloc, both(alloc, BinOp::Add)?)?;
    let one = Boxed::new(alloc, Term::Const(1))?;
    Ok(Term::Bin(BinOp::Srl, sum, one))
}

/// Not both, by a number that is wider than the width.
fn nand(alloc: Global) -> Result<Term, NoMemory> {
    let and = Boxed::new(alloc, both(alloc, BinOp::And)?)?;
    let ones = Boxed::new(alloc, Term::Const(u64::MAX))?;
    Ok(Term::Bin(BinOp::Xor, and, ones))
}

/// Checks the value of a term.
fn expect(rt: &impl Abort, term: &Term, w: u32, a: u64, b: u64, value: u64) {
    assert!(rt; 1 <= w && w <= 64);
    assert!(rt; a <= mask(w));
    assert!(rt; b <= mask(w));
    assert_eq!(rt; eval(term, w, a, b), value, "at {w} bits of {a} and {b}");
}

const TOP: u64 = 9223372036854775808;

const ROWS: [(BinOp, u32, u64, u64, u64); 28] = [
    (BinOp::Add, 8, 255, 3, 2),
    (BinOp::Add, 64, u64::MAX, 1, 0),
    (BinOp::Sub, 1, 0, 1, 1),
    (BinOp::Sub, 8, 3, 5, 254),
    (BinOp::And, 8, 12, 10, 8),
    (BinOp::Or, 8, 12, 10, 14),
    (BinOp::Xor, 8, 12, 10, 6),
    (BinOp::Eq, 64, TOP, TOP, 1),
    (BinOp::Ltu, 8, 128, 127, 0),
    (BinOp::Lts, 8, 128, 127, 1),
    (BinOp::Lts, 1, 1, 0, 1),
    (BinOp::Sll, 8, 129, 1, 2),
    (BinOp::Sll, 64, 1, 63, TOP),
    (BinOp::Sll, 8, 1, 8, 0),
    (BinOp::Srl, 64, TOP, 63, 1),
    (BinOp::Srl, 8, 255, 255, 0),
    (BinOp::Sra, 8, 144, 2, 228),
    (BinOp::Sra, 64, TOP, u64::MAX, u64::MAX),
    (BinOp::Sra, 8, 112, 8, 0),
    (BinOp::Rol, 8, 129, 9, 3),
    (BinOp::Rol, 64, TOP, 64, TOP),
    (BinOp::Mullo, 8, 20, 13, 4),
    (BinOp::Mulhi, 8, 20, 13, 1),
    (BinOp::Mulhi, 64, u64::MAX, u64::MAX, 18446744073709551614),
    (BinOp::Divu, 64, 7, 0, u64::MAX),
    (BinOp::Divu, 8, 200, 7, 28),
    (BinOp::Remu, 64, 7, 0, 7),
    (BinOp::Remu, 8, 200, 7, 4),
];

#[test]
fn evaluates(rt: HostRuntime) -> Result<(), Fail> {
    let alloc = rt.alloc();
    for (op, w, a, b, value) in ROWS {
        expect(&rt, &both(alloc, op)?, w, a, b, value);
    }
    expect(&rt, &mean(alloc)?, 8, 255, 3, 1);
    expect(&rt, &nand(alloc)?, 8, 0, 5, 255);
    for (op, w, a, value) in [
        (UnOp::Pop, 8, 150, 4),
        (UnOp::Pop, 64, u64::MAX, 64),
        (UnOp::Clz, 8, 0, 8),
        (UnOp::Clz, 64, 5, 61),
        (UnOp::Clz, 1, 1, 0),
        (UnOp::Pass, 8, 77, 77),
    ] {
        let term = Term::Un(op, Boxed::new(alloc, Term::A)?);
        expect(&rt, &term, w, a, 0, value);
    }
    Ok(())
}

#[test]
fn extends(rt: HostRuntime) {
    assert_eq!(rt; mask(1), 1);
    assert_eq!(rt; mask(8), 255);
    assert_eq!(rt; mask(64), u64::MAX);
    assert_eq!(rt; sext(31, 6, 8), 31);
    assert_eq!(rt; sext(32, 6, 8), 224);
    assert_eq!(rt; sext(1, 1, 64), u64::MAX);
    assert_eq!(rt; sext(TOP, 64, 64), TOP);
}

#[test]
fn keeps_cards(rt: HostRuntime) -> Result<(), Fail> {
    let alloc = rt.alloc();
    let mut ops = Items::new(alloc);
    assert!(rt; ops.is_empty());
    let term = mean(alloc)?;
    let name = Name::new(alloc, b"avg")?;
    ops.push(OpCard {
        name: name.copy(alloc)?,
        term,
    })?;
    let card = Card {
        name,
        ops,
        widths: Widths::Any,
        latency: Latency::One,
    };
    assert_eq!(rt; card.name.as_str(), "avg");
    assert_eq!(rt; card.ops.len(), 1);
    for op in card.ops.as_slice() {
        assert_eq!(rt; op.name.as_str(), "avg");
        expect(&rt, &op.term, 8, 255, 3, 1);
    }
    Ok(())
}

/// 32 bytes are a name, 33 aren't, and a name begins with a letter.
#[test]
fn parses_names(rt: HostRuntime) -> Result<(), Fail> {
    let alloc = rt.alloc();
    let longest = Name::parse(alloc, b"a2345678901234567890123456789012")?.ok_or("a name")?;
    assert_eq!(rt; longest.as_str().len(), 32);
    assert!(rt; Name::parse(alloc, b"a23456789012345678901234567890123")?.is_none());
    assert!(rt; Name::parse(alloc, b"1a")?.is_none());
    assert!(rt; Name::parse(alloc, b"a_b")?.is_none());
    assert!(rt; Name::parse(alloc, b"")?.is_none());
    Ok(())
}
