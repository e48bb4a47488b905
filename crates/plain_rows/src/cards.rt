//! The kinds of units that the program knows, as cards and as a shelf.
ghost use Rattle.std.specs.Prelude.{◌≡◌, IfOk};
ghost use Rattle.ap_bits.specs.KindCards as kinds;
ghost use Rattle.ap_bits.specs.Names.{IsName};
ghost use Rattle.ap_unit.specs.Shelves.{boxed_cards_of};
ghost use Rattle.plain_rows.specs.Shelf as shelves;

use ap_bits::{BinOp, Boxed, Card, Items, Latency, Name, NoMemory, OpCard, Term, UnOp, Widths};
use ap_unit::{Shelf, UnitKind};
use std::alloc::{AllocError, Global};

/// An operation on both operands.
fn on_both(alloc: Global, name: &[u8], op: BinOp) -> Result<OpCard, NoMemory>
    requires { IsName name.now }
    ensures { IfOk result (λ made. made ≡ kinds.on_both name.now op) }
{
    let term = Term::Bin(op, Boxed::new(alloc, Term::A)?, Boxed::new(alloc, Term::B)?);
    let name = Name::new(alloc, name)?;
    Ok(OpCard { name, term })
}

/// An operation on the first.
fn on_first(alloc: Global, name: &[u8], op: UnOp) -> Result<OpCard, NoMemory>
    requires { IsName name.now }
    ensures { IfOk result (λ made. made ≡ kinds.on_first name.now op) }
{
    let term = Term::Un(op, Boxed::new(alloc, Term::A)?);
    let name = Name::new(alloc, name)?;
    Ok(OpCard { name, term })
}

/// Sums, bits and comparisons.
fn alu_card(alloc: Global) -> Result<Card, NoMemory>
    ensures { IfOk result (λ card. card ≡ kinds.alu_card) }
{
    let mut ops = Items::new(alloc);
    ops.push(on_both(alloc, b"add", BinOp::Add)?)?;
    ops.push(on_both(alloc, b"sub", BinOp::Sub)?)?;
    ops.push(on_both(alloc, b"and", BinOp::And)?)?;
    ops.push(on_both(alloc, b"or", BinOp::Or)?)?;
    ops.push(on_both(alloc, b"xor", BinOp::Xor)?)?;
    ops.push(on_both(alloc, b"eq", BinOp::Eq)?)?;
    ops.push(on_both(alloc, b"ltu", BinOp::Ltu)?)?;
    ops.push(on_both(alloc, b"lts", BinOp::Lts)?)?;
    ops.push(on_first(alloc, b"pass", UnOp::Pass)?)?;
    let name = Name::new(alloc, b"alu")?;
    Ok(Card {
        name,
        ops,
        widths: Widths::Any,
        latency: Latency::One,
    })
}

/// Shifts and a rotation.
fn shift_card(alloc: Global) -> Result<Card, NoMemory>
    ensures { IfOk result (λ card. card ≡ kinds.shift_card) }
{
    let mut ops = Items::new(alloc);
    ops.push(on_both(alloc, b"sll", BinOp::Sll)?)?;
    ops.push(on_both(alloc, b"srl", BinOp::Srl)?)?;
    ops.push(on_both(alloc, b"sra", BinOp::Sra)?)?;
    ops.push(on_both(alloc, b"rol", BinOp::Rol)?)?;
    let name = Name::new(alloc, b"shift")?;
    Ok(Card {
        name,
        ops,
        widths: Widths::PowersOfTwo,
        latency: Latency::One,
    })
}

/// Counts of bits.
fn count_card(alloc: Global) -> Result<Card, NoMemory>
    ensures { IfOk result (λ card. card ≡ kinds.count_card) }
{
    let mut ops = Items::new(alloc);
    ops.push(on_first(alloc, b"pop", UnOp::Pop)?)?;
    ops.push(on_first(alloc, b"clz", UnOp::Clz)?)?;
    let name = Name::new(alloc, b"count")?;
    Ok(Card {
        name,
        ops,
        widths: Widths::Any,
        latency: Latency::One,
    })
}

/// The average of two numbers.
fn avg_card(alloc: Global) -> Result<Card, NoMemory>
    ensures { IfOk result (λ card. card ≡ kinds.avg_card) }
{
    let sum = Term::Bin(
        BinOp::Add,
        Boxed::new(alloc, Term::A)?,
        Boxed::new(alloc, Term::B)?,
    );
    let half = Term::Bin(
        BinOp::Srl,
        Boxed::new(alloc, sum)?,
        Boxed::new(alloc, Term::Const(1))?,
    );
    let mut ops = Items::new(alloc);
    ops.push(OpCard {
        name: Name::new(alloc, b"avg")?,
        term: half,
    })?;
    let name = Name::new(alloc, b"avg")?;
    Ok(Card {
        name,
        ops,
        widths: Widths::Any,
        latency: Latency::One,
    })
}

/// The two halves of a product.
fn mul_card(alloc: Global) -> Result<Card, NoMemory>
    ensures { IfOk result (λ card. card ≡ kinds.mul_card) }
{
    let mut ops = Items::new(alloc);
    ops.push(on_both(alloc, b"mullo", BinOp::Mullo)?)?;
    ops.push(on_both(alloc, b"mulhi", BinOp::Mulhi)?)?;
    let name = Name::new(alloc, b"mul")?;
    Ok(Card {
        name,
        ops,
        widths: Widths::Any,
        latency: Latency::WidthPlusOne,
    })
}

/// Quotients and remainders.
fn div_card(alloc: Global) -> Result<Card, NoMemory>
    ensures { IfOk result (λ card. card ≡ kinds.div_card) }
{
    let mut ops = Items::new(alloc);
    ops.push(on_both(alloc, b"divu", BinOp::Divu)?)?;
    ops.push(on_both(alloc, b"remu", BinOp::Remu)?)?;
    let name = Name::new(alloc, b"div")?;
    Ok(Card {
        name,
        ops,
        widths: Widths::Any,
        latency: Latency::WidthPlusOne,
    })
}

/// The cards of the kinds that the program knows.
pub(crate) fn known_cards(alloc: Global) -> Result<Items<Card>, NoMemory>
    ensures { IfOk result (λ cards. cards ≡ shelves.known_cards) }
{
    let mut cards = Items::new(alloc);
    cards.push(alu_card(alloc)?)?;
    cards.push(shift_card(alloc)?)?;
    cards.push(count_card(alloc)?)?;
    cards.push(avg_card(alloc)?)?;
    cards.push(mul_card(alloc)?)?;
    cards.push(div_card(alloc)?)?;
    Ok(cards)
}

/// A shelf of these kinds.
pub(crate) fn shelf_of(
    alloc: Global,
    alu: Box<dyn UnitKind>,
    shift: Box<dyn UnitKind>,
    count: Box<dyn UnitKind>,
    avg: Box<dyn UnitKind>,
    mul: Box<dyn UnitKind>,
    div: Box<dyn UnitKind>,
) -> Result<Shelf, AllocError>
    requires alu { card alu ≡ kinds.alu_card }
    requires shift { card shift ≡ kinds.shift_card }
    requires count { card count ≡ kinds.count_card }
    requires avg { card avg ≡ kinds.avg_card }
    requires mul { card mul ≡ kinds.mul_card }
    requires div { card div ≡ kinds.div_card }
    ensures { IfOk result (λ shelf. boxed_cards_of card shelf ≡ shelves.known_cards) }
{
    let mut kinds = Vec::new(alloc);
    kinds.push(alu)?;
    kinds.push(shift)?;
    kinds.push(count)?;
    kinds.push(avg)?;
    kinds.push(mul)?;
    kinds.push(div)?;
    let shelf = Shelf::new(kinds).unwrap();
    Ok(shelf)
}
