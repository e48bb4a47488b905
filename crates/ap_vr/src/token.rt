//! What single pieces of a line give.
ghost use Rattle.std.specs.Prelude.{◌≡◌, slice_get, IfOk};
ghost use Rattle.std.specs.Str.{bytes_eq};
ghost use Rattle.std.specs.List.{list_all, list_any};
ghost use Rattle.ap_bits.specs.Names as plain;
ghost use Rattle.ap_net.specs.Names as names;
ghost use Rattle.ap_text.specs.Numbers.{number_value};
ghost use Rattle.ap_vr.specs.Answers.{Answers, SurelyAnswers, IsPiece};
ghost use Rattle.ap_net.specs.Names.{IsNetName};
ghost use Rattle.ap_vr.specs.LineForms as forms;
ghost use Rattle.ap_vr.specs.LineTexts.{IsOperand, IsWidth};
ghost use Rattle.ap_vr.specs.Pieces.{texts};

use crate::piece::is_name_byte;
use crate::unread::Unread;
use ap_net::cell::TwoOp;
use ap_net::name::NetName;
use ap_text::number;
use std::alloc::Global;

/// The words that the Verilog subset itself uses.
const BARRED_WORDS: [&str; 11] = [
    "module",
    "endmodule",
    "input",
    "output",
    "wire",
    "reg",
    "assign",
    "always",
    "posedge",
    "if",
    "else",
];

/// The most bytes of a name.
const MAX_NAME_BYTES: usize = 100;

/// Whether the piece is this word.
pub(crate) fn is(piece: &[u8], word: &str) -> bool
    ensures { result ≡ bytes_eq piece.now word.now }
{
    piece == word.as_bytes()
}

/// Whether the first byte is a letter.
fn starts_with_letter(piece: &[u8]) -> bool
    ensures { result ≡ plain.starts_with_letter piece.now }
{
    match piece {
        [first, ..] => first.is_ascii_alphabetic(),
        [] => false,
    }
}

/// Whether all bytes are letters, digits or `_`.
fn is_word(piece: &[u8]) -> bool
    ensures { result ≡ list_all names.is_name_byte piece.now }
{
    piece.iter().all(|byte| is_name_byte(*byte))
}

/// Whether the piece is one of the words.
fn is_among(piece: &[u8], words: &[&str]) -> bool
    ensures { result ≡ list_any (λ word. bytes_eq piece.now word.now) words.now }
{
    words.iter().any(|word| is(piece, word))
}

/// Whether the piece is a name.
fn is_net_name(piece: &[u8]) -> bool
    ensures { result ≡ names.is_net_name piece.now }
{
    starts_with_letter(piece)
        && is_word(piece)
        && piece.len() <= MAX_NAME_BYTES
        && !is_among(piece, &BARRED_WORDS)
}

/// The name that a piece is.
#[tactic(auto, unfolding(crate::specs::LineForms::name_in))]
pub(crate) fn name_in(alloc: Global, piece: &[u8]) -> Result<NetName, Unread>
    ensures found { Answers result (forms.name_in piece.now) }
    ensures rules { IfOk result IsNetName }
{
    if !is_net_name(piece) {
        return Err(Unread::NoForm);
    }
    Ok(NetName::new(alloc, piece)?)
}

/// The name that a piece is, where it may be read or connected: `clk` and `rst` may not.
#[tactic(auto, using(crate::proofs::Operands::operand_rules), unfolding(crate::specs::LineForms::operand_in))]
pub(crate) fn operand_in(alloc: Global, piece: &[u8]) -> Result<NetName, Unread>
    ensures found { Answers result (forms.operand_in piece.now) }
    ensures rules { IfOk result IsOperand }
{
    if is(piece, "clk") {
        return Err(Unread::NoForm);
    }
    if is(piece, "rst") {
        return Err(Unread::NoForm);
    }
    let name = name_in(alloc, piece)?;
    Ok(name)
}

/// The number that a piece is.
fn number_in(piece: &[u8]) -> Result<u64, Unread>
    ensures { SurelyAnswers result (number_value piece.now) }
{
    match number(piece) {
        Ok(value) => Ok(value),
        Err(_) => Err(Unread::NoForm),
    }
}

/// The value of a constant after its letter.
#[tactic(auto, unfolding(crate::specs::LineForms::digits_after))]
fn digits_after(piece: &[u8]) -> Result<u64, Unread>
    ensures { SurelyAnswers result (forms.digits_after piece.now) }
{
    let [_, digits @ ..] = piece else {
        return Err(Unread::NoForm);
    };
    number_in(digits)
}

/// The piece of this place.
pub(crate) fn piece<'a>(pieces: &[&'a [u8]], place: usize) -> Result<&'a [u8], Unread>
    ensures { IsPiece result (slice_get (texts pieces.now) place) }
{
    match pieces.get(place) {
        Some(piece) => Ok(*piece),
        None => Err(Unread::NoForm),
    }
}

/// The name in this place.
pub(crate) fn name_at(alloc: Global, pieces: &[&[u8]], place: usize) -> Result<NetName, Unread>
    ensures found { Answers result (forms.name_at (texts pieces.now) place) }
    ensures rules { IfOk result IsNetName }
{
    let piece = piece(pieces, place)?;
    name_in(alloc, piece)
}

/// The operand in this place.
pub(crate) fn operand_at(alloc: Global, pieces: &[&[u8]], place: usize) -> Result<NetName, Unread>
    ensures found { Answers result (forms.operand_at (texts pieces.now) place) }
    ensures rules { IfOk result IsOperand }
{
    let piece = piece(pieces, place)?;
    operand_in(alloc, piece)
}

/// The number in this place.
pub(crate) fn number_at(pieces: &[&[u8]], place: usize) -> Result<u64, Unread>
    ensures { SurelyAnswers result (forms.number_at (texts pieces.now) place) }
{
    let piece = piece(pieces, place)?;
    number_in(piece)
}

/// The width in this place.
pub(crate) fn width_at(pieces: &[&[u8]], place: usize) -> Result<u32, Unread>
    ensures found { SurelyAnswers result (forms.width_at (texts pieces.now) place) }
    ensures rules { IfOk result IsWidth }
{
    let width = number_at(pieces, place)?;
    if width < 1 || width > 64 {
        return Err(Unread::NoForm);
    }
    Ok(width as u32)
}

/// The width of bits whose first is in this place.
pub(crate) fn high_at(pieces: &[&[u8]], place: usize) -> Result<u32, Unread>
    ensures found { SurelyAnswers result (forms.high_at (texts pieces.now) place) }
    ensures rules { IfOk result IsWidth }
{
    let high = number_at(pieces, place)?;
    if high >= 64 {
        return Err(Unread::NoForm);
    }
    Ok(high as u32 + 1)
}

/// The constant's value in this place.
pub(crate) fn value_at(pieces: &[&[u8]], place: usize) -> Result<u64, Unread>
    ensures { SurelyAnswers result (forms.value_at (texts pieces.now) place) }
{
    let piece = piece(pieces, place)?;
    digits_after(piece)
}

/// The operator of a sign.
#[tactic(auto, unfolding(crate::specs::LineForms::op_in))]
pub(crate) fn op_in(piece: &[u8]) -> Result<TwoOp, Unread>
    ensures { SurelyAnswers result (forms.op_in piece.now) }
{
    if is(piece, "+") {
        Ok(TwoOp::Add)
    } else if is(piece, "-") {
        Ok(TwoOp::Sub)
    } else if is(piece, "&") {
        Ok(TwoOp::And)
    } else if is(piece, "|") {
        Ok(TwoOp::Or)
    } else if is(piece, "^") {
        Ok(TwoOp::Xor)
    } else if is(piece, "<") {
        Ok(TwoOp::Ltu)
    } else {
        Err(Unread::NoForm)
    }
}
