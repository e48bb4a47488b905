//! The pieces of a line: words of letters, digits and `_`, and each other byte by itself.
ghost use Rattle.std.specs.Prelude.{◌≡◌, ◌≤◌, ◌∷◌, ◌++◌, [], length, IfOk, OnOk};
ghost use Rattle.ap_net.specs.Names as names;
ghost use Rattle.ap_vr.specs.Pieces.{last_word, pieces_of, texts, word_between};

use ap_bits::NoMemory;
use std::alloc::Global;

/// Whether the byte is a letter, a digit or `_`.
pub(crate) fn is_name_byte(byte: u8) -> bool
    ensures { result ≡ names.is_name_byte byte }
{
    byte.is_ascii_alphanumeric() || byte == b'_'
}

/// Adds a piece.
fn push<'a>(pieces: &mut Vec<&'a [u8]>, piece: &'a [u8]) -> Result<(), NoMemory>
    ensures { OnOk result (texts pieces.new.items ≡ texts pieces.old.items ++ piece.now ∷ []) }
{
    pieces.push(piece)?;
    Ok(())
}

/// Adds the word that stands between two places, if one does.
fn push_word<'a>(
    pieces: &mut Vec<&'a [u8]>,
    line: &'a [u8],
    from: usize,
    to: usize,
) -> Result<(), NoMemory>
    requires order { from ≤ to }
    requires room { to ≤ length line.now }
    ensures { OnOk result (texts pieces.new.items
        ≡ texts pieces.old.items ++ word_between line.now from to) }
{
    if from < to {
        push(pieces, &line[from..to])?;
    }
    Ok(())
}

/// Adds the word that stands from this place on, if one does.
fn push_last<'a>(pieces: &mut Vec<&'a [u8]>, line: &'a [u8], from: usize) -> Result<(), NoMemory>
    requires { from ≤ length line.now }
    ensures { OnOk result (texts pieces.new.items
        ≡ texts pieces.old.items ++ last_word line.now from) }
{
    if from < line.len() {
        push(pieces, &line[from..])?;
    }
    Ok(())
}

/// The pieces of a line, in order.
#[tactic(auto, using(crate::proofs::Pieces::pieces_begin, crate::proofs::Pieces::pieces_cut, crate::proofs::Pieces::pieces_go_on, crate::proofs::Pieces::pieces_finish))]
pub(crate) fn pieces(alloc: Global, line: &[u8]) -> Result<Vec<&[u8]>, NoMemory>
    ensures { IfOk result (λ pieces. texts pieces.items ≡ pieces_of line.now) }
{
    let mut pieces = Vec::new(alloc);
    let mut from = 0;
    for at in 0..line.len() {
        if !is_name_byte(line[at]) {
            push_word(&mut pieces, line, from, at)?;
            push(&mut pieces, &line[at..at + 1])?;
            from = at + 1;
        }
    }
    push_last(&mut pieces, line, from)?;
    Ok(pieces)
}
