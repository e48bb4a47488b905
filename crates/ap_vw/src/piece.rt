//! Appends the parts of a line.
ghost use Rattle.std.specs.Prelude.{◌≡◌, ◌++◌, OnOk};
ghost use Rattle.std.specs.Fmt.{decimal};
ghost use Rattle.std.specs.List.{flat_map};
ghost use Rattle.ap_image.specs.Kept.{IsKept};
ghost use Rattle.ap_vw.specs.Pieces.{piece_text};

use ap_bits::NoMemory;

/// A part of a line.
#[derive(Clone, Copy, Debug)]
pub(crate) enum Piece<'a> {
    /// These bytes.
    Text(&'a str),
    /// The decimal digits of a number.
    Number(u64),
}

/// Appends the decimal digits of a number.
#[tactic(auto, using(crate::proofs::Digits::digits))]
fn put_number(number: u64, out: &mut Vec<u8>) -> Result<(), NoMemory>
    ensures ok { OnOk result (out.new.items ≡ out.old.items ++ decimal number) }
    ensures kept { IsKept out.old.items out.new.items }
{
    if number < 10 {
        out.push(b'0' + number as u8)?;
        return Ok(());
    }
    put_number(number / 10, out)?;
    out.push(b'0' + (number % 10) as u8)?;
    Ok(())
}

/// Appends a part of a line.
fn put_piece(piece: Piece, out: &mut Vec<u8>) -> Result<(), NoMemory>
    ensures ok { OnOk result (out.new.items ≡ out.old.items ++ piece_text piece.entry) }
    ensures kept { IsKept out.old.items out.new.items }
{
    match piece {
        Piece::Text(text) => {
            out.extend_from_slice(text.as_bytes())?;
            Ok(())
        }
        Piece::Number(number) => {
            put_number(number, out)?;
            Ok(())
        }
    }
}

/// Appends the parts of a line, one after another.
pub(crate) fn put(pieces: &[Piece], out: &mut Vec<u8>) -> Result<(), NoMemory>
    ensures ok { OnOk result (out.new.items ≡ out.old.items ++ flat_map piece_text pieces.now) }
    ensures kept { IsKept out.old.items out.new.items }
{
    for piece in pieces {
        put_piece(*piece, out)?;
    }
    Ok(())
}
