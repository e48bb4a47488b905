ghost use Rattle.std.specs.Prelude.{◌≡◌, map};
ghost use Rattle.ap_top.specs.Form as form;
ghost use Rattle.ap_top.specs.Form.{place_of};
ghost use Rattle.ap_top.specs.Found.{token_of};

/// A letter of the first form, which stands for a number.
#[derive(Clone, Copy, Debug, PartialEq, Eq)]
pub enum Letter {
    /// Bits of a code address, from 4 to 16.
    Address,
    /// Bits of a code word, from 8 to 64.
    Word,
    /// Bits of the register, the unit and the constant, from 1 to 64.
    Width,
    /// The register's value at the start, below 2 to the width.
    Start,
    /// The value of the field `op` in the adding instruction, from 1 to 2 to the word less 1.
    Code,
    /// What the adding instruction adds, below 2 to the width.
    Constant,
}

impl Letter {
    /// Its place among the letters, counted from 0.
    pub(crate) fn place(self) -> usize
        ensures { result ≡ place_of self }
    {
        self as usize
    }
}

/// A token of the first form.
#[derive(Clone, Copy, Debug)]
pub enum Piece {
    /// Exactly this text.
    Exactly(&'static str),
    /// A number for this letter.
    Number(Letter),
    /// This text, directly followed by a number for this letter.
    Tagged(&'static str, Letter),
}

use Letter::{Address, Code, Constant, Start, Width, Word};
use Piece::{Exactly, Number, Tagged};

/// The lines of the first form.
pub fn first_form() -> [&'static [Piece]; 15]
    ensures { map (λ pieces. map token_of pieces.now) result ≡ form.first_form }
{
    [
        &[Exactly("stages"), Exactly("2")],
        &[Exactly("address"), Number(Address)],
        &[Exactly("word"), Number(Word)],
        &[Exactly("transfer"), Exactly("1"), Exactly("0")],
        &[Exactly("reg"), Exactly("R"), Number(Width), Number(Start)],
        &[Exactly("unit"), Exactly("U"), Exactly("alu"), Number(Width)],
        &[Exactly("format"), Exactly("F"), Tagged("op:", Word)],
        &[
            Exactly("instr"),
            Exactly("NOP"),
            Exactly("F"),
            Exactly("op=0"),
        ],
        &[Exactly("end")],
        &[
            Exactly("instr"),
            Exactly("I"),
            Exactly("F"),
            Tagged("op=", Code),
        ],
        &[Exactly("1"), Exactly("a"), Exactly("="), Exactly("R")],
        &[
            Exactly("1"),
            Exactly("k"),
            Exactly("="),
            Exactly("const"),
            Number(Width),
            Number(Constant),
        ],
        &[
            Exactly("1"),
            Exactly("s"),
            Exactly("="),
            Exactly("U.add"),
            Exactly("a"),
            Exactly("k"),
        ],
        &[Exactly("1"), Exactly("R"), Exactly("<-"), Exactly("s")],
        &[Exactly("end")],
    ]
}
