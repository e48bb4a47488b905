ghost use Rattle.std.specs.Prelude.{◌≡◌, ◌<◌, length, slice_get};

use ap_bits::Items;

/// A part of a text: the bytes from place `from` up to place `to`, which it doesn't hold.
#[derive(Clone, Copy, Debug, PartialEq, Eq)]
pub struct Span {
    /// The place of its first byte.
    pub from: usize,
    /// The place after its last byte.
    pub to: usize,
}

impl Span {
    ghost use Rattle.ap_text.specs.Spans.{IsWithin, bytes_in};

    /// Its bytes, in the text that it is a part of.
    pub fn of(self, text: &[u8]) -> &[u8]
        requires { IsWithin text.now self }
        ensures { result.now ≡ bytes_in text.now self }
    {
        &text[self.from..self.to]
    }
}

/// A line of a text that has tokens or a bad byte.
#[derive(Debug, Drop)]
pub struct Line {
    /// Its number in the text, counted from 1.
    pub number: u32,
    /// Where its tokens stand in the text.
    pub tokens: Items<Span>,
    /// Whether it holds none but tabs and printing characters of ASCII, in its comment too.
    pub clean: bool,
}

impl Line {
    ghost use Rattle.ap_text.specs.Spans.{IsLineWithin, line_in};

    /// The bytes of the token at place `i`, counted from 0.
    pub fn token<'a>(&self, text: &'a [u8], i: usize) -> &'a [u8]
        requires within { IsLineWithin text.now self.now }
        requires place { i < length self.now.tokens }
        ensures { slice_get (line_in text.now self.now).tokens i ≡ Some result.now }
    {
        self.tokens.as_slice()[i].of(text)
    }
}
