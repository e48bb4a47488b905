ghost use Rattle.std.specs.Prelude.{◌≡◌, ◌≢◌, ◌≤◌, ◌<◌, ◌^◌, ◌↔◌, ◌++◌, ℕ, List, MatchOption, IfNone, IfSome, IsTrue, Some, map, unwrap_or};
ghost use Rattle.std.specs.Option.{SomeIff};
ghost use Rattle.ap_text.specs.Numbers.{number_value};
ghost use Rattle.ap_text.specs.Spans.{IsLineWithin, line_in};
ghost use Rattle.ap_top.specs.Form.{AreValuesFitting, IsForm, IsLine, IsDueToken, value_of};
ghost use Rattle.ap_top.specs.Found.{Agrees, TakesPart, TakesFitting, found_at, token_of};

use crate::form::Form;
use crate::pattern::{Letter, Piece};
use ap_text::{Line, number};

/// The numbers that were found for the letters so far.
#[derive(Clone, Copy)]
pub(crate) struct Numbers {
    /// By the letters' places.
    found: [Option<u64>; 6],
}

impl Numbers {
    /// None is found yet.
    pub(crate) fn new() -> Numbers
        ensures { (form : Form) → Agrees result.found form }
    {
        Numbers { found: [None; 6] }
    }

    /// Takes the tokens of a line, where they are those due and some form has all numbers that were found.
    pub(crate) fn fit_line(&mut self, text: &[u8], line: &Line, pieces: &[Piece]) -> bool
        requires { IsLineWithin text.now line.now }
        ensures { TakesFitting self.old.found self.new.found
            (λ form. IsLine form (map token_of pieces.now) (line_in text.now line.now)) result }
    {
        self.take_line(text, line, pieces) && self.form().is_some()
    }

    /// Takes the tokens of a line, where they are those due.
    fn take_line(&mut self, text: &[u8], line: &Line, pieces: &[Piece]) -> bool
        requires { IsLineWithin text.now line.now }
        ensures { TakesPart self.old.found self.new.found
            (λ form. IsLine form (map token_of pieces.now) (line_in text.now line.now)) result }
    {
        if !line.clean || line.tokens.len() != pieces.len() {
            return false;
        }
        for (i, piece) in pieces.iter().enumerate() {
            if !self.take_token(line.token(text, i), *piece) {
                return false;
            }
        }
        true
    }

    /// Takes a token, where it is the one due.
    fn take_token(&mut self, token: &[u8], piece: Piece) -> bool
        ensures { TakesPart self.old.found self.new.found
            (λ form. IsDueToken form (token_of piece) token.now) result }
    {
        match piece {
            Piece::Exactly(text) => token == text.as_bytes(),
            Piece::Number(letter) => self.take_number(token, letter),
            Piece::Tagged(tag, letter) => match rest_after(token, tag) {
                Some(digits) => self.take_number(digits, letter),
                None => false,
            },
        }
    }

    /// Takes a number for the letter, where the digits are one and the letter has no other yet.
    fn take_number(&mut self, digits: &[u8], letter: Letter) -> bool
        ensures { TakesPart self.old.found self.new.found
            (λ form. number_value digits.now ≡ Some (value_of form letter)) result }
    {
        match number(digits) {
            Ok(value) => self.take(letter, value),
            Err(_) => false,
        }
    }

    /// Takes the value for the letter, where it has no other yet.
    fn take(&mut self, letter: Letter, value: u64) -> bool
        ensures { TakesPart self.old.found self.new.found (λ form. value_of form letter ≡ value) result }
    {
        let place = letter.place();
        match self.found[place] {
            Some(known) => known == value,
            None => {
                self.found[place] = Some(value);
                true
            }
        }
    }

    /// The value of a letter, if it was found, and else this one.
    fn value_or(&self, letter: Letter, other: u64) -> u64
        ensures { result ≡ unwrap_or (found_at self.now.found letter) other }
    {
        self.found[letter.place()].unwrap_or(other)
    }

    /// A form that has the numbers found, within their ranges, if there is one. What isn't found yet restricts the others least.
    pub(crate) fn form(&self) -> Option<Form>
        ensures some { IfSome result (λ form. Agrees self.now.found form × IsForm form) }
        ensures none { IfNone result ((form : Form) → Agrees self.now.found form → IsForm form → ⊥) }
    {
        let form = Form {
            address: narrow(self.value_or(Letter::Address, 4), 4, 16)?,
            word: narrow(self.value_or(Letter::Word, 64), 8, 64)?,
            width: narrow(self.value_or(Letter::Width, 64), 1, 64)?,
            start: self.value_or(Letter::Start, 0),
            code: self.value_or(Letter::Code, 1),
            constant: self.value_or(Letter::Constant, 0),
        };
        if are_values_fitting(&form) {
            Some(form)
        } else {
            None
        }
    }
}

/// What of the token follows the tag, if it begins with the tag.
fn rest_after<'a>(token: &'a [u8], tag: &str) -> Option<&'a [u8]>
    ensures { MatchOption result ((rest : List ℕ) → token.now ≢ tag.now ++ rest) (λ rest. token.now ≡ tag.now ++ rest.now) }
{
    token.strip_prefix(tag.as_bytes())
}

/// The value, if it is within these bounds.
fn narrow(value: u64, low: u32, high: u32) -> Option<u32>
    ensures { SomeIff result ((low ≤ value) × (value ≤ high)) value }
{
    let value = u32::try_from(value).ok()?;
    if low <= value && value <= high {
        Some(value)
    } else {
        None
    }
}

/// Whether the start, the code and the constant are within their ranges.
fn are_values_fitting(form: &Form) -> bool
    requires word { form.now.word ≤ 64 }
    requires width { form.now.width ≤ 64 }
    ensures { IsTrue result ↔ AreValuesFitting form.now }
{
    fits(form.start, form.width)
        && form.code > 0
        && fits(form.code, form.word)
        && fits(form.constant, form.width)
}

/// Whether the value has at most so many bits.
fn fits(value: u64, bits: u32) -> bool
    requires { bits ≤ 64 }
    ensures { IsTrue result ↔ (value < 2 ^ bits) }
{
    bits == 64 || value < 1 << bits
}
