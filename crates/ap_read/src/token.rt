ghost use Rattle.std.specs.Prelude.{◌≡◌, ◌==◌, position, MatchOption};
ghost use Rattle.std.specs.List.{list_any};
ghost use Rattle.std.specs.Str.{bytes_eq};
ghost use Rattle.ap_desc.specs.Reserved as reserved;
ghost use Rattle.ap_text.specs.Numbers.{number_value};
ghost use Rattle.ap_desc.specs.TokenValues as values;
ghost use Rattle.ap_desc.specs.TokenValues.{cut_on};
ghost use Rattle.ap_read.specs.Answers.{Answers, SurelyAnswers};

use ap_bits::{Name, is_name};
use ap_desc::{FieldNumber, Word};
use ap_text::number;
use std::alloc::Global;

/// Why tokens give nothing.
#[derive(Clone, Copy, Debug, PartialEq, Eq)]
pub enum Unread {
    /// They are of no form.
    NoForm,
    /// Memory ran out.
    NoMemory,
}

impl From<ap_bits::NoMemory> for Unread {
    ghost use Rattle.ap_read.specs.declared.token.Unread.TheVariants.{NoMemory};

    ghost from_gives = { λ _ why. why ≡ NoMemory };

    fn from(_: ap_bits::NoMemory) -> Unread {
        Unread::NoMemory
    }
}

/// What begins a header line, a declaration or an instruction, and what ends one.
const STATEMENT_WORDS: [&str; 12] = [
    "stages", "address", "word", "transfer", "reg", "file", "mem", "in", "unit", "format", "instr",
    "end",
];

/// What a micro-operation is made of.
const MICRO_WORDS: [&str; 10] = [
    "const", "zext", "sext", "slice", "cat", "when", "branch", "jump", "pc", "link",
];

/// What programs and images call by these words.
const MEMORY_WORDS: [&str; 2] = ["code", "data"];

/// Whether the token is this word.
pub fn is(token: &[u8], word: &str) -> bool
    ensures { result ≡ bytes_eq token.now word.now }
{
    token == word.as_bytes()
}

/// Whether the token is one of the words.
fn is_among(token: &[u8], words: &[&str]) -> bool
    ensures { result ≡ list_any (λ word. bytes_eq token.now word.now) words.now }
{
    words.iter().any(|word| is(token, word))
}

/// Whether the token is a name that may be used: of the form of names, and no word of the language.
fn is_free_name(token: &[u8]) -> bool
    ensures { result ≡ reserved.is_free_name token.now }
{
    is_name(token)
        && !is_among(token, &STATEMENT_WORDS)
        && !is_among(token, &MICRO_WORDS)
        && !is_among(token, &MEMORY_WORDS)
}

/// The name that a token is.
#[tactic(auto, unfolding(ap_desc::specs::TokenValues::name_in))]
pub fn name_in(alloc: Global, token: &[u8]) -> Result<Name, Unread>
    ensures { Answers result (values.name_in token.now) }
{
    if !is_free_name(token) {
        return Err(Unread::NoForm);
    }
    Ok(Name::new(alloc, token)?)
}

/// The number that a token is.
pub fn number_in(token: &[u8]) -> Result<u64, Unread>
    ensures { SurelyAnswers result (number_value token.now) }
{
    number(token).map_err(|_| Unread::NoForm)
}

/// The operand that a token is.
#[tactic(auto, unfolding(ap_desc::specs::TokenValues::word_in))]
pub fn word_in(alloc: Global, token: &[u8]) -> Result<Word, Unread>
    ensures { Answers result (values.word_in token.now) }
{
    if is(token, "pc") {
        return Ok(Word::Pc);
    }
    if is(token, "link") {
        return Ok(Word::Link);
    }
    let name = name_in(alloc, token)?;
    Ok(Word::Named(name))
}

/// The place of the first byte that is this one.
fn place_of(token: &[u8], byte: u8) -> Option<usize>
    ensures { result ≡ position (λ b. b == byte) token.now }
{
    token.iter().position(|b| *b == byte)
}

/// What stands before the first byte that is this one, and what stands after it.
#[tactic(auto, unfolding(ap_desc::specs::TokenValues::cut_on))]
pub fn cut(token: &[u8], byte: u8) -> Option<(&[u8], &[u8])>
    ensures { MatchOption result (cut_on byte token.now ≡ None)
        (λ cut. cut_on byte token.now ≡ Some (cut.0.now, cut.1.now)) }
{
    let place = place_of(token, byte)?;
    Some((&token[..place], &token[place + 1..]))
}

/// The number of a port: what stands after the point is this letter and one digit.
#[tactic(auto, unfolding(ap_desc::specs::TokenValues::port_in))]
pub fn port_in(part: &[u8], letter: u8) -> Result<u64, Unread>
    ensures { SurelyAnswers result (values.port_in letter part.now) }
{
    let [first, digit] = part else {
        return Err(Unread::NoForm);
    };
    if *first == letter && digit.is_ascii_digit() {
        Ok(u64::from(*digit - b'0'))
    } else {
        Err(Unread::NoForm)
    }
}

/// The field that a token is: a name and a number around this byte.
#[tactic(auto, unfolding(ap_desc::specs::TokenValues::field_in))]
pub fn field_in(alloc: Global, token: &[u8], separator: u8) -> Result<FieldNumber, Unread>
    ensures { Answers result (values.field_in separator token.now) }
{
    let Some((name, digits)) = cut(token, separator) else {
        return Err(Unread::NoForm);
    };
    let field = name_in(alloc, name)?;
    let number = number_in(digits)?;
    Ok(FieldNumber { field, number })
}
