ghost use Rattle.std.specs.Prelude.{[], ◌∷◌};
ghost use Rattle.ap_desc.specs.TokenValues as values;
ghost use Rattle.ap_desc.specs.TokenValues.{named, numeral, operand, values_in};
ghost use Rattle.ap_read.specs.Answers.{Answers, SurelyAnswers};
ghost use Rattle.ap_read.specs.Texts.{texts};

use crate::token::{Unread, field_in, is, name_in, number_in, word_in};
use ap_bits::{Items, Name};
use ap_desc::{FieldNumber, Word};
use std::alloc::Global;

/// One number.
pub fn one_number(tokens: &[&[u8]]) -> Result<u64, Unread>
    ensures { SurelyAnswers result (values_in (numeral ∷ []) (texts tokens.now)) }
{
    let [number] = tokens else {
        return Err(Unread::NoForm);
    };
    number_in(number)
}

/// Two numbers.
pub fn two_numbers(tokens: &[&[u8]]) -> Result<(u64, u64), Unread>
    ensures { SurelyAnswers result (values_in (numeral ∷ numeral ∷ []) (texts tokens.now)) }
{
    let [first, second] = tokens else {
        return Err(Unread::NoForm);
    };
    let first = number_in(first)?;
    let second = number_in(second)?;
    Ok((first, second))
}

/// One name.
pub fn one_name(alloc: Global, tokens: &[&[u8]]) -> Result<Name, Unread>
    ensures { Answers result (values_in (named ∷ []) (texts tokens.now)) }
{
    let [name] = tokens else {
        return Err(Unread::NoForm);
    };
    name_in(alloc, name)
}

/// One operand.
pub fn one_word(alloc: Global, tokens: &[&[u8]]) -> Result<Word, Unread>
    ensures { Answers result (values_in (operand ∷ []) (texts tokens.now)) }
{
    let [word] = tokens else {
        return Err(Unread::NoForm);
    };
    word_in(alloc, word)
}

/// Two operands.
pub fn two_words(alloc: Global, tokens: &[&[u8]]) -> Result<(Word, Word), Unread>
    ensures { Answers result (values_in (operand ∷ operand ∷ []) (texts tokens.now)) }
{
    let [first, second] = tokens else {
        return Err(Unread::NoForm);
    };
    let first = word_in(alloc, first)?;
    let second = word_in(alloc, second)?;
    Ok((first, second))
}

/// A number and an operand.
pub fn number_and_word(alloc: Global, tokens: &[&[u8]]) -> Result<(u64, Word), Unread>
    ensures { Answers result (values_in (numeral ∷ operand ∷ []) (texts tokens.now)) }
{
    let [number, word] = tokens else {
        return Err(Unread::NoForm);
    };
    let number = number_in(number)?;
    let word = word_in(alloc, word)?;
    Ok((number, word))
}

/// The guard that may end a write.
#[tactic(auto, unfolding(ap_desc::specs::TokenValues::guard_in))]
pub fn guard_in(alloc: Global, tokens: &[&[u8]]) -> Result<Option<Word>, Unread>
    ensures { Answers result (values.guard_in (texts tokens.now)) }
{
    if tokens.is_empty() {
        return Ok(None);
    }
    let [sign, word] = tokens else {
        return Err(Unread::NoForm);
    };
    if !is(sign, "when") {
        return Err(Unread::NoForm);
    }
    let word = word_in(alloc, word)?;
    Ok(Some(word))
}

/// Fields, one in each token, with this byte between name and number.
#[tactic(auto, unfolding(ap_desc::specs::TokenValues::fields_in))]
pub fn fields_in(
    alloc: Global,
    tokens: &[&[u8]],
    separator: u8,
) -> Result<Items<FieldNumber>, Unread>
    ensures { Answers result (values.fields_in separator (texts tokens.now)) }
{
    let mut fields = Items::new(alloc);
    for token in tokens {
        let field = field_in(alloc, token, separator)?;
        fields.push(field)?;
    }
    Ok(fields)
}
