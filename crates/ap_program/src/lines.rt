//! What the lines of a program say.
ghost use Rattle.std.specs.Prelude.{◌≡◌, ◌<◌, ◌≤◌, ◌==◌, ◌∷◌, All, IfOk, IfSome, List, length, map, option_copied, option_map, position};
ghost use Rattle.ap_image.specs.TextFaults.{text_limit};
ghost use Rattle.ap_image.specs.TraceTexts.{numbers_in};
ghost use Rattle.ap_text.specs.Spans.{AreLinesWithin, IsLineWithin, IsWithin, bytes_in, line_in};
ghost use Rattle.ap_program.specs.Statements as spelled;
ghost use Rattle.ap_program.specs.declared.statement.Written.TheVariants as written;
ghost use Rattle.ap_program.specs.Statements.{data_in, plain_in, program_line, program_of, said_by};

use crate::statement::{Call, ProgramLine, Statement, Written};
use ap_bits::{Items, Name, NoMemory, is_name};
use ap_text::{Line, Span, lines, number};
use std::alloc::Global;

/// The number behind a minus sign.
fn minus_in(token: &[u8]) -> Option<u64>
    ensures { option_map (λ v. written.Minus v) result ≡ spelled.minus_in token.now }
{
    match token {
        [b'-', digits @ ..] => number(digits).ok(),
        _ => None,
    }
}

/// The operand that a token is.
#[tactic(auto, unfolding(crate::specs::Statements::operand_in))]
fn operand_in(alloc: Global, token: &[u8]) -> Result<Option<Written>, NoMemory>
    ensures { IfOk result (λ operand. operand ≡ spelled.operand_in token.now) }
{
    if let Ok(value) = number(token) {
        return Ok(Some(Written::Number(value)));
    }
    if let Some(value) = minus_in(token) {
        return Ok(Some(Written::Minus(value)));
    }
    let name = Name::parse(alloc, token)?;
    Ok(name.map(Written::Label))
}

/// The operands that tokens are, where each of them is one.
fn operands_in(
    alloc: Global,
    text: &[u8],
    tokens: &[Span],
) -> Result<Option<Items<Written>>, NoMemory>
    requires { All (IsWithin text.now) tokens.now }
    ensures { IfOk result (λ operands.
        operands ≡ spelled.operands_in (map (bytes_in text.now) tokens.now)) }
{
    let mut operands = Items::new(alloc);
    for token in tokens {
        let Some(operand) = operand_in(alloc, token.of(text))? else {
            return Ok(None);
        };
        operands.push(operand)?;
    }
    Ok(Some(operands))
}

/// The instruction that tokens are.
fn call_in(alloc: Global, text: &[u8], tokens: &[Span]) -> Result<Option<Call>, NoMemory>
    requires { All (IsWithin text.now) tokens.now }
    ensures { IfOk result (λ call. call ≡ spelled.call_in (map (bytes_in text.now) tokens.now)) }
{
    let [first, rest @ ..] = tokens else {
        return Ok(None);
    };
    let Some(instr) = Name::parse(alloc, first.of(text))? else {
        return Ok(None);
    };
    let Some(operands) = operands_in(alloc, text, rest)? else {
        return Ok(None);
    };
    Ok(Some(Call { instr, operands }))
}

/// The place of the first colon.
fn colon_in(token: &[u8]) -> Option<usize>
    ensures place { result ≡ position (λ b. b == 58) token.now }
    ensures within { IfSome result (λ place. place < length token.now) }
{
    token.iter().position(|byte| *byte == b':')
}

/// The name that stands before the colon at the end of a token.
#[tactic(auto, unfolding(crate::specs::Statements::label_in))]
fn label_in(token: &[u8]) -> Option<&[u8]>
    ensures { option_copied result ≡ spelled.label_in token.now }
{
    let place = colon_in(token)?;
    let name = &token[..place];
    if place + 1 == token.len() && is_name(name) {
        Some(name)
    } else {
        None
    }
}

/// The numbers that tokens are, where each of them is one.
fn numbers(alloc: Global, text: &[u8], tokens: &[Span]) -> Result<Option<Items<u64>>, NoMemory>
    requires { All (IsWithin text.now) tokens.now }
    ensures { IfOk result (λ numbers.
        numbers ≡ numbers_in (map (bytes_in text.now) tokens.now)) }
{
    let mut numbers = Items::new(alloc);
    for token in tokens {
        let Ok(value) = number(token.of(text)) else {
            return Ok(None);
        };
        numbers.push(value)?;
    }
    Ok(Some(numbers))
}

/// The data that tokens are.
fn read_data(alloc: Global, text: &[u8], tokens: &[Span]) -> Result<Option<Statement>, NoMemory>
    requires { All (IsWithin text.now) tokens.now }
    ensures { IfOk result (λ said. said ≡ data_in (map (bytes_in text.now) tokens.now)) }
{
    let [first, rest @ ..] = tokens else {
        return Ok(None);
    };
    if rest.is_empty() {
        return Ok(None);
    }
    let Some(mem) = Name::parse(alloc, first.of(text))? else {
        return Ok(None);
    };
    let Some(words) = numbers(alloc, text, rest)? else {
        return Ok(None);
    };
    Ok(Some(Statement::Data { mem, words }))
}

/// The label that is the only token.
#[tactic(auto, using(crate::proofs::LabelTokens::label_is_name))]
fn label_alone(alloc: Global, text: &[u8], tokens: &[Span]) -> Result<Option<Statement>, NoMemory>
    requires { All (IsWithin text.now) tokens.now }
    ensures { IfOk result (λ said.
        said ≡ spelled.label_alone (map (bytes_in text.now) tokens.now)) }
{
    let [token] = tokens else {
        return Ok(None);
    };
    let Some(name) = label_in(token.of(text)) else {
        return Ok(None);
    };
    let name = Name::new(alloc, name)?;
    Ok(Some(Statement::Label(name)))
}

/// The label or the instruction that tokens are.
#[tactic(auto, using(crate::proofs::Firsts::or_first, crate::proofs::Firsts::or_second))]
fn read_plain(alloc: Global, text: &[u8], tokens: &[Span]) -> Result<Option<Statement>, NoMemory>
    requires { All (IsWithin text.now) tokens.now }
    ensures { IfOk result (λ said. said ≡ plain_in (map (bytes_in text.now) tokens.now)) }
{
    let label = label_alone(alloc, text, tokens)?;
    if label.is_some() {
        return Ok(label);
    }
    let call = call_in(alloc, text, tokens)?;
    Ok(call.map(Statement::Instr))
}

/// What a line says.
#[tactic(auto, unfolding(crate::specs::Statements::said_by))]
fn said_by(alloc: Global, text: &[u8], line: &Line) -> Result<Option<Statement>, NoMemory>
    requires { IsLineWithin text.now line.now }
    ensures { IfOk result (λ said. said ≡ spelled.said_by (line_in text.now line.now)) }
{
    let tokens = line.tokens.as_slice();
    let [first, rest @ ..] = tokens else {
        return Ok(None);
    };
    if !line.clean {
        return Ok(None);
    }
    let first = first.of(text);
    if first == b"data".as_slice() {
        return read_data(alloc, text, rest);
    }
    if first == b"|".as_slice() {
        let call = call_in(alloc, text, rest)?;
        return Ok(call.map(Statement::Slot));
    }
    read_plain(alloc, text, tokens)
}

/// What each line says.
fn read_each(alloc: Global, text: &[u8], lines: &[Line]) -> Result<Vec<ProgramLine>, NoMemory>
    requires { AreLinesWithin text.now lines.now }
    ensures { IfOk result (λ program.
        program.items ≡ map program_line (map (line_in text.now) lines.now)) }
{
    let mut program = Vec::new(alloc);
    for line in lines {
        let says = said_by(alloc, text, line)?;
        program.push(ProgramLine {
            number: line.number,
            says,
        })?;
    }
    Ok(program)
}

/// The lines of a program.
pub(crate) fn read_lines(alloc: Global, text: &[u8]) -> Result<Vec<ProgramLine>, NoMemory>
    requires { length text.now ≤ text_limit }
    ensures { IfOk result (λ program. program.items ≡ program_of text.now) }
{
    let list = lines(alloc, text)?;
    let program = read_each(alloc, text, list.as_slice())?;
    Ok(program)
}
