ghost use Rattle.std.specs.Prelude.{◌≡◌, ◌≤◌, ◌++◌, map, position, length, All, IfOk, OnOk};
ghost use Rattle.std.specs.List.{before_first};
ghost use Rattle.ap_text.specs.Lines.{lines_of, tokens_of, text_line, is_comment_sign};
ghost use Rattle.ap_text.specs.Lines as bytes;
ghost use Rattle.ap_text.specs.Spans.{IsWithin, IsLineWithin, AreLinesWithin, bytes_in, line_in, unless_empty, unless_bare};

use crate::line::{Line, Span};
use ap_bits::{Items, NoMemory};
use std::alloc::Global;

/// The lines of a text of at most 67,108,864 bytes that have tokens or a bad byte.
///
/// Each line ends with a line feed, which the last may lack; all are counted, from 1. Every span of a token is a part
/// of this text. `NoMemory` comes only where memory ran out. The time goes with the number of bytes.
#[tactic(auto, unfolding(crate::specs::Lines::lines_of))]
pub fn lines(alloc: Global, text: &[u8]) -> Result<Vec<Line>, NoMemory>
    requires { length text.now ≤ 67108864 }
    ensures lines { IfOk result (λ list. map (line_in text.now) list.items ≡ lines_of text.now) }
    ensures within { IfOk result (λ list. AreLinesWithin text.now list.items) }
{
    let mut list = Vec::new(alloc);
    let mut from = 0;
    let mut number = 1;
    for at in 0..text.len() {
        if text[at] == b'\n' {
            let line = read_line(alloc, text, Span { from, to: at }, number)?;
            add_line(&mut list, line)?;
            from = at + 1;
            number += 1;
        }
    }
    let to = text.len();
    let line = read_line(alloc, text, Span { from, to }, number)?;
    add_line(&mut list, line)?;
    Ok(list)
}

/// The line that is this part of the text.
fn read_line(alloc: Global, text: &[u8], part: Span, number: u32) -> Result<Line, NoMemory>
    requires { IsWithin text.now part }
    ensures line { IfOk result (λ line. line_in text.now line
        ≡ text_line number (bytes_in text.now part)) }
    ensures within { IfOk result (λ line. IsLineWithin text.now line) }
{
    let tokens = tokens(alloc, text, part)?;
    let clean = is_clean(part.of(text));
    Ok(Line {
        number,
        tokens,
        clean,
    })
}

/// Adds a line, unless it has neither a token nor a bad byte.
fn add_line(list: &mut Vec<Line>, line: Line) -> Result<(), NoMemory>
    ensures { OnOk result (list.new.items ≡ list.old.items ++ unless_bare line) }
{
    if !line.tokens.is_empty() || !line.clean {
        list.push(line)?;
    }
    Ok(())
}

/// The tokens of a line that is this part of the text.
fn tokens(alloc: Global, text: &[u8], line: Span) -> Result<Items<Span>, NoMemory>
    requires { IsWithin text.now line }
    ensures tokens { IfOk result (λ spans. map (bytes_in text.now) spans
        ≡ tokens_of (bytes_in text.now line)) }
    ensures within { IfOk result (λ spans. All (IsWithin text.now) spans) }
{
    let code = before_comment(text, line);
    let mut spans = Items::new(alloc);
    let mut from = code.from;
    for at in code.from..code.to {
        if is_blank(text[at]) {
            add_token(&mut spans, Span { from, to: at })?;
            from = at + 1;
        }
    }
    add_token(&mut spans, Span { from, to: code.to })?;
    Ok(spans)
}

/// Adds a part between blanks, unless it is empty.
fn add_token(spans: &mut Items<Span>, part: Span) -> Result<(), NoMemory>
    ensures { OnOk result (spans.new ≡ spans.old ++ unless_empty part) }
{
    if part.from < part.to {
        spans.push(part)?;
    }
    Ok(())
}

/// What stands of a line before its comment.
fn before_comment(text: &[u8], line: Span) -> Span
    requires { IsWithin text.now line }
    ensures within { IsWithin text.now result }
    ensures bytes { bytes_in text.now result
        ≡ before_first is_comment_sign (bytes_in text.now line) }
{
    let bytes = line.of(text);
    let len = comment_place(bytes).unwrap_or(bytes.len());
    Span {
        from: line.from,
        to: line.from + len,
    }
}

/// Where the comment of a line begins, if it has one.
fn comment_place(line: &[u8]) -> Option<usize>
    ensures { result ≡ position is_comment_sign line.now }
{
    line.iter().position(|byte| *byte == b'#')
}

/// Whether the byte separates tokens.
fn is_blank(byte: u8) -> bool
    ensures { result ≡ bytes.is_blank byte }
{
    byte == b' ' || byte == b'\t'
}

/// Whether each byte of the line may stand in one.
fn is_clean(line: &[u8]) -> bool
    ensures { result ≡ bytes.is_clean line.now }
{
    line.iter().all(|byte| is_allowed(*byte))
}

/// Whether the byte may stand in a line.
fn is_allowed(byte: u8) -> bool
    ensures { result ≡ bytes.is_allowed byte }
{
    byte == b'\t' || (b' '..=b'~').contains(&byte)
}
