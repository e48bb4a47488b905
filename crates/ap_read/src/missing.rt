ghost use Rattle.std.specs.Prelude.{◌≡◌, ◌∷◌, [], codes, map};
ghost use Rattle.ap_text.specs.Spans.{AreLinesWithin, IsLineWithin, line_in};
ghost use Rattle.ap_desc.specs.Faults as faults;

use ap_text::Line;

/// Whether the lines lack something that every description has: a header line, the instruction `NOP`, or an `end` after
/// the last line that begins an instruction. Bad lines count with their tokens.
pub(crate) fn is_missing_some(text: &[u8], lines: &[Line]) -> bool
    requires { AreLinesWithin text.now lines.now }
    ensures { result ≡ faults.is_missing_some (map (line_in text.now) lines.now) }
{
    none_begins(text, lines, &["stages"])
        || none_begins(text, lines, &["address"])
        || none_begins(text, lines, &["word"])
        || none_begins(text, lines, &["transfer"])
        || none_begins(text, lines, &["instr", "NOP"])
        || is_left_open(text, lines)
}

/// Whether no line has these first tokens.
fn none_begins(text: &[u8], lines: &[Line], words: &[&str]) -> bool
    requires { AreLinesWithin text.now lines.now }
    ensures { result ≡ faults.none_begins (map (λ word. word.now) words.now)
        (map (line_in text.now) lines.now) }
{
    for line in lines {
        if begins(text, line, words) {
            return false;
        }
    }
    true
}

/// Whether these are the line's first tokens.
fn begins(text: &[u8], line: &Line, words: &[&str]) -> bool
    requires { IsLineWithin text.now line.now }
    ensures { result ≡ faults.begins (map (λ word. word.now) words.now)
        (line_in text.now line.now) }
{
    if line.tokens.len() < words.len() {
        return false;
    }
    for (i, word) in words.iter().enumerate() {
        if word.as_bytes() != line.token(text, i) {
            return false;
        }
    }
    true
}

/// Whether there is no line `end` after the last line that begins an instruction.
fn is_left_open(text: &[u8], lines: &[Line]) -> bool
    requires { AreLinesWithin text.now lines.now }
    ensures { result ≡ faults.is_left_open (map (line_in text.now) lines.now) }
{
    let mut is_open = false;
    for line in lines {
        if begins(text, line, &["instr"]) {
            is_open = true;
        } else if is_end(text, line) {
            is_open = false;
        }
    }
    is_open
}

/// Whether the line has the one token `end`.
fn is_end(text: &[u8], line: &Line) -> bool
    requires { IsLineWithin text.now line.now }
    ensures { result ≡ faults.consists_of (codes "end" ∷ []) (line_in text.now line.now) }
{
    line.tokens.len() == 1 && begins(text, line, &["end"])
}
