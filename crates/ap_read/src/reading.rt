ghost use Rattle.std.specs.Prelude.{◌≡◌, ◌≤◌, IfErr, IfOk, IsTrue, List, MatchResult, [], length, map};
ghost use Rattle.ap_text.specs.Spans.{AreLinesWithin, IsLineWithin, bytes_in, line_in};
ghost use Rattle.ap_bits.specs.Beside.{EachBeside};
ghost use Rattle.ap_desc.specs.Descriptions.{IsDescription};
ghost use Rattle.ap_desc.specs.Faults.{IsWellFormed};
ghost use Rattle.ap_desc.specs.FaultTable.{phase_of};
ghost use Rattle.ap_desc.specs.Order.{are_in_order};
ghost use Rattle.ap_desc.specs.Limits.{description_limit};
ghost use Rattle.ap_desc.specs.Reading.{IsAt, ReadsAs, SpellsLine};
ghost use Rattle.ap_desc.specs.Shown.{renumbered, shown_text};
ghost use Rattle.ap_read.specs.ReadFaults.{IsReadFault, IsReadOrMemory};
ghost use Rattle.ap_desc.specs.declared.description.Numbered.{Numbered as DeclaredNumbered};
ghost use Rattle.ap_read.specs.LineFaults.{IsLineFault, IsReadAt, IsRefusedAt, IsSaidAt, IsUnsaid, LinesRise};

use crate::missing::is_missing_some;
use crate::place::Place;
use crate::statement::statement;
use ap_bits::{Items, NoMemory};
use ap_desc::laws::{reading_is_unique, shown_is_read, spelling_is_unique};
use ap_desc::limits::DESCRIPTION_LIMIT;
use ap_desc::{DescFault, Description, Fault, Numbered, Refusal, Statement};
use ap_text::{Line, lines};
use std::alloc::Global;

/// The refusal for a fault of this kind at this line.
fn refused(kind: Fault, line: u32) -> DescFault
    ensures { result ≡ DescFault.Refused
        (record { phase = phase_of kind; line = line; kind = kind }) }
{
    DescFault::Refused(Refusal {
        phase: kind.phase(),
        line,
        kind,
    })
}

/// The tokens of a line.
fn tokens<'a>(alloc: Global, text: &'a [u8], line: &Line) -> Result<Vec<&'a [u8]>, NoMemory>
    requires { IsLineWithin text.now line.now }
    ensures { IfOk result (λ tokens. map (λ token. token.now) tokens.items
        ≡ map (bytes_in text.now) line.now.tokens) }
{
    let mut tokens = Vec::new(alloc);
    for span in line.tokens.as_slice() {
        tokens.push(span.of(text))?;
    }
    Ok(tokens)
}

/// The statement that a line says, and None where it says nothing.
fn said(alloc: Global, text: &[u8], line: &Line) -> Result<Option<Statement>, NoMemory>
    requires { IsLineWithin text.now line.now }
    ensures { IfOk result (λ said. IsSaidAt said (line_in text.now line.now)) }
{
    if !line.clean {
        return Ok(None);
    }
    let tokens = tokens(alloc, text, line)?;
    let said = statement(alloc, tokens.as_slice())?;
    Ok(said)
}

/// The statement that a line says. One that says nothing is a bad line.
fn read_line(alloc: Global, text: &[u8], line: &Line) -> Result<Statement, DescFault>
    requires { IsLineWithin text.now line.now }
    ensures { MatchResult result (λ statement. SpellsLine statement (line_in text.now line.now))
        (IsUnsaid (line_in text.now line.now)) }
{
    match said(alloc, text, line)? {
        Some(statement) => Ok(statement),
        None => Err(refused(Fault::BadLine, line.number)),
    }
}

/// The statement that a line says after those that lead to the place, if the line has no fault there.
fn read_at(alloc: Global, text: &[u8], line: &Line, place: &Place) -> Result<Statement, DescFault>
    requires { IsLineWithin text.now line.now }
    ensures ok { IfOk result (IsReadAt place.now (line_in text.now line.now)) }
    ensures err { IfErr result (IsRefusedAt place.now (line_in text.now line.now)) }
{
    spelling_is_unique();
    let statement = read_line(alloc, text, line)?;
    match place.fault(&statement) {
        Some(kind) => Err(refused(kind, line.number)),
        None => Ok(statement),
    }
}

/// The statements of lines, one for each, or the fault of the first line that has one.
fn read_lines(alloc: Global, text: &[u8], lines: &[Line]) -> Result<Items<Numbered>, DescFault>
    requires within { AreLinesWithin text.now lines.now }
    requires rising { LinesRise 0 (map (line_in text.now) lines.now) }
    ensures said { IfOk result (λ list. EachBeside IsAt list (map (line_in text.now) lines.now)) }
    ensures order { IfOk result (λ list. IsTrue (are_in_order [] (map (λ n. n.statement) list))) }
    ensures fault { IfErr result (IsLineFault (map (line_in text.now) lines.now)) }
{
    spelling_is_unique();
    let mut list = Items::new(alloc);
    let mut place = Place::start();
    for line in lines {
        let statement = read_at(alloc, text, line, &place)?;
        place = place.after(&statement);
        list.push(Numbered {
            line: line.number,
            statement,
        })?;
    }
    Ok(list)
}

/// Reads a text that isn't too long.
fn read_short(alloc: Global, text: &[u8]) -> Result<Description, DescFault>
    requires { length text.now ≤ description_limit }
    ensures faultless { IfOk result (λ _. IsWellFormed text.now) }
    ensures reads { IfOk result (ReadsAs text.now) }
    ensures refused { IfErr result (IsReadFault text.now) }
{
    spelling_is_unique();
    let list = lines(alloc, text)?;
    let lines = list.as_slice();
    if is_missing_some(text, lines) {
        return Err(refused(Fault::Missing, 0));
    }
    let statements = read_lines(alloc, text, lines)?;
    Ok(Description::new(statements))
}

/// Reads the text of a description.
///
/// `Refused` comes exactly where the text has a fault of form, F1 to F5, and names the least one, by its line and then by
/// its number. A text of more than 1,048,576 bytes has the fault F5 alone. What every description needs and the text lacks
/// is F4 at line 0, before any fault of a line. `NoMemory` comes only where memory ran out. The time goes with the number
/// of bytes.
pub fn read(alloc: Global, text: &[u8]) -> Result<Description, DescFault>
    // A text that is accepted has no fault, and the description reads it. One that is refused has this least fault.
    ensures faultless { IfOk result (λ _. IsWellFormed text.now) }
    ensures reads { IfOk result (ReadsAs text.now) }
    ensures refused { IfErr result (IsReadFault text.now) }

    // A text that reads as a description is read as it, and so is the text that is shown of one: its lines are 1, 2 and so on.
    ensures described { (statements : List DeclaredNumbered) → IsDescription statements
        → ReadsAs text.now statements → length text.now ≤ description_limit
        → IsReadOrMemory statements result }
    ensures shown { (statements : List DeclaredNumbered) → IsDescription statements
        → text.now ≡ shown_text statements → length text.now ≤ description_limit
        → IsReadOrMemory (renumbered 1 statements) result }
{
    spelling_is_unique();
    reading_is_unique();
    shown_is_read();
    if text.len() > DESCRIPTION_LIMIT {
        return Err(refused(Fault::TooLong, 0));
    }
    read_short(alloc, text)
}
