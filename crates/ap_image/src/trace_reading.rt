//! Reads the text of a trace.
ghost use Rattle.std.specs.Prelude.{◌≡◌, ◌≤◌, All, IfErr, IfOk, List, length, map};
ghost use Rattle.ap_text.specs.Lines.{TextLine, lines_of};
ghost use Rattle.ap_text.specs.Spans.{AreLinesWithin, IsLineWithin, IsWithin, bytes_in, line_in};
ghost use Rattle.ap_image.specs.FitsShape.{TraceFitsShape};
ghost use Rattle.ap_image.specs.Shapes.{IsNarrow};
ghost use Rattle.ap_image.specs.TextFaults.{IsFaultlessText, IsTextFault, text_limit};
ghost use Rattle.ap_image.specs.TextFaults.{IsFaultOfLine, IsFaultOfLines};
ghost use Rattle.ap_image.specs.TraceTexts.{IsCycleOf, IsTraceOf, IsTraceOrMemory};
ghost use Rattle.ap_image.specs.TraceTexts.{are_within, numbers_in, trace_fault, trace_of, trace_text};
ghost use Rattle.ap_image.specs.declared.trace.Trace.{Trace as DeclaredTrace};

use crate::fault::{TEXT_LIMIT, TextFault, TextKind, at};
use crate::shape::Shape;
use crate::so_far::has_bits;
use crate::trace::{Trace, TraceLine};
use ap_bits::{Items, NoMemory};
use ap_text::{Line, Span, lines, number};
use std::alloc::Global;

/// The numbers that tokens are, where each of them is one.
fn numbers(alloc: Global, text: &[u8], tokens: &[Span]) -> Result<Option<Items<u64>>, NoMemory>
    requires { All (IsWithin text.now) tokens.now }
    ensures { IfOk result (λ numbers.
        numbers ≡ numbers_in (map (bytes_in text.now) tokens.now)) }
{
    let mut numbers = Items::new(alloc);
    for token in tokens {
        let Ok(value) = number(token.of(text)) else {
            return Ok(None);
        };
        numbers.push(value)?;
    }
    Ok(Some(numbers))
}

/// Whether each value has at most the bits beside it.
fn have_bits(values: &[u64], widths: &[u32]) -> bool
    requires { length values.now ≡ length widths.now }
    ensures { result ≡ are_within values.now widths.now }
{
    for (i, value) in values.iter().enumerate() {
        if !has_bits(*value, widths[i]) {
            return false;
        }
    }
    true
}

/// The cycle that a line is.
fn read_cycle(
    alloc: Global,
    shape: &Shape,
    text: &[u8],
    line: &Line,
) -> Result<TraceLine, TextFault>
    requires { IsLineWithin text.now line.now }
    ensures ok { IfOk result (IsCycleOf shape.now (line_in text.now line.now)) }
    ensures err { IfErr result (λ fault. (before : List TextLine)
        → IsFaultOfLine (trace_fault shape.now) before (line_in text.now line.now) fault) }
{
    let [wait, ports @ ..] = line.tokens.as_slice() else {
        return Err(at(line.number, TextKind::BadForm));
    };
    if !line.clean || ports.len() != shape.inputs().len() {
        return Err(at(line.number, TextKind::BadForm));
    }
    let Ok(wait) = number(wait.of(text)) else {
        return Err(at(line.number, TextKind::BadForm));
    };
    let Some(ports) = numbers(alloc, text, ports)? else {
        return Err(at(line.number, TextKind::BadForm));
    };
    if wait > 1 || !have_bits(ports.as_slice(), shape.inputs()) {
        return Err(at(line.number, TextKind::ValueTooWide));
    }
    Ok(TraceLine {
        wait: wait == 1,
        ports,
    })
}

/// The trace that lines are, or the fault of the first that has one.
fn read_cycles(
    alloc: Global,
    shape: &Shape,
    text: &[u8],
    lines: &[Line],
) -> Result<Trace, TextFault>
    requires { AreLinesWithin text.now lines.now }
    ensures ok { IfOk result (IsTraceOf shape.now (map (line_in text.now) lines.now)) }
    ensures err { IfErr result
        (IsFaultOfLines (trace_fault shape.now) (map (line_in text.now) lines.now)) }
{
    let mut cycles = Items::new(alloc);
    for line in lines {
        let cycle = read_cycle(alloc, shape, text, line)?;
        cycles.push(cycle)?;
    }
    Ok(Trace { lines: cycles })
}

/// Reads a text that isn't too long.
fn read_short(alloc: Global, text: &[u8], shape: &Shape) -> Result<Trace, TextFault>
    requires { length text.now ≤ text_limit }
    ensures faultless { IfOk result (λ _. IsFaultlessText (trace_fault shape.now) text.now) }
    ensures value { IfOk result (λ trace. trace ≡ trace_of (lines_of text.now)) }
    ensures fits { IfOk result (λ trace. TraceFitsShape trace shape.now) }
    ensures refused { IfErr result (IsTextFault (trace_fault shape.now) text.now) }
{
    let list = lines(alloc, text)?;
    let trace = read_cycles(alloc, shape, text, list.as_slice())?;
    Ok(trace)
}

/// Reads the text of a trace: what the wait bit and the inputs of the shape are in each cycle.
///
/// Each line is one cycle: the wait bit, and then one number for each input port, in order. A fault
/// comes exactly where the text has one, and is the least, by its line and then by its number:
/// `BadForm` where a line is bad, has something that is no number or a wrong count of numbers, and at
/// line 0 where the text has more than 67,108,864 bytes; `ValueTooWide` where a number has more bits
/// than its port or the wait bit. No other kind comes. `NoMemory` comes only where memory ran out.
/// The time goes with the number of bytes.
pub fn read_trace(alloc: Global, text: &[u8], shape: &Shape) -> Result<Trace, TextFault>
    // A text that is accepted has no fault, and the trace is what its lines are. One that is
    // refused has this least fault.
    ensures faultless { IfOk result (λ _. IsFaultlessText (trace_fault shape.now) text.now) }
    ensures value { IfOk result (λ trace. trace ≡ trace_of (lines_of text.now)) }
    ensures fits { IfOk result (λ trace. TraceFitsShape trace shape.now) }
    ensures refused { IfErr result (IsTextFault (trace_fault shape.now) text.now) }

    // What is written of a trace that fits is read as it.
    ensures written { IsNarrow shape.now → (trace : DeclaredTrace)
        → TraceFitsShape trace shape.now → text.now ≡ trace_text trace
        → length text.now ≤ text_limit
        → IsTraceOrMemory trace result }
{
    if text.len() > TEXT_LIMIT {
        return Err(at(0, TextKind::BadForm));
    }
    read_short(alloc, text, shape)
}
