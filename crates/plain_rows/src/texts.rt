//! From the texts of a description, an image and a trace to the text of the rows.
ghost use Rattle.std.specs.Prelude.{◌≡◌, ◌++◌, map, string_bytes, IfOk, OnOk};
ghost use Rattle.ap_image.specs.FitsShape.{ImageFitsShape, TraceFitsShape};
ghost use Rattle.ap_image.specs.ImageTexts.{image_of};
ghost use Rattle.ap_image.specs.TraceTexts.{trace_of};
ghost use Rattle.ap_text.specs.Lines.{lines_of};
ghost use Rattle.ap_unit.specs.Shelves.{cards_of};
ghost use Rattle.plain_rows.specs.Lines.{line_at, lines_of_rows};
ghost use Rattle.plain_rows.specs.PlainRows.{ArePlainRows, Describes};

use crate::fault::{Fault, of_image, of_trace};
use crate::labels::labels;
use ap_asm::shape_of;
use ap_bits::{Card, NoMemory};
use ap_check::resolve;
use ap_desc::design::Design;
use ap_image::{Image, Row, Shape, Trace, read_image, read_trace, write_row};
use ap_model::laws::fitting_designs_can_be_run;
use ap_plain::rows;
use ap_read::read;
use ap_unit::Shelf;
use std::alloc::Global;

/// The design that a description means.
fn design_in(alloc: Global, text: &[u8], shelf: &Shelf) -> Result<Design, Fault>
    ensures { IfOk result (Describes (cards_of card shelf.now) text.now) }
{
    let description = read(alloc, text)?;
    let design = resolve(alloc, &description, shelf)?;
    Ok(design)
}

/// The image that a text says.
fn image_in(alloc: Global, text: &[u8], shape: &Shape) -> Result<Image, Fault>
    ensures value { IfOk result (λ image. image ≡ image_of shape.now (lines_of text.now)) }
    ensures fits { IfOk result (λ image. ImageFitsShape image shape.now) }
{
    match read_image(alloc, text, shape) {
        Ok(image) => Ok(image),
        Err(fault) => Err(of_image(fault)),
    }
}

/// The trace that a text says.
fn trace_in(alloc: Global, text: &[u8], shape: &Shape) -> Result<Trace, Fault>
    ensures value { IfOk result (λ trace. trace ≡ trace_of (lines_of text.now)) }
    ensures fits { IfOk result (λ trace. TraceFitsShape trace shape.now) }
{
    match read_trace(alloc, text, shape) {
        Ok(trace) => Ok(trace),
        Err(fault) => Err(of_trace(fault)),
    }
}

/// Adds the line of a cycle's row.
fn add_line(
    alloc: Global,
    labels: &[String],
    rows: &[Row],
    cycle: usize,
    text: &mut Vec<u8>,
) -> Result<(), NoMemory>
    ensures { OnOk result (text.new.items
        ≡ text.old.items ++ line_at (map string_bytes labels.now) rows.now cycle) }
{
    match rows.get(cycle) {
        Some(row) => write_row(alloc, labels, cycle as u64, row, text),
        None => Ok(()),
    }
}

/// The lines of the rows.
fn lines(alloc: Global, labels: &[String], rows: &[Row]) -> Result<Vec<u8>, NoMemory>
    ensures { IfOk result (λ text. text.items
        ≡ lines_of_rows (map string_bytes labels.now) rows.now) }
{
    let mut text = Vec::new(alloc);
    for cycle in 0..rows.len() {
        add_line(alloc, labels, rows, cycle, &mut text)?;
    }
    Ok(text)
}

/// The text of the first `count` rows of the machine that the description means, over a shelf of these cards.
pub(crate) fn rows_text(
    alloc: Global,
    shelf: &Shelf,
    cards: &[Card],
    description: &[u8],
    image: &[u8],
    trace: &[u8],
    count: u32,
) -> Result<Vec<u8>, Fault>
    requires { cards_of card shelf.now ≡ cards.now }
    ensures { let are_rows = ArePlainRows cards.now description.now image.now trace.now count in
        IfOk result (λ text. are_rows text.items) }
{
    fitting_designs_can_be_run();
    let design = design_in(alloc, description, shelf)?;
    let shape = shape_of(alloc, &design)?;
    let image = image_in(alloc, image, &shape)?;
    let trace = trace_in(alloc, trace, &shape)?;
    let shown = rows(alloc, &design, cards, &image, &trace, count)?;
    let labels = labels(alloc, &design)?;
    let text = lines(alloc, &labels, shown.as_slice())?;
    Ok(text)
}
