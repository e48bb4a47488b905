//! Reads programs.
ghost use Rattle.std.specs.Prelude.{◌≡◌, ◌≤◌, IfErr, IfOk, length};
ghost use Rattle.ap_desc.specs.Clean.{IsClean};
ghost use Rattle.ap_image.specs.FitsShape.{MemsFit};
ghost use Rattle.ap_image.specs.TextFaults.{text_limit};
ghost use Rattle.ap_model.specs.DesignShape.{shape_of};
ghost use Rattle.ap_program.specs.AsmKinds.{IsFaultOf};
ghost use Rattle.ap_program.specs.Fits.{SourceFits};
ghost use Rattle.ap_program.specs.LineFaults.{AreFaultless, HasLineFault, HasTextFault};
ghost use Rattle.ap_program.specs.Sources.{numbers_of, source_of};
ghost use Rattle.ap_program.specs.Statements.{program_of};

use crate::fault::{AsmFault, AsmKind, at};
use crate::judging::judge;
use crate::labels::labels_of;
use crate::lines::read_lines;
use crate::sources::{line_numbers, source_of};
use ap_bits::Items;
use ap_desc::design::Design;
use ap_dist::Source;
use ap_image::TEXT_LIMIT;
use std::alloc::Global;

/// A program, and the numbers of its lines.
#[derive(Drop)]
pub struct Program {
    pub source: Source,
    /// For each instruction its line's number, and those of its slot lines.
    pub numbers: Items<Items<u32>>,
}

/// Reads a text that isn't too long.
#[tactic(auto, using(crate::proofs::RisingLines::lines_rise, crate::proofs::FittingGroups::source_fits))]
fn read_short(alloc: Global, design: &Design, text: &[u8]) -> Result<Program, AsmFault>
    requires clean { IsClean design.now }
    requires short { length text.now ≤ text_limit }
    ensures faultless { IfOk result (λ _. AreFaultless design.now (program_of text.now)) }
    ensures source { IfOk result (λ program.
        program.source ≡ source_of design.now (program_of text.now)) }
    ensures numbers { IfOk result (λ program. program.numbers ≡ numbers_of (program_of text.now)) }
    ensures fits { IfOk result (λ program. SourceFits design.now program.source) }
    ensures mems { IfOk result (λ program.
        MemsFit program.source.mems (shape_of design.now).mems) }
    ensures refused { IfErr result (IsFaultOf (HasLineFault design.now (program_of text.now))) }
{
    let lines = read_lines(alloc, text)?;
    let lines = lines.as_slice();
    let labels = labels_of(alloc, lines)?;
    judge(alloc, design, &labels, lines)?;
    let source = source_of(alloc, design, &labels, lines)?;
    let numbers = line_numbers(alloc, lines)?;
    Ok(Program { source, numbers })
}

/// Reads the text of a program for a processor.
///
/// A fault comes exactly where the text as a whole or a line of it by itself has one, and is the least, by its line and then by its
/// number: `SlotConflict` and `ImageFull` never come, since they ask where lines stand. A text of more than 67,108,864 bytes is
/// `BadForm` at line 0. `NoMemory` comes only where memory ran out. The time goes with the number of bytes.
#[tactic(auto, using(crate::proofs::LongTexts::too_long, crate::proofs::LongTexts::short_fault))]
pub fn read_program(alloc: Global, design: &Design, text: &[u8]) -> Result<Program, AsmFault>
    requires { IsClean design.now }
    // A text that is accepted has no fault, and the program is what its lines say. One that is refused has this least fault.
    ensures short { IfOk result (λ _. length text.now ≤ text_limit) }
    ensures faultless { IfOk result (λ _. AreFaultless design.now (program_of text.now)) }
    ensures source { IfOk result (λ program.
        program.source ≡ source_of design.now (program_of text.now)) }
    ensures numbers { IfOk result (λ program. program.numbers ≡ numbers_of (program_of text.now)) }
    ensures fits { IfOk result (λ program. SourceFits design.now program.source) }
    ensures mems { IfOk result (λ program.
        MemsFit program.source.mems (shape_of design.now).mems) }
    ensures refused { IfErr result (IsFaultOf (HasTextFault design.now text.now)) }
{
    if text.len() > TEXT_LIMIT {
        return Err(at(0, AsmKind::BadForm));
    }
    read_short(alloc, design, text)
}
