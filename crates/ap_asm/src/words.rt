//! The words of a program's lines.
ghost use Rattle.std.specs.Prelude.{◌≡◌, IfOk, Some, ℕ, map, position, replicate};
ghost use Rattle.ap_bits.specs.Beside.{EachBeside};
ghost use Rattle.ap_desc.specs.Clean.{IsClean};
ghost use Rattle.ap_desc.specs.Designs.{is_named_nop};
ghost use Rattle.ap_dist.specs.Places.{IsPlainNop};
ghost use Rattle.ap_dist.specs.declared.source.Operand.TheVariants as operand;
ghost use Rattle.ap_program.specs.Fits.{GroupFits, LineFits, SourceFits};
ghost use Rattle.ap_asm.specs.Words.{AreAddresses, ArePlainWords, AreWordsAmong, IsWordAmong, value_among};

use ap_bits::{Items, NoMemory};
use ap_desc::design::Design;
use ap_dist::{Group, Operand, Source, SourceLine};
use ap_enc::encode;
use ap_program::operands::free_places_at;
use std::alloc::Global;

/// The value of an operand, with these landings; that of a label beyond them is 0.
fn value_of(landings: &[usize], operand: Operand) -> u64
    ensures { result ≡ value_among landings.now operand }
{
    match operand {
        Operand::Value(value) => value,
        Operand::Landing(group) => match landings.get(group) {
            Some(landing) => *landing as u64,
            None => 0,
        },
    }
}

/// The values of operands.
fn values_of(alloc: Global, landings: &[usize], operands: &[Operand]) -> Result<Vec<u64>, NoMemory>
    ensures { IfOk result (λ values. values.items ≡ map (value_among landings.now) operands.now) }
{
    let mut values = Vec::new(alloc);
    for operand in operands {
        values.push(value_of(landings, *operand))?;
    }
    Ok(values)
}

/// The word of a line.
pub(crate) fn word_of(
    alloc: Global,
    design: &Design,
    landings: &[usize],
    line: &SourceLine,
) -> Result<u64, NoMemory>
    requires clean { IsClean design.now }
    requires addresses { AreAddresses design.now landings.now }
    requires fits { (groups : ℕ) × LineFits design.now groups line.now }
    ensures { IfOk result (IsWordAmong design.now landings.now line.now) }
{
    let operands = line.operands.as_slice();
    let values = values_of(alloc, landings, operands)?;
    let given = values.as_slice();
    let word = encode(design, line.instr, given).unwrap();
    Ok(word)
}

/// The words of a group, with these landings.
pub(crate) fn group_words(
    alloc: Global,
    design: &Design,
    landings: &[usize],
    group: &Group,
) -> Result<Items<u64>, NoMemory>
    requires clean { IsClean design.now }
    requires addresses { AreAddresses design.now landings.now }
    requires fits { (groups : ℕ) × GroupFits design.now groups group.now }
    ensures { IfOk result (AreWordsAmong design.now landings.now group.now) }
{
    let mut words = Items::new(alloc);
    words.push(word_of(alloc, design, landings, &group.first)?)?;
    for line in group.in_slots.as_slice() {
        words.push(word_of(alloc, design, landings, line)?)?;
    }
    Ok(words)
}

/// The words of each group, where labels stand for 0.
pub(crate) fn plain_words(
    alloc: Global,
    design: &Design,
    source: &Source,
) -> Result<Items<Items<u64>>, NoMemory>
    requires clean { IsClean design.now }
    requires fits { SourceFits design.now source.now }
    ensures { IfOk result (EachBeside (ArePlainWords design.now) source.now.groups) }
{
    let mut words = Items::new(alloc);
    for group in source.groups.as_slice() {
        words.push(group_words(alloc, design, &[], group)?)?;
    }
    Ok(words)
}

/// The place of NOP among the instructions.
fn nop_place(design: &Design) -> Option<usize>
    ensures { result ≡ position is_named_nop design.now.instrs }
{
    design
        .instrs
        .as_slice()
        .iter()
        .position(|instr| instr.name.as_str() == "NOP")
}

/// So many operands of value 0.
fn zeros(alloc: Global, count: usize) -> Result<Items<Operand>, NoMemory>
    ensures { IfOk result (λ operands. operands ≡ replicate count (operand.Value 0)) }
{
    let operands = vec![in alloc; Operand::Value(0); count]?;
    Ok(Items::of(operands))
}

/// The word of NOP, the instruction at this place, with 0 for each operand.
fn nop_word_at(alloc: Global, design: &Design, nop: usize) -> Result<u64, NoMemory>
    requires clean { IsClean design.now }
    requires place { position is_named_nop design.now.instrs ≡ Some nop }
    ensures { IfOk result (IsPlainNop design.now) }
{
    let free = free_places_at(alloc, design, nop)?;
    let operands = zeros(alloc, free.len())?;
    let line = SourceLine {
        instr: nop as u32,
        operands,
    };
    let word = word_of(alloc, design, &[], &line)?;
    Ok(word)
}

/// The word of NOP, with 0 for each operand.
pub(crate) fn nop_word(alloc: Global, design: &Design) -> Result<u64, NoMemory>
    requires { IsClean design.now }
    ensures { IfOk result (IsPlainNop design.now) }
{
    match nop_place(design) {
        Some(nop) => nop_word_at(alloc, design, nop),
        None => Ok(0),
    }
}
