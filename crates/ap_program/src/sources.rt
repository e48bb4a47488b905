//! The program that lines without fault say.
ghost use Rattle.std.specs.Prelude.{◌≡◌, ◌-◌, ◌%◌, ◌^◌, ◌<◌, ◌≤◌, ◌||◌, ◌∷◌, ◌++◌, if◌then◌else◌, List, IfOk, OnOk, length, map, false, option_map, option_to_list, zip, ℕ};
ghost use Rattle.std.specs.List.{AllByRecursion as Each};
ghost use Rattle.ap_desc.specs.Clean.{IsClean};
ghost use Rattle.ap_desc.specs.declared.design.Mem.{Mem as DeclaredMem};
ghost use Rattle.ap_program.specs.Fits.{IsWide};
ghost use Rattle.ap_program.specs.Labels.{landing_among};
ghost use Rattle.ap_program.specs.Programs.{instr_by, is_label, landing_of, slot_by};
ghost use Rattle.ap_program.specs.Programs as programs;
ghost use Rattle.ap_program.specs.Sources as sources;
ghost use Rattle.ap_program.specs.Sources.{groups_from, labelled_after, numbers_of, operand_of};
ghost use Rattle.ap_program.specs.declared.statement.ProgramLine.{ProgramLine as DeclaredLine};

use crate::labels::Labels;
use crate::operands::{FreeField, below_end, free_places_at, instr_named};
use crate::statement::{Call, ProgramLine, Statement, Written};
use ap_bits::{Items, NoMemory};
use ap_desc::design::Design;
use ap_dist::{Group, Operand, Source, SourceLine};
use std::alloc::Global;

/// The operand of a field of this width.
fn operand_of(labels: &Labels, width: u32, written: &Written) -> Operand
    requires low { 1 ≤ width }
    requires high { width ≤ 64 }
    ensures { (lines : List DeclaredLine)
        → ((name : List ℕ) → landing_among labels.now name ≡ landing_of name lines)
        → result ≡ operand_of lines width written.now }
{
    match written {
        Written::Number(value) => Operand::Value(*value),
        Written::Minus(value) => Operand::Value(below_end(*value, width)),
        Written::Label(name) => Operand::Landing(labels.landing(name.as_str()).unwrap_or(0)),
    }
}

/// The operands of these fields.
fn operands_of(
    alloc: Global,
    labels: &Labels,
    fields: &[FreeField],
    written: &[Written],
) -> Result<Items<Operand>, NoMemory>
    requires { Each IsWide fields.now }
    ensures { IfOk result (λ operands. (lines : List DeclaredLine)
        → ((name : List ℕ) → landing_among labels.now name ≡ landing_of name lines)
        → operands ≡ map (sources.operand_beside lines) (zip fields.now written.now)) }
{
    let mut operands = Items::new(alloc);
    for (i, written) in written.iter().enumerate() {
        if i >= fields.len() {
            return Ok(operands);
        }
        operands.push(operand_of(labels, fields[i].width, written))?;
    }
    Ok(operands)
}

/// The instruction that a line of a program is.
fn source_line(
    alloc: Global,
    design: &Design,
    labels: &Labels,
    call: &Call,
) -> Result<SourceLine, NoMemory>
    requires clean { IsClean design.now }
    ensures { IfOk result (λ line. (lines : List DeclaredLine)
        → ((name : List ℕ) → landing_among labels.now name ≡ landing_of name lines)
        → line ≡ sources.source_line design.now lines call.now) }
{
    let place = instr_named(design, call.instr.as_str()).unwrap_or(0);
    let free = free_places_at(alloc, design, place)?;
    let operands = operands_of(alloc, labels, free.as_slice(), call.operands.as_slice())?;
    Ok(SourceLine {
        instr: place as u32,
        operands,
    })
}

/// Whether a line is an instruction, slot lines aside.
fn is_instr(line: &ProgramLine) -> bool
    ensures { result ≡ programs.is_instr line.now }
{
    match &line.says {
        Some(Statement::Instr(_)) => true,
        _ => false,
    }
}

/// The instruction of a slot line, where a line is one.
#[tactic(auto, using(crate::proofs::SourceLines::slot_of_none))]
fn slot_in(
    alloc: Global,
    design: &Design,
    labels: &Labels,
    line: &ProgramLine,
) -> Result<Option<SourceLine>, NoMemory>
    requires clean { IsClean design.now }
    ensures { IfOk result (λ slot. (all : List DeclaredLine)
        → ((name : List ℕ) → landing_among labels.now name ≡ landing_of name all)
        → slot ≡ option_map (sources.source_line design.now all) (slot_by line.now.says)) }
{
    let Some(Statement::Slot(call)) = &line.says else {
        return Ok(None);
    };
    let slot = source_line(alloc, design, labels, call)?;
    Ok(Some(slot))
}

/// Adds a slot line, where there is one.
fn push_slot(slots: &mut Items<SourceLine>, slot: Option<SourceLine>) -> Result<(), NoMemory>
    ensures { OnOk result (slots.new ≡ slots.old ++ option_to_list slot) }
{
    if let Some(slot) = slot {
        slots.push(slot)?;
    }
    Ok(())
}

/// The slot lines up to the next instruction.
fn slot_lines(
    alloc: Global,
    design: &Design,
    labels: &Labels,
    lines: &[ProgramLine],
) -> Result<Items<SourceLine>, NoMemory>
    requires clean { IsClean design.now }
    ensures { IfOk result (λ slots. (all : List DeclaredLine)
        → ((name : List ℕ) → landing_among labels.now name ≡ landing_of name all)
        → slots ≡ sources.slot_lines design.now all lines.now) }
{
    let mut slots = Items::new(alloc);
    for line in lines {
        if is_instr(line) {
            return Ok(slots);
        }
        let slot = slot_in(alloc, design, labels, line)?;
        push_slot(&mut slots, slot)?;
    }
    Ok(slots)
}

/// The group that a line begins, if it begins one; these lines follow it.
#[tactic(auto, using(crate::proofs::SourceLines::group_of_none))]
fn group_in(
    alloc: Global,
    design: &Design,
    labels: &Labels,
    labelled: bool,
    line: &ProgramLine,
    rest: &[ProgramLine],
) -> Result<Option<Group>, NoMemory>
    requires clean { IsClean design.now }
    ensures { IfOk result (λ group. (all : List DeclaredLine)
        → ((name : List ℕ) → landing_among labels.now name ≡ landing_of name all)
        → group ≡ option_map (sources.group_of design.now all labelled rest.now) (instr_by line.now.says)) }
{
    let Some(Statement::Instr(call)) = &line.says else {
        return Ok(None);
    };
    let first = source_line(alloc, design, labels, call)?;
    let in_slots = slot_lines(alloc, design, labels, rest)?;
    Ok(Some(Group {
        labelled,
        first,
        in_slots,
    }))
}

/// Whether a label stands right behind a line, where one stands right before it or none.
fn is_labelled_behind(line: &ProgramLine, labelled: bool) -> bool
    ensures { result ≡ (if programs.is_instr line.now then false else labelled || is_label line.now) }
{
    match &line.says {
        Some(Statement::Label(_)) => true,
        Some(Statement::Instr(_)) => false,
        _ => labelled,
    }
}

/// Adds a group, where there is one.
fn push_some(groups: &mut Items<Group>, group: Option<Group>) -> Result<(), NoMemory>
    ensures { OnOk result (groups.new ≡ groups.old ++ option_to_list group) }
{
    if let Some(group) = group {
        groups.push(group)?;
    }
    Ok(())
}

/// The groups of a program.
fn groups_of(
    alloc: Global,
    design: &Design,
    labels: &Labels,
    lines: &[ProgramLine],
) -> Result<Items<Group>, NoMemory>
    requires clean { IsClean design.now }
    ensures { IfOk result (λ groups. (all : List DeclaredLine)
        → ((name : List ℕ) → landing_among labels.now name ≡ landing_of name all)
        → groups ≡ groups_from design.now all false lines.now) }
{
    let mut groups = Items::new(alloc);
    let mut labelled = false;
    for (i, line) in lines.iter().enumerate() {
        let rest = &lines[i + 1..];
        let group = group_in(alloc, design, labels, labelled, line, rest)?;
        push_some(&mut groups, group)?;
        labelled = is_labelled_behind(line, labelled);
    }
    Ok(groups)
}

/// Whether a label stands behind the last instruction.
fn ends_with_label(lines: &[ProgramLine]) -> bool
    ensures { result ≡ labelled_after false lines.now }
{
    let mut labelled = false;
    for line in lines {
        labelled = is_labelled_behind(line, labelled);
    }
    labelled
}

/// The numbers of the slot lines up to the next instruction, behind this one.
fn numbers_behind(alloc: Global, first: u32, lines: &[ProgramLine]) -> Result<Items<u32>, NoMemory>
    ensures { IfOk result (λ numbers. numbers ≡ first ∷ sources.slot_numbers lines.now) }
{
    let mut numbers = Items::new(alloc);
    numbers.push(first)?;
    for line in lines {
        match &line.says {
            Some(Statement::Slot(_)) => numbers.push(line.number)?,
            Some(Statement::Instr(_)) => return Ok(numbers),
            _ => {}
        }
    }
    Ok(numbers)
}

/// The numbers of the lines of each group.
pub(crate) fn line_numbers(
    alloc: Global,
    lines: &[ProgramLine],
) -> Result<Items<Items<u32>>, NoMemory>
    ensures { IfOk result (λ numbers. numbers ≡ numbers_of lines.now) }
{
    let mut numbers = Items::new(alloc);
    for (i, line) in lines.iter().enumerate() {
        if let Some(Statement::Instr(_)) = &line.says {
            numbers.push(numbers_behind(alloc, line.number, &lines[i + 1..])?)?;
        }
    }
    Ok(numbers)
}

/// The words that lines give the memory of this name.
fn data_words(alloc: Global, name: &str, lines: &[ProgramLine]) -> Result<Items<u64>, NoMemory>
    ensures { IfOk result (λ words. words ≡ programs.data_words name.now lines.now) }
{
    let mut words = Vec::new(alloc);
    for line in lines {
        if let Some(Statement::Data { mem, words: more }) = &line.says {
            if name == mem.as_str() {
                words.extend_from_slice(more.as_slice())?;
            }
        }
    }
    Ok(Items::of(words))
}

/// The words of each data memory.
fn mems_of(
    alloc: Global,
    design: &Design,
    lines: &[ProgramLine],
) -> Result<Items<Items<u64>>, NoMemory>
    ensures { IfOk result (λ mems.
        mems ≡ map (λ (m : DeclaredMem). programs.data_words m.name lines.now) design.now.mems) }
{
    let mut mems = Items::new(alloc);
    for mem in design.mems.as_slice() {
        mems.push(data_words(alloc, mem.name.as_str(), lines)?)?;
    }
    Ok(mems)
}

/// The program that lines say.
pub(crate) fn source_of(
    alloc: Global,
    design: &Design,
    labels: &Labels,
    lines: &[ProgramLine],
) -> Result<Source, NoMemory>
    requires clean { IsClean design.now }
    requires labels { (name : List ℕ) → landing_among labels.now name ≡ landing_of name lines.now }
    ensures { IfOk result (λ source. source ≡ sources.source_of design.now lines.now) }
{
    let groups = groups_of(alloc, design, labels, lines)?;
    let mems = mems_of(alloc, design, lines)?;
    Ok(Source {
        groups,
        labelled_end: ends_with_label(lines),
        mems,
    })
}
