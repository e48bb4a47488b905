//! The faults that lines have by themselves.
ghost use Rattle.std.specs.Prelude.{◌≡◌, ◌+◌, ◌-◌, ◌^◌, ◌<◌, ◌==◌, ◌∷◌, ◌++◌, ◌||◌, false, true, if◌then◌else◌, IfErr, IfOk, List, None, OnOk, Some, drop, is_some, length, min, nat_lt, not, slice_get, ℕ};
ghost use Rattle.std.specs.List.{list_any};
ghost use Rattle.std.specs.Option.{option_map_or, option_or};
ghost use Rattle.ap_desc.specs.Clean.{IsClean};
ghost use Rattle.ap_program.specs.AsmKinds.{IsFaultOf};
ghost use Rattle.ap_program.specs.Labels as tables;
ghost use Rattle.ap_program.specs.Labels.{landing_among};
ghost use Rattle.ap_program.specs.LineFaults as faults;
ghost use Rattle.ap_program.specs.LineFaults.{AreFaultless, HasLineFault, LinesRise, first_call_fault, first_fault, first_slot_fault};
ghost use Rattle.ap_program.specs.Programs as programs;
ghost use Rattle.ap_program.specs.Programs.{is_instr, is_slot, is_slot_next, landing_of};
ghost use Rattle.ap_program.specs.SoFar as so_far;
ghost use Rattle.ap_program.specs.SoFar.{IsSoFar};
ghost use Rattle.ap_program.specs.declared.statement.Statement.TheVariants as says;
ghost use Rattle.ap_program.specs.declared.statement.ProgramLine.{ProgramLine as DeclaredLine};

use crate::fault::{AsmFault, AsmKind, at};
use crate::labels::Labels;
use crate::operands::{FreeField, does_transfer, free_places, has_unfit, instr_named, mem_named};
use crate::so_far::SoFar;
use crate::statement::{Call, ProgramLine, Statement, Written};
use ap_bits::NoMemory;
use ap_desc::design::{Design, Mem};
use ap_enc::word::fits;
use std::alloc::Global;

/// Whether the operand is a label that isn't there.
fn is_unlisted(labels: &Labels, operand: &Written) -> bool
    ensures { result ≡ tables.is_unlisted labels.now operand.now }
{
    match operand {
        Written::Label(name) => labels.landing(name.as_str()).is_none(),
        _ => false,
    }
}

/// Whether one of the operands is a label that isn't there.
fn has_unlisted(labels: &Labels, operands: &[Written]) -> bool
    ensures { result ≡ list_any (tables.is_unlisted labels.now) operands.now }
{
    operands.iter().any(|operand| is_unlisted(labels, operand))
}

/// Whether there are as many operands as free fields.
fn has_count(free: &[FreeField], operands: &[Written]) -> bool
    ensures { result ≡ (length operands.now == length free.now) }
{
    operands.len() == free.len()
}

/// The first fault of an instruction, slots aside.
#[tactic(auto, using(crate::proofs::CallFaults::call_unlisted, crate::proofs::CallFaults::call_count, crate::proofs::CallFaults::call_unfit, crate::proofs::CallFaults::call_fine))]
fn call_fault(
    alloc: Global,
    design: &Design,
    labels: &Labels,
    call: &Call,
) -> Result<Option<AsmKind>, NoMemory>
    ensures { IfOk result (λ fault. (lines : List DeclaredLine)
        → ((name : List ℕ) → landing_among labels.now name ≡ landing_of name lines)
        → fault ≡ first_call_fault design.now lines call.now) }
{
    let Some(place) = instr_named(design, call.instr.as_str()) else {
        return Ok(Some(AsmKind::UnknownInstruction));
    };
    let operands = call.operands.as_slice();
    if has_unlisted(labels, operands) {
        return Ok(Some(AsmKind::UnknownLabel));
    }
    let instr = &design.instrs.as_slice()[place];
    let free = free_places(alloc, design, instr)?;
    if !has_count(free.as_slice(), operands) {
        return Ok(Some(AsmKind::OperandCount));
    }
    if has_unfit(design, instr, free.as_slice(), operands) {
        return Ok(Some(AsmKind::FieldRange));
    }
    Ok(None)
}

/// Whether the instruction of a slot line is a transfer.
fn is_transfer(design: &Design, call: &Call) -> bool
    ensures { result ≡ programs.is_transfer_call design.now call.now }
{
    match instr_named(design, call.instr.as_str()) {
        Some(instr) => does_transfer(design, instr),
        None => false,
    }
}

/// Whether a slot line is one too many, or stands behind no transfer.
fn is_stray(design: &Design, so_far: &SoFar) -> bool
    ensures { result
        ≡ option_map_or (λ slots. slots == design.now.slots) so_far.now.slots true }
{
    match so_far.slots {
        Some(slots) => slots == design.slots,
        None => true,
    }
}

/// What is wrong with a slot line, besides the faults of its instruction.
fn slot_fault(design: &Design, so_far: &SoFar, call: &Call) -> Option<AsmKind>
    requires { IsClean design.now }
    ensures { (before : List DeclaredLine) → IsSoFar design.now before so_far.now
        → result ≡ first_slot_fault design.now before call.now }
{
    if is_transfer(design, call) {
        return Some(AsmKind::TransferInSlot);
    }
    if is_stray(design, so_far) {
        return Some(AsmKind::TooManySlots);
    }
    None
}

/// The first fault of a slot line.
fn slot_line_fault(
    alloc: Global,
    design: &Design,
    labels: &Labels,
    so_far: &SoFar,
    call: &Call,
) -> Result<Option<AsmKind>, NoMemory>
    requires { IsClean design.now }
    ensures { IfOk result (λ fault. (lines before : List DeclaredLine)
        → ((name : List ℕ) → landing_among labels.now name ≡ landing_of name lines)
        → IsSoFar design.now before so_far.now
        → fault ≡ option_or (first_call_fault design.now lines call.now)
        (first_slot_fault design.now before call.now)) }
{
    let fault = call_fault(alloc, design, labels, call)?;
    if fault.is_some() {
        return Ok(fault);
    }
    Ok(slot_fault(design, so_far, call))
}

/// Whether a word has more bits than these.
fn is_wide(word: u64, width: u32) -> bool
    ensures { result ≡ not (nat_lt word (2 ^ width)) }
{
    !fits(word, width)
}

/// Whether one of the words has more bits than these.
fn has_wide(words: &[u64], width: u32) -> bool
    ensures { result ≡ list_any (λ word. not (nat_lt word (2 ^ width))) words.now }
{
    words.iter().any(|word| is_wide(*word, width))
}

/// Whether there are more words than addresses of so many bits. The number stops at its type's greatest.
fn is_past(before: usize, count: usize, address: u32) -> bool
    ensures { result ≡ nat_lt (2 ^ address) (min (before + count) (2 ^ 64 - 1)) }
{
    let total = before.saturating_add(count) as u64;
    total > 0 && !fits(total - 1, address)
}

/// Whether the words don't fit a memory that has so many before.
fn are_too_much(mem: &Mem, before: usize, words: &[u64]) -> bool
    ensures { result ≡ so_far.are_too_much mem.now before words.now }
{
    has_wide(words, mem.width) || is_past(before, words.len(), mem.address)
}

/// Whether the words don't fit their memory, or there is none of this name.
#[tactic(auto, using(crate::proofs::DataFaults::data_is, crate::proofs::DataFaults::no_data))]
fn is_bad_data(design: &Design, so_far: &SoFar, name: &str, words: &[u64]) -> bool
    requires clean { IsClean design.now }
    requires counts { length so_far.now.words ≡ length design.now.mems }
    ensures { (before : List DeclaredLine) → IsSoFar design.now before so_far.now
        → result ≡ faults.is_bad_data design.now before (Some (says.Data name.now words.now)) }
{
    let Some(place) = mem_named(design, name) else {
        return true;
    };
    let mem = &design.mems.as_slice()[place];
    are_too_much(mem, so_far.words.as_slice()[place], words)
}

/// The fault of a label, where the next instruction or slot line is a slot line or isn't.
fn label_fault(so_far: &SoFar, name: &str, slot_next: bool) -> Option<AsmKind>
    ensures { result ≡ (if is_some (landing_among so_far.now.seen name.now) then Some AsmKind.LabelTwice
        else if slot_next then Some AsmKind.LabelInSlot else None) }
{
    if so_far.seen.landing(name).is_some() {
        return Some(AsmKind::LabelTwice);
    }
    if slot_next {
        Some(AsmKind::LabelInSlot)
    } else {
        None
    }
}

/// The fault of a line of data.
fn data_fault(design: &Design, so_far: &SoFar, name: &str, words: &[u64]) -> Option<AsmKind>
    requires clean { IsClean design.now }
    requires counts { length so_far.now.words ≡ length design.now.mems }
    ensures { (before : List DeclaredLine) → IsSoFar design.now before so_far.now
        → result ≡ (if faults.is_bad_data design.now before (Some (says.Data name.now words.now))
        then Some AsmKind.BadData else None) }
{
    if is_bad_data(design, so_far, name, words) {
        Some(AsmKind::BadData)
    } else {
        None
    }
}

/// The first fault of a line, where the lines before it are kept so, and the next instruction or slot line is a slot line or isn't.
#[tactic(auto, using(crate::proofs::SaidFaults::said_nothing, crate::proofs::SaidFaults::said_label, crate::proofs::SaidFaults::said_instr, crate::proofs::SaidFaults::said_slot, crate::proofs::SaidFaults::said_data))]
fn fault_of(
    alloc: Global,
    design: &Design,
    labels: &Labels,
    so_far: &SoFar,
    line: &ProgramLine,
    slot_next: bool,
) -> Result<Option<AsmKind>, NoMemory>
    requires clean { IsClean design.now }
    requires counts { length so_far.now.words ≡ length design.now.mems }
    ensures { IfOk result (λ fault. (before after : List DeclaredLine)
        → ((name : List ℕ) → landing_among labels.now name ≡ landing_of name (before ++ line.now ∷ after))
        → IsSoFar design.now before so_far.now → slot_next ≡ is_slot_next after
        → fault ≡ first_fault design.now before line.now after) }
{
    match &line.says {
        None => Ok(Some(AsmKind::BadForm)),
        Some(Statement::Label(name)) => Ok(label_fault(so_far, name.as_str(), slot_next)),
        Some(Statement::Instr(call)) => call_fault(alloc, design, labels, call),
        Some(Statement::Slot(call)) => slot_line_fault(alloc, design, labels, so_far, call),
        Some(Statement::Data { mem, words }) => {
            Ok(data_fault(design, so_far, mem.as_str(), words.as_slice()))
        }
    }
}

/// Whether the next instruction or slot line from a line on is a slot line, where this is so of the lines behind it or isn't.
fn is_slot_from(line: &ProgramLine, behind: bool) -> bool
    ensures { result ≡ (is_slot line.now || (if is_instr line.now then false else behind)) }
{
    match &line.says {
        Some(Statement::Slot(_)) => true,
        Some(Statement::Instr(_)) => false,
        _ => behind,
    }
}

/// For each line whether the next instruction or slot line behind it is a slot line.
#[tactic(auto, using(crate::proofs::SlotsAhead::ahead_each, crate::proofs::SlotsAhead::ahead_here, crate::proofs::SlotsAhead::none_ahead))]
fn slots_ahead(alloc: Global, lines: &[ProgramLine]) -> Result<Vec<bool>, NoMemory>
    ensures len { IfOk result (λ ahead. length ahead.items ≡ length lines.now) }
    ensures each { IfOk result (λ ahead. (i : ℕ) → i < length lines.now
        → slice_get ahead.items i ≡ Some (is_slot_next (drop (i + 1) lines.now))) }
{
    let mut ahead = vec![in alloc; false; lines.len()]?;
    let mut next = false;
    let mut i = lines.len();
    'down: while i > 0 {
        i -= 1;
        ahead[i] = next;
        next = is_slot_from(&lines[i], next);
    }
    Ok(ahead)
}

/// Finds the least fault that a line has by itself.
pub(crate) fn judge(
    alloc: Global,
    design: &Design,
    labels: &Labels,
    lines: &[ProgramLine],
) -> Result<(), AsmFault>
    requires clean { IsClean design.now }
    requires labels { (name : List ℕ) → landing_among labels.now name ≡ landing_of name lines.now }
    requires rising { LinesRise 0 lines.now }
    ensures ok { OnOk result (AreFaultless design.now lines.now) }
    ensures err { IfErr result (IsFaultOf (HasLineFault design.now lines.now)) }
{
    let ahead = slots_ahead(alloc, lines)?;
    let mut so_far = SoFar::start(alloc, design)?;
    for (i, line) in lines.iter().enumerate() {
        if let Some(kind) = fault_of(alloc, design, labels, &so_far, line, ahead[i])? {
            return Err(at(line.number, kind));
        }
        so_far.take(alloc, design, line)?;
    }
    Ok(())
}
