//! What is kept of the lines of a program that were judged.
ghost use Rattle.std.specs.Prelude.{◌≡◌, ◌+◌, ◌-◌, ◌^◌, ◌++◌, [], ◌∷◌, if◌then◌else◌, IfOk, List, None, OnOk, Some, min, option_map};
ghost use Rattle.ap_desc.specs.Clean.{IsClean};
ghost use Rattle.ap_program.specs.Programs.{is_transfer_call};
ghost use Rattle.ap_program.specs.SoFar as so_far;
ghost use Rattle.ap_program.specs.SoFar.{IsSoFar};
ghost use Rattle.ap_program.specs.declared.statement.ProgramLine.{ProgramLine as DeclaredLine};

use crate::labels::Labels;
use crate::operands::{does_transfer, instr_named};
use crate::statement::{Call, ProgramLine, Statement};
use ap_bits::{Items, NoMemory};
use ap_desc::design::{Design, Mem};
use std::alloc::Global;

/// The labels that were there, the slot lines of the transfer before, and how many words each memory has. Numbers stop at their
/// type's greatest.
#[derive(Drop)]
pub(crate) struct SoFar {
    pub seen: Labels,
    pub slots: Option<u32>,
    pub words: Items<usize>,
}

/// The slot lines behind an instruction, so far none, where it is a transfer.
fn slots_behind(design: &Design, call: &Call) -> Option<u32>
    ensures { result ≡ (if is_transfer_call design.now call.now then Some 0 else None) }
{
    let instr = instr_named(design, call.instr.as_str())?;
    if does_transfer(design, instr) {
        Some(0)
    } else {
        None
    }
}

/// One slot line more.
fn one_more(slots: Option<u32>) -> Option<u32>
    ensures { result ≡ option_map (λ n. min (n + 1) (2 ^ 32 - 1)) slots }
{
    match slots {
        Some(slots) => Some(slots.saturating_add(1)),
        None => None,
    }
}

/// The number of a memory's words, with so many more where it has this name.
fn count_with(mem: &Mem, words: usize, name: &str, count: usize) -> usize
    ensures { result ≡ so_far.count_with name.now count (mem.now, words) }
{
    if mem.name.as_str() == name {
        words.saturating_add(count)
    } else {
        words
    }
}

/// The numbers of the memories' words, with so many more for the memory of this name.
#[tactic(auto, using(crate::proofs::FreeFields::pairs_more, crate::proofs::FreeFields::pairs_past_left, crate::proofs::FreeFields::pairs_past_right))]
fn counts_with(
    alloc: Global,
    design: &Design,
    words: &[usize],
    name: &str,
    count: usize,
) -> Result<Items<usize>, NoMemory>
    ensures { IfOk result (λ counts.
        counts ≡ so_far.counts_with design.now words.now name.now count) }
{
    let mut counts = Items::new(alloc);
    for (i, mem) in design.mems.as_slice().iter().enumerate() {
        if i >= words.len() {
            return Ok(counts);
        }
        counts.push(count_with(mem, words[i], name, count))?;
    }
    Ok(counts)
}

impl SoFar {
    /// Before the first line.
    #[tactic(auto, using(crate::proofs::CountedLines::no_counts))]
    pub(crate) fn start(alloc: Global, design: &Design) -> Result<SoFar, NoMemory>
        ensures { IfOk result (IsSoFar design.now []) }
    {
        let words = vec![in alloc; 0; design.mems.len()]?;
        Ok(SoFar {
            seen: Labels::new(alloc),
            slots: None,
            words: Items::of(words),
        })
    }

    /// Takes one more line.
    #[tactic(auto, using(crate::proofs::CountedLines::took_label, crate::proofs::CountedLines::took_instr, crate::proofs::CountedLines::took_slot, crate::proofs::CountedLines::took_data, crate::proofs::CountedLines::took_nothing))]
    pub(crate) fn take(
        &mut self,
        alloc: Global,
        design: &Design,
        line: &ProgramLine,
    ) -> Result<(), NoMemory>
        requires { IsClean design.now }
        ensures { OnOk result ((before : List DeclaredLine) → IsSoFar design.now before self.old
            → IsSoFar design.now (before ++ line.now ∷ []) self.new) }
    {
        match &line.says {
            Some(Statement::Label(name)) => self.seen.add(alloc, name.as_str(), 0)?,
            Some(Statement::Instr(call)) => self.slots = slots_behind(design, call),
            Some(Statement::Slot(_)) => self.slots = one_more(self.slots),
            Some(Statement::Data { mem, words }) => {
                let counts = self.words.as_slice();
                self.words = counts_with(alloc, design, counts, mem.as_str(), words.len())?;
            }
            None => self.slots = None,
        }
        Ok(())
    }
}
