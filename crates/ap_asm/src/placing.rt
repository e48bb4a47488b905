//! The drain of a program, and the places at which its groups start.
ghost use Rattle.std.specs.Prelude.{◌≡◌, ◌+◌, ◌++◌, ◌^◌, ◌<◌, ◌≤◌, ℕ, ◌&&◌, if◌then◌else◌, IfErr, IfOk, OnOk, length, map, option_to_list, Some, []};
ghost use Rattle.std.specs.List.{AllByRecursion as Each, list_any, slice_index_or};
ghost use Rattle.ap_desc.specs.Chains.{operands_of};
ghost use Rattle.ap_desc.specs.Clean.{IsClean};
ghost use Rattle.ap_desc.specs.declared.design.Micro.{Micro as DeclaredMicro};
ghost use Rattle.ap_dist.specs.Distances.{instr_out};
ghost use Rattle.ap_dist.specs.LeastStarts as drains;
ghost use Rattle.ap_dist.specs.Places as places;
ghost use Rattle.ap_dist.specs.Places.{lines_of_group};
ghost use Rattle.ap_dist.specs.declared.source.Group.{Group as DeclaredGroup};
ghost use Rattle.ap_asm.specs.Behind.{AreBehindFrom, ArePlaced, IsBehind, IsBehindWord};
ghost use Rattle.ap_asm.specs.Layouts.{AreStarts, IsLayout, out_at, placed_from};
ghost use Rattle.ap_asm.specs.LinePlaces as lines;
ghost use Rattle.ap_asm.specs.LinePlaces.{number_at};
ghost use Rattle.ap_asm.specs.Standing.{IsFullFault};

use ap_bits::{Items, NoMemory};
use ap_desc::design::{Act, Arg, Design, Instr};
use ap_dist::{Group, Source, SourceLine, dist, out};
use ap_program::fault::at;
use ap_program::{AsmFault, AsmKind, does_transfer};
use std::alloc::Global;

/// What is known of a program before it is placed: the words of its groups, in which labels stand for 0, the numbers of their lines,
/// and for each instruction of the design the greatest distance from it.
#[derive(Drop)]
pub(crate) struct Layout {
    pub source: Source,
    pub words: Items<Items<u64>>,
    pub numbers: Items<Items<u32>>,
    pub outs: Items<u32>,
    pub drain: usize,
}

/// For each instruction the greatest distance of any other one from it.
pub(crate) fn outs_of(alloc: Global, design: &Design) -> Result<Items<u32>, NoMemory>
    requires { IsClean design.now }
    ensures { IfOk result (λ outs. outs ≡ map (instr_out design.now) design.now.instrs) }
{
    let mut outs = Items::new(alloc);
    for instr in 0..design.instrs.len() {
        outs.push(out(design, instr as u32))?;
    }
    Ok(outs)
}

/// Whether the operand is the address behind an instruction's slots.
fn is_link(arg: Arg) -> bool
    ensures { result ≡ places.is_link arg }
{
    match arg {
        Arg::Link => true,
        _ => false,
    }
}

/// Whether the operand, where there is one, is the address behind an instruction's slots.
fn is_link_guard(guard: Option<Arg>) -> bool
    ensures { result ≡ list_any places.is_link (option_to_list guard) }
{
    match guard {
        Some(arg) => is_link(arg),
        None => false,
    }
}

/// Whether a line reads the address behind its instruction's slots.
fn reads_link_here(act: Act) -> bool
    ensures { result ≡ list_any places.is_link (operands_of act) }
{
    match act {
        Act::Compute { a, b, .. } | Act::Cat { a, b } => is_link(a) || is_link(b),
        Act::ReadFile { index, .. } => is_link(index),
        Act::ReadReg { .. } | Act::ReadIn { .. } | Act::Const { .. } => false,
        Act::ReadMem { at, .. } => is_link(at),
        Act::Zext { a, .. } | Act::Sext { a, .. } | Act::Slice { a, .. } => is_link(a),
        Act::WriteFile {
            index,
            value,
            guard,
            ..
        } => is_link(index) || is_link(value) || is_link_guard(guard),
        Act::WriteReg { value, guard, .. } => is_link(value) || is_link_guard(guard),
        Act::WriteMem {
            at,
            value,
            guard,
            ..
        } => is_link(at) || is_link(value) || is_link_guard(guard),
        Act::Branch { cond, target } => is_link(cond) || is_link(target),
        Act::Jump { target } => is_link(target),
    }
}

/// Whether a line of the instruction reads the address behind its slots.
fn reads_link_in(instr: &Instr) -> bool
    ensures { let reads = λ (m : DeclaredMicro). list_any places.is_link (operands_of m.act) in
        result ≡ list_any reads instr.now.micros }
{
    instr
        .micros
        .as_slice()
        .iter()
        .any(|micro| reads_link_here(micro.act))
}

/// Whether the instruction at a place reads the address behind its slots.
#[tactic(auto, using(crate::proofs::Links::link_there, crate::proofs::Links::link_past, crate::proofs::Links::there_read))]
fn reads_link(design: &Design, instr: usize) -> bool
    ensures { result ≡ places.reads_link design.now instr }
{
    let instrs = design.instrs.as_slice();
    if instr >= instrs.len() {
        return false;
    }
    reads_link_in(&instrs[instr])
}

/// How many places a group takes.
pub(crate) fn group_length(design: &Design, group: &Group) -> usize
    ensures { result ≡ places.group_length design.now group.now }
{
    if does_transfer(design, group.first.instr as usize) {
        design.slots as usize + 1
    } else {
        1
    }
}

/// Whether a label stands before the group of this number, or behind the last one.
fn is_labelled(source: &Source, group: usize) -> bool
    ensures { result ≡ places.is_labelled source.now group }
{
    match source.groups.as_slice().get(group) {
        Some(group) => group.labelled,
        None => source.labelled_end,
    }
}

/// Whether a group is a transfer that leaves an address to come back to.
fn leaves_address(design: &Design, group: &Group) -> bool
    ensures { result ≡ (places.does_transfer design.now group.now.first.instr
        && places.reads_link design.now group.now.first.instr) }
{
    let instr = group.first.instr as usize;
    does_transfer(design, instr) && reads_link(design, instr)
}

/// Whether the group before the one of this number is such a transfer.
#[tactic(auto, using(crate::proofs::Links::returned_there, crate::proofs::Links::returned_none, crate::proofs::Links::returned_first))]
fn is_returned_to(design: &Design, source: &Source, group: usize) -> bool
    ensures { result ≡ places.is_returned_to design.now source.now group }
{
    if group == 0 {
        return false;
    }
    match source.groups.as_slice().get(group - 1) {
        Some(before) => leaves_address(design, before),
        None => false,
    }
}

/// Whether there is a landing before the group of this number, or behind the last one.
pub(crate) fn is_landing(design: &Design, source: &Source, group: usize) -> bool
    ensures { result ≡ places.is_landing design.now source.now group }
{
    is_labelled(source, group) || is_returned_to(design, source, group)
}

/// The greatest distance of any instruction from a line, by this list.
fn out_of(outs: &[u32], line: &SourceLine) -> usize
    ensures out { result ≡ out_at outs.now line.now.instr }
    ensures narrow { result < 2 ^ 32 }
{
    match outs.get(line.instr as usize) {
        Some(out) => *out as usize,
        None => 1,
    }
}

/// How many NOPs a landing has to begin with for the line that stands so many places after its transfer.
#[tactic(auto, using(crate::proofs::Drains::out_listed))]
fn drain_of_line(design: &Design, outs: &[u32], after: usize, line: &SourceLine) -> usize
    requires outs { outs.now ≡ map (instr_out design.now) design.now.instrs }
    requires near { after < 2 ^ 32 }
    ensures { result ≡ drains.drain_of_line design.now after line.now }
{
    (out_of(outs, line) + after).saturating_sub(design.branch as usize + 1)
}

/// How many NOPs a landing has to begin with for a group.
fn drain_of_group(design: &Design, outs: &[u32], group: &Group) -> usize
    requires outs { outs.now ≡ map (instr_out design.now) design.now.instrs }
    requires few { length group.now.in_slots < 2 ^ 31 }
    ensures { result ≡ drains.drain_of_group design.now group.now }
{
    if !does_transfer(design, group.first.instr as usize) {
        return 0;
    }
    let mut drain = drain_of_line(design, outs, 0, &group.first);
    for (i, line) in group.in_slots.as_slice().iter().enumerate() {
        drain = drain.max(drain_of_line(design, outs, i + 1, line));
    }
    drain
}

/// The drain of a program: so many NOPs stand at each of its landings.
pub(crate) fn drain_of(design: &Design, outs: &[u32], source: &Source) -> usize
    requires outs { outs.now ≡ map (instr_out design.now) design.now.instrs }
    requires few { Each (λ (g : DeclaredGroup). length g.in_slots < 2 ^ 31) source.now.groups }
    ensures { result ≡ drains.drain_of design.now source.now }
{
    let mut drain = 0;
    for group in source.groups.as_slice() {
        drain = drain.max(drain_of_group(design, outs, group));
    }
    drain
}

/// The least place of a group with these words behind an older word at a place.
fn after_word(design: &Design, older: u64, at: usize, words: &[u64]) -> usize
    requires clean { IsClean design.now }
    requires near { at < 2 ^ 32 }
    ensures high { result ≤ at + design.now.stages }
    ensures behind { (place : ℕ) → result ≤ place
        → IsBehindWord design.now older at words.now place }
    ensures least { (place : ℕ) → IsBehindWord design.now older at words.now place
        → result ≤ place }
{
    let mut least = 0;
    for (i, word) in words.iter().enumerate() {
        let behind = at + dist(design, older, *word) as usize;
        least = least.max(behind.saturating_sub(i));
    }
    least
}

/// A word of the program at its place: the word, in which labels stand for 0, and the greatest distance of any instruction from it.
#[derive(Clone, Copy, Debug, PartialEq, Eq)]
pub(crate) struct Placed {
    pub at: usize,
    pub word: u64,
    pub out: usize,
}

/// The least place of a group of these words, a transfer or none, behind a placed word.
fn after_placed(
    design: &Design,
    drain: usize,
    older: Placed,
    words: &[u64],
    transfers: bool,
) -> usize
    requires clean { IsClean design.now }
    requires at { older.at < 2 ^ 20 }
    requires out { older.out < design.now.stages }
    requires drain { drain < 2 ^ 20 }
    ensures high { result ≤ older.at + design.now.stages }
    ensures behind { (place : ℕ) → result ≤ place
        → IsBehind design.now drain words.now transfers older place }
    ensures least { (place : ℕ) → IsBehind design.now drain words.now transfers older place
        → result ≤ place }
{
    let least = after_word(design, older.word, older.at, words);
    if transfers {
        let taken = older.out + older.at;
        least.max(taken.saturating_sub(design.branch as usize + 1 + drain))
    } else {
        least
    }
}

/// The least place, from the first one on, of a group of these words behind all placed words, which end before the first place or at
/// this end.
fn least_place(
    design: &Design,
    drain: usize,
    placed: &[Placed],
    words: &[u64],
    transfers: bool,
    end: usize,
    first: usize,
) -> usize
    requires clean { IsClean design.now }
    requires placed { ArePlaced design.now placed.now }
    requires drain { drain < 2 ^ 20 }
    requires first { end ≤ first }
    requires near { first < 2 ^ 21 }
    ensures low { first ≤ result }
    ensures high { result < 2 ^ 22 }
    ensures behind { (place : ℕ) → result ≤ place
        → AreBehindFrom 0 design.now drain words.now transfers placed.now place }
    ensures least { (place : ℕ) → first ≤ place
        → AreBehindFrom 0 design.now drain words.now transfers placed.now place → result ≤ place }
{
    let mut place = first;
    let mut from = placed.len();
    while from > 0 {
        let older = placed[from - 1];
        if older.at + design.stages as usize <= end {
            // neither this word nor an earlier one asks for a place behind the end
            return place;
        }
        place = place.max(after_placed(design, drain, older, words, transfers));
        from -= 1;
    }
    place
}

/// How many words the code memory has.
pub(crate) fn code_size(design: &Design) -> usize
    requires { IsClean design.now }
    ensures size { result ≡ 2 ^ design.now.address }
    ensures low { result ≤ 65536 }
{
    1 << design.address
}

/// The place behind the words that a program may have.
fn room_of(design: &Design) -> usize
    requires { IsClean design.now }
    ensures room { result ≡ lines.room_of design.now }
    ensures low { result < 2 ^ 20 }
{
    code_size(design) - design.stages as usize
}

/// Adds the words of a group, which starts at a place.
fn put_group(
    placed: &mut Vec<Placed>,
    outs: &[u32],
    start: usize,
    group: &Group,
    words: &[u64],
) -> Result<(), NoMemory>
    requires words { length words.now ≡ length (lines_of_group group.now) }
    requires start { start < 2 ^ 20 }
    requires few { length words.now < 2 ^ 20 }
    ensures { OnOk result (placed.new.items
        ≡ placed.old.items ++ placed_from outs.now start words.now (lines_of_group group.now)) }
{
    placed.push(Placed {
        at: start,
        word: words[0],
        out: out_of(outs, &group.first),
    })?;
    for (i, line) in group.in_slots.as_slice().iter().enumerate() {
        placed.push(Placed {
            at: start + 1 + i,
            word: words[i + 1],
            out: out_of(outs, line),
        })?;
    }
    Ok(())
}

/// The least place for the group of this number by the landing before it, where the groups before it end at a place.
fn first_place(design: &Design, layout: &Layout, number: usize, end: usize) -> usize
    requires end { end < 2 ^ 20 }
    requires drain { layout.now.drain < 2 ^ 20 }
    ensures { result
        ≡ (if places.is_landing design.now layout.now.source number then end + layout.now.drain
        else end) }
{
    if is_landing(design, &layout.source, number) {
        end + layout.drain
    } else {
        end
    }
}

/// The least place at which the group of this number may stand, behind the placed words, where the groups before it end at a place.
fn start_of(
    design: &Design,
    layout: &Layout,
    placed: &[Placed],
    number: usize,
    group: &Group,
    words: &[u64],
    end: usize,
) -> usize
    requires clean { IsClean design.now }
    requires placed { ArePlaced design.now placed.now }
    requires end { end < 2 ^ 20 }
    requires drain { layout.now.drain < 2 ^ 20 }
    ensures low { (if places.is_landing design.now layout.now.source number
        then end + layout.now.drain else end) ≤ result }
    ensures high { result < 2 ^ 22 }
    ensures behind { (place : ℕ) → result ≤ place
        → AreBehindFrom 0 design.now layout.now.drain words.now
        (places.does_transfer design.now group.now.first.instr) placed.now place }
    ensures least { (place : ℕ)
        → (if places.is_landing design.now layout.now.source number
        then end + layout.now.drain else end) ≤ place
        → AreBehindFrom 0 design.now layout.now.drain words.now
        (places.does_transfer design.now group.now.first.instr) placed.now place
        → result ≤ place }
{
    let transfers = does_transfer(design, group.first.instr as usize);
    let first = first_place(design, layout, number, end);
    least_place(design, layout.drain, placed, words, transfers, end, first)
}

/// The number of the first line of a group.
#[tactic(auto, using(crate::proofs::Nears::first_there))]
fn first_line(numbers: &[Items<u32>], group: usize) -> u32
    requires within { group < length numbers.now }
    requires some { 0 < length (slice_index_or numbers.now group []) }
    ensures { number_at numbers.now group 0 ≡ Some result }
{
    let group_numbers = numbers[group].as_slice();
    group_numbers[0]
}

/// The places at which groups start, each the least behind those before it. A group that ends behind the room is a fault.
pub(crate) fn starts_of(
    alloc: Global,
    design: &Design,
    layout: &Layout,
) -> Result<Items<usize>, AsmFault>
    requires clean { IsClean design.now }
    requires layout { IsLayout design.now layout.now }
    ensures starts { IfOk result (AreStarts design.now layout.now.source
        (length layout.now.source.groups)) }
    ensures full { IfErr result (IsFullFault design.now layout.now.source layout.now.numbers) }
{
    let room = room_of(design);
    let mut placed = Vec::new(alloc);
    let mut starts = Items::new(alloc);
    let mut end = 0;
    for (i, group) in layout.source.groups.as_slice().iter().enumerate() {
        let words = layout.words.as_slice()[i].as_slice();
        let start = start_of(design, layout, placed.as_slice(), i, group, words, end);
        end = start + group_length(design, group);
        starts.push(start)?;
        if end > room {
            let line = first_line(layout.numbers.as_slice(), i);
            return Err(at(line, AsmKind::ImageFull));
        }
        put_group(&mut placed, layout.outs.as_slice(), start, group, words)?;
    }
    Ok(starts)
}
