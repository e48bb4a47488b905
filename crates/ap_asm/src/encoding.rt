//! The code of a placed program: where its groups end, which of these places are landings, and the words.
ghost use Rattle.std.specs.Prelude.{◌≡◌, ◌+◌, ◌++◌, ◌^◌, ◌<◌, ◌≤◌, ℕ, IfOk, length, take, drop, replicate};
ghost use Rattle.ap_desc.specs.Clean.{IsClean};
ghost use Rattle.ap_program.specs.Fits.{SourceFits};
ghost use Rattle.ap_asm.specs.Layouts.{AreStarts};
ghost use Rattle.ap_asm.specs.Standing.{AreEnds, ArePicked, AreRising, HoldsGroups};
ghost use Rattle.ap_asm.specs.Words.{AreAddresses};

use crate::placing::{code_size, group_length, is_landing};
use crate::words::{group_words, nop_word};
use ap_bits::{Items, NoMemory};
use ap_desc::design::Design;
use ap_dist::Source;
use std::alloc::Global;

/// The place directly behind the groups before each one, and behind the last.
pub(crate) fn ends_of(
    alloc: Global,
    design: &Design,
    source: &Source,
    starts: &[usize],
) -> Result<Vec<usize>, NoMemory>
    requires clean { IsClean design.now }
    requires starts { AreStarts design.now source.now (length source.now.groups) starts.now }
    ensures { IfOk result (λ ends.
        AreEnds design.now source.now starts.now (length source.now.groups) ends.items) }
{
    let mut ends = Vec::new(alloc);
    ends.push(0)?;
    for (i, group) in source.groups.as_slice().iter().enumerate() {
        ends.push(starts[i] + group_length(design, group))?;
    }
    Ok(ends)
}

/// The landings of a program, in ascending order.
pub(crate) fn landings_of(
    alloc: Global,
    design: &Design,
    source: &Source,
    ends: &[usize],
) -> Result<Items<u32>, NoMemory>
    requires { AreRising ends.now }
    ensures { IfOk result (ArePicked design.now source.now ends.now (length ends.now)) }
{
    let mut landings = Items::new(alloc);
    for (i, end) in ends.iter().enumerate() {
        if is_landing(design, source, i) {
            landings.push(*end as u32)?;
        }
    }
    Ok(landings)
}

/// Writes words over those from a place on.
fn write_words(code: &mut [u64], start: usize, words: &[u64])
    requires { start + length words.now ≤ length code.old }
    ensures { code.new
        ≡ take start code.old ++ words.now ++ drop (start + length words.now) code.old }
{
    code[start..start + words.len()].copy_from_slice(words);
}

/// So many equal words.
fn filled(alloc: Global, word: u64, count: usize) -> Result<Vec<u64>, NoMemory>
    ensures { IfOk result (λ words. words.items ≡ replicate count word) }
{
    let words = vec![in alloc; word; count]?;
    Ok(words)
}

/// The words of the code memory: those of the groups at their places, and NOP everywhere else.
pub(crate) fn code_of(
    alloc: Global,
    design: &Design,
    source: &Source,
    starts: &[usize],
    ends: &[usize],
) -> Result<Vec<u64>, NoMemory>
    requires clean { IsClean design.now }
    requires fits { SourceFits design.now source.now }
    requires starts { AreStarts design.now source.now (length source.now.groups) starts.now }
    requires addresses { AreAddresses design.now ends.now }
    ensures { IfOk result (λ code. HoldsGroups design.now source.now starts.now ends.now
        (length source.now.groups) code.items) }
{
    let nop = nop_word(alloc, design)?;
    let mut code = filled(alloc, nop, code_size(design))?;
    for (i, group) in source.groups.as_slice().iter().enumerate() {
        let words = group_words(alloc, design, ends, group)?;
        write_words(code.as_mut_slice(), starts[i], words.as_slice());
    }
    Ok(code)
}
