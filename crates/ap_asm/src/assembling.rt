//! Assembles programs.
ghost use Rattle.std.specs.Prelude.{◌≡◌, ◌^◌, ◌<◌, ◌≤◌, ℕ, IfErr, IfOk, length, slice_index};
ghost use Rattle.ap_bits.specs.Beside.{EachBeside};
ghost use Rattle.ap_desc.specs.Clean.{IsClean};
ghost use Rattle.ap_dist.specs.LeastStarts.{AreLeastStarts};
ghost use Rattle.ap_dist.specs.Places.{ArePlaces, end_before};
ghost use Rattle.ap_dist.specs.Spaced.{IsSpaced};
ghost use Rattle.ap_image.specs.FitsShape.{ImageFitsShape, MemsFit};
ghost use Rattle.ap_model.specs.DesignShape.{shape_of};
ghost use Rattle.ap_asm.specs.AsmFaults.{IsAsmFault, IsFaultlessProgram};
ghost use Rattle.ap_asm.specs.Assembled.{IsAssembled};
ghost use Rattle.ap_asm.specs.Conflicts.{AreSlotsApart};
ghost use Rattle.ap_asm.specs.Layouts.{AreStarts, HasNumbers, IsLayout};
ghost use Rattle.ap_asm.specs.Listings.{listing_text};
ghost use Rattle.ap_program.specs.Fits.{SourceFits};
ghost use Rattle.ap_program.specs.Sources.{source_of};
ghost use Rattle.ap_program.specs.Statements.{program_of};

use crate::encoding::{code_of, ends_of, landings_of};
use crate::listing::listing_of;
use crate::placing::{Layout, drain_of, outs_of, starts_of};
use crate::slots::check_slots;
use crate::words::plain_words;
use ap_bits::{Items, NoMemory};
use ap_desc::design::Design;
use ap_image::Image;
use ap_program::{AsmFault, Program, read_program};
use std::alloc::Global;

/// A program in the memories of its processor.
#[derive(Drop)]
pub struct Assembled {
    /// All words of the code memory, and the first words of each data memory.
    pub image: Image,
    /// Where each instruction with its slots starts, in the order of the text.
    pub starts: Items<u32>,
    /// The places that transfers may lead to, in ascending order.
    pub landings: Items<u32>,
    /// How many NOPs stand at each of them.
    pub drain: u32,
    /// How many words the program takes, from place 0 on.
    pub placed: u32,
    /// The listing, as bytes.
    pub listing: Items<u8>,
}

/// What is known of a program before it is placed.
fn lay_out(alloc: Global, design: &Design, program: Program) -> Result<Layout, NoMemory>
    requires clean { IsClean design.now }
    requires fits { SourceFits design.now program.source }
    requires numbers { EachBeside HasNumbers program.source.groups program.numbers }
    ensures layout { IfOk result (IsLayout design.now) }
    ensures source { IfOk result (λ layout. layout.source ≡ program.source) }
    ensures kept { IfOk result (λ layout. layout.numbers ≡ program.numbers) }
{
    let words = plain_words(alloc, design, &program.source)?;
    let outs = outs_of(alloc, design)?;
    let drain = drain_of(design, outs.as_slice(), &program.source);
    Ok(Layout {
        source: program.source,
        words,
        numbers: program.numbers,
        outs,
        drain,
    })
}

/// These numbers in 32 bits.
fn in_32_bits(alloc: Global, numbers: &[usize]) -> Result<Items<u32>, NoMemory>
    requires { (g : ℕ) → slice_index numbers.now g < 2 ^ 32 }
    ensures { IfOk result (λ list. list ≡ numbers.now) }
{
    let mut list = Items::new(alloc);
    for number in numbers {
        list.push(*number as u32)?;
    }
    Ok(list)
}

/// The listing of a program of this drain, with these landings, of so many words of the code.
fn list(
    alloc: Global,
    design: &Design,
    drain: u32,
    landings: &Items<u32>,
    placed: usize,
    code: &Vec<u64>,
) -> Result<Items<u8>, NoMemory>
    requires clean { IsClean design.now }
    requires within { placed ≤ length code.now.items }
    ensures { IfOk result (λ listing. listing
        ≡ listing_text design.now drain landings.now placed code.now.items) }
{
    let landings = landings.as_slice();
    let words = &code.as_slice()[..placed];
    let listing = listing_of(alloc, design, drain, landings, words)?;
    Ok(Items::of(listing))
}

/// Puts a program at its places.
fn place(
    alloc: Global,
    design: &Design,
    layout: Layout,
    starts: &[usize],
) -> Result<Assembled, NoMemory>
    requires clean { IsClean design.now }
    requires layout { IsLayout design.now layout }
    requires mems { MemsFit layout.source.mems (shape_of design.now).mems }
    requires apart { AreSlotsApart design.now layout.source }
    requires starts { AreStarts design.now layout.source (length layout.source.groups) starts.now }
    ensures { IfOk result (IsAssembled design.now layout.source) }
{
    let ends = ends_of(alloc, design, &layout.source, starts)?;
    let ends = ends.as_slice();
    let landings = landings_of(alloc, design, &layout.source, ends)?;
    let code = code_of(alloc, design, &layout.source, starts, ends)?;
    let placed = ends[layout.source.groups.len()];
    let drain = layout.drain as u32;
    let listing = list(alloc, design, drain, &landings, placed, &code)?;
    let starts = in_32_bits(alloc, starts)?;
    let code = Items::of(code);
    let mems = layout.source.mems;
    Ok(Assembled {
        image: Image { code, mems },
        starts,
        landings,
        drain,
        placed: placed as u32,
        listing,
    })
}

/// Assembles a program for a processor: the words of its memories, with each instruction as far behind those before it as it has
/// to be.
///
/// A fault comes exactly where the text has one, and is the least, by its line and then by its number. Whether slot lines are too
/// near is looked at where no line has another fault, and whether the code memory is full where no slot line is too near either. A
/// text of more than 67,108,864 bytes is `BadForm` at line 0. `NoMemory` comes only where memory ran out. The time goes with the
/// number of bytes.
pub fn assemble(alloc: Global, design: &Design, text: &[u8]) -> Result<Assembled, AsmFault>
    requires { IsClean design.now }
    // A text that is assembled has no fault, and its words stand where the definitions of places say.
    ensures faultless { IfOk result (λ _. IsFaultlessProgram design.now text.now) }
    ensures places { IfOk result (λ made. ArePlaces design.now
        (source_of design.now (program_of text.now)) made.starts made.image made.landings) }
    ensures least { IfOk result (λ made. AreLeastStarts design.now
        (source_of design.now (program_of text.now)) made.starts made.image made.drain) }
    ensures spaced { IfOk result (λ made. IsSpaced design.now made.image made.landings made.drain) }
    ensures fits { IfOk result (λ made. ImageFitsShape made.image (shape_of design.now)) }
    ensures size { IfOk result (λ made. length made.image.code ≡ 2 ^ design.now.address) }
    ensures placed { IfOk result (λ made. made.placed
        ≡ end_before design.now (source_of design.now (program_of text.now)) made.starts
        (length made.starts)) }
    ensures listing { IfOk result (λ made. made.listing
        ≡ listing_text design.now made.drain made.landings made.placed made.image.code) }

    // One that is refused has this least fault.
    ensures refused { IfErr result (IsAsmFault design.now text.now) }
{
    let program = read_program(alloc, design, text)?;
    let layout = lay_out(alloc, design, program)?;
    let words = layout.words.as_slice();
    let numbers = layout.numbers.as_slice();
    check_slots(design, words, numbers)?;
    let starts = starts_of(alloc, design, &layout)?;
    let made = place(alloc, design, layout, starts.as_slice())?;
    Ok(made)
}
