//! The listing of an assembled program.
ghost use Rattle.std.specs.Prelude.{◌≡◌, ◌++◌, IfOk, OnOk, codes};
ghost use Rattle.std.specs.Fmt.{decimal};
ghost use Rattle.std.specs.List.{enumerate_from, flat_map};
ghost use Rattle.ap_desc.specs.Clean.{IsClean};
ghost use Rattle.ap_asm.specs.Listings as listings;
ghost use Rattle.ap_asm.specs.Listings.{landing_text, place_text};

use ap_bits::NoMemory;
use ap_desc::design::Design;
use ap_enc::find;
use std::alloc::Global;

/// The name of the instruction that a word matches.
fn name_of(design: &Design, word: u64) -> &str
    requires { IsClean design.now }
    ensures { result.now ≡ listings.name_of design.now word }
{
    let instrs = design.instrs.as_slice();
    match find(design, word) {
        Some(instr) => instrs[instr as usize].name.as_str(),
        None => "",
    }
}

/// Appends the line of a landing.
fn put_landing(alloc: Global, landing: u32, out: &mut Vec<u8>) -> Result<(), NoMemory>
    ensures { OnOk result (out.new.items ≡ out.old.items ++ landing_text landing) }
{
    let line = format!(in alloc; "landing {landing}\n")?;
    out.extend_from_slice(line.as_bytes())?;
    Ok(())
}

/// Appends the lines of landings.
fn put_landings(alloc: Global, landings: &[u32], out: &mut Vec<u8>) -> Result<(), NoMemory>
    ensures { OnOk result (out.new.items ≡ out.old.items ++ flat_map landing_text landings.now) }
{
    for landing in landings {
        put_landing(alloc, *landing, out)?;
    }
    Ok(())
}

/// Appends the line of a word at its place.
fn put_word(
    alloc: Global,
    design: &Design,
    place: usize,
    word: u64,
    out: &mut Vec<u8>,
) -> Result<(), NoMemory>
    requires { IsClean design.now }
    ensures { OnOk result (out.new.items
        ≡ out.old.items ++ place_text design.now (place, word)) }
{
    let name = name_of(design, word);
    let line = format!(in alloc; "{place} 0x{word:x} {name}\n")?;
    out.extend_from_slice(line.as_bytes())?;
    Ok(())
}

/// Appends the lines of words, the first of which stands at place 0.
fn put_words(
    alloc: Global,
    design: &Design,
    words: &[u64],
    out: &mut Vec<u8>,
) -> Result<(), NoMemory>
    requires { IsClean design.now }
    ensures { OnOk result (out.new.items
        ≡ out.old.items ++ flat_map (place_text design.now) (enumerate_from 0 words.now)) }
{
    for (place, word) in words.iter().enumerate() {
        put_word(alloc, design, place, *word, out)?;
    }
    Ok(())
}

/// The listing of a program of this drain, with these landings and placed words.
pub(crate) fn listing_of(
    alloc: Global,
    design: &Design,
    drain: u32,
    landings: &[u32],
    words: &[u64],
) -> Result<Vec<u8>, NoMemory>
    requires { IsClean design.now }
    ensures { IfOk result (λ listing. listing.items
        ≡ codes "drain " ++ decimal drain ++ codes "\n" ++ flat_map landing_text landings.now
        ++ flat_map (place_text design.now) (enumerate_from 0 words.now)) }
{
    let mut out = Vec::new(alloc);
    let line = format!(in alloc; "drain {drain}\n")?;
    out.extend_from_slice(line.as_bytes())?;
    put_landings(alloc, landings, &mut out)?;
    put_words(alloc, design, words, &mut out)?;
    Ok(out)
}
