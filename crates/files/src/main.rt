//! Prints a register file by itself, as a text whose one module is `top`: `files CELLS WIDTH READS STAGE ..`, with the stage of
//! each write port. The scripts that try register files in other tools read it. For numbers that no file has it prints `usage`.
#![tactic(auto)]

ghost use Rattle.std.specs.Prelude.{◌≡◌, ◌<◌, All, IfOk, IsTrue, length};
ghost use Rattle.ap_desc.specs.Designs as designs;
ghost use Rattle.ap_desc.specs.Designs.{is_file_within};
ghost use Rattle.files.specs.Texts.{IsFileText};

use ap_bits::{Name, NoMemory};
use ap_desc::design::File;
use ap_net::builder::Builder;
use ap_net::module::Netlist;
use ap_store::build_file;
use ap_vw::write;
use std::alloc::Global;
use std::rt::Env;
use std::{env, io};

/// Whether the number lies between these two.
fn is_between(low: u32, high: u32, number: u32) -> bool
    ensures { result ≡ designs.is_between low high number }
{
    (low..=high).contains(&number)
}

/// Whether a file may have so many cells.
fn is_cell_count(cells: u32) -> bool
    ensures { IsTrue result → IsTrue (designs.is_cell_count cells) }
{
    matches!(cells, 2 | 4 | 8 | 16 | 32 | 64)
}

/// Whether a file of these numbers is within the limits of the language.
fn is_within(file: &File) -> bool
    ensures { IsTrue result → IsTrue (is_file_within file.now) }
{
    if !is_between(1, 64, file.width) {
        return false;
    }
    if !is_cell_count(file.cells) {
        return false;
    }
    if !is_between(1, 4, file.reads) {
        return false;
    }
    is_between(1, 2, file.writes)
}

/// Whether each is a stage, or 0.
fn are_stages(stages: &[u32]) -> bool
    ensures { IsTrue result → All (λ stage. stage < 8) stages.now }
{
    stages.iter().all(|stage| *stage < 8)
}

/// The text of a register file.
fn file_text(alloc: Global, file: &File, stages: &[u32]) -> Result<Vec<u8>, NoMemory>
    requires file { IsTrue (is_file_within file.now) }
    requires stages { length stages.now ≡ file.now.writes }
    requires range { All (λ stage. stage < 8) stages.now }
    ensures { IfOk result (λ text. IsFileText file.now stages.now text.items) }
{
    let mut out = Builder::new(alloc, b"top")?;
    build_file(&mut out, file, stages)?;
    let net = Netlist::of_top(alloc, out.finish()?)?;
    net.rules();
    let mut text = Vec::new(alloc);
    write(&net, &mut text)?;
    Ok(text)
}

/// The numbers that words are; none where one is no number.
fn numbers(alloc: Global, words: &[String]) -> Result<Option<Vec<u32>>, NoMemory> {
    let mut numbers = Vec::new(alloc);
    for word in words {
        let Ok(number) = word.as_str().parse::<u32>() else {
            return Ok(None);
        };
        numbers.push(number)?;
    }
    Ok(Some(numbers))
}

/// The words after the program's name.
fn words(rt: &(impl Env + AllocGlobal)) -> io::Result<Vec<String>> {
    let mut words = Vec::new(rt.alloc());
    for word in env::args(rt)?.skip(1) {
        words.push(word)?;
    }
    Ok(words)
}

/// The text for these numbers; none where no file has them.
fn text_for(alloc: Global, numbers: &[u32]) -> Result<Option<Vec<u8>>, NoMemory> {
    let [cells, width, reads, stages @ ..] = numbers else {
        return Ok(None);
    };
    let Ok(writes) = u32::try_from(stages.len()) else {
        return Ok(None);
    };
    let file = File {
        name: Name::new(alloc, b"F")?,
        width: *width,
        cells: *cells,
        reads: *reads,
        writes,
    };
    if !is_within(&file) {
        return Ok(None);
    }
    if !are_stages(stages) {
        return Ok(None);
    }
    let text = file_text(alloc, &file, stages)?;
    Ok(Some(text))
}

/// What is printed.
fn printed(alloc: Global, words: &[String]) -> Result<String, NoMemory> {
    if let Some(numbers) = numbers(alloc, words)? {
        if let Some(text) = text_for(alloc, &numbers)? {
            if let Ok(text) = std::str::from_utf8(&text) {
                return Ok(String::from_str(alloc, text)?);
            }
        }
    }
    Ok(String::from_str(alloc, "usage\n")?)
}

fn main(rt: HostRuntime) -> io::Result<()> {
    let alloc = rt.alloc();
    match printed(alloc, &words(&rt)?) {
        Ok(text) => print!(rt; "{text}"),
        Err(NoMemory) => println!(rt; "no memory"),
    }
}
