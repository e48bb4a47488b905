//! Prints the rows that the machine of a description shows, as its definition has them: `plain_rows D I T N` reads a description,
//! an image and a trace, and prints the rows of the first N cycles. It is slow, and makes no circuit: what a circuit shows, or what a
//! program for a processor does, is compared with it.
#![tactic(auto)]

mod cards;
mod fault;
mod labels;
mod texts;

ghost use Rattle.std.specs.Prelude.{◌≡◌, ◌≤◌};
ghost use Rattle.ap_unit.specs.Shelves.{cards_of};

use crate::cards::{known_cards, shelf_of};
use crate::fault::Fault;
use crate::texts::rows_text;
use ap_bits::{Card, NoMemory};
use ap_comb::{Alu, Avg, Count, Shift};
use ap_desk::desk::Desk;
use ap_desk::pieces::read_all;
use ap_desk::system::FileDesk;
use ap_div::Div;
use ap_image::TEXT_LIMIT;
use ap_mul::Mul;
use ap_read::DESCRIPTION_LIMIT;
use ap_unit::{Shelf, UnitKind};
use std::alloc::Global;
use std::io::Write;
use std::process::ExitCode;
use std::rt::Env;
use std::{env, io};

/// The most cycles that are shown.
const CYCLE_LIMIT: u32 = 100_000;

/// The words after the program's name.
fn words(rt: &(impl Env + AllocGlobal)) -> io::Result<Vec<String>> {
    let mut words = Vec::new(rt.alloc());
    for word in env::args(rt)?.skip(1) {
        words.push(word)?;
    }
    Ok(words)
}

/// What a file holds, or as much of it as shows that it is longer than the limit.
fn file<D: Desk>(alloc: Global, desk: &mut D, name: &str, limit: usize) -> Result<Vec<u8>, Fault>
    requires { limit ≤ 67108864 }
{
    if name == "" || name == "-" {
        return Err(Fault::Usage);
    }
    let bytes = read_all(alloc, desk, name, limit)?;
    Ok(bytes)
}

/// The number of cycles that a word says.
fn cycles(word: &str) -> Result<u32, Fault> {
    match word.parse::<u32>() {
        Ok(count) if count <= CYCLE_LIMIT => Ok(count),
        _ => Err(Fault::Usage),
    }
}

/// The text of the rows that the words ask for.
fn printed(
    alloc: Global,
    shelf: &Shelf,
    cards: &[Card],
    words: &[String],
    desk: &mut FileDesk<'_, HostRuntime>,
) -> Result<Vec<u8>, Fault>
    requires { cards_of card shelf.now ≡ cards.now }
{
    let [description, image, trace, count] = words else {
        return Err(Fault::Usage);
    };
    let count = cycles(count.as_str())?;
    let description = file(alloc, desk, description.as_str(), DESCRIPTION_LIMIT)?;
    let image = file(alloc, desk, image.as_str(), TEXT_LIMIT)?;
    let trace = file(alloc, desk, trace.as_str(), TEXT_LIMIT)?;
    let text = rows_text(alloc, shelf, cards, &description, &image, &trace, count)?;
    Ok(text)
}

/// Prints the rows, or why there are none, and answers the status.
fn status(rt: &HostRuntime) -> io::Result<u8> {
    let words = words(rt)?;
    let alloc = rt.alloc();
    let alu: Box<dyn UnitKind> = Box::new(alloc, Alu)?;
    let shift: Box<dyn UnitKind> = Box::new(alloc, Shift)?;
    let count: Box<dyn UnitKind> = Box::new(alloc, Count)?;
    let avg: Box<dyn UnitKind> = Box::new(alloc, Avg)?;
    let mul: Box<dyn UnitKind> = Box::new(alloc, Mul)?;
    let div: Box<dyn UnitKind> = Box::new(alloc, Div)?;
    let shelf = shelf_of(alloc, alu, shift, count, avg, mul, div)?;
    let cards = match known_cards(alloc) {
        Ok(cards) => cards,
        Err(NoMemory) => return Ok(7),
    };
    let mut desk = FileDesk::new(rt);
    match printed(alloc, &shelf, cards.as_slice(), &words, &mut desk) {
        Ok(text) => {
            rt.stdout().write_all(&text)?;
            Ok(0)
        }
        Err(fault) => {
            println!(rt; "{fault}")?;
            Ok(fault.status())
        }
    }
}

fn main(rt: HostRuntime) -> ExitCode {
    match status(&rt) {
        Ok(status) => ExitCode::from(status),
        Err(_) => ExitCode::from(7),
    }
}
