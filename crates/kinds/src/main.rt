//! Prints a unit by itself, as a text whose one module is `top`: `kinds KIND WIDTH`. The scripts that try units in other
//! tools read it. Without such a kind or width it prints `usage`.
#![tactic(auto)]

ghost use Rattle.std.specs.Prelude.{IfNone, IfOk, IfSome};
ghost use Rattle.ap_bits.specs.Cards.{FitsWidth};
ghost use Rattle.ap_bits.specs.declared.card.Card.{Card};
ghost use Rattle.ap_unit.specs.Shelves.{cards_of};
ghost use Rattle.kinds.specs.Texts.{IsKindNamed, IsTextFor, IsUnitText};

use ap_bits::NoMemory;
use ap_comb::{Alu, Avg, Count, Shift};
use ap_div::Div;
use ap_mul::Mul;
use ap_net::builder::Builder;
use ap_net::module::Netlist;
use ap_unit::{Shelf, UnitKind};
use ap_vw::write;
use std::alloc::Global;
use std::rt::Env;
use std::{env, io};

/// The text of a unit of this kind and width.
fn unit_text(alloc: Global, kind: &dyn UnitKind, w: u32) -> Result<Vec<u8>, NoMemory>
    requires { FitsWidth (card kind.now) w }
    ensures { IfOk result (λ text. IsUnitText (card kind.now) w text.items) }
{
    let mut out = Builder::new(alloc, b"top")?;
    kind.build(w, &mut out)?;
    let net = Netlist::of_top(alloc, out.finish()?)?;
    net.rules();
    let mut text = Vec::new(alloc);
    write(&net, &mut text)?;
    Ok(text)
}

/// The text of a unit of the kind of this name at this width; none exactly where the shelf has no kind of this name, or the
/// kind no such width.
fn text_for(alloc: Global, shelf: &Shelf, name: &str, w: u32) -> Result<Option<Vec<u8>>, NoMemory>
    ensures some { let cards = cards_of card shelf.now in
        IfOk result (λ found. IfSome found (λ text. IsTextFor cards name.now w text.items)) }
    ensures none { let cards = cards_of card shelf.now in
        IfOk result (λ found.
        IfNone found ((c : Card) → IsKindNamed cards name.now c → FitsWidth c w → ⊥)) }
{
    let Some(place) = shelf.find(name) else {
        return Ok(None);
    };
    let kind = shelf.kind(place);
    if !kind.fits(w) {
        return Ok(None);
    }
    let text = unit_text(alloc, kind, w)?;
    Ok(Some(text))
}

/// The words after the program's name.
fn words(rt: &(impl Env + AllocGlobal)) -> io::Result<Vec<String>> {
    let mut words = Vec::new(rt.alloc());
    for word in env::args(rt)?.skip(1) {
        words.push(word)?;
    }
    Ok(words)
}

/// What is printed.
fn printed(alloc: Global, shelf: &Shelf, words: &[String]) -> Result<String, NoMemory> {
    if let [name, width] = words {
        if let Ok(w) = width.as_str().parse::<u32>() {
            if let Some(text) = text_for(alloc, shelf, name.as_str(), w)? {
                if let Ok(text) = std::str::from_utf8(&text) {
                    return Ok(String::from_str(alloc, text)?);
                }
            }
        }
    }
    Ok(String::from_str(alloc, "usage\n")?)
}

fn main(rt: HostRuntime) -> io::Result<()> {
    let alloc = rt.alloc();
    let mut kinds: Vec<Box<dyn UnitKind>> = Vec::new(alloc);
    kinds.push(Box::new(alloc, Alu)?)?;
    kinds.push(Box::new(alloc, Shift)?)?;
    kinds.push(Box::new(alloc, Count)?)?;
    kinds.push(Box::new(alloc, Avg)?)?;
    kinds.push(Box::new(alloc, Mul)?)?;
    kinds.push(Box::new(alloc, Div)?)?;
    let Ok(shelf) = Shelf::new(kinds) else {
        return println!(rt; "two kinds of one name");
    };
    match printed(alloc, &shelf, &words(&rt)?) {
        Ok(text) => print!(rt; "{text}"),
        Err(NoMemory) => println!(rt; "no memory"),
    }
}
