//! The program: it hands its words, the kinds of units that it knows and the system's files to the one call, and ends with
//! the status that it answers.
#![tactic(auto)]

ghost use Rattle.std.specs.Prelude.{◌≡◌, IfOk};
ghost use Rattle.ap_unit.specs.Shelves.{boxed_cards_of};
ghost use Rattle.ap_bits.specs.KindCards.{alu_card, shift_card, count_card, avg_card, mul_card, div_card};
ghost use Rattle.asip.specs.Shelf.{program_cards};

use ap_comb::{Alu, Avg, Count, Shift};
use ap_desk::system::FileDesk;
use ap_div::Div;
use ap_mul::Mul;
use ap_top::serve::serve;
use ap_unit::{Shelf, UnitKind};
use std::alloc::{AllocError, Global};
use std::io::ErrorKind;
use std::process::ExitCode;
use std::rt::Env;
use std::{env, io};

/// A shelf of the kinds of units that the program knows, whose names differ.
fn shelf_of(
    alloc: Global,
    alu: Box<dyn UnitKind>,
    shift: Box<dyn UnitKind>,
    count: Box<dyn UnitKind>,
    avg: Box<dyn UnitKind>,
    mul: Box<dyn UnitKind>,
    div: Box<dyn UnitKind>,
) -> Result<Shelf, AllocError>
    requires alu { card alu ≡ alu_card }
    requires shift { card shift ≡ shift_card }
    requires count { card count ≡ count_card }
    requires avg { card avg ≡ avg_card }
    requires mul { card mul ≡ mul_card }
    requires div { card div ≡ div_card }
    ensures { IfOk result (λ shelf. boxed_cards_of card shelf ≡ program_cards) }
{
    let mut kinds = Vec::new(alloc);
    kinds.push(alu)?;
    kinds.push(shift)?;
    kinds.push(count)?;
    kinds.push(avg)?;
    kinds.push(mul)?;
    kinds.push(div)?;
    let shelf = Shelf::new(kinds).unwrap();
    Ok(shelf)
}

/// The words after the program's name; none where one isn't UTF-8, since such words are no command, and no words are none.
fn words(rt: &(impl Env + AllocGlobal)) -> io::Result<Vec<String>> {
    let mut words = Vec::new(rt.alloc());
    match env::args(rt) {
        Ok(args) => {
            for word in args.skip(1) {
                words.push(word)?;
            }
        }
        Err(error) if error.kind() == ErrorKind::InvalidData => {}
        Err(error) => return Err(error),
    }
    Ok(words)
}

/// The status of the call; an error where memory ran out before it.
fn status(rt: &HostRuntime) -> io::Result<u8> {
    let words = words(rt)?;
    let alloc = rt.alloc();
    let alu: Box<dyn UnitKind> = Box::new(alloc, Alu)?;
    let shift: Box<dyn UnitKind> = Box::new(alloc, Shift)?;
    let count: Box<dyn UnitKind> = Box::new(alloc, Count)?;
    let avg: Box<dyn UnitKind> = Box::new(alloc, Avg)?;
    let mul: Box<dyn UnitKind> = Box::new(alloc, Mul)?;
    let div: Box<dyn UnitKind> = Box::new(alloc, Div)?;
    let shelf = shelf_of(alloc, alu, shift, count, avg, mul, div)?;
    let mut desk = FileDesk::new(rt);
    Ok(serve(alloc, &words, &shelf, &mut desk))
}

fn main(rt: HostRuntime) -> ExitCode {
    match status(&rt) {
        Ok(status) => ExitCode::from(status),
        Err(_) => ExitCode::from(7),
    }
}
