//! What comes to the stages.
ghost use Rattle.std.specs.Prelude.{◌≡◌, IfOk, length};
ghost use Rattle.ap_front.specs.Coming.{AreComings};

use crate::registers::Registers;
use ap_bits::{Items, NoMemory};
use ap_flight::entry::Leaving;
use ap_flight::stage::Coming;
use ap_net::cell::Wire;
use std::alloc::Global;

/// What comes to one stage.
fn coming(
    alloc: Global,
    hold: Wire,
    word: Wire,
    place: Wire,
    locals: &[Leaving],
) -> Result<Coming, NoMemory>
    ensures { IfOk result (λ c. c
        ≡ record { hold = hold; word = word; place = place; locals = locals.now }) }
{
    let locals = Items::copy_of(alloc, locals)?;
    Ok(Coming {
        hold,
        word,
        place,
        locals,
    })
}

/// What comes to each stage from 1 on: to the first the word that is fetched and the pc, to any later one the word and the address of the
/// stage before; and the locals that are left to it.
pub fn comings(
    alloc: Global,
    registers: &Registers,
    idata: Wire,
    hold: Wire,
    locals: &[Items<Leaving>],
) -> Result<Items<Coming>, NoMemory>
    requires { length locals.now ≡ length registers.now.stages }
    ensures { IfOk result (AreComings registers.now idata hold locals.now) }
{
    let mut made = Items::new(alloc);
    let mut word = idata;
    let mut place = registers.pc;
    for (number, stage) in registers.stages.as_slice().iter().enumerate() {
        let coming = coming(alloc, hold, word, place, locals[number].as_slice())?;
        made.push(coming)?;
        word = stage.word;
        place = stage.place;
    }
    Ok(made)
}
