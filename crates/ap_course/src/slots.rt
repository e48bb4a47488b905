//! Where a stage finds the locals of an instruction that come from earlier stages.
ghost use Rattle.std.specs.Prelude.{◌≡◌, ◌==◌, ◌++◌, find, option_to_list, IfOk, OnOk};
ghost use Rattle.ap_pipe.specs.declared.table.Home.{Home};
ghost use Rattle.ap_course.specs.Homes.{homes_in, in_home, stored_at, stored_of};

use ap_bits::{Items, NoMemory};
use ap_net::cell::Wire;
use ap_pipe::Home;
use ap_stage::slot::Stored;
use std::alloc::{AllocError, Global};

/// The homes of the instruction at this place of the design.
fn homes_in(alloc: Global, homes: &[Home], number: u32) -> Result<Vec<Home>, AllocError>
    ensures { IfOk result (λ own. own.items ≡ homes_in homes.now number) }
{
    homes
        .iter()
        .filter(|home| home.instr == number)
        .map(|home| *home)
        .collect(alloc)
}

/// The first of these homes that is the local's.
fn first_home(homes: &[Home], local: u32) -> Option<Home>
    ensures { result ≡ find (λ (h : Home). h.local == local) homes.now }
{
    homes.iter().find(|home| home.local == local).copied()
}

/// The local in the slot of its home.
fn in_home(slots: &[Wire], local: u32, home: Home) -> Option<Stored>
    ensures { result ≡ in_home slots.now local home }
{
    match slots.get(home.slot as usize) {
        Some(slot) => Some(Stored { local, slot: *slot }),
        None => None,
    }
}

/// Where the local stands, if it has one of these homes.
fn stored_at(homes: &[Home], slots: &[Wire], local: u32) -> Option<Stored>
    ensures { result ≡ stored_at homes.now slots.now local }
{
    match first_home(homes, local) {
        Some(home) => in_home(slots, local, home),
        None => None,
    }
}

/// Adds it, if it is there.
fn add(stored: &mut Items<Stored>, one: Option<Stored>) -> Result<(), NoMemory>
    ensures { OnOk result (stored.new ≡ stored.old ++ option_to_list one) }
{
    if let Some(one) = one {
        stored.push(one)?;
    }
    Ok(())
}

/// Where the first so many locals of the instruction at this place of the design stand that have homes.
pub fn stored_of(
    alloc: Global,
    homes: &[Home],
    slots: &[Wire],
    number: u32,
    count: u32,
) -> Result<Items<Stored>, NoMemory>
    ensures { IfOk result (λ stored. stored ≡ stored_of homes.now slots.now number count) }
{
    let own = homes_in(alloc, homes, number)?;
    let mut stored = Items::new(alloc);
    for local in 0..count {
        let one = stored_at(&own, slots, local);
        add(&mut stored, one)?;
    }
    Ok(stored)
}
