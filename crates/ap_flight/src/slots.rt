//! What the slots of a stage take.
ghost use Rattle.std.specs.Prelude.{◌≡◌, ◌∷◌, ◌++◌, ◌≤◌, IfOk, OnOk, length, map, filter, zip};
ghost use Rattle.std.specs.List.{AllByRecursion as Each};
ghost use Rattle.ap_net.specs.Cells.{IsNet};
ghost use Rattle.ap_net.specs.Draft.{CanFresh};
ghost use Rattle.ap_net.specs.Late.{Reads};
ghost use Rattle.ap_net.specs.Making.{Makes};
ghost use Rattle.ap_net.specs.Pending.{IsFrom, Yields};
ghost use Rattle.ap_net.specs.Ready.{numbers};
ghost use Rattle.ap_net.specs.Readings.{Carries};
ghost use Rattle.ap_ctl.specs.Building.{IsBit};
ghost use Rattle.ap_ctl.specs.Lists.{EachPair};
ghost use Rattle.ap_flight.specs.Entries.{IsLeaving, SlotTakes, is_in_slot, leaving_numbers, leaving_of, left_to};
ghost use Rattle.ap_flight.specs.Stages.{AreSlotNets, FitsHome};

use crate::entry::{Leaving, chosen, either};
use ap_bits::{Items, NoMemory};
use ap_net::builder::Builder;
use ap_net::cell::Wire;
use ap_pipe::Home;
use std::alloc::{AllocError, Global};

/// What is left to a slot.
fn left_to(
    alloc: Global,
    homes: &[Home],
    list: &[Leaving],
    slot: u32,
) -> Result<Vec<Leaving>, AllocError>
    ensures { IfOk result (λ left. left.items ≡ left_to slot homes.now list.now) }
{
    homes
        .iter()
        .zip(list)
        .filter(|(home, _)| home.slot == slot)
        .map(|(_, leaving)| *leaving)
        .collect(alloc)
}

/// What a slot takes: it stays where the stage is held, and else takes one of these.
fn slot_net(
    out: &mut Builder,
    hold: Wire,
    register: Wire,
    list: &[Leaving],
) -> Result<Wire, NoMemory>
    requires fresh { CanFresh out.old }
    requires hold { IsBit out.old.nets hold }
    requires register { IsNet out.old.nets register }
    requires list { Each (IsLeaving out.old.nets register.width) list.now }
    ensures carries { IfOk result (Carries out.new register.width
        (SlotTakes hold register list.now)) }
    ensures yields { IfOk result (Yields (hold.number ∷ register.number ∷ leaving_numbers list.now)
        out.old out.new) }
    ensures makes { OnOk result (Makes out.old out.new) }
{
    if list.is_empty() {
        return Ok(register);
    }
    let coming = chosen(out, list, register.width)?;
    let net = either(out, hold, register, coming)?;
    Ok(net)
}

/// What the slots of these registers take.
pub fn slot_nets(
    out: &mut Builder,
    hold: Wire,
    registers: &[Wire],
    homes: &[Home],
    list: &[Leaving],
) -> Result<Items<Wire>, NoMemory>
    requires fresh { CanFresh out.old }
    requires few { length registers.now ≤ 64 }
    requires hold { IsBit out.old.nets hold }
    requires registers { Each (IsNet out.old.nets) registers.now }
    requires list { EachPair (FitsHome out.old.nets registers.now) homes.now list.now }
    ensures nets { IfOk result
        (AreSlotNets out.new hold homes.now list.now 0 registers.now) }
    ensures reads { OnOk result (Reads
        (hold.number ∷ numbers registers.now ++ leaving_numbers list.now) out.old out.new) }
    ensures results { IfOk result (λ nets. Each (IsFrom
        (hold.number ∷ numbers registers.now ++ leaving_numbers list.now) out.old out.new)
        (numbers nets)) }
    ensures makes { OnOk result (Makes out.old out.new) }
{
    let alloc = out.allocator();
    let mut nets = Items::new(alloc);
    for place in 0..registers.len() {
        let left = left_to(alloc, homes, list, place as u32)?;
        let net = slot_net(out, hold, registers[place], &left)?;
        nets.push(net)?;
    }
    Ok(nets)
}
