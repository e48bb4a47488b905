//! A write port, through which lines of one stage write.
ghost use Rattle.std.specs.Prelude.{◌≡◌, ◌∷◌, ◌≤◌, IfOk, IfSome, OnOk, filter_map, length, map, option_to_list};
ghost use Rattle.std.specs.List.{AllByRecursion as Each};
ghost use Rattle.ap_net.specs.Draft.{CanFresh};
ghost use Rattle.ap_net.specs.Late.{Reads};
ghost use Rattle.ap_net.specs.Making.{Makes};
ghost use Rattle.ap_net.specs.Pending.{IsFrom, Yields};
ghost use Rattle.ap_net.specs.Ready.{numbers};
ghost use Rattle.ap_net.specs.Readings.{Carries};
ghost use Rattle.ap_ctl.specs.Building.{IsBit};
ghost use Rattle.ap_merge.specs.Selects.{GoesOver, depth};
ghost use Rattle.ap_stage.specs.Trees.{StandsOver};
ghost use Rattle.ap_effect.specs.Writers.{AreWriteNets, GivesIndex, GivesValue, HasIndex, HasValue, IsIndexNet, IsWriter, index_numbers, offer_index, offer_value, value_numbers, write_wires, writing_numbers};

use crate::enable::any_acts;
use crate::gate::both;
use ap_bits::{Items, NoMemory};
use ap_merge::Select;
use ap_net::builder::Builder;
use ap_net::cell::Wire;
use ap_stage::choose::chosen;
use ap_stage::offer::Offer;
use std::alloc::Global;

/// What an instruction writes through a port in a stage.
#[derive(Clone, Copy, Debug, PartialEq, Eq)]
pub struct Writer {
    /// One bit: the stage's word matches the instruction.
    pub cond: Wire,
    /// One bit, where the write has a guard.
    pub guard: Option<Wire>,
    /// The index of a cell or the address of a word; none at a register.
    pub index: Option<Wire>,
    /// What is written.
    pub value: Wire,
}

/// The nets of a write port.
#[derive(Clone, Copy, Debug, PartialEq, Eq)]
pub struct WriteNets {
    /// One bit: something is written at the edge.
    pub enable: Wire,
    /// Where it is written; none at a register.
    pub index: Option<Wire>,
    /// What is written.
    pub value: Wire,
}

fn value_offers(alloc: Global, writers: &[Writer]) -> Result<Items<Offer>, NoMemory>
    ensures { IfOk result (λ list. list ≡ map offer_value writers.now) }
{
    let mut list = Items::new(alloc);
    for writer in writers {
        list.push(Offer {
            cond: writer.cond,
            net: writer.value,
        })?;
    }
    Ok(list)
}

fn index_offers(alloc: Global, writers: &[Writer]) -> Result<Items<Offer>, NoMemory>
    ensures { IfOk result (λ list. list ≡ filter_map offer_index writers.now) }
{
    let mut list = Items::new(alloc);
    for writer in writers {
        if let Some(net) = writer.index {
            list.push(Offer {
                cond: writer.cond,
                net,
            })?;
        }
    }
    Ok(list)
}

/// What is written: what that writer writes whose condition alone is 1.
fn value_net(
    out: &mut Builder,
    writers: &[Writer],
    select: &Select,
    width: u32,
) -> Result<Wire, NoMemory>
    requires fresh { CanFresh out.old }
    requires writers { Each (HasValue out.old.nets width) writers.now }
    requires over { GoesOver select.now 0 (length writers.now) }
    ensures net { IfOk result (Carries out.new width (GivesValue writers.now)) }
    ensures yields { IfOk result (Yields (writing_numbers writers.now) out.old out.new) }
    ensures makes { OnOk result (Makes out.old out.new) }
    ensures shallow { IfOk result (λ y. StandsOver (depth select.now) (value_numbers writers.now)
        out.old out.new y.number) }
{
    let offers = value_offers(out.allocator(), writers)?;
    let value = chosen(out, select, offers.as_slice(), width)?;
    Ok(value)
}

/// Where it is written: the index of that writer whose condition alone is 1.
fn chosen_index(
    out: &mut Builder,
    writers: &[Writer],
    select: &Select,
    bits: u32,
) -> Result<Wire, NoMemory>
    requires fresh { CanFresh out.old }
    requires writers { Each (HasIndex out.old.nets bits) writers.now }
    requires over { GoesOver select.now 0 (length writers.now) }
    ensures net { IfOk result (Carries out.new bits (GivesIndex writers.now)) }
    ensures yields { IfOk result (Yields (writing_numbers writers.now) out.old out.new) }
    ensures makes { OnOk result (Makes out.old out.new) }
    ensures shallow { IfOk result (λ i. StandsOver (depth select.now) (index_numbers writers.now)
        out.old out.new i.number) }
{
    let offers = index_offers(out.allocator(), writers)?;
    let index = chosen(out, select, offers.as_slice(), bits)?;
    Ok(index)
}

/// The net of the index, where there are bits for it.
fn index_net(
    out: &mut Builder,
    writers: &[Writer],
    select: &Select,
    bits: Option<u32>,
    width: u32,
) -> Result<Option<Wire>, NoMemory>
    requires fresh { CanFresh out.old }
    requires writers { Each (IsWriter out.old.nets bits width) writers.now }
    requires over { GoesOver select.now 0 (length writers.now) }
    ensures net { IfOk result (IsIndexNet out.new writers.now bits) }
    ensures reads { OnOk result (Reads (writing_numbers writers.now) out.old out.new) }
    ensures results { IfOk result (λ o. Each (IsFrom (writing_numbers writers.now) out.old out.new)
        (numbers (option_to_list o))) }
    ensures makes { OnOk result (Makes out.old out.new) }
    ensures shallow { IfOk result (λ o. IfSome o (λ i.
        StandsOver (depth select.now) (index_numbers writers.now) out.old out.new i.number)) }
{
    match bits {
        None => Ok(None),
        Some(bits) => {
            let index = chosen_index(out, writers, select, bits)?;
            Ok(Some(index))
        }
    }
}

/// The nets of a write port, over all instructions that write through it in a stage. Something is written exactly where the stage fires
/// and a writer's condition is 1, with its guard where it has one. What is written, and where, is that of the writer whose condition alone
/// is 1; where none is, it may be anything. The index has `bits`, where the port has one, and the value `width`. The selection goes over
/// the writers.
pub fn write_nets(
    out: &mut Builder,
    fires: Wire,
    writers: &[Writer],
    select: &Select,
    bits: Option<u32>,
    width: u32,
) -> Result<WriteNets, NoMemory>
    requires fresh { CanFresh out.old }
    requires fires { IsBit out.old.nets fires }
    requires some { 1 ≤ length writers.now }
    requires writers { Each (IsWriter out.old.nets bits width) writers.now }
    requires over { GoesOver select.now 0 (length writers.now) }
    ensures nets { IfOk result (AreWriteNets out.new fires writers.now bits width) }
    ensures reads { OnOk result (Reads (fires.number ∷ writing_numbers writers.now)
        out.old out.new) }
    ensures results { IfOk result (λ nets. Each (IsFrom (fires.number ∷ writing_numbers writers.now)
        out.old out.new) (numbers (write_wires nets))) }
    ensures makes { OnOk result (Makes out.old out.new) }
    ensures enable { IfOk result (λ nets. StandsOver 0 (fires.number ∷ writing_numbers writers.now)
        out.old out.new nets.enable.number) }
    ensures value { IfOk result (λ nets. StandsOver (depth select.now) (value_numbers writers.now)
        out.old out.new nets.value.number) }
    ensures index { IfOk result (λ nets. IfSome nets.index (λ i.
        StandsOver (depth select.now) (index_numbers writers.now) out.old out.new i.number)) }
{
    let any = any_acts(out, writers)?;
    let enable = both(out, fires, any)?;
    let value = value_net(out, writers, select, width)?;
    let index = index_net(out, writers, select, bits, width)?;
    Ok(WriteNets {
        enable,
        index,
        value,
    })
}
