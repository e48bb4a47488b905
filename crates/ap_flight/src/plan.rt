//! The registers of a stage, and their declaration.
ghost use Rattle.std.specs.Prelude.{◌≡◌, ◌∷◌, [], ◌+◌, IfOk, OnOk, length};
ghost use Rattle.std.specs.List.{AllByRecursion as Each};
ghost use Rattle.ap_net.specs.Draft.{CanFresh};
ghost use Rattle.ap_net.specs.Late.{StayLate};
ghost use Rattle.ap_net.specs.Modules.{ports_among};
ghost use Rattle.ap_signals.specs.NetRuns.{place_name, slot_name, word_name};
ghost use Rattle.ap_flight.specs.Planned.{AreNew, IsNewIn, IsPlan, KeepsOther, register_wires, stage_plan, with_registers};

use ap_bits::{Items, NoMemory};
use ap_desc::design::Design;
use ap_net::builder::Builder;
use ap_net::cell::Wire;
use std::alloc::Global;

/// A register that is to be declared.
#[derive(Drop)]
pub struct Planned {
    /// Its name.
    pub name: Items<u8>,
    /// Its bits.
    pub width: u32,
}

fn word(alloc: Global, stage: u32, width: u32) -> Result<Planned, NoMemory>
    ensures name { IfOk result (λ made. made.name ≡ word_name stage) }
    ensures width { IfOk result (λ made. made.width ≡ width) }
{
    let name = format!(in alloc; "x_{stage}")?;
    let name = Items::copy_of(alloc, name.as_bytes())?;
    Ok(Planned { name, width })
}

fn place(alloc: Global, stage: u32, width: u32) -> Result<Planned, NoMemory>
    ensures name { IfOk result (λ made. made.name ≡ place_name stage) }
    ensures width { IfOk result (λ made. made.width ≡ width) }
{
    let name = format!(in alloc; "a_{stage}")?;
    let name = Items::copy_of(alloc, name.as_bytes())?;
    Ok(Planned { name, width })
}

fn slot(alloc: Global, stage: u32, slot: usize, width: u32) -> Result<Planned, NoMemory>
    ensures name { IfOk result (λ made. made.name ≡ slot_name stage slot) }
    ensures width { IfOk result (λ made. made.width ≡ width) }
{
    let name = format!(in alloc; "l_{stage}_{slot}")?;
    let name = Items::copy_of(alloc, name.as_bytes())?;
    Ok(Planned { name, width })
}

/// The registers of a stage whose slots have these widths: its word, the word's address, and the slots.
pub fn plan(
    alloc: Global,
    design: &Design,
    stage: u32,
    widths: &[u32],
) -> Result<Items<Planned>, NoMemory>
    ensures { IfOk result (λ made. made ≡ stage_plan design.now stage widths.now) }
{
    let mut made = Items::new(alloc);
    made.push(word(alloc, stage, design.word)?)?;
    made.push(place(alloc, stage, design.address)?)?;
    for (number, width) in widths.iter().enumerate() {
        made.push(slot(alloc, stage, number, *width)?)?;
    }
    Ok(made)
}

/// Declares a register, which is 0 after the reset edge.
fn declare_one(out: &mut Builder, planned: &Planned) -> Result<Wire, NoMemory>
    requires plan { IsPlan planned.now }
    requires new { IsNewIn out.old planned.now }
    requires fresh { CanFresh out.old }
    ensures ok { OnOk result (out.new ≡ with_registers out.old (planned.now ∷ [])) }
    ensures wire { IfOk result (λ w. w
        ≡ record { number = length out.old.nets; width = planned.now.width }) }
    ensures fresh { OnOk result (CanFresh out.new) }
    ensures late { OnOk result (StayLate out.old out.new) }
{
    let register = out.register(planned.name.as_slice(), planned.width, 0)?;
    Ok(register)
}

/// Declares registers, which are 0 after the reset edge. After an error the builder is good for nothing but to be dropped.
pub fn declare(out: &mut Builder, plan: &[Planned]) -> Result<Items<Wire>, NoMemory>
    requires plan { Each IsPlan plan.now }
    requires new { AreNew plan.now out.old }
    requires fresh { CanFresh out.old }
    ensures ok { OnOk result (out.new ≡ with_registers out.old plan.now) }
    ensures wires { IfOk result (λ made. made ≡ register_wires (length out.old.nets) plan.now) }
    ensures fresh { OnOk result (CanFresh out.new) }
    ensures late { OnOk result (StayLate out.old out.new) }
    ensures ports { OnOk result (ports_among out.new.nets ≡ ports_among out.old.nets) }
    ensures others { OnOk result (KeepsOther plan.now out.old out.new) }
{
    let mut made = Items::new(out.allocator());
    for planned in plan {
        let register = declare_one(out, planned)?;
        made.push(register)?;
    }
    Ok(made)
}
