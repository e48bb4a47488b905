//! The registers of a description: declared by their names, and driven.
ghost use Rattle.std.specs.Prelude.{◌≡◌, ◌∷◌, [], IfOk, IsTrue, OnOk, length, map};
ghost use Rattle.std.specs.List.{AllByRecursion as Each};
ghost use Rattle.ap_desc.specs.Clean.{IsClean};
ghost use Rattle.ap_desc.specs.Designs.{is_reg_within};
ghost use Rattle.ap_net.specs.Draft.{CanFresh, names_of};
ghost use Rattle.ap_net.specs.Late.{StayLate};
ghost use Rattle.ap_net.specs.Making.{Makes};
ghost use Rattle.ap_net.specs.Modules.{ports_among};
ghost use Rattle.ap_net.specs.Names.{AreDistinct, IsNew};
ghost use Rattle.ap_net.specs.Pending.{Yields};
ghost use Rattle.ap_net.specs.Readings.{Carries};
ghost use Rattle.ap_net.specs.Ready.{numbers};
ghost use Rattle.ap_net.specs.Wiring.{NoneTwice};
ghost use Rattle.ap_signals.specs.NetRuns.{reg_name};
ghost use Rattle.ap_ctl.specs.Lists.{EachPair};
ghost use Rattle.ap_flight.specs.Stages.{IsOpen};
ghost use Rattle.ap_bank.specs.Regs.{AreNewRegs, AreRegs, DrivesRegs, IsRegWrite, KeepsOtherRegs, RegTakes, reg_numbers, reg_wires, with_regs};

use ap_bits::{Items, NoMemory};
use ap_desc::design::{Design, Reg};
use ap_flight::entry::either;
use ap_net::builder::Builder;
use ap_net::cell::Wire;

/// The nets that show what is written to a register.
#[derive(Clone, Copy, Debug, PartialEq, Eq)]
pub struct RegWrite {
    /// One bit: something is written at the edge.
    pub enable: Wire,
    /// What is written, with the bits of the register.
    pub value: Wire,
}

fn declare_one(out: &mut Builder, reg: &Reg) -> Result<Wire, NoMemory>
    requires within { IsTrue (is_reg_within reg.now) }
    requires new { IsNew (reg_name reg.now) (names_of out.old) }
    requires fresh { CanFresh out.old }
    ensures ok { OnOk result (out.new ≡ with_regs out.old (reg.now ∷ [])) }
    ensures wire { IfOk result (λ w. w
        ≡ record { number = length out.old.nets; width = reg.now.width }) }
    ensures fresh { OnOk result (CanFresh out.new) }
    ensures late { OnOk result (StayLate out.old out.new) }
{
    let name = format!(in out.allocator(); "r_{}", reg.name.as_str())?;
    let register = out.register(name.as_bytes(), reg.width, reg.reset)?;
    Ok(register)
}

fn declare(out: &mut Builder, regs: &[Reg]) -> Result<Items<Wire>, NoMemory>
    requires within { Each (λ r. IsTrue (is_reg_within r)) regs.now }
    requires new { AreNewRegs regs.now out.old }
    requires apart { AreDistinct (map (λ r. reg_name r) regs.now) }
    requires fresh { CanFresh out.old }
    ensures ok { OnOk result (out.new ≡ with_regs out.old regs.now) }
    ensures wires { IfOk result (λ made. made ≡ reg_wires (length out.old.nets) regs.now) }
    ensures fresh { OnOk result (CanFresh out.new) }
    ensures late { OnOk result (StayLate out.old out.new) }
    ensures others { OnOk result (KeepsOtherRegs regs.now out.old out.new) }
{
    let mut made = Items::new(out.allocator());
    for reg in regs {
        let register = declare_one(out, reg)?;
        made.push(register)?;
    }
    Ok(made)
}

/// Declares a register for each register of the description, with its name, its bits and its value after the reset edge. None takes
/// anything yet. After an error the builder is good for nothing but to be dropped.
pub fn declare_regs(design: &Design, out: &mut Builder) -> Result<Items<Wire>, NoMemory>
    requires clean { IsClean design.now }
    requires new { AreNewRegs design.now.regs out.old }
    requires fresh { CanFresh out.old }
    ensures ok { OnOk result (out.new ≡ with_regs out.old design.now.regs) }
    ensures wires { IfOk result (λ made. made
        ≡ reg_wires (length out.old.nets) design.now.regs) }
    ensures regs { IfOk result (AreRegs out.new design.now.regs) }
    ensures fresh { OnOk result (CanFresh out.new) }
    ensures late { OnOk result (StayLate out.old out.new) }
    ensures ports { OnOk result (ports_among out.new.nets ≡ ports_among out.old.nets) }
    ensures others { OnOk result (KeepsOtherRegs design.now.regs out.old out.new) }
{
    out.rules();
    let made = declare(out, design.regs.as_slice())?;
    Ok(made)
}

/// What the register takes: the value where something is written, else what it holds.
fn next_of(out: &mut Builder, register: Wire, write: Option<RegWrite>) -> Result<Wire, NoMemory>
    requires fresh { CanFresh out.old }
    requires register { IsOpen out.old register }
    requires write { IsRegWrite out.old.nets register write }
    ensures carries { IfOk result (Carries out.new register.width (RegTakes register write)) }
    ensures yields { IfOk result (Yields (reg_numbers register write) out.old out.new) }
    ensures makes { OnOk result (Makes out.old out.new) }
{
    match write {
        None => Ok(register),
        Some(write) => {
            let net = either(out, write.enable, write.value, register)?;
            Ok(net)
        }
    }
}

/// Drives a register: it takes the value where something is written, and else keeps what it holds, as does a register that is never
/// written. After an error the builder is good for nothing but to be dropped.
pub fn drive_reg(out: &mut Builder, register: Wire, write: Option<RegWrite>) -> Result<(), NoMemory>
    requires fresh { CanFresh out.old }
    requires register { IsOpen out.old register }
    requires write { IsRegWrite out.old.nets register write }
    ensures { OnOk result (DrivesRegs (register ∷ []) (write ∷ []) out.old out.new) }
{
    let net = next_of(out, register, write)?;
    out.next(register, net)?;
    Ok(())
}

/// Drives registers, each by what is written to it. After an error the builder is good for nothing but to be dropped.
pub fn drive_regs(
    out: &mut Builder,
    registers: &[Wire],
    writes: &[Option<RegWrite>],
) -> Result<(), NoMemory>
    requires fresh { CanFresh out.old }
    requires registers { Each (IsOpen out.old) registers.now }
    requires apart { NoneTwice (numbers registers.now) }
    requires writes { EachPair (IsRegWrite out.old.nets) registers.now writes.now }
    ensures { OnOk result (DrivesRegs registers.now writes.now out.old out.new) }
{
    for (place, write) in writes.iter().enumerate() {
        drive_reg(out, registers[place], *write)?;
    }
    Ok(())
}
