//! The storages of a processor's `top`: its registers take what is written, and its files are instances.
ghost use Rattle.std.specs.Prelude.{◌≡◌, ◌<◌, ◌≤◌, IfOk, OnOk, Some, codes, length, slice_get};
ghost use Rattle.ap_desc.specs.Clean.{IsClean};
ghost use Rattle.ap_net.specs.Draft.{CanFresh, blank, names_of};
ghost use Rattle.ap_net.specs.Names.{IsNew};
ghost use Rattle.ap_pipe.specs.Slots.{AreSlotsOf};
ghost use Rattle.ap_signals.specs.NetRuns.{file_part};
ghost use Rattle.ap_store.specs.FilePorts.{file_module_name, file_ports};
ghost use Rattle.ap_bank.specs.Regs.{AreRegs, DrivesRegs};
ghost use Rattle.ap_front.specs.Ports.{HasPorts};
ghost use Rattle.ap_lead.specs.Storing.{HasNoFiles, KnowsFiles, Leads, StoresFile, StoresFiles};
ghost use Rattle.ap_lead.specs.Writes.{reg_writes};

use crate::declare::{Declared, declare};
use crate::laws::writes_are_shown;
use crate::writes::{file_writes, reg_writes};
use ap_bank::bank::{FileNets, bank_file};
use ap_bank::regs::drive_regs;
use ap_bits::{Items, NoMemory};
use ap_desc::design::{Design, File};
use ap_front::ports::Ports;
use ap_net::builder::Builder;
use ap_net::cell::Wire;
use ap_net::module::Module;
use ap_pipe::SlotTable;

/// The first part of `top`.
#[derive(Drop)]
pub struct Lead {
    /// Its ports and registers.
    pub declared: Declared,
    /// The nets at the read ports of its files, in order.
    pub files: Items<FileNets>,
}

/// Drives the registers of the description by the outputs that show their writes. After an error the builder is good for nothing but to be
/// dropped.
pub fn drive(
    design: &Design,
    ports: &Ports,
    registers: &[Wire],
    out: &mut Builder,
) -> Result<(), NoMemory>
    requires clean { IsClean design.now }
    requires ports { HasPorts design.now out.old ports.now }
    requires regs { AreRegs out.old design.now.regs registers.now }
    requires fresh { CanFresh out.old }
    ensures { OnOk result (DrivesRegs registers.now
        (reg_writes ports.now.groups (length design.now.regs)) out.old out.new) }
{
    out.rules();
    writes_are_shown();
    let count = design.regs.len() as u32;
    let writes = reg_writes(out.allocator(), ports.groups.as_slice(), count)?;
    drive_regs(out, registers, writes.as_slice())?;
    Ok(())
}

/// The file of a place.
fn file_at(design: &Design, file: usize) -> &File
    requires { file < length design.now.files }
    ensures { slice_get design.now.files file ≡ Some result.now }
{
    let files = design.files.as_slice();
    &files[file]
}

/// The module of a place.
fn module_at(modules: &[Module], place: usize) -> &Module
    requires { place < length modules.now }
    ensures { slice_get modules.now place ≡ Some result.now }
{
    &modules[place]
}

/// Places a file over the outputs that show its writes.
fn store_file(
    design: &Design,
    ports: &Ports,
    number: u32,
    file: &File,
    whole: &Module,
    out: &mut Builder,
) -> Result<FileNets, NoMemory>
    requires clean { IsClean design.now }
    requires ports { HasPorts design.now out.old ports.now }
    requires at { slice_get design.now.files number ≡ Some file.now }
    requires named { whole.now.name ≡ file_module_name file.now }
    requires whole { whole.now.ports ≡ file_ports file.now }
    requires top { out.old.name ≡ codes "top" }
    requires fresh { CanFresh out.old }
    requires name { IsNew (file_part file.now) (names_of out.old) }
    ensures { IfOk result (λ nets.
        StoresFile design.now ports.now.groups number nets out.old out.new) }
{
    out.rules();
    writes_are_shown();
    let writes = file_writes(
        out.allocator(),
        ports.groups.as_slice(),
        number,
        file.writes,
    )?;
    let nets = bank_file(out, file, whole, writes.as_slice())?;
    Ok(nets)
}

/// Places the file of a place.
fn store_nth(
    design: &Design,
    ports: &Ports,
    modules: &[Module],
    number: usize,
    out: &mut Builder,
) -> Result<FileNets, NoMemory>
    requires clean { IsClean design.now }
    requires few { length design.now.files ≤ 8 }
    requires there { number < length design.now.files }
    requires ports { HasPorts design.now out.old ports.now }
    requires known { KnowsFiles design.now modules.now }
    requires top { out.old.name ≡ codes "top" }
    requires fresh { CanFresh out.old }
    requires names { HasNoFiles design.now out.old number }
    ensures { IfOk result (λ nets.
        StoresFile design.now ports.now.groups number nets out.old out.new) }
{
    let file = file_at(design, number);
    let whole = module_at(modules, number);
    let nets = store_file(design, ports, number as u32, file, whole, out)?;
    Ok(nets)
}

/// Places all files, each an instance of its module, over the outputs that show their writes. The modules are those of the files, in their
/// order. After an error the builder is good for nothing but to be dropped.
pub fn store_files(
    design: &Design,
    ports: &Ports,
    modules: &[Module],
    out: &mut Builder,
) -> Result<Items<FileNets>, NoMemory>
    requires clean { IsClean design.now }
    requires few { length design.now.files ≤ 8 }
    requires ports { HasPorts design.now out.old ports.now }
    requires known { KnowsFiles design.now modules.now }
    requires top { out.old.name ≡ codes "top" }
    requires fresh { CanFresh out.old }
    requires names { HasNoFiles design.now out.old 0 }
    ensures files { IfOk result (λ made.
        StoresFiles design.now ports.now.groups made out.old out.new) }
    ensures count { IfOk result (λ made. length made ≡ length design.now.files) }
{
    let mut made = Items::new(out.allocator());
    for number in 0..design.files.len() {
        let nets = store_nth(design, ports, modules, number, out)?;
        made.push(nets)?;
    }
    Ok(made)
}

/// The first part of `top`, in a builder that has nothing but its name: its ports, the registers of its front, those of the description,
/// driven by the outputs that show their writes, and its files. The modules are those of the files, in their order. After an error the
/// builder is good for nothing but to be dropped.
pub fn make_lead(
    design: &Design,
    slots: &SlotTable,
    modules: &[Module],
    out: &mut Builder,
) -> Result<Lead, NoMemory>
    requires clean { IsClean design.now }
    requires slots { AreSlotsOf design.now slots.now }
    requires known { KnowsFiles design.now modules.now }
    requires empty { out.old ≡ blank (codes "top") }
    ensures { IfOk result (λ made. Leads design.now slots.now.stages made out.new) }
{
    let declared = declare(design, slots, out)?;
    out.rules();
    drive(design, &declared.ports, declared.regs.as_slice(), out)?;
    let files = store_files(design, &declared.ports, modules, out)?;
    Ok(Lead { declared, files })
}
