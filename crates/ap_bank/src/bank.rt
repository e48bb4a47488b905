//! A register file with all that belongs to it: wires for the indices that are read, the nets of its write ports, and its instance.
ghost use Rattle.std.specs.Prelude.{◌≡◌, [], IfOk, IsTrue, OnOk, codes};
ghost use Rattle.ap_desc.specs.Designs.{is_file_within};
ghost use Rattle.ap_net.specs.Draft.{CanFresh, names_of};
ghost use Rattle.ap_net.specs.Late.{Reads};
ghost use Rattle.ap_net.specs.Making.{Makes};
ghost use Rattle.ap_net.specs.Names.{IsNew};
ghost use Rattle.ap_signals.specs.NetRuns.{file_part};
ghost use Rattle.ap_ctl.specs.Lists.{EachPair};
ghost use Rattle.ap_store.specs.FilePorts.{file_ports};
ghost use Rattle.ap_bank.specs.Banked.{ArePorts, BanksNew, IsGiven};
ghost use Rattle.ap_bank.specs.Placed.{IsFit};

use crate::files::{FileWrite, idle_write, place_file};
use crate::late::late_nets;
use ap_bits::{Items, NoMemory};
use ap_desc::design::File;
use ap_net::builder::Builder;
use ap_net::cell::Wire;
use ap_net::module::Module;
use ap_store::shape::index_width;

/// The nets at the read ports of a file, in order.
#[derive(Drop)]
pub struct FileNets {
    /// The index at each read port, which is driven later.
    pub indices: Items<Wire>,
    /// What each read port shows.
    pub shown: Items<Wire>,
}

/// The nets of a write port: those that are given, else nets that are always 0.
fn port_or_idle(
    out: &mut Builder,
    port: Option<FileWrite>,
    bits: u32,
    width: u32,
) -> Result<FileWrite, NoMemory>
    requires fresh { CanFresh out.old }
    requires index { IsFit bits }
    requires value { IsFit width }
    ensures given { IfOk result (IsGiven bits width out.new port) }
    ensures reads { OnOk result (Reads [] out.old out.new) }
    ensures makes { OnOk result (Makes out.old out.new) }
{
    match port {
        Some(write) => Ok(write),
        None => {
            let idle = idle_write(out, bits, width)?;
            Ok(idle)
        }
    }
}

/// The nets of all write ports.
fn ports_or_idle(
    out: &mut Builder,
    ports: &[Option<FileWrite>],
    bits: u32,
    width: u32,
) -> Result<Items<FileWrite>, NoMemory>
    requires fresh { CanFresh out.old }
    requires index { IsFit bits }
    requires value { IsFit width }
    ensures given { IfOk result (EachPair (IsGiven bits width out.new) ports.now) }
    ensures reads { OnOk result (Reads [] out.old out.new) }
    ensures makes { OnOk result (Makes out.old out.new) }
{
    let mut made = Items::new(out.allocator());
    for port in ports {
        let write = port_or_idle(out, *port, bits, width)?;
        made.push(write)?;
    }
    Ok(made)
}

/// Places a register file with wires for the indices of its read ports, which are driven later. Its write ports are joined to the nets
/// that are given, which may be driven later; a port for which none are given has nets that are always 0. After an error the builder is
/// good for nothing but to be dropped.
pub fn bank_file(
    out: &mut Builder,
    file: &File,
    whole: &Module,
    ports: &[Option<FileWrite>],
) -> Result<FileNets, NoMemory>
    requires top { out.old.name ≡ codes "top" }
    requires fresh { CanFresh out.old }
    requires file { IsTrue (is_file_within file.now) }
    requires name { IsNew (file_part file.now) (names_of out.old) }
    requires whole { whole.now.ports ≡ file_ports file.now }
    requires ports { ArePorts file.now out.old.nets ports.now }
    ensures { IfOk result (λ made.
        BanksNew file.now whole.now ports.now made out.old out.new) }
{
    let bits = index_width(file);
    let indices = late_nets(out, file.reads, bits)?;
    let writes = ports_or_idle(out, ports, bits, file.width)?;
    let shown = place_file(out, file, whole, indices.as_slice(), writes.as_slice())?;
    Ok(FileNets { indices, shown })
}
