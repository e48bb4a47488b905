//! Register files: instances that are placed over nets that may be driven later.
ghost use Rattle.std.specs.Prelude.{◌≡◌, ◌≤◌, [], IfOk, OnOk, codes};
ghost use Rattle.ap_net.specs.Draft.{CanFresh, names_of};
ghost use Rattle.ap_net.specs.Late.{Reads};
ghost use Rattle.ap_net.specs.Making.{Makes};
ghost use Rattle.ap_net.specs.Names.{IsNew};
ghost use Rattle.ap_net.specs.Pending.{Yields};
ghost use Rattle.ap_net.specs.Readings.{Carries};
ghost use Rattle.ap_signals.specs.NetRuns.{file_part};
ghost use Rattle.ap_store.specs.FilePorts.{file_ports};
ghost use Rattle.ap_bank.specs.Placed.{AreFileNets, IsFit, IsIdle, PlacesFile, file_inputs};

use ap_bits::{Items, NoMemory};
use ap_desc::design::File;
use ap_net::builder::Builder;
use ap_net::cell::{Cell, Wire};
use ap_net::module::Module;
use std::alloc::Global;

/// The nets of a write port of a file.
#[derive(Clone, Copy, Debug, PartialEq, Eq)]
pub struct FileWrite {
    /// One bit: something is written at the edge.
    pub enable: Wire,
    /// The cell to which it is written, with the bits of an index.
    pub index: Wire,
    /// What is written, with the bits of a cell.
    pub value: Wire,
}

/// A net that is always 0: an index of a read port that nobody uses.
pub fn zero(out: &mut Builder, width: u32) -> Result<Wire, NoMemory>
    requires fresh { CanFresh out.old }
    requires low { 1 ≤ width }
    requires high { width ≤ 64 }
    ensures zero { IfOk result (Carries out.new width (λ r x. x ≡ 0)) }
    ensures yields { IfOk result (Yields [] out.old out.new) }
    ensures makes { OnOk result (Makes out.old out.new) }
{
    let net = out.make(width, Cell::Const(0))?;
    Ok(net)
}

/// The nets of a write port that nobody uses, with the bits of an index and of a cell: they are always 0.
pub fn idle_write(out: &mut Builder, bits: u32, width: u32) -> Result<FileWrite, NoMemory>
    requires fresh { CanFresh out.old }
    requires index { IsFit bits }
    requires value { IsFit width }
    ensures idle { IfOk result (IsIdle bits width out.new) }
    ensures reads { OnOk result (Reads [] out.old out.new) }
    ensures makes { OnOk result (Makes out.old out.new) }
{
    let enable = zero(out, 1)?;
    let index = zero(out, bits)?;
    let value = zero(out, width)?;
    Ok(FileWrite {
        enable,
        index,
        value,
    })
}

/// The nets at the inputs of a file's module, in order.
fn inputs(alloc: Global, reads: &[Wire], writes: &[FileWrite]) -> Result<Items<Wire>, NoMemory>
    ensures { IfOk result (λ list. list ≡ file_inputs reads.now writes.now) }
{
    let mut list = Items::copy_of(alloc, reads)?;
    for write in writes {
        list.push(write.enable)?;
        list.push(write.index)?;
        list.push(write.value)?;
    }
    Ok(list)
}

/// Places a register file: an instance of its module, named `f_` and the file's name, over an index for each read port and the three nets
/// of each write port, which may all be driven later. Answers the nets that show what the read ports read. After an error the builder is
/// good for nothing but to be dropped.
pub fn place_file(
    out: &mut Builder,
    file: &File,
    whole: &Module,
    reads: &[Wire],
    writes: &[FileWrite],
) -> Result<Items<Wire>, NoMemory>
    requires top { out.old.name ≡ codes "top" }
    requires fresh { CanFresh out.old }
    requires name { IsNew (file_part file.now) (names_of out.old) }
    requires ports { whole.now.ports ≡ file_ports file.now }
    requires given { AreFileNets file.now out.old.nets reads.now writes.now }
    ensures { IfOk result (λ values.
        PlacesFile file.now whole.now reads.now writes.now values out.old out.new) }
{
    let alloc = out.allocator();
    let name = format!(in alloc; "f_{}", file.name.as_str())?;
    let inputs = inputs(alloc, reads, writes)?;
    let values = out.place(name.as_bytes(), whole, inputs.as_slice())?;
    Ok(values)
}
