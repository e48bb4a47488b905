//! With what the read ports of files and the reads of memories are served.
ghost use Rattle.std.specs.Prelude.{◌≡◌, ◌<◌, ◌≤◌, OnOk, Some, length, slice_get};
ghost use Rattle.ap_desc.specs.declared.design.File.{File};
ghost use Rattle.ap_desc.specs.Clean.{IsClean};
ghost use Rattle.ap_supply.specs.Listing.{HaveReadNets, IsFileNumber, IsMemBy, IsMemEntry, IsMemNumber, IsReadBy, IsReadEntry, IsReadNumber, Lists};

use ap_bank::bank::FileNets;
use ap_bits::{Items, NoMemory};
use ap_desc::design::Design;
use ap_front::ports::MemPorts;
use ap_net::cell::Wire;
use ap_stages::nodes::{Supplied, Supply};

/// The wire of a place.
fn wire_at(wires: &[Wire], place: usize) -> Wire
    requires { place < length wires.now }
    ensures { slice_get wires.now place ≡ Some result }
{
    wires[place]
}

/// With what a read port of a file is served: the nets that were made for it.
fn read_entry(nets: &FileNets, file: usize, port: usize) -> Supplied
    requires file { file < 8 }
    requires port { port < 4 }
    requires index { port < length nets.now.indices }
    requires value { port < length nets.now.shown }
    ensures { IsReadBy nets.now file port result }
{
    let index = wire_at(nets.indices.as_slice(), port);
    let value = wire_at(nets.shown.as_slice(), port);
    Supplied {
        number: 32 + 4 * file as u32 + port as u32,
        supply: Supply::Read { index, value },
    }
}

/// The nets of the file of a place.
fn nets_at(files: &[FileNets], place: usize) -> &FileNets
    requires { place < length files.now }
    ensures { slice_get files.now place ≡ Some result.now }
{
    &files[place]
}

/// Lists with what the read ports of a file are served, in their order.
fn list_reads(
    design: &Design,
    files: &[FileNets],
    place: usize,
    made: &mut Items<Supplied>,
) -> Result<(), NoMemory>
    requires clean { IsClean design.now }
    requires nets { HaveReadNets design.now files.now }
    requires there { place < length files.now }
    requires few { place < 8 }
    ensures { OnOk result ((f : File) → slice_get design.now.files place ≡ Some f
        → Lists (IsReadEntry design.now files.now) (IsReadNumber place f.reads) made.old made.new) }
{
    let nets = nets_at(files, place);
    for port in 0..nets.indices.len() {
        let entry = read_entry(nets, place, port);
        made.push(entry)?;
    }
    Ok(())
}

/// Lists with what the read ports of all files are served, in their order.
pub(crate) fn list_files(
    design: &Design,
    files: &[FileNets],
    made: &mut Items<Supplied>,
) -> Result<(), NoMemory>
    requires clean { IsClean design.now }
    requires nets { HaveReadNets design.now files.now }
    ensures { OnOk result (Lists (IsReadEntry design.now files.now)
        (IsFileNumber design.now (length design.now.files)) made.old made.new) }
{
    for place in 0..files.len() {
        list_reads(design, files, place, made)?;
    }
    Ok(())
}

/// The ports of the memory of a place.
fn ports_at(mems: &[MemPorts], place: u32) -> MemPorts
    requires { place < length mems.now }
    ensures { slice_get mems.now place ≡ Some result }
{
    mems[place as usize]
}

/// With what the read of a memory is served: the ports at which it is read.
fn mem_entry(mems: &[MemPorts], mem: u32) -> Supplied
    requires few { mem < 4 }
    requires there { mem < length mems.now }
    ensures { IsMemBy mems.now mem result }
{
    let ports = ports_at(mems, mem);
    Supplied {
        number: 64 + mem,
        supply: Supply::Read {
            index: ports.read_address,
            value: ports.read,
        },
    }
}

/// Lists with what the reads of the memories are served, in their order.
pub(crate) fn list_mems(
    design: &Design,
    mems: &[MemPorts],
    made: &mut Items<Supplied>,
) -> Result<(), NoMemory>
    requires clean { IsClean design.now }
    requires count { length mems.now ≡ length design.now.mems }
    ensures { OnOk result (Lists (IsMemEntry design.now mems.now)
        (IsMemNumber (length design.now.mems)) made.old made.new) }
{
    for place in 0..mems.len() {
        let entry = mem_entry(mems, place as u32);
        made.push(entry)?;
    }
    Ok(())
}
