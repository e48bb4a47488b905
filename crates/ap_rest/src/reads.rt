//! Nets of `top` that no line drives: the indices of read ports, and the outputs at which a memory is written. They are always 0.
ghost use Rattle.std.specs.Prelude.{◌≡◌, ◌≤◌, ◌<◌, ◌∷◌, [], ◌++◌, OnOk, IfOk, length};
ghost use Rattle.std.specs.List.{AllByRecursion as Each};
ghost use Rattle.ap_desc.specs.Clean.{IsClean};
ghost use Rattle.ap_net.specs.Draft.{CanFresh};
ghost use Rattle.ap_bank.specs.Joins.{AreLate};
ghost use Rattle.ap_rest.specs.Reads.{HaveIndices, HasFewIndices, RestsLate, idle_indices, idle_of_files, idle_of_mems, idle_reads, idle_writes, unless_used};

use crate::uses::is_port_used;
use ap_bank::bank::FileNets;
use ap_bank::join::rest_all;
use ap_bits::{Items, NoMemory};
use ap_desc::design::Design;
use ap_front::ports::MemPorts;
use ap_net::builder::Builder;
use ap_net::cell::Wire;
use ap_path::PathPort;
use std::alloc::Global;

/// Adds the net, unless the port is used to which it belongs.
fn add_unless(nets: &mut Items<Wire>, used: bool, net: Wire) -> Result<(), NoMemory>
    ensures { OnOk result (nets.new ≡ nets.old ++ unless_used used (net ∷ [])) }
{
    if !used {
        nets.push(net)?;
    }
    Ok(())
}

/// Adds those indices at the read ports of a file that no line uses.
fn add_idle_indices(
    nets: &mut Items<Wire>,
    design: &Design,
    file: u32,
    indices: &[Wire],
) -> Result<(), NoMemory>
    requires few { length indices.now ≤ 4 }
    ensures { OnOk result (nets.new ≡ nets.old ++ idle_indices design.now file 0 indices.now) }
{
    for (place, index) in indices.iter().enumerate() {
        let port = place as u32;
        let used = is_port_used(design, PathPort::FileRead { file, port });
        add_unless(nets, used, *index)?;
    }
    Ok(())
}

/// Adds those indices at the read ports of files that no line uses.
fn add_idle_files(
    nets: &mut Items<Wire>,
    design: &Design,
    files: &[FileNets],
) -> Result<(), NoMemory>
    requires many { length files.now ≤ 8 }
    requires few { Each HasFewIndices files.now }
    ensures { OnOk result (nets.new ≡ nets.old ++ idle_of_files design.now 0 files.now) }
{
    for (file, ports) in files.iter().enumerate() {
        add_idle_indices(nets, design, file as u32, ports.indices.as_slice())?;
    }
    Ok(())
}

/// Adds the read addresses of the memories that no line reads.
fn add_idle_mems(nets: &mut Items<Wire>, design: &Design, mems: &[MemPorts]) -> Result<(), NoMemory>
    requires many { length mems.now ≤ 4 }
    ensures { OnOk result (nets.new ≡ nets.old ++ idle_of_mems design.now 0 mems.now) }
{
    for (mem, ports) in mems.iter().enumerate() {
        let used = is_port_used(design, PathPort::MemRead(mem as u32));
        add_unless(nets, used, ports.read_address)?;
    }
    Ok(())
}

/// The indices that no line drives.
fn idle_reads(
    alloc: Global,
    design: &Design,
    files: &[FileNets],
    mems: &[MemPorts],
) -> Result<Items<Wire>, NoMemory>
    requires files { length files.now ≤ 8 }
    requires few { Each HasFewIndices files.now }
    requires mems { length mems.now ≤ 4 }
    ensures { IfOk result (λ nets. nets ≡ idle_reads design.now files.now mems.now) }
{
    let mut nets = Items::new(alloc);
    add_idle_files(&mut nets, design, files)?;
    add_idle_mems(&mut nets, design, mems)?;
    Ok(nets)
}

/// Adds the three nets, unless the port is used to which they belong.
fn add_write_unless(nets: &mut Items<Wire>, used: bool, port: MemPorts) -> Result<(), NoMemory>
    ensures { OnOk result (nets.new
        ≡ nets.old ++ unless_used used (port.enable ∷ port.address ∷ port.value ∷ [])) }
{
    add_unless(nets, used, port.enable)?;
    add_unless(nets, used, port.address)?;
    add_unless(nets, used, port.value)?;
    Ok(())
}

/// The outputs at which the memories are written that no line writes.
fn idle_writes(alloc: Global, design: &Design, mems: &[MemPorts]) -> Result<Items<Wire>, NoMemory>
    requires many { length mems.now ≤ 4 }
    ensures { IfOk result (λ nets. nets ≡ idle_writes design.now 0 mems.now) }
{
    let mut nets = Items::new(alloc);
    for (mem, ports) in mems.iter().enumerate() {
        let used = is_port_used(design, PathPort::MemWrite(mem as u32));
        add_write_unless(&mut nets, used, *ports)?;
    }
    Ok(nets)
}

/// Drives the index at each read port of a file that no line uses, and the read address of each memory that no line reads, by the constant
/// 0. `files` has the nets at the read ports of the design's files, `mems` the ports of its memories. After an error the builder is good for
/// nothing but to be dropped.
pub fn rest_reads(
    out: &mut Builder,
    design: &Design,
    files: &[FileNets],
    mems: &[MemPorts],
) -> Result<(), NoMemory>
    requires clean { IsClean design.now }
    requires fresh { CanFresh out.old }
    requires files { HaveIndices design.now files.now }
    requires mems { length mems.now ≡ length design.now.mems }
    requires late { AreLate out.old (idle_reads design.now files.now mems.now) }
    ensures { OnOk result
        (RestsLate (idle_reads design.now files.now mems.now) out.old out.new) }
{
    let nets = idle_reads(out.allocator(), design, files, mems)?;
    rest_all(out, nets.as_slice())?;
    Ok(())
}

/// Drives the outputs at which a memory is written, of each memory that no line writes, by the constant 0. `mems` has the ports of the
/// design's memories. After an error the builder is good for nothing but to be dropped.
pub fn rest_outputs(out: &mut Builder, design: &Design, mems: &[MemPorts]) -> Result<(), NoMemory>
    requires clean { IsClean design.now }
    requires fresh { CanFresh out.old }
    requires mems { length mems.now ≡ length design.now.mems }
    requires late { AreLate out.old (idle_writes design.now 0 mems.now) }
    ensures { OnOk result (RestsLate (idle_writes design.now 0 mems.now) out.old out.new) }
{
    let nets = idle_writes(out.allocator(), design, mems)?;
    rest_all(out, nets.as_slice())?;
    Ok(())
}
