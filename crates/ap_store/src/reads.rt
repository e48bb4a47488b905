//! Read ports: a balanced tree over the bits of the index chooses among the cells.
ghost use Rattle.std.specs.Prelude.{◌≡◌, ℕ, ◌<◌, ◌++◌, OnOk, IsTrue};
ghost use Rattle.std.specs.List.{AllByRecursion as Each, flat_map, range_with_len};
ghost use Rattle.ap_desc.specs.Designs.{is_file_within};
ghost use Rattle.ap_net.specs.Names.{IsNew};
ghost use Rattle.ap_net.specs.Modules.{ports_among};
ghost use Rattle.ap_net.specs.Draft.{CanFresh, names_of};
ghost use Rattle.ap_store.specs.FilePorts.{read_ports};
ghost use Rattle.ap_store.specs.Building.{Grows, IsRead, StartsWithCells, cell_wires, names_below, read_names, with_cells};

use crate::shape::index_width;
use ap_bits::NoMemory;
use ap_comb::select::select;
use ap_desc::design::File;
use ap_net::builder::Builder;
use ap_net::cell::{Cell, Wire};

/// Adds a read port: its index, and the cell at it.
fn add_read(out: &mut Builder, file: &File, cells: &[Wire], number: u32) -> Result<(), NoMemory>
    requires file { IsTrue (is_file_within file.now) }
    requires number { number < 4 }
    requires cells { cells.now ≡ cell_wires file.now.width file.now.cells }
    requires there { StartsWithCells out.old file.now }
    requires fresh { CanFresh out.old }
    requires names { Each (λ name. IsNew name (names_of out.old)) (read_names number) }
    ensures read { OnOk result (IsRead out.new file.now number) }
    ensures ports { OnOk result (ports_among out.new.nets
        ≡ ports_among out.old.nets ++ read_ports file.now number) }
    ensures grows { OnOk result (Grows (read_names number) out.old out.new) }
{
    let alloc = out.allocator();
    let name = format!(in alloc; "r{number}_x")?;
    let index = out.input(name.as_bytes(), index_width(file))?;
    let value = select(out, index, cells, file.width)?;
    let name = format!(in alloc; "r{number}_y")?;
    out.show(name.as_bytes(), file.width, Cell::Copy(value))?;
    Ok(())
}

/// Adds the read ports, after the cells.
pub(crate) fn add_reads(out: &mut Builder, file: &File, cells: &[Wire]) -> Result<(), NoMemory>
    requires file { IsTrue (is_file_within file.now) }
    requires cells { cells.now ≡ cell_wires file.now.width file.now.cells }
    requires new { out.old ≡ with_cells out.old.name file.now file.now.cells }
    requires fresh { CanFresh out.old }
    ensures reads { OnOk result ((port : ℕ) → port < file.now.reads → IsRead out.new file.now port) }
    ensures ports { OnOk result (ports_among out.new.nets
        ≡ flat_map (read_ports file.now) (range_with_len 0 file.now.reads)) }
    ensures grows { OnOk result (Grows (names_below read_names file.now.reads) out.old out.new) }
{
    for number in 0..file.reads {
        add_read(out, file, cells, number)?;
    }
    Ok(())
}
