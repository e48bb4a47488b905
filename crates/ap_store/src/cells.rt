//! The cells: a register for each of them.
ghost use Rattle.std.specs.Prelude.{◌≡◌, [], IfOk, OnOk, IsTrue, length};
ghost use Rattle.std.specs.List.{AllByRecursion as Each, range_with_len};
ghost use Rattle.ap_desc.specs.Designs.{is_file_within};
ghost use Rattle.ap_net.specs.Wiring.{NextFits};
ghost use Rattle.ap_net.specs.Draft.{CanFresh};
ghost use Rattle.ap_net.specs.Ready.{numbers};
ghost use Rattle.ap_unit.specs.Built.{IsBlank};
ghost use Rattle.ap_store.specs.Writers.{paired};
ghost use Rattle.ap_store.specs.Building.{cell_wires, with_cells};

use ap_bits::NoMemory;
use ap_desc::design::File;
use ap_net::builder::Builder;
use ap_net::cell::Wire;

/// Declares the cells in a new builder.
pub(crate) fn declare_cells(out: &mut Builder, file: &File) -> Result<Vec<Wire>, NoMemory>
    requires file { IsTrue (is_file_within file.now) }
    requires new { IsBlank out.old }
    ensures ok { OnOk result (out.new ≡ with_cells out.old.name file.now file.now.cells) }
    ensures cells { IfOk result (λ cells. cells.items ≡ cell_wires file.now.width file.now.cells) }
    ensures fresh { OnOk result (CanFresh out.new) }
{
    let alloc = out.allocator();
    let mut cells = Vec::new(alloc);
    for index in 0..file.cells {
        let name = format!(in alloc; "c{index}")?;
        let cell = out.register(name.as_bytes(), file.width, 0)?;
        cells.push(cell)?;
    }
    Ok(cells)
}

/// Says of each cell which net it takes at the edge.
pub(crate) fn drive_cells(out: &mut Builder, cells: &[Wire], next: &[Wire]) -> Result<(), NoMemory>
    requires new { out.old.nexts ≡ [] }
    requires long { length next.now ≡ length cells.now }
    requires numbers { numbers cells.now ≡ range_with_len 0 (length cells.now) }
    requires fits { Each (NextFits out.old.nets) (paired cells.now next.now) }
    ensures { OnOk result (out.new ≡ record out.old { nexts = paired cells.now next.now }) }
{
    for (index, cell) in cells.iter().enumerate() {
        out.next(*cell, next[index])?;
    }
    Ok(())
}
