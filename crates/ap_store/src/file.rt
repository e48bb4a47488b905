//! The module of a register file.
ghost use Rattle.std.specs.Prelude.{◌≡◌, ◌<◌, All, IfOk, IsTrue, OnOk, length};
ghost use Rattle.ap_desc.specs.Designs.{is_file_within};
ghost use Rattle.ap_unit.specs.Built.{IsBlank};
ghost use Rattle.ap_store.specs.Cells.{CellsGoAlone};
ghost use Rattle.ap_store.specs.FilePorts.{file_module_name};
ghost use Rattle.ap_store.specs.FileModules.{FilesDepend, IsFile, IsFileDraft};

use crate::cells::{declare_cells, drive_cells};
use crate::reads::add_reads;
use crate::writes::{declare_writes, next_cells};
use ap_bits::NoMemory;
use ap_desc::design::File;
use ap_net::builder::Builder;
use ap_net::module::Module;
use std::alloc::Global;

/// Builds a register file in a new builder, which may be finished afterwards. Its ports, after `clk` and `rst`, are for each
/// read port N the input `rN_x` and the output `rN_y`, then for each write port N the inputs `wN_e`, `wN_x` and `wN_v`; its
/// cells are the registers `c0`, `c1` and so on, which are 0 after reset. `stages` has for each write port the stage in which
/// it is used, and 0 for one that no line uses, which costs no gate.
///
/// A read port shows the cell at its index as it is before the edge. At the edge the cells take the cycle's writes: of two to
/// one cell that of the earlier stage stands, which is the younger instruction's, and within a stage that of the higher port
/// number. After an error the builder is good for nothing but to be dropped.
pub fn build_file(out: &mut Builder, file: &File, stages: &[u32]) -> Result<(), NoMemory>
    requires new { IsBlank out.old }
    requires file { IsTrue (is_file_within file.now) }
    requires stages { length stages.now ≡ file.now.writes }
    requires range { All (λ stage. stage < 8) stages.now }
    ensures name { OnOk result (out.new.name ≡ out.old.name) }
    ensures file { OnOk result (IsFileDraft out.new file.now stages.now) }
{
    let cells = declare_cells(out, file)?;
    add_reads(out, file, &cells)?;
    let ports = declare_writes(out, file)?;
    let next = next_cells(out, &ports, stages, &cells, file.width)?;
    drive_cells(out, &cells, &next)?;
    out.rules();
    Ok(())
}

/// The module of a register file, as [`build_file`] builds it. Its name is `rf_` and the file's.
pub fn file_module(alloc: Global, file: &File, stages: &[u32]) -> Result<Module, NoMemory>
    requires file { IsTrue (is_file_within file.now) }
    requires stages { length stages.now ≡ file.now.writes }
    requires range { All (λ stage. stage < 8) stages.now }
    ensures name { IfOk result (λ m. m.name ≡ file_module_name file.now) }
    ensures file { IfOk result (λ m. IsFile m file.now stages.now) }
{
    let name = format!(in alloc; "rf_{}", file.name.as_str())?;
    let mut out = Builder::new(alloc, name.as_bytes())?;
    build_file(&mut out, file, stages)?;
    let whole = out.finish()?;
    whole.rules();
    Ok(whole)
}

/// What a read port of a file shows depends on the index of this port alone.
pub fn files_depend()
    ensures { FilesDepend }
{}

/// Each cell goes by itself: after writes, one after another, it has the value of the last one to it, or what it had.
pub fn cells_go_alone()
    ensures { CellsGoAlone }
{}
