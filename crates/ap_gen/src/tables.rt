//! The tables of a description on which its `top` stands.
ghost use Rattle.std.specs.Prelude.{IfOk};
ghost use Rattle.ap_desc.specs.Clean.{IsClean};
ghost use Rattle.ap_gen.specs.Tables.{AreTablesOf};

use ap_bits::NoMemory;
use ap_desc::design::Design;
use ap_merge::{Merged, merge};
use ap_path::{PathTable, paths};
use ap_pipe::{SlotTable, slots};
use std::alloc::Global;

/// Which port each line uses, in which order each stage's nodes are computed, what is selected for each operand, and in which slots locals go
/// from stage to stage.
#[derive(Drop)]
pub struct Tables {
    pub paths: PathTable,
    pub merged: Merged,
    pub slots: SlotTable,
}

/// The tables of a description.
pub fn tables_of(alloc: Global, design: &Design) -> Result<Tables, NoMemory>
    requires { IsClean design.now }
    ensures { IfOk result (AreTablesOf design.now) }
{
    let paths = paths(alloc, design)?;
    let merged = merge(alloc, design, &paths)?;
    let slots = slots(alloc, design, &paths)?;
    Ok(Tables {
        paths,
        merged,
        slots,
    })
}
