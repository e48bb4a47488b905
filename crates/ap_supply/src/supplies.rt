//! The list of what serves the nodes of a design.
ghost use Rattle.std.specs.Prelude.{◌≡◌, ◌<◌, ◌^◌, IfOk, length};
ghost use Rattle.std.specs.List.{AllByRecursion as Each};
ghost use Rattle.ap_desc.specs.Clean.{IsClean};
ghost use Rattle.ap_supply.specs.Listing.{HaveQuickModules, HaveReadNets, WerePlaced};
ghost use Rattle.ap_supply.specs.Supplies.{AreSupplied, AreSuppliesOf, IsEntry, placed_of};

use crate::reads::{list_files, list_mems};
use crate::units::list_units;
use ap_bank::bank::FileNets;
use ap_bits::{Items, NoMemory};
use ap_desc::design::Design;
use ap_front::ports::MemPorts;
use ap_net::module::Module;
use ap_slow::place::SlowPlaced;
use ap_stages::nodes::Supplied;
use std::alloc::Global;

/// With what the nodes of a design are served, by what was placed for them: units of one cycle by the places of their modules, of which `places`
/// has one for each unit; units of several cycles by the wires over which they were placed; read ports of files by the nets that were made for
/// them; the reads of memories by their ports. What is there for the number of a node is of the node, and for each node of the design there is
/// something.
pub fn supplies(
    alloc: Global,
    design: &Design,
    modules: &[Module],
    places: &[usize],
    slow: &[SlowPlaced],
    files: &[FileNets],
    mems: &[MemPorts],
) -> Result<Items<Supplied>, NoMemory>
    requires clean { IsClean design.now }
    requires few { length modules.now < 2 ^ 32 }
    requires quick { HaveQuickModules design.now modules.now places.now }
    requires slow { WerePlaced design.now slow.now }
    requires nets { HaveReadNets design.now files.now }
    requires mems { length mems.now ≡ length design.now.mems }
    ensures entries { IfOk result (Each (IsEntry design.now
        (placed_of modules.now places.now slow.now files.now mems.now))) }
    ensures of { IfOk result (AreSuppliesOf design.now
        (placed_of modules.now places.now slow.now files.now mems.now)) }
    ensures all { IfOk result (AreSupplied design.now) }
{
    let mut made = Items::new(alloc);
    list_units(design, modules, places, slow, &mut made)?;
    list_files(design, files, &mut made)?;
    list_mems(design, mems, &mut made)?;
    Ok(made)
}
