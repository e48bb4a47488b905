//! The data of all stages of a design, one after another in one module.
ghost use Rattle.std.specs.Prelude.{◌≡◌, ◌-◌, codes, IfOk, length};
ghost use Rattle.std.specs.List.{AllByRecursion as Each};
ghost use Rattle.ap_desc.specs.Clean.{IsClean};
ghost use Rattle.ap_merge.specs.Choices.{AreChoices};
ghost use Rattle.ap_net.specs.Draft.{CanFresh};
ghost use Rattle.ap_path.specs.Tables.{ArePathsOf};
ghost use Rattle.ap_pipe.specs.Slots.{AreSlotsOf};
ghost use Rattle.ap_stages.specs.Begun.{AreShared};
ghost use Rattle.ap_stages.specs.Stages.{AreAllNets, AreStaged, IsLowStage};
ghost use Rattle.ap_stages.specs.Stood.{AreApartSupplies, AreStanding};

use crate::begin::{SharedNets, StageNets};
use crate::nodes::Supplied;
use crate::stage::{ServedStage, make_stage};
use ap_bits::NoMemory;
use ap_desc::design::Design;
use ap_merge::Choice;
use ap_net::builder::Builder;
use ap_net::module::Module;
use ap_path::PathTable;
use ap_pipe::SlotTable;

/// Makes the data of all stages of the design, from stage 1 on: `table` has the slots of each, `paths` the order of its nodes, `own` its
/// nets. `choices` are those of the paths, and `supplies` has with what each node of the design is served. After an error the builder is
/// good for nothing but to be dropped.
pub fn make_stages(
    out: &mut Builder,
    design: &Design,
    table: &SlotTable,
    paths: &PathTable,
    choices: &[Choice],
    supplies: &[Supplied],
    modules: &[Module],
    shared: &SharedNets,
    own: &[StageNets],
) -> Result<Vec<ServedStage>, NoMemory>
    requires top { out.old.name ≡ codes "top" }
    requires fresh { CanFresh out.old }
    requires clean { IsClean design.now }
    requires slots { AreSlotsOf design.now table.now }
    requires paths { ArePathsOf design.now paths.now }
    requires choices { AreChoices paths.now.uses choices.now }
    requires stand { Each (AreStanding design.now out.old modules.now supplies.now)
        paths.now.orders }
    requires apart { AreApartSupplies supplies.now }
    requires shared { AreShared design.now out.old.nets shared.now }
    requires many { length own.now ≡ design.now.stages - 1 }
    requires own { AreAllNets design.now out.old table.now.stages own.now }
    requires low { Each (IsLowStage out.old shared.now) own.now }
    ensures long { IfOk result (λ made. length made.items ≡ design.now.stages - 1) }
    ensures staged { IfOk result (λ made. AreStaged design.now table.now.stages choices.now
        supplies.now paths.now.orders modules.now shared.now own.now out.old out.new made.items) }
{
    let tables = table.stages.as_slice();
    let orders = paths.orders.as_slice();
    let mut made = Vec::new(out.allocator());
    for place in 0..own.len() {
        let stage = make_stage(
            out,
            design,
            place as u32 + 1,
            &tables[place],
            choices,
            orders[place].as_slice(),
            supplies,
            modules,
            shared,
            &own[place],
        )?;
        made.push(stage)?;
    }
    Ok(made)
}
