//! The data of the stages of `top`, with what serves the nodes of the description.
ghost use Rattle.std.specs.Prelude.{IfOk};
ghost use Rattle.ap_desc.specs.Clean.{IsClean};
ghost use Rattle.ap_gen.specs.Started.{KnowsParts, Starts};
ghost use Rattle.ap_gen.specs.Tables.{AreTablesOf};
ghost use Rattle.ap_gen.specs.Tops.{HasStages};

use crate::nets::shared_nets;
use crate::start::Start;
use crate::tables::Tables;
use ap_bits::{Items, NoMemory};
use ap_desc::design::Design;
use ap_net::builder::Builder;
use ap_parts::modules::Parts;
use ap_stages::begin::{SharedNets, StageNets};
use ap_stages::nodes::Supplied;
use ap_stages::own::nets_of_stages;
use ap_stages::stage::ServedStage;
use ap_stages::stages::make_stages;
use ap_supply::supplies::supplies;

/// The data of the stages, and over what they were made.
#[derive(Drop)]
pub struct Data {
    pub supplies: Items<Supplied>,
    pub shared: SharedNets,
    pub own: Vec<StageNets>,
    /// The stages from 1 on.
    pub stages: Vec<ServedStage>,
}

/// The data of all stages, from 1 on.
pub fn data_top(
    design: &Design,
    tables: &Tables,
    parts: &Parts,
    start: &Start,
    out: &mut Builder,
) -> Result<Data, NoMemory>
    requires clean { IsClean design.now }
    requires tables { AreTablesOf design.now tables.now }
    requires parts { KnowsParts design.now parts.now.modules.items parts.now.units parts.now.kinds }
    requires starts { Starts design.now tables.now.slots parts.now.modules.items parts.now.units
        start.now out.old }
    ensures { IfOk result (λ made. HasStages design.now tables.now parts.now.modules.items
        parts.now.units start.now made out.new) }
{
    let alloc = out.allocator();
    let Start { lead, work } = start;
    let ports = &lead.declared.ports;
    let front = &lead.declared.front;
    let modules = parts.modules.as_slice();
    let supplies = supplies(
        alloc,
        design,
        modules,
        parts.units.as_slice(),
        work.units.as_slice(),
        lead.files.as_slice(),
        ports.mems.as_slice(),
    )?;
    let shared = shared_nets(alloc, lead.declared.regs.as_slice(), ports)?;
    let decoded = work.nets.decoded.as_slice();
    let own = nets_of_stages(alloc, front.stages.as_slice(), decoded)?;
    let stages = make_stages(
        out,
        design,
        &tables.slots,
        &tables.paths,
        tables.merged.choices.as_slice(),
        supplies.as_slice(),
        modules,
        &shared,
        own.as_slice(),
    )?;
    Ok(Data {
        supplies,
        shared,
        own,
        stages,
    })
}
