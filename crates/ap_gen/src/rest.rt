//! What no line uses, at rest.
ghost use Rattle.std.specs.Prelude.{OnOk};
ghost use Rattle.ap_desc.specs.Clean.{IsClean};
ghost use Rattle.ap_gen.specs.Started.{KnowsParts};
ghost use Rattle.ap_gen.specs.Tables.{AreTablesOf};
ghost use Rattle.ap_gen.specs.Tops.{HasRests, HasStages};

use crate::data::Data;
use crate::start::Start;
use crate::tables::Tables;
use ap_bits::NoMemory;
use ap_desc::design::Design;
use ap_net::builder::Builder;
use ap_parts::modules::Parts;
use ap_rest::idle::idle_units;
use ap_rest::reads::{rest_outputs, rest_reads};

/// Units of one cycle that no line uses are instances with their inputs at 0; read ports that none uses look at 0, and memories that none writes
/// are never written. After an error the builder is good for nothing but to be dropped.
pub fn rest_top(
    design: &Design,
    tables: &Tables,
    parts: &Parts,
    start: &Start,
    made: &Data,
    out: &mut Builder,
) -> Result<(), NoMemory>
    requires clean { IsClean design.now }
    requires tables { AreTablesOf design.now tables.now }
    requires parts { KnowsParts design.now parts.now.modules.items parts.now.units parts.now.kinds }
    requires stages { HasStages design.now tables.now parts.now.modules.items parts.now.units
        start.now made.now out.old }
    ensures { OnOk result (HasRests design.now tables.now parts.now.modules.items parts.now.units
        start.now made.now out.new) }
{
    let _ = tables;
    let _ = made;
    idle_units(
        out,
        design,
        parts.modules.as_slice(),
        parts.units.as_slice(),
    )?;
    let mems = start.lead.declared.ports.mems.as_slice();
    rest_reads(out, design, start.lead.files.as_slice(), mems)?;
    rest_outputs(out, design, mems)?;
    Ok(())
}
