//! What the stages write, and the transfer.
ghost use Rattle.std.specs.Prelude.{IfOk};
ghost use Rattle.ap_desc.specs.Clean.{IsClean};
ghost use Rattle.ap_gen.specs.Started.{KnowsParts};
ghost use Rattle.ap_gen.specs.Tables.{AreTablesOf};
ghost use Rattle.ap_gen.specs.Tops.{HasActs, HasRests};

use crate::data::Data;
use crate::start::Start;
use crate::tables::Tables;
use ap_act::transfer::transfer_taken;
use ap_act::write::write_all;
use ap_bits::NoMemory;
use ap_desc::design::Design;
use ap_net::builder::Builder;
use ap_net::cell::Wire;
use ap_parts::modules::Parts;

/// What the lines of all stages write is shown at the outputs of `top`, and the transfer is made. It answers the transfer's target. After an
/// error the builder is good for nothing but to be dropped.
pub fn act_top(
    design: &Design,
    tables: &Tables,
    parts: &Parts,
    start: &Start,
    made: &Data,
    out: &mut Builder,
) -> Result<Wire, NoMemory>
    requires clean { IsClean design.now }
    requires tables { AreTablesOf design.now tables.now }
    requires parts { KnowsParts design.now parts.now.modules.items parts.now.units parts.now.kinds }
    requires rests { HasRests design.now tables.now parts.now.modules.items parts.now.units
        start.now made.now out.old }
    ensures { IfOk result (λ target. HasActs design.now tables.now parts.now.modules.items
        parts.now.units start.now made.now target out.new) }
{
    let _ = tables;
    let _ = parts;
    let control = &start.work.nets;
    let stages = made.stages.as_slice();
    write_all(
        out,
        design,
        &start.lead.declared.ports,
        control.fires.as_slice(),
        stages,
    )?;
    let taken = start.work.taken;
    let target = transfer_taken(out, design, control.valid.as_slice(), stages, taken)?;
    Ok(target)
}
