ghost use Rattle.std.specs.Prelude.{IfOk};
ghost use Rattle.ap_net.specs.Text.{netlist_text};
ghost use Rattle.ap_top.specs.Additions.{IsQuick};
ghost use Rattle.ap_top.specs.Form.{IsForm};
ghost use Rattle.ap_top.specs.DesignText.{IsDesignText};

use crate::form::Form;
use crate::machine::two_stage;
use ap_bits::NoMemory;
use ap_net::module::Netlist;
use ap_unit::UnitKind;
use std::alloc::Global;

/// The processor of a form, where the unit is of this kind, whose operation of this number adds.
pub fn processor(
    alloc: Global,
    form: &Form,
    kind: &dyn UnitKind,
    add: u32,
) -> Result<Netlist, NoMemory>
    requires form { IsForm form.now }
    requires quick { IsQuick (record { card = card kind.now; number = add }) form.now.width }
    ensures { IfOk result (λ net. IsDesignText (record { card = card kind.now; number = add }) form.now (netlist_text net)) }
{
    let netlist = two_stage(alloc, *form, kind, add)?;
    Ok(netlist)
}
