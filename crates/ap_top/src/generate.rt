ghost use Rattle.std.specs.Prelude.{OnOk, IfErr};
ghost use Rattle.ap_desk.specs.Files.{Goes, IsFileName};
ghost use Rattle.ap_unit.specs.Shelves.{cards_of};
ghost use Rattle.ap_top.specs.Generate.{gen_sources, gen_targets};
ghost use Rattle.ap_top.specs.Inputs.{FailsOn};
ghost use Rattle.ap_top.specs.Outputs.{FromGood, Writes};
ghost use Rattle.ap_top.specs.Troubles.{IsCaused, StopsOn, desk_stop};

use crate::addition::find_addition;
use crate::design::processor;
use crate::form::judge;
use crate::refusal::Stop;
use crate::streaming::write_netlist;
use ap_desk::desk::Desk;
use ap_desk::pieces::read_all;
use ap_read::DESCRIPTION_LIMIT;
use ap_unit::{Shelf, UnitKind};
use std::alloc::Global;

/// Reads the description, judges it, and writes the processor in Verilog, whose text is appended as it is printed.
pub(crate) fn generate<D: Desk>(
    alloc: Global,
    description: &str,
    verilog: &str,
    shelf: &Shelf,
    desk: &mut D,
) -> Result<(), Stop>
    requires description { IsFileName description.now }
    requires verilog { IsFileName verilog.now }
    ensures done { let cards = cards_of card shelf.now in
        let step = FromGood cards Writes (gen_sources description.now) (gen_targets verilog.now) in
        OnOk result (Goes step (D.files desk.old) (D.files desk.new)) }
    ensures stopped { let cards = cards_of card shelf.now in
        let stops = StopsOn cards (gen_sources description.now) (gen_targets verilog.now) in
        IfErr result (stops (D.files desk.old) (D.files desk.new)) }
    ensures cause { let cards = cards_of card shelf.now in
        let fails = FailsOn cards (gen_sources description.now) (D.files desk.old) in
        IsCaused desk_stop fails (D.counts desk.old) (D.counts desk.new) result }
{
    let text = read_all(alloc, desk, description, DESCRIPTION_LIMIT)?;
    let form = judge(alloc, &text, shelf)?;
    let addition = find_addition(shelf, form.width).unwrap();
    let kind = shelf.kind(addition.place);
    let netlist = processor(alloc, &form, kind, addition.number)?;
    write_netlist(alloc, desk, verilog, &netlist)?;
    Ok(())
}
