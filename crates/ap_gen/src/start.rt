//! The first two parts of `top`: ports, registers and files; units of several cycles and control.
ghost use Rattle.std.specs.Prelude.{◌≡◌, ◌≤◌, IfOk, codes, drop, length};
ghost use Rattle.ap_desc.specs.Clean.{IsClean};
ghost use Rattle.ap_net.specs.Draft.{blank};
ghost use Rattle.ap_pipe.specs.Slots.{AreSlotsOf};
ghost use Rattle.ap_gen.specs.Started.{KnowsParts, Starts};

use crate::laws::top_can_start;
use ap_bits::NoMemory;
use ap_desc::design::Design;
use ap_lead::laws::files_are_known;
use ap_lead::store::{Lead, make_lead};
use ap_net::builder::Builder;
use ap_net::module::Module;
use ap_parts::modules::Parts;
use ap_pipe::SlotTable;
use ap_work::work::{Work, make_control};

/// The first two parts of `top`.
#[derive(Drop)]
pub struct Start {
    pub lead: Lead,
    pub work: Work,
}

/// The modules of the files, which stand behind those of the kinds.
fn file_modules(parts: &Parts) -> &[Module]
    requires { parts.now.kinds ≤ length parts.now.modules.items }
    ensures { result.now ≡ drop parts.now.kinds parts.now.modules.items }
{
    &parts.modules[parts.kinds..]
}

/// The first two parts of `top`, in a builder that has nothing but its name: its ports and registers, its files, its units of several cycles,
/// and control. After an error the builder is good for nothing but to be dropped.
pub fn start_top(
    design: &Design,
    slots: &SlotTable,
    parts: &Parts,
    out: &mut Builder,
) -> Result<Start, NoMemory>
    requires clean { IsClean design.now }
    requires slots { AreSlotsOf design.now slots.now }
    requires parts { KnowsParts design.now parts.now.modules.items parts.now.units parts.now.kinds }
    requires empty { out.old ≡ blank (codes "top") }
    ensures { IfOk result (λ made. Starts design.now slots.now parts.now.modules.items parts.now.units made out.new) }
{
    files_are_known();
    top_can_start();
    let files = file_modules(parts);
    let lead = make_lead(design, slots, files, out)?;
    let front = &lead.declared.front;
    let ports = &lead.declared.ports;
    let modules = parts.modules.as_slice();
    let places = parts.units.as_slice();
    let work = make_control(design, front, ports, modules, places, out)?;
    Ok(Start { lead, work })
}
