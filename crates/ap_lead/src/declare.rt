//! What stands first in a processor's `top`: its ports, the pc and the registers of the stages, and the registers of the description.
ghost use Rattle.std.specs.Prelude.{◌≡◌, IfOk, codes};
ghost use Rattle.ap_desc.specs.Clean.{IsClean};
ghost use Rattle.ap_net.specs.Draft.{blank};
ghost use Rattle.ap_pipe.specs.Slots.{AreSlotsOf};
ghost use Rattle.ap_lead.specs.Declaring.{Declares};

use ap_bank::regs::declare_regs;
use ap_bits::{Items, NoMemory};
use ap_desc::design::Design;
use ap_front::laws::names_are_new;
use ap_front::ports::{Ports, declare_ports};
use ap_front::registers::{Registers, declare_registers};
use ap_net::builder::Builder;
use ap_net::cell::Wire;
use ap_pipe::SlotTable;

/// The nets of `top` that are declared by their names.
#[derive(Drop)]
pub struct Declared {
    /// The ports.
    pub ports: Ports,
    /// The pc and the registers of the stages.
    pub front: Registers,
    /// The registers of the description, in order.
    pub regs: Items<Wire>,
}

/// Declares all ports of `top`, the pc, the registers of the stages, and those of the description, in a builder that has nothing but its
/// name. Outputs are driven later, and no register takes anything yet. After an error the builder is good for nothing but to be dropped.
pub fn declare(design: &Design, slots: &SlotTable, out: &mut Builder) -> Result<Declared, NoMemory>
    requires clean { IsClean design.now }
    requires slots { AreSlotsOf design.now slots.now }
    requires empty { out.old ≡ blank (codes "top") }
    ensures { IfOk result (λ made. Declares design.now slots.now.stages made out.new) }
{
    names_are_new();
    let ports = declare_ports(design, out)?;
    let front = declare_registers(design, slots, out)?;
    let regs = declare_regs(design, out)?;
    Ok(Declared { ports, front, regs })
}
