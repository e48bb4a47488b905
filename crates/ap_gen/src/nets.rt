//! The nets that all stages of `top` read.
ghost use Rattle.std.specs.Prelude.{IfOk};
ghost use Rattle.ap_staged.specs.Grounds.{AreSharedOf};

use ap_bits::{Items, NoMemory};
use ap_front::ports::Ports;
use ap_net::cell::Wire;
use ap_stages::begin::SharedNets;
use std::alloc::Global;

/// The nets that all stages read: the registers of the description and its input ports.
pub(crate) fn shared_nets(
    alloc: Global,
    regs: &[Wire],
    ports: &Ports,
) -> Result<SharedNets, NoMemory>
    ensures { IfOk result (AreSharedOf regs.now ports.now) }
{
    let regs = Items::copy_of(alloc, regs)?;
    let inputs = Items::copy_of(alloc, ports.inputs.as_slice())?;
    Ok(SharedNets { regs, inputs })
}
