//! Reads the text of a netlist and opens it.
ghost use Rattle.std.specs.Prelude.{IfErr, IfOk};
ghost use Rattle.ap_sim.specs.Runnable.{IsFlatOf, IsRunFault};

use crate::fault::RunFault;
use ap_flat::{Flat, flatten};
use ap_vr::read_back;
use std::alloc::Global;

/// Reads the text of a netlist that is to be run, and opens it.
///
/// A text is refused exactly where it has a fault, V1 to V8: one of the text, as [`read_back`] says, or at line 0 one of the
/// netlist that it spells, as [`flatten`] says. `NoMemory` comes only where memory ran out.
pub fn read_netlist(alloc: Global, text: &[u8]) -> Result<Flat, RunFault>
    ensures flat { IfOk result (IsFlatOf text.now) }
    ensures refused { IfErr result (IsRunFault text.now) }
{
    let net = read_back(alloc, text)?;
    net.rules();
    let flat = flatten(alloc, &net)?;
    Ok(flat)
}
