//! Balanced selections over the lines of a port.
ghost use Rattle.std.specs.Prelude.{◌-◌, ◌<◌, IfOk};
ghost use Rattle.ap_merge.specs.Selects.{GoesOver, IsBalanced};

use ap_bits::{Boxed, NoMemory};
use ap_merge::Select;
use std::alloc::Global;

/// A selection among the entries from `from` up to the one before `to`, by halves.
pub(crate) fn halves(alloc: Global, from: u32, to: u32) -> Result<Select, NoMemory>
    requires { from < to }
    ensures over { IfOk result (λ made. GoesOver made from to) }
    ensures balanced { IfOk result (λ made. IsBalanced made (to - from)) }
{
    if to - from == 1 {
        return Ok(Select::Take(from));
    }
    let middle = from + (to - from) / 2;
    let yes = halves(alloc, from, middle)?;
    let no = halves(alloc, middle, to)?;
    let yes = Boxed::new(alloc, yes)?;
    let no = Boxed::new(alloc, no)?;
    Ok(Select::Ask {
        from,
        to: middle,
        yes,
        no,
    })
}
