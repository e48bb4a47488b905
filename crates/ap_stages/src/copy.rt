//! Selections once more.
ghost use Rattle.std.specs.Prelude.{◌≡◌, IfOk};

use ap_bits::{Boxed, NoMemory};
use ap_merge::Select;
use std::alloc::Global;

/// A selection once more.
pub(crate) fn copied(alloc: Global, select: &Select) -> Result<Select, NoMemory>
    ensures { IfOk result (λ made. made ≡ select.now) }
{
    match select {
        Select::Take(place) => Ok(Select::Take(*place)),
        Select::Ask { from, to, yes, no } => {
            let first = copied(alloc, yes.get())?;
            let second = copied(alloc, no.get())?;
            let yes = Boxed::new(alloc, first)?;
            let no = Boxed::new(alloc, second)?;
            Ok(Select::Ask {
                from: *from,
                to: *to,
                yes,
                no,
            })
        }
    }
}
