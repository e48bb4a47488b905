//! Outputs that show a net.
ghost use Rattle.std.specs.Prelude.{◌≡◌, OnOk};
ghost use Rattle.ap_net.specs.Cells.{IsNet};
ghost use Rattle.ap_net.specs.Late.{IsLate};
ghost use Rattle.ap_front.specs.Shown.{ShowsNet};

use ap_bits::NoMemory;
use ap_net::builder::Builder;
use ap_net::cell::{Cell, Wire};

/// Drives a net that was declared by a copy of another of its width.
pub fn show(to: Wire, from: Wire, out: &mut Builder) -> Result<(), NoMemory>
    requires late { IsLate out.old to }
    requires net { IsNet out.old.nets from }
    requires same { to.width ≡ from.width }
    ensures { OnOk result (ShowsNet to from out.old out.new) }
{
    out.cell(to, Cell::Copy(from))?;
    Ok(())
}
