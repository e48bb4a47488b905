//! Nets that are read before they are driven: the indices of a file's read ports.
ghost use Rattle.std.specs.Prelude.{IfOk};
ghost use Rattle.ap_net.specs.Draft.{CanFresh};
ghost use Rattle.ap_bank.specs.LateNets.{DeclaresLate};
ghost use Rattle.ap_bank.specs.Placed.{IsFit};

use ap_bits::{Items, NoMemory};
use ap_net::builder::Builder;
use ap_net::cell::Wire;

/// So many fresh wires of these bits, which are driven later. After an error the builder is good for nothing but to be dropped.
pub fn late_nets(out: &mut Builder, count: u32, width: u32) -> Result<Items<Wire>, NoMemory>
    requires fresh { CanFresh out.old }
    requires width { IsFit width }
    ensures { IfOk result (λ made. DeclaresLate count width made out.old out.new) }
{
    let mut made = Items::new(out.allocator());
    for _ in 0..count {
        let net = out.late(width)?;
        made.push(net)?;
    }
    Ok(made)
}
