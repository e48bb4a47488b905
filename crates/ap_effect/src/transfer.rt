//! The transfer: whether it is taken, and where it goes.
ghost use Rattle.std.specs.Prelude.{◌≡◌, ◌∷◌, ◌≤◌, IfOk, None, OnOk, length, map};
ghost use Rattle.std.specs.List.{AllByRecursion as Each};
ghost use Rattle.ap_net.specs.Draft.{CanFresh};
ghost use Rattle.ap_net.specs.Late.{Reads};
ghost use Rattle.ap_net.specs.Making.{Makes};
ghost use Rattle.ap_net.specs.Pending.{IsFrom};
ghost use Rattle.ap_net.specs.Ready.{numbers};
ghost use Rattle.ap_ctl.specs.Building.{IsBit};
ghost use Rattle.ap_merge.specs.Selects.{GoesOver, depth};
ghost use Rattle.ap_stage.specs.Trees.{StandsOver};
ghost use Rattle.ap_effect.specs.Writers.{AreTransferNets, IsWriter, transfer_wires, value_numbers, writer_of, writing_numbers};

use crate::write::{Writer, write_nets};
use ap_bits::{Items, NoMemory};
use ap_merge::Select;
use ap_net::builder::Builder;
use ap_net::cell::Wire;
use std::alloc::Global;

/// A transfer that an instruction makes.
#[derive(Clone, Copy, Debug, PartialEq, Eq)]
pub struct Transfer {
    /// One bit: the word matches the instruction.
    pub cond: Wire,
    /// One bit, a branch's condition; none at a jump.
    pub branch: Option<Wire>,
    /// The address that it goes to.
    pub target: Wire,
}

/// The nets of the transfer.
#[derive(Clone, Copy, Debug, PartialEq, Eq)]
pub struct TransferNets {
    /// One bit.
    pub taken: Wire,
    /// An address.
    pub target: Wire,
}

/// What the transfers write to the pc.
fn writers_of(alloc: Global, transfers: &[Transfer]) -> Result<Items<Writer>, NoMemory>
    ensures { IfOk result (λ list. list ≡ map writer_of transfers.now) }
{
    let mut list = Items::new(alloc);
    for transfer in transfers {
        list.push(Writer {
            cond: transfer.cond,
            guard: transfer.branch,
            index: None,
            value: transfer.target,
        })?;
    }
    Ok(list)
}

/// The nets of the transfer, over all instructions that transfer. It is taken exactly where the stage has a word and a transfer's
/// condition is 1, with a branch's own condition. Where it goes is the target of the one whose condition alone is 1; where none is, it may
/// be anything. The target has `width` bits. The selection goes over the transfers. Whether the stage is held is not looked at.
pub fn transfer_nets(
    out: &mut Builder,
    valid: Wire,
    transfers: &[Transfer],
    select: &Select,
    width: u32,
) -> Result<TransferNets, NoMemory>
    requires fresh { CanFresh out.old }
    requires valid { IsBit out.old.nets valid }
    requires some { 1 ≤ length transfers.now }
    requires transfers { Each (IsWriter out.old.nets None width) (map writer_of transfers.now) }
    requires over { GoesOver select.now 0 (length transfers.now) }
    ensures nets { IfOk result (AreTransferNets out.new valid transfers.now width) }
    ensures reads { OnOk result (Reads
        (valid.number ∷ writing_numbers (map writer_of transfers.now)) out.old out.new) }
    ensures results { IfOk result (λ nets. Each (IsFrom
        (valid.number ∷ writing_numbers (map writer_of transfers.now)) out.old out.new)
        (numbers (transfer_wires nets))) }
    ensures makes { OnOk result (Makes out.old out.new) }
    ensures taken { IfOk result (λ nets.
        StandsOver 0 (valid.number ∷ writing_numbers (map writer_of transfers.now))
        out.old out.new nets.taken.number) }
    ensures target { IfOk result (λ nets.
        StandsOver (depth select.now) (value_numbers (map writer_of transfers.now))
        out.old out.new nets.target.number) }
{
    let writers = writers_of(out.allocator(), transfers)?;
    let nets = write_nets(out, valid, writers.as_slice(), select, None, width)?;
    Ok(TransferNets {
        taken: nets.enable,
        target: nets.value,
    })
}
