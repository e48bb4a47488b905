//! The transfer of a processor: the wire that says that it is taken, and its target.
ghost use Rattle.std.specs.Prelude.{◌≡◌, ◌∷◌, [], ◌≤◌, IfOk, OnOk};
ghost use Rattle.std.specs.List.{AllByRecursion as Each};
ghost use Rattle.ap_desc.specs.Clean.{IsClean};
ghost use Rattle.ap_net.specs.Draft.{CanFresh};
ghost use Rattle.ap_net.specs.Late.{IsLate};
ghost use Rattle.ap_net.specs.Making.{Makes};
ghost use Rattle.ap_net.specs.Ready.{numbers};
ghost use Rattle.ap_ctl.specs.Building.{IsBit};
ghost use Rattle.ap_stage.specs.Courses.{courses_numbers};
ghost use Rattle.ap_stage.specs.Reads.{AreFrom};
ghost use Rattle.ap_effect.specs.Writers.{AreTransferNets, transfer_wires};
ghost use Rattle.ap_bank.specs.Placed.{IsFit};
ghost use Rattle.ap_commit.specs.Written.{IsTransferred};
ghost use Rattle.ap_act.specs.Acting.{CanAct, StageCanAct};
ghost use Rattle.ap_act.specs.Taken.{TakesTransfer};

use crate::select::halves;
use crate::write::{net_at, stage_at};
use ap_bank::files::zero;
use ap_bank::join::join;
use ap_bits::NoMemory;
use ap_commit::laws::lines_fit_ports;
use ap_commit::transfer::transfer;
use ap_desc::design::Design;
use ap_effect::line::transfer_lines;
use ap_effect::transfer::TransferNets;
use ap_net::builder::Builder;
use ap_net::cell::Wire;
use ap_stages::stage::ServedStage;

/// The nets of a transfer that no line makes: it is never taken, and its target is 0.
fn no_transfer(out: &mut Builder, valid: Wire, width: u32) -> Result<TransferNets, NoMemory>
    requires fresh { CanFresh out.old }
    requires width { IsFit width }
    ensures nets { IfOk result (AreTransferNets out.new valid [] width) }
    ensures from { IfOk result (λ nets.
        AreFrom [] out.old out.new (numbers (transfer_wires nets))) }
    ensures makes { OnOk result (Makes out.old out.new) }
{
    let taken = zero(out, 1)?;
    let target = zero(out, width)?;
    Ok(TransferNets { taken, target })
}

/// The nets of the transfer over the lines of its stage, which may be none.
fn stage_transfer(
    out: &mut Builder,
    design: &Design,
    served: &ServedStage,
    valid: Wire,
) -> Result<TransferNets, NoMemory>
    requires clean { IsClean design.now }
    requires fresh { CanFresh out.old }
    requires can { StageCanAct design.now out.old design.now.branch served.now }
    requires valid { IsBit out.old.nets valid }
    ensures transferred { IfOk result (IsTransferred out.new design.now served.now.ground
        served.now.courses.items valid design.now.address) }
    ensures from { IfOk result (λ nets. AreFrom
        (valid.number ∷ courses_numbers served.now.ground served.now.courses.items)
        out.old out.new (numbers (transfer_wires nets))) }
    ensures makes { OnOk result (Makes out.old out.new) }
{
    lines_fit_ports();
    let width = design.address;
    let lines = transfer_lines(out.allocator(), design, design.branch)?;
    if lines.is_empty() {
        let nets = no_transfer(out, valid, width)?;
        return Ok(nets);
    }
    let select = halves(out.allocator(), 0, lines.len() as u32)?;
    let nets = transfer(
        out,
        design,
        &served.ground,
        &served.courses,
        valid,
        &select,
        width,
    )?;
    Ok(nets)
}

/// Makes the nets of the transfer, drives the wire `taken` by the one that says whether it is taken, and answers its target, with the bits
/// of a code address. `valid` has for each stage from 1 on the net that says whether it has a word, and `stages` has the data of each.
/// Where no line transfers, it is never taken, and the target is 0. After an error the builder is good for nothing but to be dropped.
pub fn transfer_taken(
    out: &mut Builder,
    design: &Design,
    valid: &[Wire],
    stages: &[ServedStage],
    taken: Wire,
) -> Result<Wire, NoMemory>
    requires clean { IsClean design.now }
    requires fresh { CanFresh out.old }
    requires can { CanAct design.now out.old valid.now stages.now }
    requires late { IsLate out.old taken }
    requires bit { taken.width ≡ 1 }
    ensures { IfOk result (λ target.
        TakesTransfer design.now valid.now stages.now taken target out.old out.new) }
{
    let served = stage_at(stages, design.branch);
    let bit = net_at(valid, design.branch);
    let nets = stage_transfer(out, design, served, bit)?;
    join(out, taken, nets.taken)?;
    Ok(nets.target)
}
