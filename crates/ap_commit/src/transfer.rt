//! The transfer, over the instructions of the stage in which transfers are made.
ghost use Rattle.std.specs.Prelude.{◌∷◌, IfOk, OnOk};
ghost use Rattle.std.specs.List.{AllByRecursion as Each};
ghost use Rattle.ap_desc.specs.Clean.{IsClean};
ghost use Rattle.ap_net.specs.Draft.{CanFresh};
ghost use Rattle.ap_net.specs.Making.{Makes};
ghost use Rattle.ap_net.specs.Ready.{numbers};
ghost use Rattle.ap_ctl.specs.Building.{IsBit};
ghost use Rattle.ap_stage.specs.Courses.{IsCourse, courses_numbers};
ghost use Rattle.ap_stage.specs.Reads.{AreFrom};
ghost use Rattle.ap_stage.specs.Sources.{IsGround};
ghost use Rattle.ap_effect.specs.Writers.{transfer_wires};
ghost use Rattle.ap_commit.specs.Written.{CanTransfer, IsTransferred};

use ap_bits::NoMemory;
use ap_desc::design::Design;
use ap_effect::line::transfer_lines;
use ap_effect::transfer::{TransferNets, transfer_nets};
use ap_merge::Select;
use ap_net::builder::Builder;
use ap_net::cell::Wire;
use ap_outcome::laws::line_writers_fit;
use ap_outcome::list::transfers;
use ap_stage::node::Course;
use ap_stage::source::Ground;

/// The nets of the transfer: whether a line of the stage takes it, where the stage has a word, and its target.
pub fn transfer(
    out: &mut Builder,
    design: &Design,
    ground: &Ground,
    courses: &[Course],
    valid: Wire,
    select: &Select,
    width: u32,
) -> Result<TransferNets, NoMemory>
    requires clean { IsClean design.now }
    requires fresh { CanFresh out.old }
    requires ground { IsGround out.old.nets ground.now }
    requires courses { Each (IsCourse out.old ground.now) courses.now }
    requires valid { IsBit out.old.nets valid }
    requires can { CanTransfer design.now ground.now courses.now select.now width }
    ensures transferred { IfOk result
        (IsTransferred out.new design.now ground.now courses.now valid width) }
    ensures from { IfOk result (λ nets.
        AreFrom (valid.number ∷ courses_numbers ground.now courses.now) out.old out.new
        (numbers (transfer_wires nets))) }
    ensures makes { OnOk result (Makes out.old out.new) }
{
    line_writers_fit();
    let lines = transfer_lines(out.allocator(), design, design.branch)?;
    let given = transfers(out, ground, courses, lines.as_slice())?;
    let nets = transfer_nets(out, valid, given.as_slice(), select, width)?;
    Ok(nets)
}
