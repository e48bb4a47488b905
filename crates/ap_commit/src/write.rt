//! What the lines of a stage write, port by port.
ghost use Rattle.std.specs.Prelude.{◌∷◌, IfOk, OnOk};
ghost use Rattle.std.specs.List.{AllByRecursion as Each};
ghost use Rattle.ap_desc.specs.Clean.{IsClean};
ghost use Rattle.ap_net.specs.Draft.{CanFresh};
ghost use Rattle.ap_net.specs.Making.{Makes};
ghost use Rattle.ap_net.specs.Ready.{numbers};
ghost use Rattle.ap_ctl.specs.Building.{IsBit};
ghost use Rattle.ap_ctl.specs.Lists.{EachPair};
ghost use Rattle.ap_stage.specs.Courses.{IsCourse, courses_numbers};
ghost use Rattle.ap_stage.specs.Reads.{AreFrom};
ghost use Rattle.ap_stage.specs.Sources.{IsGround};
ghost use Rattle.ap_effect.specs.Writers.{write_wires};
ghost use Rattle.ap_commit.specs.Written.{CanWritePort, IsWritten, ports_numbers};

use ap_bits::{Items, NoMemory};
use ap_desc::design::Design;
use ap_effect::line::write_lines;
use ap_effect::write::{WriteNets, write_nets};
use ap_merge::Select;
use ap_model::storage::WritePort;
use ap_net::builder::Builder;
use ap_net::cell::Wire;
use ap_outcome::laws::line_writers_fit;
use ap_outcome::list::writers;
use ap_stage::node::Course;
use ap_stage::source::Ground;

/// A write port through which lines of a stage write.
#[derive(Drop)]
pub struct UsedPort {
    pub port: WritePort,
    /// How what is written is selected among the lines.
    pub select: Select,
    /// How many bits an index has; none at a register.
    pub bits: Option<u32>,
    /// How many bits are written.
    pub width: u32,
}

/// The nets of a write port: what the lines of the stage write through it, where the stage fires.
pub fn write_port(
    out: &mut Builder,
    design: &Design,
    stage: u32,
    ground: &Ground,
    courses: &[Course],
    fires: Wire,
    used: &UsedPort,
) -> Result<WriteNets, NoMemory>
    requires clean { IsClean design.now }
    requires fresh { CanFresh out.old }
    requires ground { IsGround out.old.nets ground.now }
    requires courses { Each (IsCourse out.old ground.now) courses.now }
    requires fires { IsBit out.old.nets fires }
    requires port { CanWritePort design.now stage ground.now courses.now used.now }
    ensures written { IfOk result
        (IsWritten out.new design.now stage ground.now courses.now fires used.now) }
    ensures from { IfOk result (λ nets.
        AreFrom (fires.number ∷ courses_numbers ground.now courses.now) out.old out.new
        (numbers (write_wires nets))) }
    ensures makes { OnOk result (Makes out.old out.new) }
{
    line_writers_fit();
    let lines = write_lines(out.allocator(), design, stage, used.port)?;
    let given = writers(out, ground, courses, lines.as_slice())?;
    let nets = write_nets(
        out,
        fires,
        given.as_slice(),
        &used.select,
        used.bits,
        used.width,
    )?;
    Ok(nets)
}

/// The nets of all write ports that are used in a stage, in their order.
pub fn write_stage(
    out: &mut Builder,
    design: &Design,
    stage: u32,
    ground: &Ground,
    courses: &[Course],
    fires: Wire,
    ports: &[UsedPort],
) -> Result<Items<WriteNets>, NoMemory>
    requires clean { IsClean design.now }
    requires fresh { CanFresh out.old }
    requires ground { IsGround out.old.nets ground.now }
    requires courses { Each (IsCourse out.old ground.now) courses.now }
    requires fires { IsBit out.old.nets fires }
    requires ports { Each (CanWritePort design.now stage ground.now courses.now) ports.now }
    ensures written { IfOk result (EachPair
        (IsWritten out.new design.now stage ground.now courses.now fires) ports.now) }
    ensures from { IfOk result (λ list.
        AreFrom (fires.number ∷ courses_numbers ground.now courses.now) out.old out.new
        (ports_numbers list)) }
    ensures makes { OnOk result (Makes out.old out.new) }
{
    let mut list = Items::new(out.allocator());
    for used in ports {
        let nets = write_port(out, design, stage, ground, courses, fires, used)?;
        list.push(nets)?;
    }
    Ok(list)
}
