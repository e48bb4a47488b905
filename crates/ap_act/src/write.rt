//! What the lines of all stages write, shown at the outputs of `top`.
ghost use Rattle.std.specs.Prelude.{◌≡◌, ◌-◌, ◌≤◌, IfOk, OnOk, Some, length, option_map, slice_get, true};
ghost use Rattle.std.specs.List.{AllByRecursion as Each};
ghost use Rattle.ap_desc.specs.Clean.{IsClean};
ghost use Rattle.ap_model.specs.Ports.{is_used, is_used_in};
ghost use Rattle.ap_net.specs.declared.cell.Wire.{Wire};
ghost use Rattle.ap_net.specs.Draft.{CanFresh};
ghost use Rattle.ap_net.specs.Late.{IsLate};
ghost use Rattle.ap_net.specs.Wiring.{NoneTwice};
ghost use Rattle.ap_effect.specs.Writers.{write_wires};
ghost use Rattle.ap_bank.specs.Joins.{port_numbers};
ghost use Rattle.ap_front.specs.Ports.{HasPorts};
ghost use Rattle.ap_slow.specs.Driven.{DrivesLate};
ghost use Rattle.ap_act.specs.Acting.{CanAct, IsPortWritten, IsUsedPort, WritesAll, acting};
ghost use Rattle.ap_act.specs.Outputs.{AreFree, IsSized, shown_outputs};

use crate::outputs::{PortOutputs, port_stage, shown_outputs};
use crate::select::halves;
use ap_bank::join::join_port;
use ap_bits::NoMemory;
use ap_commit::laws::lines_fit_ports;
use ap_commit::write::{UsedPort, write_port};
use ap_desc::design::Design;
use ap_effect::line::write_lines;
use ap_front::ports::Ports;
use ap_net::builder::Builder;
use ap_net::cell::Wire;
use ap_stages::stage::ServedStage;
use std::alloc::Global;

/// The data of a stage from 1 on.
pub(crate) fn stage_at(stages: &[ServedStage], stage: u32) -> &ServedStage
    requires low { 1 ≤ stage }
    requires high { stage ≤ length stages.now }
    ensures { slice_get stages.now (stage - 1) ≡ Some result.now }
{
    &stages[(stage - 1) as usize]
}

/// The net of a stage from 1 on.
pub(crate) fn net_at(nets: &[Wire], stage: u32) -> Wire
    requires low { 1 ≤ stage }
    requires high { stage ≤ length nets.now }
    ensures { slice_get nets.now (stage - 1) ≡ Some result }
{
    nets[(stage - 1) as usize]
}

/// How many bits an index has, where there is one.
fn index_bits(index: Option<Wire>) -> Option<u32>
    ensures { result ≡ option_map (λ (w : Wire). w.width) index }
{
    match index {
        Some(index) => Some(index.width),
        None => None,
    }
}

/// A port through which lines of the stage write: over their count, with the bits of its outputs.
fn used_port(
    alloc: Global,
    design: &Design,
    stage: u32,
    outputs: PortOutputs,
) -> Result<UsedPort, NoMemory>
    requires clean { IsClean design.now }
    requires used { is_used_in design.now stage outputs.port ≡ true }
    ensures { IfOk result (IsUsedPort design.now stage outputs) }
{
    let lines = write_lines(alloc, design, stage, outputs.port)?;
    let select = halves(alloc, 0, lines.len() as u32)?;
    Ok(UsedPort {
        port: outputs.port,
        select,
        bits: index_bits(outputs.to.index),
        width: outputs.to.value.width,
    })
}

/// Shows at a port's outputs what the lines of its stage write.
fn write_one(
    out: &mut Builder,
    design: &Design,
    fires: &[Wire],
    stages: &[ServedStage],
    outputs: PortOutputs,
) -> Result<(), NoMemory>
    requires clean { IsClean design.now }
    requires fresh { CanFresh out.old }
    requires can { CanAct design.now out.old fires.now stages.now }
    requires used { is_used design.now outputs.port ≡ true }
    requires sized { IsSized design.now outputs }
    requires late { Each (IsLate out.old) (write_wires outputs.to) }
    requires apart { NoneTwice (port_numbers outputs.to) }
    ensures written { OnOk result
        (IsPortWritten design.now fires.now stages.now out.new outputs) }
    ensures drives { OnOk result (DrivesLate (port_numbers outputs.to)
        (acting fires.now stages.now) out.old out.new) }
{
    lines_fit_ports();
    let stage = port_stage(out.allocator(), design, outputs.port)?;
    let served = stage_at(stages, stage);
    let fire = net_at(fires, stage);
    let used = used_port(out.allocator(), design, stage, outputs)?;
    let made = write_port(
        out,
        design,
        stage,
        &served.ground,
        &served.courses,
        fire,
        &used,
    )?;
    join_port(out, outputs.to, made)?;
    Ok(())
}

/// Makes, for each write port through which some line writes, the nets of what the lines of its stage write where the stage fires, and
/// drives the port's outputs by them. `fires` has for each stage from 1 on the net that says whether it fires, and `stages` has the data
/// of each. Memories that no line writes are left as they are. After an error the builder is good for nothing but to be dropped.
pub fn write_all(
    out: &mut Builder,
    design: &Design,
    ports: &Ports,
    fires: &[Wire],
    stages: &[ServedStage],
) -> Result<(), NoMemory>
    requires clean { IsClean design.now }
    requires fresh { CanFresh out.old }
    requires ports { HasPorts design.now out.old ports.now }
    requires free { AreFree out.old (shown_outputs design.now ports.now) }
    requires can { CanAct design.now out.old fires.now stages.now }
    ensures { OnOk result (WritesAll design.now fires.now stages.now
        (shown_outputs design.now ports.now) out.old out.new) }
{
    let list = shown_outputs(out.allocator(), design, ports)?;
    for outputs in list.as_slice() {
        write_one(out, design, fires, stages, *outputs)?;
    }
    Ok(())
}
