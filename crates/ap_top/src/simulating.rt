//! Runs the netlist of a file on the image and the trace of two others.
ghost use Rattle.std.specs.Prelude.{◌≡◌, ◌≤◌, ℕ, List, IfErr, IfOk, OnOk};
ghost use Rattle.ap_bits.specs.declared.card.Card.{Card};
ghost use Rattle.ap_desk.specs.Files.{Goes, IsFileName};
ghost use Rattle.ap_image.specs.FitsShape.{ImageFitsShape, TraceFitsShape};
ghost use Rattle.ap_net.specs.Outside.{shape_of};
ghost use Rattle.ap_top.specs.Assembly.{FailsAt, StopsReading};
ghost use Rattle.ap_top.specs.Inputs.{FailsOn};
ghost use Rattle.ap_top.specs.Outputs.{FromGood, Writes};
ghost use Rattle.ap_top.specs.Simulation.{IsFlatAt, IsImageAt, IsImageIn, IsImageRefused, IsNetlistRefused, IsTraceAt, IsTraceIn, IsTraceRefused, StopsIn, sim_sources, sim_targets};
ghost use Rattle.ap_top.specs.Troubles.{IsCaused, StopsOn, desk_stop};

use crate::refusal::{Stop, stop_of_image, stop_of_trace};
use crate::showing::write_rows;
use ap_desk::desk::Desk;
use ap_desk::pieces::read_all;
use ap_flat::Flat;
use ap_image::{Image, TEXT_LIMIT, Trace, read_image, read_trace};
use ap_sim::laws::opened_netlists_run;
use ap_sim::{Rows, read_netlist};
use std::alloc::Global;

/// The most bytes that the text of a netlist may have.
const NETLIST_LIMIT: usize = ap_vr::TEXT_LIMIT;

/// Reads a netlist that is to be run, and opens it.
fn read_flat<D: Desk>(alloc: Global, name: &str, desk: &mut D) -> Result<Flat, Stop>
    requires { IsFileName name.now }
    ensures flat { IfOk result (IsFlatAt name.now (D.files desk.old)) }
    ensures stopped { IfErr result
        (StopsReading IsNetlistRefused name.now (D.files desk.old)) }
    ensures same { D.files desk.new ≡ D.files desk.old }
    ensures cause { let fails = FailsAt name.now (D.files desk.old) in
        IsCaused desk_stop fails (D.counts desk.old) (D.counts desk.new) result }
{
    let text = read_all(alloc, desk, name, NETLIST_LIMIT)?;
    let flat = read_netlist(alloc, &text)?;
    Ok(flat)
}

/// The image that a text says, for a netlist that is run on it.
fn image_in(alloc: Global, text: &[u8], flat: &Flat) -> Result<Image, Stop>
    ensures fits { IfOk result (λ image. ImageFitsShape image (shape_of flat.now.outside)) }
    ensures image { IfOk result (IsImageIn (shape_of flat.now.outside) text.now) }
    ensures refused { IfErr result (StopsIn (IsImageRefused (shape_of flat.now.outside)) text.now) }
{
    match read_image(alloc, text, flat.shape()) {
        Ok(image) => Ok(image),
        Err(fault) => Err(stop_of_image(fault)),
    }
}

/// The trace that a text says.
fn trace_in(alloc: Global, text: &[u8], flat: &Flat) -> Result<Trace, Stop>
    ensures fits { IfOk result (λ trace. TraceFitsShape trace (shape_of flat.now.outside)) }
    ensures trace { IfOk result (IsTraceIn (shape_of flat.now.outside) text.now) }
    ensures refused { IfErr result (StopsIn (IsTraceRefused (shape_of flat.now.outside)) text.now) }
{
    match read_trace(alloc, text, flat.shape()) {
        Ok(trace) => Ok(trace),
        Err(fault) => Err(stop_of_trace(fault)),
    }
}

/// Reads the image that a netlist is run on.
fn read_memories<D: Desk>(
    alloc: Global,
    name: &str,
    flat: &Flat,
    desk: &mut D,
) -> Result<Image, Stop>
    requires { IsFileName name.now }
    ensures fits { IfOk result (λ image. ImageFitsShape image (shape_of flat.now.outside)) }
    ensures image { IfOk result
        (IsImageAt (shape_of flat.now.outside) name.now (D.files desk.old)) }
    ensures stopped { let refused = IsImageRefused (shape_of flat.now.outside) in
        IfErr result (StopsReading refused name.now (D.files desk.old)) }
    ensures same { D.files desk.new ≡ D.files desk.old }
    ensures cause { let fails = FailsAt name.now (D.files desk.old) in
        IsCaused desk_stop fails (D.counts desk.old) (D.counts desk.new) result }
{
    let text = read_all(alloc, desk, name, TEXT_LIMIT)?;
    let image = image_in(alloc, &text, flat)?;
    Ok(image)
}

/// Reads the trace of its inputs.
fn read_inputs<D: Desk>(alloc: Global, name: &str, flat: &Flat, desk: &mut D) -> Result<Trace, Stop>
    requires { IsFileName name.now }
    ensures fits { IfOk result (λ trace. TraceFitsShape trace (shape_of flat.now.outside)) }
    ensures trace { IfOk result
        (IsTraceAt (shape_of flat.now.outside) name.now (D.files desk.old)) }
    ensures stopped { let refused = IsTraceRefused (shape_of flat.now.outside) in
        IfErr result (StopsReading refused name.now (D.files desk.old)) }
    ensures same { D.files desk.new ≡ D.files desk.old }
    ensures cause { let fails = FailsAt name.now (D.files desk.old) in
        IsCaused desk_stop fails (D.counts desk.old) (D.counts desk.new) result }
{
    let text = read_all(alloc, desk, name, TEXT_LIMIT)?;
    let trace = trace_in(alloc, &text, flat)?;
    Ok(trace)
}

/// Reads the netlist, the image and the trace, judges them, and runs the netlist for so many cycles, whose rows are appended as
/// they are made.
pub(crate) fn simulate<D: Desk>(
    alloc: Global,
    netlist: &str,
    image: &str,
    trace: &str,
    cycles: u64,
    rows: &str,
    desk: &mut D,
) -> Result<(), Stop>
    requires netlist { IsFileName netlist.now }
    requires image { IsFileName image.now }
    requires trace { IsFileName trace.now }
    requires cycles { cycles ≤ 1000000 }
    requires rows { IsFileName rows.now }
    ensures done { (cards : List Card)
        → let sources = sim_sources netlist.now image.now trace.now in
        let step = FromGood cards Writes sources (sim_targets cycles rows.now) in
        OnOk result (Goes step (D.files desk.old) (D.files desk.new)) }
    ensures stopped { (cards : List Card)
        → let sources = sim_sources netlist.now image.now trace.now in
        let stops = StopsOn cards sources (sim_targets cycles rows.now) in
        IfErr result (stops (D.files desk.old) (D.files desk.new)) }
    ensures cause { (cards : List Card)
        → let sources = sim_sources netlist.now image.now trace.now in
        let fails = FailsOn cards sources (D.files desk.old) in
        IsCaused desk_stop fails (D.counts desk.old) (D.counts desk.new) result }
{
    let flat = read_flat(alloc, netlist, desk)?;
    let image = read_memories(alloc, image, &flat, desk)?;
    let trace = read_inputs(alloc, trace, &flat, desk)?;
    flat.rules();
    opened_netlists_run();
    let mut shown = Rows::new(alloc, &flat, image, &trace, cycles)?;
    write_rows(alloc, desk, rows, &mut shown)?;
    Ok(())
}
