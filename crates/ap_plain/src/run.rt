//! Cycle after cycle, from the start.
ghost use Rattle.std.specs.Prelude.{◌≡◌, ◌++◌, ◌+◌, ◌-◌, ◌≤◌, ◌<◌, ◌^◌, [], None, IfOk, OnOk, option_copied, slice_get, filter, length, map, replicate};
ghost use Rattle.ap_model.specs.Runnable.{IsRunnable};
ghost use Rattle.ap_desc.specs.declared.design.File.{File};
ghost use Rattle.ap_desc.specs.declared.design.InPort.{InPort};
ghost use Rattle.ap_desc.specs.declared.design.Reg.{Reg};
ghost use Rattle.ap_image.specs.FitsShape.{ImageFitsShape, TraceFitsShape};
ghost use Rattle.ap_model.specs.Cycles.{cycle, inputs_at};
ghost use Rattle.ap_model.specs.DesignShape.{shape_of};
ghost use Rattle.ap_model.specs.Fitting.{CountsWithin, FlightsFit, PortsFit, StateFits, StoragesFit};
ghost use Rattle.ap_model.specs.Ports.{is_same_port};
ghost use Rattle.ap_plain.specs.Scenes.{SceneFits, row_of_scene};
ghost use Rattle.ap_model.specs.ShownRows.{cycle_row, group_writes, rows_of, shown_write};
ghost use Rattle.ap_model.specs.Stalls.{busy_from};
ghost use Rattle.ap_model.specs.States.{start, start_storages};
ghost use Rattle.ap_model.specs.declared.storage.PortWrite.{PortWrite};

use crate::cycle::{after_control, busy_stages, cycle_entries, taken_transfer, writes_of};
use crate::ports::{is_same_port, row_ports};
use crate::scene::{Scene, is_held};
use crate::storages::copied_lists;
use ap_bits::{Card, Items, NoMemory};
use ap_desc::design::Design;
use ap_image::{Image, Row, Trace, TraceLine, Write};
use ap_model::{Flight, PortWrite, State, Storages, WritePort};
use std::alloc::{AllocError, Global};

/// The values of the registers at the start.
fn resets(alloc: Global, design: &Design) -> Result<Vec<u64>, AllocError>
    ensures { IfOk result (λ v. v.items ≡ map (λ (r : Reg). r.reset) design.now.regs) }
{
    let regs = design.regs.as_slice().iter();
    regs.map(|r| r.reset).collect(alloc)
}

/// So many zeros.
fn zeros(alloc: Global, count: u32) -> Result<Items<u64>, NoMemory>
    ensures { IfOk result (λ list. list ≡ replicate count 0) }
{
    let zeros: Vec<u64> = vec![in alloc; 0; count as usize]?;
    let list = Items::of(zeros);
    Ok(list)
}

/// The cells of the files at the start.
fn cleared(alloc: Global, design: &Design) -> Result<Items<Items<u64>>, NoMemory>
    ensures { IfOk result (λ list. list
        ≡ map (λ (f : File). replicate f.cells 0) design.now.files) }
{
    let mut files = Items::new(alloc);
    for file in design.files.as_slice() {
        files.push(zeros(alloc, file.cells)?)?;
    }
    Ok(files)
}

/// The storages at the start.
#[tactic(auto, unfolding(ap_model::specs::States::start_storages))]
fn start_storages(alloc: Global, design: &Design, image: &Image) -> Result<Storages, NoMemory>
    ensures { IfOk result (λ s. s ≡ start_storages design.now image.now) }
{
    let resets = resets(alloc, design)?;
    let regs = Items::of(resets);
    let files = cleared(alloc, design)?;
    let mems = copied_lists(alloc, image.mems.as_slice())?;
    Ok(Storages { regs, files, mems })
}

/// So many empty stages.
fn empty_stages(alloc: Global, count: u32) -> Result<Items<Option<Flight>>, NoMemory>
    ensures { IfOk result (λ list. list ≡ replicate count None) }
{
    let mut flights = Items::new(alloc);
    for _ in 0..count {
        flights.push(None)?;
    }
    Ok(flights)
}

/// The state at the start.
#[tactic(auto, unfolding(ap_model::specs::States::start))]
fn start(alloc: Global, design: &Design, image: &Image) -> Result<State, NoMemory>
    ensures { IfOk result (λ s. s ≡ start design.now image.now) }
{
    let storages = start_storages(alloc, design, image)?;
    let flights = empty_stages(alloc, design.stages.saturating_sub(1))?;
    Ok(State {
        pc: 0,
        storages,
        flights,
        next: 0,
        log: Items::new(alloc),
        sampled: Items::new(alloc),
        passes: Items::new(alloc),
    })
}

/// Zeros for the input ports.
fn idle_ports(alloc: Global, design: &Design) -> Result<Vec<u64>, AllocError>
    ensures { IfOk result (λ v. v.items
        ≡ map (λ width. 0) (map (λ (p : InPort). p.width) design.now.inputs)) }
{
    let inputs = design.inputs.as_slice().iter();
    inputs.map(|p| p.width).map(|_| 0).collect(alloc)
}

/// The line of a cycle, if the trace has it.
fn line_of(trace: &Trace, j: usize) -> Option<&TraceLine>
    ensures { option_copied result ≡ slice_get trace.now.lines j }
{
    trace.lines.as_slice().get(j)
}

/// The inputs of a cycle.
fn inputs_at(alloc: Global, design: &Design, trace: &Trace, j: usize) -> Result<TraceLine, NoMemory>
    ensures { IfOk result (λ line. line ≡ inputs_at design.now trace.now j) }
{
    match line_of(trace, j) {
        Some(line) => {
            let ports = Items::copy_of(alloc, line.ports.as_slice())?;
            Ok(TraceLine {
                wait: line.wait,
                ports,
            })
        }
        None => {
            let zeros = idle_ports(alloc, design)?;
            let ports = Items::of(zeros);
            Ok(TraceLine { wait: false, ports })
        }
    }
}

/// A write as a row shows it.
fn shown_write(group: u32, write: PortWrite) -> Write
    ensures { result ≡ shown_write group write }
{
    let index = match write.port {
        WritePort::Register(_) => None,
        WritePort::Cell { .. } | WritePort::Memory(_) => Some(write.at),
    };
    Write {
        group,
        index,
        value: write.value,
    }
}

/// The writes through a port, as a row shows them.
fn shown_through(
    alloc: Global,
    group: u32,
    port: WritePort,
    writes: &[PortWrite],
) -> Result<Vec<Write>, AllocError>
    ensures { IfOk result (λ v. v.items
        ≡ map (shown_write group) (filter (λ (w : PortWrite). is_same_port port w.port) writes.now)) }
{
    let through = writes.iter().filter(|w| is_same_port(port, w.port));
    through.map(|w| shown_write(group, *w)).collect(alloc)
}

/// Adds writes to those of a row.
fn append(out: &mut Items<Write>, more: &[Write]) -> Result<(), NoMemory>
    ensures { OnOk result (out.new ≡ out.old ++ more.now) }
{
    for write in more {
        out.push(*write)?;
    }
    Ok(())
}

/// Adds the writes by group, where the groups are numbered from this number on.
fn add_group_writes(
    alloc: Global,
    group: u32,
    ports: &[WritePort],
    writes: &[PortWrite],
    out: &mut Items<Write>,
) -> Result<(), NoMemory>
    requires { group + length ports.now < 1000 }
    ensures { OnOk result (out.new ≡ out.old ++ group_writes group ports.now writes.now) }
{
    match ports {
        [] => Ok(()),
        [port, rest @ ..] => {
            let shown = shown_through(alloc, group, *port, writes)?;
            append(out, &shown)?;
            add_group_writes(alloc, group + 1, rest, writes, out)
        }
    }
}

/// The row of the cycle.
#[tactic(auto, using(crate::proofs::SceneLemmas::scene_parts))]
fn control_row(alloc: Global, scene: &Scene) -> Result<Row, NoMemory>
    requires scene { SceneFits scene.now }
    requires state { StateFits scene.now.design.now scene.now.state.now }
    requires room { length scene.now.state.now.flights < 50 }
    ensures { IfOk result (λ r. r ≡ row_of_scene scene.now) }
{
    let entries = cycle_entries(alloc, scene)?;
    let writes = writes_of(alloc, entries.as_slice())?;
    let ports = row_ports(alloc, scene.design)?;
    let mut shown = Items::new(alloc);
    add_group_writes(alloc, 0, ports.as_slice(), &writes, &mut shown)?;
    Ok(Row {
        stall: is_held(scene, 0),
        kill: scene.taken.is_some(),
        writes: shown,
    })
}

/// What a cycle shows, and the state after it.
#[derive(Drop)]
struct Shown {
    row: Row,
    state: State,
}

/// One cycle with these inputs.
#[tactic(auto, using(crate::proofs::StepLemmas::few_stages, crate::proofs::StepLemmas::waits_within))]
fn shown_cycle(
    alloc: Global,
    design: &Design,
    cards: &[Card],
    image: &Image,
    inputs: &TraceLine,
    state: &State,
) -> Result<Shown, NoMemory>
    requires design { IsRunnable design.now cards.now }
    requires image { ImageFitsShape image.now (shape_of design.now) }
    requires ports { PortsFit design.now inputs.now.ports }
    requires state { StateFits design.now state.now }
    requires counts { CountsWithin (2 ^ 62) state.now }
    ensures row { IfOk result (λ s. s.row ≡ cycle_row design.now cards.now inputs.now state.now) }
    ensures state { IfOk result (λ s. s.state
        ≡ cycle design.now cards.now image.now inputs.now state.now) }
    ensures fits { IfOk result (λ s. StateFits design.now s.state) }
{
    let busy = busy_stages(alloc, design, inputs, state)?;
    let taken = taken_transfer(alloc, design, cards, inputs, state, &busy)?;
    let scene = Scene {
        design,
        cards,
        inputs,
        state,
        busy: &busy,
        taken,
    };
    let row = control_row(alloc, &scene)?;
    let next = after_control(alloc, &scene, image)?;
    Ok(Shown { row, state: next })
}

/// The rows of the first `count` cycles that the machine of a design shows on an image and a trace. The design is sound, its units
/// are of the cards, and the lines of each instruction stand in the order of their stages, from 1 on, as those of every design that
/// fits the cards do. The image and the trace fit the design.
pub fn rows(
    alloc: Global,
    design: &Design,
    cards: &[Card],
    image: &Image,
    trace: &Trace,
    count: u32,
) -> Result<Items<Row>, NoMemory>
    requires design { IsRunnable design.now cards.now }
    requires image { ImageFitsShape image.now (shape_of design.now) }
    requires trace { TraceFitsShape trace.now (shape_of design.now) }
    ensures { IfOk result (λ list. list ≡ rows_of design.now cards.now image.now trace.now count) }
{
    let mut state = start(alloc, design, image)?;
    let mut rows = Items::new(alloc);
    for j in 0..count {
        let inputs = inputs_at(alloc, design, trace, j as usize)?;
        let shown = shown_cycle(alloc, design, cards, image, &inputs, &state)?;
        rows.push(shown.row)?;
        state = shown.state;
    }
    Ok(rows)
}
