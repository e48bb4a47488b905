//! The rows of a netlist that is run, line by line.
ghost use Rattle.std.specs.Prelude.{◌≡◌, ◌+◌, ◌≤◌, ◌<◌, IfOk, OnOk, List, ℕ, if◌then◌else◌};
ghost use Rattle.ap_image.specs.FitsShape as shapes;
ghost use Rattle.ap_image.specs.FitsShape.{ImageFitsShape, LineFitsShape, TraceFitsShape};
ghost use Rattle.ap_net.specs.Outside.{shape_of};
ghost use Rattle.ap_sim.specs.Rows.{AreLinesOf};
ghost use Rattle.ap_sim.specs.RowLines.{IsNextLine, IsNextRow, Makes, Shows, begun, count_left};

use ap_bits::{Items, NoMemory};
use ap_eval::{Bench, benches_follow_runs};
use ap_flat::Flat;
use ap_image::{Image, Trace, TraceLine};
use std::alloc::Global;
use std::marker::Model;

/// The rows of a netlist that is run for some cycles. Contracts see the bench, the trace, the number of the next cycle, and how
/// many cycles are made in all.
#[derive(Drop)]
pub struct Rows<'a> {
    bench: Bench<'a>,
    trace: &'a Trace,
    /// The inputs after the last line of the trace.
    idle: TraceLine,
    next: u64,
    cycles: u64,
}

impl<'a> Model for Rows<'a> {
    ghost use Rattle.ap_sim.specs.RowLines.{RowsLeft, HasIdle, IsLeft};

    ghost Value = { RowsLeft };

    ghost view = { λ r. record { bench = r.bench; trace = r.trace.now; next = r.next; cycles = r.cycles } };

    ghost invariant = { λ r. IsLeft (record { bench = r.bench; trace = r.trace.now; next = r.next; cycles = r.cycles })
        × HasIdle r.idle r.bench.flat.outside };
}

/// The inputs after the last line of a trace: all is 0.
fn idle(alloc: Global, inputs: &[u32]) -> Result<TraceLine, NoMemory>
    ensures { IfOk result (λ line. line ≡ shapes.idle inputs.now) }
{
    let mut ports = Items::new(alloc);
    for _ in inputs {
        ports.push(0)?;
    }
    Ok(TraceLine { wait: false, ports })
}

/// The inputs in a cycle.
fn line_at<'a>(trace: &'a Trace, idle: &'a TraceLine, cycle: u64) -> &'a TraceLine
    ensures { (inputs : List ℕ) → idle.now ≡ shapes.idle inputs
        → result.now ≡ shapes.line_at trace.now inputs cycle }
{
    match trace.lines.as_slice().get(cycle as usize) {
        Some(line) => line,
        None => idle,
    }
}

impl<'a> Rows<'a> {
    ghost use Rattle.ap_eval.specs.Benches.{Steps};

    /// The rows of a netlist that is run on an image and a trace for at most 1,000,000 cycles. Nothing is run yet.
    pub fn new(
        alloc: Global,
        flat: &'a Flat,
        image: Image,
        trace: &'a Trace,
        cycles: u64,
    ) -> Result<Rows<'a>, NoMemory>
        requires image { ImageFitsShape image (shape_of flat.now.outside) }
        requires trace { TraceFitsShape trace.now (shape_of flat.now.outside) }
        requires cycles { cycles ≤ 1000000 }
        ensures begun { IfOk result (λ rows. rows ≡ begun flat.now image trace.now cycles) }
        ensures shows { IfOk result (λ rows. (lines : List (List ℕ))
            → AreLinesOf flat.now.outside flat.now.net image trace.now cycles lines
            → Shows rows lines) }
    {
        flat.rules();
        benches_follow_runs();
        let idle = idle(alloc, flat.shape().inputs())?;
        let bench = Bench::start(alloc, flat, image)?;
        Ok(Rows {
            bench,
            trace,
            idle,
            next: 0,
            cycles,
        })
    }

    /// Makes the next cycle and appends the line of its row.
    fn make(&mut self, out: &mut Vec<u8>) -> Result<(), NoMemory>
        requires { self.old.next < self.old.cycles }
        ensures { OnOk result (IsNextRow self.old self.new out.old.items out.new.items) }
    {
        let cycle = self.next;
        let inputs = line_at(self.trace, &self.idle, cycle);
        self.bench.step(inputs);
        self.next = cycle + 1;
        self.bench.put_row(cycle, out)?;
        Ok(())
    }

    /// Makes the next cycle, appends the line of its row and answers true, or false exactly where all cycles were made. It takes
    /// no memory but that of `out`. `NoMemory` comes only where memory ran out; a part of the line may then stand in `out`.
    pub fn line(&mut self, out: &mut Vec<u8>) -> Result<bool, NoMemory>
        ensures makes { IfOk result (Makes self.old self.new out.old.items out.new.items) }
        ensures fewer { IfOk result (λ more.
            count_left self.new + (if more then 1 else 0) ≤ count_left self.old) }
        ensures shows { IfOk result (λ more. (lines : List (List ℕ)) → Shows self.old lines
            → IsNextLine self.new lines out.old.items out.new.items more) }
    {
        if self.next == self.cycles {
            return Ok(false);
        }
        benches_follow_runs();
        self.make(out)?;
        Ok(true)
    }
}
