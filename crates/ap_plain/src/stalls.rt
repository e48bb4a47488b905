//! Which stages are busy, and which are held.
ghost use Rattle.std.specs.Prelude.{◌≡◌, ◌+◌, ◌++◌, ◌<◌, ◌≤◌, ◌^◌, IfOk, IfSome, OnOk, fold, filter_map, length, max};
ghost use Rattle.std.specs.List.{list_any};
ghost use Rattle.ap_desc.specs.declared.design.Micro.{Micro};
ghost use Rattle.ap_model.specs.Fire.{lines_in};
ghost use Rattle.ap_model.specs.Fitting.{WaitsWithin};
ghost use Rattle.ap_model.specs.Stalls.{busy_from, has_memory_line, instr_need, is_busy, is_flight_busy, is_held_stage, is_memory_line, line_latency, need};

use crate::stage::instr_of;
use ap_bits::NoMemory;
use ap_desc::design::{Act, Design, Instr};
use ap_model::Flight;
use std::alloc::Global;

/// The latency of the unit that a line uses, if it uses one.
fn line_latency(design: &Design, act: Act) -> Option<u32>
    ensures { result ≡ line_latency design.now act }
{
    match act {
        Act::Compute { unit, .. } => match design.units.as_slice().get(unit as usize) {
            Some(resource) => Some(resource.latency),
            None => None,
        },
        _ => None,
    }
}

/// The greatest latency of a unit that the instruction uses in the stage, or 1.
fn instr_need(design: &Design, stage: u32, instr: &Instr) -> u32
    ensures { result ≡ instr_need design.now stage instr.now }
{
    let micros = instr.micros.as_slice().iter();
    let lines = micros.filter(|m| m.stage == stage);
    let latencies = lines.filter_map(|m| line_latency(design, m.act));
    latencies.fold(1, |a, b| a.max(b))
}

/// How many cycles a word needs in a stage, memories aside.
#[tactic(auto, unfolding(ap_model::specs::Stalls::need))]
fn need(design: &Design, stage: u32, word: u64) -> u32
    ensures { result ≡ need design.now stage word }
{
    match instr_of(design, word) {
        Some(instr) => instr_need(design, stage, instr),
        None => 1,
    }
}

/// Whether the line reads or writes a memory.
fn is_memory_line(act: Act) -> bool
    ensures { result ≡ is_memory_line act }
{
    matches!(act, Act::ReadMem { .. } | Act::WriteMem { .. })
}

/// Whether the instruction has a memory read or write in the stage.
fn instr_has_memory_line(instr: &Instr, stage: u32) -> bool
    ensures { result ≡ list_any (λ (m : Micro). is_memory_line m.act) (lines_in stage instr.now) }
{
    let micros = instr.micros.as_slice().iter();
    let mut lines = micros.filter(|m| m.stage == stage);
    lines.any(|m| is_memory_line(m.act))
}

/// Whether the word's instruction has a memory read or write in the stage.
#[tactic(auto, unfolding(ap_model::specs::Stalls::has_memory_line))]
fn has_memory_line(design: &Design, stage: u32, word: u64) -> bool
    ensures { result ≡ has_memory_line design.now stage word }
{
    match instr_of(design, word) {
        Some(instr) => instr_has_memory_line(instr, stage),
        None => false,
    }
}

/// Whether the flight needs its stage for another cycle, or waits for a memory.
fn is_flight_busy(design: &Design, wait: bool, stage: u32, flight: &Flight) -> bool
    requires { flight.now.waited < 2 ^ 63 }
    ensures { result ≡ is_flight_busy design.now wait stage flight.now }
{
    let waited = flight.waited + 1;
    waited < u64::from(need(design, stage, flight.word))
        || (wait && has_memory_line(design, stage, flight.word))
}

/// Whether the stage is busy.
fn is_busy(design: &Design, wait: bool, stage: u32, flight: &Option<Flight>) -> bool
    requires { IfSome flight.now (λ f. f.waited < 2 ^ 63) }
    ensures { result ≡ is_busy design.now wait stage flight.now }
{
    match flight {
        Some(f) => is_flight_busy(design, wait, stage, f),
        None => false,
    }
}

/// Whether each stage is busy, from this stage on.
pub(crate) fn add_busy(
    design: &Design,
    wait: bool,
    stage: u32,
    flights: &[Option<Flight>],
    out: &mut Vec<bool>,
) -> Result<(), NoMemory>
    requires room { stage + length flights.now < 100 }
    requires waits { WaitsWithin (2 ^ 63) flights.now }
    ensures { OnOk result (out.new.items
        ≡ out.old.items ++ busy_from design.now wait stage flights.now) }
{
    match flights {
        [] => Ok(()),
        [flight, rest @ ..] => {
            out.push(is_busy(design, wait, stage, flight))?;
            add_busy(design, wait, stage + 1, rest, out)
        }
    }
}

/// Whether the stage is held.
#[tactic(auto, unfolding(ap_model::specs::Stalls::is_held_stage))]
pub(crate) fn is_held_stage(design: &Design, busy: &[bool], stage: u32) -> bool
    ensures { result ≡ is_held_stage design.now busy.now stage }
{
    busy.iter().any(|b| *b)
}
