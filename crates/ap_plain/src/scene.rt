//! What the flights do in one cycle.
ghost use Rattle.std.specs.Prelude.{◌≡◌, ◌++◌, ◌+◌, ◌<◌, ◌^◌, [], IfOk, IfSome, OnOk, length, if◌then◌else◌, map, option_map};
ghost use Rattle.std.specs.Option.{option_map_or};
ghost use Rattle.ap_model.specs.Cycles.{entry_of, from_last, is_killed, sample_of, staying};
ghost use Rattle.ap_model.specs.Fitting.{EffectFits, FlightFits, WaitsWithin};
ghost use Rattle.ap_plain.specs.Scenes.{SceneFits, StageFits, StagesFit, WritesHereFit, control_of_scene, scene_effect, scene_entries, scene_flights, scene_leaving, scene_number, scene_passes, scene_samples};

use crate::stage::fire;
use crate::stalls::is_held_stage;
use ap_bits::{Card, Items, NoMemory};
use ap_desc::design::Design;
use ap_image::TraceLine;
use ap_model::{Entry, Flight, InputRead, Pass, PortWrite, Sample, StageEffect, State};
use std::alloc::Global;

/// What a cycle goes by: the design and its cards, the inputs, the state at its start, which stages are busy, and the target of
/// the transfer that is taken.
#[derive(Drop)]
pub(crate) struct Scene<'a> {
    pub design: &'a Design,
    pub cards: &'a [Card],
    pub inputs: &'a TraceLine,
    pub state: &'a State,
    pub busy: &'a [bool],
    pub taken: Option<u64>,
}

/// Whether the stage is held.
pub(crate) fn is_held(scene: &Scene, stage: u32) -> bool
    ensures { result ≡ (control_of_scene scene.now).held stage }
{
    is_held_stage(scene.design, scene.busy, stage)
}

/// Whether the flight in the stage is killed.
pub(crate) fn is_killed(scene: &Scene, stage: u32) -> bool
    ensures { result ≡ is_killed scene.now.design.now (control_of_scene scene.now) stage }
{
    let before = scene.design.branch.saturating_sub(stage);
    scene.taken.is_some() && scene.design.slots < before
}

/// What a flight does: nothing where its stage is held or it is killed.
fn effect_in(
    alloc: Global,
    scene: &Scene,
    stage: u32,
    flight: &Flight,
) -> Result<Option<StageEffect>, NoMemory>
    requires scene { SceneFits scene.now }
    requires flight { FlightFits scene.now.design.now stage flight.now }
    ensures value { IfOk result (λ d. d ≡ scene_effect scene.now stage flight.now) }
    ensures fits { IfOk result (λ d. IfSome d
        (EffectFits scene.now.design.now flight.now.word stage)) }
{
    if is_held(scene, stage) || is_killed(scene, stage) {
        return Ok(None);
    }
    let storages = &scene.state.storages;
    let ports = scene.inputs.ports.as_slice();
    let effect = fire(
        alloc,
        scene.design,
        scene.cards,
        stage,
        flight,
        storages,
        ports,
    )?;
    Ok(Some(effect))
}

/// Adds the writes of a flight.
fn add_writes(
    number: u64,
    stage: u32,
    writes: &[PortWrite],
    out: &mut Items<Entry>,
) -> Result<(), NoMemory>
    ensures { OnOk result (out.new ≡ out.old ++ map (entry_of stage number) writes.now) }
{
    for write in writes {
        out.push(Entry {
            number,
            stage,
            write: *write,
        })?;
    }
    Ok(())
}

/// Adds the samples of a flight.
fn add_reads(number: u64, reads: &[InputRead], out: &mut Items<Sample>) -> Result<(), NoMemory>
    ensures { OnOk result (out.new ≡ out.old ++ map (sample_of number) reads.now) }
{
    for read in reads {
        out.push(Sample {
            number,
            line: read.line,
            value: read.value,
        })?;
    }
    Ok(())
}

/// Adds the writes of what stands in a stage.
fn add_flight_entries(
    alloc: Global,
    scene: &Scene,
    stage: u32,
    flight: &Option<Flight>,
    out: &mut Items<Entry>,
) -> Result<(), NoMemory>
    requires scene { SceneFits scene.now }
    requires flight { StageFits scene.now stage flight.now }
    ensures value { OnOk result (out.new
        ≡ out.old ++ option_map_or (scene_entries scene.now stage) flight.now []) }
    ensures fits { OnOk result (WritesHereFit scene.now
        (option_map_or (scene_entries scene.now stage) flight.now [])) }
{
    let Some(flight) = flight else {
        return Ok(());
    };
    if let Some(effect) = effect_in(alloc, scene, stage, flight)? {
        add_writes(flight.number, stage, effect.writes.as_slice(), out)?;
    }
    Ok(())
}

/// Adds the samples of what stands in a stage.
fn add_flight_samples(
    alloc: Global,
    scene: &Scene,
    stage: u32,
    flight: &Option<Flight>,
    out: &mut Items<Sample>,
) -> Result<(), NoMemory>
    requires scene { SceneFits scene.now }
    requires flight { StageFits scene.now stage flight.now }
    ensures { OnOk result (out.new
        ≡ out.old ++ option_map_or (scene_samples scene.now stage) flight.now []) }
{
    let Some(flight) = flight else {
        return Ok(());
    };
    match effect_in(alloc, scene, stage, flight)? {
        Some(effect) => add_reads(flight.number, effect.reads.as_slice(), out),
        None => Ok(()),
    }
}

/// Adds the stage that what stands in it passes.
fn add_flight_passes(
    scene: &Scene,
    stage: u32,
    flight: &Option<Flight>,
    out: &mut Items<Pass>,
) -> Result<(), NoMemory>
    ensures { OnOk result (out.new
        ≡ out.old ++ option_map_or (scene_passes scene.now stage) flight.now []) }
{
    let Some(flight) = flight else {
        return Ok(());
    };
    if is_held(scene, stage) || is_killed(scene, stage) {
        return Ok(());
    }
    out.push(Pass {
        number: flight.number,
        stage,
    })
}

/// Adds the number of what stands in a stage, unless it is killed.
fn add_flight_number(
    scene: &Scene,
    stage: u32,
    flight: &Option<Flight>,
    out: &mut Items<u64>,
) -> Result<(), NoMemory>
    ensures { OnOk result (out.new
        ≡ out.old ++ option_map_or (scene_number scene.now stage) flight.now []) }
{
    let Some(flight) = flight else {
        return Ok(());
    };
    if is_killed(scene, stage) {
        return Ok(());
    }
    out.push(flight.number)
}

/// Adds the writes of the flights from a stage on, the last stage first.
pub(crate) fn add_entries(
    alloc: Global,
    scene: &Scene,
    stage: u32,
    flights: &[Option<Flight>],
    out: &mut Items<Entry>,
) -> Result<(), NoMemory>
    requires scene { SceneFits scene.now }
    requires room { stage + length flights.now < 100 }
    requires flights { StagesFit scene.now stage flights.now }
    ensures value { OnOk result (out.new
        ≡ out.old ++ from_last (scene_entries scene.now) stage flights.now) }
    ensures fits { OnOk result (WritesHereFit scene.now
        (from_last (scene_entries scene.now) stage flights.now)) }
{
    match flights {
        [] => Ok(()),
        [flight, rest @ ..] => {
            add_entries(alloc, scene, stage + 1, rest, out)?;
            add_flight_entries(alloc, scene, stage, flight, out)?;
            Ok(())
        }
    }
}

/// Adds the samples of the flights from a stage on, the last stage first.
pub(crate) fn add_samples(
    alloc: Global,
    scene: &Scene,
    stage: u32,
    flights: &[Option<Flight>],
    out: &mut Items<Sample>,
) -> Result<(), NoMemory>
    requires scene { SceneFits scene.now }
    requires room { stage + length flights.now < 100 }
    requires flights { StagesFit scene.now stage flights.now }
    ensures { OnOk result (out.new
        ≡ out.old ++ from_last (scene_samples scene.now) stage flights.now) }
{
    match flights {
        [] => Ok(()),
        [flight, rest @ ..] => {
            add_samples(alloc, scene, stage + 1, rest, out)?;
            add_flight_samples(alloc, scene, stage, flight, out)
        }
    }
}

/// Adds the stages that the flights from a stage on pass, the last stage first.
pub(crate) fn add_passes(
    scene: &Scene,
    stage: u32,
    flights: &[Option<Flight>],
    out: &mut Items<Pass>,
) -> Result<(), NoMemory>
    requires room { stage + length flights.now < 100 }
    ensures { OnOk result (out.new
        ≡ out.old ++ from_last (scene_passes scene.now) stage flights.now) }
{
    match flights {
        [] => Ok(()),
        [flight, rest @ ..] => {
            add_passes(scene, stage + 1, rest, out)?;
            add_flight_passes(scene, stage, flight, out)
        }
    }
}

/// Adds the numbers of the flights from a stage on that aren't killed, the last stage first.
pub(crate) fn add_numbers(
    scene: &Scene,
    stage: u32,
    flights: &[Option<Flight>],
    out: &mut Items<u64>,
) -> Result<(), NoMemory>
    requires room { stage + length flights.now < 100 }
    ensures { OnOk result (out.new
        ≡ out.old ++ from_last (scene_number scene.now) stage flights.now) }
{
    match flights {
        [] => Ok(()),
        [flight, rest @ ..] => {
            add_numbers(scene, stage + 1, rest, out)?;
            add_flight_number(scene, stage, flight, out)
        }
    }
}

/// What leaves a stage for the next one.
fn leaving(
    alloc: Global,
    scene: &Scene,
    stage: u32,
    flight: &Option<Flight>,
) -> Result<Option<Flight>, NoMemory>
    requires scene { SceneFits scene.now }
    requires flight { StageFits scene.now stage flight.now }
    ensures value { IfOk result (λ l. l ≡ scene_leaving scene.now stage flight.now) }
    ensures fits { IfOk result (λ l. StageFits scene.now (stage + 1) l) }
{
    let Some(flight) = flight else {
        return Ok(None);
    };
    match effect_in(alloc, scene, stage, flight)? {
        Some(effect) => Ok(Some(Flight {
            number: flight.number,
            word: flight.word,
            place: flight.place,
            locals: effect.locals,
            waited: 0,
        })),
        None => Ok(None),
    }
}

/// What stays in a stage.
fn staying(alloc: Global, flight: &Option<Flight>) -> Result<Option<Flight>, NoMemory>
    requires { IfSome flight.now (λ f. f.waited < 2 ^ 63) }
    ensures { IfOk result (λ s. s ≡ option_map staying flight.now) }
{
    match flight {
        Some(f) => Ok(Some(Flight {
            number: f.number,
            word: f.word,
            place: f.place,
            locals: Items::copy_of(alloc, f.locals.as_slice())?,
            waited: f.waited + 1,
        })),
        None => Ok(None),
    }
}

/// What stands in a stage after the cycle.
fn standing(
    alloc: Global,
    held: bool,
    flight: &Option<Flight>,
    coming: Option<Flight>,
) -> Result<Option<Flight>, NoMemory>
    requires { IfSome flight.now (λ f. f.waited < 2 ^ 63) }
    ensures { IfOk result (λ s. s ≡ (if held then option_map staying flight.now else coming)) }
{
    if held {
        staying(alloc, flight)
    } else {
        Ok(coming)
    }
}

/// Adds the flights after the cycle, from a stage on, to which this comes from the stage before.
pub(crate) fn add_flights(
    alloc: Global,
    scene: &Scene,
    stage: u32,
    coming: Option<Flight>,
    flights: &[Option<Flight>],
    out: &mut Items<Option<Flight>>,
) -> Result<(), NoMemory>
    requires scene { SceneFits scene.now }
    requires room { stage + length flights.now < 100 }
    requires flights { StagesFit scene.now stage flights.now }
    requires waits { WaitsWithin (2 ^ 63) flights.now }
    requires coming { StageFits scene.now stage coming }
    ensures value { OnOk result (out.new
        ≡ out.old ++ scene_flights scene.now stage coming flights.now) }
    ensures fits { OnOk result (StagesFit scene.now stage
        (scene_flights scene.now stage coming flights.now)) }
{
    match flights {
        [] => Ok(()),
        [flight, rest @ ..] => {
            let left = leaving(alloc, scene, stage, flight)?;
            out.push(standing(alloc, is_held(scene, stage), flight, coming)?)?;
            add_flights(alloc, scene, stage + 1, left, rest, out)?;
            Ok(())
        }
    }
}
