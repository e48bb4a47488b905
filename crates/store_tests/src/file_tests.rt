//! Register files, cycle by cycle: the values were worked out by hand from the rules of writes.
ghost use Rattle.std.specs.Prelude.{◌≡◌, ◌<◌, All, IsTrue};
ghost use Rattle.ap_desc.specs.Designs as designs;
ghost use Rattle.ap_desc.specs.Designs.{is_file_within};

use crate::bench::Bench;
use ap_bits::{Name, NoMemory};
use ap_desc::design::File;
use ap_net::module::Module;
use ap_store::file_module;
use std::alloc::Global;
use std::process::Abort;
use std::test::Fail;

/// The inputs of a cycle in the order of the ports, and the values that the read ports show.
struct Cycle {
    inputs: &'static [u64],
    shown: &'static [u64],
}

/// What a file shows in some cycles, and its cells after them.
struct Run {
    cells: u32,
    width: u32,
    reads: u32,
    writes: u32,
    stages: &'static [u32],
    cycles: &'static [Cycle],
    held: &'static [u64],
}

/// Inputs are for each read port the index, then for each write port the enable, the index and the value.
const RUNS: &[Run] = &[
    // Both write cell 1, port 0 in stage 2 and port 1 in stage 3: the younger instruction's value, 9, stands. The read of the
    // cell in that cycle shows what it held before.
    Run {
        cells: 2,
        width: 8,
        reads: 1,
        writes: 2,
        stages: &[2, 3],
        cycles: &[
            Cycle {
                inputs: &[1, 1, 1, 9, 1, 1, 7],
                shown: &[0],
            },
            Cycle {
                inputs: &[1, 0, 0, 0, 0, 0, 0],
                shown: &[9],
            },
        ],
        held: &[0, 9],
    },
    // The same with the stages the other way round.
    Run {
        cells: 2,
        width: 8,
        reads: 1,
        writes: 2,
        stages: &[3, 2],
        cycles: &[Cycle {
            inputs: &[0, 1, 1, 9, 1, 1, 7],
            shown: &[0],
        }],
        held: &[0, 7],
    },
    // Both in one stage: the higher port number stands. Then they write two cells, of which one is written once more.
    Run {
        cells: 4,
        width: 4,
        reads: 2,
        writes: 2,
        stages: &[5, 5],
        cycles: &[
            Cycle {
                inputs: &[0, 3, 1, 3, 6, 1, 3, 11],
                shown: &[0, 0],
            },
            Cycle {
                inputs: &[3, 0, 1, 0, 5, 1, 2, 15],
                shown: &[11, 0],
            },
            Cycle {
                inputs: &[0, 2, 0, 0, 1, 1, 0, 2],
                shown: &[5, 15],
            },
            Cycle {
                inputs: &[0, 1, 0, 0, 0, 0, 0, 0],
                shown: &[2, 0],
            },
        ],
        held: &[2, 0, 15, 11],
    },
    // Nothing is written through a port that no line uses.
    Run {
        cells: 2,
        width: 64,
        reads: 1,
        writes: 2,
        stages: &[1, 0],
        cycles: &[
            Cycle {
                inputs: &[0, 1, 0, u64::MAX, 1, 1, 7],
                shown: &[0],
            },
            Cycle {
                inputs: &[1, 0, 0, 0, 1, 0, 7],
                shown: &[0],
            },
        ],
        held: &[u64::MAX, 0],
    },
    // One write port, three read ports, eight cells.
    Run {
        cells: 8,
        width: 1,
        reads: 3,
        writes: 1,
        stages: &[7],
        cycles: &[
            Cycle {
                inputs: &[5, 4, 1, 1, 5, 1],
                shown: &[0, 0, 0],
            },
            Cycle {
                inputs: &[5, 4, 1, 1, 4, 1],
                shown: &[1, 0, 0],
            },
            Cycle {
                inputs: &[5, 4, 1, 1, 5, 0],
                shown: &[1, 1, 0],
            },
        ],
        held: &[0, 0, 0, 0, 1, 0, 0, 0],
    },
];

/// Whether the number lies between these two.
fn is_between(low: u32, high: u32, number: u32) -> bool
    ensures { result ≡ designs.is_between low high number }
{
    (low..=high).contains(&number)
}

/// Whether a file may have so many cells.
fn is_cell_count(cells: u32) -> bool
    ensures { IsTrue result → IsTrue (designs.is_cell_count cells) }
{
    matches!(cells, 2 | 4 | 8 | 16 | 32 | 64)
}

/// Whether a file of these numbers is within the limits of the language.
fn is_within(file: &File) -> bool
    ensures { IsTrue result → IsTrue (is_file_within file.now) }
{
    if !is_between(1, 64, file.width) {
        return false;
    }
    if !is_cell_count(file.cells) {
        return false;
    }
    if !is_between(1, 4, file.reads) {
        return false;
    }
    is_between(1, 2, file.writes)
}

/// Whether each is a stage, or 0.
fn are_stages(stages: &[u32]) -> bool
    ensures { IsTrue result → All (λ stage. stage < 8) stages.now }
{
    stages.iter().all(|stage| *stage < 8)
}

/// The module of a file, where it is within the limits and each write port has a stage.
fn module_of(alloc: Global, file: &File, stages: &[u32]) -> Result<Option<Module>, NoMemory> {
    if !is_within(file) {
        return Ok(None);
    }
    if stages.len() != file.writes as usize {
        return Ok(None);
    }
    if !are_stages(stages) {
        return Ok(None);
    }
    let module = file_module(alloc, file, stages)?;
    Ok(Some(module))
}

/// The module of a file of these numbers.
fn built(rt: &impl Abort, alloc: Global, run: &Run) -> Result<Module, Fail> {
    let file = File {
        name: Name::new(alloc, b"F")?,
        width: run.width,
        cells: run.cells,
        reads: run.reads,
        writes: run.writes,
    };
    let Some(module) = module_of(alloc, &file, run.stages)? else {
        panic!(rt; "no file has these numbers")
    };
    Ok(module)
}

/// Whether a module has this name.
fn is_named(module: &Module, name: &str) -> bool {
    module.name().as_str() == name
}

/// Runs a file through its cycles.
fn expect_run(rt: &impl Abort, alloc: Global, run: &Run) -> Result<(), Fail> {
    let module = built(rt, alloc, run)?;
    assert!(rt; is_named(&module, "rf_F"));
    let mut bench = Bench::start(alloc, &module)?;
    for cycle in run.cycles {
        bench.settle(&module, cycle.inputs);
        for (port, value) in cycle.shown.iter().enumerate() {
            assert_eq!(rt; bench.get(port.saturating_mul(2).saturating_add(1)), *value);
        }
        bench.edge(&module)?;
    }
    for (next, value) in module.nexts().iter().zip(run.held) {
        assert_eq!(rt; bench.get(next.register.number), *value);
    }
    Ok(())
}

#[test]
fn reads_and_writes_cells(rt: HostRuntime) -> Result<(), Fail> {
    let alloc = rt.alloc();
    for run in RUNS {
        expect_run(&rt, alloc, run)?;
    }
    Ok(())
}

/// A file with one write port and one with a second port that no line uses.
const WITHOUT_AND_WITH: [Run; 2] = [
    Run {
        cells: 16,
        width: 8,
        reads: 2,
        writes: 1,
        stages: &[3],
        cycles: &[],
        held: &[],
    },
    Run {
        cells: 16,
        width: 8,
        reads: 2,
        writes: 2,
        stages: &[3, 0],
        cycles: &[],
        held: &[],
    },
];

#[test]
fn unused_ports_cost_no_cell(rt: HostRuntime) -> Result<(), Fail> {
    let alloc = rt.alloc();
    let [without, with] = &WITHOUT_AND_WITH;
    let without = built(&rt, alloc, without)?;
    let with = built(&rt, alloc, with)?;
    assert_eq!(rt; with.assigns().len(), without.assigns().len());
    assert_eq!(rt; with.ports().len(), without.ports().len().saturating_add(3));
    Ok(())
}
