//! The smallest processor: it only counts its pc up. The laws on ready nets show that it runs on every image and trace.
ghost use Rattle.std.specs.Prelude.{◌≡◌, [], IfOk};
ghost use Rattle.ap_net.specs.Flat.{opened_over};
ghost use Rattle.ap_net.specs.Answering.{AlwaysRuns};
ghost use Rattle.circuit_tests.specs.Counter.{counter_draft, counter_outside};

use ap_net::NoMemory;
use ap_net::builder::Builder;
use ap_net::cell::{Cell, TwoOp};
use ap_net::module::Module;
use ap_net::readiness::{ready_nets_are_driven, ready_nets_run};
use std::alloc::Global;

/// Its circuit.
fn circuit(alloc: Global) -> Result<Builder, NoMemory>
    ensures { IfOk result (λ d. d ≡ counter_draft) }
{
    let mut out = Builder::new(alloc, b"top")?;
    let iaddr = out.output(b"iaddr", 4)?;
    out.input(b"idata", 8)?;
    out.input(b"mwait", 1)?;
    let stall = out.output(b"stall", 1)?;
    let kill = out.output(b"kill", 1)?;
    let pc = out.register(b"pc", 4, 0)?;
    let one = out.make(4, Cell::Const(1))?;
    let after = out.make(4, Cell::Two(TwoOp::Add, pc, one))?;
    out.cell(iaddr, Cell::Copy(pc))?;
    out.cell(stall, Cell::Const(0))?;
    out.cell(kill, Cell::Const(0))?;
    out.next(pc, after)?;
    Ok(out)
}

/// Its module. It runs on every image and trace that fit its shape, for any number of cycles.
pub fn counter(alloc: Global) -> Result<Module, NoMemory>
    ensures { IfOk result (λ top. AlwaysRuns counter_outside (opened_over [] top)) }
{
    let out = circuit(alloc)?;
    out.rules();
    ready_nets_are_driven();
    ready_nets_run();
    let top = out.finish()?;
    top.rules();
    Ok(top)
}
