//! A write port with three writers. What they are made of are constants, so that a module needs no ports but the one that shows a net.
ghost use Rattle.std.specs.Prelude.{◌≡◌, ◌<◌, ◌≤◌, codes, length, IfOk, IfSome, OnOk, Some};
ghost use Rattle.std.specs.List.{AllByRecursion as Each};
ghost use Rattle.ap_ctl.specs.Building.{IsBit};
ghost use Rattle.ap_merge.specs.Selects.{GoesOver};
ghost use Rattle.ap_net.specs.Cells.{IsNet};
ghost use Rattle.ap_net.specs.Draft.{Adds, CanFresh, blank, names_of};
ghost use Rattle.ap_net.specs.Making.{Closes, Makes};
ghost use Rattle.ap_net.specs.Names.{IsNew};
ghost use Rattle.ap_effect.specs.Writers.{IsWriter};

use crate::evaluate::{Bench, cell_count};
use ap_bits::{Boxed, NoMemory};
use ap_effect::write::{WriteNets, Writer, write_nets};
use ap_merge::Select;
use ap_net::builder::Builder;
use ap_net::cell::{Cell, Wire};
use ap_net::module::Module;
use ap_stage::wiring::constant;
use std::alloc::Global;
use std::test::Fail;

/// A selection among the entries from `from` up to the one before `to`, by halves.
pub(crate) fn halves(alloc: Global, from: u32, to: u32) -> Result<Select, NoMemory>
    requires { from < to }
    ensures { IfOk result (λ made. GoesOver made from to) }
{
    if to - from == 1 {
        return Ok(Select::Take(from));
    }
    let middle = from + (to - from) / 2;
    let yes = halves(alloc, from, middle)?;
    let no = halves(alloc, middle, to)?;
    let yes = Boxed::new(alloc, yes)?;
    let no = Boxed::new(alloc, no)?;
    Ok(Select::Ask {
        from,
        to: middle,
        yes,
        no,
    })
}

/// The module of what was built, in which the output `y` shows a net.
pub(crate) fn shown(mut out: Builder, net: Wire, width: u32) -> Result<Module, NoMemory>
    requires adds { Adds (blank out.name) out }
    requires closes { Closes (blank out.name) out }
    requires new { IsNew (codes "y") (names_of out) }
    requires net { IsNet out.nets net }
    requires wide { net.width ≡ width }
    requires low { 1 ≤ width }
    requires high { width ≤ 64 }
{
    out.show(b"y", width, Cell::Copy(net))?;
    out.finish()
}

/// A net of one bit.
pub(crate) fn bit(out: &mut Builder, on: bool) -> Result<Wire, NoMemory>
    requires { CanFresh out.old }
    ensures net { IfOk result (IsBit out.new.nets) }
    ensures makes { OnOk result (Makes out.old out.new) }
{
    let bit = constant(out, 1, u64::from(on))?;
    Ok(bit)
}

/// A guard, where there is to be one.
fn guard(out: &mut Builder, guard: Option<bool>) -> Result<Option<Wire>, NoMemory>
    requires { CanFresh out.old }
    ensures net { IfOk result (λ o. IfSome o (IsBit out.new.nets)) }
    ensures makes { OnOk result (Makes out.old out.new) }
{
    match guard {
        None => Ok(None),
        Some(on) => {
            let guard = bit(out, on)?;
            Ok(Some(guard))
        }
    }
}

/// A writer of 8 bits, with an index of 4.
fn writer(
    out: &mut Builder,
    on: bool,
    guarded: Option<bool>,
    index: u64,
    value: u64,
) -> Result<Writer, NoMemory>
    requires fresh { CanFresh out.old }
    requires index { index < 16 }
    requires value { value < 256 }
    ensures writer { IfOk result (IsWriter out.new.nets (Some 4) 8) }
    ensures makes { OnOk result (Makes out.old out.new) }
{
    let cond = bit(out, on)?;
    let guard = guard(out, guarded)?;
    let index = constant(out, 4, index)?;
    let value = constant(out, 8, value)?;
    Ok(Writer {
        cond,
        guard,
        index: Some(index),
        value,
    })
}

/// Three writers, of which the condition at one place alone is 1. The second has no guard.
fn three_writers(out: &mut Builder, on: u64, guard: bool) -> Result<Vec<Writer>, NoMemory>
    requires { CanFresh out.old }
    ensures writers { IfOk result (λ writers. Each (IsWriter out.new.nets (Some 4) 8) writers.items) }
    ensures count { IfOk result (λ writers. length writers.items ≡ 3) }
    ensures makes { OnOk result (Makes out.old out.new) }
{
    let mut writers = Vec::new(out.allocator());
    for place in 0..3u64 {
        let guarded = if place == 1 { None } else { Some(guard) };
        let made = writer(out, place == on, guarded, 1 + place, 10 + place)?;
        writers.push(made)?;
    }
    Ok(writers)
}

/// A net of a write port.
#[derive(Clone, Copy)]
enum Net {
    Enable,
    Index,
    Value,
}

/// The module in which `y` shows a net of the port.
fn show_net(out: Builder, nets: WriteNets, net: Net) -> Result<Module, NoMemory>
    requires adds { Adds (blank out.name) out }
    requires closes { Closes (blank out.name) out }
    requires new { IsNew (codes "y") (names_of out) }
    requires enable { IsBit out.nets nets.enable }
    requires index { IfSome nets.index (λ i. IsNet out.nets i × (i.width ≡ 4)) }
    requires value { IsNet out.nets nets.value }
    requires wide { nets.value.width ≡ 8 }
{
    match net {
        Net::Enable => shown(out, nets.enable, 1),
        Net::Value => shown(out, nets.value, 8),
        Net::Index => match nets.index {
            None => shown(out, nets.enable, 1),
            Some(index) => shown(out, index, 4),
        },
    }
}

/// The module in which `y` shows a net of a port with three writers.
fn three(alloc: Global, fires: bool, on: u64, guard: bool, net: Net) -> Result<Module, NoMemory> {
    let mut out = Builder::new(alloc, b"port")?;
    let writers = three_writers(&mut out, on, guard)?;
    let fires = bit(&mut out, fires)?;
    let select = halves(alloc, 0, 3)?;
    let nets = write_nets(&mut out, fires, &writers, &select, Some(4), 8)?;
    show_net(out, nets, net)
}

/// The value of a net of the port.
fn value(alloc: Global, fires: bool, on: u64, guard: bool, net: Net) -> Result<u64, NoMemory> {
    let module = three(alloc, fires, on, guard, net)?;
    let mut bench = Bench::new(alloc, &module)?;
    bench.run(&module);
    Ok(bench.get(0))
}

#[test]
fn one_of_three_writes(rt: HostRuntime) -> Result<(), Fail> {
    let alloc = rt.alloc();
    for on in 0..3u64 {
        assert_eq!(rt; value(alloc, true, on, true, Net::Enable)?, 1);
        assert_eq!(rt; value(alloc, true, on, true, Net::Index)?, 1 + on);
        assert_eq!(rt; value(alloc, true, on, true, Net::Value)?, 10 + on);
        // A stage that doesn't fire writes nothing.
        assert_eq!(rt; value(alloc, false, on, true, Net::Enable)?, 0);
    }
    Ok(())
}

#[test]
fn guards_are_looked_at(rt: HostRuntime) -> Result<(), Fail> {
    let alloc = rt.alloc();
    assert_eq!(rt; value(alloc, true, 0, false, Net::Enable)?, 0);
    assert_eq!(rt; value(alloc, true, 1, false, Net::Enable)?, 1);
    assert_eq!(rt; value(alloc, true, 2, false, Net::Enable)?, 0);
    // No instruction writes.
    assert_eq!(rt; value(alloc, true, 3, true, Net::Enable)?, 0);
    Ok(())
}

#[test]
fn a_port_has_few_cells(rt: HostRuntime) -> Result<(), Fail> {
    let module = three(rt.alloc(), true, 0, true, Net::Enable)?;
    // Constants: three conditions, two guards, three indices, three values, and whether the stage fires. Then two `&` with guards, two
    // `|` over the writers, one `&`; two selections of three, each by two `? :`; and the port.
    assert_eq!(rt; cell_count(&module), 12 + 5 + 4 + 1);
    Ok(())
}
