//! Tables of two designs, from their paths to their selections. Each table is made by a function of its own, so that a test looks at
//! the table alone.
ghost use Rattle.std.specs.Prelude.{◌≡◌, IfOk, true};
ghost use Rattle.ap_desc.specs.Clean.{IsClean};
ghost use Rattle.ap_desc.specs.Sound.{IsSound};
ghost use Rattle.path_tests.specs.Examples.{increments, nine_users};

use crate::design::{increments, nine_users};
use ap_bits::NoMemory;
use ap_desc::design::{Arg, Design, Node};
use ap_merge::{Merged, Select, Source, merge};
use ap_path::{PathPort, PathTable, paths};
use ap_pipe::{SlotTable, slots};
use std::alloc::Global;
use std::test::Fail;

/// The designs are sound.
fn designs_are_sound()
    ensures increments { IsSound increments }
    ensures nine { IsSound nine_users }
{}

/// Whether neither words nor ports and stages have a fault.
#[tactic(auto, using(crate::proofs::Cleaned::cleaned))]
fn is_faultless(design: &Design) -> Result<bool, NoMemory>
    requires { IsSound design.now }
    ensures { IfOk result (λ faultless. faultless ≡ true → IsClean design.now) }
{
    let None = ap_enc::judge(design) else {
        return Ok(false);
    };
    let None = ap_ports::judge(design)? else {
        return Ok(false);
    };
    Ok(true)
}

/// The design that adds a field to the register, of which it is known here that it is sound.
fn sound_increments(alloc: Global) -> Result<Design, NoMemory>
    ensures { IfOk result IsSound }
{
    designs_are_sound();
    let design = increments(alloc)?;
    Ok(design)
}

/// That of nine users of one unit.
fn sound_nine_users(alloc: Global) -> Result<Design, NoMemory>
    ensures { IfOk result IsSound }
{
    designs_are_sound();
    let design = nine_users(alloc)?;
    Ok(design)
}

/// The paths of a design.
fn paths_of(alloc: Global, design: &Design) -> Result<Option<PathTable>, NoMemory>
    requires { IsSound design.now }
{
    if !is_faultless(design)? {
        return Ok(None);
    }
    let table = paths(alloc, design)?;
    Ok(Some(table))
}

/// Its slots.
fn slots_of(alloc: Global, design: &Design) -> Result<Option<SlotTable>, NoMemory>
    requires { IsSound design.now }
{
    if !is_faultless(design)? {
        return Ok(None);
    }
    let table = paths(alloc, design)?;
    let slots = slots(alloc, design, &table)?;
    Ok(Some(slots))
}

/// Its selections.
fn selections_of(alloc: Global, design: &Design) -> Result<Option<Merged>, NoMemory>
    requires { IsSound design.now }
{
    if !is_faultless(design)? {
        return Ok(None);
    }
    let table = paths(alloc, design)?;
    let merged = merge(alloc, design, &table)?;
    Ok(Some(merged))
}

#[test]
fn paths_of_increments(rt: HostRuntime) -> Result<(), Fail> {
    let design = sound_increments(rt.alloc())?;
    let table = paths_of(rt.alloc(), &design)?;
    let Some(table) = table else {
        assert!(rt; false);
        return Ok(());
    };
    let uses = table.uses.as_slice();
    assert_eq!(rt; uses.len(), 2);
    let (first, second) = (&uses[0], &uses[1]);
    assert_eq!(rt; (first.instr, first.micro, first.stage), (1, 2, 2));
    assert_eq!(rt; first.port, PathPort::Unit(0));
    let operands = [Arg::Local(1), Arg::Local(0)];
    assert_eq!(rt; first.operands.as_slice(), operands.as_slice());
    assert_eq!(rt; (second.instr, second.micro, second.stage), (1, 3, 2));
    assert_eq!(rt; second.port, PathPort::RegWrite(0));
    Ok(())
}

#[test]
fn orders_of_increments(rt: HostRuntime) -> Result<(), Fail> {
    let design = sound_increments(rt.alloc())?;
    let table = paths_of(rt.alloc(), &design)?;
    let Some(table) = table else {
        assert!(rt; false);
        return Ok(());
    };
    let orders = table.orders.as_slice();
    assert_eq!(rt; orders.len(), 2);
    assert!(rt; orders[0].is_empty());
    assert_eq!(rt; orders[1].as_slice(), [Node::Unit(0)].as_slice());
    Ok(())
}

#[test]
fn slots_of_increments(rt: HostRuntime) -> Result<(), Fail> {
    let design = sound_increments(rt.alloc())?;
    let slots = slots_of(rt.alloc(), &design)?;
    let Some(slots) = slots else {
        assert!(rt; false);
        return Ok(());
    };
    let stages = slots.stages.as_slice();
    assert_eq!(rt; stages.len(), 2);
    assert!(rt; stages[0].widths.is_empty());
    assert_eq!(rt; stages[1].widths.as_slice(), [8, 8].as_slice());
    assert_eq!(rt; stages[1].homes.len(), 2);
    Ok(())
}

#[test]
fn selections_of_increments(rt: HostRuntime) -> Result<(), Fail> {
    let design = sound_increments(rt.alloc())?;
    let merged = selections_of(rt.alloc(), &design)?;
    let Some(merged) = merged else {
        assert!(rt; false);
        return Ok(());
    };
    let choices = merged.choices.as_slice();
    assert_eq!(rt; choices.len(), 3);
    let (first, second, third) = (&choices[0], &choices[1], &choices[2]);
    assert_eq!(rt; (first.port, first.operand), (PathPort::Unit(0), 0));
    let source = Source {
        instr: 1,
        from: Arg::Local(1),
    };
    assert_eq!(rt; first.entries.as_slice(), [source].as_slice());
    assert!(rt; matches!(first.select, Select::Take(0)));
    assert_eq!(rt; (second.port, second.operand), (PathPort::Unit(0), 1));
    assert_eq!(rt; (third.port, third.operand), (PathPort::RegWrite(0), 0));
    Ok(())
}

/// How many questions a selection asks at most.
fn depth(select: &Select) -> u32 {
    match select {
        Select::Take(_) => 0,
        Select::Ask { yes, no, .. } => depth(yes.get()).max(depth(no.get())).saturating_add(1),
    }
}

#[test]
fn nine_users_of_a_unit(rt: HostRuntime) -> Result<(), Fail> {
    let design = sound_nine_users(rt.alloc())?;
    let merged = selections_of(rt.alloc(), &design)?;
    let Some(merged) = merged else {
        assert!(rt; false);
        return Ok(());
    };
    let choices = merged.choices.as_slice();
    assert_eq!(rt; choices.len(), 3);
    let first = &choices[0];
    assert_eq!(rt; (first.port, first.operand), (PathPort::Unit(0), 0));
    assert_eq!(rt; first.entries.len(), 9);
    assert_eq!(rt; depth(&first.select), 4);
    Ok(())
}
