//! Designs with one fault of ports and stages, each beside one like it that has none, and loops through each sort of node.
ghost use Rattle.std.specs.Prelude.{[], ◌∷◌};
ghost use Rattle.ap_desc.specs.Sound.{IsSound};
ghost use Rattle.language_tests.specs.PortExamples.{far_memory, file_to_sum, memory_to_sum, one_sum, one_write, ports_design, slow_input, sum_to_file, sum_to_memory, two_sums};

use crate::port_designs::{
    SHORT, Shape, design, far_memory, file_to_sum, memory_to_sum, one_sum, one_write, slow_input,
    sum_to_file, sum_to_memory, two_sums,
};
use ap_bits::NoMemory;
use ap_desc::{Fault, Refusal};
use ap_ports::judge;
use std::alloc::Global;
use std::test::Fail;

/// One unit after another, in one instruction.
fn judged_sums(alloc: Global, second: u32) -> Result<Option<Refusal>, NoMemory>
    requires { IsSound (ports_design 4 2 1 (8 ∷ 8 ∷ 8 ∷ []) (two_sums 20 0 second) [] [] [] []) }
{
    let lines = two_sums(20, 0, second);
    let design = design(alloc, SHORT, &[8, 8, 8], &lines, &[], &[], &[], &[])?;
    judge(&design)
}

/// A unit in stage 1, and in another instruction in this stage.
fn judged_stages(alloc: Global, stage: u32) -> Result<Option<Refusal>, NoMemory>
    requires { IsSound (ports_design 4 2 1 (8 ∷ 8 ∷ []) (one_sum 20 1) (8 ∷ 8 ∷ []) (one_sum 30 stage)
        [] []) }
{
    let first = one_sum(20, 1);
    let second = one_sum(30, stage);
    let design = design(alloc, SHORT, &[8, 8], &first, &[8, 8], &second, &[], &[])?;
    judge(&design)
}

/// A write, with transfers in stage 4 and one slot.
fn judged_write(alloc: Global, first: u32, second: u32) -> Result<Option<Refusal>, NoMemory>
    requires { IsSound (ports_design 6 4 1 (8 ∷ []) (one_write first second) [] [] [] []) }
{
    let shape = Shape {
        stages: 6,
        branch: 4,
        slots: 1,
    };
    let lines = one_write(first, second);
    let design = design(alloc, shape, &[8], &lines, &[], &[], &[], &[])?;
    judge(&design)
}

/// Transfers in stage 1.
fn judged_slots(alloc: Global, slots: u32) -> Result<Option<Refusal>, NoMemory>
    requires { IsSound (ports_design 4 1 slots [] [] [] [] [] []) }
{
    let shape = Shape {
        stages: 4,
        branch: 1,
        slots,
    };
    let design = design(alloc, shape, &[], &[], &[], &[], &[], &[])?;
    judge(&design)
}

/// A slow unit that takes an input of this stage.
fn judged_input(alloc: Global, stage: u32) -> Result<Option<Refusal>, NoMemory>
    requires { IsSound (ports_design 4 2 1 (8 ∷ 8 ∷ []) (slow_input stage) [] [] [] []) }
{
    let lines = slow_input(stage);
    let design = design(alloc, SHORT, &[8, 8], &lines, &[], &[], &[], &[])?;
    judge(&design)
}

/// A unit that takes a word of a memory through wiring and another unit.
fn judged_memory(alloc: Global, unit: u32) -> Result<Option<Refusal>, NoMemory>
    requires { IsSound (ports_design 4 2 1 (8 ∷ 8 ∷ 8 ∷ 8 ∷ []) (far_memory unit) [] [] [] []) }
{
    let lines = far_memory(unit);
    let design = design(alloc, SHORT, &[8, 8, 8, 8], &lines, &[], &[], &[], &[])?;
    judge(&design)
}

/// Two units that feed each other.
fn judged_loop(alloc: Global) -> Result<Option<Refusal>, NoMemory>
    requires { IsSound (ports_design 4 2 1 (8 ∷ 8 ∷ 8 ∷ []) (two_sums 20 0 1) (8 ∷ 8 ∷ 8 ∷ [])
        (two_sums 30 1 0) [] []) }
{
    let first = two_sums(20, 0, 1);
    let second = two_sums(30, 1, 0);
    let design = design(
        alloc,
        SHORT,
        &[8, 8, 8],
        &first,
        &[8, 8, 8],
        &second,
        &[],
        &[],
    )?;
    judge(&design)
}

/// A unit and a file's read port that feed each other.
fn judged_file(alloc: Global) -> Result<Option<Refusal>, NoMemory>
    requires { IsSound (ports_design 4 2 1 (8 ∷ 6 ∷ 8 ∷ 8 ∷ []) file_to_sum (8 ∷ 8 ∷ 6 ∷ 8 ∷ [])
        sum_to_file [] []) }
{
    let first = file_to_sum();
    let second = sum_to_file();
    let design = design(
        alloc,
        SHORT,
        &[8, 6, 8, 8],
        &first,
        &[8, 8, 6, 8],
        &second,
        &[],
        &[],
    )?;
    judge(&design)
}

/// A unit and a memory that feed each other, by two instructions.
fn judged_reading(alloc: Global) -> Result<Option<Refusal>, NoMemory>
    requires { IsSound (ports_design 4 2 1 [] [] (8 ∷ 8 ∷ 8 ∷ []) (sum_to_memory 0)
        (8 ∷ 8 ∷ 8 ∷ []) memory_to_sum) }
{
    let second = sum_to_memory(0);
    let third = memory_to_sum();
    let design = design(
        alloc,
        SHORT,
        &[],
        &[],
        &[8, 8, 8],
        &second,
        &[8, 8, 8],
        &third,
    )?;
    judge(&design)
}

/// Two units and a memory in a ring, by three instructions.
fn judged_ring(alloc: Global) -> Result<Option<Refusal>, NoMemory>
    requires { IsSound (ports_design 4 2 1 (8 ∷ 8 ∷ 8 ∷ []) (two_sums 20 0 1) (8 ∷ 8 ∷ 8 ∷ [])
        (sum_to_memory 1) (8 ∷ 8 ∷ 8 ∷ []) memory_to_sum) }
{
    let first = two_sums(20, 0, 1);
    let second = sum_to_memory(1);
    let third = memory_to_sum();
    let design = design(
        alloc,
        SHORT,
        &[8, 8, 8],
        &first,
        &[8, 8, 8],
        &second,
        &[8, 8, 8],
        &third,
    )?;
    judge(&design)
}

/// The designs that are judged are sound.
fn port_designs_are_sound()
    ensures twice { IsSound (ports_design 4 2 1 (8 ∷ 8 ∷ 8 ∷ []) (two_sums 20 0 0) [] [] [] []) }
    ensures once { IsSound (ports_design 4 2 1 (8 ∷ 8 ∷ 8 ∷ []) (two_sums 20 0 1) [] [] [] []) }
    ensures apart { IsSound (ports_design 4 2 1 (8 ∷ 8 ∷ []) (one_sum 20 1) (8 ∷ 8 ∷ [])
        (one_sum 30 2) [] []) }
    ensures together { IsSound (ports_design 4 2 1 (8 ∷ 8 ∷ []) (one_sum 20 1) (8 ∷ 8 ∷ [])
        (one_sum 30 1) [] []) }
{}

fn stage_designs_are_sound()
    ensures zero { IsSound (ports_design 6 4 1 (8 ∷ []) (one_write 0 2) [] [] [] []) }
    ensures back { IsSound (ports_design 6 4 1 (8 ∷ []) (one_write 3 2) [] [] [] []) }
    ensures early { IsSound (ports_design 6 4 1 (8 ∷ []) (one_write 1 1) [] [] [] []) }
    ensures right { IsSound (ports_design 6 4 1 (8 ∷ []) (one_write 1 2) [] [] [] []) }
    ensures many { IsSound (ports_design 4 1 2 [] [] [] [] [] []) }
    ensures few { IsSound (ports_design 4 1 1 [] [] [] [] [] []) }
{}

fn loop_designs_are_sound()
    ensures units { IsSound (ports_design 4 2 1 (8 ∷ 8 ∷ 8 ∷ []) (two_sums 20 0 1)
        (8 ∷ 8 ∷ 8 ∷ []) (two_sums 30 1 0) [] []) }
    ensures file { IsSound (ports_design 4 2 1 (8 ∷ 6 ∷ 8 ∷ 8 ∷ []) file_to_sum
        (8 ∷ 8 ∷ 6 ∷ 8 ∷ []) sum_to_file [] []) }
    ensures ring { IsSound (ports_design 4 2 1 (8 ∷ 8 ∷ 8 ∷ []) (two_sums 20 0 1)
        (8 ∷ 8 ∷ 8 ∷ []) (sum_to_memory 1) (8 ∷ 8 ∷ 8 ∷ []) memory_to_sum) }
    ensures memory { IsSound (ports_design 4 2 1 [] [] (8 ∷ 8 ∷ 8 ∷ []) (sum_to_memory 0)
        (8 ∷ 8 ∷ 8 ∷ []) memory_to_sum) }
{}

fn slow_designs_are_sound()
    ensures same { IsSound (ports_design 4 2 1 (8 ∷ 8 ∷ []) (slow_input 2) [] [] [] []) }
    ensures before { IsSound (ports_design 4 2 1 (8 ∷ 8 ∷ []) (slow_input 1) [] [] [] []) }
    ensures slow { IsSound (ports_design 4 2 1 (8 ∷ 8 ∷ 8 ∷ 8 ∷ []) (far_memory 2) [] [] [] []) }
    ensures quick { IsSound (ports_design 4 2 1 (8 ∷ 8 ∷ 8 ∷ 8 ∷ []) (far_memory 1) [] [] [] []) }
{}

fn refused(phase: u32, line: u32, kind: Fault) -> Option<Refusal> {
    Some(Refusal { phase, line, kind })
}

#[test]
fn faults_of_ports(rt: HostRuntime) -> Result<(), Fail> {
    port_designs_are_sound();
    let alloc = rt.alloc();
    let twice = refused(5, 23, Fault::TwiceInInstruction);
    assert_eq!(rt; judged_sums(alloc, 0)?, twice);
    assert_eq!(rt; judged_sums(alloc, 1)?, None);
    assert_eq!(rt; judged_stages(alloc, 2)?, refused(5, 32, Fault::TwoStages));
    assert_eq!(rt; judged_stages(alloc, 1)?, None);
    Ok(())
}

#[test]
fn faults_of_stages(rt: HostRuntime) -> Result<(), Fail> {
    stage_designs_are_sound();
    let alloc = rt.alloc();
    assert_eq!(rt;
        judged_write(alloc, 0, 2)?,
        refused(6, 21, Fault::StageZero)
    );
    assert_eq!(rt;
        judged_write(alloc, 3, 2)?,
        refused(6, 22, Fault::StageOrder)
    );
    assert_eq!(rt;
        judged_write(alloc, 1, 1)?,
        refused(6, 22, Fault::EarlyCommit)
    );
    assert_eq!(rt; judged_write(alloc, 1, 2)?, None);
    assert_eq!(rt; judged_slots(alloc, 2)?, refused(6, 4, Fault::TooManySlots));
    assert_eq!(rt; judged_slots(alloc, 1)?, None);
    Ok(())
}

#[test]
fn loops_of_stages(rt: HostRuntime) -> Result<(), Fail> {
    loop_designs_are_sound();
    let alloc = rt.alloc();
    assert_eq!(rt; judged_loop(alloc)?, refused(6, 33, Fault::ChainLoop));
    assert_eq!(rt; judged_file(alloc)?, refused(6, 34, Fault::ChainLoop));
    assert_eq!(rt; judged_reading(alloc)?, refused(6, 43, Fault::ChainLoop));
    assert_eq!(rt; judged_ring(alloc)?, refused(6, 43, Fault::ChainLoop));
    Ok(())
}

#[test]
fn operands_of_slow_units(rt: HostRuntime) -> Result<(), Fail> {
    slow_designs_are_sound();
    let alloc = rt.alloc();
    assert_eq!(rt;
        judged_input(alloc, 2)?,
        refused(6, 22, Fault::UnstableOperand)
    );
    assert_eq!(rt; judged_input(alloc, 1)?, None);
    assert_eq!(rt;
        judged_memory(alloc, 2)?,
        refused(6, 24, Fault::UnstableOperand)
    );
    assert_eq!(rt; judged_memory(alloc, 1)?, None);
    Ok(())
}
