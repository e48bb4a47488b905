//! The order of a stage's nodes, and the lines that close a loop.
ghost use Rattle.std.specs.Prelude.{[], ◌∷◌};
ghost use Rattle.ap_desc.specs.Sound.{IsSound};
ghost use Rattle.language_tests.specs.PortExamples.{ports_design, sums_apart, two_sums};

use crate::port_designs::{SHORT, design, sums_apart, two_sums};
use ap_bits::NoMemory;
use ap_desc::design::{Design, Node};
use ap_ports::{ChainFault, chain_order};
use std::alloc::Global;
use std::test::Fail;

/// What the nodes of a stage are found to be.
#[derive(Clone, Copy, Debug, PartialEq, Eq)]
enum Found {
    /// None.
    Nothing,
    /// Two units in this order.
    Pair(u32, u32),
    /// Others.
    Others,
    /// This line closes a loop.
    Loop(u32),
}

fn order_in(alloc: Global, design: &Design, stage: u32) -> Result<Found, NoMemory>
    requires { IsSound design.now }
{
    match chain_order(alloc, design, stage) {
        Ok(order) => Ok(match order.as_slice() {
            [] => Found::Nothing,
            [Node::Unit(first), Node::Unit(second)] => Found::Pair(*first, *second),
            _ => Found::Others,
        }),
        Err(ChainFault::Loop { line }) => Ok(Found::Loop(line)),
        Err(ChainFault::NoMemory) => Err(NoMemory),
    }
}

/// The order of a stage's nodes, where one unit stands after another.
fn order_of(alloc: Global, second: u32, stage: u32) -> Result<Found, NoMemory>
    requires { IsSound (ports_design 4 2 1 (8 ∷ 8 ∷ 8 ∷ []) (two_sums 20 0 second) [] [] [] []) }
{
    let lines = two_sums(20, 0, second);
    let design = design(alloc, SHORT, &[8, 8, 8], &lines, &[], &[], &[], &[])?;
    order_in(alloc, &design, stage)
}

/// The order of stage 2, where one unit stands after the other in one instruction, and before it in another one, but a stage earlier.
fn order_at_border(alloc: Global) -> Result<Found, NoMemory>
    requires { IsSound (ports_design 4 2 1 (8 ∷ 8 ∷ 8 ∷ []) (two_sums 20 0 1) (8 ∷ 8 ∷ 8 ∷ [])
        (sums_apart 1 0) [] []) }
{
    let first = two_sums(20, 0, 1);
    let second = sums_apart(1, 0);
    let design = design(
        alloc,
        SHORT,
        &[8, 8, 8],
        &first,
        &[8, 8, 8],
        &second,
        &[],
        &[],
    )?;
    order_in(alloc, &design, 2)
}

/// The designs are sound.
fn ordered_designs_are_sound()
    ensures one { IsSound (ports_design 4 2 1 (8 ∷ 8 ∷ 8 ∷ []) (two_sums 20 0 0) [] [] [] []) }
    ensures two { IsSound (ports_design 4 2 1 (8 ∷ 8 ∷ 8 ∷ []) (two_sums 20 0 1) [] [] [] []) }
    ensures border { IsSound (ports_design 4 2 1 (8 ∷ 8 ∷ 8 ∷ []) (two_sums 20 0 1)
        (8 ∷ 8 ∷ 8 ∷ []) (sums_apart 1 0) [] []) }
{}

#[test]
fn orders_of_units(rt: HostRuntime) -> Result<(), Fail> {
    ordered_designs_are_sound();
    let alloc = rt.alloc();
    assert_eq!(rt; order_of(alloc, 1, 2)?, Found::Pair(0, 1));
    assert_eq!(rt; order_of(alloc, 1, 7)?, Found::Nothing);
    assert_eq!(rt; order_of(alloc, 0, 2)?, Found::Loop(23));
    assert_eq!(rt; order_at_border(alloc)?, Found::Pair(0, 1));
    Ok(())
}
