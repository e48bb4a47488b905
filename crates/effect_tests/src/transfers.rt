//! A branch and a jump.
ghost use Rattle.std.specs.Prelude.{◌≡◌, ◌<◌, length, map, IfOk, None, OnOk};
ghost use Rattle.std.specs.List.{AllByRecursion as Each};
ghost use Rattle.ap_net.specs.Draft.{CanFresh};
ghost use Rattle.ap_net.specs.Making.{Makes};
ghost use Rattle.ap_effect.specs.Writers.{IsWriter, writer_of};

use crate::evaluate::Bench;
use crate::ports::{bit, halves, shown};
use ap_bits::NoMemory;
use ap_effect::transfer::{Transfer, transfer_nets};
use ap_net::builder::Builder;
use ap_net::module::Module;
use ap_stage::wiring::constant;
use std::alloc::Global;
use std::test::Fail;

/// A branch with this condition to 5, and a jump to 9, of which the condition at one place alone is 1.
fn two_transfers(out: &mut Builder, on: u64, branch: bool) -> Result<[Transfer; 2], NoMemory>
    requires { CanFresh out.old }
    ensures transfers { IfOk result (λ transfers.
        Each (IsWriter out.new.nets None 4) (map writer_of transfers)) }
    ensures count { IfOk result (λ transfers. length transfers ≡ 2) }
    ensures makes { OnOk result (Makes out.old out.new) }
{
    let first = bit(out, on == 0)?;
    let second = bit(out, on == 1)?;
    let branch = bit(out, branch)?;
    let near = constant(out, 4, 5)?;
    let far = constant(out, 4, 9)?;
    let branch = Transfer {
        cond: first,
        branch: Some(branch),
        target: near,
    };
    let jump = Transfer {
        cond: second,
        branch: None,
        target: far,
    };
    Ok([branch, jump])
}

/// The module in which `y` shows whether a transfer is taken, or its target.
fn two(
    alloc: Global,
    valid: bool,
    on: u64,
    branch: bool,
    target: bool,
) -> Result<Module, NoMemory> {
    let mut out = Builder::new(alloc, b"transfer")?;
    let transfers = two_transfers(&mut out, on, branch)?;
    let valid = bit(&mut out, valid)?;
    let select = halves(alloc, 0, 2)?;
    let nets = transfer_nets(&mut out, valid, &transfers, &select, 4)?;
    if target {
        shown(out, nets.target, 4)
    } else {
        shown(out, nets.taken, 1)
    }
}

fn value(alloc: Global, valid: bool, on: u64, branch: bool, target: bool) -> Result<u64, NoMemory> {
    let module = two(alloc, valid, on, branch, target)?;
    let mut bench = Bench::new(alloc, &module)?;
    bench.run(&module);
    Ok(bench.get(0))
}

#[test]
fn a_branch_and_a_jump(rt: HostRuntime) -> Result<(), Fail> {
    let alloc = rt.alloc();
    assert_eq!(rt; value(alloc, true, 0, true, false)?, 1);
    assert_eq!(rt; value(alloc, true, 0, true, true)?, 5);
    assert_eq!(rt; value(alloc, true, 0, false, false)?, 0);
    assert_eq!(rt; value(alloc, true, 1, false, false)?, 1);
    assert_eq!(rt; value(alloc, true, 1, false, true)?, 9);
    // Neither an empty stage nor another instruction transfers.
    assert_eq!(rt; value(alloc, false, 1, true, false)?, 0);
    assert_eq!(rt; value(alloc, true, 2, true, false)?, 0);
    Ok(())
}
