//! What the registers of a stage take, by hand.
use crate::bench::{CONDITIONS, HOLD, LEFT, PLACE, WORD, stage_alone};
use crate::evaluate::Values;
use std::test::Fail;

/// A cycle: whether the stage is held, which of three instructions the stage before has, and what word, address and slots take. What
/// isn't looked at is None.
struct Cycle {
    hold: bool,
    instr: usize,
    taken: [Option<u64>; 4],
}

/// The registers hold 0x1234, 5, 0xabcd and 0x77; 0x9876 and 33 come; left are 0xbeef, 0x5a, 0x678 and 0xf.
const CYCLES: [Cycle; 6] = [
    Cycle {
        hold: true,
        instr: 0,
        taken: [Some(0x1234), Some(5), Some(0xabcd), Some(0x77)],
    },
    Cycle {
        hold: true,
        instr: 2,
        taken: [Some(0x1234), Some(5), Some(0xabcd), Some(0x77)],
    },
    Cycle {
        hold: false,
        instr: 0,
        taken: [Some(0x9876), Some(33), Some(0xbeef), Some(0x5a)],
    },
    Cycle {
        hold: false,
        instr: 1,
        taken: [Some(0x9876), Some(33), Some(0x678), None],
    },
    Cycle {
        hold: false,
        instr: 2,
        taken: [Some(0x9876), Some(33), None, Some(0xf)],
    },
    // No instruction at all.
    Cycle {
        hold: false,
        instr: 3,
        taken: [Some(0x9876), Some(33), None, None],
    },
];

#[test]
fn registers_take(rt: HostRuntime) -> Result<(), Fail> {
    let alloc = rt.alloc();
    let stage = stage_alone(alloc)?;
    let mut values = Values::new(alloc, &stage.module)?;
    for cycle in &CYCLES {
        stage.set(&mut values, [0x1234, 5, 0xabcd, 0x77]);
        values.set(HOLD, u64::from(cycle.hold));
        values.set(WORD, 0x9876);
        values.set(PLACE, 33);
        for (instr, input) in CONDITIONS.iter().enumerate() {
            values.set(*input, u64::from(instr == cycle.instr));
        }
        for (input, left) in LEFT.iter().zip(&[0xbeef, 0x5a, 0x678, 0xf]) {
            values.set(*input, *left);
        }
        values.settle(&stage.module);
        let taken = stage.taken(&values);
        for (found, due) in taken.iter().zip(&cycle.taken) {
            if due.is_some() {
                assert!(rt; found == due, "{}", cycle.instr);
            }
        }
    }
    Ok(())
}
