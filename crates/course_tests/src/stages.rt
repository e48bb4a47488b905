//! The lines of an instruction, stage by stage, and its live locals.
ghost use Rattle.std.specs.Prelude.{◌≡◌, IfOk};
ghost use Rattle.course_tests.specs.Worked.{micro, worked_lines};

use ap_bits::{Items, Name, NoMemory};
use ap_course::{lines_of, stored_of, uses_of};
use ap_desc::design::{Act, Arg, Instr, Micro};
use ap_net::cell::Wire;
use ap_pipe::Home;
use ap_stage::node::PortUse;
use ap_stage::row::Line;
use ap_stage::user::{Asked, Use};
use std::alloc::Global;
use std::test::Fail;

fn micro(line: u32, stage: u32, act: Act) -> Micro
    ensures { result ≡ micro line stage act }
{
    Micro { line, stage, act }
}

/// The lines of the instruction.
fn worked_lines() -> [Micro; 6]
    ensures { result ≡ worked_lines }
{
    let register = Act::ReadReg { reg: 0 };
    let file = Act::ReadFile {
        file: 1,
        port: 2,
        index: Arg::Local(0),
    };
    let extend = Act::Zext {
        width: 8,
        a: Arg::Field(1),
    };
    let memory = Act::ReadMem {
        mem: 1,
        at: Arg::Local(2),
    };
    let sum = Act::Compute {
        unit: 3,
        op: 0,
        a: Arg::Local(3),
        b: Arg::Local(1),
    };
    let write = Act::WriteReg {
        reg: 0,
        value: Arg::Local(4),
        guard: None,
    };
    [
        micro(11, 1, register),
        micro(12, 1, file),
        micro(13, 2, extend),
        micro(14, 2, memory),
        micro(15, 2, sum),
        micro(16, 2, write),
    ]
}

fn worked(alloc: Global) -> Result<Instr, NoMemory>
    ensures { IfOk result (λ instr. instr.micros ≡ worked_lines) }
{
    let name = Name::new(alloc, b"W")?;
    Ok(Instr {
        name,
        line: 10,
        format: 0,
        fixed: Items::copy_of(alloc, &[Some(1), None])?,
        fixed_mask: 192,
        fixed_value: 64,
        locals: Items::copy_of(alloc, &[8, 8, 8, 8, 8])?,
        micros: Items::copy_of(alloc, &worked_lines())?,
    })
}

#[test]
fn lines_have_their_locals(rt: HostRuntime) -> Result<(), Fail> {
    let instr = worked(rt.alloc())?;
    let first = lines_of(rt.alloc(), &instr, 1)?;
    let register = Line {
        act: Act::ReadReg { reg: 0 },
        local: 0,
    };
    assert_eq!(rt; first.as_slice(), [register].as_slice());
    let second = lines_of(rt.alloc(), &instr, 2)?;
    let extend = Line {
        act: Act::Zext {
            width: 8,
            a: Arg::Field(1),
        },
        local: 2,
    };
    assert_eq!(rt; second.as_slice(), [extend].as_slice());
    Ok(())
}

#[test]
fn ports_have_the_numbers_of_nodes(rt: HostRuntime) -> Result<(), Fail> {
    let instr = worked(rt.alloc())?;
    let first = uses_of(rt.alloc(), &instr, 1)?;
    let file = PortUse {
        port: 38,
        asked: Asked::Read(Arg::Local(0)),
        local: 1,
    };
    assert_eq!(rt; first.as_slice(), [file].as_slice());
    let second = uses_of(rt.alloc(), &instr, 2)?;
    let memory = PortUse {
        port: 65,
        asked: Asked::Read(Arg::Local(2)),
        local: 3,
    };
    let sum = PortUse {
        port: 3,
        asked: Asked::Operate(Use {
            op: 0,
            a: Arg::Local(3),
            b: Arg::Local(1),
        }),
        local: 4,
    };
    assert_eq!(rt; second.as_slice(), [memory, sum].as_slice());
    Ok(())
}

#[test]
fn locals_stand_in_the_slots_of_their_homes(rt: HostRuntime) -> Result<(), Fail> {
    let slots = [
        Wire {
            number: 7,
            width: 8,
        },
        Wire {
            number: 9,
            width: 16,
        },
    ];
    let homes = [
        Home {
            instr: 0,
            local: 1,
            slot: 0,
        },
        Home {
            instr: 1,
            local: 3,
            slot: 0,
        },
        Home {
            instr: 1,
            local: 1,
            slot: 1,
        },
    ];
    let stored = stored_of(rt.alloc(), &homes, &slots, 1, 5)?;
    let stored = stored.as_slice();
    assert_eq!(rt; stored.len(), 2);
    assert_eq!(rt; (stored[0].local, stored[0].slot.number), (1, 9));
    assert_eq!(rt; (stored[1].local, stored[1].slot.number), (3, 7));
    Ok(())
}
