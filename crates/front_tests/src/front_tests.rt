//! Ports and registers of the processor.

use crate::design::processor;
use ap_front::laws::{names_are_new, ports_are_new};
use ap_front::ports::{Ports, declare_ports};
use ap_front::registers::{Registers, declare_registers};
use ap_model::WritePort;
use ap_net::builder::Builder;
use ap_net::cell::Wire;
use ap_path::paths;
use ap_pipe::slots;
use std::alloc::Global;
use std::test::Fail;

/// What stands at the front of `top`.
#[derive(Drop)]
struct Front {
    ports: Ports,
    registers: Registers,
}

fn build_front(alloc: Global) -> Result<Front, Fail> {
    let design = processor(alloc)?;
    let table = paths(alloc, &design)?;
    let slots = slots(alloc, &design, &table)?;
    let mut out = Builder::new(alloc, b"top")?;
    let ports = declare_ports(&design, &mut out)?;
    names_are_new();
    let registers = declare_registers(&design, &slots, &mut out)?;
    Ok(Front { ports, registers })
}

fn wire(number: usize, width: u32) -> Wire {
    Wire { number, width }
}

/// Ports stand in their order: those of the input, of the memory, and of the groups; of a file's groups that of the later stage is first.
#[test]
fn ports_stand_in_their_order(rt: HostRuntime) -> Result<(), Fail> {
    let front = build_front(rt.alloc())?;
    let ports = &front.ports;
    assert_eq!(rt;
        (ports.iaddr, ports.idata, ports.mwait),
        (wire(0, 6), wire(1, 16), wire(2, 1))
    );
    let inputs = [wire(3, 16)];
    assert_eq!(rt; ports.inputs.as_slice(), inputs.as_slice());
    assert_eq!(rt; ports.mems.len(), 1);
    let mem = ports.mems.as_slice()[0];
    assert_eq!(rt; (mem.read_address, mem.read), (wire(4, 8), wire(5, 16)));
    assert_eq!(rt;
        (mem.enable, mem.address, mem.value),
        (wire(6, 1), wire(7, 8), wire(8, 16))
    );
    assert_eq!(rt; (ports.stall, ports.kill), (wire(9, 1), wire(10, 1)));
    let groups = ports.groups.as_slice();
    assert_eq!(rt; groups.len(), 3);
    assert_eq!(rt; groups[0].port, WritePort::Register(0));
    assert_eq!(rt;
        (groups[0].enable, groups[0].index, groups[0].value),
        (wire(11, 1), None, wire(12, 16))
    );
    assert_eq!(rt; groups[1].port, WritePort::Cell { file: 0, port: 1 });
    assert_eq!(rt;
        (groups[1].enable, groups[1].index, groups[1].value),
        (wire(13, 1), Some(wire(14, 3)), wire(15, 16))
    );
    assert_eq!(rt; groups[2].port, WritePort::Cell { file: 0, port: 0 });
    assert_eq!(rt;
        (groups[2].enable, groups[2].index, groups[2].value),
        (wire(16, 1), Some(wire(17, 3)), wire(18, 16))
    );
    Ok(())
}

/// The pc stands first, then each stage's word, address and slots.
#[test]
fn registers_stand_in_their_order(rt: HostRuntime) -> Result<(), Fail> {
    let front = build_front(rt.alloc())?;
    assert_eq!(rt; front.registers.pc, wire(19, 6));
    let stages = front.registers.stages.as_slice();
    assert_eq!(rt; stages.len(), 2);
    assert_eq!(rt;
        (stages[0].word, stages[0].place),
        (wire(20, 16), wire(21, 6))
    );
    assert!(rt; stages[0].slots.is_empty());
    assert_eq!(rt;
        (stages[1].word, stages[1].place),
        (wire(22, 16), wire(23, 6))
    );
    let slots = [wire(24, 16), wire(25, 16)];
    assert_eq!(rt; stages[1].slots.as_slice(), slots.as_slice());
    Ok(())
}
