//! The registers of all stages of a design.
ghost use Rattle.ap_desc.specs.Sound.{IsSound};

use crate::design::{is_faultless, sound_increments};
use ap_bits::{Items, NoMemory};
use ap_desc::design::Design;
use ap_flight::stage::{StageRegisters, declare_stages};
use ap_net::builder::Builder;
use ap_net::cell::Wire;
use ap_path::paths;
use ap_pipe::slots;
use std::alloc::Global;
use std::test::Fail;

/// The registers of the stages, where the judges find no fault.
fn registers_of(alloc: Global, design: &Design) -> Result<Option<Items<StageRegisters>>, NoMemory>
    requires { IsSound design.now }
{
    if !is_faultless(design)? {
        return Ok(None);
    }
    let table = paths(alloc, design)?;
    let slots = slots(alloc, design, &table)?;
    let mut out = Builder::new(alloc, b"flights")?;
    let made = declare_stages(design, &slots, &mut out)?;
    Ok(Some(made))
}

fn wire(number: usize, width: u32) -> Wire {
    Wire { number, width }
}

/// Stage 1 has a word and an address. Stage 2 also has a slot for each operand of INC's sum.
#[test]
fn stages_have_registers(rt: HostRuntime) -> Result<(), Fail> {
    let design = sound_increments(rt.alloc())?;
    let made = registers_of(rt.alloc(), &design)?;
    let Some(made) = made else {
        assert!(rt; false);
        return Ok(());
    };
    let stages = made.as_slice();
    assert_eq!(rt; stages.len(), 2);
    let (first, second) = (&stages[0], &stages[1]);
    assert_eq!(rt; (first.word, first.place), (wire(0, 8), wire(1, 4)));
    assert!(rt; first.slots.is_empty());
    assert_eq!(rt; (second.word, second.place), (wire(2, 8), wire(3, 4)));
    let slots = [wire(4, 8), wire(5, 8)];
    assert_eq!(rt; second.slots.as_slice(), slots.as_slice());
    Ok(())
}
