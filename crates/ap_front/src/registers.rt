//! The pc and the registers in which the stages have their flights, declared.
ghost use Rattle.std.specs.Prelude.{◌≡◌, ◌∷◌, ◌+◌, ◌-◌, IfOk, OnOk, flat_map, length};
ghost use Rattle.std.specs.List.{AllByRecursion as Each};
ghost use Rattle.ap_desc.specs.Clean.{IsClean};
ghost use Rattle.ap_net.specs.Draft.{CanFresh};
ghost use Rattle.ap_net.specs.Late.{StayLate};
ghost use Rattle.ap_net.specs.Modules.{ports_among};
ghost use Rattle.ap_pipe.specs.Slots.{AreSlotsOf};
ghost use Rattle.ap_flight.specs.Planned.{AreNew, IsNewIn, KeepsOther, register_wires, stages_plan, with_registers};
ghost use Rattle.ap_flight.specs.Stages.{stage_wires};
ghost use Rattle.ap_front.specs.Opened.{AreOpen, NamesFront, NamesStages, front_plan, front_wires};

use ap_bits::{Items, NoMemory};
use ap_desc::design::Design;
use ap_flight::stage::{StageRegisters, declare_stage};
use ap_net::builder::Builder;
use ap_net::cell::Wire;
use ap_pipe::SlotTable;

/// The registers of a processor's front.
#[derive(Drop)]
pub struct Registers {
    /// The address of the word being fetched.
    pub pc: Wire,
    /// The registers of the stages from 1 on.
    pub stages: Items<StageRegisters>,
}

/// Declares the registers of all stages from 1 on.
fn stage_registers(
    design: &Design,
    slots: &SlotTable,
    out: &mut Builder,
) -> Result<Items<StageRegisters>, NoMemory>
    requires clean { IsClean design.now }
    requires slots { AreSlotsOf design.now slots.now }
    requires new { Each (IsNewIn out.old) (stages_plan design.now 1 slots.now.stages) }
    requires fresh { CanFresh out.old }
    ensures ok { OnOk result
        (out.new ≡ with_registers out.old (stages_plan design.now 1 slots.now.stages)) }
    ensures names { IfOk result (NamesStages design.now out.new 1 slots.now.stages) }
    ensures wires { IfOk result (λ made. flat_map stage_wires made
        ≡ register_wires (length out.old.nets) (stages_plan design.now 1 slots.now.stages)) }
    ensures fresh { OnOk result (CanFresh out.new) }
    ensures late { OnOk result (StayLate out.old out.new) }
    ensures ports { OnOk result (ports_among out.new.nets ≡ ports_among out.old.nets) }
    ensures others { OnOk result
        (KeepsOther (stages_plan design.now 1 slots.now.stages) out.old out.new) }
{
    let mut made = Items::new(out.allocator());
    for (place, widths) in slots.stages.as_slice().iter().enumerate() {
        let stage = place as u32 + 1;
        let registers = declare_stage(design, stage, widths, out)?;
        made.push(registers)?;
    }
    Ok(made)
}

/// Declares the pc and the registers of all stages, which are 0 after the reset edge. After an error the builder is good for nothing but
/// to be dropped.
pub fn declare_registers(
    design: &Design,
    slots: &SlotTable,
    out: &mut Builder,
) -> Result<Registers, NoMemory>
    requires clean { IsClean design.now }
    requires slots { AreSlotsOf design.now slots.now }
    requires new { Each (IsNewIn out.old) (front_plan design.now slots.now.stages) }
    requires fresh { CanFresh out.old }
    ensures ok { OnOk result
        (out.new ≡ with_registers out.old (front_plan design.now slots.now.stages)) }
    ensures names { IfOk result (NamesFront design.now out.new slots.now.stages) }
    ensures wires { IfOk result (λ made. front_wires made
        ≡ register_wires (length out.old.nets) (front_plan design.now slots.now.stages)) }
    ensures free { IfOk result (λ made. AreOpen out.new (front_wires made)) }
    ensures fresh { OnOk result (CanFresh out.new) }
    ensures late { OnOk result (StayLate out.old out.new) }
    ensures ports { OnOk result (ports_among out.new.nets ≡ ports_among out.old.nets) }
    ensures others { OnOk result
        (KeepsOther (front_plan design.now slots.now.stages) out.old out.new) }
{
    out.rules();
    let pc = out.register(b"pc", design.address, 0)?;
    let stages = stage_registers(design, slots, out)?;
    Ok(Registers { pc, stages })
}
