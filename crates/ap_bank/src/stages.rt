//! The stages in which lines write through the ports of a register file.
ghost use Rattle.std.specs.Prelude.{◌≡◌, ◌<◌, All, IfOk, find};
ghost use Rattle.ap_desc.specs.Clean.{IsClean};
ghost use Rattle.ap_model.specs.Ports.{writes_through};
ghost use Rattle.ap_model.specs.declared.storage.WritePort.{WritePort};
ghost use Rattle.ap_bank.specs.PortStages.{AreWriteStages, IsPortStage, writes_cell};

use ap_bits::{Items, NoMemory};
use ap_desc::design::{Act, Design, Micro};
use std::alloc::Global;

/// Whether a line writes through this port of the file.
fn writes_cell(act: Act, file: u32, number: u32) -> bool
    ensures { result ≡ writes_through (WritePort.Cell file number) act }
{
    match act {
        Act::WriteFile {
            file: other,
            port,
            ..
        } => file == other && number == port,
        _ => false,
    }
}

/// The first of these lines that writes through the port.
fn first_write(micros: &[Micro], file: u32, number: u32) -> Option<Micro>
    ensures { result ≡ find (writes_cell file number) micros.now }
{
    micros
        .iter()
        .find(|m| writes_cell(m.act, file, number))
        .copied()
}

/// The stage of the lines that write through this port of the file, and 0 where there are none.
pub fn port_stage(design: &Design, file: u32, number: u32) -> u32
    requires { IsClean design.now }
    ensures { IsPortStage design.now file number result }
{
    for instr in design.instrs.as_slice() {
        if let Some(m) = first_write(instr.micros.as_slice(), file, number) {
            return m.stage;
        }
    }
    0
}

/// For each of so many write ports of the file the stage of the lines that write through it, and 0 where there are none: what
/// [`ap_store::file::file_module`] takes.
pub fn write_stages(
    alloc: Global,
    design: &Design,
    file: u32,
    writes: u32,
) -> Result<Items<u32>, NoMemory>
    requires { IsClean design.now }
    ensures stages { IfOk result (AreWriteStages design.now file writes) }
    ensures range { IfOk result (λ stages. All (λ stage. stage < 8) stages) }
{
    let mut stages = Items::new(alloc);
    for number in 0..writes {
        stages.push(port_stage(design, file, number))?;
    }
    Ok(stages)
}
