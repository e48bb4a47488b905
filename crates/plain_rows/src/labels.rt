//! The names under which rows show the writes: those of the registers that some line writes, then those of the write ports of each
//! file, the later stage first and within a stage by number, and then those of the memories.
use ap_bits::NoMemory;
use ap_desc::design::{Act, Design, File};
use std::alloc::Global;

/// Whether some line writes the register.
fn writes_register(design: &Design, register: u32) -> bool {
    let mut instrs = design.instrs.as_slice().iter();
    instrs.any(|i| {
        let mut micros = i.micros.as_slice().iter();
        micros.any(|m| match m.act {
            Act::WriteReg { reg, .. } => reg == register,
            _ => false,
        })
    })
}

/// Whether some line of this stage writes through this port of the file.
fn writes_cell(design: &Design, at: u32, written: u32, number: u32) -> bool {
    let mut instrs = design.instrs.as_slice().iter();
    instrs.any(|i| {
        let mut micros = i.micros.as_slice().iter();
        micros.any(|m| match m.act {
            Act::WriteFile { file, port, .. } => m.stage == at && file == written && port == number,
            _ => false,
        })
    })
}

/// Adds the labels of the file's ports that lines of this stage write through.
fn add_stage_labels(
    alloc: Global,
    design: &Design,
    stage: u32,
    place: u32,
    file: &File,
    labels: &mut Vec<String>,
) -> Result<(), NoMemory> {
    let name = file.name.as_str();
    for port in 0..file.writes {
        if writes_cell(design, stage, place, port) {
            labels.push(format!(in alloc; "{name}.{port}")?)?;
        }
    }
    Ok(())
}

/// Adds the labels of the registers.
fn add_register_labels(
    alloc: Global,
    design: &Design,
    labels: &mut Vec<String>,
) -> Result<(), NoMemory> {
    let mut place = 0u32;
    for reg in design.regs.as_slice() {
        if writes_register(design, place) {
            labels.push(String::from_str(alloc, reg.name.as_str())?)?;
        }
        place = place.saturating_add(1);
    }
    Ok(())
}

/// Adds the labels of the files.
fn add_file_labels(
    alloc: Global,
    design: &Design,
    labels: &mut Vec<String>,
) -> Result<(), NoMemory> {
    let mut place = 0u32;
    for file in design.files.as_slice() {
        for stage in (0..design.stages).rev() {
            add_stage_labels(alloc, design, stage, place, file, labels)?;
        }
        place = place.saturating_add(1);
    }
    Ok(())
}

/// The labels of a design's rows.
pub(crate) fn labels(alloc: Global, design: &Design) -> Result<Vec<String>, NoMemory> {
    let mut labels = Vec::new(alloc);
    add_register_labels(alloc, design, &mut labels)?;
    add_file_labels(alloc, design, &mut labels)?;
    for mem in design.mems.as_slice() {
        labels.push(String::from_str(alloc, mem.name.as_str())?)?;
    }
    Ok(labels)
}
