//! Distances of a small processor's words: NOP and ADD rd rs rt, which reads the cells rs and rt in stage 1 and writes the cell rd in stage 3.
ghost use Rattle.std.specs.Prelude.{◌≡◌, ◌∷◌, [], codes, IfOk};
ghost use Rattle.ap_bits.specs.Names.{IsName};
ghost use Rattle.ap_desc.specs.Clean.{IsClean};
ghost use Rattle.ap_desc.specs.Examples.{adder_design, adder_fields, adder_instr, adder_micros, adder_nop};
ghost use Rattle.ap_desc.specs.Sound.{IsSound};

use ap_bits::{Items, Name, NoMemory};
use ap_desc::design::{Act, Arg, Design, Field, File, Format, Instr, Micro, Unit};
use ap_dist::{dist, out};
use std::alloc::Global;
use std::test::Fail;

fn field(alloc: Global, name: &[u8], width: u32, low: u32) -> Result<Field, NoMemory>
    requires { IsName name.now }
    ensures { IfOk result (λ field. field ≡ record { name = name.now; width = width; low = low }) }
{
    let name = Name::new(alloc, name)?;
    Ok(Field { name, width, low })
}

fn fields(alloc: Global) -> Result<Items<Field>, NoMemory>
    ensures { IfOk result (λ fields. fields ≡ adder_fields) }
{
    let mut fields = Items::new(alloc);
    fields.push(field(alloc, b"op", 4, 12)?)?;
    fields.push(field(alloc, b"rd", 3, 9)?)?;
    fields.push(field(alloc, b"rs", 3, 6)?)?;
    fields.push(field(alloc, b"rt", 3, 3)?)?;
    fields.push(field(alloc, b"fn", 3, 0)?)?;
    Ok(fields)
}

fn micros(alloc: Global) -> Result<Items<Micro>, NoMemory>
    ensures { IfOk result (λ micros. micros ≡ adder_micros) }
{
    let read = |port, index| Act::ReadFile {
        file: 0,
        port,
        index,
    };
    let sum = Act::Compute {
        unit: 0,
        op: 0,
        a: Arg::Local(0),
        b: Arg::Local(1),
    };
    let write = Act::WriteFile {
        file: 0,
        port: 0,
        index: Arg::Field(1),
        value: Arg::Local(2),
        guard: None,
    };
    let line = |line, stage, act| Micro { line, stage, act };
    Items::copy_of(
        alloc,
        &[
            line(11, 1, read(0, Arg::Field(2))),
            line(12, 1, read(1, Arg::Field(3))),
            line(13, 2, sum),
            line(14, 3, write),
        ],
    )
}

fn nop(alloc: Global) -> Result<Instr, NoMemory>
    ensures { IfOk result (λ instr. instr ≡ adder_nop) }
{
    let micros = Items::new(alloc);
    Ok(Instr {
        name: Name::new(alloc, b"NOP")?,
        line: 8,
        format: 0,
        fixed: Items::copy_of(alloc, &[Some(0), Some(0), Some(0), Some(0), Some(0)])?,
        fixed_mask: 0xffff,
        fixed_value: 0,
        locals: Items::new(alloc),
        micros,
    })
}

fn add(alloc: Global) -> Result<Instr, NoMemory>
    ensures { IfOk result (λ instr. instr ≡ adder_instr) }
{
    let micros = micros(alloc)?;
    Ok(Instr {
        name: Name::new(alloc, b"ADD")?,
        line: 10,
        format: 0,
        fixed: Items::copy_of(alloc, &[Some(1), None, None, None, Some(0)])?,
        fixed_mask: 0xf007,
        fixed_value: 0x1000,
        locals: Items::copy_of(alloc, &[16, 16, 16])?,
        micros,
    })
}

fn files(alloc: Global) -> Result<Items<File>, NoMemory>
    ensures { IfOk result (λ files. files ≡ adder_design.files) }
{
    let mut files = Items::new(alloc);
    files.push(File {
        name: Name::new(alloc, b"GPR")?,
        width: 16,
        cells: 8,
        reads: 2,
        writes: 1,
    })?;
    Ok(files)
}

fn units(alloc: Global) -> Result<Items<Unit>, NoMemory>
    ensures { IfOk result (λ units. units ≡ adder_design.units) }
{
    let mut units = Items::new(alloc);
    units.push(Unit {
        name: Name::new(alloc, b"ALU")?,
        kind: 0,
        width: 16,
        latency: 1,
    })?;
    Ok(units)
}

fn formats(alloc: Global) -> Result<Items<Format>, NoMemory>
    ensures { IfOk result (λ formats. formats ≡ adder_design.formats) }
{
    let mut formats = Items::new(alloc);
    formats.push(Format {
        name: Name::new(alloc, b"R")?,
        line: 7,
        fields: fields(alloc)?,
    })?;
    Ok(formats)
}

fn adder(alloc: Global) -> Result<Design, NoMemory>
    ensures { IfOk result (λ design. design ≡ adder_design) }
{
    let mut instrs = Items::new(alloc);
    instrs.push(nop(alloc)?)?;
    instrs.push(add(alloc)?)?;
    Ok(Design {
        stages: 4,
        address: 6,
        word: 16,
        branch: 2,
        slots: 1,
        transfer_line: 4,
        regs: Items::new(alloc),
        files: files(alloc)?,
        mems: Items::new(alloc),
        inputs: Items::new(alloc),
        units: units(alloc)?,
        formats: formats(alloc)?,
        instrs,
    })
}

/// The adder is sound.
fn adder_is_sound()
    ensures { IsSound adder_design }
{}

/// It is clean.
fn adder_is_clean()
    ensures { IsClean adder_design }
{
    adder_is_sound();
}

fn between(alloc: Global, x: u64, y: u64) -> Result<u32, NoMemory> {
    adder_is_clean();
    let design = adder(alloc)?;
    Ok(dist(&design, x, y))
}

fn outs(alloc: Global) -> Result<(u32, u32), NoMemory> {
    adder_is_clean();
    let design = adder(alloc)?;
    Ok((out(&design, 0), out(&design, 1)))
}

#[test]
fn words_of_the_adder(rt: HostRuntime) -> Result<(), Fail> {
    let alloc = rt.alloc();
    assert_eq!(rt; between(alloc, 0x1200, 0x1448)?, 3, "ADD 1 0 0, ADD 2 1 1");
    assert_eq!(rt; between(alloc, 0x1448, 0x1200)?, 1, "ADD 2 1 1, ADD 1 0 0");
    assert_eq!(rt; between(alloc, 0x1200, 0x14d8)?, 1, "ADD 1 0 0, ADD 2 3 3");
    assert_eq!(rt; between(alloc, 0x1200, 0x1410)?, 1, "ADD 1 0 0, ADD 2 0 2");
    assert_eq!(rt; between(alloc, 0x1200, 0x1408)?, 3, "ADD 1 0 0, ADD 2 0 1");
    assert_eq!(rt;
        between(alloc, 0x1200, 0x1)?,
        1,
        "a word that matches nothing"
    );
    assert_eq!(rt; outs(alloc)?, (1, 3));
    Ok(())
}
