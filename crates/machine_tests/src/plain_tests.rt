//! The plain program succeeds on the smallest processor that shows a write. What it shows is its clause; the definitions are worked
//! out in `rows.rt`.
ghost use Rattle.std.specs.Prelude.{◌≡◌, ◌++◌, [], ◌∷◌, IfOk, OnOk};
ghost use Rattle.ap_bits.specs.Names.{IsName};
ghost use Rattle.ap_model.specs.Examples.{field, set_format, set_instr, set_nop, set_register, setter};
ghost use Rattle.ap_model.specs.Runnable.{IsRunnable};

use ap_bits::{Items, Name, NoMemory};
use ap_desc::design::{Act, Arg, Design, Field, Format, Instr, Micro, Reg};
use ap_image::{Image, Trace, Write};
use ap_plain::rows;
use std::alloc::Global;
use std::test::Fail;

/// The processor can be run.
fn setter_runs()
    ensures { IsRunnable setter [] }
{}

/// The field `op`, and then `v`.
fn fields(alloc: Global) -> Result<Items<Field>, NoMemory>
    ensures { IfOk result (λ fields. fields ≡ set_format.fields) }
{
    let mut fields = Items::new(alloc);
    let name = Name::new(alloc, b"op")?;
    fields.push(Field {
        name,
        width: 1,
        low: 7,
    })?;
    let name = Name::new(alloc, b"v")?;
    fields.push(Field {
        name,
        width: 7,
        low: 0,
    })?;
    Ok(fields)
}

/// The format of the words.
fn formats(alloc: Global) -> Result<Items<Format>, NoMemory>
    ensures { IfOk result (λ formats. formats ≡ set_format ∷ []) }
{
    let mut formats = Items::new(alloc);
    let name = Name::new(alloc, b"F")?;
    let fields = fields(alloc)?;
    formats.push(Format {
        name,
        line: 5,
        fields,
    })?;
    Ok(formats)
}

/// The instruction that does nothing.
fn nop(alloc: Global) -> Result<Instr, NoMemory>
    ensures { IfOk result (λ instr. instr ≡ set_nop) }
{
    let name = Name::new(alloc, b"NOP")?;
    let mut fixed = Items::new(alloc);
    fixed.push(Some(0))?;
    fixed.push(Some(0))?;
    Ok(Instr {
        name,
        line: 6,
        format: 0,
        fixed,
        fixed_mask: 0xff,
        fixed_value: 0,
        locals: Items::new(alloc),
        micros: Items::new(alloc),
    })
}

/// The instruction that sets the register.
fn set(alloc: Global) -> Result<Instr, NoMemory>
    ensures { IfOk result (λ instr. instr ≡ set_instr) }
{
    let name = Name::new(alloc, b"SET")?;
    let mut fixed = Items::new(alloc);
    fixed.push(Some(1))?;
    fixed.push(None)?;
    let mut micros = Items::new(alloc);
    micros.push(Micro {
        line: 9,
        stage: 1,
        act: Act::WriteReg {
            reg: 0,
            value: Arg::Field(1),
            guard: None,
        },
    })?;
    Ok(Instr {
        name,
        line: 8,
        format: 0,
        fixed,
        fixed_mask: 0x80,
        fixed_value: 0x80,
        locals: Items::new(alloc),
        micros,
    })
}

/// The processor.
fn processor(alloc: Global) -> Result<Design, NoMemory>
    ensures { IfOk result (λ design. design ≡ setter) }
{
    let mut regs = Items::new(alloc);
    let name = Name::new(alloc, b"R")?;
    regs.push(Reg {
        name,
        width: 7,
        reset: 0,
    })?;
    let mut instrs = Items::new(alloc);
    instrs.push(nop(alloc)?)?;
    instrs.push(set(alloc)?)?;
    Ok(Design {
        stages: 2,
        address: 4,
        word: 8,
        branch: 1,
        slots: 0,
        transfer_line: 3,
        regs,
        files: Items::new(alloc),
        mems: Items::new(alloc),
        inputs: Items::new(alloc),
        units: Items::new(alloc),
        formats: formats(alloc)?,
        instrs,
    })
}

/// A write of the register, the first and only group.
fn set_to(value: u64) -> Write {
    Write {
        group: 0,
        index: None,
        value,
    }
}

#[test]
fn sets_the_register(rt: HostRuntime) -> Result<(), Fail> {
    let alloc = rt.alloc();
    setter_runs();
    let design = processor(alloc)?;
    let image = Image {
        code: Items::copy_of(alloc, &[0x85, 0, 0x83])?,
        mems: Items::new(alloc),
    };
    let trace = Trace {
        lines: Items::new(alloc),
    };
    let rows = rows(alloc, &design, &[], &image, &trace, 4)?;
    let wanted = [None, Some(set_to(5)), None, Some(set_to(3))];
    assert_eq!(rt; rows.as_slice().len(), wanted.len());
    for (row, write) in rows.as_slice().iter().zip(&wanted) {
        assert_eq!(rt; row.writes.as_slice().first().copied(), *write);
    }
    Ok(())
}
