//! Two designs of three stages, a register and a unit: one whose instruction INC adds a field to the register, and one of nine users of the
//! unit.
ghost use Rattle.std.specs.Prelude.{◌≡◌, ◌∷◌, [], ◌<◌, ◌≤◌, codes, IfOk};
ghost use Rattle.ap_bits.specs.Names.{IsName};
ghost use Rattle.path_tests.specs.Examples.{f_instr, format_f, inc_lines, increments, nine_users, user};

use ap_bits::{Items, Name, NoMemory};
use ap_desc::design::{Act, Arg, Design, Field, Format, Instr, Micro, Reg, Unit};
use std::alloc::Global;

/// The value in a list.
fn alone<T: Drop>(alloc: Global, value: T) -> Result<Items<T>, NoMemory>
    ensures { IfOk result (λ list. list ≡ value ∷ []) }
{
    let mut list = Items::new(alloc);
    list.push(value)?;
    Ok(list)
}

fn field(alloc: Global, name: &[u8], width: u32, low: u32) -> Result<Field, NoMemory>
    requires { IsName name.now }
    ensures { IfOk result (λ field. field ≡ record { name = name.now; width = width; low = low }) }
{
    let name = Name::new(alloc, name)?;
    Ok(Field { name, width, low })
}

/// The format F with a field op of so many bits, and v below it.
fn formats(alloc: Global, bits: u32) -> Result<Items<Format>, NoMemory>
    requires { bits ≤ 8 }
    ensures { IfOk result (λ formats. formats ≡ format_f bits ∷ []) }
{
    let mut fields = Items::new(alloc);
    fields.push(field(alloc, b"op", bits, 8 - bits)?)?;
    fields.push(field(alloc, b"v", 8 - bits, 0)?)?;
    let name = Name::new(alloc, b"F")?;
    alone(
        alloc,
        Format {
            name,
            line: 7,
            fields,
        },
    )
}

fn micro(line: u32, stage: u32, act: Act) -> Micro
    ensures { result ≡ record { line = line; stage = stage; act = act } }
{
    Micro { line, stage, act }
}

/// The lines of INC.
fn inc_lines() -> [Micro; 4]
    ensures { result ≡ inc_lines }
{
    let extend = Act::Zext {
        width: 8,
        a: Arg::Field(1),
    };
    let sum = Act::Compute {
        unit: 0,
        op: 0,
        a: Arg::Local(1),
        b: Arg::Local(0),
    };
    let write = Act::WriteReg {
        reg: 0,
        value: Arg::Local(2),
        guard: None,
    };
    [
        micro(11, 1, extend),
        micro(12, 1, Act::ReadReg { reg: 0 }),
        micro(13, 2, sum),
        micro(14, 2, write),
    ]
}

fn nop(alloc: Global) -> Result<Instr, NoMemory>
    ensures { IfOk result (λ instr. instr ≡ f_instr (codes "NOP") 8 (Some 0 ∷ Some 0 ∷ []) 255 0 [] []) }
{
    let name = Name::new(alloc, b"NOP")?;
    let fixed = Items::copy_of(alloc, &[Some(0), Some(0)])?;
    Ok(Instr {
        name,
        line: 8,
        format: 0,
        fixed,
        fixed_mask: 255,
        fixed_value: 0,
        locals: Items::new(alloc),
        micros: Items::new(alloc),
    })
}

fn inc(alloc: Global) -> Result<Instr, NoMemory>
    ensures { IfOk result (λ instr. instr ≡ f_instr (codes "INC") 10 (Some 1 ∷ None ∷ []) 192 64 (8 ∷ 8 ∷ 8 ∷ []) inc_lines) }
{
    let name = Name::new(alloc, b"INC")?;
    let fixed = Items::copy_of(alloc, &[Some(1), None])?;
    let locals = Items::copy_of(alloc, &[8, 8, 8])?;
    let micros = Items::copy_of(alloc, &inc_lines())?;
    Ok(Instr {
        name,
        line: 10,
        format: 0,
        fixed,
        fixed_mask: 192,
        fixed_value: 64,
        locals,
        micros,
    })
}

/// A user of the unit.
fn user(alloc: Global, name: &[u8], line: u32, op: u64) -> Result<Instr, NoMemory>
    requires name { IsName name.now }
    requires line { line < 1000 }
    requires op { op < 16 }
    ensures { IfOk result (λ instr. instr ≡ user name.now line op) }
{
    let name = Name::new(alloc, name)?;
    let fixed = Items::copy_of(alloc, &[Some(op), None])?;
    let locals = Items::copy_of(alloc, &[8, 8])?;
    let sum = Act::Compute {
        unit: 0,
        op: 0,
        a: Arg::Local(0),
        b: Arg::Local(0),
    };
    let write = Act::WriteReg {
        reg: 0,
        value: Arg::Local(1),
        guard: None,
    };
    let micros = Items::copy_of(
        alloc,
        &[
            micro(line + 1, 1, Act::ReadReg { reg: 0 }),
            micro(line + 2, 2, sum),
            micro(line + 3, 2, write),
        ],
    )?;
    Ok(Instr {
        name,
        line,
        format: 0,
        fixed,
        fixed_mask: 240,
        fixed_value: op * 16,
        locals,
        micros,
    })
}

/// The parts of both designs, with these instructions of a format.
fn parts(alloc: Global, formats: Items<Format>, instrs: Items<Instr>) -> Result<Design, NoMemory>
    ensures { IfOk result (λ design. design ≡ record increments { formats = formats; instrs = instrs }) }
{
    let name = Name::new(alloc, b"R")?;
    let regs = alone(
        alloc,
        Reg {
            name,
            width: 8,
            reset: 0,
        },
    )?;
    let name = Name::new(alloc, b"ALU")?;
    let units = alone(
        alloc,
        Unit {
            name,
            kind: 0,
            width: 8,
            latency: 1,
        },
    )?;
    Ok(Design {
        stages: 3,
        address: 4,
        word: 8,
        branch: 1,
        slots: 0,
        transfer_line: 4,
        regs,
        files: Items::new(alloc),
        mems: Items::new(alloc),
        inputs: Items::new(alloc),
        units,
        formats,
        instrs,
    })
}

/// The design whose instruction adds a field to the register.
pub(crate) fn increments(alloc: Global) -> Result<Design, NoMemory>
    ensures { IfOk result (λ design. design ≡ increments) }
{
    let mut instrs = Items::new(alloc);
    instrs.push(nop(alloc)?)?;
    instrs.push(inc(alloc)?)?;
    let formats = formats(alloc, 2)?;
    let design = parts(alloc, formats, instrs)?;
    Ok(design)
}

/// The design of nine users of one unit.
pub(crate) fn nine_users(alloc: Global) -> Result<Design, NoMemory>
    ensures { IfOk result (λ design. design ≡ nine_users) }
{
    let mut instrs = Items::new(alloc);
    instrs.push(nop(alloc)?)?;
    instrs.push(user(alloc, b"A", 10, 1)?)?;
    instrs.push(user(alloc, b"B", 15, 2)?)?;
    instrs.push(user(alloc, b"C", 20, 3)?)?;
    instrs.push(user(alloc, b"D", 25, 4)?)?;
    instrs.push(user(alloc, b"E", 30, 5)?)?;
    instrs.push(user(alloc, b"F", 35, 6)?)?;
    instrs.push(user(alloc, b"G", 40, 7)?)?;
    instrs.push(user(alloc, b"H", 45, 8)?)?;
    instrs.push(user(alloc, b"I", 50, 9)?)?;
    let formats = formats(alloc, 4)?;
    let design = parts(alloc, formats, instrs)?;
    Ok(design)
}
