//! A design of three stages, a register and a unit, whose instruction INC adds a field to the register.
ghost use Rattle.std.specs.Prelude.{◌≡◌, ◌∷◌, [], IfOk, true};
ghost use Rattle.ap_bits.specs.Names.{IsName};
ghost use Rattle.ap_desc.specs.Clean.{IsClean};
ghost use Rattle.ap_desc.specs.Sound.{IsSound};
ghost use Rattle.flight_tests.specs.Examples.{format_f, inc, inc_lines, increments, nop};

use ap_bits::{Items, Name, NoMemory};
use ap_desc::design::{Act, Arg, Design, Field, Format, Instr, Micro, Reg, Unit};
use std::alloc::Global;

/// The value in a list.
fn alone<T: Drop>(alloc: Global, value: T) -> Result<Items<T>, NoMemory>
    ensures { IfOk result (λ list. list ≡ value ∷ []) }
{
    let mut list = Items::new(alloc);
    list.push(value)?;
    Ok(list)
}

fn field(alloc: Global, name: &[u8], width: u32, low: u32) -> Result<Field, NoMemory>
    requires { IsName name.now }
    ensures { IfOk result (λ field. field ≡ record { name = name.now; width = width; low = low }) }
{
    let name = Name::new(alloc, name)?;
    Ok(Field { name, width, low })
}

/// The format F with a field op of two bits, and v below it.
fn formats(alloc: Global) -> Result<Items<Format>, NoMemory>
    ensures { IfOk result (λ formats. formats ≡ format_f ∷ []) }
{
    let mut fields = Items::new(alloc);
    fields.push(field(alloc, b"op", 2, 6)?)?;
    fields.push(field(alloc, b"v", 6, 0)?)?;
    let name = Name::new(alloc, b"F")?;
    alone(
        alloc,
        Format {
            name,
            line: 7,
            fields,
        },
    )
}

fn micro(line: u32, stage: u32, act: Act) -> Micro
    ensures { result ≡ record { line = line; stage = stage; act = act } }
{
    Micro { line, stage, act }
}

/// The lines of INC.
fn inc_lines() -> [Micro; 4]
    ensures { result ≡ inc_lines }
{
    let extend = Act::Zext {
        width: 8,
        a: Arg::Field(1),
    };
    let sum = Act::Compute {
        unit: 0,
        op: 0,
        a: Arg::Local(1),
        b: Arg::Local(0),
    };
    let write = Act::WriteReg {
        reg: 0,
        value: Arg::Local(2),
        guard: None,
    };
    [
        micro(11, 1, extend),
        micro(12, 1, Act::ReadReg { reg: 0 }),
        micro(13, 2, sum),
        micro(14, 2, write),
    ]
}

fn nop(alloc: Global) -> Result<Instr, NoMemory>
    ensures { IfOk result (λ instr. instr ≡ nop) }
{
    let name = Name::new(alloc, b"NOP")?;
    let fixed = Items::copy_of(alloc, &[Some(0), Some(0)])?;
    Ok(Instr {
        name,
        line: 8,
        format: 0,
        fixed,
        fixed_mask: 255,
        fixed_value: 0,
        locals: Items::new(alloc),
        micros: Items::new(alloc),
    })
}

fn inc(alloc: Global) -> Result<Instr, NoMemory>
    ensures { IfOk result (λ instr. instr ≡ inc) }
{
    let name = Name::new(alloc, b"INC")?;
    let fixed = Items::copy_of(alloc, &[Some(1), None])?;
    let locals = Items::copy_of(alloc, &[8, 8, 8])?;
    let micros = Items::copy_of(alloc, &inc_lines())?;
    Ok(Instr {
        name,
        line: 10,
        format: 0,
        fixed,
        fixed_mask: 192,
        fixed_value: 64,
        locals,
        micros,
    })
}

/// The register R of 8 bits.
fn regs(alloc: Global) -> Result<Items<Reg>, NoMemory>
    ensures { IfOk result (λ regs. regs ≡ increments.regs) }
{
    let name = Name::new(alloc, b"R")?;
    alone(
        alloc,
        Reg {
            name,
            width: 8,
            reset: 0,
        },
    )
}

/// The unit ALU of 8 bits.
fn units(alloc: Global) -> Result<Items<Unit>, NoMemory>
    ensures { IfOk result (λ units. units ≡ increments.units) }
{
    let name = Name::new(alloc, b"ALU")?;
    alone(
        alloc,
        Unit {
            name,
            kind: 0,
            width: 8,
            latency: 1,
        },
    )
}

/// The whole design.
fn increments(alloc: Global) -> Result<Design, NoMemory>
    ensures { IfOk result (λ design. design ≡ increments) }
{
    let mut instrs = Items::new(alloc);
    instrs.push(nop(alloc)?)?;
    instrs.push(inc(alloc)?)?;
    Ok(Design {
        stages: 3,
        address: 4,
        word: 8,
        branch: 1,
        slots: 0,
        transfer_line: 4,
        regs: regs(alloc)?,
        files: Items::new(alloc),
        mems: Items::new(alloc),
        inputs: Items::new(alloc),
        units: units(alloc)?,
        formats: formats(alloc)?,
        instrs,
    })
}

/// The design is sound.
fn increments_are_sound()
    ensures { IsSound increments }
{}

/// The design, of which it is known here that it is sound.
pub fn sound_increments(alloc: Global) -> Result<Design, NoMemory>
    ensures { IfOk result IsSound }
{
    increments_are_sound();
    let design = increments(alloc)?;
    Ok(design)
}

/// Whether neither words nor ports and stages have a fault.
#[tactic(auto, using(crate::proofs::Cleaned::cleaned))]
pub fn is_faultless(design: &Design) -> Result<bool, NoMemory>
    requires { IsSound design.now }
    ensures { IfOk result (λ faultless. faultless ≡ true → IsClean design.now) }
{
    let None = ap_enc::judge(design) else {
        return Ok(false);
    };
    let None = ap_ports::judge(design)? else {
        return Ok(false);
    };
    Ok(true)
}
