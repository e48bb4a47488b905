//! The processor that is tested: four stages, transfers in stage 2 with one slot, a multiplier of 17 cycles in stage 2, and a memory
//! that is read and written in stage 2.
ghost use Rattle.std.specs.Prelude.{◌≡◌, ℕ, ◌∷◌, [], None, IfOk, IsTrue, IfSome};
ghost use Rattle.ap_bits.specs.Names.{IsName};
ghost use Rattle.ap_desc.specs.Clean.{IsClean};
ghost use Rattle.ap_desc.specs.Meaning.{MeetsPortFault, MeetsWordFault};
ghost use Rattle.ap_desc.specs.Sound.{IsSound};
ghost use Rattle.ap_model.specs.Examples as examples;
ghost use Rattle.ap_model.specs.Examples.{format_i, format_j, format_r};

use ap_bits::{Items, Name, NoMemory};
use ap_desc::design::{Act, Arg, Design, Field, File, Format, InPort, Instr, Mem, Micro, Unit};
use std::alloc::Global;

fn field(alloc: Global, name: &[u8], width: u32, low: u32) -> Result<Field, NoMemory>
    requires { IsName name.now }
    ensures { IfOk result (λ made. made ≡ examples.field name.now width low) }
{
    let name = Name::new(alloc, name)?;
    Ok(Field { name, width, low })
}

fn fields_of_r(alloc: Global) -> Result<Items<Field>, NoMemory>
    ensures { IfOk result (λ fields. fields ≡ format_r.fields) }
{
    let mut fields = Items::new(alloc);
    fields.push(field(alloc, b"op", 4, 12)?)?;
    fields.push(field(alloc, b"rd", 3, 9)?)?;
    fields.push(field(alloc, b"rs", 3, 6)?)?;
    fields.push(field(alloc, b"rt", 3, 3)?)?;
    fields.push(field(alloc, b"fn", 3, 0)?)?;
    Ok(fields)
}

fn fields_of_i(alloc: Global) -> Result<Items<Field>, NoMemory>
    ensures { IfOk result (λ fields. fields ≡ format_i.fields) }
{
    let mut fields = Items::new(alloc);
    fields.push(field(alloc, b"op", 4, 12)?)?;
    fields.push(field(alloc, b"rd", 3, 9)?)?;
    fields.push(field(alloc, b"rs", 3, 6)?)?;
    fields.push(field(alloc, b"imm", 6, 0)?)?;
    Ok(fields)
}

fn fields_of_j(alloc: Global) -> Result<Items<Field>, NoMemory>
    ensures { IfOk result (λ fields. fields ≡ format_j.fields) }
{
    let mut fields = Items::new(alloc);
    fields.push(field(alloc, b"op", 4, 12)?)?;
    fields.push(field(alloc, b"rd", 3, 9)?)?;
    fields.push(field(alloc, b"z", 3, 6)?)?;
    fields.push(field(alloc, b"t", 6, 0)?)?;
    Ok(fields)
}

fn formats(alloc: Global) -> Result<Items<Format>, NoMemory>
    ensures { IfOk result (λ formats. formats ≡ format_r ∷ format_i ∷ format_j ∷ []) }
{
    let mut formats = Items::new(alloc);
    formats.push(Format {
        name: Name::new(alloc, b"R")?,
        line: 11,
        fields: fields_of_r(alloc)?,
    })?;
    formats.push(Format {
        name: Name::new(alloc, b"I")?,
        line: 12,
        fields: fields_of_i(alloc)?,
    })?;
    formats.push(Format {
        name: Name::new(alloc, b"J")?,
        line: 13,
        fields: fields_of_j(alloc)?,
    })?;
    Ok(formats)
}

const RD: Arg = Arg::Field(1);

const RS: Arg = Arg::Field(2);

/// The fields `rt`, `imm` and `t`, each in its format.
const LAST: Arg = Arg::Field(3);

fn line(number: u32, stage: u32, act: Act) -> Micro
    ensures { result ≡ examples.line number stage act }
{
    Micro {
        line: number,
        stage,
        act,
    }
}

fn read(port: u32, index: Arg) -> Act
    ensures { result ≡ Act.ReadFile 0 port index }
{
    Act::ReadFile {
        file: 0,
        port,
        index,
    }
}

fn compute(unit: u32, op: u32, a: u32, b: u32) -> Act
    ensures { result ≡ Act.Compute unit op (Arg.Local a) (Arg.Local b) }
{
    Act::Compute {
        unit,
        op,
        a: Arg::Local(a),
        b: Arg::Local(b),
    }
}

fn write(value: u32) -> Act
    ensures { result ≡ Act.WriteFile 0 0 examples.rd (Arg.Local value) None }
{
    Act::WriteFile {
        file: 0,
        port: 0,
        index: RD,
        value: Arg::Local(value),
        guard: None,
    }
}

fn nop(alloc: Global) -> Result<Instr, NoMemory>
    ensures { IfOk result (λ instr. instr ≡ examples.nop) }
{
    Ok(Instr {
        name: Name::new(alloc, b"NOP")?,
        line: 14,
        format: 0,
        fixed: Items::copy_of(alloc, &[Some(0), Some(0), Some(0), Some(0), Some(0)])?,
        fixed_mask: 0xffff,
        fixed_value: 0,
        locals: Items::new(alloc),
        micros: Items::new(alloc),
    })
}

fn add(alloc: Global) -> Result<Instr, NoMemory>
    ensures { IfOk result (λ instr. instr ≡ examples.add) }
{
    let micros = [
        line(17, 1, read(0, RS)),
        line(18, 1, read(1, LAST)),
        line(19, 2, compute(0, 0, 0, 1)),
        line(20, 3, write(2)),
    ];
    Ok(Instr {
        name: Name::new(alloc, b"ADD")?,
        line: 16,
        format: 0,
        fixed: Items::copy_of(alloc, &[Some(1), None, None, None, Some(0)])?,
        fixed_mask: 0xf007,
        fixed_value: 0x1000,
        locals: Items::copy_of(alloc, &[16, 16, 16])?,
        micros: Items::copy_of(alloc, &micros)?,
    })
}

fn mul(alloc: Global) -> Result<Instr, NoMemory>
    ensures { IfOk result (λ instr. instr ≡ examples.mul) }
{
    let micros = [
        line(23, 1, read(0, RS)),
        line(24, 1, read(1, LAST)),
        line(25, 2, compute(2, 0, 0, 1)),
        line(26, 3, write(2)),
    ];
    Ok(Instr {
        name: Name::new(alloc, b"MUL")?,
        line: 22,
        format: 0,
        fixed: Items::copy_of(alloc, &[Some(1), None, None, None, Some(1)])?,
        fixed_mask: 0xf007,
        fixed_value: 0x1001,
        locals: Items::copy_of(alloc, &[16, 16, 16])?,
        micros: Items::copy_of(alloc, &micros)?,
    })
}

fn sll(alloc: Global) -> Result<Instr, NoMemory>
    ensures { IfOk result (λ instr. instr ≡ examples.sll) }
{
    let micros = [
        line(29, 1, read(0, RS)),
        line(30, 1, read(1, LAST)),
        line(31, 2, compute(1, 0, 0, 1)),
        line(32, 3, write(2)),
    ];
    Ok(Instr {
        name: Name::new(alloc, b"SLL")?,
        line: 28,
        format: 0,
        fixed: Items::copy_of(alloc, &[Some(1), None, None, None, Some(2)])?,
        fixed_mask: 0xf007,
        fixed_value: 0x1002,
        locals: Items::copy_of(alloc, &[16, 16, 16])?,
        micros: Items::copy_of(alloc, &micros)?,
    })
}

fn addi(alloc: Global) -> Result<Instr, NoMemory>
    ensures { IfOk result (λ instr. instr ≡ examples.addi) }
{
    let micros = [
        line(35, 1, read(0, RS)),
        line(36, 1, Act::Sext { width: 16, a: LAST }),
        line(37, 2, compute(0, 0, 0, 1)),
        line(38, 3, write(2)),
    ];
    Ok(Instr {
        name: Name::new(alloc, b"ADDI")?,
        line: 34,
        format: 1,
        fixed: Items::copy_of(alloc, &[Some(2), None, None, None])?,
        fixed_mask: 0xf000,
        fixed_value: 0x2000,
        locals: Items::copy_of(alloc, &[16, 16, 16])?,
        micros: Items::copy_of(alloc, &micros)?,
    })
}

fn ld(alloc: Global) -> Result<Instr, NoMemory>
    ensures { IfOk result (λ instr. instr ≡ examples.ld) }
{
    let micros = [
        line(41, 1, read(0, RS)),
        line(42, 1, Act::Sext { width: 16, a: LAST }),
        line(43, 2, compute(0, 0, 0, 1)),
        line(
            44,
            2,
            Act::Slice {
                high: 7,
                low: 0,
                a: Arg::Local(2),
            },
        ),
        line(
            45,
            2,
            Act::ReadMem {
                mem: 0,
                at: Arg::Local(3),
            },
        ),
        line(46, 3, write(4)),
    ];
    Ok(Instr {
        name: Name::new(alloc, b"LD")?,
        line: 40,
        format: 1,
        fixed: Items::copy_of(alloc, &[Some(3), None, None, None])?,
        fixed_mask: 0xf000,
        fixed_value: 0x3000,
        locals: Items::copy_of(alloc, &[16, 16, 16, 8, 16])?,
        micros: Items::copy_of(alloc, &micros)?,
    })
}

fn st(alloc: Global) -> Result<Instr, NoMemory>
    ensures { IfOk result (λ instr. instr ≡ examples.st) }
{
    let micros = [
        line(49, 1, read(0, RS)),
        line(50, 1, read(1, RD)),
        line(51, 1, Act::Sext { width: 16, a: LAST }),
        line(52, 2, compute(0, 0, 0, 2)),
        line(
            53,
            2,
            Act::Slice {
                high: 7,
                low: 0,
                a: Arg::Local(3),
            },
        ),
        line(
            54,
            2,
            Act::WriteMem {
                mem: 0,
                at: Arg::Local(4),
                value: Arg::Local(1),
                guard: None,
            },
        ),
    ];
    Ok(Instr {
        name: Name::new(alloc, b"ST")?,
        line: 48,
        format: 1,
        fixed: Items::copy_of(alloc, &[Some(4), None, None, None])?,
        fixed_mask: 0xf000,
        fixed_value: 0x4000,
        locals: Items::copy_of(alloc, &[16, 16, 16, 16, 8])?,
        micros: Items::copy_of(alloc, &micros)?,
    })
}

fn bz(alloc: Global) -> Result<Instr, NoMemory>
    ensures { IfOk result (λ instr. instr ≡ examples.bz) }
{
    let micros = [
        line(57, 1, read(0, RD)),
        line(
            58,
            1,
            Act::Const {
                width: 16,
                value: 0,
            },
        ),
        line(59, 2, compute(0, 5, 0, 1)),
        line(
            60,
            2,
            Act::Slice {
                high: 0,
                low: 0,
                a: Arg::Local(2),
            },
        ),
        line(
            61,
            2,
            Act::Branch {
                cond: Arg::Local(3),
                target: LAST,
            },
        ),
    ];
    Ok(Instr {
        name: Name::new(alloc, b"BZ")?,
        line: 56,
        format: 2,
        fixed: Items::copy_of(alloc, &[Some(5), None, Some(0), None])?,
        fixed_mask: 0xf1c0,
        fixed_value: 0x5000,
        locals: Items::copy_of(alloc, &[16, 16, 16, 1])?,
        micros: Items::copy_of(alloc, &micros)?,
    })
}

fn jal(alloc: Global) -> Result<Instr, NoMemory>
    ensures { IfOk result (λ instr. instr ≡ examples.jal) }
{
    let micros = [
        line(64, 2, Act::Jump { target: LAST }),
        line(
            65,
            3,
            Act::Zext {
                width: 16,
                a: Arg::Link,
            },
        ),
        line(66, 3, write(0)),
    ];
    Ok(Instr {
        name: Name::new(alloc, b"JAL")?,
        line: 63,
        format: 2,
        fixed: Items::copy_of(alloc, &[Some(6), None, Some(0), None])?,
        fixed_mask: 0xf1c0,
        fixed_value: 0x6000,
        locals: Items::copy_of(alloc, &[16])?,
        micros: Items::copy_of(alloc, &micros)?,
    })
}

fn jr(alloc: Global) -> Result<Instr, NoMemory>
    ensures { IfOk result (λ instr. instr ≡ examples.jr) }
{
    let micros = [
        line(69, 1, read(0, RD)),
        line(
            70,
            2,
            Act::Slice {
                high: 5,
                low: 0,
                a: Arg::Local(0),
            },
        ),
        line(
            71,
            2,
            Act::Jump {
                target: Arg::Local(1),
            },
        ),
    ];
    Ok(Instr {
        name: Name::new(alloc, b"JR")?,
        line: 68,
        format: 2,
        fixed: Items::copy_of(alloc, &[Some(7), None, Some(0), Some(0)])?,
        fixed_mask: 0xf1ff,
        fixed_value: 0x7000,
        locals: Items::copy_of(alloc, &[16, 6])?,
        micros: Items::copy_of(alloc, &micros)?,
    })
}

fn inp(alloc: Global) -> Result<Instr, NoMemory>
    ensures { IfOk result (λ instr. instr ≡ examples.inp) }
{
    let micros = [line(74, 2, Act::ReadIn { input: 0 }), line(75, 3, write(0))];
    Ok(Instr {
        name: Name::new(alloc, b"INP")?,
        line: 73,
        format: 1,
        fixed: Items::copy_of(alloc, &[Some(8), None, Some(0), Some(0)])?,
        fixed_mask: 0xf1ff,
        fixed_value: 0x8000,
        locals: Items::copy_of(alloc, &[16])?,
        micros: Items::copy_of(alloc, &micros)?,
    })
}

fn instrs(alloc: Global) -> Result<Items<Instr>, NoMemory>
    ensures { IfOk result (λ instrs. instrs ≡ examples.processor.instrs) }
{
    let mut instrs = Items::new(alloc);
    instrs.push(nop(alloc)?)?;
    instrs.push(add(alloc)?)?;
    instrs.push(mul(alloc)?)?;
    instrs.push(sll(alloc)?)?;
    instrs.push(addi(alloc)?)?;
    instrs.push(ld(alloc)?)?;
    instrs.push(st(alloc)?)?;
    instrs.push(bz(alloc)?)?;
    instrs.push(jal(alloc)?)?;
    instrs.push(jr(alloc)?)?;
    instrs.push(inp(alloc)?)?;
    Ok(instrs)
}

fn units(alloc: Global) -> Result<Items<Unit>, NoMemory>
    ensures { IfOk result (λ units. units ≡ examples.processor.units) }
{
    let mut units = Items::new(alloc);
    units.push(Unit {
        name: Name::new(alloc, b"ALU")?,
        kind: 0,
        width: 16,
        latency: 1,
    })?;
    units.push(Unit {
        name: Name::new(alloc, b"SH")?,
        kind: 1,
        width: 16,
        latency: 1,
    })?;
    units.push(Unit {
        name: Name::new(alloc, b"MUL")?,
        kind: 4,
        width: 16,
        latency: 17,
    })?;
    Ok(units)
}

fn files(alloc: Global) -> Result<Items<File>, NoMemory>
    ensures { IfOk result (λ files. files ≡ examples.processor.files) }
{
    let mut files = Items::new(alloc);
    files.push(File {
        name: Name::new(alloc, b"GPR")?,
        width: 16,
        cells: 8,
        reads: 2,
        writes: 1,
    })?;
    Ok(files)
}

fn mems(alloc: Global) -> Result<Items<Mem>, NoMemory>
    ensures { IfOk result (λ mems. mems ≡ examples.processor.mems) }
{
    let mut mems = Items::new(alloc);
    mems.push(Mem {
        name: Name::new(alloc, b"DM")?,
        address: 8,
        width: 16,
    })?;
    Ok(mems)
}

fn inputs(alloc: Global) -> Result<Items<InPort>, NoMemory>
    ensures { IfOk result (λ inputs. inputs ≡ examples.processor.inputs) }
{
    let mut inputs = Items::new(alloc);
    inputs.push(InPort {
        name: Name::new(alloc, b"P")?,
        width: 16,
    })?;
    Ok(inputs)
}

/// The whole processor.
pub fn processor(alloc: Global) -> Result<Design, NoMemory>
    ensures { IfOk result (λ design. design ≡ examples.processor) }
{
    Ok(Design {
        stages: 4,
        address: 6,
        word: 16,
        branch: 2,
        slots: 1,
        transfer_line: 4,
        regs: Items::new(alloc),
        files: files(alloc)?,
        mems: mems(alloc)?,
        inputs: inputs(alloc)?,
        units: units(alloc)?,
        formats: formats(alloc)?,
        instrs: instrs(alloc)?,
    })
}

/// The processor's numbers are sound.
fn processor_is_sound()
    ensures { IsSound examples.processor }
{}

/// Whether the judges of words and of ports and stages find no fault of the processor. Where they find none it is clean.
pub fn is_clean(design: &Design) -> Result<bool, NoMemory>
    requires { design.now ≡ examples.processor }
    ensures { IfOk result (λ clean. IsTrue clean → IsClean design.now) }
{
    processor_is_sound();
    let words = ap_enc::judge(design);
    let ports = ap_ports::judge(design)?;
    Ok(words.is_none() && ports.is_none())
}
