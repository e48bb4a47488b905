//! Designs of three units, of which one is slow, a register, a file, a memory and an input, and the lines of their instructions.
ghost use Rattle.std.specs.Prelude.{◌≡◌, ◌<◌, [], ◌∷◌, IfOk};
ghost use Rattle.ap_bits.specs.Names.{IsName};
ghost use Rattle.ap_desc.specs.declared.design.Act.TheVariants as act;
ghost use Rattle.ap_desc.specs.declared.design.Arg.TheVariants as arg;
ghost use Rattle.language_tests.specs.PortExamples.{far_memory, file_to_sum, lines_instr, memory_to_sum, one_sum, one_write, ports_design, slow_input, sum_to_file, sum_to_memory, sums_apart, two_sums};

use ap_bits::{Items, Name, NoMemory};
use ap_desc::design::{
    Act, Arg, Design, Field, File, Format, InPort, Instr, Mem, Micro, Reg, Unit,
};
use std::alloc::Global;

/// The value in a list.
fn alone<T: Drop>(alloc: Global, value: T) -> Result<Items<T>, NoMemory>
    ensures { IfOk result (λ list. list ≡ value ∷ []) }
{
    let mut list = Items::new(alloc);
    list.push(value)?;
    Ok(list)
}

fn unit(alloc: Global, name: &[u8], kind: u32, latency: u32) -> Result<Unit, NoMemory>
    requires { IsName name.now }
    ensures { IfOk result (λ unit. unit ≡ record { name = name.now; kind = kind; width = 8; latency = latency }) }
{
    let name = Name::new(alloc, name)?;
    Ok(Unit {
        name,
        kind,
        width: 8,
        latency,
    })
}

fn units(alloc: Global) -> Result<Items<Unit>, NoMemory>
    ensures { IfOk result (λ units. units ≡ (ports_design 0 0 0 [] [] [] [] [] []).units) }
{
    let mut units = Items::new(alloc);
    units.push(unit(alloc, b"A", 0, 1)?)?;
    units.push(unit(alloc, b"B", 1, 1)?)?;
    units.push(unit(alloc, b"C", 2, 9)?)?;
    Ok(units)
}

fn format(alloc: Global) -> Result<Format, NoMemory>
    ensures { IfOk result (λ format. format ∷ [] ≡ (ports_design 0 0 0 [] [] [] [] [] []).formats) }
{
    let name = Name::new(alloc, b"op")?;
    let fields = alone(
        alloc,
        Field {
            name,
            width: 8,
            low: 0,
        },
    )?;
    let name = Name::new(alloc, b"W")?;
    Ok(Format {
        name,
        line: 11,
        fields,
    })
}

/// An instruction whose word is this value.
fn instr(
    alloc: Global,
    name: &[u8],
    line: u32,
    value: u64,
    locals: &[u32],
    micros: &[Micro],
) -> Result<Instr, NoMemory>
    requires { IsName name.now }
    ensures { IfOk result (λ instr. instr ≡ lines_instr name.now line value locals.now micros.now) }
{
    let name = Name::new(alloc, name)?;
    let fixed = Items::copy_of(alloc, &[Some(value)])?;
    let locals = Items::copy_of(alloc, locals)?;
    let micros = Items::copy_of(alloc, micros)?;
    Ok(Instr {
        name,
        line,
        format: 0,
        fixed,
        fixed_mask: 255,
        fixed_value: value,
        locals,
        micros,
    })
}

/// How many stages there are, the stage of transfers, and the slots.
#[derive(Clone, Copy)]
pub(crate) struct Shape {
    pub(crate) stages: u32,
    pub(crate) branch: u32,
    pub(crate) slots: u32,
}

/// The parts of a design, without instructions.
fn parts(alloc: Global, shape: Shape, instrs: Items<Instr>) -> Result<Design, NoMemory>
    ensures { IfOk result (λ design. design ≡ record (ports_design shape.stages shape.branch shape.slots [] [] [] [] [] []) { instrs = instrs }) }
{
    let name = Name::new(alloc, b"R")?;
    let regs = alone(
        alloc,
        Reg {
            name,
            width: 8,
            reset: 0,
        },
    )?;
    let name = Name::new(alloc, b"F")?;
    let files = alone(
        alloc,
        File {
            name,
            width: 8,
            cells: 64,
            reads: 2,
            writes: 2,
        },
    )?;
    let name = Name::new(alloc, b"M")?;
    let mems = alone(
        alloc,
        Mem {
            name,
            address: 8,
            width: 8,
        },
    )?;
    let name = Name::new(alloc, b"P")?;
    let inputs = alone(alloc, InPort { name, width: 8 })?;
    let units = units(alloc)?;
    let format = format(alloc)?;
    let formats = alone(alloc, format)?;
    Ok(Design {
        stages: shape.stages,
        address: 6,
        word: 8,
        branch: shape.branch,
        slots: shape.slots,
        transfer_line: 4,
        regs,
        files,
        mems,
        inputs,
        units,
        formats,
        instrs,
    })
}

/// A design whose instructions I, J and K have these lines, which assign locals of these widths.
pub(crate) fn design(
    alloc: Global,
    shape: Shape,
    one_locals: &[u32],
    one: &[Micro],
    two_locals: &[u32],
    two: &[Micro],
    three_locals: &[u32],
    three: &[Micro],
) -> Result<Design, NoMemory>
    ensures { IfOk result (λ design. design ≡ ports_design shape.stages shape.branch shape.slots
        one_locals.now one.now two_locals.now two.now three_locals.now three.now) }
{
    let mut instrs = Items::new(alloc);
    instrs.push(instr(alloc, b"NOP", 12, 0, &[], &[])?)?;
    instrs.push(instr(alloc, b"I", 20, 1, one_locals, one)?)?;
    instrs.push(instr(alloc, b"J", 30, 2, two_locals, two)?)?;
    instrs.push(instr(alloc, b"K", 40, 3, three_locals, three)?)?;
    parts(alloc, shape, instrs)
}

pub(crate) const SHORT: Shape = Shape {
    stages: 4,
    branch: 2,
    slots: 1,
};

fn line(line: u32, stage: u32, act: Act) -> Micro
    ensures { result ≡ record { line = line; stage = stage; act = act } }
{
    Micro { line, stage, act }
}

fn sum(unit: u32, a: u32, b: u32) -> Act
    ensures { result ≡ act.Compute unit 0 (arg.Local a) (arg.Local b) }
{
    Act::Compute {
        unit,
        op: 0,
        a: Arg::Local(a),
        b: Arg::Local(b),
    }
}

fn one() -> Act
    ensures { result ≡ act.Const 8 1 }
{
    Act::Const { width: 8, value: 1 }
}

pub(crate) fn two_sums(start: u32, first: u32, second: u32) -> [Micro; 3]
    requires { start < 100 }
    ensures { result ≡ two_sums start first second }
{
    [
        line(start + 1, 2, one()),
        line(start + 2, 2, sum(first, 0, 0)),
        line(start + 3, 2, sum(second, 1, 0)),
    ]
}

pub(crate) fn sums_apart(first: u32, second: u32) -> [Micro; 3]
    ensures { result ≡ sums_apart first second }
{
    [
        line(31, 1, one()),
        line(32, 1, sum(first, 0, 0)),
        line(33, 2, sum(second, 1, 0)),
    ]
}

pub(crate) fn one_sum(start: u32, stage: u32) -> [Micro; 2]
    requires { start < 100 }
    ensures { result ≡ one_sum start stage }
{
    [
        line(start + 1, 1, one()),
        line(start + 2, stage, sum(0, 0, 0)),
    ]
}

pub(crate) fn one_write(first: u32, second: u32) -> [Micro; 2]
    ensures { result ≡ one_write first second }
{
    let write = Act::WriteReg {
        reg: 0,
        value: Arg::Local(0),
        guard: None,
    };
    [line(21, first, one()), line(22, second, write)]
}

pub(crate) fn slow_input(stage: u32) -> [Micro; 2]
    ensures { result ≡ slow_input stage }
{
    [
        line(21, stage, Act::ReadIn { input: 0 }),
        line(22, 2, sum(2, 0, 0)),
    ]
}

pub(crate) fn far_memory(unit: u32) -> [Micro; 4]
    ensures { result ≡ far_memory unit }
{
    let read = Act::ReadMem {
        mem: 0,
        at: Arg::Field(0),
    };
    let extended = Act::Zext {
        width: 8,
        a: Arg::Local(0),
    };
    [
        line(21, 2, read),
        line(22, 2, extended),
        line(23, 2, sum(0, 1, 1)),
        line(24, 2, sum(unit, 2, 2)),
    ]
}

fn read_at(local: u32) -> Act
    ensures { result ≡ act.ReadMem 0 (arg.Local local) }
{
    Act::ReadMem {
        mem: 0,
        at: Arg::Local(local),
    }
}

pub(crate) fn sum_to_memory(unit: u32) -> [Micro; 3]
    ensures { result ≡ sum_to_memory unit }
{
    [
        line(31, 2, one()),
        line(32, 2, sum(unit, 0, 0)),
        line(33, 2, read_at(1)),
    ]
}

pub(crate) fn memory_to_sum() -> [Micro; 3]
    ensures { result ≡ memory_to_sum }
{
    [
        line(41, 2, one()),
        line(42, 2, read_at(0)),
        line(43, 2, sum(0, 1, 1)),
    ]
}

fn low_bits(local: u32) -> Act
    ensures { result ≡ act.Slice 5 0 (arg.Local local) }
{
    Act::Slice {
        high: 5,
        low: 0,
        a: Arg::Local(local),
    }
}

fn cell_at(local: u32) -> Act
    ensures { result ≡ act.ReadFile 0 0 (arg.Local local) }
{
    Act::ReadFile {
        file: 0,
        port: 0,
        index: Arg::Local(local),
    }
}

pub(crate) fn file_to_sum() -> [Micro; 4]
    ensures { result ≡ file_to_sum }
{
    [
        line(21, 2, one()),
        line(22, 2, low_bits(0)),
        line(23, 2, cell_at(1)),
        line(24, 2, sum(0, 2, 2)),
    ]
}

pub(crate) fn sum_to_file() -> [Micro; 4]
    ensures { result ≡ sum_to_file }
{
    [
        line(31, 2, one()),
        line(32, 2, sum(0, 0, 0)),
        line(33, 2, low_bits(1)),
        line(34, 2, cell_at(2)),
    ]
}
