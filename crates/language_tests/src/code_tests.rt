//! Worked values of a processor's words, and one description a kind of fault, beside one like it that has none.
ghost use Rattle.std.specs.Prelude.{◌≡◌, ◌<◌, ◌∷◌, [], codes, length, IfOk};
ghost use Rattle.ap_bits.specs.Names.{IsName};
ghost use Rattle.ap_desc.specs.Clean.{IsClean};
ghost use Rattle.ap_desc.specs.Examples.{adder_fields};
ghost use Rattle.ap_desc.specs.Sound.{IsSound};
ghost use Rattle.ap_desc.specs.declared.design.Act.TheVariants as act;
ghost use Rattle.ap_enc.specs.Examples.{fifth_instr, four_instrs, immediate_fields, nop_design, plain_instr, words_design};
ghost use Rattle.ap_enc.specs.Words.{operands_at};

use ap_bits::{Items, Name, NoMemory};
use ap_desc::design::{Act, Design, Field, Format, Instr, Micro};
use ap_desc::{Fault, Refusal};
use ap_enc::{FieldRange, encode, find, judge};
use std::alloc::Global;
use std::test::Fail;

fn field(alloc: Global, name: &[u8], width: u32, low: u32) -> Result<Field, NoMemory>
    requires { IsName name.now }
    ensures { IfOk result (λ field. field ≡ record { name = name.now; width = width; low = low }) }
{
    let name = Name::new(alloc, name)?;
    Ok(Field { name, width, low })
}

fn fields_r(alloc: Global) -> Result<Items<Field>, NoMemory>
    ensures { IfOk result (λ fields. fields ≡ adder_fields) }
{
    let mut fields = Items::new(alloc);
    fields.push(field(alloc, b"op", 4, 12)?)?;
    fields.push(field(alloc, b"rd", 3, 9)?)?;
    fields.push(field(alloc, b"rs", 3, 6)?)?;
    fields.push(field(alloc, b"rt", 3, 3)?)?;
    fields.push(field(alloc, b"fn", 3, 0)?)?;
    Ok(fields)
}

fn fields_i(alloc: Global) -> Result<Items<Field>, NoMemory>
    ensures { IfOk result (λ fields. fields ≡ immediate_fields) }
{
    let mut fields = Items::new(alloc);
    fields.push(field(alloc, b"op", 4, 12)?)?;
    fields.push(field(alloc, b"rd", 3, 9)?)?;
    fields.push(field(alloc, b"rs", 3, 6)?)?;
    fields.push(field(alloc, b"imm", 6, 0)?)?;
    Ok(fields)
}

fn formats(alloc: Global) -> Result<Items<Format>, NoMemory>
    ensures { IfOk result (λ formats. formats
        ≡ record { name = codes "R"; line = 5; fields = adder_fields }
        ∷ record { name = codes "I"; line = 6; fields = immediate_fields } ∷ []) }
{
    let mut formats = Items::new(alloc);
    formats.push(Format {
        name: Name::new(alloc, b"R")?,
        line: 5,
        fields: fields_r(alloc)?,
    })?;
    formats.push(Format {
        name: Name::new(alloc, b"I")?,
        line: 6,
        fields: fields_i(alloc)?,
    })?;
    Ok(formats)
}

/// An instruction without lines.
fn plain(
    alloc: Global,
    name: &[u8],
    line: u32,
    format: u32,
    fixed: &[Option<u64>],
    fixed_mask: u64,
    fixed_value: u64,
) -> Result<Instr, NoMemory>
    requires { IsName name.now }
    ensures { IfOk result (λ instr. instr
        ≡ plain_instr name.now line format fixed.now fixed_mask fixed_value) }
{
    let name = Name::new(alloc, name)?;
    let fixed = Items::copy_of(alloc, fixed)?;
    Ok(Instr {
        name,
        line,
        format,
        fixed,
        fixed_mask,
        fixed_value,
        locals: Items::new(alloc),
        micros: Items::new(alloc),
    })
}

fn instrs(alloc: Global) -> Result<Items<Instr>, NoMemory>
    ensures { IfOk result (λ instrs. instrs ≡ four_instrs) }
{
    let mut instrs = Items::new(alloc);
    let zeros = [Some(0), Some(0), Some(0), Some(0), Some(0)];
    instrs.push(plain(alloc, b"NOP", 7, 0, &zeros, 0xffff, 0)?)?;
    let add = [Some(1), None, None, None, Some(0)];
    instrs.push(plain(alloc, b"ADD", 9, 0, &add, 0xf007, 0x1000)?)?;
    let mul = [Some(1), None, None, None, Some(1)];
    instrs.push(plain(alloc, b"MUL", 11, 0, &mul, 0xf007, 0x1001)?)?;
    let addi = [Some(2), None, None, None];
    instrs.push(plain(alloc, b"ADDI", 13, 1, &addi, 0xf000, 0x2000)?)?;
    Ok(instrs)
}

fn words(alloc: Global, instrs: Items<Instr>) -> Result<Design, NoMemory>
    ensures { IfOk result (λ design. design ≡ record (words_design []) { instrs = instrs }) }
{
    Ok(Design {
        stages: 4,
        address: 6,
        word: 16,
        branch: 2,
        slots: 1,
        transfer_line: 4,
        regs: Items::new(alloc),
        files: Items::new(alloc),
        mems: Items::new(alloc),
        inputs: Items::new(alloc),
        units: Items::new(alloc),
        formats: formats(alloc)?,
        instrs,
    })
}

/// The design of the four instructions is sound.
fn words_are_sound()
    ensures { IsSound (words_design []) }
{}

/// It is clean.
fn words_are_clean()
    ensures { IsClean (words_design []) }
{
    words_are_sound();
}

fn found(alloc: Global, word: u64) -> Result<Option<u32>, NoMemory> {
    words_are_clean();
    let instrs = instrs(alloc)?;
    let design = words(alloc, instrs)?;
    Ok(find(&design, word))
}

fn encoded(alloc: Global, instr: u32, values: &[u64]) -> Result<Result<u64, FieldRange>, NoMemory>
    requires instr { instr < 4 }
    requires values { length values.now ≡ length (operands_at (words_design []) instr) }
{
    words_are_clean();
    let instrs = instrs(alloc)?;
    let design = words(alloc, instrs)?;
    Ok(encode(&design, instr, values))
}

#[test]
fn words_are_found(rt: HostRuntime) -> Result<(), Fail> {
    assert_eq!(rt; found(rt.alloc(), 0x2205)?, Some(3));
    assert_eq!(rt; found(rt.alloc(), 0x1448)?, Some(1));
    assert_eq!(rt; found(rt.alloc(), 0x1449)?, Some(2));
    assert_eq!(rt; found(rt.alloc(), 0x0)?, Some(0));
    assert_eq!(rt; found(rt.alloc(), 0x1)?, None);
    assert_eq!(rt;
        found(rt.alloc(), 0x5_2205)?,
        Some(3),
        "the bits above the word"
    );
    Ok(())
}

#[test]
fn operands_are_encoded(rt: HostRuntime) -> Result<(), Fail> {
    assert_eq!(rt; encoded(rt.alloc(), 3, &[1, 0, 5])?, Ok(0x2205));
    assert_eq!(rt;
        encoded(rt.alloc(), 3, &[1, 0, 64])?,
        Err(FieldRange { field: 2 })
    );
    assert_eq!(rt;
        encoded(rt.alloc(), 3, &[8, 0, 64])?,
        Err(FieldRange { field: 0 })
    );
    assert_eq!(rt; encoded(rt.alloc(), 1, &[2, 1, 1])?, Ok(0x1448));
    assert_eq!(rt; encoded(rt.alloc(), 0, &[])?, Ok(0));
    Ok(())
}

/// The four instructions and a fifth one.
fn with_fifth(alloc: Global, op: u64, value: u64) -> Result<Design, NoMemory>
    ensures { IfOk result (λ design. design ≡ words_design (fifth_instr op value ∷ [])) }
{
    let mut instrs = instrs(alloc)?;
    let fixed = [Some(op), None, None, None];
    instrs.push(plain(alloc, b"Y", 15, 1, &fixed, 0xf000, value)?)?;
    let design = words(alloc, instrs)?;
    Ok(design)
}

/// The least fault of the four instructions and a fifth one.
fn judged_fifth(alloc: Global, op: u64, value: u64) -> Result<Option<Refusal>, NoMemory>
    requires { IsSound (words_design (fifth_instr op value ∷ [])) }
{
    let design = with_fifth(alloc, op, value)?;
    Ok(judge(&design))
}

/// A design with NOP alone.
fn nop_alone(
    alloc: Global,
    width: u32,
    value: u64,
    fixed_mask: u64,
    locals: &[u32],
    micros: &[Micro],
) -> Result<Design, NoMemory>
    ensures { IfOk result (λ design. design
        ≡ nop_design width value fixed_mask locals.now micros.now) }
{
    let mut fields = Items::new(alloc);
    fields.push(field(alloc, b"op", width, 0)?)?;
    let mut formats = Items::new(alloc);
    formats.push(Format {
        name: Name::new(alloc, b"R")?,
        line: 5,
        fields,
    })?;
    let mut instrs = Items::new(alloc);
    instrs.push(Instr {
        name: Name::new(alloc, b"NOP")?,
        line: 6,
        format: 0,
        fixed: Items::copy_of(alloc, &[Some(value)])?,
        fixed_mask,
        fixed_value: 0,
        locals: Items::copy_of(alloc, locals)?,
        micros: Items::copy_of(alloc, micros)?,
    })?;
    Ok(Design {
        stages: 4,
        address: 6,
        word: 8,
        branch: 2,
        slots: 1,
        transfer_line: 4,
        regs: Items::new(alloc),
        files: Items::new(alloc),
        mems: Items::new(alloc),
        inputs: Items::new(alloc),
        units: Items::new(alloc),
        formats,
        instrs,
    })
}

/// The least fault of a design with NOP alone.
fn judged_nop(
    alloc: Global,
    width: u32,
    value: u64,
    fixed_mask: u64,
    locals: &[u32],
    micros: &[Micro],
) -> Result<Option<Refusal>, NoMemory>
    requires { IsSound (nop_design width value fixed_mask locals.now micros.now) }
{
    let design = nop_alone(alloc, width, value, fixed_mask, locals, micros)?;
    Ok(judge(&design))
}

/// The designs that are judged are sound.
fn judged_are_sound()
    ensures right { IsSound (nop_design 8 0 255 [] []) }
    ensures sum { IsSound (nop_design 7 0 127 [] []) }
    ensures value { IsSound (nop_design 8 256 0 [] []) }
    ensures lines { IsSound (nop_design 8 0 255 (8 ∷ [])
        (record { line = 7; stage = 1; act = act.Const 8 1 } ∷ [])) }
    ensures apart { IsSound (words_design (fifth_instr 3 0x3000 ∷ [])) }
    ensures shared { IsSound (words_design (fifth_instr 1 0x1000 ∷ [])) }
{}

#[test]
fn faults_of_words(rt: HostRuntime) -> Result<(), Fail> {
    judged_are_sound();
    let alloc = rt.alloc();
    let refused = |line, kind| Some(Refusal {
        phase: 4,
        line,
        kind,
    });
    assert_eq!(rt; judged_nop(alloc, 8, 0, 255, &[], &[])?, None);
    assert_eq!(rt;
        judged_nop(alloc, 7, 0, 127, &[], &[])?,
        refused(5, Fault::FormatSum)
    );
    assert_eq!(rt;
        judged_nop(alloc, 8, 256, 0, &[], &[])?,
        refused(6, Fault::FieldValue)
    );
    let one = Micro {
        line: 7,
        stage: 1,
        act: Act::Const { width: 8, value: 1 },
    };
    assert_eq!(rt;
        judged_nop(alloc, 8, 0, 255, &[8], &[one])?,
        refused(6, Fault::NopNotEmpty)
    );
    assert_eq!(rt; judged_fifth(alloc, 3, 0x3000)?, None);
    assert_eq!(rt;
        judged_fifth(alloc, 1, 0x1000)?,
        refused(15, Fault::Overlap)
    );
    Ok(())
}
