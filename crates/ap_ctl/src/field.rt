//! The fields that instructions fix, as tests of a code word.
ghost use Rattle.std.specs.Prelude.{◌≡◌, IfOk, OnOk, fold, filter_map, zip, flat_map};
ghost use Rattle.std.specs.List.{list_any};
ghost use Rattle.ap_desc.specs.Designs.{fields_of};
ghost use Rattle.ap_ctl.specs.Decoding.{field_tests, is_same_test, test_of, tests_of, with_test};

use ap_bits::{Items, NoMemory};
use ap_desc::design::{Design, Field, Instr};
use std::alloc::{AllocError, Global};

/// Some bits of a code word, and the value that they are compared with.
#[derive(Clone, Copy, Debug, PartialEq, Eq)]
pub struct FieldTest {
    /// The lowest of the bits.
    pub low: u32,
    /// How many they are.
    pub width: u32,
    /// The value that they have to have.
    pub value: u64,
}

/// The fields of an instruction's format, and none where the format isn't declared.
fn fields_of<'a>(design: &'a Design, instr: &Instr) -> &'a [Field]
    ensures { result.now ≡ fields_of design.now instr.now }
{
    match design.formats.as_slice().get(instr.format as usize) {
        Some(format) => format.fields.as_slice(),
        None => &[],
    }
}

/// The tests of those fields that have a fixed value.
fn fixed_tests(
    alloc: Global,
    fields: &[Field],
    fixed: &[Option<u64>],
) -> Result<Vec<FieldTest>, AllocError>
    ensures { IfOk result (λ tests.
        tests.items ≡ filter_map test_of (zip fields.now fixed.now)) }
{
    fields
        .iter()
        .zip(fixed)
        .filter_map(|(field, fixed)| match fixed {
            None => None,
            Some(value) => Some(FieldTest {
                low: field.low,
                width: field.width,
                value: *value,
            }),
        })
        .collect(alloc)
}

/// The tests of an instruction: one for each field that it fixes, in the order of its format.
pub fn tests_of(alloc: Global, design: &Design, instr: &Instr) -> Result<Items<FieldTest>, NoMemory>
    ensures { IfOk result (λ tests. tests ≡ tests_of design.now instr.now) }
{
    let fields = fields_of(design, instr);
    let tests = fixed_tests(alloc, fields, instr.fixed.as_slice())?;
    Ok(Items::of(tests))
}

/// Whether both test the same bits for the same value.
pub fn is_same_test(a: FieldTest, b: FieldTest) -> bool
    ensures { result ≡ is_same_test a b }
{
    a.low == b.low && a.width == b.width && a.value == b.value
}

/// Whether the test is one of these.
pub fn is_among(test: FieldTest, tests: &[FieldTest]) -> bool
    ensures { result ≡ list_any (is_same_test test) tests.now }
{
    tests.iter().any(|other| is_same_test(test, *other))
}

/// Adds the test, unless it is there.
fn add_test(tests: &mut Items<FieldTest>, test: FieldTest) -> Result<(), NoMemory>
    ensures { OnOk result (tests.new ≡ with_test tests.old test) }
{
    if is_among(test, tests.as_slice()) {
        return Ok(());
    }
    tests.push(test)?;
    Ok(())
}

/// Adds those of the tests that aren't there yet.
fn add_tests(tests: &mut Items<FieldTest>, more: &[FieldTest]) -> Result<(), NoMemory>
    ensures { OnOk result (tests.new ≡ fold with_test tests.old more.now) }
{
    for test in more {
        add_test(tests, *test)?;
    }
    Ok(())
}

/// The tests of all instructions, each once.
pub fn field_tests(alloc: Global, design: &Design) -> Result<Items<FieldTest>, NoMemory>
    ensures { IfOk result (λ tests. tests ≡ field_tests design.now) }
{
    let mut tests = Items::new(alloc);
    for instr in design.instrs.as_slice() {
        let more = tests_of(alloc, design, instr)?;
        add_tests(&mut tests, more.as_slice())?;
    }
    Ok(tests)
}
