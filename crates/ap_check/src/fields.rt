//! The fields of formats, and what an instruction fixes of them.
ghost use Rattle.std.specs.Prelude.{◌≡◌, ◌^◌, ◌<◌, ◌≤◌, IfOk, min, sum_by, map, not};
ghost use Rattle.ap_check.specs.FixedBits.{field_bits, mask_of, value_of};
ghost use Rattle.std.specs.List.{list_any};
ghost use Rattle.ap_desc.specs.Declarations.{fields_said};
ghost use Rattle.ap_desc.specs.Designs as designs;
ghost use Rattle.ap_desc.specs.Instructions.{fixed_of};
ghost use Rattle.ap_desc.specs.Spelling.{field_names};
ghost use Rattle.ap_desc.specs.declared.statement.FieldNumber.{FieldNumber as DeclaredFieldNumber};

use crate::names::Names;
use crate::numbers::{is_field_width, narrow};
use ap_bits::{Items, NoMemory, mask};
use ap_desc::FieldNumber;
use ap_desc::design::Field;
use std::alloc::Global;

/// Whether a field's width is outside its limits in a word of so many bits.
pub(crate) fn has_wrong_field(word: u32, fields: &[FieldNumber]) -> bool
    ensures { result ≡ list_any (λ (f : DeclaredFieldNumber).
        not (designs.is_field_width word f.number)) fields.now }
{
    fields.iter().any(|f| !is_field_width(word, f.number))
}

/// The sum of the widths of fields, which has 32 bits.
#[tactic(auto, using(crate::proofs::FieldLists::field_sums))]
fn total_width(fields: &[FieldNumber]) -> u32
    requires { field_bits fields.now < 2 ^ 32 }
    ensures { result ≡ field_bits fields.now }
{
    let mut total: u64 = 0;
    for field in fields {
        total = total.saturating_add(field.number);
    }
    narrow(total)
}

/// The fields of a format: each lies above those after it. The sum of their widths has 32 bits.
#[tactic(auto, using(crate::proofs::FieldLists::field_sums))]
pub(crate) fn placed_fields(alloc: Global, fields: &[FieldNumber]) -> Result<Items<Field>, NoMemory>
    requires { field_bits fields.now < 2 ^ 32 }
    ensures { IfOk result (λ placed. placed ≡ fields_said fields.now) }
{
    let mut low = total_width(fields);
    let mut placed = Items::new(alloc);
    for field in fields {
        let width = field.number as u32;
        low -= width;
        let name = field.field.copy(alloc)?;
        placed.push(Field { name, width, low })?;
    }
    Ok(placed)
}

/// The value that an `instr` line gives a field; these are the names of its fields.
fn fixed_value(field: &Field, names: &Names, fixed: &[FieldNumber]) -> Option<u64>
    requires { names.now ≡ field_names fixed.now }
    ensures { result ≡ fixed_of fixed.now field.now }
{
    match names.place(field.name.as_str()) {
        Some(place) => match fixed.get(place as usize) {
            Some(f) => Some(f.number),
            None => None,
        },
        None => None,
    }
}

/// The values that an `instr` line gives to fields, by the fields' places.
pub(crate) fn fixed_values(
    alloc: Global,
    fields: &[Field],
    names: &Names,
    fixed: &[FieldNumber],
) -> Result<Items<Option<u64>>, NoMemory>
    requires { names.now ≡ field_names fixed.now }
    ensures { IfOk result (λ values. values ≡ map (fixed_of fixed.now) fields.now) }
{
    let mut values = Items::new(alloc);
    for field in fields {
        values.push(fixed_value(field, names, fixed))?;
    }
    Ok(values)
}

/// Whether a fixed field lies in a word of so many bits, and its value fits.
fn is_counted(word: u32, field: &Field, value: u64) -> bool
    requires { word ≤ 64 }
    ensures { result ≡ designs.is_counted word field.now value }
{
    let end = u64::from(field.low) + u64::from(field.width);
    end <= u64::from(word) && (field.width >= 64 || value < 1 << field.width)
}

/// The bits of a fixed field at its place, where it counts.
fn mask_bits(word: u32, field: &Field, value: Option<u64>) -> u64
    requires { word ≤ 64 }
    ensures { result ≡ designs.mask_bits word (field.now, value) }
{
    match value {
        Some(value) if is_counted(word, field, value) && field.width > 0 => {
            mask(field.width) << field.low
        }
        _ => 0,
    }
}

/// The value of a fixed field at its place, where it counts.
fn value_bits(word: u32, field: &Field, value: Option<u64>) -> u64
    requires { word ≤ 64 }
    ensures { result ≡ designs.value_bits word (field.now, value) }
{
    match value {
        Some(value) if is_counted(word, field, value) && field.width > 0 => value << field.low,
        _ => 0,
    }
}

/// The bits that an `instr` line fixes, at most all of 64; these are the names of its fields.
#[tactic(auto, using(crate::proofs::FieldLists::field_sums))]
pub(crate) fn fixed_mask(word: u32, fields: &[Field], names: &Names, fixed: &[FieldNumber]) -> u64
    requires word { word ≤ 64 }
    requires names { names.now ≡ field_names fixed.now }
    ensures { result ≡ min (sum_by (mask_of word fixed.now) fields.now) 18446744073709551615 }
{
    let mut bits: u64 = 0;
    for field in fields {
        bits = bits.saturating_add(mask_bits(word, field, fixed_value(field, names, fixed)));
    }
    bits
}

/// The values of these bits.
#[tactic(auto, using(crate::proofs::FieldLists::field_sums))]
pub(crate) fn fixed_bits(word: u32, fields: &[Field], names: &Names, fixed: &[FieldNumber]) -> u64
    requires word { word ≤ 64 }
    requires names { names.now ≡ field_names fixed.now }
    ensures { result ≡ min (sum_by (value_of word fixed.now) fields.now)
        18446744073709551615 }
{
    let mut bits: u64 = 0;
    for field in fields {
        bits = bits.saturating_add(value_bits(word, field, fixed_value(field, names, fixed)));
    }
    bits
}
