//! The instruction that a word matches, and the word of an instruction.
ghost use Rattle.std.specs.Prelude.{◌≡◌, ℕ, ◌/◌, ◌%◌, ◌^◌, ◌<◌, ◌≤◌, ◌==◌, ◌↔◌, nat_lt, bit_and, length, filter_map, position, zip, IsOk, IfOk, IfErr, IfSome, IfNone};
ghost use Rattle.ap_desc.specs.Clean.{IsClean};
ghost use Rattle.ap_desc.specs.Designs.{field_value, fields_of};
ghost use Rattle.ap_desc.specs.declared.design.Instr.{Instr};
ghost use Rattle.ap_enc.specs.Packed.{AreSideBySide, DoFit, free_width, packed, width_of};
ghost use Rattle.ap_enc.specs.Words.{IsOnlyMatch, IsWordOf, MatchesAt, first_unfit, is_too_wide, operands_at};

use ap_bits::mask;
use ap_desc::design::{Design, Field, Instr};
use ap_desc::laws::clean_is_encoded;

/// The value of an operand doesn't fit its field: the number of the first such operand, counted from 0.
#[derive(Clone, Copy, Debug, PartialEq, Eq)]
pub struct FieldRange {
    pub field: u32,
}

/// Whether the value has at most so many bits.
#[tactic(auto, using(crate::proofs::Blocks::fits_wide, crate::proofs::Blocks::fits_shifted))]
pub fn fits(value: u64, width: u32) -> bool
    ensures { result ≡ nat_lt value (2 ^ width) }
{
    width >= 64 || value >> width == 0
}

/// The value without its lowest bits.
#[tactic(auto, using(crate::proofs::Blocks::above_all))]
fn above(value: u64, low: u32) -> u64
    ensures { result ≡ value / 2 ^ low }
{
    if low < 64 { value >> low } else { 0 }
}

/// The lowest bits of a value.
#[tactic(auto, using(crate::proofs::Blocks::low_all, std::proofs::lemmas::Nat::and_mask))]
fn low_bits(value: u64, width: u32) -> u64
    ensures { result ≡ value % 2 ^ width }
{
    if width == 0 {
        0
    } else if width < 64 {
        value & mask(width)
    } else {
        value
    }
}

/// What the word gives a field: the bits of its place.
pub fn field_value(field: &Field, word: u64) -> u64
    ensures { result ≡ field_value field.now word }
{
    low_bits(above(word, field.low), field.width)
}

/// The fields of an instruction's format, and none where the format isn't declared.
pub fn fields_of<'a>(design: &'a Design, instr: &Instr) -> &'a [Field]
    ensures { result.now ≡ fields_of design.now instr.now }
{
    match design.formats.as_slice().get(instr.format as usize) {
        Some(format) => format.fields.as_slice(),
        None => &[],
    }
}

/// The place of the first instruction that the word matches.
fn first_match(instrs: &[Instr], word: u64) -> Option<usize>
    ensures { result
        ≡ position (λ (i : Instr). bit_and word i.fixed_mask == i.fixed_value) instrs.now }
{
    instrs
        .iter()
        .position(|instr| word & instr.fixed_mask == instr.fixed_value)
}

/// The place of the instruction that the word matches, and None exactly where it matches none. The word may be any; the bits
/// beyond the width of a code word aren't looked at. It takes no memory.
pub fn find(design: &Design, word: u64) -> Option<u32>
    requires { IsClean design.now }
    ensures some { IfSome result (IsOnlyMatch design.now word) }
    ensures none { IfNone result ((place : ℕ) → MatchesAt design.now place word → ⊥) }
{
    match first_match(design.instrs.as_slice(), word) {
        Some(place) => Some(place as u32),
        None => None,
    }
}

/// The number of the first operand whose value doesn't fit.
fn first_unfit(fields: &[Field], fixed: &[Option<u64>], values: &[u64]) -> Option<usize>
    ensures { result ≡ position is_too_wide
        (zip (filter_map free_width (zip fields.now fixed.now)) values.now) }
{
    fields
        .iter()
        .zip(fixed)
        .filter_map(|(field, fixed)| match fixed {
            None => Some(field.width),
            Some(_) => None,
        })
        .zip(values)
        .position(|(width, value)| !fits(*value, width))
}

/// The fixed values and those of the operands, each at the place of its field.
fn packed(fields: &[Field], fixed: &[Option<u64>], values: &[u64]) -> u64
    requires placed { AreSideBySide (zip fields.now fixed.now) }
    requires fit { DoFit (zip fields.now fixed.now) values.now }
    requires width { width_of (zip fields.now fixed.now) ≤ 64 }
    ensures { result ≡ packed (zip fields.now fixed.now) values.now }
{
    let [field, fields @ ..] = fields else {
        return 0;
    };
    let [value, fixed @ ..] = fixed else {
        return 0;
    };
    match (*value, values) {
        (Some(value), values) => (value << field.low) + packed(fields, fixed, values),
        (None, [value, values @ ..]) => (*value << field.low) + packed(fields, fixed, values),
        (None, []) => 0,
    }
}

/// The code word of the instruction at this place whose operands, the fields that its pattern leaves free, have these values
/// in order. `FieldRange` comes exactly where a value doesn't fit its field. It takes no memory.
pub fn encode(design: &Design, instr: u32, values: &[u64]) -> Result<u64, FieldRange>
    requires clean { IsClean design.now }
    requires instr { instr < length design.now.instrs }
    requires values { length values.now ≡ length (operands_at design.now instr) }
    ensures ok { IfOk result (IsWordOf design.now instr values.now) }
    ensures err { IfErr result (λ e. first_unfit design.now instr values.now ≡ Some e.field) }
    ensures fits { IsOk result ↔ (first_unfit design.now instr values.now ≡ None) }
{
    clean_is_encoded();
    let instr = &design.instrs.as_slice()[instr as usize];
    let fields = fields_of(design, instr);
    let fixed = instr.fixed.as_slice();
    match first_unfit(fields, fixed, values) {
        Some(number) => Err(FieldRange {
            field: number as u32,
        }),
        None => Ok(packed(fields, fixed, values)),
    }
}
