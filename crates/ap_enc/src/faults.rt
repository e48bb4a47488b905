//! The faults of a design's words.
ghost use Rattle.std.specs.Prelude.{◌≡◌, ℕ, ◌<◌, ◌==◌, length, sum_by, position, zip, IfSome, IfNone};
ghost use Rattle.std.specs.List.{list_any};
ghost use Rattle.ap_desc.specs.Least.{HoldsNowhere};
ghost use Rattle.ap_desc.specs.Meaning.{IsLeastWordFault, MeetsWordFault};
ghost use Rattle.ap_desc.specs.Sound.{IsSound};
ghost use Rattle.ap_desc.specs.WordFaults.{is_unfit, is_wrong_sum};
ghost use Rattle.ap_desc.specs.declared.design.Field.{Field};
ghost use Rattle.ap_enc.specs.Faults.{do_agree, fault_at, is_full_nop};

use crate::word::{fields_of, fits};
use ap_desc::design::{Design, Field, Format, Instr};
use ap_desc::laws::least_fault_is_looked_at;
use ap_desc::{Fault, Refusal};

/// Whether the fields' widths sum to this one.
#[tactic(auto, using(std::proofs::lemmas::List::Sums::sum_by_more, std::proofs::lemmas::List::Sums::sum_by_more_le))]
fn do_fill(fields: &[Field], word: u32) -> bool
    ensures { result ≡ (sum_by (λ (x : Field). x.width) fields.now == word) }
{
    let mut left = word;
    for field in fields {
        if field.width > left {
            return false;
        }
        left -= field.width;
    }
    left == 0
}

/// The place of the first format whose fields don't fill the word.
fn wrong_format(formats: &[Format], word: u32) -> Option<usize>
    ensures { result ≡ position (is_wrong_sum word) formats.now }
{
    formats
        .iter()
        .position(|format| !do_fill(format.fields.as_slice(), word))
}

/// Whether a fixed value doesn't fit its field.
fn has_unfit(fields: &[Field], fixed: &[Option<u64>]) -> bool
    ensures { result ≡ list_any is_unfit (zip fields.now fixed.now) }
{
    fields.iter().zip(fixed).any(|(field, fixed)| match fixed {
        Some(value) => !fits(*value, field.width),
        None => false,
    })
}

/// Whether the two patterns agree in the bits that both fix: then some word matches both.
fn do_agree(one: &Instr, other: &Instr) -> bool
    ensures { result ≡ do_agree one.now other.now }
{
    one.fixed_value & other.fixed_mask == other.fixed_value & one.fixed_mask
}

/// Whether the instruction's pattern agrees with one of these.
fn agrees_with_any(instr: &Instr, earlier: &[Instr]) -> bool
    ensures { result ≡ list_any (do_agree instr.now) earlier.now }
{
    earlier.iter().any(|other| do_agree(instr, other))
}

/// Whether the instruction is NOP and has micro-operations.
fn is_full_nop(instr: &Instr) -> bool
    ensures { result ≡ is_full_nop instr.now }
{
    instr.name.as_str() == "NOP" && !instr.micros.is_empty()
}

/// The first of the faults of the instruction at this place.
fn fault_at(design: &Design, place: usize) -> Option<Fault>
    requires sound { IsSound design.now }
    requires place { place < length design.now.instrs }
    ensures { result ≡ fault_at design.now place }
{
    let instrs = design.instrs.as_slice();
    let instr = &instrs[place];
    if has_unfit(fields_of(design, instr), instr.fixed.as_slice()) {
        Some(Fault::FieldValue)
    } else if agrees_with_any(instr, &instrs[..place]) {
        Some(Fault::Overlap)
    } else if is_full_nop(instr) {
        Some(Fault::NopNotEmpty)
    } else {
        None
    }
}

/// The first instruction with a fault, and its first fault.
fn first_fault(design: &Design) -> Option<(usize, Fault)>
    requires { IsSound design.now }
    ensures none { IfNone result ((place : ℕ) → fault_at design.now place ≡ None) }
    ensures some { IfSome result (λ found. (fault_at design.now found.0 ≡ Some found.1)
        × ((place : ℕ) → place < found.0 → fault_at design.now place ≡ None)) }
{
    for place in 0..design.instrs.len() {
        if let Some(fault) = fault_at(design, place) {
            return Some((place, fault));
        }
    }
    None
}

/// The least fault of the design's words, by line and then by number: formats that don't fill the word, fixed values that
/// don't fit, instructions that share a word with an earlier one, and a NOP that does something. None exactly where there is
/// none. It takes no memory.
pub fn judge(design: &Design) -> Option<Refusal>
    requires { IsSound design.now }
    ensures some { IfSome result (IsLeastWordFault design.now) }
    ensures none { IfNone result (HoldsNowhere (MeetsWordFault design.now)) }
{
    least_fault_is_looked_at();
    if let Some(place) = wrong_format(design.formats.as_slice(), design.word) {
        let line = design.formats.as_slice()[place].line;
        return Some(Refusal {
            phase: 4,
            line,
            kind: Fault::FormatSum,
        });
    }
    let (place, kind) = first_fault(design)?;
    let line = design.instrs.as_slice()[place].line;
    Some(Refusal {
        phase: 4,
        line,
        kind,
    })
}
