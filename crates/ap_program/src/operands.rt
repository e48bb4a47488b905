//! The instruction that a line names, and the fields that its operands stand for.
ghost use Rattle.std.specs.Prelude.{◌≡◌, ◌-◌, ◌%◌, ◌^◌, ◌<◌, ◌≤◌, [], length, slice_get, zip, IfOk, IfSome};
ghost use Rattle.std.specs.List.{AllByRecursion as Each, list_any};
ghost use Rattle.std.specs.Option.{option_map_or};
ghost use Rattle.ap_desc.specs.Clean.{IsClean};
ghost use Rattle.ap_desc.specs.Ports as ports;
ghost use Rattle.ap_desc.specs.declared.design.Micro.{Micro as DeclaredMicro};
ghost use Rattle.ap_dist.specs.Places as places;
ghost use Rattle.ap_program.specs.Fits.{IsWide};
ghost use Rattle.ap_program.specs.LineFaults as faults;
ghost use Rattle.ap_program.specs.Programs as programs;
ghost use Rattle.ap_program.specs.LineFaults.{pair_is_unfit};

use crate::statement::Written;
use ap_bits::{Items, NoMemory, mask};
use ap_desc::design::{Act, Arg, Design, Instr, Micro};
use ap_enc::word::{fields_of, fits};
use std::alloc::Global;

/// The place of the instruction of this name.
pub(crate) fn instr_named(design: &Design, name: &str) -> Option<usize>
    ensures place { result ≡ programs.instr_named design.now name.now }
    ensures within { IfSome result (λ place. place < length design.now.instrs) }
{
    design
        .instrs
        .as_slice()
        .iter()
        .position(|instr| instr.name.as_str() == name)
}

/// The place of the data memory of this name.
pub(crate) fn mem_named(design: &Design, name: &str) -> Option<usize>
    ensures place { result ≡ programs.mem_named design.now name.now }
    ensures within { IfSome result (λ place. place < length design.now.mems) }
{
    design
        .mems
        .as_slice()
        .iter()
        .position(|mem| mem.name.as_str() == name)
}

/// Whether a line of an instruction is a branch or a jump.
fn is_transfer(micro: &Micro) -> bool
    ensures { result ≡ ports.is_transfer micro.now.act }
{
    match micro.act {
        Act::Branch { .. } | Act::Jump { .. } => true,
        _ => false,
    }
}

/// Whether a branch or a jump is among the lines of an instruction.
fn has_transfer(instr: &Instr) -> bool
    ensures { result ≡ list_any (λ (m : DeclaredMicro). ports.is_transfer m.act) instr.now.micros }
{
    instr
        .micros
        .as_slice()
        .iter()
        .any(|micro| is_transfer(micro))
}

/// Whether the instruction at a place is a transfer: a branch or a jump is among its lines. It takes no memory.
#[tactic(auto, using(crate::proofs::Transfers::transfer_there, crate::proofs::Transfers::transfer_past, crate::proofs::Transfers::there_read))]
pub fn does_transfer(design: &Design, instr: usize) -> bool
    ensures { result ≡ places.does_transfer design.now instr }
{
    let instrs = design.instrs.as_slice();
    if instr >= instrs.len() {
        return false;
    }
    has_transfer(&instrs[instr])
}

/// Whether the operand is the field at this place.
fn is_field(place: usize, arg: Arg) -> bool
    ensures { result ≡ faults.is_field place arg }
{
    match arg {
        Arg::Field(field) => field as usize == place,
        _ => false,
    }
}

/// Whether a line takes the field at this place as the index of a cell.
fn is_index_by(place: usize, act: &Act) -> bool
    ensures { result ≡ faults.is_index_by place act.now }
{
    match *act {
        Act::ReadFile { index, .. } | Act::WriteFile { index, .. } => is_field(place, index),
        _ => false,
    }
}

/// Whether a line of the instruction takes the field at this place as the index of a cell.
fn is_index_field(instr: &Instr, place: usize) -> bool
    ensures { result ≡ faults.is_index_field instr.now place }
{
    instr
        .micros
        .as_slice()
        .iter()
        .any(|micro| is_index_by(place, &micro.act))
}

/// A field that an instruction leaves free: its place in the format, and its width.
#[derive(Clone, Copy, Debug, PartialEq, Eq)]
pub struct FreeField {
    pub place: usize,
    pub width: u32,
}

/// The fields that an instruction leaves free.
#[tactic(auto, using(crate::proofs::FreeFields::free_past, crate::proofs::FreeFields::free_all))]
pub(crate) fn free_places(
    alloc: Global,
    design: &Design,
    instr: &Instr,
) -> Result<Items<FreeField>, NoMemory>
    ensures { IfOk result (λ free. free ≡ faults.free_places design.now instr.now) }
{
    let fields = fields_of(design, instr);
    let mut free = Items::new(alloc);
    for (place, fixed) in instr.fixed.as_slice().iter().enumerate() {
        if place >= fields.len() {
            return Ok(free);
        }
        if fixed.is_none() {
            free.push(FreeField {
                place,
                width: fields[place].width,
            })?;
        }
    }
    Ok(free)
}

/// The fields that the instruction at a place leaves free, and none where there is no instruction.
#[tactic(auto, using(crate::proofs::FieldWidths::free_wide, crate::proofs::FieldWidths::free_there, crate::proofs::FieldWidths::free_past_end, crate::proofs::Transfers::there_read))]
pub fn free_places_at(
    alloc: Global,
    design: &Design,
    place: usize,
) -> Result<Items<FreeField>, NoMemory>
    requires { IsClean design.now }
    ensures free { IfOk result (λ free. free
        ≡ option_map_or (faults.free_places design.now) (slice_get design.now.instrs place) []) }
    ensures wide { IfOk result (Each IsWide) }
{
    let instrs = design.instrs.as_slice();
    if place >= instrs.len() {
        return Ok(Items::new(alloc));
    }
    let free = free_places(alloc, design, &instrs[place])?;
    Ok(free)
}

/// Whether the operand doesn't fit the field.
pub(crate) fn is_unfit(design: &Design, instr: &Instr, field: FreeField, operand: &Written) -> bool
    ensures { result ≡ faults.is_unfit design.now instr.now field operand.now }
{
    match operand {
        Written::Number(value) => !fits(*value, field.width),
        Written::Minus(0) => false,
        Written::Minus(value) => !fits(*value - 1, field.width.saturating_sub(1)),
        Written::Label(_) => field.width < design.address || is_index_field(instr, field.place),
    }
}

/// Whether one of the operands doesn't fit the field beside it.
pub(crate) fn has_unfit(
    design: &Design,
    instr: &Instr,
    free: &[FreeField],
    operands: &[Written],
) -> bool
    ensures { result ≡ list_any (pair_is_unfit design.now instr.now) (zip free.now operands.now) }
{
    free.iter().zip(operands).any(|(field, operand)| is_unfit(design, instr, *field, operand))
}

/// The value of a field of this width that is so much below its end.
#[tactic(auto, using(crate::proofs::FieldEnds::none_below, crate::proofs::FieldEnds::past_end))]
pub(crate) fn below_end(value: u64, width: u32) -> u64
    requires low { 1 ≤ width }
    requires high { width ≤ 64 }
    ensures { result ≡ (2 ^ width - value) % 2 ^ width }
{
    if value == 0 {
        return 0;
    }
    let most = mask(width);
    if value > most {
        return 0;
    }
    most - (value - 1)
}
