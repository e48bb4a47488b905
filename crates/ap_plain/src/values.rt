//! What the lines of an instruction compute.
ghost use Rattle.std.specs.Prelude.{◌≡◌, ℕ, ◌+◌, ◌-◌, ◌*◌, ◌≤◌, ◌/◌, ◌%◌, ◌^◌, ◌<◌, [], IsTrue, IfSome, slice_get, slice_index, slice_index_or};
ghost use Rattle.std.specs.Option.{option_map_or};
ghost use Rattle.ap_bits.specs.Operations.{sign_extended};
ghost use Rattle.ap_desc.specs.Designs.{arg_width, field_value, local_width, fields_of};
ghost use Rattle.ap_desc.specs.declared.design.Field.{Field};
ghost use Rattle.ap_desc.specs.Widths.{has_widths, unit_width};
ghost use Rattle.ap_model.specs.Fire.{act_value, arg_value, bits_of_arg, link_of, unit_value};
ghost use Rattle.ap_model.specs.Fitting.{LocalsFit, SightFits, width_of_act};
ghost use Rattle.ap_plain.specs.PlainViews.{HasWidths, operand_bits, sight_of, operand_value};

use ap_bits::{Card, Items, eval, mask, sext};
use ap_desc::design::{Act, Arg, Design, Field, Instr};
use ap_model::Storages;

/// What the lines of an instruction look at besides the locals.
#[derive(Drop)]
pub(crate) struct View<'a> {
    pub design: &'a Design,
    pub cards: &'a [Card],
    pub instr: &'a Instr,
    pub word: u64,
    pub place: u64,
    pub storages: &'a Storages,
    pub ports: &'a [u64],
}

/// The value at a place, 0 beyond the end.
pub(crate) fn at(values: &[u64], i: usize) -> u64
    ensures { result ≡ slice_index values.now i }
{
    values.get(i).copied().unwrap_or(0)
}

/// The value at a place of a list of lists, 0 beyond their ends.
pub(crate) fn at_both(lists: &[Items<u64>], list: usize, i: usize) -> u64
    ensures { result ≡ slice_index (slice_index_or lists.now list []) i }
{
    match lists.get(list) {
        Some(values) => at(values.as_slice(), i),
        None => 0,
    }
}

/// The value without its lowest bits.
#[tactic(auto, using(ap_model::proofs::PlainWidths::above_all))]
fn above(v: u64, low: u32) -> u64
    ensures { result ≡ v / 2 ^ low }
{
    if low < 64 { v >> low } else { 0 }
}

/// The lowest bits of a value.
#[tactic(auto, using(ap_model::proofs::PlainWidths::low_all, std::proofs::lemmas::Nat::and_mask))]
pub(crate) fn low_bits(v: u64, width: u32) -> u64
    ensures { result ≡ v % 2 ^ width }
{
    if width == 0 {
        0
    } else if width < 64 {
        v & mask(width)
    } else {
        v
    }
}

/// The value of `from` bits extended to `to` bits by its high bit. A value of no bits is 0.
#[tactic(auto, using(ap_model::proofs::PlainWidths::extended_none))]
fn extended(v: u64, from: u32, to: u32) -> u64
    requires fits { v < 2 ^ from }
    requires order { from ≤ to }
    requires high { to ≤ 64 }
    ensures value { result ≡ sign_extended v from to }
    ensures fits { result < 2 ^ to }
{
    if from == 0 { v } else { sext(v, from, to) }
}

/// One value above another.
#[tactic(auto, using(ap_model::proofs::PlainWidths::joined_fit, ap_model::proofs::PlainWidths::shifted_exact))]
fn joined(high: u64, high_width: u32, low: u64, low_width: u32) -> u64
    requires high { high < 2 ^ high_width }
    requires low { low < 2 ^ low_width }
    requires room { high_width + low_width ≤ 64 }
    ensures value { result ≡ high * 2 ^ low_width + low }
    ensures fits { result < 2 ^ (high_width + low_width) }
{
    if low_width < 64 {
        (high << low_width) + low
    } else {
        low
    }
}

/// The fields of an instruction's format.
fn fields<'a>(design: &'a Design, instr: &Instr) -> &'a [Field]
    ensures { result.now ≡ fields_of design.now instr.now }
{
    match design.formats.as_slice().get(instr.format as usize) {
        Some(format) => format.fields.as_slice(),
        None => &[],
    }
}

/// What the word gives a field, 0 where there is no such field.
fn field_at(view: &View, i: usize) -> u64
    ensures { result ≡ option_map_or (λ (f : Field). field_value f view.now.word)
        (slice_get (fields_of view.now.design.now view.now.instr.now) i) 0 }
{
    match fields(view.design, view.instr).get(i) {
        Some(field) => low_bits(above(view.word, field.low), field.width),
        None => 0,
    }
}

/// The address after an instruction and its slots.
fn link_of(design: &Design, place: u64) -> u64
    requires { place < 2 ^ 63 }
    ensures { result ≡ link_of design.now place }
{
    let slots = u64::from(design.slots);
    low_bits(place + 1 + slots, design.address)
}

/// The value of an operand.
pub(crate) fn arg_value(view: &View, locals: &[u64], arg: Arg) -> u64
    requires { view.now.place < 2 ^ 63 }
    ensures { result ≡ operand_value view.now locals.now arg }
{
    match arg {
        Arg::Local(i) => at(locals, i as usize),
        Arg::Field(i) => field_at(view, i as usize),
        Arg::Pc => view.place,
        Arg::Link => link_of(view.design, view.place),
    }
}

/// The bits of an operand.
pub(crate) fn arg_width(view: &View, arg: Arg) -> u32
    ensures { result ≡ operand_bits view.now arg }
{
    match arg {
        Arg::Local(i) => match view.instr.locals.as_slice().get(i as usize) {
            Some(width) => *width,
            None => 0,
        },
        Arg::Field(i) => match fields(view.design, view.instr).get(i as usize) {
            Some(field) => field.width,
            None => 0,
        },
        Arg::Pc | Arg::Link => view.design.address,
    }
}

/// What an operation of a unit gives.
#[tactic(auto, using(ap_model::proofs::PlainWidths::unit_within), unfolding(ap_model::specs::Fire::unit_value))]
fn unit_value(view: &View, unit: u32, op: u32, a: u64, b: u64) -> u64
    requires sight { SightFits (sight_of view.now) }
    requires a { a < 2 ^ unit_width view.now.design.now unit }
    requires b { b < 2 ^ unit_width view.now.design.now unit }
    ensures value { result ≡ unit_value view.now.design.now view.now.cards.now unit op a b }
    ensures fits { result < 2 ^ unit_width view.now.design.now unit }
{
    let Some(resource) = view.design.units.as_slice().get(unit as usize) else {
        return 0;
    };
    let Some(card) = view.cards.get(resource.kind as usize) else {
        return 0;
    };
    match card.ops.as_slice().get(op as usize) {
        Some(operation) => eval(&operation.term, resource.width, a, b),
        None => 0,
    }
}

/// What an operation of a unit gives of two operands.
#[tactic(auto, using(ap_model::proofs::PlainWidths::compute_fit, ap_model::proofs::PlainWidths::place_within))]
fn computed(view: &View, locals: &[u64], unit: u32, op: u32, a: Arg, b: Arg) -> u64
    requires sight { SightFits (sight_of view.now) }
    requires locals { LocalsFit view.now.instr.now.locals locals.now }
    requires typed { HasWidths view.now (Act.Compute unit op a b) }
    ensures value { result ≡ unit_value view.now.design.now view.now.cards.now unit op
        (operand_value view.now locals.now a) (operand_value view.now locals.now b) }
    ensures fits { result < 2 ^ unit_width view.now.design.now unit }
{
    let first = arg_value(view, locals, a);
    let second = arg_value(view, locals, b);
    unit_value(view, unit, op, first, second)
}

/// An operand extended by its high bit.
#[tactic(auto, using(ap_model::proofs::PlainWidths::args_fit, ap_model::proofs::PlainWidths::sext_widths, ap_model::proofs::PlainWidths::place_within))]
fn sign_extended(view: &View, locals: &[u64], width: u32, a: Arg) -> u64
    requires sight { SightFits (sight_of view.now) }
    requires locals { LocalsFit view.now.instr.now.locals locals.now }
    requires typed { HasWidths view.now (Act.Sext width a) }
    ensures value { result
        ≡ sign_extended (operand_value view.now locals.now a) (operand_bits view.now a) width }
    ensures fits { result < 2 ^ width }
{
    extended(arg_value(view, locals, a), arg_width(view, a), width)
}

/// Some bits of an operand.
#[tactic(auto, using(ap_model::proofs::PlainWidths::slice_widths, ap_model::proofs::PlainWidths::place_within))]
fn sliced(view: &View, locals: &[u64], high: u32, low: u32, a: Arg) -> u64
    requires sight { SightFits (sight_of view.now) }
    requires typed { HasWidths view.now (Act.Slice high low a) }
    ensures value { result
        ≡ (operand_value view.now locals.now a / 2 ^ low) % 2 ^ (high - low + 1) }
    ensures fits { result < 2 ^ (high - low + 1) }
{
    let width = arg_width(view, a);
    prove!(high < width);
    low_bits(above(arg_value(view, locals, a), low), high - low + 1)
}

/// Two operands side by side.
#[tactic(auto, using(ap_model::proofs::PlainWidths::args_fit, ap_model::proofs::PlainWidths::cat_widths, ap_model::proofs::PlainWidths::place_within))]
fn side_by_side(view: &View, locals: &[u64], a: Arg, b: Arg) -> u64
    requires sight { SightFits (sight_of view.now) }
    requires locals { LocalsFit view.now.instr.now.locals locals.now }
    requires typed { HasWidths view.now (Act.Cat a b) }
    ensures value { result ≡ operand_value view.now locals.now a * 2 ^ operand_bits view.now b
        + operand_value view.now locals.now b }
    ensures fits { result < 2 ^ (operand_bits view.now a + operand_bits view.now b) }
{
    let high = arg_value(view, locals, a);
    let low = arg_value(view, locals, b);
    joined(high, arg_width(view, a), low, arg_width(view, b))
}

/// What a line assigns to the next local, if it assigns one.
#[tactic(auto, using(ap_model::proofs::PlainWidths::zext_fit, ap_model::proofs::PlainWidths::const_widths, ap_model::proofs::PlainWidths::place_within))]
pub(crate) fn act_value(view: &View, locals: &[u64], act: Act) -> Option<u64>
    requires sight { SightFits (sight_of view.now) }
    requires locals { LocalsFit view.now.instr.now.locals locals.now }
    requires typed { HasWidths view.now act }
    ensures value { (line : ℕ) → result
        ≡ act_value (sight_of view.now) (operand_value view.now locals.now) line act }
    ensures fits { IfSome result (λ v. v < 2 ^ width_of_act (sight_of view.now) act) }
{
    match act {
        Act::Compute { unit, op, a, b } => Some(computed(view, locals, unit, op, a, b)),
        Act::ReadFile { file, index, .. } => {
            let index = arg_value(view, locals, index);
            let files = view.storages.files.as_slice();
            Some(at_both(files, file as usize, index as usize))
        }
        Act::ReadReg { reg } => Some(at(view.storages.regs.as_slice(), reg as usize)),
        Act::ReadMem { mem, at } => {
            let address = arg_value(view, locals, at);
            let mems = view.storages.mems.as_slice();
            Some(at_both(mems, mem as usize, address as usize))
        }
        Act::ReadIn { input } => Some(at(view.ports, input as usize)),
        Act::Const { value, .. } => Some(value),
        Act::Zext { a, .. } => Some(arg_value(view, locals, a)),
        Act::Sext { width, a } => Some(sign_extended(view, locals, width, a)),
        Act::Slice { high, low, a } => Some(sliced(view, locals, high, low, a)),
        Act::Cat { a, b } => Some(side_by_side(view, locals, a, b)),
        Act::WriteFile { .. }
        | Act::WriteReg { .. }
        | Act::WriteMem { .. }
        | Act::Branch { .. }
        | Act::Jump { .. } => None,
    }
}
