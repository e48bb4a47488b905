//! The address after a word and its slots, in the stages where a line names it.
ghost use Rattle.std.specs.Prelude.{◌≡◌, ◌∷◌, [], IfOk, false};
ghost use Rattle.std.specs.List.{list_any};
ghost use Rattle.std.specs.Option.{option_map_or};
ghost use Rattle.ap_desc.specs.Clean.{IsClean};
ghost use Rattle.ap_net.specs.Cells.{IsNet};
ghost use Rattle.ap_net.specs.Draft.{CanFresh};
ghost use Rattle.ap_stage.specs.Wiring.{IsWiring};
ghost use Rattle.ap_course.specs.Links.{instr_links, is_link, line_links, links};
ghost use Rattle.ap_stages.specs.Links.{IsLinkOf};

use ap_bits::NoMemory;
use ap_desc::design::{Act, Arg, Design, Instr};
use ap_net::builder::Builder;
use ap_net::cell::Wire;
use ap_stage::source::link_net;

/// Whether the operand is the address after the slots.
fn is_link(arg: Arg) -> bool
    ensures { result ≡ is_link arg }
{
    match arg {
        Arg::Link => true,
        _ => false,
    }
}

/// Whether there is an operand and it is this address.
fn guard_links(guard: Option<Arg>) -> bool
    ensures { result ≡ option_map_or is_link guard false }
{
    match guard {
        Some(arg) => is_link(arg),
        None => false,
    }
}

/// Whether an operand of the line is this address.
fn line_links(act: Act) -> bool
    ensures { result ≡ line_links act }
{
    match act {
        Act::Compute { a, b, .. } | Act::Cat { a, b } => is_link(a) || is_link(b),
        Act::ReadFile { index, .. } => is_link(index),
        Act::ReadMem { at, .. } => is_link(at),
        Act::Zext { a, .. } | Act::Sext { a, .. } | Act::Slice { a, .. } => is_link(a),
        Act::WriteFile {
            index,
            value,
            guard,
            ..
        } => is_link(index) || is_link(value) || guard_links(guard),
        Act::WriteReg { value, guard, .. } => is_link(value) || guard_links(guard),
        Act::WriteMem {
            at,
            value,
            guard,
            ..
        } => is_link(at) || is_link(value) || guard_links(guard),
        Act::Branch { cond, target } => is_link(cond) || is_link(target),
        Act::Jump { target } => is_link(target),
        _ => false,
    }
}

/// Whether a line of the instruction names this address in the stage.
fn instr_links(instr: &Instr, stage: u32) -> bool
    ensures { result ≡ instr_links stage instr.now }
{
    let mut micros = instr.micros.as_slice().iter();
    micros.any(|m| m.stage == stage && line_links(m.act))
}

/// Whether a line of the design names this address in the stage.
fn links(design: &Design, stage: u32) -> bool
    ensures { result ≡ links design.now stage }
{
    let mut instrs = design.instrs.as_slice().iter();
    instrs.any(|instr| instr_links(instr, stage))
}

/// The address after a word and its slots, from the word's address, where a line of the stage names it. Where none does, nothing is made,
/// and the net says nothing.
pub(crate) fn stage_link(
    out: &mut Builder,
    design: &Design,
    stage: u32,
    place: Wire,
) -> Result<Wire, NoMemory>
    requires fresh { CanFresh out.old }
    requires clean { IsClean design.now }
    requires place { IsNet out.old.nets place }
    requires wide { place.width ≡ design.now.address }
    ensures link { IfOk result (IsLinkOf design.now stage out.new place) }
    ensures wiring { IfOk result (IsWiring (place.number ∷ []) out.old out.new) }
{
    if links(design, stage) {
        let link = link_net(out, place, design.slots)?;
        return Ok(link);
    }
    Ok(place)
}
