//! What a unit of several cycles is told of the word in its stage: whether it is asked.
ghost use Rattle.std.specs.Prelude.{◌&&◌, ◌∷◌, ◌++◌, ◌≡◌, IfOk, OnOk, length};
ghost use Rattle.std.specs.List.{AllByRecursion as Each, list_any};
ghost use Rattle.ap_ctl.specs.Building.{Gives, IsBit, Tells, is_on};
ghost use Rattle.ap_model.specs.UnitUse.{is_use_of};
ghost use Rattle.ap_net.specs.Draft.{CanFresh};
ghost use Rattle.ap_net.specs.Ready.{numbers};
ghost use Rattle.ap_slow.specs.Asking.{if_wanted, user_conditions, uses_unit};

use ap_bits::{Items, NoMemory};
use ap_ctl::gate::{any_of, both};
use ap_desc::design::{Act, Instr};
use ap_net::builder::Builder;
use ap_net::cell::Wire;
use std::alloc::Global;

/// Whether a line computes on the unit.
fn is_use_of(unit: u32, act: Act) -> bool
    ensures { result ≡ is_use_of unit act }
{
    match act {
        Act::Compute { unit: other, .. } => other == unit,
        _ => false,
    }
}

/// Whether a line of the instruction computes on the unit in the stage.
pub(crate) fn uses_unit(instr: &Instr, stage: u32, unit: u32) -> bool
    ensures { result ≡ uses_unit stage unit instr.now }
{
    let mut micros = instr.micros.as_slice().iter();
    micros.any(|m| m.stage == stage && is_use_of(unit, m.act))
}

/// Adds the net, where it is wanted.
fn add_if(nets: &mut Items<Wire>, wanted: bool, net: Wire) -> Result<(), NoMemory>
    ensures { OnOk result (nets.new ≡ nets.old ++ if_wanted wanted net) }
{
    if wanted {
        nets.push(net)?;
    }
    Ok(())
}

/// The conditions of the instructions that use the unit in the stage.
fn user_conditions(
    alloc: Global,
    instrs: &[Instr],
    conditions: &[Wire],
    stage: u32,
    unit: u32,
) -> Result<Items<Wire>, NoMemory>
    requires { length conditions.now ≡ length instrs.now }
    ensures { IfOk result (λ nets. nets ≡ user_conditions stage unit instrs.now conditions.now) }
{
    let mut nets = Items::new(alloc);
    for (number, condition) in conditions.iter().enumerate() {
        let uses = uses_unit(&instrs[number], stage, unit);
        add_if(&mut nets, uses, *condition)?;
    }
    Ok(nets)
}

/// Whether there is a word in the stage that asks the unit, by the valid bit of the stage and the conditions of its instructions, one for
/// each instruction. It follows from these alone.
pub fn asks_unit(
    out: &mut Builder,
    instrs: &[Instr],
    conditions: &[Wire],
    stage: u32,
    unit: u32,
    valid: Wire,
) -> Result<Wire, NoMemory>
    requires fresh { CanFresh out.old }
    requires long { length conditions.now ≡ length instrs.now }
    requires conditions { Each (IsBit out.old.nets) conditions.now }
    requires valid { IsBit out.old.nets valid }
    ensures tells { IfOk result (Tells out.new (λ r. is_on r valid
        && list_any (is_on r) (user_conditions stage unit instrs.now conditions.now))) }
    ensures gives { IfOk result (Gives (valid.number ∷ numbers conditions.now) out.old out.new) }
{
    let users = user_conditions(out.allocator(), instrs, conditions, stage, unit)?;
    let any = any_of(out, users.as_slice())?;
    let asks = both(out, valid, any)?;
    Ok(asks)
}
