//! Gates over nets of one bit.
ghost use Rattle.std.specs.Prelude.{◌≡◌, ◌∷◌, [], ◌&&◌, ◌||◌, not, if◌then◌else◌, IfOk, length};
ghost use Rattle.std.specs.List.{AllByRecursion as Each, list_all, list_any};
ghost use Rattle.ap_net.specs.Draft.{CanFresh};
ghost use Rattle.ap_net.specs.Ready.{numbers};
ghost use Rattle.ap_ctl.specs.Building.{Gives, IsBit, Tells, is_on};

use ap_bits::NoMemory;
use ap_net::builder::Builder;
use ap_net::cell::{Cell, TwoOp, Wire};

/// Whether the net is 0.
pub fn inverse(out: &mut Builder, a: Wire) -> Result<Wire, NoMemory>
    requires fresh { CanFresh out.old }
    requires a { IsBit out.old.nets a }
    ensures tells { IfOk result (Tells out.new (λ r. not (is_on r a))) }
    ensures gives { IfOk result (Gives (a.number ∷ []) out.old out.new) }
{
    let inverse = out.make(1, Cell::Not(a))?;
    Ok(inverse)
}

/// Whether both nets are 1.
pub fn both(out: &mut Builder, a: Wire, b: Wire) -> Result<Wire, NoMemory>
    requires fresh { CanFresh out.old }
    requires a { IsBit out.old.nets a }
    requires b { IsBit out.old.nets b }
    ensures tells { IfOk result (Tells out.new (λ r. is_on r a && is_on r b)) }
    ensures gives { IfOk result (Gives (a.number ∷ b.number ∷ []) out.old out.new) }
{
    let both = out.make(1, Cell::Two(TwoOp::And, a, b))?;
    Ok(both)
}

/// Whether one of the nets is 1.
pub fn either(out: &mut Builder, a: Wire, b: Wire) -> Result<Wire, NoMemory>
    requires fresh { CanFresh out.old }
    requires a { IsBit out.old.nets a }
    requires b { IsBit out.old.nets b }
    ensures tells { IfOk result (Tells out.new (λ r. is_on r a || is_on r b)) }
    ensures gives { IfOk result (Gives (a.number ∷ b.number ∷ []) out.old out.new) }
{
    let either = out.make(1, Cell::Two(TwoOp::Or, a, b))?;
    Ok(either)
}

/// The net `a` where `s` is 1, else `b`.
pub fn chosen(out: &mut Builder, s: Wire, a: Wire, b: Wire) -> Result<Wire, NoMemory>
    requires fresh { CanFresh out.old }
    requires s { IsBit out.old.nets s }
    requires a { IsBit out.old.nets a }
    requires b { IsBit out.old.nets b }
    ensures tells { IfOk result (Tells out.new (λ r. if is_on r s then is_on r a else is_on r b)) }
    ensures gives { IfOk result (Gives (s.number ∷ a.number ∷ b.number ∷ []) out.old out.new) }
{
    let chosen = out.make(1, Cell::Choose(s, a, b))?;
    Ok(chosen)
}

/// Whether all these nets are 1: a balanced tree of `&`.
pub fn all_of(out: &mut Builder, nets: &[Wire]) -> Result<Wire, NoMemory>
    requires fresh { CanFresh out.old }
    requires nets { Each (IsBit out.old.nets) nets.now }
    ensures tells { IfOk result (Tells out.new (λ r. list_all (is_on r) nets.now)) }
    ensures gives { IfOk result (Gives (numbers nets.now) out.old out.new) }
{
    if nets.is_empty() {
        let on = out.make(1, Cell::Const(1))?;
        return Ok(on);
    }
    if nets.len() == 1 {
        return Ok(nets[0]);
    }
    let middle = nets.len() / 2;
    let first = all_of(out, &nets[..middle])?;
    let second = all_of(out, &nets[middle..])?;
    let all = both(out, first, second)?;
    Ok(all)
}

/// Whether one of these nets is 1: a balanced tree of `|`.
pub fn any_of(out: &mut Builder, nets: &[Wire]) -> Result<Wire, NoMemory>
    requires fresh { CanFresh out.old }
    requires nets { Each (IsBit out.old.nets) nets.now }
    ensures tells { IfOk result (Tells out.new (λ r. list_any (is_on r) nets.now)) }
    ensures gives { IfOk result (Gives (numbers nets.now) out.old out.new) }
{
    if nets.is_empty() {
        let off = out.make(1, Cell::Const(0))?;
        return Ok(off);
    }
    if nets.len() == 1 {
        return Ok(nets[0]);
    }
    let middle = nets.len() / 2;
    let first = any_of(out, &nets[..middle])?;
    let second = any_of(out, &nets[middle..])?;
    let any = either(out, first, second)?;
    Ok(any)
}
