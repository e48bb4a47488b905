//! What one of several instructions leaves: a balanced tree of `? :` over nets and their conditions.
ghost use Rattle.std.specs.Prelude.{◌≡◌, ◌∷◌, [], ◌≤◌, if◌then◌else◌, IfOk, OnOk, length};
ghost use Rattle.std.specs.List.{AllByRecursion as Each};
ghost use Rattle.ap_net.specs.Cells.{IsNet};
ghost use Rattle.ap_net.specs.Draft.{CanFresh};
ghost use Rattle.ap_net.specs.Making.{Makes};
ghost use Rattle.ap_net.specs.Pending.{Yields};
ghost use Rattle.ap_net.specs.Readings.{Carries};
ghost use Rattle.ap_ctl.specs.Building.{IsBit, Tells, is_on};
ghost use Rattle.ap_flight.specs.Entries.{IsLeaving, IsLeft, is_left, leaving_numbers};

use ap_bits::NoMemory;
use ap_net::builder::Builder;
use ap_net::cell::{Cell, TwoOp, Wire};

/// A net that is left where its condition is 1.
#[derive(Clone, Copy, Debug, PartialEq, Eq)]
pub struct Leaving {
    /// One bit: an instruction is there.
    pub cond: Wire,
    /// What it leaves.
    pub net: Wire,
}

/// The net with zeros above, where it has fewer bits than these.
pub fn widened(out: &mut Builder, net: Wire, width: u32) -> Result<Wire, NoMemory>
    requires fresh { CanFresh out.old }
    requires net { IsNet out.old.nets net }
    requires wide { net.width ≤ width }
    requires high { width ≤ 64 }
    ensures carries { IfOk result (Carries out.new width (λ r x. x ≡ r.read net.number)) }
    ensures yields { IfOk result (Yields (net.number ∷ []) out.old out.new) }
    ensures makes { OnOk result (Makes out.old out.new) }
{
    if net.width == width {
        return Ok(net);
    }
    let zeros = out.make(width - net.width, Cell::Const(0))?;
    let wide = out.make(width, Cell::Cat(zeros, net))?;
    Ok(wide)
}

/// The net `yes` where the condition is 1, else `no`.
pub fn either(out: &mut Builder, cond: Wire, yes: Wire, no: Wire) -> Result<Wire, NoMemory>
    requires fresh { CanFresh out.old }
    requires cond { IsBit out.old.nets cond }
    requires yes { IsNet out.old.nets yes }
    requires no { IsNet out.old.nets no }
    requires same { no.width ≡ yes.width }
    ensures carries { IfOk result (Carries out.new yes.width (λ r x. x
        ≡ if is_on r cond then r.read yes.number else r.read no.number)) }
    ensures yields { IfOk result (Yields (cond.number ∷ yes.number ∷ no.number ∷ [])
        out.old out.new) }
    ensures makes { OnOk result (Makes out.old out.new) }
{
    let net = out.make(yes.width, Cell::Choose(cond, yes, no))?;
    Ok(net)
}

/// What these leave, and whether one of them leaves something.
fn offered(out: &mut Builder, list: &[Leaving], width: u32) -> Result<Leaving, NoMemory>
    requires fresh { CanFresh out.old }
    requires some { 1 ≤ length list.now }
    requires list { Each (IsLeaving out.old.nets width) list.now }
    requires low { 1 ≤ width }
    requires high { width ≤ 64 }
    ensures cond { IfOk result (λ o. Tells out.new (λ r. is_left r list.now) o.cond) }
    ensures net { IfOk result (λ o. Carries out.new width (IsLeft list.now) o.net) }
    ensures cond_yields { IfOk result (λ o.
        Yields (leaving_numbers list.now) out.old out.new o.cond) }
    ensures net_yields { IfOk result (λ o.
        Yields (leaving_numbers list.now) out.old out.new o.net) }
    ensures makes { OnOk result (Makes out.old out.new) }
{
    if list.len() == 1 {
        let net = widened(out, list[0].net, width)?;
        let cond = list[0].cond;
        return Ok(Leaving { cond, net });
    }
    let middle = list.len() / 2;
    let first = offered(out, &list[..middle], width)?;
    let second = offered(out, &list[middle..], width)?;
    let net = either(out, first.cond, first.net, second.net)?;
    let cond = out.make(1, Cell::Two(TwoOp::Or, first.cond, second.cond))?;
    Ok(Leaving { cond, net })
}

/// What these leave: a balanced tree of `? :`. A condition is made only where it is asked for.
pub fn chosen(out: &mut Builder, list: &[Leaving], width: u32) -> Result<Wire, NoMemory>
    requires fresh { CanFresh out.old }
    requires some { 1 ≤ length list.now }
    requires list { Each (IsLeaving out.old.nets width) list.now }
    requires low { 1 ≤ width }
    requires high { width ≤ 64 }
    ensures carries { IfOk result (Carries out.new width (IsLeft list.now)) }
    ensures yields { IfOk result (Yields (leaving_numbers list.now) out.old out.new) }
    ensures makes { OnOk result (Makes out.old out.new) }
{
    if list.len() == 1 {
        let net = widened(out, list[0].net, width)?;
        return Ok(net);
    }
    let middle = list.len() / 2;
    let first = offered(out, &list[..middle], width)?;
    let second = chosen(out, &list[middle..], width)?;
    let net = either(out, first.cond, first.net, second)?;
    Ok(net)
}
