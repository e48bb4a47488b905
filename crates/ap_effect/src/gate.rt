//! Gates over nets of one bit.
ghost use Rattle.std.specs.Prelude.{◌≡◌, ◌∷◌, [], ◌&&◌, ◌||◌, IfOk};
ghost use Rattle.ap_net.specs.Draft.{CanFresh};
ghost use Rattle.ap_ctl.specs.Building.{IsBit, Tells, is_on};
ghost use Rattle.ap_stage.specs.Wiring.{IsWiring};

use ap_bits::NoMemory;
use ap_net::builder::Builder;
use ap_net::cell::{Cell, TwoOp, Wire};

/// Whether both nets are 1.
pub(crate) fn both(out: &mut Builder, a: Wire, b: Wire) -> Result<Wire, NoMemory>
    requires fresh { CanFresh out.old }
    requires a { IsBit out.old.nets a }
    requires b { IsBit out.old.nets b }
    ensures tells { IfOk result (Tells out.new (λ r. is_on r a && is_on r b)) }
    ensures wiring { IfOk result (IsWiring (a.number ∷ b.number ∷ []) out.old out.new) }
{
    let both = out.make(1, Cell::Two(TwoOp::And, a, b))?;
    Ok(both)
}

/// Whether one of the nets is 1.
pub(crate) fn either(out: &mut Builder, a: Wire, b: Wire) -> Result<Wire, NoMemory>
    requires fresh { CanFresh out.old }
    requires a { IsBit out.old.nets a }
    requires b { IsBit out.old.nets b }
    ensures tells { IfOk result (Tells out.new (λ r. is_on r a || is_on r b)) }
    ensures wiring { IfOk result (IsWiring (a.number ∷ b.number ∷ []) out.old out.new) }
{
    let either = out.make(1, Cell::Two(TwoOp::Or, a, b))?;
    Ok(either)
}
