//! What an instruction asks of a port whose result one of its lines gives its local.
ghost use Rattle.std.specs.Prelude.{◌≡◌, IfOk};
ghost use Rattle.ap_net.specs.Draft.{CanFresh};
ghost use Rattle.ap_net.specs.Readings.{Carries};
ghost use Rattle.ap_stage.specs.Sources.{IsGround, IsRow, LieIn, source_numbers};
ghost use Rattle.ap_stage.specs.Users.{FitsHanded, HasHanded, IsHanded, handed_in, handed_value};
ghost use Rattle.ap_stage.specs.Wiring.{IsWiring};

use crate::source::{Ground, Scope, operand_net};
use crate::wiring::constant;
use ap_bits::NoMemory;
use ap_desc::design::Arg;
use ap_net::builder::Builder;
use ap_net::cell::Wire;

/// What a line asks of a unit.
#[derive(Clone, Copy, Debug, PartialEq, Eq)]
pub struct Use {
    /// The number of the operation.
    pub op: u32,
    /// The first operand.
    pub a: Arg,
    /// The second operand.
    pub b: Arg,
}

/// What a line asks of a port.
#[derive(Clone, Copy, Debug, PartialEq, Eq)]
pub enum Asked {
    /// An operation of a unit.
    Operate(Use),
    /// What a file or a memory has at an index.
    Read(Arg),
}

/// A part of what is asked: it has a net of its own at the port.
#[derive(Clone, Copy, Debug, PartialEq, Eq)]
pub enum Part {
    /// The number of the operation.
    Operation,
    /// The first operand, or the index of what is read.
    First,
    /// The second operand.
    Second,
}

/// What is handed in in for a part.
#[derive(Clone, Copy, Debug, PartialEq, Eq)]
pub enum Handed {
    /// A number that stands in the description.
    Number(u32),
    /// An operand.
    Operand(Arg),
}

/// What is handed in in for a part, where the port has one.
pub fn handed_in(asked: Asked, part: Part) -> Option<Handed>
    ensures { result ≡ handed_in asked part }
{
    match asked {
        Asked::Operate(used) => match part {
            Part::Operation => Some(Handed::Number(used.op)),
            Part::First => Some(Handed::Operand(used.a)),
            Part::Second => Some(Handed::Operand(used.b)),
        },
        Asked::Read(index) => match part {
            Part::First => Some(Handed::Operand(index)),
            _ => None,
        },
    }
}

/// The net of what is handed in in, with `width` bits, where an operand has its net.
pub fn handed_net(
    out: &mut Builder,
    ground: &Ground,
    scope: &Scope,
    row: &[Option<Wire>],
    given: Handed,
    width: u32,
) -> Result<Wire, NoMemory>
    requires fresh { CanFresh out.old }
    requires ground { IsGround out.old.nets ground.now }
    requires fields { LieIn ground.now.word.width scope.now }
    requires row { IsRow out.old.nets scope.now row.now }
    requires given { IsHanded scope.now given }
    requires fits { FitsHanded ground.now scope.now width given }
    requires has { HasHanded row.now given }
    ensures carries { IfOk result (Carries out.new width (λ r x.
        x ≡ handed_value r ground.now scope.now row.now given)) }
    ensures wiring { IfOk result
        (IsWiring (source_numbers ground.now row.now) out.old out.new) }
{
    match given {
        Handed::Number(number) => {
            let net = constant(out, width, u64::from(number))?;
            Ok(net)
        }
        Handed::Operand(arg) => {
            let found = operand_net(out, ground, scope, row, arg)?;
            let Some(net) = found else {
                unreachable!();
            };
            Ok(net)
        }
    }
}
