//! Ports that show what is written: outputs, or late wires, that were declared before, driven by the nets of a write or at rest.
ghost use Rattle.std.specs.Prelude.{◌≡◌, OnOk};
ghost use Rattle.ap_net.specs.Late.{IsLate};
ghost use Rattle.ap_bank.specs.Joins.{AreLate, CanJoin, CanJoinIndex, CanJoinNet, JoinsIndex, JoinsNet, JoinsPort, RestsNet, RestsNets};

use ap_bits::NoMemory;
use ap_effect::write::WriteNets;
use ap_net::builder::Builder;
use ap_net::cell::{Cell, Wire};

/// Drives a net that was declared by a copy of another of its width.
pub fn join(out: &mut Builder, to: Wire, from: Wire) -> Result<(), NoMemory>
    requires { CanJoinNet out.old to from }
    ensures { OnOk result (JoinsNet to from out.old out.new) }
{
    out.cell(to, Cell::Copy(from))?;
    Ok(())
}

/// Drives a net that was declared by the constant 0.
pub fn rest(out: &mut Builder, to: Wire) -> Result<(), NoMemory>
    requires { IsLate out.old to }
    ensures { OnOk result (RestsNet to out.old out.new) }
{
    out.cell(to, Cell::Const(0))?;
    Ok(())
}

/// Drives the index of a port, where it has one.
fn join_index(out: &mut Builder, to: Option<Wire>, from: Option<Wire>) -> Result<(), NoMemory>
    requires { CanJoinIndex out.old to from }
    ensures { OnOk result (JoinsIndex to from out.old out.new) }
{
    match (to, from) {
        (Some(to), Some(from)) => {
            join(out, to, from)?;
            Ok(())
        }
        _ => Ok(()),
    }
}

/// Drives the nets of a write port, which were declared before, by those that say what is written.
pub fn join_port(out: &mut Builder, to: WriteNets, from: WriteNets) -> Result<(), NoMemory>
    requires { CanJoin out.old to from }
    ensures { OnOk result (JoinsPort to from out.old out.new) }
{
    join(out, to.enable, from.enable)?;
    join(out, to.value, from.value)?;
    join_index(out, to.index, from.index)?;
    Ok(())
}

/// Drives nets that were declared and that nobody uses by the constant 0: those of a memory that no line writes, or the address of one
/// that no line reads.
pub fn rest_all(out: &mut Builder, nets: &[Wire]) -> Result<(), NoMemory>
    requires { AreLate out.old nets.now }
    ensures { OnOk result (RestsNets nets.now out.old out.new) }
{
    for net in nets {
        rest(out, *net)?;
    }
    Ok(())
}
