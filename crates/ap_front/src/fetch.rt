//! The pc, the address that is fetched, and the next pc.
ghost use Rattle.std.specs.Prelude.{◌≡◌, ◌≤◌, ◌+◌, ◌%◌, ◌^◌, ◌∷◌, [], IfOk, OnOk};
ghost use Rattle.ap_net.specs.Cells.{IsNet};
ghost use Rattle.ap_net.specs.Draft.{CanFresh};
ghost use Rattle.ap_net.specs.Making.{Makes};
ghost use Rattle.ap_net.specs.Pending.{Yields};
ghost use Rattle.ap_net.specs.Readings.{Carries};
ghost use Rattle.ap_ctl.specs.Building.{IsBit};
ghost use Rattle.ap_flight.specs.Stages.{IsLike};
ghost use Rattle.ap_front.specs.Fetching.{DrivesFetch, IsFetching, PcTakes, fetching_numbers};

use crate::show::show;
use ap_bits::NoMemory;
use ap_flight::entry::either;
use ap_net::builder::Builder;
use ap_net::cell::{Cell, TwoOp, Wire};

/// The nets that fetching needs.
#[derive(Clone, Copy, Debug, PartialEq, Eq)]
pub struct Fetching {
    /// The register that has the address of the word being fetched.
    pub pc: Wire,
    /// The output at which the code memory looks, with the bits of the pc.
    pub address: Wire,
    /// One bit: stage 0 is held.
    pub hold: Wire,
    /// One bit: a transfer is taken.
    pub kill: Wire,
    /// Its target, with the bits of the pc.
    pub target: Wire,
}

/// The address after the one in the net, modulo 2 to its bits.
fn after(out: &mut Builder, net: Wire) -> Result<Wire, NoMemory>
    requires fresh { CanFresh out.old }
    requires net { IsNet out.old.nets net }
    ensures carries { IfOk result (Carries out.new net.width (λ r x. x
        ≡ (r.read net.number + 1) % 2 ^ net.width)) }
    ensures yields { IfOk result (Yields (net.number ∷ []) out.old out.new) }
    ensures makes { OnOk result (Makes out.old out.new) }
{
    let one = out.make(net.width, Cell::Const(1))?;
    let after = out.make(net.width, Cell::Two(TwoOp::Add, net, one))?;
    Ok(after)
}

/// What the pc takes.
fn next_pc(given: Fetching, out: &mut Builder) -> Result<Wire, NoMemory>
    requires fresh { CanFresh out.old }
    requires pc { IsNet out.old.nets given.pc }
    requires hold { IsBit out.old.nets given.hold }
    requires kill { IsBit out.old.nets given.kill }
    requires target { IsLike out.old.nets given.pc given.target }
    ensures carries { IfOk result (Carries out.new given.pc.width (PcTakes given)) }
    ensures yields { IfOk result (Yields (fetching_numbers given) out.old out.new) }
    ensures makes { OnOk result (Makes out.old out.new) }
{
    let after = after(out, given.pc)?;
    let goes = either(out, given.kill, given.target, after)?;
    let next = either(out, given.hold, given.pc, goes)?;
    Ok(next)
}

/// Drives the pc and the address that is fetched, which is the pc. The pc stays where stage 0 is held, takes the target where a transfer
/// is taken, and else the next address. The target may be driven later. After an error the builder is good for nothing but to be
/// dropped.
pub fn fetch(given: Fetching, out: &mut Builder) -> Result<(), NoMemory>
    requires fresh { CanFresh out.old }
    requires given { IsFetching out.old given }
    ensures { OnOk result (DrivesFetch given out.old out.new) }
{
    let next = next_pc(given, out)?;
    out.next(given.pc, next)?;
    show(given.address, given.pc, out)?;
    Ok(())
}
