//! Locals that stand in slots: a local is the low bits of its slot.
ghost use Rattle.std.specs.Prelude.{◌≡◌, ℕ, ◌∷◌, [], ◌%◌, ◌^◌, ◌<◌, ◌≤◌, IfOk, None, OnOk, Some, length, replicate, slice_get};
ghost use Rattle.std.specs.List.{AllByRecursion as Each};
ghost use Rattle.ap_net.specs.Cells.{IsNet};
ghost use Rattle.ap_net.specs.Draft.{CanFresh};
ghost use Rattle.ap_net.specs.Making.{Makes};
ghost use Rattle.ap_net.specs.Readings.{Carries};
ghost use Rattle.ap_stage.specs.declared.slot.Stored.{Stored};
ghost use Rattle.ap_stage.specs.Slots.{AreStoredOnce, FromSlots, HasStored, IsStored};
ghost use Rattle.ap_stage.specs.Sources.{IsRow, row_numbers};
ghost use Rattle.ap_stage.specs.Wiring.{IsWiring};

use crate::row::put;
use crate::source::Scope;
use crate::wiring::sliced;
use ap_bits::NoMemory;
use ap_net::builder::Builder;
use ap_net::cell::Wire;
use std::alloc::Global;

/// A local that stands in a slot.
#[derive(Clone, Copy, Debug, PartialEq, Eq)]
pub struct Stored {
    /// The number of the local.
    pub local: u32,
    /// The register of the slot.
    pub slot: Wire,
}

/// The low bits of a net.
fn low_bits(out: &mut Builder, net: Wire, width: u32) -> Result<Wire, NoMemory>
    requires fresh { CanFresh out.old }
    requires net { IsNet out.old.nets net }
    requires low { 1 ≤ width }
    requires room { width ≤ net.width }
    ensures carries { IfOk result (Carries out.new width (λ r x.
        x ≡ r.read net.number % 2 ^ width)) }
    ensures wiring { IfOk result (IsWiring (net.number ∷ []) out.old out.new) }
{
    if width == net.width {
        return Ok(net);
    }
    let bits = sliced(out, net, width - 1, 0)?;
    Ok(bits)
}

/// The width of a local.
fn width_of(scope: &Scope, local: u32) -> u32
    requires { local < length scope.now.widths }
    ensures { slice_get scope.now.widths local ≡ Some result }
{
    let widths = scope.widths.as_slice();
    widths[local as usize]
}

/// A row in which no local has a net.
fn empty_row(alloc: Global, scope: &Scope) -> Result<Vec<Option<Wire>>, NoMemory>
    ensures { IfOk result (λ row. row.items ≡ replicate (length scope.now.widths) None) }
{
    let widths = scope.widths.as_slice();
    let row: Vec<Option<Wire>> = vec![in alloc; None; widths.len()]?;
    Ok(row)
}

/// Gives the locals that stand in slots nets.
fn fill_slots(
    out: &mut Builder,
    scope: &Scope,
    stored: &[Stored],
    row: &mut [Option<Wire>],
) -> Result<(), NoMemory>
    requires fresh { CanFresh out.old }
    requires stored { Each (IsStored out.old.nets scope.now) stored.now }
    requires once { AreStoredOnce stored.now }
    requires row { IsRow out.old.nets scope.now row.old }
    requires none { row_numbers row.old ≡ [] }
    ensures row { OnOk result (IsRow out.new.nets scope.now row.new) }
    ensures stored { OnOk result ((k : ℕ) (s : Stored)
        → slice_get stored.now k ≡ Some s → HasStored out.new scope.now row.new s) }
    ensures slots { OnOk result (FromSlots stored.now out.old row.old out.new row.new) }
    ensures makes { OnOk result (Makes out.old out.new) }
{
    for one in stored {
        let net = low_bits(out, one.slot, width_of(scope, one.local))?;
        put(row, one.local, net);
    }
    Ok(())
}

/// A row in which the locals that stand in slots have nets, and no others.
pub fn slot_row(
    out: &mut Builder,
    scope: &Scope,
    stored: &[Stored],
) -> Result<Vec<Option<Wire>>, NoMemory>
    requires fresh { CanFresh out.old }
    requires stored { Each (IsStored out.old.nets scope.now) stored.now }
    requires once { AreStoredOnce stored.now }
    ensures row { IfOk result (λ row. IsRow out.new.nets scope.now row.items) }
    ensures stored { IfOk result (λ row. (k : ℕ) (s : Stored)
        → slice_get stored.now k ≡ Some s → HasStored out.new scope.now row.items s) }
    ensures slots { IfOk result (λ row. FromSlots stored.now out.old
        (replicate (length scope.now.widths) None) out.new row.items) }
    ensures makes { IfOk result (λ row. Makes out.old out.new) }
{
    let mut row = empty_row(out.allocator(), scope)?;
    fill_slots(out, scope, stored, &mut row)?;
    Ok(row)
}
