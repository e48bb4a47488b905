ghost use Rattle.std.specs.Prelude.{◌≡◌, ℕ, IfNone, IfSome, IsSomeAnd, Some, slice_get};
ghost use Rattle.ap_bits.specs.Cards.{operation_names};
ghost use Rattle.ap_unit.specs.Shelves.{cards_of};
ghost use Rattle.ap_top.specs.Additions.{IsAddition, Operation};

use ap_unit::{Shelf, UnitKind};

/// Where a shelf has the operation by which a unit adds.
#[derive(Clone, Copy, Debug, PartialEq, Eq)]
pub struct Addition {
    /// The place of the kind on the shelf, counted from 0.
    pub place: usize,
    /// The number of the operation in the kind.
    pub number: u32,
}

/// The operation `add` of the kind `alu`; `None` exactly where the shelf has no such kind, a unit of it can't have this
/// width or takes more than one cycle, or it has no such operation.
pub fn find_addition(shelf: &Shelf, width: u32) -> Option<Addition>
    ensures some { let cards = cards_of card shelf.now in
        IfSome result (λ a. IsSomeAnd (slice_get cards a.place)
        (λ c. IsAddition cards width (record { card = c; number = a.number }))) }
    ensures none { let cards = cards_of card shelf.now in
        IfNone result ((operation : Operation) → IsAddition cards width operation → ⊥) }
{
    let place = shelf.find("alu")?;
    let kind = shelf.kind(place);
    if !kind.fits(width) || kind.latency(width) != 1 {
        return None;
    }
    let number = operation_named(kind, "add")?;
    Some(Addition { place, number })
}

/// The number of the kind's operation of this name.
fn operation_named(kind: &dyn UnitKind, name: &str) -> Option<u32>
    ensures some { let names = operation_names (card kind.now) in
        IfSome result (λ i. slice_get names i ≡ Some name.now) }
    ensures none { let names = operation_names (card kind.now) in
        IfNone result ((i : ℕ) → slice_get names i ≡ Some name.now → ⊥) }
{
    for i in 0..kind.op_count() {
        if kind.op_name(i) == name {
            return Some(i);
        }
    }
    None
}
