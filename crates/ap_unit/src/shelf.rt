ghost use Rattle.std.specs.Prelude.{◌≡◌, ℕ, ◌<◌, ◌^◌, List, map, OnOk, IfOk, IfErr, IfSome, IfNone, length, vec_len, slice_get, Some, IsTrue, ◌↔◌};
ghost use Rattle.std.specs.Str.{bytes_eq};
ghost use Rattle.ap_unit.specs.Kinds.{place_of, names_of, KindsDiffer, StoodEarlier};

use crate::kind::UnitKind;

/// Why kinds make no shelf.
#[derive(Clone, Copy, Debug, PartialEq, Eq)]
pub enum ShelfFault {
    /// The kind at this place, counted from 0, has the name of an earlier one. It is the first such place.
    TwiceNamed { place: usize },
}

/// Kinds of units, fewer than 2^32 of them, each at its place.
#[derive(Drop)]
pub struct Shelf {
    kinds: Vec<Box<dyn UnitKind>>,
    ghost few: { vec_len kinds < 2 ^ 32 },
}

fn name_of(kind: &Box<dyn UnitKind>) -> &str
    ensures { result.now ≡ (card kind.now).name }
{
    kind.name()
}

fn is_named(kind: &Box<dyn UnitKind>, name: &str) -> bool
    ensures { result ≡ bytes_eq (card kind.now).name name.now }
{
    kind.name() == name
}

/// The first place of a kind of this name.
fn place_among(kinds: &[Box<dyn UnitKind>], name: &str) -> Option<usize>
    ensures place { result ≡ place_of name.now (map card kinds.now) }
    ensures within { IfSome result (λ i. i < length kinds.now) }
{
    for (i, kind) in kinds.iter().enumerate() {
        if is_named(kind, name) {
            return Some(i);
        }
    }
    None
}

/// Whether an earlier kind has the name of the one at a place.
fn stood_earlier(kinds: &[Box<dyn UnitKind>], i: usize) -> bool
    requires { i < length kinds.now }
    ensures { IsTrue result ↔ StoodEarlier (names_of (map card kinds.now)) i }
{
    let name = name_of(&kinds[i]);
    place_among(&kinds[..i], name).is_some()
}

/// The first place whose name stood earlier.
fn first_twice(kinds: &[Box<dyn UnitKind>]) -> Option<usize>
    ensures none { IfNone result ((j : ℕ) → j < length kinds.now → StoodEarlier (names_of (map card kinds.now)) j → ⊥) }
    ensures some { IfSome result (λ i. StoodEarlier (names_of (map card kinds.now)) i × ((j : ℕ) → j < i → StoodEarlier (names_of (map card kinds.now)) j → ⊥)) }
{
    for i in 0..kinds.len() {
        if stood_earlier(kinds, i) {
            return Some(i);
        }
    }
    None
}

impl Shelf {
    ghost use Rattle.ap_unit.specs.Shelves.{boxed_cards_of, cards_of};
    ghost use Rattle.ap_unit.specs.Faults.{IsLeastTwice};

    /// A shelf of these kinds, fewer than 2^32, whose names have to differ. It takes no memory.
    pub fn new(kinds: Vec<Box<dyn UnitKind>>) -> Result<Shelf, ShelfFault>
        requires { vec_len kinds < 2 ^ 32 }
        ensures ok { IfOk result (λ shelf. boxed_cards_of card shelf ≡ map card kinds.items) }
        ensures differ { OnOk result (KindsDiffer (map card kinds.items)) }
        ensures twice { IfErr result (IsLeastTwice (map card kinds.items)) }
    {
        match first_twice(&kinds) {
            Some(place) => Err(ShelfFault::TwiceNamed { place }),
            None => Ok(Shelf { kinds }),
        }
    }

    /// The first place of a kind of this name; `None` exactly where no kind has the name.
    pub fn find(&self, name: &str) -> Option<usize>
        ensures place { result ≡ place_of name.now (boxed_cards_of card self.now) }
        ensures within { IfSome result (λ i. i < length (boxed_cards_of card self.now)) }
    {
        place_among(&self.kinds, name)
    }

    /// The kind at a place.
    pub fn kind(&self, i: usize) -> &dyn UnitKind
        requires { i < length (cards_of card self.now) }
        ensures { slice_get (cards_of card self.now) i ≡ Some (card result.now) }
    {
        &*self.kinds[i]
    }
}
