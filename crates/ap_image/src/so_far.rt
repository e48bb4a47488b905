//! What the lines of an image's text give, as far as they have been read.
ghost use Rattle.std.specs.Prelude.{◌≡◌, ◌+◌, ◌^◌, ◌<◌, ◌∷◌, ◌++◌, [], None, false, true, Some};
ghost use Rattle.std.specs.Prelude.{length, map, nat_lt, position, slice_get, slice_index, slice_set};
ghost use Rattle.std.specs.Prelude.{IfNone, IfOk, IfSome, OnOk};
ghost use Rattle.std.specs.Str.{bytes_eq};
ghost use Rattle.ap_image.specs.ImageTexts.{part_named, parts_of};
ghost use Rattle.ap_image.specs.declared.shape.MemShape.{MemShape};

use crate::shape::Shape;
use ap_bits::{Items, NoMemory};
use std::alloc::Global;

/// What the lines so far give. The code memory's part is number 0, and those of the data
/// memories follow.
#[derive(Drop)]
pub(crate) struct SoFar {
    /// Whether each part has begun.
    pub(crate) begun: Vec<bool>,
    /// The words of each part.
    pub(crate) words: Vec<Items<u64>>,
    /// The part in which the next line stands.
    pub(crate) at: Option<usize>,
}

/// Whether the value has at most so many bits.
pub(crate) fn has_bits(value: u64, bits: u32) -> bool
    ensures { result ≡ nat_lt value (2 ^ bits) }
{
    bits >= 64 || value >> bits == 0
}

/// The place of the data memory of this name.
fn mem_of(shape: &Shape, name: &[u8]) -> Option<usize>
    ensures place { result
        ≡ position (λ (m : MemShape). bytes_eq m.name name.now) shape.now.mems }
    ensures room { IfSome result (λ place. place + 1 < 2 ^ 64) }
{
    let mut mems = shape.mems().iter();
    mems.position(|m| m.name.as_str().as_bytes() == name)
}

/// The number of the part of this name.
pub(crate) fn place_of(shape: &Shape, name: &[u8]) -> Option<usize>
    ensures some { IfSome result (λ place.
        slice_get (map (λ (p : MemShape). p.name) (parts_of shape.now)) place ≡ Some name.now) }
    ensures none { IfNone result (part_named (parts_of shape.now) name.now ≡ None) }
{
    if name == b"code".as_slice() {
        return Some(0);
    }
    let place = mem_of(shape, name)?;
    Some(place + 1)
}

/// The bits of an address of this part.
pub(crate) fn address_at(shape: &Shape, place: usize) -> u32
    requires { place < length (parts_of shape.now) }
    ensures { result
        ≡ slice_index (map (λ (p : MemShape). p.address) (parts_of shape.now)) place }
{
    match place {
        0 => shape.code_address(),
        _ => shape.mems()[place - 1].address,
    }
}

/// The bits of a word of this part.
pub(crate) fn width_at(shape: &Shape, place: usize) -> u32
    requires { place < length (parts_of shape.now) }
    ensures { result ≡ slice_index (map (λ (p : MemShape). p.width) (parts_of shape.now)) place }
{
    match place {
        0 => shape.code_width(),
        _ => shape.mems()[place - 1].width,
    }
}

impl SoFar {
    /// No part has begun.
    pub(crate) fn start(alloc: Global, shape: &Shape) -> Result<SoFar, NoMemory>
        ensures begun { IfOk result (λ so_far.
            so_far.begun.items ≡ map (λ p. false) (parts_of shape.now)) }
        ensures words { IfOk result (λ so_far.
            so_far.words.items ≡ map (λ p. []) (parts_of shape.now)) }
        ensures at { IfOk result (λ so_far. so_far.at ≡ None) }
    {
        let mut begun = Vec::new(alloc);
        let mut words = Vec::new(alloc);
        begun.push(false)?;
        words.push(Items::new(alloc))?;
        for _ in shape.mems() {
            begun.push(false)?;
            words.push(Items::new(alloc))?;
        }
        Ok(SoFar {
            begun,
            words,
            at: None,
        })
    }

    /// Begins the part of this number.
    pub(crate) fn begin(&mut self, place: usize)
        requires { place < length self.old.begun.items }
        ensures begun { self.new.begun.items ≡ slice_set self.old.begun.items place true }
        ensures words { self.new.words.items ≡ self.old.words.items }
        ensures at { self.new.at ≡ Some place }
    {
        self.begun[place] = true;
        self.at = Some(place);
    }

    /// Adds a word to the part of this number.
    pub(crate) fn add(&mut self, place: usize, word: u64) -> Result<(), NoMemory>
        requires { place < length self.old.words.items }
        ensures words { OnOk result (IfSome (slice_get self.old.words.items place) (λ words.
            self.new.words.items ≡ slice_set self.old.words.items place (words ++ word ∷ []))) }
        ensures begun { self.new.begun.items ≡ self.old.begun.items }
        ensures at { self.new.at ≡ self.old.at }
    {
        self.words[place].push(word)?;
        Ok(())
    }
}
