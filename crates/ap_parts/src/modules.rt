//! The modules of which `top` has instances: one for each kind and width that a unit has, and one for each file.

ghost use Rattle.std.specs.Prelude.{◌≡◌, ◌≤◌, ◌<◌, [], IfOk, OnOk, Some, length, position, slice_get};
ghost use Rattle.std.specs.List.{AllByRecursion as Each};
ghost use Rattle.ap_bits.specs.Cards.{FitsWidth};
ghost use Rattle.ap_desc.specs.Clean.{FitsCards, IsClean};
ghost use Rattle.ap_net.specs.Modules.{IsModule};
ghost use Rattle.ap_unit.specs.Units.{IsUnit};
ghost use Rattle.ap_unit.specs.Shelves.{cards_of};
ghost use Rattle.ap_ctl.specs.Lists.{EachPair};
ghost use Rattle.ap_parts.specs.Known.{AreFirstKinds, AreKnown, HasParts, known_by};
ghost use Rattle.ap_parts.specs.Parts.{AddsFiles, AreBuilt, AreParts, FitsShelf, IsFileModule, IsKindModule, IsNthFile, StandsAt, is_alike, kind_module_name, kind_of, kinds_of, with_kind};

use crate::laws::built_are_parts;
use ap_bank::stages::write_stages;
use ap_bits::{Items, NoMemory};
use ap_desc::design::{Design, File, Unit};
use ap_net::builder::Builder;
use ap_net::module::Module;
use ap_store::file_module;
use ap_unit::{Shelf, UnitKind};
use std::alloc::Global;

/// The modules of which `top` has instances.
#[derive(Drop)]
pub struct Parts {
    /// Those of the units' kinds, and then one for each file.
    pub modules: Vec<Module>,
    /// For each unit the place of its module.
    pub units: Items<usize>,
    /// How many modules of kinds there are: the place of the first file's.
    pub kinds: usize,
}

/// The module of a kind and a width: `k_KIND_WIDTH`.
fn kind_module(alloc: Global, kind: &dyn UnitKind, width: u32) -> Result<Module, NoMemory>
    requires fits { FitsWidth (card kind.now) width }
    ensures name { IfOk result (λ m. m.name ≡ kind_module_name (card kind.now).name width) }
    ensures unit { IfOk result (λ m. IsUnit m (card kind.now) width) }
    ensures kept { IfOk result IsModule }
{
    let name = format!(in alloc; "k_{}_{width}", kind.name())?;
    let mut out = Builder::new(alloc, name.as_bytes())?;
    kind.build(width, &mut out)?;
    let whole = out.finish()?;
    whole.rules();
    Ok(whole)
}

/// A kind of the shelf, by its place, and a width.
#[derive(Clone, Copy, Debug, PartialEq, Eq)]
pub struct KindWidth {
    pub kind: u32,
    /// In bits.
    pub width: u32,
}

/// The module of a kind of the shelf.
fn shelf_module(alloc: Global, shelf: &Shelf, pair: KindWidth) -> Result<Module, NoMemory>
    requires fits { FitsShelf (cards_of card shelf.now) pair }
    ensures { IfOk result (IsKindModule (cards_of card shelf.now) pair) }
{
    let kind = shelf.kind(pair.kind as usize);
    let whole = kind_module(alloc, kind, pair.width)?;
    Ok(whole)
}

/// The modules of these kinds, in their order.
fn kind_modules(alloc: Global, shelf: &Shelf, kinds: &[KindWidth]) -> Result<Vec<Module>, NoMemory>
    requires fits { Each (FitsShelf (cards_of card shelf.now)) kinds.now }
    ensures { IfOk result (λ modules.
        EachPair (IsKindModule (cards_of card shelf.now)) kinds.now modules.items) }
{
    let mut modules = Vec::new(alloc);
    for pair in kinds {
        let whole = shelf_module(alloc, shelf, *pair)?;
        modules.push(whole)?;
    }
    Ok(modules)
}

/// The kinds and widths that units have, each once, in the order of the first unit of each; and for each unit the place of its own.
#[derive(Drop)]
struct KindPlaces {
    kinds: Items<KindWidth>,
    places: Items<usize>,
}

/// The first place of this one.
fn place_of(kinds: &[KindWidth], pair: KindWidth) -> Option<usize>
    ensures { result ≡ position (is_alike pair) kinds.now }
{
    kinds.iter().position(|other| *other == pair)
}

/// Adds it at the end, where it isn't there, and answers its place.
fn add_kind(kinds: &mut Items<KindWidth>, pair: KindWidth) -> Result<usize, NoMemory>
    ensures kinds { OnOk result (kinds.new ≡ with_kind kinds.old pair) }
    ensures place { IfOk result (λ place. slice_get kinds.new place ≡ Some pair) }
{
    let found = place_of(kinds.as_slice(), pair);
    if let Some(place) = found {
        return Ok(place);
    }
    let place = kinds.len();
    kinds.push(pair)?;
    Ok(place)
}

/// The kind and width of a unit.
fn kind_of(unit: &Unit) -> KindWidth
    ensures { result ≡ kind_of unit.now }
{
    KindWidth {
        kind: unit.kind,
        width: unit.width,
    }
}

/// The kinds and widths that these units have.
fn kind_places(alloc: Global, units: &[Unit]) -> Result<KindPlaces, NoMemory>
    ensures kinds { IfOk result (λ made. made.kinds ≡ kinds_of [] units.now) }
    ensures places { IfOk result (λ made. EachPair (StandsAt made.kinds) units.now made.places) }
{
    let mut kinds: Items<KindWidth> = Items::new(alloc);
    let mut places = Items::new(alloc);
    for unit in units {
        let place = add_kind(&mut kinds, kind_of(unit))?;
        places.push(place)?;
    }
    Ok(KindPlaces { kinds, places })
}

/// The file of a place.
fn file_at(design: &Design, number: usize) -> &File
    requires { number < length design.now.files }
    ensures { slice_get design.now.files number ≡ Some result.now }
{
    let files = design.files.as_slice();
    &files[number]
}

/// The module of a file: `rf_F`, with the stages in which lines write through its ports.
fn one_file(alloc: Global, design: &Design, number: u32, file: &File) -> Result<Module, NoMemory>
    requires clean { IsClean design.now }
    requires at { slice_get design.now.files number ≡ Some file.now }
    ensures { IfOk result (IsFileModule design.now number file.now) }
{
    let stages = write_stages(alloc, design, number, file.writes)?;
    let whole = file_module(alloc, file, stages.as_slice())?;
    whole.rules();
    Ok(whole)
}

/// The module of the file of a place.
fn nth_file(alloc: Global, design: &Design, number: usize) -> Result<Module, NoMemory>
    requires clean { IsClean design.now }
    requires few { length design.now.files ≤ 8 }
    requires there { number < length design.now.files }
    ensures { IfOk result (IsNthFile design.now number) }
{
    let file = file_at(design, number);
    let whole = one_file(alloc, design, number as u32, file)?;
    Ok(whole)
}

/// Adds the modules of the files, in their order.
fn add_file_modules(
    alloc: Global,
    design: &Design,
    modules: &mut Vec<Module>,
) -> Result<(), NoMemory>
    requires clean { IsClean design.now }
    requires few { length design.now.files ≤ 8 }
    ensures { OnOk result
        (AddsFiles design.now (length design.now.files) modules.old.items modules.new.items) }
{
    for number in 0..design.files.len() {
        let whole = nth_file(alloc, design, number)?;
        modules.push(whole)?;
    }
    Ok(())
}

/// Those of the units' kinds, each once, and those of the files.
fn make_parts(alloc: Global, design: &Design, shelf: &Shelf) -> Result<Parts, NoMemory>
    requires fits { FitsCards design.now (cards_of card shelf.now) }
    ensures { IfOk result (λ p.
        AreBuilt (cards_of card shelf.now) design.now p.modules.items p.units p.kinds) }
{
    let made = kind_places(alloc, design.units.as_slice())?;
    let mut modules = kind_modules(alloc, shelf, made.kinds.as_slice())?;
    let kinds = modules.len();
    add_file_modules(alloc, design, &mut modules)?;
    Ok(Parts {
        modules,
        units: made.places,
        kinds,
    })
}

/// The modules of which a design's `top` has instances: those of its units' kinds, each once, and those of its files. They have all
/// that a `top` needs, and it knows where each stands. Each unit's kind is the first of its name on the shelf, as kinds of different names
/// are, and as those that a description means.
pub fn build_parts(alloc: Global, design: &Design, shelf: &Shelf) -> Result<Parts, NoMemory>
    requires fits { FitsCards design.now (cards_of card shelf.now) }
    requires first { AreFirstKinds (cards_of card shelf.now) design.now }
    ensures parts { IfOk result (λ p. AreParts (cards_of card shelf.now) design.now p.modules.items) }
    ensures has { IfOk result (λ p.
        HasParts (known_by (cards_of card shelf.now)) (cards_of card shelf.now) design.now
        p.modules.items) }
    ensures known { IfOk result (λ p.
        AreKnown (known_by (cards_of card shelf.now)) design.now p.modules.items p.units
        p.kinds) }
{
    built_are_parts();
    let made = make_parts(alloc, design, shelf)?;
    Ok(made)
}
