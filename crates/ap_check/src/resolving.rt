ghost use Rattle.std.specs.Prelude.{◌≡◌, IfErr, IfOk, OnOk};
ghost use Rattle.ap_unit.specs.Shelves.{cards_of};
ghost use Rattle.ap_desc.specs.Clean.{FitsCards};
ghost use Rattle.ap_desc.specs.DesignOf.{design_of};
ghost use Rattle.ap_desc.specs.Least.{HoldsNowhere};
ghost use Rattle.ap_desc.specs.Meaning.{IsMeaningful, MeetsPortFault, MeetsWordFault};
ghost use Rattle.ap_desc.specs.Sound.{IsSound};
ghost use Rattle.ap_check.specs.Resolved.{IsLineFault, IsMeaningFault, IsPortFault, IsResolvable, IsWordFault};

use crate::environment::Environment;
use ap_desc::design::Design;
use ap_desc::laws::faultless_descriptions_are_sound;
use ap_desc::{DescFault, Description};
use ap_unit::{Shelf, UnitKind};
use std::alloc::Global;

/// The design that the lines of a description describe, judged for names and widths alone.
fn described(alloc: Global, description: &Description, shelf: &Shelf) -> Result<Design, DescFault>
    ensures faultless { IfOk result
        (λ _. IsResolvable description.now (cards_of card shelf.now)) }
    ensures design { IfOk result
        (λ design. design ≡ design_of description.now (cards_of card shelf.now)) }
    ensures refused { IfErr result (IsLineFault description.now (cards_of card shelf.now)) }
{
    description.rules();
    let mut environment = Environment::new(alloc);
    for n in description.statements() {
        environment.take(alloc, shelf, n)?;
    }
    environment.finish()
}

/// The design again, if its words have no fault.
fn judged_words(design: Design) -> Result<Design, DescFault>
    requires { IsSound design }
    ensures same { IfOk result (λ judged. judged ≡ design) }
    ensures right { OnOk result (HoldsNowhere (MeetsWordFault design)) }
    ensures refused { IfErr result (IsWordFault design) }
{
    match ap_enc::judge(&design) {
        None => Ok(design),
        Some(refusal) => Err(DescFault::Refused(refusal)),
    }
}

/// The design again, if its ports and stages have no fault.
fn judged_ports(design: Design) -> Result<Design, DescFault>
    requires { IsSound design }
    ensures same { IfOk result (λ judged. judged ≡ design) }
    ensures right { OnOk result (HoldsNowhere (MeetsPortFault design)) }
    ensures refused { IfErr result (IsPortFault design) }
{
    match ap_ports::judge(&design) {
        Ok(None) => Ok(design),
        Ok(Some(refusal)) => Err(DescFault::Refused(refusal)),
        Err(_) => Err(DescFault::NoMemory),
    }
}

/// Resolves a description over a shelf: finds what its names stand for, judges it, and makes the design that it means.
///
/// `Refused` comes exactly where the description has a fault of meaning, and names the least one: by its phase, then by its line,
/// then by its number. The phases are names, widths, words, ports and stages. `NoMemory` comes only where memory ran out. The
/// time goes with the number of statements.
pub fn resolve(alloc: Global, description: &Description, shelf: &Shelf) -> Result<Design, DescFault>
    // A description that is resolved has no fault. The design is the one that it means; it is clean, and its units are of the
    // shelf's cards.
    ensures faultless { IfOk result
        (λ _. IsMeaningful description.now (cards_of card shelf.now)) }
    ensures design { IfOk result
        (λ design. design ≡ design_of description.now (cards_of card shelf.now)) }
    ensures fits { IfOk result (λ design. FitsCards design (cards_of card shelf.now)) }

    // One that is refused has this least fault.
    ensures refused { IfErr result (IsMeaningFault description.now (cards_of card shelf.now)) }
{
    faultless_descriptions_are_sound();
    description.rules();
    let design = described(alloc, description, shelf)?;
    let design = judged_words(design)?;
    let design = judged_ports(design)?;
    Ok(design)
}
