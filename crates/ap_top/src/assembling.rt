//! Assembles the program of a file for the processor that another file describes.
ghost use Rattle.std.specs.Prelude.{◌≡◌, ◌≢◌, [], IfErr, IfOk, OnErr, OnOk};
ghost use Rattle.ap_desc.specs.Clean.{IsClean};
ghost use Rattle.ap_desk.specs.Causes.{HasCause};
ghost use Rattle.ap_desk.specs.Files.{Goes, IsFileName};
ghost use Rattle.ap_image.specs.ImageTexts.{image_text};
ghost use Rattle.ap_model.specs.DesignShape as shapes;
ghost use Rattle.ap_unit.specs.Shelves.{cards_of};
ghost use Rattle.ap_top.specs.Assembly.{BecomeBoth, BeginBoth, FailsAt, IsDesignAt, IsProgramAt, IsProgramRefused, StopsReading, asm_sources, asm_targets};
ghost use Rattle.ap_top.specs.Form.{IsTextFault};
ghost use Rattle.ap_top.specs.Inputs.{FailsOn, IsRefused};
ghost use Rattle.ap_top.specs.Outputs.{FromGood, Writes};
ghost use Rattle.ap_top.specs.Programs.{IsDesignOf};
ghost use Rattle.ap_top.specs.Troubles.{IsCaused, StopsOn, desk_stop};
ghost use Rattle.ap_top.specs.declared.command.Input.TheVariants as input;

use crate::refusal::Stop;
use ap_asm::{Assembled, shape_of};
use ap_bits::NoMemory;
use ap_check::resolve;
use ap_desc::DescFault;
use ap_desc::design::Design;
use ap_desk::desk::{Desk, DeskFault};
use ap_desk::pieces::{read_all, write_all};
use ap_image::{Image, TEXT_LIMIT, write_image};
use ap_read::{DESCRIPTION_LIMIT, read};
use ap_unit::{Shelf, UnitKind};
use std::alloc::Global;

/// The design that a description means: `Refused` for the least fault of form or of meaning.
fn design_in(alloc: Global, text: &[u8], shelf: &Shelf) -> Result<Design, DescFault>
    ensures clean { IfOk result IsClean }
    ensures design { IfOk result (IsDesignOf (cards_of card shelf.now) text.now) }
    ensures refused { IfErr result (IsTextFault text.now (cards_of card shelf.now)) }
{
    let description = read(alloc, text)?;
    let design = resolve(alloc, &description, shelf)?;
    Ok(design)
}

/// Reads a description and gives the design that it means.
fn read_design<D: Desk>(
    alloc: Global,
    name: &str,
    shelf: &Shelf,
    desk: &mut D,
) -> Result<Design, Stop>
    requires { IsFileName name.now }
    ensures clean { IfOk result IsClean }
    ensures design { IfOk result
        (IsDesignAt (cards_of card shelf.now) name.now (D.files desk.old)) }
    ensures stopped { let refused = IsRefused (cards_of card shelf.now) [] input.Processor in
        IfErr result (StopsReading refused name.now (D.files desk.old)) }
    ensures same { D.files desk.new ≡ D.files desk.old }
    ensures cause { let fails = FailsAt name.now (D.files desk.old) in
        IsCaused desk_stop fails (D.counts desk.old) (D.counts desk.new) result }
{
    let text = read_all(alloc, desk, name, DESCRIPTION_LIMIT)?;
    let design = design_in(alloc, &text, shelf)?;
    Ok(design)
}

/// Reads a program for the processor of a design and puts it at its places.
fn read_program<D: Desk>(
    alloc: Global,
    name: &str,
    design: &Design,
    desk: &mut D,
) -> Result<Assembled, Stop>
    requires name { IsFileName name.now }
    requires clean { IsClean design.now }
    ensures made { IfOk result (IsProgramAt design.now name.now (D.files desk.old)) }
    ensures stopped { let refused = IsProgramRefused design.now in
        IfErr result (StopsReading refused name.now (D.files desk.old)) }
    ensures same { D.files desk.new ≡ D.files desk.old }
    ensures cause { let fails = FailsAt name.now (D.files desk.old) in
        IsCaused desk_stop fails (D.counts desk.old) (D.counts desk.new) result }
{
    let text = read_all(alloc, desk, name, TEXT_LIMIT)?;
    let made = ap_asm::assemble(alloc, design, &text)?;
    Ok(made)
}

/// The text of the image of a program for the processor of a design.
fn image_in(alloc: Global, design: &Design, image: &Image) -> Result<Vec<u8>, NoMemory>
    requires { IsClean design.now }
    ensures { let shape = shapes.shape_of design.now in
        IfOk result (λ text. text.items ≡ image_text image.now shape) }
{
    let shape = shape_of(alloc, design)?;
    let mut text = Vec::new(alloc);
    write_image(alloc, image, &shape, &mut text)?;
    Ok(text)
}

/// Makes two files hold exactly these texts, one after the other. The first call of the desk that gives up ends it with its
/// fault, which is never `Missing`.
fn write_both<D: Desk>(
    desk: &mut D,
    image: &str,
    text: &[u8],
    listing: &str,
    lines: &[u8],
) -> Result<(), DeskFault>
    requires image { IsFileName image.now }
    requires listing { IsFileName listing.now }
    ensures ok { let both = BecomeBoth image.now text.now listing.now lines.now in
        OnOk result (Goes both (D.files desk.old) (D.files desk.new)) }
    ensures err { let begun = BeginBoth image.now text.now listing.now lines.now in
        OnErr result (Goes begun (D.files desk.old) (D.files desk.new)) }
    ensures not_missing { result ≢ Err DeskFault.Missing }
    ensures cause { HasCause (D.counts desk.old) (D.counts desk.new) result }
{
    write_all(desk, image, text)?;
    write_all(desk, listing, lines)?;
    Ok(())
}

/// Reads the description and the program, judges them, and writes the image and the listing.
pub(crate) fn assemble<D: Desk>(
    alloc: Global,
    description: &str,
    program: &str,
    image: &str,
    listing: &str,
    shelf: &Shelf,
    desk: &mut D,
) -> Result<(), Stop>
    requires description { IsFileName description.now }
    requires program { IsFileName program.now }
    requires image { IsFileName image.now }
    requires listing { IsFileName listing.now }
    ensures done { let cards = cards_of card shelf.now in
        let sources = asm_sources description.now program.now in
        let step = FromGood cards Writes sources (asm_targets image.now listing.now) in
        OnOk result (Goes step (D.files desk.old) (D.files desk.new)) }
    ensures stopped { let cards = cards_of card shelf.now in
        let sources = asm_sources description.now program.now in
        let stops = StopsOn cards sources (asm_targets image.now listing.now) in
        IfErr result (stops (D.files desk.old) (D.files desk.new)) }
    ensures cause { let cards = cards_of card shelf.now in
        let sources = asm_sources description.now program.now in
        let fails = FailsOn cards sources (D.files desk.old) in
        IsCaused desk_stop fails (D.counts desk.old) (D.counts desk.new) result }
{
    let design = read_design(alloc, description, shelf, desk)?;
    let made = read_program(alloc, program, &design, desk)?;
    let text = image_in(alloc, &design, &made.image)?;
    write_both(desk, image, &text, listing, made.listing.as_slice())?;
    Ok(())
}
