ghost use Rattle.std.specs.Prelude.{◌≡◌, IfErr, IfOk, OnOk, map};
ghost use Rattle.ap_desc.specs.Meaning.{IsAccepted};
ghost use Rattle.ap_text.specs.Spans.{AreLinesWithin, line_in};
ghost use Rattle.ap_unit.specs.Shelves.{cards_of};
ghost use Rattle.ap_top.specs.Form.{AreLines, HasAddition, IsFormDescription, IsForm, IsNotBuilt, HasReadFault, IsTextFault, first_form, reading_of};
ghost use Rattle.ap_top.specs.Found.{IsServed};
ghost use Rattle.ap_top.specs.declared.form.ReadFault.TheVariants as fault;

use crate::addition::find_addition;
use crate::numbers::Numbers;
use crate::pattern;
use ap_check::resolve;
use ap_desc::{DescFault, Refusal};
use ap_read::read;
use ap_text::{Line, lines};
use ap_unit::{Shelf, UnitKind};
use std::alloc::Global;

/// The place of the line `unit` among the form's lines, counted from 0.
const UNIT_LINE: usize = 5;

/// A description of the first form: its six numbers.
#[derive(Clone, Copy, Debug, PartialEq, Eq)]
pub struct Form {
    /// Bits of a code address, from 4 to 16.
    pub address: u32,
    /// Bits of a code word, from 8 to 64.
    pub word: u32,
    /// Bits of the register, the unit and the constant, from 1 to 64.
    pub width: u32,
    /// The register's value at the start, below 2 to the width.
    pub start: u64,
    /// The value of the field `op` in the adding instruction, from 1 to 2 to the word less 1.
    pub code: u64,
    /// What the adding instruction adds, below 2 to the width.
    pub constant: u64,
}

/// A fault of a description.
#[derive(Clone, Copy, Debug, PartialEq, Eq)]
pub enum Judged {
    /// This is its least fault.
    Refused(Refusal),
    /// It has none, but is of no form that is built.
    NotBuilt {
        /// The first line that isn't the one due, or 0 where all are and there are too few.
        line: u32,
    },
}

/// Why a text gives no form.
#[derive(Clone, Copy, Debug, PartialEq, Eq)]
pub enum ReadFault {
    /// The text has this fault.
    Refused(Judged),
    /// Memory ran out.
    NoMemory,
}

impl From<DescFault> for ReadFault {
    ghost from_gives = { λ fault given. given ≡ reading_of fault };

    fn from(fault: DescFault) -> ReadFault {
        match fault {
            DescFault::Refused(refusal) => ReadFault::Refused(Judged::Refused(refusal)),
            DescFault::NoMemory => ReadFault::NoMemory,
        }
    }
}

impl From<ap_bits::NoMemory> for ReadFault {
    ghost from_gives = { λ _ given. given ≡ fault.NoMemory };

    fn from(_: ap_bits::NoMemory) -> ReadFault {
        ReadFault::NoMemory
    }
}

impl From<Judged> for ReadFault {
    ghost from_gives = { λ judged given. given ≡ fault.Refused judged };

    fn from(judged: Judged) -> ReadFault {
        ReadFault::Refused(judged)
    }
}

/// Judges a text: `Refused` for its least fault, of form or of meaning.
fn accept(alloc: Global, text: &[u8], shelf: &Shelf) -> Result<(), DescFault>
    ensures accepted { OnOk result (IsAccepted text.now (cards_of card shelf.now)) }
    ensures refused { IfErr result (IsTextFault text.now (cards_of card shelf.now)) }
{
    let description = read(alloc, text)?;
    let _design = resolve(alloc, &description, shelf)?;
    Ok(())
}

/// The form of a description.
///
/// Where the text has a fault, of form or of meaning, it is `Refused` for the least one. Any other text that isn't of the first
/// form is `NotBuilt`, at the first line whose tokens aren't those due, or at line 0 where the text ends before the fifteen
/// lines. The line `unit` isn't due where a unit of the shelf's kind `alu` takes more than one cycle.
pub fn judge(alloc: Global, text: &[u8], shelf: &Shelf) -> Result<Form, ReadFault>
    ensures form { IfOk result (IsFormDescription (cards_of card shelf.now) text.now) }
    ensures refused { IfErr result (HasReadFault (cards_of card shelf.now) text.now) }
{
    accept(alloc, text, shelf)?;
    let list = lines(alloc, text)?;
    let form = read_form(text, list.as_slice(), shelf)?;
    Ok(form)
}

/// The first form with the numbers of these lines, or where they aren't its lines.
fn read_form(text: &[u8], lines: &[Line], shelf: &Shelf) -> Result<Form, Judged>
    requires { AreLinesWithin text.now lines.now }
    ensures form { let given = map (line_in text.now) lines.now in
        IfOk result (λ form. AreLines form first_form given × IsForm form
        × HasAddition (cards_of card shelf.now) form.width) }
    ensures not_built { let given = map (line_in text.now) lines.now in
        IfErr result (IsNotBuilt (cards_of card shelf.now) given) }
{
    let due = pattern::first_form();
    let mut numbers = Numbers::new();
    for (i, line) in lines.iter().enumerate() {
        if i == due.len()
            || !numbers.fit_line(text, line, due[i])
            || !is_served(shelf, &numbers, i)
        {
            return Err(Judged::NotBuilt { line: line.number });
        }
    }
    if lines.len() < due.len() {
        return Err(Judged::NotBuilt { line: 0 });
    }
    let form = numbers.form().unwrap();
    Ok(form)
}

/// Whether the shelf has what the line at this place asks for, after the line was taken.
fn is_served(shelf: &Shelf, numbers: &Numbers, place: usize) -> bool
    ensures { IsServed (cards_of card shelf.now) numbers.now.found place result }
{
    if place != UNIT_LINE {
        return true;
    }
    match numbers.form() {
        Some(form) => find_addition(shelf, form.width).is_some(),
        None => false,
    }
}
