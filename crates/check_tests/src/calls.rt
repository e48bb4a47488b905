//! Calls of [`resolve`] over a shelf of five kinds.

use ap_check::resolve;
use ap_comb::{Alu, Avg, Count, Shift};
use ap_desc::design::Design;
use ap_desc::{DescFault, Description, Fault};
use ap_mul::Mul;
use ap_read::read;
use ap_unit::{Shelf, UnitKind};
use std::alloc::Global;
use std::test::Fail;

/// A shelf of five kinds.
fn shelf(alloc: Global) -> Result<Shelf, Fail> {
    let mut kinds: Vec<Box<dyn UnitKind>> = Vec::new(alloc);
    kinds.push(Box::new(alloc, Alu)?)?;
    kinds.push(Box::new(alloc, Shift)?)?;
    kinds.push(Box::new(alloc, Count)?)?;
    kinds.push(Box::new(alloc, Avg)?)?;
    kinds.push(Box::new(alloc, Mul)?)?;
    match Shelf::new(kinds) {
        Ok(shelf) => Ok(shelf),
        Err(_) => Err("two kinds have one name")?,
    }
}

fn description(alloc: Global, text: &str) -> Result<Description, Fail> {
    match read(alloc, text.as_bytes()) {
        Ok(description) => Ok(description),
        Err(_) => Err("it isn't read")?,
    }
}

/// What is answered for a text: its design or its fault, with the line.
pub fn resolved(alloc: Global, text: &str) -> Result<Result<Design, (Fault, u32)>, Fail> {
    let description = description(alloc, text)?;
    match resolve(alloc, &description, &shelf(alloc)?) {
        Ok(design) => Ok(Ok(design)),
        Err(DescFault::Refused(refusal)) => Ok(Err((refusal.kind, refusal.line))),
        Err(DescFault::NoMemory) => Err("no memory")?,
    }
}

/// The fault that is named, with its line; none where the text is accepted.
pub fn fault_of(alloc: Global, text: &str) -> Result<Option<(Fault, u32)>, Fail> {
    match resolved(alloc, text)? {
        Ok(_) => Ok(None),
        Err(fault) => Ok(Some(fault)),
    }
}
