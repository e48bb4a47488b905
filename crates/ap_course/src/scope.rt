//! What the lines of an instruction may name.
ghost use Rattle.std.specs.Prelude.{◌≡◌, IfOk};
ghost use Rattle.ap_desc.specs.Designs.{fields_of};
ghost use Rattle.ap_course.specs.Lines.{scope_of};

use ap_bits::{Items, NoMemory};
use ap_desc::design::{Design, Field, Instr};
use ap_stage::source::Scope;
use std::alloc::Global;

/// A field once more.
fn copied(alloc: Global, field: &Field) -> Result<Field, NoMemory>
    ensures { IfOk result (λ made. made ≡ field.now) }
{
    let name = field.name.copy(alloc)?;
    Ok(Field {
        name,
        width: field.width,
        low: field.low,
    })
}

/// Fields once more.
fn all_copied(alloc: Global, fields: &[Field]) -> Result<Items<Field>, NoMemory>
    ensures { IfOk result (λ made. made ≡ fields.now) }
{
    let mut made = Items::new(alloc);
    for field in fields {
        let one = copied(alloc, field)?;
        made.push(one)?;
    }
    Ok(made)
}

/// The fields of an instruction's format once more.
fn fields_of(alloc: Global, design: &Design, instr: &Instr) -> Result<Items<Field>, NoMemory>
    ensures { IfOk result (λ fields. fields ≡ fields_of design.now instr.now) }
{
    match design.formats.as_slice().get(instr.format as usize) {
        Some(format) => all_copied(alloc, format.fields.as_slice()),
        None => Ok(Items::new(alloc)),
    }
}

/// The fields of an instruction's format and the widths of its locals.
pub fn scope_of(alloc: Global, design: &Design, instr: &Instr) -> Result<Scope, NoMemory>
    ensures { IfOk result (λ scope. scope ≡ scope_of design.now instr.now) }
{
    let fields = fields_of(alloc, design, instr)?;
    let widths = Items::copy_of(alloc, instr.locals.as_slice())?;
    Ok(Scope { fields, widths })
}
