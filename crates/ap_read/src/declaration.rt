ghost use Rattle.ap_desc.specs.Forms.{address_form, declaration_in, end_form, file_form, form_in, format_form, input_form, instr_form, mem_form, reg_form, stages_form, transfer_form, unit_form, word_form};
ghost use Rattle.ap_read.specs.Answers.{Answers};
ghost use Rattle.ap_read.specs.Texts.{texts};

use crate::parts::{fields_in, one_number, two_numbers};
use crate::token::{Unread, is, name_in, number_in};
use ap_desc::Statement;
use std::alloc::Global;

/// The statement that begins with a word, or `end`.
#[tactic(auto, unfolding(ap_desc::specs::Forms::declaration_in))]
pub fn declaration(alloc: Global, first: &[u8], rest: &[&[u8]]) -> Result<Statement, Unread>
    ensures { Answers result (declaration_in first.now (texts rest.now)) }
{
    if is(first, "stages") {
        stages(rest)
    } else if is(first, "address") {
        address(rest)
    } else if is(first, "word") {
        word(rest)
    } else if is(first, "transfer") {
        transfer(rest)
    } else if is(first, "reg") {
        reg(alloc, rest)
    } else if is(first, "file") {
        file(alloc, rest)
    } else if is(first, "mem") {
        mem(alloc, rest)
    } else if is(first, "in") {
        input(alloc, rest)
    } else if is(first, "unit") {
        unit(alloc, rest)
    } else if is(first, "format") {
        format_of(alloc, rest)
    } else if is(first, "instr") {
        instr(alloc, rest)
    } else if is(first, "end") {
        end(rest)
    } else {
        Err(Unread::NoForm)
    }
}

/// `stages N`, from what stands after its first token.
fn stages(rest: &[&[u8]]) -> Result<Statement, Unread>
    ensures { Answers result (form_in stages_form (texts rest.now)) }
{
    let count = one_number(rest)?;
    Ok(Statement::Stages { count })
}

/// `address A`, from what stands after its first token.
fn address(rest: &[&[u8]]) -> Result<Statement, Unread>
    ensures { Answers result (form_in address_form (texts rest.now)) }
{
    let bits = one_number(rest)?;
    Ok(Statement::Address { bits })
}

/// `word W`, from what stands after its first token.
fn word(rest: &[&[u8]]) -> Result<Statement, Unread>
    ensures { Answers result (form_in word_form (texts rest.now)) }
{
    let bits = one_number(rest)?;
    Ok(Statement::Word { bits })
}

/// `transfer B K`, from what stands after its first token.
fn transfer(rest: &[&[u8]]) -> Result<Statement, Unread>
    ensures { Answers result (form_in transfer_form (texts rest.now)) }
{
    let (stage, slots) = two_numbers(rest)?;
    Ok(Statement::Transfer { stage, slots })
}

/// `reg NAME WIDTH RESET`, from what stands after its first token.
fn reg(alloc: Global, rest: &[&[u8]]) -> Result<Statement, Unread>
    ensures { Answers result (form_in reg_form (texts rest.now)) }
{
    let [name, width, reset] = rest else {
        return Err(Unread::NoForm);
    };
    let name = name_in(alloc, name)?;
    let width = number_in(width)?;
    let reset = number_in(reset)?;
    Ok(Statement::Reg { name, width, reset })
}

/// `file NAME WIDTH CELLS READS WRITES`, from what stands after its first token.
fn file(alloc: Global, rest: &[&[u8]]) -> Result<Statement, Unread>
    ensures { Answers result (form_in file_form (texts rest.now)) }
{
    let [name, width, cells, reads, writes] = rest else {
        return Err(Unread::NoForm);
    };
    let name = name_in(alloc, name)?;
    let width = number_in(width)?;
    let cells = number_in(cells)?;
    let reads = number_in(reads)?;
    let writes = number_in(writes)?;
    Ok(Statement::File {
        name,
        width,
        cells,
        reads,
        writes,
    })
}

/// `mem NAME ADDRESSBITS WIDTH`, from what stands after its first token.
fn mem(alloc: Global, rest: &[&[u8]]) -> Result<Statement, Unread>
    ensures { Answers result (form_in mem_form (texts rest.now)) }
{
    let [name, address, width] = rest else {
        return Err(Unread::NoForm);
    };
    let name = name_in(alloc, name)?;
    let address = number_in(address)?;
    let width = number_in(width)?;
    Ok(Statement::Mem {
        name,
        address,
        width,
    })
}

/// `in NAME WIDTH`, from what stands after its first token.
fn input(alloc: Global, rest: &[&[u8]]) -> Result<Statement, Unread>
    ensures { Answers result (form_in input_form (texts rest.now)) }
{
    let [name, width] = rest else {
        return Err(Unread::NoForm);
    };
    let name = name_in(alloc, name)?;
    let width = number_in(width)?;
    Ok(Statement::In { name, width })
}

/// `unit NAME KIND WIDTH`, from what stands after its first token.
fn unit(alloc: Global, rest: &[&[u8]]) -> Result<Statement, Unread>
    ensures { Answers result (form_in unit_form (texts rest.now)) }
{
    let [name, kind, width] = rest else {
        return Err(Unread::NoForm);
    };
    let name = name_in(alloc, name)?;
    let kind = name_in(alloc, kind)?;
    let width = number_in(width)?;
    Ok(Statement::Unit { name, kind, width })
}

/// `format NAME FIELD:WIDTH ..`, with at least one field, from what stands after its first token.
fn format_of(alloc: Global, rest: &[&[u8]]) -> Result<Statement, Unread>
    ensures { Answers result (form_in format_form (texts rest.now)) }
{
    let [name, fields @ ..] = rest else {
        return Err(Unread::NoForm);
    };
    if fields.is_empty() {
        return Err(Unread::NoForm);
    }
    let name = name_in(alloc, name)?;
    let fields = fields_in(alloc, fields, b':')?;
    Ok(Statement::Format { name, fields })
}

/// `instr NAME FORMAT FIELD=VALUE ..`, with any number of fields, from what stands after its first token.
fn instr(alloc: Global, rest: &[&[u8]]) -> Result<Statement, Unread>
    ensures { Answers result (form_in instr_form (texts rest.now)) }
{
    let [name, format, fixed @ ..] = rest else {
        return Err(Unread::NoForm);
    };
    let name = name_in(alloc, name)?;
    let format = name_in(alloc, format)?;
    let fixed = fields_in(alloc, fixed, b'=')?;
    Ok(Statement::Instr {
        name,
        format,
        fixed,
    })
}

/// `end`, after which nothing stands.
fn end(rest: &[&[u8]]) -> Result<Statement, Unread>
    ensures { Answers result (form_in end_form (texts rest.now)) }
{
    if !rest.is_empty() {
        return Err(Unread::NoForm);
    }
    Ok(Statement::End)
}
