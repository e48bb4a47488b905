ghost use Rattle.ap_desc.specs.Forms.{compute_in, const_form, form_in, micro_in, plain_micro_in, plain_source_in, read_part_in, read_port_in, read_register_in, sext_form, signed_in, slice_form, source_in, write_part_in, write_register_in, zext_form};
ghost use Rattle.ap_read.specs.Answers.{Answers};
ghost use Rattle.ap_read.specs.Texts.{texts};

use crate::parts::{guard_in, number_and_word, one_name, one_word, two_numbers, two_words};
use crate::token::{Unread, cut, is, name_in, number_in, port_in, word_in};
use ap_bits::Name;
use ap_desc::Statement;
use std::alloc::Global;

/// The micro-operation of this stage that the other tokens of its line spell.
#[tactic(auto, unfolding(ap_desc::specs::Forms::micro_in))]
pub fn micro_operation(alloc: Global, stage: u64, tokens: &[&[u8]]) -> Result<Statement, Unread>
    ensures { Answers result (micro_in stage (texts tokens.now)) }
{
    let [first, rest @ ..] = tokens else {
        return Err(Unread::NoForm);
    };
    match cut(first, b'.') {
        Some((name, part)) => write_part(alloc, stage, name, part, rest),
        None => plain_micro(alloc, stage, first, rest),
    }
}

/// A transfer, a write of a register, or what assigns a local.
#[tactic(auto, unfolding(ap_desc::specs::Forms::plain_micro_in))]
fn plain_micro(alloc: Global, stage: u64, first: &[u8], rest: &[&[u8]]) -> Result<Statement, Unread>
    ensures { Answers result (plain_micro_in stage first.now (texts rest.now)) }
{
    if is(first, "branch") {
        let (cond, target) = two_words(alloc, rest)?;
        return Ok(Statement::Branch {
            stage,
            cond,
            target,
        });
    }
    if is(first, "jump") {
        let target = one_word(alloc, rest)?;
        return Ok(Statement::Jump { stage, target });
    }
    signed(alloc, stage, first, rest)
}

/// A name, and then the sign of a write or of a new local.
#[tactic(auto, unfolding(ap_desc::specs::Forms::signed_in))]
fn signed(alloc: Global, stage: u64, name: &[u8], rest: &[&[u8]]) -> Result<Statement, Unread>
    ensures { Answers result (signed_in stage name.now (texts rest.now)) }
{
    let [sign, rest @ ..] = rest else {
        return Err(Unread::NoForm);
    };
    if is(sign, "<-") {
        return write_register(alloc, stage, name, rest);
    }
    if !is(sign, "=") {
        return Err(Unread::NoForm);
    }
    let to = name_in(alloc, name)?;
    source(alloc, stage, to, rest)
}

/// `S R <- v`, from what stands after the sign.
#[tactic(auto, unfolding(ap_desc::specs::Forms::write_register_in))]
fn write_register(
    alloc: Global,
    stage: u64,
    reg: &[u8],
    rest: &[&[u8]],
) -> Result<Statement, Unread>
    ensures { Answers result (write_register_in stage reg.now (texts rest.now)) }
{
    let [value, guard @ ..] = rest else {
        return Err(Unread::NoForm);
    };
    let reg = name_in(alloc, reg)?;
    let value = word_in(alloc, value)?;
    let guard = guard_in(alloc, guard)?;
    Ok(Statement::WriteRegister {
        stage,
        reg,
        value,
        guard,
    })
}

/// A write of a memory, or through a write port of a file.
#[tactic(auto, unfolding(ap_desc::specs::Forms::write_part_in))]
fn write_part(
    alloc: Global,
    stage: u64,
    name: &[u8],
    part: &[u8],
    rest: &[&[u8]],
) -> Result<Statement, Unread>
    ensures { Answers result (write_part_in stage name.now part.now (texts rest.now)) }
{
    let [place, value, guard @ ..] = rest else {
        return Err(Unread::NoForm);
    };
    let name = name_in(alloc, name)?;
    let place = word_in(alloc, place)?;
    let value = word_in(alloc, value)?;
    let guard = guard_in(alloc, guard)?;
    if is(part, "write") {
        return Ok(Statement::WriteMemory {
            stage,
            mem: name,
            at: place,
            value,
            guard,
        });
    }
    let port = port_in(part, b'w')?;
    Ok(Statement::WriteFile {
        stage,
        file: name,
        port,
        index: place,
        value,
        guard,
    })
}

/// What is assigned to a local: what stands after `=`.
#[tactic(auto, unfolding(ap_desc::specs::Forms::source_in))]
fn source(alloc: Global, stage: u64, to: Name, tokens: &[&[u8]]) -> Result<Statement, Unread>
    ensures { Answers result (source_in stage to (texts tokens.now)) }
{
    let [first, rest @ ..] = tokens else {
        return Err(Unread::NoForm);
    };
    match cut(first, b'.') {
        Some((name, part)) => read_part(alloc, stage, to, name, part, rest),
        None => plain_source(alloc, stage, to, first, rest),
    }
}

/// With one operand a read of a memory or through a port of a file, and with two an operation of a unit.
#[tactic(auto, unfolding(ap_desc::specs::Forms::read_part_in))]
fn read_part(
    alloc: Global,
    stage: u64,
    to: Name,
    name: &[u8],
    part: &[u8],
    rest: &[&[u8]],
) -> Result<Statement, Unread>
    ensures { Answers result (read_part_in stage to name.now part.now (texts rest.now)) }
{
    if rest.len() == 1 {
        read_port(alloc, stage, to, name, part, rest)
    } else {
        compute(alloc, stage, to, name, part, rest)
    }
}

/// `S x = M.read a` or `S x = F.rN i`, from the name, the part after the point and the operand.
#[tactic(auto, unfolding(ap_desc::specs::Forms::read_port_in))]
fn read_port(
    alloc: Global,
    stage: u64,
    to: Name,
    name: &[u8],
    part: &[u8],
    rest: &[&[u8]],
) -> Result<Statement, Unread>
    ensures { Answers result (read_port_in stage to name.now part.now (texts rest.now)) }
{
    let name = name_in(alloc, name)?;
    let place = one_word(alloc, rest)?;
    if is(part, "read") {
        return Ok(Statement::ReadMemory {
            stage,
            to,
            mem: name,
            at: place,
        });
    }
    let port = port_in(part, b'r')?;
    Ok(Statement::ReadFile {
        stage,
        to,
        file: name,
        port,
        index: place,
    })
}

/// `S x = U.op a b`, from the name, the part after the point and the operands.
#[tactic(auto, unfolding(ap_desc::specs::Forms::compute_in))]
fn compute(
    alloc: Global,
    stage: u64,
    to: Name,
    unit: &[u8],
    op: &[u8],
    rest: &[&[u8]],
) -> Result<Statement, Unread>
    ensures { Answers result (compute_in stage to unit.now op.now (texts rest.now)) }
{
    let unit = name_in(alloc, unit)?;
    let op = name_in(alloc, op)?;
    let (a, b) = two_words(alloc, rest)?;
    Ok(Statement::Compute {
        stage,
        to,
        unit,
        op,
        a,
        b,
    })
}

/// An input port, a constant, an extension, a slice, two operands side by side, or a register.
#[tactic(auto, unfolding(ap_desc::specs::Forms::plain_source_in))]
fn plain_source(
    alloc: Global,
    stage: u64,
    to: Name,
    first: &[u8],
    rest: &[&[u8]],
) -> Result<Statement, Unread>
    ensures { Answers result (plain_source_in stage to first.now (texts rest.now)) }
{
    if is(first, "in") {
        let input = one_name(alloc, rest)?;
        return Ok(Statement::ReadInput { stage, to, input });
    }
    if is(first, "const") {
        return constant(stage, to, rest);
    }
    if is(first, "zext") {
        return zext(alloc, stage, to, rest);
    }
    if is(first, "sext") {
        return sext(alloc, stage, to, rest);
    }
    if is(first, "slice") {
        return slice_of(alloc, stage, to, rest);
    }
    if is(first, "cat") {
        let (a, b) = two_words(alloc, rest)?;
        return Ok(Statement::Cat { stage, to, a, b });
    }
    read_register(alloc, stage, to, first, rest)
}

/// `S x = const W V`, from what stands after `const`.
fn constant(stage: u64, to: Name, rest: &[&[u8]]) -> Result<Statement, Unread>
    ensures { Answers result (form_in (const_form stage to) (texts rest.now)) }
{
    let (width, value) = two_numbers(rest)?;
    Ok(Statement::Const {
        stage,
        to,
        width,
        value,
    })
}

/// `S x = zext W a`, from what stands after `zext`.
fn zext(alloc: Global, stage: u64, to: Name, rest: &[&[u8]]) -> Result<Statement, Unread>
    ensures { Answers result (form_in (zext_form stage to) (texts rest.now)) }
{
    let (width, a) = number_and_word(alloc, rest)?;
    Ok(Statement::Zext {
        stage,
        to,
        width,
        a,
    })
}

/// `S x = sext W a`, from what stands after `sext`.
fn sext(alloc: Global, stage: u64, to: Name, rest: &[&[u8]]) -> Result<Statement, Unread>
    ensures { Answers result (form_in (sext_form stage to) (texts rest.now)) }
{
    let (width, a) = number_and_word(alloc, rest)?;
    Ok(Statement::Sext {
        stage,
        to,
        width,
        a,
    })
}

/// `S x = slice H L a`, from what stands after `slice`.
fn slice_of(alloc: Global, stage: u64, to: Name, rest: &[&[u8]]) -> Result<Statement, Unread>
    ensures { Answers result (form_in (slice_form stage to) (texts rest.now)) }
{
    let [high, rest @ ..] = rest else {
        return Err(Unread::NoForm);
    };
    let high = number_in(high)?;
    let (low, a) = number_and_word(alloc, rest)?;
    Ok(Statement::Slice {
        stage,
        to,
        high,
        low,
        a,
    })
}

/// `S x = R`, after which nothing stands.
#[tactic(auto, unfolding(ap_desc::specs::Forms::read_register_in))]
fn read_register(
    alloc: Global,
    stage: u64,
    to: Name,
    reg: &[u8],
    rest: &[&[u8]],
) -> Result<Statement, Unread>
    ensures { Answers result (read_register_in stage to reg.now (texts rest.now)) }
{
    if !rest.is_empty() {
        return Err(Unread::NoForm);
    }
    let reg = name_in(alloc, reg)?;
    Ok(Statement::ReadRegister { stage, to, reg })
}
