ghost use Rattle.std.specs.Prelude.{◌≡◌, ◌++◌, map, codes, IfOk, IsTrue};
ghost use Rattle.std.specs.List.{flat_map};
ghost use Rattle.std.specs.String.{string_bytes};
ghost use Rattle.ap_desc.specs.Groups.{Assigns, IsOfInstructions, IsWiring};
ghost use Rattle.ap_desc.specs.Reading.{ReadsAs};
ghost use Rattle.ap_desc.specs.Shown.{after_space, renumbered, shown_line, shown_text};
ghost use Rattle.ap_desc.specs.Spelling.{guard_tokens, value_token, width_token};

use crate::description::{Description, Numbered};
use crate::statement::{FieldNumber, Statement, Word};
use ap_bits::NoMemory;
use std::alloc::Global;

/// The text of a description: one space between tokens, two spaces before a micro-operation, numbers in decimal, no
/// comments, and a line feed at the end of each line. It reads as the statements of `d` at the lines 1, 2 and so on.
pub fn show(alloc: Global, d: &Description) -> Result<Vec<u8>, NoMemory>
    ensures text { IfOk result (λ text. text.items ≡ shown_text d.now) }
    ensures reads { IfOk result (λ text. ReadsAs text.items (renumbered 1 d.now)) }
{
    d.rules();
    let text = text_of(alloc, d.statements())?;
    Ok(text)
}

/// The lines of statements, one after another.
fn text_of(alloc: Global, statements: &[Numbered]) -> Result<Vec<u8>, NoMemory>
    ensures { IfOk result (λ text. text.items ≡ shown_text statements.now) }
{
    let mut text = Vec::new(alloc);
    for numbered in statements {
        let line = line_of(alloc, &numbered.statement)?;
        text.extend_from_slice(line.as_bytes())?;
    }
    Ok(text)
}

/// Fields with their widths, each after a space.
fn widths_text(alloc: Global, fields: &[FieldNumber]) -> Result<String, NoMemory>
    ensures { IfOk result (λ text. string_bytes text
        ≡ flat_map after_space (map width_token fields.now)) }
{
    let mut text = String::new(alloc);
    for FieldNumber { field, number } in fields {
        let field = field.as_str();
        let token = format!(in alloc; " {field}:{number}")?;
        text.push_str(token.as_str())?;
    }
    Ok(text)
}

/// Fields with their values, each after a space.
fn values_text(alloc: Global, fields: &[FieldNumber]) -> Result<String, NoMemory>
    ensures { IfOk result (λ text. string_bytes text
        ≡ flat_map after_space (map value_token fields.now)) }
{
    let mut text = String::new(alloc);
    for FieldNumber { field, number } in fields {
        let field = field.as_str();
        let token = format!(in alloc; " {field}={number}")?;
        text.push_str(token.as_str())?;
    }
    Ok(text)
}

/// A guard, after a space.
fn guard_text(alloc: Global, guard: &Option<Word>) -> Result<String, NoMemory>
    ensures { IfOk result (λ text. string_bytes text
        ≡ flat_map after_space (guard_tokens guard.now)) }
{
    let text = match guard {
        None => String::new(alloc),
        Some(guard) => {
            let guard = guard.as_str();
            format!(in alloc; " when {guard}")?
        }
    };
    Ok(text)
}

/// The line of a statement, with the line feed that ends it. It fails only where memory runs out.
pub fn line_of(alloc: Global, statement: &Statement) -> Result<String, NoMemory>
    ensures { IfOk result (λ line. string_bytes line ≡ shown_line statement.now) }
{
    match statement {
        Statement::Stages { count } => Ok(format!(in alloc; "stages {count}\n")?),
        Statement::Address { bits } => Ok(format!(in alloc; "address {bits}\n")?),
        Statement::Word { bits } => Ok(format!(in alloc; "word {bits}\n")?),
        Statement::Transfer { stage, slots } => Ok(format!(in alloc;
            "transfer {stage} {slots}\n"
        )?),
        Statement::Reg { name, width, reset } => {
            let name = name.as_str();
            Ok(format!(in alloc; "reg {name} {width} {reset}\n")?)
        }
        Statement::File {
            name,
            width,
            cells,
            reads,
            writes,
        } => {
            let name = name.as_str();
            Ok(format!(in alloc; "file {name} {width} {cells} {reads} {writes}\n")?)
        }
        Statement::Mem {
            name,
            address,
            width,
        } => {
            let name = name.as_str();
            Ok(format!(in alloc; "mem {name} {address} {width}\n")?)
        }
        Statement::In { name, width } => {
            let name = name.as_str();
            Ok(format!(in alloc; "in {name} {width}\n")?)
        }
        Statement::Unit { name, kind, width } => {
            let name = name.as_str();
            let kind = kind.as_str();
            Ok(format!(in alloc; "unit {name} {kind} {width}\n")?)
        }
        _ => instruction_line(alloc, statement),
    }
}

/// The line of a format, or of what an instruction begins, ends or does without a new local.
fn instruction_line(alloc: Global, statement: &Statement) -> Result<String, NoMemory>
    requires { IsOfInstructions statement.now }
    ensures { IfOk result (λ line. string_bytes line ≡ shown_line statement.now) }
{
    match statement {
        Statement::Format { name, fields } => {
            let name = name.as_str();
            let fields = widths_text(alloc, fields.as_slice())?;
            let fields = fields.as_str();
            Ok(format!(in alloc; "format {name}{fields}\n")?)
        }
        Statement::Instr {
            name,
            format,
            fixed,
        } => {
            let name = name.as_str();
            let format = format.as_str();
            let fixed = values_text(alloc, fixed.as_slice())?;
            let fixed = fixed.as_str();
            Ok(format!(in alloc; "instr {name} {format}{fixed}\n")?)
        }
        Statement::WriteFile {
            stage,
            file,
            port,
            index,
            value,
            guard,
        } => {
            let file = file.as_str();
            let index = index.as_str();
            let value = value.as_str();
            let guard = guard_text(alloc, guard)?;
            let guard = guard.as_str();
            Ok(format!(in alloc; "  {stage} {file}.w{port} {index} {value}{guard}\n")?)
        }
        Statement::WriteRegister {
            stage,
            reg,
            value,
            guard,
        } => {
            let reg = reg.as_str();
            let value = value.as_str();
            let guard = guard_text(alloc, guard)?;
            let guard = guard.as_str();
            Ok(format!(in alloc; "  {stage} {reg} <- {value}{guard}\n")?)
        }
        Statement::WriteMemory {
            stage,
            mem,
            at,
            value,
            guard,
        } => {
            let mem = mem.as_str();
            let at = at.as_str();
            let value = value.as_str();
            let guard = guard_text(alloc, guard)?;
            let guard = guard.as_str();
            Ok(format!(in alloc; "  {stage} {mem}.write {at} {value}{guard}\n")?)
        }
        Statement::Branch {
            stage,
            cond,
            target,
        } => {
            let cond = cond.as_str();
            let target = target.as_str();
            Ok(format!(in alloc; "  {stage} branch {cond} {target}\n")?)
        }
        Statement::Jump { stage, target } => {
            let target = target.as_str();
            Ok(format!(in alloc; "  {stage} jump {target}\n")?)
        }
        Statement::End => Ok(format!(in alloc; "end\n")?),
        _ => read_line(alloc, statement),
    }
}

/// The line of a micro-operation that reads something into a new local or computes it.
fn read_line(alloc: Global, statement: &Statement) -> Result<String, NoMemory>
    requires { Assigns statement.now }
    ensures { IfOk result (λ line. string_bytes line ≡ shown_line statement.now) }
{
    match statement {
        Statement::Compute {
            stage,
            to,
            unit,
            op,
            a,
            b,
        } => {
            let to = to.as_str();
            let unit = unit.as_str();
            let op = op.as_str();
            let a = a.as_str();
            let b = b.as_str();
            Ok(format!(in alloc; "  {stage} {to} = {unit}.{op} {a} {b}\n")?)
        }
        Statement::ReadFile {
            stage,
            to,
            file,
            port,
            index,
        } => {
            let to = to.as_str();
            let file = file.as_str();
            let index = index.as_str();
            Ok(format!(in alloc; "  {stage} {to} = {file}.r{port} {index}\n")?)
        }
        Statement::ReadRegister { stage, to, reg } => {
            let to = to.as_str();
            let reg = reg.as_str();
            Ok(format!(in alloc; "  {stage} {to} = {reg}\n")?)
        }
        Statement::ReadMemory { stage, to, mem, at } => {
            let to = to.as_str();
            let mem = mem.as_str();
            let at = at.as_str();
            Ok(format!(in alloc; "  {stage} {to} = {mem}.read {at}\n")?)
        }
        Statement::ReadInput { stage, to, input } => {
            let to = to.as_str();
            let input = input.as_str();
            Ok(format!(in alloc; "  {stage} {to} = in {input}\n")?)
        }
        _ => wiring_line(alloc, statement),
    }
}

/// The line of a micro-operation that makes a new local of constants and other locals.
fn wiring_line(alloc: Global, statement: &Statement) -> Result<String, NoMemory>
    requires { IsWiring statement.now }
    ensures { IfOk result (λ line. string_bytes line ≡ shown_line statement.now) }
{
    match statement {
        Statement::Const {
            stage,
            to,
            width,
            value,
        } => {
            let to = to.as_str();
            Ok(format!(in alloc; "  {stage} {to} = const {width} {value}\n")?)
        }
        Statement::Zext {
            stage,
            to,
            width,
            a,
        } => {
            let to = to.as_str();
            let a = a.as_str();
            Ok(format!(in alloc; "  {stage} {to} = zext {width} {a}\n")?)
        }
        Statement::Sext {
            stage,
            to,
            width,
            a,
        } => {
            let to = to.as_str();
            let a = a.as_str();
            Ok(format!(in alloc; "  {stage} {to} = sext {width} {a}\n")?)
        }
        Statement::Slice {
            stage,
            to,
            high,
            low,
            a,
        } => {
            let to = to.as_str();
            let a = a.as_str();
            Ok(format!(in alloc; "  {stage} {to} = slice {high} {low} {a}\n")?)
        }
        Statement::Cat { stage, to, a, b } => {
            let to = to.as_str();
            let a = a.as_str();
            let b = b.as_str();
            Ok(format!(in alloc; "  {stage} {to} = cat {a} {b}\n")?)
        }
        _ => unreachable!(),
    }
}
