//! The text of a line.
ghost use Rattle.std.specs.Prelude.{◌≡◌, ◌≤◌, ◌++◌, codes, IfOk, OnOk};
ghost use Rattle.std.specs.List.{flat_map};
ghost use Rattle.std.specs.String.{string_bytes};
ghost use Rattle.ap_net.specs.Text.{clocked_text, constant_text, sign, taken_text, wire_line};
ghost use Rattle.ap_vr.specs.LineTexts.{IsLine, joined_text, line_text, named_always_line, named_assign_line, named_instance_line, port_line, register_line, right_text};

use crate::line::{Connection, Line, NamedAssign, NamedInstance, NamedNext, Right};
use ap_bits::NoMemory;
use ap_net::cell::TwoOp;
use ap_net::net::{Net, Port};
use std::alloc::Global;

/// The line of a port.
fn port_string(alloc: Global, port: &Port, more: bool) -> Result<String, NoMemory>
    requires { 1 ≤ port.now.width }
    ensures { IfOk result (λ text. string_bytes text ≡ port_line port.now more) }
{
    let high = port.width - 1;
    let name = port.name.as_str();
    let way = if port.output { "output" } else { "input" };
    let end = if more { ",\n" } else { "\n" };
    Ok(format!(in alloc; "  {way} [{high}:0] {name}{end}")?)
}

/// The line of a wire.
fn wire_string(alloc: Global, wire: &Net) -> Result<String, NoMemory>
    requires { 1 ≤ wire.now.width }
    ensures { IfOk result (λ text. string_bytes text ≡ wire_line wire.now) }
{
    let high = wire.width - 1;
    let name = wire.name.as_str();
    Ok(format!(in alloc; "  wire [{high}:0] {name};\n")?)
}

/// The line of a register.
fn register_string(alloc: Global, register: &Net) -> Result<String, NoMemory>
    requires { 1 ≤ register.now.width }
    ensures { IfOk result (λ text. string_bytes text ≡ register_line register.now) }
{
    let high = register.width - 1;
    let name = register.name.as_str();
    Ok(format!(in alloc; "  reg [{high}:0] {name};\n")?)
}

/// An operator with the blanks round it.
fn sign_of(op: TwoOp) -> &'static str
    ensures { result.now ≡ sign op }
{
    match op {
        TwoOp::Add => " + ",
        TwoOp::Sub => " - ",
        TwoOp::And => " & ",
        TwoOp::Or => " | ",
        TwoOp::Xor => " ^ ",
        TwoOp::Eq => " == ",
        TwoOp::Ltu => " < ",
    }
}

/// The right side of an assign.
fn right_string(alloc: Global, right: &Right) -> Result<String, NoMemory>
    ensures { IfOk result (λ text. string_bytes text ≡ right_text right.now) }
{
    let text = match right {
        Right::Const { width, value } => format!(in alloc; "{width}'d{value}")?,
        Right::Copy(a) => {
            let a = a.as_str();
            format!(in alloc; "{a}")?
        }
        Right::Not(a) => {
            let a = a.as_str();
            format!(in alloc; "~{a}")?
        }
        Right::Two(op, a, b) => {
            let a = a.as_str();
            let sign = sign_of(*op);
            let b = b.as_str();
            format!(in alloc; "{a}{sign}{b}")?
        }
        Right::Choose(s, a, b) => {
            let s = s.as_str();
            let a = a.as_str();
            let b = b.as_str();
            format!(in alloc; "{s} ? {a} : {b}")?
        }
        Right::Cat(a, b) => {
            let a = a.as_str();
            let b = b.as_str();
            format!(in alloc; "{{{a}, {b}}}")?
        }
        Right::Slice(a, high, low) => {
            let a = a.as_str();
            format!(in alloc; "{a}[{high}:{low}]")?
        }
    };
    Ok(text)
}

/// The line of an assign.
fn assign_string(alloc: Global, assign: &NamedAssign) -> Result<String, NoMemory>
    ensures { IfOk result (λ text. string_bytes text ≡ named_assign_line assign.now) }
{
    let to = assign.to.as_str();
    let right = right_string(alloc, &assign.right)?;
    let right = right.as_str();
    Ok(format!(in alloc; "  assign {to} = {right};\n")?)
}

/// What a register takes at the reset edge.
fn reset_string(alloc: Global, next: &NamedNext) -> Result<String, NoMemory>
    ensures { IfOk result (λ text. string_bytes text
        ≡ taken_text next.now.register (constant_text next.now.width next.now.reset)) }
{
    let register = next.register.as_str();
    let width = next.width;
    let reset = next.reset;
    Ok(format!(in alloc; "{register} <= {width}'d{reset};")?)
}

/// What a register takes at any other edge.
fn edge_string(alloc: Global, next: &NamedNext) -> Result<String, NoMemory>
    ensures { IfOk result (λ text. string_bytes text ≡ taken_text next.now.register next.now.from) }
{
    let register = next.register.as_str();
    let from = next.from.as_str();
    Ok(format!(in alloc; "{register} <= {from};")?)
}

/// The line of a register's driver.
#[tactic(auto, unfolding(ap_net::specs::Text::clocked_text))]
fn always_string(alloc: Global, next: &NamedNext) -> Result<String, NoMemory>
    ensures { IfOk result (λ text. string_bytes text ≡ named_always_line next.now) }
{
    let at_reset = reset_string(alloc, next)?;
    let at_reset = at_reset.as_str();
    let at_edge = edge_string(alloc, next)?;
    let at_edge = at_edge.as_str();
    Ok(format!(in alloc; "  always @(posedge clk) if (rst) {at_reset} else {at_edge}\n")?)
}

/// Appends a connection.
fn put_connection(alloc: Global, connection: &Connection, out: &mut String) -> Result<(), NoMemory>
    ensures { OnOk result (string_bytes out.new
        ≡ string_bytes out.old ++ joined_text connection.now) }
{
    let port = connection.port.as_str();
    let net = connection.net.as_str();
    let text = format!(in alloc; ", .{port}({net})")?;
    out.push_str(text.as_str())?;
    Ok(())
}

/// Appends connections.
fn put_connections(
    alloc: Global,
    connections: &[Connection],
    out: &mut String,
) -> Result<(), NoMemory>
    ensures { OnOk result (string_bytes out.new
        ≡ string_bytes out.old ++ flat_map joined_text connections.now) }
{
    for connection in connections {
        put_connection(alloc, connection, out)?;
    }
    Ok(())
}

/// The line of an instance as far as the connections of `clk` and `rst`.
fn instance_head(alloc: Global, kind: &str, name: &str) -> Result<String, NoMemory>
    ensures { IfOk result (λ text. string_bytes text
        ≡ codes "  " ++ kind.now ++ codes " " ++ name.now ++ codes " (.clk(clk), .rst(rst)") }
{
    Ok(format!(in alloc; "  {kind} {name} (.clk(clk), .rst(rst)")?)
}

/// The line of an instance.
fn instance_string(alloc: Global, instance: &NamedInstance) -> Result<String, NoMemory>
    ensures { IfOk result (λ text. string_bytes text ≡ named_instance_line instance.now) }
{
    let module = instance.module.as_str();
    let name = instance.name.as_str();
    let mut text = instance_head(alloc, module, name)?;
    put_connections(alloc, instance.connections.as_slice(), &mut text)?;
    text.push_str(");\n")?;
    Ok(text)
}

/// The first line of a module.
fn module_string(alloc: Global, name: &str) -> Result<String, NoMemory>
    ensures { IfOk result (λ text. string_bytes text ≡ codes "module " ++ name.now ++ codes " (\n") }
{
    Ok(format!(in alloc; "module {name} (\n")?)
}

/// The text of a line.
pub(crate) fn line_string(alloc: Global, line: &Line) -> Result<String, NoMemory>
    requires { IsLine line.now }
    ensures { IfOk result (λ text. string_bytes text ≡ line_text line.now) }
{
    let text = match line {
        Line::Module(name) => module_string(alloc, name.as_str())?,
        Line::Clock => String::from_str(alloc, "  input clk,\n")?,
        Line::Reset => String::from_str(alloc, "  input rst,\n")?,
        Line::Port { port, more } => port_string(alloc, port, *more)?,
        Line::Close => String::from_str(alloc, ");\n")?,
        Line::Wire(wire) => wire_string(alloc, wire)?,
        Line::Reg(register) => register_string(alloc, register)?,
        Line::Assign(assign) => assign_string(alloc, assign)?,
        Line::Always(next) => always_string(alloc, next)?,
        Line::Instance(instance) => instance_string(alloc, instance)?,
        Line::End => String::from_str(alloc, "endmodule\n")?,
    };
    Ok(text)
}
