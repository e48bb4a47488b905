//! Appends the lines of a netlist's text.
ghost use Rattle.std.specs.Prelude.{◌≡◌, ◌≤◌, ◌<◌, ◌++◌, codes, length, Some, None, IfSome, IfNone, OnOk};
ghost use Rattle.std.specs.List.{AllByRecursion as Each};
ghost use Rattle.ap_image.specs.Kept.{IsKept};
ghost use Rattle.ap_net.specs.declared.cell.Wire.{Wire as DeclaredWire};
ghost use Rattle.ap_net.specs.Cells.{operands};
ghost use Rattle.ap_net.specs.Modules.{module_named, nets_of};
ghost use Rattle.ap_net.specs.Text.{always_line, assign_line, cell_text, connection_text, connections_text, constant_text, instance_line, ports_in, reg_line, sign, wire_line};
ghost use Rattle.ap_vw.specs.NetLines.{edge_text, port_line, reset_text};

use crate::piece::Piece::{Number, Text};
use crate::piece::put;
use ap_bits::NoMemory;
use ap_net::cell::{Cell, TwoOp, Wire};
use ap_net::module::Module;
use ap_net::net::{Assign, Instance, Net, Next, Port, RegNet};

/// Appends the first line of a module.
pub(crate) fn put_module(name: &str, out: &mut Vec<u8>) -> Result<(), NoMemory>
    ensures ok { OnOk result (out.new.items
        ≡ out.old.items ++ (codes "module " ++ name.now ++ codes " (\n")) }
    ensures kept { IsKept out.old.items out.new.items }
{
    put(&[Text("module "), Text(name), Text(" (\n")], out)?;
    Ok(())
}

/// Appends the line of a port, with a comma where more ports follow.
pub(crate) fn put_port(port: &Port, more: bool, out: &mut Vec<u8>) -> Result<(), NoMemory>
    requires { 1 ≤ port.now.width }
    ensures ok { OnOk result (out.new.items ≡ out.old.items ++ port_line port.now more) }
    ensures kept { IsKept out.old.items out.new.items }
{
    let high = u64::from(port.width - 1);
    let name = port.name.as_str();
    let way = if port.output { "  output " } else { "  input " };
    let end = if more { ",\n" } else { "\n" };
    put(
        &[
            Text(way),
            Text("["),
            Number(high),
            Text(":0] "),
            Text(name),
            Text(end),
        ],
        out,
    )?;
    Ok(())
}

/// Appends the line of a wire.
pub(crate) fn put_wire(wire: &Net, out: &mut Vec<u8>) -> Result<(), NoMemory>
    requires { 1 ≤ wire.now.width }
    ensures ok { OnOk result (out.new.items ≡ out.old.items ++ wire_line wire.now) }
    ensures kept { IsKept out.old.items out.new.items }
{
    let high = u64::from(wire.width - 1);
    let name = wire.name.as_str();
    put(
        &[
            Text("  wire ["),
            Number(high),
            Text(":0] "),
            Text(name),
            Text(";\n"),
        ],
        out,
    )?;
    Ok(())
}

/// Appends the line of a register.
pub(crate) fn put_reg(reg: &RegNet, out: &mut Vec<u8>) -> Result<(), NoMemory>
    requires { 1 ≤ reg.now.width }
    ensures ok { OnOk result (out.new.items ≡ out.old.items ++ reg_line reg.now) }
    ensures kept { IsKept out.old.items out.new.items }
{
    let high = u64::from(reg.width - 1);
    let name = reg.name.as_str();
    put(
        &[
            Text("  reg ["),
            Number(high),
            Text(":0] "),
            Text(name),
            Text(";\n"),
        ],
        out,
    )?;
    Ok(())
}

/// An operator with the blanks round it.
fn sign_of(op: TwoOp) -> &'static str
    ensures { result.now ≡ sign op }
{
    match op {
        TwoOp::Add => " + ",
        TwoOp::Sub => " - ",
        TwoOp::And => " & ",
        TwoOp::Or => " | ",
        TwoOp::Xor => " ^ ",
        TwoOp::Eq => " == ",
        TwoOp::Ltu => " < ",
    }
}

/// Appends a constant of `width` bits.
fn put_constant(width: u32, value: u64, out: &mut Vec<u8>) -> Result<(), NoMemory>
    ensures ok { OnOk result (out.new.items ≡ out.old.items ++ constant_text width value) }
    ensures kept { IsKept out.old.items out.new.items }
{
    put(&[Number(u64::from(width)), Text("'d"), Number(value)], out)?;
    Ok(())
}

/// Appends the right side of an assign whose result has `width` bits.
fn put_cell(whole: &Module, width: u32, cell: Cell, out: &mut Vec<u8>) -> Result<(), NoMemory>
    requires { Each (λ (o : DeclaredWire). o.number < length (nets_of whole.now)) (operands cell) }
    ensures ok { OnOk result (out.new.items ≡ out.old.items ++ cell_text (nets_of whole.now) width cell) }
    ensures kept { IsKept out.old.items out.new.items }
{
    match cell {
        Cell::Const(value) => put_constant(width, value, out),
        Cell::Copy(a) => put(&[Text(whole.net_name(a.number))], out),
        Cell::Not(a) => put(&[Text("~"), Text(whole.net_name(a.number))], out),
        Cell::Two(op, a, b) => {
            let a = whole.net_name(a.number);
            let b = whole.net_name(b.number);
            put(&[Text(a), Text(sign_of(op)), Text(b)], out)
        }
        Cell::Choose(s, a, b) => {
            let s = whole.net_name(s.number);
            let a = whole.net_name(a.number);
            let b = whole.net_name(b.number);
            put(&[Text(s), Text(" ? "), Text(a), Text(" : "), Text(b)], out)
        }
        Cell::Cat(a, b) => {
            let a = whole.net_name(a.number);
            let b = whole.net_name(b.number);
            put(&[Text("{"), Text(a), Text(", "), Text(b), Text("}")], out)
        }
        Cell::Slice(a, high, low) => {
            let a = whole.net_name(a.number);
            let high = u64::from(high);
            let low = u64::from(low);
            put(
                &[
                    Text(a),
                    Text("["),
                    Number(high),
                    Text(":"),
                    Number(low),
                    Text("]"),
                ],
                out,
            )
        }
    }
}

/// Appends the line of an assign.
pub(crate) fn put_assign(whole: &Module, assign: Assign, out: &mut Vec<u8>) -> Result<(), NoMemory>
    requires to { assign.to.number < length (nets_of whole.now) }
    requires operands { Each (λ (o : DeclaredWire). o.number < length (nets_of whole.now))
        (operands assign.cell) }
    ensures ok { OnOk result (out.new.items
        ≡ out.old.items ++ assign_line (nets_of whole.now) assign) }
    ensures kept { IsKept out.old.items out.new.items }
{
    put(
        &[
            Text("  assign "),
            Text(whole.net_name(assign.to.number)),
            Text(" = "),
        ],
        out,
    )?;
    put_cell(whole, assign.to.width, assign.cell, out)?;
    put(&[Text(";\n")], out)?;
    Ok(())
}

/// Appends what a register takes at the reset edge.
fn put_reset(whole: &Module, next: Next, out: &mut Vec<u8>) -> Result<(), NoMemory>
    requires { next.register.number < length (nets_of whole.now) }
    ensures ok { OnOk result (out.new.items ≡ out.old.items ++ reset_text (nets_of whole.now) next) }
    ensures kept { IsKept out.old.items out.new.items }
{
    put(
        &[Text(whole.net_name(next.register.number)), Text(" <= ")],
        out,
    )?;
    put_constant(
        next.register.width,
        whole.net_reset(next.register.number),
        out,
    )?;
    put(&[Text(";")], out)?;
    Ok(())
}

/// Appends what a register takes at any other edge.
fn put_edge(whole: &Module, next: Next, out: &mut Vec<u8>) -> Result<(), NoMemory>
    requires register { next.register.number < length (nets_of whole.now) }
    requires from { next.from.number < length (nets_of whole.now) }
    ensures ok { OnOk result (out.new.items ≡ out.old.items ++ edge_text (nets_of whole.now) next) }
    ensures kept { IsKept out.old.items out.new.items }
{
    let register = whole.net_name(next.register.number);
    let from = whole.net_name(next.from.number);
    put(&[Text(register), Text(" <= "), Text(from), Text(";")], out)?;
    Ok(())
}

/// Appends the line of a register's driver.
pub(crate) fn put_next(whole: &Module, next: Next, out: &mut Vec<u8>) -> Result<(), NoMemory>
    requires register { next.register.number < length (nets_of whole.now) }
    requires from { next.from.number < length (nets_of whole.now) }
    ensures ok { OnOk result (out.new.items
        ≡ out.old.items ++ always_line (nets_of whole.now) next) }
    ensures kept { IsKept out.old.items out.new.items }
{
    put(&[Text("  always @(posedge clk) if (rst) ")], out)?;
    put_reset(whole, next, out)?;
    put(&[Text(" else ")], out)?;
    put_edge(whole, next, out)?;
    put(&[Text("\n")], out)?;
    Ok(())
}

/// Appends a port of an instance with the net that it is connected to.
fn put_connection<'a>(port: &'a Port, net: &'a str, out: &mut Vec<u8>) -> Result<(), NoMemory>
    ensures ok { OnOk result (out.new.items ≡ out.old.items ++ connection_text port.now net.now) }
    ensures kept { IsKept out.old.items out.new.items }
{
    put(
        &[
            Text(", ."),
            Text(port.name.as_str()),
            Text("("),
            Text(net),
            Text(")"),
        ],
        out,
    )?;
    Ok(())
}

/// Appends the ports of an instance, each with the net that it is connected to.
fn put_connections(
    whole: &Module,
    ports: &[Port],
    nets: &[Wire],
    out: &mut Vec<u8>,
) -> Result<(), NoMemory>
    requires same { length nets.now ≡ length ports.now }
    requires nets { Each (λ (w : DeclaredWire). w.number < length (nets_of whole.now)) nets.now }
    ensures ok { OnOk result (out.new.items
        ≡ out.old.items ++ connections_text (nets_of whole.now) ports.now nets.now) }
    ensures kept { IsKept out.old.items out.new.items }
{
    for (i, port) in ports.iter().enumerate() {
        put_connection(port, whole.net_name(nets[i].number), out)?;
    }
    Ok(())
}

/// The first of these modules that has this name.
fn find_module<'a>(modules: &'a [Module], name: &str) -> Option<&'a Module>
    ensures some { IfSome result (λ m. module_named modules.now name.now ≡ Some m.now) }
    ensures none { IfNone result (module_named modules.now name.now ≡ None) }
{
    for whole in modules {
        if whole.name().as_str() == name {
            return Some(whole);
        }
    }
    None
}

/// The ports of the first of these modules that has this name.
fn ports_named<'a>(modules: &'a [Module], name: &str) -> &'a [Port]
    ensures { result.now ≡ ports_in (module_named modules.now name.now) }
{
    match find_module(modules, name) {
        Some(whole) => whole.ports(),
        None => &[],
    }
}

/// Appends the line of an instance as far as the connections of `clk` and `rst`.
fn put_head<'a>(kind: &'a str, name: &'a str, out: &mut Vec<u8>) -> Result<(), NoMemory>
    ensures ok { OnOk result (out.new.items ≡ out.old.items
        ++ (codes "  " ++ kind.now ++ codes " " ++ name.now ++ codes " (.clk(clk), .rst(rst)")) }
    ensures kept { IsKept out.old.items out.new.items }
{
    put(
        &[
            Text("  "),
            Text(kind),
            Text(" "),
            Text(name),
            Text(" (.clk(clk), .rst(rst)"),
        ],
        out,
    )?;
    Ok(())
}

/// Appends the line of an instance of one of these modules.
pub(crate) fn put_instance(
    modules: &[Module],
    whole: &Module,
    instance: &Instance,
    out: &mut Vec<u8>,
) -> Result<(), NoMemory>
    requires same { length instance.now.nets
        ≡ length (ports_in (module_named modules.now instance.now.module)) }
    requires nets { Each (λ (w : DeclaredWire). w.number < length (nets_of whole.now)) instance.now.nets }
    ensures ok { OnOk result (out.new.items
        ≡ out.old.items ++ instance_line modules.now (nets_of whole.now) instance.now) }
    ensures kept { IsKept out.old.items out.new.items }
{
    let module = instance.module.as_str();
    put_head(module, instance.name.as_str(), out)?;
    let ports = ports_named(modules, module);
    put_connections(whole, ports, instance.nets.as_slice(), out)?;
    put(&[Text(");\n")], out)?;
    Ok(())
}
