//! Each line of the small text dropped, doubled and exchanged with its neighbour, and lines in another's place.
use crate::texts::{Due, expect, gate, small, turned_gate};
use std::alloc::Global;
use std::process::Abort;
use std::test::Fail;

/// Adds a line to a text.
fn push(text: &mut String, line: &str) -> Result<(), Fail> {
    text.push_str(line)?;
    text.push_str("\n")?;
    Ok(())
}

/// The small text without the line of this place, counted from 0.
fn text_without(alloc: Global, place: usize) -> Result<String, Fail> {
    let mut text = String::new(alloc);
    for (i, line) in small().lines().enumerate() {
        if i != place {
            push(&mut text, line)?;
        }
    }
    Ok(text)
}

/// The small text with the line of this place twice.
fn text_doubled(alloc: Global, place: usize) -> Result<String, Fail> {
    let mut text = String::new(alloc);
    for (i, line) in small().lines().enumerate() {
        push(&mut text, line)?;
        if i == place {
            push(&mut text, line)?;
        }
    }
    Ok(text)
}

/// The line of the small text at this place.
fn line_at(place: usize) -> &'static str {
    match small().lines().nth(place) {
        Some(line) => line,
        None => "",
    }
}

/// The small text with the line of this place after the next one.
fn text_exchanged(alloc: Global, place: usize) -> Result<String, Fail> {
    let mut text = String::new(alloc);
    for (i, line) in small().lines().enumerate() {
        if i != place {
            push(&mut text, line)?;
        }
        if i > 0 && i - 1 == place {
            push(&mut text, line_at(place))?;
        }
    }
    Ok(text)
}

/// What the text without each of its lines is, from the first line to the last.
fn without() -> [Due; 23] {
    [
        Some(("V1", 1)),
        Some(("V1", 2)),
        Some(("V1", 3)),
        Some(("V2", 16)),
        Some(("V2", 20)),
        None,
        Some(("V2", 17)),
        Some(("V2", 18)),
        Some(("V2", 19)),
        Some(("V1", 10)),
        Some(("V1", 11)),
        Some(("V2", 14)),
        Some(("V2", 15)),
        Some(("V2", 15)),
        Some(("V5", 12)),
        Some(("V5", 13)),
        Some(("V5", 4)),
        Some(("V5", 7)),
        Some(("V5", 8)),
        Some(("V5", 9)),
        Some(("V5", 10)),
        Some(("V5", 14)),
        Some(("V1", 23)),
    ]
}

/// What the text with each of its lines twice is.
fn doubled() -> [Due; 23] {
    [
        Some(("V1", 2)),
        Some(("V1", 3)),
        Some(("V1", 4)),
        Some(("V3", 5)),
        Some(("V3", 6)),
        Some(("V3", 7)),
        Some(("V3", 8)),
        Some(("V3", 9)),
        Some(("V3", 10)),
        Some(("V1", 11)),
        Some(("V1", 12)),
        Some(("V3", 13)),
        Some(("V3", 14)),
        Some(("V3", 15)),
        Some(("V4", 16)),
        Some(("V4", 17)),
        Some(("V4", 18)),
        Some(("V4", 19)),
        Some(("V4", 20)),
        Some(("V4", 21)),
        Some(("V4", 22)),
        Some(("V4", 23)),
        Some(("V1", 24)),
    ]
}

/// What the text with each of its lines after the next one is.
fn exchanged() -> [Due; 22] {
    [
        Some(("V1", 1)),
        Some(("V1", 2)),
        Some(("V1", 3)),
        None,
        None,
        None,
        None,
        None,
        Some(("V1", 10)),
        Some(("V1", 10)),
        Some(("V1", 11)),
        None,
        Some(("V1", 14)),
        Some(("V1", 15)),
        None,
        None,
        None,
        None,
        None,
        None,
        Some(("V1", 22)),
        Some(("V1", 23)),
    ]
}

#[test]
fn lines_dropped(rt: HostRuntime) -> Result<(), Fail> {
    let alloc = rt.alloc();
    for (place, due) in without().iter().enumerate() {
        let text = text_without(alloc, place)?;
        expect(&rt, alloc, text.as_bytes(), *due, "a line dropped")?;
    }
    Ok(())
}

#[test]
fn lines_doubled(rt: HostRuntime) -> Result<(), Fail> {
    let alloc = rt.alloc();
    for (place, due) in doubled().iter().enumerate() {
        let text = text_doubled(alloc, place)?;
        expect(&rt, alloc, text.as_bytes(), *due, "a line doubled")?;
    }
    Ok(())
}

#[test]
fn lines_exchanged(rt: HostRuntime) -> Result<(), Fail> {
    let alloc = rt.alloc();
    for (place, due) in exchanged().iter().enumerate() {
        let text = text_exchanged(alloc, place)?;
        expect(&rt, alloc, text.as_bytes(), *due, "a line exchanged")?;
    }
    Ok(())
}

/// Every proper front of the small text is cut short in the line where it ends.
#[test]
fn proper_fronts(rt: HostRuntime) -> Result<(), Fail> {
    let alloc = rt.alloc();
    let whole = small().as_bytes();
    for place in 0..whole.len() {
        let front = &whole[..place];
        let feeds = front.iter().filter(|byte| **byte == b'\n').count();
        expect(&rt, alloc, front, Some(("V1", feeds + 1)), "a front")?;
    }
    expect(&rt, alloc, whole, None, "the whole")
}

/// A line of the small text, what stands in its place, and the fault that this makes.
type Row = (&'static str, &'static str, Due);

/// What isn't of the form of a line.
fn changes_of_form() -> [Row; 26] {
    [
        ("n0 = 4'd1", "n0 =  4'd1", Some(("V1", 15))),
        ("  assign n0", "   assign n0", Some(("V1", 15))),
        ("  assign n0", "\tassign n0", Some(("V1", 15))),
        ("n0 = 4'd1;", "n0 = 4'd1; ", Some(("V1", 15))),
        ("n0 = 4'd1;", "n0 = 4'd1;\r", Some(("V1", 15))),
        ("n0 = 4'd1", "n0 = 04'd1", Some(("V1", 15))),
        ("n0 = 4'd1", "n0 = 4'd01", Some(("V1", 15))),
        ("n0 = 4'd1", "n0 = 0'd0", Some(("V1", 15))),
        ("n0 = 4'd1", "n0 = 65'd0", Some(("V1", 15))),
        ("n0 = 4'd1", "n0 = 4'h1", Some(("V1", 15))),
        (
            "n0 = 4'd1",
            "n0 = 4'd18446744073709551616",
            Some(("V1", 15)),
        ),
        ("n0 = 4'd1", "n0 = 4'd0x1", Some(("V1", 15))),
        ("n0 = 4'd1", "n0 = clk", Some(("V1", 15))),
        ("n0 = 4'd1", "n0 = pc+n1", Some(("V1", 15))),
        ("n0 = 4'd1", "n0 = pc * n1", Some(("V1", 15))),
        (
            "n0 = 4'd1",
            "n0 = pc[18446744073709551616:0]",
            Some(("V1", 15)),
        ),
        ("n0 = 4'd1", "n0 = pc[3]", Some(("V1", 15))),
        ("wire [3:0] n0", "wire [03:0] n0", Some(("V1", 12))),
        ("wire [3:0] n0", "wire [64:0] n0", Some(("V1", 12))),
        ("wire [3:0] n0", "wire [4:1] n0", Some(("V1", 12))),
        ("wire [3:0] n0", "wire [3:0] _n0", Some(("V1", 12))),
        ("wire [3:0] n0", "wire [3:0] if", Some(("V1", 12))),
        ("output [3:0] iaddr,", "input clk,", Some(("V1", 4))),
        ("else pc <= n1", "else n0 <= n1", Some(("V1", 22))),
        ("else pc <= n1", "else pc <= rst", Some(("V1", 22))),
        ("module top", "module tip", Some(("V1", 1))),
    ]
}

/// What names, drivers and widths make a fault of.
fn changes_of_meaning() -> [Row; 25] {
    [
        ("n0 = 4'd1", "clk = n0", Some(("V4", 15))),
        (
            "if (rst) pc <= 4'd0; else pc",
            "if (rst) clk <= 4'd0; else clk",
            Some(("V4", 22)),
        ),
        (
            "if (rst) pc <= 4'd0; else pc",
            "if (rst) n0 <= 4'd0; else n0",
            Some(("V4", 22)),
        ),
        ("n1 = pc + n0", "n0 = pc", Some(("V4", 16))),
        ("n1 = pc + n0", "pc = n0", Some(("V4", 16))),
        ("n1 = pc + n0", "idata = pc", Some(("V4", 16))),
        ("n1 = pc + n0", "n1 = pc + n2", Some(("V2", 16))),
        ("n1 = pc + n0", "n1 = pc", None),
        ("n0 = 4'd1", "n0 = n1", None),
        ("wire [3:0] n1", "wire [3:0] n0", Some(("V2", 16))),
        ("reg [3:0] pc", "reg [3:0] clk", Some(("V2", 16))),
        (
            "wire [3:0] n1;",
            "wire [3:0] n1;\n  wire [3:0] rst;",
            Some(("V3", 14)),
        ),
        (
            "wire [3:0] n1;",
            "wire [3:0] n1;\n  wire [3:0] more;",
            Some(("V5", 14)),
        ),
        ("input [0:0] mwait", "input [1:0] mwait", None),
        ("w_R_v = idata", "w_R_v = iaddr", Some(("V6", 21))),
        ("n0 = 4'd1", "n0 = 8'd300", Some(("V6", 15))),
        ("n0 = 4'd1", "n0 = 8'd1", Some(("V6", 15))),
        ("n0 = 4'd1", "n0 = 4'd16", Some(("V6", 15))),
        ("n0 = 4'd1", "n0 = pc[0:3]", Some(("V6", 15))),
        ("n0 = 4'd1", "n0 = pc[4:1]", Some(("V6", 15))),
        (
            "n0 = 4'd1",
            "n0 = pc[18446744073709551615:0]",
            Some(("V6", 15)),
        ),
        (
            "n0 = 4'd1",
            "n0 = pc[3:18446744073709551615]",
            Some(("V6", 15)),
        ),
        ("n0 = 4'd1", "n0 = pc == n1", Some(("V6", 15))),
        ("pc <= 4'd0", "pc <= 5'd0", Some(("V6", 22))),
        ("else pc <= n1", "else pc <= idata", Some(("V6", 22))),
    ]
}

/// Changes in which right sides of every form fit.
fn changes_that_fit() -> [Row; 14] {
    [
        ("n0 = 4'd1", "n0 = pc", None),
        ("n0 = 4'd1", "n0 = ~pc", None),
        ("n0 = 4'd1", "n0 = pc - n1", None),
        ("n0 = 4'd1", "n0 = pc & n1", None),
        ("n0 = 4'd1", "n0 = pc | n1", None),
        ("n0 = 4'd1", "n0 = pc ^ n1", None),
        ("stall = 1'd0", "stall = pc == n1", None),
        ("stall = 1'd0", "stall = pc < n1", None),
        ("n0 = 4'd1", "n0 = stall ? pc : n1", None),
        ("w_R_v = idata", "w_R_v = {pc, n1}", None),
        ("n0 = 4'd1", "n0 = idata[6:3]", None),
        ("stall = 1'd0", "stall = idata[7:7]", None),
        ("n0 = 4'd1", "n0 = 4'd15", None),
        ("[3:0] pc", "[3:0] and", Some(("V2", 16))),
    ]
}

/// Checks the fault of each change of a table.
fn expect_faults(rt: &impl Abort, alloc: Global, rows: &[Row]) -> Result<(), Fail> {
    for (from, to, due) in rows {
        let text = small().replace(alloc, from, to)?;
        expect(rt, alloc, text.as_bytes(), *due, to)?;
    }
    Ok(())
}

#[test]
fn lines_changed(rt: HostRuntime) -> Result<(), Fail> {
    let alloc = rt.alloc();
    expect_faults(&rt, alloc, &changes_of_form())?;
    expect_faults(&rt, alloc, &changes_of_meaning())?;
    expect_faults(&rt, alloc, &changes_that_fit())?;
    expect(&rt, alloc, b"", Some(("V1", 1)), "nothing")
}

/// Instances of the gate, before the last line of the small text, and the fault that they make: the small
/// text begins in line 9, and its last line is 31.
fn instances() -> [(&'static str, Due); 17] {
    [
        ("gate g (.clk(clk), .rst(rst), .a(pc), .y(x));", None),
        (
            "gate g (.clk(clk), .rst(rst), .a(pc), .y(x)) ;",
            Some(("V1", 32)),
        ),
        (
            "gate g (.rst(rst), .clk(clk), .a(pc), .y(x));",
            Some(("V1", 32)),
        ),
        (
            "gate g (.clk(clk), .rst(rst), .a(clk), .y(x));",
            Some(("V1", 32)),
        ),
        (
            "wire g (.clk(clk), .rst(rst), .a(pc), .y(x));",
            Some(("V1", 32)),
        ),
        ("gate g (.clk(clk), .rst(rst));", Some(("V2", 32))),
        ("gate g (.clk(clk), .rst(rst), .a(pc));", Some(("V2", 32))),
        (
            "gate g (.clk(clk), .rst(rst), .y(x), .a(pc));",
            Some(("V2", 32)),
        ),
        (
            "gate g (.clk(clk), .rst(rst), .a(pc), .y(x), .z(pc));",
            Some(("V2", 32)),
        ),
        (
            "gates g (.clk(clk), .rst(rst), .a(pc), .y(x));",
            Some(("V2", 32)),
        ),
        (
            "top g (.clk(clk), .rst(rst), .a(pc), .y(x));",
            Some(("V2", 32)),
        ),
        (
            "gate g (.clk(clk), .rst(rst), .a(g), .y(x));",
            Some(("V2", 32)),
        ),
        (
            "gate pc (.clk(clk), .rst(rst), .a(pc), .y(x));",
            Some(("V3", 32)),
        ),
        (
            "gate clk (.clk(clk), .rst(rst), .a(pc), .y(x));",
            Some(("V3", 32)),
        ),
        (
            "gate g (.clk(clk), .rst(rst), .a(pc), .y(n0));",
            Some(("V4", 32)),
        ),
        (
            "gate g (.clk(clk), .rst(rst), .a(pc), .y(pc));",
            Some(("V4", 32)),
        ),
        (
            "gate g (.clk(clk), .rst(rst), .a(idata), .y(x));",
            Some(("V6", 32)),
        ),
    ]
}

/// These modules, and the small text with one more wire x and this instance.
fn with_instance(alloc: Global, modules: &[&str], instance: &str) -> Result<String, Fail> {
    let with_wire = small().replace(
        alloc,
        "  wire [3:0] n1;\n",
        "  wire [3:0] n1;\n  wire [3:0] x;\n",
    )?;
    let line = format!(in alloc; "  {instance}\nendmodule\n")?;
    let top = with_wire
        .as_str()
        .replace(alloc, "endmodule\n", line.as_str())?;
    let mut text = String::new(alloc);
    for module in modules {
        text.push_str(module)?;
    }
    text.push_str(top.as_str())?;
    Ok(text)
}

#[test]
fn instances_of_a_gate(rt: HostRuntime) -> Result<(), Fail> {
    let alloc = rt.alloc();
    for (instance, due) in instances() {
        let text = with_instance(alloc, &[gate()], instance)?;
        expect(&rt, alloc, text.as_bytes(), due, instance)?;
    }
    Ok(())
}

/// An instance is of the first module of its name, and names that lines use are looked at before names that
/// are declared twice.
#[test]
fn instances_of_two_gates(rt: HostRuntime) -> Result<(), Fail> {
    let alloc = rt.alloc();
    let rows: [(&str, Due); 2] = [
        (
            "gate g (.clk(clk), .rst(rst), .a(pc), .y(x));",
            Some(("V3", 9)),
        ),
        (
            "gate g (.clk(clk), .rst(rst), .y(x), .a(pc));",
            Some(("V2", 40)),
        ),
    ];
    for (instance, due) in rows {
        let text = with_instance(alloc, &[gate(), turned_gate()], instance)?;
        expect(&rt, alloc, text.as_bytes(), due, instance)?;
    }
    Ok(())
}

/// Texts of several modules, by these parts, and the fault that they have.
#[test]
fn several_modules(rt: HostRuntime) -> Result<(), Fail> {
    let alloc = rt.alloc();
    let rows: [(&[&str], Due); 5] = [
        (&[gate(), small()], None),
        (&[small(), gate()], Some(("V1", 24))),
        (&[gate(), gate(), small()], Some(("V3", 9))),
        (&[small(), small()], Some(("V3", 24))),
        (&[gate()], Some(("V1", 1))),
    ];
    for (parts, due) in rows {
        let mut text = String::new(alloc);
        for part in parts {
            text.push_str(part)?;
        }
        expect(&rt, alloc, text.as_bytes(), due, "several modules")?;
    }
    Ok(())
}
