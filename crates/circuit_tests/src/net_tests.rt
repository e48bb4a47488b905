ghost use Rattle.std.specs.Prelude.{◌≡◌, ◌∷◌, ◌≤◌, [], codes, slice_index, IfOk};
ghost use Rattle.ap_net.specs.Cells.{CellFits, two_value, cell_value};
ghost use Rattle.circuit_tests.specs.Examples.{wire, three_inputs, inverter, over_inverter, inverter_opened, inverter_text};
ghost use Rattle.ap_net.specs.Flat.{opened, value_in_part, register_in, reset_in};
ghost use Rattle.ap_net.specs.Text.{netlist_text};

use ap_net::NoMemory;
use ap_net::builder::Builder;
use ap_net::cell::{Cell, TwoOp, Wire};
use ap_net::module::{Module, Netlist};
use ap_net::net::Role;
use ap_vw::{Printer, write};
use std::alloc::Global;
use std::process::Abort;
use std::test::Fail;

/// The text of a netlist of this one module.
fn text_of(alloc: Global, top: Module) -> Result<Vec<u8>, NoMemory>
    requires name { top.name ≡ codes "top" }
    requires alone { top.instances ≡ [] }
{
    let net = Netlist::of_top(alloc, top)?;
    let mut text = Vec::new(alloc);
    write(&net, &mut text)?;
    Ok(text)
}

/// A program counter and one write group: the least that a processor has.
const COUNTER: &str = "module top (
  input clk,
  input rst,
  output [3:0] iaddr,
  input [7:0] idata,
  input [0:0] mwait,
  output [0:0] stall,
  output [0:0] kill,
  output [0:0] w_R_e,
  output [7:0] w_R_v
);
  wire [3:0] n0;
  wire [3:0] n1;
  reg [3:0] pc;
  assign n0 = 4'd1;
  assign n1 = pc + n0;
  assign iaddr = pc;
  assign stall = 1'd0;
  assign kill = 1'd0;
  assign w_R_e = 1'd1;
  assign w_R_v = idata;
  always @(posedge clk) if (rst) pc <= 4'd0; else pc <= n1;
endmodule
";

#[tactic(auto, using(crate::proofs::Tested::tested))]
fn counter_module(alloc: Global) -> Result<Module, NoMemory>
    ensures name { IfOk result (λ top. top.name ≡ codes "top") }
    ensures alone { IfOk result (λ top. top.instances ≡ []) }
{
    let mut b = Builder::new(alloc, b"top")?;
    let iaddr = b.output(b"iaddr", 4)?;
    let idata = b.input(b"idata", 8)?;
    let _mwait = b.input(b"mwait", 1)?;
    let stall = b.output(b"stall", 1)?;
    let kill = b.output(b"kill", 1)?;
    let enable = b.output(b"w_R_e", 1)?;
    let value = b.output(b"w_R_v", 8)?;
    let pc = b.register(b"pc", 4, 0)?;
    let one = b.wire(b"n0", 4)?;
    let after = b.wire(b"n1", 4)?;
    b.cell(one, Cell::Const(1))?;
    b.cell(after, Cell::Two(TwoOp::Add, pc, one))?;
    b.cell(iaddr, Cell::Copy(pc))?;
    b.cell(stall, Cell::Const(0))?;
    b.cell(kill, Cell::Const(0))?;
    b.cell(enable, Cell::Const(1))?;
    b.cell(value, Cell::Copy(idata))?;
    b.next(pc, after)?;
    let top = b.finish()?;
    Ok(top)
}

#[test]
fn writes_a_counter(rt: HostRuntime) -> Result<(), Fail> {
    let alloc = rt.alloc();
    let text = text_of(alloc, counter_module(alloc)?)?;
    assert_eq!(rt; text.as_slice(), COUNTER.as_bytes());
    Ok(())
}

/// Each line is appended by a call of its own: 23 answer true, and the next one false.
#[test]
fn prints_a_counter_line_by_line(rt: HostRuntime) -> Result<(), Fail> {
    let alloc = rt.alloc();
    let net = Netlist::of_top(alloc, counter_module(alloc)?)?;
    let mut printer = Printer::new(&net);
    let mut printed = Vec::new(alloc);
    let mut lines: usize = 0;
    for line in COUNTER.split_inclusive('\n') {
        let mut text = Vec::new(alloc);
        let more = printer.line(&mut text)?;
        assert!(rt; more);
        assert_eq!(rt; text.as_slice(), line.as_bytes());
        printed.extend_from_slice(line.as_bytes())?;
        lines = lines.saturating_add(1);
    }
    assert_eq!(rt; lines, 23);
    let more = printer.line(&mut printed)?;
    assert!(rt; !more);
    assert_eq!(rt; printed.as_slice(), COUNTER.as_bytes());
    Ok(())
}

/// Registers are declared first here, ports last.
const BY_KIND: &str = "module top (
  input clk,
  input rst,
  output [7:0] y,
  input [7:0] a
);
  wire [7:0] w;
  reg [7:0] q;
  assign y = w;
  assign w = a + q;
  always @(posedge clk) if (rst) q <= 8'd7; else q <= w;
endmodule
";

#[test]
#[tactic(auto, using(crate::proofs::Tested::tested))]
fn nets_stand_by_kind(rt: HostRuntime) -> Result<(), Fail> {
    let alloc = rt.alloc();
    let mut b = Builder::new(alloc, b"top")?;
    let q = b.register(b"q", 8, 7)?;
    let w = b.wire(b"w", 8)?;
    let y = b.output(b"y", 8)?;
    let a = b.input(b"a", 8)?;
    b.cell(y, Cell::Copy(w))?;
    b.cell(w, Cell::Two(TwoOp::Add, a, q))?;
    b.next(q, w)?;
    let text = text_of(alloc, b.finish()?)?;
    assert_eq!(rt; text.as_slice(), BY_KIND.as_bytes());
    Ok(())
}

/// The text of a module whose output y has these bits and this cell over the inputs a and b, of 8 bits each, and s.
#[tactic(auto, using(crate::proofs::Tested::tested))]
fn shown(alloc: Global, width: u32, cell: Cell) -> Result<Vec<u8>, NoMemory>
    requires low { 1 ≤ width }
    requires high { width ≤ 64 }
    requires fits { CellFits three_inputs width cell }
{
    let mut module = Builder::new(alloc, b"top")?;
    let _a = module.input(b"a", 8)?;
    let _b = module.input(b"b", 8)?;
    let _s = module.input(b"s", 1)?;
    let y = module.output(b"y", width)?;
    module.cell(y, cell)?;
    text_of(alloc, module.finish()?)
}

/// Checks the text of such a module: y's line has this right side.
fn expect_right(
    rt: &impl Abort,
    alloc: Global,
    width: u32,
    cell: Cell,
    right: &str,
) -> Result<(), Fail>
    requires low { 1 ≤ width }
    requires high { width ≤ 64 }
    requires fits { CellFits three_inputs width cell }
{
    let text = shown(alloc, width, cell)?;
    let high = width - 1;
    let before =
        "module top (\n  input clk,\n  input rst,\n  input [7:0] a,\n  input [7:0] b,\n  input [0:0] s,\n";
    let expected = format!(in alloc;
        "{before}  output [{high}:0] y\n);\n  assign y = {right};\nendmodule\n"
    )?;
    assert_eq!(rt; text.as_slice(), expected.as_bytes());
    Ok(())
}

const A: Wire = Wire {
    number: 0,
    width: 8,
};

const B: Wire = Wire {
    number: 1,
    width: 8,
};

const S: Wire = Wire {
    number: 2,
    width: 1,
};

#[test]
fn writes_each_cell(rt: HostRuntime) -> Result<(), Fail> {
    let alloc = rt.alloc();
    expect_right(
        &rt,
        alloc,
        64,
        Cell::Const(18446744073709551615),
        "64'd18446744073709551615",
    )?;
    expect_right(&rt, alloc, 8, Cell::Copy(B), "b")?;
    expect_right(&rt, alloc, 8, Cell::Not(A), "~a")?;
    expect_right(&rt, alloc, 8, Cell::Two(TwoOp::Add, A, B), "a + b")?;
    expect_right(&rt, alloc, 8, Cell::Two(TwoOp::Sub, A, B), "a - b")?;
    expect_right(&rt, alloc, 8, Cell::Two(TwoOp::And, A, B), "a & b")?;
    expect_right(&rt, alloc, 8, Cell::Two(TwoOp::Or, A, B), "a | b")?;
    expect_right(&rt, alloc, 8, Cell::Two(TwoOp::Xor, A, B), "a ^ b")?;
    expect_right(&rt, alloc, 1, Cell::Two(TwoOp::Eq, A, B), "a == b")?;
    expect_right(&rt, alloc, 1, Cell::Two(TwoOp::Ltu, A, B), "a < b")?;
    expect_right(&rt, alloc, 8, Cell::Choose(S, A, B), "s ? a : b")?;
    expect_right(&rt, alloc, 9, Cell::Cat(S, A), "{s, a}")?;
    expect_right(&rt, alloc, 5, Cell::Slice(A, 6, 2), "a[6:2]")?;
    expect_right(&rt, alloc, 1, Cell::Slice(B, 7, 7), "b[7:7]")?;
    Ok(())
}

/// A netlist with an instance, opened: the instance's nets follow those of `top`, and its ports are joined to their nets.
fn opens_an_instance()
    ensures opened { opened (inverter ∷ over_inverter ∷ []) ≡ inverter_opened }
    ensures input { value_in_part 1 inverter_opened.nets (5 ∷ 250 ∷ 250 ∷ 5 ∷ 250 ∷ 2 ∷ [])
        (codes "a") ≡ 5 }
    ensures register { register_in 1 inverter_opened (2 ∷ []) (codes "q") ≡ 2 }
    ensures reset { reset_in inverter_opened 5 ≡ 2 }
{}

/// Its one spelling, an instance line included.
fn spells_an_instance()
    ensures { netlist_text (inverter ∷ over_inverter ∷ []) ≡ inverter_text }
{}

/// Worked values of the operators, which the check computes: one bit.
fn values_of_one_bit()
    ensures add { two_value TwoOp.Add 1 1 1 ≡ 0 }
    ensures sub { two_value TwoOp.Sub 1 0 1 ≡ 1 }
    ensures and { two_value TwoOp.And 1 1 0 ≡ 0 }
    ensures or { two_value TwoOp.Or 1 1 0 ≡ 1 }
    ensures xor { two_value TwoOp.Xor 1 1 1 ≡ 0 }
    ensures eq { two_value TwoOp.Eq 1 1 1 ≡ 1 }
    ensures ltu { two_value TwoOp.Ltu 1 0 1 ≡ 1 }
    ensures not { cell_value (slice_index (0 ∷ [])) 1 (Cell.Not (wire 0 1)) ≡ 1 }
{}

/// Worked values at eight bits: sums wrap, 181 is 10110101 in binary.
fn values_of_eight_bits()
    ensures add { two_value TwoOp.Add 8 250 10 ≡ 4 }
    ensures sub { two_value TwoOp.Sub 8 3 5 ≡ 254 }
    ensures and { two_value TwoOp.And 8 204 170 ≡ 136 }
    ensures or { two_value TwoOp.Or 8 204 170 ≡ 238 }
    ensures xor { two_value TwoOp.Xor 8 204 170 ≡ 102 }
    ensures eq { two_value TwoOp.Eq 1 3 5 ≡ 0 }
    ensures less { two_value TwoOp.Ltu 1 3 5 ≡ 1 }
    ensures same { two_value TwoOp.Ltu 1 5 5 ≡ 0 }
    ensures not { cell_value (slice_index (15 ∷ [])) 8 (Cell.Not (wire 0 8)) ≡ 240 }
    ensures first { cell_value (slice_index (1 ∷ 3 ∷ 5 ∷ [])) 8 (Cell.Choose (wire 0 1)
        (wire 1 8) (wire 2 8)) ≡ 3 }
    ensures second { cell_value (slice_index (0 ∷ 3 ∷ 5 ∷ [])) 8 (Cell.Choose (wire 0 1)
        (wire 1 8) (wire 2 8)) ≡ 5 }
    ensures cat { cell_value (slice_index (3 ∷ 5 ∷ [])) 16 (Cell.Cat (wire 0 8) (wire 1 8)) ≡ 773 }
    ensures slice { cell_value (slice_index (181 ∷ [])) 5 (Cell.Slice (wire 0 8) 6 2) ≡ 13 }
    ensures top_bit { cell_value (slice_index (181 ∷ [])) 1 (Cell.Slice (wire 0 8) 7 7) ≡ 1 }
{}

/// Worked values at 64 bits, the greatest width.
fn values_of_sixty_four_bits()
    ensures add { two_value TwoOp.Add 64 18446744073709551615 1 ≡ 0 }
    ensures sub { two_value TwoOp.Sub 64 0 1 ≡ 18446744073709551615 }
    ensures and { two_value TwoOp.And 64 18446744073709551615 1311768467463790320
        ≡ 1311768467463790320 }
    ensures xor { two_value TwoOp.Xor 64 18446744073709551615 1311768467463790320
        ≡ 17134975606245761295 }
    ensures ltu { two_value TwoOp.Ltu 1 9223372036854775808 9223372036854775807 ≡ 0 }
    ensures not { cell_value (slice_index (0 ∷ [])) 64 (Cell.Not (wire 0 64))
        ≡ 18446744073709551615 }
    ensures cat { cell_value (slice_index (4294967295 ∷ 1 ∷ [])) 64
        (Cell.Cat (wire 0 32) (wire 1 32))
        ≡ 18446744069414584321 }
    ensures top_bit { cell_value (slice_index (9223372036854775808 ∷ [])) 1 (Cell.Slice
        (wire 0 64) 63 63) ≡ 1 }
    ensures whole { cell_value (slice_index (18446744073709551615 ∷ [])) 64 (Cell.Slice
        (wire 0 64) 63 0) ≡ 18446744073709551615 }
{}
