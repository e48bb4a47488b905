//! Rows of small netlists, and the order of a bench.
use crate::operators::{OF_1, OF_8, OF_64, OF_HALVES};
use crate::texts::{ADDED_UP, EXCHANGE, opened, rows};
use ap_eval::Bench;
use ap_image::read_image;
use std::alloc::Global;
use std::test::Fail;

#[test]
fn registers_move_at_once(rt: HostRuntime) -> Result<(), Fail> {
    let text = rows(rt.alloc(), EXCHANGE, "", "0 1\n1 1\n1 0\n0 1\n", 4)?;
    assert_eq!(rt;
        text.as_str(),
        "0 kill R=1\n1 stall+kill R=2\n2 stall\n3 kill R=2\n"
    );
    Ok(())
}

#[test]
fn an_instance_holds_its_register(rt: HostRuntime) -> Result<(), Fail> {
    let text = rows(rt.alloc(), ADDED_UP, "part code\n100\n", "", 3)?;
    assert_eq!(rt; text.as_str(), "0 run R=9\n1 run R=109\n2 run R=209\n");
    Ok(())
}

/// Whether the operators of a netlist show this row, which was worked out by what IEEE 1364 says of unsigned operands.
fn shows(alloc: Global, netlist: &str, inputs: &str, row: &str) -> Result<bool, Fail> {
    let text = rows(alloc, netlist, "", inputs, 1)?;
    Ok(text.as_str() == row)
}

#[test]
fn operators_of_8_bits(rt: HostRuntime) -> Result<(), Fail> {
    assert!(rt;
        shows(
            rt.alloc(),
            OF_8,
            "0 200 100 1\n",
            "0 run NOT=55 ADD=44 SUB=100 AND=64 OR=236 XOR=172 EQ=0 LTU=0 CHOOSE=200 SLICE=9 CAT=51300\n"
        )?
    );
    assert!(rt;
        shows(
            rt.alloc(),
            OF_HALVES,
            "0 3 5 0\n",
            "0 run NOT=252 ADD=8 SUB=254 AND=1 OR=7 XOR=6 EQ=0 LTU=1 CHOOSE=5 SLICE=3 CAT=53\n"
        )?
    );
    Ok(())
}

#[test]
fn operators_of_the_least_and_the_greatest_width(rt: HostRuntime) -> Result<(), Fail> {
    assert!(rt;
        shows(
            rt.alloc(),
            OF_1,
            "0 1 1 1\n",
            "0 run NOT=0 ADD=0 SUB=0 AND=1 OR=1 XOR=0 EQ=1 LTU=0 CHOOSE=1 SLICE=1 CAT=3\n"
        )?
    );
    assert!(rt;
        shows(
            rt.alloc(),
            OF_64,
            "0 18446744073709551615 1 0\n",
            "0 run NOT=0 ADD=0 SUB=18446744073709551614 AND=1 OR=18446744073709551615 XOR=18446744073709551614 EQ=0 LTU=0 CHOOSE=1 SLICE=15 CAT=18446744069414584321\n"
        )?
    );
    Ok(())
}

/// A processor that counts and shows each word that it fetches.
const COUNTER: &str = "\
module top (
  input clk,
  input rst,
  output [3:0] iaddr,
  input [7:0] idata,
  input [0:0] mwait,
  output [0:0] stall,
  output [0:0] kill,
  output [0:0] w_R_e,
  output [7:0] w_R_v
);
  wire [3:0] n0;
  wire [3:0] n1;
  reg [3:0] pc;
  assign n0 = 4'd1;
  assign n1 = pc + n0;
  assign iaddr = pc;
  assign stall = 1'd0;
  assign kill = 1'd0;
  assign w_R_e = 1'd1;
  assign w_R_v = idata;
  always @(posedge clk) if (rst) pc <= 4'd0; else pc <= n1;
endmodule
";

/// The place of a net in an order.
fn place_of(order: &[usize], net: usize) -> Option<usize> {
    order.iter().position(|other| *other == net)
}

/// Ports have the first numbers, from `iaddr` 0 to `w_R_v` 6; then come the wires, 7 and 8, and the register.
#[test]
fn the_order_of_a_bench(rt: HostRuntime) -> Result<(), Fail> {
    let alloc = rt.alloc();
    let flat = opened(alloc, COUNTER)?;
    let image = match read_image(alloc, b"", flat.shape()) {
        Ok(image) => image,
        Err(_) => return Err("the image isn't read")?,
    };
    let bench = Bench::start(alloc, &flat, image)?;
    let order = bench.order();
    assert_eq!(rt; order.len(), 8);
    assert_eq!(rt; place_of(order, 2), None);
    assert_eq!(rt; place_of(order, 9), None);
    assert!(rt; place_of(order, 0) < place_of(order, 1));
    assert!(rt; place_of(order, 7) < place_of(order, 8));
    assert_eq!(rt; bench.row().count(), 0);
    Ok(())
}
