//! Texts of netlists, and the rows that they show.
ghost use Rattle.std.specs.Prelude.{◌≤◌};

use ap_flat::Flat;
use ap_image::{read_image, read_trace};
use ap_sim::{Rows, read_netlist};
use std::alloc::Global;
use std::test::Fail;

/// Two registers that take each other's value, one of them shown where an input is 1; `mwait` is shown as a stall.
pub const EXCHANGE: &str = "\
module top (
  input clk,
  input rst,
  output [3:0] iaddr,
  input [7:0] idata,
  input [0:0] mwait,
  input [0:0] p_X,
  output [0:0] stall,
  output [0:0] kill,
  output [0:0] w_R_e,
  output [7:0] w_R_v
);
  reg [7:0] one;
  reg [7:0] two;
  assign iaddr = 4'd0;
  assign stall = mwait;
  assign kill = p_X;
  assign w_R_e = p_X;
  assign w_R_v = one;
  always @(posedge clk) if (rst) one <= 8'd1; else one <= two;
  always @(posedge clk) if (rst) two <= 8'd2; else two <= one;
endmodule
";

/// An instance whose register adds up what is fetched: its output is an operand of it.
pub const ADDED_UP: &str = "\
module k_sum (
  input clk,
  input rst,
  input [7:0] a,
  input [7:0] b,
  output [7:0] y
);
  wire [7:0] n0;
  reg [7:0] q;
  assign n0 = a + b;
  assign y = q;
  always @(posedge clk) if (rst) q <= 8'd9; else q <= n0;
endmodule
module top (
  input clk,
  input rst,
  output [3:0] iaddr,
  input [7:0] idata,
  input [0:0] mwait,
  output [0:0] stall,
  output [0:0] kill,
  output [0:0] w_R_e,
  output [7:0] w_R_v
);
  wire [7:0] n0;
  assign iaddr = 4'd0;
  assign stall = 1'd0;
  assign kill = 1'd0;
  assign w_R_e = 1'd1;
  assign w_R_v = n0;
  k_sum u_SUM (.clk(clk), .rst(rst), .a(idata), .b(n0), .y(n0));
endmodule
";

/// The netlist of a text, opened.
pub fn opened(alloc: Global, text: &str) -> Result<Flat, Fail> {
    match read_netlist(alloc, text.as_bytes()) {
        Ok(flat) => Ok(flat),
        Err(_) => Err("the netlist isn't run")?,
    }
}

/// The rows of some cycles.
pub fn rows(
    alloc: Global,
    netlist: &str,
    image: &str,
    trace: &str,
    cycles: u64,
) -> Result<String, Fail>
    requires { cycles ≤ 1000000 }
{
    let flat = opened(alloc, netlist)?;
    let image = match read_image(alloc, image.as_bytes(), flat.shape()) {
        Ok(image) => image,
        Err(_) => return Err("the image isn't read")?,
    };
    let trace = match read_trace(alloc, trace.as_bytes(), flat.shape()) {
        Ok(trace) => trace,
        Err(_) => return Err("the trace isn't read")?,
    };
    let mut rows = Rows::new(alloc, &flat, image, &trace, cycles)?;
    let mut out = Vec::new(alloc);
    for _ in 0..cycles {
        rows.line(&mut out)?;
    }
    match String::from_utf8(out) {
        Ok(text) => Ok(text),
        Err(_) => Err("the rows are no text")?,
    }
}
