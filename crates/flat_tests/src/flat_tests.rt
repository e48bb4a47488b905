use crate::netlists::{Said, said_of};
use ap_flat::FlatFault;
use ap_net::NoMemory;
use std::alloc::Global;
use std::test::Fail;

/// The text of a processor that counts, whose net `n0` is driven by this, and `iaddr` by that, and whose input `mwait` has this highest
/// bit.
fn text_k(alloc: Global, one: &str, address: &str, wait: u32) -> Result<String, NoMemory> {
    let text = format!(in alloc;
        "\
module top (
  input clk,
  input rst,
  output [3:0] iaddr,
  input [7:0] idata,
  input [{wait}:0] mwait,
  output [0:0] stall,
  output [0:0] kill,
  output [0:0] w_R_e,
  output [7:0] w_R_v
);
  wire [3:0] n0;
  wire [3:0] n1;
  reg [3:0] pc;
  assign n0 = {one};
  assign n1 = pc + n0;
  assign iaddr = {address};
  assign stall = 1'd0;
  assign kill = 1'd0;
  assign w_R_e = 1'd1;
  assign w_R_v = idata;
  always @(posedge clk) if (rst) pc <= 4'd0; else pc <= n1;
endmodule
"
    )?;
    Ok(text)
}

/// What is said of such a text.
fn said(alloc: Global, one: &str, address: &str, wait: u32) -> Result<Said, NoMemory> {
    let text = text_k(alloc, one, address, wait)?;
    Ok(said_of(alloc, &text))
}

#[test]
fn faults(rt: HostRuntime) -> Result<(), Fail> {
    let alloc = rt.alloc();
    let looped = Said::Not(FlatFault::Loop);
    assert_eq!(rt; said(alloc, "4'd1", "pc", 0)?, Said::Opened);
    assert_eq!(rt; said(alloc, "n1", "pc", 0)?, looped);
    assert_eq!(rt; said(alloc, "4'd1", "idata[3:0]", 0)?, looped);
    assert_eq!(rt;
        said(alloc, "4'd1", "pc", 1)?,
        Said::Not(FlatFault::BadPorts)
    );
    assert_eq!(rt; said(alloc, "4'd1", "idata[3:0]", 1)?, looped);
    assert_eq!(rt; said(alloc, "4'd1", "n2", 0)?, Said::Unread);
    Ok(())
}
