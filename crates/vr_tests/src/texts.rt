//! The small text, and how its changes are read.
use ap_vr::{NetFault, read_back};
use std::alloc::Global;
use std::process::Abort;
use std::test::Fail;

/// A processor of one register that counts, and shows the word that it fetches; 23 lines.
pub(crate) fn small() -> &'static str {
    "module top (
  input clk,
  input rst,
  output [3:0] iaddr,
  input [7:0] idata,
  input [0:0] mwait,
  output [0:0] stall,
  output [0:0] kill,
  output [0:0] w_R_e,
  output [7:0] w_R_v
);
  wire [3:0] n0;
  wire [3:0] n1;
  reg [3:0] pc;
  assign n0 = 4'd1;
  assign n1 = pc + n0;
  assign iaddr = pc;
  assign stall = 1'd0;
  assign kill = 1'd0;
  assign w_R_e = 1'd1;
  assign w_R_v = idata;
  always @(posedge clk) if (rst) pc <= 4'd0; else pc <= n1;
endmodule
"
}

/// A module of one gate that stands before the small text, five lines to its ports' end.
pub(crate) fn gate() -> &'static str {
    "module gate (
  input clk,
  input rst,
  input [3:0] a,
  output [3:0] y
);
  assign y = ~a;
endmodule
"
}

/// A module of the same name whose ports stand in another order.
pub(crate) fn turned_gate() -> &'static str {
    "module gate (
  input clk,
  input rst,
  output [3:0] y,
  input [3:0] a
);
  assign y = ~a;
endmodule
"
}

/// The code and the line of a text's fault, as `V1 BadForm` and 16, and none where it is read.
pub(crate) fn fault_of(alloc: Global, text: &[u8]) -> Result<Option<(&'static str, usize)>, Fail> {
    match read_back(alloc, text) {
        Ok(_net) => Ok(None),
        Err(NetFault::At { line, kind }) => Ok(Some((kind.code(), line as usize))),
        Err(NetFault::NoMemory) => Err("no memory")?,
    }
}

/// The kind of a text's fault by its number, and its line: `V1` and 16.
pub(crate) type Due = Option<(&'static str, usize)>;

/// Checks the fault of a text: its kind, and its line.
pub(crate) fn expect(
    rt: &impl Abort,
    alloc: Global,
    text: &[u8],
    due: Due,
    at: &str,
) -> Result<(), Fail> {
    let found = fault_of(alloc, text)?;
    match (found, due) {
        (Some((code, line)), Some((kind, number))) => {
            assert!(rt; code.starts_with(kind), "at {at}: {code}");
            assert_eq!(rt; line, number, "at {at}");
        }
        (Some((code, line)), None) => {
            assert_eq!(rt; code, "none", "at {at}, line {line}");
        }
        (None, Some((kind, number))) => {
            assert_eq!(rt; kind, "none", "at {at}, line {number}");
        }
        (None, None) => {}
    }
    Ok(())
}
