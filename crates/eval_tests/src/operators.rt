//! Netlists that show every operator on their inputs, at several widths.

/// Of 8 bits; the slice is a part, and all bits are put together.
pub const OF_8: &str = "\
module top (
  input clk,
  input rst,
  output [3:0] iaddr,
  input [7:0] idata,
  input [0:0] mwait,
  input [7:0] p_A,
  input [7:0] p_B,
  input [0:0] p_S,
  output [0:0] stall,
  output [0:0] kill,
  output [0:0] w_NOT_e,
  output [7:0] w_NOT_v,
  output [0:0] w_ADD_e,
  output [7:0] w_ADD_v,
  output [0:0] w_SUB_e,
  output [7:0] w_SUB_v,
  output [0:0] w_AND_e,
  output [7:0] w_AND_v,
  output [0:0] w_OR_e,
  output [7:0] w_OR_v,
  output [0:0] w_XOR_e,
  output [7:0] w_XOR_v,
  output [0:0] w_EQ_e,
  output [0:0] w_EQ_v,
  output [0:0] w_LTU_e,
  output [0:0] w_LTU_v,
  output [0:0] w_CHOOSE_e,
  output [7:0] w_CHOOSE_v,
  output [0:0] w_SLICE_e,
  output [3:0] w_SLICE_v,
  output [0:0] w_CAT_e,
  output [15:0] w_CAT_v
);
  wire [7:0] n0;
  wire [7:0] n1;
  assign n0 = p_A[7:0];
  assign n1 = p_B[7:0];
  assign iaddr = 4'd0;
  assign stall = 1'd0;
  assign kill = 1'd0;
  assign w_NOT_e = 1'd1;
  assign w_NOT_v = ~p_A;
  assign w_ADD_e = 1'd1;
  assign w_ADD_v = p_A + p_B;
  assign w_SUB_e = 1'd1;
  assign w_SUB_v = p_A - p_B;
  assign w_AND_e = 1'd1;
  assign w_AND_v = p_A & p_B;
  assign w_OR_e = 1'd1;
  assign w_OR_v = p_A | p_B;
  assign w_XOR_e = 1'd1;
  assign w_XOR_v = p_A ^ p_B;
  assign w_EQ_e = 1'd1;
  assign w_EQ_v = p_A == p_B;
  assign w_LTU_e = 1'd1;
  assign w_LTU_v = p_A < p_B;
  assign w_CHOOSE_e = 1'd1;
  assign w_CHOOSE_v = p_S ? p_A : p_B;
  assign w_SLICE_e = 1'd1;
  assign w_SLICE_v = p_A[6:3];
  assign w_CAT_e = 1'd1;
  assign w_CAT_v = {n0, n1};
endmodule
";

/// Of 8 bits; the slice is all of them, and their lower halves are put together.
pub const OF_HALVES: &str = "\
module top (
  input clk,
  input rst,
  output [3:0] iaddr,
  input [7:0] idata,
  input [0:0] mwait,
  input [7:0] p_A,
  input [7:0] p_B,
  input [0:0] p_S,
  output [0:0] stall,
  output [0:0] kill,
  output [0:0] w_NOT_e,
  output [7:0] w_NOT_v,
  output [0:0] w_ADD_e,
  output [7:0] w_ADD_v,
  output [0:0] w_SUB_e,
  output [7:0] w_SUB_v,
  output [0:0] w_AND_e,
  output [7:0] w_AND_v,
  output [0:0] w_OR_e,
  output [7:0] w_OR_v,
  output [0:0] w_XOR_e,
  output [7:0] w_XOR_v,
  output [0:0] w_EQ_e,
  output [0:0] w_EQ_v,
  output [0:0] w_LTU_e,
  output [0:0] w_LTU_v,
  output [0:0] w_CHOOSE_e,
  output [7:0] w_CHOOSE_v,
  output [0:0] w_SLICE_e,
  output [7:0] w_SLICE_v,
  output [0:0] w_CAT_e,
  output [7:0] w_CAT_v
);
  wire [3:0] n0;
  wire [3:0] n1;
  assign n0 = p_A[3:0];
  assign n1 = p_B[3:0];
  assign iaddr = 4'd0;
  assign stall = 1'd0;
  assign kill = 1'd0;
  assign w_NOT_e = 1'd1;
  assign w_NOT_v = ~p_A;
  assign w_ADD_e = 1'd1;
  assign w_ADD_v = p_A + p_B;
  assign w_SUB_e = 1'd1;
  assign w_SUB_v = p_A - p_B;
  assign w_AND_e = 1'd1;
  assign w_AND_v = p_A & p_B;
  assign w_OR_e = 1'd1;
  assign w_OR_v = p_A | p_B;
  assign w_XOR_e = 1'd1;
  assign w_XOR_v = p_A ^ p_B;
  assign w_EQ_e = 1'd1;
  assign w_EQ_v = p_A == p_B;
  assign w_LTU_e = 1'd1;
  assign w_LTU_v = p_A < p_B;
  assign w_CHOOSE_e = 1'd1;
  assign w_CHOOSE_v = p_S ? p_A : p_B;
  assign w_SLICE_e = 1'd1;
  assign w_SLICE_v = p_A[7:0];
  assign w_CAT_e = 1'd1;
  assign w_CAT_v = {n0, n1};
endmodule
";

/// Of one bit.
pub const OF_1: &str = "\
module top (
  input clk,
  input rst,
  output [3:0] iaddr,
  input [7:0] idata,
  input [0:0] mwait,
  input [0:0] p_A,
  input [0:0] p_B,
  input [0:0] p_S,
  output [0:0] stall,
  output [0:0] kill,
  output [0:0] w_NOT_e,
  output [0:0] w_NOT_v,
  output [0:0] w_ADD_e,
  output [0:0] w_ADD_v,
  output [0:0] w_SUB_e,
  output [0:0] w_SUB_v,
  output [0:0] w_AND_e,
  output [0:0] w_AND_v,
  output [0:0] w_OR_e,
  output [0:0] w_OR_v,
  output [0:0] w_XOR_e,
  output [0:0] w_XOR_v,
  output [0:0] w_EQ_e,
  output [0:0] w_EQ_v,
  output [0:0] w_LTU_e,
  output [0:0] w_LTU_v,
  output [0:0] w_CHOOSE_e,
  output [0:0] w_CHOOSE_v,
  output [0:0] w_SLICE_e,
  output [0:0] w_SLICE_v,
  output [0:0] w_CAT_e,
  output [1:0] w_CAT_v
);
  wire [0:0] n0;
  wire [0:0] n1;
  assign n0 = p_A[0:0];
  assign n1 = p_B[0:0];
  assign iaddr = 4'd0;
  assign stall = 1'd0;
  assign kill = 1'd0;
  assign w_NOT_e = 1'd1;
  assign w_NOT_v = ~p_A;
  assign w_ADD_e = 1'd1;
  assign w_ADD_v = p_A + p_B;
  assign w_SUB_e = 1'd1;
  assign w_SUB_v = p_A - p_B;
  assign w_AND_e = 1'd1;
  assign w_AND_v = p_A & p_B;
  assign w_OR_e = 1'd1;
  assign w_OR_v = p_A | p_B;
  assign w_XOR_e = 1'd1;
  assign w_XOR_v = p_A ^ p_B;
  assign w_EQ_e = 1'd1;
  assign w_EQ_v = p_A == p_B;
  assign w_LTU_e = 1'd1;
  assign w_LTU_v = p_A < p_B;
  assign w_CHOOSE_e = 1'd1;
  assign w_CHOOSE_v = p_S ? p_A : p_B;
  assign w_SLICE_e = 1'd1;
  assign w_SLICE_v = p_A[0:0];
  assign w_CAT_e = 1'd1;
  assign w_CAT_v = {n0, n1};
endmodule
";

/// Of 64 bits; the slice is the highest four, and the lower halves are put together.
pub const OF_64: &str = "\
module top (
  input clk,
  input rst,
  output [3:0] iaddr,
  input [7:0] idata,
  input [0:0] mwait,
  input [63:0] p_A,
  input [63:0] p_B,
  input [0:0] p_S,
  output [0:0] stall,
  output [0:0] kill,
  output [0:0] w_NOT_e,
  output [63:0] w_NOT_v,
  output [0:0] w_ADD_e,
  output [63:0] w_ADD_v,
  output [0:0] w_SUB_e,
  output [63:0] w_SUB_v,
  output [0:0] w_AND_e,
  output [63:0] w_AND_v,
  output [0:0] w_OR_e,
  output [63:0] w_OR_v,
  output [0:0] w_XOR_e,
  output [63:0] w_XOR_v,
  output [0:0] w_EQ_e,
  output [0:0] w_EQ_v,
  output [0:0] w_LTU_e,
  output [0:0] w_LTU_v,
  output [0:0] w_CHOOSE_e,
  output [63:0] w_CHOOSE_v,
  output [0:0] w_SLICE_e,
  output [3:0] w_SLICE_v,
  output [0:0] w_CAT_e,
  output [63:0] w_CAT_v
);
  wire [31:0] n0;
  wire [31:0] n1;
  assign n0 = p_A[31:0];
  assign n1 = p_B[31:0];
  assign iaddr = 4'd0;
  assign stall = 1'd0;
  assign kill = 1'd0;
  assign w_NOT_e = 1'd1;
  assign w_NOT_v = ~p_A;
  assign w_ADD_e = 1'd1;
  assign w_ADD_v = p_A + p_B;
  assign w_SUB_e = 1'd1;
  assign w_SUB_v = p_A - p_B;
  assign w_AND_e = 1'd1;
  assign w_AND_v = p_A & p_B;
  assign w_OR_e = 1'd1;
  assign w_OR_v = p_A | p_B;
  assign w_XOR_e = 1'd1;
  assign w_XOR_v = p_A ^ p_B;
  assign w_EQ_e = 1'd1;
  assign w_EQ_v = p_A == p_B;
  assign w_LTU_e = 1'd1;
  assign w_LTU_v = p_A < p_B;
  assign w_CHOOSE_e = 1'd1;
  assign w_CHOOSE_v = p_S ? p_A : p_B;
  assign w_SLICE_e = 1'd1;
  assign w_SLICE_v = p_A[63:60];
  assign w_CAT_e = 1'd1;
  assign w_CAT_v = {n0, n1};
endmodule
";
