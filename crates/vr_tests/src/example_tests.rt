//! Two texts that were written apart from the program: the examples of the project.
use crate::texts::expect;
use std::test::Fail;

/// A processor with one unit.
pub(crate) fn b1() -> &'static str {
    "module k_alu_8 (
  input clk,
  input rst,
  input [3:0] sel,
  input [7:0] a,
  input [7:0] b,
  output [7:0] y
);
  wire [0:0] n0;
  wire [0:0] n1;
  wire [0:0] n2;
  wire [0:0] n3;
  wire [0:0] n4;
  wire [7:0] n5;
  wire [7:0] n6;
  wire [7:0] n7;
  wire [7:0] n8;
  wire [7:0] n9;
  wire [0:0] n10;
  wire [6:0] n11;
  wire [7:0] n12;
  wire [7:0] n13;
  wire [7:0] n14;
  wire [0:0] n15;
  wire [7:0] n16;
  wire [0:0] n17;
  wire [7:0] n18;
  wire [7:0] n19;
  wire [0:0] n20;
  wire [7:0] n21;
  wire [7:0] n22;
  wire [7:0] n23;
  wire [7:0] n24;
  wire [0:0] n25;
  wire [7:0] n26;
  assign n0 = a < b;
  assign n1 = a[7:7];
  assign n2 = b[7:7];
  assign n3 = n1 ^ n2;
  assign n4 = n3 ? n1 : n0;
  assign n5 = a + b;
  assign n6 = a - b;
  assign n7 = a & b;
  assign n8 = a | b;
  assign n9 = a ^ b;
  assign n10 = a == b;
  assign n11 = 7'd0;
  assign n12 = {n11, n10};
  assign n13 = {n11, n0};
  assign n14 = {n11, n4};
  assign n15 = sel[0:0];
  assign n16 = n15 ? n6 : n5;
  assign n17 = sel[1:1];
  assign n18 = n15 ? n8 : n7;
  assign n19 = n17 ? n18 : n16;
  assign n20 = sel[2:2];
  assign n21 = n15 ? n12 : n9;
  assign n22 = n15 ? n14 : n13;
  assign n23 = n17 ? n22 : n21;
  assign n24 = n20 ? n23 : n19;
  assign n25 = sel[3:3];
  assign n26 = n25 ? a : n24;
  assign y = n26;
endmodule
module top (
  input clk,
  input rst,
  output [3:0] iaddr,
  input [7:0] idata,
  input [0:0] mwait,
  output [0:0] stall,
  output [0:0] kill,
  output [0:0] w_R_e,
  output [7:0] w_R_v
);
  wire [7:0] n0;
  wire [0:0] n1;
  wire [7:0] n2;
  wire [0:0] n3;
  wire [0:0] n4;
  wire [0:0] n5;
  wire [7:0] n6;
  wire [0:0] n7;
  wire [3:0] n8;
  wire [7:0] n9;
  wire [3:0] n10;
  wire [3:0] n11;
  wire [3:0] n12;
  wire [3:0] n13;
  wire [0:0] n14;
  wire [7:0] n15;
  wire [0:0] n16;
  wire [0:0] n17;
  wire [7:0] n18;
  wire [3:0] n19;
  reg [3:0] pc;
  reg [7:0] r_R;
  reg [0:0] v_1;
  reg [7:0] x_1;
  reg [3:0] a_1;
  assign n0 = 8'd0;
  assign n1 = x_1 == n0;
  assign n2 = 8'd1;
  assign n3 = x_1 == n2;
  assign n4 = 1'd0;
  assign n5 = ~n4;
  assign n7 = v_1 & n5;
  assign n8 = 4'd0;
  assign n9 = 8'd250;
  assign stall = n4;
  assign kill = n4;
  assign iaddr = pc;
  assign n10 = 4'd1;
  assign n11 = pc + n10;
  assign n12 = n4 ? n8 : n11;
  assign n13 = n4 ? pc : n12;
  assign n14 = n7 & n3;
  assign w_R_e = n14;
  assign w_R_v = n6;
  assign n15 = n14 ? n6 : r_R;
  assign n16 = 1'd1;
  assign n17 = n4 ? v_1 : n5;
  assign n18 = n4 ? x_1 : idata;
  assign n19 = n4 ? a_1 : pc;
  always @(posedge clk) if (rst) pc <= 4'd0; else pc <= n13;
  always @(posedge clk) if (rst) r_R <= 8'd3; else r_R <= n15;
  always @(posedge clk) if (rst) v_1 <= 1'd0; else v_1 <= n17;
  always @(posedge clk) if (rst) x_1 <= 8'd0; else x_1 <= n18;
  always @(posedge clk) if (rst) a_1 <= 4'd0; else a_1 <= n19;
  k_alu_8 u_U (.clk(clk), .rst(rst), .sel(n8), .a(r_R), .b(n9), .y(n6));
endmodule
"
}

/// A processor with a unit and a register file.
pub(crate) fn b3() -> &'static str {
    "module k_alu_8 (
  input clk,
  input rst,
  input [3:0] sel,
  input [7:0] a,
  input [7:0] b,
  output [7:0] y
);
  wire [0:0] n0;
  wire [0:0] n1;
  wire [0:0] n2;
  wire [0:0] n3;
  wire [0:0] n4;
  wire [7:0] n5;
  wire [7:0] n6;
  wire [7:0] n7;
  wire [7:0] n8;
  wire [7:0] n9;
  wire [0:0] n10;
  wire [6:0] n11;
  wire [7:0] n12;
  wire [7:0] n13;
  wire [7:0] n14;
  wire [0:0] n15;
  wire [7:0] n16;
  wire [0:0] n17;
  wire [7:0] n18;
  wire [7:0] n19;
  wire [0:0] n20;
  wire [7:0] n21;
  wire [7:0] n22;
  wire [7:0] n23;
  wire [7:0] n24;
  wire [0:0] n25;
  wire [7:0] n26;
  assign n0 = a < b;
  assign n1 = a[7:7];
  assign n2 = b[7:7];
  assign n3 = n1 ^ n2;
  assign n4 = n3 ? n1 : n0;
  assign n5 = a + b;
  assign n6 = a - b;
  assign n7 = a & b;
  assign n8 = a | b;
  assign n9 = a ^ b;
  assign n10 = a == b;
  assign n11 = 7'd0;
  assign n12 = {n11, n10};
  assign n13 = {n11, n0};
  assign n14 = {n11, n4};
  assign n15 = sel[0:0];
  assign n16 = n15 ? n6 : n5;
  assign n17 = sel[1:1];
  assign n18 = n15 ? n8 : n7;
  assign n19 = n17 ? n18 : n16;
  assign n20 = sel[2:2];
  assign n21 = n15 ? n12 : n9;
  assign n22 = n15 ? n14 : n13;
  assign n23 = n17 ? n22 : n21;
  assign n24 = n20 ? n23 : n19;
  assign n25 = sel[3:3];
  assign n26 = n25 ? a : n24;
  assign y = n26;
endmodule
module top (
  input clk,
  input rst,
  output [3:0] iaddr,
  input [7:0] idata,
  input [0:0] mwait,
  output [0:0] stall,
  output [0:0] kill,
  output [0:0] w_R_e,
  output [7:0] w_R_v
);
  wire [1:0] n0;
  wire [1:0] n1;
  wire [0:0] n2;
  wire [5:0] n3;
  wire [5:0] n4;
  wire [0:0] n5;
  wire [0:0] n6;
  wire [1:0] n7;
  wire [0:0] n8;
  wire [1:0] n9;
  wire [0:0] n10;
  wire [5:0] n11;
  wire [0:0] n12;
  wire [0:0] n13;
  wire [0:0] n14;
  wire [0:0] n15;
  wire [0:0] n16;
  wire [7:0] n17;
  wire [0:0] n18;
  wire [0:0] n19;
  wire [3:0] n20;
  wire [3:0] n21;
  wire [3:0] n22;
  wire [3:0] n23;
  wire [3:0] n24;
  wire [0:0] n25;
  wire [7:0] n26;
  wire [0:0] n27;
  wire [0:0] n28;
  wire [7:0] n29;
  wire [3:0] n30;
  wire [0:0] n31;
  wire [7:0] n32;
  wire [3:0] n33;
  wire [7:0] n34;
  wire [7:0] n35;
  wire [7:0] n36;
  reg [3:0] pc;
  reg [7:0] r_R;
  reg [0:0] v_1;
  reg [7:0] x_1;
  reg [3:0] a_1;
  reg [0:0] v_2;
  reg [7:0] x_2;
  reg [3:0] a_2;
  reg [7:0] l_2_0;
  reg [7:0] l_2_1;
  assign n0 = x_1[7:6];
  assign n1 = 2'd0;
  assign n2 = n0 == n1;
  assign n3 = x_1[5:0];
  assign n4 = 6'd0;
  assign n5 = n3 == n4;
  assign n6 = n2 & n5;
  assign n7 = 2'd1;
  assign n8 = n0 == n7;
  assign n9 = x_2[7:6];
  assign n10 = n9 == n1;
  assign n11 = x_2[5:0];
  assign n12 = n11 == n4;
  assign n13 = n10 & n12;
  assign n14 = n9 == n7;
  assign n15 = 1'd0;
  assign n16 = ~n15;
  assign n18 = v_1 & n16;
  assign n19 = v_2 & n16;
  assign n20 = 4'd0;
  assign stall = n15;
  assign kill = n15;
  assign iaddr = pc;
  assign n21 = 4'd1;
  assign n22 = pc + n21;
  assign n23 = n15 ? n20 : n22;
  assign n24 = n15 ? pc : n23;
  assign n25 = n19 & n14;
  assign w_R_e = n25;
  assign w_R_v = n17;
  assign n26 = n25 ? n17 : r_R;
  assign n27 = 1'd1;
  assign n28 = n15 ? v_1 : n16;
  assign n29 = n15 ? x_1 : idata;
  assign n30 = n15 ? a_1 : pc;
  assign n31 = n15 ? v_2 : v_1;
  assign n32 = n15 ? x_2 : x_1;
  assign n33 = n15 ? a_2 : a_1;
  assign n34 = {n1, n3};
  assign n35 = n15 ? l_2_0 : n34;
  assign n36 = n15 ? l_2_1 : r_R;
  always @(posedge clk) if (rst) pc <= 4'd0; else pc <= n24;
  always @(posedge clk) if (rst) r_R <= 8'd0; else r_R <= n26;
  always @(posedge clk) if (rst) v_1 <= 1'd0; else v_1 <= n28;
  always @(posedge clk) if (rst) x_1 <= 8'd0; else x_1 <= n29;
  always @(posedge clk) if (rst) a_1 <= 4'd0; else a_1 <= n30;
  always @(posedge clk) if (rst) v_2 <= 1'd0; else v_2 <= n31;
  always @(posedge clk) if (rst) x_2 <= 8'd0; else x_2 <= n32;
  always @(posedge clk) if (rst) a_2 <= 4'd0; else a_2 <= n33;
  always @(posedge clk) if (rst) l_2_0 <= 8'd0; else l_2_0 <= n35;
  always @(posedge clk) if (rst) l_2_1 <= 8'd0; else l_2_1 <= n36;
  k_alu_8 u_ALU (.clk(clk), .rst(rst), .sel(n20), .a(l_2_1), .b(l_2_0), .y(n17));
endmodule
"
}

#[test]
fn examples_are_read(rt: HostRuntime) -> Result<(), Fail> {
    let alloc = rt.alloc();
    expect(&rt, alloc, b1().as_bytes(), None, "B1")?;
    expect(&rt, alloc, b3().as_bytes(), None, "B3")
}
