//! The command `sim` on desks in memory: the rows that it writes, what it refuses, and what a desk that fails leaves.
use crate::kinds::empty_shelf;
use crate::serve_tests::status_of;
use ap_desk::memory::{DeskCall, MemDesk};
use std::alloc::Global;
use std::test::Fail;

/// A processor that writes each word that it fetches into its register.
const COPIER: &str = "\
module top (
  input clk,
  input rst,
  output [3:0] iaddr,
  input [7:0] idata,
  input [0:0] mwait,
  output [0:0] stall,
  output [0:0] kill,
  output [0:0] w_R_e,
  output [7:0] w_R_v
);
  wire [3:0] n0;
  wire [3:0] n1;
  reg [3:0] pc;
  assign n0 = 4'd1;
  assign n1 = pc + n0;
  assign iaddr = pc;
  assign stall = 1'd0;
  assign kill = 1'd0;
  assign w_R_e = 1'd1;
  assign w_R_v = idata;
  always @(posedge clk) if (rst) pc <= 4'd0; else pc <= n1;
endmodule
";

/// A processor with an input and a memory. What the input was two cycles ago is written to the memory at the address that the wait bit
/// is, where the word that is fetched is odd; and what the memory answers goes to a file, in every cycle.
const KEEPER: &str = "\
module top (
  input clk,
  input rst,
  output [3:0] iaddr,
  input [7:0] idata,
  input [0:0] mwait,
  input [7:0] p_P,
  output [0:0] m_DM_ra,
  input [7:0] m_DM_rd,
  output [0:0] m_DM_we,
  output [0:0] m_DM_wa,
  output [7:0] m_DM_wd,
  output [0:0] stall,
  output [0:0] kill,
  output [0:0] w_F_1_e,
  output [0:0] w_F_1_x,
  output [7:0] w_F_1_v
);
  wire [3:0] n0;
  wire [3:0] n1;
  reg [3:0] pc;
  reg [7:0] a;
  reg [7:0] b;
  assign n0 = 4'd1;
  assign n1 = pc + n0;
  assign iaddr = pc;
  assign m_DM_ra = mwait;
  assign m_DM_we = idata[0:0];
  assign m_DM_wa = mwait;
  assign m_DM_wd = a;
  assign stall = mwait;
  assign kill = idata[1:1];
  assign w_F_1_e = 1'd1;
  assign w_F_1_x = mwait;
  assign w_F_1_v = m_DM_rd;
  always @(posedge clk) if (rst) pc <= 4'd0; else pc <= n1;
  always @(posedge clk) if (rst) a <= 8'd7; else a <= b;
  always @(posedge clk) if (rst) b <= 8'd9; else b <= p_P;
endmodule
";

/// A processor that writes what a unit of the kind `nand`, which no shelf here has, gives of 12 and the word that is fetched.
const NAND: &str = "\
module k_nand_8 (
  input clk,
  input rst,
  input [0:0] sel,
  input [7:0] a,
  input [7:0] b,
  output [7:0] y
);
  wire [7:0] n0;
  wire [7:0] n1;
  assign n0 = a & b;
  assign n1 = ~n0;
  assign y = n1;
endmodule
module top (
  input clk,
  input rst,
  output [3:0] iaddr,
  input [7:0] idata,
  input [0:0] mwait,
  output [0:0] stall,
  output [0:0] kill,
  output [0:0] w_R_e,
  output [7:0] w_R_v
);
  wire [3:0] n0;
  wire [3:0] n1;
  wire [0:0] n2;
  wire [7:0] n3;
  wire [7:0] n4;
  reg [3:0] pc;
  assign n0 = 4'd1;
  assign n1 = pc + n0;
  assign n2 = 1'd0;
  assign n3 = 8'd12;
  assign iaddr = pc;
  assign stall = 1'd0;
  assign kill = 1'd0;
  assign w_R_e = 1'd1;
  assign w_R_v = n4;
  always @(posedge clk) if (rst) pc <= 4'd0; else pc <= n1;
  k_nand_8 u_N (.clk(clk), .rst(rst), .sel(n2), .a(n3), .b(idata), .y(n4));
endmodule
";

/// A desk that holds these texts, and an older one where the rows go.
fn desk_of(alloc: Global, netlist: &str, image: &str, trace: &str) -> Result<MemDesk, Fail> {
    let mut desk = MemDesk::new(alloc);
    desk.put("v", netlist.as_bytes())?;
    desk.put("i", image.as_bytes())?;
    desk.put("t", trace.as_bytes())?;
    desk.put("o", b"old")?;
    Ok(desk)
}

/// A run, the words of its command, and the rows that are due.
#[derive(Clone, Copy)]
struct Run<'a> {
    netlist: &'a str,
    image: &'a str,
    trace: &'a str,
    words: &'a str,
    rows: &'a str,
}

/// Whether a run writes the rows that are due, and nothing is printed.
fn shows(alloc: Global, run: &Run) -> Result<bool, Fail> {
    let mut desk = desk_of(alloc, run.netlist, run.image, run.trace)?;
    let status = status_of(alloc, run.words, &empty_shelf(alloc)?, &mut desk);
    let written = desk.file("o") == Some(run.rows.as_bytes());
    Ok(status == 0 && written && desk.file("-").is_none())
}

#[test]
fn rows_of_runs(rt: HostRuntime) -> Result<(), Fail> {
    let runs = [
        Run {
            netlist: COPIER,
            image: "part code\n5\n6\n",
            trace: "",
            words: "sim v i t 3 o",
            rows: "0 run R=5\n1 run R=6\n2 run R=0\n",
        },
        Run {
            netlist: COPIER,
            image: "",
            trace: "1\n",
            words: "sim v i i 0x1 o",
            rows: "0 run R=0\n",
        },
        Run {
            netlist: COPIER,
            image: "part code\n5\n6\n",
            trace: "",
            words: "sim v i t 0 o",
            rows: "",
        },
        Run {
            netlist: NAND,
            image: "part code\n0\n5\n10\n",
            trace: "",
            words: "sim v i t 3 o",
            rows: "0 run R=255\n1 run R=251\n2 run R=247\n",
        },
        Run {
            netlist: KEEPER,
            image: "part DM\n3\n4\npart code\n0\n1\n3\n1\n",
            trace: "0 0x21\n1 34\n0 35\n1 36\n",
            words: "sim v i t 6 o",
            rows: "\
0 run F.1[0]=3
1 stall F.1[1]=4 DM[1]=9
2 kill F.1[0]=3 DM[0]=33
3 stall F.1[1]=9 DM[1]=34
4 run F.1[0]=33
5 run F.1[0]=33
",
        },
    ];
    for run in &runs {
        assert!(rt; shows(rt.alloc(), run)?, "at {}", run.words);
    }
    Ok(())
}

/// Whether the rows' file holds its older text, and exactly this was printed.
fn only_printed(desk: &MemDesk, line: &str) -> bool {
    desk.file("-") == Some(line.as_bytes()) && desk.file("o") == Some(b"old".as_slice())
}

/// What a desk holds, the status that is due, and the line that is printed.
type Refused<'a> = (&'a str, &'a str, &'a str, u8, &'a str);

/// Whether a run is refused so.
fn is_refused(alloc: Global, refused: Refused) -> Result<bool, Fail> {
    let (netlist, image, trace, due, line) = refused;
    let mut desk = desk_of(alloc, netlist, image, trace)?;
    let status = status_of(alloc, "sim v i t 3 o", &empty_shelf(alloc)?, &mut desk);
    Ok(status == due && only_printed(&desk, line))
}

#[test]
fn runs_that_are_refused(rt: HostRuntime) -> Result<(), Fail> {
    let refused: [Refused; 7] = [
        ("", "FOO", "FOO", 4, "netlist: line 1: V1 BadForm\n"),
        (LOOPED, "FOO", "FOO", 4, "netlist: line 0: V7 Loop\n"),
        (PORTLESS, "FOO", "FOO", 4, "netlist: line 0: V8 BadPorts\n"),
        (
            COPIER,
            "part code\n256\n",
            "FOO",
            5,
            "image: line 2: G3 ValueTooWide\n",
        ),
        (COPIER, "part DM\n", "", 5, "image: line 1: G2 NoSuchPart\n"),
        (
            COPIER,
            "",
            "0\n\n2\n",
            5,
            "trace: line 3: G3 ValueTooWide\n",
        ),
        (KEEPER, "", "0\n", 5, "trace: line 1: G1 BadForm\n"),
    ];
    for one in refused {
        assert!(rt; is_refused(rt.alloc(), one)?, "at {}", one.4);
    }
    Ok(())
}

/// A net that depends on itself.
const LOOPED: &str = "\
module top (
  input clk,
  input rst,
  output [0:0] a
);
  wire [0:0] n0;
  assign n0 = ~n0;
  assign a = n0;
endmodule
";

/// Ports that are those of no outside.
const PORTLESS: &str = "\
module top (
  input clk,
  input rst,
  output [0:0] a
);
  assign a = 1'd1;
endmodule
";

#[test]
fn words_of_no_run(rt: HostRuntime) -> Result<(), Fail> {
    let alloc = rt.alloc();
    for line in [
        "sim",
        "sim v i t o",
        "sim v i t 3 o x",
        "sim v i t 1000001 o",
        "sim v i t -1 o",
        "sim v i t three o",
        "sim v i t 3 i",
        "sim - i t 3 o",
        "sim v i t 3 -",
    ] {
        let mut desk = desk_of(alloc, COPIER, "", "")?;
        assert_eq!(rt; status_of(alloc, line, &empty_shelf(alloc)?, &mut desk), 1);
        assert!(rt; only_printed(&desk, "usage\n"), "at {line}");
    }
    Ok(())
}

/// How many bytes the rows' file holds after this call of the desk failed, where the status is 6 and it holds a front of the rows.
fn held_after(alloc: Global, call: DeskCall, number: u64) -> Result<usize, Fail> {
    let mut desk = desk_of(alloc, COPIER, "part code\n5\n6\n", "")?;
    desk.fail(call, number)?;
    if status_of(alloc, "sim v i t 3 o", &empty_shelf(alloc)?, &mut desk) != 6 {
        return Err("another status")?;
    }
    let bytes = desk.file("o").unwrap_or(b"");
    if bytes == b"old".as_slice() {
        return Ok(0);
    }
    if !b"0 run R=5\n1 run R=6\n2 run R=0\n".starts_with(bytes) {
        return Err("another text")?;
    }
    Ok(bytes.len())
}

#[test]
fn a_call_of_a_run_that_fails(rt: HostRuntime) -> Result<(), Fail> {
    let alloc = rt.alloc();
    assert_eq!(rt; held_after(alloc, DeskCall::Read, 0)?, 0);
    assert_eq!(rt; held_after(alloc, DeskCall::Read, 4)?, 0);
    assert_eq!(rt; held_after(alloc, DeskCall::Create, 0)?, 0);
    assert_eq!(rt; held_after(alloc, DeskCall::Append, 0)?, 15);
    Ok(())
}
