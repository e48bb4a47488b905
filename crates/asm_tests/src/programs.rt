//! Programs whose images and listings were worked out apart from this program: small ones by hand, the two long ones by a slow
//! assembler that tries one place after the other against all earlier words.
use crate::processor::processor;
use ap_asm::{Assembled, assemble};
use ap_bits::NoMemory;
use std::alloc::Global;
use std::process::Abort;
use std::test::Fail;

/// What a program gives: its listing, the starts of its groups, and the words of its data memory.
struct Row<'a> {
    text: &'a str,
    listing: &'a str,
    starts: &'a [u32],
    data: &'a [u64],
}

/// Checks the parts of an assembled program that its listing shows too.
fn expect_listed(rt: &impl Abort, made: &Assembled, row: &Row) {
    assert_eq!(rt; made.listing.as_slice(), row.listing.as_bytes());
    assert_eq!(rt; made.starts.as_slice(), row.starts);
}

/// Checks the image of an assembled program: all words of the code memory stand in it, those behind the program are NOP.
fn expect_image(rt: &impl Abort, made: &Assembled, row: &Row) {
    assert_eq!(rt; made.image.mems.len(), 1);
    for words in made.image.mems.as_slice() {
        assert_eq!(rt; words.as_slice(), row.data);
    }
    let code = made.image.code.as_slice();
    assert_eq!(rt; code.len(), 64);
    for (place, word) in code.iter().enumerate() {
        assert!(rt; *word == 0 || place < made.placed as usize);
    }
}

/// Checks that each program gives what stands in its row.
fn expect(rt: &impl Abort, alloc: Global, rows: &[Row]) -> Result<(), Fail> {
    let design = processor(alloc)?;
    for row in rows {
        match assemble(alloc, &design, row.text.as_bytes()) {
            Ok(made) => {
                expect_listed(rt, &made, row);
                expect_image(rt, &made, row);
            }
            Err(_) => return Err("a program was refused")?,
        }
    }
    Ok(())
}

#[test]
fn small_programs(rt: HostRuntime) -> Result<(), Fail> {
    let alloc = rt.alloc();
    expect(
        &rt,
        alloc,
        &[
            Row {
                text: "",
                listing: "drain 0\n",
                starts: &[],
                data: &[],
            },
            Row {
                text: "ADDI 1 0 5\nADD 2 1 1",
                listing: "drain 0\n0 0x2205 ADDI\n1 0x0 NOP\n2 0x0 NOP\n3 0x1448 ADD\n",
                starts: &[0, 3],
                data: &[],
            },
            Row {
                text: "ADDI 1 0 -32",
                listing: "drain 0\n0 0x2220 ADDI\n",
                starts: &[0],
                data: &[],
            },
            Row {
                text: "JAL 7 L\n| ADDI 1 0 1\nL:\nADD 2 3 3\n",
                listing: "drain 1\nlanding 2\n0 0x6e02 JAL\n1 0x2201 ADDI\n2 0x0 NOP\n3 0x14d8 ADD\n",
                starts: &[0, 3],
                data: &[],
            },
            Row {
                text: "data DM 1 2\n#\ndata DM 0xffff",
                listing: "drain 0\n",
                starts: &[],
                data: &[1, 2, 65535],
            },
            Row {
                text: "x:",
                listing: "drain 0\nlanding 0\n",
                starts: &[],
                data: &[],
            },
        ],
    )
}

const LOOP: &str = "\
# multiplies words of a table by a factor and adds them up, in a loop with a taken branch and slots\n\
data DM 3\n\
data DM 5\n\
data DM 7\n\
data DM 11\n\
data DM 0x2      # the factor, at 4\n\
\n\
ADDI 1 0 4       # how many are left\n\
ADDI 2 0 0       # the sum\n\
LD 3 1 0         # the factor\n\
ADDI 6 0 1\n\
\n\
loop:\n\
BZ 1 done\n\
| ADDI 1 1 -1\n\
LD 4 1 0\n\
ADDI 7 0 0\n\
MUL 5 4 3\n\
NOP\n\
ADD 2 2 5\n\
JAL 7 loop\n\
| NOP\n\
\n\
done:\n\
ST 2 0 5\n\
SLL 2 2 6\n\
INP 5\n\
ST 2 0 6\n\
ADD 2 2 5\n\
ADD 0x3 3 03\n\
\n\
again:\n\
ST 2 0 7\n\
ADDI 4 0 -32\n\
BZ 0 last\n\
ADDI 3 3 1\n\
NOP\n\
data DM 0xffff\n\
data DM 1 2 3\n\
\n\
last:\n\
wait:\n\
JAL 6 wait\n\
| ADD 0 0 0\n\
behind:\n\
ADDI 5 5 31\n\
";

const LOOP_LISTING: &str = "\
drain 1\n\
landing 5\n\
landing 19\n\
landing 27\n\
landing 34\n\
landing 37\n\
0 0x2204 ADDI\n\
1 0x2400 ADDI\n\
2 0x0 NOP\n\
3 0x3640 LD\n\
4 0x2c01 ADDI\n\
5 0x0 NOP\n\
6 0x5213 BZ\n\
7 0x227f ADDI\n\
8 0x0 NOP\n\
9 0x0 NOP\n\
10 0x3840 LD\n\
11 0x2e00 ADDI\n\
12 0x0 NOP\n\
13 0x1b19 MUL\n\
14 0x0 NOP\n\
15 0x0 NOP\n\
16 0x14a8 ADD\n\
17 0x6e05 JAL\n\
18 0x0 NOP\n\
19 0x0 NOP\n\
20 0x4405 ST\n\
21 0x14b2 SLL\n\
22 0x8a00 INP\n\
23 0x0 NOP\n\
24 0x4406 ST\n\
25 0x14a8 ADD\n\
26 0x16d8 ADD\n\
27 0x0 NOP\n\
28 0x4407 ST\n\
29 0x2820 ADDI\n\
30 0x5022 BZ\n\
31 0x0 NOP\n\
32 0x26c1 ADDI\n\
33 0x0 NOP\n\
34 0x0 NOP\n\
35 0x6c22 JAL\n\
36 0x1000 ADD\n\
37 0x0 NOP\n\
38 0x2b5f ADDI\n\
";

const MEMORY: &str = "\
# reads words in, keeps them, works on them in a subroutine, and gives them back from data memory\n\
data DM 9\n\
start:\n\
ADDI 1 0 0\n\
ADDI 5 0 2\n\
INP 2\n\
ST 2 1 0\n\
INP 3\n\
ST 3 1 1\n\
data DM 0x08\n\
LD 4 1 0\n\
LD 5 1 1\n\
ADD 6 4 5\n\
JAL 7 sub        # comes back behind its slot\n\
| ADDI 1 1 2\n\
ST 6 1 0\n\
BZ 5 start\n\
| INP 4\n\
NOP\n\
JAL 7 sub\n\
ST 6 1 1\n\
BZ 0 end\n\
sub:\n\
twice:\n\
data DM 1\n\
ADD 6 6 6\n\
MUL 2 6 6\n\
data DM 2 0xffff\n\
ADDI 3 3 -1\n\
SLL 2 2 3\n\
ST 2 0 63\n\
JR 7\n\
# the slot of the way back\n\
data DM 7\n\
| ADDI 6 6 -1\n\
LD 0 0 63\n\
ADDI 0 0 0\n\
BZ 0 sub\n\
| NOP\n\
end:\n\
data DM 0 0 0\n\
finish:\n\
";

const MEMORY_LISTING: &str = "\
drain 1\n\
landing 0\n\
landing 18\n\
landing 26\n\
landing 30\n\
landing 52\n\
0 0x0 NOP\n\
1 0x2200 ADDI\n\
2 0x2a02 ADDI\n\
3 0x8400 INP\n\
4 0x0 NOP\n\
5 0x0 NOP\n\
6 0x4440 ST\n\
7 0x8600 INP\n\
8 0x0 NOP\n\
9 0x0 NOP\n\
10 0x4641 ST\n\
11 0x3840 LD\n\
12 0x3a41 LD\n\
13 0x0 NOP\n\
14 0x0 NOP\n\
15 0x1d28 ADD\n\
16 0x6e1e JAL\n\
17 0x2242 ADDI\n\
18 0x0 NOP\n\
19 0x0 NOP\n\
20 0x4c40 ST\n\
21 0x5a00 BZ\n\
22 0x8800 INP\n\
23 0x0 NOP\n\
24 0x6e1e JAL\n\
25 0x0 NOP\n\
26 0x0 NOP\n\
27 0x4c41 ST\n\
28 0x5034 BZ\n\
29 0x0 NOP\n\
30 0x0 NOP\n\
31 0x1db0 ADD\n\
32 0x0 NOP\n\
33 0x0 NOP\n\
34 0x15b1 MUL\n\
35 0x26ff ADDI\n\
36 0x0 NOP\n\
37 0x0 NOP\n\
38 0x149a SLL\n\
39 0x0 NOP\n\
40 0x0 NOP\n\
41 0x443f ST\n\
42 0x7e00 JR\n\
43 0x2dbf ADDI\n\
44 0x303f LD\n\
45 0x0 NOP\n\
46 0x0 NOP\n\
47 0x2000 ADDI\n\
48 0x0 NOP\n\
49 0x0 NOP\n\
50 0x501e BZ\n\
51 0x0 NOP\n\
";

#[test]
fn a_loop(rt: HostRuntime) -> Result<(), Fail> {
    let alloc = rt.alloc();
    expect(
        &rt,
        alloc,
        &[Row {
            text: LOOP,
            listing: LOOP_LISTING,
            starts: &[
                0, 1, 3, 4, 6, 10, 11, 13, 14, 16, 17, 20, 21, 22, 24, 25, 26, 28, 29, 30, 32, 33,
                35, 38,
            ],
            data: &[3, 5, 7, 11, 2, 65535, 1, 2, 3],
        }],
    )
}

#[test]
fn data_in_and_out(rt: HostRuntime) -> Result<(), Fail> {
    let alloc = rt.alloc();
    expect(
        &rt,
        alloc,
        &[Row {
            text: MEMORY,
            listing: MEMORY_LISTING,
            starts: &[
                1, 2, 3, 6, 7, 10, 11, 12, 15, 16, 20, 21, 23, 24, 27, 28, 31, 34, 35, 38, 41, 42,
                44, 47, 50,
            ],
            data: &[9, 8, 1, 2, 65535, 7, 0, 0, 0],
        }],
    )
}
