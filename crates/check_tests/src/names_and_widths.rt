use crate::calls::{fault_of, resolved};
use crate::texts::{base, changed, larger};
use ap_desc::Fault;
use std::test::Fail;

/// Lines that may stand in the place of another: at the edges of what names and widths allow.
fn accepted_lines() -> [(u32, &'static str); 19] {
    [
        (0, ""),
        (1, "stages 8"),
        (4, "transfer 2 2"),
        (5, "reg R 16 0"),
        (6, "reg ONE 1 1"),
        (17, "  1 a = F.r1 rs"),
        (18, "  1 i = sext 16 a"),
        (20, "  1 k = const 64 18446744073709551615"),
        (20, "  1 R = const 1 1"),
        (22, "  2 s = U.pass a k"),
        (23, "  2 x = slice 15 8 s"),
        (26, "  2 z = zext 8 x"),
        (11, "unit S shift 16\nunit X mul 16"),
        (26, "  2 w = cat k k\n  2 y = cat w w\n  2 z = zext 64 y"),
        (28, "  3 F.w0 rs v when g"),
        (30, "  3 M.write x m when g"),
        (35, "  2 branch g link"),
        (36, "  3 l = zext 64 link"),
        (39, "  2 jump pc"),
    ]
}

/// Lines with a fault of names. A local that may not be used on its own line, and one like any field of the format, a fixed one too.
fn name_faults() -> [(u32, &'static str, Fault); 29] {
    [
        (6, "reg R 1 0", Fault::Twice),
        (7, "file R 16 8 2 1", Fault::Twice),
        (8, "mem F 8 16", Fault::Twice),
        (9, "in M 16", Fault::Twice),
        (10, "unit P alu 16", Fault::Twice),
        (10, "unit P none 16", Fault::Twice),
        (11, "unit X none 16", Fault::NoKind),
        (12, "format A op:4 rd:3 op:3 imm:6", Fault::Twice),
        (13, "format A op:4 wide:12", Fault::Twice),
        (16, "instr I C op=1", Fault::Unknown),
        (16, "instr I A op=1 wide=7", Fault::Unknown),
        (16, "instr I A op=1 op=1", Fault::Twice),
        (16, "instr NOP A op=1", Fault::Twice),
        (16, "instr NOP A op=1 wide=1", Fault::Unknown),
        (17, "  1 a = F.r2 rs", Fault::Unknown),
        (17, "  1 a = F.r0 a", Fault::Unknown),
        (17, "  1 a = R.r0 rs", Fault::Unknown),
        (18, "  1 i = sext 16 wide", Fault::Unknown),
        (18, "  1 a = sext 16 imm", Fault::Twice),
        (18, "  1 imm = sext 16 imm", Fault::Twice),
        (18, "  1 op = sext 16 imm", Fault::Twice),
        (19, "  1 p = in R", Fault::Unknown),
        (22, "  2 s = U.mullo a i", Fault::NoOperation),
        (22, "  2 a = U.mullo a i", Fault::Twice),
        (22, "  2 s = F.add a i", Fault::Unknown),
        (17, "  1 a = F.r0 rs rs", Fault::Unknown),
        (24, "  2 v = M.read x x", Fault::Unknown),
        (28, "  3 F.w1 rd v when g", Fault::Unknown),
        (28, "  3 F.w0 rd v when h", Fault::Unknown),
    ]
}

/// Lines with a fault of widths.
fn width_faults() -> [(u32, &'static str, Fault); 36] {
    [
        (1, "stages 9", Fault::Range),
        (1, "stages 1", Fault::Range),
        (2, "address 3", Fault::Range),
        (3, "word 65", Fault::Range),
        (4, "transfer 4 1", Fault::Range),
        (4, "transfer 0 1", Fault::Range),
        (4, "transfer 2 9", Fault::Range),
        (5, "reg R 65 0", Fault::Range),
        (5, "reg R 16 65536", Fault::TooWideConstant),
        (5, "reg R 0 1", Fault::Range),
        (7, "file F 16 6 2 1", Fault::Range),
        (7, "file F 16 128 2 1", Fault::Range),
        (7, "file F 16 8 5 1", Fault::Range),
        (7, "file F 16 8 2 3", Fault::Range),
        (8, "mem M 17 16", Fault::Range),
        (9, "in P 18446744073709551615", Fault::Range),
        (11, "unit S shift 15\nunit X mul 16", Fault::KindRefuses),
        (11, "unit S shift 65\nunit X mul 16", Fault::Range),
        (12, "format A op:4 rd:3 rs:3 imm:17", Fault::Range),
        (17, "  4 a = F.r0 rs", Fault::Range),
        (17, "  1 a = F.r0 imm", Fault::Differs),
        (18, "  1 i = sext 65 imm", Fault::Range),
        (18, "  1 i = sext 5 imm", Fault::Differs),
        (20, "  1 k = const 16 65536", Fault::TooWideConstant),
        (20, "  1 k = const 0 1", Fault::Range),
        (20, "  1 k = const 4294967312 1", Fault::Range),
        (22, "  2 s = U.add a imm", Fault::Differs),
        (23, "  2 x = slice 16 9 s", Fault::Slice),
        (23, "  2 x = slice 0 7 s", Fault::Slice),
        (23, "  2 x = slice 18446744073709551615 0 s", Fault::Slice),
        (28, "  3 F.w0 rd v when a", Fault::NotOneBit),
        (28, "  3 F.w0 rd x when g", Fault::Differs),
        (29, "  3 R <- x", Fault::Differs),
        (35, "  2 branch a pc", Fault::NotOneBit),
        (35, "  2 branch g a", Fault::Target),
        (39, "  2 jump rd", Fault::Target),
    ]
}

#[test]
fn accepts_at_the_edges(rt: HostRuntime) -> Result<(), Fail> {
    let alloc = rt.alloc();
    for (number, line) in accepted_lines() {
        let text = changed(alloc, base(), number, line)?;
        assert_eq!(rt; fault_of(alloc, text.as_str())?, None, "{line}");
    }
    Ok(())
}

#[test]
fn names_faults_of_names(rt: HostRuntime) -> Result<(), Fail> {
    let alloc = rt.alloc();
    for (number, line, kind) in name_faults() {
        let text = changed(alloc, base(), number, line)?;
        assert_eq!(rt;
            fault_of(alloc, text.as_str())?,
            Some((kind, number)),
            "{line}"
        );
    }
    Ok(())
}

#[test]
fn names_faults_of_widths(rt: HostRuntime) -> Result<(), Fail> {
    let alloc = rt.alloc();
    for (number, line, kind) in width_faults() {
        let text = changed(alloc, base(), number, line)?;
        assert_eq!(rt;
            fault_of(alloc, text.as_str())?,
            Some((kind, number)),
            "{line}"
        );
    }
    Ok(())
}

/// Of two changes the fault that is named: names are looked at before widths, a line before a later one, and ports as they are written.
fn two_changes() -> [((u32, &'static str), (u32, &'static str), (Fault, u32)); 7] {
    [
        ((1, "stages 9"), (39, "  2 jump t"), (Fault::Unknown, 39)),
        ((5, "reg R 65 0"), (39, "  2 jump t"), (Fault::Unknown, 39)),
        ((5, "reg R 65 0"), (6, "reg ONE 66 0"), (Fault::Range, 5)),
        (
            (19, "  1 p = in R"),
            (22, "  2 s = U.mullo a i"),
            (Fault::Unknown, 19),
        ),
        ((7, "file F 16 8 0 1"), (0, ""), (Fault::Unknown, 17)),
        (
            (23, "  2 x = slice 18446744073709551615 0 s"),
            (28, "  3 F.w1 rd v"),
            (Fault::Unknown, 28),
        ),
        (
            (26, "  2 w = cat k k\n  2 y = cat w w\n  2 z = cat y g"),
            (0, ""),
            (Fault::Range, 28),
        ),
    ]
}

#[test]
fn names_the_least_fault(rt: HostRuntime) -> Result<(), Fail> {
    let alloc = rt.alloc();
    for (one, other, fault) in two_changes() {
        let text = changed(alloc, base(), one.0, one.1)?;
        let text = changed(alloc, text.as_str(), other.0, other.1)?;
        assert_eq!(rt; fault_of(alloc, text.as_str())?, Some(fault), "{}", one.1);
    }
    Ok(())
}

#[test]
fn accepts_a_larger_one(rt: HostRuntime) -> Result<(), Fail> {
    assert_eq!(rt; fault_of(rt.alloc(), larger())?, None);
    Ok(())
}

#[test]
fn takes_latencies_from_cards(rt: HostRuntime) -> Result<(), Fail> {
    let alloc = rt.alloc();
    let Ok(design) = resolved(alloc, base())? else {
        return Err("it is refused")?;
    };
    let units = design.units.as_slice();
    assert_eq!(rt; units.len(), 2);
    assert_eq!(rt; (units[0].kind, units[0].latency), (0, 1));
    assert_eq!(rt; (units[1].kind, units[1].latency), (4, 17));
    Ok(())
}
