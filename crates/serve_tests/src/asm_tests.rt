//! The command `asm` on desks in memory: what it writes, what it refuses, and what a desk that fails leaves.
use crate::serve_tests::status_of;
use ap_comb::{Alu, Shift};
use ap_desk::memory::{DeskCall, MemDesk};
use ap_mul::Mul;
use ap_unit::{Shelf, UnitKind};
use std::alloc::{AllocError, Global};
use std::test::Fail;

/// The description of a processor of four stages, whose transfers stand in stage 2 and have one slot.
const PROCESSOR: &str = "\
stages 4
address 6
word 16
transfer 2 1
file GPR 16 8 2 1
mem DM 8 16
in P 16
unit ALU alu 16
unit SH shift 16
unit MUL mul 16
format R op:4 rd:3 rs:3 rt:3 fn:3
format I op:4 rd:3 rs:3 imm:6
format J op:4 rd:3 z:3 t:6
instr NOP R op=0 rd=0 rs=0 rt=0 fn=0
end
instr ADD R op=1 fn=0
  1 a = GPR.r0 rs
  1 b = GPR.r1 rt
  2 s = ALU.add a b
  3 GPR.w0 rd s
end
instr MUL R op=1 fn=1
  1 a = GPR.r0 rs
  1 b = GPR.r1 rt
  2 s = MUL.mullo a b
  3 GPR.w0 rd s
end
instr SLL R op=1 fn=2
  1 a = GPR.r0 rs
  1 b = GPR.r1 rt
  2 s = SH.sll a b
  3 GPR.w0 rd s
end
instr ADDI I op=2
  1 a = GPR.r0 rs
  1 i = sext 16 imm
  2 s = ALU.add a i
  3 GPR.w0 rd s
end
instr LD I op=3
  1 a = GPR.r0 rs
  1 i = sext 16 imm
  2 s = ALU.add a i
  2 x = slice 7 0 s
  2 v = DM.read x
  3 GPR.w0 rd v
end
instr ST I op=4
  1 a = GPR.r0 rs
  1 v = GPR.r1 rd
  1 i = sext 16 imm
  2 s = ALU.add a i
  2 x = slice 7 0 s
  2 DM.write x v
end
instr BZ J op=5 z=0
  1 a = GPR.r0 rd
  1 o = const 16 0
  2 q = ALU.eq a o
  2 c = slice 0 0 q
  2 branch c t
end
instr JAL J op=6 z=0
  2 jump t
  3 l = zext 16 link
  3 GPR.w0 rd l
end
instr JR J op=7 z=0 t=0
  1 a = GPR.r0 rd
  2 x = slice 5 0 a
  2 jump x
end
instr INP I op=8 rs=0 imm=0
  2 v = in P
  3 GPR.w0 rd v
end
";

/// A shelf of the processor's three kinds.
fn shelf(alloc: Global) -> Result<Shelf, Fail> {
    let mut kinds: Vec<Box<dyn UnitKind>> = Vec::new(alloc);
    kinds.push(Box::new(alloc, Alu)?)?;
    kinds.push(Box::new(alloc, Shift)?)?;
    kinds.push(Box::new(alloc, Mul)?)?;
    Ok(Shelf::new(kinds).ok().ok_or("two kinds of one name")?)
}

/// A desk that holds these two inputs, and older texts where the outputs go.
fn desk_of(alloc: Global, description: &str, program: &str) -> Result<MemDesk, Fail> {
    let mut desk = MemDesk::new(alloc);
    desk.put("d", description.as_bytes())?;
    desk.put("p", program.as_bytes())?;
    desk.put("i", b"old")?;
    desk.put("l", b"old")?;
    Ok(desk)
}

/// The text of an image of these first words of the code, whose other words are 0, and then this text.
fn image_of(alloc: Global, words: &str, mems: &str) -> Result<String, AllocError> {
    let mut text = format!(in alloc; "part code\n{words}")?;
    for _ in words.lines().count()..64 {
        text.push_str("0x0\n")?;
    }
    text.push_str(mems)?;
    Ok(text)
}

/// What a program gives: the first words of its code, the text of its data memory, and its listing.
#[derive(Clone, Copy)]
struct Row<'a> {
    program: &'a str,
    words: &'a str,
    mems: &'a str,
    listing: &'a str,
}

/// Whether the program is assembled as its row says, and nothing is printed.
fn is_assembled(alloc: Global, row: &Row) -> Result<bool, Fail> {
    let mut desk = desk_of(alloc, PROCESSOR, row.program)?;
    let status = status_of(alloc, "asm d p i l", &shelf(alloc)?, &mut desk);
    let image = image_of(alloc, row.words, row.mems)?;
    let written = desk.file("i") == Some(image.as_bytes());
    let listed = desk.file("l") == Some(row.listing.as_bytes());
    Ok(status == 0 && written && listed && desk.file("-").is_none())
}

#[test]
fn programs_without_fault(rt: HostRuntime) -> Result<(), Fail> {
    let rows = [
        Row {
            program: "",
            words: "",
            mems: "",
            listing: "drain 0\n",
        },
        Row {
            program: "JAL 7 L\n| ADDI 1 0 1\nL:\nADD 2 3 3\n",
            words: "0x6e02\n0x2201\n0x0\n0x14d8\n",
            mems: "",
            listing: "drain 1\nlanding 2\n0 0x6e02 JAL\n1 0x2201 ADDI\n2 0x0 NOP\n3 0x14d8 ADD\n",
        },
        Row {
            program: "data DM 1 0x10\nADDI 1 0 -32\ndata DM 0xffff",
            words: "0x2220\n",
            mems: "part DM\n0x1\n0x10\n0xffff\n",
            listing: "drain 0\n0 0x2220 ADDI\n",
        },
    ];
    for row in &rows {
        assert!(rt; is_assembled(rt.alloc(), row)?, "at {}", row.program);
    }
    Ok(())
}

/// Whether the two outputs hold their older texts, and exactly this was printed.
fn only_printed(desk: &MemDesk, line: &str) -> bool {
    let old = Some(b"old".as_slice());
    desk.file("-") == Some(line.as_bytes()) && desk.file("i") == old && desk.file("l") == old
}

/// Whether the program is refused with this line.
fn is_refused(alloc: Global, program: &str, line: &str) -> Result<bool, Fail> {
    let mut desk = desk_of(alloc, PROCESSOR, program)?;
    let status = status_of(alloc, "asm d p i l", &shelf(alloc)?, &mut desk);
    Ok(status == 3 && only_printed(&desk, line))
}

/// Programs with a fault, and the line that is printed for each.
fn faulty_programs() -> [(&'static str, &'static str); 8] {
    [
        ("ADD 1 2 +3", "program: line 1: A1 BadForm\n"),
        ("FOO", "program: line 1: A2 UnknownInstruction\n"),
        ("JAL 7 x", "program: line 1: A3 UnknownLabel\n"),
        ("x:\nx:", "program: line 2: A4 LabelTwice\n"),
        ("ADDI 1 0 64", "program: line 1: A6 FieldRange\n"),
        (
            "BZ 1 L\n| JAL 7 L\nL:",
            "program: line 2: A7 TransferInSlot\n",
        ),
        (
            "JAL 7 L\n| ADD 1 7 7\nL:",
            "program: line 2: A8 SlotConflict\n",
        ),
        ("data XM 1", "program: line 1: A12 BadData\n"),
    ]
}

#[test]
fn programs_with_a_fault(rt: HostRuntime) -> Result<(), Fail> {
    for (program, line) in faulty_programs() {
        assert!(rt; is_refused(rt.alloc(), program, line)?, "at {program}");
    }
    Ok(())
}

/// The status of a line of words, on a desk with a description that has no fault and an empty program, and what was printed.
fn status_of_words(alloc: Global, line: &str) -> Result<(u8, bool), Fail> {
    let mut desk = desk_of(alloc, PROCESSOR, "")?;
    let status = status_of(alloc, line, &shelf(alloc)?, &mut desk);
    Ok((status, only_printed(&desk, "usage\n")))
}

#[test]
fn words_of_no_assembly(rt: HostRuntime) -> Result<(), Fail> {
    for line in [
        "asm",
        "asm d p i",
        "asm d p i l x",
        "asm d p i i",
        "asm d p d l",
        "asm d p i p",
        "asm d p i -",
        "asm d - i l",
        "asm d  i l",
    ] {
        assert_eq!(rt; status_of_words(rt.alloc(), line)?, (1, true), "at {line}");
    }
    Ok(())
}

#[test]
fn the_description_is_judged_first(rt: HostRuntime) -> Result<(), Fail> {
    let alloc = rt.alloc();
    let mut desk = desk_of(alloc, "stages", "FOO")?;
    assert_eq!(rt;
        status_of(alloc, "asm d q i l", &shelf(alloc)?, &mut desk),
        2
    );
    assert!(rt; only_printed(&desk, "description: line 0: F4 Missing\n"));
    assert_eq!(rt; desk.absent_count(), 0);
    let mut other = desk_of(alloc, PROCESSOR, "FOO")?;
    assert_eq!(rt;
        status_of(alloc, "asm d q i l", &shelf(alloc)?, &mut other),
        6
    );
    assert!(rt; only_printed(&other, "desk fault\n"));
    assert_eq!(rt; other.absent_count(), 1);
    Ok(())
}

#[test]
fn one_file_for_both_inputs(rt: HostRuntime) -> Result<(), Fail> {
    let alloc = rt.alloc();
    let mut desk = desk_of(alloc, PROCESSOR, "")?;
    assert_eq!(rt;
        status_of(alloc, "asm d d i l", &shelf(alloc)?, &mut desk),
        3
    );
    assert!(rt; only_printed(&desk, "program: line 1: A2 UnknownInstruction\n"));
    Ok(())
}

/// What the outputs hold after this call of the desk failed, where the status is 6: how many bytes of the image and of the listing, and
/// whether they are those. An output that is as it was holds none.
fn held_after(alloc: Global, call: DeskCall, number: u64) -> Result<(usize, usize), Fail> {
    let mut desk = desk_of(alloc, PROCESSOR, "ADDI 1 0 -32")?;
    desk.fail(call, number)?;
    if status_of(alloc, "asm d p i l", &shelf(alloc)?, &mut desk) != 6 {
        return Err("another status")?;
    }
    let image = image_of(alloc, "0x2220\n", "")?;
    let listing = "drain 0\n0 0x2220 ADDI\n";
    Ok((
        held(&desk, "i", image.as_bytes())?,
        held(&desk, "l", listing.as_bytes())?,
    ))
}

/// How many bytes of a text an output holds; none where it holds its older text.
fn held(desk: &MemDesk, name: &str, text: &[u8]) -> Result<usize, Fail> {
    let bytes = desk.file(name).unwrap_or(b"");
    if bytes == b"old".as_slice() {
        return Ok(0);
    }
    if !text.starts_with(bytes) {
        return Err("another text")?;
    }
    Ok(bytes.len())
}

#[test]
fn a_call_that_fails(rt: HostRuntime) -> Result<(), Fail> {
    let alloc = rt.alloc();
    assert_eq!(rt; held_after(alloc, DeskCall::Read, 0)?, (0, 0));
    assert_eq!(rt; held_after(alloc, DeskCall::Read, 2)?, (0, 0));
    assert_eq!(rt; held_after(alloc, DeskCall::Create, 0)?, (0, 0));
    assert_eq!(rt; held_after(alloc, DeskCall::Append, 0)?, (134, 0));
    assert_eq!(rt; held_after(alloc, DeskCall::Create, 1)?, (269, 0));
    assert_eq!(rt; held_after(alloc, DeskCall::Append, 1)?, (269, 11));
    Ok(())
}
