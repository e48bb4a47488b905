//! Tables of texts and their faults, each at its edge with a neighbour that is accepted.
use crate::processor::processor;
use ap_asm::{AsmFault, AsmKind, assemble};
use ap_bits::NoMemory;
use std::alloc::Global;
use std::process::Abort;
use std::test::Fail;

/// Checks that each text has this fault, or none.
fn expect(
    rt: &impl Abort,
    alloc: Global,
    rows: &[(&str, Option<(u32, AsmKind)>)],
) -> Result<(), Fail> {
    let design = processor(alloc)?;
    for (text, fault) in rows {
        let found = match assemble(alloc, &design, text.as_bytes()) {
            Ok(_) => None,
            Err(AsmFault::At { line, kind }) => Some((line, kind)),
            Err(AsmFault::NoMemory) => return Err("out of memory")?,
        };
        assert_eq!(rt; found, *fault, "{}", text);
    }
    Ok(())
}

#[test]
fn forms(rt: HostRuntime) -> Result<(), Fail> {
    let alloc = rt.alloc();
    let bad = Some((1, AsmKind::BadForm));
    expect(
        &rt,
        alloc,
        &[
            ("", None),
            ("# nothing\n\n", None),
            ("ADD 1 2 3", None),
            ("\tADD  1 0x2 003 # sum\n", None),
            ("ADD 1 2 +3", bad),
            ("ADD 1 2 --3", bad),
            ("ADD 1 2 -", bad),
            ("ADD 1 2 3\r\n", bad),
            ("NOP # \u{e9}", bad),
            ("1 2 3", bad),
            ("ADD: ADD 1 2 3", bad),
            ("x :", bad),
            (":", bad),
            ("x::", bad),
            ("|ADD 1 2 3", bad),
            ("|", bad),
            ("data", bad),
            ("data DM", bad),
            ("data DM x", bad),
            ("data DM -1", bad),
            ("data DM 18446744073709551616", bad),
            ("data: ", None),
            ("ADDI 1 0 18446744073709551616", bad),
            ("NOP\nx y:\n", Some((2, AsmKind::BadForm))),
        ],
    )
}

#[test]
fn names(rt: HostRuntime) -> Result<(), Fail> {
    let alloc = rt.alloc();
    expect(
        &rt,
        alloc,
        &[
            ("FOO", Some((1, AsmKind::UnknownInstruction))),
            ("add 1 2 3", Some((1, AsmKind::UnknownInstruction))),
            ("stages 1", Some((1, AsmKind::UnknownInstruction))),
            ("FOO x", Some((1, AsmKind::UnknownInstruction))),
            ("JAL 7 x", Some((1, AsmKind::UnknownLabel))),
            ("JAL 7 x\nx:", None),
            ("x:\nJAL 7 x", None),
            ("JAL x", Some((1, AsmKind::UnknownLabel))),
            ("x:\nx:", Some((2, AsmKind::LabelTwice))),
            ("x:\nX:", None),
            ("NOP\nNOP:\nNOP", None),
            ("x:\nNOP\nx:\nx:", Some((3, AsmKind::LabelTwice))),
        ],
    )
}

#[test]
fn operands(rt: HostRuntime) -> Result<(), Fail> {
    let alloc = rt.alloc();
    let range = Some((1, AsmKind::FieldRange));
    expect(
        &rt,
        alloc,
        &[
            ("ADD 1 2", Some((1, AsmKind::OperandCount))),
            ("ADD 1 2 3 4", Some((1, AsmKind::OperandCount))),
            ("NOP 0", Some((1, AsmKind::OperandCount))),
            ("ADD 9 2", Some((1, AsmKind::OperandCount))),
            ("ADDI 1 0 63", None),
            ("ADDI 1 0 64", range),
            ("ADDI 1 0 -32", None),
            ("ADDI 1 0 -33", range),
            ("ADDI 1 0 -0", None),
            ("ADD 7 7 7", None),
            ("ADD 8 7 7", range),
            ("ADD -4 0 0", None),
            ("ADD -5 0 0", range),
            ("x:\nADDI 1 0 x", None),
            ("x:\nADDI x 0 1", Some((2, AsmKind::FieldRange))),
            ("x:\nADD 0 x 1", Some((2, AsmKind::FieldRange))),
        ],
    )
}

#[test]
fn slot_lines(rt: HostRuntime) -> Result<(), Fail> {
    let alloc = rt.alloc();
    expect(
        &rt,
        alloc,
        &[
            ("BZ 1 L\n| JAL 7 L\nL:", Some((2, AsmKind::TransferInSlot))),
            ("| NOP", Some((1, AsmKind::TooManySlots))),
            ("NOP\n| NOP", Some((2, AsmKind::TooManySlots))),
            ("| JR 1", Some((1, AsmKind::TransferInSlot))),
            ("JAL 7 L\nL:", None),
            ("JAL 7 L\n| NOP\nL:", None),
            (
                "JAL 7 L\n| NOP\n| NOP\nL:",
                Some((3, AsmKind::TooManySlots)),
            ),
            ("JAL 7 L\ndata DM 1\n| NOP\nL:", None),
            ("JAL 7 x\nx:\n| NOP", Some((2, AsmKind::LabelInSlot))),
            (
                "JAL 7 x\nx:\ndata DM 1\ny:\n| NOP",
                Some((2, AsmKind::LabelInSlot)),
            ),
            ("JAL 7 x\nx:\n?\n| NOP", Some((2, AsmKind::LabelInSlot))),
            ("JAL 7 x\nx:\nNOP\n| NOP", Some((4, AsmKind::TooManySlots))),
            ("JAL 7 L\n| ADD 1 7 7\nL:", Some((2, AsmKind::SlotConflict))),
            ("JAL 7 L\n| ADD 1 6 6\nL:", None),
            (
                "JAL 7 L\n| ADD 1 7 7\nL:\nFOO",
                Some((4, AsmKind::UnknownInstruction)),
            ),
        ],
    )
}

#[test]
fn data(rt: HostRuntime) -> Result<(), Fail> {
    let alloc = rt.alloc();
    expect(
        &rt,
        alloc,
        &[
            ("data XM 1", Some((1, AsmKind::BadData))),
            ("data reg 1", Some((1, AsmKind::BadData))),
            ("data DM 65535", None),
            ("data DM 65536", Some((1, AsmKind::BadData))),
            ("data DM 0 0 65536\ndata DM 1", Some((1, AsmKind::BadData))),
            (
                "data DM 0 0 0 0 0 0 0 0 0 0 0 0 0 0 0 0\ndata DM 0 0 0 0 0 0 0 0 0 0 0 0 0 0 0 0\ndata DM 0 0 0 0 0 0 0 0 0 0 0 0 0 0 0 0\ndata DM 0 0 0 0 0 0 0 0 0 0 0 0 0 0 0 0\ndata DM 0 0 0 0 0 0 0 0 0 0 0 0 0 0 0 0\ndata DM 0 0 0 0 0 0 0 0 0 0 0 0 0 0 0 0\ndata DM 0 0 0 0 0 0 0 0 0 0 0 0 0 0 0 0\ndata DM 0 0 0 0 0 0 0 0 0 0 0 0 0 0 0 0\ndata DM 0 0 0 0 0 0 0 0 0 0 0 0 0 0 0 0\ndata DM 0 0 0 0 0 0 0 0 0 0 0 0 0 0 0 0\ndata DM 0 0 0 0 0 0 0 0 0 0 0 0 0 0 0 0\ndata DM 0 0 0 0 0 0 0 0 0 0 0 0 0 0 0 0\ndata DM 0 0 0 0 0 0 0 0 0 0 0 0 0 0 0 0\ndata DM 0 0 0 0 0 0 0 0 0 0 0 0 0 0 0 0\ndata DM 0 0 0 0 0 0 0 0 0 0 0 0 0 0 0 0\ndata DM 0 0 0 0 0 0 0 0 0 0 0 0 0 0 0 0",
                None,
            ),
            (
                "data DM 0 0 0 0 0 0 0 0 0 0 0 0 0 0 0 0\ndata DM 0 0 0 0 0 0 0 0 0 0 0 0 0 0 0 0\ndata DM 0 0 0 0 0 0 0 0 0 0 0 0 0 0 0 0\ndata DM 0 0 0 0 0 0 0 0 0 0 0 0 0 0 0 0\ndata DM 0 0 0 0 0 0 0 0 0 0 0 0 0 0 0 0\ndata DM 0 0 0 0 0 0 0 0 0 0 0 0 0 0 0 0\ndata DM 0 0 0 0 0 0 0 0 0 0 0 0 0 0 0 0\ndata DM 0 0 0 0 0 0 0 0 0 0 0 0 0 0 0 0\ndata DM 0 0 0 0 0 0 0 0 0 0 0 0 0 0 0 0\ndata DM 0 0 0 0 0 0 0 0 0 0 0 0 0 0 0 0\ndata DM 0 0 0 0 0 0 0 0 0 0 0 0 0 0 0 0\ndata DM 0 0 0 0 0 0 0 0 0 0 0 0 0 0 0 0\ndata DM 0 0 0 0 0 0 0 0 0 0 0 0 0 0 0 0\ndata DM 0 0 0 0 0 0 0 0 0 0 0 0 0 0 0 0\ndata DM 0 0 0 0 0 0 0 0 0 0 0 0 0 0 0 0\ndata DM 0 0 0 0 0 0 0 0 0 0 0 0 0 0 0 0\n\ndata DM 0",
                Some((18, AsmKind::BadData)),
            ),
        ],
    )
}

/// A program of so many lines `NOP`.
fn nops(alloc: Global, count: usize) -> Result<Vec<u8>, NoMemory> {
    let mut text = Vec::new(alloc);
    for _ in 0..count {
        text.extend_from_slice(b"NOP\n")?;
    }
    Ok(text)
}

/// Checks that the program of so many lines `NOP` has this fault, or none.
fn expect_nops(
    rt: &impl Abort,
    alloc: Global,
    count: usize,
    fault: Option<AsmFault>,
) -> Result<(), Fail> {
    let design = processor(alloc)?;
    let text = nops(alloc, count)?;
    let found = assemble(alloc, &design, text.as_slice()).err();
    assert_eq!(rt; found, fault);
    Ok(())
}

#[test]
fn full_images(rt: HostRuntime) -> Result<(), Fail> {
    let alloc = rt.alloc();
    let line = 61;
    let kind = AsmKind::ImageFull;
    expect_nops(&rt, alloc, 60, None)?;
    expect_nops(&rt, alloc, 61, Some(AsmFault::At { line, kind }))?;
    expect_nops(&rt, alloc, 62, Some(AsmFault::At { line, kind }))
}
