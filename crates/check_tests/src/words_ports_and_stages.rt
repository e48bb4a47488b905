use crate::calls::fault_of;
use crate::texts::{base, changed, larger, small};
use ap_desc::Fault;
use std::alloc::Global;
use std::test::Fail;

/// Changes of the small description by one line: the words of its format and its instruction, and its slots.
fn small_changes() -> [(u32, &'static str, Option<(Fault, u32)>); 8] {
    [
        (0, "", None),
        (3, "word 65", Some((Fault::Range, 3))),
        (4, "transfer 1 2", Some((Fault::TooManySlots, 4))),
        (4, "transfer 1 1", None),
        (5, "format R op:7", Some((Fault::FormatSum, 5))),
        (6, "instr NOP R op=256", Some((Fault::FieldValue, 6))),
        (6, "instr NOP R op=255", None),
        (7, "  1 x = const 8 1\nend", Some((Fault::NopNotEmpty, 6))),
    ]
}

#[test]
fn words_of_a_small_one(rt: HostRuntime) -> Result<(), Fail> {
    let alloc = rt.alloc();
    for (number, line, fault) in small_changes() {
        let text = changed(alloc, small(), number, line)?;
        assert_eq!(rt; fault_of(alloc, text.as_str())?, fault, "{line}");
    }
    Ok(())
}

/// Changes of the first description by one line.
fn changes() -> [(u32, &'static str, Option<(Fault, u32)>); 14] {
    [
        (13, "format B op:4 wide:11", Some((Fault::FormatSum, 13))),
        (16, "instr I A op=1 rd=8", Some((Fault::FieldValue, 16))),
        (32, "instr J B op=1", Some((Fault::Overlap, 32))),
        (32, "instr J A op=1 rd=6", None),
        (
            26,
            "  2 z = U.add a i",
            Some((Fault::TwiceInInstruction, 26)),
        ),
        (29, "  3 F.w0 rd m", Some((Fault::TwiceInInstruction, 29))),
        (39, "  3 jump imm", Some((Fault::TwoStages, 39))),
        (
            39,
            "  2 a = R\n  2 R <- a\n  2 jump imm",
            Some((Fault::TwoStages, 40)),
        ),
        (33, "  0 a = R", Some((Fault::StageZero, 33))),
        (36, "  1 l = zext 16 link", Some((Fault::StageOrder, 36))),
        (4, "transfer 3 8", Some((Fault::TwoStages, 35))),
        (4, "transfer 2 3", Some((Fault::TooManySlots, 4))),
        (
            25,
            "  2 m = X.mullo a v",
            Some((Fault::UnstableOperand, 25)),
        ),
        (19, "  1 q = in P", None),
    ]
}

#[test]
fn each_kind_in_the_first_one(rt: HostRuntime) -> Result<(), Fail> {
    let alloc = rt.alloc();
    for (number, line, fault) in changes() {
        let text = changed(alloc, base(), number, line)?;
        assert_eq!(rt; fault_of(alloc, text.as_str())?, fault, "{line}");
    }
    Ok(())
}

/// A register that is written in a stage of six, where transfers stand in stage 4 with one slot.
fn early_writes() -> [(&'static str, Option<(Fault, u32)>); 2] {
    [
        ("  1 a = R\n  1 R <- a", Some((Fault::EarlyCommit, 11))),
        ("  1 a = R\n  2 R <- a", None),
    ]
}

#[test]
fn writes_before_a_transfer(rt: HostRuntime) -> Result<(), Fail> {
    let alloc = rt.alloc();
    for (lines, fault) in early_writes() {
        let text = format!(in alloc;
            "stages 6\naddress 4\nword 8\ntransfer 4 1\nreg R 8 0\nformat F op:8\ninstr NOP F op=0\nend\ninstr I F op=1\n{lines}\nend\n"
        )?;
        assert_eq!(rt; fault_of(alloc, text.as_str())?, fault, "{lines}");
    }
    Ok(())
}

/// Instructions after those of the larger description, which has 69 lines, with the fault that they make.
fn further_instructions() -> [(&'static str, Option<(Fault, u32)>); 9] {
    [
        (
            "instr X1 R op=10 fn=0
  1 a = GPR.r0 rs
  1 b = GPR.r1 rt
  2 s = ALU.add a b
  2 u = SH.sll s b
  3 GPR.w0 rd u
end
",
            None,
        ),
        (
            "instr X1 R op=10 fn=0
  1 a = GPR.r0 rs
  1 b = GPR.r1 rt
  2 s = ALU.add a b
  2 u = SH.sll s b
  3 GPR.w0 rd u
end
instr X2 R op=10 fn=1
  1 a = GPR.r0 rs
  1 b = GPR.r1 rt
  2 s = SH.sll a b
  2 u = ALU.add s b
  3 GPR.w0 rd u
end
",
            Some((Fault::ChainLoop, 12)),
        ),
        ("instr Y I op=1\nend\n", Some((Fault::Overlap, 1))),
        (
            "instr X R op=12
  1 o = const 16 1
  1 s = ALU.add o o
end
",
            Some((Fault::TwoStages, 3)),
        ),
        (
            "instr X R op=12
  1 o = const 16 1
  2 s = ALU.add o o
  2 t = ALU.add s o
end
",
            Some((Fault::TwiceInInstruction, 4)),
        ),
        (
            "instr X1 R op=10 fn=0
  1 a = GPR.r0 rs
  1 i = slice 2 0 a
  1 b = GPR.r1 i
end
instr X2 R op=10 fn=1
  1 a = GPR.r1 rs
  1 i = slice 2 0 a
  1 b = GPR.r0 i
end
",
            Some((Fault::ChainLoop, 9)),
        ),
        (
            "instr X I op=10
  1 a = GPR.r0 rs
  2 x = slice 7 0 a
  2 v = DM.read x
  2 s = ALU.add v a
end
",
            Some((Fault::ChainLoop, 5)),
        ),
        (
            "instr X1 R op=10 fn=0
  1 a = GPR.r0 rs
  2 s = SH.sll a a
  2 u = ALU.add s a
end
instr X2 R op=10 fn=1
  1 a = GPR.r0 rs
  2 x = slice 7 0 a
  2 v = DM.read x
  2 u = SH.sll v a
end
",
            Some((Fault::ChainLoop, 10)),
        ),
        (
            "instr X1 R op=10 fn=0
  1 a = GPR.r0 rs
  1 i = slice 2 0 a
  1 b = GPR.r1 i
end
instr X2 R op=10 fn=1
  1 a = GPR.r1 rs
  2 s = ALU.add a a
  3 GPR.w0 rd s
end
",
            None,
        ),
    ]
}

/// The fault of the larger description with further instructions, by the line among these.
fn fault_after(alloc: Global, instructions: &str) -> Result<Option<(Fault, u32)>, Fail> {
    let mut text = String::from_str(alloc, larger())?;
    text.push_str(instructions)?;
    match fault_of(alloc, text.as_str())? {
        Some((kind, line)) => Ok(Some((kind, line.wrapping_sub(69)))),
        None => Ok(None),
    }
}

#[test]
fn further_instructions_of_the_larger_one(rt: HostRuntime) -> Result<(), Fail> {
    for (instructions, fault) in further_instructions() {
        assert_eq!(rt;
            fault_after(rt.alloc(), instructions)?,
            fault,
            "{instructions}"
        );
    }
    Ok(())
}

/// A slow unit whose operand comes from an input in its own stage, and in an earlier one.
fn slow_operands() -> [(&'static str, Option<(Fault, u32)>); 2] {
    [
        ("  2 p = in P", Some((Fault::UnstableOperand, 44))),
        ("  1 p = in P", None),
    ]
}

#[test]
fn operands_of_a_slow_unit(rt: HostRuntime) -> Result<(), Fail> {
    let alloc = rt.alloc();
    for (line, fault) in slow_operands() {
        let text = format!(in alloc;
            "{}instr L A op=4\n  1 a = F.r0 rs\n{line}\n  2 m = X.mullo a p\n  3 F.w0 rd m\nend\n",
            base()
        )?;
        assert_eq!(rt; fault_of(alloc, text.as_str())?, fault, "{line}");
    }
    Ok(())
}
