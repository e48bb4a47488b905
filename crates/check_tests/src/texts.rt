//! Descriptions that the tests change in places.

use std::alloc::Global;
use std::test::Fail;

/// A description with every sort of statement; its lines are numbered from 1.
pub fn base() -> &'static str {
    "stages 4
address 6
word 16
transfer 2 1
reg R 16 65535
reg ONE 1 0
file F 16 8 2 1
mem M 8 16
in P 16
unit U alu 16
unit X mul 16
format A op:4 rd:3 rs:3 imm:6
format B op:4 wide:12
instr NOP A op=0 rd=0 rs=0 imm=0
end
instr I A op=1 rd=7
  1 a = F.r0 rs
  1 i = sext 16 imm
  1 p = in P
  1 k = const 16 65535
  1 g = ONE
  2 s = U.add a i
  2 x = slice 7 0 s
  2 v = M.read x
  2 m = X.mullo a i
  2 z = zext 16 x
  2 c = cat x x
  3 F.w0 rd v when g
  3 R <- c
  3 M.write x m
end
instr J B op=2
  1 a = R
  1 g = slice 15 15 a
  2 branch g pc
  2 l = zext 16 link
end
instr K A op=3
  2 jump imm
end
"
}

/// The smallest one, whose one instruction does nothing.
pub fn small() -> &'static str {
    "stages 2
address 4
word 8
transfer 1 0
format R op:8
instr NOP R op=0
end
"
}

/// A larger one, with transfers, a file, a memory and an input; it has no fault.
pub fn larger() -> &'static str {
    "stages 4
address 6
word 16
transfer 2 1
file GPR 16 8 2 1
mem DM 8 16
in P 16
unit ALU alu 16
unit SH shift 16
format R op:4 rd:3 rs:3 rt:3 fn:3
format I op:4 rd:3 rs:3 imm:6
format J op:4 rd:3 z:3 t:6
instr NOP R op=0 rd=0 rs=0 rt=0 fn=0
end
instr ADD R op=1 fn=0
  1 a = GPR.r0 rs
  1 b = GPR.r1 rt
  2 s = ALU.add a b
  3 GPR.w0 rd s
end
instr SLL R op=1 fn=2
  1 a = GPR.r0 rs
  1 b = GPR.r1 rt
  2 s = SH.sll a b
  3 GPR.w0 rd s
end
instr ADDI I op=2
  1 a = GPR.r0 rs
  1 i = sext 16 imm
  2 s = ALU.add a i
  3 GPR.w0 rd s
end
instr LD I op=3
  1 a = GPR.r0 rs
  1 i = sext 16 imm
  2 s = ALU.add a i
  2 x = slice 7 0 s
  2 v = DM.read x
  3 GPR.w0 rd v
end
instr ST I op=4
  1 a = GPR.r0 rs
  1 v = GPR.r1 rd
  1 i = sext 16 imm
  2 s = ALU.add a i
  2 x = slice 7 0 s
  2 DM.write x v
end
instr BZ J op=5 z=0
  1 a = GPR.r0 rd
  1 o = const 16 0
  2 q = ALU.eq a o
  2 c = slice 0 0 q
  2 branch c t
end
instr JAL J op=6 z=0
  2 jump t
  3 l = zext 16 link
  3 GPR.w0 rd l
end
instr JR J op=7 z=0 t=0
  1 a = GPR.r0 rd
  2 x = slice 5 0 a
  2 jump x
end
instr INP I op=8 rs=0 imm=0
  2 v = in P
  3 GPR.w0 rd v
end
"
}

/// The text with another line, or several, in the place of the one of this number, counted from 1; 0 is none.
pub fn changed(alloc: Global, text: &str, number: u32, line: &str) -> Result<String, Fail> {
    let mut made = String::new(alloc);
    let mut at: u32 = 0;
    for old in text.lines() {
        at = at.wrapping_add(1);
        made.push_str(if at == number { line } else { old })?;
        made.push_str("\n")?;
    }
    Ok(made)
}
