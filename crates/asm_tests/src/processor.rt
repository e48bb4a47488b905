//! The processor of the worked rows: four stages, a file of eight cells, a data memory, a transfer in stage 2 with one slot.
ghost use Rattle.std.specs.Prelude.{IfOk};
ghost use Rattle.ap_desc.specs.Clean.{IsClean};

use ap_check::resolve;
use ap_comb::{Alu, Shift};
use ap_desc::Description;
use ap_desc::design::Design;
use ap_mul::Mul;
use ap_read::read;
use ap_unit::{Shelf, UnitKind};
use std::alloc::Global;
use std::test::Fail;

/// Its description.
const PROCESSOR: &str = "\
stages 4
address 6
word 16
transfer 2 1
file GPR 16 8 2 1
mem DM 8 16
in P 16
unit ALU alu 16
unit SH shift 16
unit MUL mul 16
format R op:4 rd:3 rs:3 rt:3 fn:3
format I op:4 rd:3 rs:3 imm:6
format J op:4 rd:3 z:3 t:6
instr NOP R op=0 rd=0 rs=0 rt=0 fn=0
end
instr ADD R op=1 fn=0
  1 a = GPR.r0 rs
  1 b = GPR.r1 rt
  2 s = ALU.add a b
  3 GPR.w0 rd s
end
instr MUL R op=1 fn=1
  1 a = GPR.r0 rs
  1 b = GPR.r1 rt
  2 s = MUL.mullo a b
  3 GPR.w0 rd s
end
instr SLL R op=1 fn=2
  1 a = GPR.r0 rs
  1 b = GPR.r1 rt
  2 s = SH.sll a b
  3 GPR.w0 rd s
end
instr ADDI I op=2
  1 a = GPR.r0 rs
  1 i = sext 16 imm
  2 s = ALU.add a i
  3 GPR.w0 rd s
end
instr LD I op=3
  1 a = GPR.r0 rs
  1 i = sext 16 imm
  2 s = ALU.add a i
  2 x = slice 7 0 s
  2 v = DM.read x
  3 GPR.w0 rd v
end
instr ST I op=4
  1 a = GPR.r0 rs
  1 v = GPR.r1 rd
  1 i = sext 16 imm
  2 s = ALU.add a i
  2 x = slice 7 0 s
  2 DM.write x v
end
instr BZ J op=5 z=0
  1 a = GPR.r0 rd
  1 o = const 16 0
  2 q = ALU.eq a o
  2 c = slice 0 0 q
  2 branch c t
end
instr JAL J op=6 z=0
  2 jump t
  3 l = zext 16 link
  3 GPR.w0 rd l
end
instr JR J op=7 z=0 t=0
  1 a = GPR.r0 rd
  2 x = slice 5 0 a
  2 jump x
end
instr INP I op=8 rs=0 imm=0
  2 v = in P
  3 GPR.w0 rd v
end
";

/// A shelf of the processor's three kinds.
fn shelf(alloc: Global) -> Result<Shelf, Fail> {
    let mut kinds: Vec<Box<dyn UnitKind>> = Vec::new(alloc);
    kinds.push(Box::new(alloc, Alu)?)?;
    kinds.push(Box::new(alloc, Shift)?)?;
    kinds.push(Box::new(alloc, Mul)?)?;
    match Shelf::new(kinds) {
        Ok(shelf) => Ok(shelf),
        Err(_) => Err("two kinds have one name")?,
    }
}

fn description(alloc: Global) -> Result<Description, Fail> {
    match read(alloc, PROCESSOR.as_bytes()) {
        Ok(description) => Ok(description),
        Err(_) => Err("the description isn't read")?,
    }
}

/// The processor.
pub(crate) fn processor(alloc: Global) -> Result<Design, Fail>
    ensures { IfOk result IsClean }
{
    let description = description(alloc)?;
    let shelf = shelf(alloc)?;
    match resolve(alloc, &description, &shelf) {
        Ok(design) => Ok(design),
        Err(_) => Err("the description has a fault")?,
    }
}
