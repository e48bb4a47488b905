//! A processor of three stages with a register, a file of two write ports, a data memory and an input.
ghost use Rattle.std.specs.Prelude.{IfOk};
ghost use Rattle.ap_desc.specs.Clean.{IsClean};

use ap_check::resolve;
use ap_comb::Alu;
use ap_desc::Description;
use ap_desc::design::Design;
use ap_read::read;
use ap_unit::{Shelf, UnitKind};
use std::alloc::Global;
use std::test::Fail;

/// Its description. Port 1 of the file is written in stage 2, port 0 in stage 1, and register S by no line.
const DESCRIPTION: &str = "\
stages 3
address 6
word 16
transfer 1 1
reg R 16 0
reg S 8 3
file GPR 16 8 2 2
mem DM 8 16
in P 16
unit ALU alu 16
format F op:4 rd:3 rs:3 z:6
instr NOP F op=0 rd=0 rs=0 z=0
end
instr ADD F op=1
  1 a = GPR.r0 rs
  1 b = GPR.r1 rd
  2 s = ALU.add a b
  2 GPR.w1 rd s
end
instr LOAD F op=2
  1 x = zext 8 z
  1 v = DM.read x
  1 GPR.w0 rd v
end
instr OUT F op=3
  1 v = in P
  2 R <- v
end
";

/// A shelf of its one kind.
fn shelf(alloc: Global) -> Result<Shelf, Fail> {
    let mut kinds: Vec<Box<dyn UnitKind>> = Vec::new(alloc);
    kinds.push(Box::new(alloc, Alu)?)?;
    match Shelf::new(kinds) {
        Ok(shelf) => Ok(shelf),
        Err(_) => Err("two kinds have one name")?,
    }
}

fn description(alloc: Global) -> Result<Description, Fail> {
    match read(alloc, DESCRIPTION.as_bytes()) {
        Ok(description) => Ok(description),
        Err(_) => Err("the description isn't read")?,
    }
}

/// The processor.
pub(crate) fn processor(alloc: Global) -> Result<Design, Fail>
    ensures { IfOk result IsClean }
{
    let description = description(alloc)?;
    let shelf = shelf(alloc)?;
    match resolve(alloc, &description, &shelf) {
        Ok(design) => Ok(design),
        Err(_) => Err("the description has a fault")?,
    }
}
