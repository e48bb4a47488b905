use ap_desc::Statement;
use ap_read::statement::statement;
use std::alloc::{AllocError, Global};
use std::test::Fail;

/// The form of what was found.
fn form_of(found: &Option<Statement>) -> &'static str {
    let Some(statement) = found else {
        return "none";
    };
    match statement {
        Statement::Stages { .. } => "stages",
        Statement::Address { .. } => "address",
        Statement::Word { .. } => "word",
        Statement::Transfer { .. } => "transfer",
        Statement::Reg { .. } => "reg",
        Statement::File { .. } => "file",
        Statement::Mem { .. } => "mem",
        Statement::In { .. } => "in",
        Statement::Unit { .. } => "unit",
        Statement::Format { .. } => "format",
        Statement::Instr { .. } => "instr",
        Statement::Compute { .. } => "compute",
        Statement::ReadFile { .. } => "read file",
        Statement::ReadRegister { .. } => "read register",
        Statement::ReadMemory { .. } => "read memory",
        Statement::ReadInput { .. } => "read input",
        Statement::Const { .. } => "const",
        Statement::Zext { .. } => "zext",
        Statement::Sext { .. } => "sext",
        Statement::Slice { .. } => "slice",
        Statement::Cat { .. } => "cat",
        Statement::WriteFile { .. } => "write file",
        Statement::WriteRegister { .. } => "write register",
        Statement::WriteMemory { .. } => "write memory",
        Statement::Branch { .. } => "branch",
        Statement::Jump { .. } => "jump",
        Statement::End => "end",
    }
}

/// The tokens of a line with one space between them.
fn tokens_of<'a>(alloc: Global, line: &'a str) -> Result<Vec<&'a [u8]>, AllocError> {
    line.split(' ').map(|token| token.as_bytes()).collect(alloc)
}

/// Lines of each form, and what they are.
const LINES: &str = "\
stages 4 -> stages
address 0x0C -> address
word 018 -> word
transfer 1 18446744073709551615 -> transfer
reg R 16 0xff -> reg
file GPR 16 8 2 1 -> file
mem DM 8 16 -> mem
in P 16 -> in
unit ALU alu 16 -> unit
format R op:4 rd:0x3 -> format
instr NOP R -> instr
instr ADD R op=1 fn=0 -> instr
end -> end
2 s = ALU.add a pc -> compute
1 x = F.r0 a b -> compute
1 x = M.read a b -> compute
0x1 a = GPR.r9 rs -> read file
1 a = R -> read register
2 v = DM.read x -> read memory
2 v = in P -> read input
1 o = const 16 0 -> const
3 l = zext 16 link -> zext
1 i = sext 16 imm -> sext
2 x = slice 7 0 s -> slice
2 y = cat a pc -> cat
3 GPR.w0 rd s -> write file
3 GPR.w9 rd s when g -> write file
1 R <- s -> write register
1 R <- link when pc -> write register
2 DM.write x v -> write memory
2 DM.write x v when g -> write memory
2 branch c t -> branch
2 jump pc -> jump
";

/// Lines that say nothing.
const NO_LINES: &str = "\
end end
end\r
END
stages
stages 4 4
reg R 8
format R
format R op
format R op:8 rd=1
format R op:8 :4
instr NOP
instr NOP R op:0
instr NOP R op=0 rd=
1
1 x
1 x =
1 x = pc
1 x = R R
1 x = in
1 x := R
1 x = cat a
1 x = slice 7 s
1 R <-
1 R <- s when
1 R <- s if g
1 R <- s when g h
1 jump
1 branch c t u
one jump t
1 x = F.r10 i
1 x = F.r i
1 x = F.R0 i
1 x = F.w0 i
1 x = F.reads i
1 x = F.r0
1 x = F. i
1 x = .r0 i
1 x = F.r0.r1 i
1 x = U.a.b p q
1 F.w10 i v
1 F.r0 i v
1 F.W0 i v
1 M.read i v
1 M.write i
1 F.w1 i v g
reg in 8 0
reg data 8 0
unit U link 8
unit U mem 8
1 x = U.code a b
1 x = U.cat a b
1 end = R
1 x = zext 8 when
1 R <- when
instr NOP R pc=0
mem 1M 8 8
mem M_1 8 8
in abcdefghijklmnopqrstuvwxyz0123456 8
word 0X8
word 0x
word 0x1g
word -1
word 18446744073709551616
word 0x10000000000000000
0x jump t
18446744073709551616 jump t
instr NOP R op=0x
format R op:
";

#[test]
fn every_form(rt: HostRuntime) -> Result<(), Fail> {
    let alloc = rt.alloc();
    for row in LINES.lines() {
        let Some((line, form)) = row.split_once(" -> ") else {
            panic!(rt; "no row: {row}");
        };
        let tokens = tokens_of(alloc, line)?;
        let found = statement(alloc, tokens.as_slice())?;
        assert_eq!(rt; form_of(&found), form, "{line}");
    }
    Ok(())
}

#[test]
fn no_form(rt: HostRuntime) -> Result<(), Fail> {
    let alloc = rt.alloc();
    for line in NO_LINES.split('\n') {
        let tokens = tokens_of(alloc, line)?;
        let found = statement(alloc, tokens.as_slice())?;
        assert_eq!(rt; form_of(&found), "none", "{line}");
    }
    Ok(())
}
