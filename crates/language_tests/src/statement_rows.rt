//! Worked rows: what the definitions say of example lines and small texts, and what the calls write.
ghost use Rattle.std.specs.Prelude.{◌≡◌, [], ◌∷◌, ◌++◌, map, codes, Some, None, false};
ghost use Rattle.ap_text.specs.Lines.{lines_of, text_line, tokens_of};
ghost use Rattle.ap_desc.specs.Descriptions.{IsDescription};
ghost use Rattle.ap_desc.specs.Designs.{Matches, field_value};
ghost use Rattle.ap_desc.specs.Faults.{HasFormFault, IsBefore, SaysNothing, is_missing_some};
ghost use Rattle.ap_desc.specs.Shelf.{IsOfCards};
ghost use Rattle.ap_desc.specs.Sound.{IsEncoded, IsSound};
ghost use Rattle.ap_desc.specs.Reading.{ReadsAs};
ghost use Rattle.ap_desc.specs.Examples.{smallest, smallest_design, adder_card, adder_design, adder_fields, adder_instr};
ghost use Rattle.ap_desc.specs.declared.design.Field.{Field};
ghost use Rattle.ap_desc.specs.Spelling.{Spells};

use ap_desc::{Fault, Statement, Word};

/// The header, the declarations and a format.
fn declarations()
    ensures stages { Spells (Statement.Stages 4) (tokens_of (codes "stages 4")) }
    ensures address { Spells (Statement.Address 6) (tokens_of (codes "address 0x06")) }
    ensures word { Spells (Statement.Word 16) (tokens_of (codes "word\t16 # bits")) }
    ensures transfer { Spells (Statement.Transfer 2 1) (tokens_of (codes "transfer 2 1")) }
    ensures reg { Spells (Statement.Reg (codes "R") 16 255) (tokens_of (codes "reg R 16 0xff")) }
    ensures file { Spells (Statement.File (codes "GPR") 16 8 2 1)
        (tokens_of (codes "file GPR 16 8 2 1")) }
    ensures mem { Spells (Statement.Mem (codes "DM") 8 16) (tokens_of (codes "mem DM 8 16")) }
    ensures input { Spells (Statement.In (codes "P") 16) (tokens_of (codes "in P 16")) }
    ensures resource { Spells (Statement.Unit (codes "ALU") (codes "alu") 16)
        (tokens_of (codes "unit ALU alu 16")) }
    ensures format { Spells (Statement.Format (codes "R")
        (record { field = codes "op"; number = 4 } ∷ record { field = codes "rd"; number = 3 }
        ∷ [])) (tokens_of (codes "format R op:4 rd:0x3")) }
{}

/// What begins, ends and transfers, and the writes.
fn instructions()
    ensures instr { Spells (Statement.Instr (codes "ADD") (codes "R")
        (record { field = codes "op"; number = 1 } ∷ [])) (tokens_of (codes "instr ADD R op=1")) }
    ensures free_instr { Spells (Statement.Instr (codes "ADD") (codes "R") [])
        (tokens_of (codes "instr ADD R")) }
    ensures write_file { Spells (Statement.WriteFile 3 (codes "GPR") 1 (Word.Named (codes "rd"))
        (Word.Named (codes "s")) None) (tokens_of (codes "  3 GPR.w1 rd s")) }
    ensures write_register { Spells
        (Statement.WriteRegister 1 (codes "R") (Word.Named (codes "s")) None)
        (tokens_of (codes "  1 R <- s")) }
    ensures write_memory { Spells (Statement.WriteMemory 2 (codes "DM") (Word.Named (codes "x"))
        (Word.Named (codes "v")) None) (tokens_of (codes "  2 DM.write x v")) }
    ensures guarded_file { Spells (Statement.WriteFile 3 (codes "GPR") 0 (Word.Named (codes "rd"))
        (Word.Named (codes "s")) (Some (Word.Named (codes "g"))))
        (tokens_of (codes "  3 GPR.w0 rd s when g")) }
    ensures guarded_register { Spells
        (Statement.WriteRegister 1 (codes "R") Word.Link (Some (Word.Named (codes "g"))))
        (tokens_of (codes "  1 R <- link when g")) }
    ensures guarded_memory { Spells
        (Statement.WriteMemory 2 (codes "DM") (Word.Named (codes "x")) (Word.Named (codes "v"))
        (Some (Word.Named (codes "g")))) (tokens_of (codes "  2 DM.write x v when g")) }
    ensures branch { Spells (Statement.Branch 2 (Word.Named (codes "c")) (Word.Named (codes "t")))
        (tokens_of (codes "  2 branch c t")) }
    ensures jump { Spells (Statement.Jump 2 Word.Pc) (tokens_of (codes "  2 jump pc")) }
    ensures done { Spells (Statement.End) (tokens_of (codes "end")) }
{}

/// What assigns a local. Where a port's number stands, any other text with two operands is an operation.
fn locals()
    ensures compute { Spells (Statement.Compute 2 (codes "s") (codes "ALU") (codes "add")
        (Word.Named (codes "a")) (Word.Named (codes "b")))
        (tokens_of (codes "  2 s = ALU.add a b")) }
    ensures compute_like_port { Spells
        (Statement.Compute 1 (codes "x") (codes "F") (codes "r0") (Word.Named (codes "a"))
        (Word.Named (codes "b"))) (tokens_of (codes "1 x = F.r0 a b")) }
    ensures read_file { Spells (Statement.ReadFile 1 (codes "a") (codes "GPR") 0
        (Word.Named (codes "rs"))) (tokens_of (codes "  1 a = GPR.r0 rs")) }
    ensures read_register { Spells (Statement.ReadRegister 1 (codes "a") (codes "R"))
        (tokens_of (codes "  1 a = R")) }
    ensures read_memory { Spells (Statement.ReadMemory 2 (codes "v") (codes "DM")
        (Word.Named (codes "x"))) (tokens_of (codes "  2 v = DM.read x")) }
    ensures read_input { Spells (Statement.ReadInput 2 (codes "v") (codes "P"))
        (tokens_of (codes "  2 v = in P")) }
    ensures constant { Spells (Statement.Const 1 (codes "o") 16 0)
        (tokens_of (codes "  1 o = const 16 0")) }
    ensures zext { Spells (Statement.Zext 3 (codes "l") 16 Word.Link)
        (tokens_of (codes "  3 l = zext 16 link")) }
    ensures sext { Spells (Statement.Sext 1 (codes "i") 16 (Word.Named (codes "imm")))
        (tokens_of (codes "  1 i = sext 16 imm")) }
    ensures slice { Spells (Statement.Slice 2 (codes "x") 7 0 (Word.Named (codes "s")))
        (tokens_of (codes "  2 x = slice 7 0 s")) }
    ensures cat { Spells (Statement.Cat 2 (codes "y") (Word.Named (codes "a")) Word.Pc)
        (tokens_of (codes "  2 y = cat a pc")) }
{}

/// Faults of form on small texts. A text that lacks something has that fault at line 0, whatever else it has.
#[tactic(auto, unfolding(ap_text::specs::Lines::lines_of))]
fn faults_of_form()
    ensures stray_end { HasFormFault (codes "stages 2\nend\n") Fault.BadOrder 2 }
    ensures second_header { HasFormFault (codes "stages 2\n\nstages 0x2\n") Fault.BadOrder 3 }
    ensures no_number { HasFormFault (codes "stages two\n") Fault.BadLine 1 }
    ensures too_many { HasFormFault
        (codes "mem A 1 1\nmem B 1 1\nmem C 1 1\nmem D 1 1\nmem E 1 1") Fault.TooMany 5 }
    ensures no_transfer { HasFormFault
        (codes "stages 2\naddress 4\nword 8\nformat R op:8\ninstr NOP R op=0\nend\n") Fault.Missing
        0 }
    ensures other_name { HasFormFault
        (codes "stages 2\naddress 4\nword 8\ntransfer 1 0\nformat R op:8\ninstr NOPE R op=0\nend\n")
        Fault.Missing 0 }
    ensures carriage_return { HasFormFault
        (codes "stages 2\naddress 4\nword 8\ntransfer 1 0\nformat R op:8\ninstr NOP R op=0\nend\r\n") Fault.Missing 0 }
    ensures more_than_end { HasFormFault
        (codes "stages 2\naddress 4\nword 8\ntransfer 1 0\nformat R op:8\ninstr NOP R op=0\nend end\n") Fault.Missing 0 }
    ensures none_missing { is_missing_some
        (lines_of (codes "stages 2\naddress 4\nword 8\ntransfer 1 0\nformat R op:8\ninstr NOP R op=0\nend\n")) ≡ false }
{}

/// The smallest description: what its text says, and that this is a description.
fn smallest_description()
    ensures reads { ReadsAs (codes "stages 2\naddress 4\nword 8\ntransfer 1 0\nformat R op:8\ninstr NOP R op=0\nend\n") smallest }
    ensures description { IsDescription smallest }
{}

/// Designs that are sound, and one whose words are without fault.
fn sound_designs()
    ensures smallest { IsSound smallest_design }
    ensures adder { IsSound adder_design }
    ensures encoded { IsEncoded smallest_design }
{}

/// The four stages' one unit is of the card of a kind that adds, and of no card of an empty shelf.
fn cards_of_designs()
    ensures adder { IsOfCards adder_design (adder_card ∷ []) }
    ensures empty { IsOfCards adder_design [] → ⊥ }
{}

/// The word of an addition of cells 1 and 1 into cell 2 matches it, and NOP's and another operation's don't.
fn matching_words()
    ensures own { Matches adder_instr 0x1448 }
    ensures nop { Matches adder_instr 0 → ⊥ }
    ensures other_operation { Matches adder_instr 0x1449 → ⊥ }
    ensures operands { map (λ (f : Field). field_value f 0x1448) adder_fields
        ≡ 1 ∷ 2 ∷ 1 ∷ 1 ∷ 0 ∷ [] }
{}

/// Lines that say nothing: a byte that isn't allowed, no form, a word of the language as a name, a number that is none.
fn says_nothing()
    ensures carriage_return { SaysNothing (text_line 1 (codes "end\r")) }
    ensures two_ends { SaysNothing (text_line 1 (codes "end end")) }
    ensures no_register { SaysNothing (text_line 1 (codes "1 x = pc")) }
    ensures reserved { SaysNothing (text_line 1 (codes "reg in 8 0")) }
    ensures reserved_kind { SaysNothing (text_line 1 (codes "unit U data 8")) }
    ensures begins_with_digit { SaysNothing (text_line 1 (codes "mem 1M 8 8")) }
    ensures no_field { SaysNothing (text_line 1 (codes "format R")) }
    ensures no_width { SaysNothing (text_line 1 (codes "format R op:")) }
    ensures two_digits { SaysNothing (text_line 1 (codes "1 a = F.r10 i")) }
    ensures upper_prefix { SaysNothing (text_line 1 (codes "word 0X8")) }
    ensures too_large { SaysNothing (text_line 1 (codes "word 18446744073709551616")) }
{}

/// The order of faults: the phase decides before the line, and the line before the number.
fn order_of_faults()
    ensures phase { IsBefore Fault.BadLine 9 Fault.Unknown 1 }
    ensures line { IsBefore Fault.Missing 0 Fault.BadLine 1 }
    ensures number { IsBefore Fault.BadLine 2 Fault.TooMany 2 }
    ensures later_phase { IsBefore Fault.Range 5 Fault.Unknown 6 → ⊥ }
    ensures itself { IsBefore Fault.BadOrder 2 Fault.BadOrder 2 → ⊥ }
{}
