//! Worked rows: what the definitions say of faults of names and widths, each of a line that has the fault and of one like it that hasn't.
ghost use Rattle.std.specs.Prelude.{◌≡◌, [], ◌∷◌, IsTrue, codes, false, Some, None};
ghost use Rattle.ap_desc.specs.DesignOf.{design_of};
ghost use Rattle.ap_desc.specs.Examples.{adder_card, adder_design, adder_statements, smallest, smallest_design};
ghost use Rattle.ap_desc.specs.LineExamples.{in_header, in_parts, in_instr, local_a, local_b};

use ap_desc::{Fault, Statement, Word};

/// The designs of two descriptions.
fn designs()
    ensures smallest { design_of smallest [] ≡ smallest_design }
    ensures adder { design_of adder_statements (adder_card ∷ []) ≡ adder_design }
{}

/// What is named has to be declared, of the sort that the form needs; a local by an earlier line.
fn unknown_names()
    ensures register { IsTrue (in_instr
        (Statement.ReadRegister 1 (codes "x") (codes "Q")) Fault.Unknown) }
    ensures register_there { in_instr
        (Statement.ReadRegister 1 (codes "x") (codes "R")) Fault.Unknown ≡ false }
    ensures register_is_file { IsTrue
        (in_instr (Statement.ReadRegister 1 (codes "x") (codes "F")) Fault.Unknown) }
    ensures read_port { IsTrue (in_instr
        (Statement.ReadFile 1 (codes "x") (codes "F") 1 local_b) Fault.Unknown) }
    ensures read_port_there { in_instr
        (Statement.ReadFile 1 (codes "x") (codes "F") 0 local_b) Fault.Unknown ≡ false }
    ensures own_local { IsTrue (in_instr
        (Statement.ReadFile 1 (codes "x") (codes "F") 0 (Word.Named (codes "x"))) Fault.Unknown) }
    ensures memory_like_unit { IsTrue
        (in_instr (Statement.Compute 1 (codes "x") (codes "M") (codes "read") local_a local_a)
        Fault.Unknown) }
    ensures guard { IsTrue (in_instr
        (Statement.WriteRegister 2 (codes "R") local_a (Some (Word.Named (codes "h"))))
        Fault.Unknown) }
    ensures guard_there { in_instr (Statement.WriteRegister 2 (codes "R") local_a
        (Some (Word.Named (codes "g")))) Fault.Unknown ≡ false }
    ensures format { IsTrue (in_instr (Statement.Instr (codes "J") (codes "H") []) Fault.Unknown) }
    ensures field { IsTrue (in_instr
        (Statement.Instr (codes "J") (codes "G") (record { field = codes "z"; number = 0 } ∷ []))
        Fault.Unknown) }
    ensures field_there { in_instr (Statement.Instr (codes "J") (codes "G")
        (record { field = codes "v"; number = 0 } ∷ [])) Fault.Unknown ≡ false }
{}

/// A name is declared once in its space. A local may be named as a register is, and not as any field of the format.
fn names_twice()
    ensures part { IsTrue (in_parts (Statement.In (codes "R") 8) Fault.Twice) }
    ensures part_new { in_parts (Statement.In (codes "Q") 8) Fault.Twice ≡ false }
    ensures local { IsTrue (in_instr (Statement.Const 1 (codes "b") 8 1) Fault.Twice) }
    ensures local_field { IsTrue (in_instr (Statement.Const 1 (codes "op") 8 1) Fault.Twice) }
    ensures local_new { in_instr (Statement.Const 1 (codes "R") 8 1) Fault.Twice ≡ false }
    ensures format { IsTrue (in_instr
        (Statement.Format (codes "G") (record { field = codes "x"; number = 8 } ∷ []))
        Fault.Twice) }
    ensures two_fields { IsTrue (in_parts
        (Statement.Format (codes "G") (record { field = codes "x"; number = 4 }
        ∷ record { field = codes "x"; number = 4 } ∷ [])) Fault.Twice) }
    ensures instr { IsTrue (in_instr (Statement.Instr (codes "NOP") (codes "G") []) Fault.Twice) }
    ensures fixed { IsTrue (in_instr
        (Statement.Instr (codes "J") (codes "G")
        (record { field = codes "v"; number = 0 } ∷ record { field = codes "v"; number = 0 } ∷ []))
        Fault.Twice) }
    ensures instr_new { in_instr (Statement.Instr (codes "R") (codes "G")
        (record { field = codes "v"; number = 0 } ∷ [])) Fault.Twice ≡ false }
{}

/// Kinds and operations are those of the shelf. Of a name that is no unit nothing is said of operations.
fn shelf_names()
    ensures kind { IsTrue (in_parts (Statement.Unit (codes "V") (codes "mul") 8) Fault.NoKind) }
    ensures kind_there { in_parts (Statement.Unit (codes "V") (codes "alu") 8) Fault.NoKind
        ≡ false }
    ensures operation { IsTrue (in_instr
        (Statement.Compute 1 (codes "x") (codes "U") (codes "r0") local_a local_a)
        Fault.NoOperation) }
    ensures operation_there { in_instr
        (Statement.Compute 1 (codes "x") (codes "U") (codes "add") local_a local_a)
        Fault.NoOperation ≡ false }
    ensures no_unit { in_instr (Statement.Compute 1 (codes "x") (codes "M")
        (codes "read") local_a local_a) Fault.NoOperation ≡ false }
{}

/// Numbers have limits. B is below the number of stages, a field is at most as wide as a word, and two operands side by side have at
/// most 64 bits.
fn ranges()
    ensures stages { IsTrue (in_header (Statement.Stages 9) Fault.Range) }
    ensures stages_right { in_header (Statement.Stages 8) Fault.Range ≡ false }
    ensures address { IsTrue (in_header (Statement.Address 3) Fault.Range) }
    ensures word { IsTrue (in_header (Statement.Word 65) Fault.Range) }
    ensures branch { IsTrue (in_header (Statement.Transfer 4 0) Fault.Range) }
    ensures slots { IsTrue (in_header (Statement.Transfer 3 9) Fault.Range) }
    ensures slots_right { in_header (Statement.Transfer 3 8) Fault.Range ≡ false }
    ensures register { IsTrue (in_header (Statement.Reg (codes "Q") 65 0) Fault.Range) }
    ensures cells { IsTrue (in_header (Statement.File (codes "Q") 8 3 1 1) Fault.Range) }
    ensures cells_right { in_header (Statement.File (codes "Q") 8 64 4 2) Fault.Range ≡ false }
    ensures read_ports { IsTrue (in_header (Statement.File (codes "Q") 8 4 5 1) Fault.Range) }
    ensures memory { IsTrue (in_header (Statement.Mem (codes "Q") 17 8) Fault.Range) }
    ensures field { IsTrue (in_header
        (Statement.Format (codes "H") (record { field = codes "x"; number = 9 } ∷ []))
        Fault.Range) }
    ensures field_right { in_header
        (Statement.Format (codes "H") (record { field = codes "x"; number = 8 }
        ∷ record { field = codes "y"; number = 8 } ∷ [])) Fault.Range ≡ false }
    ensures stage { IsTrue (in_instr (Statement.Jump 4 Word.Pc) Fault.Range) }
    ensures stage_right { in_instr (Statement.Jump 3 Word.Pc) Fault.Range ≡ false }
    ensures constant { IsTrue (in_instr (Statement.Const 1 (codes "x") 0 0) Fault.Range) }
    ensures extension { IsTrue (in_instr (Statement.Zext 1 (codes "x") 65 local_a) Fault.Range) }
    ensures extension_right { in_instr (Statement.Zext 1 (codes "x") 64 local_a) Fault.Range
        ≡ false }
{}

/// Operands have the widths that their line needs: of 8 bits as the register, the file, the memory and the unit, of 2 bits for one of
/// four cells, of 4 bits for a memory's address.
fn widths()
    ensures unit { IsTrue (in_instr
        (Statement.Compute 2 (codes "x") (codes "U") (codes "add") local_a local_b) Fault.Differs) }
    ensures unit_right { in_instr (Statement.Compute 2 (codes "x") (codes "U")
        (codes "add") local_a local_a) Fault.Differs ≡ false }
    ensures index { IsTrue (in_instr
        (Statement.ReadFile 2 (codes "x") (codes "F") 0 local_a) Fault.Differs) }
    ensures index_right { in_instr (Statement.ReadFile 2 (codes "x") (codes "F") 0 local_b)
        Fault.Differs ≡ false }
    ensures address { IsTrue (in_instr
        (Statement.ReadMemory 2 (codes "x") (codes "M") local_a) Fault.Differs) }
    ensures address_right { in_instr
        (Statement.ReadMemory 2 (codes "x") (codes "M") (Word.Named (codes "op"))) Fault.Differs
        ≡ false }
    ensures value { IsTrue (in_instr
        (Statement.WriteRegister 2 (codes "R") local_b None) Fault.Differs) }
    ensures value_right { in_instr (Statement.WriteRegister 2 (codes "R") local_a (Some local_a))
        Fault.Differs ≡ false }
    ensures narrow { IsTrue (in_instr (Statement.Sext 2 (codes "x") 7 local_a) Fault.Differs) }
    ensures narrow_right { in_instr (Statement.Sext 2 (codes "x") 8 local_a) Fault.Differs ≡ false }
    ensures slice_order { IsTrue (in_instr
        (Statement.Slice 2 (codes "x") 0 1 local_a) Fault.Slice) }
    ensures slice_end { IsTrue (in_instr (Statement.Slice 2 (codes "x") 8 0 local_a) Fault.Slice) }
    ensures slice_right { in_instr (Statement.Slice 2 (codes "x") 7 7 local_a) Fault.Slice ≡ false }
{}

/// Constants and values at the start fit, guards and conditions have one bit, targets are as wide as an address, and a kind allows the
/// width of its unit.
fn constants_and_tests()
    ensures constant { IsTrue (in_instr (Statement.Const 2 (codes "x") 2 4) Fault.TooWideConstant) }
    ensures constant_right { in_instr (Statement.Const 2 (codes "x") 2 3) Fault.TooWideConstant
        ≡ false }
    ensures reset { IsTrue (in_header (Statement.Reg (codes "Q") 3 8) Fault.TooWideConstant) }
    ensures reset_right { in_header (Statement.Reg (codes "Q") 3 7) Fault.TooWideConstant ≡ false }
    ensures guard { IsTrue (in_instr
        (Statement.WriteRegister 2 (codes "R") local_a (Some local_b)) Fault.NotOneBit) }
    ensures guard_right { in_instr (Statement.WriteRegister 2 (codes "R") local_a
        (Some (Word.Named (codes "g")))) Fault.NotOneBit ≡ false }
    ensures condition { IsTrue (in_instr (Statement.Branch 2 local_a Word.Pc) Fault.NotOneBit) }
    ensures condition_right { in_instr
        (Statement.Branch 2 (Word.Named (codes "g")) Word.Pc) Fault.NotOneBit ≡ false }
    ensures target { IsTrue (in_instr (Statement.Jump 2 local_a) Fault.Target) }
    ensures target_right { in_instr (Statement.Jump 2 Word.Link) Fault.Target ≡ false }
    ensures kind { IsTrue (in_parts
        (Statement.Unit (codes "V") (codes "shift") 3) Fault.KindRefuses) }
    ensures kind_right { in_parts (Statement.Unit (codes "V") (codes "shift") 4) Fault.KindRefuses
        ≡ false }
{}
