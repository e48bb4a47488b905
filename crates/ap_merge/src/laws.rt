//! A law of the definitions. It does nothing: its contract is what it says.
ghost use Rattle.std.specs.Prelude.{◌≡◌, ℕ, Bool, Contains, List, Some, slice_get};
ghost use Rattle.ap_desc.specs.Clean.{IsClean};
ghost use Rattle.ap_desc.specs.declared.design.Arg.{Arg};
ghost use Rattle.ap_desc.specs.declared.design.Design.{Design};
ghost use Rattle.ap_path.specs.Tables.{ArePathsOf};
ghost use Rattle.ap_path.specs.Uses.{operand_at};
ghost use Rattle.ap_path.specs.declared.table.PathTable.{PathTable};
ghost use Rattle.ap_path.specs.declared.table.PathUse.{PathUse};
ghost use Rattle.ap_merge.specs.Choices.{AreChoices, IsOnlyInstr, is_entry_on};
ghost use Rattle.ap_merge.specs.Selects.{selected};
ghost use Rattle.ap_merge.specs.declared.table.Choice.{Choice};

/// Of a clean design: where the condition of one instruction alone is 1, what is selected for an operand that a line of this instruction
/// hands in is what that line hands in.
#[tactic(auto, using(crate::proofs::OwnSource::own_selected))]
pub fn own_operands_are_selected()
    ensures { (design : Design) (table : PathTable) (choices : List Choice) (c : Choice)
        (used : PathUse) (a : Arg) (on : ℕ → Bool) → IsClean design → ArePathsOf design table
        → AreChoices table.uses choices → Contains choices c → Contains table.uses used
        → c.port ≡ used.port → operand_at used c.operand ≡ Some a → IsOnlyInstr on used.instr
        → slice_get c.entries (selected (is_entry_on on c.entries) c.select)
        ≡ Some (record { instr = used.instr; from = a }) }
{}
