//! What each sort of statement adds to the design.
ghost use Rattle.std.specs.Prelude.{◌≡◌, ◌≤◌, false};
ghost use Rattle.ap_desc.specs.NameFaults.{is_missing, is_no_kind};
ghost use Rattle.ap_desc.specs.Parts.{kind_names};
ghost use Rattle.ap_desc.specs.Instructions as instructions;

use crate::draft::Draft;
use crate::stop::Stop;
use crate::uses::Use;
use ap_bits::Name;
use ap_desc::{FieldNumber, Numbered, Statement};
use ap_unit::{Shelf, UnitKind};
use std::alloc::Global;

/// The stage of a line of an instruction, 0 for other statements.
fn stage_of(statement: &Statement) -> u64
    ensures { result ≡ instructions.stage_of statement.now }
{
    match statement {
        Statement::Compute { stage, .. }
        | Statement::ReadFile { stage, .. }
        | Statement::ReadRegister { stage, .. }
        | Statement::ReadMemory { stage, .. }
        | Statement::ReadInput { stage, .. }
        | Statement::Const { stage, .. }
        | Statement::Zext { stage, .. }
        | Statement::Sext { stage, .. }
        | Statement::Slice { stage, .. }
        | Statement::Cat { stage, .. }
        | Statement::WriteFile { stage, .. }
        | Statement::WriteRegister { stage, .. }
        | Statement::WriteMemory { stage, .. }
        | Statement::Branch { stage, .. }
        | Statement::Jump { stage, .. } => *stage,
        _ => 0,
    }
}

impl Draft {
    ghost use Rattle.ap_bits.specs.declared.card.Card.{Card};
    ghost use Rattle.ap_check.specs.Added.{HasFewFields, HasFixed, IsAdded, IsInstrAdded, IsLineAdded};
    ghost use Rattle.ap_check.specs.Drafts.{IsSaid};
    ghost use Rattle.ap_desc.specs.Spelling.{field_names};
    ghost use Rattle.ap_desc.specs.declared.statement.Statement.TheVariants as s;
    ghost use Rattle.ap_unit.specs.Shelves.{cards_of};

    /// `unit NAME KIND WIDTH`. A shelf without the kind adds nothing.
    fn unit_of(
        &mut self,
        alloc: Global,
        shelf: &Shelf,
        name: &Name,
        kind: &Name,
        width: u64,
    ) -> Result<(), Stop>
        requires { is_missing kind.now (kind_names (cards_of card shelf.now)) ≡ false }
        ensures { IsSaid (cards_of card shelf.now) 0 self.old
            (s.Unit name.now kind.now width) self.new result }
    {
        match shelf.find(kind.as_str()) {
            Some(place) => self.unit(alloc, shelf.kind(place), place as u32, name, width),
            None => Ok(()),
        }
    }

    /// `instr NAME FORMAT FIELD=VALUE ..`
    fn begin(
        &mut self,
        alloc: Global,
        line: u32,
        name: &Name,
        format: &Name,
        fixed: &[FieldNumber],
        used: &Use,
    ) -> Result<(), Stop>
        requires word { self.old.design.word ≤ 64 }
        requires fixed { HasFixed (s.Instr name.now format.now fixed.now) used.now }
        ensures { IsInstrAdded line self.old name.now fixed.now used.now self.new result }
    {
        match used {
            Use::Format(place, names) => {
                self.instr(alloc, line, name, *place, names, fixed)?;
                Ok(())
            }
            _ => Ok(()),
        }
    }

    /// A line of an instruction.
    fn line(&mut self, n: &Numbered, used: &Use) -> Result<(), Stop>
        ensures { IsLineAdded n.now.line self.old n.now.statement used.now self.new result }
    {
        match used {
            Use::Line(act) => self.add_line(n.line, stage_of(&n.statement), *act),
            _ => Ok(()),
        }
    }

    /// Adds what a statement describes that uses this, or answers its first fault of widths.
    #[tactic(auto, using(crate::proofs::FirstFaults::width_faults))]
    pub(crate) fn add(
        &mut self,
        alloc: Global,
        shelf: &Shelf,
        n: &Numbered,
        used: &Use,
    ) -> Result<(), Stop>
        requires word { self.old.design.word ≤ 64 }
        requires few { HasFewFields n.now.statement }
        requires fixed { HasFixed n.now.statement used.now }
        requires kind { is_no_kind (cards_of card shelf.now) n.now.statement ≡ false }
        ensures { IsAdded (cards_of card shelf.now) n.now.line self.old n.now.statement
            used.now self.new result }
    {
        match &n.statement {
            Statement::Stages { count } => self.stages(*count),
            Statement::Address { bits } => self.address(*bits),
            Statement::Word { bits } => self.word(*bits),
            Statement::Transfer { stage, slots } => self.transfer(n.line, *stage, *slots),
            Statement::Reg { name, width, reset } => self.reg(alloc, name, *width, *reset),
            Statement::File {
                name,
                width,
                cells,
                reads,
                writes,
            } => { self.file(alloc, name, *width, *cells, *reads, *writes) }
            Statement::Mem {
                name,
                address,
                width,
            } => self.mem(alloc, name, *address, *width),
            Statement::In { name, width } => self.input(alloc, name, *width),
            Statement::Unit { name, kind, width } => {
                self.unit_of(alloc, shelf, name, kind, *width)
            }
            Statement::Format { name, fields } => {
                self.format(alloc, n.line, name, fields.as_slice())
            }
            Statement::Instr {
                name,
                format,
                fixed,
            } => { self.begin(alloc, n.line, name, format, fixed.as_slice(), used) }
            Statement::End => Ok(()),
            _ => self.line(n, used),
        }
    }
}
