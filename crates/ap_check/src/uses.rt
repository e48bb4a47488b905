//! What a statement uses of what is declared before it, and what it declares.
ghost use Rattle.std.specs.Prelude.{◌≡◌, IfErr, IfOk, MatchOption, OnOk, [], option_map, false, true};
ghost use Rattle.std.specs.List.{list_any};
ghost use Rattle.ap_bits.specs.Cards.{operation_names};
ghost use Rattle.ap_check.specs.Uses.{IsAssigned};
ghost use Rattle.ap_desc.specs.NameFaults.{is_missing};
ghost use Rattle.ap_desc.specs.Parts.{card_named};
ghost use Rattle.ap_unit.specs.Shelves.{cards_of};
ghost use Rattle.std.specs.Option.{option_map_or};
ghost use Rattle.ap_desc.specs.Sound.{are_distinct};
ghost use Rattle.ap_desc.specs.Spelling.{field_names};
ghost use Rattle.ap_desc.specs.declared.statement.FieldNumber.{FieldNumber as DeclaredFieldNumber};

use crate::declared::{Declared, Ports, place_in};
use crate::names::Names;
use crate::stop::Stop;
use ap_bits::{Name, NoMemory};
use ap_desc::design::Act;
use ap_desc::{Fault, FieldNumber, Statement};
use ap_unit::{Shelf, UnitKind};
use std::alloc::Global;

/// What a statement uses, by the places of what it names.
#[derive(Drop)]
pub(crate) enum Use {
    /// Nothing that is declared.
    Nothing,
    /// The names of the fields of a format.
    Fields(Names),
    /// The format of an instruction, and the names of the fields that it fixes.
    Format(u32, Names),
    /// What a line of an instruction does, its numbers in 32 bits.
    Line(Act),
}

/// The names of fields, and None where one stands twice.
fn distinct_names(alloc: Global, fields: &[FieldNumber]) -> Result<Option<Names>, NoMemory>
    ensures { IfOk result (λ names. MatchOption names
        (are_distinct (field_names fields.now) ≡ false)
        (λ names. (are_distinct (field_names fields.now) ≡ true)
        × (names ≡ field_names fields.now))) }
{
    let mut names = Names::new(alloc);
    for field in fields {
        if names.contains(field.field.as_str()) {
            return Ok(None);
        }
        names.add(alloc, field.field.as_str())?;
    }
    Ok(Some(names))
}

/// Whether a field that is given a value isn't among these.
fn has_missing(names: &Names, fixed: &[FieldNumber]) -> bool
    ensures { result ≡ list_any
        (λ (f : DeclaredFieldNumber). is_missing f.field names.now) fixed.now }
{
    fixed.iter().any(|f| !names.contains(f.field.as_str()))
}

/// The names of a kind's operations.
fn operations_of(alloc: Global, kind: &dyn UnitKind) -> Result<Names, NoMemory>
    ensures { IfOk result (λ names. names ≡ operation_names (card kind.now)) }
{
    let _name = kind.name();
    let mut names = Names::new(alloc);
    for i in 0..kind.op_count() {
        names.add(alloc, kind.op_name(i))?;
    }
    Ok(names)
}

/// The names of the operations of the kind of a name; none where there is no such kind.
fn operations_named(alloc: Global, shelf: &Shelf, kind: &Name) -> Result<Names, NoMemory>
    ensures { IfOk result (λ names. names
        ≡ option_map_or operation_names (card_named (cards_of card shelf.now) kind.now) []) }
{
    match shelf.find(kind.as_str()) {
        Some(place) => operations_of(alloc, shelf.kind(place)),
        None => Ok(Names::new(alloc)),
    }
}

/// The local that a line assigns.
fn assigned(statement: &Statement) -> Option<&Name>
    ensures { IsAssigned statement.now (option_map (λ to. to.now) result) }
{
    match statement {
        Statement::Compute { to, .. }
        | Statement::ReadFile { to, .. }
        | Statement::ReadRegister { to, .. }
        | Statement::ReadMemory { to, .. }
        | Statement::ReadInput { to, .. }
        | Statement::Const { to, .. }
        | Statement::Zext { to, .. }
        | Statement::Sext { to, .. }
        | Statement::Slice { to, .. }
        | Statement::Cat { to, .. } => Some(to),
        _ => None,
    }
}

impl Declared {
    ghost use Rattle.ap_check.specs.Tables.{names_at};
    ghost use Rattle.ap_check.specs.Uses.{IsUse, declared_with, with_fields, with_format, with_unit};
    ghost use Rattle.ap_desc.specs.declared.statement.Statement.TheVariants as s;

    /// A part has a new name.
    #[tactic(auto, using(crate::proofs::FirstFaults::first_faults))]
    fn new_part(&self, name: &Name) -> Result<Use, Stop>
        ensures { IsUse [] self.now (s.In name.now 0) result }
    {
        if self.is_part(name) {
            return Err(Stop::Fault(Fault::Twice));
        }
        Ok(Use::Nothing)
    }

    /// `unit NAME KIND WIDTH`
    #[tactic(auto, using(crate::proofs::FirstFaults::first_faults))]
    fn new_unit(&self, shelf: &Shelf, name: &Name, kind: &Name) -> Result<Use, Stop>
        ensures { IsUse (cards_of card shelf.now) self.now (s.Unit name.now kind.now 0) result }
    {
        if self.is_part(name) {
            return Err(Stop::Fault(Fault::Twice));
        }
        match shelf.find(kind.as_str()) {
            Some(_place) => Ok(Use::Nothing),
            None => Err(Stop::Fault(Fault::NoKind)),
        }
    }

    /// `format NAME FIELD:WIDTH ..`
    #[tactic(auto, using(crate::proofs::FirstFaults::first_faults))]
    fn new_format(&self, alloc: Global, name: &Name, fields: &[FieldNumber]) -> Result<Use, Stop>
        ensures { IsUse [] self.now (s.Format name.now fields.now) result }
    {
        if self.formats.contains(name.as_str()) {
            return Err(Stop::Fault(Fault::Twice));
        }
        match distinct_names(alloc, fields)? {
            Some(names) => Ok(Use::Fields(names)),
            None => Err(Stop::Fault(Fault::Twice)),
        }
    }

    /// Whether a field that is given a value isn't one of the format at this place.
    fn has_unknown(&self, alloc: Global, format: u32, fixed: &[FieldNumber]) -> bool
        ensures { result ≡ list_any (λ (f : DeclaredFieldNumber).
            is_missing f.field (names_at self.now.fields format)) fixed.now }
    {
        match self.fields.as_slice().get(format as usize) {
            Some(names) => has_missing(names, fixed),
            None => has_missing(&Names::new(alloc), fixed),
        }
    }

    /// The fields that an instruction fixes are fields of the format at this place.
    fn known_fields(&self, alloc: Global, format: u32, fixed: &[FieldNumber]) -> Result<(), Fault>
        ensures known { OnOk result (list_any (λ (f : DeclaredFieldNumber).
            is_missing f.field (names_at self.now.fields format)) fixed.now ≡ false) }
        ensures missing { IfErr result (λ _. list_any (λ (f : DeclaredFieldNumber).
            is_missing f.field (names_at self.now.fields format)) fixed.now ≡ true) }
        ensures kind { IfErr result (λ kind. kind ≡ Fault.Unknown) }
    {
        if self.has_unknown(alloc, format, fixed) {
            return Err(Fault::Unknown);
        }
        Ok(())
    }

    /// `instr NAME FORMAT FIELD=VALUE ..`
    #[tactic(auto, using(crate::proofs::FirstFaults::first_faults))]
    fn new_instr(
        &self,
        alloc: Global,
        name: &Name,
        format: &Name,
        fixed: &[FieldNumber],
    ) -> Result<Use, Stop>
        ensures { IsUse [] self.now (s.Instr name.now format.now fixed.now) result }
    {
        let place = place_in(&self.formats, format)?;
        self.known_fields(alloc, place, fixed)?;
        if self.instrs.contains(name.as_str()) {
            return Err(Stop::Fault(Fault::Twice));
        }
        match distinct_names(alloc, fixed)? {
            Some(names) => Ok(Use::Format(place, names)),
            None => Err(Stop::Fault(Fault::Twice)),
        }
    }

    /// What a statement uses, or its first fault of names.
    #[tactic(auto, using(crate::proofs::FirstFaults::first_faults))]
    pub(crate) fn uses(
        &self,
        alloc: Global,
        shelf: &Shelf,
        statement: &Statement,
    ) -> Result<Use, Stop>
        ensures { IsUse (cards_of card shelf.now) self.now statement.now result }
    {
        match statement {
            Statement::Stages { .. }
            | Statement::Address { .. }
            | Statement::Word { .. }
            | Statement::Transfer { .. }
            | Statement::End => Ok(Use::Nothing),
            Statement::Reg { name, .. } => self.new_part(name),
            Statement::File { name, .. } => self.new_part(name),
            Statement::Mem { name, .. } => self.new_part(name),
            Statement::In { name, .. } => self.new_part(name),
            Statement::Unit { name, kind, .. } => self.new_unit(shelf, name, kind),
            Statement::Format { name, fields } => self.new_format(alloc, name, fields.as_slice()),
            Statement::Instr {
                name,
                format,
                fixed,
            } => { self.new_instr(alloc, name, format, fixed.as_slice()) }
            _ => self.line(statement),
        }
    }

    /// Adds a unit of a kind.
    fn add_unit(
        &mut self,
        alloc: Global,
        shelf: &Shelf,
        name: &Name,
        kind: &Name,
    ) -> Result<(), NoMemory>
        ensures { OnOk result (self.new
            ≡ with_unit (cards_of card shelf.now) self.old name.now kind.now) }
    {
        let operations = operations_named(alloc, shelf, kind)?;
        self.units.add(alloc, name.as_str())?;
        self.operations.push(operations)?;
        Ok(())
    }

    /// Adds a format.
    fn add_format(&mut self, alloc: Global, name: &Name, used: Use) -> Result<(), NoMemory>
        ensures { OnOk result (self.new ≡ with_fields self.old name.now used) }
    {
        if let Use::Fields(names) = used {
            self.formats.add(alloc, name.as_str())?;
            self.fields.push(names)?;
        }
        Ok(())
    }

    /// Adds an instruction, which begins.
    fn add_instr(&mut self, alloc: Global, name: &Name, used: Use) -> Result<(), NoMemory>
        ensures { OnOk result (self.new ≡ with_format self.old name.now used) }
    {
        if let Use::Format(place, _names) = used {
            self.instrs.add(alloc, name.as_str())?;
            self.begun = Some(place);
            self.locals = Names::new(alloc);
        }
        Ok(())
    }

    /// Adds the names that a statement declares.
    pub(crate) fn declare(
        &mut self,
        alloc: Global,
        shelf: &Shelf,
        statement: &Statement,
        used: Use,
    ) -> Result<(), NoMemory>
        ensures { OnOk result (self.new
            ≡ declared_with (cards_of card shelf.now) self.old statement.now used) }
    {
        match statement {
            Statement::Reg { name, .. } => self.regs.add(alloc, name.as_str()),
            Statement::File {
                name,
                reads,
                writes,
                ..
            } => {
                self.files.add(alloc, name.as_str())?;
                let ports = Ports {
                    reads: *reads,
                    writes: *writes,
                };
                self.ports.push(ports)
            }
            Statement::Mem { name, .. } => self.mems.add(alloc, name.as_str()),
            Statement::In { name, .. } => self.inputs.add(alloc, name.as_str()),
            Statement::Unit { name, kind, .. } => self.add_unit(alloc, shelf, name, kind),
            Statement::Format { name, .. } => self.add_format(alloc, name, used),
            Statement::Instr { name, .. } => self.add_instr(alloc, name, used),
            _ => match assigned(statement) {
                Some(to) => self.locals.add(alloc, to.as_str()),
                None => Ok(()),
            },
        }
    }
}
