//! The names that are declared so far, and what a name stands for.
ghost use Rattle.std.specs.Prelude.{◌≡◌, IfErr, IfOk, MatchResult, Option, [], false, not, true};
ghost use Rattle.ap_check.specs.Names.{IsPlaceOf};
ghost use Rattle.ap_desc.specs.NameFaults.{is_missing};
ghost use Rattle.ap_desc.specs.Parts.{place_of};

use crate::names::Names;
use crate::stop::need;
use ap_bits::{Items, Name};
use ap_desc::design::Arg;
use ap_desc::{Fault, Word};
use std::alloc::Global;

/// The numbers of a file's ports as they are written.
#[derive(Clone, Copy, Debug, PartialEq, Eq)]
pub(crate) struct Ports {
    pub(crate) reads: u64,
    pub(crate) writes: u64,
}

/// The names that are declared so far, sort by sort, and what belongs to a name.
#[derive(Drop)]
pub(crate) struct Declared {
    pub(crate) regs: Names,
    pub(crate) files: Names,
    pub(crate) mems: Names,
    pub(crate) inputs: Names,
    pub(crate) units: Names,
    pub(crate) formats: Names,
    pub(crate) instrs: Names,
    /// The ports of each file.
    pub(crate) ports: Items<Ports>,
    /// The operations of each unit.
    pub(crate) operations: Items<Names>,
    /// The fields of each format.
    pub(crate) fields: Items<Names>,
    /// The place of the format of the instruction that began last.
    pub(crate) begun: Option<u32>,
    /// The locals that its lines assign.
    pub(crate) locals: Names,
}

/// The place of a name that has to be declared.
pub(crate) fn place_in(names: &Names, name: &Name) -> Result<u32, Fault>
    ensures known { IfOk result (λ _. is_missing name.now names.now ≡ false) }
    ensures place { IfOk result (λ place. place ≡ place_of names.now name.now) }
    ensures missing { IfErr result (λ _. is_missing name.now names.now ≡ true) }
    ensures kind { IfErr result (λ kind. kind ≡ Fault.Unknown) }
{
    match names.place(name.as_str()) {
        Some(place) => Ok(place),
        None => Err(Fault::Unknown),
    }
}

impl Declared {
    ghost use Rattle.ap_check.specs.Tables.{arg_in, is_local_taken, is_no_guard, is_no_operand, is_no_operation, is_no_read_port, is_no_write_port, is_part, open_fields, operation_place, ports_at};
    ghost use Rattle.std.specs.Prelude.{option_map};

    /// Nothing is declared yet.
    pub(crate) fn new(alloc: Global) -> Declared
        ensures { result ≡ record {
          regs = [];
          files = [];
          mems = [];
          inputs = [];
          units = [];
          formats = [];
          instrs = [];
          ports = [];
          operations = [];
          fields = [];
          begun = Option.None;
          locals = [];
        } }
    {
        Declared {
            regs: Names::new(alloc),
            files: Names::new(alloc),
            mems: Names::new(alloc),
            inputs: Names::new(alloc),
            units: Names::new(alloc),
            formats: Names::new(alloc),
            instrs: Names::new(alloc),
            ports: Items::new(alloc),
            operations: Items::new(alloc),
            fields: Items::new(alloc),
            begun: None,
            locals: Names::new(alloc),
        }
    }

    /// Whether a part has the name: registers, files, memories, inputs and units share one space.
    pub(crate) fn is_part(&self, name: &Name) -> bool
        ensures { result ≡ is_part self.now name.now }
    {
        let name = name.as_str();
        self.regs.contains(name)
            || self.files.contains(name)
            || self.mems.contains(name)
            || self.inputs.contains(name)
            || self.units.contains(name)
    }

    /// The ports of the file at a place.
    fn ports_at(&self, file: u32) -> Ports
        ensures { result ≡ ports_at self.now file }
    {
        match self.ports.as_slice().get(file as usize) {
            Some(ports) => *ports,
            None => Ports {
                reads: 0,
                writes: 0,
            },
        }
    }

    /// The place of a file that has this read port.
    #[tactic(auto, using(crate::proofs::FirstFaults::first_faults))]
    pub(crate) fn read_port(&self, file: &Name, port: u64) -> Result<u32, Fault>
        ensures known { IfOk result (λ _. is_no_read_port self.now file.now port ≡ false) }
        ensures place { IfOk result (λ place. place ≡ place_of self.now.files file.now) }
        ensures missing { IfErr result (λ _. is_no_read_port self.now file.now port ≡ true) }
        ensures kind { IfErr result (λ kind. kind ≡ Fault.Unknown) }
    {
        let place = place_in(&self.files, file)?;
        let ports = self.ports_at(place);
        need(port < ports.reads, Fault::Unknown)?;
        Ok(place)
    }

    /// The place of a file that has this write port.
    #[tactic(auto, using(crate::proofs::FirstFaults::first_faults))]
    pub(crate) fn write_port(&self, file: &Name, port: u64) -> Result<u32, Fault>
        ensures known { IfOk result (λ _. is_no_write_port self.now file.now port ≡ false) }
        ensures place { IfOk result (λ place. place ≡ place_of self.now.files file.now) }
        ensures missing { IfErr result (λ _. is_no_write_port self.now file.now port ≡ true) }
        ensures kind { IfErr result (λ kind. kind ≡ Fault.Unknown) }
    {
        let place = place_in(&self.files, file)?;
        let ports = self.ports_at(place);
        need(port < ports.writes, Fault::Unknown)?;
        Ok(place)
    }

    /// The number of an operation of the unit at this place.
    pub(crate) fn operation(&self, unit: u32, op: &Name) -> Result<u32, Fault>
        ensures known { IfOk result (λ _. is_no_operation self.now unit op.now ≡ false) }
        ensures place { IfOk result (λ place. place ≡ operation_place self.now unit op.now) }
        ensures missing { IfErr result (λ _. is_no_operation self.now unit op.now ≡ true) }
        ensures kind { IfErr result (λ kind. kind ≡ Fault.NoOperation) }
    {
        match self.operations.as_slice().get(unit as usize) {
            Some(operations) => match operations.place(op.as_str()) {
                Some(place) => Ok(place),
                None => Err(Fault::NoOperation),
            },
            None => Ok(0),
        }
    }

    /// The place of a field of the format of the instruction that began last.
    pub(crate) fn field(&self, name: &Name) -> Option<u32>
        ensures { IsPlaceOf (open_fields self.now) name.now result }
    {
        match self.begun {
            Some(format) => match self.fields.as_slice().get(format as usize) {
                Some(fields) => fields.place(name.as_str()),
                None => None,
            },
            None => None,
        }
    }

    /// The operand that a word is.
    pub(crate) fn operand(&self, word: &Word) -> Result<Arg, Fault>
        ensures known { IfOk result (λ _. is_no_operand self.now word.now ≡ false) }
        ensures arg { IfOk result (λ arg. arg ≡ arg_in self.now word.now) }
        ensures missing { IfErr result (λ _. is_no_operand self.now word.now ≡ true) }
        ensures kind { IfErr result (λ kind. kind ≡ Fault.Unknown) }
    {
        match word {
            Word::Pc => Ok(Arg::Pc),
            Word::Link => Ok(Arg::Link),
            Word::Named(name) => {
                if let Some(place) = self.locals.place(name.as_str()) {
                    return Ok(Arg::Local(place));
                }
                match self.field(name) {
                    Some(place) => Ok(Arg::Field(place)),
                    None => Err(Fault::Unknown),
                }
            }
        }
    }

    /// The guard of a write, where it has one.
    pub(crate) fn guard(&self, guard: &Option<Word>) -> Result<Option<Arg>, Fault>
        ensures known { IfOk result (λ _. is_no_guard self.now guard.now ≡ false) }
        ensures arg { IfOk result (λ arg. arg ≡ option_map (arg_in self.now) guard.now) }
        ensures missing { IfErr result (λ _. is_no_guard self.now guard.now ≡ true) }
        ensures kind { IfErr result (λ kind. kind ≡ Fault.Unknown) }
    {
        match guard {
            Some(word) => {
                let arg = self.operand(word)?;
                Ok(Some(arg))
            }
            None => Ok(None),
        }
    }

    /// A line's local has to be new: neither a field of the format nor a local of an earlier line.
    pub(crate) fn new_local(&self, to: &Name) -> Result<(), Fault>
        ensures known { IfOk result (λ _. is_local_taken self.now to.now ≡ false) }
        ensures missing { IfErr result (λ _. is_local_taken self.now to.now ≡ true) }
        ensures kind { IfErr result (λ kind. kind ≡ Fault.Twice) }
    {
        if self.field(to).is_some() || self.locals.contains(to.as_str()) {
            Err(Fault::Twice)
        } else {
            Ok(())
        }
    }
}
