//! The design that a description means, as far as its statements have come: what each declares and needs.
ghost use Rattle.std.specs.Prelude.{◌≡◌, ◌<◌, ◌≤◌, length, IfErr, IfOk, None, OnOk, [], false, true};
ghost use Rattle.ap_desc.specs.Designs.{is_between};
ghost use Rattle.ap_desc.specs.Designs as designs;

use crate::fields::{fixed_bits, fixed_mask, fixed_values, has_wrong_field, placed_fields};
use crate::names::Names;
use crate::numbers::has_bits;
use crate::stop::{Stop, need};
use ap_bits::{Items, Name, NoMemory};
use ap_desc::design::{Design, Field, File, Format, InPort, Instr, Mem, Reg, Unit};
use ap_desc::limits::{
    MAX_ADDRESS_BITS, MAX_MEMORY_ADDRESS_BITS, MAX_READ_PORTS, MAX_SLOTS, MAX_STAGES, MAX_WIDTH,
    MAX_WORD_BITS, MAX_WRITE_PORTS, MIN_ADDRESS_BITS, MIN_STAGES, MIN_WORD_BITS,
};
use ap_desc::{Fault, FieldNumber};
use ap_unit::UnitKind;
use std::alloc::Global;

/// The design so far, and the instruction that began last, which isn't among the design's yet.
#[derive(Drop)]
pub(crate) struct Draft {
    pub(crate) design: Design,
    pub(crate) begun: Option<Instr>,
}

/// The number, if it lies between these two, of which the second has 32 bits.
fn within(low: u64, high: u64, number: u64) -> Result<u32, Fault>
    requires { high < 4294967296 }
    ensures inside { OnOk result (is_between low high number ≡ true) }
    ensures same { IfOk result (λ n. n ≡ number) }
    ensures outside { IfErr result (λ _. is_between low high number ≡ false) }
    ensures kind { IfErr result (λ kind. kind ≡ Fault.Range) }
{
    if low <= number && number <= high {
        Ok(number as u32)
    } else {
        Err(Fault::Range)
    }
}

/// The number of slots, if a transfer may have so many.
fn slot_count(slots: u64) -> Result<u32, Fault>
    ensures inside { OnOk result (designs.is_slot_count slots ≡ true) }
    ensures same { IfOk result (λ n. n ≡ slots) }
    ensures outside { IfErr result (λ _. designs.is_slot_count slots ≡ false) }
    ensures kind { IfErr result (λ kind. kind ≡ Fault.Range) }
{
    if slots <= MAX_SLOTS {
        Ok(slots as u32)
    } else {
        Err(Fault::Range)
    }
}

/// The number of cells, if a file may have so many.
fn cell_count(cells: u64) -> Result<u32, Fault>
    ensures inside { OnOk result (designs.is_cell_count cells ≡ true) }
    ensures same { IfOk result (λ n. n ≡ cells) }
    ensures outside { IfErr result (λ _. designs.is_cell_count cells ≡ false) }
    ensures kind { IfErr result (λ kind. kind ≡ Fault.Range) }
{
    match cells {
        2 => Ok(2),
        4 => Ok(4),
        8 => Ok(8),
        16 => Ok(16),
        32 => Ok(32),
        64 => Ok(64),
        _ => Err(Fault::Range),
    }
}

impl Draft {
    ghost use Rattle.ap_check.specs.Drafts.{IsSaid, IsUnitSaid, completed, fields_at, with_instr};
    ghost use Rattle.ap_desc.specs.Limits.{max_fields};
    ghost use Rattle.ap_desc.specs.Spelling.{field_names};
    ghost use Rattle.ap_desc.specs.declared.statement.Statement.TheVariants as s;

    /// Before the first statement.
    pub(crate) fn new(alloc: Global) -> Draft
        ensures { result ≡ record {
          design = record {
            stages = 0;
            address = 0;
            word = 0;
            branch = 0;
            slots = 0;
            transfer_line = 0;
            regs = [];
            files = [];
            mems = [];
            inputs = [];
            units = [];
            formats = [];
            instrs = [];
          };
          begun = None;
        } }
    {
        let design = Design {
            stages: 0,
            address: 0,
            word: 0,
            branch: 0,
            slots: 0,
            transfer_line: 0,
            regs: Items::new(alloc),
            files: Items::new(alloc),
            mems: Items::new(alloc),
            inputs: Items::new(alloc),
            units: Items::new(alloc),
            formats: Items::new(alloc),
            instrs: Items::new(alloc),
        };
        Draft {
            design,
            begun: None,
        }
    }

    /// `stages N`
    #[tactic(auto, using(crate::proofs::FirstFaults::width_faults))]
    pub(crate) fn stages(&mut self, count: u64) -> Result<(), Stop>
        ensures { IsSaid [] 0 self.old (s.Stages count) self.new result }
    {
        let count = within(MIN_STAGES, MAX_STAGES, count)?;
        self.design.stages = count;
        Ok(())
    }

    /// `address A`
    #[tactic(auto, using(crate::proofs::FirstFaults::width_faults))]
    pub(crate) fn address(&mut self, bits: u64) -> Result<(), Stop>
        ensures { IsSaid [] 0 self.old (s.Address bits) self.new result }
    {
        let bits = within(MIN_ADDRESS_BITS, MAX_ADDRESS_BITS, bits)?;
        self.design.address = bits;
        Ok(())
    }

    /// `word W`
    #[tactic(auto, using(crate::proofs::FirstFaults::width_faults))]
    pub(crate) fn word(&mut self, bits: u64) -> Result<(), Stop>
        ensures { IsSaid [] 0 self.old (s.Word bits) self.new result }
    {
        let bits = within(MIN_WORD_BITS, MAX_WORD_BITS, bits)?;
        self.design.word = bits;
        Ok(())
    }

    /// `transfer B K`
    #[tactic(auto, using(crate::proofs::FirstFaults::width_faults))]
    pub(crate) fn transfer(&mut self, line: u32, stage: u64, slots: u64) -> Result<(), Stop>
        ensures { IsSaid [] line self.old (s.Transfer stage slots) self.new result }
    {
        let last = u64::from(self.design.stages).saturating_sub(1);
        let stage = within(1, last, stage)?;
        let slots = slot_count(slots)?;
        self.design.branch = stage;
        self.design.slots = slots;
        self.design.transfer_line = line;
        Ok(())
    }

    /// `reg NAME WIDTH RESET`
    #[tactic(auto, using(crate::proofs::FirstFaults::width_faults))]
    pub(crate) fn reg(
        &mut self,
        alloc: Global,
        name: &Name,
        width: u64,
        reset: u64,
    ) -> Result<(), Stop>
        ensures { IsSaid [] 0 self.old (s.Reg name.now width reset) self.new result }
    {
        let bits = within(1, MAX_WIDTH, width)?;
        need(has_bits(width, reset), Fault::TooWideConstant)?;
        let name = name.copy(alloc)?;
        let reg = Reg {
            name,
            width: bits,
            reset,
        };
        self.design.regs.push(reg)?;
        Ok(())
    }

    /// `file NAME WIDTH CELLS READS WRITES`
    #[tactic(auto, using(crate::proofs::FirstFaults::width_faults))]
    pub(crate) fn file(
        &mut self,
        alloc: Global,
        name: &Name,
        width: u64,
        cells: u64,
        reads: u64,
        writes: u64,
    ) -> Result<(), Stop>
        ensures { IsSaid [] 0 self.old (s.File name.now width cells reads writes) self.new result }
    {
        let width = within(1, MAX_WIDTH, width)?;
        let cells = cell_count(cells)?;
        let reads = within(1, MAX_READ_PORTS, reads)?;
        let writes = within(1, MAX_WRITE_PORTS, writes)?;
        let name = name.copy(alloc)?;
        let file = File {
            name,
            width,
            cells,
            reads,
            writes,
        };
        self.design.files.push(file)?;
        Ok(())
    }

    /// `mem NAME ADDRESSBITS WIDTH`
    #[tactic(auto, using(crate::proofs::FirstFaults::width_faults))]
    pub(crate) fn mem(
        &mut self,
        alloc: Global,
        name: &Name,
        address: u64,
        width: u64,
    ) -> Result<(), Stop>
        ensures { IsSaid [] 0 self.old (s.Mem name.now address width) self.new result }
    {
        let address = within(1, MAX_MEMORY_ADDRESS_BITS, address)?;
        let width = within(1, MAX_WIDTH, width)?;
        let name = name.copy(alloc)?;
        let mem = Mem {
            name,
            address,
            width,
        };
        self.design.mems.push(mem)?;
        Ok(())
    }

    /// `in NAME WIDTH`
    #[tactic(auto, using(crate::proofs::FirstFaults::width_faults))]
    pub(crate) fn input(&mut self, alloc: Global, name: &Name, width: u64) -> Result<(), Stop>
        ensures { IsSaid [] 0 self.old (s.In name.now width) self.new result }
    {
        let width = within(1, MAX_WIDTH, width)?;
        let name = name.copy(alloc)?;
        self.design.inputs.push(InPort { name, width })?;
        Ok(())
    }

    /// `unit NAME KIND WIDTH`, of the kind at this place of the shelf.
    #[tactic(auto, using(crate::proofs::FirstFaults::width_faults))]
    pub(crate) fn unit(
        &mut self,
        alloc: Global,
        kind: &dyn UnitKind,
        place: u32,
        name: &Name,
        width: u64,
    ) -> Result<(), Stop>
        ensures { IsUnitSaid (card kind.now) self.old place name.now width self.new result }
    {
        let width = within(1, MAX_WIDTH, width)?;
        need(kind.fits(width), Fault::KindRefuses)?;
        let latency = kind.latency(width);
        let name = name.copy(alloc)?;
        let unit = Unit {
            name,
            kind: place,
            width,
            latency,
        };
        self.design.units.push(unit)?;
        Ok(())
    }

    /// `format NAME FIELD:WIDTH ..`
    #[tactic(auto, using(crate::proofs::FirstFaults::width_faults))]
    pub(crate) fn format(
        &mut self,
        alloc: Global,
        line: u32,
        name: &Name,
        fields: &[FieldNumber],
    ) -> Result<(), Stop>
        requires word { self.old.design.word ≤ 64 }
        requires few { length fields.now ≤ max_fields }
        ensures { IsSaid [] line self.old (s.Format name.now fields.now) self.new result }
    {
        if has_wrong_field(self.design.word, fields) {
            return Err(Stop::Fault(Fault::Range));
        }
        let fields = placed_fields(alloc, fields)?;
        let name = name.copy(alloc)?;
        let format = Format { name, line, fields };
        self.design.formats.push(format)?;
        Ok(())
    }

    /// The fields of the format at a place.
    fn fields_at(&self, format: u32) -> &[Field]
        ensures { result.now ≡ fields_at self.now format }
    {
        match self.design.formats.as_slice().get(format as usize) {
            Some(format) => format.fields.as_slice(),
            None => &[],
        }
    }

    /// `instr NAME FORMAT FIELD=VALUE ..`, of the format at this place, with the names of the fields that it fixes.
    pub(crate) fn instr(
        &mut self,
        alloc: Global,
        line: u32,
        name: &Name,
        format: u32,
        names: &Names,
        fixed: &[FieldNumber],
    ) -> Result<(), NoMemory>
        requires word { self.old.design.word ≤ 64 }
        requires names { names.now ≡ field_names fixed.now }
        ensures { OnOk result (self.new ≡ with_instr self.old line name.now format fixed.now) }
    {
        let word = self.design.word;
        let fields = self.fields_at(format);
        let values = fixed_values(alloc, fields, names, fixed)?;
        let fixed_mask = fixed_mask(word, fields, names, fixed);
        let fixed_value = fixed_bits(word, fields, names, fixed);
        let name = name.copy(alloc)?;
        self.close()?;
        self.begun = Some(Instr {
            name,
            line,
            format,
            fixed: values,
            fixed_mask,
            fixed_value,
            locals: Items::new(alloc),
            micros: Items::new(alloc),
        });
        Ok(())
    }

    /// The instruction that began last is complete.
    pub(crate) fn close(&mut self) -> Result<(), NoMemory>
        ensures { OnOk result
            (self.new ≡ record self.old { design = completed self.old; begun = None }) }
    {
        if let Some(instr) = self.begun.take() {
            self.design.instrs.push(instr)?;
        }
        Ok(())
    }
}
