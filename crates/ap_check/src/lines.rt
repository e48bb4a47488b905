//! What a line of an instruction needs of the widths of its operands, and what it adds.
ghost use Rattle.std.specs.Prelude.{◌≡◌, ◌<◌, IfErr, None, OnOk, Some};
ghost use Rattle.ap_desc.specs.Designs.{width_at};
ghost use Rattle.ap_desc.specs.Widths as w;

use crate::draft::Draft;
use crate::numbers::{has_bits, is_index, is_width, narrow};
use crate::stop::{Stop, need};
use ap_desc::Fault;
use ap_desc::design::{Act, Arg, Field, Micro};
use ap_desc::limits::MAX_WIDTH;

/// The width of a part, and 0 where there is none.
macro_rules! at {
    ($list:expr, $place:expr, $field:ident) => {
        match $list.as_slice().get($place as usize) {
            Some(part) => part.$field,
            None => 0,
        }
    };
}

impl Draft {
    ghost use Rattle.ap_check.specs.Drafts.{AreNarrow, draft_fields, draft_widths, line_fault, local_in, width_in, with_line};
    ghost use Rattle.ap_check.specs.Numbers.{narrowed};
    ghost use Rattle.ap_check.specs.Uses.{IsStoppedBy};
    ghost use Rattle.ap_desc.specs.declared.design.File.{File as DeclaredFile};
    ghost use Rattle.ap_desc.specs.declared.design.InPort.{InPort as DeclaredInPort};

    /// The width of a unit.
    fn unit_width(&self, unit: u32) -> u32
        ensures { result ≡ w.unit_width self.now.design unit }
    {
        at!(self.design.units, unit, width)
    }

    fn file_width(&self, file: u32) -> u32
        ensures { result ≡ w.file_width self.now.design file }
    {
        at!(self.design.files, file, width)
    }

    fn file_reads(&self, file: u32) -> u32
        ensures { result ≡ width_at (λ (f : DeclaredFile). f.reads) self.now.design.files file }
    {
        at!(self.design.files, file, reads)
    }

    fn file_writes(&self, file: u32) -> u32
        ensures { result ≡ width_at (λ (f : DeclaredFile). f.writes) self.now.design.files file }
    {
        at!(self.design.files, file, writes)
    }

    /// Whether so many bits number the file's cells.
    fn is_index(&self, file: u32, bits: u32) -> bool
        ensures { result ≡ w.is_index self.now.design file bits }
    {
        let cells = at!(self.design.files, file, cells);
        is_index(cells, bits)
    }

    fn reg_width(&self, reg: u32) -> u32
        ensures { result ≡ w.reg_width self.now.design reg }
    {
        at!(self.design.regs, reg, width)
    }

    fn mem_width(&self, mem: u32) -> u32
        ensures { result ≡ w.mem_width self.now.design mem }
    {
        at!(self.design.mems, mem, width)
    }

    fn mem_address(&self, mem: u32) -> u32
        ensures { result ≡ w.mem_address self.now.design mem }
    {
        at!(self.design.mems, mem, address)
    }

    fn input_width(&self, input: u32) -> u32
        ensures { result ≡ width_at (λ (p : DeclaredInPort). p.width) self.now.design.inputs input }
    {
        at!(self.design.inputs, input, width)
    }

    /// The fields of the format of the instruction that began last.
    fn fields(&self) -> &[Field]
        ensures { result.now ≡ draft_fields self.now }
    {
        match &self.begun {
            Some(instr) => match self.design.formats.as_slice().get(instr.format as usize) {
                Some(format) => format.fields.as_slice(),
                None => &[],
            },
            None => &[],
        }
    }

    /// The width of a local of the instruction that began last.
    fn local_bits(&self, local: u32) -> u32
        ensures { result ≡ width_at (λ x. x) (draft_widths self.now) local }
    {
        match &self.begun {
            Some(instr) => match instr.locals.as_slice().get(local as usize) {
                Some(width) => *width,
                None => 0,
            },
            None => 0,
        }
    }

    /// The width of an operand.
    fn width(&self, arg: Arg) -> u32
        ensures { result ≡ width_in self.now arg }
    {
        match arg {
            Arg::Local(local) => self.local_bits(local),
            Arg::Field(field) => match self.fields().get(field as usize) {
                Some(field) => field.width,
                None => 0,
            },
            Arg::Pc | Arg::Link => self.design.address,
        }
    }

    /// Whether a number of the line is outside its limits.
    fn has_bad_width(&self, act: &Act) -> bool
        ensures { result ≡ w.has_bad_width (width_in self.now) act.now }
    {
        match *act {
            Act::Const { width, value: _ } => !is_width(u64::from(width)),
            Act::Zext { width, a: _ } => !is_width(u64::from(width)),
            Act::Sext { width, a: _ } => !is_width(u64::from(width)),
            Act::Cat { a, b } => { u64::from(self.width(a)) + u64::from(self.width(b)) > MAX_WIDTH }
            _ => false,
        }
    }

    /// Whether an operand hasn't the width that is needed.
    fn differs(&self, act: &Act) -> bool
        ensures { result ≡ w.differs self.now.design (width_in self.now) act.now }
    {
        match *act {
            Act::Compute { unit, op: _, a, b } => {
                let width = self.unit_width(unit);
                self.width(a) != width || self.width(b) != width
            }
            Act::ReadFile {
                file,
                port: _,
                index,
            } => !self.is_index(file, self.width(index)),
            Act::ReadMem { mem, at } => self.width(at) != self.mem_address(mem),
            Act::Zext { width, a } => width < self.width(a),
            Act::Sext { width, a } => width < self.width(a),
            Act::WriteFile {
                file,
                port: _,
                index,
                value,
                guard: _,
            } => {
                !self.is_index(file, self.width(index))
                    || self.width(value) != self.file_width(file)
            }
            Act::WriteReg {
                reg,
                value,
                guard: _,
            } => self.width(value) != self.reg_width(reg),
            Act::WriteMem {
                mem,
                at,
                value,
                guard: _,
            } => {
                self.width(at) != self.mem_address(mem) || self.width(value) != self.mem_width(mem)
            }
            _ => false,
        }
    }

    /// Whether the line is a slice that its operand hasn't.
    fn is_bad_slice(&self, act: &Act) -> bool
        ensures { result ≡ w.is_bad_slice (width_in self.now) act.now }
    {
        match *act {
            Act::Slice { high, low, a } => high < low || high >= self.width(a),
            _ => false,
        }
    }

    /// Whether the line is a constant that doesn't fit.
    fn is_wide_constant(&self, act: &Act) -> bool
        ensures { result ≡ w.is_wide_constant act.now }
    {
        match *act {
            Act::Const { width, value } => !has_bits(u64::from(width), value),
            _ => false,
        }
    }

    /// Whether there is a guard that hasn't one bit.
    fn is_wide_guard(&self, guard: Option<Arg>) -> bool
        ensures { result ≡ w.is_wide_guard (width_in self.now) guard }
    {
        match guard {
            Some(guard) => self.width(guard) != 1,
            None => false,
        }
    }

    /// Whether a guard or condition hasn't one bit.
    fn is_not_one_bit(&self, act: &Act) -> bool
        ensures { result ≡ w.is_not_one_bit (width_in self.now) act.now }
    {
        match *act {
            Act::WriteFile { guard, .. } => self.is_wide_guard(guard),
            Act::WriteReg { guard, .. } => self.is_wide_guard(guard),
            Act::WriteMem { guard, .. } => self.is_wide_guard(guard),
            Act::Branch { cond, target: _ } => self.width(cond) != 1,
            _ => false,
        }
    }

    /// Whether a target isn't as wide as a code address.
    fn is_no_target(&self, act: &Act) -> bool
        ensures { result ≡ w.is_no_target self.now.design (width_in self.now) act.now }
    {
        match *act {
            Act::Branch { cond: _, target } => self.width(target) != self.design.address,
            Act::Jump { target } => self.width(target) != self.design.address,
            _ => false,
        }
    }

    /// The numbers that a line's numbers are compared with have 32 bits, as a fact that callers can use.
    fn ranges(&self, act: &Act)
        ensures stages { self.now.design.stages < 4294967296 }
        ensures act { AreNarrow self.now.design (width_in self.now) act.now }
    {
        let _stages = self.design.stages;
        match *act {
            Act::Slice { a, .. } => {
                let _width = self.width(a);
            }
            Act::ReadFile { file, .. } => {
                let _reads = self.file_reads(file);
            }
            Act::WriteFile { file, .. } => {
                let _writes = self.file_writes(file);
            }
            _ => {}
        }
    }

    /// The first fault of widths of a line.
    #[tactic(auto, using(crate::proofs::FirstFaults::width_faults))]
    fn check(&self, stage: u64, act: &Act) -> Result<(), Fault>
        ensures ok { OnOk result
            (line_fault self.now.design (width_in self.now) stage act.now ≡ None) }
        ensures fault { IfErr result (λ kind.
            line_fault self.now.design (width_in self.now) stage act.now ≡ Some kind) }
    {
        need(stage < u64::from(self.design.stages), Fault::Range)?;
        need(!self.has_bad_width(act), Fault::Range)?;
        need(!self.differs(act), Fault::Differs)?;
        need(!self.is_bad_slice(act), Fault::Slice)?;
        need(!self.is_wide_constant(act), Fault::TooWideConstant)?;
        need(!self.is_not_one_bit(act), Fault::NotOneBit)?;
        need(!self.is_no_target(act), Fault::Target)?;
        Ok(())
    }

    /// The width of the local that a line assigns, at most the highest number of 32 bits.
    fn local_width(&self, act: &Act) -> Option<u32>
        ensures { result ≡ local_in self.now act.now }
    {
        match *act {
            Act::Compute { unit, .. } => Some(self.unit_width(unit)),
            Act::ReadFile { file, .. } => Some(self.file_width(file)),
            Act::ReadReg { reg } => Some(self.reg_width(reg)),
            Act::ReadMem { mem, .. } => Some(self.mem_width(mem)),
            Act::ReadIn { input } => Some(self.input_width(input)),
            Act::Const { width, .. } => Some(width),
            Act::Zext { width, .. } => Some(width),
            Act::Sext { width, .. } => Some(width),
            Act::Slice { high, low, .. } => Some(high.saturating_sub(low).saturating_add(1)),
            Act::Cat { a, b } => Some(self.width(a).saturating_add(self.width(b))),
            _ => None,
        }
    }

    /// Adds a line of the instruction that began last, or answers its first fault of widths.
    pub(crate) fn add_line(&mut self, line: u32, stage: u64, act: Act) -> Result<(), Stop>
        ensures added { OnOk result (self.new
            ≡ with_line self.old (record { line = line; stage = narrowed stage; act = act })) }
        ensures ok { OnOk result
            (line_fault self.old.design (width_in self.old) stage act ≡ None) }
        ensures stopped { IfErr result
            (IsStoppedBy (line_fault self.old.design (width_in self.old) stage act)) }
        ensures stages { self.old.design.stages < 4294967296 }
        ensures narrow { AreNarrow self.old.design (width_in self.old) act }
    {
        self.ranges(&act);
        self.check(stage, &act)?;
        let width = self.local_width(&act);
        let stage = narrow(stage);
        if let Some(instr) = &mut self.begun {
            instr.micros.push(Micro { line, stage, act })?;
            if let Some(width) = width {
                instr.locals.push(width)?;
            }
        }
        Ok(())
    }
}
