//! What a line of an instruction uses. Each form has a function that looks up its names, in the order of the faults of names.
ghost use Rattle.std.specs.Prelude.{[]};

use crate::declared::{Declared, place_in};
use crate::numbers::narrow;
use crate::stop::Stop;
use crate::uses::Use;
use ap_bits::Name;
use ap_desc::design::Act;
use ap_desc::{Statement, Word};

impl Declared {
    ghost use Rattle.std.specs.Prelude.{IsTrue};
    ghost use Rattle.ap_check.specs.Uses.{Acts, IsUse, IsWiredOrActs};
    ghost use Rattle.ap_desc.specs.Order.{is_micro};
    ghost use Rattle.ap_desc.specs.declared.statement.Statement.TheVariants as s;

    /// `S x = U.op a b`
    #[tactic(auto, using(crate::proofs::FirstFaults::first_faults))]
    pub(crate) fn compute(
        &self,
        to: &Name,
        unit: &Name,
        op: &Name,
        a: &Word,
        b: &Word,
    ) -> Result<Use, Stop>
        ensures { IsUse [] self.now (s.Compute 0 to.now unit.now op.now a.now b.now) result }
    {
        let unit = place_in(&self.units, unit)?;
        let a = self.operand(a)?;
        let b = self.operand(b)?;
        self.new_local(to)?;
        let op = self.operation(unit, op)?;
        Ok(Use::Line(Act::Compute { unit, op, a, b }))
    }

    /// `S x = F.rN i`
    #[tactic(auto, using(crate::proofs::FirstFaults::first_faults))]
    pub(crate) fn read_file(
        &self,
        to: &Name,
        file: &Name,
        port: u64,
        index: &Word,
    ) -> Result<Use, Stop>
        ensures { IsUse [] self.now (s.ReadFile 0 to.now file.now port index.now) result }
    {
        let file = self.read_port(file, port)?;
        let index = self.operand(index)?;
        self.new_local(to)?;
        let port = narrow(port);
        Ok(Use::Line(Act::ReadFile { file, port, index }))
    }

    /// `S x = R`
    #[tactic(auto, using(crate::proofs::FirstFaults::first_faults))]
    pub(crate) fn read_register(&self, to: &Name, reg: &Name) -> Result<Use, Stop>
        ensures { IsUse [] self.now (s.ReadRegister 0 to.now reg.now) result }
    {
        let reg = place_in(&self.regs, reg)?;
        self.new_local(to)?;
        Ok(Use::Line(Act::ReadReg { reg }))
    }

    /// `S x = M.read a`
    #[tactic(auto, using(crate::proofs::FirstFaults::first_faults))]
    pub(crate) fn read_memory(&self, to: &Name, mem: &Name, at: &Word) -> Result<Use, Stop>
        ensures { IsUse [] self.now (s.ReadMemory 0 to.now mem.now at.now) result }
    {
        let mem = place_in(&self.mems, mem)?;
        let at = self.operand(at)?;
        self.new_local(to)?;
        Ok(Use::Line(Act::ReadMem { mem, at }))
    }

    /// `S x = in P`
    #[tactic(auto, using(crate::proofs::FirstFaults::first_faults))]
    pub(crate) fn read_input(&self, to: &Name, input: &Name) -> Result<Use, Stop>
        ensures { IsUse [] self.now (s.ReadInput 0 to.now input.now) result }
    {
        let input = place_in(&self.inputs, input)?;
        self.new_local(to)?;
        Ok(Use::Line(Act::ReadIn { input }))
    }

    /// `S x = const W V`
    #[tactic(auto, using(crate::proofs::FirstFaults::first_faults))]
    pub(crate) fn constant(&self, to: &Name, width: u64, value: u64) -> Result<Use, Stop>
        ensures { IsUse [] self.now (s.Const 0 to.now width value) result }
    {
        self.new_local(to)?;
        let width = narrow(width);
        Ok(Use::Line(Act::Const { width, value }))
    }

    /// `S x = zext W a`
    #[tactic(auto, using(crate::proofs::FirstFaults::first_faults))]
    pub(crate) fn zext(&self, to: &Name, width: u64, a: &Word) -> Result<Use, Stop>
        ensures { IsUse [] self.now (s.Zext 0 to.now width a.now) result }
    {
        let a = self.operand(a)?;
        self.new_local(to)?;
        let width = narrow(width);
        Ok(Use::Line(Act::Zext { width, a }))
    }

    /// `S x = sext W a`
    #[tactic(auto, using(crate::proofs::FirstFaults::first_faults))]
    pub(crate) fn sext(&self, to: &Name, width: u64, a: &Word) -> Result<Use, Stop>
        ensures { IsUse [] self.now (s.Sext 0 to.now width a.now) result }
    {
        let a = self.operand(a)?;
        self.new_local(to)?;
        let width = narrow(width);
        Ok(Use::Line(Act::Sext { width, a }))
    }

    /// `S x = slice H L a`
    #[tactic(auto, using(crate::proofs::FirstFaults::first_faults))]
    pub(crate) fn slice(&self, to: &Name, high: u64, low: u64, a: &Word) -> Result<Use, Stop>
        ensures { IsUse [] self.now (s.Slice 0 to.now high low a.now) result }
    {
        let a = self.operand(a)?;
        self.new_local(to)?;
        let high = narrow(high);
        let low = narrow(low);
        Ok(Use::Line(Act::Slice { high, low, a }))
    }

    /// `S x = cat a b`
    #[tactic(auto, using(crate::proofs::FirstFaults::first_faults))]
    pub(crate) fn cat(&self, to: &Name, a: &Word, b: &Word) -> Result<Use, Stop>
        ensures { IsUse [] self.now (s.Cat 0 to.now a.now b.now) result }
    {
        let a = self.operand(a)?;
        let b = self.operand(b)?;
        self.new_local(to)?;
        Ok(Use::Line(Act::Cat { a, b }))
    }

    /// `S F.wN i v`
    #[tactic(auto, using(crate::proofs::FirstFaults::first_faults))]
    pub(crate) fn write_file(
        &self,
        file: &Name,
        port: u64,
        index: &Word,
        value: &Word,
        guard: &Option<Word>,
    ) -> Result<Use, Stop>
        ensures { IsUse [] self.now
            (s.WriteFile 0 file.now port index.now value.now guard.now) result }
    {
        let file = self.write_port(file, port)?;
        let index = self.operand(index)?;
        let value = self.operand(value)?;
        let guard = self.guard(guard)?;
        let port = narrow(port);
        Ok(Use::Line(Act::WriteFile {
            file,
            port,
            index,
            value,
            guard,
        }))
    }

    /// `S R <- v`
    #[tactic(auto, using(crate::proofs::FirstFaults::first_faults))]
    pub(crate) fn write_register(
        &self,
        reg: &Name,
        value: &Word,
        guard: &Option<Word>,
    ) -> Result<Use, Stop>
        ensures { IsUse [] self.now (s.WriteRegister 0 reg.now value.now guard.now) result }
    {
        let reg = place_in(&self.regs, reg)?;
        let value = self.operand(value)?;
        let guard = self.guard(guard)?;
        Ok(Use::Line(Act::WriteReg { reg, value, guard }))
    }

    /// `S M.write a v`
    #[tactic(auto, using(crate::proofs::FirstFaults::first_faults))]
    pub(crate) fn write_memory(
        &self,
        mem: &Name,
        at: &Word,
        value: &Word,
        guard: &Option<Word>,
    ) -> Result<Use, Stop>
        ensures { IsUse [] self.now (s.WriteMemory 0 mem.now at.now value.now guard.now) result }
    {
        let mem = place_in(&self.mems, mem)?;
        let at = self.operand(at)?;
        let value = self.operand(value)?;
        let guard = self.guard(guard)?;
        Ok(Use::Line(Act::WriteMem {
            mem,
            at,
            value,
            guard,
        }))
    }

    /// `S branch c t`
    #[tactic(auto, using(crate::proofs::FirstFaults::first_faults))]
    pub(crate) fn branch(&self, cond: &Word, target: &Word) -> Result<Use, Stop>
        ensures { IsUse [] self.now (s.Branch 0 cond.now target.now) result }
    {
        let cond = self.operand(cond)?;
        let target = self.operand(target)?;
        Ok(Use::Line(Act::Branch { cond, target }))
    }

    /// `S jump t`
    #[tactic(auto, using(crate::proofs::FirstFaults::first_faults))]
    pub(crate) fn jump(&self, target: &Word) -> Result<Use, Stop>
        ensures { IsUse [] self.now (s.Jump 0 target.now) result }
    {
        let target = self.operand(target)?;
        Ok(Use::Line(Act::Jump { target }))
    }

    /// A line of an instruction.
    pub(crate) fn line(&self, statement: &Statement) -> Result<Use, Stop>
        requires { IsTrue (is_micro statement.now) }
        ensures { IsUse [] self.now statement.now result }
    {
        match statement {
            Statement::Compute {
                to,
                unit,
                op,
                a,
                b,
                ..
            } => self.compute(to, unit, op, a, b),
            Statement::ReadFile {
                to,
                file,
                port,
                index,
                ..
            } => self.read_file(to, file, *port, index),
            Statement::ReadRegister { to, reg, .. } => self.read_register(to, reg),
            Statement::ReadMemory { to, mem, at, .. } => self.read_memory(to, mem, at),
            Statement::ReadInput { to, input, .. } => self.read_input(to, input),
            _ => self.wiring(statement),
        }
    }

    /// A line that only wires, writes or transfers.
    fn wiring(&self, statement: &Statement) -> Result<Use, Stop>
        requires { IsWiredOrActs statement.now }
        ensures { IsUse [] self.now statement.now result }
    {
        match statement {
            Statement::Const {
                to,
                width,
                value,
                ..
            } => self.constant(to, *width, *value),
            Statement::Zext { to, width, a, .. } => self.zext(to, *width, a),
            Statement::Sext { to, width, a, .. } => self.sext(to, *width, a),
            Statement::Slice {
                to,
                high,
                low,
                a,
                ..
            } => self.slice(to, *high, *low, a),
            Statement::Cat { to, a, b, .. } => self.cat(to, a, b),
            _ => self.acts(statement),
        }
    }

    /// A line that writes or transfers.
    fn acts(&self, statement: &Statement) -> Result<Use, Stop>
        requires { Acts statement.now }
        ensures { IsUse [] self.now statement.now result }
    {
        match statement {
            Statement::WriteFile {
                file,
                port,
                index,
                value,
                guard,
                ..
            } => { self.write_file(file, *port, index, value, guard) }
            Statement::WriteRegister {
                reg,
                value,
                guard,
                ..
            } => { self.write_register(reg, value, guard) }
            Statement::WriteMemory {
                mem,
                at,
                value,
                guard,
                ..
            } => { self.write_memory(mem, at, value, guard) }
            Statement::Branch { cond, target, .. } => self.branch(cond, target),
            Statement::Jump { target, .. } => self.jump(target),
            _ => unreachable!(),
        }
    }
}
