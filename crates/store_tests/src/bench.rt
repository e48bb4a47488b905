//! A module without instances, evaluated cycle by cycle: each cell's operands are computed before it.
use ap_bits::NoMemory;
use ap_net::cell::{Cell, TwoOp, Wire};
use ap_net::module::Module;
use std::alloc::Global;

/// The values of a module's nets, by their numbers.
#[derive(Drop)]
pub struct Bench {
    alloc: Global,
    values: Vec<u64>,
}

/// The lowest `width` bits.
fn low_bits(value: u64, width: u32) -> u64 {
    if width < 64 {
        value & !(u64::MAX << width)
    } else {
        value
    }
}

impl Bench {
    /// The module after the reset edge.
    pub fn start(alloc: Global, module: &Module) -> Result<Bench, NoMemory> {
        let first = module.ports().len().saturating_add(module.wires().len());
        let nets = first.saturating_add(module.regs().len());
        let mut bench = Bench {
            alloc,
            values: vec![in alloc; 0; nets]?,
        };
        for (place, register) in module.regs().iter().enumerate() {
            bench.set(first.saturating_add(place), register.reset);
        }
        Ok(bench)
    }

    /// The value of a net.
    pub fn get(&self, net: usize) -> u64 {
        self.values.get(net).copied().unwrap_or(0)
    }

    fn set(&mut self, net: usize, value: u64) {
        if let Some(place) = self.values.get_mut(net) {
            *place = value;
        }
    }

    fn two(&self, op: TwoOp, a: Wire, b: Wire) -> u64 {
        let a = self.get(a.number);
        let b = self.get(b.number);
        match op {
            TwoOp::Add => a.wrapping_add(b),
            TwoOp::Sub => a.wrapping_sub(b),
            TwoOp::And => a & b,
            TwoOp::Or => a | b,
            TwoOp::Xor => a ^ b,
            TwoOp::Eq => u64::from(a == b),
            TwoOp::Ltu => u64::from(a < b),
        }
    }

    fn result_of(&self, cell: Cell) -> u64 {
        match cell {
            Cell::Const(value) => value,
            Cell::Copy(a) => self.get(a.number),
            Cell::Not(a) => !self.get(a.number),
            Cell::Two(op, a, b) => self.two(op, a, b),
            Cell::Choose(s, a, b) => {
                if self.get(s.number) == 1 {
                    self.get(a.number)
                } else {
                    self.get(b.number)
                }
            }
            Cell::Cat(a, b) => {
                self.get(a.number).checked_shl(b.width).unwrap_or(0) | self.get(b.number)
            }
            Cell::Slice(a, _, l) => self.get(a.number).checked_shr(l).unwrap_or(0),
        }
    }

    /// Gives the inputs these values, in the order of the ports, and computes all nets.
    pub fn settle(&mut self, module: &Module, inputs: &[u64]) {
        let mut given = 0usize;
        for (number, port) in module.ports().iter().enumerate() {
            if port.output {
                continue;
            }
            self.set(number, inputs.get(given).copied().unwrap_or(0));
            given = given.saturating_add(1);
        }
        for assign in module.assigns() {
            let value = low_bits(self.result_of(assign.cell), assign.to.width);
            self.set(assign.to.number, value);
        }
    }

    /// The clock edge: each register takes the value of its net.
    pub fn edge(&mut self, module: &Module) -> Result<(), NoMemory> {
        let mut taken = Vec::new(self.alloc);
        for next in module.nexts() {
            taken.push(self.get(next.from.number))?;
        }
        for (next, value) in module.nexts().iter().zip(&taken) {
            self.set(next.register.number, *value);
        }
        Ok(())
    }
}
