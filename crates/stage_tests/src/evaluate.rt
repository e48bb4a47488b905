//! The values of a module's nets, cell by cell: each cell's operands are computed before it. Beside each value the number of `? :` on the
//! longest path back, by the sides of `? :` alone.
use ap_bits::NoMemory;
use ap_net::cell::{Cell, TwoOp, Wire};
use ap_net::module::Module;
use std::alloc::Global;

/// What is known of the nets of a module, by their numbers.
#[derive(Drop)]
pub struct Bench {
    values: Vec<u64>,
    depths: Vec<u32>,
}

/// The lowest `width` bits.
fn low_bits(value: u64, width: u32) -> u64 {
    if width < 64 {
        value & !(u64::MAX << width)
    } else {
        value
    }
}

impl Bench {
    pub fn new(alloc: Global, module: &Module) -> Result<Bench, NoMemory> {
        let nets = module
            .ports()
            .len()
            .saturating_add(module.wires().len())
            .saturating_add(module.regs().len());
        let values = vec![in alloc; 0; nets]?;
        let depths = vec![in alloc; 0; nets]?;
        Ok(Bench { values, depths })
    }

    pub fn get(&self, net: usize) -> u64 {
        self.values.get(net).copied().unwrap_or(0)
    }

    pub fn depth(&self, net: usize) -> u32 {
        self.depths.get(net).copied().unwrap_or(0)
    }

    pub fn set(&mut self, net: usize, value: u64) {
        if let Some(place) = self.values.get_mut(net) {
            *place = value;
        }
    }

    fn set_depth(&mut self, net: usize, depth: u32) {
        if let Some(place) = self.depths.get_mut(net) {
            *place = depth;
        }
    }

    fn two(&self, op: TwoOp, a: Wire, b: Wire) -> u64 {
        let a = self.get(a.number);
        let b = self.get(b.number);
        match op {
            TwoOp::Add => a.wrapping_add(b),
            TwoOp::Sub => a.wrapping_sub(b),
            TwoOp::And => a & b,
            TwoOp::Or => a | b,
            TwoOp::Xor => a ^ b,
            TwoOp::Eq => u64::from(a == b),
            TwoOp::Ltu => u64::from(a < b),
        }
    }

    fn value_of(&self, cell: Cell) -> u64 {
        match cell {
            Cell::Const(value) => value,
            Cell::Copy(a) => self.get(a.number),
            Cell::Not(a) => !self.get(a.number),
            Cell::Two(op, a, b) => self.two(op, a, b),
            Cell::Choose(s, a, b) => {
                if self.get(s.number) == 1 {
                    self.get(a.number)
                } else {
                    self.get(b.number)
                }
            }
            Cell::Cat(a, b) => self.get(a.number).checked_shl(b.width).unwrap_or(0)
                | self.get(b.number),
            Cell::Slice(a, _, low) => self.get(a.number).checked_shr(low).unwrap_or(0),
        }
    }

    fn depth_of(&self, cell: Cell) -> u32 {
        match cell {
            Cell::Const(_) => 0,
            Cell::Copy(a) | Cell::Not(a) | Cell::Slice(a, _, _) => self.depth(a.number),
            Cell::Two(_, a, b) | Cell::Cat(a, b) => self.depth(a.number).max(self.depth(b.number)),
            Cell::Choose(_, a, b) => self
                .depth(a.number)
                .max(self.depth(b.number))
                .saturating_add(1),
        }
    }

    /// Goes over all cells, in order.
    pub fn run(&mut self, module: &Module) {
        for assign in module.assigns() {
            let value = low_bits(self.value_of(assign.cell), assign.to.width);
            let depth = self.depth_of(assign.cell);
            self.set(assign.to.number, value);
            self.set_depth(assign.to.number, depth);
        }
    }
}

/// How many cells are `|`.
pub fn or_count(module: &Module) -> usize {
    module
        .assigns()
        .iter()
        .filter(|a| matches!(a.cell, Cell::Two(TwoOp::Or, _, _)))
        .count()
}
