//! What the nets of a finished module have in a cycle, cell by cell: each cell's operands are computed before it.
use ap_bits::NoMemory;
use ap_net::cell::{Cell, TwoOp, Wire};
use ap_net::module::Module;
use std::alloc::Global;

/// The values of a module's nets, by their numbers.
#[derive(Drop)]
pub struct Values {
    of: Vec<u64>,
}

impl Values {
    /// All nets at 0.
    pub fn new(alloc: Global, module: &Module) -> Result<Values, NoMemory> {
        let wires = module.ports().len().saturating_add(module.wires().len());
        let nets = wires.saturating_add(module.regs().len());
        let of = vec![in alloc; 0; nets]?;
        Ok(Values { of })
    }

    pub fn get(&self, net: usize) -> u64 {
        self.of.get(net).copied().unwrap_or(0)
    }

    pub fn set(&mut self, net: usize, value: u64) {
        if let Some(place) = self.of.get_mut(net) {
            *place = value;
        }
    }

    /// Evaluates the assigns, from the inputs and registers.
    pub fn settle(&mut self, module: &Module) {
        for assign in module.assigns() {
            let value = low_bits(self.result_of(assign.cell), assign.to.width);
            self.set(assign.to.number, value);
        }
    }

    fn result_of(&self, cell: Cell) -> u64 {
        let of = |net: Wire| self.get(net.number);
        match cell {
            Cell::Const(value) => value,
            Cell::Copy(a) => of(a),
            Cell::Not(a) => !of(a),
            Cell::Two(op, a, b) => two(op, of(a), of(b)),
            Cell::Choose(s, a, b) => { if of(s) == 1 { of(a) } else { of(b) } }
            Cell::Cat(a, b) => of(a).checked_shl(b.width).unwrap_or(0) | of(b),
            Cell::Slice(a, _, l) => of(a).checked_shr(l).unwrap_or(0),
        }
    }
}

/// The lowest `width` bits.
fn low_bits(value: u64, width: u32) -> u64 {
    if width < 64 {
        value & !(u64::MAX << width)
    } else {
        value
    }
}

fn two(op: TwoOp, a: u64, b: u64) -> u64 {
    match op {
        TwoOp::Add => a.wrapping_add(b),
        TwoOp::Sub => a.wrapping_sub(b),
        TwoOp::And => a & b,
        TwoOp::Or => a | b,
        TwoOp::Xor => a ^ b,
        TwoOp::Eq => u64::from(a == b),
        TwoOp::Ltu => u64::from(a < b),
    }
}
