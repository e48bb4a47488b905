//! What a finished unit shows, cell by cell: each cell's operands are computed before it.
use ap_bits::NoMemory;
use ap_net::cell::{Cell, TwoOp, Wire};
use ap_net::module::Module;
use std::alloc::Global;

/// The values of a module's nets so far, by their numbers.
#[derive(Drop)]
struct Values {
    of: Vec<u64>,
}

impl Values {
    fn get(&self, net: usize) -> u64 {
        self.of.get(net).copied().unwrap_or(0)
    }

    fn set(&mut self, net: usize, value: u64) {
        if let Some(place) = self.of.get_mut(net) {
            *place = value;
        }
    }
}

/// The lowest `width` bits.
fn low_bits(value: u64, width: u32) -> u64 {
    if width < 64 {
        value & !(u64::MAX << width)
    } else {
        value
    }
}

fn two(op: TwoOp, a: u64, b: u64) -> u64 {
    match op {
        TwoOp::Add => a.wrapping_add(b),
        TwoOp::Sub => a.wrapping_sub(b),
        TwoOp::And => a & b,
        TwoOp::Or => a | b,
        TwoOp::Xor => a ^ b,
        TwoOp::Eq => u64::from(a == b),
        TwoOp::Ltu => u64::from(a < b),
    }
}

fn result_of(cell: Cell, values: &Values) -> u64 {
    let of = |net: Wire| values.get(net.number);
    match cell {
        Cell::Const(value) => value,
        Cell::Copy(a) => of(a),
        Cell::Not(a) => !of(a),
        Cell::Two(op, a, b) => two(op, of(a), of(b)),
        Cell::Choose(s, a, b) => { if of(s) == 1 { of(a) } else { of(b) } }
        Cell::Cat(a, b) => of(a).checked_shl(b.width).unwrap_or(0) | of(b),
        Cell::Slice(a, _, l) => of(a).checked_shr(l).unwrap_or(0),
    }
}

/// The value of `y`, port 3, where the ports 0 to 2 have these values.
pub fn shown(alloc: Global, module: &Module, sel: u64, a: u64, b: u64) -> Result<u64, NoMemory> {
    let ports = module.ports().len();
    let nets = ports.saturating_add(module.wires().len());
    let mut values = Values {
        of: vec![in alloc; 0; nets]?,
    };
    values.set(0, sel);
    values.set(1, a);
    values.set(2, b);
    for assign in module.assigns() {
        let value = low_bits(result_of(assign.cell, &values), assign.to.width);
        values.set(assign.to.number, value);
    }
    Ok(values.get(3))
}
