//! The values of a module's nets, cell by cell: each cell's operands are computed before it.
use ap_bits::NoMemory;
use ap_net::cell::{Cell, TwoOp, Wire};
use ap_net::module::Module;
use std::alloc::Global;

/// The values of a module's nets, by their numbers.
#[derive(Drop)]
pub struct Bench {
    values: Vec<u64>,
}

impl Bench {
    pub fn new(alloc: Global, module: &Module) -> Result<Bench, NoMemory> {
        let nets = module
            .ports()
            .len()
            .saturating_add(module.wires().len())
            .saturating_add(module.regs().len());
        let values = vec![in alloc; 0; nets]?;
        Ok(Bench { values })
    }

    pub fn get(&self, net: usize) -> u64 {
        self.values.get(net).copied().unwrap_or(0)
    }

    fn set(&mut self, net: usize, value: u64) {
        if let Some(place) = self.values.get_mut(net) {
            *place = value;
        }
    }

    /// The value of a cell of those that write ports are made of.
    fn value_of(&self, cell: Cell) -> u64 {
        match cell {
            Cell::Const(value) => value,
            Cell::Copy(a) => self.get(a.number),
            Cell::Two(TwoOp::And, a, b) => self.get(a.number) & self.get(b.number),
            Cell::Two(TwoOp::Or, a, b) => self.get(a.number) | self.get(b.number),
            Cell::Choose(s, a, b) => {
                if self.get(s.number) == 1 {
                    self.get(a.number)
                } else {
                    self.get(b.number)
                }
            }
            _ => u64::MAX,
        }
    }

    /// Goes over all cells, in order.
    pub fn run(&mut self, module: &Module) {
        for assign in module.assigns() {
            let value = self.value_of(assign.cell);
            self.set(assign.to.number, value);
        }
    }
}

/// How many cells a module has.
pub fn cell_count(module: &Module) -> usize {
    module.assigns().len()
}
