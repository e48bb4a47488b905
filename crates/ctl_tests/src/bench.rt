//! Control alone, as a module: what it is given are inputs.
ghost use Rattle.std.specs.Prelude.{◌≡◌, IfOk, OnOk, codes};
ghost use Rattle.ap_desc.specs.Clean.{IsClean};
ghost use Rattle.ap_model.specs.Examples.{processor};
ghost use Rattle.ap_net.specs.Draft.{blank};
ghost use Rattle.ctl_tests.specs.Alone.{given_draft, given_nets};

use crate::evaluate::Values;
use ap_bits::{Items, NoMemory};
use ap_ctl::control::control;
use ap_ctl::{ControlGiven, ControlNets};
use ap_desc::design::Design;
use ap_net::builder::Builder;
use ap_net::cell::Wire;
use ap_net::module::Module;
use ap_net::readiness::ready_nets_are_driven;
use std::alloc::Global;

/// The numbers of the words of the stages 1 to 3, which are inputs like the next three.
pub const WORDS: [usize; 3] = [0, 1, 2];

pub const MWAIT: usize = 3;

pub const TAKEN: usize = 4;

pub const BUSY: usize = 5;

/// Inputs, and registers of valid bits.
const INPUTS: usize = 6;

const REGISTERS: usize = 3;

/// The inputs of the module.
fn inputs(out: &mut Builder) -> Result<ControlGiven, NoMemory>
    requires { out.old ≡ blank (codes "control") }
    ensures nets { OnOk result (out.new ≡ given_draft) }
    ensures given { IfOk result (λ given. given ≡ given_nets) }
{
    let alloc = out.allocator();
    let words = [
        out.input(b"x_1", 16)?,
        out.input(b"x_2", 16)?,
        out.input(b"x_3", 16)?,
    ];
    let mwait = out.input(b"mwait", 1)?;
    let taken = out.input(b"taken", 1)?;
    let busy = out.input(b"busy", 1)?;
    Ok(ControlGiven {
        words: Items::copy_of(alloc, &words)?,
        mwait,
        taken,
        busy: Items::copy_of(alloc, &[busy])?,
    })
}

/// The module, and the nets of control by the builder's numbers.
#[derive(Drop)]
pub struct Alone {
    pub module: Module,
    pub nets: ControlNets,
}

/// The module of the processor's control.
pub fn control_module(alloc: Global, design: &Design) -> Result<Alone, NoMemory>
    requires clean { IsClean design.now }
    requires tested { design.now ≡ processor }
{
    let mut out = Builder::new(alloc, b"control")?;
    let given = inputs(&mut out)?;
    let nets = control(design, &given, &mut out)?;
    ready_nets_are_driven();
    let module = out.finish()?;
    Ok(Alone { module, nets })
}

/// The nets at the places 0 to 2 of a list.
fn first_three(nets: &[Wire]) -> [Option<Wire>; 3] {
    [
        nets.first().copied(),
        nets.get(1).copied(),
        nets.get(2).copied(),
    ]
}

impl Alone {
    /// The number of a net in the module: inputs stand first, then wires, then registers, and the builder had the registers declared
    /// before the wires.
    fn number(&self, net: Wire) -> usize {
        let number = net.number;
        if number < INPUTS {
            return number;
        }
        if number < INPUTS + REGISTERS {
            return number.saturating_add(self.module.wires().len());
        }
        number - REGISTERS
    }

    /// The value of a net; 2 where there is none.
    fn value(&self, values: &Values, net: Option<Wire>) -> u64 {
        match net {
            Some(net) => values.get(self.number(net)),
            None => 2,
        }
    }

    fn values(&self, values: &Values, nets: [Option<Wire>; 3]) -> [u64; 3] {
        let [one, two, three] = nets;
        [
            self.value(values, one),
            self.value(values, two),
            self.value(values, three),
        ]
    }

    /// Whether the word of a stage matches the instruction, by its place, for each stage; 2 where there is no such net.
    pub fn decoded(&self, values: &Values, instr: usize) -> [u64; 3] {
        let stages = self.nets.decoded.as_slice();
        let of = |stage: usize| stages
            .get(stage)
            .and_then(|nets| nets.as_slice().get(instr).copied());
        self.values(values, [of(0), of(1), of(2)])
    }

    /// Whether the stages 0 to 3 are held.
    pub fn held(&self, values: &Values) -> [u64; 4] {
        let hold = self.nets.hold.as_slice();
        let of = |stage: usize| self.value(values, hold.get(stage).copied());
        [of(0), of(1), of(2), of(3)]
    }

    /// Whether a transfer is taken.
    pub fn kill(&self, values: &Values) -> u64 {
        self.value(values, Some(self.nets.kill))
    }

    /// Whether the flights of the stages 1 to 3 fire.
    pub fn fires(&self, values: &Values) -> [u64; 3] {
        self.values(values, first_three(self.nets.fires.as_slice()))
    }

    /// Says in which of the stages 1 to 3 there is a word.
    pub fn set_valid(&self, values: &mut Values, valid: [bool; 3]) {
        for (register, value) in self.nets.valid.as_slice().iter().zip(&valid) {
            values.set(self.number(*register), u64::from(*value));
        }
    }

    /// Whether there is a word in the stages 1 to 3 in the next cycle: what the registers take at the clock edge.
    pub fn next_valid(&self, values: &Values) -> [u64; 3] {
        let [one, two, three] = first_three(self.nets.valid.as_slice());
        [
            self.taken_by(values, one),
            self.taken_by(values, two),
            self.taken_by(values, three),
        ]
    }

    /// What a register takes; 2 where there is none or it takes nothing.
    fn taken_by(&self, values: &Values, register: Option<Wire>) -> u64 {
        let Some(register) = register else {
            return 2;
        };
        let number = self.number(register);
        for next in self.module.nexts() {
            if next.register.number == number {
                return values.get(next.from.number);
            }
        }
        2
    }
}
