//! The registers of a stage alone, as a module: what comes to the stage are inputs.
ghost use Rattle.std.specs.Prelude.{◌≡◌, IfOk, OnOk, codes};
ghost use Rattle.ap_net.specs.Draft.{blank};
ghost use Rattle.flight_tests.specs.Alone as alone;
ghost use Rattle.flight_tests.specs.Alone.{given, given_draft, open_draft, opened};

use crate::evaluate::Values;
use ap_bits::{Items, NoMemory};
use ap_flight::entry::Leaving;
use ap_flight::stage::{Coming, StageRegisters, drive_stage};
use ap_net::builder::Builder;
use ap_net::cell::Wire;
use ap_net::module::Module;
use ap_net::readiness::ready_nets_are_driven;
use ap_pipe::Home;
use std::alloc::Global;

/// The numbers of the inputs: whether the stage is held, the word and the address that come, the conditions of three instructions, and
/// what is left by the homes.
pub const HOLD: usize = 0;

pub const WORD: usize = 1;

pub const PLACE: usize = 2;

pub const CONDITIONS: [usize; 3] = [3, 4, 5];

pub const LEFT: [usize; 4] = [6, 7, 8, 9];

const INPUTS: usize = 10;

/// Registers: word, address and two slots.
const REGISTERS: usize = 4;

/// The inputs of the module.
fn inputs(out: &mut Builder) -> Result<Coming, NoMemory>
    requires { out.old ≡ blank (codes "stage") }
    ensures nets { OnOk result (out.new ≡ given_draft) }
    ensures coming { IfOk result (λ coming. coming ≡ given) }
{
    let alloc = out.allocator();
    let hold = out.input(b"hold", 1)?;
    let word = out.input(b"word", 16)?;
    let place = out.input(b"place", 6)?;
    let conds = [
        out.input(b"is_0", 1)?,
        out.input(b"is_1", 1)?,
        out.input(b"is_2", 1)?,
    ];
    let locals = [
        Leaving {
            cond: conds[0],
            net: out.input(b"left_0", 16)?,
        },
        Leaving {
            cond: conds[0],
            net: out.input(b"left_1", 8)?,
        },
        Leaving {
            cond: conds[1],
            net: out.input(b"left_2", 12)?,
        },
        Leaving {
            cond: conds[2],
            net: out.input(b"left_3", 4)?,
        },
    ];
    Ok(Coming {
        hold,
        word,
        place,
        locals: Items::copy_of(alloc, &locals)?,
    })
}

/// The registers of the stage: word, address, and slots of 16 and 8 bits.
fn registers(out: &mut Builder) -> Result<StageRegisters, NoMemory>
    requires { out.old ≡ given_draft }
    ensures nets { OnOk result (out.new ≡ open_draft) }
    ensures registers { IfOk result (λ registers. registers ≡ opened) }
{
    let alloc = out.allocator();
    let word = out.register(b"x", 16, 0)?;
    let place = out.register(b"a", 6, 0)?;
    let slots = [out.register(b"l_0", 16, 0)?, out.register(b"l_1", 8, 0)?];
    Ok(StageRegisters {
        word,
        place,
        slots: Items::copy_of(alloc, &slots)?,
    })
}

/// Instruction 0 has a local in each slot, 1 one of 12 bits in the first, and 2 one of 4 bits in the second.
fn slot_homes() -> [Home; 4]
    ensures { result ≡ alone.homes }
{
    let home = |instr, local, slot| Home { instr, local, slot };
    [home(0, 0, 0), home(0, 1, 1), home(1, 2, 0), home(2, 0, 1)]
}

/// The module, and the registers by the builder's numbers.
#[derive(Drop)]
pub struct Stage {
    pub module: Module,
    pub registers: StageRegisters,
}

/// The registers of the stage alone, driven by what comes.
pub fn stage_alone(alloc: Global) -> Result<Stage, NoMemory> {
    let mut out = Builder::new(alloc, b"stage")?;
    let coming = inputs(&mut out)?;
    let registers = registers(&mut out)?;
    let homes = slot_homes();
    drive_stage(&registers, &homes, &coming, &mut out)?;
    ready_nets_are_driven();
    let module = out.finish()?;
    Ok(Stage { module, registers })
}

impl Stage {
    /// The number of a net in the module: inputs stand first, then wires, then registers, and the builder had the registers declared
    /// before the wires.
    fn number(&self, net: Wire) -> usize {
        let number = net.number;
        if number < INPUTS {
            return number;
        }
        if number < INPUTS + REGISTERS {
            return number.saturating_add(self.module.wires().len());
        }
        number - REGISTERS
    }

    fn wires(&self) -> [Option<Wire>; 4] {
        let slots = self.registers.slots.as_slice();
        [
            Some(self.registers.word),
            Some(self.registers.place),
            slots.first().copied(),
            slots.get(1).copied(),
        ]
    }

    /// Sets what word, address and slots hold.
    pub fn set(&self, values: &mut Values, held: [u64; 4]) {
        for (register, value) in self.wires().iter().zip(&held) {
            if let Some(register) = register {
                values.set(self.number(*register), *value);
            }
        }
    }

    /// What a register takes; nothing where it isn't there or takes nothing.
    fn taken_by(&self, values: &Values, register: Option<Wire>) -> Option<u64> {
        let number = self.number(register?);
        for next in self.module.nexts() {
            if next.register.number == number {
                return Some(values.get(next.from.number));
            }
        }
        None
    }

    /// What word, address and slots take.
    pub fn taken(&self, values: &Values) -> [Option<u64>; 4] {
        let [word, place, first, second] = self.wires();
        [
            self.taken_by(values, word),
            self.taken_by(values, place),
            self.taken_by(values, first),
            self.taken_by(values, second),
        ]
    }
}
