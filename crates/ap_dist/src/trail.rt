//! The lines of an instruction by what they access, so that those that may conflict with an access are found
//! without looking at the others.
ghost use Rattle.std.specs.Prelude.{◌≡◌, ◌<◌, ◌≤◌, true, false, length, IfSome};
ghost use Rattle.ap_dist.specs.Constants.{HasConstants};
ghost use Rattle.ap_dist.specs.Trails.{HasTrails, slot_of, slot_of_line};

use crate::access::{Constants, LINES, Part, constants_of};
use ap_desc::design::{Act, Instr, Micro};

/// A slot for each register, file and memory that a design may have.
const SLOTS: usize = 76;

/// For each slot the last line of an instruction that accesses it, or that writes it, and for each such line the one before it with
/// the same slot. Lines are counted from 1 on, and 0 is none.
#[derive(Clone, Copy)]
pub(crate) struct Trails {
    pub last: [u8; SLOTS],
    pub before: [u8; LINES],
}

/// The slot of what is accessed.
pub(crate) fn slot_of(part: Part) -> usize
    ensures slot { result ≡ slot_of part }
    ensures low { result < 76 }
{
    match part {
        Part::Register(reg) => reg as usize % 64,
        Part::Cell { file, .. } => 64 + file as usize % 8,
        Part::Memory(mem) => 72 + mem as usize % 4,
    }
}

/// The slot of what the line accesses, or of what it writes where writes alone are asked for.
fn slot_of_line(micro: &Micro, writes_only: bool) -> Option<usize>
    ensures slot { result ≡ slot_of_line writes_only micro.now }
    ensures low { IfSome result (λ slot. slot < 76) }
{
    match micro.act {
        Act::ReadReg { .. } | Act::ReadFile { .. } | Act::ReadMem { .. } if writes_only => None,
        Act::ReadReg { reg } | Act::WriteReg { reg, .. } => Some(reg as usize % 64),
        Act::ReadFile { file, .. } | Act::WriteFile { file, .. } => Some(64 + file as usize % 8),
        Act::ReadMem { mem, .. } | Act::WriteMem { mem, .. } => Some(72 + mem as usize % 4),
        _ => None,
    }
}

/// The trails of an instruction's lines, or of those that write.
pub(crate) fn trails_of(instr: &Instr, writes_only: bool) -> Trails
    requires { length instr.now.micros ≤ 64 }
    ensures { HasTrails instr.now writes_only result.last result.before }
{
    let mut last = [0; SLOTS];
    let mut before = [0; LINES];
    for (place, micro) in instr.micros.as_slice().iter().enumerate() {
        if let Some(slot) = slot_of_line(micro, writes_only) {
            before[place] = last[slot];
            last[slot] = place as u8 + 1;
        }
    }
    Trails { last, before }
}

/// What is looked up of an instruction's lines.
#[derive(Clone, Copy)]
pub(crate) struct Lookup {
    pub constants: Constants,
    /// The trails of all lines.
    pub all: Trails,
    /// The trails of those that write.
    pub writes: Trails,
}

/// What is looked up of these lines.
pub(crate) fn lookup_of(instr: &Instr) -> Lookup
    requires { length instr.now.micros ≤ 64 }
    ensures constants { HasConstants instr.now result.constants.values }
    ensures all { HasTrails instr.now false result.all.last result.all.before }
    ensures writes { HasTrails instr.now true result.writes.last result.writes.before }
{
    Lookup {
        constants: constants_of(instr),
        all: trails_of(instr, false),
        writes: trails_of(instr, true),
    }
}
