//! The nets of control, cycle by cycle, against what the rules of the machine say of these cycles.
use crate::bench::{Alone, BUSY, MWAIT, TAKEN, WORDS, control_module};
use crate::evaluate::Values;
use crate::processor::{is_clean, processor};
use std::alloc::{AllocError, Global};
use std::process::Abort;
use std::test::Fail;

/// Control of the processor, which the judges find clean.
fn control_alone(rt: &impl Abort, alloc: Global) -> Result<Alone, Fail> {
    let design = processor(alloc)?;
    if !is_clean(&design)? {
        panic!(rt; "the processor isn't clean")
    }
    Ok(control_module(alloc, &design)?)
}

/// The place of the instruction that a word is, by hand.
fn instruction_of(word: u64) -> Option<usize> {
    let z = (word >> 6) & 7;
    match word >> 12 {
        0 => { if word == 0 { Some(0) } else { None } }
        1 => match word & 7 {
            0 => Some(1),
            1 => Some(2),
            2 => Some(3),
            _ => None,
        },
        2 => Some(4),
        3 => Some(5),
        4 => Some(6),
        5 => { if z == 0 { Some(7) } else { None } }
        6 => { if z == 0 { Some(8) } else { None } }
        7 => { if word & 0x1ff == 0 { Some(9) } else { None } }
        8 => { if word & 0x1ff == 0 { Some(10) } else { None } }
        _ => None,
    }
}

/// The instructions, by their places.
const INSTRUCTIONS: [usize; 11] = [0, 1, 2, 3, 4, 5, 6, 7, 8, 9, 10];

const OPS: [u64; 16] = [0, 1, 2, 3, 4, 5, 6, 7, 8, 9, 10, 11, 12, 13, 14, 15];

/// A field of three bits: none of them, each alone, and all.
const SOME: [u64; 5] = [0, 1, 2, 4, 7];

/// A field of three bits, with each value.
const ALL: [u64; 8] = [0, 1, 2, 3, 4, 5, 6, 7];

/// Each of the words with each value of a further field of three bits.
fn with_field(alloc: Global, words: &[u64], field: &[u64]) -> Result<Vec<u64>, AllocError> {
    let mut longer = Vec::new(alloc);
    for word in words {
        for value in field {
            longer.push((word << 3) | value)?;
        }
    }
    Ok(longer)
}

/// Words with each op and each fn, and with the other fields as their single bits make them.
fn words(alloc: Global) -> Result<Vec<u64>, AllocError> {
    let words = with_field(alloc, &OPS, &SOME)?;
    let words = with_field(alloc, &words, &SOME)?;
    let words = with_field(alloc, &words, &SOME)?;
    with_field(alloc, &words, &ALL)
}

/// In each stage a word is decoded as the instruction that it is by hand, and as no other.
#[test]
fn words_are_decoded(rt: HostRuntime) -> Result<(), Fail> {
    let alloc = rt.alloc();
    let control = control_alone(&rt, alloc)?;
    let mut values = Values::new(alloc, &control.module)?;
    for word in words(alloc)?.iter() {
        for input in WORDS {
            values.set(input, *word);
        }
        values.settle(&control.module);
        let due = instruction_of(*word);
        for instr in INSTRUCTIONS {
            let hit = u64::from(due == Some(instr));
            let nets = control.decoded(&values, instr);
            assert_eq!(rt; nets, [hit; 3], "{word} {instr}");
        }
    }
    Ok(())
}

/// What control is given in a cycle: the word of stage 2 beside LD in stage 1 and ST in stage 3, which use the memory in stage 2
/// alone.
#[derive(Clone, Copy)]
struct Cycle {
    word: u64,
    /// Whether the word reads or writes the memory.
    is_memory: bool,
    mwait: bool,
    taken: bool,
    busy: bool,
    valid: [bool; 3],
}

/// What control answers: for each stage whether it is held, whether a transfer is taken, and for the stages from 1 on whether the
/// flight fires and whether there is a word in the next cycle.
#[derive(Clone, Copy, Debug, PartialEq, Eq)]
struct Answer {
    held: [u64; 4],
    kill: u64,
    fires: [u64; 3],
    next: [u64; 3],
}

fn nets_of(bits: [bool; 3]) -> [u64; 3] {
    let [one, two, three] = bits;
    [u64::from(one), u64::from(two), u64::from(three)]
}

/// By hand. The multiplier's busy and a memory word that waits hold all stages. A transfer that is taken while nothing is held kills
/// the fetched word alone, since stage 1 has its slot.
fn answer_by_hand(cycle: Cycle) -> Answer {
    let [one, two, _] = cycle.valid;
    if cycle.busy || (cycle.is_memory && cycle.mwait && two) {
        return Answer {
            held: [1; 4],
            kill: 0,
            fires: [0; 3],
            next: nets_of(cycle.valid),
        };
    }
    Answer {
        held: [0; 4],
        kill: u64::from(cycle.taken),
        fires: nets_of(cycle.valid),
        next: nets_of([!cycle.taken, one, two]),
    }
}

/// By the nets.
fn answer_by_nets(control: &Alone, values: &mut Values, cycle: Cycle) -> Answer {
    let [first, second, third] = WORDS;
    values.set(first, 0x3240);
    values.set(second, cycle.word);
    values.set(third, 0x4240);
    values.set(MWAIT, u64::from(cycle.mwait));
    values.set(TAKEN, u64::from(cycle.taken));
    values.set(BUSY, u64::from(cycle.busy));
    control.set_valid(values, cycle.valid);
    values.settle(&control.module);
    Answer {
        held: control.held(values),
        kill: control.kill(values),
        fires: control.fires(values),
        next: control.next_valid(values),
    }
}

/// Whether a bit of the number is 1.
fn bit(number: u32, place: u32) -> bool {
    (number.checked_shr(place).unwrap_or(0) & 1) == 1
}

/// A word of stage 2, and whether it reads or writes the memory there: NOP, MUL 3 1 2, LD 1 1 0, ST 1 1 0, BZ 1 5.
const STAGE_TWO: [(u64, bool); 5] = [
    (0, false),
    (0x1651, false),
    (0x3240, true),
    (0x4240, true),
    (0x5205, false),
];

/// All cycles with such a word.
#[test]
fn stages_go_on(rt: HostRuntime) -> Result<(), Fail> {
    let alloc = rt.alloc();
    let control = control_alone(&rt, alloc)?;
    let mut values = Values::new(alloc, &control.module)?;
    for (word, is_memory) in STAGE_TWO {
        for bits in 0..64 {
            let cycle = Cycle {
                word,
                is_memory,
                mwait: bit(bits, 0),
                taken: bit(bits, 1),
                busy: bit(bits, 2),
                valid: [bit(bits, 3), bit(bits, 4), bit(bits, 5)],
            };
            let answer = answer_by_nets(&control, &mut values, cycle);
            assert!(rt; answer == answer_by_hand(cycle), "{word} {bits}");
        }
    }
    Ok(())
}
