//! Distances of words.
ghost use Rattle.std.specs.Prelude.{◌≡◌, ◌≤◌, ◌<◌, ℕ, max, not, true, false, length, slice_get, IsSomeAnd};
ghost use Rattle.std.specs.Option.{option_map_or};
ghost use Rattle.ap_desc.specs.Clean.{IsClean};
ghost use Rattle.ap_dist.specs.Accesses.{access_of, accesses};
ghost use Rattle.ap_dist.specs.Constants.{HasConstants};
ghost use Rattle.ap_dist.specs.Distances.{are_apart, dist_of, do_meet, gap, gap_between, greatest, instr_out};
ghost use Rattle.ap_dist.specs.Limits.{IsWithinLimits};
ghost use Rattle.ap_dist.specs.Trails.{HasTrails};
ghost use Rattle.ap_model.specs.Fire.{instr_of};

use crate::access::{Access, Constants, Part, access_of, constants_of};
use crate::trail::{Lookup, Trails, lookup_of, slot_of};
use ap_desc::design::{Design, Instr, Micro};
use ap_enc::find;

/// Whether both indices are fixed, and they differ.
fn are_apart(a: Option<u64>, b: Option<u64>) -> bool
    ensures { result ≡ are_apart a b }
{
    match (a, b) {
        (Some(a), Some(b)) => a != b,
        _ => false,
    }
}

/// Whether both are one register or memory, or may be one cell.
fn do_meet(a: Part, b: Part) -> bool
    ensures { result ≡ do_meet a b }
{
    match (a, b) {
        (Part::Register(a), Part::Register(b)) => a == b,
        (Part::Cell { file: a, index: i }, Part::Cell { file: b, index: j }) => {
            a == b && !are_apart(i, j)
        }
        (Part::Memory(a), Part::Memory(b)) => a == b,
        _ => false,
    }
}

/// How many places later the younger access has to stand because of the older one: 0 where they don't conflict.
fn gap(older: Access, younger: Access) -> u32
    requires { older.stage ≤ 8 }
    ensures { result ≡ gap older younger }
{
    if !do_meet(older.part, younger.part) {
        0
    } else if older.writes && !younger.writes {
        (older.stage + 1).saturating_sub(younger.stage)
    } else if older.writes || younger.writes {
        older.stage.saturating_sub(younger.stage)
    } else {
        0
    }
}

/// The greater of `most` and the gap of the younger instruction's line from an older access.
fn line_reach(
    older: Access,
    most: u32,
    design: &Design,
    younger: &Instr,
    constants: &Constants,
    word: Option<u64>,
    micro: &Micro,
) -> u32
    requires stage { older.stage ≤ 8 }
    requires constants { HasConstants younger.now constants.now.values }
    ensures { result
        ≡ max most (option_map_or (gap older) (access_of design.now younger.now word micro.now) 0) }
{
    if micro.stage > older.stage.saturating_sub(most) {
        // a line of so late a stage has no gap above `most`
        return most;
    }
    match access_of(design, younger, constants, word, micro) {
        Some(access) => most.max(gap(older, access)),
        None => most,
    }
}

/// The greater of `most` and the distance of the younger instruction's lines, with these trails, from an older access.
fn trail_reach(
    older: Access,
    mut most: u32,
    design: &Design,
    younger: &Instr,
    constants: &Constants,
    word: Option<u64>,
    trails: &Trails,
) -> u32
    requires stage { older.stage ≤ 8 }
    requires lines { length younger.now.micros ≤ 64 }
    requires constants { HasConstants younger.now constants.now.values }
    requires trails { HasTrails younger.now (not older.writes) trails.now.last trails.now.before }
    requires low { 1 ≤ most }
    ensures { result
        ≡ max most (greatest (gap older) (accesses design.now younger.now word)) }
{
    let micros = younger.micros.as_slice();
    let mut line = trails.last[slot_of(older.part)] as usize;
    while line > 0 {
        most = line_reach(
            older,
            most,
            design,
            younger,
            constants,
            word,
            &micros[line - 1],
        );
        line = trails.before[line - 1] as usize;
    }
    most
}

/// The greater of `most` and the distance of the younger instruction's lines from an older access.
fn reach(
    older: Access,
    most: u32,
    design: &Design,
    younger: &Instr,
    lookup: &Lookup,
    word: Option<u64>,
) -> u32
    requires stage { older.stage ≤ 8 }
    requires younger { IsWithinLimits younger.now }
    requires constants { HasConstants younger.now lookup.now.constants.values }
    requires all { HasTrails younger.now false lookup.now.all.last lookup.now.all.before }
    requires writes { HasTrails younger.now true lookup.now.writes.last lookup.now.writes.before }
    requires low { 1 ≤ most }
    ensures { result
        ≡ max most (greatest (gap older) (accesses design.now younger.now word)) }
{
    let constants = &lookup.constants;
    if older.stage <= most {
        // an access of so early a stage has no gap above `most`
        most
    } else if older.writes {
        trail_reach(older, most, design, younger, constants, word, &lookup.all)
    } else {
        // two reads don't conflict
        trail_reach(
            older,
            most,
            design,
            younger,
            constants,
            word,
            &lookup.writes,
        )
    }
}

/// The distance of the younger instruction from the older one, with these words, or with any.
fn distance(
    design: &Design,
    older: &Instr,
    word: Option<u64>,
    younger: &Instr,
    other: Option<u64>,
) -> u32
    requires older { IsWithinLimits older.now }
    requires younger { IsWithinLimits younger.now }
    ensures { result
        ≡ gap_between (accesses design.now older.now word) (accesses design.now younger.now other) }
{
    let constants = constants_of(older);
    let lookup = lookup_of(younger);
    let mut most = 1;
    for micro in older.micros.as_slice() {
        if let Some(access) = access_of(design, older, &constants, word, micro) {
            most = reach(access, most, design, younger, &lookup, other);
        }
    }
    most
}

/// How many places after the older word `x` the younger word `y` may stand at the earliest: from 1 to one less than the number
/// of stages. It takes no memory.
pub fn dist(design: &Design, x: u64, y: u64) -> u32
    requires { IsClean design.now }
    ensures value { result ≡ dist_of design.now x y }
    ensures low { 1 ≤ result }
    ensures high { result < design.now.stages }
{
    match (find(design, x), find(design, y)) {
        (Some(older), Some(younger)) => {
            let instrs = design.instrs.as_slice();
            distance(
                design,
                &instrs[older as usize],
                Some(x),
                &instrs[younger as usize],
                Some(y),
            )
        }
        _ => 1,
    }
}

/// The greatest distance of any instruction from the one at this place, as if any two indices could be equal: from 1 to one less
/// than the number of stages, and at least every distance from a word of the instruction. It takes no memory.
pub fn out(design: &Design, instr: u32) -> u32
    requires clean { IsClean design.now }
    requires instr { instr < length design.now.instrs }
    ensures value { IsSomeAnd (slice_get design.now.instrs instr)
        (λ older. result ≡ instr_out design.now older) }
    ensures words { (x y : ℕ) → instr_of design.now x ≡ slice_get design.now.instrs instr
        → dist_of design.now x y ≤ result }
    ensures low { 1 ≤ result }
    ensures high { result < design.now.stages }
{
    let instrs = design.instrs.as_slice();
    let older = &instrs[instr as usize];
    let mut most = 1;
    for younger in instrs {
        most = most.max(distance(design, older, None, younger, None));
    }
    most
}
