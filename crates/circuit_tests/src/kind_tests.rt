//! The kinds' modules, evaluated against tables: their values were worked out from the table of operations over whole
//! numbers, apart from this code.
use crate::evaluate::shown;
use crate::nand::Nand;
use ap_bits::NoMemory;
use ap_comb::{Avg, Count, Shift};
use ap_net::builder::Builder;
use ap_net::module::Module;
use ap_unit::{Shelf, UnitKind};
use std::alloc::Global;
use std::process::Abort;
use std::test::Fail;

/// A finished unit of this kind, if the width is one of its widths.
fn built(alloc: Global, kind: &dyn UnitKind, w: u32) -> Result<Option<Module>, NoMemory> {
    if !kind.fits(w) {
        return Ok(None);
    }
    let mut out = Builder::new(alloc, b"unit")?;
    kind.build(w, &mut out)?;
    Ok(Some(out.finish()?))
}

/// Checks the value that a unit of this kind shows.
fn expect_shown(
    rt: &impl Abort,
    alloc: Global,
    kind: &dyn UnitKind,
    w: u32,
    sel: u64,
    operands: (u64, u64),
    value: u64,
) -> Result<(), Fail> {
    let Some(unit) = built(alloc, kind, w)? else {
        panic!(rt; "width {w}")
    };
    let (a, b) = operands;
    assert_eq!(rt;
        shown(alloc, &unit, sel, a, b)?,
        value,
        "{sel} of {a} and {b} at {w}"
    );
    Ok(())
}

/// The shifts that are tried at a width.
fn shifts_at(w: u32) -> &'static [u64] {
    match w {
        1 => &[0, 1],
        2 => &[0, 1, 2, 3],
        8 => &[0, 1, 7, 8, 255],
        _ => &[0, 1, 63, 64, 18446744073709551615],
    }
}

/// For each operation, width and first operand the values by the shifts at that width.
const SHIFTED: &[(u64, u32, u64, &[u64])] = &[
    (0, 1, 0, &[0, 0]),
    (0, 1, 1, &[1, 0]),
    (0, 2, 1, &[1, 2, 0, 0]),
    (0, 2, 2, &[2, 0, 0, 0]),
    (0, 2, 3, &[3, 2, 0, 0]),
    (0, 8, 1, &[1, 2, 128, 0, 0]),
    (0, 8, 150, &[150, 44, 0, 0, 0]),
    (0, 8, 255, &[255, 254, 128, 0, 0]),
    (0, 64, 1, &[1, 2, 9223372036854775808, 0, 0]),
    (
        0,
        64,
        9223372036854775811,
        &[9223372036854775811, 6, 9223372036854775808, 0, 0],
    ),
    (1, 1, 0, &[0, 0]),
    (1, 1, 1, &[1, 0]),
    (1, 2, 1, &[1, 0, 0, 0]),
    (1, 2, 2, &[2, 1, 0, 0]),
    (1, 2, 3, &[3, 1, 0, 0]),
    (1, 8, 1, &[1, 0, 0, 0, 0]),
    (1, 8, 150, &[150, 75, 1, 0, 0]),
    (1, 8, 255, &[255, 127, 1, 0, 0]),
    (1, 64, 1, &[1, 0, 0, 0, 0]),
    (
        1,
        64,
        9223372036854775811,
        &[9223372036854775811, 4611686018427387905, 1, 0, 0],
    ),
    (2, 1, 0, &[0, 0]),
    (2, 1, 1, &[1, 1]),
    (2, 2, 1, &[1, 0, 0, 0]),
    (2, 2, 2, &[2, 3, 3, 3]),
    (2, 2, 3, &[3, 3, 3, 3]),
    (2, 8, 1, &[1, 0, 0, 0, 0]),
    (2, 8, 150, &[150, 203, 255, 255, 255]),
    (2, 8, 255, &[255, 255, 255, 255, 255]),
    (2, 64, 1, &[1, 0, 0, 0, 0]),
    (
        2,
        64,
        9223372036854775811,
        &[
            9223372036854775811,
            13835058055282163713,
            18446744073709551615,
            18446744073709551615,
            18446744073709551615,
        ],
    ),
    (3, 1, 0, &[0, 0]),
    (3, 1, 1, &[1, 1]),
    (3, 2, 1, &[1, 2, 1, 2]),
    (3, 2, 2, &[2, 1, 2, 1]),
    (3, 2, 3, &[3, 3, 3, 3]),
    (3, 8, 1, &[1, 2, 128, 1, 128]),
    (3, 8, 150, &[150, 45, 75, 150, 75]),
    (3, 8, 255, &[255, 255, 255, 255, 255]),
    (
        3,
        64,
        1,
        &[1, 2, 9223372036854775808, 1, 9223372036854775808],
    ),
    (
        3,
        64,
        9223372036854775811,
        &[
            9223372036854775811,
            7,
            13835058055282163713,
            9223372036854775811,
            13835058055282163713,
        ],
    ),
];

#[test]
fn shifters_shift(rt: HostRuntime) -> Result<(), Fail> {
    let alloc = rt.alloc();
    for (op, w, a, values) in SHIFTED {
        assert_eq!(rt; shifts_at(*w).len(), values.len());
        for (b, value) in shifts_at(*w).iter().zip(*values) {
            expect_shown(&rt, alloc, &Shift, *w, *op, (*a, *b), *value)?;
        }
    }
    Ok(())
}

/// For each width and operand the number of ones, and that of zeros above them.
const COUNTED: &[(u32, u64, u64, u64)] = &[
    (1, 0, 0, 1),
    (1, 1, 1, 0),
    (2, 0, 0, 2),
    (2, 1, 1, 1),
    (2, 2, 1, 0),
    (2, 3, 2, 0),
    (8, 0, 0, 8),
    (8, 1, 1, 7),
    (8, 2, 1, 6),
    (8, 77, 4, 1),
    (8, 128, 1, 0),
    (8, 255, 8, 0),
    (64, 0, 0, 64),
    (64, 1, 1, 63),
    (64, 4336, 5, 51),
    (64, 9223372036854775808, 1, 0),
    (64, 18446744073709551615, 64, 0),
];

#[test]
fn counters_count(rt: HostRuntime) -> Result<(), Fail> {
    let alloc = rt.alloc();
    for (w, a, ones, zeros) in COUNTED {
        expect_shown(&rt, alloc, &Count, *w, 0, (*a, 0), *ones)?;
        expect_shown(&rt, alloc, &Count, *w, 1, (*a, 0), *zeros)?;
    }
    Ok(())
}

/// Averages by width and operands; the carry of the sum is left out.
const AVERAGES: &[(u32, u64, u64, u64)] = &[
    (1, 0, 1, 0),
    (1, 1, 1, 0),
    (2, 3, 2, 0),
    (2, 3, 3, 1),
    (8, 255, 3, 1),
    (8, 0, 1, 0),
    (8, 100, 50, 75),
    (8, 255, 255, 127),
    (64, 18446744073709551615, 3, 1),
    (
        64,
        9223372036854775808,
        9223372036854775806,
        9223372036854775807,
    ),
    (64, 5, 6, 5),
];

/// The complement of the bitwise and.
const NANDS: &[(u32, u64, u64, u64)] = &[
    (1, 0, 1, 1),
    (1, 1, 1, 0),
    (8, 0, 5, 255),
    (8, 204, 170, 119),
    (64, 18446744073709551615, 1, 18446744073709551614),
];

#[test]
fn averagers_halve(rt: HostRuntime) -> Result<(), Fail> {
    let alloc = rt.alloc();
    for (w, a, b, value) in AVERAGES {
        expect_shown(&rt, alloc, &Avg, *w, 0, (*a, *b), *value)?;
    }
    Ok(())
}

#[test]
fn calls_give_values(rt: HostRuntime) {
    assert_eq!(&rt; Shift.value(8, 2, 150, 1), 203);
    assert_eq!(&rt; Shift.op_name(3), "rol");
    assert_eq!(&rt; Shift.op_count(), 4);
    assert_eq!(&rt; Shift.fits(48), false);
    assert_eq!(&rt; Count.value(8, 1, 77, 0), 1);
    assert_eq!(&rt; Count.op_name(0), "pop");
    assert_eq!(&rt; Count.op_count(), 2);
    assert_eq!(&rt; Count.fits(48), true);
    assert_eq!(&rt; Avg.value(8, 0, 255, 3), 1);
    assert_eq!(&rt; Avg.latency(48), 1);
    assert_eq!(&rt; Nand.value(8, 0, 0, 5), 255);
}

#[test]
fn a_shelf_builds_a_kind_of_its_own(rt: HostRuntime) -> Result<(), Fail> {
    let alloc = rt.alloc();
    let mut kinds: Vec<Box<dyn UnitKind>> = Vec::new(alloc);
    kinds.push(Box::new(alloc, Shift)?)?;
    kinds.push(Box::new(alloc, Avg)?)?;
    kinds.push(Box::new(alloc, Nand)?)?;
    let Ok(shelf) = Shelf::new(kinds) else {
        panic!(&rt; "a name stands twice")
    };
    assert_eq!(&rt; shelf.find("count"), None);
    let Some(place) = shelf.find("nand") else {
        panic!(&rt; "no nand")
    };
    for (w, a, b, value) in NANDS {
        expect_shown(&rt, alloc, shelf.kind(place), *w, 0, (*a, *b), *value)?;
    }
    Ok(())
}
