//! The unit `alu`, evaluated against a table, and on a shelf. The values were worked out from the table of operations over
//! whole numbers.
use crate::evaluate::shown;
use ap_bits::NoMemory;
use ap_comb::{Alu, Avg, Count, Shift};
use ap_net::builder::Builder;
use ap_net::module::Module;
use ap_unit::{Shelf, ShelfFault, UnitKind};
use std::alloc::Global;
use std::test::Fail;

/// A finished unit, if there is one of this width.
fn built(alloc: Global, w: u32) -> Result<Option<Module>, NoMemory> {
    if !Alu.fits(w) {
        return Ok(None);
    }
    let mut out = Builder::new(alloc, b"k_alu")?;
    Alu.build(w, &mut out)?;
    Ok(Some(out.finish()?))
}

const TOP: u64 = 9223372036854775808;

const ALL: u64 = 18446744073709551615;

/// An operation, a width, both operands and the value.
const ROWS: &[(u32, u32, u64, u64, u64)] = &[
    (0, 1, 1, 1, 0),
    (0, 8, 255, 3, 2),
    (0, 64, ALL, 1, 0),
    (1, 1, 0, 1, 1),
    (1, 8, 3, 5, 254),
    (1, 64, 0, 1, ALL),
    (2, 8, 204, 170, 136),
    (3, 8, 204, 170, 238),
    (4, 8, 204, 170, 102),
    (5, 1, 1, 1, 1),
    (5, 8, 3, 5, 0),
    (5, 64, TOP, TOP, 1),
    (6, 8, 128, 127, 0),
    (6, 8, 3, 5, 1),
    (6, 64, TOP, ALL, 1),
    (7, 1, 1, 0, 1),
    (7, 1, 0, 1, 0),
    (7, 8, 128, 127, 1),
    (7, 8, 127, 128, 0),
    (7, 8, 3, 5, 1),
    (7, 8, 255, 254, 0),
    (7, 64, TOP, 1, 1),
    (8, 1, 1, 0, 1),
    (8, 8, 77, 5, 77),
    (8, 64, ALL, 0, ALL),
];

#[test]
fn units_compute(rt: HostRuntime) -> Result<(), Fail> {
    let alloc = rt.alloc();
    for (op, w, a, b, value) in ROWS {
        let Some(unit) = built(alloc, *w)? else {
            panic!(&rt; "width {w}")
        };
        assert_eq!(&rt;
            shown(alloc, &unit, u64::from(*op), *a, *b)?,
            *value,
            "{op} of {a} and {b} at {w}"
        );
    }
    Ok(())
}

#[test]
fn calls_tell_the_card(rt: HostRuntime) {
    assert_eq!(&rt; Alu.name(), "alu");
    assert_eq!(&rt; Alu.op_count(), 9);
    assert_eq!(&rt; Alu.op_name(0), "add");
    assert_eq!(&rt; Alu.op_name(7), "lts");
    assert_eq!(&rt; Alu.op_name(8), "pass");
    assert!(&rt; Alu.fits(1) && Alu.fits(48) && Alu.fits(64));
    assert!(&rt; !Alu.fits(0) && !Alu.fits(65));
    assert_eq!(&rt; Alu.latency(8), 1);
    assert_eq!(&rt; Alu.value(8, 0, 255, 3), 2);
    assert_eq!(&rt; Alu.value(8, 1, 3, 5), 254);
    assert_eq!(&rt; Alu.value(8, 5, 5, 5), 1);
    assert_eq!(&rt; Alu.value(8, 7, 128, 127), 1);
    assert_eq!(&rt; Alu.value(8, 8, 77, 5), 77);
}

/// Why two kinds of one name make no shelf.
fn fault_of(kinds: Vec<Box<dyn UnitKind>>) -> Option<ShelfFault> {
    if kinds.len() > 8 {
        return None;
    }
    Shelf::new(kinds).err()
}

#[test]
fn names_stand_once(rt: HostRuntime) -> Result<(), Fail> {
    let alloc = rt.alloc();
    let mut kinds: Vec<Box<dyn UnitKind>> = Vec::new(alloc);
    kinds.push(Box::new(alloc, Alu)?)?;
    kinds.push(Box::new(alloc, Alu)?)?;
    assert_eq!(&rt; fault_of(kinds), Some(ShelfFault::TwiceNamed { place: 1 }));
    Ok(())
}

#[test]
fn kinds_are_found(rt: HostRuntime) -> Result<(), Fail> {
    let alloc = rt.alloc();
    let mut kinds: Vec<Box<dyn UnitKind>> = Vec::new(alloc);
    kinds.push(Box::new(alloc, Alu)?)?;
    kinds.push(Box::new(alloc, Shift)?)?;
    kinds.push(Box::new(alloc, Count)?)?;
    kinds.push(Box::new(alloc, Avg)?)?;
    let Ok(shelf) = Shelf::new(kinds) else {
        panic!(&rt; "a name stands twice")
    };
    assert_eq!(&rt; shelf.find("nand"), None);
    assert_eq!(&rt; shelf.find("alu"), Some(0));
    let Some(place) = shelf.find("count") else {
        panic!(&rt; "no count")
    };
    assert_eq!(&rt; place, 2);
    assert_eq!(&rt; shelf.kind(place).name(), "count");
    Ok(())
}
