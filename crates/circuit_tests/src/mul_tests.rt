//! The kind's calls against a table, whose values were worked out over whole numbers, apart from this code.
use ap_mul::Mul;
use ap_net::builder::Builder;
use ap_unit::UnitKind;
use std::process::Abort;
use std::test::Fail;

/// For each width and operands the low and the high half of the product.
const PRODUCTS: &[(u32, u64, u64, u64, u64)] = &[
    (1, 0, 0, 0, 0),
    (1, 1, 0, 0, 0),
    (1, 1, 1, 1, 0),
    (2, 3, 3, 1, 2),
    (2, 2, 3, 2, 1),
    (2, 1, 2, 2, 0),
    (8, 255, 255, 1, 254),
    (8, 200, 3, 88, 2),
    (8, 16, 16, 0, 1),
    (8, 0, 77, 0, 0),
    (
        63,
        9223372036854775807,
        9223372036854775807,
        1,
        9223372036854775806,
    ),
    (63, 4611686018427387904, 2, 0, 1),
    (
        63,
        123456789012345678,
        987654321,
        3285745795522095342,
        13219962,
    ),
    (
        64,
        18446744073709551615,
        18446744073709551615,
        1,
        18446744073709551614,
    ),
    (64, 9223372036854775808, 2, 0, 1),
    (
        64,
        12345678901234567890,
        9876543210987654321,
        133124662968603442,
        6609981178781634653,
    ),
    (64, 1, 18446744073709551615, 18446744073709551615, 0),
];

/// The value of an operation, where the kind has the width and the operands have no more bits.
fn value(rt: &impl Abort, w: u32, op: u32, a: u64, b: u64) -> u64 {
    assert!(rt; Mul.fits(w) && op < Mul.op_count());
    assert!(rt; w == 64 || (a < 1 << w && b < 1 << w));
    Mul.value(w, op, a, b)
}

#[test]
fn values_are_halves_of_products(rt: HostRuntime) {
    for (w, a, b, low, high) in PRODUCTS {
        assert_eq!(&rt; value(&rt, *w, 0, *a, *b), *low, "{a} and {b} at {w}");
        assert_eq!(&rt; value(&rt, *w, 1, *a, *b), *high, "{a} and {b} at {w}");
    }
}

#[test]
fn other_calls(rt: HostRuntime) {
    assert_eq!(&rt; Mul.name(), "mul");
    assert_eq!(&rt; Mul.op_count(), 2);
    assert_eq!(&rt; Mul.op_name(0), "mullo");
    assert_eq!(&rt; Mul.op_name(1), "mulhi");
    assert_eq!(&rt; Mul.fits(0), false);
    assert_eq!(&rt; Mul.fits(65), false);
    assert_eq!(&rt; Mul.latency(48), 49);
}

#[test]
fn builds_at_the_ends(rt: HostRuntime) -> Result<(), Fail> {
    for w in [1, 64] {
        assert!(&rt; Mul.fits(w));
        let mut out = Builder::new(rt.alloc(), b"unit")?;
        Mul.build(w, &mut out)?;
        let unit = out.finish()?;
        assert_eq!(&rt; unit.ports().len(), 7);
        assert_eq!(&rt; unit.regs().len(), 3);
    }
    Ok(())
}
