//! The kind's calls against a table, whose values were worked out over whole numbers, apart from this code.
use ap_div::Div;
use ap_net::builder::Builder;
use ap_unit::UnitKind;
use std::process::Abort;
use std::test::Fail;

/// For each width and operands the quotient and the remainder.
const QUOTIENTS: &[(u32, u64, u64, u64, u64)] = &[
    (1, 0, 0, 1, 0),
    (1, 1, 0, 1, 1),
    (1, 1, 1, 1, 0),
    (1, 0, 1, 0, 0),
    (2, 3, 2, 1, 1),
    (2, 2, 3, 0, 2),
    (2, 3, 0, 3, 3),
    (8, 255, 16, 15, 15),
    (8, 200, 7, 28, 4),
    (8, 7, 200, 0, 7),
    (8, 5, 0, 255, 5),
    (63, 9223372036854775807, 3, 3074457345618258602, 1),
    (
        63,
        9223372036854775807,
        0,
        9223372036854775807,
        9223372036854775807,
    ),
    (63, 4611686018427387904, 4611686018427387903, 1, 1),
    (64, 7, 0, 18446744073709551615, 7),
    (64, 18446744073709551615, 18446744073709551615, 1, 0),
    (64, 18446744073709551615, 10, 1844674407370955161, 5),
    (64, 12345678901234567890, 9876543210, 1249999988, 7253086410),
    (64, 9223372036854775808, 9223372036854775807, 1, 1),
];

/// The value of an operation, where the kind has the width and the operands have no more bits.
fn value(rt: &impl Abort, w: u32, op: u32, a: u64, b: u64) -> u64 {
    assert!(rt; Div.fits(w) && op < Div.op_count());
    assert!(rt; w == 64 || (a < 1 << w && b < 1 << w));
    Div.value(w, op, a, b)
}

#[test]
fn values_are_quotients_and_remainders(rt: HostRuntime) {
    for (w, a, b, quotient, remainder) in QUOTIENTS {
        assert_eq!(&rt; value(&rt, *w, 0, *a, *b), *quotient, "{a} and {b} at {w}");
        assert_eq!(&rt; value(&rt, *w, 1, *a, *b), *remainder, "{a} and {b} at {w}");
    }
}

#[test]
fn other_calls(rt: HostRuntime) {
    assert_eq!(&rt; Div.name(), "div");
    assert_eq!(&rt; Div.op_count(), 2);
    assert_eq!(&rt; Div.op_name(0), "divu");
    assert_eq!(&rt; Div.op_name(1), "remu");
    assert_eq!(&rt; Div.fits(0), false);
    assert_eq!(&rt; Div.fits(65), false);
    assert_eq!(&rt; Div.latency(48), 49);
}

#[test]
fn builds_at_the_ends(rt: HostRuntime) -> Result<(), Fail> {
    for w in [1, 64] {
        assert!(&rt; Div.fits(w));
        let mut out = Builder::new(rt.alloc(), b"unit")?;
        Div.build(w, &mut out)?;
        let unit = out.finish()?;
        assert_eq!(&rt; unit.ports().len(), 7);
        assert_eq!(&rt; unit.regs().len(), 3);
    }
    Ok(())
}
