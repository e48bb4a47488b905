//! Worked rows: what the definitions say of small texts and tokens, and what the calls answer.
ghost use Rattle.std.specs.Prelude.{◌≡◌, ◌^◌, ◌-◌, [], ◌∷◌, ◌≤◌, length, codes, true, false, Some, None};
ghost use Rattle.ap_text.specs.Lines.{lines_of};
ghost use Rattle.std.specs.Fmt.{decimal};
ghost use Rattle.ap_text.specs.Numbers.{hexadecimal, spelled_value};

use ap_bits::NoMemory;
use ap_text::{NumberFault, Span, lines, number, put_dec, put_hex};
use std::alloc::Global;
use std::process::Abort;
use std::test::Fail;

/// Blank lines and comments are skipped, and counted.
#[tactic(auto, unfolding(ap_text::specs::Lines::lines_of))]
fn skips()
    ensures { lines_of (codes "a b # c\n\n\tx\n")
        ≡ record { number = 1; tokens = codes "a" ∷ codes "b" ∷ []; clean = true }
        ∷ record { number = 3; tokens = codes "x" ∷ []; clean = true } ∷ [] }
{}

/// A carriage return belongs to its token, and its line isn't clean.
#[tactic(auto, unfolding(ap_text::specs::Lines::lines_of))]
fn keeps_carriage_return()
    ensures { lines_of (codes "end\r\n")
        ≡ record { number = 1; tokens = codes "end\r" ∷ []; clean = false } ∷ [] }
{}

/// A line with a bad byte in its comment stands in the list.
#[tactic(auto, unfolding(ap_text::specs::Lines::lines_of))]
fn keeps_bad_comment()
    ensures { lines_of (codes "\n #\r\n# fine")
        ≡ record { number = 2; tokens = []; clean = false } ∷ [] }
{}

/// Digits of either case, and leading zeros.
#[tactic(auto, unfolding(ap_text::specs::Numbers::spelled_value))]
fn spells()
    ensures hexadecimal { spelled_value (codes "0x1F") ≡ Some 31 }
    ensures lower { spelled_value (codes "0xff") ≡ Some 255 }
    ensures zeros { spelled_value (codes "007") ≡ Some 7 }
    ensures zero { spelled_value (codes "0") ≡ Some 0 }
    ensures largest { spelled_value (codes "18446744073709551615") ≡ Some (2 ^ 64 - 1) }
    ensures large { spelled_value (codes "18446744073709551616") ≡ Some (2 ^ 64) }
{}

/// What is no number.
#[tactic(auto, unfolding(ap_text::specs::Numbers::spelled_value))]
fn spells_nothing()
    ensures empty { spelled_value [] ≡ None }
    ensures upper { spelled_value (codes "0X8") ≡ None }
    ensures bare { spelled_value (codes "0x") ≡ None }
    ensures sign { spelled_value (codes "-1") ≡ None }
    ensures letter { spelled_value (codes "1F") ≡ None }
{}

/// What is written of numbers has no leading zeros.
fn writes()
    ensures decimal_zero { decimal 0 ≡ codes "0" }
    ensures decimal_ten { decimal 10 ≡ codes "10" }
    ensures decimal_largest { decimal 18446744073709551615 ≡ codes "18446744073709551615" }
    ensures zero { hexadecimal 0 ≡ codes "0x0" }
    ensures sixteen { hexadecimal 16 ≡ codes "0x10" }
    ensures word { hexadecimal 43981 ≡ codes "0xabcd" }
    ensures largest { hexadecimal 18446744073709551615 ≡ codes "0xffffffffffffffff" }
{}

/// A line of a table: its number, its tokens, and whether it is clean.
type Row<'a> = (u32, &'a [&'a [u8]], bool);

/// Checks that a text has the lines of a table.
fn expect_lines(rt: &impl Abort, alloc: Global, text: &[u8], rows: &[Row]) -> Result<(), NoMemory>
    requires { length text.now ≤ 1000 }
{
    let list = lines(alloc, text)?;
    assert_eq!(rt; list.len(), rows.len());
    for (line, row) in list.as_slice().iter().zip(rows) {
        assert_eq!(rt; line.number, row.0);
        expect_tokens(rt, text, line.tokens.as_slice(), row.1);
        assert_eq!(rt; line.clean, row.2);
    }
    Ok(())
}

/// Checks that these spans of the text are the tokens of a row.
fn expect_tokens(rt: &impl Abort, text: &[u8], spans: &[Span], tokens: &[&[u8]]) {
    assert_eq!(rt; spans.len(), tokens.len());
    for (span, token) in spans.iter().zip(tokens) {
        assert!(rt; span.from <= span.to && span.to <= text.len());
        assert_eq!(rt; span.of(text), *token);
    }
}

#[test]
fn reads_lines(rt: HostRuntime) -> Result<(), Fail> {
    let alloc = rt.alloc();
    expect_lines(&rt, alloc, b"", &[])?;
    let text = b"a b # c\n\n\tx\n";
    expect_lines(
        &rt,
        alloc,
        text,
        &[(1, &[b"a", b"b"], true), (3, &[b"x"], true)],
    )?;
    expect_lines(&rt, alloc, b"end\r\n", &[(1, &[b"end\r"], false)])?;
    expect_lines(&rt, alloc, b"\n #\r\n# fine", &[(2, &[], false)])?;
    Ok(())
}

#[test]
fn reads_numbers(rt: HostRuntime) {
    assert_eq!(rt; number(b"0x1F"), Ok(31));
    assert_eq!(rt; number(b"007"), Ok(7));
    assert_eq!(rt; number(b"18446744073709551615"), Ok(u64::MAX));
    assert_eq!(rt; number(b"0xFFFFffffFFFFffff"), Ok(u64::MAX));
    assert_eq!(rt; number(b"18446744073709551616"), Err(NumberFault::TooLarge));
    assert_eq!(rt; number(b"0x10000000000000000"), Err(NumberFault::TooLarge));
    assert_eq!(rt;
        number(b"99999999999999999999x"),
        Err(NumberFault::BadNumber)
    );
    assert_eq!(rt; number(b"0X8"), Err(NumberFault::BadNumber));
    assert_eq!(rt; number(b"0x"), Err(NumberFault::BadNumber));
    assert_eq!(rt; number(b""), Err(NumberFault::BadNumber));
}

#[test]
fn appends_numbers(rt: HostRuntime) -> Result<(), Fail> {
    let alloc = rt.alloc();
    let mut text = Vec::from_slice(alloc, b"> ")?;
    put_dec(alloc, 0, &mut text)?;
    put_hex(alloc, 0, &mut text)?;
    put_dec(alloc, u64::MAX, &mut text)?;
    put_hex(alloc, 8709, &mut text)?;
    put_hex(alloc, u64::MAX, &mut text)?;
    assert_eq!(rt;
        text.as_slice(),
        b"> 00x0184467440737095516150x22050xffffffffffffffff".as_slice()
    );
    Ok(())
}
