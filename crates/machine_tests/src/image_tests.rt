//! Tables of texts: what is read of them, and what is written.
ghost use Rattle.std.specs.Prelude.{◌≡◌, IfOk};
ghost use Rattle.ap_image.specs.Rows.{small};

use ap_bits::{Items, Name, NoMemory};
use ap_image::{
    Image, MemShape, Row, Shape, TextFault, TextKind, Trace, TraceLine, Write, read_image,
    read_trace, write_image, write_row, write_trace,
};
use std::alloc::Global;
use std::process::Abort;
use std::test::Fail;

/// A list of these numbers.
fn list(alloc: Global, numbers: &[u64]) -> Result<Items<u64>, NoMemory> {
    let mut list = Items::new(alloc);
    for number in numbers {
        list.push(*number)?;
    }
    Ok(list)
}

/// Sixteen code words of 8 bits, a memory M of two words of 2 bits, inputs of 3 bits and 1 bit.
fn small_shape(alloc: Global) -> Result<Shape, NoMemory>
    ensures { IfOk result (λ shape. shape ≡ small) }
{
    let mut mems = Items::new(alloc);
    let name = Name::new(alloc, b"M")?;
    mems.push(MemShape {
        name,
        address: 1,
        width: 2,
    })?;
    let mut inputs = Items::new(alloc);
    inputs.push(3)?;
    inputs.push(1)?;
    Ok(Shape::new(4, 8, mems, inputs))
}

/// Whether there is a shape with data memories of these names.
fn is_shape(alloc: Global, names: &[&str]) -> Result<bool, Fail> {
    let mut mems = Items::new(alloc);
    for name in names {
        let Some(name) = Name::parse(alloc, name.as_bytes())? else {
            return Err("it is no name")?;
        };
        mems.push(MemShape {
            name,
            address: 16,
            width: 64,
        })?;
    }
    Ok(Shape::checked(4, 8, mems, Items::new(alloc)).is_some())
}

#[test]
fn checks_shapes(rt: HostRuntime) -> Result<(), Fail> {
    let rows: [(&[&str], bool); 6] = [
        (&[], true),
        (&["M", "Code", "m"], true),
        (&["M", "N", "M"], false),
        (&["M", "N", "N"], false),
        (&["code"], false),
        (&["M", "code"], false),
    ];
    for (names, is) in rows {
        assert_eq!(rt; is_shape(rt.alloc(), names)?, is);
    }
    Ok(())
}

/// The fault of a text.
fn fault_in<T: Drop>(outcome: Result<T, TextFault>) -> Option<(u32, TextKind)> {
    match outcome {
        Err(TextFault::At { line, kind }) => Some((line, kind)),
        _ => None,
    }
}

/// An image's text, with its code words and those of M.
type ImageRow<'a> = (&'a str, &'a [u64], &'a [u64]);

/// Checks what the texts of images are read as.
fn expect_images(
    rt: &impl Abort,
    alloc: Global,
    shape: &Shape,
    rows: &[ImageRow],
) -> Result<(), Fail> {
    for (text, code, mem) in rows {
        let Ok(image) = read_image(alloc, text.as_bytes(), shape) else {
            return Err("it isn't read")?;
        };
        assert_eq!(rt; image.code.as_slice(), *code);
        assert_eq!(rt; image.mems.len(), 1);
        for words in image.mems.as_slice() {
            assert_eq!(rt; words.as_slice(), *mem);
        }
    }
    Ok(())
}

#[test]
fn reads_images(rt: HostRuntime) -> Result<(), Fail> {
    let alloc = rt.alloc();
    let shape = small_shape(alloc)?;
    let rows: [ImageRow; 7] = [
        ("", &[], &[]),
        ("part code", &[], &[]),
        ("part code\n5\n0x06\n", &[5, 6], &[]),
        (
            "# words\n\n \t \npart\tcode # the code\n\t007\t# seven\n0xfF\n255",
            &[7, 255, 255],
            &[],
        ),
        ("part M\n3\n0x2\npart code\n1\n", &[1], &[3, 2]),
        ("part M\npart code\n", &[], &[]),
        (
            "part code\n0\n1\n2\n3\n4\n5\n6\n7\n8\n9\n10\n11\n12\n13\n14\n15\n",
            &[0, 1, 2, 3, 4, 5, 6, 7, 8, 9, 10, 11, 12, 13, 14, 15],
            &[],
        ),
    ];
    expect_images(&rt, alloc, &shape, &rows)
}

/// The text of an image or a trace, with the line and the kind of its fault.
type FaultRow<'a> = (&'a str, u32, TextKind);

/// Texts of images with a fault of form.
fn images_of_no_form() -> [FaultRow<'static>; 15] {
    [
        ("5\n", 1, TextKind::BadForm),
        ("# none\n\n0x5\npart code\n", 3, TextKind::BadForm),
        ("part code\npart code\n", 2, TextKind::BadForm),
        ("part code\n1\npart M\npart code\n", 4, TextKind::BadForm),
        ("part M\npart M", 2, TextKind::BadForm),
        ("part\n", 1, TextKind::BadForm),
        ("part 1x\n", 1, TextKind::BadForm),
        ("part code 1\n", 1, TextKind::BadForm),
        ("PART code\n", 1, TextKind::BadForm),
        ("part code\n1 2\n", 2, TextKind::BadForm),
        ("part code\n0X8\n", 2, TextKind::BadForm),
        ("part code\n-1\n", 2, TextKind::BadForm),
        ("part code\n18446744073709551616\n", 2, TextKind::BadForm),
        ("part code\r\n", 1, TextKind::BadForm),
        ("part code\n1 # \u{e9}\n", 2, TextKind::BadForm),
    ]
}

/// Texts of images with a fault of another kind.
fn images_that_do_not_fit() -> [FaultRow<'static>; 9] {
    [
        ("part XM\n", 1, TextKind::NoSuchPart),
        ("part Code\n", 1, TextKind::NoSuchPart),
        ("part code\npart reg\n5000\n", 2, TextKind::NoSuchPart),
        ("part code\n256\n", 2, TextKind::ValueTooWide),
        (
            "part code\n255\n\n18446744073709551615\n",
            4,
            TextKind::ValueTooWide,
        ),
        ("part M\n4\npart 1x\n", 2, TextKind::ValueTooWide),
        ("part M\n0\n0\n0\n", 4, TextKind::TooManyWords),
        ("part M\n0\n0\n4\n", 4, TextKind::ValueTooWide),
        (
            "part code\n0\n1\n2\n3\n4\n5\n6\n7\n8\n9\n10\n11\n12\n13\n14\n15\n16\n17\n",
            18,
            TextKind::TooManyWords,
        ),
    ]
}

#[test]
fn refuses_images(rt: HostRuntime) -> Result<(), Fail> {
    let alloc = rt.alloc();
    let shape = small_shape(alloc)?;
    for (text, line, kind) in images_of_no_form() {
        let fault = fault_in(read_image(alloc, text.as_bytes(), &shape));
        assert_eq!(rt; fault, Some((line, kind)));
    }
    for (text, line, kind) in images_that_do_not_fit() {
        let fault = fault_in(read_image(alloc, text.as_bytes(), &shape));
        assert_eq!(rt; fault, Some((line, kind)));
    }
    Ok(())
}

/// A trace's text, with the wait bits and the values of the two inputs.
type TraceRow<'a> = (&'a str, &'a [(bool, u64, u64)]);

#[test]
fn reads_traces(rt: HostRuntime) -> Result<(), Fail> {
    let alloc = rt.alloc();
    let shape = small_shape(alloc)?;
    let rows: [TraceRow; 3] = [
        ("# nothing\n\n", &[]),
        ("0 5 1\n1 7 0", &[(false, 5, 1), (true, 7, 0)]),
        (
            "\t0x1  007\t0x0 # first\n\n0 0 1\n",
            &[(true, 7, 0), (false, 0, 1)],
        ),
    ];
    for (text, cycles) in rows {
        let Ok(trace) = read_trace(alloc, text.as_bytes(), &shape) else {
            return Err("it isn't read")?;
        };
        assert_eq!(rt; trace.lines.len(), cycles.len());
        for (line, (wait, first, second)) in trace.lines.as_slice().iter().zip(cycles) {
            assert_eq!(rt; line.wait, *wait);
            assert_eq!(rt; line.ports.as_slice(), [*first, *second].as_slice());
        }
    }
    Ok(())
}

#[test]
fn refuses_traces(rt: HostRuntime) -> Result<(), Fail> {
    let alloc = rt.alloc();
    let shape = small_shape(alloc)?;
    let rows: [FaultRow; 12] = [
        ("0\n", 1, TextKind::BadForm),
        ("0 5\n", 1, TextKind::BadForm),
        ("0 5 1\n\n0 5 1 0\n", 3, TextKind::BadForm),
        ("0 x 1\n", 1, TextKind::BadForm),
        ("2 8 x\n", 1, TextKind::BadForm),
        ("2 8\n", 1, TextKind::BadForm),
        ("0 18446744073709551616 0\n", 1, TextKind::BadForm),
        ("0 5 1\r\n", 1, TextKind::BadForm),
        ("2 0 0\n", 1, TextKind::ValueTooWide),
        ("0 0 0\n0 8 0\n", 2, TextKind::ValueTooWide),
        ("0 0 2\n0\n", 1, TextKind::ValueTooWide),
        (
            "0 7 1\n1 7 1\n18446744073709551615 7 1\n",
            3,
            TextKind::ValueTooWide,
        ),
    ];
    for (text, line, kind) in rows {
        let fault = fault_in(read_trace(alloc, text.as_bytes(), &shape));
        assert_eq!(rt; fault, Some((line, kind)));
    }
    Ok(())
}

#[test]
fn writes_images(rt: HostRuntime) -> Result<(), Fail> {
    let alloc = rt.alloc();
    let shape = small_shape(alloc)?;
    let rows: [ImageRow; 4] = [
        ("part code\n", &[], &[]),
        ("part code\n0x5\n0x0\n0xff\n", &[5, 0, 255], &[]),
        ("part code\npart M\n0x3\n", &[], &[3]),
        ("part code\n0xab\npart M\n0x0\n0x0\n", &[171], &[0, 0]),
    ];
    for (text, code, mem) in rows {
        let code = list(alloc, code)?;
        let mut mems = Items::new(alloc);
        mems.push(list(alloc, mem)?)?;
        let mut out = Vec::new(alloc);
        write_image(alloc, &Image { code, mems }, &shape, &mut out)?;
        assert_eq!(rt; out.as_slice(), text.as_bytes());
    }
    Ok(())
}

#[test]
fn writes_traces(rt: HostRuntime) -> Result<(), Fail> {
    let alloc = rt.alloc();
    let mut lines = Items::new(alloc);
    for value in [5, 6, 7] {
        let ports = list(alloc, &[value, 10 * value])?;
        lines.push(TraceLine {
            wait: value == 6,
            ports,
        })?;
    }
    let mut out = Vec::from_slice(alloc, b"# a trace\n")?;
    write_trace(alloc, &Trace { lines }, &mut out)?;
    let text = b"# a trace\n0 5 50\n1 6 60\n0 7 70\n";
    assert_eq!(rt; out.as_slice(), text.as_slice());
    Ok(())
}

/// A write of this group.
fn write_of(group: u32, index: Option<u64>, value: u64) -> Write {
    Write {
        group,
        index,
        value,
    }
}

/// The text of a row whose groups and memories are `R`, `GPR.0` and `DM`.
fn text_of(
    alloc: Global,
    cycle: u64,
    (stall, kill): (bool, bool),
    written: &[Write],
) -> Result<Vec<u8>, Fail> {
    let mut labels = Vec::new(alloc);
    for label in ["R", "GPR.0", "DM"] {
        labels.push(String::from_str(alloc, label)?)?;
    }
    let mut writes = Items::new(alloc);
    for write in written {
        writes.push(*write)?;
    }
    let row = Row {
        stall,
        kill,
        writes,
    };
    let mut out = Vec::new(alloc);
    write_row(alloc, &labels, cycle, &row, &mut out)?;
    Ok(out)
}

/// The number of a cycle, whether it is stalled and whether a transfer is taken, its writes, and its text.
type RowRow<'a> = (u64, (bool, bool), &'a [Write], &'a str);

#[test]
fn writes_rows(rt: HostRuntime) -> Result<(), Fail> {
    let cell = write_of(1, Some(1), 5);
    let word = write_of(2, Some(255), 18);
    let register = write_of(0, None, 0);
    let rows: [RowRow; 5] = [
        (0, (false, false), &[], "0 run\n"),
        (3, (false, false), &[cell], "3 run GPR.0[1]=5\n"),
        (4, (true, false), &[], "4 stall\n"),
        (
            5,
            (false, true),
            &[register, word],
            "5 kill R=0 DM[255]=18\n",
        ),
        (1_000_000, (true, true), &[], "1000000 stall+kill\n"),
    ];
    for (cycle, state, writes, text) in rows {
        let out = text_of(rt.alloc(), cycle, state, writes)?;
        assert_eq!(rt; out.as_slice(), text.as_bytes());
    }
    Ok(())
}

#[test]
fn names_kinds(rt: HostRuntime) {
    let kinds = [
        (TextKind::BadForm, 1, "G1 BadForm"),
        (TextKind::NoSuchPart, 2, "G2 NoSuchPart"),
        (TextKind::ValueTooWide, 3, "G3 ValueTooWide"),
        (TextKind::TooManyWords, 4, "G4 TooManyWords"),
    ];
    for (kind, number, code) in kinds {
        assert_eq!(rt; kind.number(), number);
        assert_eq!(rt; kind.code(), code);
    }
}
