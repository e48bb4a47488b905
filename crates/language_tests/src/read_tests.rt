use ap_desc::{DescFault, Fault, show};
use ap_read::{DESCRIPTION_LIMIT, read};
use std::alloc::{AllocError, Global};
use std::process::Abort;
use std::test::Fail;

/// The smallest description, of seven lines.
fn smallest() -> &'static str {
    "stages 2
address 4
word 8
transfer 1 0
format R op:8
instr NOP R op=0
end
"
}

/// Its lines from the format on, in other words and with lines between them.
fn other_words() -> &'static str {
    "# the smallest description
stages 0x2\t# two stages

  address 04
word 8
\ttransfer 1 0x0
format R op:0x08
instr NOP R op=0 # does nothing
end"
}

#[test]
fn shows_what_was_read(rt: HostRuntime) -> Result<(), Fail> {
    let alloc = rt.alloc();
    for text in [smallest(), other_words()] {
        let Ok(d) = read(alloc, text.as_bytes()) else {
            return Err("it isn't read")?;
        };
        let shown = show(alloc, &d)?;
        assert_eq!(rt; shown.as_slice(), smallest().as_bytes());
    }
    Ok(())
}

/// The kind and the line of a text's fault, and none where it is read.
fn fault_of(alloc: Global, text: &[u8]) -> Result<Option<(Fault, u32)>, Fail> {
    match read(alloc, text) {
        Ok(_) => Ok(None),
        Err(DescFault::Refused(refusal)) => Ok(Some((refusal.kind, refusal.line))),
        Err(DescFault::NoMemory) => Err("no memory")?,
    }
}

/// Changes of the smallest description in one place that stay without fault.
fn changes_without_fault() -> [(&'static str, &'static str); 5] {
    [
        ("word 8\n", "word 18446744073709551615\n"),
        ("stages 2\n", "\n#\n\t \nstages 2\n"),
        (
            "format",
            "reg A 8 0\nfile B 8 2 1 1\nmem C 1 8\nin D 8\nunit E no 8\nformat",
        ),
        ("end\n", "\t1 x = F.r9 pc\n1 x = F.r0 a b\nend\n"),
        ("end\n", "end\ninstr A S b=0 b=1\nend # of A"),
    ]
}

type Row = (&'static str, &'static str, Fault, u32);

/// Changes in one place with the fault that they make: what the text as a whole lacks.
fn changes_that_lack() -> [Row; 12] {
    [
        ("\n", "\r\n", Fault::Missing, 0),
        ("transfer 1 0\n", "", Fault::Missing, 0),
        ("stages 2\n", "", Fault::Missing, 0),
        ("word 8\n", "words 8\n", Fault::Missing, 0),
        ("address 4\n", "0 address 4\n", Fault::Missing, 0),
        ("instr NOP R op=0\n", "", Fault::Missing, 0),
        ("NOP", "NOPE", Fault::Missing, 0),
        ("end\n", "", Fault::Missing, 0),
        ("end\n", "end end\n", Fault::Missing, 0),
        ("end\n", "end\r\n", Fault::Missing, 0),
        ("end\n", "end\ninstr A R op=1\n", Fault::Missing, 0),
        ("end\n", "end\ninstr\n", Fault::Missing, 0),
    ]
}

/// Bad lines. One whose tokens are those that the text needs isn't missing.
fn changes_to_bad_lines() -> [Row; 10] {
    [
        ("stages 2", "stages two", Fault::BadLine, 1),
        ("end\n", "end # \u{e4}\n", Fault::BadLine, 7),
        ("op=0\n", "op=0 #\r\n", Fault::BadLine, 6),
        ("word 8\n", "word 0X8\n", Fault::BadLine, 3),
        ("word 8\n", "word 18446744073709551616\n", Fault::BadLine, 3),
        ("format R op:8", "format R", Fault::BadLine, 5),
        ("format R op:8", "\n\nformat data op:8", Fault::BadLine, 7),
        ("end\n", "1 x = F.r10 a\nend\n", Fault::BadLine, 7),
        ("end\n", "1 x = pc\nend\n", Fault::BadLine, 7),
        ("end\n", "end\nword", Fault::BadLine, 8),
    ]
}

/// Lines that don't stand where they are due.
fn changes_of_order() -> [Row; 10] {
    [
        ("instr", "reg R 8 0\ninstr", Fault::BadOrder, 6),
        ("stages 2\n", "word 8\nstages 2\n", Fault::BadOrder, 2),
        ("address 4\n", "stages 3\naddress 4\n", Fault::BadOrder, 2),
        ("end\n", "end\nstages 2\n", Fault::BadOrder, 8),
        ("format", "end\nformat", Fault::BadOrder, 5),
        ("format", "1 jump pc\nformat", Fault::BadOrder, 5),
        ("end\n", "end\n1 jump pc\n", Fault::BadOrder, 8),
        ("end\n", "end\nend\n", Fault::BadOrder, 8),
        ("end\n", "instr A R op=1\nend\n", Fault::BadOrder, 7),
        ("end\n", "format S a:1\nend\n", Fault::BadOrder, 7),
    ]
}

/// More than one fault: the earlier line, and on one line the lower kind.
fn changes_with_several() -> [Row; 6] {
    [
        ("address 4\n", "address x\nstages 2\n", Fault::BadLine, 2),
        ("address 4\n", "stages 2\naddress x\n", Fault::BadOrder, 2),
        ("instr", "reg pc 8 0\ninstr", Fault::BadLine, 6),
        ("stages 2\naddress 4\n", "stages\n", Fault::Missing, 0),
        (
            "end\n",
            "end\nformat S a:1 b:1 c:1 d:1 e:1 f:1 g:1 h:1 i:1 j:1 k:1 l:1 m:1 n:1 o:1 p:1 q:1\n",
            Fault::BadOrder,
            8,
        ),
        (
            "end\n",
            "end\nformat S a:1 b:1 c:1 d:1 e:1 f:1 g:1 h:1 i:1 j:1 k:1 l:1 m:1 n:1 o:1 p:1 q:\n",
            Fault::BadLine,
            8,
        ),
    ]
}

/// Checks the fault of each change of a table.
fn expect_faults(rt: &impl Abort, alloc: Global, rows: &[Row]) -> Result<(), Fail> {
    for (from, to, kind, line) in rows {
        let text = smallest().replace(alloc, from, to)?;
        let fault = fault_of(alloc, text.as_bytes())?;
        assert_eq!(rt; fault, Some((*kind, *line)), "at {to}");
    }
    Ok(())
}

#[test]
fn faults_of_form(rt: HostRuntime) -> Result<(), Fail> {
    let alloc = rt.alloc();
    for (from, to) in changes_without_fault() {
        let text = smallest().replace(alloc, from, to)?;
        assert_eq!(rt; fault_of(alloc, text.as_bytes())?, None, "at {to}");
    }
    expect_faults(&rt, alloc, &changes_that_lack())?;
    expect_faults(&rt, alloc, &changes_to_bad_lines())?;
    expect_faults(&rt, alloc, &changes_of_order())?;
    expect_faults(&rt, alloc, &changes_with_several())?;
    assert_eq!(rt; fault_of(alloc, b"")?, Some((Fault::Missing, 0)));
    Ok(())
}

#[test]
fn texts_at_the_limit_of_bytes(rt: HostRuntime) -> Result<(), Fail> {
    let alloc = rt.alloc();
    let mut text = Vec::from_slice(alloc, smallest().as_bytes())?;
    for _ in text.len()..DESCRIPTION_LIMIT {
        text.push(b'#')?;
    }
    assert_eq!(rt; fault_of(alloc, &text)?, None);
    text.push(b'#')?;
    assert_eq!(rt; fault_of(alloc, &text)?, Some((Fault::TooLong, 0)));
    Ok(())
}

/// How many there are of each sort.
#[derive(Clone, Copy)]
struct Counts {
    registers: u32,
    files: u32,
    memories: u32,
    inputs: u32,
    units: u32,
    formats: u32,
    fields: u32,
    micros: u32,
    instructions: u32,
}

/// As many as there may be.
fn most() -> Counts {
    Counts {
        registers: 64,
        files: 8,
        memories: 4,
        inputs: 8,
        units: 32,
        formats: 32,
        fields: 16,
        micros: 64,
        instructions: 256,
    }
}

/// Adds as many lines, each with this text before its number and this after it.
fn add_lines(
    alloc: Global,
    text: &mut String,
    count: u32,
    before: &str,
    after: &str,
) -> Result<(), AllocError> {
    for number in 0..count {
        let line = format!(in alloc; "{before}{number}{after}\n")?;
        text.push_str(line.as_str())?;
    }
    Ok(())
}

/// A text with so many of each sort; the format G has the fields, and NOP the micro-operations.
fn text_with(alloc: Global, counts: Counts) -> Result<String, AllocError> {
    let mut text = String::from_str(alloc, "stages 2\naddress 4\nword 8\ntransfer 1 0\n")?;
    add_lines(alloc, &mut text, counts.registers, "reg R", " 8 0")?;
    add_lines(alloc, &mut text, counts.files, "file F", " 8 2 1 1")?;
    add_lines(alloc, &mut text, counts.memories, "mem M", " 4 8")?;
    add_lines(alloc, &mut text, counts.inputs, "in P", " 8")?;
    add_lines(alloc, &mut text, counts.units, "unit U", " alu 8")?;
    text.push_str("format G")?;
    for number in 0..counts.fields {
        let field = format!(in alloc; " f{number}:1")?;
        text.push_str(field.as_str())?;
    }
    text.push_str("\n")?;
    add_lines(
        alloc,
        &mut text,
        counts.formats.saturating_sub(1),
        "format H",
        " op:8",
    )?;
    text.push_str("instr NOP G\n")?;
    add_lines(alloc, &mut text, counts.micros, "  1 x", " = const 8 1")?;
    text.push_str("end\n")?;
    add_lines(
        alloc,
        &mut text,
        counts.instructions.saturating_sub(1),
        "instr I",
        " H0\nend",
    )?;
    Ok(text)
}

/// One more than there may be of one sort, with the line where it stands.
fn one_too_many() -> [(&'static str, Counts, u32); 9] {
    let most = most();
    [
        (
            "register",
            Counts {
                registers: 65,
                ..most
            },
            69,
        ),
        ("file", Counts { files: 9, ..most }, 77),
        (
            "memory",
            Counts {
                memories: 5,
                ..most
            },
            81,
        ),
        ("input", Counts { inputs: 9, ..most }, 89),
        ("unit", Counts { units: 33, ..most }, 121),
        (
            "format",
            Counts {
                formats: 33,
                ..most
            },
            153,
        ),
        ("field", Counts { fields: 17, ..most }, 121),
        ("micro", Counts { micros: 65, ..most }, 218),
        (
            "instruction",
            Counts {
                instructions: 257,
                ..most
            },
            729,
        ),
    ]
}

#[test]
fn texts_at_the_limits_of_sorts(rt: HostRuntime) -> Result<(), Fail> {
    let alloc = rt.alloc();
    let text = text_with(alloc, most())?;
    assert_eq!(rt; fault_of(alloc, text.as_bytes())?, None);
    for (sort, counts, line) in one_too_many() {
        let text = text_with(alloc, counts)?;
        let fault = fault_of(alloc, text.as_bytes())?;
        assert_eq!(rt; fault, Some((Fault::TooMany, line)), "one {sort} more");
    }
    Ok(())
}
