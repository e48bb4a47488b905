ghost use Rattle.std.specs.Prelude.{◌≡◌, IfOk};
ghost use Rattle.ap_bits.specs.Names.{IsName};
ghost use Rattle.ap_desc.specs.Examples.{smallest, smallest_header};

use ap_bits::{Items, Name, NoMemory};
use ap_desc::writing::line_of;
use ap_desc::{Description, Fault, FieldNumber, Numbered, Statement, Word, show};
use std::alloc::Global;
use std::process::Abort;
use std::test::Fail;

/// The header of the smallest description.
fn header(alloc: Global) -> Result<Items<Numbered>, NoMemory>
    ensures { IfOk result (λ list. list ≡ smallest_header) }
{
    let mut list = Items::new(alloc);
    list.push(Numbered {
        line: 1,
        statement: Statement::Stages { count: 2 },
    })?;
    list.push(Numbered {
        line: 2,
        statement: Statement::Address { bits: 4 },
    })?;
    list.push(Numbered {
        line: 3,
        statement: Statement::Word { bits: 8 },
    })?;
    list.push(Numbered {
        line: 4,
        statement: Statement::Transfer { stage: 1, slots: 0 },
    })?;
    Ok(list)
}

/// The smallest description.
fn description(alloc: Global) -> Result<Description, NoMemory>
    ensures { IfOk result (λ d. d ≡ smallest) }
{
    let mut list = header(alloc)?;
    let mut fields = Items::new(alloc);
    fields.push(FieldNumber {
        field: Name::new(alloc, b"op")?,
        number: 8,
    })?;
    let mut fixed = Items::new(alloc);
    fixed.push(FieldNumber {
        field: Name::new(alloc, b"op")?,
        number: 0,
    })?;
    list.push(Numbered {
        line: 5,
        statement: Statement::Format {
            name: Name::new(alloc, b"R")?,
            fields,
        },
    })?;
    list.push(Numbered {
        line: 6,
        statement: Statement::Instr {
            name: Name::new(alloc, b"NOP")?,
            format: Name::new(alloc, b"R")?,
            fixed,
        },
    })?;
    list.push(Numbered {
        line: 7,
        statement: Statement::End,
    })?;
    Ok(Description::new(list))
}

#[test]
fn shows_the_smallest(rt: HostRuntime) -> Result<(), Fail> {
    let alloc = rt.alloc();
    let d = description(alloc)?;
    assert_eq!(rt; d.statements().len(), 7);
    let text = show(alloc, &d)?;
    let expected =
        "stages 2\naddress 4\nword 8\ntransfer 1 0\nformat R op:8\ninstr NOP R op=0\nend\n";
    assert_eq!(rt; text.as_slice(), expected.as_bytes());
    Ok(())
}

/// An operand of this name.
fn operand(alloc: Global, name: &[u8]) -> Result<Word, NoMemory>
    requires { IsName name.now }
{
    Ok(Word::Named(Name::new(alloc, name)?))
}

/// Checks the line of a statement.
fn expect_line(
    rt: &impl Abort,
    alloc: Global,
    statement: &Statement,
    line: &str,
) -> Result<(), NoMemory> {
    let shown = line_of(alloc, statement)?;
    assert_eq!(rt; shown.as_str(), line);
    Ok(())
}

#[test]
fn shows_declarations(rt: HostRuntime) -> Result<(), Fail> {
    let alloc = rt.alloc();
    let file = Statement::File {
        name: Name::new(alloc, b"GPR")?,
        width: 16,
        cells: 8,
        reads: 2,
        writes: 1,
    };
    expect_line(&rt, alloc, &file, "file GPR 16 8 2 1\n")?;
    let unit = Statement::Unit {
        name: Name::new(alloc, b"ALU")?,
        kind: Name::new(alloc, b"alu")?,
        width: 16,
    };
    expect_line(&rt, alloc, &unit, "unit ALU alu 16\n")?;
    Ok(())
}

#[test]
fn shows_micro_operations(rt: HostRuntime) -> Result<(), Fail> {
    let alloc = rt.alloc();
    let read = Statement::ReadFile {
        stage: 1,
        to: Name::new(alloc, b"a")?,
        file: Name::new(alloc, b"GPR")?,
        port: 0,
        index: operand(alloc, b"rs")?,
    };
    expect_line(&rt, alloc, &read, "  1 a = GPR.r0 rs\n")?;
    let write = Statement::WriteRegister {
        stage: 3,
        reg: Name::new(alloc, b"R")?,
        value: Word::Link,
        guard: Some(operand(alloc, b"g")?),
    };
    expect_line(&rt, alloc, &write, "  3 R <- link when g\n")?;
    let jump = Statement::Jump {
        stage: 2,
        target: Word::Pc,
    };
    expect_line(&rt, alloc, &jump, "  2 jump pc\n")?;
    Ok(())
}

#[test]
fn faults_print(rt: HostRuntime) {
    let rows = [
        (Fault::BadLine, 1, 1, "F1 BadLine"),
        (Fault::TooLong, 1, 5, "F5 TooLong"),
        (Fault::NoOperation, 2, 4, "N4 NoOperation"),
        (Fault::KindRefuses, 3, 7, "W7 KindRefuses"),
        (Fault::Overlap, 4, 3, "E3 Overlap"),
        (Fault::TwoStages, 5, 2, "P2 TwoStages"),
        (Fault::TooManySlots, 6, 6, "S6 TooManySlots"),
    ];
    for (kind, phase, number, code) in rows {
        assert_eq!(rt; kind.phase(), phase);
        assert_eq!(rt; kind.number(), number);
        assert_eq!(rt; kind.code(), code);
    }
}
