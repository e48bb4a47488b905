use crate::kinds::{LessAndSum, empty_shelf, shelf_of};
use ap_desk::desk::Desk;
use ap_desk::memory::{DeskCall, MemDesk};
use ap_desk::sure::SureDesk;
use ap_top::form::{Form, ReadFault, judge};
use ap_top::serve::serve;
use ap_unit::{Shelf, UnitKind};
use std::alloc::{AllocError, Global};
use std::test::Fail;

/// The first form with the numbers 4, 8, 8, 3, 1 and 250.
fn accumulator() -> &'static str {
    "stages 2
address 4
word 8
transfer 1 0
reg R 8 3
unit U alu 8
format F op:8
instr NOP F op=0
end
instr I F op=1
  1 a = R
  1 k = const 8 250
  1 s = U.add a k
  1 R <- s
end
"
}

/// A desk that holds this description, and an older text where the Verilog goes.
fn desk_of(alloc: Global, description: &[u8]) -> Result<MemDesk, Fail> {
    let mut desk = MemDesk::new(alloc);
    desk.put("d", description)?;
    desk.put("v", b"old")?;
    Ok(desk)
}

/// The words of a command, which stand between blanks.
fn words_of(alloc: Global, line: &str) -> Result<Vec<String>, AllocError> {
    let mut words = Vec::new(alloc);
    for word in line.split(' ') {
        words.push(String::from_str(alloc, word)?)?;
    }
    Ok(words)
}

/// The status of a command; 255 where there is no memory for its words.
pub fn status_of<D: Desk>(alloc: Global, line: &str, shelf: &Shelf, desk: &mut D) -> u8 {
    match words_of(alloc, line) {
        Ok(words) => serve(alloc, &words, shelf, desk),
        Err(_) => 255,
    }
}

/// Whether the desk printed exactly this line, and the older text still stands.
fn only_printed(desk: &MemDesk, line: &str) -> bool {
    desk.file("-") == Some(line.as_bytes()) && desk.file("v") == Some(b"old".as_slice())
}

/// What `gen` writes for a description on a desk on which no call fails.
fn sure_text(alloc: Global, description: &[u8]) -> Result<Option<Vec<u8>>, Fail> {
    let mut desk = SureDesk::new(alloc);
    desk.put("d", description)?;
    if status_of(
        alloc,
        "gen d v",
        &shelf_of(alloc, Box::new(alloc, LessAndSum)?)?,
        &mut desk,
    ) != 0
    {
        return Ok(None);
    }
    match desk.file("v") {
        Some(text) => Ok(Some(Vec::from_slice(alloc, text)?)),
        None => Ok(None),
    }
}

/// The module of the unit that has `sub` and `add`, and then the head of the module `top`, for the first form with an address of
/// 4 bits and words and a register of 8 bits.
fn unit_and_head_of_top() -> &'static str {
    "module k_alu_8 (
  input clk,
  input rst,
  input [0:0] sel,
  input [7:0] a,
  input [7:0] b,
  output [7:0] y
);
  wire [7:0] n0;
  wire [7:0] n1;
  wire [7:0] n2;
  assign n0 = a - b;
  assign n1 = a + b;
  assign n2 = sel ? n1 : n0;
  assign y = n2;
endmodule
module top (
  input clk,
  input rst,
  output [3:0] iaddr,
  input [7:0] idata,
  input [0:0] mwait,
  output [0:0] stall,
  output [0:0] kill,
  output [0:0] w_R_e,
  output [7:0] w_R_v
);
"
}

#[test]
fn a_text_begins_with_its_ports(rt: HostRuntime) -> Result<(), Fail> {
    let text = sure_text(rt.alloc(), accumulator().as_bytes())?.ok_or("no text")?;
    assert!(rt; text.starts_with(unit_and_head_of_top().as_bytes()));
    Ok(())
}

fn lines_that_are_no_command() -> [&'static str; 10] {
    [
        "gen d d",
        "gen d",
        "gen d v w",
        "sim d v",
        "gen d -",
        "gen - v",
        "gen d ",
        "gen",
        "",
        "gem d v",
    ]
}

#[test]
fn words_that_are_no_command(rt: HostRuntime) -> Result<(), Fail> {
    let shelf = shelf_of(rt.alloc(), Box::new(rt.alloc(), LessAndSum)?)?;
    for line in lines_that_are_no_command() {
        let mut desk = desk_of(rt.alloc(), accumulator().as_bytes())?;
        assert_eq!(rt;
            status_of(rt.alloc(), line, &shelf, &mut desk),
            1,
            "at {line}"
        );
        assert!(rt; only_printed(&desk, "usage\n"), "at {line}");
    }
    let mut desk = desk_of(rt.alloc(), b"")?;
    assert_eq!(rt; serve(rt.alloc(), &[], &shelf, &mut desk), 1);
    Ok(())
}

#[test]
fn a_line_that_cannot_be_printed(rt: HostRuntime) -> Result<(), Fail> {
    let mut desk = desk_of(rt.alloc(), b"")?;
    desk.fail(DeskCall::Append, 0)?;
    let shelf = shelf_of(rt.alloc(), Box::new(rt.alloc(), LessAndSum)?)?;
    assert_eq!(rt; status_of(rt.alloc(), "gen", &shelf, &mut desk), 6);
    assert!(rt; only_printed(&desk, "usadesk fault\n"));
    Ok(())
}

#[test]
fn a_file_that_is_not_there(rt: HostRuntime) -> Result<(), Fail> {
    let mut desk = MemDesk::new(rt.alloc());
    let shelf = shelf_of(rt.alloc(), Box::new(rt.alloc(), LessAndSum)?)?;
    assert_eq!(rt; status_of(rt.alloc(), "gen q v", &shelf, &mut desk), 6);
    assert_eq!(rt; (desk.fault_count(), desk.absent_count()), (0, 1));
    assert_eq!(rt; desk.file("v"), None);
    assert_eq!(rt; desk.file("-"), Some(b"desk fault\n".as_slice()));
    Ok(())
}

/// Whether the description is refused with this line, by a program with this shelf.
fn is_refused(alloc: Global, description: &[u8], shelf: &Shelf, line: &str) -> Result<bool, Fail> {
    let mut desk = desk_of(alloc, description)?;
    let status = status_of(alloc, "gen d v", shelf, &mut desk);
    Ok(status == 2 && only_printed(&desk, line))
}

/// Changes of the description in one place, and the line that is printed for each.
fn changes_with_a_fault() -> [(&'static str, &'static str, &'static str); 7] {
    [
        ("stages 2", "stages 3", "line 1: F0 NotBuilt"),
        ("word 8", "word two", "line 3: F1 BadLine"),
        ("word 8", "word 65", "line 3: W1 Range"),
        ("format", "address 4\nformat", "line 7: F2 BadOrder"),
        ("transfer 1 0\n", "", "line 0: F4 Missing"),
        ("s\nend\n", "s\n", "line 0: F4 Missing"),
        (
            "s\nend\n",
            "s\nend\ninstr J F\nend\n",
            "line 16: E3 Overlap",
        ),
    ]
}

#[test]
fn descriptions_with_a_fault(rt: HostRuntime) -> Result<(), Fail> {
    let alloc = rt.alloc();
    let shelf = shelf_of(alloc, Box::new(alloc, LessAndSum)?)?;
    for (from, to, fault) in changes_with_a_fault() {
        let text = accumulator().replace(alloc, from, to)?;
        let line = format!(in alloc; "description: {fault}\n")?;
        assert!(rt;
            is_refused(alloc, text.as_bytes(), &shelf, line.as_str())?,
            "at {to}"
        );
    }
    let limit = vec![in alloc; b'#'; 1_048_576]?;
    assert!(rt; is_refused(alloc, &limit, &shelf, "description: line 0: F4 Missing\n")?);
    let long = vec![in alloc; b'#'; 1_048_577]?;
    assert!(rt; is_refused(alloc, &long, &shelf, "description: line 0: F5 TooLong\n")?);
    Ok(())
}

/// How a desk stands after a command on which one call failed.
#[derive(Clone, Copy, Debug, PartialEq, Eq)]
enum After {
    /// No call failed, and the command is done.
    Done,
    /// The call failed, the answer says so, and the output is as it was or holds a front of its text.
    Stopped,
    /// Anything else.
    Other,
}

fn stand_of(desk: &MemDesk, status: u8, whole: &[u8]) -> After {
    let held = desk.file("v").unwrap_or(b"");
    if desk.fault_count() == 0 && status == 0 && held == whole {
        return After::Done;
    }
    let printed = desk.file("-") == Some(b"desk fault\n".as_slice());
    let kept = held == b"old".as_slice() || whole.starts_with(held);
    if desk.fault_count() == 1 && status == 6 && printed && kept {
        After::Stopped
    } else {
        After::Other
    }
}

fn after_failing(alloc: Global, call: DeskCall, number: u64, whole: &[u8]) -> Result<After, Fail> {
    let mut desk = desk_of(alloc, accumulator().as_bytes())?;
    desk.fail(call, number)?;
    let status = status_of(
        alloc,
        "gen d v",
        &shelf_of(alloc, Box::new(alloc, LessAndSum)?)?,
        &mut desk,
    );
    Ok(stand_of(&desk, status, whole))
}

#[test]
fn each_call_fails_in_turn(rt: HostRuntime) -> Result<(), Fail> {
    let whole = sure_text(rt.alloc(), accumulator().as_bytes())?.ok_or("no text")?;
    for call in [DeskCall::Read, DeskCall::Create, DeskCall::Append] {
        assert_eq!(rt; after_failing(rt.alloc(), call, 0, &whole)?, After::Stopped);
        for number in 1..8u64 {
            assert_ne!(rt;
                after_failing(rt.alloc(), call, number, &whole)?,
                After::Other
            );
        }
        assert_eq!(rt; after_failing(rt.alloc(), call, 1000, &whole)?, After::Done);
    }
    assert_eq!(rt;
        after_failing(rt.alloc(), DeskCall::Read, 1, &whole)?,
        After::Stopped
    );
    Ok(())
}

/// The first form with these spellings of its six numbers.
fn spelled(alloc: Global, numbers: [&str; 6]) -> Result<String, AllocError> {
    let [address, word, width, start, code, constant] = numbers;
    let mut text = format!(in alloc; "stages 2\naddress {address}\nword {word}\ntransfer 1 0\n")?;
    let units = format!(in alloc;
        "reg R {width} {start}\nunit U alu {width}\nformat F op:{word}\n"
    )?;
    let first = format!(in alloc; "instr NOP F op=0\nend\ninstr I F op={code}\n1 a = R\n")?;
    let rest = format!(in alloc;
        "1 k = const {width} {constant}\n1 s = U.add a k\n1 R <- s\nend\n"
    )?;
    text.push_str(units.as_str())?;
    text.push_str(first.as_str())?;
    text.push_str(rest.as_str())?;
    Ok(text)
}

fn spellings_of_forms() -> [([&'static str; 6], Form); 3] {
    let top = "18446744073709551615";
    let hexadecimal = "0xFFFFFFFFFFFFFFFF";
    [
        (
            ["4", "8", "8", "3", "1", "250"],
            Form {
                address: 4,
                word: 8,
                width: 8,
                start: 3,
                code: 1,
                constant: 250,
            },
        ),
        (
            ["0x10", "064", "0x40", top, top, hexadecimal],
            Form {
                address: 16,
                word: 64,
                width: 64,
                start: u64::MAX,
                code: u64::MAX,
                constant: u64::MAX,
            },
        ),
        (
            ["004", "0x08", "1", "1", "255", "0"],
            Form {
                address: 4,
                word: 8,
                width: 1,
                start: 1,
                code: 255,
                constant: 0,
            },
        ),
    ]
}

/// Numbers outside their ranges, with what is judged of the first one.
fn spellings_of_none() -> [([&'static str; 6], &'static str); 10] {
    [
        (["3", "8", "8", "3", "1", "250"], "line 2: W1 Range"),
        (["17", "8", "8", "3", "1", "250"], "line 2: W1 Range"),
        (["4", "7", "8", "3", "1", "250"], "line 3: W1 Range"),
        (["4", "65", "8", "3", "1", "250"], "line 3: W1 Range"),
        (["4", "8", "0", "0", "1", "0"], "line 5: W1 Range"),
        (["4", "8", "65", "3", "1", "250"], "line 5: W1 Range"),
        (
            ["4", "8", "8", "256", "1", "250"],
            "line 5: W4 TooWideConstant",
        ),
        (["4", "8", "8", "3", "0", "250"], "line 10: E3 Overlap"),
        (["4", "8", "8", "3", "256", "250"], "line 10: E2 FieldValue"),
        (
            ["4", "8", "8", "3", "1", "256"],
            "line 12: W4 TooWideConstant",
        ),
    ]
}

/// What is judged, as it is printed.
fn shown(alloc: Global, judged: Result<Form, ReadFault>) -> Result<String, AllocError> {
    match judged {
        Ok(_) => String::from_str(alloc, "built"),
        Err(ReadFault::Refused(judged)) => format!(in alloc; "{judged}"),
        Err(ReadFault::NoMemory) => String::from_str(alloc, "want of memory"),
    }
}

#[test]
fn numbers_within_their_ranges(rt: HostRuntime) -> Result<(), Fail> {
    let alloc = rt.alloc();
    let shelf = shelf_of(alloc, Box::new(alloc, LessAndSum)?)?;
    for (numbers, form) in spellings_of_forms() {
        let text = spelled(alloc, numbers)?;
        assert_eq!(rt; judge(alloc, text.as_bytes(), &shelf), Ok(form));
    }
    for (numbers, fault) in spellings_of_none() {
        let text = spelled(alloc, numbers)?;
        let judged = shown(alloc, judge(alloc, text.as_bytes(), &shelf))?;
        assert_eq!(rt; judged.as_str(), fault, "at {text}");
    }
    Ok(())
}

fn changes_that_stay_built() -> [(&'static str, &'static str); 3] {
    [
        ("word 8\n", "word 0x8 # bits\n\n\t\n"),
        ("  1 a = R", "1\ta  =\tR"),
        ("format F op:8", "format F op:0x08"),
    ]
}

/// Changes of the description in one place, with what is judged: faults of each phase, and the first line that isn't due.
fn changes_that_are_not_built() -> [(&'static str, &'static str, &'static str); 9] {
    [
        ("format F op:8", "format F op:9", "line 7: W1 Range"),
        ("format F op:8", "\nformat F op:7", "line 8: E1 FormatSum"),
        ("unit U alu 8", "unit U alu 9", "line 13: W2 Differs"),
        ("unit U alu 8", "unit U mul 8", "line 6: N3 NoKind"),
        ("const 8 250", "const 9 250", "line 13: W2 Differs"),
        ("transfer 1 0", "transfer 1 00", "line 4: F0 NotBuilt"),
        ("instr I F", "instr J F", "line 10: F0 NotBuilt"),
        ("  1 a = R\n", "", "line 12: N1 Unknown"),
        (
            "instr I F op=1\n  1 a = R\n  1 k = const 8 250\n  1 s = U.add a k\n  1 R <- s\nend\n",
            "",
            "line 0: F0 NotBuilt",
        ),
    ]
}

/// What is judged of the description after a change.
fn judged_after(alloc: Global, from: &str, to: &str) -> Result<Result<Form, ReadFault>, Fail> {
    let text = accumulator().replace(alloc, from, to)?;
    let shelf = shelf_of(alloc, Box::new(alloc, LessAndSum)?)?;
    Ok(judge(alloc, text.as_bytes(), &shelf))
}

#[test]
fn lines_as_they_are_due(rt: HostRuntime) -> Result<(), Fail> {
    for (from, to) in changes_that_stay_built() {
        assert!(rt; judged_after(rt.alloc(), from, to)?.is_ok(), "at {to}");
    }
    for (from, to, fault) in changes_that_are_not_built() {
        let judged = shown(rt.alloc(), judged_after(rt.alloc(), from, to)?)?;
        assert_eq!(rt; judged.as_str(), fault, "at {to}");
    }
    Ok(())
}

/// The line that is printed where the shelf lacks the kind that the line `unit` at line 6 asks for.
const NO_UNIT: &str = "description: line 6: N3 NoKind\n";

#[test]
fn shelves_without_the_unit(rt: HostRuntime) -> Result<(), Fail> {
    let alloc = rt.alloc();
    let text = accumulator().as_bytes();
    assert!(rt; is_refused(alloc, text, &empty_shelf(alloc)?, NO_UNIT)?);
    let later = accumulator().replace(alloc, "unit U", "# adds\nunit U")?;
    assert!(rt;
        is_refused(
            alloc,
            later.as_bytes(),
            &empty_shelf(alloc)?,
            "description: line 7: N3 NoKind\n"
        )?
    );
    Ok(())
}

#[test]
fn a_fault_comes_before_what_is_not_built(rt: HostRuntime) -> Result<(), Fail> {
    let alloc = rt.alloc();
    let text = accumulator().replace(alloc, "transfer 1 0", "transfer 1 00")?;
    assert!(rt; is_refused(alloc, text.as_bytes(), &empty_shelf(alloc)?, NO_UNIT)?);
    Ok(())
}
