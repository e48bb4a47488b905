//! Writes the line of a row.
#![tactic(auto, using(crate::proofs::Kept::kept))]

ghost use Rattle.std.specs.Prelude.{◌≡◌, ◌++◌, [], OnErr, OnOk, map, slice_get, string_bytes, unwrap_or};
ghost use Rattle.std.specs.List.{flat_map};
ghost use Rattle.ap_image.specs.Kept.{IsKept};
ghost use Rattle.ap_image.specs.RowTexts.{index_text, label_of, row_text, state_text, write_text};

use crate::row::{Row, Write};
use ap_bits::NoMemory;
use std::alloc::Global;

/// How the state of a cycle is written.
fn state(stall: bool, kill: bool) -> &'static str
    ensures { result.now ≡ state_text stall kill }
{
    match (stall, kill) {
        (false, false) => "run",
        (true, false) => "stall",
        (false, true) => "kill",
        (true, true) => "stall+kill",
    }
}

/// Appends the label of a write group or memory.
fn put_label(labels: &[String], group: u32, out: &mut Vec<u8>) -> Result<(), NoMemory>
    ensures ok { OnOk result
        (out.new.items ≡ out.old.items ++ label_of (map string_bytes labels.now) group) }
    ensures kept { IsKept out.old.items out.new.items }
{
    if let Some(label) = labels.get(group as usize) {
        out.extend_from_slice(label.as_bytes())?;
    }
    Ok(())
}

/// Appends an index or address, where there is one.
fn put_index(alloc: Global, index: Option<u64>, out: &mut Vec<u8>) -> Result<(), NoMemory>
    ensures ok { OnOk result (out.new.items ≡ out.old.items ++ index_text index) }
    ensures kept { IsKept out.old.items out.new.items }
{
    if let Some(index) = index {
        let text = format!(in alloc; "[{index}]")?;
        out.extend_from_slice(text.as_bytes())?;
    }
    Ok(())
}

/// Appends a write.
fn put_write(
    alloc: Global,
    labels: &[String],
    write: Write,
    out: &mut Vec<u8>,
) -> Result<(), NoMemory>
    ensures ok { OnOk result
        (out.new.items ≡ out.old.items ++ write_text (map string_bytes labels.now) write) }
    ensures kept { IsKept out.old.items out.new.items }
{
    out.push(b' ')?;
    put_label(labels, write.group, out)?;
    put_index(alloc, write.index, out)?;
    let value = write.value;
    let text = format!(in alloc; "={value}")?;
    out.extend_from_slice(text.as_bytes())?;
    Ok(())
}

/// Appends writes.
fn put_writes(
    alloc: Global,
    labels: &[String],
    writes: &[Write],
    out: &mut Vec<u8>,
) -> Result<(), NoMemory>
    ensures ok { OnOk result (out.new.items
        ≡ out.old.items ++ flat_map (write_text (map string_bytes labels.now)) writes.now) }
    ensures kept { IsKept out.old.items out.new.items }
{
    for write in writes {
        put_write(alloc, labels, *write, out)?;
    }
    Ok(())
}

/// Appends the line of a cycle's row.
fn put_row(
    alloc: Global,
    labels: &[String],
    cycle: u64,
    row: &Row,
    out: &mut Vec<u8>,
) -> Result<(), NoMemory>
    ensures ok { OnOk result
        (out.new.items ≡ out.old.items ++ row_text (map string_bytes labels.now) cycle row.now) }
    ensures kept { IsKept out.old.items out.new.items }
{
    let state = state(row.stall, row.kill);
    let text = format!(in alloc; "{cycle} {state}")?;
    out.extend_from_slice(text.as_bytes())?;
    put_writes(alloc, labels, row.writes.as_slice(), out)?;
    out.push(b'\n')?;
    Ok(())
}

/// Appends the line of the row that this cycle shows: the number of the cycle, its state, and each write with the label of its
/// group or memory, as `3 run GPR.0[1]=5`. A label is the name of a register or a data memory, or that of a file with a point
/// and the number of the port; a write whose group has no label is written without one. Numbers are decimal, and the line
/// ends with a line feed. `NoMemory` comes only where memory ran out; the text is then as it was.
pub fn write_row(
    alloc: Global,
    labels: &[String],
    cycle: u64,
    row: &Row,
    out: &mut Vec<u8>,
) -> Result<(), NoMemory>
    ensures ok { OnOk result
        (out.new.items ≡ out.old.items ++ row_text (map string_bytes labels.now) cycle row.now) }
    ensures err { OnErr result (out.new.items ≡ out.old.items) }
{
    let len = out.len();
    let result = put_row(alloc, labels, cycle, row, out);
    if result.is_err() {
        out.truncate(len);
    }
    result
}
