//! Writes the texts of images and traces.
#![tactic(auto, using(crate::proofs::Kept::kept))]

ghost use Rattle.std.specs.Prelude.{◌≡◌, ◌++◌, OnErr, OnOk};
ghost use Rattle.std.specs.List.{flat_map};
ghost use Rattle.ap_image.specs.Kept.{IsKept};
ghost use Rattle.ap_image.specs.ImageTexts.{image_text, mem_text, mems_text, part_text, word_text};
ghost use Rattle.ap_image.specs.TraceTexts.{after_space, cycle_text, trace_text};

use crate::image::Image;
use crate::shape::{MemShape, Shape};
use crate::trace::{Trace, TraceLine};
use ap_bits::{Items, NoMemory};
use std::alloc::Global;

/// Appends the line of a word.
fn put_word(alloc: Global, word: u64, out: &mut Vec<u8>) -> Result<(), NoMemory>
    ensures ok { OnOk result (out.new.items ≡ out.old.items ++ word_text word) }
    ensures kept { IsKept out.old.items out.new.items }
{
    let line = format!(in alloc; "0x{word:x}\n")?;
    out.extend_from_slice(line.as_bytes())?;
    Ok(())
}

/// Appends the lines of words.
fn put_words(alloc: Global, words: &[u64], out: &mut Vec<u8>) -> Result<(), NoMemory>
    ensures ok { OnOk result (out.new.items ≡ out.old.items ++ flat_map word_text words.now) }
    ensures kept { IsKept out.old.items out.new.items }
{
    for word in words {
        put_word(alloc, *word, out)?;
    }
    Ok(())
}

/// Appends a part: its line, and those of its words.
fn put_part(alloc: Global, name: &str, words: &[u64], out: &mut Vec<u8>) -> Result<(), NoMemory>
    ensures ok { OnOk result (out.new.items ≡ out.old.items ++ part_text name.now words.now) }
    ensures kept { IsKept out.old.items out.new.items }
{
    let line = format!(in alloc; "part {name}\n")?;
    out.extend_from_slice(line.as_bytes())?;
    put_words(alloc, words, out)?;
    Ok(())
}

/// Appends the part of a data memory, where it has a word.
fn put_mem(alloc: Global, name: &str, words: &[u64], out: &mut Vec<u8>) -> Result<(), NoMemory>
    ensures ok { OnOk result (out.new.items ≡ out.old.items ++ mem_text name.now words.now) }
    ensures kept { IsKept out.old.items out.new.items }
{
    if words.is_empty() {
        return Ok(());
    }
    put_part(alloc, name, words, out)?;
    Ok(())
}

/// Appends the parts of data memories.
fn put_mems(
    alloc: Global,
    mems: &[Items<u64>],
    shapes: &[MemShape],
    out: &mut Vec<u8>,
) -> Result<(), NoMemory>
    ensures ok { OnOk result (out.new.items ≡ out.old.items ++ mems_text mems.now shapes.now) }
    ensures kept { IsKept out.old.items out.new.items }
{
    for (i, words) in mems.iter().enumerate() {
        if i == shapes.len() {
            break;
        }
        put_mem(alloc, shapes[i].name.as_str(), words.as_slice(), out)?;
    }
    Ok(())
}

/// Appends the parts of an image.
fn put_image(alloc: Global, image: &Image, shape: &Shape, out: &mut Vec<u8>) -> Result<(), NoMemory>
    ensures ok { OnOk result (out.new.items ≡ out.old.items ++ image_text image.now shape.now) }
    ensures kept { IsKept out.old.items out.new.items }
{
    put_part(alloc, "code", image.code.as_slice(), out)?;
    put_mems(alloc, image.mems.as_slice(), shape.mems(), out)?;
    Ok(())
}

/// Appends the text of an image: `part code` with all its words, and then each data memory of the
/// shape that has at least one word, in order. Words are hexadecimal, with no leading zeros, and each
/// line ends with a line feed. `NoMemory` comes only where memory ran out; the text is then as it was.
/// What is written of an image that fits the shape is read as it by
/// [`read_image`](crate::read_image), where the text is within the limit.
pub fn write_image(
    alloc: Global,
    image: &Image,
    shape: &Shape,
    out: &mut Vec<u8>,
) -> Result<(), NoMemory>
    ensures ok { OnOk result (out.new.items ≡ out.old.items ++ image_text image.now shape.now) }
    ensures err { OnErr result (out.new.items ≡ out.old.items) }
{
    let len = out.len();
    let result = put_image(alloc, image, shape, out);
    if result.is_err() {
        out.truncate(len);
    }
    result
}

/// Appends a number after a space.
fn put_port(alloc: Global, port: u64, out: &mut Vec<u8>) -> Result<(), NoMemory>
    ensures ok { OnOk result (out.new.items ≡ out.old.items ++ after_space port) }
    ensures kept { IsKept out.old.items out.new.items }
{
    let text = format!(in alloc; " {port}")?;
    out.extend_from_slice(text.as_bytes())?;
    Ok(())
}

/// Appends numbers, each after a space.
fn put_ports(alloc: Global, ports: &[u64], out: &mut Vec<u8>) -> Result<(), NoMemory>
    ensures ok { OnOk result (out.new.items ≡ out.old.items ++ flat_map after_space ports.now) }
    ensures kept { IsKept out.old.items out.new.items }
{
    for port in ports {
        put_port(alloc, *port, out)?;
    }
    Ok(())
}

/// Appends the line of a cycle.
fn put_cycle(alloc: Global, cycle: &TraceLine, out: &mut Vec<u8>) -> Result<(), NoMemory>
    ensures ok { OnOk result (out.new.items ≡ out.old.items ++ cycle_text cycle.now) }
    ensures kept { IsKept out.old.items out.new.items }
{
    let wait = if cycle.wait { b'1' } else { b'0' };
    out.push(wait)?;
    put_ports(alloc, cycle.ports.as_slice(), out)?;
    out.push(b'\n')?;
    Ok(())
}

/// Appends the lines of cycles.
fn put_trace(alloc: Global, cycles: &[TraceLine], out: &mut Vec<u8>) -> Result<(), NoMemory>
    ensures ok { OnOk result (out.new.items ≡ out.old.items ++ flat_map cycle_text cycles.now) }
    ensures kept { IsKept out.old.items out.new.items }
{
    for cycle in cycles {
        put_cycle(alloc, cycle, out)?;
    }
    Ok(())
}

/// Appends the text of a trace: a line for each cycle, with the wait bit and the value of each input
/// port in order, in decimal with one space between them. `NoMemory` comes only where memory ran out;
/// the text is then as it was. What is written of a trace that fits a shape is read as it by
/// [`read_trace`](crate::read_trace), where the text is within the limit.
pub fn write_trace(alloc: Global, trace: &Trace, out: &mut Vec<u8>) -> Result<(), NoMemory>
    ensures ok { OnOk result (out.new.items ≡ out.old.items ++ trace_text trace.now) }
    ensures err { OnErr result (out.new.items ≡ out.old.items) }
{
    let len = out.len();
    let result = put_trace(alloc, trace.lines.as_slice(), out);
    if result.is_err() {
        out.truncate(len);
    }
    result
}
