//! What a cycle shows, and its text.
ghost use Rattle.std.specs.Prelude.{◌≡◌, ◌≢◌, ◌+◌, ◌<◌, ◌≤◌, ◌++◌, IfNone, IfOk, IfSome, IsOk, None, OnOk, Some, decimal, length, map, slice_get, slice_index, string_bytes, unwrap_or};
ghost use Rattle.std.specs.List.{flat_map};
ghost use Rattle.std.specs.Vec.{vec_capacity, vec_len};
ghost use Rattle.ap_image.specs.Kept.{IsKept};
ghost use Rattle.ap_image.specs.RowTexts.{index_text, label_of, row_text, state_text, write_text};
ghost use Rattle.ap_eval.specs.Benches.{group_label, labelled, labels_by, limit_by};
ghost use Rattle.ap_eval.specs.Spots.{index_at, writes_by};

use crate::spot::Spot;
use ap_bits::NoMemory;
use ap_flat::Outside;
use ap_flat::outside::FilePort;
use itoa::Buffer;
use std::alloc::Global;
use std::marker::Model;

/// A write that a row shows.
#[derive(Clone, Copy, Debug, PartialEq, Eq)]
pub struct WriteView {
    /// The number of the write's group or, counted on from the groups, of its memory.
    pub group: usize,
    /// The index of a file's cell or the address of a memory's word; none at a register.
    pub index: Option<u64>,
    /// What is written.
    pub value: u64,
}

/// The row of a cycle. Contracts see it as a row of `ap_image`.
#[derive(Drop)]
pub struct RowView<'a> {
    /// The value of each port, or 0 before the first cycle.
    shown: &'a [u64],
    /// The number of the port `stall`, which `kill` follows.
    stall: usize,
    spots: &'a [Spot],
}

impl<'a> Model for RowView<'a> {
    ghost use Rattle.ap_image.specs.declared.row.Row.{Row};
    ghost use Rattle.ap_eval.specs.Spots.{row_by};

    ghost Value = { Row };

    ghost view = { λ r. row_by r.shown.now r.stall r.spots.now };
}

/// The value of a port, and 0 where there is none.
fn at(shown: &[u64], port: usize) -> u64
    ensures { result ≡ slice_index shown.now port }
{
    if port < shown.len() { shown[port] } else { 0 }
}

/// The write that ports show at a spot, of the group or memory of this number, if it writes.
fn write_at(shown: &[u64], spot: Spot, group: usize) -> Option<WriteView>
    ensures some { IfSome result (λ w. (slice_index shown.now spot.enable ≡ 1)
        × (w ≡ record { group = group; index = index_at shown.now spot.index; value = slice_index shown.now spot.value })) }
    ensures none { IfNone result (slice_index shown.now spot.enable ≢ 1) }
{
    if at(shown, spot.enable) != 1 {
        return None;
    }
    let index = match spot.index {
        Some(port) => Some(at(shown, port)),
        None => None,
    };
    Some(WriteView {
        group,
        index,
        value: at(shown, spot.value),
    })
}

impl<'a> RowView<'a> {
    ghost use Rattle.ap_eval.specs.Spots.{row_by};

    /// The row that these values of ports show.
    pub(crate) fn of(shown: &'a [u64], stall: usize, spots: &'a [Spot]) -> RowView<'a>
        ensures { result ≡ row_by shown.now stall spots.now }
    {
        RowView {
            shown,
            stall,
            spots,
        }
    }

    /// Whether the cycle is stalled.
    pub fn stall(&self) -> bool
        ensures { result ≡ self.now.stall }
    {
        at(self.shown, self.stall) == 1
    }

    /// Whether a transfer is taken in it.
    pub fn kill(&self) -> bool
        ensures { result ≡ self.now.kill }
    {
        self.stall < self.shown.len() && at(self.shown, self.stall + 1) == 1
    }

    /// How many writes it shows.
    pub fn count(&self) -> usize
        ensures { result ≡ length self.now.writes }
    {
        let mut count = 0;
        for spot in self.spots {
            if write_at(self.shown, *spot, 0).is_some() {
                count += 1;
            }
        }
        count
    }

    /// The write i, by group; None exactly where i isn't below their count.
    pub fn write(&self, i: usize) -> Option<WriteView>
        ensures some { IfSome result (λ w. slice_get self.now.writes i
            ≡ Some (record { group = w.group; index = w.index; value = w.value })) }
        ensures none { IfNone result (slice_get self.now.writes i ≡ None) }
    {
        let mut left = i;
        for group in 0..self.spots.len() {
            if let Some(write) = write_at(self.shown, self.spots[group], group) {
                if left == 0 {
                    return Some(write);
                }
                left -= 1;
            }
        }
        None
    }
}

/// The label of a write group.
fn group_label(alloc: Global, storage: &str, file: &Option<FilePort>) -> Result<String, NoMemory>
    ensures { IfOk result (λ label. string_bytes label ≡ group_label storage.now file.now) }
{
    let label = match file {
        None => String::from_str(alloc, storage)?,
        Some(port) => {
            let number = port.number;
            format!(in alloc; "{storage}.{number}")?
        }
    };
    Ok(label)
}

/// The labels of the groups and then of the memories.
pub(crate) fn labels_of(alloc: Global, outside: &Outside) -> Result<Vec<String>, NoMemory>
    ensures { IfOk result (λ labels. map string_bytes labels.items ≡ labels_by outside.now) }
{
    let mut labels = Vec::new(alloc);
    for group in outside.groups() {
        let label = group_label(alloc, group.storage.as_str(), &group.port)?;
        labels.push(label)?;
    }
    for mem in outside.shape().mems() {
        let label = String::from_str(alloc, mem.name.as_str())?;
        labels.push(label)?;
    }
    Ok(labels)
}

/// The most bytes of a row's number of the cycle, of its state, and of the line feed.
const HEAD_BYTES: usize = 7 + 1 + 10 + 1;

/// The most bytes of a write but for its label: a space, brackets, an equals sign and two numbers.
const WRITE_BYTES: usize = 44;

/// A sum, as long as it is the size of something.
fn size_of_both(first: usize, second: usize) -> Result<usize, NoMemory>
    ensures { IfOk result (λ sum. sum ≡ first + second) }
{
    match first.checked_add(second) {
        Some(sum) => Ok(sum),
        None => Err(NoMemory),
    }
}

/// The most bytes of a row with writes of these labels.
pub(crate) fn limit_of(labels: &[String]) -> Result<usize, NoMemory>
    ensures { IfOk result (λ limit. limit ≡ limit_by (map string_bytes labels.now)) }
{
    let mut limit = HEAD_BYTES;
    for label in labels {
        let with_label = size_of_both(limit, label.as_str().len())?;
        limit = size_of_both(with_label, WRITE_BYTES)?;
    }
    Ok(limit)
}

/// Appends a decimal number.
fn put_number(value: u64, out: &mut Vec<u8>) -> Result<(), NoMemory>
    ensures ok { OnOk result (out.new.items ≡ out.old.items ++ decimal value) }
    ensures kept { IsKept out.old.items out.new.items }
    ensures capacity { vec_capacity out.old ≤ vec_capacity out.new }
    ensures succeeds { vec_len out.old + length (decimal value) ≤ vec_capacity out.old
        → IsOk result }
{
    let mut buffer = Buffer::new();
    out.extend_from_slice(buffer.format(value).as_bytes())?;
    Ok(())
}

/// How the state of a cycle is written.
fn state(stall: bool, kill: bool) -> &'static str
    ensures { result.now ≡ state_text stall kill }
{
    match (stall, kill) {
        (false, false) => "run",
        (true, false) => "stall",
        (false, true) => "kill",
        (true, true) => "stall+kill",
    }
}

/// Appends an index or address, where there is one.
fn put_index(index: Option<u64>, out: &mut Vec<u8>) -> Result<(), NoMemory>
    ensures ok { OnOk result (out.new.items ≡ out.old.items ++ index_text index) }
    ensures kept { IsKept out.old.items out.new.items }
    ensures capacity { vec_capacity out.old ≤ vec_capacity out.new }
    ensures succeeds { vec_len out.old + length (index_text index) ≤ vec_capacity out.old
        → IsOk result }
{
    if let Some(index) = index {
        out.push(b'[')?;
        put_number(index, out)?;
        out.push(b']')?;
    }
    Ok(())
}

/// Appends a write with this label.
fn put_write(label: &str, write: WriteView, out: &mut Vec<u8>) -> Result<(), NoMemory>
    ensures ok { OnOk result (out.new.items ≡ out.old.items ++ labelled label.now write.index write.value) }
    ensures kept { IsKept out.old.items out.new.items }
    ensures capacity { vec_capacity out.old ≤ vec_capacity out.new }
    ensures succeeds { vec_len out.old + length (labelled label.now write.index write.value) ≤ vec_capacity out.old
        → IsOk result }
{
    out.push(b' ')?;
    out.extend_from_slice(label.as_bytes())?;
    put_index(write.index, out)?;
    out.push(b'=')?;
    put_number(write.value, out)?;
    Ok(())
}

/// The label of a group or memory, and none where there is none.
fn label_at(labels: &[String], group: usize) -> &str
    ensures { result.now ≡ label_of (map string_bytes labels.now) group }
{
    match labels.get(group) {
        Some(label) => label.as_str(),
        None => "",
    }
}

/// Appends the writes that ports show at these spots.
fn put_writes(
    shown: &[u64],
    spots: &[Spot],
    labels: &[String],
    out: &mut Vec<u8>,
) -> Result<(), NoMemory>
    ensures ok { OnOk result (out.new.items ≡ out.old.items
        ++ flat_map (write_text (map string_bytes labels.now)) (writes_by shown.now 0 spots.now)) }
    ensures kept { IsKept out.old.items out.new.items }
    ensures capacity { vec_capacity out.old ≤ vec_capacity out.new }
    ensures succeeds { vec_len out.old
        + length (flat_map (write_text (map string_bytes labels.now)) (writes_by shown.now 0 spots.now))
        ≤ vec_capacity out.old → IsOk result }
{
    for group in 0..spots.len() {
        if let Some(write) = write_at(shown, spots[group], group) {
            put_write(label_at(labels, group), write, out)?;
        }
    }
    Ok(())
}

impl RowView<'_> {
    /// Appends the line of the row of this cycle.
    #[tactic(auto, using(ap_image::proofs::Kept::kept))]
    pub(crate) fn put(
        &self,
        labels: &[String],
        cycle: u64,
        out: &mut Vec<u8>,
    ) -> Result<(), NoMemory>
        ensures ok { OnOk result (out.new.items
            ≡ out.old.items ++ row_text (map string_bytes labels.now) cycle self.now) }
        ensures kept { IsKept out.old.items out.new.items }
        ensures succeeds { vec_len out.old + length (row_text (map string_bytes labels.now) cycle self.now)
            ≤ vec_capacity out.old → IsOk result }
    {
        put_number(cycle, out)?;
        out.push(b' ')?;
        out.extend_from_slice(state(self.stall(), self.kill()).as_bytes())?;
        put_writes(self.shown, self.spots, labels, out)?;
        out.push(b'\n')?;
        Ok(())
    }
}
