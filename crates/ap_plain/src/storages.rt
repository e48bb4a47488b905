//! What a write changes.
ghost use Rattle.std.specs.Prelude.{◌≡◌, [], IfOk, if◌then◌else◌, slice_index_or, slice_set};
ghost use Rattle.ap_image.specs.Words.{with_word};
ghost use Rattle.ap_model.specs.Stored.{with_value, with_write, with_writes};

use ap_bits::{Items, NoMemory};
use ap_model::{PortWrite, Storages, WritePort};
use std::alloc::Global;

/// The values with one of them set; beyond their end nothing is.
#[tactic(auto, using(crate::proofs::StorageLemmas::set_beyond))]
fn set_value(alloc: Global, values: &[u64], i: usize, value: u64) -> Result<Items<u64>, NoMemory>
    ensures { IfOk result (λ list. list ≡ slice_set values.now i value) }
{
    let mut set = Vec::from_slice(alloc, values)?;
    if i < set.len() {
        set[i] = value;
    }
    let list = Items::of(set);
    Ok(list)
}

/// The words with one of them written; those before it that weren't given are 0.
#[tactic(auto, using(crate::proofs::StorageLemmas::word_set))]
fn set_word(
    alloc: Global,
    words: &[u64],
    address: usize,
    value: u64,
) -> Result<Items<u64>, NoMemory>
    ensures { IfOk result (λ list. list ≡ with_word words.now address value) }
{
    let mut set = Vec::from_slice(alloc, words)?;
    while set.len() <= address {
        set.push(0)?;
    }
    set[address] = value;
    let list = Items::of(set);
    Ok(list)
}

/// The one list or the other.
fn either(alloc: Global, first: bool, one: &[u64], other: &[u64]) -> Result<Items<u64>, NoMemory>
    ensures { IfOk result (λ list. list ≡ (if first then one.now else other.now)) }
{
    if first {
        Items::copy_of(alloc, one)
    } else {
        Items::copy_of(alloc, other)
    }
}

/// The lists with one of them exchanged; beyond their end none is.
fn set_list(
    alloc: Global,
    lists: &[Items<u64>],
    i: usize,
    list: &[u64],
) -> Result<Items<Items<u64>>, NoMemory>
    ensures { IfOk result (λ set. set ≡ slice_set lists.now i list.now) }
{
    let mut set = Items::new(alloc);
    for (k, old) in lists.iter().enumerate() {
        set.push(either(alloc, k == i, list, old.as_slice())?)?;
    }
    Ok(set)
}

/// The same lists.
pub(crate) fn copied_lists(
    alloc: Global,
    lists: &[Items<u64>],
) -> Result<Items<Items<u64>>, NoMemory>
    ensures { IfOk result (λ list. list ≡ lists.now) }
{
    let mut list = Items::new(alloc);
    for old in lists {
        list.push(Items::copy_of(alloc, old.as_slice())?)?;
    }
    Ok(list)
}

/// The list at a place, an empty one beyond the end.
fn list_at(lists: &[Items<u64>], i: usize) -> &[u64]
    ensures { result.now ≡ slice_index_or lists.now i [] }
{
    match lists.get(i) {
        Some(list) => list.as_slice(),
        None => &[],
    }
}

/// The same storages.
pub(crate) fn copied_storages(alloc: Global, storages: &Storages) -> Result<Storages, NoMemory>
    ensures { IfOk result (λ s. s ≡ storages.now) }
{
    let regs = Items::copy_of(alloc, storages.regs.as_slice())?;
    let files = copied_lists(alloc, storages.files.as_slice())?;
    let mems = copied_lists(alloc, storages.mems.as_slice())?;
    Ok(Storages { regs, files, mems })
}

/// The storages after a write to a register.
fn with_reg(alloc: Global, storages: &Storages, reg: u32, value: u64) -> Result<Storages, NoMemory>
    ensures { IfOk result (λ s. s ≡ with_value storages.now (WritePort.Register reg) 0 value) }
{
    let regs = set_value(alloc, storages.regs.as_slice(), reg as usize, value)?;
    let files = copied_lists(alloc, storages.files.as_slice())?;
    let mems = copied_lists(alloc, storages.mems.as_slice())?;
    Ok(Storages { regs, files, mems })
}

/// The storages after a write to a cell.
fn with_cell(
    alloc: Global,
    storages: &Storages,
    file: u32,
    index: u64,
    value: u64,
) -> Result<Storages, NoMemory>
    ensures { IfOk result (λ s. s ≡ record storages.now {
      files = slice_set storages.now.files file
          (slice_set (slice_index_or storages.now.files file []) index value);
    }) }
{
    let cells = list_at(storages.files.as_slice(), file as usize);
    let cells = set_value(alloc, cells, index as usize, value)?;
    let regs = Items::copy_of(alloc, storages.regs.as_slice())?;
    let files = set_list(
        alloc,
        storages.files.as_slice(),
        file as usize,
        cells.as_slice(),
    )?;
    let mems = copied_lists(alloc, storages.mems.as_slice())?;
    Ok(Storages { regs, files, mems })
}

/// The storages after a write to a word.
fn with_mem(
    alloc: Global,
    storages: &Storages,
    mem: u32,
    address: u64,
    value: u64,
) -> Result<Storages, NoMemory>
    ensures { IfOk result (λ s. s ≡ with_value storages.now (WritePort.Memory mem) address value) }
{
    let words = list_at(storages.mems.as_slice(), mem as usize);
    let words = set_word(alloc, words, address as usize, value)?;
    let regs = Items::copy_of(alloc, storages.regs.as_slice())?;
    let files = copied_lists(alloc, storages.files.as_slice())?;
    let mems = set_list(
        alloc,
        storages.mems.as_slice(),
        mem as usize,
        words.as_slice(),
    )?;
    Ok(Storages { regs, files, mems })
}

/// The storages after a write.
fn with_write(alloc: Global, storages: &Storages, write: PortWrite) -> Result<Storages, NoMemory>
    ensures { IfOk result (λ s. s ≡ with_write storages.now write) }
{
    match write.port {
        WritePort::Register(reg) => with_reg(alloc, storages, reg, write.value),
        WritePort::Cell { file, .. } => with_cell(alloc, storages, file, write.at, write.value),
        WritePort::Memory(mem) => with_mem(alloc, storages, mem, write.at, write.value),
    }
}

/// The storages after writes, one after another.
#[tactic(auto, unfolding(ap_model::specs::Stored::with_writes))]
pub(crate) fn with_writes(
    alloc: Global,
    storages: &Storages,
    writes: &[PortWrite],
) -> Result<Storages, NoMemory>
    ensures { IfOk result (λ s. s ≡ with_writes storages.now writes.now) }
{
    let mut now = copied_storages(alloc, storages)?;
    for write in writes {
        now = with_write(alloc, &now, *write)?;
    }
    Ok(now)
}
