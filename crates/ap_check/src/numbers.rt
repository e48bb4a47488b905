//! The limits of numbers as a description writes them.
ghost use Rattle.std.specs.Prelude.{◌≡◌, ◌+◌, ◌^◌, ◌==◌, ◌≤◌, nat_le, nat_lt, not};
ghost use Rattle.ap_check.specs.Numbers.{narrowed};
ghost use Rattle.ap_desc.specs.Designs as designs;

use ap_desc::limits::{
    MAX_ADDRESS_BITS, MAX_CELLS, MAX_MEMORY_ADDRESS_BITS, MAX_READ_PORTS, MAX_SLOTS, MAX_STAGES,
    MAX_WIDTH, MAX_WORD_BITS, MAX_WRITE_PORTS, MIN_ADDRESS_BITS, MIN_CELLS, MIN_STAGES,
    MIN_WORD_BITS,
};

/// The number, or the highest one of 32 bits where it has more. All limits lie below.
pub(crate) fn narrow(number: u64) -> u32
    ensures { result ≡ narrowed number }
{
    if number <= u64::from(u32::MAX) {
        number as u32
    } else {
        u32::MAX
    }
}

/// Whether a processor may have so many stages.
pub(crate) fn is_stage_count(count: u64) -> bool
    ensures { result ≡ designs.is_stage_count count }
{
    MIN_STAGES <= count && count <= MAX_STAGES
}

/// Whether a code address may have so many bits.
pub(crate) fn is_address_width(bits: u64) -> bool
    ensures { result ≡ designs.is_address_width bits }
{
    MIN_ADDRESS_BITS <= bits && bits <= MAX_ADDRESS_BITS
}

/// Whether a code word may have so many bits.
pub(crate) fn is_word_width(bits: u64) -> bool
    ensures { result ≡ designs.is_word_width bits }
{
    MIN_WORD_BITS <= bits && bits <= MAX_WORD_BITS
}

/// Whether branches and jumps may stand in this stage.
pub(crate) fn is_transfer_stage(stages: u32, stage: u64) -> bool
    ensures { result ≡ designs.is_transfer_stage stages stage }
{
    1 <= stage && stage < u64::from(stages)
}

/// Whether a transfer may have so many slots.
pub(crate) fn is_slot_count(slots: u64) -> bool
    ensures { result ≡ designs.is_slot_count slots }
{
    slots <= MAX_SLOTS
}

/// Whether a value may have so many bits.
pub(crate) fn is_width(width: u64) -> bool
    ensures { result ≡ designs.is_width width }
{
    1 <= width && width <= MAX_WIDTH
}

/// Whether the number is a power of two that a file may have as its number of cells.
fn is_cell_count(cells: u64) -> bool
    ensures { result ≡ designs.is_cell_count cells }
{
    match cells {
        2 | 4 | 8 | 16 | 32 | 64 => true,
        _ => false,
    }
}

/// Whether a file may have this width, and so many cells, read ports and write ports.
pub(crate) fn is_file_shape(width: u64, cells: u64, reads: u64, writes: u64) -> bool
    ensures { result ≡ designs.is_file_shape width cells reads writes }
{
    is_width(width)
        && is_cell_count(cells)
        && 1 <= reads
        && reads <= MAX_READ_PORTS
        && 1 <= writes
        && writes <= MAX_WRITE_PORTS
}

/// Whether a memory may have so many bits of an address and of a word.
pub(crate) fn is_mem_shape(address: u64, width: u64) -> bool
    ensures { result ≡ designs.is_mem_shape address width }
{
    1 <= address && address <= MAX_MEMORY_ADDRESS_BITS && is_width(width)
}

/// Whether a field of a word of so many bits may have this width.
pub(crate) fn is_field_width(word: u32, width: u64) -> bool
    ensures { result ≡ designs.is_field_width word width }
{
    1 <= width && width <= u64::from(word)
}

/// Whether the value has no more bits than these.
pub(crate) fn has_bits(width: u64, value: u64) -> bool
    ensures { result ≡ designs.has_bits width value }
{
    width >= 64 || value < 1 << width
}

/// Whether so many bits number so many cells.
pub(crate) fn is_index(cells: u32, bits: u32) -> bool
    ensures { result ≡ (2 ^ bits == cells) }
{
    bits < 32 && 1 << bits == cells
}
