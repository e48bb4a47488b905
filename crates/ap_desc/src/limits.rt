//! The limits of the language, each of them once: definitions and code take them from here.

/// The fewest stages that a processor may have.
pub const MIN_STAGES: u64 = 2;

/// The most stages.
pub const MAX_STAGES: u64 = 8;

/// The fewest bits of an instruction's address.
pub const MIN_ADDRESS_BITS: u64 = 4;

/// The most bits of an instruction's address.
pub const MAX_ADDRESS_BITS: u64 = 16;

/// The fewest bits of an instruction's word.
pub const MIN_WORD_BITS: u64 = 8;

/// The most bits of an instruction's word.
pub const MAX_WORD_BITS: u64 = 64;

/// The most instructions that are always done after a transfer.
pub const MAX_SLOTS: u64 = 8;

/// The most bits of a value; the fewest are 1.
pub const MAX_WIDTH: u64 = 64;

/// The fewest cells of a file.
pub const MIN_CELLS: u64 = 2;

/// The most cells of a file.
pub const MAX_CELLS: u64 = 64;

/// The most read ports of a file; the fewest are 1.
pub const MAX_READ_PORTS: u64 = 4;

/// The most write ports of a file; the fewest are 1.
pub const MAX_WRITE_PORTS: u64 = 2;

/// The most bits of an address of a data memory; the fewest are 1.
pub const MAX_MEMORY_ADDRESS_BITS: u64 = 16;

/// The most registers.
pub const MAX_REGISTERS: usize = 64;

/// The most register files.
pub const MAX_FILES: usize = 8;

/// The most data memories.
pub const MAX_MEMORIES: usize = 4;

/// The most input ports.
pub const MAX_INPUTS: usize = 8;

/// The most units.
pub const MAX_UNITS: usize = 32;

/// The most formats.
pub const MAX_FORMATS: usize = 32;

/// The most fields of a format.
pub const MAX_FIELDS: usize = 16;

/// The most instructions.
pub const MAX_INSTRUCTIONS: usize = 256;

/// The most micro-operations of an instruction.
pub const MAX_MICRO_OPERATIONS: usize = 64;

/// The most bytes of a description's text.
pub const DESCRIPTION_LIMIT: usize = 1_048_576;
