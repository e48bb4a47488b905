//! The limits of names: definitions and code take them from here.

/// The most bytes of a name; the fewest are 1.
pub const MAX_NAME_BYTES: usize = 32;
