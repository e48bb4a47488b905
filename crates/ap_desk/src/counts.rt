/// How often a desk's calls failed, and how often a file that was to be read wasn't there; each up to 2^64 - 1.
#[derive(Clone, Copy, Debug, PartialEq, Eq)]
pub struct Counts {
    /// How many calls failed.
    pub faults: u64,
    /// How many reads missed their file.
    pub absent: u64,
}
