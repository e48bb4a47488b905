use ap_bits::Items;

/// What the inputs are in one cycle.
#[derive(Drop)]
pub struct TraceLine {
    /// Whether a memory isn't ready.
    pub wait: bool,
    /// The value of each input port, in order.
    pub ports: Items<u64>,
}

/// What the inputs are in each cycle, from cycle 0 on. After the last line all of them are 0.
#[derive(Drop)]
pub struct Trace {
    pub lines: Items<TraceLine>,
}
