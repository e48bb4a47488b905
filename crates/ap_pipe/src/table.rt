use ap_bits::Items;

/// The slots of all stages.
#[derive(Drop)]
pub struct SlotTable {
    /// Those of each stage from 1 on.
    pub stages: Items<StageSlots>,
}

/// The slots from which a stage takes the locals of earlier stages.
#[derive(Drop)]
pub struct StageSlots {
    /// The bits of each slot.
    pub widths: Items<u32>,
    /// One home for each local of an instruction that is live into the stage.
    pub homes: Items<Home>,
}

/// Where a stage finds a local.
#[derive(Clone, Copy, Debug, PartialEq, Eq)]
pub struct Home {
    /// The place of the instruction among the design's.
    pub instr: u32,
    /// The number of the local among the instruction's.
    pub local: u32,
    /// The number of the slot among the stage's.
    pub slot: u32,
}
