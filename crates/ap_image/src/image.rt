use ap_bits::Items;

/// The words that memories start with, each list from address 0 on. Words that aren't given are 0.
#[derive(Drop)]
pub struct Image {
    /// The words of the code memory.
    pub code: Items<u64>,
    /// The words of each data memory, in the order of the shape.
    pub mems: Items<Items<u64>>,
}
