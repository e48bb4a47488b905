use ap_bits::Items;
use ap_net::cell::Wire;

/// What control is given: nets of the builder, which needn't be driven yet.
#[derive(Drop)]
pub struct ControlGiven {
    /// The words of the stages from 1 on, each with the bits of a code word.
    pub words: Items<Wire>,
    /// One bit: memories have stages wait that read or write one.
    pub mwait: Wire,
    /// One bit: the flight in the transfer's stage takes its transfer. In a cycle in which that stage is held it may be either.
    pub taken: Wire,
    /// One bit for each unit that takes more than one cycle, in the order of their declaration: a flight uses it and it isn't
    /// done.
    pub busy: Items<Wire>,
}

/// The nets of control, each of one bit.
#[derive(Drop)]
pub struct ControlNets {
    /// The registers that say whether there is a word in a stage, by stage from 1 on.
    pub valid: Items<Wire>,
    /// For each stage from 1 on and each instruction whether the stage's word matches it, be the word valid or not.
    pub decoded: Items<Items<Wire>>,
    /// Whether a stage is held, by stage from 0 on.
    pub hold: Items<Wire>,
    /// Whether a stage's flight fires, by stage from 1 on.
    pub fires: Items<Wire>,
    /// Whether a transfer is taken.
    pub kill: Wire,
}
