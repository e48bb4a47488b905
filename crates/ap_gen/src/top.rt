//! What a whole `top` was made of.

use crate::data::Data;
use crate::start::Start;
use ap_flow::flow::Flow;
use ap_net::cell::Wire;

/// A `top`, by what its parts answered.
#[derive(Drop)]
pub struct Top {
    /// Its ports, registers and files, its units of several cycles, and control.
    pub start: Start,
    /// The data of its stages.
    pub stages: Data,
    /// The target of the transfer.
    pub target: Wire,
    /// What its registers take.
    pub flow: Flow,
}
