//! Which port each line of an instruction uses, with which operands, and in which order the nodes of a stage are computed.
//! `specs/Uses.antt` says what a use is, `specs/Tables.antt` what a design's table has.
#![tactic(auto)]

mod gather;
pub mod table;

pub use gather::paths;
pub use table::{PathPort, PathTable, PathUse};
