//! The signals of a processor's netlist, by the names of its nets, and the law that a netlist whose signals meet the border keeps the
//! machine's state and shows its rows.
#![tactic(auto)]

pub mod laws;
