//! Opening a netlist: the nets of `top` and of its instances side by side, an order in which they are
//! computed, and what the ports of `top` say of the outside.
#![tactic(auto)]

mod between;
pub mod driver;
pub mod flat;
mod names;
pub mod opened;
mod opening;
pub mod order;
pub mod outside;

pub use ap_bits::NoMemory;
pub use driver::Driver;
pub use flat::{Flat, FlatFault, flatten};
pub use opened::{Opened, open_in_order};
pub use order::OrderFault;
pub use outside::Outside;
