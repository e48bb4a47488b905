//! Register files as circuits: [`file_module`] builds the module of a file of cells, with read ports that show a cell in the same
//! cycle and write ports that take effect at the edge. What such a module is stands in `specs/FileModules.antt`, over the list of
//! cells in `specs/Cells.antt`.
#![tactic(auto)]

mod cells;
mod decoder;
mod file;
mod order;
mod reads;
pub mod shape;
mod writes;

pub use file::{build_file, cells_go_alone, file_module, files_depend};
