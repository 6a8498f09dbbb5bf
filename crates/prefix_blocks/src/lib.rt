//! A store of many small lists, packed in blocks of cells.
#![tactic(auto)]

mod store;

pub use store::{Blocks, block_size, cells_needed};
