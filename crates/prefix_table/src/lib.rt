//! Tables from keys of bits to values.
#![tactic(auto)]

mod filling;
mod keys;
mod node;
mod node_records;
pub mod places;
mod prefixes;
mod retain;
mod step_counter;
mod tables;
mod trie;
mod ways;
mod writer;

pub use keys::{Bits, Key};
pub use node::{
    BitIter, K, NUM_CHILDREN, NUM_DATA, child_bit, child_cover_mask, child_cover_mask_for_bit,
    data_bit, data_cover_mask, data_lpm_mask, extend_repr, lex_after_child, lex_after_data,
    reconstruct_prefix, reconstruct_repr, slot_lpm_mask,
};
pub use node_records::{Record, Records, word_at};
pub use prefixes::{Prefix, PrefixBits, PrefixKey, fits, same_front};
pub use step_counter::Steps;
pub use tables::{InsertError, MAX_ENTRIES, NodeAt, NodeBits, Table};
pub use writer::TableWriter;
