//! Views: places in a table, from which the entries below them are seen.
#![tactic(auto)]

mod equality;
pub mod iter;
pub mod laws;
pub mod trie_ref;
pub mod view;
mod walk;

pub use iter::{ViewIter, ViewKeys, ViewValues};
pub use trie_ref::TrieRef;
pub use view::{AsView, TrieView};
