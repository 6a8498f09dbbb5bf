//! Archives of tables of prefixes: flat bytes that are checked before they are used.
#![tactic(auto)]

mod counting;
mod coverage;
mod cursor;
mod descent;
mod families;
pub mod laws;
mod lookup;
pub mod map;
mod node;
pub mod set;
mod slots;
pub mod value;
mod values;
pub mod view;

pub use families::check_single;
pub use map::ArchivedPrefixMap;
pub use prefix_layout::{ArchiveError, ValueCodec};
pub use set::ArchivedPrefixSet;
pub use value::ArchivedValue;
pub use view::ArchivedTrieRef;
