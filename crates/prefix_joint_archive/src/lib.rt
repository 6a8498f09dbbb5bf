//! Archives of tables over two address families.
#![tactic(auto)]

mod compact;
mod families;
pub mod laws;
pub mod map;

pub use compact::compact_archive;
pub use map::ArchivedJointPrefixMap;
pub use prefix_layout::{ArchiveError, ValueCodec};
