//! Maps and sets of prefixes.
#![tactic(auto)]

pub mod bits;
pub mod descent;
mod hits;
mod items;
pub mod map;
mod search;
pub mod set;

pub use items::bare;
pub use map::PrefixMap;
pub use set::PrefixSet;
