//! Maps over two address families.
#![tactic(auto)]

pub mod laws;
pub mod map;

pub use map::JointPrefixMap;
pub use prefix_joint_walks::{JointPrefix, JointPrefixBits, JointPrefixKey};
