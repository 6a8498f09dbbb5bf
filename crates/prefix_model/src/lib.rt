// What tables of prefixes and their archives mean: definitions, and the laws between them.
// Each law is the contract of a function with no parameters, and no code of this crate runs.
#![tactic(auto)]

pub mod aggregates;
pub mod layout;
pub mod least;
pub mod masks;
pub mod pruning;
pub mod rows;

/// Why bytes spell no table, by the first test that fails.
#[derive(Clone, Copy, Debug, PartialEq, Eq)]
pub enum Cause {
    /// Fewer bytes than the head, the records or the values take.
    Truncated,
    /// Bytes stand behind the last family.
    TrailingBytes,
    /// The codec refuses the bytes of a value.
    InvalidValue,
    /// The head counts no node.
    MissingRootNode,
    /// A record stands behind all that the child bits count.
    NodeListTooLong,
    /// The child bits count more nodes than there are records.
    NodeListTooShort,
    /// A child index is not one more than the child bits before it.
    NodeListInconsistent,
    /// A data index is not the count of the data bits before it.
    DataListInconsistent,
    /// The data bits count more values than the head.
    DataListTooShort,
    /// The head counts more values than the data bits.
    DataListTooLong,
    /// A record below the root has neither a data bit nor a child bit.
    ContainsEmptyNode,
    /// A node or one of its keys is longer than an address, or data bit 31 is set.
    DepthExceedsPrefixRepr,
}
