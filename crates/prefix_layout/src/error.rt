//! Why an archive is refused, or not written.
ghost use Rattle.std.specs.Prelude.{◌≡◌};
ghost use Rattle.prefix_layout.specs.Errors.{code_of, text_of};

use prefix_model::Cause;
use std::error::Error;
use std::fmt;
use std::fmt::{Display, Formatter, Write};

/// Why bytes are no archive, or why a table gets none.
#[derive(Clone, Copy, Debug, PartialEq, Eq)]
pub enum ArchiveError {
    /// The bytes end before the counts, the records or the values that the counts tell.
    Truncated,
    /// Bytes stand behind the last family.
    TrailingBytes,
    /// The bytes of a value spell none.
    InvalidValue,
    /// The count of nodes is 0.
    MissingRootNode,
    /// No record names this node as a child.
    NodeListTooLong,
    /// A child bit names a node past the count of nodes.
    NodeListTooShort,
    /// A record's child index is not the number of nodes before its first child.
    NodeListInconsistent,
    /// A record's data index is not the number of values before its own.
    DataListInconsistent,
    /// The data bits of all records are more than the count of values.
    DataListTooShort,
    /// They are fewer.
    DataListTooLong,
    /// A node other than the first has neither a data bit nor a child bit.
    ContainsEmptyNode,
    /// A node or a key is longer than the width in bits, or data bit 31 is set, which stands for no key.
    DepthExceedsPrefixRepr,
    /// A table has 2^32 or more positions, so that no word of 32 bits counts them. Only the writer answers it.
    NodeIndexOverflow,
    /// The same of its entries.
    DataIndexOverflow,
    /// There was no memory.
    OutOfMemory,
}

impl ArchiveError {
    /// The number of the error, from 1.
    pub fn code(&self) -> u8
        ensures { result ≡ code_of self.now }
    {
        *self as u8 + 1
    }

    /// The error in a sentence.
    #[tactic(auto, unfolding(crate::specs::Errors::text_of))]
    pub fn text(&self) -> &'static str
        ensures { result.now ≡ text_of self.now }
    {
        match self {
            ArchiveError::Truncated => "Archive is cut short.",
            ArchiveError::TrailingBytes => "Archive has trailing bytes.",
            ArchiveError::InvalidValue => "Invalid value.",
            ArchiveError::MissingRootNode => "Missing the root node.",
            ArchiveError::NodeListTooLong => "Node list is too long",
            ArchiveError::NodeListTooShort => "Node list is too short",
            ArchiveError::NodeListInconsistent => "Inconsistent node list",
            ArchiveError::DataListInconsistent => "Inconsistent data list",
            ArchiveError::DataListTooShort => "Data list is too short",
            ArchiveError::DataListTooLong => "Data list is too long",
            ArchiveError::ContainsEmptyNode => "Trie contains empty nodes.",
            ArchiveError::DepthExceedsPrefixRepr => {
                "Depth of tree exceeds the number of bits in the prefix."
            }
            ArchiveError::NodeIndexOverflow => "Node list too long for 32-bit index.",
            ArchiveError::DataIndexOverflow => "Data list too long for 32-bit index.",
            ArchiveError::OutOfMemory => "Out of memory.",
        }
    }
}

impl Display for ArchiveError {
    ghost use Rattle.std.specs.Prelude.{Some};

    ghost output = { λ e. Some (text_of e) };

    fn fmt<W: Write>(&self, f: &mut Formatter<W>) -> Result<(), fmt::Error> {
        f.write_str(self.text())
    }
}

impl Error for ArchiveError {}

impl From<Cause> for ArchiveError {
    ghost use Rattle.prefix_layout.specs.Errors.{error_of};

    ghost from_gives = { λ cause error. error ≡ error_of cause };

    fn from(cause: Cause) -> Self
        ensures { result ≡ error_of cause }
    {
        match cause {
            Cause::Truncated => ArchiveError::Truncated,
            Cause::TrailingBytes => ArchiveError::TrailingBytes,
            Cause::InvalidValue => ArchiveError::InvalidValue,
            Cause::MissingRootNode => ArchiveError::MissingRootNode,
            Cause::NodeListTooLong => ArchiveError::NodeListTooLong,
            Cause::NodeListTooShort => ArchiveError::NodeListTooShort,
            Cause::NodeListInconsistent => ArchiveError::NodeListInconsistent,
            Cause::DataListInconsistent => ArchiveError::DataListInconsistent,
            Cause::DataListTooShort => ArchiveError::DataListTooShort,
            Cause::DataListTooLong => ArchiveError::DataListTooLong,
            Cause::ContainsEmptyNode => ArchiveError::ContainsEmptyNode,
            Cause::DepthExceedsPrefixRepr => ArchiveError::DepthExceedsPrefixRepr,
        }
    }
}
