//! The bytes of one family: values, errors, the check, the reader and the writer.
#![tactic(auto)]

mod check;
mod codec;
mod error;
mod read;
mod write;

pub use check::{FamilySpan, check_family, family_span};
pub use codec::ValueCodec;
pub use error::ArchiveError;
pub use read::read_family;
pub use write::write_family;
