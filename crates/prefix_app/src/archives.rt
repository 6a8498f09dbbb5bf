// The commands that read an archive, each over the bytes of its input.
ghost use Rattle.std.specs.Prelude.{MatchResult};
ghost use Rattle.prefix_text.specs.Forms.{Fits};
ghost use Rattle.prefix_text.specs.declared.command.Command.TheVariants.{Fill, Consistent, Check, Dump, Lookup, Cover};
ghost use Rattle.prefix_app.specs.Endings.{Makes};
ghost use Rattle.prefix_app.specs.Outcome.{over_bytes};
ghost use Rattle.prefix_app.specs.Steps.{IsOpened, IsRefused};

use crate::commands::Archive;
use crate::ending::Ending;
use crate::{commands, questions};
use prefix_joint_archive::ArchivedJointPrefixMap;
use prefix_layout::ArchiveError;
use prefix_text::EitherPrefix;
use std::alloc::Global;

/// The archive whose bytes these are.
fn open<'a>(bytes: &'a [u8]) -> Result<Archive<'a>, ArchiveError>
    ensures { MatchResult result (λ a. IsOpened bytes.now a.t1.table.entries a.t2.table.entries) (IsRefused bytes.now) }
{
    ArchivedJointPrefixMap::access(bytes)
}

/// The archive of the least tables without a hole, with this value where there was none.
pub(crate) fn fill(alloc: Global, bytes: &[u8], value: u32) -> Result<Vec<u8>, Ending>
    ensures { Makes (over_bytes (Fill value) bytes.now) result }
{
    match open(bytes) {
        Ok(archive) => commands::fill(alloc, archive, value),
        Err(error) => Err(Ending::Archive(error)),
    }
}

/// The archive of the tables without the entries that say what the next one above says.
pub(crate) fn consistent(alloc: Global, bytes: &[u8]) -> Result<Vec<u8>, Ending>
    ensures { Makes (over_bytes Consistent bytes.now) result }
{
    match open(bytes) {
        Ok(archive) => commands::consistent(alloc, archive),
        Err(error) => Err(Ending::Archive(error)),
    }
}

/// The lines that count the nodes, entries and addresses of both tables.
pub(crate) fn check(alloc: Global, bytes: &[u8]) -> Result<Vec<u8>, Ending>
    ensures { Makes (over_bytes Check bytes.now) result }
{
    match open(bytes) {
        Ok(archive) => questions::check(alloc, archive),
        Err(error) => Err(Ending::Archive(error)),
    }
}

/// The lines of all entries.
pub(crate) fn dump(alloc: Global, bytes: &[u8]) -> Result<Vec<u8>, Ending>
    ensures { Makes (over_bytes Dump bytes.now) result }
{
    match open(bytes) {
        Ok(archive) => questions::dump(alloc, archive),
        Err(error) => Err(Ending::Archive(error)),
    }
}

/// The line of the longest match of a prefix.
pub(crate) fn lookup(alloc: Global, bytes: &[u8], prefix: EitherPrefix) -> Result<Vec<u8>, Ending>
    requires { Fits prefix }
    ensures { Makes (over_bytes (Lookup prefix) bytes.now) result }
{
    match open(bytes) {
        Ok(archive) => commands::lookup(alloc, archive, prefix),
        Err(error) => Err(Ending::Archive(error)),
    }
}

/// The lines of the entries that cover a prefix, and whether all its addresses have an answer.
pub(crate) fn cover(alloc: Global, bytes: &[u8], prefix: EitherPrefix) -> Result<Vec<u8>, Ending>
    requires { Fits prefix }
    ensures { Makes (over_bytes (Cover prefix) bytes.now) result }
{
    match open(bytes) {
        Ok(archive) => questions::cover(alloc, archive, prefix),
        Err(error) => Err(Ending::Archive(error)),
    }
}
