// The families of an archive, one after the other.
ghost use Rattle.std.specs.Prelude.{◌≡◌, ◌≤◌, length, take, drop, IfOk};
ghost use Rattle.prefix_model.specs.FirstCause.{check_pair};
ghost use Rattle.prefix_archive.specs.Causes.{TellsCause, IsTable};

use prefix_archive::check_single;
use prefix_layout::{ArchiveError, ValueCodec, check_family};

/// Where the first table ends, if the bytes spell two tables of these widths and nothing more, or else the first cause.
pub(crate) fn check_both<T: ValueCodec>(
    bytes: &[u8],
    first: u32,
    second: u32,
) -> Result<usize, ArchiveError>
    requires first { first ≤ 128 }
    requires second { second ≤ 128 }
    ensures exact { TellsCause (check_pair T.codec first second bytes.now) result }
    ensures spelled { IfOk result (λ at. (at ≤ length bytes.now)
        × IsTable T.codec first (take at bytes.now) × IsTable T.codec second (drop at bytes.now)) }
{
    let span = check_family::<T>(bytes, first)?;
    let (_, rest) = bytes.split_at(span.len);
    check_single::<T>(rest, second)?;
    Ok(span.len)
}
