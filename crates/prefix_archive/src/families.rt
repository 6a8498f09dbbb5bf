//! Bytes of one table with nothing behind.
ghost use Rattle.std.specs.Prelude.{◌≤◌, OnOk};
ghost use Rattle.prefix_model.specs.FirstCause.{check_alone};
ghost use Rattle.prefix_archive.specs.Causes.{TellsCause, IsTable};

use prefix_layout::{ArchiveError, ValueCodec, check_family};

/// Whether the bytes spell one table of this width (in bits) and nothing more, or else the first cause.
pub fn check_single<T: ValueCodec>(bytes: &[u8], width: u32) -> Result<(), ArchiveError>
    requires { width ≤ 128 }
    ensures exact { TellsCause (check_alone T.codec width bytes.now) result }
    ensures spelled { OnOk result (IsTable T.codec width bytes.now) }
{
    let span = check_family::<T>(bytes, width)?;
    if span.len < bytes.len() {
        return Err(ArchiveError::TrailingBytes);
    }
    Ok(())
}
