// Two live tables, one of each family.
ghost use Rattle.std.specs.Prelude.{◌≡◌, ◌↔◌, [], ◌∷◌, IsTrue, OnOk};
ghost use Rattle.prefix_model.specs.Building.{insert_all};
ghost use Rattle.prefix_text.specs.Forms.{Fits};
ghost use Rattle.prefix_app.specs.Endings.{Makes};
ghost use Rattle.prefix_app.specs.Outcome.{first_entries, second_entries, writes};

use crate::ending::Ending;
use either::{Left, Right};
use prefix_layout::ArchiveError;
use prefix_map::PrefixMap;
use prefix_text::EitherPrefix;
use prefix_to_bytes::ToBytes;
use std::alloc::{AllocError, Global};

/// A table of 32 bits.
pub(crate) type First = PrefixMap<(u32, u8), u32>;

/// A table of 128 bits.
pub(crate) type Second = PrefixMap<(u128, u8), u32>;

/// Stores an entry in the table of its family.
pub(crate) fn store(
    first: &mut First,
    second: &mut Second,
    prefix: EitherPrefix,
    value: u32,
) -> Result<(), AllocError>
    requires { Fits prefix }
    ensures first { OnOk result (first.new.entries
        ≡ insert_all first.old.entries (first_entries ((prefix, value) ∷ []))) }
    ensures second { OnOk result (second.new.entries
        ≡ insert_all second.old.entries (second_entries ((prefix, value) ∷ []))) }
{
    match prefix {
        Left(prefix) => match first.insert(prefix, value) {
            Ok(_) => Ok(()),
            Err(_) => Err(AllocError),
        },
        Right(prefix) => match second.insert(prefix, value) {
            Ok(_) => Ok(()),
            Err(_) => Err(AllocError),
        },
    }
}

/// The archive of both tables. Too many positions in either are told before too many entries.
pub(crate) fn write(alloc: Global, first: &First, second: &Second) -> Result<Vec<u8>, Ending>
    ensures { Makes (writes first.now.entries second.now.entries) result }
{
    let rest = second.to_bytes(alloc);
    match first.to_bytes(alloc) {
        Ok(mut bytes) => match rest {
            Ok(rest) => {
                bytes.extend_from_slice(&rest)?;
                Ok(bytes)
            }
            Err(error) => Err(Ending::Archive(error)),
        },
        Err(error) => {
            if is_for_entries(error) {
                match rest {
                    Ok(_) => Err(Ending::Archive(error)),
                    Err(other) => Err(Ending::Archive(other)),
                }
            } else {
                Err(Ending::Archive(error))
            }
        }
    }
}

/// Whether the error tells of too many entries.
fn is_for_entries(error: ArchiveError) -> bool
    ensures { IsTrue result ↔ (error ≡ ArchiveError.DataIndexOverflow) }
{
    match error {
        ArchiveError::DataIndexOverflow => true,
        _ => false,
    }
}
