//! Two tables, one after the other.
ghost use Rattle.std.specs.Prelude.{◌≡◌, ◌↔◌, ◌⊎◌, ◌^◌, ◌<◌, ◌≤◌, ◌++◌, Ok, Err, IfOk, IsTrue, OnErr, OnOk, length, max};
ghost use Rattle.std.specs.FinMap as map;
ghost use Rattle.prefix_model.specs.Positions.{positions_in};
ghost use Rattle.prefix_model.specs.Spelling.{spelling};
ghost use Rattle.prefix_layout.specs.Errors.{IsWriteError};

use prefix_layout::{ArchiveError, ValueCodec, write_family};
use prefix_table::Table;
use std::alloc::Global;

/// Whether a family has too many positions.
fn has_many_nodes(written: &Result<(), ArchiveError>) -> bool
    ensures { IsTrue result ↔ (written.now ≡ Err ArchiveError.NodeIndexOverflow) }
{
    match written {
        Err(ArchiveError::NodeIndexOverflow) => true,
        _ => false,
    }
}

/// Whether a family has too many entries.
fn has_many_values(written: &Result<(), ArchiveError>) -> bool
    ensures { IsTrue result ↔ (written.now ≡ Err ArchiveError.DataIndexOverflow) }
{
    match written {
        Err(ArchiveError::DataIndexOverflow) => true,
        _ => false,
    }
}

/// What is answered where one family was written so, and the other so.
fn both_written(
    first: Result<(), ArchiveError>,
    second: Result<(), ArchiveError>,
) -> Result<(), ArchiveError>
    requires first { OnErr first (IsWriteError first) }
    requires second { OnErr second (IsWriteError second) }
    ensures nodes { (result ≡ Err ArchiveError.NodeIndexOverflow)
        ↔ ((first ≡ Err ArchiveError.NodeIndexOverflow) ⊎ (second ≡ Err ArchiveError.NodeIndexOverflow)) }
    ensures values { (result ≡ Err ArchiveError.DataIndexOverflow)
        ↔ (¬ (first ≡ Err ArchiveError.NodeIndexOverflow) × ¬ (second ≡ Err ArchiveError.NodeIndexOverflow)
        × ((first ≡ Err ArchiveError.DataIndexOverflow) ⊎ (second ≡ Err ArchiveError.DataIndexOverflow))) }
    ensures ok { OnOk result ((first ≡ Ok tt) × (second ≡ Ok tt)) }
    ensures causes { OnErr result (IsWriteError result) }
{
    if has_many_nodes(&first) {
        return first;
    }
    if has_many_nodes(&second) {
        return second;
    }
    if has_many_values(&first) {
        return first;
    }
    if has_many_values(&second) {
        return second;
    }
    match first {
        Ok(()) => second,
        Err(error) => Err(error),
    }
}

/// The spelling of two tables, one after the other. Refuses as
/// [`ToBytes::to_bytes`](crate::ToBytes::to_bytes).
pub(crate) fn write_pair<T: ValueCodec>(
    alloc: Global,
    first: &Table<T>,
    second: &Table<T>,
) -> Result<Vec<u8>, ArchiveError>
    ensures archive { IfOk result (λ bytes. bytes.items ≡ spelling T.codec first.now.entries ++ spelling T.codec second.now.entries) }
    ensures nodes { (result ≡ Err ArchiveError.NodeIndexOverflow)
        ↔ (2 ^ 32 ≤ max (length (positions_in first.now.entries)) (length (positions_in second.now.entries))) }
    ensures values { (result ≡ Err ArchiveError.DataIndexOverflow)
        ↔ ((max (length (positions_in first.now.entries)) (length (positions_in second.now.entries)) < 2 ^ 32)
        × (2 ^ 32 ≤ max (map.len first.now.entries) (map.len second.now.entries))) }
    ensures causes { OnErr result (IsWriteError result) }
{
    let mut bytes = Vec::new(alloc);
    let front = write_family(alloc, first, &mut bytes);
    let rest = write_family(alloc, second, &mut bytes);
    match both_written(front, rest) {
        Ok(()) => Ok(bytes),
        Err(error) => Err(error),
    }
}
