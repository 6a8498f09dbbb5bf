// The archive of the least tables of those that an archive spells.
ghost use Rattle.std.specs.Prelude.{◌≡◌, ◌⊎◌, ◌↔◌, ◌^◌, ◌<◌, ◌++◌, Ok, Err, IsOk, OnOk, IfOk, IfErr};
ghost use Rattle.std.specs.FinMap as map;
ghost use Rattle.std.proofs.lemmas.Map.Lookups.{CmpEqualImpliesEq};
ghost use Rattle.prefix_model.specs.declared.Cause.{Cause};
ghost use Rattle.prefix_model.specs.LeastTable.{least_table};
ghost use Rattle.prefix_model.specs.Spelling.{spelling};
ghost use Rattle.prefix_model.specs.FirstCause.{check_pair};
ghost use Rattle.prefix_layout.specs.Errors.{error_of};
ghost use Rattle.prefix_joint_archive.specs.Compacting.{HasRoom, IsFull, IsCompacted, SpellsLeast, LacksRoom, Compacts};

use crate::map::ArchivedJointPrefixMap;
use prefix_archive::ArchivedPrefixMap;
use prefix_joint::{JointPrefixBits, JointPrefixMap};
use prefix_layout::{ArchiveError, ValueCodec};
use prefix_map::PrefixMap;
use prefix_table::PrefixBits;
use prefix_to_bytes::ToBytes;
use std::alloc::Global;

/// The archive of two tables with the same answers and the fewest entries.
///
/// The bytes spell two tables, of the widths of both families, and the output spells the least table of each.
/// Refuses what spells no two tables, by the first cause; and then a least table of 2^32 or more positions, or for
/// want of memory.
pub fn compact_archive<P: JointPrefixBits, T: ValueCodec + Clone + Drop>(
    alloc: Global,
    bytes: &[u8],
) -> Result<Vec<u8>, ArchiveError>
    // The order of values is lawful: values that tie are equal (it is total as every `Ord`), and a clone equals its source.
    requires order { CmpEqualImpliesEq T.cmp }
    requires clones { (x y : T) → T.is_clone x y → y ≡ x }

    ensures least { IfOk result (λ output. SpellsLeast T.codec T.cmp P.P1.R.WIDTH P.P2.R.WIDTH bytes.now output.items) }
    ensures fewest { IfOk result (λ output. IsCompacted T.codec P.P1.R.WIDTH P.P2.R.WIDTH bytes.now output.items) }
    ensures refused { (cause : Cause) → (result ≡ Err (error_of cause))
        ↔ (check_pair T.codec P.P1.R.WIDTH P.P2.R.WIDTH bytes.now ≡ Err cause) }
    ensures full { result ≡ Err ArchiveError.NodeIndexOverflow
        → LacksRoom T.codec T.cmp P.P1.R.WIDTH P.P2.R.WIDTH bytes.now }
    ensures lacks_room { LacksRoom T.codec T.cmp P.P1.R.WIDTH P.P2.R.WIDTH bytes.now
        → (result ≡ Err ArchiveError.NodeIndexOverflow) ⊎ (result ≡ Err ArchiveError.OutOfMemory) }
    ensures served { check_pair T.codec P.P1.R.WIDTH P.P2.R.WIDTH bytes.now ≡ Ok tt → IsOk result
        ⊎ ((result ≡ Err ArchiveError.NodeIndexOverflow) ⊎ (result ≡ Err ArchiveError.OutOfMemory)) }
    ensures values { result ≡ Err ArchiveError.DataIndexOverflow → ⊥ }
    ensures memory { result ≡ Err ArchiveError.OutOfMemory
        → check_pair T.codec P.P1.R.WIDTH P.P2.R.WIDTH bytes.now ≡ Ok tt }
{
    compact_maps::<P, T>(alloc, bytes)
}

/// The archive of the least maps of the two that the bytes spell.
fn compact_maps<P: JointPrefixBits, T: ValueCodec + Clone + Drop>(
    alloc: Global,
    bytes: &[u8],
) -> Result<Vec<u8>, ArchiveError>
    requires order { CmpEqualImpliesEq T.cmp }
    requires clones { (x y : T) → T.is_clone x y → y ≡ x }
    ensures { Compacts T.codec T.cmp P.P1.R.WIDTH P.P2.R.WIDTH bytes.now result }
{
    let archive = ArchivedJointPrefixMap::<P, T>::access(bytes)?;
    let Ok(first) = least_of(alloc, &archive.t1) else {
        return Err(ArchiveError::OutOfMemory);
    };
    let Ok(second) = least_of(alloc, &archive.t2) else {
        return Err(ArchiveError::OutOfMemory);
    };
    write_maps::<P, T>(alloc, first, second)
}

/// The least map of the archived one. The only error is want of memory.
fn least_of<'a, P: PrefixBits, T: ValueCodec + Clone + Drop>(
    alloc: Global,
    archive: &ArchivedPrefixMap<'a, P, T>,
) -> Result<PrefixMap<P, T>, ArchiveError>
    requires order { CmpEqualImpliesEq T.cmp }
    requires clones { (x y : T) → T.is_clone x y → y ≡ x }
    ensures least { IfOk result (λ least. least.entries ≡ least_table T.cmp P.R.WIDTH archive.now.table.entries) }
    ensures error { IfErr result (λ e. e ≡ ArchiveError.OutOfMemory) }
{
    let mut map = archive.deserialize(alloc)?;
    match map.aggregate() {
        Ok(()) => Ok(map),
        Err(_) => Err(ArchiveError::OutOfMemory),
    }
}

/// The archive of two maps of few entries.
fn write_maps<P: JointPrefixBits, T: ValueCodec + Drop>(
    alloc: Global,
    t1: PrefixMap<P::P1, T>,
    t2: PrefixMap<P::P2, T>,
) -> Result<Vec<u8>, ArchiveError>
    requires first { map.len t1.entries < 2 ^ 32 }
    requires second { map.len t2.entries < 2 ^ 32 }
    ensures whole { IfOk result (λ output. output.items
        ≡ spelling T.codec t1.entries ++ spelling T.codec t2.entries) }
    ensures room { OnOk result (HasRoom t1.entries × HasRoom t2.entries) }
    ensures ends { IfErr result (λ e. ((e ≡ ArchiveError.NodeIndexOverflow)
        × (IsFull t1.entries ⊎ IsFull t2.entries)) ⊎ (e ≡ ArchiveError.OutOfMemory)) }
{
    let least = JointPrefixMap::<P, T> { t1, t2 };
    least.to_bytes(alloc)
}
