//! The archives of live maps and sets, of one family and of two.
#![tactic(auto)]

mod pair;

ghost use Rattle.std.specs.Prelude.{◌≡◌, ◌↔◌, ◌^◌, ◌<◌, ◌≤◌, ◌++◌, ℕ, List, Err, IfOk, OnErr, length, max};
ghost use Rattle.std.specs.FinMap as map;
ghost use Rattle.prefix_model.specs.Positions.{positions_in};
ghost use Rattle.prefix_model.specs.Spelling.{spelling, unit_codec};
ghost use Rattle.prefix_layout.specs.Errors.{IsWriteError};

use pair::write_pair;
use prefix_joint::{JointPrefixBits, JointPrefixMap};
use prefix_joint_set::JointPrefixSet;
use prefix_layout::{ArchiveError, ValueCodec, write_family};
use prefix_map::{PrefixMap, PrefixSet};
use prefix_table::PrefixBits;
use std::alloc::Global;

/// What has an archive: a live map or set, of one family or of two.
pub trait ToBytes {
    // The bytes of the archive.
    ghost archive: { Self → List ℕ };

    // How many positions the family with the most of them has, and how many entries the one with the most of those.
    ghost positions: { Self → ℕ };

    ghost entries: { Self → ℕ };

    /// The archive, in which only the positions of entries are written.
    ///
    /// Refuses 2^32 or more positions in a family, then 2^32 or more entries in one, then for want of memory.
    fn to_bytes(&self, alloc: Global) -> Result<Vec<u8>, ArchiveError>
        ensures archive { IfOk result (λ bytes. bytes.items ≡ archive self.now) }
        ensures nodes { (result ≡ Err ArchiveError.NodeIndexOverflow) ↔ (2 ^ 32 ≤ positions self.now) }
        ensures values { (result ≡ Err ArchiveError.DataIndexOverflow)
            ↔ ((positions self.now < 2 ^ 32) × (2 ^ 32 ≤ entries self.now)) }
        ensures causes { OnErr result (IsWriteError result) };
}

impl<P: PrefixBits, T: ValueCodec> ToBytes for PrefixMap<P, T> {
    ghost archive = { λ m. spelling T.codec m.entries };

    ghost positions = { λ m. length (positions_in m.entries) };

    ghost entries = { λ m. map.len m.entries };

    fn to_bytes(&self, alloc: Global) -> Result<Vec<u8>, ArchiveError> {
        let mut bytes = Vec::new(alloc);
        match write_family(alloc, self.table(), &mut bytes) {
            Ok(()) => Ok(bytes),
            Err(error) => Err(error),
        }
    }
}

impl<P: PrefixBits> ToBytes for PrefixSet<P> {
    ghost archive = { λ m. spelling unit_codec m.entries };

    ghost positions = { λ m. length (positions_in m.entries) };

    ghost entries = { λ m. map.len m.entries };

    fn to_bytes(&self, alloc: Global) -> Result<Vec<u8>, ArchiveError> {
        self.as_map().to_bytes(alloc)
    }
}

impl<P: JointPrefixBits, T: ValueCodec> ToBytes for JointPrefixMap<P, T> {
    ghost archive = { λ m. spelling T.codec m.t1.entries ++ spelling T.codec m.t2.entries };

    ghost positions = { λ m. max (length (positions_in m.t1.entries)) (length (positions_in m.t2.entries)) };

    ghost entries = { λ m. max (map.len m.t1.entries) (map.len m.t2.entries) };

    fn to_bytes(&self, alloc: Global) -> Result<Vec<u8>, ArchiveError> {
        write_pair(alloc, self.t1.table(), self.t2.table())
    }
}

impl<P: JointPrefixBits> ToBytes for JointPrefixSet<P> {
    ghost archive = { λ m. spelling unit_codec m.t1.entries ++ spelling unit_codec m.t2.entries };

    ghost positions = { λ m. max (length (positions_in m.t1.entries)) (length (positions_in m.t2.entries)) };

    ghost entries = { λ m. max (map.len m.t1.entries) (map.len m.t2.entries) };

    fn to_bytes(&self, alloc: Global) -> Result<Vec<u8>, ArchiveError> {
        write_pair(alloc, self.t1.as_map().table(), self.t2.as_map().table())
    }
}
