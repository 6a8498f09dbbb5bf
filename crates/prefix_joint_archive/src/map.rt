//! Archives of two families as they lie in memory.
mod matches;
mod walks;

ghost use Rattle.std.specs.Prelude.{◌≡◌, ◌+◌, ⊤, IsTrue, ◌↔◌, IfOk, IfErr, IfSome, is_some};
ghost use Rattle.std.specs.Option.{option_map};
ghost use Rattle.std.specs.FinMap as map;
ghost use Rattle.either.specs.Either.{map_either};
ghost use Rattle.prefix_model.specs.FirstCause.{check_pair};
ghost use Rattle.prefix_model.specs.Positions.{position_set};
ghost use Rattle.prefix_model.specs.Spelling.{SpellsPair};
ghost use Rattle.prefix_joint_walks.specs.Joint.{Fits, HasZeroHostBits, value_at};
ghost use Rattle.prefix_archive.specs.Causes.{TellsCause};
ghost use Rattle.prefix_joint_archive.specs.Families.{pair_of};

use crate::families::check_both;
use either::{Left, Right};
use prefix_archive::{ArchivedPrefixMap, ArchivedValue};
use prefix_joint::{JointPrefixBits, JointPrefixMap};
pub use prefix_joint_archive_walks::cover::{Cover, CoverKeys, CoverValues};
pub use prefix_joint_archive_walks::iter::{Iter, Keys, Values};
use prefix_joint_archive_walks::prefixes::{of_first, of_second};
use prefix_layout::{ArchiveError, ValueCodec};
use prefix_table::{Bits, PrefixBits};
use std::alloc::{AllocError, Global};

/// Two maps, of the prefixes of both families, that are read from the bytes of their archive.
///
/// A question with a prefix asks the map of its family. Prefixes that are answered have zero host bits.
pub struct ArchivedJointPrefixMap<'a, P: JointPrefixBits, T: ValueCodec> {
    /// The map of the first family.
    pub t1: ArchivedPrefixMap<'a, P::P1, T>,
    /// The map of the second family.
    pub t2: ArchivedPrefixMap<'a, P::P2, T>,
}

impl<'a, P: JointPrefixBits, T: ValueCodec> Clone for ArchivedJointPrefixMap<'a, P, T> {
    ghost is_clone = { λ old new. new ≡ old };

    ghost is_infallible = { λ _. ⊤ };

    fn clone(&self) -> Result<ArchivedJointPrefixMap<'a, P, T>, AllocError> {
        Ok(*self)
    }
}

impl<'a, P: JointPrefixBits, T: ValueCodec> Copy for ArchivedJointPrefixMap<'a, P, T> {}

impl<'a, P: JointPrefixBits, T: ValueCodec> ArchivedJointPrefixMap<'a, P, T> {
    /// The maps whose archive the bytes are, one after the other with nothing behind, or else the first cause.
    /// Takes no memory.
    pub fn access(bytes: &'a [u8]) -> Result<ArchivedJointPrefixMap<'a, P, T>, ArchiveError>
        ensures exact { TellsCause (check_pair T.codec P.P1.R.WIDTH P.P2.R.WIDTH bytes.now) result }
        ensures spelled { IfOk result (λ archive. SpellsPair T.codec P.P1.R.WIDTH P.P2.R.WIDTH bytes.now
            archive.t1.table.entries archive.t2.table.entries) }
    {
        let first = <P::P1 as PrefixBits>::R::WIDTH;
        let second = <P::P2 as PrefixBits>::R::WIDTH;
        let at = check_both::<T>(bytes, first, second)?;
        let (front, rest) = bytes.split_at(at);
        Ok(ArchivedJointPrefixMap {
            t1: ArchivedPrefixMap::over(front),
            t2: ArchivedPrefixMap::over(rest),
        })
    }

    /// The number of entries of both families.
    pub fn len(&self) -> usize
        ensures { result ≡ map.len self.now.t1.table.entries + map.len self.now.t2.table.entries }
    {
        self.t1.len() + self.t2.len()
    }

    /// Whether neither family has an entry.
    pub fn is_empty(&self) -> bool
        ensures { IsTrue result ↔ (map.len self.now.t1.table.entries + map.len self.now.t2.table.entries ≡ 0) }
    {
        self.len() == 0
    }

    /// The value at a prefix; `None` where the prefix is not stored.
    pub fn get(&self, prefix: &P) -> Option<ArchivedValue<'a, T>>
        requires { Fits P.P1.R.WIDTH P.P1.PrefixKey P.P2.R.WIDTH P.P2.PrefixKey (P.prefix prefix.now) }
        ensures { option_map (λ v. v.spelling.value) result
            ≡ value_at (pair_of self.now.t1.table.entries self.now.t2.table.entries) (map_either P.P1.key P.P2.key (P.prefix prefix.now)) }
    {
        match prefix.p1_or_p2_ref() {
            Left(p) => self.t1.get(p),
            Right(p) => self.t2.get(p),
        }
    }

    /// A prefix that is stored, with host bits zero, and its value; `None` where it is not stored.
    pub fn get_key_value(&self, prefix: &P) -> Option<(P, ArchivedValue<'a, T>)>
        requires { Fits P.P1.R.WIDTH P.P1.PrefixKey P.P2.R.WIDTH P.P2.PrefixKey (P.prefix prefix.now) }
        ensures value { option_map (λ e. e.1.spelling.value) result
            ≡ value_at (pair_of self.now.t1.table.entries self.now.t2.table.entries) (map_either P.P1.key P.P2.key (P.prefix prefix.now)) }
        ensures key { IfSome result (λ e. map_either P.P1.key P.P2.key (P.prefix e.0) ≡ map_either P.P1.key P.P2.key (P.prefix prefix.now)) }
        ensures host_bits { IfSome result (λ e. HasZeroHostBits P.P1.R.WIDTH P.P1.PrefixKey P.P2.R.WIDTH P.P2.PrefixKey (P.prefix e.0)) }
    {
        match prefix.p1_or_p2_ref() {
            Left(p) => {
                let (key, value) = self.t1.get_key_value(p)?;
                Some((of_first(&key), value))
            }
            Right(p) => {
                let (key, value) = self.t2.get_key_value(p)?;
                Some((of_second(&key), value))
            }
        }
    }

    /// Whether a prefix is stored.
    pub fn contains_key(&self, prefix: &P) -> bool
        requires { Fits P.P1.R.WIDTH P.P1.PrefixKey P.P2.R.WIDTH P.P2.PrefixKey (P.prefix prefix.now) }
        ensures { result ≡ is_some (value_at (pair_of self.now.t1.table.entries self.now.t2.table.entries)
            (map_either P.P1.key P.P2.key (P.prefix prefix.now))) }
    {
        self.get(prefix).is_some()
    }
}

impl<'a, P: JointPrefixBits, T: ValueCodec + Drop> ArchivedJointPrefixMap<'a, P, T> {
    /// The map that the bytes spell, with its positions kept. The only error is want of memory.
    pub fn deserialize(&self, alloc: Global) -> Result<JointPrefixMap<P, T>, ArchiveError>
        ensures entries { IfOk result (λ m. (m.t1.entries ≡ self.now.t1.table.entries) × (m.t2.entries ≡ self.now.t2.table.entries)) }
        ensures kept { IfOk result (λ m. (m.t1.kept ≡ position_set self.now.t1.table.entries)
            × (m.t2.kept ≡ position_set self.now.t2.table.entries)) }
        ensures error { IfErr result (λ e. e ≡ ArchiveError.OutOfMemory) }
    {
        let t1 = self.t1.deserialize(alloc)?;
        let t2 = self.t2.deserialize(alloc)?;
        Ok(JointPrefixMap { t1, t2 })
    }
}

impl<'a, P: JointPrefixBits, T: ValueCodec> PartialEq for ArchivedJointPrefixMap<'a, P, T> {
    ghost use Rattle.std.specs.Prelude.{◌≡◌, ◌==◌, IsTrue, ◌↔◌};
    ghost use Rattle.std.specs.Cmp.Lexicographic.{pointwise};
    ghost use Rattle.std.specs.Cmp.Rules.{comparing};
    ghost use Rattle.std.specs.Ordering.{on, eq_of_both};
    ghost use Rattle.std.proofs.Common.{rules};

    ghost eq = { eq_of_both
        (eq_of_both (on (λ a. a.t1.nodes.bytes.now) (pointwise ◌==◌))
        (eq_of_both (on (λ a. a.t1.values.bytes.now) (pointwise ◌==◌)) (on (λ a. a.t1.values.len) ◌==◌)))
        (eq_of_both (on (λ a. a.t2.nodes.bytes.now) (pointwise ◌==◌))
        (eq_of_both (on (λ a. a.t2.values.bytes.now) (pointwise ◌==◌)) (on (λ a. a.t2.values.len) ◌==◌))) };

    ghost laws = { Prim.search (comparing, rules) depth 9 };

    fn eq(&self, other: &Self) -> bool
        ensures bytes { result ≡ eq_of_both
            (eq_of_both (on (λ a. a.t1.nodes.bytes.now) (pointwise ◌==◌))
            (eq_of_both (on (λ a. a.t1.values.bytes.now) (pointwise ◌==◌)) (on (λ a. a.t1.values.len) ◌==◌)))
            (eq_of_both (on (λ a. a.t2.nodes.bytes.now) (pointwise ◌==◌))
            (eq_of_both (on (λ a. a.t2.values.bytes.now) (pointwise ◌==◌)) (on (λ a. a.t2.values.len) ◌==◌)))
            self.now other.now }
        ensures tables { IsTrue result ↔ ((self.now.t1.table.entries ≡ other.now.t1.table.entries)
            × (self.now.t2.table.entries ≡ other.now.t2.table.entries)) }
    {
        self.t1 == other.t1 && self.t2 == other.t2
    }
}

impl<'a, P: JointPrefixBits, T: ValueCodec> Eq for ArchivedJointPrefixMap<'a, P, T> {
    ghost use Rattle.std.specs.Cmp.Rules.{comparing};
    ghost use Rattle.std.proofs.Common.{rules};

    ghost laws = { Prim.search (comparing, rules) depth 9 };
}
