//! Archives of sets over two address families.
#![tactic(auto)]

ghost use Rattle.std.specs.Prelude.{◌≡◌, ◌==◌, ◌+◌, ⊤, IsTrue, IsSome, ◌↔◌, IfOk, IfErr, IfSome, is_some, slice_get};
ghost use Rattle.std.specs.Cmp.Lexicographic.{pointwise};
ghost use Rattle.std.specs.Cmp.Rules.{comparing};
ghost use Rattle.std.specs.Ordering.{on, eq_of_both};
ghost use Rattle.std.proofs.Common.{rules};
ghost use Rattle.std.specs.Option.{option_map};
ghost use Rattle.std.specs.FinMap as map;
ghost use Rattle.either.specs.Either.{MatchEither, map_either};
ghost use Rattle.prefix_model.specs.Counts.{Counts};
ghost use Rattle.prefix_model.specs.Coverage.{IsCovered};
ghost use Rattle.prefix_model.specs.FirstCause.{check_pair};
ghost use Rattle.prefix_model.specs.Positions.{position_set};
ghost use Rattle.prefix_model.specs.Spelling.{SpellsPair, unit_codec};
ghost use Rattle.prefix_model.specs.Tables.{answer};
ghost use Rattle.prefix_joint_walks.specs.Joint.{Fits, HasZeroHostBits, IsLongestAt, joint_covers, joint_entries, joint_fronts, joint_walk, joint_walk_from, shortest_at, value_at};
ghost use Rattle.prefix_archive.specs.Causes.{TellsCause};
ghost use Rattle.prefix_joint_archive.specs.Families.{pair_of};

use prefix_archive::ArchivedPrefixSet;
use prefix_joint::{JointPrefix, JointPrefixBits};
use prefix_joint_archive::ArchivedJointPrefixMap;
pub use prefix_joint_archive::map::{CoverKeys, Keys};
use prefix_joint_archive_walks::JointRest;
use prefix_joint_set::JointPrefixSet;
use prefix_layout::ArchiveError;
use prefix_table::Prefix;
use std::alloc::{AllocError, Global};

/// Two sets, of the prefixes of both families, that are read from the bytes of their archive.
///
/// A question with a prefix asks the set of its family. Members that are answered have zero host bits.
pub struct ArchivedJointPrefixSet<'a, P: JointPrefixBits> {
    /// The set of the first family.
    pub t1: ArchivedPrefixSet<'a, P::P1>,
    /// The set of the second family.
    pub t2: ArchivedPrefixSet<'a, P::P2>,
}

impl<'a, P: JointPrefixBits> Clone for ArchivedJointPrefixSet<'a, P> {
    ghost is_clone = { λ old new. new ≡ old };

    ghost is_infallible = { λ _. ⊤ };

    fn clone(&self) -> Result<ArchivedJointPrefixSet<'a, P>, AllocError> {
        Ok(*self)
    }
}

impl<'a, P: JointPrefixBits> Copy for ArchivedJointPrefixSet<'a, P> {}

impl<'a, P: JointPrefixBits> ArchivedJointPrefixSet<'a, P> {
    /// The sets whose archive the bytes are, one after the other with nothing behind, or else the first cause.
    /// Takes no memory.
    pub fn access(bytes: &'a [u8]) -> Result<ArchivedJointPrefixSet<'a, P>, ArchiveError>
        ensures exact { TellsCause (check_pair unit_codec P.P1.R.WIDTH P.P2.R.WIDTH bytes.now) result }
        ensures spelled { IfOk result (λ archive. SpellsPair unit_codec P.P1.R.WIDTH P.P2.R.WIDTH bytes.now
            archive.t1.map.table.entries archive.t2.map.table.entries) }
    {
        match ArchivedJointPrefixMap::<P, ()>::access(bytes) {
            Ok(maps) => Ok(ArchivedJointPrefixSet {
                t1: ArchivedPrefixSet { map: maps.t1 },
                t2: ArchivedPrefixSet { map: maps.t2 },
            }),
            Err(error) => Err(error),
        }
    }

    /// The maps to `()` that the sets are.
    fn as_map(&self) -> ArchivedJointPrefixMap<'a, P, ()>
        ensures t1 { result.t1 ≡ self.now.t1.map }
        ensures t2 { result.t2 ≡ self.now.t2.map }
    {
        ArchivedJointPrefixMap {
            t1: self.t1.map,
            t2: self.t2.map,
        }
    }

    /// The number of members of both families.
    pub fn len(&self) -> usize
        ensures { result ≡ map.len self.now.t1.map.table.entries + map.len self.now.t2.map.table.entries }
    {
        self.t1.len() + self.t2.len()
    }

    /// Whether neither family has a member.
    pub fn is_empty(&self) -> bool
        ensures { IsTrue result ↔ (map.len self.now.t1.map.table.entries + map.len self.now.t2.map.table.entries ≡ 0) }
    {
        self.len() == 0
    }

    /// Whether a prefix is a member.
    pub fn contains(&self, prefix: &P) -> bool
        requires { Fits P.P1.R.WIDTH P.P1.PrefixKey P.P2.R.WIDTH P.P2.PrefixKey (P.prefix prefix.now) }
        ensures { result ≡ is_some (value_at (pair_of self.now.t1.map.table.entries self.now.t2.map.table.entries)
            (map_either P.P1.key P.P2.key (P.prefix prefix.now))) }
    {
        self.as_map().contains_key(prefix)
    }

    /// A prefix that is a member, with host bits zero; `None` where it is none.
    pub fn get(&self, prefix: &P) -> Option<P>
        requires { Fits P.P1.R.WIDTH P.P1.PrefixKey P.P2.R.WIDTH P.P2.PrefixKey (P.prefix prefix.now) }
        ensures found { IsSome result ↔ IsSome (value_at (pair_of self.now.t1.map.table.entries self.now.t2.map.table.entries)
            (map_either P.P1.key P.P2.key (P.prefix prefix.now))) }
        ensures key { IfSome result (λ p. map_either P.P1.key P.P2.key (P.prefix p) ≡ map_either P.P1.key P.P2.key (P.prefix prefix.now)) }
        ensures host_bits { IfSome result (λ p. HasZeroHostBits P.P1.R.WIDTH P.P1.PrefixKey P.P2.R.WIDTH P.P2.PrefixKey (P.prefix p)) }
    {
        match self.as_map().get_key_value(prefix) {
            Some((found, _)) => Some(found),
            None => None,
        }
    }

    /// The longest member that contains a prefix or is it, with host bits zero; `None` where there is none.
    pub fn get_lpm(&self, prefix: &P) -> Option<P>
        requires { Fits P.P1.R.WIDTH P.P1.PrefixKey P.P2.R.WIDTH P.P2.PrefixKey (P.prefix prefix.now) }
        ensures longest { IsLongestAt (pair_of self.now.t1.map.table.entries self.now.t2.map.table.entries)
            (map_either P.P1.key P.P2.key (P.prefix prefix.now)) (option_map (λ p. map_either P.P1.key P.P2.key (P.prefix p)) result) }
        ensures host_bits { IfSome result (λ p. HasZeroHostBits P.P1.R.WIDTH P.P1.PrefixKey P.P2.R.WIDTH P.P2.PrefixKey (P.prefix p)) }
    {
        self.as_map().get_lpm_prefix(prefix)
    }

    /// The shortest member that contains a prefix or is it, with host bits zero; `None` where there is none.
    pub fn get_spm(&self, prefix: &P) -> Option<P>
        requires { Fits P.P1.R.WIDTH P.P1.PrefixKey P.P2.R.WIDTH P.P2.PrefixKey (P.prefix prefix.now) }
        ensures first { option_map (λ p. map_either P.P1.key P.P2.key (P.prefix p)) result
            ≡ option_map (λ e. e.0) (shortest_at (pair_of self.now.t1.map.table.entries self.now.t2.map.table.entries)
            (map_either P.P1.key P.P2.key (P.prefix prefix.now))) }
        ensures host_bits { IfSome result (λ p. HasZeroHostBits P.P1.R.WIDTH P.P1.PrefixKey P.P2.R.WIDTH P.P2.PrefixKey (P.prefix p)) }
    {
        self.as_map().get_spm_prefix(prefix)
    }

    /// Whether some member contains a prefix or is it.
    pub fn is_covered(&self, prefix: &P) -> bool
        requires { Fits P.P1.R.WIDTH P.P1.PrefixKey P.P2.R.WIDTH P.P2.PrefixKey (P.prefix prefix.now) }
        ensures { IsTrue result ↔ IsSome (slice_get (joint_fronts (pair_of self.now.t1.map.table.entries self.now.t2.map.table.entries)
            (map_either P.P1.key P.P2.key (P.prefix prefix.now))) 0) }
    {
        self.as_map().is_covered(prefix)
    }

    /// Whether every address that begins with the prefix's key begins with a member.
    pub fn is_covered_in_aggregate(&self, prefix: &P) -> bool
        requires { Fits P.P1.R.WIDTH P.P1.PrefixKey P.P2.R.WIDTH P.P2.PrefixKey (P.prefix prefix.now) }
        ensures { IsTrue result ↔ MatchEither (P.prefix prefix.now) (λ p. IsCovered P.P1.R.WIDTH self.now.t1.map.table.entries (P.P1.key p))
            (λ p. IsCovered P.P2.R.WIDTH self.now.t2.map.table.entries (P.P2.key p)) }
    {
        self.as_map().is_covered_in_aggregate(prefix)
    }

    /// The members, with zero host bits: those of the first family, and then those of the second, each in key order.
    pub fn iter(&self) -> Keys<'a, P, ()>
        ensures { ⟦<Keys<'a, P, ()> as JointRest>⟧.left result
            ≡ joint_entries (pair_of self.now.t1.map.table.entries self.now.t2.map.table.entries) }
    {
        self.as_map().keys()
    }

    /// The members that do not stand before the prefix, and its own only where `inclusive`. A prefix of the first family
    /// goes on through the whole second one; a prefix of the second gives no member of the first.
    pub fn iter_from(&self, prefix: &P, inclusive: bool) -> Keys<'a, P, ()>
        requires { Fits P.P1.R.WIDTH P.P1.PrefixKey P.P2.R.WIDTH P.P2.PrefixKey (P.prefix prefix.now) }
        ensures { ⟦<Keys<'a, P, ()> as JointRest>⟧.left result
            ≡ joint_walk_from self.now.t1.map.table.entries self.now.t2.map.table.entries (map_either P.P1.key P.P2.key (P.prefix prefix.now)) inclusive }
    {
        Keys::new(self.as_map().iter_from(prefix, inclusive))
    }

    /// The members whose keys begin with the prefix's key, its own among them, in key order.
    pub fn children(&self, prefix: &P) -> Keys<'a, P, ()>
        requires { Fits P.P1.R.WIDTH P.P1.PrefixKey P.P2.R.WIDTH P.P2.PrefixKey (P.prefix prefix.now) }
        ensures { ⟦<Keys<'a, P, ()> as JointRest>⟧.left result
            ≡ joint_walk self.now.t1.map.table.entries self.now.t2.map.table.entries (map_either P.P1.key P.P2.key (P.prefix prefix.now)) }
    {
        Keys::new(self.as_map().children(prefix))
    }

    /// The members whose keys the prefix's key begins with, its own among them, the shortest first.
    pub fn cover(&self, prefix: &P) -> CoverKeys<'a, P, ()>
        requires { Fits P.P1.R.WIDTH P.P1.PrefixKey P.P2.R.WIDTH P.P2.PrefixKey (P.prefix prefix.now) }
        ensures { ⟦<CoverKeys<'a, P, ()> as JointRest>⟧.left result
            ≡ joint_covers self.now.t1.map.table.entries self.now.t2.map.table.entries (map_either P.P1.key P.P2.key (P.prefix prefix.now)) }
    {
        self.as_map().cover_keys(prefix)
    }

    /// The set that the bytes spell, with its positions kept. The only error is want of memory.
    pub fn deserialize(&self, alloc: Global) -> Result<JointPrefixSet<P>, ArchiveError>
        ensures entries { IfOk result (λ set. (set.t1.entries ≡ self.now.t1.map.table.entries)
            × (set.t2.entries ≡ self.now.t2.map.table.entries)) }
        ensures kept { IfOk result (λ set. (set.t1.kept ≡ position_set self.now.t1.map.table.entries)
            × (set.t2.kept ≡ position_set self.now.t2.map.table.entries)) }
        ensures error { IfErr result (λ e. e ≡ ArchiveError.OutOfMemory) }
    {
        let t1 = self.t1.deserialize(alloc)?;
        let t2 = self.t2.deserialize(alloc)?;
        Ok(JointPrefixSet { t1, t2 })
    }
}

impl<'a, P: JointPrefixBits> PartialEq for ArchivedJointPrefixSet<'a, P> {
    ghost eq = { eq_of_both
        (eq_of_both (on (λ a. a.t1.map.nodes.bytes.now) (pointwise ◌==◌))
        (eq_of_both (on (λ a. a.t1.map.values.bytes.now) (pointwise ◌==◌)) (on (λ a. a.t1.map.values.len) ◌==◌)))
        (eq_of_both (on (λ a. a.t2.map.nodes.bytes.now) (pointwise ◌==◌))
        (eq_of_both (on (λ a. a.t2.map.values.bytes.now) (pointwise ◌==◌)) (on (λ a. a.t2.map.values.len) ◌==◌))) };

    ghost laws = { Prim.search (comparing, rules) depth 9 };

    fn eq(&self, other: &Self) -> bool
        ensures bytes { result ≡ eq_of_both
            (eq_of_both (on (λ a. a.t1.map.nodes.bytes.now) (pointwise ◌==◌))
            (eq_of_both (on (λ a. a.t1.map.values.bytes.now) (pointwise ◌==◌)) (on (λ a. a.t1.map.values.len) ◌==◌)))
            (eq_of_both (on (λ a. a.t2.map.nodes.bytes.now) (pointwise ◌==◌))
            (eq_of_both (on (λ a. a.t2.map.values.bytes.now) (pointwise ◌==◌)) (on (λ a. a.t2.map.values.len) ◌==◌)))
            self.now other.now }
        ensures tables { IsTrue result ↔ ((self.now.t1.map.table.entries ≡ other.now.t1.map.table.entries)
            × (self.now.t2.map.table.entries ≡ other.now.t2.map.table.entries)) }
    {
        self.t1 == other.t1 && self.t2 == other.t2
    }
}

impl<'a, P: JointPrefixBits> Eq for ArchivedJointPrefixSet<'a, P> {
    ghost laws = { Prim.search (comparing, rules) depth 9 };
}

impl<'a, 'b, P: JointPrefixBits + Drop> IntoIterator for &'b ArchivedJointPrefixSet<'a, P> {
    type Item = P;

    type IntoIter = Keys<'a, P, ()>;

    ghost into_iter_gives = { λ s it. ⟦<Keys<'a, P, ()> as JointRest>⟧.left it
        ≡ joint_entries (pair_of s.now.t1.map.table.entries s.now.t2.map.table.entries) };

    fn into_iter(self) -> Keys<'a, P, ()> {
        self.iter()
    }
}

impl<'a, P: JointPrefix> ArchivedJointPrefixSet<'a, P> {
    /// How many addresses of each family begin with a member; `None` where all do.
    pub fn address_count(&self) -> (Option<<P::P1 as Prefix>::R>, Option<<P::P2 as Prefix>::R>)
        ensures first { Counts P.P1.R.value P.P1.R.WIDTH (answer self.now.t1.map.table.entries) result.0 }
        ensures second { Counts P.P2.R.value P.P2.R.WIDTH (answer self.now.t2.map.table.entries) result.1 }
    {
        self.as_map().address_count()
    }
}
