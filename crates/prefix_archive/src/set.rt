//! Sets of prefixes in an archive: maps to `()`, whose values have no bytes.
ghost use Rattle.std.specs.Prelude.{◌≡◌, ◌==◌, ◌<◌, ◌≤◌, ◌^◌, ⊤, [], IsTrue, IsSome, ◌↔◌, IfOk, IfErr, IfSome, length};
ghost use Rattle.std.specs.Cmp.Lexicographic.{pointwise};
ghost use Rattle.std.specs.Cmp.Rules.{comparing};
ghost use Rattle.std.specs.Ordering.{on, eq_of_both};
ghost use Rattle.std.proofs.Common.{rules};
ghost use Rattle.std.specs.Option.{option_map};
ghost use Rattle.std.specs.FinMap as map;
ghost use Rattle.prefix_model.specs.Keys.{KeyBits};
ghost use Rattle.prefix_model.specs.Positions.{positions_in, position_set};
ghost use Rattle.prefix_model.specs.Spelling.{Spells, unit_codec};
ghost use Rattle.prefix_model.specs.Tables.{answer};
ghost use Rattle.prefix_model.specs.Coverage.{IsCovered};
ghost use Rattle.prefix_model.specs.Walks.{IsLongestUnder, IsShortestUnder, IsMatchUnder, covers, walk, walk_from};
ghost use Rattle.prefix_model.specs.Keys.{padded};
ghost use Rattle.prefix_model.specs.Counts.{Counts};
ghost use Rattle.prefix_archive.specs.ArchivedViews.{seen_in};
ghost use Rattle.prefix_model.specs.FirstCause.{check_alone};
ghost use Rattle.prefix_archive.specs.Causes.{TellsCause};

use crate::map::{ArchivedPrefixMap, CoverKeys, Keys};
use crate::view::ArchivedTrieRef;
use prefix_layout::ArchiveError;
use prefix_map::PrefixSet;
use prefix_table::{Prefix, PrefixBits};
use prefix_view::iter::Rest;
use prefix_view::view::AsView;
use std::alloc::{AllocError, Global};

/// A set of prefixes that is read from the bytes of its archive.
pub struct ArchivedPrefixSet<'a, P: PrefixBits> {
    /// The map to `()` that the set is.
    pub map: ArchivedPrefixMap<'a, P, ()>,
}

impl<'a, P: PrefixBits> Clone for ArchivedPrefixSet<'a, P> {
    ghost is_clone = { λ old new. new ≡ old };

    ghost is_infallible = { λ _. ⊤ };

    fn clone(&self) -> Result<ArchivedPrefixSet<'a, P>, AllocError> {
        Ok(*self)
    }
}

impl<'a, P: PrefixBits> Copy for ArchivedPrefixSet<'a, P> {}

impl<'a, P: PrefixBits> ArchivedPrefixSet<'a, P> {
    /// The set whose archive the bytes are, with nothing behind it, or else the first cause. Takes no memory.
    pub fn access(bytes: &'a [u8]) -> Result<ArchivedPrefixSet<'a, P>, ArchiveError>
        ensures exact { TellsCause (check_alone unit_codec P.R.WIDTH bytes.now) result }
        ensures spelled { IfOk result (λ archive. Spells unit_codec P.R.WIDTH bytes.now archive.map.table.entries) }
    {
        match ArchivedPrefixMap::access(bytes) {
            Ok(map) => Ok(ArchivedPrefixSet { map }),
            Err(error) => Err(error),
        }
    }

    /// The number of members.
    pub fn len(&self) -> usize
        ensures members { result ≡ map.len self.now.map.table.entries }
        ensures few { result < 2 ^ 32 }
    {
        self.map.len()
    }

    /// Whether there is no member.
    pub fn is_empty(&self) -> bool
        ensures { IsTrue result ↔ (map.len self.now.map.table.entries ≡ 0) }
    {
        self.map.is_empty()
    }

    /// The number of positions of the set's table.
    pub fn node_count(&self) -> usize
        ensures { result ≡ length (positions_in self.now.map.table.entries) }
    {
        self.map.node_count()
    }

    /// Whether a prefix is a member.
    pub fn contains(&self, prefix: &P) -> bool
        requires { P.prefix_len prefix.now ≤ P.R.WIDTH }
        ensures { IsTrue result ↔ IsSome (map.get self.now.map.table.entries (P.key prefix.now)) }
    {
        self.map.contains_key(prefix)
    }

    /// A prefix that is a member, with host bits zero; `None` where it is none.
    pub fn get(&self, prefix: &P) -> Option<P>
        requires { P.prefix_len prefix.now ≤ P.R.WIDTH }
        ensures member { IsSome result ↔ IsSome (map.get self.now.map.table.entries (P.key prefix.now)) }
        ensures key { IfSome result (λ p. P.key p ≡ P.key prefix.now) }
        ensures length { IfSome result (λ p. P.prefix_len p ≡ length (P.key p)) }
        ensures bits { IfSome result (λ p. P.bits p ≡ padded P.R.WIDTH (P.key p)) }
    {
        match self.map.get_key_value(prefix) {
            Some((found, _)) => Some(found),
            None => None,
        }
    }

    /// The longest member that contains a prefix or is it, with host bits zero; `None` where there is none.
    pub fn get_lpm(&self, prefix: &P) -> Option<P>
        requires { P.prefix_len prefix.now ≤ P.R.WIDTH }
        ensures longest { IsLongestUnder self.now.map.table.entries [] (P.key prefix.now) (option_map (λ p. P.key p) result) }
        ensures length { IfSome result (λ p. P.prefix_len p ≡ length (P.key p)) }
        ensures bits { IfSome result (λ p. P.bits p ≡ padded P.R.WIDTH (P.key p)) }
    {
        self.map.get_lpm_prefix(prefix)
    }

    /// The shortest member that contains a prefix or is it, with host bits zero; `None` where there is none.
    pub fn get_spm(&self, prefix: &P) -> Option<P>
        requires { P.prefix_len prefix.now ≤ P.R.WIDTH }
        ensures shortest { IsShortestUnder self.now.map.table.entries [] (P.key prefix.now) (option_map (λ p. P.key p) result) }
        ensures length { IfSome result (λ p. P.prefix_len p ≡ length (P.key p)) }
        ensures bits { IfSome result (λ p. P.bits p ≡ padded P.R.WIDTH (P.key p)) }
    {
        self.map.get_spm_prefix(prefix)
    }

    /// Whether some member contains a prefix or is it.
    pub fn is_covered(&self, prefix: &P) -> bool
        requires { P.prefix_len prefix.now ≤ P.R.WIDTH }
        ensures { IsTrue result ↔ ((k : KeyBits) × IsMatchUnder self.now.map.table.entries [] (P.key prefix.now) k) }
    {
        self.map.is_covered(prefix)
    }

    /// Whether every address that begins with the prefix's key begins with a member.
    pub fn is_covered_in_aggregate(&self, prefix: &P) -> bool
        requires { P.prefix_len prefix.now ≤ P.R.WIDTH }
        ensures { IsTrue result ↔ IsCovered P.R.WIDTH self.now.map.table.entries (P.key prefix.now) }
    {
        self.map.is_covered_in_aggregate(prefix)
    }

    /// The members in key order, with zero host bits.
    pub fn iter(&self) -> Keys<'a, P, ()>
    where
        P: Drop,
        ensures { ⟦<Keys<'a, P, ()> as Rest>⟧.left result ≡ map.entries self.now.map.table.entries }
    {
        self.map.keys()
    }

    /// The members that do not stand before the prefix in key order, and its own only where `inclusive`.
    pub fn iter_from(&self, prefix: &P, inclusive: bool) -> Keys<'a, P, ()>
        requires { P.prefix_len prefix.now ≤ P.R.WIDTH }
        ensures { ⟦<Keys<'a, P, ()> as Rest>⟧.left result ≡ walk_from self.now.map.table.entries [] (P.key prefix.now) inclusive }
    {
        Keys {
            entries: self.map.iter_from(prefix, inclusive),
        }
    }

    /// The members whose keys begin with the prefix's key, its own among them, in key order.
    pub fn children(&self, prefix: &P) -> Keys<'a, P, ()>
        requires { P.prefix_len prefix.now ≤ P.R.WIDTH }
        ensures { ⟦<Keys<'a, P, ()> as Rest>⟧.left result ≡ walk self.now.map.table.entries (P.key prefix.now) }
    {
        Keys {
            entries: self.map.children(prefix),
        }
    }

    /// The members whose keys the prefix's key begins with, its own among them, the shortest first.
    pub fn cover(&self, prefix: &P) -> CoverKeys<'a, P, ()>
        requires { P.prefix_len prefix.now ≤ P.R.WIDTH }
        ensures { ⟦<CoverKeys<'a, P, ()> as Rest>⟧.left result ≡ covers self.now.map.table.entries (P.key prefix.now) }
    {
        self.map.cover_keys(prefix)
    }

    /// The set that the bytes spell, with its positions kept. The only error is want of memory.
    pub fn deserialize(&self, alloc: Global) -> Result<PrefixSet<P>, ArchiveError>
        ensures entries { IfOk result (λ set. set.entries ≡ self.now.map.table.entries) }
        ensures kept { IfOk result (λ set. set.kept ≡ position_set self.now.map.table.entries) }
        ensures error { IfErr result (λ e. e ≡ ArchiveError.OutOfMemory) }
    {
        match self.map.deserialize(alloc) {
            Ok(map) => Ok(PrefixSet::from_map(map)),
            Err(error) => Err(error),
        }
    }
}

impl<'a, P: PrefixBits> PartialEq for ArchivedPrefixSet<'a, P> {
    ghost eq = { eq_of_both (on (λ a. a.map.nodes.bytes.now) (pointwise ◌==◌))
        (eq_of_both (on (λ a. a.map.values.bytes.now) (pointwise ◌==◌)) (on (λ a. a.map.values.len) ◌==◌)) };

    ghost laws = { Prim.search (comparing, rules) };

    fn eq(&self, other: &Self) -> bool
        ensures bytes { result ≡ eq_of_both (on (λ a. a.map.nodes.bytes.now) (pointwise ◌==◌))
            (eq_of_both (on (λ a. a.map.values.bytes.now) (pointwise ◌==◌)) (on (λ a. a.map.values.len) ◌==◌)) self.now other.now }
        ensures tables { IsTrue result ↔ (self.now.map.table.entries ≡ other.now.map.table.entries) }
    {
        self.map == other.map
    }
}

impl<'a, P: PrefixBits> Eq for ArchivedPrefixSet<'a, P> {
    ghost laws = { Prim.search (comparing, rules) };
}

impl<'a, 'b, P: PrefixBits> AsView for &'b ArchivedPrefixSet<'a, P> {
    type View = ArchivedTrieRef<'a, P, ()>;

    ghost shows = { λ s v. seen_in v.at.map.table.entries v.place v.prefix_len ≡ seen_in s.now.map.table.entries 0 0 };

    ghost use Rattle.std.proofs.Common.{◌∙◌, sym};

    ghost one_law = { λ s v w e f. e ∙ sym f };

    fn view(self) -> ArchivedTrieRef<'a, P, ()> {
        ArchivedTrieRef::new_root(&self.map)
    }
}

impl<'a, 'b, P: PrefixBits + Drop> IntoIterator for &'b ArchivedPrefixSet<'a, P> {
    type Item = P;

    type IntoIter = Keys<'a, P, ()>;

    ghost into_iter_gives = { λ s it. ⟦<Keys<'a, P, ()> as Rest>⟧.left it ≡ map.entries s.now.map.table.entries };

    fn into_iter(self) -> Keys<'a, P, ()> {
        self.iter()
    }
}

impl<'a, P: Prefix> ArchivedPrefixSet<'a, P> {
    /// How many addresses begin with a member; `None` where all do.
    pub fn address_count(&self) -> Option<P::R>
        ensures { Counts P.R.value P.R.WIDTH (answer self.now.map.table.entries) result }
    {
        self.map.address_count()
    }
}
