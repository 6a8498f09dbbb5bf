//! Sets of prefixes: maps to `()`.
mod build;
mod changes;
mod iter;

use crate::map::{CoverKeys, PrefixMap};
pub use iter::{IntoIter, Iter};
use prefix_table::{Prefix, PrefixBits, PrefixKey};
use std::alloc::Global;
use std::marker::Model;

/// A set of prefixes, in the order of their keys. A contract sees the map to `()` that it is.
#[derive(Drop)]
pub struct PrefixSet<P: PrefixKey> {
    map: PrefixMap<P, ()>,
}

impl<P: PrefixKey> Model for PrefixSet<P> {
    ghost use base.Stored.{coded_unit};
    ghost use Rattle.prefix_map.specs.MapViews.{MapView, coded_view};

    ghost Value = { MapView (Unit {0}) };

    ghost coded = { coded_view coded_unit };

    ghost view = { λ a. a.map };
}

impl<P: PrefixBits> PrefixSet<P> {
    ghost use Rattle.std.specs.Prelude.{◌≡◌, ◌≤◌, ◌↔◌, [], IsSome, IsTrue, IfSome, slice_get};
    ghost use Rattle.std.specs.FinMap as map;
    ghost use Rattle.std.specs.Option.{option_map};
    ghost use Rattle.prefix_model.specs.Coverage.{IsCovered};
    ghost use Rattle.prefix_model.specs.Positions.{root_alone};
    ghost use Rattle.prefix_model.specs.Walks.{covers, IsLongestUnder};
    ghost use Rattle.prefix_map.specs.Items.{IsItem};
    ghost use Rattle.prefix_map.specs.Iterators.{cover_keys_left};

    /// An empty set. Takes no memory yet.
    pub fn new(alloc: Global) -> Self
        ensures entries { result.entries ≡ map.empty }
        ensures kept { result.kept ≡ root_alone }
    {
        PrefixSet {
            map: PrefixMap::new(alloc),
        }
    }

    /// The set of the keys of this map.
    pub fn from_map(map: PrefixMap<P, ()>) -> Self
        ensures { result ≡ map }
    {
        PrefixSet { map }
    }

    /// The map that the set is.
    pub fn as_map(&self) -> &PrefixMap<P, ()>
        ensures { result.now ≡ self.now }
    {
        &self.map
    }

    /// How many members there are.
    pub fn len(&self) -> usize
        ensures { result ≡ map.len self.now.entries }
    {
        self.map.len()
    }

    /// Whether there is no member.
    pub fn is_empty(&self) -> bool
        ensures { IsTrue result ↔ (map.len self.now.entries ≡ 0) }
    {
        self.map.is_empty()
    }

    /// Whether the prefix's key is a member.
    pub fn contains(&self, prefix: &P) -> bool
        requires { P.prefix_len prefix.now ≤ P.R.WIDTH }
        ensures { result ≡ map.contains_key self.now.entries (P.key prefix.now) }
    {
        self.map.contains_key(prefix)
    }

    /// The member with the prefix's key, with zero host bits; `None` where it is none.
    pub fn get(&self, prefix: &P) -> Option<P>
        requires { P.prefix_len prefix.now ≤ P.R.WIDTH }
        ensures found { IsSome result ↔ IsSome (map.get self.now.entries (P.key prefix.now)) }
        ensures member { IfSome result (λ member. IsItem P.R.WIDTH P.PrefixKey member (P.key prefix.now)) }
    {
        let (member, _) = self.map.get_key_value(prefix)?;
        Some(member)
    }

    /// The longest member that the prefix's key begins with; `None` where there is none.
    pub fn get_lpm(&self, prefix: &P) -> Option<P>
        requires { P.prefix_len prefix.now ≤ P.R.WIDTH }
        ensures longest { IsLongestUnder self.now.entries [] (P.key prefix.now) (option_map P.key result) }
        ensures item { IfSome result (λ found. IsItem P.R.WIDTH P.PrefixKey found (P.key found)) }
    {
        self.map.get_lpm_prefix(prefix)
    }

    /// The shortest member that the prefix's key begins with; `None` where there is none.
    pub fn get_spm(&self, prefix: &P) -> Option<P>
        requires { P.prefix_len prefix.now ≤ P.R.WIDTH }
        ensures first { option_map P.key result ≡ option_map (λ entry. entry.0) (slice_get (covers self.now.entries (P.key prefix.now)) 0) }
        ensures item { IfSome result (λ found. IsItem P.R.WIDTH P.PrefixKey found (P.key found)) }
    {
        self.map.get_spm_prefix(prefix)
    }

    /// Whether a member is one that the prefix's key begins with.
    pub fn is_covered(&self, prefix: &P) -> bool
        requires { P.prefix_len prefix.now ≤ P.R.WIDTH }
        ensures { IsTrue result ↔ IsSome (slice_get (covers self.now.entries (P.key prefix.now)) 0) }
    {
        self.map.is_covered(prefix)
    }

    /// Whether each address that extends the prefix's key is covered by a member.
    pub fn is_covered_in_aggregate(&self, prefix: &P) -> bool
        requires { P.prefix_len prefix.now ≤ P.R.WIDTH }
        ensures { IsTrue result ↔ IsCovered P.R.WIDTH self.now.entries (P.key prefix.now) }
    {
        self.map.is_covered_in_aggregate(prefix)
    }

    /// The members that the prefix's key begins with, its own among them, the shortest first.
    pub fn cover(&self, prefix: &P) -> CoverKeys<'_, P, ()>
        requires { P.prefix_len prefix.now ≤ P.R.WIDTH }
        ensures { cover_keys_left result ≡ covers self.now.entries (P.key prefix.now) }
    {
        self.map.cover_keys(prefix)
    }
}

impl<P: Prefix> PrefixSet<P> {
    ghost use Rattle.prefix_model.specs.Counts.{Counts};
    ghost use Rattle.prefix_model.specs.Tables.{answer};

    /// How many addresses a member covers; `None` where all are covered.
    pub fn address_count(&self) -> Option<P::R>
        ensures { Counts P.R.value P.R.WIDTH (answer self.now.entries) result }
    {
        self.map.address_count()
    }
}
