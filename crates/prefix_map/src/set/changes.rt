//! Changes of a set.
ghost use Rattle.std.specs.Prelude.{◌≡◌, ◌≤◌, None, not, IfOk, OnOk, OnErr, IsErrAnd};
ghost use Rattle.std.specs.FinMap as map;

use crate::set::PrefixSet;
use prefix_table::{InsertError, MAX_ENTRIES, PrefixBits};
use std::alloc::AllocError;

impl<P: PrefixBits> PrefixSet<P> {
    ghost use Rattle.prefix_model.specs.Aggregates.{IsSetAggregate, consistent_set};
    ghost use Rattle.prefix_model.specs.Positions.{position_set, root_alone};
    ghost use Rattle.prefix_model.specs.Pruning.{pruned, without_below, kept_outside};
    ghost use Rattle.std.specs.List.Retain.{IsFiltered};
    ghost use Rattle.prefix_table.specs.Refusals.{IsFull};
    ghost use Rattle.prefix_map.specs.Retains.{IsMemberAsked};
    ghost use Rattle.prefix_map.specs.MapViews.{with_entry};

    /// Makes the prefix's key a member, and tells whether it was none before. Refuses as [`PrefixMap::insert`] does.
    ///
    /// [`PrefixMap::insert`]: crate::PrefixMap::insert
    pub fn insert(&mut self, prefix: P) -> Result<bool, InsertError<()>>
    where
        P: Drop,
        requires { P.prefix_len prefix ≤ P.R.WIDTH }
        ensures new { IfOk result (λ new. new ≡ not (map.contains_key self.old.entries (P.key prefix))) }
        ensures stored { OnOk result (self.new ≡ with_entry self.old (P.key prefix) tt) }
        ensures unchanged { OnErr result (self.new ≡ self.old) }
        ensures new_key { OnErr result (map.get self.old.entries (P.key prefix) ≡ None) }
        ensures full_only { IsErrAnd result IsFull → map.len self.old.entries ≡ MAX_ENTRIES }
        ensures full { map.len self.old.entries ≡ MAX_ENTRIES → map.get self.old.entries (P.key prefix) ≡ None
            → IsErrAnd result IsFull }
    {
        match self.map.insert(prefix, ()) {
            Ok(before) => Ok(before.is_none()),
            Err(refused) => Err(refused),
        }
    }

    /// Takes the prefix's key out, and tells whether it was a member. Prunes as [`PrefixMap::remove`] does.
    ///
    /// [`PrefixMap::remove`]: crate::PrefixMap::remove
    pub fn remove(&mut self, prefix: &P) -> bool
        requires { P.prefix_len prefix.now ≤ P.R.WIDTH }
        ensures was { result ≡ map.contains_key self.old.entries (P.key prefix.now) }
        ensures entries { self.new.entries ≡ map.remove self.old.entries (P.key prefix.now) }
        ensures kept { self.new.kept ≡ pruned self.new.entries self.old.kept (P.key prefix.now) }
    {
        self.map.remove(prefix).is_some()
    }

    /// Takes the prefix's key out, and tells whether it was a member. All kept positions stay.
    pub fn remove_keep_tree(&mut self, prefix: &P) -> bool
        requires { P.prefix_len prefix.now ≤ P.R.WIDTH }
        ensures was { result ≡ map.contains_key self.old.entries (P.key prefix.now) }
        ensures entries { self.new.entries ≡ map.remove self.old.entries (P.key prefix.now) }
        ensures kept { self.new.kept ≡ self.old.kept }
    {
        self.map.remove_keep_tree(prefix).is_some()
    }

    /// Takes all members out that begin with the prefix's key, itself among them. Prunes as
    /// [`PrefixMap::remove_children`](crate::PrefixMap::remove_children) does.
    pub fn remove_children(&mut self, prefix: &P)
        requires { P.prefix_len prefix.now ≤ P.R.WIDTH }
        ensures entries { self.new.entries ≡ without_below self.old.entries (P.key prefix.now) }
        ensures kept { self.new.kept ≡ pruned self.new.entries (kept_outside self.old.kept (P.key prefix.now)) (P.key prefix.now) }
    {
        self.map.remove_children(prefix);
    }

    /// Asks about each member once, in key order, with zero host bits, and keeps those at which the answer is true. Of the
    /// kept positions those of the members that are left stay. Takes no memory.
    pub fn retain<F: FnMut(&P) -> bool>(&mut self, mut f: F)
    where
        P: Drop,
        requires { F.IsAlwaysCallable f }
        ensures entries { IsFiltered (IsMemberAsked P.R.WIDTH P.PrefixKey F.FnMut) f
            (map.entries self.old.entries) (map.entries self.new.entries) }
        ensures kept { self.new.kept ≡ position_set self.new.entries }
    {
        let keep = |prefix: &P, _value: &()| -> bool
            requires { F.IsAlwaysCallable f }
            ensures callable { F.IsAlwaysCallable f.exit }
            ensures asked { F.step f.entry prefix.entry result f.exit }
        { f(prefix) };
        self.map.retain(keep);
    }

    /// Takes all members and all kept positions but the empty key away.
    pub fn clear(&mut self)
        ensures entries { self.new.entries ≡ map.empty }
        ensures kept { self.new.kept ≡ root_alone }
    {
        self.map.clear();
    }

    /// The members become the keys all of whose addresses are covered, and whose parent, if there is one, is not wholly
    /// covered.
    ///
    /// The only error is a refusal of memory; the set is then as it was.
    pub fn aggregate(&mut self) -> Result<(), AllocError>
        ensures members { OnOk result (IsSetAggregate P.R.WIDTH self.old.entries self.new.entries) }
        ensures kept { OnOk result (self.new.kept ≡ position_set self.new.entries) }
        ensures unchanged { OnErr result (self.new ≡ self.old) }
    {
        self.map.aggregate_members()
    }

    /// The set keeps the members that have no proper prefix among the members.
    ///
    /// The only error is a refusal of memory; the set is then as it was.
    pub fn aggregate_consistent(&mut self) -> Result<(), AllocError>
        ensures consistent { OnOk result (self.new.entries ≡ consistent_set self.old.entries) }
        ensures kept { OnOk result (self.new.kept ≡ position_set self.new.entries) }
        ensures unchanged { OnErr result (self.new ≡ self.old) }
    {
        self.map.aggregate_consistent_members()
    }
}
