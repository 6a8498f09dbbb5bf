//! Removals from a map.
ghost use Rattle.std.specs.Prelude.{◌≡◌, ◌≤◌, true, Some};
ghost use Rattle.std.specs.Borrow.{Bor};
ghost use Rattle.prefix_model.specs.TableViews.{key_of};
ghost use Rattle.prefix_map.specs.Items.{IsItem};

use crate::items::prefix_of;
use crate::map::PrefixMap;
use prefix_table::{Bits, PrefixBits};

impl<P: PrefixBits, T> PrefixMap<P, T> {
    ghost use Rattle.std.specs.FinMap as map;
    ghost use Rattle.prefix_model.specs.Pruning.{pruned};

    /// Takes the entry of the prefix's key away, and answers its value; `None` where it is not stored.
    ///
    /// Then takes each kept position of the key away that has nothing in its node, the longest first. The empty key
    /// stays. That is done whether or not the key was stored.
    pub fn remove(&mut self, prefix: &P) -> Option<T>
        requires { P.prefix_len prefix.now ≤ P.R.WIDTH }
        ensures value { result ≡ map.get self.old.entries (P.key prefix.now) }
        ensures entries { self.new.entries ≡ map.remove self.old.entries (P.key prefix.now) }
        ensures kept { self.new.kept ≡ pruned self.new.entries self.old.kept (P.key prefix.now) }
    {
        self.table
            .remove(prefix.repr(), u32::from(prefix.prefix_len()))
    }

    /// Takes the entry of the prefix's key away, and answers its value; `None` where it is not stored. All kept
    /// positions stay.
    pub fn remove_keep_tree(&mut self, prefix: &P) -> Option<T>
        requires { P.prefix_len prefix.now ≤ P.R.WIDTH }
        ensures value { result ≡ map.get self.old.entries (P.key prefix.now) }
        ensures entries { self.new.entries ≡ map.remove self.old.entries (P.key prefix.now) }
        ensures kept { self.new.kept ≡ self.old.kept }
    {
        self.table
            .remove_keep_tree(prefix.repr(), u32::from(prefix.prefix_len()))
    }

    /// Takes the entry of the prefix's key away, which is stored, and answers its value. All kept positions stay.
    pub(crate) fn take(&mut self, prefix: &P) -> T
        requires fits { P.prefix_len prefix.now ≤ P.R.WIDTH }
        requires stored { map.contains_key self.old.entries (P.key prefix.now) ≡ true }
        ensures value { map.get self.old.entries (P.key prefix.now) ≡ Some result }
        ensures entries { self.new.entries ≡ map.remove self.old.entries (P.key prefix.now) }
        ensures kept { self.new.kept ≡ self.old.kept }
    {
        match self.remove_keep_tree(prefix) {
            Some(value) => value,
            None => unreachable!(),
        }
    }
}

impl<P: PrefixBits, T: Drop> PrefixMap<P, T> {
    ghost use Rattle.std.specs.FinMap as map;
    ghost use Rattle.std.specs.List.Retain.{IsFiltered};
    ghost use Rattle.prefix_model.specs.Positions.{position_set, root_alone};
    ghost use Rattle.prefix_map.specs.Retains.{IsEntryAsked};
    ghost use Rattle.prefix_model.specs.Pruning.{pruned, without_below, kept_outside};

    /// Takes all entries away whose keys begin with the prefix's key, its own among them, and all kept positions that
    /// begin with it but the empty key. Then takes each kept position of the key away that has nothing in its node, the
    /// longest first.
    pub fn remove_children(&mut self, prefix: &P)
        requires { P.prefix_len prefix.now ≤ P.R.WIDTH }
        ensures entries { self.new.entries ≡ without_below self.old.entries (P.key prefix.now) }
        ensures kept { self.new.kept ≡ pruned self.new.entries (kept_outside self.old.kept (P.key prefix.now)) (P.key prefix.now) }
    {
        self.table
            .remove_children(prefix.repr(), u32::from(prefix.prefix_len()));
    }

    /// Asks about each entry once, in key order, with its prefix, with zero host bits, and its value, and keeps those at
    /// which the answer is true. Of the kept positions those of the entries that are left stay. Takes no memory.
    pub fn retain<F: FnMut(&P, &T) -> bool>(&mut self, mut f: F)
    where
        P: Drop,
        requires { F.IsAlwaysCallable f }
        ensures entries { IsFiltered (IsEntryAsked P.R.WIDTH P.PrefixKey F.FnMut) f
            (map.entries self.old.entries) (map.entries self.new.entries) }
        ensures kept { self.new.kept ≡ position_set self.new.entries }
    {
        let keep = |key: P::R, len: u32, value: &T| -> bool
            requires { F.IsAlwaysCallable f }
            ensures callable { F.IsAlwaysCallable f.exit }
            ensures asked { (prefix : Bor P) × (len ≤ P.R.WIDTH → IsItem P.R.WIDTH P.PrefixKey prefix.now (key_of (P.R.bits key) len))
                × F.step f.entry prefix value.entry result f.exit }
        { ask(&mut f, key, len, value) };
        self.table.retain(keep);
    }

    /// Takes all entries and all kept positions but the empty key away.
    pub fn clear(&mut self)
        ensures entries { self.new.entries ≡ map.empty }
        ensures kept { self.new.kept ≡ root_alone }
    {
        self.table.clear();
    }
}

/// What `f` answers of the prefix of the first `len` bits of a key, and of a value. A longer length counts as the width.
fn ask<P: PrefixBits + Drop, T, F: FnMut(&P, &T) -> bool>(
    f: &mut F,
    key: P::R,
    len: u32,
    value: &T,
) -> bool
    requires { F.IsAlwaysCallable f.old }
    ensures callable { F.IsAlwaysCallable f.new }
    ensures asked { (prefix : Bor P) × (len ≤ P.R.WIDTH → IsItem P.R.WIDTH P.PrefixKey prefix.now (key_of (P.R.bits key) len))
        × F.step f.old prefix value.entry result f.new }
{
    let prefix = prefix_of::<P>(key, len.min(P::R::WIDTH));
    f(&prefix, value)
}
