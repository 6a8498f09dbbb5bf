//! Cursors over the entries of a map: each step lends one value to write.
ghost use Rattle.std.specs.Prelude.{◌≡◌, ◌≤◌, [], false, true, Some, IfSome};
ghost use Rattle.std.specs.FinMap as map;
ghost use Rattle.prefix_map.specs.Items.{GivesFirstKey, Holds, IsItem};

use crate::items::{bare, prefix_of};
use crate::map::PrefixMap;
use crate::search::{Position, step};
use prefix_table::{Bits, PrefixBits, PrefixKey};

/// Where a walk over a map stands, apart from the map: at a key, in the entries that begin with its first bits.
///
/// A cursor holds the map as `&mut` beside it, and asks [`advance`](Walk::advance) for the next entry.
#[derive(Drop)]
pub struct Walk<P: PrefixKey> {
    last: P,
    within: u32,
    inclusive: bool,
    ghost within_last: { within ≤ P.prefix_len last },
    ghost fits: { P.prefix_len last ≤ P.WIDTH },
}

impl<P: PrefixBits + Drop> Walk<P> {
    ghost use Rattle.prefix_map.specs.Cursors.{walk_key, walk_within, walk_inclusive, walk_left};

    /// The walk over all entries.
    pub fn whole() -> Self
        ensures last { walk_key result ≡ [] }
        ensures within { walk_within result ≡ 0 }
        ensures inclusive { walk_inclusive result ≡ true }
    {
        Walk {
            last: P::from_repr_len(P::R::zeros(), 0),
            within: 0,
            inclusive: true,
        }
    }

    /// The walk over the entries that do not stand before a prefix's key, and its own only where `inclusive`, among
    /// those whose keys begin with the first `within` bits of it.
    pub fn new(prefix: &P, within: u32, inclusive: bool) -> Self
        requires fits { P.prefix_len prefix.now ≤ P.R.WIDTH }
        requires within { within ≤ P.prefix_len prefix.now }
        ensures last { walk_key result ≡ P.key prefix.now }
        ensures within { walk_within result ≡ within }
        ensures inclusive { walk_inclusive result ≡ inclusive }
    {
        Walk {
            last: P::from_repr_len(prefix.repr(), prefix.prefix_len()),
            within,
            inclusive,
        }
    }

    /// The prefix at which the walk stands, with zero host bits.
    pub fn at(&self) -> P
        ensures { IsItem P.R.WIDTH P.PrefixKey result (walk_key self.now) }
    {
        bare(&self.last)
    }

    /// The prefix of the next entry, with zero host bits, at which the walk then stands.
    pub fn advance<T>(&mut self, map: &PrefixMap<P, T>) -> Option<P>
        ensures gives { GivesFirstKey P.R.WIDTH P.PrefixKey (walk_left map.now.entries self.old) result (walk_left map.now.entries self.new) }
        ensures held { IfSome result (λ prefix. Holds map.now.entries (P.key prefix) (walk_left map.now.entries self.old) (walk_left map.now.entries self.new)) }
        ensures at { IfSome result (λ prefix. walk_key self.new ≡ P.key prefix) }
        ensures within { walk_within self.new ≡ walk_within self.old }
        ensures passed { IfSome result (λ _. walk_inclusive self.new ≡ false) }
    {
        let mut position = Position {
            key: self.last.repr(),
            within: self.within,
            len: u32::from(self.last.prefix_len()),
            inclusive: self.inclusive,
        };
        let found = step(map.table(), &mut position)?;
        self.last = prefix_of(found.key, found.len);
        self.inclusive = false;
        Some(prefix_of(found.key, found.len))
    }
}

/// The entries in key order, each a prefix with zero host bits and a reference to its value, to write.
///
/// [`next`](IterMut::next) steps and lends at once. [`advance`](IterMut::advance) steps, and
/// [`value_mut`](IterMut::value_mut) then lends: their contracts say what the map holds at the end.
#[derive(Drop)]
pub struct IterMut<'a, P: PrefixKey, T> {
    map: &'a mut PrefixMap<P, T>,
    walk: Walk<P>,
}

impl<'a, P: PrefixBits + Drop, T> IterMut<'a, P, T> {
    ghost use Rattle.std.specs.Borrow.{sem};
    ghost use Rattle.prefix_map.specs.Cursors.{Shows, cursor_map, cursor_map_ref, cursor_key, cursor_left, cursor_lends};

    /// The next entry; none behind the last one.
    pub fn next(&mut self) -> Option<(P, &mut T)>
        ensures { Shows P.R.WIDTH self.old result }
    {
        let prefix = self.walk.advance(&*self.map)?;
        let map = &mut *self.map;
        Some(map.item_mut(prefix))
    }

    /// Goes on to the next entry, and answers its prefix; none behind the last one.
    pub fn advance(&mut self) -> Option<P>
        ensures same_map { (cursor_map_ref self.new).ghost_name ≡ (cursor_map_ref self.old).ghost_name }
        ensures unchanged { cursor_map self.new ≡ cursor_map self.old }
        ensures gives { GivesFirstKey P.R.WIDTH P.PrefixKey (cursor_left self.old) result (cursor_left self.new) }
        ensures at { IfSome result (λ prefix. cursor_key self.new ≡ P.key prefix) }
        ensures stored { IfSome result (λ prefix. map.contains_key (cursor_map self.new).entries (cursor_key self.new) ≡ true) }
    {
        let prefix = self.walk.advance(&*self.map)?;
        Some(prefix)
    }

    /// The value of the entry at which the cursor stands, to write.
    pub fn value_mut(&mut self) -> &mut T
        requires { map.contains_key (cursor_map self.old).entries (cursor_key self.old) ≡ true }
        ensures* writes_back { sem 𝓛 (cursor_lends P.row T.row P.PrefixKey self.entry result) }
        ensures value { map.get (cursor_map self.old).entries (cursor_key self.old) ≡ Some result.now }
    {
        let prefix = self.walk.at();
        let map = &mut *self.map;
        map.value_mut(&prefix)
    }
}

/// The values of the entries in key order, to write.
#[derive(Drop)]
pub struct ValuesMut<'a, P: PrefixKey, T> {
    map: &'a mut PrefixMap<P, T>,
    walk: Walk<P>,
}

impl<'a, P: PrefixBits + Drop, T> ValuesMut<'a, P, T> {
    ghost use Rattle.std.specs.Borrow.{sem};
    ghost use Rattle.prefix_map.specs.Cursors.{ShowsValue, values_lends};

    /// The next value; none behind the last one.
    pub fn next(&mut self) -> Option<&mut T>
        ensures* writes_back { sem 𝓛 (values_lends P.row T.row P.PrefixKey self.entry result) }
        ensures value { ShowsValue self.old result }
    {
        let prefix = self.walk.advance(&*self.map)?;
        let map = &mut *self.map;
        Some(map.value_mut(&prefix))
    }
}

impl<P: PrefixBits + Drop, T> PrefixMap<P, T> {
    ghost use Rattle.std.specs.FinMap.{entries};
    ghost use Rattle.prefix_model.specs.Walks.{walk, walk_from};
    ghost use Rattle.prefix_map.specs.Cursors.{cursor_map, cursor_map_ref, cursor_left, values_map_ref, values_cursor_left};

    /// A cursor over the entries in key order, with each value to write.
    pub fn iter_mut(&mut self) -> IterMut<'_, P, T>
        ensures same_map { (cursor_map_ref result).ghost_name ≡ self.entry.ghost_name }
        ensures unchanged { cursor_map result ≡ self.old }
        ensures left { cursor_left result ≡ entries self.old.entries }
    {
        IterMut {
            map: self,
            walk: Walk::whole(),
        }
    }

    /// A cursor over the values in key order, each to write.
    pub fn values_mut(&mut self) -> ValuesMut<'_, P, T>
        ensures same_map { (values_map_ref result).ghost_name ≡ self.entry.ghost_name }
        ensures unchanged { (values_map_ref result).now ≡ self.old }
        ensures left { values_cursor_left result ≡ entries self.old.entries }
    {
        ValuesMut {
            map: self,
            walk: Walk::whole(),
        }
    }

    /// A cursor over the entries that do not stand before the prefix in key order, and its own only where `inclusive`.
    pub fn iter_from_mut(&mut self, prefix: &P, inclusive: bool) -> IterMut<'_, P, T>
        requires { P.prefix_len prefix.now ≤ P.R.WIDTH }
        ensures same_map { (cursor_map_ref result).ghost_name ≡ self.entry.ghost_name }
        ensures unchanged { cursor_map result ≡ self.old }
        ensures left { cursor_left result ≡ walk_from self.old.entries [] (P.key prefix.now) inclusive }
    {
        IterMut {
            map: self,
            walk: Walk::new(prefix, 0, inclusive),
        }
    }

    /// A cursor over the entries whose keys begin with the prefix's key, its own among them, in key order.
    pub fn children_mut(&mut self, prefix: &P) -> IterMut<'_, P, T>
        requires { P.prefix_len prefix.now ≤ P.R.WIDTH }
        ensures same_map { (cursor_map_ref result).ghost_name ≡ self.entry.ghost_name }
        ensures unchanged { cursor_map result ≡ self.old }
        ensures left { cursor_left result ≡ walk self.old.entries (P.key prefix.now) }
    {
        IterMut {
            map: self,
            walk: Walk::new(prefix, u32::from(prefix.prefix_len()), true),
        }
    }
}
