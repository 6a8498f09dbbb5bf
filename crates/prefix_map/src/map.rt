//! Maps from prefixes to values.
mod aggregates;
mod build;
mod changes;
pub mod cursor;
pub mod entry;
pub mod iter;
pub mod owned;

use crate::items::{bare, prefix_of};
use crate::search::{Found, longest_front, shortest_front};
pub use cursor::{IterMut, ValuesMut};
pub use entry::{Entry, OccupiedEntry, VacantEntry};
pub use iter::{Cover, CoverKeys, CoverValues, Iter, Keys, Values};
pub use owned::{IntoIter, IntoKeys, IntoValues};
use prefix_aggregate::{address_count, covers_in_aggregate};
use prefix_table::{InsertError, MAX_ENTRIES, Prefix, PrefixBits, PrefixKey, Table};
use std::alloc::Global;
use std::marker::{Model, PhantomData};
use std::mem;

/// A map from prefixes to values, in the order of their keys.
#[derive(Drop)]
pub struct PrefixMap<P: PrefixKey, T> {
    table: Table<T>,
    prefix: PhantomData<P>,
}

impl<P: PrefixKey, T> Model for PrefixMap<P, T> {
    ghost use Rattle.prefix_map.specs.MapViews.{MapView, coded_view, map_view, FitsIn};

    ghost Value = { MapView T };

    ghost coded = { coded_view T.code };

    ghost view = { λ a. map_view a.table };

    ghost invariant = { λ a. FitsIn P.WIDTH a.table };
}

impl<P: PrefixBits, T> PrefixMap<P, T> {
    ghost use Rattle.std.specs.Prelude.{◌≡◌, ◌≤◌, ◌↔◌, true, None, Some, [], IsTrue, IsSome, IfSome, IfOk, IfErr, OnOk, OnErr, IsErrAnd, slice_get};
    ghost use Rattle.std.specs.FinMap as map;
    ghost use Rattle.std.specs.Option.{option_copied, option_copied_mut, option_map};
    ghost use Rattle.std.specs.Borrow.{sem};
    ghost use Rattle.prefix_model.specs.Positions.{root_alone};
    ghost use Rattle.prefix_table.specs.Refusals.{value_of, IsFull};
    ghost use Rattle.prefix_model.specs.TableViews.{key_of};
    ghost use Rattle.prefix_map.specs.MapViews.{map_view, with_entry, with_value, FitsIn};
    ghost use Rattle.prefix_model.specs.Coverage.{IsCovered};
    ghost use Rattle.prefix_model.specs.Walks.{covers, IsLongestUnder};
    ghost use Rattle.prefix_map.specs.Items.{IsItem};
    ghost use Rattle.prefix_map.specs.Searches.{entry_from, found_key};
    ghost use Rattle.prefix_map.specs.Lending.{lends_value, lends_stored};

    /// An empty map. Takes no memory yet.
    pub fn new(alloc: Global) -> Self
        ensures entries { result.entries ≡ map.empty }
        ensures kept { result.kept ≡ root_alone }
    {
        PrefixMap {
            table: Table::new(alloc),
            prefix: PhantomData,
        }
    }

    /// The map of the entries of this table. No key and no kept position may be longer than the prefixes' width.
    pub fn from_table(table: Table<T>) -> Self
        requires { FitsIn P.WIDTH table }
        ensures { result ≡ map_view table }
    {
        PrefixMap {
            table,
            prefix: PhantomData,
        }
    }

    /// The table that the map keeps.
    pub fn table(&self) -> &Table<T>
        ensures same { map_view result.now ≡ self.now }
        ensures fits { FitsIn P.WIDTH result.now }
    {
        &self.table
    }

    /// How many entries there are.
    pub fn len(&self) -> usize
        ensures { result ≡ map.len self.now.entries }
    {
        self.table.len()
    }

    /// Whether there is no entry.
    pub fn is_empty(&self) -> bool
        ensures { IsTrue result ↔ (map.len self.now.entries ≡ 0) }
    {
        self.len() == 0
    }

    /// The value at the prefix's key; `None` where it is not stored.
    pub fn get(&self, prefix: &P) -> Option<&T>
        requires { P.prefix_len prefix.now ≤ P.R.WIDTH }
        ensures { option_copied result ≡ map.get self.now.entries (P.key prefix.now) }
    {
        self.table
            .get(prefix.repr(), u32::from(prefix.prefix_len()))
    }

    /// The prefix, with zero host bits, and the value at its key; `None` where it is not stored.
    pub fn get_key_value(&self, prefix: &P) -> Option<(P, &T)>
        requires { P.prefix_len prefix.now ≤ P.R.WIDTH }
        ensures value { option_map (λ item. item.1.now) result ≡ map.get self.now.entries (P.key prefix.now) }
        ensures prefix { IfSome result (λ item. IsItem P.R.WIDTH P.PrefixKey item.0 (P.key prefix.now)) }
    {
        let value = self.get(prefix)?;
        Some((bare(prefix), value))
    }

    /// Whether the prefix's key is stored.
    pub fn contains_key(&self, prefix: &P) -> bool
        requires { P.prefix_len prefix.now ≤ P.R.WIDTH }
        ensures { result ≡ map.contains_key self.now.entries (P.key prefix.now) }
    {
        self.get(prefix).is_some()
    }

    /// Stores a value at the prefix's key, and answers the value before.
    ///
    /// Only a new key is refused: with [`InsertError::Full`] where the map holds
    /// [`MAX_ENTRIES`](prefix_table::MAX_ENTRIES), and with [`InsertError::Memory`] where memory is wanting. The
    /// value then comes back, and the map is as it was.
    pub fn insert(&mut self, prefix: P, value: T) -> Result<Option<T>, InsertError<T>>
    where
        P: Drop,
        requires { P.prefix_len prefix ≤ P.R.WIDTH }

        ensures before { IfOk result (λ before. before ≡ map.get self.old.entries (P.key prefix)) }
        ensures stored { OnOk result (self.new ≡ with_entry self.old (P.key prefix) value) }

        ensures handed_back { IfErr result (λ refused. value_of refused ≡ value) }
        ensures unchanged { OnErr result (self.new ≡ self.old) }
        ensures new_key { OnErr result (map.get self.old.entries (P.key prefix) ≡ None) }
        ensures full_only { IsErrAnd result IsFull → map.len self.old.entries ≡ MAX_ENTRIES }
        ensures full { map.len self.old.entries ≡ MAX_ENTRIES → map.get self.old.entries (P.key prefix) ≡ None
            → IsErrAnd result IsFull }
    {
        self.store(&prefix, value)
    }

    /// What [`insert`](PrefixMap::insert) does, at a prefix that is lent.
    fn store(&mut self, prefix: &P, value: T) -> Result<Option<T>, InsertError<T>>
        requires { P.prefix_len prefix.now ≤ P.R.WIDTH }
        ensures before { IfOk result (λ before. before ≡ map.get self.old.entries (P.key prefix.now)) }
        ensures stored { OnOk result (self.new ≡ with_entry self.old (P.key prefix.now) value) }
        ensures handed_back { IfErr result (λ refused. value_of refused ≡ value) }
        ensures unchanged { OnErr result (self.new ≡ self.old) }
        ensures new_key { OnErr result (map.get self.old.entries (P.key prefix.now) ≡ None) }
        ensures full_only { IsErrAnd result IsFull → map.len self.old.entries ≡ MAX_ENTRIES }
        ensures full { map.len self.old.entries ≡ MAX_ENTRIES → map.get self.old.entries (P.key prefix.now) ≡ None
            → IsErrAnd result IsFull }
    {
        self.store_at(prefix.repr(), u32::from(prefix.prefix_len()), value)
    }

    /// The same at the key of the first `len` bits.
    fn store_at(&mut self, key: P::R, len: u32, value: T) -> Result<Option<T>, InsertError<T>>
        requires { len ≤ P.R.WIDTH }
        ensures before { IfOk result (λ before. before ≡ map.get self.old.entries (key_of (P.R.bits key) len)) }
        ensures stored { OnOk result (self.new ≡ with_entry self.old (key_of (P.R.bits key) len) value) }
        ensures handed_back { IfErr result (λ refused. value_of refused ≡ value) }
        ensures unchanged { OnErr result (self.new ≡ self.old) }
        ensures new_key { OnErr result (map.get self.old.entries (key_of (P.R.bits key) len) ≡ None) }
        ensures full_only { IsErrAnd result IsFull → map.len self.old.entries ≡ MAX_ENTRIES }
        ensures full { map.len self.old.entries ≡ MAX_ENTRIES → map.get self.old.entries (key_of (P.R.bits key) len) ≡ None
            → IsErrAnd result IsFull }
    {
        self.table.insert(key, len, value)
    }

    /// The value at the prefix's key, to write; `None` where it is not stored.
    pub fn get_mut(&mut self, prefix: &P) -> Option<&mut T>
        requires { P.prefix_len prefix.now ≤ P.R.WIDTH }
        ensures* writes_back { sem 𝓛 (lends_value P.row T.row P.PrefixKey self.entry (P.key prefix.now) result) }
        ensures value { option_copied_mut result ≡ map.get self.old.entries (P.key prefix.now) }
    {
        let key = prefix.repr();
        let len = u32::from(prefix.prefix_len());
        self.table.get_mut(key, len)
    }

    /// The value at the key of the first `len` bits, to write.
    fn get_at_mut(&mut self, key: P::R, len: u32) -> Option<&mut T>
        requires { len ≤ P.R.WIDTH }
        ensures* writes_back { sem 𝓛 (lends_value P.row T.row P.PrefixKey self.entry (key_of (P.R.bits key) len) result) }
        ensures value { option_copied_mut result ≡ map.get self.old.entries (key_of (P.R.bits key) len) }
    {
        self.table.get_mut(key, len)
    }

    /// The value at the key of the first `len` bits, which is stored, to write.
    pub(crate) fn at_mut(&mut self, key: P::R, len: u32) -> &mut T
        requires fits { len ≤ P.R.WIDTH }
        requires stored { map.contains_key self.old.entries (key_of (P.R.bits key) len) ≡ true }
        ensures* writes_back { sem 𝓛 (lends_stored P.row T.row P.PrefixKey self.entry (key_of (P.R.bits key) len) result) }
        ensures value { map.get self.old.entries (key_of (P.R.bits key) len) ≡ Some result.now }
    {
        match self.get_at_mut(key, len) {
            Some(value) => value,
            None => unreachable!(),
        }
    }

    /// The value at the prefix's key, which is stored, to write.
    fn value_mut(&mut self, prefix: &P) -> &mut T
        requires fits { P.prefix_len prefix.now ≤ P.R.WIDTH }
        requires stored { map.contains_key self.old.entries (P.key prefix.now) ≡ true }
        ensures* writes_back { sem 𝓛 (lends_stored P.row T.row P.PrefixKey self.entry (P.key prefix.now) result) }
        ensures value { map.get self.old.entries (P.key prefix.now) ≡ Some result.now }
    {
        match self.get_mut(prefix) {
            Some(value) => value,
            None => unreachable!(),
        }
    }

    /// A prefix, and the value at its key, which is stored, to write.
    fn item_mut(&mut self, prefix: P) -> (P, &mut T)
        requires fits { P.prefix_len prefix ≤ P.R.WIDTH }
        requires stored { map.contains_key self.old.entries (P.key prefix) ≡ true }
        ensures* writes_back { sem 𝓛 (lends_stored P.row T.row P.PrefixKey self.entry (P.key prefix) result.1) }
        ensures prefix { result.0 ≡ prefix }
        ensures value { map.get self.old.entries (P.key prefix) ≡ Some result.1.now }
    {
        let value = self.value_mut(&prefix);
        (prefix, value)
    }

    /// Stores a value at the key of the first `len` bits, which is stored, and answers the value before.
    fn replace_at(&mut self, key: P::R, len: u32, value: T) -> T
        requires fits { len ≤ P.R.WIDTH }
        requires stored { map.contains_key self.old.entries (key_of (P.R.bits key) len) ≡ true }
        ensures before { map.get self.old.entries (key_of (P.R.bits key) len) ≡ Some result }
        ensures stored { self.new ≡ with_value self.old (key_of (P.R.bits key) len) value }
    {
        match self.table.get_mut(key, len) {
            Some(stored) => mem::replace(stored, value),
            None => unreachable!(),
        }
    }

    /// The longest stored key that the prefix's key begins with, and its value; `None` where there is none.
    pub fn get_lpm(&self, prefix: &P) -> Option<(P, &T)>
        requires { P.prefix_len prefix.now ≤ P.R.WIDTH }
        ensures longest { IsLongestUnder self.now.entries [] (P.key prefix.now) (option_map (λ item. P.key item.0) result) }
        ensures value { IfSome result (λ item. map.get self.now.entries (P.key item.0) ≡ Some item.1.now) }
        ensures item { IfSome result (λ item. IsItem P.R.WIDTH P.PrefixKey item.0 (P.key item.0)) }
    {
        let found = self.longest(prefix)?;
        Some((prefix_of(found.key, found.len), found.value))
    }

    /// The longest stored key that the prefix's key begins with; `None` where there is none.
    pub fn get_lpm_prefix(&self, prefix: &P) -> Option<P>
        requires { P.prefix_len prefix.now ≤ P.R.WIDTH }
        ensures longest { IsLongestUnder self.now.entries [] (P.key prefix.now) (option_map P.key result) }
        ensures item { IfSome result (λ found. IsItem P.R.WIDTH P.PrefixKey found (P.key found)) }
    {
        let (found, _) = self.get_lpm(prefix)?;
        Some(found)
    }

    /// The longest stored key that the prefix's key begins with, and its value, to write; `None` where there is none.
    ///
    /// No clause can say here what the map holds after a write: where that is to be known, call
    /// [`get_lpm_prefix`](PrefixMap::get_lpm_prefix) and then [`get_mut`](PrefixMap::get_mut).
    pub fn get_lpm_mut(&mut self, prefix: &P) -> Option<(P, &mut T)>
        requires { P.prefix_len prefix.now ≤ P.R.WIDTH }
        ensures longest { IsLongestUnder self.old.entries [] (P.key prefix.now) (option_map (λ item. P.key item.0) result) }
        ensures value { IfSome result (λ item. map.get self.old.entries (P.key item.0) ≡ Some item.1.now) }
        ensures item { IfSome result (λ item. IsItem P.R.WIDTH P.PrefixKey item.0 (P.key item.0)) }
    {
        let found = self.get_lpm_prefix(prefix)?;
        Some(self.item_mut(found))
    }

    /// The shortest stored key that the prefix's key begins with, and its value; `None` where there is none.
    pub fn get_spm(&self, prefix: &P) -> Option<(P, &T)>
        requires { P.prefix_len prefix.now ≤ P.R.WIDTH }
        ensures first { option_map (λ item. (P.key item.0, item.1.now)) result ≡ slice_get (covers self.now.entries (P.key prefix.now)) 0 }
        ensures item { IfSome result (λ item. IsItem P.R.WIDTH P.PrefixKey item.0 (P.key item.0)) }
    {
        let found = self.shortest(prefix)?;
        Some((prefix_of(found.key, found.len), found.value))
    }

    /// The shortest stored key that the prefix's key begins with; `None` where there is none.
    pub fn get_spm_prefix(&self, prefix: &P) -> Option<P>
        requires { P.prefix_len prefix.now ≤ P.R.WIDTH }
        ensures first { option_map P.key result ≡ option_map (λ entry. entry.0) (slice_get (covers self.now.entries (P.key prefix.now)) 0) }
        ensures item { IfSome result (λ found. IsItem P.R.WIDTH P.PrefixKey found (P.key found)) }
    {
        let (found, _) = self.get_spm(prefix)?;
        Some(found)
    }

    /// Whether a stored key is one that the prefix's key begins with.
    pub fn is_covered(&self, prefix: &P) -> bool
        requires { P.prefix_len prefix.now ≤ P.R.WIDTH }
        ensures { IsTrue result ↔ IsSome (slice_get (covers self.now.entries (P.key prefix.now)) 0) }
    {
        self.shortest(prefix).is_some()
    }

    /// Whether each address that extends the prefix's key has an answer.
    pub fn is_covered_in_aggregate(&self, prefix: &P) -> bool
        requires { P.prefix_len prefix.now ≤ P.R.WIDTH }
        ensures { IsTrue result ↔ IsCovered P.R.WIDTH self.now.entries (P.key prefix.now) }
    {
        covers_in_aggregate(&self.table, prefix.repr(), u32::from(prefix.prefix_len()))
    }

    /// The entry at the longest stored key that the prefix's key begins with.
    fn longest(&self, prefix: &P) -> Option<Found<'_, P::R, T>>
        requires { P.prefix_len prefix.now ≤ P.R.WIDTH }
        ensures longest { IsLongestUnder self.now.entries [] (P.key prefix.now) (option_map (found_key P.R.bits) result) }
        ensures value { IfSome result (λ found. map.get self.now.entries (found_key P.R.bits found) ≡ Some found.value.now) }
        ensures fits { IfSome result (λ found. found.len ≤ P.R.WIDTH) }
    {
        longest_front(&self.table, prefix.repr(), u32::from(prefix.prefix_len()))
    }

    /// The entry at the shortest stored key that the prefix's key begins with.
    fn shortest(&self, prefix: &P) -> Option<Found<'_, P::R, T>>
        requires { P.prefix_len prefix.now ≤ P.R.WIDTH }
        ensures first { option_map (entry_from P.R.bits 0) result ≡ slice_get (covers self.now.entries (P.key prefix.now)) 0 }
        ensures fits { IfSome result (λ found. found.len ≤ P.R.WIDTH) }
    {
        shortest_front(
            &self.table,
            prefix.repr(),
            0,
            u32::from(prefix.prefix_len()),
        )
    }
}

impl<P: Prefix, T> PrefixMap<P, T> {
    ghost use Rattle.prefix_model.specs.Counts.{Counts};
    ghost use Rattle.prefix_model.specs.Tables.{answer};

    /// How many addresses have an answer; `None` where all have one.
    pub fn address_count(&self) -> Option<P::R>
        ensures { Counts P.R.value P.R.WIDTH (answer self.now.entries) result }
    {
        address_count::<P::R, T>(&self.table)
    }
}
