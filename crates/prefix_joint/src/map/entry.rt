//! The entry of one key of a joint map, which holds it or lacks it.
//! A clause `writes_back` says what the map holds once the borrow that the method returns has ended.
ghost use Rattle.std.specs.Prelude.{◌≡◌, true, false, is_some};
ghost use Rattle.either.specs.Either.{map_either};
ghost use Rattle.prefix_joint_walks.specs.Joint.{Fits, HasZeroHostBits, value_at};
ghost use Rattle.prefix_joint.specs.Fitting.{fits_once};

use crate::map::JointPrefixMap;
use either::{Left, Right};
use prefix_joint_walks::{JointPrefixBits, JointPrefixKey};
use prefix_table::{InsertError, MAX_ENTRIES, PrefixBits};

/// The entry of a key, which the map holds or lacks.
#[derive(Drop)]
pub enum Entry<'a, P: JointPrefixKey, T> {
    /// The map lacks the key.
    Vacant(VacantEntry<'a, P, T>),
    /// The map holds the key.
    Occupied(OccupiedEntry<'a, P, T>),
}

/// A key that the map lacks.
#[derive(Drop)]
pub struct VacantEntry<'a, P: JointPrefixKey, T> {
    map: &'a mut JointPrefixMap<P, T>,
    prefix: P,
    ghost fits: { Fits P.First.WIDTH P.First.PrefixKey P.Second.WIDTH P.Second.PrefixKey (P.prefix prefix) } by { fits_once P.First.PrefixKey P.Second.PrefixKey (P.prefix prefix) },
    ghost absent: { is_some (value_at map.now (map_either P.First.key P.Second.key (P.prefix prefix))) ≡ false },
}

/// An entry that the map holds.
#[derive(Drop)]
pub struct OccupiedEntry<'a, P: JointPrefixKey, T> {
    map: &'a mut JointPrefixMap<P, T>,
    prefix: P,
    ghost fits: { Fits P.First.WIDTH P.First.PrefixKey P.Second.WIDTH P.Second.PrefixKey (P.prefix prefix) } by { fits_once P.First.PrefixKey P.Second.PrefixKey (P.prefix prefix) },
    ghost stored: { is_some (value_at map.now (map_either P.First.key P.Second.key (P.prefix prefix))) ≡ true },
}

/// The prefix with zero host bits.
fn bare<P: JointPrefixBits>(prefix: P) -> P
    requires { Fits P.P1.R.WIDTH P.P1.PrefixKey P.P2.R.WIDTH P.P2.PrefixKey (P.prefix prefix) }
    ensures fits { Fits P.P1.R.WIDTH P.P1.PrefixKey P.P2.R.WIDTH P.P2.PrefixKey (P.prefix result) }
    ensures key { map_either P.P1.key P.P2.key (P.prefix result) ≡ map_either P.P1.key P.P2.key (P.prefix prefix) }
    ensures host_bits { HasZeroHostBits P.P1.R.WIDTH P.P1.PrefixKey P.P2.R.WIDTH P.P2.PrefixKey (P.prefix result) }
{
    match prefix.p1_or_p2() {
        Left(p) => P::from_p1(&P::P1::from_repr_len(p.repr(), p.prefix_len())),
        Right(p) => P::from_p2(&P::P2::from_repr_len(p.repr(), p.prefix_len())),
    }
}

/// The same prefix once more.
fn again<P: JointPrefixBits>(prefix: &P) -> P
    ensures { P.prefix result ≡ P.prefix prefix.now }
{
    match prefix.p1_or_p2_ref() {
        Left(p) => P::from_p1(p),
        Right(p) => P::from_p2(p),
    }
}

impl<P: JointPrefixBits, T> JointPrefixMap<P, T> {
    ghost use Rattle.prefix_joint.specs.JointEntries.{entry_key, entry_map_ref, entry_prefix, MatchEntry};

    /// The entry of the prefix's key, to read, insert or change in place.
    pub fn entry(&mut self, prefix: P) -> Entry<'_, P, T>
        requires { Fits P.P1.R.WIDTH P.P1.PrefixKey P.P2.R.WIDTH P.P2.PrefixKey (P.prefix prefix) }
        // It borrows this map as it is, at the key, with zero host bits.
        ensures found { MatchEntry result (is_some (value_at self.old (map_either P.P1.key P.P2.key (P.prefix prefix))) ≡ true)
            (is_some (value_at self.old (map_either P.P1.key P.P2.key (P.prefix prefix))) ≡ false) }
        ensures key { entry_key result ≡ map_either P.P1.key P.P2.key (P.prefix prefix) }
        ensures host_bits { HasZeroHostBits P.P1.R.WIDTH P.P1.PrefixKey P.P2.R.WIDTH P.P2.PrefixKey (entry_prefix result) }
        ensures same_map { (entry_map_ref result).ghost_name ≡ self.entry.ghost_name }
        ensures unchanged { (entry_map_ref result).now ≡ self.old }
    {
        let bare = bare(prefix);
        if self.contains_key(&bare) {
            Entry::Occupied(OccupiedEntry {
                map: self,
                prefix: bare,
            })
        } else {
            Entry::Vacant(VacantEntry {
                map: self,
                prefix: bare,
            })
        }
    }
}

impl<'a, P: JointPrefixBits, T> VacantEntry<'a, P, T> {
    ghost use Rattle.std.specs.Prelude.{◌≡◌, IfOk, IfErr, IsErrAnd};
    ghost use Rattle.std.specs.Borrow.{sem};
    ghost use Rattle.prefix_table.specs.Refusals.{value_of, IsFull};
    ghost use Rattle.prefix_joint.specs.JointEntries.{Vacant, entry_len, entry_prefix, entry_lends_ok};

    /// The prefix that would go in. Its host bits are zero.
    pub fn key(&self) -> P
        ensures { P.prefix result ≡ entry_prefix (Vacant self.now) }
    {
        again(&self.prefix)
    }

    /// Stores a value at the key, or hands it back.
    pub fn insert(self, default: T) -> Result<&'a mut T, InsertError<T>>
    where
        P: Drop,
        ensures* writes_back { sem 𝓛 (entry_lends_ok P.row T.row P.P1.row P.P2.row P.JointPrefixKey P.P1.PrefixKey P.P2.PrefixKey (Vacant self.entry) result) }
        ensures value { IfOk result (λ value. value.now ≡ default) }
        ensures handed_back { IfErr result (λ refused. value_of refused ≡ default) }
        ensures full_only { IsErrAnd result IsFull → entry_len (Vacant self.entry) ≡ MAX_ENTRIES }
        ensures full { entry_len (Vacant self.entry) ≡ MAX_ENTRIES → IsErrAnd result IsFull }
    {
        let VacantEntry { map, prefix } = self;
        match map.insert(again(&prefix), default) {
            Ok(None) => Ok(map.value_mut(&prefix)),
            Ok(Some(_before)) => unreachable!(),
            Err(refused) => Err(refused),
        }
    }

    /// Stores what `default` answers at the key, or hands it back. It is called once.
    pub fn insert_with<F: FnOnce() -> T>(self, default: F) -> Result<&'a mut T, InsertError<T>>
    where
        P: Drop,
        requires { F.pre default }
        ensures* writes_back { sem 𝓛 (entry_lends_ok P.row T.row P.P1.row P.P2.row P.JointPrefixKey P.P1.PrefixKey P.P2.PrefixKey (Vacant self.entry) result) }
        ensures value { IfOk result (λ value. F.post default value.now) }
        ensures handed_back { IfErr result (λ refused. F.post default (value_of refused)) }
        ensures full_only { IsErrAnd result IsFull → entry_len (Vacant self.entry) ≡ MAX_ENTRIES }
        ensures full { entry_len (Vacant self.entry) ≡ MAX_ENTRIES → IsErrAnd result IsFull }
    {
        self.insert(default())
    }

    /// Stores the default value of the type at the key, or hands it back.
    pub fn default(self) -> Result<&'a mut T, InsertError<T>>
    where
        P: Drop,
        T: Default,
        ensures* writes_back { sem 𝓛 (entry_lends_ok P.row T.row P.P1.row P.P2.row P.JointPrefixKey P.P1.PrefixKey P.P2.PrefixKey (Vacant self.entry) result) }
        ensures value { IfOk result (λ value. T.is_default value.now) }
        ensures handed_back { IfErr result (λ refused. T.is_default (value_of refused)) }
        ensures full_only { IsErrAnd result IsFull → entry_len (Vacant self.entry) ≡ MAX_ENTRIES }
        ensures full { entry_len (Vacant self.entry) ≡ MAX_ENTRIES → IsErrAnd result IsFull }
    {
        self.insert(T::default())
    }
}

impl<'a, P: JointPrefixBits, T> OccupiedEntry<'a, P, T> {
    ghost use Rattle.std.specs.Prelude.{◌≡◌, Some};
    ghost use Rattle.std.specs.Borrow.{sem};
    ghost use Rattle.prefix_joint.specs.JointEntries.{Occupied, entry_prefix, entry_value, entry_lends, occupied_lends, with_entry_value, IsWritten};

    /// The entry's prefix. Its host bits are zero.
    pub fn key(&self) -> P
        ensures { P.prefix result ≡ entry_prefix (Occupied self.now) }
    {
        again(&self.prefix)
    }

    /// The value.
    pub fn get(&self) -> &T
        ensures { entry_value (Occupied self.now) ≡ Some result.now }
    {
        self.map.get(&self.prefix).unwrap()
    }

    /// The value, to write.
    pub fn get_mut(&mut self) -> &mut T
    where
        P: Drop,
        ensures* writes_back { sem 𝓛 (occupied_lends P.row T.row P.P1.row P.P2.row P.JointPrefixKey P.P1.PrefixKey P.P2.PrefixKey self.entry result) }
        ensures value { entry_value (Occupied self.old) ≡ Some result.now }
        ensures written { (w : T) → IsWritten (Occupied self.old) w (Occupied (with_entry_value self.old w)) }
    {
        let prefix = again(&self.prefix);
        self.map.value_mut(&prefix)
    }

    /// The value, to write, for as long as the map is lent.
    pub fn into_mut(self) -> &'a mut T
    where
        P: Drop,
        ensures* writes_back { sem 𝓛 (entry_lends P.row T.row P.P1.row P.P2.row P.JointPrefixKey P.P1.PrefixKey P.P2.PrefixKey (Occupied self.entry) result) }
        ensures value { entry_value (Occupied self.entry) ≡ Some result.now }
    {
        let OccupiedEntry { map, prefix } = self;
        map.value_mut(&prefix)
    }
}

impl<'a, P: JointPrefixBits, T> OccupiedEntry<'a, P, T> {
    ghost use Rattle.std.specs.Prelude.{◌≡◌, Some};
    ghost use Rattle.prefix_joint.specs.JointEntries.{Occupied, entry_value, map_with, map_without};

    /// Stores a value in place of the old one, and answers that.
    pub fn insert(self, value: T) -> T
    where
        P: Drop,
        ensures before { entry_value (Occupied self.entry) ≡ Some result }
        ensures stored { self.exit.0.now ≡ map_with (Occupied self.entry) value }
    {
        let prefix = again(&self.prefix);
        self.map.replace(&prefix, value)
    }

    /// Takes the entry away, and answers its value. All kept positions stay.
    pub fn remove(self) -> T
    where
        P: Drop,
        ensures before { entry_value (Occupied self.entry) ≡ Some result }
        ensures removed { self.exit.0.now ≡ map_without (Occupied self.entry) }
    {
        let prefix = self.prefix;
        self.map.take(&prefix)
    }
}

impl<'a, P: JointPrefixBits, T> Entry<'a, P, T> {
    ghost use Rattle.std.specs.Prelude.{◌≡◌, Some, None, IsSome, IsOk, IfOk, IfErr, IsErrAnd, unwrap_or};
    ghost use Rattle.std.specs.Borrow.{sem, MutBor};
    ghost use Rattle.std.specs.Option.{option_copied, UnwrapsOrElse};
    ghost use Rattle.prefix_table.specs.Refusals.{value_of, IsFull};
    ghost use Rattle.std.specs.Option.{option_copied_mut};
    ghost use Rattle.std.specs.Map.Calls.{ModifiesValue};
    ghost use Rattle.prefix_joint.specs.JointEntries.{entry_len, entry_map_ref, entry_prefix, entry_value, entry_lends_ok, map_with};

    /// The entry's prefix. Its host bits are zero.
    pub fn key(&self) -> P
        ensures { P.prefix result ≡ entry_prefix self.now }
    {
        match self {
            Entry::Vacant(entry) => entry.key(),
            Entry::Occupied(entry) => entry.key(),
        }
    }

    /// The value; `None` where the entry is vacant.
    pub fn get(&self) -> Option<&T>
        ensures { option_copied result ≡ entry_value self.now }
    {
        match self {
            Entry::Vacant(_) => None,
            Entry::Occupied(entry) => Some(entry.get()),
        }
    }

    /// The value, to write; `None` where the entry is vacant.
    ///
    /// No clause can say here what the map holds after a write: where that is to be known, match the entry and call
    /// `get_mut` of its variant, or call [`and_modify`](Entry::and_modify).
    pub fn get_mut(&mut self) -> Option<&mut T>
    where
        P: Drop,
        ensures value { option_copied_mut result ≡ entry_value self.old }
    {
        match self {
            Entry::Vacant(_) => None,
            Entry::Occupied(entry) => Some(entry.get_mut()),
        }
    }

    /// Calls `f` on the value, exactly where the entry is occupied.
    pub fn and_modify<F: FnOnce(&mut T)>(self, f: F) -> Entry<'a, P, T>
    where
        P: Drop,
        requires { (p : MutBor T) → entry_value self ≡ Some p.now → F.pre f p }
        ensures same_map { (entry_map_ref result).ghost_name ≡ (entry_map_ref self.entry).ghost_name }
        ensures same_prefix { entry_prefix result ≡ entry_prefix self.entry }
        ensures same_writes { (w : T) → map_with result w ≡ map_with self.entry w }
        ensures update { ModifiesValue F.FnOnce f (entry_value self.entry) (entry_value result) }
    {
        match self {
            Entry::Vacant(entry) => Entry::Vacant(entry),
            Entry::Occupied(mut entry) => {
                f(entry.get_mut());
                Entry::Occupied(entry)
            }
        }
    }

    /// The stored value, or this one, stored; to write.
    pub fn or_insert(self, default: T) -> Result<&'a mut T, InsertError<T>>
    where
        P: Drop,
        T: Drop,
        ensures* writes_back { sem 𝓛 (entry_lends_ok P.row T.row P.P1.row P.P2.row P.JointPrefixKey P.P1.PrefixKey P.P2.PrefixKey self.entry result) }
        ensures value { IfOk result (λ value. value.now ≡ unwrap_or (entry_value self.entry) default) }
        ensures occupied { IsSome (entry_value self.entry) → IsOk result }
        ensures handed_back { IfErr result (λ refused. value_of refused ≡ default) }
        ensures full_only { IsErrAnd result IsFull → entry_len self.entry ≡ MAX_ENTRIES }
        ensures full { entry_value self.entry ≡ None → entry_len self.entry ≡ MAX_ENTRIES → IsErrAnd result IsFull }
    {
        match self {
            Entry::Vacant(entry) => entry.insert(default),
            Entry::Occupied(stored) => Ok(stored.into_mut()),
        }
    }

    /// The stored value, or what `default` answers, stored; to write. It is called exactly where the entry is vacant.
    pub fn or_insert_with<F: FnOnce() -> T>(self, default: F) -> Result<&'a mut T, InsertError<T>>
    where
        P: Drop,
        requires { entry_value self ≡ None → F.pre default }
        ensures* writes_back { sem 𝓛 (entry_lends_ok P.row T.row P.P1.row P.P2.row P.JointPrefixKey P.P1.PrefixKey P.P2.PrefixKey self.entry result) }
        ensures value { IfOk result (λ value. UnwrapsOrElse (entry_value self.entry) (F.post default) value.now) }
        ensures occupied { IsSome (entry_value self.entry) → IsOk result }
        ensures handed_back { IfErr result (λ refused. F.post default (value_of refused)) }
        ensures full_only { IsErrAnd result IsFull → entry_len self.entry ≡ MAX_ENTRIES }
        ensures full { entry_value self.entry ≡ None → entry_len self.entry ≡ MAX_ENTRIES → IsErrAnd result IsFull }
    {
        match self {
            Entry::Vacant(entry) => entry.insert(default()),
            Entry::Occupied(entry) => Ok(entry.into_mut()),
        }
    }

    /// The stored value, or the default one, stored; to write.
    pub fn or_default(self) -> Result<&'a mut T, InsertError<T>>
    where
        P: Drop,
        T: Default,
        ensures* writes_back { sem 𝓛 (entry_lends_ok P.row T.row P.P1.row P.P2.row P.JointPrefixKey P.P1.PrefixKey P.P2.PrefixKey self.entry result) }
        ensures value { IfOk result (λ value. UnwrapsOrElse (entry_value self.entry) T.is_default value.now) }
        ensures occupied { IsSome (entry_value self.entry) → IsOk result }
        ensures handed_back { IfErr result (λ refused. T.is_default (value_of refused)) }
        ensures full_only { IsErrAnd result IsFull → entry_len self.entry ≡ MAX_ENTRIES }
        ensures full { entry_value self.entry ≡ None → entry_len self.entry ≡ MAX_ENTRIES → IsErrAnd result IsFull }
    {
        match self {
            Entry::Vacant(entry) => entry.insert(T::default()),
            Entry::Occupied(entry) => Ok(entry.into_mut()),
        }
    }
}
