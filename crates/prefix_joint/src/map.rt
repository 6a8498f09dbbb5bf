//! Maps over two address families.
mod build;
mod changes;
mod consuming;
mod covers;
pub mod cursor;
pub mod entry;
mod matches;
mod operations;
mod walks;

pub use build::is_fitting;
pub use cursor::{IterMut, ValuesMut};
use either::{Left, Right};
pub use entry::{Entry, OccupiedEntry, VacantEntry};
pub use prefix_joint_walks::cover::{Cover, CoverKeys, CoverValues};
pub use prefix_joint_walks::covering::CoveringDifference;
pub use prefix_joint_walks::difference::{Difference, DifferenceItem};
pub use prefix_joint_walks::intersection::Intersection;
pub use prefix_joint_walks::iter::{Iter, Keys, Values};
pub use prefix_joint_walks::owned::{IntoIter, IntoKeys, IntoValues};
pub use prefix_joint_walks::union::{Union, UnionItem};
pub use prefix_joint_walks::{cover, covering, difference, intersection, iter, owned, union};
use prefix_joint_walks::{JointPrefixBits, JointPrefixKey};
use prefix_map::PrefixMap;
use prefix_table::{InsertError, MAX_ENTRIES, PrefixBits};
use std::alloc::Global;
use std::marker::Model;
use std::mem;

/// A map from the prefixes of two families to values: a map of each family.
///
/// A call with a prefix asks or changes the map of its family, and leaves the other as it is.
#[derive(Drop)]
pub struct JointPrefixMap<P: JointPrefixKey, T> {
    /// The entries of the first family.
    pub t1: PrefixMap<P::First, T>,
    /// The entries of the second family.
    pub t2: PrefixMap<P::Second, T>,
}

impl<P: JointPrefixKey, T> Model for JointPrefixMap<P, T> {
    ghost use Rattle.prefix_joint_walks.specs.Joint.{JointView, coded_joint};

    ghost Value = { JointView T };

    ghost coded = { coded_joint T.code };

    ghost view = { λ a. record { t1 = a.t1; t2 = a.t2 } };
}

impl<P: JointPrefixBits, T> JointPrefixMap<P, T> {
    ghost use Rattle.std.specs.Prelude.{◌≡◌, ◌+◌, ◌↔◌, None, IsTrue, IfSome, IfOk, IfErr, OnOk, OnErr, IsErrAnd, Some, is_some, true};
    ghost use Rattle.std.specs.Borrow.{sem};
    ghost use Rattle.std.specs.FinMap as map;
    ghost use Rattle.std.specs.Option.{option_copied, option_copied_mut, option_map};
    ghost use Rattle.either.specs.Either.{map_either};
    ghost use Rattle.prefix_model.specs.Positions.{root_alone};
    ghost use Rattle.prefix_table.specs.Refusals.{value_of, IsFull};
    ghost use Rattle.prefix_joint_walks.specs.Joint.{Fits, HasZeroHostBits, family, value_at, with_entry_at, with_value_at};
    ghost use Rattle.prefix_joint.specs.JointEntries.{without_entry_at};
    ghost use Rattle.prefix_joint.specs.JointLending.{lends_value, lends_stored};

    /// An empty map. Takes no memory yet.
    pub fn new(alloc: Global) -> Self
        ensures entries { (result.t1.entries ≡ map.empty) × (result.t2.entries ≡ map.empty) }
        ensures kept { (result.t1.kept ≡ root_alone) × (result.t2.kept ≡ root_alone) }
    {
        JointPrefixMap {
            t1: PrefixMap::new(alloc),
            t2: PrefixMap::new(alloc),
        }
    }

    /// How many entries there are in both families.
    pub fn len(&self) -> usize
        ensures { result ≡ map.len self.now.t1.entries + map.len self.now.t2.entries }
    {
        self.t1.table().len() + self.t2.table().len()
    }

    /// Whether there is no entry.
    pub fn is_empty(&self) -> bool
        ensures { IsTrue result ↔ (map.len self.now.t1.entries + map.len self.now.t2.entries ≡ 0) }
    {
        self.t1.is_empty() && self.t2.is_empty()
    }

    /// The value at the prefix's key; `None` where it is not stored.
    pub fn get(&self, prefix: &P) -> Option<&T>
        requires { Fits P.P1.R.WIDTH P.P1.PrefixKey P.P2.R.WIDTH P.P2.PrefixKey (P.prefix prefix.now) }
        ensures { option_copied result ≡ value_at self.now (map_either P.P1.key P.P2.key (P.prefix prefix.now)) }
    {
        match prefix.p1_or_p2_ref() {
            Left(p) => self.t1.get(p),
            Right(p) => self.t2.get(p),
        }
    }

    /// The prefix, with zero host bits, and the value at its key; `None` where it is not stored.
    pub fn get_key_value(&self, prefix: &P) -> Option<(P, &T)>
        requires { Fits P.P1.R.WIDTH P.P1.PrefixKey P.P2.R.WIDTH P.P2.PrefixKey (P.prefix prefix.now) }
        ensures value { option_map (λ item. item.1.now) result ≡ value_at self.now (map_either P.P1.key P.P2.key (P.prefix prefix.now)) }
        ensures key { IfSome result (λ item. map_either P.P1.key P.P2.key (P.prefix item.0) ≡ map_either P.P1.key P.P2.key (P.prefix prefix.now)) }
        ensures host_bits { IfSome result (λ item. HasZeroHostBits P.P1.R.WIDTH P.P1.PrefixKey P.P2.R.WIDTH P.P2.PrefixKey (P.prefix item.0)) }
    {
        match prefix.p1_or_p2_ref() {
            Left(p) => {
                let (key, value) = self.t1.get_key_value(p)?;
                Some((P::from_p1(&key), value))
            }
            Right(p) => {
                let (key, value) = self.t2.get_key_value(p)?;
                Some((P::from_p2(&key), value))
            }
        }
    }

    /// Whether the prefix's key is stored.
    pub fn contains_key(&self, prefix: &P) -> bool
        requires { Fits P.P1.R.WIDTH P.P1.PrefixKey P.P2.R.WIDTH P.P2.PrefixKey (P.prefix prefix.now) }
        ensures { result ≡ is_some (value_at self.now (map_either P.P1.key P.P2.key (P.prefix prefix.now))) }
    {
        self.get(prefix).is_some()
    }

    /// Stores a value at the prefix's key, and answers the value before.
    ///
    /// Only a new key is refused: with [`InsertError::Full`] where its family holds
    /// [`MAX_ENTRIES`](prefix_table::MAX_ENTRIES), and with [`InsertError::Memory`] where memory is wanting. The
    /// value then comes back, and the map is as it was.
    pub fn insert(&mut self, prefix: P, value: T) -> Result<Option<T>, InsertError<T>>
        requires { Fits P.P1.R.WIDTH P.P1.PrefixKey P.P2.R.WIDTH P.P2.PrefixKey (P.prefix prefix) }

        ensures before { IfOk result (λ before. before ≡ value_at self.old (map_either P.P1.key P.P2.key (P.prefix prefix))) }
        ensures stored { OnOk result (self.new ≡ with_entry_at self.old (map_either P.P1.key P.P2.key (P.prefix prefix)) value) }

        ensures handed_back { IfErr result (λ refused. value_of refused ≡ value) }
        ensures unchanged { OnErr result (self.new ≡ self.old) }
        ensures new_key { OnErr result (value_at self.old (map_either P.P1.key P.P2.key (P.prefix prefix)) ≡ None) }
        ensures full_only { IsErrAnd result IsFull → map.len (family self.old (map_either P.P1.key P.P2.key (P.prefix prefix))).entries ≡ MAX_ENTRIES }
        ensures full { map.len (family self.old (map_either P.P1.key P.P2.key (P.prefix prefix))).entries ≡ MAX_ENTRIES
            → value_at self.old (map_either P.P1.key P.P2.key (P.prefix prefix)) ≡ None → IsErrAnd result IsFull }
    {
        match prefix.p1_or_p2() {
            Left(p) => self.t1.insert(p, value),
            Right(p) => self.t2.insert(p, value),
        }
    }

    /// The value at the prefix's key, to write; `None` where it is not stored.
    pub fn get_mut(&mut self, prefix: &P) -> Option<&mut T>
        requires { Fits P.P1.R.WIDTH P.P1.PrefixKey P.P2.R.WIDTH P.P2.PrefixKey (P.prefix prefix.now) }
        ensures* writes_back { sem 𝓛 (lends_value P.row T.row P.P1.row P.P2.row P.JointPrefixKey P.P1.PrefixKey P.P2.PrefixKey self.entry
            (map_either P.P1.key P.P2.key (P.prefix prefix.now)) result) }
        ensures value { option_copied_mut result ≡ value_at self.old (map_either P.P1.key P.P2.key (P.prefix prefix.now)) }
    {
        match prefix.p1_or_p2_ref() {
            Left(p) => self.t1.get_mut(p),
            Right(p) => self.t2.get_mut(p),
        }
    }

    /// The value at the prefix's key, which is stored, to write.
    fn value_mut(&mut self, prefix: &P) -> &mut T
        requires fits { Fits P.P1.R.WIDTH P.P1.PrefixKey P.P2.R.WIDTH P.P2.PrefixKey (P.prefix prefix.now) }
        requires stored { is_some (value_at self.old (map_either P.P1.key P.P2.key (P.prefix prefix.now))) ≡ true }
        ensures* writes_back { sem 𝓛 (lends_stored P.row T.row P.P1.row P.P2.row P.JointPrefixKey P.P1.PrefixKey P.P2.PrefixKey self.entry
            (map_either P.P1.key P.P2.key (P.prefix prefix.now)) result) }
        ensures value { value_at self.old (map_either P.P1.key P.P2.key (P.prefix prefix.now)) ≡ Some result.now }
    {
        match self.get_mut(prefix) {
            Some(value) => value,
            None => unreachable!(),
        }
    }

    /// A prefix, and the value at its key, which is stored, to write.
    fn item_mut(&mut self, prefix: P) -> (P, &mut T)
        requires fits { Fits P.P1.R.WIDTH P.P1.PrefixKey P.P2.R.WIDTH P.P2.PrefixKey (P.prefix prefix) }
        requires stored { is_some (value_at self.old (map_either P.P1.key P.P2.key (P.prefix prefix))) ≡ true }
        ensures* writes_back { sem 𝓛 (lends_stored P.row T.row P.P1.row P.P2.row P.JointPrefixKey P.P1.PrefixKey P.P2.PrefixKey self.entry
            (map_either P.P1.key P.P2.key (P.prefix prefix)) result.1) }
        ensures prefix { result.0 ≡ prefix }
        ensures value { value_at self.old (map_either P.P1.key P.P2.key (P.prefix prefix)) ≡ Some result.1.now }
    {
        let value = self.value_mut(&prefix);
        (prefix, value)
    }

    /// Stores a value at the prefix's key, which is stored, and answers the value before.
    fn replace(&mut self, prefix: &P, value: T) -> T
        requires fits { Fits P.P1.R.WIDTH P.P1.PrefixKey P.P2.R.WIDTH P.P2.PrefixKey (P.prefix prefix.now) }
        requires stored { is_some (value_at self.old (map_either P.P1.key P.P2.key (P.prefix prefix.now))) ≡ true }
        ensures before { value_at self.old (map_either P.P1.key P.P2.key (P.prefix prefix.now)) ≡ Some result }
        ensures stored { self.new ≡ with_value_at self.old (map_either P.P1.key P.P2.key (P.prefix prefix.now)) value }
    {
        mem::replace(self.value_mut(prefix), value)
    }

    /// Takes the entry of the prefix's key away, which is stored, and answers its value. All kept positions stay.
    fn take(&mut self, prefix: &P) -> T
        requires fits { Fits P.P1.R.WIDTH P.P1.PrefixKey P.P2.R.WIDTH P.P2.PrefixKey (P.prefix prefix.now) }
        requires stored { is_some (value_at self.old (map_either P.P1.key P.P2.key (P.prefix prefix.now))) ≡ true }
        ensures value { value_at self.old (map_either P.P1.key P.P2.key (P.prefix prefix.now)) ≡ Some result }
        ensures taken { self.new ≡ without_entry_at self.old (map_either P.P1.key P.P2.key (P.prefix prefix.now)) }
    {
        self.remove_keep_tree(prefix).unwrap()
    }
}
