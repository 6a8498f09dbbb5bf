//! Sets over two address families.
#![tactic(auto)]

mod build;
mod changes;
pub mod cover;
pub mod iter;
mod matches;
pub mod operations;

use either::{Left, Right};
pub use iter::{IntoIter, Iter};
pub use operations::{CoveringDifference, Difference, Intersection, Union};
use prefix_joint::{JointPrefixBits, JointPrefixKey};
use prefix_map::PrefixSet;
use prefix_table::{InsertError, MAX_ENTRIES, PrefixBits};
use std::alloc::Global;
use std::marker::Model;

/// A set of prefixes of two families: a set of each family. A contract sees the joint map to `()` that it is.
#[derive(Drop)]
pub struct JointPrefixSet<P: JointPrefixKey> {
    /// The members of the first family.
    pub t1: PrefixSet<P::First>,
    /// The members of the second family.
    pub t2: PrefixSet<P::Second>,
}

impl<P: JointPrefixKey> Model for JointPrefixSet<P> {
    ghost use base.Stored.{coded_unit};
    ghost use Rattle.prefix_joint_walks.specs.Joint.{JointView, coded_joint};

    ghost Value = { JointView (Unit {0}) };

    ghost coded = { coded_joint coded_unit };

    ghost view = { λ a. record { t1 = a.t1; t2 = a.t2 } };
}

impl<P: JointPrefixBits> JointPrefixSet<P> {
    ghost use Rattle.std.specs.Prelude.{◌≡◌, ◌+◌, ◌≤◌, ◌↔◌, None, IsSome, IsTrue, IfSome, IfOk, OnOk, OnErr, IsErrAnd, is_some, is_none};
    ghost use Rattle.std.specs.FinMap as map;
    ghost use Rattle.either.specs.Either.{map_either};
    ghost use Rattle.prefix_model.specs.Positions.{root_alone};
    ghost use Rattle.prefix_table.specs.Refusals.{IsFull};
    ghost use Rattle.prefix_joint_walks.specs.Joint.{Fits, HasZeroHostBits, family, value_at, with_entry_at};

    /// An empty set. Takes no memory yet.
    pub fn new(alloc: Global) -> Self
        ensures entries { (result.t1.entries ≡ map.empty) × (result.t2.entries ≡ map.empty) }
        ensures kept { (result.t1.kept ≡ root_alone) × (result.t2.kept ≡ root_alone) }
    {
        JointPrefixSet {
            t1: PrefixSet::new(alloc),
            t2: PrefixSet::new(alloc),
        }
    }

    /// How many members there are in both families.
    pub fn len(&self) -> usize
        ensures { result ≡ map.len self.now.t1.entries + map.len self.now.t2.entries }
    {
        self.t1.as_map().table().len() + self.t2.as_map().table().len()
    }

    /// Whether there is no member.
    pub fn is_empty(&self) -> bool
        ensures { IsTrue result ↔ (map.len self.now.t1.entries + map.len self.now.t2.entries ≡ 0) }
    {
        self.t1.is_empty() && self.t2.is_empty()
    }

    /// Whether the prefix's key is a member.
    pub fn contains(&self, prefix: &P) -> bool
        requires { Fits P.P1.R.WIDTH P.P1.PrefixKey P.P2.R.WIDTH P.P2.PrefixKey (P.prefix prefix.now) }
        ensures { result ≡ is_some (value_at self.now (map_either P.P1.key P.P2.key (P.prefix prefix.now))) }
    {
        match prefix.p1_or_p2_ref() {
            Left(p) => self.t1.contains(p),
            Right(p) => self.t2.contains(p),
        }
    }

    /// The member with the prefix's key, with zero host bits; `None` where it is none.
    pub fn get(&self, prefix: &P) -> Option<P>
        requires { Fits P.P1.R.WIDTH P.P1.PrefixKey P.P2.R.WIDTH P.P2.PrefixKey (P.prefix prefix.now) }
        ensures found { IsSome result ↔ IsSome (value_at self.now (map_either P.P1.key P.P2.key (P.prefix prefix.now))) }
        ensures key { IfSome result (λ member. map_either P.P1.key P.P2.key (P.prefix member) ≡ map_either P.P1.key P.P2.key (P.prefix prefix.now)) }
        ensures host_bits { IfSome result (λ member. HasZeroHostBits P.P1.R.WIDTH P.P1.PrefixKey P.P2.R.WIDTH P.P2.PrefixKey (P.prefix member)) }
    {
        match prefix.p1_or_p2_ref() {
            Left(p) => {
                let member = self.t1.get(p)?;
                Some(P::from_p1(&member))
            }
            Right(p) => {
                let member = self.t2.get(p)?;
                Some(P::from_p2(&member))
            }
        }
    }

    /// Makes the prefix's key a member, and tells whether it was none before. Refuses as
    /// [`JointPrefixMap::insert`](prefix_joint::JointPrefixMap::insert) does.
    pub fn insert(&mut self, prefix: P) -> Result<bool, InsertError<()>>
        requires { Fits P.P1.R.WIDTH P.P1.PrefixKey P.P2.R.WIDTH P.P2.PrefixKey (P.prefix prefix) }
        ensures new { IfOk result (λ new. new ≡ is_none (value_at self.old (map_either P.P1.key P.P2.key (P.prefix prefix)))) }
        ensures stored { OnOk result (self.new ≡ with_entry_at self.old (map_either P.P1.key P.P2.key (P.prefix prefix)) tt) }
        ensures unchanged { OnErr result (self.new ≡ self.old) }
        ensures new_key { OnErr result (value_at self.old (map_either P.P1.key P.P2.key (P.prefix prefix)) ≡ None) }
        ensures full_only { IsErrAnd result IsFull → map.len (family self.old (map_either P.P1.key P.P2.key (P.prefix prefix))).entries ≡ MAX_ENTRIES }
        ensures full { map.len (family self.old (map_either P.P1.key P.P2.key (P.prefix prefix))).entries ≡ MAX_ENTRIES
            → value_at self.old (map_either P.P1.key P.P2.key (P.prefix prefix)) ≡ None → IsErrAnd result IsFull }
    {
        match prefix.p1_or_p2() {
            Left(p) => self.t1.insert(p),
            Right(p) => self.t2.insert(p),
        }
    }
}
