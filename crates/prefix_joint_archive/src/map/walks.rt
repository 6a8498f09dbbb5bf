//! Walks over the entries of an archived joint map, and the entries that cover a prefix.
ghost use Rattle.std.specs.Prelude.{◌≡◌, ◌≤◌};
ghost use Rattle.either.specs.Either.{map_either};
ghost use Rattle.prefix_joint_walks.specs.Joint.{Fits, joint_covers, joint_entries, joint_walk, joint_walk_from};
ghost use Rattle.prefix_joint_archive.specs.Families.{pair_of};

use crate::map::{ArchivedJointPrefixMap, Cover, CoverKeys, CoverValues, Iter, Keys, Values};
use either::{Left, Right};
use prefix_archive::ArchivedValue;
use prefix_archive::map::Iter as FamilyIter;
use prefix_joint::JointPrefixBits;
use prefix_joint_archive_walks::JointRest;
use prefix_layout::ValueCodec;
use prefix_table::{Bits, PrefixBits};

impl<'a, P: JointPrefixBits, T: ValueCodec> ArchivedJointPrefixMap<'a, P, T> {
    /// The entries, each a prefix with zero host bits and its value: those of the first family, and then those of the
    /// second, each in key order.
    pub fn iter(&self) -> Iter<'a, P, T>
        ensures { ⟦<Iter<'a, P, T> as JointRest>⟧.left result ≡ joint_entries (pair_of self.now.t1.table.entries self.now.t2.table.entries) }
    {
        Iter::new(self.t1.iter(), self.t2.iter())
    }

    /// The prefixes of the entries, in the order of [`iter`](ArchivedJointPrefixMap::iter).
    pub fn keys(&self) -> Keys<'a, P, T>
        ensures { ⟦<Keys<'a, P, T> as JointRest>⟧.left result ≡ joint_entries (pair_of self.now.t1.table.entries self.now.t2.table.entries) }
    {
        Keys::new(self.iter())
    }

    /// The values of the entries, in the order of [`iter`](ArchivedJointPrefixMap::iter).
    pub fn values(&self) -> Values<'a, P, T>
        ensures { ⟦<Values<'a, P, T> as JointRest>⟧.left result ≡ joint_entries (pair_of self.now.t1.table.entries self.now.t2.table.entries) }
    {
        Values::new(self.iter())
    }

    /// The entries that do not stand before the prefix, and its own only where `inclusive`. A prefix of the first family
    /// goes on through the whole second one; a prefix of the second gives no entry of the first.
    pub fn iter_from(&self, prefix: &P, inclusive: bool) -> Iter<'a, P, T>
        requires { Fits P.P1.R.WIDTH P.P1.PrefixKey P.P2.R.WIDTH P.P2.PrefixKey (P.prefix prefix.now) }
        ensures { ⟦<Iter<'a, P, T> as JointRest>⟧.left result
            ≡ joint_walk_from self.now.t1.table.entries self.now.t2.table.entries (map_either P.P1.key P.P2.key (P.prefix prefix.now)) inclusive }
    {
        match prefix.p1_or_p2_ref() {
            Left(p) => Iter::new(self.t1.iter_from(p, inclusive), self.t2.iter()),
            Right(p) => Iter::new(FamilyIter::default(), self.t2.iter_from(p, inclusive)),
        }
    }

    /// The entries whose keys begin with the prefix's key, its own among them, in key order.
    pub fn children(&self, prefix: &P) -> Iter<'a, P, T>
        requires { Fits P.P1.R.WIDTH P.P1.PrefixKey P.P2.R.WIDTH P.P2.PrefixKey (P.prefix prefix.now) }
        ensures { ⟦<Iter<'a, P, T> as JointRest>⟧.left result
            ≡ joint_walk self.now.t1.table.entries self.now.t2.table.entries (map_either P.P1.key P.P2.key (P.prefix prefix.now)) }
    {
        match prefix.p1_or_p2_ref() {
            Left(p) => Iter::new(self.t1.children(p), FamilyIter::default()),
            Right(p) => Iter::new(FamilyIter::default(), self.t2.children(p)),
        }
    }
}

impl<'a, 'b, P: JointPrefixBits, T: ValueCodec> IntoIterator
    for &'b ArchivedJointPrefixMap<'a, P, T> {
    type Item = (P, ArchivedValue<'a, T>);

    type IntoIter = Iter<'a, P, T>;

    ghost into_iter_gives = { λ m it. ⟦<Iter<'a, P, T> as JointRest>⟧.left it
        ≡ joint_entries (pair_of m.now.t1.table.entries m.now.t2.table.entries) };

    fn into_iter(self) -> Iter<'a, P, T> {
        self.iter()
    }
}

impl<'a, P: JointPrefixBits, T: ValueCodec> ArchivedJointPrefixMap<'a, P, T> {
    /// The entries whose keys the prefix's key begins with, its own among them, the shortest first.
    pub fn cover(&self, prefix: &P) -> Cover<'a, P, T>
        requires { Fits P.P1.R.WIDTH P.P1.PrefixKey P.P2.R.WIDTH P.P2.PrefixKey (P.prefix prefix.now) }
        ensures { ⟦<Cover<'a, P, T> as JointRest>⟧.left result
            ≡ joint_covers self.now.t1.table.entries self.now.t2.table.entries (map_either P.P1.key P.P2.key (P.prefix prefix.now)) }
    {
        match prefix.p1_or_p2_ref() {
            Left(p) => Cover::new(self.t1.cover(p), self.t2.cover(&default_route()), true),
            Right(p) => Cover::new(self.t1.cover(&default_route()), self.t2.cover(p), false),
        }
    }

    /// The prefixes of the entries of [`cover`](ArchivedJointPrefixMap::cover).
    pub fn cover_keys(&self, prefix: &P) -> CoverKeys<'a, P, T>
        requires { Fits P.P1.R.WIDTH P.P1.PrefixKey P.P2.R.WIDTH P.P2.PrefixKey (P.prefix prefix.now) }
        ensures { ⟦<CoverKeys<'a, P, T> as JointRest>⟧.left result
            ≡ joint_covers self.now.t1.table.entries self.now.t2.table.entries (map_either P.P1.key P.P2.key (P.prefix prefix.now)) }
    {
        CoverKeys::new(self.cover(prefix))
    }

    /// The values of the entries of [`cover`](ArchivedJointPrefixMap::cover).
    pub fn cover_values(&self, prefix: &P) -> CoverValues<'a, P, T>
        requires { Fits P.P1.R.WIDTH P.P1.PrefixKey P.P2.R.WIDTH P.P2.PrefixKey (P.prefix prefix.now) }
        ensures { ⟦<CoverValues<'a, P, T> as JointRest>⟧.left result
            ≡ joint_covers self.now.t1.table.entries self.now.t2.table.entries (map_either P.P1.key P.P2.key (P.prefix prefix.now)) }
    {
        CoverValues::new(self.cover(prefix))
    }
}

/// The prefix of length zero.
fn default_route<P: PrefixBits>() -> P
    ensures { P.prefix_len result ≤ P.R.WIDTH }
{
    P::from_repr_len(P::R::zeros(), 0)
}
