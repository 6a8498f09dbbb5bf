//! Walks over the entries of a joint map.
ghost use Rattle.std.specs.Prelude.{◌≡◌};
ghost use Rattle.prefix_joint_walks.specs.JointIterators.{joint_left, joint_keys_left, joint_values_left};

use crate::map::JointPrefixMap;
use either::{Left, Right};
use prefix_joint_walks::JointPrefixBits;
use prefix_joint_walks::iter::{Iter, Keys, Values};
use prefix_map::map::iter::Iter as FamilyIter;

impl<P: JointPrefixBits, T> JointPrefixMap<P, T> {
    ghost use Rattle.either.specs.Either.{map_either};
    ghost use Rattle.prefix_joint_walks.specs.Joint.{Fits, joint_entries, joint_walk, joint_walk_from};

    /// The entries, each a prefix with zero host bits and a reference to its value: those of the first family, and then
    /// those of the second, each in key order.
    pub fn iter(&self) -> Iter<'_, P, T>
        ensures { joint_left result ≡ joint_entries self.now }
    {
        Iter::whole(&self.t1, &self.t2)
    }

    /// The prefixes of the entries, in the order of [`iter`](JointPrefixMap::iter).
    pub fn keys(&self) -> Keys<'_, P, T>
        ensures { joint_keys_left result ≡ joint_entries self.now }
    {
        Keys::new(self.iter())
    }

    /// The values of the entries, in the order of [`iter`](JointPrefixMap::iter).
    pub fn values(&self) -> Values<'_, P, T>
        ensures { joint_values_left result ≡ joint_entries self.now }
    {
        Values::new(self.iter())
    }

    /// The entries that do not stand before the prefix, and its own only where `inclusive`. A prefix of the first family
    /// goes on through the whole second one; a prefix of the second gives no entry of the first.
    pub fn iter_from(&self, prefix: &P, inclusive: bool) -> Iter<'_, P, T>
        requires { Fits P.P1.R.WIDTH P.P1.PrefixKey P.P2.R.WIDTH P.P2.PrefixKey (P.prefix prefix.now) }
        ensures { joint_left result
            ≡ joint_walk_from self.now.t1.entries self.now.t2.entries (map_either P.P1.key P.P2.key (P.prefix prefix.now)) inclusive }
    {
        match prefix.p1_or_p2_ref() {
            Left(p) => Iter::new(self.t1.iter_from(p, inclusive), self.t2.iter()),
            Right(p) => Iter::new(FamilyIter::default(), self.t2.iter_from(p, inclusive)),
        }
    }

    /// The entries whose keys begin with the prefix's key, its own among them, in key order.
    pub fn children(&self, prefix: &P) -> Iter<'_, P, T>
        requires { Fits P.P1.R.WIDTH P.P1.PrefixKey P.P2.R.WIDTH P.P2.PrefixKey (P.prefix prefix.now) }
        ensures { joint_left result
            ≡ joint_walk self.now.t1.entries self.now.t2.entries (map_either P.P1.key P.P2.key (P.prefix prefix.now)) }
    {
        match prefix.p1_or_p2_ref() {
            Left(p) => Iter::new(self.t1.children(p), FamilyIter::default()),
            Right(p) => Iter::new(FamilyIter::default(), self.t2.children(p)),
        }
    }
}
