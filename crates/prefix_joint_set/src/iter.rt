//! Iterators over the members of a joint set: those of the first family, and then those of the second, each in key order.
ghost use Rattle.std.specs.Prelude.{◌≡◌, [], length};
ghost use Rattle.std.specs.Iterator.{at_most};
ghost use Rattle.prefix_joint_walks.specs.JointItems.{GivesJointKey};
ghost use Rattle.prefix_joint_set.specs.SetIterators.{members_left, owned_members_left};

use crate::JointPrefixSet;
use either::{Left, Right};
use prefix_joint::JointPrefixBits;
use prefix_joint::map::{Iter as Entries, Keys};
use prefix_map::map::iter::Iter as FamilyIter;
use prefix_map::set::IntoIter as FamilyIntoIter;

/// The members, with zero host bits.
#[derive(Drop)]
pub struct Iter<'a, P: JointPrefixBits> {
    keys: Keys<'a, P, ()>,
}

impl<'a, P: JointPrefixBits> Default for Iter<'a, P> {
    ghost is_default = { λ it. members_left it ≡ [] };

    fn default() -> Self {
        Iter {
            keys: Keys::default(),
        }
    }
}

impl<'a, P: JointPrefixBits + Drop> Iterator for Iter<'a, P> {
    type Item = P;

    ghost next_gives = { λ s r t. GivesJointKey P.prefix P.P1.R.WIDTH P.P1.PrefixKey P.P2.R.WIDTH P.P2.PrefixKey
        (members_left s) r (members_left t) };

    ghost remaining = { λ s. at_most (length (members_left s)) };

    fn next(&mut self) -> Option<P> {
        self.keys.next()
    }
}

/// The members, with zero host bits, taken out of the set.
#[derive(Drop)]
pub struct IntoIter<P: JointPrefixBits> {
    first: FamilyIntoIter<P::P1>,
    second: FamilyIntoIter<P::P2>,
}

impl<P: JointPrefixBits + Drop> Iterator for IntoIter<P> {
    type Item = P;

    ghost next_gives = { λ s r t. GivesJointKey P.prefix P.P1.R.WIDTH P.P1.PrefixKey P.P2.R.WIDTH P.P2.PrefixKey
        (owned_members_left s) r (owned_members_left t) };

    ghost remaining = { λ s. at_most (length (owned_members_left s)) };

    fn next(&mut self) -> Option<P> {
        if let Some(prefix) = self.first.next() {
            return Some(P::from_p1(&prefix));
        }
        let prefix = self.second.next()?;
        Some(P::from_p2(&prefix))
    }
}

impl<P: JointPrefixBits + Drop> IntoIterator for JointPrefixSet<P> {
    type Item = P;

    type IntoIter = IntoIter<P>;

    ghost use Rattle.prefix_joint_walks.specs.Joint.{joint_entries};

    ghost into_iter_gives = { λ m it. owned_members_left it ≡ joint_entries m };

    fn into_iter(self) -> IntoIter<P> {
        IntoIter {
            first: self.t1.into_iter(),
            second: self.t2.into_iter(),
        }
    }
}

impl<P: JointPrefixBits> JointPrefixSet<P> {
    ghost use Rattle.either.specs.Either.{map_either};
    ghost use Rattle.prefix_joint_walks.specs.Joint.{Fits, joint_entries, joint_walk, joint_walk_from};

    /// The members, with zero host bits: those of the first family, and then those of the second, each in key order.
    pub fn iter(&self) -> Iter<'_, P>
        ensures { members_left result ≡ joint_entries self.now }
    {
        Iter {
            keys: Keys::new(Entries::whole(self.t1.as_map(), self.t2.as_map())),
        }
    }

    /// The members that do not stand before the prefix, and its own only where `inclusive`. A prefix of the first family
    /// goes on through the whole second one; a prefix of the second gives no member of the first.
    pub fn iter_from(&self, prefix: &P, inclusive: bool) -> Iter<'_, P>
        requires { Fits P.P1.R.WIDTH P.P1.PrefixKey P.P2.R.WIDTH P.P2.PrefixKey (P.prefix prefix.now) }
        ensures { members_left result
            ≡ joint_walk_from self.now.t1.entries self.now.t2.entries (map_either P.P1.key P.P2.key (P.prefix prefix.now)) inclusive }
    {
        let entries = match prefix.p1_or_p2_ref() {
            Left(p) => Entries::new(
                self.t1.as_map().iter_from(p, inclusive),
                self.t2.as_map().iter(),
            ),
            Right(p) => Entries::new(
                FamilyIter::default(),
                self.t2.as_map().iter_from(p, inclusive),
            ),
        };
        Iter {
            keys: Keys::new(entries),
        }
    }

    /// The members whose keys begin with the prefix's key, its own among them, in key order.
    pub fn children(&self, prefix: &P) -> Iter<'_, P>
        requires { Fits P.P1.R.WIDTH P.P1.PrefixKey P.P2.R.WIDTH P.P2.PrefixKey (P.prefix prefix.now) }
        ensures { members_left result
            ≡ joint_walk self.now.t1.entries self.now.t2.entries (map_either P.P1.key P.P2.key (P.prefix prefix.now)) }
    {
        let entries = match prefix.p1_or_p2_ref() {
            Left(p) => Entries::new(self.t1.as_map().children(p), FamilyIter::default()),
            Right(p) => Entries::new(FamilyIter::default(), self.t2.as_map().children(p)),
        };
        Iter {
            keys: Keys::new(entries),
        }
    }
}
