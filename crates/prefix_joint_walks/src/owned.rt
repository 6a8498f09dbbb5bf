//! Iterators that take a joint map's entries out of it: those of the first family, and then those of the second.
ghost use Rattle.std.specs.Prelude.{◌≡◌, length};
ghost use Rattle.std.specs.Iterator.{at_most};
ghost use Rattle.prefix_joint_walks.specs.JointItems.{GivesJointOwned, GivesJointKey, GivesJointOwnedValue};
ghost use Rattle.prefix_joint_walks.specs.OwnedIterators.{joint_into_left, joint_into_keys_left, joint_into_values_left};

use crate::JointPrefixBits;
use prefix_map::map::owned::IntoIter as FamilyIntoIter;

/// The entries, each a prefix with zero host bits and its value.
#[derive(Drop)]
pub struct IntoIter<P: JointPrefixBits, T> {
    first: FamilyIntoIter<P::P1, T>,
    second: FamilyIntoIter<P::P2, T>,
}

impl<P: JointPrefixBits, T> IntoIter<P, T> {
    ghost use Rattle.prefix_map.specs.Iterators.{into_iter_left};
    ghost use Rattle.prefix_joint_walks.specs.Joint.{both};

    /// The entries of two iterators.
    pub fn new(first: FamilyIntoIter<P::P1, T>, second: FamilyIntoIter<P::P2, T>) -> Self
        ensures { joint_into_left result ≡ both (into_iter_left first) (into_iter_left second) }
    {
        IntoIter { first, second }
    }
}

impl<P: JointPrefixBits, T: Drop> Iterator for IntoIter<P, T> {
    type Item = (P, T);

    ghost next_gives = { λ s r t. GivesJointOwned P.prefix P.P1.R.WIDTH P.P1.PrefixKey P.P2.R.WIDTH P.P2.PrefixKey
        (joint_into_left s) r (joint_into_left t) };

    ghost remaining = { λ s. at_most (length (joint_into_left s)) };

    fn next(&mut self) -> Option<(P, T)> {
        if let Some((prefix, value)) = self.first.next() {
            return Some((P::from_p1(&prefix), value));
        }
        let (prefix, value) = self.second.next()?;
        Some((P::from_p2(&prefix), value))
    }
}

/// The prefixes of the entries, with zero host bits.
#[derive(Drop)]
pub struct IntoKeys<P: JointPrefixBits, T> {
    entries: IntoIter<P, T>,
}

impl<P: JointPrefixBits, T> IntoKeys<P, T> {
    /// The prefixes of entries.
    pub fn new(entries: IntoIter<P, T>) -> Self
        ensures { joint_into_keys_left result ≡ joint_into_left entries }
    {
        IntoKeys { entries }
    }
}

impl<P: JointPrefixBits + Drop, T: Drop> Iterator for IntoKeys<P, T> {
    type Item = P;

    ghost next_gives = { λ s r t. GivesJointKey P.prefix P.P1.R.WIDTH P.P1.PrefixKey P.P2.R.WIDTH P.P2.PrefixKey
        (joint_into_keys_left s) r (joint_into_keys_left t) };

    ghost remaining = { λ s. at_most (length (joint_into_keys_left s)) };

    fn next(&mut self) -> Option<P> {
        let (prefix, _) = self.entries.next()?;
        Some(prefix)
    }
}

/// The values of the entries.
#[derive(Drop)]
pub struct IntoValues<P: JointPrefixBits, T> {
    entries: IntoIter<P, T>,
}

impl<P: JointPrefixBits, T> IntoValues<P, T> {
    /// The values of entries.
    pub fn new(entries: IntoIter<P, T>) -> Self
        ensures { joint_into_values_left result ≡ joint_into_left entries }
    {
        IntoValues { entries }
    }
}

impl<P: JointPrefixBits + Drop, T: Drop> Iterator for IntoValues<P, T> {
    type Item = T;

    ghost next_gives = { λ s r t. GivesJointOwnedValue (joint_into_values_left s) r (joint_into_values_left t) };

    ghost remaining = { λ s. at_most (length (joint_into_values_left s)) };

    fn next(&mut self) -> Option<T> {
        let (_, value) = self.entries.next()?;
        Some(value)
    }

    fn size_hint(&self) -> (usize, Option<usize>) {
        (0, None)
    }
}
