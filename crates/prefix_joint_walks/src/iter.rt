//! Iterators over the entries of a joint map: those of the first family, and then those of the second, each in key order.
ghost use Rattle.std.specs.Prelude.{◌≡◌, [], length};
ghost use Rattle.std.specs.Iterator.{at_most};
ghost use Rattle.prefix_joint_walks.specs.JointItems.{GivesJoint, GivesJointKey, GivesJointValue};
ghost use Rattle.prefix_joint_walks.specs.JointIterators.{joint_left, joint_keys_left, joint_values_left};

use crate::JointPrefixBits;
use prefix_map::PrefixMap;
use prefix_map::map::iter::Iter as FamilyIter;

/// The entries, each a prefix with zero host bits and a reference to its value.
#[derive(Drop)]
pub struct Iter<'a, P: JointPrefixBits, T> {
    first: FamilyIter<'a, P::P1, T>,
    second: FamilyIter<'a, P::P2, T>,
}

impl<'a, P: JointPrefixBits, T> Default for Iter<'a, P, T> {
    ghost is_default = { λ it. joint_left it ≡ [] };

    fn default() -> Self {
        Iter {
            first: FamilyIter::default(),
            second: FamilyIter::default(),
        }
    }
}

impl<'a, P: JointPrefixBits, T> Iterator for Iter<'a, P, T> {
    type Item = (P, &'a T);

    ghost next_gives = { λ s r t. GivesJoint P.prefix P.P1.R.WIDTH P.P1.PrefixKey P.P2.R.WIDTH P.P2.PrefixKey
        (joint_left s) r (joint_left t) };

    ghost remaining = { λ s. at_most (length (joint_left s)) };

    fn next(&mut self) -> Option<(P, &'a T)> {
        if let Some((prefix, value)) = self.first.next() {
            return Some((P::from_p1(&prefix), value));
        }
        let (prefix, value) = self.second.next()?;
        Some((P::from_p2(&prefix), value))
    }
}

impl<'a, P: JointPrefixBits, T> Iter<'a, P, T> {
    ghost use Rattle.std.specs.FinMap.{entries};
    ghost use Rattle.prefix_joint_walks.specs.Joint.{both};

    /// All entries of two maps.
    pub fn whole(first: &'a PrefixMap<P::P1, T>, second: &'a PrefixMap<P::P2, T>) -> Self
        ensures { joint_left result ≡ both (entries first.now.entries) (entries second.now.entries) }
    {
        Iter {
            first: first.iter(),
            second: second.iter(),
        }
    }

    /// The entries of two iterators.
    pub fn new(first: FamilyIter<'a, P::P1, T>, second: FamilyIter<'a, P::P2, T>) -> Self
        ensures first { result.first ≡ first.entry }
        ensures second { result.second ≡ second.entry }
    {
        Iter { first, second }
    }
}

/// The prefixes of the entries, with zero host bits.
#[derive(Drop)]
pub struct Keys<'a, P: JointPrefixBits, T> {
    entries: Iter<'a, P, T>,
}

impl<'a, P: JointPrefixBits, T> Keys<'a, P, T> {
    /// The prefixes of entries.
    pub fn new(entries: Iter<'a, P, T>) -> Self
        ensures { result.entries ≡ entries.entry }
    {
        Keys { entries }
    }
}

impl<'a, P: JointPrefixBits, T> Default for Keys<'a, P, T> {
    ghost is_default = { λ it. joint_keys_left it ≡ [] };

    fn default() -> Self {
        Keys {
            entries: Iter::default(),
        }
    }
}

impl<'a, P: JointPrefixBits + Drop, T> Iterator for Keys<'a, P, T> {
    type Item = P;

    ghost next_gives = { λ s r t. GivesJointKey P.prefix P.P1.R.WIDTH P.P1.PrefixKey P.P2.R.WIDTH P.P2.PrefixKey
        (joint_keys_left s) r (joint_keys_left t) };

    ghost remaining = { λ s. at_most (length (joint_keys_left s)) };

    fn next(&mut self) -> Option<P> {
        let (prefix, _) = self.entries.next()?;
        Some(prefix)
    }
}

/// The values of the entries.
#[derive(Drop)]
pub struct Values<'a, P: JointPrefixBits, T> {
    entries: Iter<'a, P, T>,
}

impl<'a, P: JointPrefixBits, T> Values<'a, P, T> {
    /// The values of entries.
    pub fn new(entries: Iter<'a, P, T>) -> Self
        ensures { result.entries ≡ entries.entry }
    {
        Values { entries }
    }
}

impl<'a, P: JointPrefixBits, T> Default for Values<'a, P, T> {
    ghost is_default = { λ it. joint_values_left it ≡ [] };

    fn default() -> Self {
        Values {
            entries: Iter::default(),
        }
    }
}

impl<'a, P: JointPrefixBits + Drop, T> Iterator for Values<'a, P, T> {
    type Item = &'a T;

    ghost next_gives = { λ s r t. GivesJointValue (joint_values_left s) r (joint_values_left t) };

    ghost remaining = { λ s. at_most (length (joint_values_left s)) };

    fn next(&mut self) -> Option<&'a T> {
        let (_, value) = self.entries.next()?;
        Some(value)
    }

    fn size_hint(&self) -> (usize, Option<usize>) {
        (0, None)
    }
}
