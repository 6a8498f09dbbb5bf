//! Iterators over the entries that a prefix's key begins with, in the map of its family, the shortest first.
ghost use Rattle.std.specs.Prelude.{◌≡◌, length};
ghost use Rattle.std.specs.Iterator.{at_most};
ghost use Rattle.prefix_joint_walks.specs.JointItems.{GivesJoint, GivesJointKey, GivesJointValue};
ghost use Rattle.prefix_joint_walks.specs.Covers.{joint_cover_left, joint_cover_keys_left, joint_cover_values_left};

use crate::JointPrefixBits;
use prefix_map::map::iter::Cover as FamilyCover;

/// The entries whose keys a prefix's key begins with, the shortest first.
#[derive(Drop)]
pub enum Cover<'a, P: JointPrefixBits, T> {
    /// Entries of the first family.
    P1(FamilyCover<'a, P::P1, T>),
    /// Entries of the second family.
    P2(FamilyCover<'a, P::P2, T>),
}

impl<'a, P: JointPrefixBits, T> Iterator for Cover<'a, P, T> {
    type Item = (P, &'a T);

    ghost next_gives = { λ s r t. GivesJoint P.prefix P.P1.R.WIDTH P.P1.PrefixKey P.P2.R.WIDTH P.P2.PrefixKey
        (joint_cover_left s) r (joint_cover_left t) };

    ghost remaining = { λ s. at_most (length (joint_cover_left s)) };

    fn next(&mut self) -> Option<(P, &'a T)> {
        match self {
            Cover::P1(entries) => {
                let (prefix, value) = entries.next()?;
                Some((P::from_p1(&prefix), value))
            }
            Cover::P2(entries) => {
                let (prefix, value) = entries.next()?;
                Some((P::from_p2(&prefix), value))
            }
        }
    }
}

/// The prefixes of the entries of a [`Cover`].
#[derive(Drop)]
pub struct CoverKeys<'a, P: JointPrefixBits, T> {
    entries: Cover<'a, P, T>,
}

impl<'a, P: JointPrefixBits, T> CoverKeys<'a, P, T> {
    /// The prefixes of entries.
    pub fn new(entries: Cover<'a, P, T>) -> Self
        ensures { result.entries ≡ entries.entry }
    {
        CoverKeys { entries }
    }
}

impl<'a, P: JointPrefixBits + Drop, T> Iterator for CoverKeys<'a, P, T> {
    type Item = P;

    ghost next_gives = { λ s r t. GivesJointKey P.prefix P.P1.R.WIDTH P.P1.PrefixKey P.P2.R.WIDTH P.P2.PrefixKey
        (joint_cover_keys_left s) r (joint_cover_keys_left t) };

    ghost remaining = { λ s. at_most (length (joint_cover_keys_left s)) };

    fn next(&mut self) -> Option<P> {
        let (prefix, _) = self.entries.next()?;
        Some(prefix)
    }
}

/// The values of the entries of a [`Cover`].
#[derive(Drop)]
pub struct CoverValues<'a, P: JointPrefixBits, T> {
    entries: Cover<'a, P, T>,
}

impl<'a, P: JointPrefixBits, T> CoverValues<'a, P, T> {
    /// The values of entries.
    pub fn new(entries: Cover<'a, P, T>) -> Self
        ensures { result.entries ≡ entries.entry }
    {
        CoverValues { entries }
    }
}

impl<'a, P: JointPrefixBits + Drop, T> Iterator for CoverValues<'a, P, T> {
    type Item = &'a T;

    ghost next_gives = { λ s r t. GivesJointValue (joint_cover_values_left s) r (joint_cover_values_left t) };

    ghost remaining = { λ s. at_most (length (joint_cover_values_left s)) };

    fn next(&mut self) -> Option<&'a T> {
        let (_, value) = self.entries.next()?;
        Some(value)
    }

    fn size_hint(&self) -> (usize, Option<usize>) {
        (0, None)
    }
}
