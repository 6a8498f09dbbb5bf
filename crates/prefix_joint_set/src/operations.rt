//! Set operations on two joint sets.
ghost use Rattle.std.specs.Prelude.{◌≡◌, length};
ghost use Rattle.std.specs.Iterator.{at_most};
ghost use Rattle.prefix_joint_walks.specs.JointItems.{GivesJointKey, GivesJointPair};
ghost use Rattle.prefix_joint_set.specs.SetIterators.{members_of_either, members_of_both, members_of_left, members_uncovered};

use crate::JointPrefixSet;
use prefix_joint::{JointPrefixBits, map};

/// The members of either of two joint sets: those of the first family, and then those of the second, in key order.
#[derive(Drop)]
pub struct Union<'a, P: JointPrefixBits> {
    items: map::Union<'a, P, (), ()>,
}

impl<'a, P: JointPrefixBits + Drop> Iterator for Union<'a, P> {
    type Item = P;

    ghost next_gives = { λ s r t. GivesJointKey P.prefix P.P1.R.WIDTH P.P1.PrefixKey P.P2.R.WIDTH P.P2.PrefixKey
        (members_of_either s) r (members_of_either t) };

    ghost remaining = { λ s. at_most (length (members_of_either s)) };

    fn next(&mut self) -> Option<P> {
        let item = self.items.next()?;
        Some(item.into_prefix())
    }
}

/// The members of both of two joint sets, in the order of a union.
#[derive(Drop)]
pub struct Intersection<'a, P: JointPrefixBits> {
    items: map::Intersection<'a, P, (), ()>,
}

impl<'a, P: JointPrefixBits + Drop> Iterator for Intersection<'a, P> {
    type Item = P;

    ghost next_gives = { λ s r t. GivesJointKey P.prefix P.P1.R.WIDTH P.P1.PrefixKey P.P2.R.WIDTH P.P2.PrefixKey
        (members_of_both s) r (members_of_both t) };

    ghost remaining = { λ s. at_most (length (members_of_both s)) };

    fn next(&mut self) -> Option<P> {
        let (prefix, _, _) = self.items.next()?;
        Some(prefix)
    }
}

/// The members of a joint set that another has not, in the order of a union. Beside each stands `None`.
#[derive(Drop)]
pub struct Difference<'a, P: JointPrefixBits> {
    items: map::Difference<'a, P, (), ()>,
}

impl<'a, P: JointPrefixBits + Drop> Iterator for Difference<'a, P> {
    type Item = (P, Option<P>);

    ghost next_gives = { λ s r t. GivesJointPair P.prefix P.P1.R.WIDTH P.P1.PrefixKey P.P2.R.WIDTH P.P2.PrefixKey
        (members_of_left s) r (members_of_left t) };

    ghost remaining = { λ s. at_most (length (members_of_left s)) };

    fn next(&mut self) -> Option<(P, Option<P>)> {
        let item = self.items.next()?;
        Some((item.prefix, None))
    }
}

/// The members of a joint set that begin with no member of another, in the order of a union.
#[derive(Drop)]
pub struct CoveringDifference<'a, P: JointPrefixBits> {
    entries: map::CoveringDifference<'a, P, (), ()>,
}

impl<'a, P: JointPrefixBits + Drop> Iterator for CoveringDifference<'a, P> {
    type Item = P;

    ghost next_gives = { λ s r t. GivesJointKey P.prefix P.P1.R.WIDTH P.P1.PrefixKey P.P2.R.WIDTH P.P2.PrefixKey
        (members_uncovered s) r (members_uncovered t) };

    ghost remaining = { λ s. at_most (length (members_uncovered s)) };

    fn next(&mut self) -> Option<P> {
        let (prefix, _) = self.entries.next()?;
        Some(prefix)
    }
}

impl<P: JointPrefixBits> JointPrefixSet<P> {
    ghost use Rattle.prefix_joint_walks.specs.Unions.{covering_difference_of, in_both, on_left_alone, union_of};

    /// The members of either set: the first family before the second, each in key order.
    pub fn union<'a>(&'a self, other: &'a JointPrefixSet<P>) -> Union<'a, P>
        ensures { members_of_either result ≡ union_of self.now other.now }
    {
        Union {
            items: map::Union::new(
                (self.t1.as_map(), self.t2.as_map()),
                (other.t1.as_map(), other.t2.as_map()),
            ),
        }
    }

    /// The members of both sets: the first family before the second, each in key order.
    pub fn intersection<'a>(&'a self, other: &'a JointPrefixSet<P>) -> Intersection<'a, P>
        ensures { members_of_both result ≡ in_both (union_of self.now other.now) }
    {
        Intersection {
            items: map::Intersection::new(self.union(other).items),
        }
    }

    /// The members that the other set has not: the first family before the second, each in key order.
    pub fn difference<'a>(&'a self, other: &'a JointPrefixSet<P>) -> Difference<'a, P>
        ensures { members_of_left result ≡ on_left_alone (union_of self.now other.now) }
    {
        Difference {
            items: map::Difference::new(self.union(other).items),
        }
    }

    /// The members that begin with no member of the other set: the first family before the second, each in key order.
    pub fn covering_difference<'a>(
        &'a self,
        other: &'a JointPrefixSet<P>,
    ) -> CoveringDifference<'a, P>
        ensures { members_uncovered result ≡ covering_difference_of self.now other.now }
    {
        CoveringDifference {
            entries: map::CoveringDifference::new(
                (self.t1.as_map(), self.t2.as_map()),
                (other.t1.as_map(), other.t2.as_map()),
            ),
        }
    }
}
