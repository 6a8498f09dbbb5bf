//! Set operations on two joint maps.
ghost use Rattle.std.specs.Prelude.{◌≡◌};
ghost use Rattle.prefix_joint_walks.specs.JointIterators.{union_left, intersection_left, difference_left};
ghost use Rattle.prefix_joint_walks.specs.Coverings.{covering_left};

use crate::map::JointPrefixMap;
use prefix_joint_walks::JointPrefixBits;
use prefix_joint_walks::covering::CoveringDifference;
use prefix_joint_walks::difference::Difference;
use prefix_joint_walks::intersection::Intersection;
use prefix_joint_walks::union::Union;

impl<P: JointPrefixBits, L> JointPrefixMap<P, L> {
    ghost use Rattle.prefix_joint_walks.specs.Unions.{covering_difference_of, in_both, on_left_alone, union_of};

    /// One item for each key of either map, with the values that it has in both: the first family before the second,
    /// each in key order.
    pub fn union<'a, R>(&'a self, other: &'a JointPrefixMap<P, R>) -> Union<'a, P, L, R>
        ensures { union_left result ≡ union_of self.now other.now }
    {
        Union::new((&self.t1, &self.t2), (&other.t1, &other.t2))
    }

    /// The keys of both maps with both values: the first family before the second, each in key order.
    pub fn intersection<'a, R>(
        &'a self,
        other: &'a JointPrefixMap<P, R>,
    ) -> Intersection<'a, P, L, R>
        ensures { intersection_left result ≡ in_both (union_of self.now other.now) }
    {
        Intersection::new(self.union(other))
    }

    /// The entries whose keys the other map has not: the first family before the second, each in key order.
    pub fn difference<'a, R>(&'a self, other: &'a JointPrefixMap<P, R>) -> Difference<'a, P, L, R>
        ensures { difference_left result ≡ on_left_alone (union_of self.now other.now) }
    {
        Difference::new(self.union(other))
    }

    /// The entries whose keys begin with no key of the other map: the first family before the second, each in key order.
    pub fn covering_difference<'a, R>(
        &'a self,
        other: &'a JointPrefixMap<P, R>,
    ) -> CoveringDifference<'a, P, L, R>
        ensures { covering_left result ≡ covering_difference_of self.now other.now }
    {
        CoveringDifference::new((&self.t1, &self.t2), (&other.t1, &other.t2))
    }
}
