//! Walks that take a joint map's entries out of it.
ghost use Rattle.std.specs.Prelude.{◌≡◌, []};
ghost use Rattle.prefix_map.specs.Iterators.{into_iter_left};
ghost use Rattle.prefix_joint_walks.specs.OwnedIterators.{joint_into_left, joint_into_keys_left, joint_into_values_left};

use crate::map::JointPrefixMap;
use either::{Left, Right};
use prefix_joint_walks::JointPrefixBits;
use prefix_joint_walks::owned::{IntoIter, IntoKeys, IntoValues};
use prefix_map::PrefixMap;
use prefix_map::map::owned::IntoIter as FamilyIntoIter;
use prefix_table::PrefixBits;

impl<P: JointPrefixBits, T: Drop> IntoIterator for JointPrefixMap<P, T> {
    type Item = (P, T);

    type IntoIter = IntoIter<P, T>;

    ghost use Rattle.prefix_joint_walks.specs.Joint.{joint_entries};

    ghost into_iter_gives = { λ m it. joint_into_left it ≡ joint_entries m };

    fn into_iter(self) -> IntoIter<P, T> {
        IntoIter::new(self.t1.into_iter(), self.t2.into_iter())
    }
}

impl<P: JointPrefixBits, T: Drop> JointPrefixMap<P, T> {
    ghost use Rattle.either.specs.Either.{map_either};
    ghost use Rattle.prefix_joint_walks.specs.Joint.{Fits, joint_entries, joint_walk};

    /// The prefixes of the entries, with zero host bits, in the order of [`iter`](JointPrefixMap::iter).
    pub fn into_keys(self) -> IntoKeys<P, T>
        ensures { joint_into_keys_left result ≡ joint_entries self }
    {
        IntoKeys::new(self.into_iter())
    }

    /// The values of the entries, in the order of [`iter`](JointPrefixMap::iter).
    pub fn into_values(self) -> IntoValues<P, T>
        ensures { joint_into_values_left result ≡ joint_entries self }
    {
        IntoValues::new(self.into_iter())
    }

    /// The entries whose keys begin with the prefix's key, its own among them, in key order.
    pub fn into_children(self, prefix: &P) -> IntoIter<P, T>
        requires { Fits P.P1.R.WIDTH P.P1.PrefixKey P.P2.R.WIDTH P.P2.PrefixKey (P.prefix prefix.now) }
        ensures { joint_into_left result ≡ joint_walk self.t1.entries self.t2.entries (map_either P.P1.key P.P2.key (P.prefix prefix.now)) }
    {
        let JointPrefixMap { t1, t2 } = self;
        match prefix.p1_or_p2_ref() {
            Left(p) => IntoIter::new(t1.into_children(p), emptied(t2)),
            Right(p) => IntoIter::new(emptied(t1), t2.into_children(p)),
        }
    }
}

/// The entries of a map, once all are taken away.
fn emptied<P: PrefixBits + Drop, T: Drop>(map: PrefixMap<P, T>) -> FamilyIntoIter<P, T>
    ensures { into_iter_left result ≡ [] }
{
    let mut map = map;
    map.clear();
    map.into_iter()
}
