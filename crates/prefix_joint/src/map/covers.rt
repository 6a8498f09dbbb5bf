//! The entries of a joint map that a prefix's key begins with, the shortest first.
ghost use Rattle.std.specs.Prelude.{◌≡◌};
ghost use Rattle.prefix_joint_walks.specs.Covers.{joint_cover_left, joint_cover_keys_left, joint_cover_values_left};

use crate::map::JointPrefixMap;
use either::{Left, Right};
use prefix_joint_walks::JointPrefixBits;
use prefix_joint_walks::cover::{Cover, CoverKeys, CoverValues};

impl<P: JointPrefixBits, T> JointPrefixMap<P, T> {
    ghost use Rattle.either.specs.Either.{map_either};
    ghost use Rattle.prefix_joint_walks.specs.Joint.{Fits, joint_covers};

    /// The entries whose keys the prefix's key begins with, its own among them, the shortest first.
    pub fn cover(&self, prefix: &P) -> Cover<'_, P, T>
        requires { Fits P.P1.R.WIDTH P.P1.PrefixKey P.P2.R.WIDTH P.P2.PrefixKey (P.prefix prefix.now) }
        ensures { joint_cover_left result ≡ joint_covers self.now.t1.entries self.now.t2.entries (map_either P.P1.key P.P2.key (P.prefix prefix.now)) }
    {
        match prefix.p1_or_p2_ref() {
            Left(p) => Cover::P1(self.t1.cover(p)),
            Right(p) => Cover::P2(self.t2.cover(p)),
        }
    }

    /// The prefixes of the entries of [`cover`](JointPrefixMap::cover).
    pub fn cover_keys(&self, prefix: &P) -> CoverKeys<'_, P, T>
        requires { Fits P.P1.R.WIDTH P.P1.PrefixKey P.P2.R.WIDTH P.P2.PrefixKey (P.prefix prefix.now) }
        ensures { joint_cover_keys_left result ≡ joint_covers self.now.t1.entries self.now.t2.entries (map_either P.P1.key P.P2.key (P.prefix prefix.now)) }
    {
        CoverKeys::new(self.cover(prefix))
    }

    /// The values of the entries of [`cover`](JointPrefixMap::cover).
    pub fn cover_values(&self, prefix: &P) -> CoverValues<'_, P, T>
        requires { Fits P.P1.R.WIDTH P.P1.PrefixKey P.P2.R.WIDTH P.P2.PrefixKey (P.prefix prefix.now) }
        ensures { joint_cover_values_left result ≡ joint_covers self.now.t1.entries self.now.t2.entries (map_either P.P1.key P.P2.key (P.prefix prefix.now)) }
    {
        CoverValues::new(self.cover(prefix))
    }
}
