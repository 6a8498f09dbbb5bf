//! The members that a prefix's key begins with, the shortest first.
ghost use Rattle.std.specs.Prelude.{◌≡◌};
ghost use Rattle.either.specs.Either.{map_either};
ghost use Rattle.prefix_joint_walks.specs.Covers.{joint_cover_keys_left};

use crate::JointPrefixSet;
use either::{Left, Right};
use prefix_joint::JointPrefixBits;
use prefix_joint::map::{Cover, CoverKeys};

impl<P: JointPrefixBits> JointPrefixSet<P> {
    ghost use Rattle.prefix_joint_walks.specs.Joint.{Fits, joint_covers};

    /// The members that the prefix's key begins with, its own among them, the shortest first.
    pub fn cover(&self, prefix: &P) -> CoverKeys<'_, P, ()>
        requires { Fits P.P1.R.WIDTH P.P1.PrefixKey P.P2.R.WIDTH P.P2.PrefixKey (P.prefix prefix.now) }
        ensures { joint_cover_keys_left result ≡ joint_covers self.now.t1.entries self.now.t2.entries (map_either P.P1.key P.P2.key (P.prefix prefix.now)) }
    {
        let entries = match prefix.p1_or_p2_ref() {
            Left(p) => Cover::P1(self.t1.as_map().cover(p)),
            Right(p) => Cover::P2(self.t2.as_map().cover(p)),
        };
        CoverKeys::new(entries)
    }
}
