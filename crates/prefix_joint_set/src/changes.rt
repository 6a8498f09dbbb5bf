//! Removals from a joint set.
ghost use Rattle.std.specs.Prelude.{◌≡◌, is_some};
ghost use Rattle.std.specs.FinMap as finmap;
ghost use Rattle.either.specs.Either.{map_either};
ghost use Rattle.prefix_model.specs.Pruning.{pruned, without_below, kept_outside};

use crate::JointPrefixSet;
use either::{Left, Right};
use prefix_joint::JointPrefixBits;

impl<P: JointPrefixBits> JointPrefixSet<P> {
    ghost use Rattle.prefix_model.specs.Positions.{root_alone};
    ghost use Rattle.prefix_joint_walks.specs.Joint.{Fits, family, key_bits, other, value_at};

    /// Takes the prefix's key out, and tells whether it was a member. Prunes as
    /// [`JointPrefixMap::remove`](prefix_joint::JointPrefixMap::remove) does.
    pub fn remove(&mut self, prefix: &P) -> bool
        requires { Fits P.P1.R.WIDTH P.P1.PrefixKey P.P2.R.WIDTH P.P2.PrefixKey (P.prefix prefix.now) }
        ensures was { result ≡ is_some (value_at self.old (map_either P.P1.key P.P2.key (P.prefix prefix.now))) }
        ensures entries { (family self.new (map_either P.P1.key P.P2.key (P.prefix prefix.now))).entries ≡ finmap.remove (family self.old (map_either P.P1.key P.P2.key (P.prefix prefix.now))).entries (key_bits (map_either P.P1.key P.P2.key (P.prefix prefix.now))) }
        ensures kept { (family self.new (map_either P.P1.key P.P2.key (P.prefix prefix.now))).kept ≡ pruned (family self.new (map_either P.P1.key P.P2.key (P.prefix prefix.now))).entries (family self.old (map_either P.P1.key P.P2.key (P.prefix prefix.now))).kept (key_bits (map_either P.P1.key P.P2.key (P.prefix prefix.now))) }
        ensures other_family { other self.new (map_either P.P1.key P.P2.key (P.prefix prefix.now)) ≡ other self.old (map_either P.P1.key P.P2.key (P.prefix prefix.now)) }
    {
        match prefix.p1_or_p2_ref() {
            Left(p) => self.t1.remove(p),
            Right(p) => self.t2.remove(p),
        }
    }

    /// Takes the prefix's key out, and tells whether it was a member. All kept positions stay.
    pub fn remove_keep_tree(&mut self, prefix: &P) -> bool
        requires { Fits P.P1.R.WIDTH P.P1.PrefixKey P.P2.R.WIDTH P.P2.PrefixKey (P.prefix prefix.now) }
        ensures was { result ≡ is_some (value_at self.old (map_either P.P1.key P.P2.key (P.prefix prefix.now))) }
        ensures entries { (family self.new (map_either P.P1.key P.P2.key (P.prefix prefix.now))).entries ≡ finmap.remove (family self.old (map_either P.P1.key P.P2.key (P.prefix prefix.now))).entries (key_bits (map_either P.P1.key P.P2.key (P.prefix prefix.now))) }
        ensures kept { (family self.new (map_either P.P1.key P.P2.key (P.prefix prefix.now))).kept ≡ (family self.old (map_either P.P1.key P.P2.key (P.prefix prefix.now))).kept }
        ensures other_family { other self.new (map_either P.P1.key P.P2.key (P.prefix prefix.now)) ≡ other self.old (map_either P.P1.key P.P2.key (P.prefix prefix.now)) }
    {
        match prefix.p1_or_p2_ref() {
            Left(p) => self.t1.remove_keep_tree(p),
            Right(p) => self.t2.remove_keep_tree(p),
        }
    }

    /// Takes all members out that begin with the prefix's key, itself among them. Prunes as
    /// [`JointPrefixMap::remove_children`](prefix_joint::JointPrefixMap::remove_children) does.
    pub fn remove_children(&mut self, prefix: &P)
        requires { Fits P.P1.R.WIDTH P.P1.PrefixKey P.P2.R.WIDTH P.P2.PrefixKey (P.prefix prefix.now) }
        ensures entries { (family self.new (map_either P.P1.key P.P2.key (P.prefix prefix.now))).entries ≡ without_below (family self.old (map_either P.P1.key P.P2.key (P.prefix prefix.now))).entries (key_bits (map_either P.P1.key P.P2.key (P.prefix prefix.now))) }
        ensures kept { (family self.new (map_either P.P1.key P.P2.key (P.prefix prefix.now))).kept ≡ pruned (family self.new (map_either P.P1.key P.P2.key (P.prefix prefix.now))).entries (kept_outside (family self.old (map_either P.P1.key P.P2.key (P.prefix prefix.now))).kept (key_bits (map_either P.P1.key P.P2.key (P.prefix prefix.now)))) (key_bits (map_either P.P1.key P.P2.key (P.prefix prefix.now))) }
        ensures other_family { other self.new (map_either P.P1.key P.P2.key (P.prefix prefix.now)) ≡ other self.old (map_either P.P1.key P.P2.key (P.prefix prefix.now)) }
    {
        match prefix.p1_or_p2_ref() {
            Left(p) => self.t1.remove_children(p),
            Right(p) => self.t2.remove_children(p),
        }
    }

    /// Takes all members and all kept positions but the empty keys away.
    pub fn clear(&mut self)
        ensures entries { (self.new.t1.entries ≡ finmap.empty) × (self.new.t2.entries ≡ finmap.empty) }
        ensures kept { (self.new.t1.kept ≡ root_alone) × (self.new.t2.kept ≡ root_alone) }
    {
        self.t1.clear();
        self.t2.clear();
    }
}
