//! Removals from a joint map.
ghost use Rattle.std.specs.Prelude.{◌≡◌};
ghost use Rattle.std.specs.FinMap as finmap;
ghost use Rattle.either.specs.Either.{map_either};
ghost use Rattle.prefix_model.specs.Pruning.{pruned, without_below, kept_outside};

use crate::map::JointPrefixMap;
use either::{Left, Right};
use prefix_joint_walks::JointPrefixBits;

impl<P: JointPrefixBits, T> JointPrefixMap<P, T> {
    ghost use Rattle.prefix_joint_walks.specs.Joint.{Fits, family, key_bits, other, value_at};

    /// Takes the entry of the prefix's key away, and answers its value; `None` where it is not stored.
    ///
    /// Then takes each kept position of the key away that has nothing in its node, the longest first. The empty key
    /// stays. That is done whether or not the key was stored.
    pub fn remove(&mut self, prefix: &P) -> Option<T>
        requires { Fits P.P1.R.WIDTH P.P1.PrefixKey P.P2.R.WIDTH P.P2.PrefixKey (P.prefix prefix.now) }
        ensures value { result ≡ value_at self.old (map_either P.P1.key P.P2.key (P.prefix prefix.now)) }
        ensures entries { (family self.new (map_either P.P1.key P.P2.key (P.prefix prefix.now))).entries ≡ finmap.remove (family self.old (map_either P.P1.key P.P2.key (P.prefix prefix.now))).entries (key_bits (map_either P.P1.key P.P2.key (P.prefix prefix.now))) }
        ensures kept { (family self.new (map_either P.P1.key P.P2.key (P.prefix prefix.now))).kept ≡ pruned (family self.new (map_either P.P1.key P.P2.key (P.prefix prefix.now))).entries (family self.old (map_either P.P1.key P.P2.key (P.prefix prefix.now))).kept (key_bits (map_either P.P1.key P.P2.key (P.prefix prefix.now))) }
        ensures other_family { other self.new (map_either P.P1.key P.P2.key (P.prefix prefix.now)) ≡ other self.old (map_either P.P1.key P.P2.key (P.prefix prefix.now)) }
    {
        match prefix.p1_or_p2_ref() {
            Left(p) => self.t1.remove(p),
            Right(p) => self.t2.remove(p),
        }
    }

    /// Takes the entry of the prefix's key away, and answers its value; `None` where it is not stored. All kept
    /// positions stay.
    pub fn remove_keep_tree(&mut self, prefix: &P) -> Option<T>
        requires { Fits P.P1.R.WIDTH P.P1.PrefixKey P.P2.R.WIDTH P.P2.PrefixKey (P.prefix prefix.now) }
        ensures value { result ≡ value_at self.old (map_either P.P1.key P.P2.key (P.prefix prefix.now)) }
        ensures entries { (family self.new (map_either P.P1.key P.P2.key (P.prefix prefix.now))).entries ≡ finmap.remove (family self.old (map_either P.P1.key P.P2.key (P.prefix prefix.now))).entries (key_bits (map_either P.P1.key P.P2.key (P.prefix prefix.now))) }
        ensures kept { (family self.new (map_either P.P1.key P.P2.key (P.prefix prefix.now))).kept ≡ (family self.old (map_either P.P1.key P.P2.key (P.prefix prefix.now))).kept }
        ensures other_family { other self.new (map_either P.P1.key P.P2.key (P.prefix prefix.now)) ≡ other self.old (map_either P.P1.key P.P2.key (P.prefix prefix.now)) }
    {
        match prefix.p1_or_p2_ref() {
            Left(p) => self.t1.remove_keep_tree(p),
            Right(p) => self.t2.remove_keep_tree(p),
        }
    }
}

impl<P: JointPrefixBits, T: Drop> JointPrefixMap<P, T> {
    ghost use Rattle.prefix_model.specs.Positions.{root_alone};
    ghost use Rattle.prefix_joint_walks.specs.Joint.{Fits, family, key_bits, other};

    /// Takes all entries away whose keys begin with the prefix's key, its own among them, and all kept positions of its
    /// family that begin with it but the empty key. Then takes each kept position of the key away that has nothing in
    /// its node, the longest first.
    pub fn remove_children(&mut self, prefix: &P)
        requires { Fits P.P1.R.WIDTH P.P1.PrefixKey P.P2.R.WIDTH P.P2.PrefixKey (P.prefix prefix.now) }
        ensures entries { (family self.new (map_either P.P1.key P.P2.key (P.prefix prefix.now))).entries ≡ without_below (family self.old (map_either P.P1.key P.P2.key (P.prefix prefix.now))).entries (key_bits (map_either P.P1.key P.P2.key (P.prefix prefix.now))) }
        ensures kept { (family self.new (map_either P.P1.key P.P2.key (P.prefix prefix.now))).kept ≡ pruned (family self.new (map_either P.P1.key P.P2.key (P.prefix prefix.now))).entries (kept_outside (family self.old (map_either P.P1.key P.P2.key (P.prefix prefix.now))).kept (key_bits (map_either P.P1.key P.P2.key (P.prefix prefix.now)))) (key_bits (map_either P.P1.key P.P2.key (P.prefix prefix.now))) }
        ensures other_family { other self.new (map_either P.P1.key P.P2.key (P.prefix prefix.now)) ≡ other self.old (map_either P.P1.key P.P2.key (P.prefix prefix.now)) }
    {
        match prefix.p1_or_p2_ref() {
            Left(p) => self.t1.remove_children(p),
            Right(p) => self.t2.remove_children(p),
        }
    }

    /// Takes all entries and all kept positions but the empty keys away.
    pub fn clear(&mut self)
        ensures entries { (self.new.t1.entries ≡ finmap.empty) × (self.new.t2.entries ≡ finmap.empty) }
        ensures kept { (self.new.t1.kept ≡ root_alone) × (self.new.t2.kept ≡ root_alone) }
    {
        self.t1.clear();
        self.t2.clear();
    }
}
