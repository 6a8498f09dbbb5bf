//! Cursors over the entries of a joint map: each step lends one value to write.
ghost use Rattle.std.specs.Prelude.{◌≡◌, true, false, Some, IfSome, is_some};
ghost use Rattle.either.specs.Either.{map_either};
ghost use Rattle.prefix_joint_walks.specs.Joint.{Fits, value_at};
ghost use Rattle.prefix_joint_walks.specs.JointItems.{GivesJointKey};

use crate::map::JointPrefixMap;
use either::{Left, Right};
use prefix_joint_walks::{JointPrefixBits, JointPrefixKey};
use prefix_map::map::cursor::Walk;
use prefix_table::PrefixBits;

/// Where a walk over a joint map stands, apart from the map: in the first family, and then in the second.
#[derive(Drop)]
struct JointWalk<P: JointPrefixKey> {
    first: Walk<P::First>,
    second: Walk<P::Second>,
    in_first: bool,
    has_second: bool,
}

impl<P: JointPrefixBits> JointWalk<P> {
    ghost use Rattle.prefix_joint.specs.JointCursors.{joint_walk_left, joint_walk_key, joint_walk_inclusive, JointHolds};

    /// The prefix at which the walk stands, with zero host bits.
    fn at(&self) -> P
        ensures key { map_either P.P1.key P.P2.key (P.prefix result) ≡ joint_walk_key self.now }
        ensures fits { Fits P.P1.R.WIDTH P.P1.PrefixKey P.P2.R.WIDTH P.P2.PrefixKey (P.prefix result) }
    {
        if self.in_first {
            P::from_p1(&self.first.at())
        } else {
            P::from_p2(&self.second.at())
        }
    }

    /// The prefix of the next entry, with zero host bits, at which the walk then stands.
    fn advance<T>(&mut self, map: &JointPrefixMap<P, T>) -> Option<P>
        ensures gives { GivesJointKey P.prefix P.P1.R.WIDTH P.P1.PrefixKey P.P2.R.WIDTH P.P2.PrefixKey
            (joint_walk_left map.now self.old) result (joint_walk_left map.now self.new) }
        ensures held { IfSome result (λ prefix. JointHolds map.now (map_either P.P1.key P.P2.key (P.prefix prefix))
            (joint_walk_left map.now self.old) (joint_walk_left map.now self.new)) }
        ensures at { IfSome result (λ prefix. joint_walk_key self.new ≡ map_either P.P1.key P.P2.key (P.prefix prefix)) }
        ensures passed { IfSome result (λ _. joint_walk_inclusive self.new ≡ false) }
    {
        if self.in_first {
            if let Some(prefix) = self.first.advance(&map.t1) {
                return Some(P::from_p1(&prefix));
            }
            self.in_first = false;
        }
        if !self.has_second {
            return None;
        }
        let prefix = self.second.advance(&map.t2)?;
        Some(P::from_p2(&prefix))
    }
}

/// The entries, each a prefix with zero host bits and a reference to its value, to write: those of the first family, and
/// then those of the second, each in key order.
///
/// [`next`](IterMut::next) steps and lends at once. [`advance`](IterMut::advance) steps, and
/// [`value_mut`](IterMut::value_mut) then lends: their contracts say what the map holds at the end.
#[derive(Drop)]
pub struct IterMut<'a, P: JointPrefixKey, T> {
    map: &'a mut JointPrefixMap<P, T>,
    walk: JointWalk<P>,
}

impl<'a, P: JointPrefixBits + Drop, T> IterMut<'a, P, T> {
    ghost use Rattle.std.specs.Borrow.{sem};
    ghost use Rattle.prefix_joint.specs.JointCursors.{ShowsJoint, joint_cursor_map, joint_cursor_map_ref, joint_cursor_key, joint_cursor_left, joint_cursor_lends};

    /// The next entry; none behind the last one.
    pub fn next(&mut self) -> Option<(P, &mut T)>
        ensures { ShowsJoint P.prefix P.P1.R.WIDTH P.P2.R.WIDTH self.old result }
    {
        let prefix = self.walk.advance(&*self.map)?;
        let map = &mut *self.map;
        Some(map.item_mut(prefix))
    }

    /// Goes on to the next entry, and answers its prefix; none behind the last one.
    pub fn advance(&mut self) -> Option<P>
        ensures same_map { (joint_cursor_map_ref self.new).ghost_name ≡ (joint_cursor_map_ref self.old).ghost_name }
        ensures unchanged { joint_cursor_map self.new ≡ joint_cursor_map self.old }
        ensures gives { GivesJointKey P.prefix P.P1.R.WIDTH P.P1.PrefixKey P.P2.R.WIDTH P.P2.PrefixKey
            (joint_cursor_left self.old) result (joint_cursor_left self.new) }
        ensures at { IfSome result (λ prefix. joint_cursor_key self.new ≡ map_either P.P1.key P.P2.key (P.prefix prefix)) }
        ensures stored { IfSome result (λ prefix. is_some (value_at (joint_cursor_map self.new) (joint_cursor_key self.new)) ≡ true) }
    {
        let prefix = self.walk.advance(&*self.map)?;
        Some(prefix)
    }

    /// The value of the entry at which the cursor stands, to write.
    pub fn value_mut(&mut self) -> &mut T
        requires { is_some (value_at (joint_cursor_map self.old) (joint_cursor_key self.old)) ≡ true }
        ensures* writes_back { sem 𝓛 (joint_cursor_lends P.row T.row P.P1.row P.P2.row P.JointPrefixKey P.P1.PrefixKey P.P2.PrefixKey self.entry result) }
        ensures value { value_at (joint_cursor_map self.old) (joint_cursor_key self.old) ≡ Some result.now }
    {
        let prefix = self.walk.at();
        let map = &mut *self.map;
        map.value_mut(&prefix)
    }
}

/// The values of the entries, in the order of [`IterMut`], to write.
#[derive(Drop)]
pub struct ValuesMut<'a, P: JointPrefixKey, T> {
    map: &'a mut JointPrefixMap<P, T>,
    walk: JointWalk<P>,
}

impl<'a, P: JointPrefixBits + Drop, T> ValuesMut<'a, P, T> {
    ghost use Rattle.std.specs.Borrow.{sem};
    ghost use Rattle.prefix_joint.specs.JointCursors.{ShowsJointValue, joint_values_lends};

    /// The next value; none behind the last one.
    pub fn next(&mut self) -> Option<&mut T>
        ensures* writes_back { sem 𝓛 (joint_values_lends P.row T.row P.P1.row P.P2.row P.JointPrefixKey P.P1.PrefixKey P.P2.PrefixKey self.entry result) }
        ensures value { ShowsJointValue self.old result }
    {
        let prefix = self.walk.advance(&*self.map)?;
        let map = &mut *self.map;
        Some(map.value_mut(&prefix))
    }
}

impl<P: JointPrefixBits + Drop, T> JointPrefixMap<P, T> {
    ghost use Rattle.prefix_joint_walks.specs.Joint.{joint_entries, joint_walk, joint_walk_from};
    ghost use Rattle.prefix_joint.specs.JointCursors.{joint_cursor_map, joint_cursor_map_ref, joint_cursor_left, joint_values_map_ref, joint_values_cursor_left};

    /// A cursor over the entries, with each value to write.
    pub fn iter_mut(&mut self) -> IterMut<'_, P, T>
        ensures same_map { (joint_cursor_map_ref result).ghost_name ≡ self.entry.ghost_name }
        ensures unchanged { joint_cursor_map result ≡ self.old }
        ensures left { joint_cursor_left result ≡ joint_entries self.old }
    {
        IterMut {
            map: self,
            walk: JointWalk {
                first: Walk::whole(),
                second: Walk::whole(),
                in_first: true,
                has_second: true,
            },
        }
    }

    /// A cursor over the values, in the order of [`iter_mut`](JointPrefixMap::iter_mut), each to write.
    pub fn values_mut(&mut self) -> ValuesMut<'_, P, T>
        ensures same_map { (joint_values_map_ref result).ghost_name ≡ self.entry.ghost_name }
        ensures unchanged { (joint_values_map_ref result).now ≡ self.old }
        ensures left { joint_values_cursor_left result ≡ joint_entries self.old }
    {
        ValuesMut {
            map: self,
            walk: JointWalk {
                first: Walk::whole(),
                second: Walk::whole(),
                in_first: true,
                has_second: true,
            },
        }
    }

    /// A cursor over the entries that do not stand before the prefix, and its own only where `inclusive`. A prefix of
    /// the first family goes on through the whole second one; a prefix of the second gives no entry of the first.
    pub fn iter_from_mut(&mut self, prefix: &P, inclusive: bool) -> IterMut<'_, P, T>
        requires { Fits P.P1.R.WIDTH P.P1.PrefixKey P.P2.R.WIDTH P.P2.PrefixKey (P.prefix prefix.now) }
        ensures same_map { (joint_cursor_map_ref result).ghost_name ≡ self.entry.ghost_name }
        ensures unchanged { joint_cursor_map result ≡ self.old }
        ensures left { joint_cursor_left result
            ≡ joint_walk_from self.old.t1.entries self.old.t2.entries (map_either P.P1.key P.P2.key (P.prefix prefix.now)) inclusive }
    {
        match prefix.p1_or_p2_ref() {
            Left(p) => IterMut {
                map: self,
                walk: JointWalk {
                    first: Walk::new(p, 0, inclusive),
                    second: Walk::whole(),
                    in_first: true,
                    has_second: true,
                },
            },
            Right(p) => IterMut {
                map: self,
                walk: JointWalk {
                    first: Walk::whole(),
                    second: Walk::new(p, 0, inclusive),
                    in_first: false,
                    has_second: true,
                },
            },
        }
    }

    /// A cursor over the entries whose keys begin with the prefix's key, its own among them, in key order.
    pub fn children_mut(&mut self, prefix: &P) -> IterMut<'_, P, T>
        requires { Fits P.P1.R.WIDTH P.P1.PrefixKey P.P2.R.WIDTH P.P2.PrefixKey (P.prefix prefix.now) }
        ensures same_map { (joint_cursor_map_ref result).ghost_name ≡ self.entry.ghost_name }
        ensures unchanged { joint_cursor_map result ≡ self.old }
        ensures left { joint_cursor_left result
            ≡ joint_walk self.old.t1.entries self.old.t2.entries (map_either P.P1.key P.P2.key (P.prefix prefix.now)) }
    {
        match prefix.p1_or_p2_ref() {
            Left(p) => IterMut {
                map: self,
                walk: JointWalk {
                    first: Walk::new(p, u32::from(p.prefix_len()), true),
                    second: Walk::whole(),
                    in_first: true,
                    has_second: false,
                },
            },
            Right(p) => IterMut {
                map: self,
                walk: JointWalk {
                    first: Walk::whole(),
                    second: Walk::new(p, u32::from(p.prefix_len()), true),
                    in_first: false,
                    has_second: true,
                },
            },
        }
    }
}
