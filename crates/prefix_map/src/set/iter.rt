//! Iterators over the members of a set, in key order.
ghost use Rattle.std.specs.Prelude.{◌≡◌, ◌≤◌, [], length, ⊤};
ghost use Rattle.std.specs.Iterator.{at_most};

use crate::map::{IntoKeys, Keys};
use crate::set::PrefixSet;
use prefix_table::{PrefixBits, PrefixKey};
use std::alloc::AllocError;

/// The members, with zero host bits.
#[derive(Drop)]
pub struct Iter<'a, P: PrefixKey> {
    keys: Keys<'a, P, ()>,
}

impl<'a, P: PrefixKey + Copy> Clone for Iter<'a, P> {
    ghost use Rattle.prefix_map.specs.SetIterators.{IsSameSetIter};

    ghost is_clone = { IsSameSetIter };

    ghost is_infallible = { λ _. ⊤ };

    fn clone(&self) -> Result<Iter<'a, P>, AllocError> {
        Ok(Iter {
            keys: self.keys.clone()?,
        })
    }
}

impl<'a, P: PrefixKey + Copy> Copy for Iter<'a, P> {}

impl<'a, P: PrefixBits> Default for Iter<'a, P> {
    ghost use Rattle.prefix_map.specs.SetIterators.{set_iter_left};

    ghost is_default = { λ it. set_iter_left it ≡ [] };

    fn default() -> Self {
        Iter {
            keys: Keys::default(),
        }
    }
}

impl<'a, P: PrefixBits + Drop> Iterator for Iter<'a, P> {
    type Item = P;

    ghost use Rattle.prefix_map.specs.Items.{GivesFirstKey};
    ghost use Rattle.prefix_map.specs.SetIterators.{set_iter_left};

    ghost next_gives = { λ s r t. GivesFirstKey P.R.WIDTH P.PrefixKey (set_iter_left s) r (set_iter_left t) };

    ghost remaining = { λ s. at_most (length (set_iter_left s)) };

    fn next(&mut self) -> Option<P> {
        self.keys.next()
    }
}

/// The members, with zero host bits, taken out of the set.
#[derive(Drop)]
pub struct IntoIter<P: PrefixKey> {
    keys: IntoKeys<P, ()>,
}

impl<P: PrefixBits + Drop> Iterator for IntoIter<P> {
    type Item = P;

    ghost use Rattle.prefix_map.specs.Items.{GivesFirstKey};
    ghost use Rattle.prefix_map.specs.SetIterators.{set_into_iter_left};

    ghost next_gives = { λ s r t. GivesFirstKey P.R.WIDTH P.PrefixKey (set_into_iter_left s) r (set_into_iter_left t) };

    ghost remaining = { λ s. at_most (length (set_into_iter_left s)) };

    fn next(&mut self) -> Option<P> {
        self.keys.next()
    }
}

impl<P: PrefixBits> PrefixSet<P> {
    ghost use Rattle.std.specs.FinMap.{entries};
    ghost use Rattle.prefix_model.specs.Walks.{walk, walk_from};
    ghost use Rattle.prefix_map.specs.SetIterators.{set_iter_left};

    /// The members in key order, with zero host bits.
    pub fn iter(&self) -> Iter<'_, P>
    where
        P: Drop,
        ensures { set_iter_left result ≡ entries self.now.entries }
    {
        Iter {
            keys: self.map.keys(),
        }
    }

    /// The members that do not stand before the prefix in key order, and its own key only where `inclusive`.
    pub fn iter_from(&self, prefix: &P, inclusive: bool) -> Iter<'_, P>
        requires { P.prefix_len prefix.now ≤ P.R.WIDTH }
        ensures { set_iter_left result ≡ walk_from self.now.entries [] (P.key prefix.now) inclusive }
    {
        Iter {
            keys: self.map.keys_from(prefix, inclusive),
        }
    }

    /// The members that begin with the prefix's key, itself among them, in key order.
    pub fn children(&self, prefix: &P) -> Iter<'_, P>
        requires { P.prefix_len prefix.now ≤ P.R.WIDTH }
        ensures { set_iter_left result ≡ walk self.now.entries (P.key prefix.now) }
    {
        Iter {
            keys: self.map.keys_below(prefix),
        }
    }
}

impl<'a, P: PrefixBits + Drop> IntoIterator for &'a PrefixSet<P> {
    type Item = P;

    type IntoIter = Iter<'a, P>;

    ghost use Rattle.std.specs.FinMap.{entries};
    ghost use Rattle.prefix_map.specs.SetIterators.{set_iter_left};

    ghost into_iter_gives = { λ m it. set_iter_left it ≡ entries m.now.entries };

    fn into_iter(self) -> Iter<'a, P> {
        self.iter()
    }
}

impl<P: PrefixBits + Drop> IntoIterator for PrefixSet<P> {
    type Item = P;

    type IntoIter = IntoIter<P>;

    ghost use Rattle.std.specs.FinMap.{entries};
    ghost use Rattle.prefix_map.specs.SetIterators.{set_into_iter_left};

    ghost into_iter_gives = { λ m it. set_into_iter_left it ≡ entries m.entries };

    fn into_iter(self) -> IntoIter<P> {
        IntoIter {
            keys: self.map.into_keys(),
        }
    }
}
