//! Iterators over the entries of a map, in key order. Each keeps a position, and descends anew for each item.
ghost use Rattle.std.specs.Prelude.{◌≡◌, ◌≤◌, [], length, ⊤};
ghost use Rattle.std.specs.Iterator.{at_most};

use crate::items::prefix_of;
use crate::map::PrefixMap;
use crate::search::{Position, shortest_front, step};
use prefix_table::{Bits, PrefixBits, PrefixKey};
use std::alloc::AllocError;

/// The entries, each a prefix with zero host bits and a reference to its value.
///
/// It stands at `last`, in the entries whose keys begin with the first `within` bits of it.
#[derive(Drop)]
pub struct Iter<'a, P: PrefixKey, T> {
    map: Option<&'a PrefixMap<P, T>>,
    last: P,
    within: u32,
    inclusive: bool,
    ghost within_last: { within ≤ P.prefix_len last },
    ghost fits: { P.prefix_len last ≤ P.WIDTH },
}

impl<'a, P: PrefixKey + Copy, T> Clone for Iter<'a, P, T> {
    ghost is_clone = { λ old new. (new.map ≡ old.map) × (new.last ≡ old.last) × (new.within ≡ old.within) × (new.inclusive ≡ old.inclusive) };

    ghost is_infallible = { λ _. ⊤ };

    fn clone(&self) -> Result<Iter<'a, P, T>, AllocError> {
        Ok(Iter {
            map: self.map,
            last: self.last,
            within: self.within,
            inclusive: self.inclusive,
        })
    }
}

impl<'a, P: PrefixKey + Copy, T> Copy for Iter<'a, P, T> {}

impl<'a, P: PrefixBits, T> Default for Iter<'a, P, T> {
    ghost use Rattle.prefix_map.specs.Iterators.{iter_left};

    ghost is_default = { λ it. iter_left it ≡ [] };

    fn default() -> Self {
        Iter {
            map: None,
            last: P::from_repr_len(P::R::zeros(), 0),
            within: 0,
            inclusive: true,
        }
    }
}

impl<'a, P: PrefixBits + Drop, T> Iterator for Iter<'a, P, T> {
    type Item = (P, &'a T);

    ghost use Rattle.prefix_map.specs.Items.{GivesFirst};
    ghost use Rattle.prefix_map.specs.Iterators.{iter_left};

    ghost next_gives = { λ s r t. GivesFirst P.R.WIDTH P.PrefixKey (iter_left s) r (iter_left t) };

    ghost remaining = { λ s. at_most (length (iter_left s)) };

    fn next(&mut self) -> Option<(P, &'a T)> {
        let map = self.map?;
        let mut position = Position {
            key: self.last.repr(),
            within: self.within,
            len: u32::from(self.last.prefix_len()),
            inclusive: self.inclusive,
        };
        let found = step(map.table(), &mut position)?;
        self.last = prefix_of(found.key, found.len);
        self.inclusive = false;
        Some((prefix_of(found.key, found.len), found.value))
    }
}

impl<'a, P: PrefixBits, T> Iter<'a, P, T> {
    ghost use Rattle.std.specs.Prelude.{take};
    ghost use Rattle.prefix_model.specs.Walks.{walk_from};
    ghost use Rattle.prefix_map.specs.Iterators.{iter_left};

    /// The entries that do not stand before a prefix's key, and its own only where `inclusive`, among those whose keys
    /// begin with the first `within` bits of it.
    pub(crate) fn new(map: &'a PrefixMap<P, T>, prefix: &P, within: u32, inclusive: bool) -> Self
        requires fits { P.prefix_len prefix.now ≤ P.R.WIDTH }
        requires within { within ≤ P.prefix_len prefix.now }
        ensures rest { iter_left result ≡ walk_from map.now.entries (take within (P.key prefix.now)) (P.key prefix.now) inclusive }
    {
        Iter {
            map: Some(map),
            last: P::from_repr_len(prefix.repr(), prefix.prefix_len()),
            within,
            inclusive,
        }
    }
}

/// The prefixes of the entries, with zero host bits.
#[derive(Drop)]
pub struct Keys<'a, P: PrefixKey, T> {
    entries: Iter<'a, P, T>,
}

impl<'a, P: PrefixKey + Copy, T> Clone for Keys<'a, P, T> {
    ghost is_clone = { λ old new. (new.entries.map ≡ old.entries.map) × (new.entries.last ≡ old.entries.last)
        × (new.entries.within ≡ old.entries.within) × (new.entries.inclusive ≡ old.entries.inclusive) };

    ghost is_infallible = { λ _. ⊤ };

    fn clone(&self) -> Result<Keys<'a, P, T>, AllocError> {
        Ok(Keys {
            entries: self.entries.clone()?,
        })
    }
}

impl<'a, P: PrefixKey + Copy, T> Copy for Keys<'a, P, T> {}

impl<'a, P: PrefixBits, T> Default for Keys<'a, P, T> {
    ghost use Rattle.prefix_map.specs.Iterators.{keys_left};

    ghost is_default = { λ it. keys_left it ≡ [] };

    fn default() -> Self {
        Keys {
            entries: Iter::default(),
        }
    }
}

impl<'a, P: PrefixBits + Drop, T> Iterator for Keys<'a, P, T> {
    type Item = P;

    ghost use Rattle.prefix_map.specs.Items.{GivesFirstKey};
    ghost use Rattle.prefix_map.specs.Iterators.{keys_left};

    ghost next_gives = { λ s r t. GivesFirstKey P.R.WIDTH P.PrefixKey (keys_left s) r (keys_left t) };

    ghost remaining = { λ s. at_most (length (keys_left s)) };

    fn next(&mut self) -> Option<P> {
        let (prefix, _) = self.entries.next()?;
        Some(prefix)
    }
}

/// The values of the entries.
#[derive(Drop)]
pub struct Values<'a, P: PrefixKey, T> {
    entries: Iter<'a, P, T>,
}

impl<'a, P: PrefixKey + Copy, T> Clone for Values<'a, P, T> {
    ghost is_clone = { λ old new. (new.entries.map ≡ old.entries.map) × (new.entries.last ≡ old.entries.last)
        × (new.entries.within ≡ old.entries.within) × (new.entries.inclusive ≡ old.entries.inclusive) };

    ghost is_infallible = { λ _. ⊤ };

    fn clone(&self) -> Result<Values<'a, P, T>, AllocError> {
        Ok(Values {
            entries: self.entries.clone()?,
        })
    }
}

impl<'a, P: PrefixKey + Copy, T> Copy for Values<'a, P, T> {}

impl<'a, P: PrefixBits, T> Default for Values<'a, P, T> {
    ghost use Rattle.prefix_map.specs.Iterators.{values_left};

    ghost is_default = { λ it. values_left it ≡ [] };

    fn default() -> Self {
        Values {
            entries: Iter::default(),
        }
    }
}

impl<'a, P: PrefixBits + Drop, T> Iterator for Values<'a, P, T> {
    type Item = &'a T;

    ghost use Rattle.prefix_map.specs.Items.{GivesFirstValue};
    ghost use Rattle.prefix_map.specs.Iterators.{values_left};

    ghost next_gives = { λ s r t. GivesFirstValue (values_left s) r (values_left t) };

    ghost remaining = { λ s. at_most (length (values_left s)) };

    fn next(&mut self) -> Option<&'a T> {
        let (_, value) = self.entries.next()?;
        Some(value)
    }

    fn size_hint(&self) -> (usize, Option<usize>) {
        (0, None)
    }
}

impl<P: PrefixBits, T> PrefixMap<P, T> {
    ghost use Rattle.std.specs.FinMap.{entries};
    ghost use Rattle.prefix_model.specs.Walks.{walk, walk_from};
    ghost use Rattle.prefix_map.specs.Iterators.{iter_left, keys_left, values_left};

    /// The entries in key order, each a prefix with zero host bits and a reference to its value.
    pub fn iter(&self) -> Iter<'_, P, T>
    where
        P: Drop,
        ensures { iter_left result ≡ entries self.now.entries }
    {
        Iter::new(self, &P::from_repr_len(P::R::zeros(), 0), 0, true)
    }

    /// The prefixes of the entries in key order, with zero host bits.
    pub fn keys(&self) -> Keys<'_, P, T>
    where
        P: Drop,
        ensures { keys_left result ≡ entries self.now.entries }
    {
        Keys {
            entries: self.iter(),
        }
    }

    /// The values of the entries in key order.
    pub fn values(&self) -> Values<'_, P, T>
    where
        P: Drop,
        ensures { values_left result ≡ entries self.now.entries }
    {
        Values {
            entries: self.iter(),
        }
    }

    /// The entries that do not stand before the prefix in key order, and its own only where `inclusive`.
    pub fn iter_from(&self, prefix: &P, inclusive: bool) -> Iter<'_, P, T>
        requires { P.prefix_len prefix.now ≤ P.R.WIDTH }
        ensures { iter_left result ≡ walk_from self.now.entries [] (P.key prefix.now) inclusive }
    {
        Iter::new(self, prefix, 0, inclusive)
    }

    /// The prefixes of the entries of [`iter_from`](PrefixMap::iter_from).
    pub(crate) fn keys_from(&self, prefix: &P, inclusive: bool) -> Keys<'_, P, T>
        requires { P.prefix_len prefix.now ≤ P.R.WIDTH }
        ensures { keys_left result ≡ walk_from self.now.entries [] (P.key prefix.now) inclusive }
    {
        Keys {
            entries: self.iter_from(prefix, inclusive),
        }
    }

    /// The prefixes of the entries of [`children`](PrefixMap::children).
    pub(crate) fn keys_below(&self, prefix: &P) -> Keys<'_, P, T>
        requires { P.prefix_len prefix.now ≤ P.R.WIDTH }
        ensures { keys_left result ≡ walk self.now.entries (P.key prefix.now) }
    {
        Keys {
            entries: self.children(prefix),
        }
    }

    /// The entries whose keys begin with the prefix's key, its own among them, in key order.
    pub fn children(&self, prefix: &P) -> Iter<'_, P, T>
        requires { P.prefix_len prefix.now ≤ P.R.WIDTH }
        ensures { iter_left result ≡ walk self.now.entries (P.key prefix.now) }
    {
        Iter::new(self, prefix, u32::from(prefix.prefix_len()), true)
    }
}

impl<'a, P: PrefixBits + Drop, T> IntoIterator for &'a PrefixMap<P, T> {
    type Item = (P, &'a T);

    type IntoIter = Iter<'a, P, T>;

    ghost use Rattle.std.specs.FinMap.{entries};
    ghost use Rattle.prefix_map.specs.Iterators.{iter_left};

    ghost into_iter_gives = { λ m it. iter_left it ≡ entries m.now.entries };

    fn into_iter(self) -> Iter<'a, P, T> {
        self.iter()
    }
}

/// The entries whose keys a prefix's key begins with, the shortest first.
#[derive(Drop)]
pub struct Cover<'a, P: PrefixKey, T> {
    map: Option<&'a PrefixMap<P, T>>,
    prefix: P,
    from: u32,
    ghost fits: { P.prefix_len prefix ≤ P.WIDTH },
}

impl<'a, P: PrefixBits + Drop, T> Iterator for Cover<'a, P, T> {
    type Item = (P, &'a T);

    ghost use Rattle.prefix_map.specs.Items.{GivesFirst};
    ghost use Rattle.prefix_map.specs.Iterators.{cover_left};

    ghost next_gives = { λ s r t. GivesFirst P.R.WIDTH P.PrefixKey (cover_left s) r (cover_left t) };

    ghost remaining = { λ s. at_most (length (cover_left s)) };

    fn next(&mut self) -> Option<(P, &'a T)> {
        let map = self.map?;
        let to = u32::from(self.prefix.prefix_len());
        let found = shortest_front(map.table(), self.prefix.repr(), self.from, to)?;
        self.from = found.len + 1;
        Some((prefix_of(found.key, found.len), found.value))
    }
}

/// The prefixes of the entries whose keys a prefix's key begins with, the shortest first.
#[derive(Drop)]
pub struct CoverKeys<'a, P: PrefixKey, T> {
    entries: Cover<'a, P, T>,
}

impl<'a, P: PrefixBits + Drop, T> Iterator for CoverKeys<'a, P, T> {
    type Item = P;

    ghost use Rattle.prefix_map.specs.Items.{GivesFirstKey};
    ghost use Rattle.prefix_map.specs.Iterators.{cover_keys_left};

    ghost next_gives = { λ s r t. GivesFirstKey P.R.WIDTH P.PrefixKey (cover_keys_left s) r (cover_keys_left t) };

    ghost remaining = { λ s. at_most (length (cover_keys_left s)) };

    fn next(&mut self) -> Option<P> {
        let (prefix, _) = self.entries.next()?;
        Some(prefix)
    }
}

/// The values of the entries whose keys a prefix's key begins with, that of the shortest first.
#[derive(Drop)]
pub struct CoverValues<'a, P: PrefixKey, T> {
    entries: Cover<'a, P, T>,
}

impl<'a, P: PrefixBits + Drop, T> Iterator for CoverValues<'a, P, T> {
    type Item = &'a T;

    ghost use Rattle.prefix_map.specs.Items.{GivesFirstValue};
    ghost use Rattle.prefix_map.specs.Iterators.{cover_values_left};

    ghost next_gives = { λ s r t. GivesFirstValue (cover_values_left s) r (cover_values_left t) };

    ghost remaining = { λ s. at_most (length (cover_values_left s)) };

    fn next(&mut self) -> Option<&'a T> {
        let (_, value) = self.entries.next()?;
        Some(value)
    }

    fn size_hint(&self) -> (usize, Option<usize>) {
        (0, None)
    }
}

impl<P: PrefixBits, T> PrefixMap<P, T> {
    ghost use Rattle.prefix_model.specs.Walks.{covers};
    ghost use Rattle.prefix_map.specs.Iterators.{cover_left, cover_keys_left, cover_values_left};

    /// The entries whose keys the prefix's key begins with, its own among them, the shortest first.
    pub fn cover(&self, prefix: &P) -> Cover<'_, P, T>
        requires { P.prefix_len prefix.now ≤ P.R.WIDTH }
        ensures { cover_left result ≡ covers self.now.entries (P.key prefix.now) }
    {
        Cover {
            map: Some(self),
            prefix: P::from_repr_len(prefix.repr(), prefix.prefix_len()),
            from: 0,
        }
    }

    /// The prefixes of the entries of [`cover`](PrefixMap::cover).
    pub fn cover_keys(&self, prefix: &P) -> CoverKeys<'_, P, T>
        requires { P.prefix_len prefix.now ≤ P.R.WIDTH }
        ensures { cover_keys_left result ≡ covers self.now.entries (P.key prefix.now) }
    {
        CoverKeys {
            entries: self.cover(prefix),
        }
    }

    /// The values of the entries of [`cover`](PrefixMap::cover).
    pub fn cover_values(&self, prefix: &P) -> CoverValues<'_, P, T>
        requires { P.prefix_len prefix.now ≤ P.R.WIDTH }
        ensures { cover_values_left result ≡ covers self.now.entries (P.key prefix.now) }
    {
        CoverValues {
            entries: self.cover(prefix),
        }
    }
}
