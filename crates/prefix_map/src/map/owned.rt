//! Iterators that take a map's entries out of it, in key order.
ghost use Rattle.std.specs.Prelude.{◌≡◌, ◌≤◌, length};
ghost use Rattle.std.specs.Iterator.{at_most};

use crate::map::PrefixMap;
use crate::map::cursor::Walk;
use prefix_table::{PrefixBits, PrefixKey};

/// The entries, each a prefix with zero host bits and its value.
#[derive(Drop)]
pub struct IntoIter<P: PrefixKey, T> {
    map: PrefixMap<P, T>,
    walk: Walk<P>,
}

impl<P: PrefixBits + Drop, T: Drop> Iterator for IntoIter<P, T> {
    type Item = (P, T);

    ghost use Rattle.prefix_map.specs.Items.{GivesFirstOwned};
    ghost use Rattle.prefix_map.specs.Iterators.{into_iter_left};

    ghost next_gives = { λ s r t. GivesFirstOwned P.R.WIDTH P.PrefixKey (into_iter_left s) r (into_iter_left t) };

    ghost remaining = { λ s. at_most (length (into_iter_left s)) };

    fn next(&mut self) -> Option<(P, T)> {
        let prefix = self.walk.advance(&self.map)?;
        let value = self.map.take(&prefix);
        Some((prefix, value))
    }
}

/// The prefixes of the entries, with zero host bits.
#[derive(Drop)]
pub struct IntoKeys<P: PrefixKey, T> {
    entries: IntoIter<P, T>,
}

impl<P: PrefixBits + Drop, T: Drop> Iterator for IntoKeys<P, T> {
    type Item = P;

    ghost use Rattle.prefix_map.specs.Items.{GivesFirstKey};
    ghost use Rattle.prefix_map.specs.Iterators.{into_keys_left};

    ghost next_gives = { λ s r t. GivesFirstKey P.R.WIDTH P.PrefixKey (into_keys_left s) r (into_keys_left t) };

    ghost remaining = { λ s. at_most (length (into_keys_left s)) };

    fn next(&mut self) -> Option<P> {
        let (prefix, _) = self.entries.next()?;
        Some(prefix)
    }
}

/// The values of the entries.
#[derive(Drop)]
pub struct IntoValues<P: PrefixKey, T> {
    entries: IntoIter<P, T>,
}

impl<P: PrefixBits + Drop, T: Drop> Iterator for IntoValues<P, T> {
    type Item = T;

    ghost use Rattle.prefix_map.specs.Items.{GivesFirstOwnedValue};
    ghost use Rattle.prefix_map.specs.Iterators.{into_values_left};

    ghost next_gives = { λ s r t. GivesFirstOwnedValue (into_values_left s) r (into_values_left t) };

    ghost remaining = { λ s. at_most (length (into_values_left s)) };

    fn next(&mut self) -> Option<T> {
        let (_, value) = self.entries.next()?;
        Some(value)
    }

    fn size_hint(&self) -> (usize, Option<usize>) {
        (0, None)
    }
}

impl<P: PrefixBits + Drop, T: Drop> IntoIterator for PrefixMap<P, T> {
    type Item = (P, T);

    type IntoIter = IntoIter<P, T>;

    ghost use Rattle.std.specs.FinMap.{entries};
    ghost use Rattle.prefix_map.specs.Iterators.{into_iter_left};

    ghost into_iter_gives = { λ m it. into_iter_left it ≡ entries m.entries };

    fn into_iter(self) -> IntoIter<P, T> {
        IntoIter {
            map: self,
            walk: Walk::whole(),
        }
    }
}

impl<P: PrefixBits + Drop, T: Drop> PrefixMap<P, T> {
    ghost use Rattle.std.specs.FinMap.{entries};
    ghost use Rattle.prefix_model.specs.Walks.{walk};
    ghost use Rattle.prefix_map.specs.Iterators.{into_iter_left, into_keys_left, into_values_left};

    /// The prefixes of the entries in key order, with zero host bits.
    pub fn into_keys(self) -> IntoKeys<P, T>
        ensures { into_keys_left result ≡ entries self.entries }
    {
        IntoKeys {
            entries: self.into_iter(),
        }
    }

    /// The values of the entries in key order.
    pub fn into_values(self) -> IntoValues<P, T>
        ensures { into_values_left result ≡ entries self.entries }
    {
        IntoValues {
            entries: self.into_iter(),
        }
    }

    /// The entries whose keys begin with the prefix's key, its own among them, in key order.
    pub fn into_children(self, prefix: &P) -> IntoIter<P, T>
        requires { P.prefix_len prefix.now ≤ P.R.WIDTH }
        ensures { into_iter_left result ≡ walk self.entries (P.key prefix.now) }
    {
        IntoIter {
            map: self,
            walk: Walk::new(prefix, u32::from(prefix.prefix_len()), true),
        }
    }
}
