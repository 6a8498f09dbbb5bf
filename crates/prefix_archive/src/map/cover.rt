//! The entries of an archived map whose keys a prefix's key begins with, the shortest first.
ghost use Rattle.std.specs.Prelude.{◌≡◌, ◌≤◌, ⊤, IfSome, length, map};
ghost use Rattle.std.specs.Iterator.{YieldsFirstBy, item_count};
ghost use Rattle.prefix_model.specs.Keys.{padded};
ghost use Rattle.prefix_model.specs.Walks.{covers};
ghost use Rattle.prefix_archive.specs.Iterating.{covers_from};

use crate::lookup::shortest_match;
use crate::map::{ArchivedPrefixMap, prefix_of};
use crate::value::ArchivedValue;
use prefix_layout::ValueCodec;
use prefix_table::PrefixBits;
use prefix_view::iter::Rest;
use std::marker::Brand;
use std::sync::ledger::Blank;

/// The entries whose keys a prefix's key begins with, the shortest first: prefixes with host bits zero, and values.
#[derive(Drop)]
pub struct Cover<'a, P: PrefixBits, T: ValueCodec> {
    map: ArchivedPrefixMap<'a, P, T>,
    prefix: P,
    from: u32,

    ghost fits: { P.prefix_len prefix ≤ P.R.WIDTH },
}

impl<'a, P: PrefixBits, T: ValueCodec> Rest for Cover<'a, P, T> {
    ghost Value = { T };

    ghost left = { λ it. covers_from it.map.table.entries (P.key it.prefix) it.from };
}

impl<'a, P: PrefixBits + Drop, T: ValueCodec> Iterator for Cover<'a, P, T> {
    type Item = (P, ArchivedValue<'a, T>);

    ghost next_gives = { λ s r t.
        YieldsFirstBy (λ x. (P.key x.0, x.1.spelling.value)) ⟦<Cover<'a, P, T> as Rest>⟧.left s r t
        × IfSome r (λ x. (P.prefix_len x.0 ≡ length (P.key x.0)) × (P.bits x.0 ≡ padded P.R.WIDTH (P.key x.0))) };

    ghost remaining = { item_count ⟦<Cover<'a, P, T> as Rest>⟧.left };

    fn next(&mut self) -> Option<(P, ArchivedValue<'a, T>)> {
        let key = self.prefix.repr();
        let len = u32::from(self.prefix.prefix_len());
        let found = shortest_match::<P, T, Brand>(&self.map, key, self.from, len, Blank::new(1))?;
        self.from = found.len + 1;
        Some((prefix_of(key, found.len), found.value))
    }
}

/// The prefixes of the entries whose keys a prefix's key begins with, the shortest first.
#[derive(Drop)]
pub struct CoverKeys<'a, P: PrefixBits, T: ValueCodec> {
    entries: Cover<'a, P, T>,
}

impl<'a, P: PrefixBits, T: ValueCodec> Rest for CoverKeys<'a, P, T> {
    ghost Value = { T };

    ghost left = { λ it. ⟦<Cover<'a, P, T> as Rest>⟧.left it.entries };
}

impl<'a, P: PrefixBits + Drop, T: ValueCodec> Iterator for CoverKeys<'a, P, T> {
    type Item = P;

    ghost next_gives = { λ s r t.
        YieldsFirstBy (λ x. P.key x) (λ it. map (λ e. e.0) (⟦<CoverKeys<'a, P, T> as Rest>⟧.left it)) s r t
        × IfSome r (λ x. (P.prefix_len x ≡ length (P.key x)) × (P.bits x ≡ padded P.R.WIDTH (P.key x))) };

    ghost remaining = { item_count ⟦<CoverKeys<'a, P, T> as Rest>⟧.left };

    fn next(&mut self) -> Option<P> {
        let (prefix, _) = self.entries.next()?;
        Some(prefix)
    }
}

/// The values of the entries whose keys a prefix's key begins with, that of the shortest first.
#[derive(Drop)]
pub struct CoverValues<'a, P: PrefixBits, T: ValueCodec> {
    entries: Cover<'a, P, T>,
}

impl<'a, P: PrefixBits, T: ValueCodec> Rest for CoverValues<'a, P, T> {
    ghost Value = { T };

    ghost left = { λ it. ⟦<Cover<'a, P, T> as Rest>⟧.left it.entries };
}

impl<'a, P: PrefixBits + Drop, T: ValueCodec> Iterator for CoverValues<'a, P, T> {
    type Item = ArchivedValue<'a, T>;

    ghost next_gives = { YieldsFirstBy (λ x. x.spelling.value) (λ it. map (λ e. e.1) (⟦<CoverValues<'a, P, T> as Rest>⟧.left it)) };

    ghost remaining = { item_count ⟦<CoverValues<'a, P, T> as Rest>⟧.left };

    fn next(&mut self) -> Option<ArchivedValue<'a, T>> {
        let (_, value) = self.entries.next()?;
        Some(value)
    }
}

impl<'a, P: PrefixBits, T: ValueCodec> ArchivedPrefixMap<'a, P, T> {
    /// The entries whose keys the prefix's key begins with, its own among them, the shortest first.
    pub fn cover(&self, prefix: &P) -> Cover<'a, P, T>
        requires { P.prefix_len prefix.now ≤ P.R.WIDTH }
        ensures { ⟦<Cover<'a, P, T> as Rest>⟧.left result ≡ covers self.now.table.entries (P.key prefix.now) }
    {
        Cover {
            map: *self,
            prefix: P::from_repr_len(prefix.repr(), prefix.prefix_len()),
            from: 0,
        }
    }

    /// The prefixes of the entries of [`cover`](ArchivedPrefixMap::cover).
    pub fn cover_keys(&self, prefix: &P) -> CoverKeys<'a, P, T>
        requires { P.prefix_len prefix.now ≤ P.R.WIDTH }
        ensures { ⟦<CoverKeys<'a, P, T> as Rest>⟧.left result ≡ covers self.now.table.entries (P.key prefix.now) }
    {
        CoverKeys {
            entries: self.cover(prefix),
        }
    }

    /// The values of the entries of [`cover`](ArchivedPrefixMap::cover).
    pub fn cover_values(&self, prefix: &P) -> CoverValues<'a, P, T>
        requires { P.prefix_len prefix.now ≤ P.R.WIDTH }
        ensures { ⟦<CoverValues<'a, P, T> as Rest>⟧.left result ≡ covers self.now.table.entries (P.key prefix.now) }
    {
        CoverValues {
            entries: self.cover(prefix),
        }
    }
}
