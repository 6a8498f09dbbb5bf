//! Walks over the entries of an archived map, in key order. Each keeps a place and descends anew for each item.
ghost use Rattle.std.specs.Prelude.{◌≡◌, ◌≤◌, ⊤, [], true, IfSome, length, map, take};
ghost use Rattle.std.specs.FinMap.{entries, get};
ghost use Rattle.std.specs.Option.{option_map};
ghost use Rattle.std.specs.Iterator.{YieldsFirstBy, item_count};
ghost use Rattle.prefix_model.specs.Keys.{low_bits, padded};
ghost use Rattle.prefix_model.specs.Walks.{begins_with, walk, walk_from};
ghost use Rattle.prefix_model.specs.Searches.{IsFirst, in_walk};
ghost use Rattle.prefix_archive.specs.ArchivedViews.{seen_in};
ghost use Rattle.prefix_archive.specs.Iterating.{left_of, is_inside};

use crate::descent::{Found, first_entry};
use crate::map::{ArchivedPrefixMap, prefix_of};
use crate::value::ArchivedValue;
use crate::view::ArchivedTrieRef;
use prefix_layout::ValueCodec;
use prefix_table::{Bits, PrefixBits, same_front};
use prefix_view::iter::Rest;
use prefix_view::view::TrieView;
use std::alloc::AllocError;

/// Whether a key begins with the place of a view.
fn is_below<'a, P: PrefixBits, T: ValueCodec>(
    view: &ArchivedTrieRef<'a, P, T>,
    key: P::R,
    len: u32,
) -> bool
    requires { len ≤ P.R.WIDTH }
    ensures { result ≡ begins_with (low_bits view.now.prefix_len view.now.place) (take len (P.R.bits key)) }
{
    let within = view.prefix_len();
    if len < within {
        return false;
    }
    same_front(view.key(), key, within)
}

/// The first entry of a view that does not stand before the first `len` bits of a key, at them only where it counts.
fn first_below<'a, P: PrefixBits, T: ValueCodec>(
    view: &ArchivedTrieRef<'a, P, T>,
    key: P::R,
    len: u32,
    inclusive: bool,
) -> Option<Found<'a, P::R, T>>
    requires within { len ≤ P.R.WIDTH }
    requires inside { begins_with (low_bits view.now.prefix_len view.now.place) (take len (P.R.bits key)) ≡ true }
    ensures first { IsFirst (get view.now.at.map.table.entries)
        (in_walk (low_bits view.now.prefix_len view.now.place) (take len (P.R.bits key)) inclusive)
        (option_map (λ x. (take x.len (P.R.bits x.key), x.value.spelling.value)) result) }
    ensures fits { IfSome result (λ x. x.len ≤ P.R.WIDTH) }
    ensures below { IfSome result (λ x. begins_with (low_bits view.now.prefix_len view.now.place) (take x.len (P.R.bits x.key)) ≡ true) }
{
    let found = first_entry(&view.map(), key, len, inclusive)?;
    let inside = is_below(view, found.key, found.len);
    if inside {
        return Some(found);
    }
    None
}

/// The entries of an archived map from a prefix on: prefixes with host bits zero, and values.
#[derive(Drop)]
pub struct Iter<'a, P: PrefixBits, T: ValueCodec> {
    // What is walked; none where nothing is.
    view: Option<ArchivedTrieRef<'a, P, T>>,
    last: P,
    inclusive: bool,

    ghost fits: { P.prefix_len last ≤ P.R.WIDTH },
    ghost inside: { is_inside (λ v. seen_in v.at.map.table.entries v.place v.prefix_len) view (P.key last) ≡ true },
}

impl<'a, P: PrefixBits + Copy, T: ValueCodec> Clone for Iter<'a, P, T> {
    ghost is_clone = { λ old new. (new.view ≡ old.view) × (new.last ≡ old.last) × (new.inclusive ≡ old.inclusive) };

    ghost is_infallible = { λ _. ⊤ };

    fn clone(&self) -> Result<Iter<'a, P, T>, AllocError> {
        Ok(Iter {
            view: self.view,
            last: self.last,
            inclusive: self.inclusive,
        })
    }
}

impl<'a, P: PrefixBits + Copy, T: ValueCodec> Copy for Iter<'a, P, T> {}

impl<'a, P: PrefixBits, T: ValueCodec> Rest for Iter<'a, P, T> {
    ghost Value = { T };

    ghost left = { λ it. left_of (λ v. seen_in v.at.map.table.entries v.place v.prefix_len) it.view (P.key it.last) it.inclusive };
}

impl<'a, P: PrefixBits, T: ValueCodec> Default for Iter<'a, P, T> {
    ghost is_default = { λ it. ⟦<Iter<'a, P, T> as Rest>⟧.left it ≡ [] };

    fn default() -> Self {
        Iter {
            view: None,
            last: P::from_repr_len(P::R::zeros(), 0),
            inclusive: true,
        }
    }
}

impl<'a, P: PrefixBits, T: ValueCodec> Iter<'a, P, T> {
    /// The entries of a view that do not stand before a prefix, its own only where it counts.
    fn new(view: Option<ArchivedTrieRef<'a, P, T>>, prefix: &P, inclusive: bool) -> Iter<'a, P, T>
        requires fits { P.prefix_len prefix.now ≤ P.R.WIDTH }
        requires inside { is_inside (λ v. seen_in v.at.map.table.entries v.place v.prefix_len) view (P.key prefix.now) ≡ true }
        ensures { ⟦<Iter<'a, P, T> as Rest>⟧.left result
            ≡ left_of (λ v. seen_in v.at.map.table.entries v.place v.prefix_len) view.entry (P.key prefix.now) inclusive }
    {
        Iter {
            view,
            last: P::from_repr_len(prefix.repr(), prefix.prefix_len()),
            inclusive,
        }
    }
}

impl<'a, P: PrefixBits + Drop, T: ValueCodec> Iterator for Iter<'a, P, T> {
    type Item = (P, ArchivedValue<'a, T>);

    ghost next_gives = { λ s r t.
        YieldsFirstBy (λ x. (P.key x.0, x.1.spelling.value)) ⟦<Iter<'a, P, T> as Rest>⟧.left s r t
        × IfSome r (λ x. (P.prefix_len x.0 ≡ length (P.key x.0)) × (P.bits x.0 ≡ padded P.R.WIDTH (P.key x.0))) };

    ghost remaining = { item_count ⟦<Iter<'a, P, T> as Rest>⟧.left };

    fn next(&mut self) -> Option<(P, ArchivedValue<'a, T>)> {
        let view = self.view?;
        let len = u32::from(self.last.prefix_len());
        let found = first_below(&view, self.last.repr(), len, self.inclusive)?;
        self.last = prefix_of(found.key, found.len);
        self.inclusive = false;
        Some((prefix_of(found.key, found.len), found.value))
    }
}

/// The prefixes of the entries of an archived map, with host bits zero.
#[derive(Drop)]
pub struct Keys<'a, P: PrefixBits, T: ValueCodec> {
    pub(crate) entries: Iter<'a, P, T>,
}

impl<'a, P: PrefixBits + Copy, T: ValueCodec> Clone for Keys<'a, P, T> {
    ghost is_clone = { λ old new. (new.entries.view ≡ old.entries.view) × (new.entries.last ≡ old.entries.last)
        × (new.entries.inclusive ≡ old.entries.inclusive) };

    ghost is_infallible = { λ _. ⊤ };

    fn clone(&self) -> Result<Keys<'a, P, T>, AllocError> {
        Ok(Keys {
            entries: self.entries.clone()?,
        })
    }
}

impl<'a, P: PrefixBits + Copy, T: ValueCodec> Copy for Keys<'a, P, T> {}

impl<'a, P: PrefixBits, T: ValueCodec> Rest for Keys<'a, P, T> {
    ghost Value = { T };

    ghost left = { λ it. ⟦<Iter<'a, P, T> as Rest>⟧.left it.entries };
}

impl<'a, P: PrefixBits, T: ValueCodec> Default for Keys<'a, P, T> {
    ghost is_default = { λ it. ⟦<Keys<'a, P, T> as Rest>⟧.left it ≡ [] };

    fn default() -> Self {
        Keys {
            entries: Iter::default(),
        }
    }
}

impl<'a, P: PrefixBits + Drop, T: ValueCodec> Iterator for Keys<'a, P, T> {
    type Item = P;

    ghost next_gives = { λ s r t.
        YieldsFirstBy (λ x. P.key x) (λ it. map (λ e. e.0) (⟦<Keys<'a, P, T> as Rest>⟧.left it)) s r t
        × IfSome r (λ x. (P.prefix_len x ≡ length (P.key x)) × (P.bits x ≡ padded P.R.WIDTH (P.key x))) };

    ghost remaining = { item_count ⟦<Keys<'a, P, T> as Rest>⟧.left };

    fn next(&mut self) -> Option<P> {
        let (prefix, _) = self.entries.next()?;
        Some(prefix)
    }
}

/// The values of the entries of an archived map.
#[derive(Drop)]
pub struct Values<'a, P: PrefixBits, T: ValueCodec> {
    pub(crate) entries: Iter<'a, P, T>,
}

impl<'a, P: PrefixBits + Copy, T: ValueCodec> Clone for Values<'a, P, T> {
    ghost is_clone = { λ old new. (new.entries.view ≡ old.entries.view) × (new.entries.last ≡ old.entries.last)
        × (new.entries.inclusive ≡ old.entries.inclusive) };

    ghost is_infallible = { λ _. ⊤ };

    fn clone(&self) -> Result<Values<'a, P, T>, AllocError> {
        Ok(Values {
            entries: self.entries.clone()?,
        })
    }
}

impl<'a, P: PrefixBits + Copy, T: ValueCodec> Copy for Values<'a, P, T> {}

impl<'a, P: PrefixBits, T: ValueCodec> Rest for Values<'a, P, T> {
    ghost Value = { T };

    ghost left = { λ it. ⟦<Iter<'a, P, T> as Rest>⟧.left it.entries };
}

impl<'a, P: PrefixBits, T: ValueCodec> Default for Values<'a, P, T> {
    ghost is_default = { λ it. ⟦<Values<'a, P, T> as Rest>⟧.left it ≡ [] };

    fn default() -> Self {
        Values {
            entries: Iter::default(),
        }
    }
}

impl<'a, P: PrefixBits + Drop, T: ValueCodec> Iterator for Values<'a, P, T> {
    type Item = ArchivedValue<'a, T>;

    ghost next_gives = { YieldsFirstBy (λ x. x.spelling.value) (λ it. map (λ e. e.1) (⟦<Values<'a, P, T> as Rest>⟧.left it)) };

    ghost remaining = { item_count ⟦<Values<'a, P, T> as Rest>⟧.left };

    fn next(&mut self) -> Option<ArchivedValue<'a, T>> {
        let (_, value) = self.entries.next()?;
        Some(value)
    }
}

impl<'a, P: PrefixBits, T: ValueCodec> ArchivedPrefixMap<'a, P, T> {
    /// The entries, each a prefix with zero host bits and its value.
    pub fn iter(&self) -> Iter<'a, P, T>
    where
        P: Drop,
        ensures { ⟦<Iter<'a, P, T> as Rest>⟧.left result ≡ entries self.now.table.entries }
    {
        let first = P::from_repr_len(P::R::zeros(), 0);
        Iter::new(Some(ArchivedTrieRef::new_root(self)), &first, true)
    }

    /// The prefixes of the entries, with zero host bits.
    pub fn keys(&self) -> Keys<'a, P, T>
    where
        P: Drop,
        ensures { ⟦<Keys<'a, P, T> as Rest>⟧.left result ≡ entries self.now.table.entries }
    {
        Keys {
            entries: self.iter(),
        }
    }

    /// The values of the entries.
    pub fn values(&self) -> Values<'a, P, T>
    where
        P: Drop,
        ensures { ⟦<Values<'a, P, T> as Rest>⟧.left result ≡ entries self.now.table.entries }
    {
        Values {
            entries: self.iter(),
        }
    }

    /// The entries that do not stand before the prefix in key order, and its own only where `inclusive`.
    pub fn iter_from(&self, prefix: &P, inclusive: bool) -> Iter<'a, P, T>
        requires { P.prefix_len prefix.now ≤ P.R.WIDTH }
        ensures { ⟦<Iter<'a, P, T> as Rest>⟧.left result ≡ walk_from self.now.table.entries [] (P.key prefix.now) inclusive }
    {
        Iter::new(Some(ArchivedTrieRef::new_root(self)), prefix, inclusive)
    }

    /// The entries whose keys begin with the prefix's key, its own among them.
    pub fn children(&self, prefix: &P) -> Iter<'a, P, T>
        requires { P.prefix_len prefix.now ≤ P.R.WIDTH }
        ensures { ⟦<Iter<'a, P, T> as Rest>⟧.left result ≡ walk self.now.table.entries (P.key prefix.now) }
    {
        Iter::new(ArchivedTrieRef::new_root(self).find(prefix), prefix, true)
    }
}

impl<'a, 'b, P: PrefixBits + Drop, T: ValueCodec> IntoIterator for &'b ArchivedPrefixMap<'a, P, T> {
    type Item = (P, ArchivedValue<'a, T>);

    type IntoIter = Iter<'a, P, T>;

    ghost into_iter_gives = { λ m it. ⟦<Iter<'a, P, T> as Rest>⟧.left it ≡ entries m.now.table.entries };

    fn into_iter(self) -> Iter<'a, P, T> {
        self.iter()
    }
}
