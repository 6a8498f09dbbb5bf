//! Iterators over views: each keeps a position and descends anew for each item.
ghost use Rattle.std.specs.Prelude.{◌≡◌, ◌<◌, ◌≤◌, ◌+◌, ℕ, Bool, true, false, MatchOption, List, length, take};
ghost use Rattle.std.specs.Option.{option_map};
ghost use Rattle.prefix_model.specs.Keys.{KeyBits, key_cmp};
ghost use Rattle.prefix_model.specs.Walks.{begins_with, walk, walk_from};
ghost use Rattle.prefix_view.specs.Iteration.{left_from, IsAdvance};

mod steps;

use crate::view::TrieView;
use crate::walk::first_from;
use prefix_table::{Bits, PrefixBits};
use std::cmp::Ordering;

/// The order of the first `len` bits of two integers, `len` at most the width.
fn order_of_fronts<R: Bits>(a: R, b: R, len: u32) -> Ordering
    requires { len ≤ R.WIDTH }
    ensures { result ≡ key_cmp (take len (R.bits a)) (take len (R.bits b)) }
{
    for i in 0..len {
        let bit = a.bit(i);
        if bit != b.bit(i) {
            return if bit {
                Ordering::Greater
            } else {
                Ordering::Less
            };
        }
    }
    Ordering::Equal
}

/// What contracts see of an iterator over a view. It has no call.
pub trait Rest {
    // What a contract sees of a value.
    ghost Value: { Type 0 };

    // The entries of the items that are not given yet, in key order.
    ghost left: { Self → List (KeyBits × Value) };
}

/// The entries of a view from a key on, in key order.
#[derive(Drop)]
pub struct ViewIter<V: TrieView> {
    view: V,
    key: <V::P as PrefixBits>::R,
    len: u32,
    inclusive: bool,
    done: bool,

    ghost within: { len ≤ V.P.R.WIDTH },
    ghost extends: { begins_with (V.seen view).place (take len (V.P.R.bits key)) ≡ true },
}

impl<V: TrieView> ViewIter<V> {
    /// All entries of a view.
    pub(crate) fn new(view: V) -> ViewIter<V>
        ensures view { result.view ≡ view }
        ensures left { left_from (V.seen view) (take result.len (V.P.R.bits result.key)) result.inclusive result.done
            ≡ walk (V.seen view).entries (V.seen view).place }
    {
        ViewIter {
            view,
            key: view.key(),
            len: view.prefix_len(),
            inclusive: true,
            done: false,
        }
    }

    /// The entries of a view that do not stand before a key, the key itself only where it counts.
    pub(crate) fn new_from(
        view: V,
        key: <V::P as PrefixBits>::R,
        len: u32,
        inclusive: bool,
    ) -> ViewIter<V>
        requires { len ≤ V.P.R.WIDTH }
        ensures view { result.view ≡ view }
        ensures left { left_from (V.seen view) (take result.len (V.P.R.bits result.key)) result.inclusive result.done
            ≡ walk_from (V.seen view).entries (V.seen view).place (take len (V.P.R.bits key)) inclusive }
    {
        let place_len = view.prefix_len();
        if place_len > len {
            return ViewIter::new_from_short(view, key, len, inclusive);
        }
        match order_of_fronts(view.key(), key, place_len) {
            Ordering::Less => return ViewIter::ended(view),
            Ordering::Greater => return ViewIter::new(view),
            Ordering::Equal => {}
        }
        ViewIter {
            view,
            key,
            len,
            inclusive,
            done: false,
        }
    }

    // The same from a key that is shorter than the place.
    fn new_from_short(
        view: V,
        key: <V::P as PrefixBits>::R,
        len: u32,
        _inclusive: bool,
    ) -> ViewIter<V>
        requires width { len ≤ V.P.R.WIDTH }
        requires short { len < length (V.seen view).place }
        ensures view { result.view ≡ view }
        ensures left { left_from (V.seen view) (take result.len (V.P.R.bits result.key)) result.inclusive result.done
            ≡ walk_from (V.seen view).entries (V.seen view).place (take len (V.P.R.bits key)) _inclusive }
    {
        match order_of_fronts(view.key(), key, len) {
            Ordering::Less => return ViewIter::ended(view),
            Ordering::Equal | Ordering::Greater => {}
        }
        ViewIter::new(view)
    }

    /// No entry of a view.
    fn ended(view: V) -> ViewIter<V>
        ensures view { result.view ≡ view }
        ensures done { result.done ≡ true }
    {
        ViewIter {
            view,
            key: view.key(),
            len: view.prefix_len(),
            inclusive: false,
            done: true,
        }
    }

    /// The view at the next entry.
    pub(crate) fn advance(&mut self) -> Option<V>
        ensures view { self.new.view ≡ self.old.view }
        ensures next { IsAdvance (V.seen self.old.view)
            (left_from (V.seen self.old.view) (take self.old.len (V.P.R.bits self.old.key)) self.old.inclusive self.old.done)
            (left_from (V.seen self.old.view) (take self.new.len (V.P.R.bits self.new.key)) self.new.inclusive self.new.done)
            (option_map V.seen result) }
    {
        if self.done {
            return None;
        }
        match first_from(self.view, self.key, self.len, self.inclusive) {
            Some(found) => {
                self.key = found.key();
                self.len = found.prefix_len();
                self.inclusive = false;
                Some(found)
            }
            None => {
                self.done = true;
                None
            }
        }
    }
}

/// The prefixes of a view's entries, in key order.
#[derive(Drop)]
pub struct ViewKeys<V: TrieView> {
    pub(crate) entries: ViewIter<V>,
}

impl<V: TrieView> ViewKeys<V> {
    /// All prefixes of a view.
    pub(crate) fn new(view: V) -> ViewKeys<V>
        ensures view { result.entries.view ≡ view }
        ensures left { left_from (V.seen view) (take result.entries.len (V.P.R.bits result.entries.key)) result.entries.inclusive result.entries.done
            ≡ walk (V.seen view).entries (V.seen view).place }
    {
        ViewKeys {
            entries: ViewIter::new(view),
        }
    }
}

/// The values of a view's entries, in key order.
#[derive(Drop)]
pub struct ViewValues<V: TrieView> {
    pub(crate) entries: ViewIter<V>,
}

impl<V: TrieView> ViewValues<V> {
    /// All values of a view.
    pub(crate) fn new(view: V) -> ViewValues<V>
        ensures view { result.entries.view ≡ view }
        ensures left { left_from (V.seen view) (take result.entries.len (V.P.R.bits result.entries.key)) result.entries.inclusive result.entries.done
            ≡ walk (V.seen view).entries (V.seen view).place }
    {
        ViewValues {
            entries: ViewIter::new(view),
        }
    }
}
