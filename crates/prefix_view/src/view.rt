//! The trait of views.
ghost use Rattle.std.specs.Prelude.{IfSome, IsSome, ◌≡◌, ◌↔◌, ℕ, ◌+◌, ◌-◌, ◌<◌, ◌≤◌, ◌++◌, ◌∷◌, [], Bool, false, true, Some, None, IsTrue, IsBitSet, MatchOption, length, replicate, take, slice_get};
ghost use Rattle.std.specs.Option.{option_map};
ghost use Rattle.std.specs.FinMap.{get, contains_key};
ghost use Rattle.prefix_model.specs.Keys.{KeyBits, low_bits, padded};
ghost use Rattle.prefix_model.specs.Positions.{data_places};
ghost use Rattle.prefix_model.specs.Walks.{begins_with, node_of, walk, walk_from, IsLongestUnder};
ghost use Rattle.prefix_view.specs.Pairs.{AsksPairs};
ghost use Rattle.prefix_model.specs.Views.{Seen, moved, node, IsPlace, IsShownAt, data_below, children_below, held, walk_of, HaveSameKeys, CanStep, CanFind, LeadsTo, IsBelow, IsBest};

use crate::equality::{agree_by, have_same_keys};
use crate::iter::{Rest, ViewIter, ViewKeys, ViewValues};
use crate::walk::view_at_bit;
use prefix_table::{Bits, K, PrefixBits, child_bit, data_bit, data_lpm_mask, same_front};

/// A place in a map, from which the entries that extend it are seen.
///
/// An implementation writes the calls from [`depth`](TrieView::depth) to [`reposition`](TrieView::reposition). All
/// other calls have their bodies here. A contract sees what the view shows: the entries of the whole map, the kept
/// positions, and the place.
pub trait TrieView: Copy {
    /// The prefixes of the entries.
    type P: PrefixBits;
    /// What a view gives of a value, as a reference to it.
    type T: Copy;

    // What a contract sees of a value.
    ghost Value: { Type 0 };

    ghost value_of: { Self.T → Value };

    ghost seen: { Self → Seen Value };

    /// The length of the node's position, a multiple of five.
    fn depth(&self) -> u32
        ensures { result ≡ length (node (seen self.now)) };

    /// The length of the place.
    fn prefix_len(&self) -> u32
        ensures { result ≡ length (seen self.now).place };

    /// The bits of the place, with zeros behind them.
    fn key(&self) -> <Self::P as PrefixBits>::R
        ensures { Self.P.R.bits result
            ≡ padded Self.P.R.WIDTH (seen self.now).place };

    /// The node's data bits at or below the place.
    fn data_bitmap(&self) -> u32
        ensures { result ≡ data_below (seen self.now) };

    /// The node's child bits below the place.
    fn child_bitmap(&self) -> u32
        ensures { result ≡ children_below (seen self.now) };

    /// The value at a bit that is set in [`data_bitmap`](TrieView::data_bitmap).
    fn get_data(&self, data_bit: u32) -> Self::T
        requires { IsBitSet (data_below (seen self.now)) data_bit }
        ensures { (s : KeyBits) → slice_get data_places data_bit ≡ Some s
            → get (seen self.now).entries (node (seen self.now) ++ s) ≡ Some (value_of result) };

    /// The view at the child of a bit that is set in [`child_bitmap`](TrieView::child_bitmap).
    fn get_child(&self, child_bit: u32) -> Self
        requires { IsBitSet (children_below (seen self.now)) child_bit }
        ensures { seen result ≡ moved (seen self.now) (node (seen self.now) ++ low_bits 5 child_bit) };

    /// Moves the view to a place in the same node that extends its place. Host bits do not count.
    fn reposition(&mut self, key: <Self::P as PrefixBits>::R, prefix_len: u32)
        requires extends { IsTrue (begins_with (seen self.old).place (take prefix_len (Self.P.R.bits key))) }
        requires same_node { prefix_len < length (node (seen self.old)) + 5 }
        requires within { prefix_len ≤ Self.P.R.WIDTH }
        ensures { seen self.new ≡ moved (seen self.old) (take prefix_len (Self.P.R.bits key)) };

    ghost place_law: { (v : Self) → IsPlace Self.P.R.WIDTH (seen v) };

    /// Whether anything stands at or below the place.
    final fn is_non_empty(&self) -> bool
        ensures { IsTrue result ↔ IsShownAt (seen self.now) (seen self.now).place }
    {
        self.data_bitmap() != 0 || self.child_bitmap() != 0
    }

    /// The place.
    final fn prefix(&self) -> Self::P
        ensures key { Self.P.key result ≡ (seen self.now).place }
        ensures length { Self.P.prefix_len result ≡ length (seen self.now).place }
        ensures bits { Self.P.bits result ≡ padded Self.P.R.WIDTH (seen self.now).place }
    {
        Self::P::from_repr_len(self.key(), self.prefix_len() as u8)
    }

    /// The value at the place; `None` where nothing is stored there.
    final fn value(self) -> Option<Self::T>
        ensures { option_map value_of result ≡ get (seen self).entries (seen self).place }
    {
        let bit = data_bit(self.key(), self.prefix_len());
        if (self.data_bitmap() >> bit) & 1 == 1 {
            Some(self.get_data(bit))
        } else {
            None
        }
    }

    /// The place and its value; `None` where nothing is stored there.
    final fn prefix_value(self) -> Option<(Self::P, Self::T)>
        ensures value { option_map (λ e. value_of e.1) result ≡ get (seen self).entries (seen self).place }
        ensures key { IfSome result (λ e. Self.P.key e.0 ≡ (seen self).place) }
        ensures bits { IfSome result (λ e. Self.P.bits e.0 ≡ padded Self.P.R.WIDTH (seen self).place) }
    {
        match self.value() {
            Some(value) => Some((self.prefix(), value)),
            None => None,
        }
    }

    /// The view at the place with a 0 added. Within a node it is there where that place is shown, and across to a
    /// child where the child is kept.
    final fn left(self) -> Option<Self>
        ensures { MatchOption result (CanStep Self.P.R.WIDTH (seen self) false → ⊥)
            (λ v. CanStep Self.P.R.WIDTH (seen self) false × (seen v ≡ moved (seen self) ((seen self).place ++ false ∷ []))) }
    {
        step(self, false)
    }

    /// The view at the place with a 1 added. Within a node it is there where that place is shown, and across to a
    /// child where the child is kept.
    final fn right(self) -> Option<Self>
        ensures { MatchOption result (CanStep Self.P.R.WIDTH (seen self) true → ⊥)
            (λ v. CanStep Self.P.R.WIDTH (seen self) true × (seen v ≡ moved (seen self) ((seen self).place ++ true ∷ []))) }
    {
        step(self, true)
    }

    /// The view at a prefix; `None` where the prefix does not extend the place, or is not shown.
    final fn find(self, prefix: &Self::P) -> Option<Self>
        requires { Self.P.prefix_len prefix.now ≤ Self.P.R.WIDTH }
        ensures { MatchOption result (CanFind (seen self) (Self.P.key prefix.now) → ⊥)
            (λ v. CanFind (seen self) (Self.P.key prefix.now) × (seen v ≡ moved (seen self) (Self.P.key prefix.now))) }
    {
        match place_at(self, prefix.repr(), u32::from(prefix.prefix_len())) {
            Some(at) => if at.is_non_empty() { Some(at) } else { None },
            None => None,
        }
    }

    /// The view at a prefix that is stored in the view; `None` where it is not.
    final fn find_exact(self, prefix: &Self::P) -> Option<Self>
        requires { Self.P.prefix_len prefix.now ≤ Self.P.R.WIDTH }
        ensures { MatchOption result (held (seen self) (Self.P.key prefix.now) ≡ None)
            (λ v. IsSome (held (seen self) (Self.P.key prefix.now)) × (seen v ≡ moved (seen self) (Self.P.key prefix.now))) }
    {
        match place_at(self, prefix.repr(), u32::from(prefix.prefix_len())) {
            Some(at) => if at.value().is_some() { Some(at) } else { None },
            None => None,
        }
    }

    /// A prefix that is stored in the view, and its value; `None` where it is not.
    final fn find_exact_value(self, prefix: &Self::P) -> Option<(Self::P, Self::T)>
        requires { Self.P.prefix_len prefix.now ≤ Self.P.R.WIDTH }
        ensures value { option_map (λ e. value_of e.1) result ≡ held (seen self) (Self.P.key prefix.now) }
        ensures key { IfSome result (λ e. Self.P.key e.0 ≡ Self.P.key prefix.now) }
        ensures bits { IfSome result (λ e. Self.P.bits e.0 ≡ padded Self.P.R.WIDTH (Self.P.key prefix.now)) }
    {
        match self.find_exact(prefix) {
            Some(at) => at.prefix_value(),
            None => None,
        }
    }

    /// The view at its longest stored key that the prefix begins with; `None` where there is none.
    final fn find_lpm(self, prefix: &Self::P) -> Option<Self>
        requires { Self.P.prefix_len prefix.now ≤ Self.P.R.WIDTH }
        ensures longest { IsLongestUnder (seen self).entries (seen self).place (Self.P.key prefix.now) (option_map (λ v. (seen v).place) result) }
        ensures same { IfSome result (λ v. seen v ≡ moved (seen self) (seen v).place) }
    {
        longest_match(self, prefix.repr(), u32::from(prefix.prefix_len()))
    }

    /// The longest stored key of the view that the prefix begins with, and its value; `None` where there is none.
    final fn find_lpm_value(self, prefix: &Self::P) -> Option<(Self::P, Self::T)>
        requires { Self.P.prefix_len prefix.now ≤ Self.P.R.WIDTH }
        ensures longest { IsLongestUnder (seen self).entries (seen self).place (Self.P.key prefix.now) (option_map (λ e. Self.P.key e.0) result) }
        ensures value { IfSome result (λ e. get (seen self).entries (Self.P.key e.0) ≡ Some (value_of e.1)) }
        ensures bits { IfSome result (λ e. Self.P.bits e.0 ≡ padded Self.P.R.WIDTH (Self.P.key e.0)) }
    {
        match self.find_lpm(prefix) {
            Some(at) => at.prefix_value(),
            None => None,
        }
    }

    /// The view's entries in key order.
    final fn iter(self) -> ViewIter<Self>
        ensures { ⟦<ViewIter<Self> as Rest>⟧.left result ≡ walk_of (seen self) }
    {
        ViewIter::new(self)
    }

    /// The view's entries that do not stand before a prefix, the prefix itself only where it counts.
    final fn iter_from(self, prefix: &Self::P, inclusive: bool) -> ViewIter<Self>
        requires { Self.P.prefix_len prefix.now ≤ Self.P.R.WIDTH }
        ensures { ⟦<ViewIter<Self> as Rest>⟧.left result ≡ walk_from (seen self).entries (seen self).place (Self.P.key prefix.now) inclusive }
    {
        ViewIter::new_from(
            self,
            prefix.repr(),
            u32::from(prefix.prefix_len()),
            inclusive,
        )
    }

    /// The view's prefixes in key order.
    final fn keys(self) -> ViewKeys<Self>
        ensures { ⟦<ViewKeys<Self> as Rest>⟧.left result ≡ walk_of (seen self) }
    {
        ViewKeys::new(self)
    }

    /// The view's values in key order.
    final fn values(self) -> ViewValues<Self>
        ensures { ⟦<ViewValues<Self> as Rest>⟧.left result ≡ walk_of (seen self) }
    {
        ViewValues::new(self)
    }

    /// Whether both views have the same keys.
    final fn eq_keys<R: AsView>(self, other: R) -> bool
        ensures { (v : R.View) × R.shows other v × (IsTrue result ↔ HaveSameKeys (seen self) (R.View.seen v)) }
    {
        have_same_keys(self, other.view())
    }

    /// Whether both views have the same keys and the closure answers true at each pair of values.
    ///
    /// The closure is asked once for each pair in key order, until a key differs, a side ends or an answer is false.
    final fn eq_by<R: AsView, F: FnMut(Self::T, <R::View as TrieView>::T) -> bool>(
        self,
        other: R,
        cmp: F,
    ) -> bool
        requires { F.IsAlwaysCallable cmp }
        ensures { (v : R.View) × R.shows other v
            × AsksPairs (λ f x y r g. F.step f x y r g) value_of R.View.value_of cmp
            (walk_of (seen self)) (walk_of (R.View.seen v)) result }
    {
        agree_by(self, other.view(), cmp)
    }
}

/// What can be seen as a view: a whole map, or a view itself.
pub trait AsView: Sized {
    /// The view.
    type View: TrieView;

    // What a view of the value may be. All such views see the same.
    ghost shows: { Self → Self.View → Type 0 };

    /// The view of the whole, or the view itself.
    fn view(self) -> Self::View
        ensures { shows self result };

    ghost one_law: { (s : Self) (v w : Self.View) → shows s v → shows s w → Self.View.seen v ≡ Self.View.seen w };

    /// The view at a prefix; `None` where the prefix does not extend the place, or is not shown.
    final fn view_at(self, prefix: &<Self::View as TrieView>::P) -> Option<Self::View>
        requires { Self.View.P.prefix_len prefix.now ≤ Self.View.P.R.WIDTH }
        ensures { (v : Self.View) × shows self v
            × MatchOption result (CanFind (Self.View.seen v) (Self.View.P.key prefix.now) → ⊥)
            (λ u. CanFind (Self.View.seen v) (Self.View.P.key prefix.now) × (Self.View.seen u ≡ moved (Self.View.seen v) (Self.View.P.key prefix.now))) }
    {
        self.view().find(prefix)
    }
}

/// The view at the child towards a key; `None` where it is not kept.
pub(crate) fn child_towards<V: TrieView>(view: V, key: <V::P as PrefixBits>::R) -> Option<V>
    requires room { length (node (V.seen view)) + 5 ≤ V.P.R.WIDTH }
    requires extends { IsTrue (begins_with (V.seen view).place (take (length (node (V.seen view)) + 5) (V.P.R.bits key))) }
    ensures { let child = take (length (node (V.seen view)) + 5) (V.P.R.bits key) in
        MatchOption result (contains_key (V.seen view).kept child ≡ false)
        (λ v. (contains_key (V.seen view).kept child ≡ true) × (V.seen v ≡ moved (V.seen view) child)) }
{
    let bit = child_bit(view.depth(), key);
    if (view.child_bitmap() >> bit) & 1 == 1 {
        Some(view.get_child(bit))
    } else {
        None
    }
}

/// A view on the way to a key, in the node of the key; `None` where that node is not kept.
fn node_towards<V: TrieView>(view: V, key: <V::P as PrefixBits>::R, len: u32) -> Option<V>
    requires width { len ≤ V.P.R.WIDTH }
    requires extends { IsTrue (begins_with (V.seen view).place (take len (V.P.R.bits key))) }
    ensures { MatchOption result (contains_key (V.seen view).kept (node_of (take len (V.P.R.bits key))) ≡ false)
        (λ v. LeadsTo (V.seen view) (V.seen v) (take len (V.P.R.bits key))) }
{
    let mut at = view;
    'down: while at.depth() + 5 <= len {
        match child_towards(at, key) {
            Some(child) => at = child,
            None => return None,
        }
    }
    Some(at)
}

/// Whether a key extends the place of a view.
fn extends_place<V: TrieView>(view: V, key: <V::P as PrefixBits>::R, len: u32) -> bool
    requires { len ≤ V.P.R.WIDTH }
    ensures { IsTrue result ↔ IsTrue (begins_with (V.seen view).place (take len (V.P.R.bits key))) }
{
    let place_len = view.prefix_len();
    if place_len > len {
        return false;
    }
    same_front(view.key(), key, place_len)
}

/// The view at a key, shown or not; `None` where the key does not extend the place, or its node is not kept.
fn place_at<V: TrieView>(view: V, key: <V::P as PrefixBits>::R, len: u32) -> Option<V>
    requires { len ≤ V.P.R.WIDTH }
    ensures { let k = take len (V.P.R.bits key) in
        MatchOption result (IsTrue (begins_with (V.seen view).place k) → contains_key (V.seen view).kept (node_of k) ≡ false)
        (λ v. IsTrue (begins_with (V.seen view).place k) × (V.seen v ≡ moved (V.seen view) k)) }
{
    if !extends_place(view, key, len) {
        return None;
    }
    match node_towards(view, key, len) {
        Some(mut at) => {
            at.reposition(key, len);
            Some(at)
        }
        None => None,
    }
}

/// A key whose bit at this place is clear, with the bit as it is said.
fn with_last<R: Bits>(key: R, i: u32, bit: bool) -> R
    requires within { i < R.WIDTH }
    requires clear { slice_get (R.bits key) i ≡ Some false }
    ensures { take (i + 1) (R.bits result) ≡ take i (R.bits key) ++ bit ∷ [] }
{
    if bit { key.with_bit(i) } else { key }
}

/// The view at the place with this bit added.
fn step<V: TrieView>(view: V, bit: bool) -> Option<V>
    ensures { MatchOption result (CanStep V.P.R.WIDTH (V.seen view) bit → ⊥)
        (λ v. CanStep V.P.R.WIDTH (V.seen view) bit × (V.seen v ≡ moved (V.seen view) ((V.seen view).place ++ bit ∷ []))) }
{
    let len = view.prefix_len();
    if len == <V::P as PrefixBits>::R::WIDTH {
        return None;
    }
    let key = with_last(view.key(), len, bit);
    if len + 1 == view.depth() + 5 {
        return child_towards(view, key);
    }
    let mut below = view;
    below.reposition(key, len + 1);
    if below.is_non_empty() {
        Some(below)
    } else {
        None
    }
}

/// The view at the longest stored key of its node that a key begins with, where the key extends the place.
fn longest_here<V: TrieView>(view: V, key: <V::P as PrefixBits>::R, len: u32) -> Option<V>
    requires width { len ≤ V.P.R.WIDTH }
    requires extends { IsTrue (begins_with (V.seen view).place (take len (V.P.R.bits key))) }
    ensures { IsBest (V.seen view) (take len (V.P.R.bits key)) (length (node (V.seen view)) + 5) (option_map V.seen result) }
{
    let matches = view.data_bitmap() & data_lpm_mask(view.depth(), key, len);
    if matches == 0 {
        None
    } else {
        Some(view_at_bit(view, 31 - matches.leading_zeros()))
    }
}

/// The view at the longest such key of its node, and where there is none the one found above.
fn longest_so_far<V: TrieView>(
    view: V,
    key: <V::P as PrefixBits>::R,
    len: u32,
    above: Option<V>,
) -> Option<V>
    requires width { len ≤ V.P.R.WIDTH }
    requires extends { IsTrue (begins_with (V.seen view).place (take len (V.P.R.bits key))) }
    ensures { (whole : Seen V.Value) → IsBelow whole (V.seen view)
        → IsBest whole (take len (V.P.R.bits key)) (length (V.seen view).place) (option_map V.seen above)
        → IsBest whole (take len (V.P.R.bits key)) (length (node (V.seen view)) + 5) (option_map V.seen result) }
{
    let here = longest_here(view, key, len);
    if here.is_some() { here } else { above }
}

/// The view at its longest stored key that a key begins with, where the key extends the place.
fn longest_below<V: TrieView>(view: V, key: <V::P as PrefixBits>::R, len: u32) -> Option<V>
    requires width { len ≤ V.P.R.WIDTH }
    requires extends { IsTrue (begins_with (V.seen view).place (take len (V.P.R.bits key))) }
    ensures { IsBest (V.seen view) (take len (V.P.R.bits key)) (len + 1) (option_map V.seen result) }
{
    let mut at = view;
    let mut best = longest_here(view, key, len);
    'down: while at.depth() + K <= len {
        match child_towards(at, key) {
            Some(child) => {
                at = child;
                best = longest_so_far(child, key, len, best);
            }
            None => return best,
        }
    }
    best
}

/// The view at its longest stored key that a key begins with.
fn longest_match<V: TrieView>(view: V, key: <V::P as PrefixBits>::R, len: u32) -> Option<V>
    requires { len ≤ V.P.R.WIDTH }
    ensures longest { IsLongestUnder (V.seen view).entries (V.seen view).place (take len (V.P.R.bits key)) (option_map (λ v. (V.seen v).place) result) }
    ensures same { IfSome result (λ v. V.seen v ≡ moved (V.seen view) (V.seen v).place) }
{
    if !extends_place(view, key, len) {
        return None;
    }
    longest_below(view, key, len)
}
