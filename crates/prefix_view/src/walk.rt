//! The first entry of a view from a key on: one descent, by the bitmaps of the nodes.
ghost use Rattle.std.specs.Prelude.{◌≡◌, ◌≤◌, ◌++◌, ℕ, Some, IsTrue, take, slice_get};
ghost use Rattle.std.specs.Int.{bit_at};
ghost use Rattle.std.specs.Option.{option_map};
ghost use Rattle.prefix_model.specs.Keys.{KeyBits};
ghost use Rattle.prefix_model.specs.Positions.{data_places};
ghost use Rattle.prefix_model.specs.Walks.{begins_with};
ghost use Rattle.prefix_model.specs.NodeSearches.{IsChosen, StandsBelow};
ghost use Rattle.prefix_view.specs.Iteration.{IsFirstSeen};
ghost use Rattle.prefix_model.specs.Views.{moved, node, data_below, children_below};

use crate::view::{TrieView, child_towards};
use prefix_map::descent::{first_place, from_place};
use prefix_table::{Bits, K, PrefixBits, child_bit, data_bit, lex_after_child, reconstruct_repr};

/// The view at the place of a data bit that is set in its bitmap.
pub(crate) fn view_at_bit<V: TrieView>(view: V, bit: u32) -> V
    requires { bit_at (data_below (V.seen view)) bit ≡ 1 }
    ensures { (s : KeyBits) → slice_get data_places bit ≡ Some s → V.seen result ≡ moved (V.seen view) (node (V.seen view) ++ s) }
{
    let place = reconstruct_repr(view.key(), view.depth(), bit);
    let mut at = view;
    at.reposition(place.0, u32::from(place.1));
    at
}

/// The view at the first of the entries at these places of its node.
fn first_at_places<V: TrieView>(view: V, places: u32) -> Option<V>
    requires { (b : ℕ) → bit_at places b ≡ 1 → bit_at (data_below (V.seen view)) b ≡ 1 }
    ensures { IsFirstSeen (V.seen view) (IsChosen (node (V.seen view)) places 0) (option_map V.seen result) }
{
    if places == 0 {
        None
    } else {
        let bit = first_place(places);
        Some(view_at_bit(view, bit))
    }
}

/// The view at the first of the entries at these places of its node and below these children.
fn first_of<V: TrieView>(view: V, places: u32, children: u32) -> Option<V>
    requires places { (b : ℕ) → bit_at places b ≡ 1 → bit_at (data_below (V.seen view)) b ≡ 1 }
    requires children { (c : ℕ) → bit_at children c ≡ 1 → bit_at (children_below (V.seen view)) c ≡ 1 }
    ensures { IsFirstSeen (V.seen view) (IsChosen (node (V.seen view)) places children) (option_map V.seen result) }
{
    if children == 0 {
        return first_at_places(view, places);
    }
    let child = children.trailing_zeros();
    let (places_after, children_after) = lex_after_child(child);
    let before = first_at_places(view, places & !places_after);
    if before.is_some() {
        return before;
    }
    let next = view.get_child(child);
    let below = first_of(next, next.data_bitmap(), next.child_bitmap());
    if below.is_some() {
        return below;
    }
    first_of(view, places & places_after, children & children_after)
}

/// The view at its first entry that does not stand before a key that extends the place, the key itself only where
/// it counts.
pub(crate) fn first_from<V: TrieView>(
    view: V,
    key: <V::P as PrefixBits>::R,
    len: u32,
    inclusive: bool,
) -> Option<V>
    requires width { len ≤ V.P.R.WIDTH }
    requires extends { IsTrue (begins_with (V.seen view).place (take len (V.P.R.bits key))) }
    ensures { IsFirstSeen (V.seen view) (StandsBelow (node (V.seen view)) (take len (V.P.R.bits key)) inclusive) (option_map V.seen result) }
{
    let depth = view.depth();
    if len < depth + K {
        let (places, children) = from_place(data_bit(key, len), inclusive);
        return first_of(
            view,
            view.data_bitmap() & places,
            view.child_bitmap() & children,
        );
    }
    let below = match child_towards(view, key) {
        Some(next) => first_from(next, key, len, inclusive),
        None => None,
    };
    if below.is_some() {
        return below;
    }
    let (places, children) = lex_after_child(child_bit(depth, key));
    first_of(
        view,
        view.data_bitmap() & places,
        view.child_bitmap() & children,
    )
}
