//! The first entry of a table from a key on: one descent, by the bitmaps of the nodes.
ghost use Rattle.std.specs.Prelude.{◌≡◌, ◌≢◌, ◌≤◌, ◌<◌, ◌++◌, ℕ, Some, IfSome, IsSome, true, take, slice_get};
ghost use Rattle.std.specs.Int.{bit_at};
ghost use Rattle.std.specs.Option.{option_map};
ghost use Rattle.std.specs.FinMap as map;
ghost use Rattle.prefix_model.specs.Keys.{KeyBits};
ghost use Rattle.prefix_model.specs.Positions.{data_places, data_bits};
ghost use Rattle.prefix_model.specs.Walks.{stands_from};
ghost use Rattle.prefix_model.specs.TableViews.{HoldsPositions};
ghost use Rattle.prefix_map.specs.MapViews.{FitsIn};
ghost use Rattle.prefix_map.specs.Searches.{IsPosition, entry_from, found_key, position_key};
ghost use Rattle.prefix_model.specs.NodeSearches.{IsChosen, IsFirstOf, IsFromPlace, StandsBelow};
ghost use Rattle.prefix_map.specs.NodeSearches.{IsWhole};

use crate::search::{Found, Position};
use prefix_table::{
    Bits, K, NodeAt, Table, child_bit, data_bit, extend_repr, lex_after_child, lex_after_data,
    reconstruct_repr,
};

/// The set bit whose place is the first in key order. Some bit is set.
pub fn first_place(places: u32) -> u32
    requires some { places ≢ 0 }
    requires placed { (b : ℕ) → bit_at places b ≡ 1 → IsSome (slice_get data_places b) }
    ensures set { bit_at places result ≡ 1 }
    ensures first { (b : ℕ) (s t : KeyBits) → slice_get data_places result ≡ Some s → slice_get data_places b ≡ Some t
        → bit_at places b ≡ 1 → stands_from true s t ≡ true }
{
    let bit = places.trailing_zeros();
    let before = places & !lex_after_data(bit).0;
    if before == 0 {
        bit
    } else {
        first_place(before)
    }
}

/// The entry at a place of a node, by its data bit, which is set. The node stands at the first `depth` bits of the key.
fn found_at<'a, R: Bits, T>(
    table: &'a Table<T>,
    at: NodeAt,
    depth: u32,
    key: R,
    bit: u32,
) -> Found<'a, R, T>
    requires fits { FitsIn R.WIDTH table.now }
    requires named { map.get table.now.places at ≡ Some (take depth (R.bits key)) }
    requires depth { depth ≤ R.WIDTH }
    requires set { bit_at (data_bits (map.get table.now.entries) (take depth (R.bits key))) bit ≡ 1 }
    ensures key { (s : KeyBits) → slice_get data_places bit ≡ Some s → found_key R.bits result ≡ take depth (R.bits key) ++ s }
    ensures stored { map.get table.now.entries (found_key R.bits result) ≡ Some result.value.now }
    ensures whole { IsWhole R.bits R.WIDTH result }
{
    let place = reconstruct_repr(key, depth, bit);
    Found {
        key: place.0,
        len: u32::from(place.1),
        value: table.value(at, bit),
    }
}

/// The first of the entries at these places of a node.
fn first_at_places<'a, R: Bits, T>(
    table: &'a Table<T>,
    at: NodeAt,
    depth: u32,
    key: R,
    places: u32,
) -> Option<Found<'a, R, T>>
    requires fits { FitsIn R.WIDTH table.now }
    requires named { map.get table.now.places at ≡ Some (take depth (R.bits key)) }
    requires depth { depth ≤ R.WIDTH }
    requires places { (b : ℕ) → bit_at places b ≡ 1 → bit_at (data_bits (map.get table.now.entries) (take depth (R.bits key))) b ≡ 1 }
    ensures first { IsFirstOf (map.get table.now.entries) (IsChosen (take depth (R.bits key)) places 0)
        (option_map (entry_from R.bits 0) result) }
    ensures whole { IfSome result (IsWhole R.bits R.WIDTH) }
{
    if places == 0 {
        None
    } else {
        let bit = first_place(places);
        Some(found_at(table, at, depth, key, bit))
    }
}

/// The first of the entries at these places of a node and below these children.
fn first_of<'a, R: Bits, T>(
    table: &'a Table<T>,
    at: NodeAt,
    depth: u32,
    key: R,
    places: u32,
    children: u32,
) -> Option<Found<'a, R, T>>
    requires holds { HoldsPositions table.now }
    requires fits { FitsIn R.WIDTH table.now }
    requires named { map.get table.now.places at ≡ Some (take depth (R.bits key)) }
    requires depth { depth ≤ R.WIDTH }
    requires places { (b : ℕ) → bit_at places b ≡ 1 → bit_at (data_bits (map.get table.now.entries) (take depth (R.bits key))) b ≡ 1 }
    ensures first { IsFirstOf (map.get table.now.entries) (IsChosen (take depth (R.bits key)) places children)
        (option_map (entry_from R.bits 0) result) }
    ensures whole { IfSome result (IsWhole R.bits R.WIDTH) }
{
    if children == 0 {
        return first_at_places(table, at, depth, key, places);
    }
    let child = children.trailing_zeros();
    let (places_after, children_after) = lex_after_child(child);
    let before = first_at_places(table, at, depth, key, places & !places_after);
    if before.is_some() {
        return before;
    }
    let below = match table.child(at, child) {
        Some(next) => {
            let bits = table.node(next);
            let next_key = extend_repr(key, depth, child);
            first_of(
                table,
                next,
                depth + K,
                next_key,
                bits.data_bits,
                bits.child_bits,
            )
        }
        None => None,
    };
    if below.is_some() {
        return below;
    }
    first_of(
        table,
        at,
        depth,
        key,
        places & places_after,
        children & children_after,
    )
}

/// The places of a node from that of a data bit on, itself only where it counts, and the children behind it.
pub fn from_place(bit: u32, inclusive: bool) -> (u32, u32)
    requires { bit < 31 }
    ensures { (r : KeyBits) → slice_get data_places bit ≡ Some r → IsFromPlace inclusive r result.0 result.1 }
{
    let (places, children) = lex_after_data(bit);
    if inclusive {
        (places, children)
    } else {
        (places & !(1 << bit), children)
    }
}

/// The first entry below a node that does not stand before the position. The node is that of the first `depth` bits of
/// the position's key.
pub(crate) fn first_from<'a, R: Bits, T>(
    table: &'a Table<T>,
    at: NodeAt,
    depth: u32,
    position: &Position<R>,
) -> Option<Found<'a, R, T>>
    requires holds { HoldsPositions table.now }
    requires fits { FitsIn R.WIDTH table.now }
    requires position { IsPosition R.WIDTH position.now }
    requires named { map.get table.now.places at ≡ Some (take depth (R.bits position.now.key)) }
    requires depth { depth ≤ position.now.len }
    ensures first { IsFirstOf (map.get table.now.entries)
        (StandsBelow (take depth (R.bits position.now.key)) (position_key R.bits position.now) position.now.inclusive)
        (option_map (entry_from R.bits 0) result) }
    ensures whole { IfSome result (IsWhole R.bits R.WIDTH) }
{
    let left = position.len - depth;
    if left < K {
        let bits = table.node(at);
        let (places, children) = from_place(
            data_bit(position.key, position.len),
            position.inclusive,
        );
        return first_of(
            table,
            at,
            depth,
            position.key,
            bits.data_bits & places,
            bits.child_bits & children,
        );
    }
    let child = child_bit(depth, position.key);
    let below = match table.child(at, child) {
        Some(next) => first_from(table, next, depth + K, position),
        None => None,
    };
    if below.is_some() {
        return below;
    }
    let bits = table.node(at);
    let (places, children) = lex_after_child(child);
    first_of(
        table,
        at,
        depth,
        position.key,
        bits.data_bits & places,
        bits.child_bits & children,
    )
}
