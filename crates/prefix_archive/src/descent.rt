//! The first entry of an archived map from a key on: one descent, by the bitmaps of the records.
ghost use Rattle.std.specs.Prelude.{◌≡◌, ◌+◌, ◌%◌, ◌≤◌, ◌<◌, ◌++◌, ℕ, Some, IfSome, MatchOption, [], false, take, slice_get};
ghost use Rattle.std.specs.Int.{bit_at};
ghost use Rattle.std.specs.Option.{option_map};
ghost use Rattle.std.specs.FinMap as map;
ghost use Rattle.prefix_model.specs.InPlace.{IsRecordOf, is_position};
ghost use Rattle.prefix_model.specs.Keys.{KeyBits, low_bits};
ghost use Rattle.prefix_model.specs.Positions.{data_places};
ghost use Rattle.prefix_table.specs.Records.{node_record};
ghost use Rattle.prefix_model.specs.NodeSearches.{IsChosen, IsFirstOf, StandsBelow};

use crate::map::ArchivedPrefixMap;
use crate::value::ArchivedValue;
use prefix_layout::ValueCodec;
use prefix_map::descent::{first_place, from_place};
use prefix_table::{
    Bits, K, PrefixBits, Record, Steps, child_bit, data_bit, extend_repr, lex_after_child,
    reconstruct_repr,
};
use std::marker::Brand;
use std::sync::ledger::{Blank, Ledger};

/// An entry that a search found. Its key is the first `len` bits of `key`.
#[derive(Drop)]
pub(crate) struct Found<'a, R, T: ValueCodec> {
    pub key: R,
    pub len: u32,
    pub value: ArchivedValue<'a, T>,
}

/// The entry at a place of a node, by its data bit, which is set. The node stands at the first `depth` bits of the key.
fn found_at<'a, P: PrefixBits, T: ValueCodec>(
    archive: &ArchivedPrefixMap<'a, P, T>,
    node: &Record,
    depth: u32,
    key: P::R,
    bit: u32,
) -> Found<'a, P::R, T>
    requires node { IsRecordOf archive.now.table.entries (take depth (P.R.bits key)) (node_record node.now) }
    requires depth { depth ≤ P.R.WIDTH }
    requires set { bit_at node.now.data_bits bit ≡ 1 }
    ensures key { (s : KeyBits) → slice_get data_places bit ≡ Some s → take result.len (P.R.bits result.key) ≡ take depth (P.R.bits key) ++ s }
    ensures stored { map.get archive.now.table.entries (take result.len (P.R.bits result.key)) ≡ Some result.value.spelling.value }
    ensures fits { result.len ≤ P.R.WIDTH }
{
    let place = reconstruct_repr(key, depth, bit);
    Found {
        key: place.0,
        len: u32::from(place.1),
        value: archive.value_of(node, bit),
    }
}

/// The first of the entries at these places of a node.
fn first_at_places<'a, P: PrefixBits, T: ValueCodec>(
    archive: &ArchivedPrefixMap<'a, P, T>,
    node: &Record,
    depth: u32,
    key: P::R,
    places: u32,
) -> Option<Found<'a, P::R, T>>
    requires node { IsRecordOf archive.now.table.entries (take depth (P.R.bits key)) (node_record node.now) }
    requires depth { depth ≤ P.R.WIDTH }
    requires places { (b : ℕ) → bit_at places b ≡ 1 → bit_at node.now.data_bits b ≡ 1 }
    ensures first { IsFirstOf (map.get archive.now.table.entries) (IsChosen (take depth (P.R.bits key)) places 0)
        (option_map (λ x. (take x.len (P.R.bits x.key), x.value.spelling.value)) result) }
    ensures fits { IfSome result (λ x. x.len ≤ P.R.WIDTH) }
{
    if places == 0 {
        None
    } else {
        let bit = first_place(places);
        Some(found_at(archive, node, depth, key, bit))
    }
}

/// The record of the child at a child bit of a node that is set. Its record read is counted in the ledger of the blank.
fn child_in<'a, P: PrefixBits, T: ValueCodec, L: Ledger>(
    archive: &ArchivedPrefixMap<'a, P, T>,
    node: &Record,
    depth: u32,
    key: P::R,
    bit: u32,
    blank: Blank,
) -> Record
    requires node { IsRecordOf archive.now.table.entries (take depth (P.R.bits key)) (node_record node.now) }
    requires place { bit < 32 }
    requires set { bit_at node.now.child_bits bit ≡ 1 }
    requires name { blank.name ≡ L.name }
    requires parts { blank.parts ≡ L.parts }
    requires some { 0 < blank.parts }
    ensures { IsRecordOf archive.now.table.entries (take depth (P.R.bits key) ++ low_bits 5 bit) (node_record result) }
{
    let mut steps: Steps<L> = Steps::new(blank);
    archive.child_of(node, bit, &mut steps)
}

/// The record of the child at a child bit of a node that is set.
pub(crate) fn child_at<'a, P: PrefixBits, T: ValueCodec>(
    archive: &ArchivedPrefixMap<'a, P, T>,
    node: &Record,
    depth: u32,
    key: P::R,
    bit: u32,
) -> Record
    requires node { IsRecordOf archive.now.table.entries (take depth (P.R.bits key)) (node_record node.now) }
    requires place { bit < 32 }
    requires set { bit_at node.now.child_bits bit ≡ 1 }
    ensures { IsRecordOf archive.now.table.entries (take depth (P.R.bits key) ++ low_bits 5 bit) (node_record result) }
{
    child_in::<P, T, Brand>(archive, node, depth, key, bit, Blank::new(1))
}

/// The first of the entries at these places of a node and below these of its children.
fn first_of<'a, P: PrefixBits, T: ValueCodec>(
    archive: &ArchivedPrefixMap<'a, P, T>,
    node: &Record,
    depth: u32,
    key: P::R,
    places: u32,
    children: u32,
) -> Option<Found<'a, P::R, T>>
    requires node { IsRecordOf archive.now.table.entries (take depth (P.R.bits key)) (node_record node.now) }
    requires depth { depth ≤ P.R.WIDTH }
    requires at_five { depth % 5 ≡ 0 }
    requires places { (b : ℕ) → bit_at places b ≡ 1 → bit_at node.now.data_bits b ≡ 1 }
    requires children { (c : ℕ) → bit_at children c ≡ 1 → bit_at node.now.child_bits c ≡ 1 }
    ensures first { IsFirstOf (map.get archive.now.table.entries) (IsChosen (take depth (P.R.bits key)) places children)
        (option_map (λ x. (take x.len (P.R.bits x.key), x.value.spelling.value)) result) }
    ensures fits { IfSome result (λ x. x.len ≤ P.R.WIDTH) }
{
    if children == 0 {
        return first_at_places(archive, node, depth, key, places);
    }
    let child = children.trailing_zeros();
    let (places_after, children_after) = lex_after_child(child);
    let before = first_at_places(archive, node, depth, key, places & !places_after);
    if before.is_some() {
        return before;
    }
    let next = child_at(archive, node, depth, key, child);
    let next_key = extend_repr(key, depth, child);
    let below = first_of(
        archive,
        &next,
        depth + K,
        next_key,
        next.data_bits,
        next.child_bits,
    );
    if below.is_some() {
        return below;
    }
    first_of(
        archive,
        node,
        depth,
        key,
        places & places_after,
        children & children_after,
    )
}

/// The record of the child towards a key; `None` where no node stands there. Its record read is counted in the ledger
/// of the blank.
fn child_towards_in<'a, P: PrefixBits, T: ValueCodec, L: Ledger>(
    archive: &ArchivedPrefixMap<'a, P, T>,
    node: &Record,
    key: P::R,
    depth: u32,
    blank: Blank,
) -> Option<Record>
    requires node { IsRecordOf archive.now.table.entries (take depth (P.R.bits key)) (node_record node.now) }
    requires within { depth + 5 ≤ P.R.WIDTH }
    requires name { blank.name ≡ L.name }
    requires parts { blank.parts ≡ L.parts }
    requires some { 0 < blank.parts }
    ensures { MatchOption result
        (is_position archive.now.table.entries (take (depth + 5) (P.R.bits key)) ≡ false)
        (λ child. IsRecordOf archive.now.table.entries (take (depth + 5) (P.R.bits key)) (node_record child)) }
{
    let mut steps: Steps<L> = Steps::new(blank);
    archive.child_towards(node, key, depth, &mut steps)
}

/// The record of the child towards a key; `None` where no node stands there.
fn child_on_path<'a, P: PrefixBits, T: ValueCodec>(
    archive: &ArchivedPrefixMap<'a, P, T>,
    node: &Record,
    key: P::R,
    depth: u32,
) -> Option<Record>
    requires node { IsRecordOf archive.now.table.entries (take depth (P.R.bits key)) (node_record node.now) }
    requires within { depth + 5 ≤ P.R.WIDTH }
    ensures { MatchOption result
        (is_position archive.now.table.entries (take (depth + 5) (P.R.bits key)) ≡ false)
        (λ child. IsRecordOf archive.now.table.entries (take (depth + 5) (P.R.bits key)) (node_record child)) }
{
    child_towards_in::<P, T, Brand>(archive, node, key, depth, Blank::new(1))
}

/// The first entry below a node that does not stand before the first `len` bits of a key, at them only where it counts.
/// The node is that of the first `depth` bits of the key.
fn first_from<'a, P: PrefixBits, T: ValueCodec>(
    archive: &ArchivedPrefixMap<'a, P, T>,
    node: &Record,
    depth: u32,
    key: P::R,
    len: u32,
    inclusive: bool,
) -> Option<Found<'a, P::R, T>>
    requires node { IsRecordOf archive.now.table.entries (take depth (P.R.bits key)) (node_record node.now) }
    requires order { depth ≤ len }
    requires within { len ≤ P.R.WIDTH }
    requires at_five { depth % 5 ≡ 0 }
    ensures first { IsFirstOf (map.get archive.now.table.entries)
        (StandsBelow (take depth (P.R.bits key)) (take len (P.R.bits key)) inclusive)
        (option_map (λ x. (take x.len (P.R.bits x.key), x.value.spelling.value)) result) }
    ensures fits { IfSome result (λ x. x.len ≤ P.R.WIDTH) }
{
    let left = len - depth;
    if left < K {
        let (places, children) = from_place(data_bit(key, len), inclusive);
        return first_of(
            archive,
            node,
            depth,
            key,
            node.data_bits & places,
            node.child_bits & children,
        );
    }
    let child = child_bit(depth, key);
    let below = match child_on_path(archive, node, key, depth) {
        Some(next) => first_from(archive, &next, depth + K, key, len, inclusive),
        None => None,
    };
    if below.is_some() {
        return below;
    }
    let (places, children) = lex_after_child(child);
    first_of(
        archive,
        node,
        depth,
        key,
        node.data_bits & places,
        node.child_bits & children,
    )
}

/// The first entry that does not stand before the first `len` bits of a key, at them only where it counts. Its record
/// read of the root is counted in the ledger of the blank.
fn first_in<'a, P: PrefixBits, T: ValueCodec, L: Ledger>(
    archive: &ArchivedPrefixMap<'a, P, T>,
    key: P::R,
    len: u32,
    inclusive: bool,
    blank: Blank,
) -> Option<Found<'a, P::R, T>>
    requires within { len ≤ P.R.WIDTH }
    requires name { blank.name ≡ L.name }
    requires parts { blank.parts ≡ L.parts }
    requires some { 0 < blank.parts }
    ensures first { IsFirstOf (map.get archive.now.table.entries) (StandsBelow [] (take len (P.R.bits key)) inclusive)
        (option_map (λ x. (take x.len (P.R.bits x.key), x.value.spelling.value)) result) }
    ensures fits { IfSome result (λ x. x.len ≤ P.R.WIDTH) }
{
    let mut steps: Steps<L> = Steps::new(blank);
    let root = archive.root_record(&mut steps);
    first_from(archive, &root, 0, key, len, inclusive)
}

/// The first entry that does not stand before the first `len` bits of a key, at them only where it counts.
pub(crate) fn first_entry<'a, P: PrefixBits, T: ValueCodec>(
    archive: &ArchivedPrefixMap<'a, P, T>,
    key: P::R,
    len: u32,
    inclusive: bool,
) -> Option<Found<'a, P::R, T>>
    requires { len ≤ P.R.WIDTH }
    ensures first { IsFirstOf (map.get archive.now.table.entries) (StandsBelow [] (take len (P.R.bits key)) inclusive)
        (option_map (λ x. (take x.len (P.R.bits x.key), x.value.spelling.value)) result) }
    ensures fits { IfSome result (λ x. x.len ≤ P.R.WIDTH) }
{
    first_in::<P, T, Brand>(archive, key, len, inclusive, Blank::new(1))
}
