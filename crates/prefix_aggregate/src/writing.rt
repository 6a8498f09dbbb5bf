// The second walk, in key order: the entries of the new table, from the empty key down.
ghost use Rattle.std.specs.Prelude.{◌≡◌, ◌+◌, ◌-◌, ◌^◌, ◌<◌, ◌≤◌, ◌++◌, false, Some, IsSome, OnOk, IfOk, length, drop, replicate, slice_get};
ghost use Rattle.std.specs.Option.{option_copied, option_or, option_map};
ghost use Rattle.std.specs.Int.{bit_at};
ghost use Rattle.std.specs.FinMap as map;
ghost use Rattle.std.proofs.lemmas.Map.Lookups.{CmpEqualImpliesEq};
ghost use Rattle.prefix_model.specs.Tables.{HasWidth};
ghost use Rattle.prefix_model.specs.Keys.{low_bits};
ghost use Rattle.prefix_model.specs.Positions.{data_bits};
ghost use Rattle.prefix_model.specs.Candidates.{has, offers, only};
ghost use Rattle.prefix_model.specs.Building.{insert_all};
ghost use Rattle.prefix_model.specs.LeastTable.{entry, stored, inherited};
ghost use Rattle.prefix_model.specs.TableViews.{HoldsPositions, key_of, position_at};
ghost use Rattle.prefix_aggregate.specs.Places.{KeepsPositions};
ghost use Rattle.prefix_aggregate.specs.Lists.{at, NoneIsHole};
ghost use Rattle.prefix_aggregate.specs.Reading.{place_key, lists_before, list_of, StandsAt, is_inherited, stored_at, handed_down, node_masks, node_lists, masks_below, lists_below, IsHere, IsRead, IsPlaced};

use crate::collecting::bits_within;
use crate::heap::inner_places;
use crate::sets::ChangeSets;
use prefix_table::{Bits, NodeAt, NodeBits, Table, TableWriter};
use std::alloc::AllocError;

/// How many masks and lists have been read.
#[derive(Drop)]
pub struct Next {
    pub mask: usize,
    pub list: usize,
}

/// A node of the table that is read: its bits, its mask and first list, and the places that have a bit of the mask or
/// a child below.
#[derive(Drop)]
struct Node<'a, T> {
    at: NodeAt,
    bits: NodeBits,
    inner: u32,
    mask: u32,
    list: usize,
    inherited: Option<&'a T>,
}

/// Stores a copy of the value, if there is one. A refusal is want of memory: there is room for as many entries as
/// the table that is read has, and no more are placed.
pub fn store<R: Bits, T: Clone>(
    table: &mut TableWriter<R, T>,
    key: R,
    len: u32,
    value: Option<&T>,
) -> Result<(), AllocError>
    requires len { len ≤ R.WIDTH }
    requires clones { (x y : T) → T.is_clone x y → y ≡ x }
    ensures entries { OnOk result (table.new.entries
        ≡ insert_all table.old.entries (at (key_of (R.bits key) len) (entry (option_copied value.entry)))) }
    ensures kept { OnOk result (KeepsPositions table.old table.new) }
{
    if let Some(value) = value {
        if let Err(_) = table.insert(key, len, value.clone()?) {
            return Err(AllocError);
        }
    }
    Ok(())
}

/// Whether a value is in the list.
fn has<T: Ord>(list: &[T], value: &T) -> bool
    ensures { result ≡ has T.cmp list.now value.now }
{
    for x in list {
        if value.cmp(x).is_eq() {
            return true;
        }
    }
    false
}

/// Whether what is inherited is in the list.
fn offers<T: Ord>(list: &[T], inherited: Option<&T>) -> bool
    ensures { result ≡ offers T.cmp list.now (option_copied inherited.entry) }
{
    match inherited {
        Some(value) => has(list, value),
        None => false,
    }
}

/// Stores what a key with this list stores, and tells what it hands down.
fn store_list<'a, R: Bits, T: Clone + Ord>(
    least: &mut TableWriter<R, T>,
    key: R,
    len: u32,
    list: Option<&'a [T]>,
    above: Option<&'a T>,
) -> Result<Option<&'a T>, AllocError>
    requires list { NoneIsHole (option_copied list) }
    requires len { len ≤ R.WIDTH }
    requires clones { (x y : T) → T.is_clone x y → y ≡ x }
    ensures entries { OnOk result (least.new.entries
        ≡ insert_all least.old.entries (at (key_of (R.bits key) len)
        (entry (stored T.cmp (option_copied list.entry) (option_copied above.entry))))) }
    ensures kept { OnOk result (KeepsPositions least.old least.new) }
    ensures given { IfOk result (λ given. option_copied given
        ≡ inherited T.cmp (option_copied list.entry) (option_copied above.entry)) }
{
    let Some(list) = list else {
        return Ok(None);
    };
    if offers(list, above) {
        return Ok(above);
    }
    let value = &list[0];
    store(least, key, len, Some(value))?;
    Ok(Some(value))
}

/// Stores a value at a key below which nothing else is, unless it is inherited.
fn store_value<R: Bits, T: Clone + Ord>(
    least: &mut TableWriter<R, T>,
    key: R,
    len: u32,
    answer: Option<&T>,
    above: Option<&T>,
) -> Result<(), AllocError>
    requires len { len ≤ R.WIDTH }
    requires clones { (x y : T) → T.is_clone x y → y ≡ x }
    ensures entries { OnOk result (least.new.entries
        ≡ insert_all least.old.entries (at (key_of (R.bits key) len)
        (entry (stored T.cmp (option_map only (option_copied answer.entry)) (option_copied above.entry))))) }
    ensures kept { OnOk result (KeepsPositions least.old least.new) }
{
    if is_inherited(answer, above) {
        return Ok(());
    }
    store(least, key, len, answer)
}

/// Whether the value is inherited.
fn is_inherited<T: Ord>(answer: Option<&T>, above: Option<&T>) -> bool
    ensures { result ≡ is_inherited T.cmp (option_copied answer.entry) (option_copied above.entry) }
{
    match answer {
        Some(value) => match above {
            Some(inherited) => inherited.cmp(value).is_eq(),
            None => false,
        },
        None => false,
    }
}

/// The answer at a place, by that above.
fn answer_at<'a, T>(
    table: &'a Table<T>,
    at: NodeAt,
    bits: u32,
    place: u32,
    above: Option<&'a T>,
) -> Option<&'a T>
    requires named { IsSome (map.get table.now.places at) }
    requires bits { bits ≡ data_bits (map.get table.now.entries) (position_at table.now at) }
    requires place { place < 31 }
    ensures { option_copied result
        ≡ option_or (map.get table.now.entries (position_at table.now at ++ place_key place)) (option_copied above.entry) }
{
    if (bits >> place) & 1 == 1 {
        Some(table.value(at, place))
    } else {
        above
    }
}

/// How many lists a mask tells before that of a place.
fn lists_before(mask: u32, place: u32) -> usize
    requires { place < 32 }
    ensures count { result ≡ lists_before mask place }
    ensures limit { result < 2 ^ 32 }
{
    (mask & ((1 << place) - 1)).count_ones() as usize
}

/// The list of a place whose bit in the mask is set.
fn list_at<'a, T>(sets: &'a ChangeSets<T>, first: usize, mask: u32, place: u32) -> Option<&'a [T]>
    requires place { place < 31 }
    requires within { first + lists_before mask place < length sets.now.lists }
    ensures { slice_get sets.now.lists (first + lists_before mask place) ≡ Some (option_copied result) }
{
    // The count of all lists fits, and so does each number below it.
    let _count = sets.len();
    sets.list(first + lists_before(mask, place))
}

/// Stores what the key of a place stores, and tells what it hands down.
fn store_at<'a, R: Bits, T: Clone + Ord>(
    sets: &'a ChangeSets<T>,
    least: &mut TableWriter<R, T>,
    node: &Node<'a, T>,
    place: u32,
    key: R,
    len: u32,
    above: Option<&'a T>,
) -> Result<Option<&'a T>, AllocError>
    requires place { place < 31 }
    requires len { len ≤ R.WIDTH }
    requires within { bit_at node.now.mask place ≡ 1
        → node.now.list + lists_before node.now.mask place < length sets.now.lists }
    requires list { bit_at node.now.mask place ≡ 1 → NoneIsHole (list_of sets.now node.now place) }
    requires clones { (x y : T) → T.is_clone x y → y ≡ x }
    ensures entries { OnOk result (least.new.entries
        ≡ insert_all least.old.entries (at (key_of (R.bits key) len)
        (entry (stored_at T.cmp sets.now node.now place (option_copied above.entry))))) }
    ensures kept { OnOk result (KeepsPositions least.old least.new) }
    ensures given { IfOk result (λ given. option_copied given
        ≡ handed_down T.cmp sets.now node.now place (option_copied above.entry)) }
{
    if (node.mask >> place) & 1 == 0 {
        return Ok(above);
    }
    let list = list_at(sets, node.list, node.mask, place);
    store_list(least, key, len, list, above)
}

/// Stores what is placed at and below a place of a node, or a slot, whose number is 31 more.
#[cycle(place)]
#[inline(always)]
fn place_at<'a, R: Bits, T: Clone + Ord>(
    table: &'a Table<T>,
    sets: &'a ChangeSets<T>,
    least: &mut TableWriter<R, T>,
    next: &mut Next,
    node: &Node<'a, T>,
    place: u32,
    key: R,
    len: u32,
    answer: Option<&'a T>,
    above: Option<&'a T>,
) -> Result<(), AllocError>
    requires order { CmpEqualImpliesEq T.cmp }
    requires clones { (x y : T) → T.is_clone x y → y ≡ x }
    requires holds { HoldsPositions table.now }
    requires width { HasWidth R.WIDTH table.now.entries }
    requires named { IsSome (map.get table.now.places node.now.at) }
    requires read { IsRead T.cmp R.WIDTH table.now sets.now (position_at table.now node.now.at) node.now }
    requires place { place < 63 }
    requires here { IsHere T.cmp R.WIDTH table.now (position_at table.now node.now.at) node.now place
        (key_of (R.bits key) len) len (option_copied answer) (option_copied above) }
    requires rest { drop len (R.bits key) ≡ replicate (R.WIDTH - len) false }
    requires masks { StandsAt sets.now.masks next.old.mask (masks_below T.cmp R.WIDTH table.now
        (5 - length (place_key place)) (key_of (R.bits key) len) (option_copied answer)) }
    requires lists { StandsAt sets.now.lists next.old.list (lists_below T.cmp R.WIDTH table.now
        (5 - length (place_key place)) (key_of (R.bits key) len) (option_copied answer)) }
    ensures entries { OnOk result (IsPlaced T.cmp R.WIDTH table.now (key_of (R.bits key) len) len
        (option_copied answer.entry) (option_copied above.entry) least.old.entries least.new.entries) }
    ensures kept { OnOk result (KeepsPositions least.old least.new) }
    ensures masks { OnOk result (next.new.mask ≡ next.old.mask + length (masks_below T.cmp R.WIDTH table.now
        (5 - length (place_key place)) (key_of (R.bits key) len) (option_copied answer.entry))) }
    ensures lists { OnOk result (next.new.list ≡ next.old.list + length (lists_below T.cmp R.WIDTH table.now
        (5 - length (place_key place)) (key_of (R.bits key) len) (option_copied answer.entry))) }
{
    if place >= 31 {
        return place_slot(
            table,
            sets,
            least,
            next,
            node.at,
            place - 31,
            key,
            len,
            answer,
            above,
        );
    }
    if (node.inner >> place) & 1 == 0 {
        store_at(sets, least, node, place, key, len, above)?;
        return Ok(());
    }
    place_inner(
        table, sets, least, next, node, place, key, len, answer, above,
    )
}

/// Stores what is placed at and below a place of a node that has something below.
#[cycle(place)]
fn place_inner<'a, R: Bits, T: Clone + Ord>(
    table: &'a Table<T>,
    sets: &'a ChangeSets<T>,
    least: &mut TableWriter<R, T>,
    next: &mut Next,
    node: &Node<'a, T>,
    place: u32,
    key: R,
    len: u32,
    answer: Option<&'a T>,
    above: Option<&'a T>,
) -> Result<(), AllocError>
    requires order { CmpEqualImpliesEq T.cmp }
    requires clones { (x y : T) → T.is_clone x y → y ≡ x }
    requires holds { HoldsPositions table.now }
    requires width { HasWidth R.WIDTH table.now.entries }
    requires named { IsSome (map.get table.now.places node.now.at) }
    requires read { IsRead T.cmp R.WIDTH table.now sets.now (position_at table.now node.now.at) node.now }
    requires place { place < 31 }
    requires inner { bit_at node.now.inner place ≡ 1 }
    requires here { IsHere T.cmp R.WIDTH table.now (position_at table.now node.now.at) node.now place
        (key_of (R.bits key) len) len (option_copied answer) (option_copied above) }
    requires rest { drop len (R.bits key) ≡ replicate (R.WIDTH - len) false }
    requires masks { StandsAt sets.now.masks next.old.mask (masks_below T.cmp R.WIDTH table.now
        (5 - length (place_key place)) (key_of (R.bits key) len) (option_copied answer)) }
    requires lists { StandsAt sets.now.lists next.old.list (lists_below T.cmp R.WIDTH table.now
        (5 - length (place_key place)) (key_of (R.bits key) len) (option_copied answer)) }
    ensures entries { OnOk result (IsPlaced T.cmp R.WIDTH table.now (key_of (R.bits key) len) len
        (option_copied answer.entry) (option_copied above.entry) least.old.entries least.new.entries) }
    ensures kept { OnOk result (KeepsPositions least.old least.new) }
    ensures masks { OnOk result (next.new.mask ≡ next.old.mask + length (masks_below T.cmp R.WIDTH table.now
        (5 - length (place_key place)) (key_of (R.bits key) len) (option_copied answer.entry))) }
    ensures lists { OnOk result (next.new.list ≡ next.old.list + length (lists_below T.cmp R.WIDTH table.now
        (5 - length (place_key place)) (key_of (R.bits key) len) (option_copied answer.entry))) }
{
    let given = store_at(sets, least, node, place, key, len, above)?;
    let answer = answer_at(table, node.at, node.bits.data_bits, place, answer);
    let low = 2 * place + 1;
    place_at(
        table,
        sets,
        least,
        next,
        node,
        low,
        key,
        len + 1,
        answer,
        given,
    )?;
    let high = key.with_bit(len);
    place_at(
        table,
        sets,
        least,
        next,
        node,
        low + 1,
        high,
        len + 1,
        answer,
        given,
    )?;
    Ok(())
}

/// Stores what is placed at and below a slot of the node that stands five bits above the key.
#[cycle(place)]
fn place_slot<'a, R: Bits, T: Clone + Ord>(
    table: &'a Table<T>,
    sets: &'a ChangeSets<T>,
    least: &mut TableWriter<R, T>,
    next: &mut Next,
    parent: NodeAt,
    slot: u32,
    key: R,
    len: u32,
    answer: Option<&'a T>,
    above: Option<&'a T>,
) -> Result<(), AllocError>
    requires order { CmpEqualImpliesEq T.cmp }
    requires clones { (x y : T) → T.is_clone x y → y ≡ x }
    requires holds { HoldsPositions table.now }
    requires width { HasWidth R.WIDTH table.now.entries }
    requires named { IsSome (map.get table.now.places parent) }
    requires slot { slot < 32 }
    requires key { key_of (R.bits key) len ≡ position_at table.now parent ++ low_bits 5 slot }
    requires len { len ≡ length (key_of (R.bits key) len) }
    requires within { len ≤ R.WIDTH }
    requires rest { drop len (R.bits key) ≡ replicate (R.WIDTH - len) false }
    requires masks { StandsAt sets.now.masks next.old.mask (masks_below T.cmp R.WIDTH table.now
        0 (key_of (R.bits key) len) (option_copied answer)) }
    requires lists { StandsAt sets.now.lists next.old.list (lists_below T.cmp R.WIDTH table.now
        0 (key_of (R.bits key) len) (option_copied answer)) }
    ensures entries { OnOk result (IsPlaced T.cmp R.WIDTH table.now (key_of (R.bits key) len) len
        (option_copied answer.entry) (option_copied above.entry) least.old.entries least.new.entries) }
    ensures kept { OnOk result (KeepsPositions least.old least.new) }
    ensures masks { OnOk result (next.new.mask ≡ next.old.mask + length (masks_below T.cmp R.WIDTH table.now
        0 (key_of (R.bits key) len) (option_copied answer.entry))) }
    ensures lists { OnOk result (next.new.list ≡ next.old.list + length (lists_below T.cmp R.WIDTH table.now
        0 (key_of (R.bits key) len) (option_copied answer.entry))) }
{
    match table.child(parent, slot) {
        Some(child) => place_node(table, sets, least, next, child, key, len, answer, above),
        None => store_value(least, key, len, answer, above),
    }
}

/// Reads the next mask.
fn read_mask<T>(sets: &ChangeSets<T>, next: &mut Next) -> u32
    requires { next.old.mask < length sets.now.masks }
    ensures mask { slice_get sets.now.masks next.old.mask ≡ Some result }
    ensures masks { next.new.mask ≡ next.old.mask + 1 }
    ensures lists { next.new.list ≡ next.old.list }
{
    let mask = sets.masks()[next.mask];
    next.mask += 1;
    mask
}

/// Counts the lists of a mask as read, and tells the number of the first.
fn read_lists<T>(sets: &ChangeSets<T>, next: &mut Next, mask: u32) -> usize
    requires { next.old.list + lists_before mask 31 ≤ length sets.now.lists }
    ensures first { result ≡ next.old.list }
    ensures masks { next.new.mask ≡ next.old.mask }
    ensures lists { next.new.list ≡ next.old.list + lists_before mask 31 }
{
    // The count of all lists fits, and so does each number up to it.
    let _count = sets.len();
    let first = next.list;
    next.list += lists_before(mask, 31);
    first
}

/// Reads the mask of a node, and counts its lists as read.
fn read_node<'a, R: Bits, T: Ord>(
    table: &'a Table<T>,
    sets: &'a ChangeSets<T>,
    next: &mut Next,
    at: NodeAt,
    depth: u32,
    inherited: Option<&'a T>,
) -> Node<'a, T>
    requires order { CmpEqualImpliesEq T.cmp }
    requires named { IsSome (map.get table.now.places at) }
    requires depth { depth ≡ length (position_at table.now at) }
    requires within { depth ≤ R.WIDTH }
    requires masks { StandsAt sets.now.masks next.old.mask
        (node_masks T.cmp R.WIDTH table.now (position_at table.now at) (option_copied inherited)) }
    requires lists { StandsAt sets.now.lists next.old.list
        (node_lists T.cmp R.WIDTH table.now (position_at table.now at) (option_copied inherited)) }
    ensures node { result.at ≡ at }
    ensures inherited { option_copied result.inherited ≡ option_copied inherited.entry }
    ensures read { IsRead T.cmp R.WIDTH table.now sets.now (position_at table.now at) result }
    ensures masks { StandsAt sets.now.masks next.new.mask
        (masks_below T.cmp R.WIDTH table.now 5 (position_at table.now at) (option_copied inherited.entry)) }
    ensures lists { StandsAt sets.now.lists next.new.list
        (lists_below T.cmp R.WIDTH table.now 5 (position_at table.now at) (option_copied inherited.entry)) }
    ensures masks_left { next.new.mask
        + length (masks_below T.cmp R.WIDTH table.now 5 (position_at table.now at) (option_copied inherited.entry))
        ≡ next.old.mask + length (node_masks T.cmp R.WIDTH table.now (position_at table.now at) (option_copied inherited.entry)) }
    ensures lists_left { next.new.list
        + length (lists_below T.cmp R.WIDTH table.now 5 (position_at table.now at) (option_copied inherited.entry))
        ≡ next.old.list + length (node_lists T.cmp R.WIDTH table.now (position_at table.now at) (option_copied inherited.entry)) }
{
    let bits = bits_within::<R, T>(table, at, depth);
    let mask = read_mask(sets, next);
    let inner = inner_places(mask, bits.child_bits);
    let list = read_lists(sets, next, mask);
    Node {
        at,
        bits,
        inner,
        mask,
        list,
        inherited,
    }
}

/// Stores what is placed at and below a node.
#[cycle(place)]
pub fn place_node<'a, R: Bits, T: Clone + Ord>(
    table: &'a Table<T>,
    sets: &'a ChangeSets<T>,
    least: &mut TableWriter<R, T>,
    next: &mut Next,
    from: NodeAt,
    key: R,
    depth: u32,
    inherited: Option<&'a T>,
    above: Option<&'a T>,
) -> Result<(), AllocError>
    requires order { CmpEqualImpliesEq T.cmp }
    requires clones { (x y : T) → T.is_clone x y → y ≡ x }
    requires holds { HoldsPositions table.now }
    requires width { HasWidth R.WIDTH table.now.entries }
    requires named { IsSome (map.get table.now.places from) }
    requires key { key_of (R.bits key) depth ≡ position_at table.now from }
    requires depth { depth ≡ length (position_at table.now from) }
    requires within { depth ≤ R.WIDTH }
    requires rest { drop depth (R.bits key) ≡ replicate (R.WIDTH - depth) false }
    requires masks { StandsAt sets.now.masks next.old.mask
        (node_masks T.cmp R.WIDTH table.now (position_at table.now from) (option_copied inherited)) }
    requires lists { StandsAt sets.now.lists next.old.list
        (node_lists T.cmp R.WIDTH table.now (position_at table.now from) (option_copied inherited)) }
    ensures entries { OnOk result (IsPlaced T.cmp R.WIDTH table.now (position_at table.now from) depth
        (option_copied inherited.entry) (option_copied above.entry) least.old.entries least.new.entries) }
    ensures kept { OnOk result (KeepsPositions least.old least.new) }
    ensures masks { OnOk result (next.new.mask ≡ next.old.mask + length
        (node_masks T.cmp R.WIDTH table.now (position_at table.now from) (option_copied inherited.entry))) }
    ensures lists { OnOk result (next.new.list ≡ next.old.list + length
        (node_lists T.cmp R.WIDTH table.now (position_at table.now from) (option_copied inherited.entry))) }
{
    let node = read_node::<R, T>(table, sets, next, from, depth, inherited);
    place_at(
        table, sets, least, next, &node, 0, key, depth, inherited, above,
    )
}
