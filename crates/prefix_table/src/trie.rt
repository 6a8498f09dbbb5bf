//! A trie of strides of five bits with two bitmaps a node, as in the crate `prefix-trie`.
//!
//! A node stands at a key of 0, 5, 10, .. bits, its position. One bitmap has 31 bits, for the keys of up to four bits
//! behind the position: the key of `l` bits that spell the number `n` has the place `2^l - 1 + n`, as in a heap. The
//! other has 32 bits, for the positions five bits longer. The values and the children of a node stand in one block
//! each, as many as bits are set, in their order. The children are nodes in place, so a node moves where the block
//! that it stands in grows; its own blocks stay.
use crate::keys::Bits;
use crate::node::{bits_between, slot_of};
use prefix_blocks::{Blocks, cells_needed};
use std::alloc::{AllocError, Global};
use std::mem;

/// A node: its bitmaps, and the blocks of its values and of its children. Where no bit is set there is no block.
#[derive(Clone, Copy)]
pub(crate) struct Node {
    pub(crate) data_bits: u32,
    pub(crate) child_bits: u32,
    pub(crate) values: u32,
    pub(crate) children: u32,
}

impl Node {
    /// A node with nothing in it.
    pub(crate) const EMPTY: Node = Node {
        data_bits: 0,
        child_bits: 0,
        values: 0,
        children: 0,
    };
}

/// The root, the children and the values. Nodes have numbers: the root 0, the others by their block and place.
#[derive(Drop)]
pub(crate) struct Trie<T> {
    pub(crate) root: Node,
    pub(crate) nodes: Blocks<Node>,
    pub(crate) values: Blocks<T>,
}

ghost use Rattle.std.specs.Prelude.{◌≡◌, ◌+◌, ◌-◌, ◌*◌, ◌/◌, ◌%◌, ◌^◌, ◌≤◌, ◌<◌, ◌==◌, ◌↔◌, ◌∷◌, ◌++◌};
ghost use Rattle.std.specs.Prelude.{cond, length, count_ones, drop, take, slice_get, Some, None};
ghost use Rattle.std.specs.Prelude.{IsTrue, IsSome, IsOk, IfOk, IfErr, OnOk, OnErr, MatchOption};
ghost use Rattle.std.specs.FinMap as map;
ghost use Rattle.std.specs.Option.{option_copied};
ghost use Rattle.std.specs.Int.{bit_at};
ghost use Rattle.prefix_model.specs.Keys.{KeyBits, low_bits, number};
ghost use Rattle.prefix_model.specs.Positions.{root_alone};
ghost use Rattle.prefix_blocks.specs.Blocks.{with_item};
ghost use Rattle.prefix_blocks.specs.Sizes.{cells_needed};
ghost use Rattle.prefix_table.specs.NodeLists.{items_of};
ghost use Rattle.prefix_model.specs.Slots.{place, picked};
ghost use Rattle.prefix_table.specs.Tries.{child_number, numbered, value_of, number_at, held, bit_of};
ghost use Rattle.prefix_table.specs.Tries.{IsTrie, IsWayEnd, table_view};
ghost use Rattle.prefix_table.specs.Writes.{with_node, AtNode, IsPosition, IsSameTrie, IsAdded, IsStored, IsWayMade};
ghost use Rattle.prefix_table.specs.Writes.{IsInserted, IsEntered, IsValueAt, IsTaken, IsCut, IsBareChild, IsRemoved};
ghost use Rattle.prefix_table.specs.Writes.{IsRemovedBelow, WayGoesOn, IsRemovedPruned, IsDropped, IsCleared, IsKeyCleared};

/// The root alone, with nothing in it. Takes no memory.
pub(crate) fn new_trie<T>(alloc: Global) -> Trie<T>
    ensures trie { IsTrie result }
    ensures entries { (table_view result).entries ≡ map.empty }
    ensures kept { (table_view result).kept ≡ root_alone }
{
    Trie {
        root: Node {
            data_bits: 0,
            child_bits: 0,
            values: 0,
            children: 0,
        },
        nodes: Blocks::new(alloc),
        values: Blocks::new(alloc),
    }
}

/// The place of a slot's item.
fn place_of(bits: u32, slot: u32) -> usize
    requires { slot < 32 }
    ensures place { result ≡ place bits slot }
    ensures limit { result < 2 ^ 32 }
{
    (bits & ((1 << slot) - 1)).count_ones() as usize
}

/// The number of the child at a slot, if there is one.
pub(crate) fn child_of(node: &Node, slot: u32) -> Option<usize>
    requires { slot < 32 }
    ensures { result ≡ cond (bit_at node.now.child_bits slot == 1) (Some (child_number node.now slot)) None }
{
    if (node.child_bits >> slot) & 1 == 1 {
        Some(node.children as usize * 32 + place_of(node.child_bits, slot) + 1)
    } else {
        None
    }
}

/// The node of this number.
pub(crate) fn node_of<T>(trie: &Trie<T>, at: usize) -> &Node
    requires named { IsSome (numbered trie.now at) }
    requires within { at ≤ 2 ^ 37 }
    ensures { numbered trie.now at ≡ Some result.now }
{
    if at == 0 {
        &trie.root
    } else {
        trie.nodes.item(((at - 1) / 32) as u32, (at - 1) % 32)
    }
}

/// The value at a place of a node whose bit is set.
pub(crate) fn item_of<'a, T>(trie: &'a Trie<T>, node: &Node, slot: u32) -> &'a T
    requires slot { slot < 32 }
    requires set { bit_at node.now.data_bits slot ≡ 1 }
    requires count { length (items_of trie.now.values.lists node.now.data_bits node.now.values) ≡ count_ones node.now.data_bits }
    ensures { value_of trie.now node.now slot ≡ Some result.now }
{
    trie.values
        .item(node.values, place_of(node.data_bits, slot))
}

/// The value at a place of a node, if its bit is set.
pub(crate) fn value_at<'a, T>(trie: &'a Trie<T>, node: &Node, slot: u32) -> Option<&'a T>
    requires slot { slot < 32 }
    requires count { length (items_of trie.now.values.lists node.now.data_bits node.now.values) ≡ count_ones node.now.data_bits }
    ensures { option_copied result ≡ value_of trie.now node.now slot }
{
    if (node.data_bits >> slot) & 1 == 1 {
        Some(item_of(trie, node, slot))
    } else {
        None
    }
}

/// Where the way down to a key ends.
#[derive(Clone, Copy)]
pub(crate) struct WayEnd {
    pub(crate) at: usize,
    pub(crate) depth: u32,
}

/// The deepest node on the way to a key.
pub(crate) fn way_to<R: Bits, T>(trie: &Trie<T>, key: R, len: u32) -> WayEnd
    requires width { len ≤ R.WIDTH }
    requires trie { IsTrie trie.now }
    ensures { IsWayEnd trie.now (R.bits key) len result.at result.depth }
{
    let mut at = 0;
    let mut depth = 0;
    while len - depth >= 5 {
        let node = node_of(trie, at);
        match child_of(node, bits_between(key, depth, depth + 5)) {
            Some(child) => at = child,
            None => return WayEnd { at, depth },
        }
        depth += 5;
    }
    WayEnd { at, depth }
}

/// The value at a key.
pub(crate) fn get_at<R: Bits, T>(trie: &Trie<T>, key: R, len: u32) -> Option<&T>
    requires width { len ≤ R.WIDTH }
    requires trie { IsTrie trie.now }
    ensures { option_copied result ≡ held trie.now (take len (R.bits key)) }
{
    let end = way_to(trie, key, len);
    if len - end.depth >= 5 {
        return None;
    }
    value_at(trie, node_of(trie, end.at), slot_of(key, end.depth, len))
}

/// Writes a node in the place of this number.
pub(crate) fn set_node<T>(trie: &mut Trie<T>, at: usize, node: Node)
    requires named { IsSome (numbered trie.old at) }
    requires within { at ≤ 2 ^ 37 }
    ensures { trie.new ≡ with_node trie.old at node }
{
    if at == 0 {
        trie.root = node;
        return;
    }
    *trie.nodes.item_mut(((at - 1) / 32) as u32, (at - 1) % 32) = node;
}

/// Writes a value at a place of a node whose bit is set, and answers the one before.
fn replace_value<T>(trie: &mut Trie<T>, node: Node, slot: u32, value: T) -> T
    requires slot { slot < 32 }
    requires set { bit_at node.data_bits slot ≡ 1 }
    requires count { length (items_of trie.old.values.lists node.data_bits node.values) ≡ count_ones node.data_bits }
    ensures before { value_of trie.old node slot ≡ Some result }
    ensures after { trie.new ≡ record trie.old { values = with_item trie.old.values node.values (place node.data_bits slot) value } }
{
    mem::replace(
        trie.values
            .item_mut(node.values, place_of(node.data_bits, slot)),
        value,
    )
}

/// Adds a value at a place of this node whose bit is clear. Takes no memory.
fn add_value<T>(trie: &mut Trie<T>, at: usize, slot: u32, value: T)
    requires trie { IsTrie trie.old }
    requires position { IsPosition trie.old at }
    requires slot { slot < 31 }
    requires clear { AtNode trie.old at (λ n. bit_at n.data_bits slot ≡ 0) }
    requires room { AtNode trie.old at (λ n. cells_needed (count_ones n.data_bits) ≤ trie.old.values.room) }
    ensures { (p s : KeyBits) → number_at trie.old p ≡ Some at → length s < 5 → bit_of s ≡ slot
        → IsStored trie.old trie.new (p ++ s) value }
{
    let node = *node_of(trie, at);
    let place = place_of(node.data_bits, slot);
    let block = trie
        .values
        .insert(node.values, node.data_bits.count_ones(), place, value);
    let grown = Node {
        data_bits: node.data_bits + (1 << slot),
        values: block,
        ..node
    };
    set_node(trie, at, grown);
}

/// Adds a node with nothing in it at a slot of this node whose bit is clear, and answers its number. Takes no memory.
fn add_child<T>(trie: &mut Trie<T>, at: usize, slot: u32) -> usize
    requires trie { IsTrie trie.old }
    requires position { (p : KeyBits) × (number_at trie.old p ≡ Some at) × (length p ≤ 120) }
    requires slot { slot < 32 }
    requires clear { AtNode trie.old at (λ n. bit_at n.child_bits slot ≡ 0) }
    requires room { AtNode trie.old at (λ n. cells_needed (count_ones n.child_bits) ≤ trie.old.nodes.room) }
    ensures added { (p : KeyBits) → number_at trie.old p ≡ Some at → IsAdded trie.old trie.new (p ++ low_bits 5 slot) result }
    ensures room { AtNode trie.old at (λ n. trie.old.nodes.room ≤ trie.new.nodes.room + cells_needed (count_ones n.child_bits)) }
{
    let node = *node_of(trie, at);
    let place = place_of(node.child_bits, slot);
    let block = trie.nodes.insert(
        node.children,
        node.child_bits.count_ones(),
        place,
        Node::EMPTY,
    );
    let grown = Node {
        child_bits: node.child_bits + (1 << slot),
        children: block,
        ..node
    };
    set_node(trie, at, grown);
    block as usize * 32 + place + 1
}

/// Adds the nodes that are missing on the way to a key. Takes no memory.
pub(crate) fn make_way<R: Bits, T>(trie: &mut Trie<T>, key: R, len: u32, end: WayEnd) -> WayEnd
    requires width { len ≤ R.WIDTH }
    requires trie { IsTrie trie.old }
    requires way { IsWayEnd trie.old (R.bits key) len end.at end.depth }
    requires room { AtNode trie.old end.at
        (λ n. cells_needed (count_ones n.child_bits) + (len - end.depth) / 5 ≤ trie.old.nodes.room + 1) }
    ensures made { IsWayMade trie.old trie.new (R.bits key) len result.at result.depth }
    ensures short { len < result.depth + 5 }
    ensures fresh { end.depth + 5 ≤ len → AtNode trie.new result.at (λ n. n.data_bits ≡ 0) }
{
    let mut at = end.at;
    let mut depth = end.depth;
    while len - depth >= 5 {
        at = add_child(trie, at, bits_between(key, depth, depth + 5));
        depth += 5;
    }
    WayEnd { at, depth }
}

/// Makes room for the nodes that are missing on the way to a key and for its value.
pub(crate) fn reserve_way<T>(trie: &mut Trie<T>, len: u32, end: WayEnd) -> Result<(), AllocError>
    requires trie { IsTrie trie.old }
    requires position { IsPosition trie.old end.at }
    requires down { end.depth + 5 ≤ len }
    requires full { AtNode trie.old end.at (λ n. count_ones n.child_bits < 32) }
    ensures nodes { OnOk result (AtNode trie.old end.at
        (λ n. cells_needed (count_ones n.child_bits) + (len - end.depth) / 5 ≤ trie.new.nodes.room + 1)) }
    ensures values { OnOk result (1 ≤ trie.new.values.room) }
    ensures same { IsSameTrie trie.old trie.new }
{
    let count = node_of(trie, end.at).child_bits.count_ones();
    let missing = ((len - end.depth) / 5) as usize;
    trie.nodes.reserve(cells_needed(count) + missing - 1)?;
    trie.values.reserve(1)
}

/// Stores a value at a place of this node, and answers the one before. Where there is no memory, the value comes back.
fn put<T>(trie: &mut Trie<T>, at: usize, slot: u32, value: T) -> Result<Option<T>, T>
    requires trie { IsTrie trie.old }
    requires position { IsPosition trie.old at }
    requires slot { slot < 31 }
    ensures { (p s : KeyBits) → number_at trie.old p ≡ Some at → length s < 5 → bit_of s ≡ slot
        → IsInserted trie.old trie.new (p ++ s) value result }
{
    let node = *node_of(trie, at);
    if (node.data_bits >> slot) & 1 == 1 {
        return Ok(Some(replace_value(trie, node, slot, value)));
    }
    match trie
        .values
        .reserve(cells_needed(node.data_bits.count_ones()))
    {
        Ok(()) => {
            add_value(trie, at, slot, value);
            Ok(None)
        }
        Err(_) => Err(value),
    }
}

/// Stores a value at a key whose node is missing. Where there is no memory, the value comes back.
fn insert_below<R: Bits, T>(
    trie: &mut Trie<T>,
    key: R,
    len: u32,
    end: WayEnd,
    value: T,
) -> Result<Option<T>, T>
    requires width { len ≤ R.WIDTH }
    requires trie { IsTrie trie.old }
    requires way { IsWayEnd trie.old (R.bits key) len end.at end.depth }
    requires down { end.depth + 5 ≤ len }
    ensures { IsEntered trie.old trie.new (take len (R.bits key)) value result }
{
    match reserve_way(trie, len, end) {
        Ok(()) => {
            let made = make_way(trie, key, len, end);
            add_value(trie, made.at, slot_of(key, made.depth, len), value);
            Ok(None)
        }
        Err(_) => Err(value),
    }
}

/// Stores a value at a key, from the deepest node on the way to it, and answers the one before. Where there is no memory,
/// the value comes back.
pub(crate) fn insert_from<R: Bits, T>(
    trie: &mut Trie<T>,
    key: R,
    len: u32,
    end: WayEnd,
    value: T,
) -> Result<Option<T>, T>
    requires width { len ≤ R.WIDTH }
    requires trie { IsTrie trie.old }
    requires way { IsWayEnd trie.old (R.bits key) len end.at end.depth }
    ensures { IsEntered trie.old trie.new (take len (R.bits key)) value result }
{
    if len - end.depth >= 5 {
        insert_below(trie, key, len, end, value)
    } else {
        put(trie, end.at, slot_of(key, end.depth, len), value)
    }
}

/// Stores a value at a key, and answers the one before. Where there is no memory, the value comes back.
pub(crate) fn insert_at<R: Bits, T>(
    trie: &mut Trie<T>,
    key: R,
    len: u32,
    value: T,
) -> Result<Option<T>, T>
    requires width { len ≤ R.WIDTH }
    requires trie { IsTrie trie.old }
    ensures { IsEntered trie.old trie.new (take len (R.bits key)) value result }
{
    let end = way_to(trie, key, len);
    insert_from(trie, key, len, end, value)
}

/// Takes the value at a place of this node whose bit is set away, and answers it. The node stays. Takes no memory.
fn take_value<T>(trie: &mut Trie<T>, at: usize, slot: u32) -> T
    requires trie { IsTrie trie.old }
    requires position { IsPosition trie.old at }
    requires slot { slot < 31 }
    requires set { AtNode trie.old at (λ n. bit_at n.data_bits slot ≡ 1) }
    ensures taken { (p s : KeyBits) → number_at trie.old p ≡ Some at → length s < 5 → bit_of s ≡ slot
        → IsTaken trie.old trie.new (p ++ s) result }
    ensures numbers { (p q r : KeyBits) → number_at trie.old p ≡ Some at → p ≡ q ++ r
        → number_at trie.new q ≡ number_at trie.old q }
{
    let node = *node_of(trie, at);
    let value = trie.values.remove(
        node.values,
        node.data_bits.count_ones(),
        place_of(node.data_bits, slot),
    );
    let left = Node {
        data_bits: node.data_bits - (1 << slot),
        ..node
    };
    set_node(trie, at, left);
    value
}

/// Takes the child at a slot of this node away, which has nothing in it. Takes no memory.
pub(crate) fn cut_child<T>(trie: &mut Trie<T>, at: usize, slot: u32)
    requires trie { IsTrie trie.old }
    requires position { IsPosition trie.old at }
    requires slot { slot < 32 }
    requires child { AtNode trie.old at (λ n. IsBareChild trie.old n slot) }
    ensures cut { (p : KeyBits) → number_at trie.old p ≡ Some at → IsCut trie.old trie.new (p ++ low_bits 5 slot) }
    ensures numbers { (p q r : KeyBits) → number_at trie.old p ≡ Some at → p ≡ q ++ r
        → number_at trie.new q ≡ number_at trie.old q }
{
    let node = *node_of(trie, at);
    let _leaf = trie.nodes.remove(
        node.children,
        node.child_bits.count_ones(),
        place_of(node.child_bits, slot),
    );
    let left = Node {
        child_bits: node.child_bits - (1 << slot),
        ..node
    };
    set_node(trie, at, left);
}

/// Takes the value at a place of this node away, if there is one, and answers it. The node stays. Takes no memory.
fn take_at<T>(trie: &mut Trie<T>, at: usize, slot: u32) -> Option<T>
    requires trie { IsTrie trie.old }
    requires position { IsPosition trie.old at }
    requires slot { slot < 31 }
    ensures removed { (p s : KeyBits) → number_at trie.old p ≡ Some at → length s < 5 → bit_of s ≡ slot
        → IsRemoved trie.old trie.new (p ++ s) result }
    ensures numbers { (p q r : KeyBits) → number_at trie.old p ≡ Some at → p ≡ q ++ r
        → number_at trie.new q ≡ number_at trie.old q }
{
    if (node_of(trie, at).data_bits >> slot) & 1 == 1 {
        Some(take_value(trie, at, slot))
    } else {
        None
    }
}

/// Takes the value at a key away, and answers it. The nodes stay. Takes no memory.
pub(crate) fn remove_at<R: Bits, T>(trie: &mut Trie<T>, key: R, len: u32) -> Option<T>
    requires width { len ≤ R.WIDTH }
    requires trie { IsTrie trie.old }
    ensures { IsRemoved trie.old trie.new (take len (R.bits key)) result }
{
    let end = way_to(trie, key, len);
    if len - end.depth >= 5 {
        return None;
    }
    take_at(trie, end.at, slot_of(key, end.depth, len))
}

/// Whether a node has nothing in it.
pub(crate) fn is_empty(node: &Node) -> bool
    ensures { IsTrue result ↔ (node.now.data_bits ≡ 0) × (node.now.child_bits ≡ 0) }
{
    node.data_bits == 0 && node.child_bits == 0
}

/// What taking the value at a key away answers: the value, and whether a node on the way below stays. Then nothing above
/// can be bare.
struct Removed<T> {
    value: Option<T>,
    done: bool,
}

/// Takes the value at a key away, and answers it. Then takes each node on the way from this one, at this depth, to the key
/// away that has nothing in it, the deepest first, and ends at the first that stays. This one stays. Takes no memory.
fn remove_below<R: Bits, T>(
    trie: &mut Trie<T>,
    at: usize,
    key: R,
    len: u32,
    depth: u32,
) -> Removed<T>
    requires width { len ≤ R.WIDTH }
    requires from { depth ≤ len }
    requires at_five { depth % 5 ≡ 0 }
    requires trie { IsTrie trie.old }
    requires named { number_at trie.old (take depth (R.bits key)) ≡ Some at }
    ensures removed { IsRemovedBelow trie.old trie.new (R.bits key) len depth result.value }
    ensures done { IsTrue result.done ↔ WayGoesOn trie.new (R.bits key) len depth }
{
    if len - depth < 5 {
        return Removed {
            value: take_at(trie, at, slot_of(key, depth, len)),
            done: false,
        };
    }
    let slot = bits_between(key, depth, depth + 5);
    match child_of(node_of(trie, at), slot) {
        Some(child) => {
            let Removed { value, done } = remove_below(trie, child, key, len, depth + 5);
            if done {
                return Removed { value, done };
            }
            let stays = !is_empty(node_of(trie, child));
            if stays {
                return Removed { value, done: true };
            }
            cut_child(trie, at, slot);
            Removed { value, done }
        }
        None => Removed {
            value: None,
            done: false,
        },
    }
}

/// Takes the value at a key away, and answers it. Then takes each node on the way to the key away that has nothing in it,
/// the deepest first, up to the first that stays. The root stays. Takes no memory.
pub(crate) fn remove_pruned<R: Bits, T>(trie: &mut Trie<T>, key: R, len: u32) -> Option<T>
    requires width { len ≤ R.WIDTH }
    requires trie { IsTrie trie.old }
    ensures { IsRemovedPruned trie.old trie.new (take len (R.bits key)) result }
{
    let Removed { value, done: _ } = remove_below(trie, 0, key, len, 0);
    value
}

/// Where a value stands: its block, and its place there.
#[derive(Clone, Copy)]
pub(crate) struct ValueAt {
    pub(crate) block: u32,
    pub(crate) place: usize,
}

/// Where the value at a key stands.
pub(crate) fn find_value<R: Bits, T>(trie: &Trie<T>, key: R, len: u32) -> Option<ValueAt>
    requires width { len ≤ R.WIDTH }
    requires trie { IsTrie trie.now }
    ensures { MatchOption result (held trie.now (take len (R.bits key)) ≡ None)
        (λ at. IsValueAt trie.now (take len (R.bits key)) at.block at.place) }
{
    let end = way_to(trie, key, len);
    if len - end.depth >= 5 {
        return None;
    }
    let slot = slot_of(key, end.depth, len);
    let node = node_of(trie, end.at);
    if (node.data_bits >> slot) & 1 == 1 {
        Some(ValueAt {
            block: node.values,
            place: place_of(node.data_bits, slot),
        })
    } else {
        None
    }
}

/// Takes the value at the key behind this node's position that the `level` bits of `path` spell away, if there is one.
/// The nodes stay. Takes no memory.
pub(crate) fn drop_value<T: Drop>(
    trie: &mut Trie<T>,
    len: &mut usize,
    at: usize,
    level: u32,
    path: u32,
)
    requires trie { IsTrie trie.old }
    requires position { IsPosition trie.old at }
    requires level { level < 5 }
    requires path { path < 2 ^ level }
    requires len { len.old ≡ map.len (table_view trie.old).entries }
    ensures dropped { (p : KeyBits) → number_at trie.old p ≡ Some at → IsDropped trie.old trie.new p (p ++ low_bits level path) }
    ensures len { len.new ≡ map.len (table_view trie.new).entries }
    ensures fewer { len.new ≤ len.old }
{
    let slot = (1 << level) - 1 + path;
    if (node_of(trie, at).data_bits >> slot) & 1 == 1 {
        let _value = take_value(trie, at, slot);
        *len -= 1;
    }
}

/// Takes all away at the keys that begin with the position of this node, at this depth, and then with the `level` bits
/// that spell `path`. Five bits are those of a child. The node itself stays, and `len` counts the entries that are left.
/// Takes no memory.
fn clear_below<T: Drop>(
    trie: &mut Trie<T>,
    len: &mut usize,
    at: usize,
    depth: u32,
    level: u32,
    path: u32,
)
    requires trie { IsTrie trie.old }
    requires position { (p : KeyBits) × (number_at trie.old p ≡ Some at) × (length p ≡ depth) }
    requires level { level ≤ 5 }
    requires path { path < 2 ^ level }
    requires len { len.old ≡ map.len (table_view trie.old).entries }
    ensures cleared { (p : KeyBits) → number_at trie.old p ≡ Some at → IsCleared trie.old trie.new p (p ++ low_bits level path) }
    ensures len { len.new ≡ map.len (table_view trie.new).entries }
    ensures fewer { len.new ≤ len.old }
{
    if level == 5 {
        match child_of(node_of(trie, at), path) {
            Some(child) => {
                clear_below(trie, len, child, depth + 5, 0, 0);
                cut_child(trie, at, path);
            }
            None => {}
        }
        return;
    }
    drop_value(trie, len, at, level, path);
    clear_below(trie, len, at, depth, level + 1, 2 * path);
    clear_below(trie, len, at, depth, level + 1, 2 * path + 1);
}

/// Takes all away at the keys that begin with this one. Of the positions the key itself may stay. Takes no memory.
pub(crate) fn clear_key<R: Bits, T: Drop>(trie: &mut Trie<T>, len: &mut usize, key: R, bits: u32)
    requires width { bits ≤ R.WIDTH }
    requires trie { IsTrie trie.old }
    requires len { len.old ≡ map.len (table_view trie.old).entries }
    ensures cleared { IsKeyCleared trie.old trie.new (take bits (R.bits key)) }
    ensures len { len.new ≡ map.len (table_view trie.new).entries }
    ensures fewer { len.new ≤ len.old }
{
    let end = way_to(trie, key, bits);
    if bits - end.depth < 5 {
        let path = bits_between(key, end.depth, bits);
        clear_below(trie, len, end.at, end.depth, bits - end.depth, path);
    }
}
