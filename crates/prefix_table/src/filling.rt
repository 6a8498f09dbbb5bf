//! All values of a node, stored at once.
ghost use Rattle.std.specs.Prelude.{◌≡◌, ◌%◌, ◌^◌, ◌≤◌, ◌<◌, ◌++◌, [], None, OnOk, OnErr, count_ones, length, take};
ghost use Rattle.std.specs.Vec.{vec_len};
ghost use Rattle.prefix_model.specs.Keys.{KeyBits};
ghost use Rattle.prefix_blocks.specs.Sizes.{size};
ghost use Rattle.prefix_table.specs.Tries.{number_at, held, IsTrie, IsWayEnd};
ghost use Rattle.prefix_table.specs.Writes.{IsPosition, IsSameTrie};
ghost use Rattle.prefix_table.specs.Fills.{IsFilled, IsNodeEntered};

use crate::keys::Bits;
use crate::trie::{Node, Trie, WayEnd, make_way, node_of, reserve_way, set_node};
use prefix_blocks::block_size;
use std::alloc::AllocError;

/// Stores these values at the places of a node whose bits these are, in place of what it held. Takes no memory.
fn fill_node<T>(trie: &mut Trie<T>, at: usize, data_bits: u32, values: &mut Vec<T>)
    requires trie { IsTrie trie.old }
    requires position { IsPosition trie.old at }
    requires some { 0 < data_bits }
    requires within { data_bits < 2 ^ 31 }
    requires count { vec_len values.old ≡ count_ones data_bits }
    requires room { size (vec_len values.old) ≤ trie.old.values.room }
    ensures filled { (p : KeyBits) → number_at trie.old p ≡ Some at → IsFilled trie.old trie.new p data_bits values.old.items }
    ensures moved { values.new.items ≡ [] }
{
    let node = *node_of(trie, at);
    let block = trie.values.add(values);
    let filled = Node {
        data_bits,
        values: block,
        ..node
    };
    set_node(trie, at, filled);
}

/// Makes room for this many values of a node.
fn reserve_values<T>(trie: &mut Trie<T>, count: usize) -> Result<(), AllocError>
    requires { count ≤ 32 }
    ensures room { OnOk result (size count ≤ trie.new.values.room) }
    ensures nodes { trie.new.nodes ≡ trie.old.nodes }
    ensures same { IsSameTrie trie.old trie.new }
{
    trie.values.reserve(block_size(count as u32))
}

/// Stores these values at the places of a node whose bits these are, from the deepest node on the way to it. The places
/// hold none before. Where there is no memory, nothing is stored.
pub(crate) fn insert_values<R: Bits, T>(
    trie: &mut Trie<T>,
    key: R,
    depth: u32,
    end: WayEnd,
    data_bits: u32,
    values: &mut Vec<T>,
) -> Result<(), AllocError>
    requires width { depth ≤ R.WIDTH }
    requires at_five { depth % 5 ≡ 0 }
    requires trie { IsTrie trie.old }
    requires way { IsWayEnd trie.old (R.bits key) depth end.at end.depth }
    requires free { (s : KeyBits) → length s < 5 → held trie.old (take depth (R.bits key) ++ s) ≡ None }
    requires some { 0 < data_bits }
    requires within { data_bits < 2 ^ 31 }
    requires count { vec_len values.old ≡ count_ones data_bits }
    ensures entered { OnOk result (IsNodeEntered trie.old trie.new (take depth (R.bits key)) data_bits values.old.items) }
    ensures moved { OnOk result (values.new.items ≡ []) }
    ensures same { OnErr result (IsSameTrie trie.old trie.new) }
    ensures left { OnErr result (values.new ≡ values.old) }
{
    if depth == end.depth {
        reserve_values(trie, values.len())?;
        fill_node(trie, end.at, data_bits, values);
        return Ok(());
    }
    reserve_way(trie, depth, end)?;
    reserve_values(trie, values.len())?;
    let made = make_way(trie, key, depth, end);
    fill_node(trie, made.at, data_bits, values);
    Ok(())
}
