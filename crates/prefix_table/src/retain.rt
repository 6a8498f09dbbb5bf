//! Entries asked about one by one, and kept or not.
ghost use Rattle.std.specs.Prelude.{◌≡◌, ◌+◌, ◌-◌, ◌*◌, ◌^◌, ◌≤◌, ◌<◌, ◌↔◌, ◌++◌};
ghost use Rattle.std.specs.Prelude.{IsTrue, Some, false, true, length, replicate, slice_set};
ghost use Rattle.std.specs.FinMap as map;
ghost use Rattle.prefix_model.specs.Keys.{KeyBits, low_bits};
ghost use Rattle.prefix_model.specs.Tables.{HasWidth};
ghost use Rattle.prefix_table.specs.Tries.{number_at, IsTrie, table_view};
ghost use Rattle.prefix_table.specs.Retains.{IsAsked, IsNamed, IsOwnSifted, IsSifted};

use crate::keys::Bits;
use crate::trie::{Trie, child_of, cut_child, drop_value, is_empty, item_of, node_of};

/// A key with this bit set, where it has one.
fn with_one<R: Bits>(key: R, i: u32) -> R
    ensures { i < R.WIDTH → R.bits result ≡ slice_set (R.bits key) i true }
{
    if i < R::WIDTH { key.with_bit(i) } else { key }
}

/// Asks about the value at the key behind this node's position that the `level` bits of `path` spell, if there is one,
/// and takes it away where the answer is false. The nodes stay. Takes no memory.
fn ask_value<R: Bits, T: Drop, F: FnMut(R, u32, &T) -> bool>(
    trie: &mut Trie<T>,
    len: &mut usize,
    keep: &mut F,
    key: R,
    at: usize,
    depth: u32,
    level: u32,
    path: u32,
)
    requires callable { F.IsAlwaysCallable keep.old }
    requires width { HasWidth R.WIDTH (table_view trie.old).entries }
    requires trie { IsTrie trie.old }
    requires named { (p : KeyBits) × (number_at trie.old p ≡ Some at)
        × IsNamed R.bits R.WIDTH key p depth (low_bits level path) }
    requires level { level < 5 }
    requires path { path < 2 ^ level }
    requires len { len.old ≡ map.len (table_view trie.old).entries }
    ensures callable { F.IsAlwaysCallable keep.new }
    ensures asked { (p : KeyBits) → number_at trie.old p ≡ Some at
        → IsOwnSifted (IsAsked R.bits R.WIDTH F.FnMut) keep.old keep.new trie.old trie.new p (p ++ low_bits level path) }
    ensures len { len.new ≡ map.len (table_view trie.new).entries }
    ensures fewer { len.new ≤ len.old }
{
    let slot = (1 << level) - 1 + path;
    let node = node_of(trie, at);
    if (node.data_bits >> slot) & 1 == 0 {
        return;
    }
    if !keep(key, depth + level, item_of(trie, node, slot)) {
        drop_value(trie, len, at, level, path);
    }
}

/// Asks about each entry at a key that begins with the position of this node, at this depth, and then with the `level`
/// bits that spell `path`, in key order. Takes those away at which the answer is false, and then the nodes that have
/// nothing in them. Five bits are those of a child. The node itself stays, and `len` counts the entries that are left.
/// Takes no memory.
pub(crate) fn retain_below<R: Bits, T: Drop, F: FnMut(R, u32, &T) -> bool>(
    trie: &mut Trie<T>,
    len: &mut usize,
    keep: &mut F,
    key: R,
    at: usize,
    depth: u32,
    level: u32,
    path: u32,
)
    requires callable { F.IsAlwaysCallable keep.old }
    requires width { HasWidth R.WIDTH (table_view trie.old).entries }
    requires trie { IsTrie trie.old }
    requires named { (p : KeyBits) × (number_at trie.old p ≡ Some at)
        × IsNamed R.bits R.WIDTH key p depth (low_bits level path) }
    requires level { level ≤ 5 }
    requires path { path < 2 ^ level }
    requires len { len.old ≡ map.len (table_view trie.old).entries }
    ensures callable { F.IsAlwaysCallable keep.new }
    ensures sifted { (p : KeyBits) → number_at trie.old p ≡ Some at
        → IsSifted (IsAsked R.bits R.WIDTH F.FnMut) keep.old keep.new trie.old trie.new p (p ++ low_bits level path) }
    ensures len { len.new ≡ map.len (table_view trie.new).entries }
    ensures fewer { len.new ≤ len.old }
{
    if level == 5 {
        match child_of(node_of(trie, at), path) {
            Some(child) => {
                retain_below(trie, len, keep, key, child, depth + 5, 0, 0);
                if is_empty(node_of(trie, child)) {
                    cut_child(trie, at, path);
                }
            }
            None => {}
        }
        return;
    }
    ask_value(trie, len, keep, key, at, depth, level, path);
    retain_below(trie, len, keep, key, at, depth, level + 1, 2 * path);
    let other = with_one(key, depth + level);
    retain_below(trie, len, keep, other, at, depth, level + 1, 2 * path + 1);
}
