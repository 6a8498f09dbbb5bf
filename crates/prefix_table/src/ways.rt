//! The way down to a key, remembered for the next one.
ghost use Rattle.std.specs.Prelude.{◌≡◌, ◌+◌, ◌%◌, ◌≤◌, take};
ghost use Rattle.prefix_table.specs.Tries.{IsTrie, IsWayEnd};
ghost use Rattle.prefix_table.specs.Ways.{IsWay};

use crate::keys::Bits;
use crate::node::bits_between;
use crate::prefixes::same_front;
use crate::trie::{Trie, WayEnd, child_of, node_of};

/// How far down a way of this depth is also a way to another key of `len` bits: a multiple of five bits.
pub(crate) fn shared_depth<R: Bits>(last: R, key: R, len: u32, depth: u32) -> u32
    requires width { len ≤ R.WIDTH }
    requires within { depth ≤ R.WIDTH }
    requires at_five { depth % 5 ≡ 0 }
    ensures at_five { result % 5 ≡ 0 }
    ensures up { result ≤ depth }
    ensures within { result ≤ len }
    ensures same { take result (R.bits last) ≡ take result (R.bits key) }
{
    let mut shared = if depth <= len { depth } else { len - len % 5 };
    while !same_front(last, key, shared) {
        shared -= 5;
    }
    shared
}

/// Goes on down a way to the deepest node on the way to a key, and writes the numbers of the nodes.
pub(crate) fn go_down<R: Bits, T>(
    trie: &Trie<T>,
    numbers: &mut [usize; 26],
    depth: u32,
    key: R,
    len: u32,
) -> WayEnd
    requires width { len ≤ R.WIDTH }
    requires trie { IsTrie trie.now }
    requires way { IsWay trie.now (R.bits key) numbers.old depth }
    requires within { depth ≤ len }
    ensures way { IsWay trie.now (R.bits key) numbers.new result.depth }
    ensures end { IsWayEnd trie.now (R.bits key) len result.at result.depth }
{
    let mut at = numbers[(depth / 5) as usize];
    let mut depth = depth;
    while len - depth >= 5 {
        match child_of(node_of(trie, at), bits_between(key, depth, depth + 5)) {
            Some(child) => at = child,
            None => return WayEnd { at, depth },
        }
        depth += 5;
        numbers[(depth / 5) as usize] = at;
    }
    WayEnd { at, depth }
}
