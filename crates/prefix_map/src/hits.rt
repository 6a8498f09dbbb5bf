//! The stored fronts of a key in one node, by the bitmaps of the node.
ghost use Rattle.std.specs.Prelude.{◌≡◌, ◌+◌, ◌≤◌, ℕ, Some, MatchOption, take, min, max};
ghost use Rattle.std.specs.FinMap as map;
ghost use Rattle.prefix_model.specs.Positions.{data_bits};
ghost use Rattle.prefix_model.specs.TableViews.{HoldsPositions};
ghost use Rattle.prefix_model.specs.Hits.{HasNoneIn, IsLastIn, IsFirstIn, IsMatchAt, IsHit, AreHits};

use crate::bits::{highest, level_of, lowest_from};
use prefix_table::{Bits, K, NodeAt, Table, child_bit, data_lpm_mask};

/// A stored front of a key: its length in bits and its value.
#[derive(Drop)]
pub(crate) struct Match<'a, T> {
    pub(crate) len: u32,
    pub(crate) value: &'a T,
}

/// The child towards a key of the node of its first `depth` bits; `None` where no node stands there.
#[inline]
pub(crate) fn child_towards<R: Bits, T>(
    table: &Table<T>,
    at: NodeAt,
    key: R,
    depth: u32,
) -> Option<NodeAt>
    requires holds { HoldsPositions table.now }
    requires named { map.get table.now.places at ≡ Some (take depth (R.bits key)) }
    requires within { depth + 5 ≤ R.WIDTH }
    ensures { MatchOption result ((n : ℕ) → HasNoneIn table.now.entries (R.bits key) (depth + 5) n)
        (λ child. map.get table.now.places child ≡ Some (take (depth + 5) (R.bits key))) }
{
    table.child(at, child_bit(depth, key))
}

/// The data bits of the stored fronts of the first `len` bits of a key that stand in the node.
#[inline]
fn hits<R: Bits, T>(table: &Table<T>, at: NodeAt, key: R, depth: u32, len: u32) -> u32
    requires named { map.get table.now.places at ≡ Some (take depth (R.bits key)) }
    requires order { depth ≤ len }
    requires within { len ≤ R.WIDTH }
    ensures { AreHits table.now.entries (R.bits key) depth (min (len + 1) (depth + 5))
        (data_bits (map.get table.now.entries) (take depth (R.bits key))) result }
{
    table.node(at).data_bits & data_lpm_mask(depth, key, len)
}

/// The front of the first `len` bits of a key at one of its data bits.
#[inline]
fn match_at<'a, R: Bits, T>(
    table: &'a Table<T>,
    at: NodeAt,
    key: R,
    depth: u32,
    len: u32,
    bit: u32,
) -> Match<'a, T>
    requires named { map.get table.now.places at ≡ Some (take depth (R.bits key)) }
    requires within { len ≤ R.WIDTH }
    requires hit { IsHit (R.bits key) depth (min (len + 1) (depth + 5))
        (data_bits (map.get table.now.entries) (take depth (R.bits key))) bit }
    ensures { IsMatchAt table.now.entries (R.bits key) depth (min (len + 1) (depth + 5)) bit
        result.len result.value.now }
{
    Match {
        len: depth + level_of(bit),
        value: table.value(at, bit),
    }
}

/// The longest stored front of the first `len` bits of a key that stands in the node.
#[inline]
pub(crate) fn last_in<'a, R: Bits, T>(
    table: &'a Table<T>,
    at: NodeAt,
    key: R,
    depth: u32,
    len: u32,
) -> Option<Match<'a, T>>
    requires named { map.get table.now.places at ≡ Some (take depth (R.bits key)) }
    requires order { depth ≤ len }
    requires within { len ≤ R.WIDTH }
    ensures { MatchOption result (HasNoneIn table.now.entries (R.bits key) depth (min (len + 1) (depth + 5)))
        (λ x. IsLastIn table.now.entries (R.bits key) depth (min (len + 1) (depth + 5)) x.len x.value.now) }
{
    match highest(hits(table, at, key, depth, len)) {
        Some(bit) => Some(match_at(table, at, key, depth, len, bit)),
        None => None,
    }
}

/// The shortest stored front of the first `len` bits of a key that stands in the node and has at least `from` bits.
#[inline]
pub(crate) fn first_in<'a, R: Bits, T>(
    table: &'a Table<T>,
    at: NodeAt,
    key: R,
    depth: u32,
    from: u32,
    len: u32,
) -> Option<Match<'a, T>>
    requires named { map.get table.now.places at ≡ Some (take depth (R.bits key)) }
    requires order { depth ≤ len }
    requires within { len ≤ R.WIDTH }
    ensures { MatchOption result (HasNoneIn table.now.entries (R.bits key) (max from depth) (min (len + 1) (depth + 5)))
        (λ x. IsFirstIn table.now.entries (R.bits key) (max from depth) (min (len + 1) (depth + 5)) x.len x.value.now) }
{
    let level = from.saturating_sub(depth);
    if level >= K {
        return None;
    }
    match lowest_from(hits(table, at, key, depth, len), (1 << level) - 1) {
        Some(bit) => Some(match_at(table, at, key, depth, len, bit)),
        None => None,
    }
}
