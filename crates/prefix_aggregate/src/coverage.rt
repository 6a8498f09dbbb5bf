//! Coverage: which addresses have an answer.
ghost use Rattle.std.specs.Prelude.{◌≡◌, ◌↔◌, ◌^◌, ◌<◌, ◌≤◌, ℕ, None, IsTrue, IsSome, length, if◌then◌else◌};
ghost use Rattle.prefix_model.specs.Keys.{KeyBits};
ghost use Rattle.prefix_model.specs.Tables.{answer};
ghost use Rattle.prefix_model.specs.Coverage.{IsCovered, answered};
ghost use Rattle.prefix_model.specs.TableViews.{HoldsPositions, key_of, position_at};
ghost use Rattle.prefix_model.specs.Counts.{Counts, total};
ghost use Rattle.prefix_model.specs.Places.{answers_from, slot_count, CoversSlot, CoversBehind};
ghost use Rattle.prefix_model.specs.Bits.{in_level};
ghost use Rattle.prefix_model.specs.Masks.{data_mask, child_mask, begins_with, set_bits};
ghost use Rattle.std.specs.Int.{bit_at};
ghost use Rattle.std.specs.FinMap as map;

use crate::bits::member_coverage;
use num_traits::cast;
use prefix_table::{
    BitIter, Bits, K, Key, NodeAt, Table, child_bit, child_cover_mask, data_cover_mask,
};

/// The data bits of each level.
const LEVELS: [u32; 5] = [
    0x0000_0001,
    0x0000_0006,
    0x0000_0078,
    0x0000_7f80,
    0x7fff_8000,
];

/// The data bits of a level, which is below 5: those of the places that are so many bits long.
pub fn level_mask(level: u32) -> u32
    requires { level < 5 }
    ensures { (b : ℕ) → bit_at result b ≡ (if in_level level b then 1 else 0) }
{
    LEVELS[level as usize]
}

/// Whether all bits of a mask are set in a word.
fn has_all(word: u32, mask: u32) -> bool
    ensures { IsTrue result ↔ ((b : ℕ) → bit_at mask b ≡ 1 → bit_at word b ≡ 1) }
{
    word & mask == mask
}

/// Whether each address below a slot of a node has an answer, where a slot has this many bits to go.
#[cycle(covers)]
fn covers_slot<T>(table: &Table<T>, at: NodeAt, left: u32, slot: u32) -> bool
    requires holds { HoldsPositions table.now }
    requires named { IsSome (map.get table.now.places at) }
    requires slot { slot < 32 }
    ensures { IsTrue result ↔ CoversSlot table.now (position_at table.now at) left slot }
{
    match table.child(at, slot) {
        Some(child) => covers_behind(table, child, left, 0x7fff_ffff, 0xffff_ffff),
        None => false,
    }
}

/// Whether each address below these slots of a node has an answer.
#[cycle(covers)]
fn covers_slots<T>(table: &Table<T>, at: NodeAt, left: u32, slots: u32) -> bool
    requires holds { HoldsPositions table.now }
    requires named { IsSome (map.get table.now.places at) }
    ensures { IsTrue result ↔ ((c : ℕ) → c < 32 → bit_at slots c ≡ 1 → CoversSlot table.now (position_at table.now at) left c) }
{
    for slot in 0..32 {
        if (slots >> slot) & 1 == 1 && !covers_slot(table, at, left, slot) {
            return false;
        }
    }
    true
}

/// Whether each address below a place of a node has an answer, where the node has this many bits to go.
///
/// The place is given by the masks of the data bits and of the slots at and below it.
#[cycle(covers)]
fn covers_behind<T>(table: &Table<T>, at: NodeAt, left: u32, places: u32, slots: u32) -> bool
    requires holds { HoldsPositions table.now }
    requires named { IsSome (map.get table.now.places at) }
    ensures { (r : KeyBits) → length r < 5 → length r ≤ left → places ≡ data_mask (begins_with r) → slots ≡ child_mask (begins_with r)
        → IsTrue result ↔ CoversBehind table.now (position_at table.now at) left r }
{
    let bits = table.node(at);
    let (inside, below) = member_coverage(bits.data_bits);
    if left < K {
        has_all(bits.data_bits | inside, places & level_mask(left))
    } else {
        covers_slots(table, at, left - K, slots ^ (slots & below))
    }
}

/// Whether every address that begins with the first `len` bits of the key has an answer.
///
/// `len` is at most the width.
pub fn covers_in_aggregate<R: Bits, T>(table: &Table<T>, key: R, len: u32) -> bool
    requires { len ≤ R.WIDTH }
    ensures { IsTrue result ↔ IsCovered R.WIDTH table.now.entries (key_of (R.bits key) len) }
{
    let mut at = table.root();
    let mut depth = 0;
    while depth + K <= len {
        let (_, below) = member_coverage(table.node(at).data_bits);
        let slot = child_bit(depth, key);
        if (below >> slot) & 1 == 1 {
            return true;
        }
        let Some(child) = table.child(at, slot) else {
            return false;
        };
        at = child;
        depth += K;
    }
    let places = data_cover_mask(depth, key, len);
    let slots = child_cover_mask(depth, key, len);
    covers_behind(table, at, R::WIDTH - depth, places, slots)
}

/// How many addresses below a slot of a node have an answer, where a slot has this many bits to go.
///
/// There are fewer than 2^128 of them.
#[cycle(counts)]
fn count_slot<T>(table: &Table<T>, at: NodeAt, left: u32, slot: u32) -> u128
    requires holds { HoldsPositions table.now }
    requires named { IsSome (map.get table.now.places at) }
    requires slot { slot < 32 }
    requires left { left ≤ 128 }
    requires few { slot_count table.now (position_at table.now at) left slot < 2 ^ 128 }
    ensures { result ≡ slot_count table.now (position_at table.now at) left slot }
{
    match table.child(at, slot) {
        Some(child) => count_node(table, child, left),
        None => 0,
    }
}

/// How many addresses below these slots of a node have an answer.
///
/// There are fewer than 2^128 of them.
#[cycle(counts)]
fn count_slots<T>(table: &Table<T>, at: NodeAt, left: u32, slots: u32) -> u128
    requires holds { HoldsPositions table.now }
    requires named { IsSome (map.get table.now.places at) }
    requires left { left ≤ 128 }
    requires few { total (slot_count table.now (position_at table.now at) left) (set_bits slots) < 2 ^ 128 }
    ensures { result ≡ total (slot_count table.now (position_at table.now at) left) (set_bits slots) }
{
    let mut count = 0;
    for slot in BitIter::new(slots) {
        count += count_slot(table, at, left, slot);
    }
    count
}

/// How many addresses below a node have an answer, where the node has this many bits to go.
///
/// There are fewer than 2^128 of them.
#[cycle(counts)]
fn count_node<T>(table: &Table<T>, at: NodeAt, left: u32) -> u128
    requires holds { HoldsPositions table.now }
    requires named { IsSome (map.get table.now.places at) }
    requires left { left ≤ 128 }
    requires few { answered left (answers_from table.now (position_at table.now at) None) < 2 ^ 128 }
    ensures { result ≡ answered left (answers_from table.now (position_at table.now at) None) }
{
    let bits = table.node(at);
    let (inside, below) = member_coverage(bits.data_bits);
    if left < K {
        let covered = (bits.data_bits | inside) & level_mask(left);
        return u128::from(covered.count_ones());
    }
    let whole = u128::from(below.count_ones()) << (left - K);
    let slots = bits.child_bits ^ (bits.child_bits & below);
    whole + count_slots(table, at, left - K, slots)
}

/// How many addresses have an answer; `None` where all have one.
pub fn address_count<R: Key, T>(table: &Table<T>) -> Option<R>
    ensures { Counts R.value R.WIDTH (answer table.now.entries) result }
{
    if covers_in_aggregate(table, R::zeros(), 0) {
        return None;
    }
    cast(count_node(table, table.root(), R::WIDTH))
}
