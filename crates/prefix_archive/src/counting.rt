//! How many addresses of an archived map have an answer, by the bitmaps of its records.
ghost use Rattle.std.specs.Prelude.{◌≡◌, ◌^◌, ◌<◌, ◌≤◌, ◌++◌, true, [], take};
ghost use Rattle.prefix_model.specs.Coverage.{answered};
ghost use Rattle.prefix_model.specs.InPlace.{IsRecordOf, is_position};
ghost use Rattle.prefix_model.specs.Keys.{low_bits};
ghost use Rattle.prefix_model.specs.Masks.{set_bits};
ghost use Rattle.prefix_table.specs.Records.{node_record};
ghost use Rattle.prefix_model.specs.Counts.{total};
ghost use Rattle.prefix_archive.specs.Coverage.{answers_from};

use crate::descent::child_at;
use crate::map::ArchivedPrefixMap;
use crate::slots::is_set;
use prefix_aggregate::{level_mask, member_coverage};
use prefix_layout::ValueCodec;
use prefix_table::{BitIter, Bits, K, PrefixBits, Record, Steps, extend_repr};
use std::marker::Brand;
use std::sync::ledger::{Blank, Ledger};

/// How many addresses below a slot of a node have an answer, where a slot has this many bits to go. The node stands at
/// the first `depth` bits of the key.
///
/// There are fewer than 2^128 of them.
#[cycle(counts)]
fn count_slot<'a, P: PrefixBits, T: ValueCodec>(
    archive: &ArchivedPrefixMap<'a, P, T>,
    node: &Record,
    depth: u32,
    key: P::R,
    left: u32,
    slot: u32,
) -> u128
    requires node { IsRecordOf archive.now.table.entries (take depth (P.R.bits key)) (node_record node.now) }
    requires kept { is_position archive.now.table.entries (take depth (P.R.bits key)) ≡ true }
    requires depth { depth ≤ P.R.WIDTH }
    requires slot { slot < 32 }
    requires left { left ≤ 128 }
    requires few { answered left (answers_from archive.now.table.entries (take depth (P.R.bits key) ++ low_bits 5 slot)) < 2 ^ 128 }
    ensures { result ≡ answered left (answers_from archive.now.table.entries (take depth (P.R.bits key) ++ low_bits 5 slot)) }
{
    if !is_set(node.child_bits, slot) {
        return 0;
    }
    let child = child_at(archive, node, depth, key, slot);
    let child_key = extend_repr(key, depth, slot);
    count_node(archive, &child, depth + K, child_key, left)
}

/// How many addresses below these slots of a node have an answer.
///
/// There are fewer than 2^128 of them.
#[cycle(counts)]
fn count_slots<'a, P: PrefixBits, T: ValueCodec>(
    archive: &ArchivedPrefixMap<'a, P, T>,
    node: &Record,
    depth: u32,
    key: P::R,
    left: u32,
    slots: u32,
) -> u128
    requires node { IsRecordOf archive.now.table.entries (take depth (P.R.bits key)) (node_record node.now) }
    requires kept { is_position archive.now.table.entries (take depth (P.R.bits key)) ≡ true }
    requires depth { depth ≤ P.R.WIDTH }
    requires left { left ≤ 128 }
    requires few { total (λ c. answered left (answers_from archive.now.table.entries (take depth (P.R.bits key) ++ low_bits 5 c))) (set_bits slots) < 2 ^ 128 }
    ensures { result ≡ total (λ c. answered left (answers_from archive.now.table.entries (take depth (P.R.bits key) ++ low_bits 5 c))) (set_bits slots) }
{
    let mut count = 0;
    for slot in BitIter::new(slots) {
        count += count_slot(archive, node, depth, key, left, slot);
    }
    count
}

/// How many addresses below a node have an answer, where the node has this many bits to go.
///
/// There are fewer than 2^128 of them.
#[cycle(counts)]
fn count_node<'a, P: PrefixBits, T: ValueCodec>(
    archive: &ArchivedPrefixMap<'a, P, T>,
    node: &Record,
    depth: u32,
    key: P::R,
    left: u32,
) -> u128
    requires node { IsRecordOf archive.now.table.entries (take depth (P.R.bits key)) (node_record node.now) }
    requires kept { is_position archive.now.table.entries (take depth (P.R.bits key)) ≡ true }
    requires depth { depth ≤ P.R.WIDTH }
    requires left { left ≤ 128 }
    requires few { answered left (answers_from archive.now.table.entries (take depth (P.R.bits key))) < 2 ^ 128 }
    ensures { result ≡ answered left (answers_from archive.now.table.entries (take depth (P.R.bits key))) }
{
    let (inside, below) = member_coverage(node.data_bits);
    if left < K {
        let covered = (node.data_bits | inside) & level_mask(left);
        return u128::from(covered.count_ones());
    }
    let whole = u128::from(below.count_ones()) << (left - K);
    let slots = node.child_bits ^ (node.child_bits & below);
    whole + count_slots(archive, node, depth, key, left - K, slots)
}

/// How many addresses have an answer. The record read of the root is counted in the ledger of the blank.
///
/// There are fewer than 2^128 of them.
fn count_in<'a, P: PrefixBits, T: ValueCodec, L: Ledger>(
    archive: &ArchivedPrefixMap<'a, P, T>,
    blank: Blank,
) -> u128
    requires name { blank.name ≡ L.name }
    requires parts { blank.parts ≡ L.parts }
    requires some { 0 < blank.parts }
    requires few { answered P.R.WIDTH (answers_from archive.now.table.entries []) < 2 ^ 128 }
    ensures { result ≡ answered P.R.WIDTH (answers_from archive.now.table.entries []) }
{
    let mut steps: Steps<L> = Steps::new(blank);
    let root = archive.root_record(&mut steps);
    count_node(archive, &root, 0, P::R::zeros(), P::R::WIDTH)
}

/// How many addresses have an answer.
///
/// There are fewer than 2^128 of them.
pub(crate) fn count_addresses<'a, P: PrefixBits, T: ValueCodec>(
    archive: &ArchivedPrefixMap<'a, P, T>,
) -> u128
    requires few { answered P.R.WIDTH (answers_from archive.now.table.entries []) < 2 ^ 128 }
    ensures { result ≡ answered P.R.WIDTH (answers_from archive.now.table.entries []) }
{
    count_in::<P, T, Brand>(archive, Blank::new(1))
}
