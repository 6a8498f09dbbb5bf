//! Questions of one key, by the way down to it.
ghost use Rattle.std.specs.Prelude.{◌≡◌, ℕ, ◌+◌, ◌/◌, ◌<◌, ◌≤◌, MatchOption, take};
ghost use Rattle.std.specs.Option.{option_map};
ghost use Rattle.std.specs.FinMap as map;
ghost use Rattle.prefix_model.specs.InPlace.{IsRecordOf};
ghost use Rattle.prefix_table.specs.Records.{node_record};
ghost use Rattle.prefix_model.specs.Hits.{HasNoneIn, IsLastIn, IsFirstIn};

use crate::map::ArchivedPrefixMap;
use crate::node::Match;
use crate::value::ArchivedValue;
use prefix_layout::ValueCodec;
use prefix_table::{K, PrefixBits, Record, Steps, child_bit};
use std::sync::ledger::{Blank, Ledger};

/// The value at the first `len` bits of a key; `None` where nothing is stored there. Its record reads are counted in
/// the ledger of the blank.
#[inline]
pub(crate) fn find<'a, P: PrefixBits, T: ValueCodec, L: Ledger>(
    archive: &ArchivedPrefixMap<'a, P, T>,
    key: P::R,
    len: u32,
    blank: Blank,
) -> Option<ArchivedValue<'a, T>>
    requires width { len ≤ P.R.WIDTH }
    requires name { blank.name ≡ L.name }
    requires parts { blank.parts ≡ L.parts }
    requires some { 0 < blank.parts }
    ensures { option_map (λ v. v.spelling.value) result ≡ map.get archive.now.table.entries (take len (P.R.bits key)) }
{
    let mut steps: Steps<L> = Steps::new(blank);
    let mut node = archive.root_record(&mut steps);
    let mut depth = 0;
    while len - depth >= K {
        match archive.child_towards(&node, key, depth, &mut steps) {
            Some(child) => node = child,
            None => return None,
        }
        depth += K;
    }
    archive.value_at(&node, key, len)
}

/// The match further down, if there is one, and else the one that was found before.
#[inline]
fn deeper<'a, T: ValueCodec>(
    before: Option<Match<'a, T>>,
    found: Option<Match<'a, T>>,
) -> Option<Match<'a, T>>
    ensures { MatchOption found.entry (result ≡ before.entry) (λ x. result ≡ found.entry) }
{
    match found {
        Some(x) => Some(x),
        None => before,
    }
}

/// The longest stored front of the first `len` bits of a key. Reads a record for each five bits, and one more, at most.
#[inline]
pub(crate) fn longest_match<'a, P: PrefixBits, T: ValueCodec, L: Ledger>(
    archive: &ArchivedPrefixMap<'a, P, T>,
    key: P::R,
    len: u32,
    steps: &mut Steps<L>,
) -> Option<Match<'a, T>>
    requires { len ≤ P.R.WIDTH }
    ensures found { MatchOption result (HasNoneIn archive.now.table.entries (P.R.bits key) 0 (len + 1))
        (λ x. IsLastIn archive.now.table.entries (P.R.bits key) 0 (len + 1) x.len x.value.spelling.value) }
    ensures steps { steps.new ≤ steps.old + (len / 5 + 1) }
{
    let root = archive.root_record(steps);
    if len < K {
        return archive.last_in(&root, key, 0, len);
    }
    let slot = child_bit(0, key);
    let best = archive.last_above(&root, key, 0, slot);
    match archive.child_at_slot(&root, slot, steps) {
        Some(child) => longest_below(archive, child, best, key, len, steps),
        None => best,
    }
}

/// The longest stored front of the first `len` bits of a key, from the node of its first five bits and the longest
/// front above that node.
#[inline]
fn longest_below<'a, P: PrefixBits, T: ValueCodec, L: Ledger>(
    archive: &ArchivedPrefixMap<'a, P, T>,
    top: Record,
    above: Option<Match<'a, T>>,
    key: P::R,
    len: u32,
    steps: &mut Steps<L>,
) -> Option<Match<'a, T>>
    requires order { 5 ≤ len }
    requires within { len ≤ P.R.WIDTH }
    requires top { IsRecordOf archive.now.table.entries (take 5 (P.R.bits key)) (node_record top) }
    requires above { MatchOption above (HasNoneIn archive.now.table.entries (P.R.bits key) 0 5)
        (λ x. IsLastIn archive.now.table.entries (P.R.bits key) 0 5 x.len x.value.spelling.value) }
    ensures found { MatchOption result (HasNoneIn archive.now.table.entries (P.R.bits key) 0 (len + 1))
        (λ x. IsLastIn archive.now.table.entries (P.R.bits key) 0 (len + 1) x.len x.value.spelling.value) }
    ensures steps { steps.new + 1 ≤ steps.old + len / 5 }
{
    let mut node = top;
    let mut depth = K;
    let mut best = above;
    while len - depth >= K {
        let slot = child_bit(depth, key);
        best = deeper(best, archive.last_above(&node, key, depth, slot));
        match archive.child_at_slot(&node, slot, steps) {
            Some(child) => node = child,
            None => return best,
        }
        depth += K;
    }
    deeper(best, archive.last_in(&node, key, depth, len))
}

/// The shortest stored front of the first `len` bits of a key that has at least `from` bits. Its record reads are
/// counted in the ledger of the blank.
#[inline]
pub(crate) fn shortest_match<'a, P: PrefixBits, T: ValueCodec, L: Ledger>(
    archive: &ArchivedPrefixMap<'a, P, T>,
    key: P::R,
    from: u32,
    len: u32,
    blank: Blank,
) -> Option<Match<'a, T>>
    requires width { len ≤ P.R.WIDTH }
    requires name { blank.name ≡ L.name }
    requires parts { blank.parts ≡ L.parts }
    requires some { 0 < blank.parts }
    ensures { MatchOption result (HasNoneIn archive.now.table.entries (P.R.bits key) from (len + 1))
        (λ x. IsFirstIn archive.now.table.entries (P.R.bits key) from (len + 1) x.len x.value.spelling.value) }
{
    let mut steps: Steps<L> = Steps::new(blank);
    let mut node = archive.root_record(&mut steps);
    let mut depth = 0;
    let mut found = archive.first_in(&node, key, 0, from, len);
    while len - depth >= K {
        if found.is_some() {
            return found;
        }
        match archive.child_towards(&node, key, depth, &mut steps) {
            Some(child) => node = child,
            None => return None,
        }
        depth += K;
        found = archive.first_in(&node, key, depth, from, len);
    }
    found
}
