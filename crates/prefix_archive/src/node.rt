//! The records of an archived map, on the way down to a key.
ghost use Rattle.std.specs.Prelude.{◌≡◌, ◌==◌, ◌+◌, ◌*◌, ◌/◌, ◌<◌, ◌≤◌, ◌++◌, [], true, false, Some, MatchOption, drop, take, min, max, slice_get};
ghost use Rattle.std.specs.Int.{bit_at};
ghost use Rattle.std.specs.Option.{option_map};
ghost use Rattle.std.specs.FinMap as map;
ghost use Rattle.prefix_model.specs.Keys.{KeyBits, low_bits};
ghost use Rattle.prefix_model.specs.Positions.{data_places, child_places};
ghost use Rattle.prefix_model.specs.InPlace.{IsRecordOf, is_position};
ghost use Rattle.prefix_table.specs.Records.{node_record};
ghost use Rattle.prefix_model.specs.Hits.{HasNoneIn, IsLastIn, IsFirstIn, IsMatchAt, IsHit, AreHits};

use crate::map::ArchivedPrefixMap;
use crate::slots::{bits_below, is_set};
use crate::value::ArchivedValue;
use prefix_layout::ValueCodec;
use prefix_map::bits::{highest, level_of, lowest_from};
use prefix_table::{
    K, PrefixBits, Record, Steps, child_bit, data_bit, data_lpm_mask, slot_lpm_mask,
};
use std::sync::ledger::Ledger;

/// A stored front of a key: its length in bits and its value.
#[derive(Drop)]
pub(crate) struct Match<'a, T: ValueCodec> {
    pub len: u32,
    pub value: ArchivedValue<'a, T>,
}

impl<'a, P: PrefixBits, T: ValueCodec> ArchivedPrefixMap<'a, P, T> {
    /// The record of the root, which is one step.
    #[inline]
    pub(crate) fn root_record<L: Ledger>(&self, steps: &mut Steps<L>) -> Record
        ensures root { IsRecordOf self.now.table.entries [] (node_record result) }
        ensures steps { steps.new ≡ steps.old + 1 }
    {
        self.nodes.fetch(0, steps)
    }

    /// The value at a data bit of a node that is set.
    #[inline]
    pub(crate) fn value_of(&self, node: &Record, bit: u32) -> ArchivedValue<'a, T>
        requires node { (p : KeyBits) × IsRecordOf self.now.table.entries p (node_record node.now) }
        requires place { bit < 31 }
        requires set { (bit_at node.now.data_bits bit == 1) ≡ true }
        ensures { (p s : KeyBits) → IsRecordOf self.now.table.entries p (node_record node.now)
            → slice_get data_places bit ≡ Some s
            → map.get self.now.table.entries (p ++ s) ≡ Some result.spelling.value }
    {
        let before = bits_below(node.data_bits, bit);
        self.values.at(node.data_index as usize + before)
    }

    /// The record of the child at a child bit of a node that is set, which is one step.
    #[inline]
    pub(crate) fn child_of<L: Ledger>(
        &self,
        node: &Record,
        bit: u32,
        steps: &mut Steps<L>,
    ) -> Record
        requires node { (p : KeyBits) × IsRecordOf self.now.table.entries p (node_record node.now) }
        requires place { bit < 32 }
        requires set { (bit_at node.now.child_bits bit == 1) ≡ true }
        ensures child { (p s : KeyBits) → IsRecordOf self.now.table.entries p (node_record node.now)
            → slice_get child_places bit ≡ Some s
            → IsRecordOf self.now.table.entries (p ++ s) (node_record result) }
        ensures steps { steps.new ≡ steps.old + 1 }
    {
        let before = bits_below(node.child_bits, bit);
        self.nodes.fetch(node.child_index as usize + before, steps)
    }

    /// The record of the child at a child bit, which is one step; `None` where no node stands there.
    #[inline]
    pub(crate) fn child_at_slot<L: Ledger>(
        &self,
        node: &Record,
        slot: u32,
        steps: &mut Steps<L>,
    ) -> Option<Record>
        requires node { (p : KeyBits) × IsRecordOf self.now.table.entries p (node_record node.now) }
        requires slot { slot < 32 }
        ensures child { (p : KeyBits) → IsRecordOf self.now.table.entries p (node_record node.now)
            → MatchOption result
            (is_position self.now.table.entries (p ++ low_bits 5 slot) ≡ false)
            (λ child. IsRecordOf self.now.table.entries (p ++ low_bits 5 slot) (node_record child)) }
        ensures steps { steps.new ≤ steps.old + 1 }
    {
        if is_set(node.child_bits, slot) {
            Some(self.child_of(node, slot, steps))
        } else {
            None
        }
    }

    /// The record of the child towards a key, which is one step; `None` where no node stands there. The node is that
    /// of the first `depth` bits of the key.
    #[inline]
    pub(crate) fn child_towards<L: Ledger>(
        &self,
        node: &Record,
        key: P::R,
        depth: u32,
        steps: &mut Steps<L>,
    ) -> Option<Record>
        requires node { IsRecordOf self.now.table.entries (take depth (P.R.bits key)) (node_record node.now) }
        requires within { depth + 5 ≤ P.R.WIDTH }
        ensures child { MatchOption result
            (is_position self.now.table.entries (take (depth + 5) (P.R.bits key)) ≡ false)
            (λ child. IsRecordOf self.now.table.entries (take (depth + 5) (P.R.bits key)) (node_record child)) }
        ensures steps { steps.new ≤ steps.old + 1 }
    {
        self.child_at_slot(node, child_bit(depth, key), steps)
    }

    /// The value at the first `len` bits of a key, which stand in the node; `None` where nothing is stored there.
    #[inline]
    pub(crate) fn value_at(
        &self,
        node: &Record,
        key: P::R,
        len: u32,
    ) -> Option<ArchivedValue<'a, T>>
        requires node { IsRecordOf self.now.table.entries (take (len / 5 * 5) (P.R.bits key)) (node_record node.now) }
        requires within { len ≤ P.R.WIDTH }
        ensures { option_map (λ v. v.spelling.value) result ≡ map.get self.now.table.entries (take len (P.R.bits key)) }
    {
        let bit = data_bit(key, len);
        if is_set(node.data_bits, bit) {
            Some(self.value_of(node, bit))
        } else {
            None
        }
    }

    /// The data bits of the stored fronts of the first `len` bits of a key that stand in the node.
    #[inline]
    fn hits(&self, node: &Record, key: P::R, depth: u32, len: u32) -> u32
        requires node { IsRecordOf self.now.table.entries (take depth (P.R.bits key)) (node_record node.now) }
        requires order { depth ≤ len }
        requires within { len ≤ P.R.WIDTH }
        ensures { AreHits self.now.table.entries (P.R.bits key) depth (min (len + 1) (depth + 5)) node.now.data_bits result }
    {
        node.data_bits & data_lpm_mask(depth, key, len)
    }

    /// The front of the first `len` bits of a key at one of its data bits.
    #[inline]
    fn match_at(&self, node: &Record, key: P::R, depth: u32, len: u32, bit: u32) -> Match<'a, T>
        requires node { IsRecordOf self.now.table.entries (take depth (P.R.bits key)) (node_record node.now) }
        requires within { len ≤ P.R.WIDTH }
        requires hit { IsHit (P.R.bits key) depth (min (len + 1) (depth + 5)) node.now.data_bits bit }
        ensures { IsMatchAt self.now.table.entries (P.R.bits key) depth (min (len + 1) (depth + 5)) bit
            result.len result.value.spelling.value }
    {
        Match {
            len: depth + level_of(bit),
            value: self.value_of(node, bit),
        }
    }

    /// The longest stored front of the first `len` bits of a key that stands in the node.
    #[inline]
    pub(crate) fn last_in(
        &self,
        node: &Record,
        key: P::R,
        depth: u32,
        len: u32,
    ) -> Option<Match<'a, T>>
        requires node { IsRecordOf self.now.table.entries (take depth (P.R.bits key)) (node_record node.now) }
        requires order { depth ≤ len }
        requires within { len ≤ P.R.WIDTH }
        ensures { MatchOption result (HasNoneIn self.now.table.entries (P.R.bits key) depth (min (len + 1) (depth + 5)))
            (λ x. IsLastIn self.now.table.entries (P.R.bits key) depth (min (len + 1) (depth + 5)) x.len x.value.spelling.value) }
    {
        match highest(self.hits(node, key, depth, len)) {
            Some(bit) => Some(self.match_at(node, key, depth, len, bit)),
            None => None,
        }
    }

    /// The longest stored front of a key that stands in the node, the number of whose next five bits is the slot.
    #[inline]
    pub(crate) fn last_above(
        &self,
        node: &Record,
        key: P::R,
        depth: u32,
        slot: u32,
    ) -> Option<Match<'a, T>>
        requires node { IsRecordOf self.now.table.entries (take depth (P.R.bits key)) (node_record node.now) }
        requires within { depth + 5 ≤ P.R.WIDTH }
        requires slot { slot < 32 }
        requires bits { low_bits 5 slot ≡ drop depth (take (depth + 5) (P.R.bits key)) }
        ensures { MatchOption result (HasNoneIn self.now.table.entries (P.R.bits key) depth (depth + 5))
            (λ x. IsLastIn self.now.table.entries (P.R.bits key) depth (depth + 5) x.len x.value.spelling.value) }
    {
        match highest(node.data_bits & slot_lpm_mask(slot)) {
            Some(bit) => Some(self.match_at(node, key, depth, depth + K, bit)),
            None => None,
        }
    }

    /// The shortest stored front of the first `len` bits of a key that stands in the node and has at least `from` bits.
    #[inline]
    pub(crate) fn first_in(
        &self,
        node: &Record,
        key: P::R,
        depth: u32,
        from: u32,
        len: u32,
    ) -> Option<Match<'a, T>>
        requires node { IsRecordOf self.now.table.entries (take depth (P.R.bits key)) (node_record node.now) }
        requires order { depth ≤ len }
        requires within { len ≤ P.R.WIDTH }
        ensures { MatchOption result (HasNoneIn self.now.table.entries (P.R.bits key) (max from depth) (min (len + 1) (depth + 5)))
            (λ x. IsFirstIn self.now.table.entries (P.R.bits key) (max from depth) (min (len + 1) (depth + 5)) x.len x.value.spelling.value) }
    {
        let level = from.saturating_sub(depth);
        if level >= K {
            return None;
        }
        match lowest_from(self.hits(node, key, depth, len), (1 << level) - 1) {
            Some(bit) => Some(self.match_at(node, key, depth, len, bit)),
            None => None,
        }
    }
}
