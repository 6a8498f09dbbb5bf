//! A node of an archive and the calls that a view of the archive stands on.
ghost use Rattle.std.specs.Prelude.{◌≡◌, ◌+◌, ◌*◌, ◌%◌, ◌^◌, ◌<◌, ◌≤◌, ◌++◌, ⊤, true, Some, IsBitSet, slice_get};
ghost use Rattle.std.specs.FinMap as map;
ghost use Rattle.prefix_model.specs.Keys.{KeyBits, low_bits};
ghost use Rattle.prefix_model.specs.Positions.{data_places, data_bits, child_bits};
ghost use Rattle.prefix_model.specs.InPlace.{IsRecordOf, is_position};
ghost use Rattle.prefix_table.specs.Records.{node_record};
ghost use Rattle.prefix_archive.specs.Nodes.{record_of_prop};

use crate::map::ArchivedPrefixMap;
use crate::value::ArchivedValue;
use prefix_layout::ValueCodec;
use prefix_table::{Bits, PrefixBits, Record, Steps};
use std::alloc::AllocError;
use std::marker::Brand;
use std::sync::ledger::{Blank, Ledger};

/// A node of an archived map. The `depth` low bits of `path` spell its position.
pub(crate) struct ArchivedCursor<'a, P: PrefixBits, T: ValueCodec> {
    map: ArchivedPrefixMap<'a, P, T>,
    node: Record,
    path: u128,
    depth: u32,

    pub ghost stands: { IsRecordOf map.table.entries (low_bits depth path) (node_record node) } by { record_of_prop T.code map.table.entries (low_bits depth path) (node_record node) },
    pub ghost kept: { is_position map.table.entries (low_bits depth path) ≡ true },
    pub ghost small: { path < 2 ^ depth },
    pub ghost within: { depth ≤ P.R.WIDTH },
}

impl<'a, P: PrefixBits, T: ValueCodec> Clone for ArchivedCursor<'a, P, T> {
    ghost is_clone = { λ old new. new ≡ old };

    ghost is_infallible = { λ _. ⊤ };

    fn clone(&self) -> Result<ArchivedCursor<'a, P, T>, AllocError> {
        Ok(*self)
    }
}

impl<'a, P: PrefixBits, T: ValueCodec> Copy for ArchivedCursor<'a, P, T> {}

impl<'a, P: PrefixBits, T: ValueCodec> ArchivedCursor<'a, P, T> {
    /// The root of a map.
    pub(crate) fn root(map: &ArchivedPrefixMap<'a, P, T>) -> ArchivedCursor<'a, P, T>
        ensures map { result.map ≡ map.now }
        ensures depth { result.depth ≡ 0 }
    {
        root_in::<P, T, Brand>(map, Blank::new(1))
    }

    /// The map of the node.
    pub(crate) fn map(&self) -> ArchivedPrefixMap<'a, P, T>
        ensures { result ≡ self.now.map }
    {
        self.map
    }

    /// The length of the position.
    pub(crate) fn depth(&self) -> u32
        ensures { result ≡ self.now.depth }
    {
        self.depth
    }

    /// The number that the bits of the position spell.
    pub(crate) fn path(&self) -> u128
        ensures { result ≡ self.now.path }
    {
        self.path
    }

    /// The data bits: which places of the node have an entry.
    pub(crate) fn data_bits(&self) -> u32
        ensures { result ≡ data_bits (map.get self.now.map.table.entries) (low_bits self.now.depth self.now.path) }
    {
        self.node.data_bits
    }

    /// The child bits: which positions stand right below the node.
    pub(crate) fn child_bits(&self) -> u32
        ensures { result ≡ child_bits (is_position self.now.map.table.entries) (low_bits self.now.depth self.now.path) }
    {
        self.node.child_bits
    }

    /// The value at a data bit that is set.
    pub(crate) fn value(&self, bit: u32) -> ArchivedValue<'a, T>
        requires place { bit < 31 }
        requires set { IsBitSet (data_bits (map.get self.now.map.table.entries) (low_bits self.now.depth self.now.path)) bit }
        ensures { (s : KeyBits) → slice_get data_places bit ≡ Some s
            → map.get self.now.map.table.entries (low_bits self.now.depth self.now.path ++ s) ≡ Some result.spelling.value }
    {
        self.map.value_of(&self.node, bit)
    }

    /// The child at a child bit that is set.
    pub(crate) fn child(&self, bit: u32) -> ArchivedCursor<'a, P, T>
        requires place { bit < 32 }
        requires set { IsBitSet (child_bits (is_position self.now.map.table.entries) (low_bits self.now.depth self.now.path)) bit }
        ensures map { result.map ≡ self.now.map }
        ensures depth { result.depth ≡ self.now.depth + 5 }
        ensures position { low_bits result.depth result.path ≡ low_bits self.now.depth self.now.path ++ low_bits 5 bit }
    {
        child_in::<P, T, Brand>(self, bit, Blank::new(1))
    }
}

/// The child at a child bit that is set. Its record read is counted in the ledger of the blank.
fn child_in<'a, P: PrefixBits, T: ValueCodec, L: Ledger>(
    cursor: &ArchivedCursor<'a, P, T>,
    bit: u32,
    blank: Blank,
) -> ArchivedCursor<'a, P, T>
    requires place { bit < 32 }
    requires set { IsBitSet (child_bits (is_position cursor.now.map.table.entries) (low_bits cursor.now.depth cursor.now.path)) bit }
    requires name { blank.name ≡ L.name }
    requires parts { blank.parts ≡ L.parts }
    requires some { 0 < blank.parts }
    ensures map { result.map ≡ cursor.now.map }
    ensures depth { result.depth ≡ cursor.now.depth + 5 }
    ensures position { low_bits result.depth result.path ≡ low_bits cursor.now.depth cursor.now.path ++ low_bits 5 bit }
{
    let mut steps: Steps<L> = Steps::new(blank);
    let node = cursor.map.child_of(&cursor.node, bit, &mut steps);
    ArchivedCursor {
        map: cursor.map,
        node,
        path: cursor.path * 32 + u128::from(bit),
        depth: cursor.depth + 5,
    }
}

/// The root of an archived map. Its record read is counted in the ledger of the blank.
fn root_in<'a, P: PrefixBits, T: ValueCodec, L: Ledger>(
    map: &ArchivedPrefixMap<'a, P, T>,
    blank: Blank,
) -> ArchivedCursor<'a, P, T>
    requires name { blank.name ≡ L.name }
    requires parts { blank.parts ≡ L.parts }
    requires some { 0 < blank.parts }
    ensures map { result.map ≡ map.now }
    ensures depth { result.depth ≡ 0 }
{
    let mut steps: Steps<L> = Steps::new(blank);
    let node = map.nodes.fetch(0, &mut steps);
    ArchivedCursor {
        map: *map,
        node,
        path: 0,
        depth: 0,
    }
}
