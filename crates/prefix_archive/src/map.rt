//! Archives of one family as they lie in memory.
pub mod cover;
pub mod iter;

ghost use Rattle.std.specs.Prelude.{◌≡◌, ◌==◌, ◌+◌, ◌-◌, ◌/◌, ◌<◌, ◌≤◌, ◌^◌, ⊤, [], Some, IsTrue, ℕ, ◌↔◌, IfOk, IfErr, IfSome, IsSome, length, take};
ghost use Rattle.std.specs.Cmp.Lexicographic.{pointwise};
ghost use Rattle.std.specs.Cmp.Rules.{comparing};
ghost use Rattle.std.specs.List.{flat_map};
ghost use Rattle.std.specs.Option.{option_map};
ghost use Rattle.std.specs.Ordering.{on, eq_of_both};
ghost use Rattle.std.proofs.Common.{rules};
ghost use Rattle.std.specs.FinMap as map;
ghost use Rattle.prefix_model.specs.Positions.{positions_in, position_set};
ghost use Rattle.prefix_model.specs.Spelling.{Spells, spelling, record_bytes};
ghost use Rattle.prefix_model.specs.InPlace.{TableIn, records_in};
ghost use Rattle.prefix_model.proofs.Archive.Unique.{table_in_prop};
ghost use Rattle.prefix_model.specs.FirstCause.{check_alone};
ghost use Rattle.prefix_archive.specs.Causes.{TellsCause, IsTable};
ghost use Rattle.prefix_model.specs.Keys.{KeyBits};
ghost use Rattle.prefix_model.specs.Walks.{IsLongestUnder, IsShortestUnder, IsMatchUnder};
ghost use Rattle.prefix_model.specs.Keys.{padded};

use crate::families::check_single;
use crate::lookup::{find, longest_match, shortest_match};
use crate::value::ArchivedValue;
use crate::values;
pub use cover::{Cover, CoverKeys, CoverValues};
pub use iter::{Iter, Keys, Values};
use prefix_layout::{ArchiveError, ValueCodec, family_span, read_family};
use prefix_map::PrefixMap;
use prefix_table::{Bits, PrefixBits, Records, Steps};
use std::alloc::{AllocError, Global};
use std::marker::{Brand, PhantomData};
use std::sync::ledger::{Blank, Ledger};

/// A map from prefixes to values that is read from the bytes of its archive.
///
/// A contract sees the entries of the map as `table.entries`.
pub struct ArchivedPrefixMap<'a, P: PrefixBits, T: ValueCodec> {
    // The whole archive, of which the nodes and the values are parts.
    bytes: &'a [u8],
    pub(crate) nodes: Records<'a>,
    pub(crate) values: values::Values<'a, T>,
    prefix: PhantomData<P>,

    pub ghost table: { TableIn T.codec P.R.WIDTH (records_in nodes.bytes.now) values.list.items } by { table_in_prop T.code T.codec P.R.WIDTH (records_in nodes.bytes.now) values.list.items },
    ghost records_spelled: { nodes.bytes.now ≡ flat_map record_bytes (records_in nodes.bytes.now) },
    ghost whole: { bytes.now ≡ spelling T.codec table.entries },
}

impl<'a, P: PrefixBits, T: ValueCodec> Clone for ArchivedPrefixMap<'a, P, T> {
    ghost is_clone = { λ old new. new ≡ old };

    ghost is_infallible = { λ _. ⊤ };

    fn clone(&self) -> Result<ArchivedPrefixMap<'a, P, T>, AllocError> {
        Ok(*self)
    }
}

impl<'a, P: PrefixBits, T: ValueCodec> Copy for ArchivedPrefixMap<'a, P, T> {}

impl<'a, P: PrefixBits, T: ValueCodec> ArchivedPrefixMap<'a, P, T> {
    /// The map whose archive the bytes are, with nothing behind it, or else the first cause. Takes no memory.
    pub fn access(bytes: &'a [u8]) -> Result<ArchivedPrefixMap<'a, P, T>, ArchiveError>
        ensures exact { TellsCause (check_alone T.codec P.R.WIDTH bytes.now) result }
        ensures spelled { IfOk result (λ archive. Spells T.codec P.R.WIDTH bytes.now archive.table.entries) }
    {
        check_single::<T>(bytes, P::R::WIDTH)?;
        Ok(ArchivedPrefixMap::over(bytes))
    }

    /// The map whose archive the bytes are.
    pub fn over(bytes: &'a [u8]) -> ArchivedPrefixMap<'a, P, T>
        requires { IsTable T.codec P.R.WIDTH bytes.now }
        ensures { Spells T.codec P.R.WIDTH bytes.now result.table.entries }
    {
        let span = family_span::<T>(bytes);
        let (nodes, values) = bytes[8..].split_at(16 * span.nodes as usize);
        ArchivedPrefixMap::of_parts(
            bytes,
            Records::new(nodes),
            values::Values::over(values, span.entries as usize),
        )
    }

    /// The map whose archive has these records and values.
    fn of_parts(
        bytes: &'a [u8],
        nodes: Records<'a>,
        values: values::Values<'a, T>,
    ) -> ArchivedPrefixMap<'a, P, T>
        requires table { TableIn T.codec P.R.WIDTH (records_in nodes.bytes.now) values.list.items }
        requires records { nodes.bytes.now ≡ flat_map record_bytes (records_in nodes.bytes.now) }
        requires whole { (t : TableIn T.codec P.R.WIDTH (records_in nodes.bytes.now) values.list.items)
            → bytes.now ≡ spelling T.codec t.entries }
        ensures nodes { result.nodes ≡ nodes.entry }
        ensures values { result.values ≡ values.entry }
    {
        ArchivedPrefixMap {
            bytes,
            nodes,
            values,
            prefix: PhantomData,
        }
    }

    /// The number of entries.
    pub fn len(&self) -> usize
        ensures entries { result ≡ map.len self.now.table.entries }
        ensures few { result < 2 ^ 32 }
    {
        self.values.len()
    }

    /// Whether there is no entry.
    pub fn is_empty(&self) -> bool
        ensures { IsTrue result ↔ (map.len self.now.table.entries ≡ 0) }
    {
        self.len() == 0
    }

    /// The number of positions of the map's table.
    pub fn node_count(&self) -> usize
        ensures { result ≡ length (positions_in self.now.table.entries) }
    {
        self.nodes.len()
    }

    /// The value at a prefix; `None` where the prefix is not stored.
    pub fn get(&self, prefix: &P) -> Option<ArchivedValue<'a, T>>
        requires { P.prefix_len prefix.now ≤ P.R.WIDTH }
        ensures { option_map (λ v. v.spelling.value) result ≡ map.get self.now.table.entries (P.key prefix.now) }
    {
        let len = u32::from(prefix.prefix_len());
        find::<P, T, Brand>(self, prefix.repr(), len, Blank::new(1))
    }

    /// Whether a prefix is stored.
    pub fn contains_key(&self, prefix: &P) -> bool
        requires { P.prefix_len prefix.now ≤ P.R.WIDTH }
        ensures { IsTrue result ↔ IsSome (map.get self.now.table.entries (P.key prefix.now)) }
    {
        self.get(prefix).is_some()
    }

    /// A prefix that is stored, with host bits zero, and its value; `None` where it is not stored.
    pub fn get_key_value(&self, prefix: &P) -> Option<(P, ArchivedValue<'a, T>)>
        requires { P.prefix_len prefix.now ≤ P.R.WIDTH }
        ensures value { option_map (λ e. e.1.spelling.value) result ≡ map.get self.now.table.entries (P.key prefix.now) }
        ensures key { IfSome result (λ e. P.key e.0 ≡ P.key prefix.now) }
        ensures length { IfSome result (λ e. P.prefix_len e.0 ≡ length (P.key e.0)) }
        ensures bits { IfSome result (λ e. P.bits e.0 ≡ padded P.R.WIDTH (P.key e.0)) }
    {
        match self.get(prefix) {
            Some(value) => Some((
                prefix_of(prefix.repr(), u32::from(prefix.prefix_len())),
                value,
            )),
            None => None,
        }
    }

    /// The longest stored prefix that contains a prefix or is it, with host bits zero, and its value; `None` where
    /// there is none.
    pub fn get_lpm(&self, prefix: &P) -> Option<(P, ArchivedValue<'a, T>)>
        requires { P.prefix_len prefix.now ≤ P.R.WIDTH }
        ensures longest { IsLongestUnder self.now.table.entries [] (P.key prefix.now) (option_map (λ e. P.key e.0) result) }
        ensures value { IfSome result (λ e. map.get self.now.table.entries (P.key e.0) ≡ Some e.1.spelling.value) }
        ensures length { IfSome result (λ e. P.prefix_len e.0 ≡ length (P.key e.0)) }
        ensures bits { IfSome result (λ e. P.bits e.0 ≡ padded P.R.WIDTH (P.key e.0)) }
    {
        lpm_in::<P, T, Brand>(self, prefix, Blank::new(1))
    }

    /// The longest stored prefix that contains a prefix or is it, with host bits zero; `None` where there is none.
    pub fn get_lpm_prefix(&self, prefix: &P) -> Option<P>
        requires { P.prefix_len prefix.now ≤ P.R.WIDTH }
        ensures longest { IsLongestUnder self.now.table.entries [] (P.key prefix.now) (option_map (λ p. P.key p) result) }
        ensures length { IfSome result (λ p. P.prefix_len p ≡ length (P.key p)) }
        ensures bits { IfSome result (λ p. P.bits p ≡ padded P.R.WIDTH (P.key p)) }
    {
        match self.get_lpm(prefix) {
            Some((found, _)) => Some(found),
            None => None,
        }
    }

    /// The shortest stored prefix that contains a prefix or is it, with host bits zero, and its value; `None` where
    /// there is none.
    pub fn get_spm(&self, prefix: &P) -> Option<(P, ArchivedValue<'a, T>)>
        requires { P.prefix_len prefix.now ≤ P.R.WIDTH }
        ensures shortest { IsShortestUnder self.now.table.entries [] (P.key prefix.now) (option_map (λ e. P.key e.0) result) }
        ensures value { IfSome result (λ e. map.get self.now.table.entries (P.key e.0) ≡ Some e.1.spelling.value) }
        ensures length { IfSome result (λ e. P.prefix_len e.0 ≡ length (P.key e.0)) }
        ensures bits { IfSome result (λ e. P.bits e.0 ≡ padded P.R.WIDTH (P.key e.0)) }
    {
        let key = prefix.repr();
        let len = u32::from(prefix.prefix_len());
        match shortest_match::<P, T, Brand>(self, key, 0, len, Blank::new(1)) {
            Some(found) => Some((prefix_of(key, found.len), found.value)),
            None => None,
        }
    }

    /// The shortest stored prefix that contains a prefix or is it, with host bits zero; `None` where there is none.
    pub fn get_spm_prefix(&self, prefix: &P) -> Option<P>
        requires { P.prefix_len prefix.now ≤ P.R.WIDTH }
        ensures shortest { IsShortestUnder self.now.table.entries [] (P.key prefix.now) (option_map (λ p. P.key p) result) }
        ensures length { IfSome result (λ p. P.prefix_len p ≡ length (P.key p)) }
        ensures bits { IfSome result (λ p. P.bits p ≡ padded P.R.WIDTH (P.key p)) }
    {
        match self.get_spm(prefix) {
            Some((found, _)) => Some(found),
            None => None,
        }
    }

    /// Whether some stored prefix contains a prefix or is it.
    pub fn is_covered(&self, prefix: &P) -> bool
        requires { P.prefix_len prefix.now ≤ P.R.WIDTH }
        ensures { IsTrue result ↔ ((k : KeyBits) × IsMatchUnder self.now.table.entries [] (P.key prefix.now) k) }
    {
        let key = prefix.repr();
        let len = u32::from(prefix.prefix_len());
        shortest_match::<P, T, Brand>(self, key, 0, len, Blank::new(1)).is_some()
    }

    /// As [`get_lpm`](ArchivedPrefixMap::get_lpm), with at most one record read for each five bits of the prefix, and
    /// one more.
    #[inline]
    pub fn get_lpm_counted<L: Ledger>(
        &self,
        prefix: &P,
        steps: &mut Steps<L>,
    ) -> Option<(P, ArchivedValue<'a, T>)>
        requires { P.prefix_len prefix.now ≤ P.R.WIDTH }
        ensures longest { IsLongestUnder self.now.table.entries [] (P.key prefix.now) (option_map (λ e. P.key e.0) result) }
        ensures value { IfSome result (λ e. map.get self.now.table.entries (P.key e.0) ≡ Some e.1.spelling.value) }
        ensures length { IfSome result (λ e. P.prefix_len e.0 ≡ length (P.key e.0)) }
        ensures bits { IfSome result (λ e. P.bits e.0 ≡ padded P.R.WIDTH (P.key e.0)) }
        ensures steps { steps.new ≤ steps.old + (P.prefix_len prefix.now / 5 + 1) }
    {
        let key = prefix.repr();
        let len = u32::from(prefix.prefix_len());
        match longest_match(self, key, len, steps) {
            Some(found) => Some((prefix_of(key, found.len), found.value)),
            None => None,
        }
    }
}

/// The prefix of the first `len` bits of a key, with host bits zero.
#[inline]
pub(crate) fn prefix_of<P: PrefixBits>(key: P::R, len: u32) -> P
    requires { len ≤ P.R.WIDTH }
    ensures key { P.key result ≡ take len (P.R.bits key) }
    ensures length { P.prefix_len result ≡ length (P.key result) }
    ensures bits { P.bits result ≡ padded P.R.WIDTH (P.key result) }
{
    P::from_repr_len(key, len as u8)
}

/// What [`get_lpm`](ArchivedPrefixMap::get_lpm) answers. Its record reads are counted in the ledger of the blank.
#[inline]
fn lpm_in<'a, P: PrefixBits, T: ValueCodec, L: Ledger>(
    archive: &ArchivedPrefixMap<'a, P, T>,
    prefix: &P,
    blank: Blank,
) -> Option<(P, ArchivedValue<'a, T>)>
    requires fits { P.prefix_len prefix.now ≤ P.R.WIDTH }
    requires name { blank.name ≡ L.name }
    requires parts { blank.parts ≡ L.parts }
    requires some { 0 < blank.parts }
    ensures longest { IsLongestUnder archive.now.table.entries [] (P.key prefix.now) (option_map (λ e. P.key e.0) result) }
    ensures value { IfSome result (λ e. map.get archive.now.table.entries (P.key e.0) ≡ Some e.1.spelling.value) }
    ensures length { IfSome result (λ e. P.prefix_len e.0 ≡ length (P.key e.0)) }
    ensures bits { IfSome result (λ e. P.bits e.0 ≡ padded P.R.WIDTH (P.key e.0)) }
{
    let mut steps: Steps<L> = Steps::new(blank);
    archive.get_lpm_counted(prefix, &mut steps)
}

impl<'a, P: PrefixBits, T: ValueCodec + Drop> ArchivedPrefixMap<'a, P, T> {
    /// The map that the bytes spell, with its positions kept. The only error is want of memory.
    pub fn deserialize(&self, alloc: Global) -> Result<PrefixMap<P, T>, ArchiveError>
        ensures entries { IfOk result (λ m. m.entries ≡ self.now.table.entries) }
        ensures kept { IfOk result (λ m. m.kept ≡ position_set self.now.table.entries) }
        ensures error { IfErr result (λ e. e ≡ ArchiveError.OutOfMemory) }
    {
        match read_family::<P::R, T>(alloc, self.bytes) {
            Ok(table) => Ok(PrefixMap::from_table(table)),
            Err(_) => Err(ArchiveError::OutOfMemory),
        }
    }
}

impl<'a, P: PrefixBits, T: ValueCodec> PartialEq for ArchivedPrefixMap<'a, P, T> {
    ghost eq = { eq_of_both (on (λ a. a.nodes.bytes.now) (pointwise ◌==◌))
        (eq_of_both (on (λ a. a.values.bytes.now) (pointwise ◌==◌)) (on (λ a. a.values.len) ◌==◌)) };

    ghost laws = { Prim.search (comparing, rules) };

    fn eq(&self, other: &Self) -> bool
        ensures bytes { result ≡ eq_of_both (on (λ a. a.nodes.bytes.now) (pointwise ◌==◌))
            (eq_of_both (on (λ a. a.values.bytes.now) (pointwise ◌==◌)) (on (λ a. a.values.len) ◌==◌)) self.now other.now }
        ensures tables { IsTrue result ↔ (self.now.table.entries ≡ other.now.table.entries) }
    {
        self.nodes == other.nodes && self.values == other.values
    }
}

impl<'a, P: PrefixBits, T: ValueCodec> Eq for ArchivedPrefixMap<'a, P, T> {
    ghost laws = { Prim.search (comparing, rules) };
}
