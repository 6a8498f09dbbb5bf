//! The check of a family, one record after the other.
ghost use Rattle.std.specs.Prelude.{◌≡◌, ℕ, ◌+◌, ◌*◌, ◌<◌, ◌≤◌, length, drop, [], ◌∷◌, false};
ghost use Rattle.prefix_model.specs.FirstCause.{first_word, read_records, is_too_deep, check_record, check_records};
ghost use Rattle.prefix_model.specs.Spelling.{IsBytes};
ghost use Rattle.prefix_table.specs.Records.{node_record};
ghost use Rattle.prefix_layout.specs.Spans.{some_refused, AnswersCheck, TellsSpelling, NamesCause, BeginsWithFamily, TellsSpan};

use crate::codec::ValueCodec;
use crate::error::ArchiveError;
use prefix_model::Cause;
use prefix_table::{Record, Records, Steps, word_at};
use std::marker::Brand;
use std::sync::ledger::{Blank, Ledger};

// The records of so many nodes, at the front of the bytes.
pub(crate) fn front_records(bytes: &[u8], nodes: u32) -> Records<'_>
    requires { 16 * nodes ≤ length bytes.now }
    ensures len { length result.bytes.now ≡ 16 * nodes }
    ensures fits { IsBytes result.bytes.now }
    ensures same { read_records nodes result.bytes.now ≡ read_records nodes bytes.now }
{
    Records::new(&bytes[..16 * nodes as usize])
}

// Whether a node at this depth with these data bits is too deep.
fn too_deep(width: u32, depth: u32, data_bits: u32) -> bool
    ensures { result ≡ is_too_deep width depth data_bits }
{
    if depth > width {
        return true;
    }
    let limit = match width - depth {
        0 => 2,
        1 => 8,
        2 => 128,
        3 => 32768,
        _ => 2147483648,
    };
    data_bits >= limit
}

// The record of a node at this depth, where so many data bits and nodes are known from the records before.
fn test_record(
    width: u32,
    later: bool,
    depth: u32,
    entries: u64,
    known: u64,
    node: &Record,
) -> Result<(), Cause>
    ensures { result ≡ check_record width later depth entries known (node_record node.now) }
{
    if later && node.data_bits == 0 && node.child_bits == 0 {
        return Err(Cause::ContainsEmptyNode);
    }
    if too_deep(width, depth, node.data_bits) {
        return Err(Cause::DepthExceedsPrefixRepr);
    }
    if u64::from(node.data_index) != entries {
        return Err(Cause::DataListInconsistent);
    }
    if u64::from(node.child_index) != known {
        return Err(Cause::NodeListInconsistent);
    }
    Ok(())
}

/// The check of the records: the number of all data bits, or the first cause. Reads each record at most once.
fn check_nodes<L: Ledger>(
    bytes: &[u8],
    nodes: u32,
    width: u32,
    steps: &mut Steps<L>,
) -> Result<u64, Cause>
    requires room { 16 * nodes ≤ length bytes.now }
    requires width { width ≤ 128 }
    ensures cause { result ≡ check_records width false (0 ∷ []) 0 1 (read_records nodes bytes.now) }
    ensures steps { steps.new ≤ steps.old + nodes }
{
    let records = front_records(bytes, nodes);
    let mut depth: u32 = 0;
    let mut level_end: u64 = 1;
    let mut entries: u64 = 0;
    let mut known: u64 = 1;
    for i in 0..nodes {
        if u64::from(i) >= known {
            return Err(Cause::NodeListTooLong);
        }
        if u64::from(i) == level_end {
            depth += 5;
            level_end = known;
        }
        let node = records.fetch(i as usize, steps);
        test_record(width, i > 0, depth, entries, known, &node)?;
        entries += u64::from(node.data_bits.count_ones());
        known += u64::from(node.child_bits.count_ones());
    }
    if known > u64::from(nodes) {
        return Err(Cause::NodeListTooShort);
    }
    Ok(entries)
}

/// The same, with no count of the reads.
fn test_nodes<L: Ledger>(bytes: &[u8], nodes: u32, width: u32, blank: Blank) -> Result<u64, Cause>
    requires room { 16 * nodes ≤ length bytes.now }
    requires width { width ≤ 128 }
    requires name { blank.name ≡ L.name }
    requires parts { blank.parts ≡ L.parts }
    requires some { 0 < blank.parts }
    ensures { result ≡ check_records width false (0 ∷ []) 0 1 (read_records nodes bytes.now) }
{
    let mut steps: Steps<L> = Steps::new(blank);
    check_nodes(bytes, nodes, width, &mut steps)
}

/// Whether one of `entries` values is refused.
fn refuses_one<T: ValueCodec>(bytes: &[u8], entries: u32) -> bool
    requires { entries * T.SIZE ≤ length bytes.now }
    ensures { result ≡ some_refused T.codec entries bytes.now }
{
    let mut rest = bytes;
    for i in 0..entries {
        let (value, behind) = rest.split_at(T::SIZE);
        if !T::check(value) {
            return true;
        }
        rest = behind;
    }
    false
}

/// What a spelling takes up: its two counts, and its length.
#[derive(Clone, Copy, Debug, PartialEq, Eq)]
pub struct FamilySpan {
    /// How many records of nodes there are, sixteen bytes each. At least 1.
    pub nodes: u32,
    /// How many values there are, [`ValueCodec::SIZE`] bytes each.
    pub entries: u32,
    /// How many bytes there are in all: `8 + 16 * nodes + SIZE * entries`.
    pub len: usize,
}

// Whether a front of the bytes spells a table of this width.
fn test_family<T: ValueCodec>(bytes: &[u8], width: u32) -> Result<FamilySpan, Cause>
    requires { width ≤ 128 }
    ensures { AnswersCheck T.codec width bytes.now result }
{
    if bytes.len() < 8 {
        return Err(Cause::Truncated);
    }
    let nodes = word_at(bytes, 0);
    let entries = word_at(bytes, 4);
    if nodes == 0 {
        return Err(Cause::MissingRootNode);
    }
    let body = &bytes[8..];
    if (body.len() as u64) < 16 * u64::from(nodes) {
        return Err(Cause::Truncated);
    }
    let total = test_nodes::<Brand>(body, nodes, width, Blank::new(1))?;
    if u64::from(entries) < total {
        return Err(Cause::DataListTooShort);
    }
    if u64::from(entries) > total {
        return Err(Cause::DataListTooLong);
    }
    let values = &body[16 * nodes as usize..];
    let size = u64::from(entries) * T::SIZE as u64;
    if (values.len() as u64) < size {
        return Err(Cause::Truncated);
    }
    if refuses_one::<T>(values, entries) {
        return Err(Cause::InvalidValue);
    }
    Ok(FamilySpan {
        nodes,
        entries,
        len: 8 + 16 * nodes as usize + size as usize,
    })
}

/// Whether a front of the bytes spells a table of this width (in bits): its span, or else the first cause.
/// Takes no memory.
pub fn check_family<T: ValueCodec>(bytes: &[u8], width: u32) -> Result<FamilySpan, ArchiveError>
    requires { width ≤ 128 }
    ensures exact { NamesCause T.codec width bytes.now result }
    ensures spelling { TellsSpelling T.codec width bytes.now result }
{
    match test_family::<T>(bytes, width) {
        Ok(span) => Ok(span),
        Err(cause) => Err(ArchiveError::from(cause)),
    }
}

/// The span of the table that a front of the bytes spells. Checks nothing and takes no memory.
pub fn family_span<T: ValueCodec>(bytes: &[u8]) -> FamilySpan
    requires { BeginsWithFamily T.codec bytes.now }
    ensures { TellsSpan T.codec bytes.now result }
{
    let nodes = word_at(bytes, 0);
    let entries = word_at(bytes, 4);
    FamilySpan {
        nodes,
        entries,
        len: 8 + 16 * nodes as usize + entries as usize * T::SIZE,
    }
}
