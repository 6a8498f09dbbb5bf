//! The writer of a family.
ghost use Rattle.std.specs.Prelude.{◌≡◌, ◌↔◌, ◌^◌, ◌≤◌, ◌<◌, ◌+◌, ◌*◌, ◌%◌, min, not};
ghost use Rattle.std.specs.Prelude.{true, [], ◌∷◌, ◌++◌, length, take, drop, IsSome, Err, IfOk, OnOk, OnErr};
ghost use Rattle.std.specs.List.{flat_map, filter};
ghost use Rattle.std.specs.FinMap as map;
ghost use Rattle.prefix_model.specs.Keys.{low_bits};
ghost use Rattle.prefix_model.specs.Masks.{set_bits};
ghost use Rattle.prefix_model.specs.Positions as positions;
ghost use Rattle.prefix_model.specs.Positions.{positions_in, records};
ghost use Rattle.prefix_model.specs.Spelling.{spelling, word, record_bytes};
ghost use Rattle.prefix_table.specs.Records.{node_record};
ghost use Rattle.prefix_model.specs.TableViews.{HoldsPositions, position_at};
ghost use Rattle.prefix_layout.specs.Errors.{IsWriteError};
ghost use Rattle.prefix_layout.specs.Writing.{TellsBelow, is_written, is_kept, kept_positions, children_where};
ghost use Rattle.prefix_layout.specs.Writing.{positions_from, is_filled, filled_bits, IsQueue, Extends};
ghost use Rattle.prefix_layout.specs.Writing.{node_values, Appends};

use crate::codec::ValueCodec;
use crate::error::ArchiveError;
use prefix_table::{BitIter, NodeAt, NodeBits, Record, Table};
use std::alloc::{AllocError, Global};

/// How many nodes there are at most on the way to a key.
const LEVELS: u32 = 26;

/// The first number that is no index.
const INDEX_LIMIT: u64 = 1 << 32;

/// A node with its data bits, and with the bits of some of its children.
#[derive(Clone, Copy)]
struct Placed {
    at: NodeAt,
    data_bits: u32,
    child_bits: u32,
}

impl Placed {
    /// Whether no bit is set.
    fn is_empty(&self) -> bool
        ensures { result ≡ not (is_filled self.now) }
    {
        self.data_bits == 0 && self.child_bits == 0
    }
}

/// Whether an entry stands in a node or below it, where at most so many nodes follow each other from there.
fn has_entry<T>(table: &Table<T>, at: NodeAt, levels: u32) -> bool
    requires named { IsSome (map.get table.now.places at) }
    requires holds { HoldsPositions table.now }
    requires at_five { length (position_at table.now at) % 5 ≡ 0 }
    requires deep { 130 ≤ length (position_at table.now at) + 5 * levels }
    ensures { TellsBelow (map.get table.now.entries) (position_at table.now at) result }
{
    if levels == 0 {
        return false;
    }
    if table.node(at).data_bits != 0 {
        return true;
    }
    for bit in 0..32 {
        if let Some(child) = table.child(at, bit) {
            if has_entry(table, child, levels - 1) {
                return true;
            }
        }
    }
    false
}

/// How many positions of entries there are at a node and below it, in so many levels, or the limit.
fn count_nodes<T>(table: &Table<T>, at: NodeAt, levels: u32) -> u64
    requires named { IsSome (map.get table.now.places at) }
    requires holds { HoldsPositions table.now }
    requires at_five { length (position_at table.now at) % 5 ≡ 0 }
    ensures { result ≡ min (length (positions_from table.now levels (position_at table.now at))) INDEX_LIMIT }
{
    if levels == 0 {
        return 0;
    }
    let mut count: u64 = 1;
    for bit in 0..32 {
        if let Some(child) = table.child(at, bit) {
            if has_entry(table, child, LEVELS) {
                count = INDEX_LIMIT.min(count + count_nodes(table, child, levels - 1));
            }
        }
    }
    count
}

/// Appends a node, with the children that are kept.
fn push_node<T>(table: &Table<T>, at: NodeAt, nodes: &mut Vec<Placed>) -> Result<(), AllocError>
    requires { IsSome (map.get table.now.places at) }
    ensures { OnOk result
        (Extends table.now (is_kept table.now) nodes.old.items nodes.new.items (position_at table.now at ∷ [])) }
{
    let NodeBits {
        data_bits,
        child_bits,
    } = table.node(at);
    match nodes.push(Placed {
        at,
        data_bits,
        child_bits,
    }) {
        Ok(()) => Ok(()),
        Err(_) => Err(AllocError),
    }
}

/// Appends a child of a node.
fn push_child<T>(
    table: &Table<T>,
    at: NodeAt,
    bit: u32,
    nodes: &mut Vec<Placed>,
) -> Result<(), AllocError>
    requires named { IsSome (map.get table.now.places at) }
    requires slot { bit < 32 }
    requires kept { is_kept table.now (position_at table.now at ++ low_bits 5 bit) ≡ true }
    ensures { OnOk result
        (Extends table.now (is_kept table.now) nodes.old.items nodes.new.items
        ((position_at table.now at ++ low_bits 5 bit) ∷ [])) }
{
    match table.child(at, bit) {
        Some(child) => push_node(table, child, nodes),
        None => Ok(()),
    }
}

/// Appends the children of a node.
fn push_children<T>(
    table: &Table<T>,
    at: NodeAt,
    child_bits: u32,
    nodes: &mut Vec<Placed>,
) -> Result<(), AllocError>
    requires named { IsSome (map.get table.now.places at) }
    requires bits { child_bits ≡ positions.child_bits (is_kept table.now) (position_at table.now at) }
    ensures { OnOk result
        (Extends table.now (is_kept table.now) nodes.old.items nodes.new.items
        (children_where (is_kept table.now) (position_at table.now at))) }
{
    for bit in BitIter::new(child_bits) {
        push_child(table, at, bit, nodes)?;
    }
    Ok(())
}

/// The nodes at all kept positions, in order, each with the children that are kept.
fn kept_nodes<T>(alloc: Global, table: &Table<T>) -> Result<Vec<Placed>, AllocError>
    ensures nodes { IfOk result
        (λ nodes. IsQueue table.now (is_kept table.now) (kept_positions table.now) nodes.items) }
    ensures holds { HoldsPositions table.now }
{
    let mut nodes = Vec::new(alloc);
    push_node(table, table.root(), &mut nodes)?;
    let mut next = 0;
    while next < nodes.len() {
        let node = nodes[next];
        push_children(table, node.at, node.child_bits, &mut nodes)?;
        next += 1;
    }
    Ok(nodes)
}

/// Of the children of a node, the bits of those that hold something; the bits of all are given, and the children in order.
fn filled_children(child_bits: u32, children: &[Placed]) -> u32
    requires each { length children.now ≡ length (set_bits child_bits) }
    requires fits { filled_bits (set_bits child_bits) children.now < 2 ^ 32 }
    ensures { result ≡ filled_bits (set_bits child_bits) children.now }
{
    let mut filled = 0;
    let mut next = 0;
    for bit in BitIter::new(child_bits) {
        if !children[next].is_empty() {
            filled += 1 << bit;
        }
        next += 1;
    }
    filled
}

/// The same nodes, each with the children that have an entry at or below them: a child stands behind its parent, so
/// that the last node comes first.
fn settled_nodes<T>(alloc: Global, table: &Table<T>) -> Result<Vec<Placed>, AllocError>
    ensures nodes { IfOk result
        (λ nodes. IsQueue table.now (is_written table.now) (kept_positions table.now) nodes.items) }
    ensures holds { HoldsPositions table.now }
{
    let mut nodes = kept_nodes(alloc, table)?;
    let mut end = nodes.len();
    let mut i = nodes.len();
    while i > 0 {
        i -= 1;
        let node = nodes[i];
        let first = end - node.child_bits.count_ones() as usize;
        let child_bits = filled_children(node.child_bits, &nodes[first..end]);
        nodes[i] = Placed { child_bits, ..node };
        end = first;
    }
    Ok(nodes)
}

/// Takes the nodes behind the first that hold nothing away.
fn drop_empty(nodes: &mut Vec<Placed>)
    ensures { nodes.new.items ≡ take 1 nodes.old.items ++ filter is_filled (drop 1 nodes.old.items) }
{
    let mut len = 1;
    for i in 1..nodes.len() {
        let node = nodes[i];
        if !node.is_empty() {
            nodes[len] = node;
            len += 1;
        }
    }
    nodes.truncate(len);
}

/// The nodes at the positions of the entries, in order, each with the children that have an entry at or below them.
fn queue_of<T>(alloc: Global, table: &Table<T>) -> Result<Vec<Placed>, AllocError>
    ensures { IfOk result
        (λ nodes. IsQueue table.now (is_written table.now) (positions_in table.now.entries) nodes.items) }
{
    let mut nodes = settled_nodes(alloc, table)?;
    drop_empty(&mut nodes);
    Ok(nodes)
}

fn write_word(n: u32, out: &mut Vec<u8>) -> Result<(), AllocError>
    ensures { Appends out.old.items out.new.items (word n) result }
{
    out.extend_from_slice(&n.to_le_bytes())
}

fn write_record(node: &Record, out: &mut Vec<u8>) -> Result<(), AllocError>
    ensures { Appends out.old.items out.new.items (record_bytes (node_record node.now)) result }
{
    write_word(node.data_bits, out)?;
    write_word(node.child_bits, out)?;
    write_word(node.data_index, out)?;
    write_word(node.child_index, out)
}

/// Writes a record for each node of a queue.
fn write_records<T>(table: &Table<T>, queue: &[Placed], out: &mut Vec<u8>) -> Result<(), AllocError>
    requires queue { IsQueue table.now (is_written table.now) (positions_in table.now.entries) queue.now }
    requires nodes { length queue.now < 2 ^ 32 }
    requires entries { map.len table.now.entries < 2 ^ 32 }
    ensures { Appends out.old.items out.new.items
        (flat_map record_bytes
        (records (map.get table.now.entries) (is_written table.now) 0 1 (positions_in table.now.entries)))
        result }
{
    let mut entries: u32 = 0;
    let mut known: u32 = 1;
    for node in queue {
        let record = Record {
            data_bits: node.data_bits,
            child_bits: node.child_bits,
            data_index: entries,
            child_index: known,
        };
        write_record(&record, out)?;
        entries += record.data_bits.count_ones();
        known += record.child_bits.count_ones();
    }
    Ok(())
}

fn write_value<T: ValueCodec>(value: &T, out: &mut Vec<u8>) -> Result<(), AllocError>
    ensures { Appends out.old.items out.new.items (T.codec.spell value.now) result }
{
    let start = out.len();
    out.resize(start + T::SIZE, 0)?;
    value.write(&mut out[start..]);
    Ok(())
}

/// Writes the values of a node.
fn write_node_values<T: ValueCodec>(
    table: &Table<T>,
    at: NodeAt,
    data_bits: u32,
    out: &mut Vec<u8>,
) -> Result<(), AllocError>
    requires named { IsSome (map.get table.now.places at) }
    requires bits { data_bits ≡ positions.data_bits (map.get table.now.entries) (position_at table.now at) }
    ensures { Appends out.old.items out.new.items
        (node_values T.codec (map.get table.now.entries) (position_at table.now at))
        result }
{
    for bit in BitIter::new(data_bits) {
        write_value(table.value(at, bit), out)?;
    }
    Ok(())
}

/// Writes the values of each node of a queue.
fn write_values<T: ValueCodec>(
    table: &Table<T>,
    queue: &[Placed],
    out: &mut Vec<u8>,
) -> Result<(), AllocError>
    requires { IsQueue table.now (is_written table.now) (positions_in table.now.entries) queue.now }
    ensures { Appends out.old.items out.new.items
        (flat_map (node_values T.codec (map.get table.now.entries)) (positions_in table.now.entries))
        result }
{
    for node in queue {
        write_node_values(table, node.at, node.data_bits, out)?;
    }
    Ok(())
}

/// Writes a table whose nodes stand in a queue.
fn write_all<T: ValueCodec>(
    table: &Table<T>,
    queue: &[Placed],
    out: &mut Vec<u8>,
) -> Result<(), AllocError>
    requires queue { IsQueue table.now (is_written table.now) (positions_in table.now.entries) queue.now }
    requires nodes { length queue.now < 2 ^ 32 }
    requires entries { map.len table.now.entries < 2 ^ 32 }
    ensures { Appends out.old.items out.new.items (spelling T.codec table.now.entries) result }
{
    out.reserve(8 + 16 * queue.len() + T::SIZE * table.len())?;
    write_word(queue.len() as u32, out)?;
    write_word(table.len() as u32, out)?;
    write_records(table, queue, out)?;
    write_values(table, queue, out)
}

/// How many positions of entries there are, or the limit. Takes no memory.
fn count_positions<T>(table: &Table<T>) -> u64
    ensures { result ≡ min (length (positions_in table.now.entries)) INDEX_LIMIT }
{
    count_nodes(table, table.root(), LEVELS)
}

/// Whether so many nodes and entries have numbers of 32 bits.
fn check_counts(nodes: u64, entries: u64) -> Result<(), ArchiveError>
    ensures nodes { (result ≡ Err ArchiveError.NodeIndexOverflow) ↔ (INDEX_LIMIT ≤ nodes) }
    ensures values { (result ≡ Err ArchiveError.DataIndexOverflow) ↔ ((nodes < INDEX_LIMIT) × (INDEX_LIMIT ≤ entries)) }
    ensures ok { OnOk result ((nodes < INDEX_LIMIT) × (entries < INDEX_LIMIT)) }
    ensures causes { OnErr result (IsWriteError result) }
{
    if nodes >= INDEX_LIMIT {
        return Err(ArchiveError::NodeIndexOverflow);
    }
    if entries >= INDEX_LIMIT {
        return Err(ArchiveError::DataIndexOverflow);
    }
    Ok(())
}

/// Appends a table whose nodes stand in a queue, or nothing.
fn append_all<T: ValueCodec>(
    table: &Table<T>,
    queue: &[Placed],
    out: &mut Vec<u8>,
) -> Result<(), ArchiveError>
    requires queue { IsQueue table.now (is_written table.now) (positions_in table.now.entries) queue.now }
    requires nodes { length queue.now < 2 ^ 32 }
    requires entries { map.len table.now.entries < 2 ^ 32 }
    ensures ok { OnOk result (out.new.items ≡ out.old.items ++ spelling T.codec table.now.entries) }
    ensures err { OnErr result (out.new.items ≡ out.old.items) }
    ensures memory { OnErr result (result ≡ Err ArchiveError.OutOfMemory) }
{
    let old = out.len();
    match write_all(table, queue, out) {
        Ok(()) => Ok(()),
        Err(_) => {
            out.truncate(old);
            Err(ArchiveError::OutOfMemory)
        }
    }
}

/// Appends the spelling of a table: two counts, a record of four words for each node, and the values.
///
/// Nodes whose positions have no entry at or below them are left out, with their parents' child bits.
/// Refuses 2^32 or more positions, then 2^32 or more entries, then for want of memory; `out` is then as it was.
pub fn write_family<T: ValueCodec>(
    alloc: Global,
    table: &Table<T>,
    out: &mut Vec<u8>,
) -> Result<(), ArchiveError>
    ensures ok { OnOk result (out.new.items ≡ out.old.items ++ spelling T.codec table.now.entries) }
    ensures err { OnErr result (out.new.items ≡ out.old.items) }
    ensures nodes { (result ≡ Err ArchiveError.NodeIndexOverflow)
        ↔ (2 ^ 32 ≤ length (positions_in table.now.entries)) }
    ensures values { (result ≡ Err ArchiveError.DataIndexOverflow)
        ↔ ((length (positions_in table.now.entries) < 2 ^ 32) × (2 ^ 32 ≤ map.len table.now.entries)) }
    ensures causes { OnErr result (IsWriteError result) }
    ensures fits { OnOk result
        ((length (positions_in table.now.entries) < 2 ^ 32) × (map.len table.now.entries < 2 ^ 32)) }
{
    match queue_of(alloc, table) {
        Ok(queue) => {
            check_counts(queue.len() as u64, table.len() as u64)?;
            append_all(table, &queue, out)
        }
        Err(_) => {
            check_counts(count_positions(table), table.len() as u64)?;
            Err(ArchiveError::OutOfMemory)
        }
    }
}
