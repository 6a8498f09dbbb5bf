//! The reader of a family.
ghost use Rattle.std.specs.Prelude.{◌≡◌, ◌+◌, ◌*◌, ◌%◌, ◌<◌, ◌≤◌, false, None, IfOk, OnOk};
ghost use Rattle.std.specs.Prelude.{[], ◌∷◌, ◌++◌, length, drop, replicate};
ghost use Rattle.std.specs.FinMap as finite;
ghost use Rattle.prefix_model.specs.Keys.{KeyBits};
ghost use Rattle.prefix_model.specs.Tables.{KeyMap};
ghost use Rattle.prefix_model.specs.Positions.{position_set};
ghost use Rattle.prefix_model.specs.Spelling.{Spells};
ghost use Rattle.prefix_model.specs.TableViews.{key_of};
ghost use Rattle.prefix_layout.specs.Spans.{some_refused};
ghost use Rattle.prefix_layout.specs.Reads.{set_places, set_children, values_in, with_values};
ghost use Rattle.prefix_layout.specs.Reads.{keys_below, waiting_keys, waiting_depths};

use crate::check::front_records;
use crate::codec::ValueCodec;
use prefix_table::{BitIter, Bits, Steps, Table, TableWriter, extend_repr, word_at};
use std::alloc::{AllocError, Global};
use std::marker::Brand;
use std::sync::ledger::{Blank, Ledger};

/// The data bits that stand for a key.
const PLACES: u32 = (1 << 31) - 1;

/// A node whose record is still to come: its key is the first bits of its path.
#[derive(Clone, Copy)]
struct Waiting<R> {
    path: R,
    depth: u32,
}

/// Appends a value.
fn push_value<T: Drop>(values: &mut Vec<T>, value: T) -> Result<(), AllocError>
    ensures { OnOk result (values.new.items ≡ values.old.items ++ value ∷ []) }
{
    match values.push(value) {
        Ok(()) => Ok(()),
        Err(_) => Err(AllocError),
    }
}

/// Appends so many values from the front of these bytes. What is behind them.
fn read_values<'a, T: ValueCodec + Drop>(
    alloc: Global,
    values: &mut Vec<T>,
    count: u32,
    bytes: &'a [u8],
) -> Result<&'a [u8], AllocError>
    requires room { count * T.SIZE ≤ length bytes.now }
    requires accepted { some_refused T.codec count bytes.now ≡ false }
    ensures behind { IfOk result (λ rest. rest.now ≡ drop (count * T.SIZE) bytes.now) }
    ensures read { OnOk result (values.new.items ≡ values.old.items ++ values_in T.codec count bytes.now) }
{
    let mut rest = bytes;
    for _ in 0..count {
        let (piece, behind) = rest.split_at(T::SIZE);
        let value = T::read(alloc, piece)?;
        push_value(values, value)?;
        rest = behind;
    }
    Ok(rest)
}

/// Stores the values of a node, which stand at the front of these bytes. What is behind them. The vector is for the
/// values of one node, and has none before and after.
fn store_values<'a, R: Bits, T: ValueCodec + Drop>(
    alloc: Global,
    table: &mut TableWriter<R, T>,
    values: &mut Vec<T>,
    at: Waiting<R>,
    data_bits: u32,
    bytes: &'a [u8],
) -> Result<&'a [u8], AllocError>
    requires shallow { at.depth ≤ R.WIDTH }
    requires at_five { at.depth % 5 ≡ 0 }
    requires none { values.old.items ≡ [] }
    requires room { length (set_places data_bits) * T.SIZE ≤ length bytes.now }
    requires accepted { some_refused T.codec (length (set_places data_bits)) bytes.now ≡ false }
    requires free { (r : KeyBits) → finite.get table.old.entries (key_of (R.bits at.path) at.depth ++ r) ≡ None }
    ensures behind { IfOk result (λ rest. rest.now ≡ drop (length (set_places data_bits) * T.SIZE) bytes.now) }
    ensures stored { OnOk result
        (table.new.entries ≡ with_values T.codec (key_of (R.bits at.path) at.depth) data_bits bytes.now table.old.entries) }
    ensures kept { OnOk result
        (table.old.kept ≡ position_set table.old.entries → table.new.kept ≡ position_set table.new.entries) }
    ensures none { OnOk result (values.new.items ≡ []) }
{
    let places = data_bits & PLACES;
    if places == 0 {
        return Ok(bytes);
    }
    let rest = read_values(alloc, values, places.count_ones(), bytes)?;
    match table.insert_node(at.path, at.depth, places, values) {
        Ok(()) => Ok(rest),
        Err(_) => Err(AllocError),
    }
}

/// Appends a node.
fn push_node<R: Bits>(queue: &mut Vec<Waiting<R>>, path: R, depth: u32) -> Result<(), AllocError>
    ensures { OnOk result (queue.new.items ≡ queue.old.items ++ record { path = path; depth = depth } ∷ []) }
{
    match queue.push(Waiting { path, depth }) {
        Ok(()) => Ok(()),
        Err(_) => Err(AllocError),
    }
}

/// Appends the children of a node.
fn push_children<R: Bits>(
    queue: &mut Vec<Waiting<R>>,
    path: R,
    depth: u32,
    child_bits: u32,
) -> Result<(), AllocError>
    requires { 0 < length (set_children child_bits) → depth + 5 ≤ R.WIDTH }
    ensures keys { OnOk result
        (waiting_keys R.bits queue.new.items
        ≡ waiting_keys R.bits queue.old.items ++ keys_below (key_of (R.bits path) depth) child_bits) }
    ensures depths { OnOk result
        (waiting_depths queue.new.items
        ≡ waiting_depths queue.old.items ++ replicate (length (set_children child_bits)) (depth + 5)) }
{
    for child in BitIter::new(child_bits) {
        push_node(queue, extend_repr(path, depth, child), depth + 5)?;
    }
    Ok(())
}

/// The table that the bytes spell, with its positions kept.
pub fn read_family<R: Bits, T: ValueCodec + Drop>(
    alloc: Global,
    bytes: &[u8],
) -> Result<Table<T>, AllocError>
    requires { (m : KeyMap T) × Spells T.codec R.WIDTH bytes.now m }
    ensures table { IfOk result (λ table. Spells T.codec R.WIDTH bytes.now table.entries) }
    ensures kept { IfOk result (λ table. table.kept ≡ position_set table.entries) }
{
    read_nodes::<R, T, Brand>(alloc, bytes, Blank::new(1))
}

// The same. Its record reads are counted in the ledger of the blank.
fn read_nodes<R: Bits, T: ValueCodec + Drop, L: Ledger>(
    alloc: Global,
    bytes: &[u8],
    blank: Blank,
) -> Result<Table<T>, AllocError>
    requires spelled { (m : KeyMap T) × Spells T.codec R.WIDTH bytes.now m }
    requires name { blank.name ≡ L.name }
    requires parts { blank.parts ≡ L.parts }
    requires some { 0 < blank.parts }
    ensures table { IfOk result (λ table. Spells T.codec R.WIDTH bytes.now table.entries) }
    ensures kept { IfOk result (λ table. table.kept ≡ position_set table.entries) }
{
    let nodes = word_at(bytes, 0);
    let body = &bytes[8..];
    let records = front_records(body, nodes);
    let mut steps: Steps<L> = Steps::new(blank);
    let mut values = &body[16 * nodes as usize..];
    let mut table = TableWriter::new(alloc);
    let mut held: Vec<T> = Vec::new(alloc);
    let mut queue: Vec<Waiting<R>> = Vec::new(alloc);
    push_node(&mut queue, R::zeros(), 0)?;
    for i in 0..nodes {
        let node = records.fetch(i as usize, &mut steps);
        let at = queue[i as usize];
        values = store_values(alloc, &mut table, &mut held, at, node.data_bits, values)?;
        push_children(&mut queue, at.path, at.depth, node.child_bits)?;
    }
    Ok(table.into_table())
}
