//! Tables written in key order.
ghost use Rattle.std.specs.FinMap as map;

use crate::filling::insert_values;
use crate::keys::Bits;
use crate::tables::{InsertError, MAX_ENTRIES, Table};
use crate::trie::{Trie, get_at, insert_from, new_trie};
use crate::ways::{go_down, shared_depth};
use std::alloc::Global;
use std::marker::Model;

/// A table that is written. It remembers the nodes on the way to the last key, and goes down to the next one from the
/// deepest of them that is also on its way: entries that come in key order cost less than by [`Table::insert`].
///
/// A contract sees the table. The order of keys is for speed alone.
#[derive(Drop)]
pub struct TableWriter<R: Bits, T> {
    trie: Trie<T>,
    len: usize,
    alloc: Global,
    // The last key, and the nodes on its way down to this depth.
    last: R,
    numbers: [usize; 26],
    depth: u32,
}

impl<R: Bits, T> Model for TableWriter<R, T> {
    ghost use Rattle.std.specs.Prelude.{◌≡◌, ◌≤◌, ◌^◌};
    ghost use Rattle.std.specs.FinMap as map;
    ghost use Rattle.prefix_model.specs.TableViews.{TableView, coded_view};

    ghost Value = { TableView T };

    ghost coded = { coded_view T.code };

    ghost use Rattle.prefix_table.specs.Tries.{table_view, IsTrie};
    ghost use Rattle.prefix_table.specs.Ways.{IsWay};

    ghost view = { λ a. table_view a.trie };

    ghost invariant = { λ a. IsTrie a.trie × (a.len ≡ map.len (table_view a.trie).entries) × (a.len ≤ 2 ^ 62)
        × IsWay a.trie (R.bits a.last) a.numbers a.depth };
}

impl<R: Bits, T> TableWriter<R, T> {
    ghost use Rattle.std.specs.Prelude.{◌≡◌, ◌+◌, ◌%◌, ◌^◌, ◌<◌, ◌≤◌, ◌++◌, [], IfOk, IfErr, OnOk, OnErr, IsErrAnd, None};
    ghost use Rattle.std.specs.Prelude.{count_ones, length};
    ghost use Rattle.std.specs.Vec.{vec_len};
    ghost use Rattle.std.specs.Option.{option_copied};
    ghost use Rattle.prefix_model.specs.TableViews.{key_of, IsSameTable};
    ghost use Rattle.prefix_model.specs.Keys.{KeyBits};
    ghost use Rattle.prefix_model.specs.Building.{insert_all};
    ghost use Rattle.prefix_model.specs.Positions.{with_positions, root_alone};
    ghost use Rattle.prefix_table.specs.Fills.{node_entries};
    ghost use Rattle.prefix_table.specs.Refusals.{value_of, IsFull};

    /// A table with no entry, which keeps the empty key alone. Takes no memory yet.
    pub fn new(alloc: Global) -> Self
        ensures entries { result.entries ≡ map.empty }
        ensures kept { result.kept ≡ root_alone }
    {
        TableWriter {
            trie: new_trie(alloc),
            len: 0,
            alloc,
            last: R::zeros(),
            numbers: [0; 26],
            depth: 0,
        }
    }

    /// The value at the key of the first `len` bits, `len` at most [`Bits::WIDTH`]; `None` where it is not stored.
    pub fn get(&self, key: R, len: u32) -> Option<&T>
        requires { len ≤ R.WIDTH }
        ensures { option_copied result ≡ map.get self.now.entries (key_of (R.bits key) len) }
    {
        get_at(&self.trie, key, len)
    }

    /// Stores a value at the key of the first `len` bits, `len` at most [`Bits::WIDTH`], and answers the value before.
    ///
    /// Only a new key is refused: with [`InsertError::Full`] where the table holds [`MAX_ENTRIES`], and with
    /// [`InsertError::Memory`] where memory is wanting. The table's entries and kept positions are then as they were.
    pub fn insert(&mut self, key: R, len: u32, value: T) -> Result<Option<T>, InsertError<T>>
        requires { len ≤ R.WIDTH }

        ensures before { IfOk result (λ before. before ≡ map.get self.old.entries (key_of (R.bits key) len)) }
        ensures stored { OnOk result (self.new.entries ≡ map.insert self.old.entries (key_of (R.bits key) len) value) }
        ensures kept { OnOk result (self.new.kept ≡ with_positions self.old.kept (key_of (R.bits key) len)) }

        // A refusal hands the value back and changes nothing. A stored key is never refused.
        ensures handed_back { IfErr result (λ refused. value_of refused ≡ value) }
        ensures unchanged { OnErr result (IsSameTable self.old self.new) }
        ensures new_key { OnErr result (map.get self.old.entries (key_of (R.bits key) len) ≡ None) }
        ensures full_only { IsErrAnd result IsFull → map.len self.old.entries ≡ MAX_ENTRIES }
        ensures full { map.len self.old.entries ≡ MAX_ENTRIES → map.get self.old.entries (key_of (R.bits key) len) ≡ None
            → IsErrAnd result IsFull }
    {
        if self.len == MAX_ENTRIES {
            if self.get(key, len).is_none() {
                return Err(InsertError::Full(value));
            }
        }
        let shared = shared_depth(self.last, key, len, self.depth);
        let end = go_down(&self.trie, &mut self.numbers, shared, key, len);
        self.last = key;
        self.depth = end.depth;
        match insert_from(&mut self.trie, key, len, end, value) {
            Ok(None) => {
                self.len += 1;
                Ok(None)
            }
            Ok(Some(before)) => Ok(Some(before)),
            Err(value) => Err(InsertError::Memory(value)),
        }
    }

    /// Stores the values of a node: at the key of the first `depth` bits, with the bits of each place behind it whose
    /// bit is set in `data_bits`, in the order of the bits. None of these keys is stored before, and where it is done no
    /// value is left in `values`.
    ///
    /// `depth` is a multiple of [`K`](crate::K) and at most [`Bits::WIDTH`]; `data_bits` is below 2^31, and has as many bits
    /// set as there are values, one at least.
    ///
    /// Refused with [`InsertError::Full`] where the table would hold more than [`MAX_ENTRIES`], and with
    /// [`InsertError::Memory`] where memory is wanting. The table and `values` are then as they were.
    pub fn insert_node(
        &mut self,
        key: R,
        depth: u32,
        data_bits: u32,
        values: &mut Vec<T>,
    ) -> Result<(), InsertError<()>>
        requires width { depth ≤ R.WIDTH }
        requires at_five { depth % 5 ≡ 0 }
        requires some { 0 < data_bits }
        requires within { data_bits < 2 ^ 31 }
        requires count { vec_len values.old ≡ count_ones data_bits }
        requires free { (s : KeyBits) → length s < 5 → map.get self.old.entries (key_of (R.bits key) depth ++ s) ≡ None }

        ensures stored { OnOk result (self.new.entries
            ≡ insert_all self.old.entries (node_entries (key_of (R.bits key) depth) data_bits values.old.items)) }
        ensures kept { OnOk result (self.new.kept ≡ with_positions self.old.kept (key_of (R.bits key) depth)) }
        ensures moved { OnOk result (values.new.items ≡ []) }

        // A refusal changes nothing.
        ensures unchanged { OnErr result (IsSameTable self.old self.new) }
        ensures left { OnErr result (values.new ≡ values.old) }
        ensures full_only { IsErrAnd result IsFull → MAX_ENTRIES < map.len self.old.entries + vec_len values.old }
        ensures full { MAX_ENTRIES < map.len self.old.entries + vec_len values.old → IsErrAnd result IsFull }
    {
        let count = values.len();
        if count > MAX_ENTRIES - self.len {
            return Err(InsertError::Full(()));
        }
        let shared = shared_depth(self.last, key, depth, self.depth);
        let end = go_down(&self.trie, &mut self.numbers, shared, key, depth);
        self.last = key;
        self.depth = end.depth;
        match insert_values(&mut self.trie, key, depth, end, data_bits, values) {
            Ok(()) => {
                self.len += count;
                Ok(())
            }
            Err(_) => Err(InsertError::Memory(())),
        }
    }

    /// The table that was written.
    pub fn into_table(self) -> Table<T>
        ensures { result ≡ self }
    {
        Table {
            trie: self.trie,
            len: self.len,
            alloc: self.alloc,
        }
    }
}
