//! Tables from keys to values.
//!
//! The module `trie` says how a table stands in memory.
ghost use Rattle.std.specs.FinMap as map;

use crate::keys::Bits;
use crate::retain::retain_below;
use crate::trie::{
    Trie, child_of, clear_key, find_value, get_at, insert_at, item_of, new_trie, node_of,
    remove_at, remove_pruned,
};
use std::alloc::Global;
use std::marker::Model;
use std::mem;

/// The most entries of a table: an insertion past them is refused with [`InsertError::Full`].
pub const MAX_ENTRIES: usize = 1 << 62;

/// Why an entry was not inserted, with its value. The table is then as it was.
#[derive(Debug, Drop)]
pub enum InsertError<T> {
    /// There was no memory for a new key.
    Memory(T),
    /// The key is new, and the table holds [`MAX_ENTRIES`].
    Full(T),
}

impl<T> InsertError<T> {
    ghost use Rattle.std.specs.Prelude.{◌≡◌};
    ghost use Rattle.prefix_table.specs.Refusals.{value_of};

    /// The value that was not stored, whatever the cause.
    pub fn into_value(self) -> T
        ensures { result ≡ value_of self }
    {
        match self {
            InsertError::Memory(value) | InsertError::Full(value) => value,
        }
    }
}

/// A finite map from keys of up to 128 bits to values, with the positions of its nodes.
///
/// A call names a key by the first `len` bits of a string of [`Bits`]; those behind them do not count. Keys of two widths
/// are one where their first bits are. A contract sees `entries`, the finite map in key order; `kept`, the positions at
/// which nodes stand, the empty key among them; and `places`, the position that each node number names.
#[derive(Drop)]
pub struct Table<T> {
    pub(crate) trie: Trie<T>,
    pub(crate) len: usize,
    pub(crate) alloc: Global,
}

impl<T> Model for Table<T> {
    ghost use Rattle.std.specs.Prelude.{◌≡◌, ◌≤◌, ◌^◌, ◌∷◌};
    ghost use Rattle.std.specs.FinMap as map;
    ghost use Rattle.prefix_model.specs.TableViews.{TableView, coded_view};

    ghost Value = { TableView T };

    ghost coded = { coded_view T.code };

    ghost use Rattle.prefix_table.specs.Tries.{table_view, IsTrie};

    ghost view = { λ a. table_view a.trie };

    ghost invariant = { λ a. IsTrie a.trie × (a.len ≡ map.len (table_view a.trie).entries) × (a.len ≤ 2 ^ 62) };
}

/// Names a kept position of one table, until a call changes that table.
#[derive(Clone, Copy)]
pub struct NodeAt {
    index: usize,
}

impl Model for NodeAt {
    ghost use Rattle.std.specs.Prelude.{ℕ};

    ghost Value = { ℕ };

    ghost view = { λ a. a.index };

    ghost inverse = { λ n. record { index = n } };
}

impl NodeAt {
    ghost use Rattle.std.specs.Prelude.{◌≡◌};

    /// The number of the name, for who keeps it as one.
    pub fn number(self) -> usize
        ensures { result ≡ self }
    {
        self.index
    }

    /// The name of this number.
    pub fn of_number(number: usize) -> NodeAt
        ensures { result ≡ number }
    {
        NodeAt { index: number }
    }
}

/// The bitmaps of a node.
#[derive(Clone, Copy, Debug, PartialEq, Eq)]
pub struct NodeBits {
    /// Bit `2^l - 1 + n`, below 31, is set where the position with `l` more bits that spell `n` is a stored key.
    pub data_bits: u32,
    /// Bit `n`, below 32, is set where the position with five more bits that spell `n` is kept.
    pub child_bits: u32,
}

impl<T> Table<T> {
    ghost use Rattle.std.specs.Prelude.{◌≡◌, ◌≢◌, ◌≤◌, ◌<◌, ◌↔◌, ◌++◌, ◌^◌, ℕ, false, IsTrue, IsBitSet, List, [], Some, IfOk, IfErr, OnOk, OnErr, IsErrAnd, IsSome, IsNone, MatchOption, slice_get};
    ghost use Rattle.std.specs.Option.{option_copied, option_copied_mut, option_map};
    ghost use Rattle.std.specs.Borrow.{sem};
    ghost use Rattle.prefix_table.specs.TableLends.{lends_value};
    ghost use Rattle.prefix_model.specs.Keys.{KeyBits, low_bits};
    ghost use Rattle.prefix_model.specs.Positions.{data_bits, child_bits, data_places};
    ghost use Rattle.prefix_model.specs.TableViews.{position_at, key_of, IsSameTable, HoldsPositions};
    ghost use Rattle.prefix_model.specs.Positions.{with_positions, root_alone};
    ghost use Rattle.prefix_table.specs.Refusals.{value_of, OnMemory, IsFull};
    ghost use Rattle.prefix_model.specs.Pruning.{pruned};

    /// A table with no entry, which keeps the empty key alone. Takes no memory yet.
    pub fn new(alloc: Global) -> Self
        ensures entries { result.entries ≡ map.empty }
        ensures kept { result.kept ≡ root_alone }
    {
        Table {
            trie: new_trie(alloc),
            len: 0,
            alloc,
        }
    }

    /// How many entries there are, at most [`MAX_ENTRIES`].
    pub fn len(&self) -> usize
        ensures count { result ≡ map.len self.now.entries }
        ensures limit { result ≤ MAX_ENTRIES }
    {
        self.len
    }

    /// The allocator that the table takes its memory from.
    pub fn allocator(&self) -> Global {
        self.alloc
    }

    /// The node of the empty key. It is always kept, and so is each position of a stored key.
    pub fn root(&self) -> NodeAt
        ensures named { map.get self.now.places result ≡ Some [] }
        ensures kept { HoldsPositions self.now }
    {
        let _ = &self.trie;
        NodeAt { index: 0 }
    }

    /// Stores a value at the key of the first `len` bits, `len` at most [`Bits::WIDTH`], and answers the value before.
    ///
    /// Only a new key is refused: with [`InsertError::Full`] where the table holds [`MAX_ENTRIES`], and with
    /// [`InsertError::Memory`] where memory is wanting. The table's entries and kept positions are then as they were.
    pub fn insert<R: Bits>(
        &mut self,
        key: R,
        len: u32,
        value: T,
    ) -> Result<Option<T>, InsertError<T>>
        requires { len ≤ R.WIDTH }

        ensures before { IfOk result (λ before. before ≡ map.get self.old.entries (key_of (R.bits key) len)) }
        ensures stored { OnOk result (self.new.entries ≡ map.insert self.old.entries (key_of (R.bits key) len) value) }
        ensures kept { OnOk result (self.new.kept ≡ with_positions self.old.kept (key_of (R.bits key) len)) }

        // A refusal hands the value back and changes nothing. A stored key is never refused.
        ensures handed_back { IfErr result (λ refused. value_of refused ≡ value) }
        ensures unchanged { OnErr result (IsSameTable self.old self.new) }
        ensures new_key { OnErr result (map.get self.old.entries (key_of (R.bits key) len) ≡ None) }
        ensures full_only { IsErrAnd result IsFull → map.len self.old.entries ≡ MAX_ENTRIES }
        ensures full { map.len self.old.entries ≡ MAX_ENTRIES → map.get self.old.entries (key_of (R.bits key) len) ≡ None
            → IsErrAnd result IsFull }
    {
        if self.len == MAX_ENTRIES {
            if self.get(key, len).is_none() {
                return Err(InsertError::Full(value));
            }
        }
        match insert_at(&mut self.trie, key, len, value) {
            Ok(None) => {
                self.len += 1;
                Ok(None)
            }
            Ok(Some(before)) => Ok(Some(before)),
            Err(value) => Err(InsertError::Memory(value)),
        }
    }

    /// The value at the key of the first `len` bits, `len` at most [`Bits::WIDTH`]; `None` where it is not stored.
    pub fn get<R: Bits>(&self, key: R, len: u32) -> Option<&T>
        requires { len ≤ R.WIDTH }
        ensures { option_copied result ≡ map.get self.now.entries (key_of (R.bits key) len) }
    {
        get_at(&self.trie, key, len)
    }

    /// The node five bits below `at`, by the number of these bits, below 32; `None` where its position is not kept.
    pub fn child(&self, at: NodeAt, bit: u32) -> Option<NodeAt>
        requires named { IsSome (map.get self.now.places at) }
        requires slot { bit < 32 }
        ensures { MatchOption result
            (map.contains_key self.now.kept (position_at self.now at ++ low_bits 5 bit) ≡ false)
            (λ child. map.get self.now.places child ≡ Some (position_at self.now at ++ low_bits 5 bit)) }
    {
        match child_of(node_of(&self.trie, at.index), bit) {
            Some(index) => Some(NodeAt { index }),
            None => None,
        }
    }

    /// The bitmaps of the node: which places have an entry, and which children are kept.
    pub fn node(&self, at: NodeAt) -> NodeBits
        requires { IsSome (map.get self.now.places at) }
        ensures data { result.data_bits ≡ data_bits (map.get self.now.entries) (position_at self.now at) }
        ensures children { result.child_bits ≡ child_bits (map.contains_key self.now.kept) (position_at self.now at) }
    {
        let node = node_of(&self.trie, at.index);
        NodeBits {
            data_bits: node.data_bits,
            child_bits: node.child_bits,
        }
    }

    /// The value at a place of the node, by its bit in [`NodeBits::data_bits`], which is set.
    pub fn value(&self, at: NodeAt, bit: u32) -> &T
        requires named { IsSome (map.get self.now.places at) }
        requires set { IsBitSet (data_bits (map.get self.now.entries) (position_at self.now at)) bit }
        ensures { (s : KeyBits) → slice_get data_places bit ≡ Some s
            → map.get self.now.entries (position_at self.now at ++ s) ≡ Some result.now }
    {
        item_of(&self.trie, node_of(&self.trie, at.index), bit)
    }

    /// The value at a key, for writing; `None` where it is not stored.
    pub fn get_mut<R: Bits>(&mut self, key: R, len: u32) -> Option<&mut T>
        requires { len ≤ R.WIDTH }
        ensures* writes_back { sem 𝓛 (lends_value T.row self.entry (key_of (R.bits key) len) result) }
        ensures value { option_copied_mut result ≡ map.get self.old.entries (key_of (R.bits key) len) }
    {
        match find_value(&self.trie, key, len) {
            Some(at) => Some(self.trie.values.item_mut(at.block, at.place)),
            None => None,
        }
    }

    /// Takes the entry of a key away, and answers its value; `None` where it is not stored. All kept positions stay.
    pub fn remove_keep_tree<R: Bits>(&mut self, key: R, len: u32) -> Option<T>
        requires { len ≤ R.WIDTH }
        ensures value { result ≡ map.get self.old.entries (key_of (R.bits key) len) }
        ensures entries { self.new.entries ≡ map.remove self.old.entries (key_of (R.bits key) len) }
        ensures kept { self.new.kept ≡ self.old.kept }
    {
        match remove_at(&mut self.trie, key, len) {
            Some(value) => {
                self.len -= 1;
                Some(value)
            }
            None => None,
        }
    }

    /// Takes the entry of a key away, and answers its value; `None` where it is not stored.
    ///
    /// Then takes each kept position of the key away that has nothing in its node, the longest first. The empty key
    /// stays. That is done whether or not the key was stored.
    pub fn remove<R: Bits>(&mut self, key: R, len: u32) -> Option<T>
        requires { len ≤ R.WIDTH }
        ensures value { result ≡ map.get self.old.entries (key_of (R.bits key) len) }
        ensures entries { self.new.entries ≡ map.remove self.old.entries (key_of (R.bits key) len) }
        ensures kept { self.new.kept ≡ pruned self.new.entries self.old.kept (key_of (R.bits key) len) }
    {
        match remove_pruned(&mut self.trie, key, len) {
            Some(value) => {
                self.len -= 1;
                Some(value)
            }
            None => None,
        }
    }

    /// Both tables change places.
    pub fn exchange(&mut self, other: &mut Table<T>)
        ensures here { self.new ≡ other.old }
        ensures there { other.new ≡ self.old }
    {
        mem::swap(self, other);
    }
}

impl<T: Drop> Table<T> {
    ghost use Rattle.std.specs.Prelude.{◌≡◌, ◌≤◌};
    ghost use Rattle.prefix_model.specs.Tables.{HasWidth};
    ghost use Rattle.prefix_model.specs.Positions.{position_set};
    ghost use Rattle.prefix_table.specs.Retains.{IsAsked, IsRetained};
    ghost use Rattle.prefix_model.specs.TableViews.{key_of};
    ghost use Rattle.prefix_model.specs.Pruning.{pruned, without_below, kept_outside};
    ghost use Rattle.std.specs.FinMap as map;
    ghost use Rattle.prefix_model.specs.Positions.{root_alone};

    /// Takes all entries at keys that begin with this one away, the key itself among them, and all kept positions that
    /// begin with it but the empty key. Then takes each kept position of the key away that has nothing in its node, the
    /// longest first.
    pub fn remove_children<R: Bits>(&mut self, key: R, len: u32)
        requires { len ≤ R.WIDTH }
        ensures entries { self.new.entries ≡ without_below self.old.entries (key_of (R.bits key) len) }
        ensures kept { self.new.kept ≡ pruned self.new.entries (kept_outside self.old.kept (key_of (R.bits key) len))
            (key_of (R.bits key) len) }
    {
        clear_key(&mut self.trie, &mut self.len, key, len);
        let _none = remove_pruned(&mut self.trie, key, len);
    }

    /// Asks about each entry once, in key order, with its key, the length of the key and its value, and keeps those at
    /// which the answer is true. Of the kept positions those of the entries that are left stay. Takes no memory.
    pub fn retain<R: Bits, F: FnMut(R, u32, &T) -> bool>(&mut self, keep: F)
        requires callable { F.IsAlwaysCallable keep }
        requires width { HasWidth R.WIDTH self.old.entries }
        ensures entries { IsRetained (IsAsked R.bits R.WIDTH F.FnMut) keep self.old.entries self.new.entries }
        ensures kept { self.new.kept ≡ position_set self.new.entries }
    {
        let mut keep = keep;
        retain_below(
            &mut self.trie,
            &mut self.len,
            &mut keep,
            R::zeros(),
            0,
            0,
            0,
            0,
        );
    }

    /// Takes all entries and all kept positions but the empty key away.
    pub fn clear(&mut self)
        ensures entries { self.new.entries ≡ map.empty }
        ensures kept { self.new.kept ≡ root_alone }
    {
        *self = Table::new(self.alloc);
    }
}
