//! Records of nodes in bytes that were written before.
ghost use Rattle.std.specs.Prelude.{◌≡◌, ◌==◌, ◌*◌, ◌+◌, ◌/◌, ◌%◌, ◌<◌, ◌≤◌, length, drop, ⊤};
ghost use Rattle.std.specs.Cmp.Lexicographic.{pointwise};
ghost use Rattle.std.specs.Cmp.Rules.{comparing};
ghost use Rattle.std.specs.Ordering.{on};
ghost use Rattle.std.proofs.Common.{rules};
ghost use Rattle.prefix_model.specs.FirstCause.{first_word, read_record};
ghost use Rattle.prefix_table.specs.Records.{node_record};

use crate::step_counter::Steps;
use std::alloc::AllocError;
use std::sync::ledger::Ledger;

/// The record of a node: four words of 32 bits, the least significant byte first.
#[derive(Clone, Copy, Debug, PartialEq, Eq)]
pub struct Record {
    /// Bit `2^l - 1 + n`, below 31, is set where the node's key with `l` more bits that spell `n` has a value.
    pub data_bits: u32,
    /// Bit `n` is set where the node's key with five more bits that spell `n` is a node.
    pub child_bits: u32,
    /// How many values stand before those of the node.
    pub data_index: u32,
    /// How many nodes stand before its children.
    pub child_index: u32,
}

/// Records of sixteen bytes, one behind the other.
pub struct Records<'a> {
    bytes: &'a [u8],

    pub ghost whole: { length bytes.now % 16 ≡ 0 },
}

impl<'a> Clone for Records<'a> {
    ghost is_clone = { λ old new. new ≡ old };

    ghost is_infallible = { λ _. ⊤ };

    fn clone(&self) -> Result<Records<'a>, AllocError> {
        Ok(*self)
    }
}

impl<'a> Copy for Records<'a> {}

/// Compares the bytes, and reads no record.
impl<'a> PartialEq for Records<'a> {
    ghost eq = { on (λ r. r.bytes.now) (pointwise ◌==◌) };

    ghost laws = { Prim.search (comparing, rules) };

    fn eq(&self, other: &Self) -> bool {
        self.bytes == other.bytes
    }
}

impl<'a> Eq for Records<'a> {
    ghost laws = { Prim.search (comparing, rules) };
}

/// The number of the four bytes from this index on, the least significant first.
#[inline]
#[tactic(auto, unfolding(prefix_model::specs::FirstCause::first_word))]
pub fn word_at(bytes: &[u8], at: usize) -> u32
    requires { at + 4 ≤ length bytes.now }
    ensures { result ≡ first_word (drop at bytes.now) }
{
    u32::from_le_bytes([bytes[at], bytes[at + 1], bytes[at + 2], bytes[at + 3]])
}

#[inline]
fn record_at(bytes: &[u8], at: usize) -> Record
    requires { at + 16 ≤ length bytes.now }
    ensures { node_record result ≡ read_record (drop at bytes.now) }
{
    Record {
        data_bits: word_at(bytes, at),
        child_bits: word_at(bytes, at + 4),
        data_index: word_at(bytes, at + 8),
        child_index: word_at(bytes, at + 12),
    }
}

impl<'a> Records<'a> {
    /// The records in these bytes, whose number is a multiple of 16.
    #[inline]
    pub fn new(bytes: &'a [u8]) -> Records<'a>
        requires { length bytes.now % 16 ≡ 0 }
        ensures { result.bytes.now ≡ bytes.now }
    {
        Records { bytes }
    }

    /// How many records there are.
    #[inline]
    pub fn len(&self) -> usize
        ensures { result ≡ length self.now.bytes.now / 16 }
    {
        self.bytes.len() / 16
    }

    /// The record at this index, below `len`, which is one step. No other call reads a record.
    #[inline]
    pub fn fetch<L: Ledger>(&self, i: usize, steps: &mut Steps<L>) -> Record
        requires { i < length self.now.bytes.now / 16 }
        ensures record { node_record result ≡ read_record (drop (16 * i) self.now.bytes.now) }
        ensures steps { steps.new ≡ steps.old + 1 }
    {
        steps.tick();
        record_at(self.bytes, 16 * i)
    }
}
