//! Places of a node: their bits, masks of them, and the keys that they stand for.
//!
//! A node stands at a key of `depth` bits, a multiple of [`K`]. A data bit stands for a key that extends it by up to
//! four bits, and a child bit for one that extends it by five.
ghost use Rattle.std.specs.Prelude.{◌≡◌, ◌+◌, ◌-◌, ◌*◌, ◌/◌, ◌^◌, ◌<◌, ◌≤◌, ◌++◌, false, true, Some};
ghost use Rattle.std.specs.Prelude.{drop, length, replicate, slice_get, take};
ghost use Rattle.prefix_model.specs.TableViews.{key_of};
ghost use Rattle.prefix_model.specs.Keys.{KeyBits, low_bits, number};
ghost use Rattle.prefix_model.specs.Positions.{data_places};
ghost use Rattle.prefix_model.specs.Masks.{data_mask, child_mask, begins_with, stands_from, is_past};

use crate::keys::Bits;
use crate::prefixes::PrefixBits;
use std::marker::Model;

/// The number of levels of a node.
pub const K: u32 = 5;

/// The number of data bits of a node.
pub const NUM_DATA: u32 = 31;

/// The number of child bits of a node.
pub const NUM_CHILDREN: u32 = 32;

// Each table has a mask for each data bit, or each child bit.

// The places that are prefixes of the place.
const LPM_MASKS: [u32; 31] = [
    0x0000_0001,
    0x0000_0003,
    0x0000_0005,
    0x0000_000b,
    0x0000_0013,
    0x0000_0025,
    0x0000_0045,
    0x0000_008b,
    0x0000_010b,
    0x0000_0213,
    0x0000_0413,
    0x0000_0825,
    0x0000_1025,
    0x0000_2045,
    0x0000_4045,
    0x0000_808b,
    0x0001_008b,
    0x0002_010b,
    0x0004_010b,
    0x0008_0213,
    0x0010_0213,
    0x0020_0413,
    0x0040_0413,
    0x0080_0825,
    0x0100_0825,
    0x0200_1025,
    0x0400_1025,
    0x0800_2045,
    0x1000_2045,
    0x2000_4045,
    0x4000_4045,
];

// The places that extend the place.
const COVER_MASKS: [u32; 31] = [
    0x7fff_ffff,
    0x007f_879a,
    0x7f80_7864,
    0x0007_8188,
    0x0078_0610,
    0x0780_1820,
    0x7800_6040,
    0x0001_8080,
    0x0006_0100,
    0x0018_0200,
    0x0060_0400,
    0x0180_0800,
    0x0600_1000,
    0x1800_2000,
    0x6000_4000,
    0x0000_8000,
    0x0001_0000,
    0x0002_0000,
    0x0004_0000,
    0x0008_0000,
    0x0010_0000,
    0x0020_0000,
    0x0040_0000,
    0x0080_0000,
    0x0100_0000,
    0x0200_0000,
    0x0400_0000,
    0x0800_0000,
    0x1000_0000,
    0x2000_0000,
    0x4000_0000,
];

// The children that extend the place.
const CHILD_COVER_MASKS: [u32; 31] = [
    0xffff_ffff,
    0x0000_ffff,
    0xffff_0000,
    0x0000_00ff,
    0x0000_ff00,
    0x00ff_0000,
    0xff00_0000,
    0x0000_000f,
    0x0000_00f0,
    0x0000_0f00,
    0x0000_f000,
    0x000f_0000,
    0x00f0_0000,
    0x0f00_0000,
    0xf000_0000,
    0x0000_0003,
    0x0000_000c,
    0x0000_0030,
    0x0000_00c0,
    0x0000_0300,
    0x0000_0c00,
    0x0000_3000,
    0x0000_c000,
    0x0003_0000,
    0x000c_0000,
    0x0030_0000,
    0x00c0_0000,
    0x0300_0000,
    0x0c00_0000,
    0x3000_0000,
    0xc000_0000,
];

// The places at or behind the place in key order.
const DATA_FROM_DATA: [u32; 31] = [
    0x7fff_ffff,
    0x7fff_fffe,
    0x7f80_7864,
    0x7fff_fffc,
    0x7ff8_7e74,
    0x7f80_7860,
    0x7800_6040,
    0x7fff_fff4,
    0x7ffe_7f74,
    0x7ff8_7e64,
    0x7fe0_7c64,
    0x7f80_7840,
    0x7e00_7040,
    0x7800_6000,
    0x6000_4000,
    0x7fff_ff74,
    0x7fff_7f74,
    0x7ffe_7e74,
    0x7ffc_7e74,
    0x7ff8_7c64,
    0x7ff0_7c64,
    0x7fe0_7864,
    0x7fc0_7864,
    0x7f80_7040,
    0x7f00_7040,
    0x7e00_6040,
    0x7c00_6040,
    0x7800_4000,
    0x7000_4000,
    0x6000_0000,
    0x4000_0000,
];

// The children behind the place in key order.
const CHILDREN_FROM_DATA: [u32; 31] = [
    0xffff_ffff,
    0xffff_ffff,
    0xffff_0000,
    0xffff_ffff,
    0xffff_ff00,
    0xffff_0000,
    0xff00_0000,
    0xffff_ffff,
    0xffff_fff0,
    0xffff_ff00,
    0xffff_f000,
    0xffff_0000,
    0xfff0_0000,
    0xff00_0000,
    0xf000_0000,
    0xffff_ffff,
    0xffff_fffc,
    0xffff_fff0,
    0xffff_ffc0,
    0xffff_ff00,
    0xffff_fc00,
    0xffff_f000,
    0xffff_c000,
    0xffff_0000,
    0xfffc_0000,
    0xfff0_0000,
    0xffc0_0000,
    0xff00_0000,
    0xfc00_0000,
    0xf000_0000,
    0xc000_0000,
];

// The places behind the range of the child.
const DATA_PAST_CHILD: [u32; 32] = [
    0x7fff_7f74,
    0x7fff_7f74,
    0x7ffe_7f74,
    0x7ffe_7f74,
    0x7ffc_7e74,
    0x7ffc_7e74,
    0x7ff8_7e74,
    0x7ff8_7e74,
    0x7ff0_7c64,
    0x7ff0_7c64,
    0x7fe0_7c64,
    0x7fe0_7c64,
    0x7fc0_7864,
    0x7fc0_7864,
    0x7f80_7864,
    0x7f80_7864,
    0x7f00_7040,
    0x7f00_7040,
    0x7e00_7040,
    0x7e00_7040,
    0x7c00_6040,
    0x7c00_6040,
    0x7800_6040,
    0x7800_6040,
    0x7000_4000,
    0x7000_4000,
    0x6000_4000,
    0x6000_4000,
    0x4000_0000,
    0x4000_0000,
    0x0000_0000,
    0x0000_0000,
];

// The children behind the child.
const CHILDREN_PAST_CHILD: [u32; 32] = [
    0xffff_fffe,
    0xffff_fffc,
    0xffff_fff8,
    0xffff_fff0,
    0xffff_ffe0,
    0xffff_ffc0,
    0xffff_ff80,
    0xffff_ff00,
    0xffff_fe00,
    0xffff_fc00,
    0xffff_f800,
    0xffff_f000,
    0xffff_e000,
    0xffff_c000,
    0xffff_8000,
    0xffff_0000,
    0xfffe_0000,
    0xfffc_0000,
    0xfff8_0000,
    0xfff0_0000,
    0xffe0_0000,
    0xffc0_0000,
    0xff80_0000,
    0xff00_0000,
    0xfe00_0000,
    0xfc00_0000,
    0xf800_0000,
    0xf000_0000,
    0xe000_0000,
    0xc000_0000,
    0x8000_0000,
    0x0000_0000,
];

/// The number that these bits of the key spell.
pub(crate) fn bits_between<R: Bits>(key: R, from: u32, to: u32) -> u32
    requires order { from ≤ to }
    requires few { to ≤ from + 5 }
    requires within { to ≤ R.WIDTH }
    ensures { result ≡ number (drop from (take to (R.bits key))) }
{
    key.number_between(from, to)
}

/// The slot of a key in its node, which stands at this depth.
pub(crate) fn slot_of<R: Bits>(key: R, depth: u32, len: u32) -> u32
    requires order { depth ≤ len }
    requires few { len < depth + 5 }
    requires within { len ≤ R.WIDTH }
    ensures value { result ≡ 2 ^ (len - depth) - 1 + number (drop depth (take len (R.bits key))) }
    ensures limit { result < 31 }
{
    (1 << (len - depth)) - 1 + bits_between(key, depth, len)
}

/// The bit of a key in its node, `len` at most the width.
pub fn data_bit<R: Bits>(key: R, len: u32) -> u32
    requires { len ≤ R.WIDTH }
    ensures place { slice_get data_places result ≡ Some (drop (len / 5 * 5) (take len (R.bits key))) }
    ensures limit { result < 31 }
{
    slot_of(key, len / K * K, len)
}

/// The number of the five bits from `depth` on, `depth + 5` at most the width.
pub fn child_bit<R: Bits>(depth: u32, key: R) -> u32
    requires { depth + 5 ≤ R.WIDTH }
    ensures number { result ≡ number (drop depth (take (depth + 5) (R.bits key))) }
    ensures bits { low_bits 5 result ≡ drop depth (take (depth + 5) (R.bits key)) }
    ensures limit { result < 32 }
{
    bits_between(key, depth, depth + K)
}

/// The bits of the places that are prefixes of a key at or below the node.
pub fn data_lpm_mask<R: Bits>(depth: u32, key: R, len: u32) -> u32
    requires order { depth ≤ len }
    requires within { len ≤ R.WIDTH }
    ensures { result ≡ data_mask (λ s. begins_with s (drop depth (take len (R.bits key)))) }
{
    let end = if len - depth < K { len } else { depth + K - 1 };
    LPM_MASKS[slot_of(key, depth, end) as usize]
}

/// The bits of the places that are prefixes of the five bits which a child bit stands for: [`data_lpm_mask`] of a key that
/// goes on below that child.
pub fn slot_lpm_mask(child_bit: u32) -> u32
    requires { child_bit < 32 }
    ensures { result ≡ data_mask (λ s. begins_with s (low_bits 5 child_bit)) }
{
    LPM_MASKS[(15 + child_bit / 2) as usize]
}

/// The bits of the places at or below a key of the node.
pub fn data_cover_mask<R: Bits>(depth: u32, key: R, len: u32) -> u32
    requires order { depth ≤ len }
    requires few { len < depth + 5 }
    requires within { len ≤ R.WIDTH }
    ensures { result ≡ data_mask (begins_with (drop depth (take len (R.bits key)))) }
{
    COVER_MASKS[slot_of(key, depth, len) as usize]
}

/// The bits of the children below a key of the node.
pub fn child_cover_mask<R: Bits>(depth: u32, key: R, len: u32) -> u32
    requires order { depth ≤ len }
    requires few { len < depth + 5 }
    requires within { len ≤ R.WIDTH }
    ensures { result ≡ child_mask (begins_with (drop depth (take len (R.bits key)))) }
{
    CHILD_COVER_MASKS[slot_of(key, depth, len) as usize]
}

/// The bits of the children below the place of a data bit.
pub fn child_cover_mask_for_bit(bit: u32) -> u32
    requires { bit < 31 }
    ensures { (s : KeyBits) → slice_get data_places bit ≡ Some s → result ≡ child_mask (begins_with s) }
{
    CHILD_COVER_MASKS[bit as usize]
}

/// The data bits and the child bits at or behind the place of a data bit, in key order.
pub fn lex_after_data(bit: u32) -> (u32, u32)
    requires { bit < 31 }
    ensures data_bits { (s : KeyBits) → slice_get data_places bit ≡ Some s → result.0 ≡ data_mask (stands_from true s) }
    ensures child_bits { (s : KeyBits) → slice_get data_places bit ≡ Some s → result.1 ≡ child_mask (stands_from true s) }
{
    (
        DATA_FROM_DATA[bit as usize],
        CHILDREN_FROM_DATA[bit as usize],
    )
}

/// The data bits and the child bits behind all keys of a child, in key order.
pub fn lex_after_child(bit: u32) -> (u32, u32)
    requires { bit < 32 }
    ensures data_bits { result.0 ≡ data_mask (is_past (low_bits 5 bit)) }
    ensures child_bits { result.1 ≡ child_mask (is_past (low_bits 5 bit)) }
{
    (
        DATA_PAST_CHILD[bit as usize],
        CHILDREN_PAST_CHILD[bit as usize],
    )
}

/// The key of a child: the first `depth` bits of a key, then the five bits of the child bit, then zeros.
pub fn extend_repr<R: Bits>(key: R, depth: u32, child_bit: u32) -> R
    requires within { depth + 5 ≤ R.WIDTH }
    requires slot { child_bit < 32 }
    ensures { R.bits result ≡ take depth (R.bits key)
        ++ (low_bits 5 child_bit ++ replicate (R.WIDTH - (depth + 5)) false) }
{
    key.with_number(depth, child_bit, K)
}

/// The level of a data bit: how many bits its place has.
fn level_of(data_bit: u32) -> u32
    requires { data_bit < 31 }
    ensures place { slice_get data_places data_bit ≡ Some (low_bits result (data_bit + 1 - 2 ^ result)) }
    ensures from { 2 ^ result ≤ data_bit + 1 }
    ensures to { data_bit + 1 < 2 * 2 ^ result }
    ensures limit { result < 5 }
{
    31 - (data_bit + 1).leading_zeros()
}

/// The string of a data bit's place, and how many of its bits count: the first `depth` bits of a key, then those of the
/// place, then zeros.
pub fn reconstruct_repr<R: Bits>(key: R, depth: u32, data_bit: u32) -> (R, u8)
    requires slot { data_bit < 31 }
    requires within { (s : KeyBits) → slice_get data_places data_bit ≡ Some s → depth + length s ≤ R.WIDTH }
    ensures key { (s : KeyBits) → slice_get data_places data_bit ≡ Some s → key_of (R.bits result.0) result.1 ≡ take depth (R.bits key) ++ s }
    ensures length { (s : KeyBits) → slice_get data_places data_bit ≡ Some s → result.1 ≡ depth + length s }
    ensures fits { result.1 ≤ R.WIDTH }
    ensures bits { R.bits result.0 ≡ key_of (R.bits result.0) result.1 ++ replicate (R.WIDTH - result.1) false }
{
    let level = level_of(data_bit);
    let len = depth + level;
    let repr = key.with_number(depth, data_bit + 1 - (1 << level), level);
    (repr, len as u8)
}

/// The prefix of a data bit: the first `depth` bits of a key, then those of the bit's place.
pub fn reconstruct_prefix<P: PrefixBits>(key: P::R, depth: u32, data_bit: u32) -> P
    requires slot { data_bit < 31 }
    requires within { (s : KeyBits) → slice_get data_places data_bit ≡ Some s → depth + length s ≤ P.R.WIDTH }
    ensures key { (s : KeyBits) → slice_get data_places data_bit ≡ Some s → P.key result ≡ take depth (P.R.bits key) ++ s }
    ensures length { (s : KeyBits) → slice_get data_places data_bit ≡ Some s → P.prefix_len result ≡ depth + length s }
    ensures bits { P.bits result ≡ P.key result ++ replicate (P.R.WIDTH - P.prefix_len result) false }
{
    let (repr, len) = reconstruct_repr(key, depth, data_bit);
    P::from_repr_len(repr, len)
}

/// The numbers of the set bits of a word, ascending from the front and descending from the back.
///
/// A contract sees the list of those that are left.
#[derive(Drop)]
pub struct BitIter {
    bits: u32,
}

impl Model for BitIter {
    ghost use Rattle.std.specs.Prelude.{ℕ, List};
    ghost use Rattle.prefix_model.specs.Masks.{set_bits};

    ghost Value = { List ℕ };

    ghost view = { λ a. set_bits a.bits };
}

impl BitIter {
    ghost use Rattle.std.specs.Prelude.{ℕ};
    ghost use Rattle.std.specs.Map.Iter.{GivesInOrder, GivesInReverse};
    ghost use Rattle.prefix_model.specs.Masks.{set_bits};

    /// The set bits of a bitmap.
    pub fn new(bitmap: u32) -> BitIter
        ensures rest { result ≡ set_bits bitmap }
        ensures runs { GivesInOrder ℕ }
        ensures runs_back { GivesInReverse ℕ }
    {
        BitIter { bits: bitmap }
    }
}

impl Iterator for BitIter {
    ghost use Rattle.std.specs.Map.Iter.{TakesFirst};
    ghost use Rattle.std.specs.Iterator.{at_most};

    type Item = u32;

    ghost next_gives = { TakesFirst (λ b. b) };

    ghost remaining = { λ s. at_most (length s) };

    fn next(&mut self) -> Option<u32> {
        if self.bits == 0 {
            return None;
        }
        let bit = self.bits.trailing_zeros();
        self.bits &= !(1 << bit);
        Some(bit)
    }
}

impl DoubleEndedIterator for BitIter {
    ghost use Rattle.std.specs.Map.Iter.{TakesLast};

    ghost next_back_gives = { TakesLast (λ b. b) };

    fn next_back(&mut self) -> Option<u32> {
        if self.bits == 0 {
            return None;
        }
        let bit = 31 - self.bits.leading_zeros();
        self.bits &= !(1 << bit);
        Some(bit)
    }
}
