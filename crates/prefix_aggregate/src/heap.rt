// The heap of a node's 31 places: bit `b` has the halves `2b + 1` and `2b + 2`.
ghost use Rattle.std.specs.Prelude.{◌≡◌, ◌≤◌, IsTrue, ◌+◌, ◌-◌, ◌*◌, ◌<◌, ℕ, max, nat_lt, if◌then◌else◌};
ghost use Rattle.std.specs.Int.{bit_at};
ghost use Rattle.std.specs.Int.Bits.{bit_or};
ghost use Rattle.prefix_model.specs.Bits.{in_level};
ghost use Rattle.prefix_aggregate.specs.Inner.{has_pair, either, AreInner};

use crate::bits::even_bits;

/// Whether one of the two bits from here on is set.
pub fn has_pair(bits: u32, bit: u32) -> bool
    requires { bit < 31 }
    ensures { result ≡ has_pair bits bit }
{
    (bits >> bit) & 1 == 1 || (bits >> (bit + 1)) & 1 == 1
}

/// The bits of levels 0 to 3 that have a half that is set.
fn with_half(bits: u32) -> u32
    ensures { (b : ℕ) → bit_at result b ≡ (if nat_lt b 15 then either bits (2 * b + 1) else 0) }
{
    even_bits((bits << 1) | bits) >> 1
}

/// The bits of level 4 that have a slot that is set.
fn with_slot(child_bits: u32) -> u32
    ensures { (b : ℕ) → bit_at result b ≡ (if in_level 4 b then either child_bits (2 * (b - 15)) else 0) }
{
    if child_bits == 0 {
        return 0;
    }
    even_bits(child_bits | (child_bits >> 1)) << 15
}

/// These bits of level 4, and the bits above that have a half among the data bits and the inner places so far.
fn next_inner(data_bits: u32, last: u32, inner: u32) -> u32
    ensures { (b : ℕ) → bit_at result b
        ≡ max (bit_at last b) (if nat_lt b 15 then either (bit_or data_bits inner) (2 * b + 1) else 0) }
{
    last | with_half(data_bits | inner)
}

/// Whether there is no value but at the key of the node, and no child.
fn is_bare(data_bits: u32, child_bits: u32) -> bool
    ensures { IsTrue result → (data_bits ≤ 1) × (child_bits ≡ 0) }
{
    data_bits <= 1 && child_bits == 0
}

/// The places of a node that have a value or a child strictly below them.
pub fn inner_places(data_bits: u32, child_bits: u32) -> u32
    ensures { AreInner data_bits child_bits result 0 }
{
    if is_bare(data_bits, child_bits) {
        return 0;
    }
    let last = with_slot(child_bits);
    let third = next_inner(data_bits, last, last);
    let second = next_inner(data_bits, last, third);
    let first = next_inner(data_bits, last, second);
    next_inner(data_bits, last, first)
}
