//! Keys: unsigned integers as lists of bits.
ghost use Rattle.std.specs.Prelude.{◌≡◌, ◌↔◌, ◌-◌, ◌^◌, ◌<◌, ◌≤◌, ◌+◌, ◌++◌, ℕ, false, true, pos, Some, IsTrue};
ghost use Rattle.std.specs.Prelude.{drop, length, replicate, slice_get, slice_set, take};
ghost use Rattle.prefix_model.specs.Keys.{KeyBits, low_bits, number};

use num_traits::{CheckedAdd, One, PrimInt, Zero};

/// A string of `WIDTH` bits, the most significant first.
///
/// Bit 0 is the most significant one. It is what tables ask of the integers that keys stand in; an integer that counts
/// too is a [`Key`]. What is bound by it alone has no number in its contract.
pub trait Bits: Copy {
    /// How many bits a string has, from 8 to 128.
    const WIDTH: u32;

    ghost WIDTH: { ℕ };

    ghost bits: { Self → KeyBits };

    /// The string with no bit set.
    fn zeros() -> Self
        ensures { bits result ≡ replicate WIDTH false };

    /// The string that spells a number, which is below 2 to the power of `WIDTH`.
    fn from_number(n: u128) -> Self
        requires { n < 2 ^ WIDTH }
        ensures { bits result ≡ low_bits WIDTH n };

    /// The bit at this place, below `WIDTH`.
    fn bit(self, i: u32) -> bool
        requires { i < WIDTH }
        ensures { slice_get (bits self) i ≡ Some result };

    /// The first `len` bits of the string, `len` at most `WIDTH`, with zeros behind them.
    fn keep(self, len: u32) -> Self
        requires { len ≤ WIDTH }
        ensures { bits result ≡ take len (bits self) ++ replicate (WIDTH - len) false };

    /// The string with the bit at this place, below `WIDTH`, set.
    fn with_bit(self, i: u32) -> Self
        requires { i < WIDTH }
        ensures { bits result ≡ slice_set (bits self) i true };

    /// The number that the bits from `from` to `to` spell, five of them at most; `to` is at most `WIDTH`.
    fn number_between(self, from: u32, to: u32) -> u32
        requires order { from ≤ to }
        requires few { to ≤ from + 5 }
        requires within { to ≤ WIDTH }
        ensures { result ≡ number (drop from (take to (bits self))) }
    {
        let mut spelled = 0;
        for i in from..to {
            spelled = 2 * spelled + u32::from(self.bit(i));
        }
        spelled
    }

    /// The first `len` bits of the string, then a number in `count` bits, five at most, then zeros.
    ///
    /// The number is below 2 to the power of `count`, and `len + count` is at most `WIDTH`.
    fn with_number(self, len: u32, number: u32, count: u32) -> Self
        requires few { count ≤ 5 }
        requires within { len + count ≤ WIDTH }
        requires below { number < 2 ^ count }
        ensures { bits result ≡ take len (bits self) ++ (low_bits count number ++ replicate (WIDTH - (len + count)) false) }
    {
        let mut made = self.keep(len);
        for i in 0..count {
            if (number >> (count - 1 - i)) & 1 == 1 {
                made = made.with_bit(len + i);
            }
        }
        made
    }

    /// Whether another string has the same first `len` bits, `len` at most `WIDTH`.
    fn same_front(self, other: Self, len: u32) -> bool
        requires { len ≤ WIDTH }
        ensures { IsTrue result ↔ (take len (bits self) ≡ take len (bits other)) }
    {
        for i in 0..len {
            if self.bit(i) != other.bit(i) {
                return false;
            }
        }
        true
    }

    ghost least_width_law: { 8 ≤ WIDTH };

    ghost greatest_width_law: { WIDTH ≤ 128 };

    ghost length_law: { (k : Self) → length (bits k) ≡ WIDTH };
}

/// An unsigned integer, seen as its string of bits.
///
/// As a number a key is the one that its bits spell, and so it is ordered and added.
pub trait Key: Bits + PrimInt + Zero + One + CheckedAdd {
    // A key is the number that its bits spell, and each number of so many bits is a key.
    ghost number_law: { (k : Self) → Self.fits (Self.value k) → Self.value k ≡ pos (number (Self.bits k)) };

    ghost numbers_law: { (n : ℕ) → Self.fits (pos n) ↔ (n < 2 ^ Self.WIDTH) };
}

impl Bits for u8 {
    const WIDTH: u32 = 8;

    ghost WIDTH = { 8 };

    ghost bits = { low_bits 8 };

    fn zeros() -> Self {
        0
    }

    fn from_number(n: u128) -> Self {
        n as u8
    }

    fn bit(self, i: u32) -> bool {
        (self >> (7 - i)) & 1 == 1
    }

    fn keep(self, len: u32) -> Self {
        if len == 0 {
            0
        } else {
            (self >> (8 - len)) << (8 - len)
        }
    }

    fn with_bit(self, i: u32) -> Self {
        self | (1 << (7 - i))
    }

    fn number_between(self, from: u32, to: u32) -> u32 {
        if to == 0 {
            0
        } else {
            u32::from(self >> (8 - to)) & ((1 << (to - from)) - 1)
        }
    }

    fn with_number(self, len: u32, number: u32, count: u32) -> Self {
        if count == 0 {
            self.keep(len)
        } else {
            self.keep(len) | ((number as u8) << (8 - len - count))
        }
    }

    fn same_front(self, other: Self, len: u32) -> bool {
        self.keep(len) == other.keep(len)
    }

    ghost use Rattle.std.proofs.Common.{lit≤};
    ghost use Rattle.prefix_model.proofs.KeyNumbers.{length-low_bits};

    ghost least_width_law = { lit≤ tt };

    ghost greatest_width_law = { lit≤ tt };

    ghost length_law = { length-low_bits 8 };
}

impl Key for u8 {
    ghost use Rattle.prefix_table.specs.KeyLaws.{number_of_bits, number_fits};

    ghost number_law = { number_of_bits 8 };

    ghost numbers_law = { number_fits 8 };
}

impl Bits for u16 {
    const WIDTH: u32 = 16;

    ghost WIDTH = { 16 };

    ghost bits = { low_bits 16 };

    fn zeros() -> Self {
        0
    }

    fn from_number(n: u128) -> Self {
        n as u16
    }

    fn bit(self, i: u32) -> bool {
        (self >> (15 - i)) & 1 == 1
    }

    fn keep(self, len: u32) -> Self {
        if len == 0 {
            0
        } else {
            (self >> (16 - len)) << (16 - len)
        }
    }

    fn with_bit(self, i: u32) -> Self {
        self | (1 << (15 - i))
    }

    fn number_between(self, from: u32, to: u32) -> u32 {
        if to == 0 {
            0
        } else {
            u32::from(self >> (16 - to)) & ((1 << (to - from)) - 1)
        }
    }

    fn with_number(self, len: u32, number: u32, count: u32) -> Self {
        if count == 0 {
            self.keep(len)
        } else {
            self.keep(len) | ((number as u16) << (16 - len - count))
        }
    }

    fn same_front(self, other: Self, len: u32) -> bool {
        self.keep(len) == other.keep(len)
    }

    ghost use Rattle.std.proofs.Common.{lit≤};
    ghost use Rattle.prefix_model.proofs.KeyNumbers.{length-low_bits};

    ghost least_width_law = { lit≤ tt };

    ghost greatest_width_law = { lit≤ tt };

    ghost length_law = { length-low_bits 16 };
}

impl Key for u16 {
    ghost use Rattle.prefix_table.specs.KeyLaws.{number_of_bits, number_fits};

    ghost number_law = { number_of_bits 16 };

    ghost numbers_law = { number_fits 16 };
}

impl Bits for u32 {
    const WIDTH: u32 = 32;

    ghost WIDTH = { 32 };

    ghost bits = { low_bits 32 };

    fn zeros() -> Self {
        0
    }

    fn from_number(n: u128) -> Self {
        n as u32
    }

    fn bit(self, i: u32) -> bool {
        (self >> (31 - i)) & 1 == 1
    }

    fn keep(self, len: u32) -> Self {
        if len == 0 {
            0
        } else {
            (self >> (32 - len)) << (32 - len)
        }
    }

    fn with_bit(self, i: u32) -> Self {
        self | (1 << (31 - i))
    }

    fn number_between(self, from: u32, to: u32) -> u32 {
        if to == 0 {
            0
        } else {
            (self >> (32 - to)) & ((1 << (to - from)) - 1)
        }
    }

    fn with_number(self, len: u32, number: u32, count: u32) -> Self {
        if count == 0 {
            self.keep(len)
        } else {
            self.keep(len) | (number << (32 - len - count))
        }
    }

    fn same_front(self, other: Self, len: u32) -> bool {
        self.keep(len) == other.keep(len)
    }

    ghost use Rattle.std.proofs.Common.{lit≤};
    ghost use Rattle.prefix_model.proofs.KeyNumbers.{length-low_bits};

    ghost least_width_law = { lit≤ tt };

    ghost greatest_width_law = { lit≤ tt };

    ghost length_law = { length-low_bits 32 };
}

impl Key for u32 {
    ghost use Rattle.prefix_table.specs.KeyLaws.{number_of_bits, number_fits};

    ghost number_law = { number_of_bits 32 };

    ghost numbers_law = { number_fits 32 };
}

impl Bits for u64 {
    const WIDTH: u32 = 64;

    ghost WIDTH = { 64 };

    ghost bits = { low_bits 64 };

    fn zeros() -> Self {
        0
    }

    fn from_number(n: u128) -> Self {
        n as u64
    }

    fn bit(self, i: u32) -> bool {
        (self >> (63 - i)) & 1 == 1
    }

    fn keep(self, len: u32) -> Self {
        if len == 0 {
            0
        } else {
            (self >> (64 - len)) << (64 - len)
        }
    }

    fn with_bit(self, i: u32) -> Self {
        self | (1 << (63 - i))
    }

    fn number_between(self, from: u32, to: u32) -> u32 {
        if to == 0 {
            0
        } else {
            ((self >> (64 - to)) & ((1 << (to - from)) - 1)) as u32
        }
    }

    fn with_number(self, len: u32, number: u32, count: u32) -> Self {
        if count == 0 {
            self.keep(len)
        } else {
            self.keep(len) | (u64::from(number) << (64 - len - count))
        }
    }

    fn same_front(self, other: Self, len: u32) -> bool {
        self.keep(len) == other.keep(len)
    }

    ghost use Rattle.std.proofs.Common.{lit≤};
    ghost use Rattle.prefix_model.proofs.KeyNumbers.{length-low_bits};

    ghost least_width_law = { lit≤ tt };

    ghost greatest_width_law = { lit≤ tt };

    ghost length_law = { length-low_bits 64 };
}

impl Key for u64 {
    ghost use Rattle.prefix_table.specs.KeyLaws.{number_of_bits, number_fits};

    ghost number_law = { number_of_bits 64 };

    ghost numbers_law = { number_fits 64 };
}

impl Bits for u128 {
    const WIDTH: u32 = 128;

    ghost WIDTH = { 128 };

    ghost bits = { low_bits 128 };

    fn zeros() -> Self {
        0
    }

    fn from_number(n: u128) -> Self {
        n
    }

    fn bit(self, i: u32) -> bool {
        (self >> (127 - i)) & 1 == 1
    }

    fn keep(self, len: u32) -> Self {
        if len == 0 {
            0
        } else {
            (self >> (128 - len)) << (128 - len)
        }
    }

    fn with_bit(self, i: u32) -> Self {
        self | (1 << (127 - i))
    }

    fn number_between(self, from: u32, to: u32) -> u32 {
        if to == 0 {
            0
        } else {
            ((self >> (128 - to)) & ((1 << (to - from)) - 1)) as u32
        }
    }

    fn with_number(self, len: u32, number: u32, count: u32) -> Self {
        if count == 0 {
            self.keep(len)
        } else {
            self.keep(len) | (u128::from(number) << (128 - len - count))
        }
    }

    fn same_front(self, other: Self, len: u32) -> bool {
        self.keep(len) == other.keep(len)
    }

    ghost use Rattle.std.proofs.Common.{lit≤};
    ghost use Rattle.prefix_model.proofs.KeyNumbers.{length-low_bits};

    ghost least_width_law = { lit≤ tt };

    ghost greatest_width_law = { lit≤ tt };

    ghost length_law = { length-low_bits 128 };
}

impl Key for u128 {
    ghost use Rattle.prefix_table.specs.KeyLaws.{number_of_bits, number_fits};

    ghost number_law = { number_of_bits 128 };

    ghost numbers_law = { number_fits 128 };
}

impl Bits for usize {
    const WIDTH: u32 = 64;

    ghost WIDTH = { 64 };

    ghost bits = { low_bits 64 };

    fn zeros() -> Self {
        0
    }

    fn from_number(n: u128) -> Self {
        n as usize
    }

    fn bit(self, i: u32) -> bool {
        (self >> (63 - i)) & 1 == 1
    }

    fn keep(self, len: u32) -> Self {
        if len == 0 {
            0
        } else {
            (self >> (64 - len)) << (64 - len)
        }
    }

    fn with_bit(self, i: u32) -> Self {
        self | (1 << (63 - i))
    }

    fn number_between(self, from: u32, to: u32) -> u32 {
        if to == 0 {
            0
        } else {
            ((self >> (64 - to)) & ((1 << (to - from)) - 1)) as u32
        }
    }

    fn with_number(self, len: u32, number: u32, count: u32) -> Self {
        if count == 0 {
            self.keep(len)
        } else {
            self.keep(len) | ((number as usize) << (64 - len - count))
        }
    }

    fn same_front(self, other: Self, len: u32) -> bool {
        self.keep(len) == other.keep(len)
    }

    ghost use Rattle.std.proofs.Common.{lit≤};
    ghost use Rattle.prefix_model.proofs.KeyNumbers.{length-low_bits};

    ghost least_width_law = { lit≤ tt };

    ghost greatest_width_law = { lit≤ tt };

    ghost length_law = { length-low_bits 64 };
}

impl Key for usize {
    ghost use Rattle.prefix_table.specs.KeyLaws.{number_of_bits, number_fits};

    ghost number_law = { number_of_bits 64 };

    ghost numbers_law = { number_fits 64 };
}
