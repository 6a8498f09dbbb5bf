//! Values as bytes.
ghost use Rattle.std.specs.Prelude.{◌≡◌, ◌≤◌, ℕ, length, IfOk, IsOk, true};
ghost use Rattle.prefix_model.specs.Spelling.{Codec, HasSpelling, IsLawful};
ghost use Rattle.prefix_layout.specs.Codecs.{byte_order, TellsApart, OrdersBytes};
ghost use Rattle.std.specs.Int.{w8, w16, w32, w64, w128, from_le_bytes};

use std::alloc::{AllocError, Global};
use std::cmp::Ordering;

/// A type whose values are spelled in `SIZE` bytes each.
pub trait ValueCodec: Ord + Sized {
    /// How many bytes a value has, at most 65,536.
    const SIZE: usize;

    ghost SIZE: { ℕ };

    /// How a value is spelled, which bytes are accepted, and the value that is read from them.
    ghost codec: { Codec Self };

    /// Writes the value into `SIZE` bytes.
    fn write(&self, out: &mut [u8])
        requires { length out.old ≡ SIZE }
        ensures bytes { out.new ≡ codec.spell self.now }
        ensures spelled { HasSpelling codec self.now };

    /// Whether `SIZE` bytes spell a value.
    fn check(bytes: &[u8]) -> bool
        requires { length bytes.now ≡ SIZE }
        ensures { result ≡ codec.accepted bytes.now };

    /// The value that accepted bytes spell, or want of memory.
    fn read(alloc: Global, bytes: &[u8]) -> Result<Self, AllocError>
        requires len { length bytes.now ≡ SIZE }
        requires accepted { codec.accepted bytes.now ≡ true }
        ensures { IfOk result (λ value. value ≡ codec.read bytes.now) };

    /// The order of the values that accepted bytes spell.
    fn compare(left: &[u8], right: &[u8]) -> Ordering
        requires left_len { length left.now ≡ SIZE }
        requires right_len { length right.now ≡ SIZE }
        requires left_accepted { codec.accepted left.now ≡ true }
        requires right_accepted { codec.accepted right.now ≡ true }
        ensures { result ≡ byte_order codec Self.cmp left.now right.now };

    ghost size_is: { codec.size ≡ SIZE };

    ghost small: { SIZE ≤ 65536 };

    ghost lawful: { IsLawful codec };

    ghost apart: { TellsApart codec Self.cmp };
}

/// To compare bytes orders the accepted ones, tells them all apart, and orders spellings as their values.
pub fn codecs_order_bytes<T: ValueCodec>()
    ensures { OrdersBytes T.codec T.cmp }
{}

/// The number of a byte.
fn u8_of(bytes: &[u8]) -> u8
    requires { length bytes.now ≡ 1 }
    ensures { result ≡ from_le_bytes w8 bytes.now }
{
    bytes[0]
}

impl ValueCodec for u8 {
    ghost use Rattle.std.proofs.Common.{refl, lit≤};
    ghost use Rattle.std.specs.FinMap.{nat_cmp-IsAntisymmetric};
    ghost use Rattle.prefix_model.specs.Spelling.{number_codec};
    ghost use Rattle.prefix_model.proofs.Archive.Codecs.{numbers_lawful};

    const SIZE: usize = 1;

    ghost SIZE = { 1 };

    ghost codec = { number_codec w8 };

    fn write(&self, out: &mut [u8]) {
        out.copy_from_slice(&self.to_le_bytes());
    }

    fn check(_bytes: &[u8]) -> bool {
        true
    }

    fn read(_alloc: Global, bytes: &[u8]) -> Result<u8, AllocError>
        requires { length bytes.now ≡ 1 }
        ensures ok { IsOk result }
        ensures value { IfOk result (λ value. value ≡ from_le_bytes w8 bytes.now) }
    {
        Ok(u8_of(bytes))
    }

    fn compare(left: &[u8], right: &[u8]) -> Ordering {
        u8_of(left).cmp(&u8_of(right))
    }

    ghost size_is = { refl };

    ghost small = { lit≤ tt };

    ghost lawful = { (numbers_lawful w8).lawful };

    ghost apart = { λ a b _ _ e. nat_cmp-IsAntisymmetric a b e };
}

/// The number of 2 bytes, the least significant first.
fn u16_of(bytes: &[u8]) -> u16
    requires { length bytes.now ≡ 2 }
    ensures { result ≡ from_le_bytes w16 bytes.now }
{
    u16::from_le_bytes([bytes[0], bytes[1]])
}

impl ValueCodec for u16 {
    ghost use Rattle.std.proofs.Common.{refl, lit≤};
    ghost use Rattle.std.specs.FinMap.{nat_cmp-IsAntisymmetric};
    ghost use Rattle.prefix_model.specs.Spelling.{number_codec};
    ghost use Rattle.prefix_model.proofs.Archive.Codecs.{numbers_lawful};

    const SIZE: usize = 2;

    ghost SIZE = { 2 };

    ghost codec = { number_codec w16 };

    fn write(&self, out: &mut [u8]) {
        out.copy_from_slice(&self.to_le_bytes());
    }

    fn check(_bytes: &[u8]) -> bool {
        true
    }

    fn read(_alloc: Global, bytes: &[u8]) -> Result<u16, AllocError>
        requires { length bytes.now ≡ 2 }
        ensures ok { IsOk result }
        ensures value { IfOk result (λ value. value ≡ from_le_bytes w16 bytes.now) }
    {
        Ok(u16_of(bytes))
    }

    fn compare(left: &[u8], right: &[u8]) -> Ordering {
        u16_of(left).cmp(&u16_of(right))
    }

    ghost size_is = { refl };

    ghost small = { lit≤ tt };

    ghost lawful = { (numbers_lawful w16).lawful };

    ghost apart = { λ a b _ _ e. nat_cmp-IsAntisymmetric a b e };
}

/// The number of 4 bytes, the least significant first.
fn u32_of(bytes: &[u8]) -> u32
    requires { length bytes.now ≡ 4 }
    ensures { result ≡ from_le_bytes w32 bytes.now }
{
    u32::from_le_bytes([bytes[0], bytes[1], bytes[2], bytes[3]])
}

impl ValueCodec for u32 {
    ghost use Rattle.std.proofs.Common.{refl, lit≤};
    ghost use Rattle.std.specs.FinMap.{nat_cmp-IsAntisymmetric};
    ghost use Rattle.prefix_model.specs.Spelling.{number_codec};
    ghost use Rattle.prefix_model.proofs.Archive.Codecs.{numbers_lawful};

    const SIZE: usize = 4;

    ghost SIZE = { 4 };

    ghost codec = { number_codec w32 };

    fn write(&self, out: &mut [u8]) {
        out.copy_from_slice(&self.to_le_bytes());
    }

    fn check(_bytes: &[u8]) -> bool {
        true
    }

    fn read(_alloc: Global, bytes: &[u8]) -> Result<u32, AllocError>
        requires { length bytes.now ≡ 4 }
        ensures ok { IsOk result }
        ensures value { IfOk result (λ value. value ≡ from_le_bytes w32 bytes.now) }
    {
        Ok(u32_of(bytes))
    }

    fn compare(left: &[u8], right: &[u8]) -> Ordering {
        u32_of(left).cmp(&u32_of(right))
    }

    ghost size_is = { refl };

    ghost small = { lit≤ tt };

    ghost lawful = { (numbers_lawful w32).lawful };

    ghost apart = { λ a b _ _ e. nat_cmp-IsAntisymmetric a b e };
}

/// The number of 8 bytes, the least significant first.
fn u64_of(bytes: &[u8]) -> u64
    requires { length bytes.now ≡ 8 }
    ensures { result ≡ from_le_bytes w64 bytes.now }
{
    u64::from_le_bytes([
        bytes[0], bytes[1], bytes[2], bytes[3], bytes[4], bytes[5], bytes[6], bytes[7],
    ])
}

impl ValueCodec for u64 {
    ghost use Rattle.std.proofs.Common.{refl, lit≤};
    ghost use Rattle.std.specs.FinMap.{nat_cmp-IsAntisymmetric};
    ghost use Rattle.prefix_model.specs.Spelling.{number_codec};
    ghost use Rattle.prefix_model.proofs.Archive.Codecs.{numbers_lawful};

    const SIZE: usize = 8;

    ghost SIZE = { 8 };

    ghost codec = { number_codec w64 };

    fn write(&self, out: &mut [u8]) {
        out.copy_from_slice(&self.to_le_bytes());
    }

    fn check(_bytes: &[u8]) -> bool {
        true
    }

    fn read(_alloc: Global, bytes: &[u8]) -> Result<u64, AllocError>
        requires { length bytes.now ≡ 8 }
        ensures ok { IsOk result }
        ensures value { IfOk result (λ value. value ≡ from_le_bytes w64 bytes.now) }
    {
        Ok(u64_of(bytes))
    }

    fn compare(left: &[u8], right: &[u8]) -> Ordering {
        u64_of(left).cmp(&u64_of(right))
    }

    ghost size_is = { refl };

    ghost small = { lit≤ tt };

    ghost lawful = { (numbers_lawful w64).lawful };

    ghost apart = { λ a b _ _ e. nat_cmp-IsAntisymmetric a b e };
}

/// The number of 16 bytes, the least significant first.
fn u128_of(bytes: &[u8]) -> u128
    requires { length bytes.now ≡ 16 }
    ensures { result ≡ from_le_bytes w128 bytes.now }
{
    u128::from_le_bytes([
        bytes[0], bytes[1], bytes[2], bytes[3], bytes[4], bytes[5], bytes[6], bytes[7], bytes[8],
        bytes[9], bytes[10], bytes[11], bytes[12], bytes[13], bytes[14], bytes[15],
    ])
}

impl ValueCodec for u128 {
    ghost use Rattle.std.proofs.Common.{refl, lit≤};
    ghost use Rattle.std.specs.FinMap.{nat_cmp-IsAntisymmetric};
    ghost use Rattle.prefix_model.specs.Spelling.{number_codec};
    ghost use Rattle.prefix_model.proofs.Archive.Codecs.{numbers_lawful};

    const SIZE: usize = 16;

    ghost SIZE = { 16 };

    ghost codec = { number_codec w128 };

    fn write(&self, out: &mut [u8]) {
        out.copy_from_slice(&self.to_le_bytes());
    }

    fn check(_bytes: &[u8]) -> bool {
        true
    }

    fn read(_alloc: Global, bytes: &[u8]) -> Result<u128, AllocError>
        requires { length bytes.now ≡ 16 }
        ensures ok { IsOk result }
        ensures value { IfOk result (λ value. value ≡ from_le_bytes w128 bytes.now) }
    {
        Ok(u128_of(bytes))
    }

    fn compare(left: &[u8], right: &[u8]) -> Ordering {
        u128_of(left).cmp(&u128_of(right))
    }

    ghost size_is = { refl };

    ghost small = { lit≤ tt };

    ghost lawful = { (numbers_lawful w128).lawful };

    ghost apart = { λ a b _ _ e. nat_cmp-IsAntisymmetric a b e };
}

impl ValueCodec for () {
    ghost use Rattle.std.proofs.Common.{refl, lit≤};
    ghost use Rattle.prefix_model.specs.Spelling.{unit_codec};
    ghost use Rattle.prefix_model.proofs.Archive.Codecs.{unit_lawful};

    const SIZE: usize = 0;

    ghost SIZE = { 0 };

    ghost codec = { unit_codec };

    fn write(&self, _out: &mut [u8]) {}

    fn check(_bytes: &[u8]) -> bool {
        true
    }

    fn read(_alloc: Global, _bytes: &[u8]) -> Result<(), AllocError>
        ensures { IsOk result }
    {
        Ok(())
    }

    fn compare(_left: &[u8], _right: &[u8]) -> Ordering {
        Ordering::Equal
    }

    ghost size_is = { refl };

    ghost small = { lit≤ tt };

    ghost lawful = { unit_lawful };

    ghost apart = { λ a b _ _ e. refl };
}
