//! Prefixes: the first bits of an integer.
ghost use Rattle.std.specs.Prelude.{◌≡◌, ◌↔◌, ◌-◌, ◌≤◌, ◌++◌, ℕ, false, IsTrue};
ghost use Rattle.std.specs.Prelude.{length, replicate, take};
ghost use Rattle.prefix_model.specs.Keys.{KeyBits};
ghost use Rattle.prefix_model.specs.Masks.{begins_with};
ghost use Rattle.prefix_model.specs.TableViews.{key_of};

use crate::keys::{Bits, Key};

/// What contracts see of a prefix of a type: its width, and of each prefix its bits, its length and its key.
///
/// It has no call. A type that holds prefixes can be bound by it alone, and its contracts then name no integer.
pub trait PrefixKey {
    // How many bits an address has.
    ghost WIDTH: { ℕ };

    // The bits of `repr`, host bits among them.
    ghost bits: { Self → KeyBits };

    ghost prefix_len: { Self → ℕ };

    ghost key: { Self → KeyBits };
}

/// A prefix of an address space: an integer and how many of its first bits count.
///
/// Its key is these first bits. The bits behind them, the host bits, are not part of the key. Nothing bounds the length
/// of a prefix by its width: a call that needs the bound has the condition that [`fits`] answers true.
pub trait Prefix: PrefixKey {
    /// The integer that the bits stand in. Its width is at least 8 and at most 128.
    type R: Key;

    /// The bits, with the host bits as they are.
    fn repr(&self) -> Self::R
        ensures bits { Self.R.bits result ≡ Self.bits self.now }
        ensures key { key_of (Self.R.bits result) (Self.prefix_len self.now) ≡ Self.key self.now };

    /// How many bits the key has, if the prefix fits.
    fn prefix_len(&self) -> u8
        ensures { result ≡ Self.prefix_len self.now };

    /// The prefix of the first `len` bits of `repr`, `len` at most the width. Its host bits are zero.
    fn from_repr_len(repr: Self::R, len: u8) -> Self
        requires { len ≤ Self.R.WIDTH }
        ensures length { Self.prefix_len result ≡ len }
        ensures key { Self.key result ≡ key_of (Self.R.bits repr) len }
        ensures bits { Self.bits result ≡ take len (Self.R.bits repr) ++ replicate (Self.R.WIDTH - len) false };

    /// The bits with the host bits cleared. The prefix has to fit.
    fn mask(&self) -> Self::R
        requires { Self.prefix_len self.now ≤ Self.R.WIDTH }
        ensures { Self.R.bits result ≡ Self.key self.now ++ replicate (Self.R.WIDTH - Self.prefix_len self.now) false }
    {
        self.repr().keep(u32::from(self.prefix_len()))
    }

    /// The width: how many bits an address has.
    fn num_bits() -> u32
        ensures width { result ≡ Self.R.WIDTH }
        ensures least { 8 ≤ result }
        ensures greatest { result ≤ 128 }
    {
        Self::R::WIDTH
    }

    /// Whether the other key begins with this one, or is this one. Both prefixes have to fit.
    fn contains(&self, other: &Self) -> bool
        requires own { Self.prefix_len self.now ≤ Self.R.WIDTH }
        requires other { Self.prefix_len other.now ≤ Self.R.WIDTH }
        ensures { result ≡ begins_with (Self.key self.now) (Self.key other.now) }
    {
        self.prefix_len() <= other.prefix_len()
            && same_front(self.repr(), other.repr(), u32::from(self.prefix_len()))
    }

    ghost key_law: { (p : Self) → Self.key p ≡ key_of (Self.bits p) (Self.prefix_len p) };

    ghost length_law: { (p : Self) → length (Self.bits p) ≡ Self.R.WIDTH };

    ghost width_law: { Self.R.WIDTH ≡ Self.WIDTH };
}

/// What the tables of this library ask of a prefix type: the calls of [`Prefix`] that count no addresses, with
/// integers of which no arithmetic is known.
///
/// Each prefix type has it by itself. A function bound by it serves every prefix type, and its contract carries none of
/// the traits of numbers that a [`Key`](crate::Key) has.
pub trait PrefixBits: PrefixKey {
    /// The integer that the bits stand in, [`Prefix::R`].
    type R: Bits;

    /// As [`Prefix::repr`].
    fn repr(&self) -> Self::R
        ensures bits { Self.R.bits result ≡ Self.bits self.now }
        ensures key { key_of (Self.R.bits result) (Self.prefix_len self.now) ≡ Self.key self.now };

    /// As [`Prefix::prefix_len`].
    fn prefix_len(&self) -> u8
        ensures { result ≡ Self.prefix_len self.now };

    /// As [`Prefix::from_repr_len`].
    fn from_repr_len(repr: Self::R, len: u8) -> Self
        requires { len ≤ Self.R.WIDTH }
        ensures length { Self.prefix_len result ≡ len }
        ensures key { Self.key result ≡ key_of (Self.R.bits repr) len }
        ensures bits { Self.bits result ≡ take len (Self.R.bits repr) ++ replicate (Self.R.WIDTH - len) false };

    /// As [`Prefix::mask`].
    fn mask(&self) -> Self::R
        requires { Self.prefix_len self.now ≤ Self.R.WIDTH }
        ensures { Self.R.bits result ≡ Self.key self.now ++ replicate (Self.R.WIDTH - Self.prefix_len self.now) false };

    /// As [`Prefix::contains`].
    fn contains(&self, other: &Self) -> bool
        requires own { Self.prefix_len self.now ≤ Self.R.WIDTH }
        requires other { Self.prefix_len other.now ≤ Self.R.WIDTH }
        ensures { result ≡ begins_with (Self.key self.now) (Self.key other.now) };

    ghost key_law: { (p : Self) → Self.key p ≡ key_of (Self.bits p) (Self.prefix_len p) };

    ghost length_law: { (p : Self) → length (Self.bits p) ≡ Self.R.WIDTH };

    ghost width_law: { Self.R.WIDTH ≡ Self.WIDTH };
}

impl<P: Prefix> PrefixBits for P {
    type R = <P as Prefix>::R;

    fn repr(&self) -> <P as Prefix>::R {
        Prefix::repr(self)
    }

    fn prefix_len(&self) -> u8 {
        Prefix::prefix_len(self)
    }

    fn from_repr_len(repr: <P as Prefix>::R, len: u8) -> Self {
        <P as Prefix>::from_repr_len(repr, len)
    }

    fn mask(&self) -> <P as Prefix>::R {
        Prefix::mask(self)
    }

    fn contains(&self, other: &Self) -> bool {
        Prefix::contains(self, other)
    }

    ghost key_law = { P.Prefix.key_law };

    ghost length_law = { P.Prefix.length_law };

    ghost width_law = { P.Prefix.width_law };
}

/// Whether two integers begin with the same `len` bits, `len` at most the width.
pub fn same_front<R: Bits>(a: R, b: R, len: u32) -> bool
    requires { len ≤ R.WIDTH }
    ensures { IsTrue result ↔ (take len (R.bits a) ≡ take len (R.bits b)) }
{
    a.same_front(b, len)
}

/// Whether the length of a prefix is at most its width.
pub fn fits<P: PrefixBits>(prefix: &P) -> bool
    ensures { IsTrue result ↔ (P.prefix_len prefix.now ≤ P.R.WIDTH) }
{
    u32::from(prefix.prefix_len()) <= P::R::WIDTH
}

impl<R: Bits> PrefixKey for (R, u8) {
    ghost WIDTH = { R.WIDTH };

    ghost bits = { λ p. R.bits p.0 };

    ghost prefix_len = { λ p. p.1 };

    ghost key = { λ p. key_of (R.bits p.0) p.1 };
}

impl<R: Key> Prefix for (R, u8) {
    type R = R;

    fn repr(&self) -> R {
        self.0
    }

    fn prefix_len(&self) -> u8 {
        self.1
    }

    fn from_repr_len(repr: R, len: u8) -> Self {
        (repr.keep(u32::from(len)), len)
    }

    ghost use Rattle.std.proofs.Common.{refl};

    ghost key_law = { λ p. refl };

    ghost length_law = { λ p. R.length_law p.0 };

    ghost width_law = { refl };
}
