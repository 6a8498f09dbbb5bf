//! Prefixes of one of two address families, and iterators over two maps, one of each family. The joint maps and sets make
//! these iterators.
#![tactic(auto)]

ghost use Rattle.std.specs.Prelude.{◌≡◌};
ghost use Rattle.either.specs.Either.{map_either};
ghost use Rattle.either.specs.declared.Either.{Either};
ghost use Rattle.either.specs.declared.Either.TheVariants.{Left, Right};

use either::{Either, Left, Right};
use prefix_table::{Prefix, PrefixBits, PrefixKey};

pub mod cover;
pub mod covering;
pub mod difference;
pub mod intersection;
pub mod iter;
mod merge;
pub mod owned;
pub mod union;

/// What contracts see of a value that is a prefix of one of two families: the families, and the prefix.
///
/// It has no call. A type that holds such prefixes can be bound by it alone, and its contracts then name no integer.
pub trait JointPrefixKey {
    /// A prefix of the first family.
    type First: PrefixKey;
    /// A prefix of the second family.
    type Second: PrefixKey;

    // The prefix, on the side of its family: the first is on the left.
    ghost prefix: { Self → Either Self.First Self.Second };
}

/// A value that is a prefix of the first family or one of the second.
///
/// Each value has one family and one prefix, and all calls tell these. What makes a prefix of a value, or takes it out
/// again, leaves it as it is, with its host bits.
pub trait JointPrefix: JointPrefixKey<First = Self::P1, Second = Self::P2> {
    /// A prefix of the first family.
    type P1: Prefix + Copy;
    /// A prefix of the second family.
    type P2: Prefix + Copy;

    /// The prefix: of the first family as `Left`, and of the second as `Right`.
    fn p1_or_p2(self) -> Either<Self::P1, Self::P2>
        ensures { result ≡ Self.prefix self };

    /// A reference to the prefix, on the same side as [`JointPrefix::p1_or_p2`].
    fn p1_or_p2_ref(&self) -> Either<&Self::P1, &Self::P2>
        ensures { map_either (λ p. p.now) (λ p. p.now) result ≡ Self.prefix self.now };

    /// The value that has this prefix of the first family.
    fn from_p1(p: &Self::P1) -> Self
        ensures { Self.prefix result ≡ Left p.now };

    /// The value that has this prefix of the second family.
    fn from_p2(p: &Self::P2) -> Self
        ensures { Self.prefix result ≡ Right p.now };
}

/// What joint tables ask of a prefix of either family: each call of [`JointPrefix`], with integers of which no arithmetic
/// is known.
///
/// Each such prefix type has it by itself. A function bound by it serves every type that is a [`JointPrefix`].
pub trait JointPrefixBits: JointPrefixKey<First = Self::P1, Second = Self::P2> {
    /// A prefix of the first family.
    type P1: PrefixBits + Copy;
    /// A prefix of the second family.
    type P2: PrefixBits + Copy;

    /// As [`JointPrefix::p1_or_p2`].
    fn p1_or_p2(self) -> Either<Self::P1, Self::P2>
        ensures { result ≡ Self.prefix self };

    /// As [`JointPrefix::p1_or_p2_ref`].
    fn p1_or_p2_ref(&self) -> Either<&Self::P1, &Self::P2>
        ensures { map_either (λ p. p.now) (λ p. p.now) result ≡ Self.prefix self.now };

    /// As [`JointPrefix::from_p1`].
    fn from_p1(p: &Self::P1) -> Self
        ensures { Self.prefix result ≡ Left p.now };

    /// As [`JointPrefix::from_p2`].
    fn from_p2(p: &Self::P2) -> Self
        ensures { Self.prefix result ≡ Right p.now };
}

impl<P: JointPrefix> JointPrefixBits for P {
    type P1 = <P as JointPrefix>::P1;

    type P2 = <P as JointPrefix>::P2;

    fn p1_or_p2(self) -> Either<<P as JointPrefix>::P1, <P as JointPrefix>::P2> {
        JointPrefix::p1_or_p2(self)
    }

    fn p1_or_p2_ref(&self) -> Either<&<P as JointPrefix>::P1, &<P as JointPrefix>::P2> {
        JointPrefix::p1_or_p2_ref(self)
    }

    fn from_p1(p: &<P as JointPrefix>::P1) -> Self {
        <P as JointPrefix>::from_p1(p)
    }

    fn from_p2(p: &<P as JointPrefix>::P2) -> Self {
        <P as JointPrefix>::from_p2(p)
    }
}

impl<P1: PrefixKey, P2: PrefixKey> JointPrefixKey for Either<P1, P2> {
    type First = P1;

    type Second = P2;

    ghost prefix = { λ e. e };
}

impl<P1: Prefix + Copy, P2: Prefix + Copy> JointPrefix for Either<P1, P2> {
    type P1 = P1;

    type P2 = P2;

    fn p1_or_p2(self) -> Either<P1, P2> {
        self
    }

    fn p1_or_p2_ref(&self) -> Either<&P1, &P2> {
        self.as_ref()
    }

    fn from_p1(p: &P1) -> Self {
        Left(*p)
    }

    fn from_p2(p: &P2) -> Self {
        Right(*p)
    }
}
