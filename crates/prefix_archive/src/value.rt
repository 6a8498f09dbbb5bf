//! Values as they lie in an archive.
ghost use Rattle.std.specs.Prelude.{◌≡◌, ◌==◌, ◌↔◌, IsTrue, IfOk, ⊤};
ghost use Rattle.std.specs.Cmp.Lexicographic.{pointwise};
ghost use Rattle.std.specs.Cmp.Rules.{comparing};
ghost use Rattle.std.specs.Ordering.{on};
ghost use Rattle.std.proofs.Common.{rules};
ghost use Rattle.prefix_model.specs.InPlace.{ValueIn};
ghost use Rattle.prefix_model.proofs.Archive.Unique.{value_in_prop};

use prefix_layout::ValueCodec;
use std::alloc::{AllocError, Global};
use std::marker::PhantomData;

/// A value in the bytes of an archive.
pub struct ArchivedValue<'a, T: ValueCodec> {
    bytes: &'a [u8],
    value: PhantomData<T>,

    pub ghost spelling: { ValueIn T.codec bytes.now } by { value_in_prop T.code T.codec bytes.now },
}

impl<'a, T: ValueCodec> Clone for ArchivedValue<'a, T> {
    ghost is_clone = { λ old new. new ≡ old };

    ghost is_infallible = { λ _. ⊤ };

    fn clone(&self) -> Result<ArchivedValue<'a, T>, AllocError> {
        Ok(*self)
    }
}

impl<'a, T: ValueCodec> Copy for ArchivedValue<'a, T> {}

impl<'a, T: ValueCodec> ArchivedValue<'a, T> {
    /// The value that the bytes spell.
    pub(crate) fn over(bytes: &'a [u8]) -> ArchivedValue<'a, T>
        requires { ValueIn T.codec bytes.now }
        ensures { result.spelling.value ≡ T.codec.read bytes.now }
    {
        ArchivedValue {
            bytes,
            value: PhantomData,
        }
    }

    /// The spelling of the value.
    pub fn bytes(&self) -> &'a [u8]
        ensures { result.now ≡ T.codec.spell self.now.spelling.value }
    {
        self.bytes
    }

    /// The value, or want of memory.
    pub fn to_native(&self, alloc: Global) -> Result<T, AllocError>
        ensures { IfOk result (λ value. value ≡ self.now.spelling.value) }
    {
        T::read(alloc, self.bytes)
    }
}

impl<'a, T: ValueCodec> PartialEq for ArchivedValue<'a, T> {
    ghost eq = { on (λ v. v.bytes.now) (pointwise ◌==◌) };

    ghost laws = { Prim.search (comparing, rules) };

    fn eq(&self, other: &Self) -> bool
        ensures bytes { result ≡ pointwise ◌==◌ self.now.bytes.now other.now.bytes.now }
        ensures values { IsTrue result ↔ (self.now.spelling.value ≡ other.now.spelling.value) }
    {
        self.bytes == other.bytes
    }
}

impl<'a, T: ValueCodec> Eq for ArchivedValue<'a, T> {
    ghost laws = { Prim.search (comparing, rules) };
}
