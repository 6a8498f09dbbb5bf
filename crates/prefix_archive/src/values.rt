//! The values of an archive, by their numbers.
ghost use Rattle.std.specs.Prelude.{◌≡◌, ◌==◌, ◌<◌, Some, length, slice_get, ⊤};
ghost use Rattle.std.specs.Cmp.Lexicographic.{pointwise};
ghost use Rattle.std.specs.Cmp.Rules.{comparing};
ghost use Rattle.std.specs.Ordering.{on, eq_of_both};
ghost use Rattle.std.proofs.Common.{rules};
ghost use Rattle.prefix_model.specs.InPlace.{ValuesIn};
ghost use Rattle.prefix_model.proofs.Archive.Unique.{values_in_prop};

use crate::value::ArchivedValue;
use prefix_layout::ValueCodec;
use std::alloc::AllocError;
use std::marker::PhantomData;

/// So many values, one behind the other.
pub(crate) struct Values<'a, T: ValueCodec> {
    bytes: &'a [u8],
    len: usize,
    value: PhantomData<T>,

    pub ghost list: { ValuesIn T.codec len bytes.now } by { values_in_prop T.code T.codec len bytes.now },
}

impl<'a, T: ValueCodec> Clone for Values<'a, T> {
    ghost is_clone = { λ old new. new ≡ old };

    ghost is_infallible = { λ _. ⊤ };

    fn clone(&self) -> Result<Values<'a, T>, AllocError> {
        Ok(*self)
    }
}

impl<'a, T: ValueCodec> Copy for Values<'a, T> {}

impl<'a, T: ValueCodec> Values<'a, T> {
    /// The values that the bytes spell.
    pub(crate) fn over(bytes: &'a [u8], len: usize) -> Values<'a, T>
        requires { ValuesIn T.codec len bytes.now }
        ensures bytes { result.bytes.now ≡ bytes.now }
        ensures len { result.len ≡ len }
    {
        Values {
            bytes,
            len,
            value: PhantomData,
        }
    }

    /// How many values there are.
    pub(crate) fn len(&self) -> usize
        ensures { result ≡ length self.now.list.items }
    {
        self.len
    }

    /// The value of this number, below `len`.
    pub(crate) fn at(&self, number: usize) -> ArchivedValue<'a, T>
        requires { number < length self.now.list.items }
        ensures { slice_get self.now.list.items number ≡ Some result.spelling.value }
    {
        let (_, rest) = self.bytes.split_at(number * T::SIZE);
        let (value, _) = rest.split_at(T::SIZE);
        ArchivedValue::over(value)
    }
}

impl<'a, T: ValueCodec> PartialEq for Values<'a, T> {
    ghost eq = { eq_of_both (on (λ v. v.bytes.now) (pointwise ◌==◌)) (on (λ v. v.len) ◌==◌) };

    ghost laws = { Prim.search (comparing, rules) };

    fn eq(&self, other: &Self) -> bool {
        self.bytes == other.bytes && self.len == other.len
    }
}

impl<'a, T: ValueCodec> Eq for Values<'a, T> {
    ghost laws = { Prim.search (comparing, rules) };
}
