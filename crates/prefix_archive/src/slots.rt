//! Bits of a word, by their numbers.
ghost use Rattle.std.specs.Prelude.{◌≡◌, ◌==◌, ◌<◌, ◌≤◌};
ghost use Rattle.std.specs.Int.{bit_at};
ghost use Rattle.prefix_model.specs.InPlace as in_place;

/// Whether a bit is set.
#[inline]
pub(crate) fn is_set(bits: u32, place: u32) -> bool
    requires { place < 32 }
    ensures { result ≡ (bit_at bits place == 1) }
{
    (bits >> place) & 1 == 1
}

/// How many bits are set below a place.
#[inline]
pub(crate) fn bits_below(bits: u32, place: u32) -> usize
    requires { place < 32 }
    ensures count { result ≡ in_place.bits_below place bits }
    ensures few { result ≤ 32 }
{
    (bits & ((1 << place) - 1)).count_ones() as usize
}
