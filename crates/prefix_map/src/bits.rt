//! Bits of a word, by their numbers.
ghost use Rattle.std.specs.Prelude.{◌≡◌, ◌+◌, ◌-◌, ◌^◌, ◌<◌, ◌≤◌, ℕ, Some, MatchOption, slice_get};
ghost use Rattle.std.specs.Int.{bit_at};
ghost use Rattle.prefix_model.specs.Keys.{low_bits};
ghost use Rattle.prefix_model.specs.Positions.{data_places};
ghost use Rattle.prefix_model.specs.Hits.{IsHighest, IsLowestFrom};

/// The highest bit that is set; `None` where none is.
#[inline]
pub fn highest(bits: u32) -> Option<u32>
    ensures { MatchOption result (bits ≡ 0) (IsHighest bits) }
{
    if bits == 0 {
        return None;
    }
    Some(31 - bits.leading_zeros())
}

/// The lowest bit that is set at a place or above it; `None` where none is.
#[inline]
pub fn lowest_from(bits: u32, place: u32) -> Option<u32>
    requires { place < 32 }
    ensures { MatchOption result ((i : ℕ) → place ≤ i → bit_at bits i ≡ 0) (IsLowestFrom bits place) }
{
    let above = bits >> place;
    if above == 0 {
        return None;
    }
    Some(place + above.trailing_zeros())
}

/// The level of a data bit, below 5: how many bits its place has.
pub fn level_of(data_bit: u32) -> u32
    requires { data_bit < 31 }
    ensures place { slice_get data_places data_bit ≡ Some (low_bits result (data_bit + 1 - 2 ^ result)) }
    ensures from { 2 ^ result ≤ data_bit + 1 }
    ensures limit { result < 5 }
{
    31 - (data_bit + 1).leading_zeros()
}
