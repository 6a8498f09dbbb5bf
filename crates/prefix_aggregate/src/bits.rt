//! Bits of a node as a heap: folds from each level to the one above, pushes from each to the one below, and coverage.
//!
//! Bit `b` below 15 has the halves `2b + 1` and `2b + 2`, and bit `15 + j` the slots `2j` and `2j + 1`.
ghost use Rattle.std.specs.Prelude.{◌≡◌, ◌+◌, ◌-◌, ◌*◌, ◌/◌, ◌<◌, ◌&&◌, ℕ, max, nat_lt, if◌then◌else◌, [], ◌∷◌};
ghost use Rattle.std.specs.Int.{bit_at};
ghost use Rattle.prefix_model.specs.Bits.{any_set, both, in_level, ancestors};

/// Bits 0, 2, 4, .. of a word, as bits 0, 1, 2, ..
pub(crate) fn even_bits(word: u32) -> u32
    ensures { (b : ℕ) → bit_at result b ≡ (if nat_lt b 16 then bit_at word (2 * b) else 0) }
{
    let ones = word & 0x5555_5555;
    let twos = (ones | (ones >> 1)) & 0x3333_3333;
    let fours = (twos | (twos >> 2)) & 0x0f0f_0f0f;
    let eights = (fours | (fours >> 4)) & 0x00ff_00ff;
    (eights | (eights >> 8)) & 0x0000_ffff
}

/// Bits 0 to 15 of a word, each twice.
fn doubled(word: u32) -> u32
    ensures { (b : ℕ) → bit_at result b ≡ (if nat_lt b 32 then bit_at word (b / 2) else 0) }
{
    let whole = word & 0x0000_ffff;
    let eights = (whole | (whole << 8)) & 0x00ff_00ff;
    let fours = (eights | (eights << 4)) & 0x0f0f_0f0f;
    let twos = (fours | (fours << 2)) & 0x3333_3333;
    let ones = (twos | (twos << 1)) & 0x5555_5555;
    ones | (ones << 1)
}

/// The bits of levels 0 to 3 whose halves are both set.
fn parents(coverage: u32) -> u32
    ensures { (b : ℕ) → bit_at result b ≡ (if nat_lt b 15 then both coverage (2 * b + 1) else 0) }
{
    even_bits((coverage << 1) & coverage) >> 1
}

/// The bits of level 4 whose two slots are set.
pub fn fold_children(cc: u32) -> u32
    ensures { (b : ℕ) → bit_at result b ≡ (if in_level 4 b then both cc (2 * (b - 15)) else 0) }
{
    even_bits(cc & (cc >> 1)) << 15
}

/// The bit of level 0, where both bits of level 1 are set.
pub fn fold_l1(cov: u32) -> u32
    ensures { (b : ℕ) → bit_at result b ≡ (if in_level 0 b then both cov (2 * b + 1) else 0) }
{
    parents(cov) & 0x0000_0001
}

/// The bits of level 1 whose halves are both set.
pub fn fold_l2(cov: u32) -> u32
    ensures { (b : ℕ) → bit_at result b ≡ (if in_level 1 b then both cov (2 * b + 1) else 0) }
{
    parents(cov) & 0x0000_0006
}

/// The bits of level 2 whose halves are both set.
pub fn fold_l3(cov: u32) -> u32
    ensures { (b : ℕ) → bit_at result b ≡ (if in_level 2 b then both cov (2 * b + 1) else 0) }
{
    parents(cov) & 0x0000_0078
}

/// The bits of level 3 whose halves are both set.
pub fn fold_l4(cov: u32) -> u32
    ensures { (b : ℕ) → bit_at result b ≡ (if in_level 3 b then both cov (2 * b + 1) else 0) }
{
    parents(cov) & 0x0000_7f80
}

/// Both halves of the bit of level 0, where it is set.
pub fn push_l0(m: u32) -> u32
    ensures { (b : ℕ) → bit_at result b ≡ (if in_level 1 b then bit_at m ((b - 1) / 2) else 0) }
{
    parent_coverage(m) & 0x0000_0006
}

/// Both halves of each set bit of level 1.
pub fn push_l1(m: u32) -> u32
    ensures { (b : ℕ) → bit_at result b ≡ (if in_level 2 b then bit_at m ((b - 1) / 2) else 0) }
{
    parent_coverage(m) & 0x0000_0078
}

/// Both halves of each set bit of level 2.
pub fn push_l2(m: u32) -> u32
    ensures { (b : ℕ) → bit_at result b ≡ (if in_level 3 b then bit_at m ((b - 1) / 2) else 0) }
{
    parent_coverage(m) & 0x0000_7f80
}

/// Both halves of each set bit of level 3.
pub fn push_l3(m: u32) -> u32
    ensures { (b : ℕ) → bit_at result b ≡ (if in_level 4 b then bit_at m ((b - 1) / 2) else 0) }
{
    parent_coverage(m) & 0x7fff_8000
}

/// The two slots of each set bit of level 4.
pub fn push_l4(m: u32) -> u32
    ensures { (c : ℕ) → bit_at result c ≡ (if nat_lt c 32 then bit_at m (15 + c / 2) else 0) }
{
    doubled(m >> 15)
}

/// The bits of levels 1 to 4 whose parent is set.
pub fn parent_coverage(coverage: u32) -> u32
    ensures { (b : ℕ) → bit_at result b ≡ (if nat_lt 0 b && nat_lt b 31 then bit_at coverage ((b - 1) / 2) else 0) }
{
    doubled(coverage << 1) >> 1
}

/// The bits, set or not, that have a set data bit above them, and the slots that have one.
pub fn member_coverage(data_bits: u32) -> (u32, u32)
    ensures bits { (b : ℕ) → bit_at result.0 b ≡ (if nat_lt b 31 then any_set data_bits (ancestors b) else 0) }
    ensures slots { (c : ℕ) → bit_at result.1 c
        ≡ (if nat_lt c 32 then any_set data_bits ((15 + c / 2) ∷ ancestors (15 + c / 2)) else 0) }
{
    let first = push_l0(data_bits);
    let second = push_l1(data_bits | first);
    let third = push_l2(data_bits | second);
    let fourth = push_l3(data_bits | third);
    let slots = push_l4(data_bits | fourth);
    (first | second | third | fourth, slots)
}

/// The bits whose addresses are all covered: by a data bit, by both slots, or by both halves.
pub fn fold_coverage(data_bits: u32, child_coverage: u32) -> u32
    ensures { (b : ℕ) → bit_at result b ≡ max (bit_at data_bits b)
        (if in_level 4 b then both child_coverage (2 * (b - 15)) else if nat_lt b 15 then both result (2 * b + 1) else 0) }
{
    let mut coverage = data_bits | fold_children(child_coverage);
    coverage |= fold_l4(coverage);
    coverage |= fold_l3(coverage);
    coverage |= fold_l2(coverage);
    coverage | fold_l1(coverage)
}
