// The forms of numbers and prefixes in words and lines.
ghost use Rattle.std.specs.Prelude.{◌≡◌, ◌≤◌, ◌<◌, ◌^◌, ◌+◌, ◌-◌, ◌*◌, ℕ, nat_lt, IfSome, if◌then◌else◌};
ghost use Rattle.std.specs.Char.{digit_value};
ghost use Rattle.prefix_text.specs.Forms.{Fits, address_in, decimal_in, has_leading_zero, prefix_in};

use either::{Either, Left, Right};

/// A prefix of an address of 32 bits, or of one of 128.
pub type EitherPrefix = Either<(u32, u8), (u128, u8)>;

/// The most digits of an address.
const MAX_DIGITS: usize = 32;

/// A prefix, by the words of its family, its address and its length.
pub fn parse_prefix(family: &[u8], address: &[u8], length: &[u8]) -> Option<EitherPrefix>
    ensures exact { result ≡ prefix_in family.now address.now length.now }
    ensures fits { IfSome result Fits }
{
    match family {
        [b'4'] => {
            let address = parse_address(address, 8)?;
            let length = parse_decimal(length, 32)?;
            Some(Left((address as u32, length as u8)))
        }
        [b'6'] => {
            let address = parse_address(address, 32)?;
            let length = parse_decimal(length, 128)?;
            Some(Right((address, length as u8)))
        }
        _ => None,
    }
}

/// The number that decimal digits without a leading zero give, where it is at most `most`.
pub fn parse_decimal(text: &[u8], most: u64) -> Option<u64>
    ensures exact { result ≡ decimal_in most text.now }
    ensures within { IfSome result (λ n. n ≤ most) }
{
    if text.is_empty() || has_leading_zero(text) {
        return None;
    }
    let mut number: u128 = 0;
    for byte in text {
        number = number * 10 + u128::from(digit(*byte, 10)?);
        if number > u128::from(most) {
            return None;
        }
    }
    Some(number as u64)
}

/// Whether there is more than one byte, of which the first is the digit 0.
fn has_leading_zero(text: &[u8]) -> bool
    ensures { result ≡ has_leading_zero text.now }
{
    text.len() > 1 && text[0] == b'0'
}

/// The number that exactly `count` hexadecimal digits give.
fn parse_address(text: &[u8], count: usize) -> Option<u128>
    requires { count ≤ 32 }
    ensures exact { result ≡ address_in count text.now }
    ensures within { IfSome result (λ n. n < 16 ^ count) }
{
    if text.len() != count {
        return None;
    }
    let mut number: u128 = 0;
    for byte in text {
        number = number * 16 + u128::from(digit(*byte, 16)?);
    }
    Some(number)
}

/// The value of a digit of this base, a letter in either case.
fn digit(byte: u8, base: u32) -> Option<u32>
    requires least { 2 ≤ base }
    requires greatest { base ≤ 36 }
    ensures exact { result ≡ (if nat_lt (digit_value byte) base then Some (digit_value byte) else None) }
    ensures within { IfSome result (λ d. d < base) }
{
    char::from(byte).to_digit(base)
}
