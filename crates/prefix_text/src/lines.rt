// Lines of text, and the entries that they give.
ghost use Rattle.std.specs.Prelude.{◌≡◌, ◌+◌, ◌-◌, ◌≤◌, ◌<◌, ◌==◌, ℕ, [], ◌∷◌, length, IfSome, MatchOption};
ghost use Rattle.std.specs.List.{position, slice_split};
ghost use Rattle.prefix_text.specs.Lines.{entry_of, first_bad, is_entry, lines};
ghost use Rattle.prefix_text.specs.Forms.{Fits};

use crate::forms::{EitherPrefix, parse_decimal, parse_prefix};

/// The byte that ends a line.
const NEWLINE: u8 = b'\n';

/// The byte between two words of a line.
const SPACE: u8 = b' ';

/// A prefix and its value.
pub type Entry = (EitherPrefix, u32);

/// The number, from 1, of the first line that is no entry.
pub fn first_bad_line(text: &[u8]) -> Option<usize>
    ensures { result ≡ first_bad is_entry 1 (lines text.now) }
{
    let mut rest = text;
    let mut number = 1;
    while let Some((line, more)) = split_line(rest) {
        if parse_entry(line).is_none() {
            return Some(number);
        }
        number += 1;
        rest = more;
    }
    None
}

/// The entry of a line.
pub fn parse_entry(line: &[u8]) -> Option<Entry>
    ensures exact { result ≡ entry_of line.now }
    ensures fits { IfSome result (λ entry. Fits entry.0) }
{
    let (family, rest) = split_word(line)?;
    let (address, rest) = split_word(rest)?;
    let (length, value) = split_word(rest)?;
    match split_word(value) {
        Some(_) => None,
        None => {
            let prefix = parse_prefix(family, address, length)?;
            let value = parse_decimal(value, u64::from(u32::MAX))?;
            Some((prefix, value as u32))
        }
    }
}

/// The first line and what stands behind it, or none where there is no line.
pub fn split_line(text: &[u8]) -> Option<(&[u8], &[u8])>
    ensures { MatchOption result (lines text.now ≡ [])
        (λ r. (lines text.now ≡ r.0.now ∷ lines r.1.now) × (length r.1.now < length text.now)) }
{
    if text.is_empty() {
        return None;
    }
    match position_of(text, NEWLINE) {
        Some(end) => Some((&text[..end], &text[end + 1..])),
        None => Some((text, &[])),
    }
}

/// The first word and what stands behind the space that ends it, or none where there is no space.
pub fn split_word(line: &[u8]) -> Option<(&[u8], &[u8])>
    ensures { MatchOption result (slice_split (λ c. c == 32) line.now ≡ line.now ∷ [])
        (λ r. slice_split (λ c. c == 32) line.now ≡ r.0.now ∷ slice_split (λ c. c == 32) r.1.now) }
{
    match position_of(line, SPACE) {
        Some(end) => Some((&line[..end], &line[end + 1..])),
        None => None,
    }
}

/// Where a byte stands first.
fn position_of(text: &[u8], byte: u8) -> Option<usize>
    ensures { result ≡ position (λ c. c == byte) text.now }
{
    text.iter().position(|other| *other == byte)
}
