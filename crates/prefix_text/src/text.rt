// The lines that the commands print.
ghost use Rattle.std.specs.Prelude.{◌≡◌, ◌++◌, ◌+◌, ◌-◌, ◌*◌, ◌≤◌, ◌<◌, ℕ, List, length, false, codes, OnOk};
ghost use Rattle.std.specs.Fmt.{digit_glyph};
ghost use Rattle.arrayvec.specs.ArrayVec.{array_vec_len};
ghost use Rattle.prefix_text.specs.Added.{Stays};
ghost use Rattle.prefix_text.specs.Texts.{address_text, addresses_text, aggregate_text, bad_line_text, check_text, counts_text};
ghost use Rattle.prefix_text.specs.Texts.{entry_text, generated_text, hex_digits, length_of, lookup_text, number_text, prefix_text, two_text};

use crate::forms::EitherPrefix;
use crate::lines::Entry;
use arrayvec::ArrayVec;
use either::{Left, Right};
use itoa::{Buffer, Integer};
use std::alloc::AllocError;

/// What `check` tells of a table.
#[derive(Clone, Copy)]
pub struct Counts {
    /// How many nodes it has.
    pub nodes: usize,
    /// How many entries it has.
    pub entries: usize,
    /// How many addresses have an answer, or none where all have one.
    pub addresses: Option<u128>,
}

/// What `gen` tells of the two tables and their archives, before they were compacted and after.
#[derive(Clone, Copy)]
pub struct Sizes {
    /// The entries of the first table before.
    pub first_before: usize,
    /// The entries of the second table before.
    pub second_before: usize,
    /// The entries of the first table after.
    pub first_after: usize,
    /// The entries of the second table after.
    pub second_after: usize,
    /// The bytes of the archive before.
    pub bytes_before: usize,
    /// The bytes of the archive after.
    pub bytes_after: usize,
}

/// Appends the two lines of `check`.
#[tactic(auto, using(crate::proofs::TextLaws::appending))]
pub fn push_check(text: &mut Vec<u8>, first: Counts, second: Counts) -> Result<(), AllocError>
    ensures exact { OnOk result (text.new.items ≡ text.old.items ++ check_text first second) }
    ensures kept { Stays text.old.items text.new.items }
{
    push_counts(text, b"4", first)?;
    push_counts(text, b"6", second)
}

#[tactic(auto, using(crate::proofs::TextLaws::appending))]
fn push_counts(text: &mut Vec<u8>, family: &[u8], counts: Counts) -> Result<(), AllocError>
    ensures exact { OnOk result (text.new.items ≡ text.old.items ++ counts_text family.now counts) }
    ensures kept { Stays text.old.items text.new.items }
{
    push_bytes(text, family)?;
    push_number(text, b" nodes ", counts.nodes)?;
    push_number(text, b" entries ", counts.entries)?;
    push_addresses(text, counts.addresses)
}

#[tactic(auto, using(crate::proofs::TextLaws::appending))]
fn push_addresses(text: &mut Vec<u8>, addresses: Option<u128>) -> Result<(), AllocError>
    ensures exact { OnOk result (text.new.items ≡ text.old.items ++ addresses_text addresses) }
    ensures kept { Stays text.old.items text.new.items }
{
    match addresses {
        Some(number) => {
            push_bytes(text, b" addresses ")?;
            push_decimal(text, number)?;
            push_bytes(text, b"\n")
        }
        None => push_bytes(text, b" addresses all\n"),
    }
}

#[tactic(auto, using(crate::proofs::TextLaws::appending))]
fn push_number(text: &mut Vec<u8>, label: &[u8], number: usize) -> Result<(), AllocError>
    ensures exact { OnOk result (text.new.items ≡ text.old.items ++ number_text label.now number) }
    ensures kept { Stays text.old.items text.new.items }
{
    push_bytes(text, label)?;
    push_decimal(text, number)
}

/// Appends the line of `gen`.
#[tactic(auto, using(crate::proofs::TextLaws::appending))]
pub fn push_sizes(text: &mut Vec<u8>, sizes: Sizes) -> Result<(), AllocError>
    ensures exact { OnOk result (text.new.items ≡ text.old.items ++ generated_text sizes) }
    ensures kept { Stays text.old.items text.new.items }
{
    push_two(text, b"in ", sizes.first_before, sizes.second_before)?;
    push_two(text, b" out ", sizes.first_after, sizes.second_after)?;
    push_two(text, b" bytes ", sizes.bytes_before, sizes.bytes_after)?;
    push_bytes(text, b"\n")
}

#[tactic(auto, using(crate::proofs::TextLaws::appending), unfolding(crate::specs::Texts::two_text))]
fn push_two(text: &mut Vec<u8>, label: &[u8], first: usize, second: usize) -> Result<(), AllocError>
    ensures exact { OnOk result (text.new.items ≡ text.old.items ++ two_text label.now first second) }
    ensures kept { Stays text.old.items text.new.items }
{
    push_bytes(text, label)?;
    push_decimal(text, first)?;
    push_bytes(text, b" ")?;
    push_decimal(text, second)
}

/// Appends the line of `lookup`.
pub fn push_found(text: &mut Vec<u8>, found: Option<Entry>) -> Result<(), AllocError>
    ensures exact { OnOk result (text.new.items ≡ text.old.items ++ lookup_text found) }
    ensures kept { Stays text.old.items text.new.items }
{
    match found {
        Some(entry) => push_entry(text, entry),
        None => push_bytes(text, b"none\n"),
    }
}

/// Appends the last line of `cover`.
pub fn push_aggregate(text: &mut Vec<u8>, covered: bool) -> Result<(), AllocError>
    ensures exact { OnOk result (text.new.items ≡ text.old.items ++ aggregate_text covered) }
    ensures kept { Stays text.old.items text.new.items }
{
    if covered {
        push_bytes(text, b"aggregate yes\n")
    } else {
        push_bytes(text, b"aggregate no\n")
    }
}

/// Appends the line `FAMILY ADDRESS LENGTH VALUE` of an entry.
#[tactic(auto, using(crate::proofs::TextLaws::appending))]
pub fn push_entry(text: &mut Vec<u8>, entry: Entry) -> Result<(), AllocError>
    ensures exact { OnOk result (text.new.items ≡ text.old.items ++ entry_text entry) }
    ensures kept { Stays text.old.items text.new.items }
{
    push_prefix(text, entry.0)?;
    push_bytes(text, b" ")?;
    push_decimal(text, entry.1)?;
    push_bytes(text, b"\n")
}

#[tactic(auto, using(crate::proofs::TextLaws::appending))]
fn push_prefix(text: &mut Vec<u8>, prefix: EitherPrefix) -> Result<(), AllocError>
    ensures exact { OnOk result (text.new.items ≡ text.old.items ++ prefix_text prefix) }
    ensures kept { Stays text.old.items text.new.items }
{
    push_address(text, prefix)?;
    push_bytes(text, b" ")?;
    push_decimal(text, length_of(prefix))
}

fn length_of(prefix: EitherPrefix) -> u8
    ensures { result ≡ length_of prefix }
{
    match prefix {
        Left((_, length)) => length,
        Right((_, length)) => length,
    }
}

/// Appends the family and the address of a prefix.
#[tactic(auto, using(crate::proofs::TextLaws::appending))]
fn push_address(text: &mut Vec<u8>, prefix: EitherPrefix) -> Result<(), AllocError>
    ensures exact { OnOk result (text.new.items ≡ text.old.items ++ address_text prefix) }
    ensures kept { Stays text.old.items text.new.items }
{
    match prefix {
        Left((address, _)) => {
            push_bytes(text, b"4 ")?;
            push_hexadecimal(text, u128::from(address), 8)
        }
        Right((address, _)) => {
            push_bytes(text, b"6 ")?;
            push_hexadecimal(text, address, 32)
        }
    }
}

/// Appends the low hexadecimal digits of a number, in lower case.
#[tactic(auto, using(crate::proofs::TextLaws::appending))]
fn push_hexadecimal(text: &mut Vec<u8>, number: u128, count: u32) -> Result<(), AllocError>
    requires { count ≤ 32 }
    ensures exact { OnOk result (text.new.items ≡ text.old.items ++ hex_digits count number) }
    ensures kept { Stays text.old.items text.new.items }
{
    let mut place = count;
    while place > 0 {
        place -= 1;
        let digit = (number >> (4 * place)) % 16;
        push_bytes(text, &[hexadecimal_digit(digit as u8)])?;
    }
    Ok(())
}

fn hexadecimal_digit(digit: u8) -> u8
    requires { digit < 16 }
    ensures { result ≡ digit_glyph false digit }
{
    if digit < 10 {
        b'0' + digit
    } else {
        b'a' + (digit - 10)
    }
}

/// Appends a number in decimal digits.
#[tactic(auto, using(crate::proofs::TextLaws::appending))]
fn push_decimal<I: Integer>(text: &mut Vec<u8>, number: I) -> Result<(), AllocError>
    ensures exact { OnOk result (text.new.items ≡ text.old.items ++ I.text number) }
    ensures kept { Stays text.old.items text.new.items }
{
    push_bytes(text, Buffer::new().format(number).as_bytes())
}

/// Appends bytes.
#[tactic(auto, using(crate::proofs::TextLaws::appending))]
fn push_bytes(text: &mut Vec<u8>, bytes: &[u8]) -> Result<(), AllocError>
    ensures exact { OnOk result (text.new.items ≡ text.old.items ++ bytes.now) }
    ensures kept { Stays text.old.items text.new.items }
{
    text.extend_from_slice(bytes)?;
    Ok(())
}

/// The line that tells the number of the first bad line. It takes no memory.
pub fn bad_line(number: usize) -> ArrayVec<u8, 64>
    ensures { result.items ≡ bad_line_text number }
{
    let mut line = ArrayVec::new();
    push_piece(&mut line, b"prefix_app: bad line ");
    push_piece(&mut line, Buffer::new().format(number).as_bytes());
    push_piece(&mut line, b"\n");
    line
}

/// Appends bytes for which there is room.
fn push_piece(line: &mut ArrayVec<u8, 64>, piece: &[u8])
    requires { array_vec_len line.old + length piece.now ≤ 64 }
    ensures items { line.new.items ≡ line.old.items ++ piece.now }
    ensures len { array_vec_len line.new ≡ array_vec_len line.old + length piece.now }
{
    let _ = line.try_extend_from_slice(piece);
}
