// What is asked of archives: all answers are found in place, with no table built.
ghost use Rattle.std.specs.Prelude.{◌≡◌, ◌≤◌, ◌++◌, OnOk};
ghost use Rattle.std.specs.FinMap.{entries};
ghost use Rattle.prefix_model.specs.Walks.{covers};
ghost use Rattle.prefix_text.specs.Forms.{Fits};
ghost use Rattle.prefix_text.specs.Texts.{check_text, cover_text, dump_text};
ghost use Rattle.prefix_app.specs.Endings.{Makes};
ghost use Rattle.prefix_app.specs.Outcome.{counts, covered, first_lines, gives, key_in, second_lines};
ghost use Rattle.prefix_app.specs.Questions.{addresses, covers_all};

use crate::commands::Archive;
use crate::ending::Ending;
use either::{Left, Right};
use prefix_text::{Counts, EitherPrefix, push_aggregate, push_check, push_entry};
use std::alloc::{AllocError, Global};

/// The lines that count the nodes, entries and addresses of both tables.
pub(crate) fn check(alloc: Global, archive: Archive) -> Result<Vec<u8>, Ending>
    ensures { Makes (gives (check_text (counts 32 archive.entry.t1.table.entries) (counts 128 archive.entry.t2.table.entries))) result }
{
    let mut text = Vec::new(alloc);
    push_check(&mut text, first_counts(archive), second_counts(archive))?;
    Ok(text)
}

fn first_counts(archive: Archive) -> Counts
    ensures { result ≡ counts 32 archive.entry.t1.table.entries }
{
    Counts {
        nodes: archive.t1.node_count(),
        entries: archive.t1.len(),
        addresses: widened(archive.t1.address_count()),
    }
}

fn second_counts(archive: Archive) -> Counts
    ensures { result ≡ counts 128 archive.entry.t2.table.entries }
{
    Counts {
        nodes: archive.t2.node_count(),
        entries: archive.t2.len(),
        addresses: archive.t2.address_count(),
    }
}

fn widened(count: Option<u32>) -> Option<u128>
    ensures { result ≡ count }
{
    match count {
        Some(count) => Some(u128::from(count)),
        None => None,
    }
}

/// The lines of all entries.
pub(crate) fn dump(alloc: Global, archive: Archive) -> Result<Vec<u8>, Ending>
    ensures { Makes (gives (dump_text (first_lines (entries archive.entry.t1.table.entries)
        ++ second_lines (entries archive.entry.t2.table.entries)))) result }
{
    let mut text = Vec::new(alloc);
    push_first(alloc, &mut text, archive)?;
    push_second(alloc, &mut text, archive)?;
    Ok(text)
}

/// Appends the lines of the entries of 32 bits.
fn push_first(alloc: Global, text: &mut Vec<u8>, archive: Archive) -> Result<(), AllocError>
    ensures { OnOk result (text.new.items ≡ text.old.items ++ dump_text (first_lines (entries archive.entry.t1.table.entries))) }
{
    let mut left = archive.t1.iter();
    while let Some((prefix, value)) = left.next() {
        let number = value.to_native(alloc)?;
        push_entry(text, (Left(prefix), number))?;
    }
    Ok(())
}

/// Appends the lines of the entries of 128 bits.
fn push_second(alloc: Global, text: &mut Vec<u8>, archive: Archive) -> Result<(), AllocError>
    ensures { OnOk result (text.new.items ≡ text.old.items ++ dump_text (second_lines (entries archive.entry.t2.table.entries))) }
{
    let mut left = archive.t2.iter();
    while let Some((prefix, value)) = left.next() {
        let number = value.to_native(alloc)?;
        push_entry(text, (Right(prefix), number))?;
    }
    Ok(())
}

/// The lines of the entries that cover a prefix, and whether all its addresses have an answer.
pub(crate) fn cover(
    alloc: Global,
    archive: Archive,
    prefix: EitherPrefix,
) -> Result<Vec<u8>, Ending>
    requires { Fits prefix }
    ensures { Makes (gives (covered prefix archive.entry.t1.table.entries archive.entry.t2.table.entries)) result }
{
    match prefix {
        Left(prefix) => cover_first(alloc, archive, prefix),
        Right(prefix) => cover_second(alloc, archive, prefix),
    }
}

fn cover_first(alloc: Global, archive: Archive, prefix: (u32, u8)) -> Result<Vec<u8>, Ending>
    requires { prefix.1 ≤ 32 }
    ensures { Makes (gives (cover_text (first_lines (covers archive.entry.t1.table.entries (key_in 32 prefix)))
        (covers_all 32 archive.entry.t1.table.entries (key_in 32 prefix)))) result }
{
    let mut text = Vec::new(alloc);
    push_first_covers(alloc, &mut text, archive, prefix)?;
    push_aggregate(&mut text, archive.t1.is_covered_in_aggregate(&prefix))?;
    Ok(text)
}

fn cover_second(alloc: Global, archive: Archive, prefix: (u128, u8)) -> Result<Vec<u8>, Ending>
    requires { prefix.1 ≤ 128 }
    ensures { Makes (gives (cover_text (second_lines (covers archive.entry.t2.table.entries (key_in 128 prefix)))
        (covers_all 128 archive.entry.t2.table.entries (key_in 128 prefix)))) result }
{
    let mut text = Vec::new(alloc);
    push_second_covers(alloc, &mut text, archive, prefix)?;
    push_aggregate(&mut text, archive.t2.is_covered_in_aggregate(&prefix))?;
    Ok(text)
}

/// Appends the lines of the entries of 32 bits that cover a prefix.
fn push_first_covers(
    alloc: Global,
    text: &mut Vec<u8>,
    archive: Archive,
    prefix: (u32, u8),
) -> Result<(), AllocError>
    requires { prefix.1 ≤ 32 }
    ensures { OnOk result (text.new.items ≡ text.old.items
        ++ dump_text (first_lines (covers archive.entry.t1.table.entries (key_in 32 prefix)))) }
{
    let mut left = archive.t1.cover(&prefix);
    while let Some((found, value)) = left.next() {
        let number = value.to_native(alloc)?;
        push_entry(text, (Left(found), number))?;
    }
    Ok(())
}

/// Appends the lines of the entries of 128 bits that cover a prefix.
fn push_second_covers(
    alloc: Global,
    text: &mut Vec<u8>,
    archive: Archive,
    prefix: (u128, u8),
) -> Result<(), AllocError>
    requires { prefix.1 ≤ 128 }
    ensures { OnOk result (text.new.items ≡ text.old.items
        ++ dump_text (second_lines (covers archive.entry.t2.table.entries (key_in 128 prefix)))) }
{
    let mut left = archive.t2.cover(&prefix);
    while let Some((found, value)) = left.next() {
        let number = value.to_native(alloc)?;
        push_entry(text, (Right(found), number))?;
    }
    Ok(())
}
