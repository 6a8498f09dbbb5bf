// The commands, each over the bytes of its input.
ghost use Rattle.std.specs.Prelude.{◌≡◌, ◌≤◌, ◌<◌, ◌^◌, IfOk};
ghost use Rattle.std.specs.FinMap as map;
ghost use Rattle.std.specs.Option.{option_map};
ghost use Rattle.prefix_text.specs.Commands.{IsWithin};
ghost use Rattle.prefix_text.specs.Forms.{Fits};
ghost use Rattle.prefix_text.specs.Texts.{lookup_text};
ghost use Rattle.prefix_text.specs.declared.command.Command.TheVariants.{Compact};
ghost use Rattle.prefix_app.specs.Endings.{Makes};
ghost use Rattle.prefix_app.specs.Outcome.{first_line, gives, key_in, looked_up, over_bytes, second_line, writes};
ghost use Rattle.prefix_app.specs.Questions.{consistent_of, fill_of, longest};
ghost use Rattle.prefix_app.specs.Steps.{Gives};

use crate::archives;
use crate::build::build;
use crate::ending::Ending;
use crate::generate::generate;
use crate::tables::{First, Second, write};
use either::{Left, Right};
use prefix_joint_archive::{ArchivedJointPrefixMap, compact_archive};
use prefix_text::{Command, EitherPrefix, Entry, push_found};
use std::alloc::{AllocError, Global};

/// The two tables of an archive, read in place.
pub(crate) type Archive<'a> = ArchivedJointPrefixMap<'a, EitherPrefix, u32>;

/// The output of a command over the bytes of its input, or how it ends without one.
pub(crate) fn answer(alloc: Global, command: Command, bytes: &[u8]) -> Result<Vec<u8>, Ending>
    requires { IsWithin command }
    ensures made { Makes (over_bytes command bytes.now) result }
    ensures compacted { command ≡ Compact → IfOk result (λ output. Gives bytes.now output.items) }
{
    match command {
        Command::Compact => compact(alloc, bytes),
        Command::Fill(value) => archives::fill(alloc, bytes, value),
        Command::Consistent => archives::consistent(alloc, bytes),
        Command::Check => archives::check(alloc, bytes),
        Command::Dump => archives::dump(alloc, bytes),
        Command::Lookup(prefix) => archives::lookup(alloc, bytes, prefix),
        Command::Cover(prefix) => archives::cover(alloc, bytes, prefix),
        Command::Build => build(alloc, bytes),
        Command::Generate(seed, count) => generate(alloc, seed, count),
    }
}

/// The archive of the least tables.
fn compact(alloc: Global, bytes: &[u8]) -> Result<Vec<u8>, Ending>
    ensures made { Makes (over_bytes Compact bytes.now) result }
    ensures given { IfOk result (λ output. Gives bytes.now output.items) }
{
    match compact_archive::<EitherPrefix, u32>(alloc, bytes) {
        Ok(output) => Ok(output),
        Err(error) => Err(Ending::Archive(error)),
    }
}

/// The archive of the least tables without a hole, with this value where there was none.
pub(crate) fn fill(alloc: Global, archive: Archive, value: u32) -> Result<Vec<u8>, Ending>
    ensures { Makes (writes (fill_of 32 archive.entry.t1.table.entries value) (fill_of 128 archive.entry.t2.table.entries value)) result }
{
    let first = filled_first(alloc, archive, value)?;
    let second = filled_second(alloc, archive, value)?;
    write(alloc, &first, &second)
}

/// The least table of 32 bits without a hole.
fn filled_first(alloc: Global, archive: Archive, value: u32) -> Result<First, AllocError>
    ensures { IfOk result (λ first. first.entries ≡ fill_of 32 archive.entry.t1.table.entries value) }
{
    let mut first = first_of(alloc, archive)?;
    first.aggregate_fill(|| value)?;
    Ok(first)
}

/// The least table of 128 bits without a hole.
fn filled_second(alloc: Global, archive: Archive, value: u32) -> Result<Second, AllocError>
    ensures { IfOk result (λ second. second.entries ≡ fill_of 128 archive.entry.t2.table.entries value) }
{
    let mut second = second_of(alloc, archive)?;
    second.aggregate_fill(|| value)?;
    Ok(second)
}

/// The archive of the tables without the entries that say what the next one above says.
pub(crate) fn consistent(alloc: Global, archive: Archive) -> Result<Vec<u8>, Ending>
    ensures { Makes (writes (consistent_of archive.entry.t1.table.entries) (consistent_of archive.entry.t2.table.entries)) result }
{
    let mut first = first_of(alloc, archive)?;
    first.aggregate_consistent()?;
    let mut second = second_of(alloc, archive)?;
    second.aggregate_consistent()?;
    write(alloc, &first, &second)
}

/// The live table of 32 bits.
fn first_of(alloc: Global, archive: Archive) -> Result<First, AllocError>
    ensures entries { IfOk result (λ first. first.entries ≡ archive.entry.t1.table.entries) }
    ensures few { IfOk result (λ first. map.len first.entries < 2 ^ 62) }
{
    match archive.t1.deserialize(alloc) {
        Ok(first) => Ok(first),
        Err(_) => Err(AllocError),
    }
}

/// The live table of 128 bits.
fn second_of(alloc: Global, archive: Archive) -> Result<Second, AllocError>
    ensures entries { IfOk result (λ second. second.entries ≡ archive.entry.t2.table.entries) }
    ensures few { IfOk result (λ second. map.len second.entries < 2 ^ 62) }
{
    match archive.t2.deserialize(alloc) {
        Ok(second) => Ok(second),
        Err(_) => Err(AllocError),
    }
}

/// The line of the longest match of a prefix.
pub(crate) fn lookup(
    alloc: Global,
    archive: Archive,
    prefix: EitherPrefix,
) -> Result<Vec<u8>, Ending>
    requires { Fits prefix }
    ensures { Makes (gives (lookup_text (looked_up prefix archive.entry.t1.table.entries archive.entry.t2.table.entries))) result }
{
    match prefix {
        Left(prefix) => line_of_match(alloc, first_match(alloc, archive, prefix)?),
        Right(prefix) => line_of_match(alloc, second_match(alloc, archive, prefix)?),
    }
}

/// The line of a match.
fn line_of_match(alloc: Global, found: Option<Entry>) -> Result<Vec<u8>, Ending>
    ensures { Makes (gives (lookup_text found)) result }
{
    let mut text = Vec::new(alloc);
    push_found(&mut text, found)?;
    Ok(text)
}

/// The longest match of a prefix of 32 bits.
fn first_match(
    alloc: Global,
    archive: Archive,
    prefix: (u32, u8),
) -> Result<Option<Entry>, AllocError>
    requires { prefix.1 ≤ 32 }
    ensures { IfOk result (λ found. found ≡ option_map first_line (longest archive.entry.t1.table.entries (key_in 32 prefix))) }
{
    match archive.t1.get_lpm(&prefix) {
        Some((found, value)) => match value.to_native(alloc) {
            Ok(value) => Ok(Some((Left(found), value))),
            Err(error) => Err(error),
        },
        None => Ok(None),
    }
}

/// The longest match of a prefix of 128 bits.
fn second_match(
    alloc: Global,
    archive: Archive,
    prefix: (u128, u8),
) -> Result<Option<Entry>, AllocError>
    requires { prefix.1 ≤ 128 }
    ensures { IfOk result (λ found. found ≡ option_map second_line (longest archive.entry.t2.table.entries (key_in 128 prefix))) }
{
    match archive.t2.get_lpm(&prefix) {
        Some((found, value)) => match value.to_native(alloc) {
            Ok(value) => Ok(Some((Right(found), value))),
            Err(error) => Err(error),
        },
        None => Ok(None),
    }
}
