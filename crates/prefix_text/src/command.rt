// The commands and their words.
ghost use Rattle.std.specs.Prelude.{◌≡◌, ◌≤◌, ◌^◌, ℕ, IfSome};
ghost use Rattle.prefix_text.specs.Commands.{IsWithin, bare_command, command_of, fill_command, generate_command, prefix_command};

use crate::forms::{EitherPrefix, parse_decimal, parse_prefix};

/// The most entries that `gen` generates.
const MAX_COUNT: u64 = 100_000;

/// What a run does.
#[derive(Clone, Copy)]
pub enum Command {
    /// Writes the archive of the least tables.
    Compact,
    /// Writes the archive of the least tables without a hole, with this value where there is no other.
    Fill(u32),
    /// Writes the archive of the tables without entries that say what the next one above says.
    Consistent,
    /// Tells how many nodes, entries and addresses the tables have.
    Check,
    /// Prints the entries.
    Dump,
    /// Prints the longest match of a prefix.
    Lookup(EitherPrefix),
    /// Prints the entries that cover a prefix, and whether the addresses below it all have an answer.
    Cover(EitherPrefix),
    /// Writes the archive of the entries of the lines.
    Build,
    /// Compacts the entries that a seed gives, as many as the second number says, and tells the sizes.
    Generate(u64, u32),
}

/// The command that the words give.
pub fn parse_command(words: &[String]) -> Option<Command>
    ensures exact { result ≡ command_of words.now }
    ensures within { IfSome result IsWithin }
{
    match words {
        [name] => parse_bare(name.as_str()),
        [name, value] => parse_fill(name.as_str(), value.as_bytes()),
        [name, seed, count] => parse_generate(name.as_str(), seed.as_bytes(), count.as_bytes()),
        [name, family, address, length] => parse_question(
            name.as_str(),
            family.as_bytes(),
            address.as_bytes(),
            length.as_bytes(),
        ),
        _ => None,
    }
}

/// A command without arguments.
fn parse_bare(name: &str) -> Option<Command>
    ensures exact { result ≡ bare_command name.now }
    ensures within { IfSome result IsWithin }
{
    match name {
        "compact" => Some(Command::Compact),
        "consistent" => Some(Command::Consistent),
        "check" => Some(Command::Check),
        "dump" => Some(Command::Dump),
        "build" => Some(Command::Build),
        _ => None,
    }
}

/// The command `fill`.
fn parse_fill(name: &str, value: &[u8]) -> Option<Command>
    ensures exact { result ≡ fill_command name.now value.now }
    ensures within { IfSome result IsWithin }
{
    match name {
        "fill" => Some(Command::Fill(parse_decimal(value, u64::from(u32::MAX))? as u32)),
        _ => None,
    }
}

/// The command `gen`.
fn parse_generate(name: &str, seed: &[u8], count: &[u8]) -> Option<Command>
    ensures exact { result ≡ generate_command name.now seed.now count.now }
    ensures within { IfSome result IsWithin }
{
    match name {
        "gen" => {
            let seed = parse_decimal(seed, u64::MAX)?;
            let count = parse_decimal(count, MAX_COUNT)?;
            Some(Command::Generate(seed, count as u32))
        }
        _ => None,
    }
}

/// The commands that ask about a prefix.
fn parse_question(name: &str, family: &[u8], address: &[u8], length: &[u8]) -> Option<Command>
    ensures exact { result ≡ prefix_command name.now family.now address.now length.now }
    ensures within { IfSome result IsWithin }
{
    match name {
        "lookup" => Some(Command::Lookup(parse_prefix(family, address, length)?)),
        "cover" => Some(Command::Cover(parse_prefix(family, address, length)?)),
        _ => None,
    }
}
