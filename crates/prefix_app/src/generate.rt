// Tables from a seed.
ghost use Rattle.std.specs.Prelude.{◌≡◌, IfOk, OnOk};
ghost use Rattle.prefix_text.specs.Generator.{generated};
ghost use Rattle.prefix_text.specs.Texts.{generated_text};
ghost use Rattle.prefix_app.specs.Compacted.{least};
ghost use Rattle.prefix_app.specs.Endings.{Makes};
ghost use Rattle.prefix_app.specs.Outcome.{generates, gives, sizes};

use crate::ending::Ending;
use crate::tables::{First, Second, store, write};
use prefix_map::PrefixMap;
use prefix_text::{Generator, Sizes, push_sizes};
use std::alloc::{AllocError, Global};

/// The line of the sizes of the tables of a seed, and of those that they are compacted to.
pub(crate) fn generate(alloc: Global, seed: u64, count: u32) -> Result<Vec<u8>, Ending>
    ensures { Makes (gives (generates (generated count seed))) result }
{
    let mut first: First = PrefixMap::new(alloc);
    let mut second: Second = PrefixMap::new(alloc);
    let mut generator = Generator::new(seed);
    let mut left = count;
    while left > 0 {
        let (prefix, value) = generator.next_entry();
        store(&mut first, &mut second, prefix, value)?;
        left -= 1;
    }
    let text = line_of_sizes(alloc, first, second)?;
    Ok(text)
}

/// The line of the sizes of these tables, and of those that they are compacted to. A seed gives so few entries that an
/// archive has room for them: all that can be wanting is memory.
fn line_of_sizes(alloc: Global, first: First, second: Second) -> Result<Vec<u8>, AllocError>
    ensures { IfOk result (λ text. text.items ≡ generated_text (sizes first.entries second.entries)) }
{
    let mut first = first;
    let mut second = second;
    let first_before = first.len();
    let second_before = second.len();
    let bytes_before = match write(alloc, &first, &second) {
        Ok(bytes) => bytes.len(),
        Err(_) => return Err(AllocError),
    };
    if let Err(error) = aggregate_first(&mut first) {
        return Err(error);
    }
    if let Err(error) = aggregate_second(&mut second) {
        return Err(error);
    }
    let first_after = first.len();
    let second_after = second.len();
    let bytes_after = match write(alloc, &first, &second) {
        Ok(bytes) => bytes.len(),
        Err(_) => return Err(AllocError),
    };
    let sizes = Sizes {
        first_before,
        second_before,
        first_after,
        second_after,
        bytes_before,
        bytes_after,
    };
    line_of(alloc, sizes)
}

/// Compacts the table of 32 bits.
fn aggregate_first(first: &mut First) -> Result<(), AllocError>
    ensures { OnOk result (first.new.entries ≡ least 32 first.old.entries) }
{
    first.aggregate()
}

/// Compacts the table of 128 bits.
fn aggregate_second(second: &mut Second) -> Result<(), AllocError>
    ensures { OnOk result (second.new.entries ≡ least 128 second.old.entries) }
{
    second.aggregate()
}

/// The line of sizes.
fn line_of(alloc: Global, sizes: Sizes) -> Result<Vec<u8>, AllocError>
    ensures { IfOk result (λ text. text.items ≡ generated_text sizes) }
{
    let mut text = Vec::new(alloc);
    push_sizes(&mut text, sizes)?;
    Ok(text)
}
