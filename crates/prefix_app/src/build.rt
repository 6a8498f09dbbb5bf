// Archives of lines.
ghost use Rattle.prefix_text.specs.declared.command.Command.TheVariants.{Build};
ghost use Rattle.prefix_app.specs.Endings.{Makes};
ghost use Rattle.prefix_app.specs.Outcome.{over_bytes};

use crate::ending::Ending;
use crate::tables::{First, Second, store, write};
use prefix_map::PrefixMap;
use prefix_text::{first_bad_line, parse_entry, split_line};
use std::alloc::Global;

/// The archive of the entries of the lines, of which a later one replaces an earlier one of its key. All lines are
/// checked before the first entry is stored.
pub(crate) fn build(alloc: Global, text: &[u8]) -> Result<Vec<u8>, Ending>
    ensures { Makes (over_bytes Build text.now) result }
{
    if let Some(number) = first_bad_line(text) {
        return Err(Ending::BadLine(number));
    }
    let mut first: First = PrefixMap::new(alloc);
    let mut second: Second = PrefixMap::new(alloc);
    let mut rest = text;
    while let Some((line, more)) = split_line(rest) {
        if let Some((prefix, value)) = parse_entry(line) {
            store(&mut first, &mut second, prefix, value)?;
        }
        rest = more;
    }
    write(alloc, &first, &second)
}
