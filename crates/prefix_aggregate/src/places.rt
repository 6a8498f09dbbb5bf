// Answers at places of a table.
ghost use Rattle.std.specs.Prelude.{◌≡◌};
ghost use Rattle.std.specs.Option.{option_copied, option_or};
ghost use Rattle.std.specs.FinMap as map;
ghost use Rattle.prefix_table.specs.Places.{IsPlace, key_at};

use prefix_table::Table;
use prefix_table::places::{Place, value_at};

/// The answer at a place where a value is inherited.
pub fn answer_at<'a, T>(
    table: &'a Table<T>,
    place: &Place,
    inherited: Option<&'a T>,
) -> Option<&'a T>
    requires { IsPlace table.now place.now }
    ensures { option_copied result
        ≡ option_or (map.get table.now.entries (key_at table.now place.now)) (option_copied inherited.entry) }
{
    match value_at(table, place) {
        Some(value) => Some(value),
        None => inherited,
    }
}
