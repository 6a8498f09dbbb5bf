// The consistent table: without the entries that say what the keys above them say.
ghost use Rattle.std.specs.Prelude.{◌≡◌, ◌-◌, ◌≤◌, false, IfSome, OnOk, drop, replicate};
ghost use Rattle.std.specs.Option.{option_copied};
ghost use Rattle.prefix_model.specs.Building.{insert_all};
ghost use Rattle.prefix_model.specs.Aggregates.{unless_same, consistent_entries};
ghost use Rattle.prefix_model.specs.TableViews.{HoldsPositions, key_of, stored_from};
ghost use Rattle.prefix_table.specs.Places.{IsPlace, StandsFor};
ghost use Rattle.prefix_aggregate.specs.Places.{KeepsPositions};
ghost use Rattle.prefix_aggregate.specs.Lists.{at};

use crate::places::answer_at;
use crate::writing::store;
use prefix_table::places::{Place, half, value_at};
use prefix_table::{Bits, Table, TableWriter};
use std::alloc::AllocError;

/// A value, unless the value above is the same.
fn changed<'a, T: Eq>(value: Option<&'a T>, above: Option<&T>) -> Option<&'a T>
    ensures { option_copied result ≡ unless_same T.eq (option_copied value.entry) (option_copied above.entry) }
{
    if let (Some(here), Some(before)) = (value, above) {
        if *here == *before {
            return None;
        }
    }
    value
}

/// Stores the entries at and below a key, by its place if it has one, whose nearest entry above has another value, or is
/// absent.
pub fn store_changed<'a, R: Bits, T: Clone + Eq>(
    table: &'a Table<T>,
    consistent: &mut TableWriter<R, T>,
    place: Option<Place>,
    key: R,
    len: u32,
    above: Option<&'a T>,
) -> Result<(), AllocError>
    requires clones { (x y : T) → T.is_clone x y → y ≡ x }
    requires holds { HoldsPositions table.now }
    requires valid { IfSome place (IsPlace table.now) }
    requires place { StandsFor table.now place (key_of (R.bits key) len) }
    requires len { len ≤ R.WIDTH }
    requires rest { drop len (R.bits key) ≡ replicate (R.WIDTH - len) false }
    ensures entries { OnOk result (consistent.new.entries ≡ insert_all consistent.old.entries (at (key_of (R.bits key) len)
        (consistent_entries T.eq (R.WIDTH - len) (stored_from table.now (key_of (R.bits key) len)) (option_copied above.entry)))) }
    ensures kept { OnOk result (KeepsPositions consistent.old consistent.new) }
{
    let Some(place) = place else {
        return Ok(());
    };
    store(
        consistent,
        key,
        len,
        changed(value_at(table, &place), above),
    )?;
    if len == R::WIDTH {
        return Ok(());
    }
    let answer = answer_at(table, &place, above);
    let low = half(table, &place, 0);
    store_changed(table, consistent, low, key, len + 1, answer)?;
    let high = half(table, &place, 1);
    store_changed(table, consistent, high, key.with_bit(len), len + 1, answer)
}
