// Places of a table, one for each key of a node.
ghost use Rattle.std.specs.Prelude.{◌≡◌, ◌==◌, ◌+◌, ◌<◌, ◌++◌, ◌∷◌, [], ℕ, false, Some, None, IfSome, IsTrue};
ghost use Rattle.std.specs.Int.{bit_at};
ghost use Rattle.std.specs.Option.{option_copied};
ghost use Rattle.std.specs.FinMap as map;
ghost use Rattle.prefix_model.specs.Keys.{KeyBits};
ghost use Rattle.prefix_model.specs.TableViews.{HoldsPositions, stored_from};
ghost use Rattle.prefix_table.specs.Places.{IsPlace, StandsFor, key_at};

use crate::tables::{NodeAt, Table};

/// A key of a node: the node, how many bits the key has beyond the node's, and the number that they spell.
#[derive(Clone, Copy)]
pub struct Place {
    pub at: NodeAt,
    pub level: u32,
    pub number: u32,
}

/// The place of the empty key.
pub fn root_place<T>(table: &Table<T>) -> Place
    ensures place { IsPlace table.now result }
    ensures root { StandsFor table.now (Some result) [] }
    ensures holds { HoldsPositions table.now }
{
    Place {
        at: table.root(),
        level: 0,
        number: 0,
    }
}

/// The value that is stored at a place.
pub fn value_at<'a, T>(table: &'a Table<T>, place: &Place) -> Option<&'a T>
    requires { IsPlace table.now place.now }
    ensures { option_copied result ≡ map.get table.now.entries (key_at table.now place.now) }
{
    let bit = (1 << place.level) - 1 + place.number;
    if (table.node(place.at).data_bits >> bit) & 1 == 1 {
        Some(table.value(place.at, bit))
    } else {
        None
    }
}

/// Whether one of `count` bits is set, from bit `start` on.
fn any_between(bits: u32, start: u32, count: u32) -> bool
    requires start { start < 32 }
    requires count { count < 32 }
    ensures { result ≡ false → (i : ℕ) → i < count → bit_at bits (start + i) ≡ 0 }
{
    (bits >> start) & ((1 << count) - 1) != 0
}

/// Whether the node has no value and no child at this place and below it. The place is not that of the node itself.
fn is_bare<T>(table: &Table<T>, place: &Place) -> bool
    requires holds { HoldsPositions table.now }
    requires place { IsPlace table.now place.now }
    requires below { 0 < place.now.level }
    ensures { IsTrue result → (q : KeyBits) → stored_from table.now (key_at table.now place.now) q ≡ None }
{
    let bits = table.node(place.at);
    let mut start = place.number;
    let mut count = 1;
    for level in place.level..5 {
        if any_between(bits.data_bits, (1 << level) - 1 + start, count) {
            return false;
        }
        start *= 2;
        count *= 2;
    }
    !any_between(bits.child_bits, start, count)
}

/// The place of one half; none where nothing is stored in it, as far as the node tells.
pub fn half<T>(table: &Table<T>, place: &Place, bit: u32) -> Option<Place>
    requires holds { HoldsPositions table.now }
    requires place { IsPlace table.now place.now }
    requires bit { bit < 2 }
    ensures valid { IfSome result (IsPlace table.now) }
    ensures place { StandsFor table.now result (key_at table.now place.now ++ ((bit == 1) ∷ [])) }
{
    let number = 2 * place.number + bit;
    if place.level < 4 {
        let below = Place {
            at: place.at,
            level: place.level + 1,
            number,
        };
        if is_bare(table, &below) {
            None
        } else {
            Some(below)
        }
    } else {
        match table.child(place.at, number) {
            Some(at) => Some(Place {
                at,
                level: 0,
                number: 0,
            }),
            None => None,
        }
    }
}
