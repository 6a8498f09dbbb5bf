ghost use Rattle.std.specs.Prelude.{◌≡◌, ◌≤◌, IfSome, OnOk, length};
ghost use Rattle.std.specs.Iterator.{at_most};
ghost use Rattle.prefix_map.specs.MapViews.{with_entry};

use prefix_map::map::Entry;
use prefix_map::{PrefixMap, PrefixSet};
use prefix_table::{InsertError, MAX_ENTRIES, Prefix};
use std::alloc::Global;
use std::cell::Cell;
use std::collections::BTreeMap;
use std::process::Abort;
use std::test::Fail;

type Route = (u32, u8);

type Row = (Route, u32);

const TEN: Route = (0x0a00_0000, 8);

const ALL: Route = (0, 0);

const LOW: Route = (0, 1);

const HIGH: Route = (0x8000_0000, 1);

/// Stores a route.
fn announce<P: Prefix + Drop>(
    routes: &mut PrefixMap<P, u32>,
    prefix: P,
    hop: u32,
) -> Result<(), InsertError<u32>>
    requires { P.prefix_len prefix ≤ P.R.WIDTH }
    ensures { OnOk result (routes.new ≡ with_entry routes.old (P.key prefix) hop) }
{
    routes.insert(prefix, hop)?;
    Ok(())
}

/// The map of these rows.
fn map_of(rt: &impl Abort, alloc: Global, rows: &[Row]) -> Result<PrefixMap<Route, u32>, Fail> {
    let mut map = PrefixMap::new(alloc);
    for (route, value) in rows {
        assert!(rt; route.1 <= 32);
        announce(&mut map, *route, *value)?;
    }
    Ok(map)
}

/// Whether a map has these entries, in this order, and none behind them.
fn has_rows(map: &PrefixMap<Route, u32>, rows: &[Row]) -> bool {
    let mut entries = map.iter();
    for (route, value) in rows {
        if entries.next() != Some((*route, value)) {
            return false;
        }
    }
    entries.next().is_none() && entries.next().is_none() && map.len() == rows.len()
}

/// The set of these members.
fn set_of(rt: &impl Abort, alloc: Global, members: &[Route]) -> Result<PrefixSet<Route>, Fail> {
    let mut set = PrefixSet::new(alloc);
    for member in members {
        assert!(rt; member.1 <= 32);
        assert!(rt; set.insert(*member)?, "it was no member");
        assert!(rt; !set.insert(*member)?, "it is one now");
    }
    Ok(set)
}

/// Whether a set has these members, in this order, and none behind them.
fn has_members(set: &PrefixSet<Route>, members: &[Route]) -> bool {
    let mut own = set.iter();
    for member in members {
        if own.next() != Some(*member) {
            return false;
        }
    }
    own.next().is_none() && own.next().is_none() && set.len() == members.len()
}

/// Items of a slice, in order. A length past 32 counts as 32.
#[derive(Drop)]
struct Rows<'a> {
    rows: &'a [Row],
}

impl<'a> Iterator for Rows<'a> {
    type Item = Row;

    ghost next_gives = { λ s r t. IfSome r (λ item. item.0.1 ≤ 32) };

    ghost remaining = { λ s. at_most (length s.rows.now) };

    fn next(&mut self) -> Option<Row> {
        let (first, rest) = self.rows.split_first()?;
        self.rows = rest;
        let ((bits, len), value) = *first;
        Some(((bits, len.min(32)), value))
    }
}

/// The prefixes of such items.
#[derive(Drop)]
struct Members<'a> {
    rows: Rows<'a>,
}

impl<'a> Iterator for Members<'a> {
    type Item = Route;

    ghost next_gives = { λ s r t. IfSome r (λ item. item.1 ≤ 32) };

    ghost remaining = { λ s. at_most (length s.rows.rows.now) };

    fn next(&mut self) -> Option<Route> {
        let (member, _) = self.rows.next()?;
        Some(member)
    }
}

#[test]
fn makes_maps_of_entries(rt: HostRuntime) -> Result<(), Fail> {
    let rows = [((0x0a00_00ff, 8), 1), (TEN, 2)];
    let map = PrefixMap::from_entries(rt.alloc(), Rows { rows: &rows })?;
    assert!(rt; has_rows(&map, &[(TEN, 2)]));
    let copy = map.try_clone()?;
    assert!(rt; copy == map);
    Ok(())
}

#[test]
fn makes_sets_of_members(rt: HostRuntime) -> Result<(), Fail> {
    let rows = [((0x0a00_00ff, 8), 1), (TEN, 2)];
    let set = PrefixSet::from_entries(
        rt.alloc(),
        Members {
            rows: Rows { rows: &rows },
        },
    )?;
    assert!(rt; has_members(&set, &[TEN]));
    let copy = set.try_clone()?;
    assert!(rt; copy == set);
    Ok(())
}

#[test]
fn compares_entries_alone(rt: HostRuntime) -> Result<(), Fail> {
    let map = map_of(&rt, rt.alloc(), &[(TEN, 2)])?;
    let mut other = map_of(&rt, rt.alloc(), &[(TEN, 2), (HIGH, 3)])?;
    assert!(rt; other != map);
    assert_eq!(rt; other.remove_keep_tree(&HIGH), Some(3));
    assert!(rt; other == map, "kept positions do not count");
    Ok(())
}

#[test]
fn aggregates_sets(rt: HostRuntime) -> Result<(), Fail> {
    let mut set = set_of(&rt, rt.alloc(), &[LOW, HIGH])?;
    assert!(rt; !set.is_covered(&ALL));
    assert!(rt; set.is_covered_in_aggregate(&ALL));
    assert!(rt; set.address_count().is_none());
    set.aggregate()?;
    assert!(rt; has_members(&set, &[ALL]));
    let mut nested = set_of(&rt, rt.alloc(), &[LOW, (0, 2), HIGH, (0x8000_0000, 2)])?;
    nested.aggregate_consistent()?;
    assert!(rt; has_members(&nested, &[LOW, HIGH]));
    Ok(())
}

#[test]
fn aggregates_maps(rt: HostRuntime) -> Result<(), Fail> {
    let mut map = map_of(&rt, rt.alloc(), &[(LOW, 1), (HIGH, 2)])?;
    map.aggregate()?;
    assert!(rt; has_rows(&map, &[(ALL, 1), (HIGH, 2)]));
    let rows = [
        (ALL, 1),
        (LOW, 1),
        ((0, 2), 2),
        ((0, 3), 2),
        ((0x2000_0000, 3), 1),
    ];
    let mut consistent = map_of(&rt, rt.alloc(), &rows)?;
    consistent.aggregate_consistent()?;
    let left = [(ALL, 1), ((0, 2), 2), ((0x2000_0000, 3), 1)];
    assert!(rt; has_rows(&consistent, &left));
    Ok(())
}

#[test]
fn fills_by_one_call(rt: HostRuntime) -> Result<(), Fail> {
    let mut filled = map_of(&rt, rt.alloc(), &[(HIGH, 7)])?;
    assert!(rt; filled.len() < MAX_ENTRIES);
    let calls = Cell::new(0_u32);
    filled.aggregate_fill(|| {
        calls.set(calls.get().wrapping_add(1));
        0
    })?;
    assert_eq!(rt; calls.get(), 1);
    assert!(rt; has_rows(&filled, &[(ALL, 0), (HIGH, 7)]));
    Ok(())
}

#[test]
fn fills_by_default(rt: HostRuntime) -> Result<(), Fail> {
    let mut filled = map_of(&rt, rt.alloc(), &[(HIGH, 7)])?;
    assert!(rt; filled.len() < MAX_ENTRIES);
    filled.aggregate_fill_default()?;
    assert!(rt; has_rows(&filled, &[(ALL, 0), (HIGH, 7)]));
    Ok(())
}

/// Stores 1 at a key that is lacking, adds one, and takes the value out.
fn enters_one(rt: &impl Abort, map: &mut PrefixMap<Route, u32>) -> Result<(), Fail> {
    if let Entry::Vacant(entry) = map.entry(TEN) {
        assert_eq!(rt; *entry.insert(1)?, 1);
    }
    assert_eq!(rt; *map.entry(TEN).or_insert(9)?, 1);
    let entry = map
        .entry(TEN)
        .and_modify(|value| *value = value.wrapping_add(1));
    assert_eq!(rt; entry.get(), Some(&2));
    if let Entry::Occupied(entry) = entry {
        assert_eq!(rt; entry.remove(), 2);
    }
    Ok(())
}

/// Stores values at keys that are lacking.
fn enters_new(rt: &impl Abort, map: &mut PrefixMap<Route, u32>) -> Result<(), Fail> {
    assert_eq!(rt; *map.entry(LOW).or_insert(3)?, 3);
    assert_eq!(rt; *map.entry(HIGH).or_insert_with(|| 4)?, 4);
    assert_eq!(rt; *map.entry(ALL).or_default()?, 0);
    if let Entry::Vacant(entry) = map.entry((0, 2)) {
        assert_eq!(rt; *entry.insert_with(|| 6)?, 6);
    }
    if let Entry::Vacant(entry) = map.entry((0, 3)) {
        assert_eq!(rt; *entry.default()?, 0);
    }
    Ok(())
}

#[test]
fn enters_values(rt: HostRuntime) -> Result<(), Fail> {
    let mut map: PrefixMap<Route, u32> = PrefixMap::new(rt.alloc());
    enters_one(&rt, &mut map)?;
    assert_eq!(rt; map.len(), 0);
    enters_new(&rt, &mut map)?;
    assert_eq!(rt; map.len(), 5);
    Ok(())
}

/// Adds ten to each value of a map of two.
fn adds_ten(rt: &impl Abort, map: &mut PrefixMap<Route, u32>) -> Result<(), Fail> {
    let mut cursor = map.iter_mut();
    if let Some((_, value)) = cursor.next() {
        *value = value.wrapping_add(10);
    }
    if let Some((_, value)) = cursor.next() {
        *value = value.wrapping_add(10);
    }
    assert!(rt; cursor.next().is_none());
    assert!(rt; cursor.next().is_none(), "after the end");
    Ok(())
}

/// Writes 5 at the one entry below a prefix.
fn writes_below(rt: &impl Abort, map: &mut PrefixMap<Route, u32>) -> Result<(), Fail> {
    let mut cursor = map.children_mut(&LOW);
    if let Some(prefix) = cursor.advance() {
        assert_eq!(rt; prefix, LOW);
        *cursor.value_mut() = 5;
    }
    assert!(rt; cursor.advance().is_none());
    Ok(())
}

/// Doubles each value of a map of two.
fn doubles(rt: &impl Abort, map: &mut PrefixMap<Route, u32>) -> Result<(), Fail> {
    let mut values = map.values_mut();
    if let Some(value) = values.next() {
        *value = value.wrapping_mul(2);
    }
    if let Some(value) = values.next() {
        *value = value.wrapping_mul(2);
    }
    assert!(rt; values.next().is_none());
    Ok(())
}

#[test]
fn lends_values_in_turn(rt: HostRuntime) -> Result<(), Fail> {
    let mut map: PrefixMap<Route, u32> = PrefixMap::new(rt.alloc());
    map.insert(LOW, 1)?;
    map.insert(HIGH, 2)?;
    adds_ten(&rt, &mut map)?;
    writes_below(&rt, &mut map)?;
    doubles(&rt, &mut map)?;
    assert!(rt; has_rows(&map, &[(LOW, 10), (HIGH, 24)]));
    Ok(())
}

#[test]
fn retains_what_is_wanted(rt: HostRuntime) -> Result<(), Fail> {
    let mut map = map_of(&rt, rt.alloc(), &[(LOW, 1), (HIGH, 2), (TEN, 3)])?;
    map.retain(|prefix, value| prefix.1 == 1 && *value < 2);
    assert!(rt; has_rows(&map, &[(LOW, 1)]));
    let mut set = set_of(&rt, rt.alloc(), &[LOW, TEN])?;
    set.retain(|member| *member == TEN);
    assert!(rt; has_members(&set, &[TEN]));
    Ok(())
}

/// Whether an iterator gives one item, and none thereafter.
fn gives_one<I: Iterator + Drop>(items: I) -> bool
where
    I::Item: Drop,
    requires { (s : I) → I.can_next s }
{
    let mut items = items;
    items.next().is_some() && items.next().is_none() && items.next().is_none()
}

/// Whether each iterator that borrows a map of one entry ends.
fn borrowed_ends(map: &PrefixMap<Route, u32>) -> bool {
    gives_one(map.iter())
        && gives_one(map.keys())
        && gives_one(map.values())
        && gives_one(map.cover(&TEN))
        && gives_one(map.cover_keys(&TEN))
        && gives_one(map.cover_values(&TEN))
}

/// Whether each iterator that takes such a map ends.
fn owned_ends(map: &PrefixMap<Route, u32>) -> Result<bool, Fail> {
    Ok(
        gives_one(map.try_clone()?.into_iter())
            && gives_one(map.try_clone()?.into_keys())
            && gives_one(map.try_clone()?.into_values())
            && gives_one(map.try_clone()?.into_children(&TEN)),
    )
}

#[test]
fn ends_for_good(rt: HostRuntime) -> Result<(), Fail> {
    let map = map_of(&rt, rt.alloc(), &[(TEN, 2)])?;
    assert!(rt; borrowed_ends(&map));
    assert!(rt; owned_ends(&map)?);
    let set = set_of(&rt, rt.alloc(), &[TEN])?;
    assert!(rt; gives_one(set.iter()) && gives_one(set.cover(&TEN)));
    assert!(rt; gives_one(set.into_iter()));
    Ok(())
}

/// The next number of a small generator.
fn draw(state: &mut u64) -> u32 {
    *state = state
        .wrapping_mul(6_364_136_223_846_793_005)
        .wrapping_add(1_442_695_040_888_963_407);
    (*state >> 32) as u32
}

/// Whether both have the same entries in the same order.
fn agree(map: &PrefixMap<Route, u32>, other: &BTreeMap<Route, u32>) -> bool {
    let mut entries = map.iter();
    for (key, value) in other {
        if entries.next() != Some((*key, value)) {
            return false;
        }
    }
    entries.next().is_none() && map.len() == other.len()
}

/// Makes one call on both, and compares the answers.
fn call_both(
    rt: &impl Abort,
    map: &mut PrefixMap<Route, u32>,
    other: &mut BTreeMap<Route, u32>,
    state: &mut u64,
    turn: u32,
) -> Result<(), Fail> {
    let len = draw(state) % 33;
    let mask = u32::MAX.checked_shl(32 - len).unwrap_or(0);
    let key = (draw(state) & 0xc042_8421 & mask, len as u8);
    match draw(state) % 4 {
        0 | 1 => assert_eq!(rt; map.insert(key, turn)?, other.insert(key, turn)?),
        2 => assert_eq!(rt; map.remove(&key), other.remove(&key)),
        _ => assert_eq!(rt; map.get(&key), other.get(&key)),
    }
    Ok(())
}

#[test]
fn agrees_with_an_ordered_map(rt: HostRuntime) -> Result<(), Fail> {
    let mut map = PrefixMap::new(rt.alloc());
    let mut other = BTreeMap::new(rt.alloc());
    let mut state = 1;
    for turn in 0..3000_u32 {
        call_both(&rt, &mut map, &mut other, &mut state, turn)?;
        if turn % 500 == 0 {
            assert!(rt; agree(&map, &other));
        }
    }
    assert!(rt; agree(&map, &other));
    Ok(())
}
