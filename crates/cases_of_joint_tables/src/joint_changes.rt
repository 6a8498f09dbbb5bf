//! Worked cases of what makes, compares, changes and uses up maps and sets over two families.
ghost use Rattle.std.specs.Prelude.{◌≡◌, ◌≤◌, IfSome, length};
ghost use Rattle.std.specs.Iterator.{at_most};
ghost use Rattle.either.specs.Either.{MatchEither};

use crate::items::gives;
use either::{Either, Left, Right};
use prefix_joint::JointPrefixMap;
use prefix_joint_set::JointPrefixSet;
use std::alloc::Global;
use std::process::Abort;
use std::test::Fail;

type Route = Either<(u32, u8), (u128, u8)>;

type Twin = Either<(u32, u8), (u32, u8)>;

const LOW: Route = Left((0, 1));

const HIGH: Route = Left((0x8000_0000, 1));

const TOP: Route = Left((0xc000_0000, 2));

const ALL: Route = Right((0, 0));

const TEN: Route = Left((0x0a00_0000, 8));

const FIRST: Route = Left((0xc0a8_0000, 22));

const SECOND: Route = Left((0xc0a8_0000, 23));

const THIRD: Route = Left((0xc0a8_0200, 23));

const FOURTH: Route = Left((0xc0a8_0000, 24));

const FIFTH: Route = Left((0xc0a8_0200, 24));

const NESTED: [(Route, u32); 5] = [(FIRST, 1), (SECOND, 2), (THIRD, 3), (FOURTH, 4), (FIFTH, 5)];

const ONE_KEY: [(Route, u32); 2] = [(Left((0x0a00_00ff, 8)), 1), (TEN, 2)];

const ROWS: [(Route, u32); 4] = [(ALL, 6), (HIGH, 5), (TOP, 2), (LOW, 1)];

/// Items of a slice, in order. A length past the width counts as the width.
#[derive(Drop)]
struct Rows<'a> {
    rows: &'a [(Route, u32)],
}

/// The prefix, no longer than its family is wide.
fn fitting(prefix: Route) -> Route
    ensures { MatchEither result (λ p. p.1 ≤ 32) (λ p. p.1 ≤ 128) }
{
    match prefix {
        Left((bits, len)) => Left((bits, len.min(32))),
        Right((bits, len)) => Right((bits, len.min(128))),
    }
}

impl<'a> Iterator for Rows<'a> {
    type Item = (Route, u32);

    ghost next_gives = { λ s r t. IfSome r (λ item. MatchEither item.0 (λ p. p.1 ≤ 32) (λ p. p.1 ≤ 128)) };

    ghost remaining = { λ s. at_most (length s.rows.now) };

    fn next(&mut self) -> Option<(Route, u32)> {
        let (first, rest) = self.rows.split_first()?;
        self.rows = rest;
        let (prefix, value) = *first;
        Some((fitting(prefix), value))
    }
}

/// The prefixes of such items.
#[derive(Drop)]
struct Members<'a> {
    rows: Rows<'a>,
}

impl<'a> Iterator for Members<'a> {
    type Item = Route;

    ghost next_gives = { λ s r t. IfSome r (λ item. MatchEither item (λ p. p.1 ≤ 32) (λ p. p.1 ≤ 128)) };

    ghost remaining = { λ s. at_most (length s.rows.rows.now) };

    fn next(&mut self) -> Option<Route> {
        let (member, _) = self.rows.next()?;
        Some(member)
    }
}

/// The map of these entries.
fn map_of(alloc: Global, rows: &[(Route, u32)]) -> Result<JointPrefixMap<Route, u32>, Fail> {
    let map = JointPrefixMap::from_entries(alloc, Rows { rows })?;
    Ok(map)
}

/// The set of the prefixes of these entries.
fn set_of(alloc: Global, rows: &[(Route, u32)]) -> Result<JointPrefixSet<Route>, Fail> {
    let rows = Rows { rows };
    let set = JointPrefixSet::from_entries(alloc, Members { rows })?;
    Ok(set)
}

fn look_at_covers(rt: &impl Abort, map: &JointPrefixMap<Route, u32>) {
    assert!(rt; gives(map.cover(&TOP), &[(HIGH, &5), (TOP, &2)]));
    assert!(rt; gives(map.cover_keys(&ALL), &[ALL]));
    assert!(rt; gives(map.cover_values(&LOW), &[&1]));
}

#[test]
fn makes_maps_of_entries(rt: HostRuntime) -> Result<(), Fail> {
    let map = map_of(rt.alloc(), &ROWS)?;
    look_at_covers(&rt, &map);
    let copy = map.try_clone()?;
    assert!(rt; copy == map);
    Ok(())
}

#[test]
fn makes_sets_of_members(rt: HostRuntime) -> Result<(), Fail> {
    let set = set_of(rt.alloc(), &ROWS)?;
    assert!(rt; gives(set.cover(&TOP), &[HIGH, TOP]));
    let copy = set.try_clone()?;
    assert!(rt; copy == set);
    Ok(())
}

#[test]
fn later_entries_replace_earlier(rt: HostRuntime) -> Result<(), Fail> {
    let map = map_of(rt.alloc(), &ONE_KEY)?;
    assert!(rt; gives(map.iter(), &[(TEN, &2)]));
    let set = set_of(rt.alloc(), &ONE_KEY)?;
    assert!(rt; gives(set.iter(), &[TEN]));
    Ok(())
}

#[test]
fn nested_keys_are_walked(rt: HostRuntime) -> Result<(), Fail> {
    let map = map_of(rt.alloc(), &NESTED)?;
    assert!(rt; gives(map.children(&SECOND), &[(SECOND, &2), (FOURTH, &4)]));
    assert!(rt; gives(map.cover(&FIFTH), &[(FIRST, &1), (THIRD, &3), (FIFTH, &5)]));
    let set = set_of(rt.alloc(), &NESTED)?;
    assert!(rt; gives(set.children(&SECOND), &[SECOND, FOURTH]));
    assert!(rt; gives(set.cover(&FIFTH), &[FIRST, THIRD, FIFTH]));
    Ok(())
}

#[test]
fn families_of_one_width_are_two(rt: HostRuntime) -> Result<(), Fail> {
    let mut map: JointPrefixMap<Twin, u32> = JointPrefixMap::new(rt.alloc());
    map.insert(Left((0, 1)), 1)?;
    map.insert(Right((0, 1)), 2)?;
    assert_eq!(rt; map.len(), 2);
    assert_eq!(rt; map.remove(&Left((0, 1))), Some(1));
    assert_eq!(rt; map.get(&Right((0, 1))), Some(&2));
    assert!(rt; map.get(&Left((0, 1))).is_none());
    Ok(())
}

#[test]
fn takes_entries_out(rt: HostRuntime) -> Result<(), Fail> {
    let mut map: JointPrefixMap<Route, u32> = JointPrefixMap::new(rt.alloc());
    map.insert(ALL, 6)?;
    map.insert(HIGH, 5)?;
    map.insert(LOW, 1)?;
    assert_eq!(rt; map.remove(&LOW), Some(1));
    assert!(rt; map.remove(&Right((0, 1))).is_none());
    map.remove_children(&HIGH);
    assert!(rt; gives(map.into_iter(), &[(ALL, 6)]));
    Ok(())
}

#[test]
fn uses_entries_up(rt: HostRuntime) -> Result<(), Fail> {
    let mut map: JointPrefixMap<Route, u32> = JointPrefixMap::new(rt.alloc());
    map.insert(ALL, 6)?;
    map.insert(TOP, 2)?;
    assert_eq!(rt; map.remove_keep_tree(&ALL), Some(6));
    assert!(rt; gives(map.into_children(&HIGH), &[(TOP, 2)]));
    Ok(())
}

#[test]
fn takes_members_out(rt: HostRuntime) -> Result<(), Fail> {
    let mut set: JointPrefixSet<Route> = JointPrefixSet::new(rt.alloc());
    set.insert(ALL)?;
    set.insert(TOP)?;
    assert!(rt; set.remove(&ALL));
    assert!(rt; !set.remove_keep_tree(&ALL));
    assert!(rt; gives(set.into_iter(), &[TOP]));
    Ok(())
}
