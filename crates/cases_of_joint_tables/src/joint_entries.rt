// Worked cases of entries and cursors of maps over two families.
use crate::items::gives;
use either::{Either, Left, Right};
use prefix_joint::JointPrefixMap;
use prefix_joint::map::Entry;
use std::process::Abort;
use std::test::Fail;

type Route = Either<(u32, u8), (u128, u8)>;

const TEN: Route = Left((0x0a00_0000, 8));

const LOW: Route = Left((0, 1));

const HIGH: Route = Left((0x8000_0000, 1));

const ALL: Route = Right((0, 0));

/// Stores 1 at a key that is lacking, adds one, and takes the value out.
fn enters_one(rt: &impl Abort, map: &mut JointPrefixMap<Route, u32>) -> Result<(), Fail> {
    if let Entry::Vacant(entry) = map.entry(Left((0x0a00_0001, 8))) {
        assert_eq!(rt; entry.key(), TEN);
        assert_eq!(rt; *entry.insert(1)?, 1);
    }
    assert_eq!(rt; *map.entry(TEN).or_insert(9)?, 1);
    let entry = map
        .entry(TEN)
        .and_modify(|value| *value = value.wrapping_add(1));
    assert_eq!(rt; entry.get(), Some(&2));
    if let Entry::Occupied(entry) = entry {
        assert_eq!(rt; entry.remove(), 2);
    }
    Ok(())
}

/// Stores values at keys of both families that are lacking.
fn enters_new(rt: &impl Abort, map: &mut JointPrefixMap<Route, u32>) -> Result<(), Fail> {
    assert_eq!(rt; *map.entry(LOW).or_insert(3)?, 3);
    assert_eq!(rt; *map.entry(ALL).or_insert_with(|| 4)?, 4);
    assert_eq!(rt; *map.entry(HIGH).or_default()?, 0);
    if let Entry::Vacant(entry) = map.entry(Right((0, 2))) {
        assert_eq!(rt; *entry.insert_with(|| 6)?, 6);
    }
    if let Entry::Vacant(entry) = map.entry(Left((0, 3))) {
        assert_eq!(rt; *entry.default()?, 0);
    }
    if let Entry::Occupied(entry) = map.entry(Right((0, 2))) {
        assert_eq!(rt; entry.insert(7), 6);
    }
    Ok(())
}

#[test]
fn enters_values(rt: HostRuntime) -> Result<(), Fail> {
    let mut map: JointPrefixMap<Route, u32> = JointPrefixMap::new(rt.alloc());
    enters_one(&rt, &mut map)?;
    assert_eq!(rt; map.len(), 0);
    enters_new(&rt, &mut map)?;
    assert!(rt; gives(map.children(&LOW), &[(LOW, &3), (Left((0, 3)), &0)]));
    assert!(rt;
        gives(
            map.iter_from(&HIGH, true),
            &[(HIGH, &0), (ALL, &4), (Right((0, 2)), &7)]
        )
    );
    Ok(())
}

/// Adds ten to each value of a map of two.
fn adds_ten(rt: &impl Abort, map: &mut JointPrefixMap<Route, u32>) {
    let mut cursor = map.iter_mut();
    if let Some((_, value)) = cursor.next() {
        *value = value.wrapping_add(10);
    }
    if let Some((_, value)) = cursor.next() {
        *value = value.wrapping_add(10);
    }
    assert!(rt; cursor.next().is_none());
    assert!(rt; cursor.next().is_none(), "after the end");
}

/// Writes 5 at the one entry of the second family, and 1 at the one entry below a prefix.
fn writes_some(rt: &impl Abort, map: &mut JointPrefixMap<Route, u32>) {
    let mut cursor = map.iter_from_mut(&LOW, false);
    if let Some(prefix) = cursor.advance() {
        assert_eq!(rt; prefix, ALL);
        *cursor.value_mut() = 5;
    }
    let mut below = map.children_mut(&LOW);
    if let Some(prefix) = below.advance() {
        assert_eq!(rt; prefix, LOW);
        *below.value_mut() = 1;
    }
    assert!(rt; below.advance().is_none());
}

/// Doubles each value of a map of two.
fn doubles(rt: &impl Abort, map: &mut JointPrefixMap<Route, u32>) {
    let mut values = map.values_mut();
    if let Some(value) = values.next() {
        *value = value.wrapping_mul(2);
    }
    if let Some(value) = values.next() {
        *value = value.wrapping_mul(2);
    }
    assert!(rt; values.next().is_none());
}

#[test]
fn lends_values_in_turn(rt: HostRuntime) -> Result<(), Fail> {
    let mut map: JointPrefixMap<Route, u32> = JointPrefixMap::new(rt.alloc());
    map.insert(ALL, 2)?;
    map.insert(LOW, 1)?;
    adds_ten(&rt, &mut map);
    assert!(rt; gives(map.iter(), &[(LOW, &11), (ALL, &12)]));
    writes_some(&rt, &mut map);
    doubles(&rt, &mut map);
    assert!(rt; gives(map.iter(), &[(LOW, &2), (ALL, &10)]));
    Ok(())
}
