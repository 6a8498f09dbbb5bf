// Worked cases of maps and sets over two families.
use crate::items::gives;
use either::{Either, Left, Right};
use prefix_joint::JointPrefixMap;
use prefix_joint::map::{DifferenceItem, UnionItem};
use prefix_joint_set::JointPrefixSet;
use std::process::Abort;
use std::test::Fail;

type Route = Either<(u32, u8), (u128, u8)>;

const LOW: Route = Left((0, 1));

const HIGH: Route = Left((0x8000_0000, 1));

const ALL: Route = Right((0, 0));

fn look_at_parts<'a>(
    rt: &impl Abort,
    a: &'a JointPrefixMap<Route, u32>,
    b: &'a JointPrefixMap<Route, u32>,
) {
    let either = [
        UnionItem::Left {
            prefix: LOW,
            left: &1,
            right: None,
        },
        UnionItem::Both {
            prefix: HIGH,
            left: &2,
            right: &5,
        },
        UnionItem::Right {
            prefix: ALL,
            left: None,
            right: &6,
        },
    ];
    assert!(rt; gives(a.union(b), &either));
    assert!(rt; gives(a.intersection(b), &[(HIGH, &2, &5)]));
    let only = DifferenceItem {
        prefix: LOW,
        value: &1,
        right: None,
    };
    assert!(rt; gives(a.difference(b), &[only]));
    assert!(rt; gives(a.covering_difference(b), &[(LOW, &1)]));
    assert!(rt; gives(b.iter_from(&HIGH, false), &[(ALL, &6)]));
}

#[test]
fn gives_what_two_maps_have(rt: HostRuntime) -> Result<(), Fail> {
    let mut a: JointPrefixMap<Route, u32> = JointPrefixMap::new(rt.alloc());
    a.insert(LOW, 1)?;
    a.insert(HIGH, 2)?;
    let mut b: JointPrefixMap<Route, u32> = JointPrefixMap::new(rt.alloc());
    b.insert(ALL, 6)?;
    b.insert(HIGH, 5)?;
    look_at_parts(&rt, &a, &b);
    Ok(())
}

fn look_at_sets<'a>(rt: &impl Abort, a: &'a JointPrefixSet<Route>, b: &'a JointPrefixSet<Route>) {
    assert!(rt; gives(a.union(b), &[LOW, HIGH, ALL]));
    assert!(rt; gives(a.intersection(b), &[HIGH]));
    assert!(rt; gives(a.difference(b), &[(LOW, None)]));
    assert!(rt; gives(a.covering_difference(b), &[LOW]));
}

#[test]
fn gives_what_two_sets_have(rt: HostRuntime) -> Result<(), Fail> {
    let mut a: JointPrefixSet<Route> = JointPrefixSet::new(rt.alloc());
    a.insert(LOW)?;
    a.insert(HIGH)?;
    let mut b: JointPrefixSet<Route> = JointPrefixSet::new(rt.alloc());
    b.insert(ALL)?;
    b.insert(HIGH)?;
    look_at_sets(&rt, &a, &b);
    Ok(())
}

/// Whether a map covers the addresses that begin with ten, by one key and by many.
fn covers_ten(map: &JointPrefixMap<Route, u32>) -> (bool, bool) {
    let ten: Route = Left((0x0a00_0000, 8));
    (map.is_covered(&ten), map.is_covered_in_aggregate(&ten))
}

#[test]
fn halves_cover_in_aggregate(rt: HostRuntime) -> Result<(), Fail> {
    let mut map: JointPrefixMap<Route, u32> = JointPrefixMap::new(rt.alloc());
    map.insert(Left((0x0a00_0000, 9)), 1)?;
    assert_eq!(rt; covers_ten(&map), (false, false));
    map.insert(Left((0x0a80_0000, 9)), 2)?;
    assert_eq!(rt; covers_ten(&map), (false, true));
    assert!(rt; map.address_count() == (Some(0x0100_0000), Some(0)));
    assert!(rt; map.get_lpm(&Left((0x0a80_0001, 32))) == Some((Left((0x0a80_0000, 9)), &2)));
    assert!(rt; map.get_spm_prefix(&Left((0x0b00_0000, 32))).is_none());
    assert!(rt; map.get(&Right((0x0a00_0000, 9))).is_none());
    Ok(())
}

#[test]
fn members_cover_in_aggregate(rt: HostRuntime) -> Result<(), Fail> {
    let ten: Route = Left((0x0a00_0000, 8));
    let mut set: JointPrefixSet<Route> = JointPrefixSet::new(rt.alloc());
    set.insert(Left((0x0a00_0000, 9)))?;
    assert!(rt; !set.is_covered_in_aggregate(&ten));
    set.insert(Left((0x0a80_0000, 9)))?;
    assert!(rt; !set.is_covered(&ten));
    assert!(rt; set.is_covered_in_aggregate(&ten));
    assert!(rt; set.get_lpm(&Left((0x0a00_0001, 32))) == Some(Left((0x0a00_0000, 9))));
    Ok(())
}
