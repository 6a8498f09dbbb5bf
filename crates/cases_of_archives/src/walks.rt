// Views, walks, covers and coverage of archived maps.
use crate::words::{EMPTY, FOUR_QUARTERS, ONE_OCTET, bytes_of, three_routes};
use prefix_archive::ArchivedPrefixMap;
use prefix_archive::map::{Cover, Iter};
use prefix_view::{AsView, TrieView};
use std::process::Abort;
use std::test::Fail;

type Route = (u32, u8);

type Routes<'a> = ArchivedPrefixMap<'a, Route, u32>;

fn longest_matches(rt: &impl Abort, map: &Routes<'_>) {
    let view = map.view();
    match view.find_lpm_value(&(0x0a01_0180, 25)) {
        Some((prefix, value)) => {
            assert_eq!(rt; prefix, (0x0a01_0100, 24));
            assert_eq!(rt; value.bytes(), [3, 0, 0, 0].as_slice());
        }
        None => assert!(rt; false, "no match"),
    }
    assert!(rt; view.find_lpm(&(0x0b00_0000, 8)).is_none());
}

fn walk_is(rt: &impl Abort, mut entries: Iter<'_, Route, u32>, rows: &[(Route, u8)]) {
    for (key, first) in rows {
        match entries.next() {
            Some((prefix, value)) => {
                assert_eq!(rt; prefix, *key);
                assert_eq!(rt; value.bytes(), [*first, 0, 0, 0].as_slice());
            }
            None => assert!(rt; false, "ends early"),
        }
    }
    assert!(rt; entries.next().is_none());
    assert!(rt; entries.next().is_none(), "after the end");
}

fn cover_is(rt: &impl Abort, mut entries: Cover<'_, Route, u32>, rows: &[(Route, u8)]) {
    for (key, first) in rows {
        match entries.next() {
            Some((prefix, value)) => {
                assert_eq!(rt; prefix, *key);
                assert_eq!(rt; value.bytes(), [*first, 0, 0, 0].as_slice());
            }
            None => assert!(rt; false, "ends early"),
        }
    }
    assert!(rt; entries.next().is_none());
}

const ROUTES: [(Route, u8); 3] = [
    ((0x0a00_0000, 8), 1),
    ((0x0a01_0000, 16), 2),
    ((0x0a01_0100, 24), 3),
];

fn walks(rt: &impl Abort, map: &Routes<'_>) {
    walk_is(rt, map.iter(), &ROUTES);
    walk_is(rt, map.children(&(0x0a01_0000, 12)), &ROUTES[1..]);
    walk_is(rt, map.iter_from(&(0x0a01_0000, 16), false), &ROUTES[2..]);
    walk_is(rt, map.children(&(0x0b00_0000, 8)), &[]);
    walk_is(rt, Iter::default(), &[]);
    cover_is(rt, map.cover(&(0x0a01_0180, 25)), &ROUTES);
    cover_is(rt, map.cover(&(0x0a01_0000, 16)), &ROUTES[..2]);
    assert!(rt; map.is_covered_in_aggregate(&(0x0a01_0180, 25)));
    assert!(rt; !map.is_covered_in_aggregate(&(0x0a00_0000, 7)));
}

#[test]
fn three_routes_are_walked(rt: HostRuntime) -> Result<(), Fail> {
    let bytes = three_routes(rt.alloc())?;
    let map = Routes::access(&bytes)?;
    longest_matches(&rt, &map);
    walks(&rt, &map);
    Ok(())
}

fn one_octet_is_seen(rt: &impl Abort, map: &Routes<'_>) {
    let view = map.view();
    assert!(rt; view.find(&(0xf000_0000, 5)).is_none());
    assert!(rt; view.right().is_none());
    assert_eq!(rt; map.address_count(), Some(16_777_216));
}

fn quarters_are_seen(rt: &impl Abort, map: &Routes<'_>) {
    assert!(rt; map.is_covered_in_aggregate(&(0, 0)));
    assert_eq!(rt; map.address_count(), None);
}

fn nothing_is_seen(rt: &impl Abort, map: &Routes<'_>) {
    assert!(rt; !map.is_covered_in_aggregate(&(0, 32)));
    assert_eq!(rt; map.address_count(), Some(0));
    assert!(rt; map.keys().next().is_none());
}

#[test]
fn coverage_is_counted(rt: HostRuntime) -> Result<(), Fail> {
    let alloc = rt.alloc();
    let bytes = bytes_of(alloc, ONE_OCTET, &[])?;
    one_octet_is_seen(&rt, &Routes::access(&bytes)?);
    let bytes = bytes_of(alloc, FOUR_QUARTERS, &[])?;
    quarters_are_seen(&rt, &Routes::access(&bytes)?);
    let bytes = bytes_of(alloc, EMPTY, &[])?;
    nothing_is_seen(&rt, &Routes::access(&bytes)?);
    Ok(())
}
