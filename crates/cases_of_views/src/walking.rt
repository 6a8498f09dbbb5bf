//! Walks over what a view shows.
ghost use Rattle.std.specs.Prelude.{◌≤◌};

use crate::routes::{ELEVEN, Route, Routes, TEN, TEN_ONE, TEN_TWO};
use prefix_map::PrefixMap;
use prefix_view::{AsView, TrieView};
use std::process::Abort;
use std::test::Fail;

/// The view gives these entries from a prefix on, and then none for good.
fn gives<'a>(rt: &impl Abort, view: Routes<'a>, from: Route, inclusive: bool, rows: &[(Route, u32)])
    requires { from.1 ≤ 32 }
{
    let mut entries = view.iter_from(&from, inclusive);
    for (key, value) in rows {
        match entries.next() {
            Some((prefix, found)) => {
                assert_eq!(rt; prefix, *key);
                assert_eq!(rt; *found, *value);
            }
            None => panic!(rt; "an entry is missing"),
        }
    }
    assert!(rt; entries.next().is_none());
    assert!(rt; entries.next().is_none(), "after the end");
}

fn walks_below<'a>(rt: &impl Abort, view: Routes<'a>) {
    match view.find_exact(&TEN_ONE) {
        Some(below) => {
            let mut keys = below.keys();
            assert_eq!(rt; keys.next(), Some(TEN_ONE));
            assert_eq!(rt; keys.next(), Some((0x0a01_0100, 24)));
            assert_eq!(rt; keys.next(), None);
            let mut values = below.values();
            assert!(rt; values.next() == Some(&2));
            assert!(rt; values.next() == Some(&3));
            assert!(rt; values.next().is_none());
            assert!(rt; below.iter().next().is_some());
        }
        None => panic!(rt; "no view"),
    }
}

#[test]
fn walks_inside_a_prefix(rt: HostRuntime) -> Result<(), Fail> {
    let mut map: PrefixMap<Route, u32> = PrefixMap::new(rt.alloc());
    map.insert(TEN, 1)?;
    map.insert(TEN_ONE, 2)?;
    map.insert((0x0a01_0100, 24), 3)?;
    walks_below(&rt, (&map).view());
    Ok(())
}

fn gives_pages<'a>(rt: &impl Abort, view: Routes<'a>) {
    let third: (Route, u32) = ((0x0a03_0000, 16), 4);
    let fourth: (Route, u32) = ((0x0a04_0000, 16), 5);
    gives(rt, view, TEN_ONE, false, &[(TEN_TWO, 3), third, fourth]);
    gives(rt, view, TEN_TWO, true, &[(TEN_TWO, 3), third, fourth]);
    gives(rt, view, (0x0a04_0000, 16), false, &[]);
    gives(rt, view, ELEVEN, true, &[]);
    match view.find(&TEN_ONE) {
        Some(below) => {
            gives(rt, below, (0x0900_0000, 8), true, &[(TEN_ONE, 2)]);
            gives(rt, below, TEN_TWO, true, &[]);
        }
        None => panic!(rt; "no view"),
    }
}

#[test]
fn walks_from_a_prefix_on(rt: HostRuntime) -> Result<(), Fail> {
    let mut map: PrefixMap<Route, u32> = PrefixMap::new(rt.alloc());
    map.insert(TEN, 1)?;
    map.insert(TEN_ONE, 2)?;
    map.insert(TEN_TWO, 3)?;
    map.insert((0x0a03_0000, 16), 4)?;
    map.insert((0x0a04_0000, 16), 5)?;
    gives_pages(&rt, (&map).view());
    Ok(())
}
