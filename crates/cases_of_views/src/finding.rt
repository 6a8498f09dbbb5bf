//! Views at a prefix, and steps along the bits of a key.
ghost use Rattle.std.specs.Prelude.{◌≤◌};

use crate::routes::{ELEVEN, Route, Routes, TEN, TEN_ONE, TEN_TWO, stands_at};
use prefix_map::PrefixMap;
use prefix_view::{AsView, TrieView};
use std::process::Abort;
use std::test::Fail;

/// Whether a prefix is shown.
fn is_shown(map: &PrefixMap<Route, u32>, prefix: Route) -> bool
    requires { prefix.1 ≤ 32 }
{
    map.view().find(&prefix).is_some()
}

fn finds_longest<'a>(rt: &impl Abort, view: Routes<'a>) {
    stands_at(rt, view.find_lpm(&(0x0a01_0180, 25)), (0x0a01_0100, 24), 3);
    stands_at(rt, view.find_lpm(&TEN_TWO), TEN, 1);
    assert!(rt; view.find_lpm(&ELEVEN).is_none());
    stands_at(rt, view.find_exact(&(0x0a01_00ff, 16)), TEN_ONE, 2);
    assert!(rt; view.find_exact(&(0x0a01_0000, 15)).is_none());
}

fn finds_below<'a>(rt: &impl Abort, view: Routes<'a>) {
    match view.find(&TEN) {
        Some(below) => {
            assert!(rt; below.find(&(0x0a00_0000, 7)).is_none(), "above the place");
            assert!(rt; below.find(&ELEVEN).is_none(), "beside the place");
            assert!(rt; below.find(&(0x0a01_0000, 15)).is_some(), "above an entry");
        }
        None => panic!(rt; "no view"),
    }
}

#[test]
fn finds_prefixes(rt: HostRuntime) -> Result<(), Fail> {
    let mut map: PrefixMap<Route, u32> = PrefixMap::new(rt.alloc());
    map.insert(TEN, 1)?;
    map.insert(TEN_ONE, 2)?;
    map.insert((0x0a01_0100, 24), 3)?;
    assert!(rt; is_shown(&map, (0x0a00_0000, 9)));
    assert!(rt; !is_shown(&map, TEN_TWO));
    finds_longest(&rt, (&map).view());
    finds_below(&rt, (&map).view());
    Ok(())
}

/// One step to a place that is there, beside one that is not.
fn steps<'a>(rt: &impl Abort, at: Routes<'a>, bit: bool) -> Routes<'a> {
    let (there, not) = if bit {
        (at.right(), at.left())
    } else {
        (at.left(), at.right())
    };
    assert!(rt; not.is_none(), "no key has this bit here");
    match there {
        Some(next) => next,
        None => panic!(rt; "a key has this bit here"),
    }
}

fn follows_the_bits<'a>(rt: &impl Abort, view: Routes<'a>) {
    let mut at = view;
    for i in 0..32_u32 {
        at = steps(rt, at, i % 2 == 0);
    }
    assert!(rt; at.is_non_empty());
    assert!(rt; at.left().is_none(), "behind an address");
    assert!(rt; at.right().is_none(), "behind an address");
    stands_at(rt, Some(at), (0xaaaa_aaaa, 32), 99);
}

#[test]
fn steps_along_the_bits_of_a_key(rt: HostRuntime) -> Result<(), Fail> {
    let mut map: PrefixMap<Route, u32> = PrefixMap::new(rt.alloc());
    map.insert((0xaaaa_aaaa, 32), 99)?;
    follows_the_bits(&rt, (&map).view());
    Ok(())
}

/// The place below the one that four steps to the right lead to.
fn fifth_place<'a>(rt: &impl Abort, view: Routes<'a>) -> Routes<'a> {
    let mut at = Some(view);
    for _ in 0..4_u32 {
        at = match at {
            Some(above) => above.right(),
            None => None,
        };
    }
    match at {
        Some(above) => match above.left() {
            Some(below) => below,
            None => panic!(rt; "the position is kept"),
        },
        None => panic!(rt; "a position is kept below"),
    }
}

#[test]
fn steps_to_a_position_without_entries(rt: HostRuntime) -> Result<(), Fail> {
    let mut map: PrefixMap<Route, u32> = PrefixMap::new(rt.alloc());
    map.insert(TEN, 1)?;
    map.insert((0xf000_0000, 6), 2)?;
    assert_eq!(rt; map.remove_keep_tree(&(0xf000_0000, 6)), Some(2));
    assert!(rt; !is_shown(&map, (0xf000_0000, 5)));
    let empty = fifth_place(&rt, (&map).view());
    assert!(rt; !empty.is_non_empty());
    assert_eq!(rt; empty.prefix(), (0xf000_0000, 5));
    Ok(())
}
