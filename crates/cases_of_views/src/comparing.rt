//! Equality of what two views show.
ghost use Rattle.std.specs.Prelude.{◌≤◌};

use crate::routes::{ELEVEN, Route, Routes, TEN, TEN_ONE};
use prefix_map::{PrefixMap, PrefixSet};
use prefix_view::{AsView, TrieView};
use std::process::Abort;
use std::test::Fail;

/// Whether the view at a prefix that is shown has the keys of a set.
fn same_keys_at<'a>(rt: &impl Abort, view: Routes<'a>, at: Route, other: &PrefixSet<Route>) -> bool
    requires { at.1 ≤ 32 }
{
    match view.find(&at) {
        Some(below) => below.eq_keys(other),
        None => panic!(rt; "no view"),
    }
}

/// Keys that differ alone in the places that they are seen at.
fn differs_beside(rt: &impl Abort, low: &PrefixSet<Route>, high: &PrefixMap<Route, u32>) {
    match low.view().find(&(0x9000_0000, 5)) {
        Some(below) => match high.view().find(&(0xb000_0000, 5)) {
            Some(above) => assert!(rt; !above.eq_keys(below)),
            None => panic!(rt; "no view of the map"),
        },
        None => panic!(rt; "no view of the set"),
    }
}

#[test]
fn compares_keys(rt: HostRuntime) -> Result<(), Fail> {
    let mut low: PrefixSet<Route> = PrefixSet::new(rt.alloc());
    low.insert((0x9600_0000, 7))?;
    low.insert((0, 9))?;
    let mut high: PrefixMap<Route, u32> = PrefixMap::new(rt.alloc());
    high.insert((0xb600_0000, 7), 1)?;
    differs_beside(&rt, &low, &high);
    let mut two: PrefixMap<Route, u32> = PrefixMap::new(rt.alloc());
    two.insert((0, 0), 1)?;
    two.insert((0, 9), 1)?;
    assert!(rt; !same_keys_at(&rt, (&two).view(), (0, 1), &low));
    two.insert((0x9600_0000, 7), 1)?;
    two.remove(&(0, 0));
    assert!(rt;
        same_keys_at(&rt, (&two).view(), (0, 0), &low),
        "a map and a set"
    );
    Ok(())
}

/// Each value below the first prefix is one less than the other's.
fn counts_one_less<'a>(rt: &impl Abort, view: Routes<'a>, other: &PrefixMap<Route, u32>) {
    match view.find(&TEN) {
        Some(below) => {
            let all = below.eq_by(other, |a, b| a.wrapping_add(1) == *b);
            assert!(rt; all);
        }
        None => panic!(rt; "no view"),
    }
}

fn asks_for_each_pair<'a>(rt: &impl Abort, view: Routes<'a>, other: &PrefixMap<Route, u32>) {
    let mut asked = 0_u32;
    let all = view.eq_by(other, |_, _| {
        asked = asked.saturating_add(1);
        true
    });
    assert!(rt; !all);
    assert_eq!(rt; asked, 2, "no call behind the end of a side");
}

#[test]
fn compares_values(rt: HostRuntime) -> Result<(), Fail> {
    let mut three: PrefixMap<Route, u32> = PrefixMap::new(rt.alloc());
    three.insert(TEN, 10)?;
    three.insert(TEN_ONE, 20)?;
    three.insert(ELEVEN, 30)?;
    let mut two: PrefixMap<Route, u32> = PrefixMap::new(rt.alloc());
    two.insert(TEN, 11)?;
    two.insert(TEN_ONE, 21)?;
    counts_one_less(&rt, (&three).view(), &two);
    asks_for_each_pair(&rt, (&three).view(), &two);
    Ok(())
}
