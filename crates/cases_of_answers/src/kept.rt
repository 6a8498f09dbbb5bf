// Positions that a map keeps after their entries were taken out.
use prefix_archive::ArchivedPrefixMap;
use prefix_map::PrefixMap;
use prefix_to_bytes::ToBytes;
use prefix_view::{AsView, TrieView};
use std::process::Abort;
use std::test::Fail;

type Route = (u32, u8);

type Routes<'a> = ArchivedPrefixMap<'a, Route, u32>;

/// Five prefixes, and in each turn one that is taken out again.
const STAY_AND_GO: [(Route, Route); 5] = [
    ((0, 0), (0xf000_0000, 6)),
    ((0x0a00_0000, 8), (0x0a01_0000, 16)),
    ((0x0a01_0100, 24), (0x0a01_0101, 32)),
    ((0x0a02_0000, 16), (0x0b00_0000, 8)),
    ((0xc0a8_0001, 32), (0xc0a8_0000, 16)),
];

/// Inserts ten prefixes, and takes five out again.
fn inserts_and_removes(rt: &impl Abort, map: &mut PrefixMap<Route, u32>) -> Result<(), Fail> {
    for (stays, goes) in STAY_AND_GO {
        assert!(rt; stays.1 <= 32 && goes.1 <= 32);
        map.insert(stays, 1)?;
        map.insert(goes, 2)?;
    }
    for (_, goes) in STAY_AND_GO {
        assert!(rt; goes.1 <= 32);
        assert_eq!(rt; map.remove_keep_tree(&goes), Some(2));
    }
    Ok(())
}

/// Inserts the five prefixes that stay.
fn inserts_five(rt: &impl Abort, map: &mut PrefixMap<Route, u32>) -> Result<(), Fail> {
    for (stays, _) in STAY_AND_GO {
        assert!(rt; stays.1 <= 32);
        map.insert(stays, 1)?;
    }
    Ok(())
}

/// Whether both maps give the same entries in the same order.
fn same_walks(map: &PrefixMap<Route, u32>, other: &PrefixMap<Route, u32>) -> bool {
    let mut entries = other.iter();
    for entry in map.iter() {
        if entries.next() != Some(entry) {
            return false;
        }
    }
    entries.next().is_none() && map == other
}

#[test]
fn kept_positions_are_nowhere(rt: HostRuntime) -> Result<(), Fail> {
    let alloc = rt.alloc();
    let mut map: PrefixMap<Route, u32> = PrefixMap::new(alloc);
    inserts_and_removes(&rt, &mut map)?;
    let mut five: PrefixMap<Route, u32> = PrefixMap::new(alloc);
    inserts_five(&rt, &mut five)?;
    assert!(rt; same_walks(&map, &five));
    let bytes = map.to_bytes(alloc)?;
    let bare = five.to_bytes(alloc)?;
    assert!(rt; bytes == bare);
    let archive = Routes::access(&bytes)?;
    assert!(rt; archive.view().eq_keys(&Routes::access(&bare)?));
    let again = archive.deserialize(alloc)?;
    assert!(rt; same_walks(&again, &five));
    Ok(())
}
