// Live maps and sets beside their archives.
use crate::words::{ONE_OCTET, bytes_of};
use prefix_archive::{ArchivedPrefixMap, ArchivedPrefixSet};
use prefix_map::{PrefixMap, PrefixSet};
use prefix_to_bytes::ToBytes;
use std::process::Abort;
use std::test::Fail;

type Route = (u32, u8);

fn has_one_octet(rt: &impl Abort, map: &PrefixMap<Route, u32>) {
    assert_eq!(rt; map.get(&(0x0a00_0000, 8)), Some(&1));
    assert_eq!(rt; map.len(), 1);
}

#[test]
fn one_octet_there_and_back(rt: HostRuntime) -> Result<(), Fail> {
    let alloc = rt.alloc();
    let bytes = bytes_of(alloc, ONE_OCTET, &[])?;
    let archive = ArchivedPrefixMap::<Route, u32>::access(&bytes)?;
    let map = archive.deserialize(alloc)?;
    has_one_octet(&rt, &map);
    assert!(rt; map.to_bytes(alloc)? == bytes);
    Ok(())
}

#[test]
fn kept_positions_are_not_written(rt: HostRuntime) -> Result<(), Fail> {
    let alloc = rt.alloc();
    let mut map: PrefixMap<Route, u32> = PrefixMap::new(alloc);
    map.insert((0x0a00_0000, 8), 1)?;
    map.insert((0xf000_0000, 6), 2)?;
    assert_eq!(rt; map.remove_keep_tree(&(0xf000_0000, 6)), Some(2));
    assert!(rt; map.to_bytes(alloc)? == bytes_of(alloc, ONE_OCTET, &[])?);
    Ok(())
}

fn has_a_half(rt: &impl Abort, set: &PrefixSet<Route>) {
    assert!(rt; set.contains(&(0, 1)));
    assert_eq!(rt; set.len(), 1);
}

#[test]
fn a_half_there_and_back(rt: HostRuntime) -> Result<(), Fail> {
    let alloc = rt.alloc();
    let mut set: PrefixSet<Route> = PrefixSet::new(alloc);
    set.insert((0, 1))?;
    let bytes = set.to_bytes(alloc)?;
    assert!(rt; bytes == bytes_of(alloc, &[1, 1, 2, 0, 0, 1], &[])?);
    let archive = ArchivedPrefixSet::<Route>::access(&bytes)?;
    let again = archive.deserialize(alloc)?;
    has_a_half(&rt, &again);
    Ok(())
}
