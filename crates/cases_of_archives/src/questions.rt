// Questions that archived maps answer.
use crate::words::{
    ACROSS_NODES, EMPTY, FOUR_QUARTERS, ONE_OCTET, Pair, bytes_of, joined, three_routes,
};
use prefix_archive::ArchivedPrefixMap;
use prefix_joint_archive::ArchivedJointPrefixMap;
use prefix_layout::ArchiveError;
use std::test::Fail;

#[test]
fn counts_entries(rt: HostRuntime) -> Result<(), Fail> {
    let alloc = rt.alloc();
    let both = joined(alloc, ONE_OCTET, FOUR_QUARTERS)?;
    let pair = ArchivedJointPrefixMap::<Pair, u32>::access(&both)?;
    assert_eq!(rt; (pair.t1.len(), pair.t2.len(), pair.len()), (1, 4, 5));
    assert!(rt; !pair.is_empty() && !pair.t1.is_empty());
    let none = joined(alloc, EMPTY, EMPTY)?;
    let pair = ArchivedJointPrefixMap::<Pair, u32>::access(&none)?;
    assert!(rt; pair.is_empty() && pair.t1.is_empty());
    let one = bytes_of(alloc, ACROSS_NODES, &[])?;
    let map = ArchivedPrefixMap::<(u32, u8), u32>::access(&one)?;
    let copy = map;
    assert_eq!(rt; (map.len(), copy.len()), (3, 3));
    let behind = bytes_of(alloc, ACROSS_NODES, &[0])?;
    match ArchivedPrefixMap::<(u32, u8), u32>::access(&behind) {
        Ok(_) => assert!(rt; false, "accepts a byte behind"),
        Err(error) => assert_eq!(rt; error, ArchiveError::TrailingBytes),
    }
    Ok(())
}

#[test]
fn answers_in_place(rt: HostRuntime) -> Result<(), Fail> {
    let alloc = rt.alloc();
    let bytes = three_routes(alloc)?;
    let map = ArchivedPrefixMap::<(u32, u8), u32>::access(&bytes)?;
    assert_eq!(rt; (map.len(), map.node_count()), (3, 5));
    match map.get(&(0x0a00_00ff, 8)) {
        Some(value) => assert_eq!(rt; value.to_native(alloc)?, 1),
        None => assert!(rt; false, "no route of 8 bits"),
    }
    assert!(rt; map.get(&(0x0a00_0000, 7)).is_none());
    assert!(rt; map.contains_key(&(0x0a01_0100, 24)) && !map.contains_key(&(0x0a01_0100, 25)));
    match map.get_lpm(&(0x0a01_0180, 25)) {
        Some((prefix, value)) => {
            assert_eq!(rt; prefix, (0x0a01_0100, 24));
            assert_eq!(rt; value.bytes(), [3, 0, 0, 0].as_slice());
        }
        None => assert!(rt; false, "no match of 25 bits"),
    }
    match map.get_lpm(&(0x0a02_0000, 16)) {
        Some((prefix, value)) => {
            assert_eq!(rt; prefix, (0x0a00_0000, 8));
            assert_eq!(rt; value.to_native(alloc)?, 1);
        }
        None => assert!(rt; false, "no match of 16 bits"),
    }
    assert!(rt; map.get_lpm(&(0x0b00_0000, 8)).is_none());
    let one = bytes_of(alloc, ONE_OCTET, &[])?;
    let other = ArchivedPrefixMap::<(u32, u8), u32>::access(&one)?;
    assert!(rt; map == map && map != other && other == other);
    Ok(())
}
