// Archives with one byte changed.
use crate::words::{ACROSS_NODES, FOUR_QUARTERS, bytes_of};
use prefix_archive::ArchivedPrefixMap;
use prefix_to_bytes::ToBytes;
use std::alloc::{AllocError, Global};
use std::test::Fail;

type Routes<'a> = ArchivedPrefixMap<'a, (u32, u8), u32>;

// The bytes with another at one place.
fn changed(alloc: Global, bytes: &[u8], at: usize, other: u8) -> Result<Vec<u8>, AllocError> {
    let mut new = Vec::new(alloc);
    for (i, byte) in bytes.iter().enumerate() {
        new.push(if i == at { other } else { *byte })?;
    }
    Ok(new)
}

// The bytes of what is read from an archive.
fn again(alloc: Global, archive: &Routes<'_>) -> Result<Vec<u8>, Fail> {
    let map = archive.deserialize(alloc)?;
    Ok(map.to_bytes(alloc)?)
}

// Whether bytes are refused, or else are the archive of the map that is read from them.
fn refused_or_spelled(alloc: Global, bytes: &[u8]) -> Result<bool, Fail> {
    match Routes::access(bytes) {
        Ok(archive) => Ok(again(alloc, &archive)?.as_slice() == bytes),
        Err(_) => Ok(true),
    }
}

fn is_accepted(bytes: &[u8]) -> bool {
    Routes::access(bytes).is_ok()
}

// How many of the changes to one byte are accepted was counted by other programs.
#[test]
fn each_changed_byte(rt: HostRuntime) -> Result<(), Fail> {
    let alloc = rt.alloc();
    for (words, want) in [(FOUR_QUARTERS, 4149_u32), (ACROSS_NODES, 3088)] {
        let bytes = bytes_of(alloc, words, &[])?;
        assert!(rt; is_accepted(&bytes));
        let mut accepted = 0_u32;
        for at in 0..bytes.len() {
            let here = bytes[at];
            for other in 0..=255_u8 {
                let new = changed(alloc, &bytes, at, other)?;
                assert!(rt; refused_or_spelled(alloc, &new)?, "byte {at}: {other}");
                if other != here && is_accepted(&new) {
                    accepted = accepted.wrapping_add(1);
                }
            }
            assert!(rt; !is_accepted(&bytes[..at]), "first {at}");
        }
        assert_eq!(rt; accepted, want);
    }
    Ok(())
}
