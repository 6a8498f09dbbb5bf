// Archives of maps and sets of two families, there and back, and each question of them.
use crate::words::{EMPTY, ONE_OCTET, Pair, joined};
use either::{Left, Right};
use prefix_joint::JointPrefixMap;
use prefix_joint_archive::ArchivedJointPrefixMap;
use prefix_joint_archive_set::ArchivedJointPrefixSet;
use prefix_joint_set::JointPrefixSet;
use prefix_to_bytes::ToBytes;
use std::process::Abort;
use std::test::Fail;

type Routes<'a> = ArchivedJointPrefixMap<'a, Pair, u32>;

type Members<'a> = ArchivedJointPrefixSet<'a, Pair>;

// The lower half of the first family.
const A_HALF: &[u32] = &[1, 1, 2, 0, 0, 1];

const OCTET: Pair = Left((0x0a00_0000, 8));

const HALF: Pair = Left((0, 1));

const SITE: Pair = Right((0x2001_0db8_0000_0000_0000_0000_0000_0000, 32));

fn has_one_octet(rt: &impl Abort, map: &JointPrefixMap<Pair, u32>) {
    assert_eq!(rt; map.get(&OCTET), Some(&1));
    assert_eq!(rt; (map.t1.len(), map.t2.len()), (1, 0));
}

#[test]
fn one_octet_there_and_back(rt: HostRuntime) -> Result<(), Fail> {
    let alloc = rt.alloc();
    let bytes = joined(alloc, ONE_OCTET, EMPTY)?;
    let archive = Routes::access(&bytes)?;
    let map = archive.deserialize(alloc)?;
    has_one_octet(&rt, &map);
    assert!(rt; map.to_bytes(alloc)? == bytes);
    Ok(())
}

#[test]
fn a_half_there_and_back(rt: HostRuntime) -> Result<(), Fail> {
    let alloc = rt.alloc();
    let mut set: JointPrefixSet<Pair> = JointPrefixSet::new(alloc);
    set.insert(HALF)?;
    let bytes = set.to_bytes(alloc)?;
    assert!(rt; bytes == joined(alloc, A_HALF, EMPTY)?);
    let archive = Members::access(&bytes)?;
    let again = archive.deserialize(alloc)?;
    assert!(rt; again.contains(&HALF));
    assert_eq!(rt; again.len(), 1);
    Ok(())
}

fn is_found(rt: &impl Abort, map: &Routes<'_>) {
    assert!(rt; map.contains_key(&OCTET) && map.is_covered(&OCTET));
    assert!(rt; map.get(&OCTET).is_some() && map.get(&SITE).is_none());
    assert!(rt; map.get_key_value(&SITE).is_none());
    assert_eq!(rt; map.get_lpm_prefix(&Left((0x0a01_0000, 16))), Some(OCTET));
    assert_eq!(rt; map.get_spm_prefix(&Left((0x0a01_0000, 16))), Some(OCTET));
    assert!(rt; map.get_lpm(&SITE).is_none() && map.get_spm(&SITE).is_none());
    assert!(rt; map.is_covered_in_aggregate(&OCTET) && !map.is_covered_in_aggregate(&SITE));
    assert_eq!(rt; map.address_count(), (Some(0x0100_0000), Some(0)));
}

fn is_walked(rt: &impl Abort, map: &Routes<'_>) {
    assert_eq!(rt; map.keys().next(), Some(OCTET));
    assert!(rt; map.iter().next().is_some() && map.values().next().is_some());
    assert!(rt; map.iter_from(&SITE, true).next().is_none());
    assert!(rt; map.iter_from(&OCTET, false).next().is_none());
    assert!(rt; map.children(&HALF).next().is_some());
    assert_eq!(rt;
        map.cover_keys(&Left((0x0a01_0000, 16))).next(),
        Some(OCTET)
    );
    assert!(rt; map.cover(&OCTET).next().is_some() && map.cover_values(&SITE).next().is_none());
}

#[test]
fn questions_of_a_joint_map(rt: HostRuntime) -> Result<(), Fail> {
    let bytes = joined(rt.alloc(), ONE_OCTET, EMPTY)?;
    let map = Routes::access(&bytes)?;
    is_found(&rt, &map);
    is_walked(&rt, &map);
    Ok(())
}

fn is_a_half(rt: &impl Abort, set: &Members<'_>) {
    assert!(rt; set.contains(&HALF) && !set.contains(&SITE));
    assert_eq!(rt; set.get(&HALF), Some(HALF));
    assert_eq!(rt;
        (set.get_lpm(&OCTET), set.get_spm(&OCTET)),
        (Some(HALF), Some(HALF))
    );
    assert!(rt; set.is_covered(&OCTET) && set.is_covered_in_aggregate(&OCTET));
    assert_eq!(rt; set.address_count(), (Some(0x8000_0000), Some(0)));
    assert_eq!(rt;
        (set.iter().next(), set.iter_from(&HALF, false).next()),
        (Some(HALF), None)
    );
    assert_eq!(rt; set.children(&HALF).next(), Some(HALF));
    assert_eq!(rt; set.cover(&OCTET).next(), Some(HALF));
}

#[test]
fn questions_of_a_joint_set(rt: HostRuntime) -> Result<(), Fail> {
    let bytes = joined(rt.alloc(), A_HALF, EMPTY)?;
    let set = Members::access(&bytes)?;
    is_a_half(&rt, &set);
    assert!(rt; set == set);
    Ok(())
}
