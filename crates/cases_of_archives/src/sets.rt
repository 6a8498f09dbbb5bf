// Archives of sets.
use crate::words::{EMPTY, Pair, bytes_of, joined};
use prefix_archive::ArchivedPrefixSet;
use prefix_joint_archive_set::ArchivedJointPrefixSet;
use std::process::Abort;
use std::test::Fail;

type Members<'a> = ArchivedPrefixSet<'a, (u32, u8)>;

const A_HALF: &[u32] = &[1, 1, 2, 0, 0, 1];

fn is_a_half(rt: &impl Abort, set: &Members<'_>) {
    assert!(rt; set.contains(&(0, 1)));
    assert_eq!(rt; (set.len(), set.node_count()), (1, 1));
    assert_eq!(rt; set.get_lpm(&(0x7000_0000, 4)), Some((0, 1)));
    assert_eq!(rt; set.get_spm(&(0x8000_0000, 4)), None);
}

fn a_half_is_walked(rt: &impl Abort, set: &Members<'_>) {
    assert_eq!(rt; set.iter().next(), Some((0, 1)));
    assert_eq!(rt; set.iter_from(&(0, 1), false).next(), None);
    assert_eq!(rt; set.children(&(0, 0)).next(), Some((0, 1)));
    assert_eq!(rt; set.cover(&(0x7000_0000, 4)).next(), Some((0, 1)));
    assert_eq!(rt; set.address_count(), Some(0x8000_0000));
    assert!(rt; !set.is_covered_in_aggregate(&(0, 0)));
}

#[test]
fn set_of_a_half(rt: HostRuntime) -> Result<(), Fail> {
    let bytes = bytes_of(rt.alloc(), A_HALF, &[])?;
    let set = Members::access(&bytes)?;
    is_a_half(&rt, &set);
    a_half_is_walked(&rt, &set);
    assert!(rt; set == set);
    Ok(())
}

#[test]
fn sets_of_two_families(rt: HostRuntime) -> Result<(), Fail> {
    let bytes = joined(rt.alloc(), A_HALF, EMPTY)?;
    let sets = ArchivedJointPrefixSet::<Pair>::access(&bytes)?;
    assert_eq!(rt; (sets.t1.len(), sets.t2.len(), sets.len()), (1, 0, 1));
    assert!(rt; sets.t2.is_empty() && !sets.is_empty());
    is_a_half(&rt, &sets.t1);
    Ok(())
}
