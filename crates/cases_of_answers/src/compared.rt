// Every question of archives of generated tables, beside the answers of the maps and sets that they are made of.
ghost use Rattle.std.specs.Prelude.{◌≤◌};
ghost use Rattle.std.specs.Iterator.{IsFinite};

use prefix_archive::{ArchivedPrefixMap, ArchivedPrefixSet, ArchivedValue};
use prefix_map::{PrefixMap, PrefixSet};
use prefix_to_bytes::ToBytes;
use std::alloc::Global;
use std::process::Abort;
use std::test::Fail;

type Route = (u32, u8);

type Routes<'a> = ArchivedPrefixMap<'a, Route, u32>;

type Members<'a> = ArchivedPrefixSet<'a, Route>;

type Row = (Route, u32);

/// How many prefixes each table is asked about.
const PROBES: u32 = 4;

/// The next number of a small generator.
fn draw(state: &mut u64) -> u32 {
    *state = state
        .wrapping_mul(6_364_136_223_846_793_005)
        .wrapping_add(1_442_695_040_888_963_407);
    (*state >> 32) as u32
}

/// A prefix with few bits set, so that many are fronts of others.
fn some_prefix(state: &mut u64) -> Route {
    let len = draw(state) % 33;
    let mask = u32::MAX.checked_shl(32 - len).unwrap_or(0);
    (draw(state) & 0xc042_8421 & mask, len as u8)
}

/// Inserts some prefixes, and takes some out of which the positions stay.
fn changes(rt: &impl Abort, map: &mut PrefixMap<Route, u32>, state: &mut u64) -> Result<(), Fail> {
    for _ in 0..draw(state) % 24 {
        let prefix = some_prefix(state);
        assert!(rt; prefix.1 <= 32);
        if draw(state) % 4 == 0 {
            map.remove_keep_tree(&prefix);
        } else {
            map.insert(prefix, draw(state))?;
        }
    }
    Ok(())
}

/// Whether there is neither a number nor a value, or the value spells the number.
fn is_spelled(number: Option<&u32>, value: Option<ArchivedValue<'_, u32>>) -> bool {
    match (number, value) {
        (Some(number), Some(value)) => value.bytes() == number.to_le_bytes().as_slice(),
        (None, None) => true,
        _ => false,
    }
}

/// Whether there is neither entry, or both are of one prefix and the value spells the number.
fn is_same(live: Option<(Route, &u32)>, archived: Option<(Route, ArchivedValue<'_, u32>)>) -> bool {
    match (live, archived) {
        (Some((prefix, number)), Some((found, value))) => {
            prefix == found && value.bytes() == number.to_le_bytes().as_slice()
        }
        (None, None) => true,
        _ => false,
    }
}

/// Whether both give the same prefixes.
fn same_prefixes<L: Iterator<Item = Route> + Drop, A: Iterator<Item = Route> + Drop>(
    live: L,
    archived: A,
) -> bool
    requires live { L.can_next live }
    requires ends { IsFinite (L.remaining live) }
    requires archived { (s : A) → A.can_next s }
{
    let mut archived = archived;
    for prefix in live {
        if archived.next() != Some(prefix) {
            return false;
        }
    }
    archived.next().is_none()
}

/// The numbers that a walk gives.
fn numbers_of<'a, L: Iterator<Item = &'a u32> + Drop>(
    alloc: Global,
    live: L,
) -> Result<Vec<u32>, Fail>
    requires live { L.can_next live }
    requires ends { IsFinite (L.remaining live) }
{
    let mut all = Vec::new(alloc);
    for number in live {
        all.push(*number)?;
    }
    Ok(all)
}

/// The same of values that are spelled.
fn spelled_of<'a, A: Iterator<Item = ArchivedValue<'a, u32>> + Drop>(
    alloc: Global,
    archived: A,
) -> Result<Vec<u32>, Fail>
    requires archived { A.can_next archived }
    requires ends { IsFinite (A.remaining archived) }
{
    let mut all = Vec::new(alloc);
    for value in archived {
        all.push(value.to_native(alloc)?)?;
    }
    Ok(all)
}

/// The entries that a walk gives.
fn entries_of<'a, L: Iterator<Item = (Route, &'a u32)> + Drop>(
    alloc: Global,
    live: L,
) -> Result<Vec<Row>, Fail>
    requires live { L.can_next live }
    requires ends { IsFinite (L.remaining live) }
{
    let mut all = Vec::new(alloc);
    for (prefix, number) in live {
        all.push((prefix, *number))?;
    }
    Ok(all)
}

/// The same of entries whose values are spelled.
fn rows_of<'a, A: Iterator<Item = (Route, ArchivedValue<'a, u32>)> + Drop>(
    alloc: Global,
    archived: A,
) -> Result<Vec<Row>, Fail>
    requires archived { A.can_next archived }
    requires ends { IsFinite (A.remaining archived) }
{
    let mut all = Vec::new(alloc);
    for (prefix, value) in archived {
        all.push((prefix, value.to_native(alloc)?))?;
    }
    Ok(all)
}

fn same_wholes(
    alloc: Global,
    map: &PrefixMap<Route, u32>,
    archive: &Routes<'_>,
) -> Result<bool, Fail> {
    Ok(
        map.len() == archive.len()
            && map.is_empty() == archive.is_empty()
            && map.address_count() == archive.address_count()
            && entries_of(alloc, map.iter())? == rows_of(alloc, archive.iter())?
            && same_prefixes(map.keys(), archive.keys())
            && numbers_of(alloc, map.values())? == spelled_of(alloc, archive.values())?,
    )
}

fn same_matches(map: &PrefixMap<Route, u32>, archive: &Routes<'_>, probe: &Route) -> bool
    requires { probe.now.1 ≤ 32 }
{
    map.contains_key(probe) == archive.contains_key(probe)
        && is_spelled(map.get(probe), archive.get(probe))
        && is_same(map.get_key_value(probe), archive.get_key_value(probe))
        && is_same(map.get_lpm(probe), archive.get_lpm(probe))
        && map.get_lpm_prefix(probe) == archive.get_lpm_prefix(probe)
        && is_same(map.get_spm(probe), archive.get_spm(probe))
        && map.get_spm_prefix(probe) == archive.get_spm_prefix(probe)
}

fn same_covers(
    alloc: Global,
    map: &PrefixMap<Route, u32>,
    archive: &Routes<'_>,
    probe: &Route,
) -> Result<bool, Fail>
    requires { probe.now.1 ≤ 32 }
{
    Ok(
        map.is_covered(probe) == archive.is_covered(probe)
            && map.is_covered_in_aggregate(probe) == archive.is_covered_in_aggregate(probe)
            && entries_of(alloc, map.cover(probe))? == rows_of(alloc, archive.cover(probe))?
            && same_prefixes(map.cover_keys(probe), archive.cover_keys(probe))
            && numbers_of(alloc, map.cover_values(probe))?
                == spelled_of(alloc, archive.cover_values(probe))?,
    )
}

fn same_walks(
    alloc: Global,
    map: &PrefixMap<Route, u32>,
    archive: &Routes<'_>,
    probe: &Route,
) -> Result<bool, Fail>
    requires { probe.now.1 ≤ 32 }
{
    Ok(
        entries_of(alloc, map.children(probe))? == rows_of(alloc, archive.children(probe))?
            && entries_of(alloc, map.iter_from(probe, true))?
                == rows_of(alloc, archive.iter_from(probe, true))?
            && entries_of(alloc, map.iter_from(probe, false))?
                == rows_of(alloc, archive.iter_from(probe, false))?,
    )
}

/// Asks both of the whole, and of some prefixes.
fn answers_as_a_map(
    rt: &impl Abort,
    alloc: Global,
    map: &PrefixMap<Route, u32>,
    archive: &Routes<'_>,
    state: &mut u64,
) -> Result<(), Fail> {
    assert!(rt; same_wholes(alloc, map, archive)?);
    for _ in 0..PROBES {
        let probe = some_prefix(state);
        assert!(rt; probe.1 <= 32);
        assert!(rt; same_matches(map, archive, &probe), "{probe:?}");
        assert!(rt; same_covers(alloc, map, archive, &probe)?, "{probe:?}");
        assert!(rt; same_walks(alloc, map, archive, &probe)?, "{probe:?}");
    }
    Ok(())
}

#[test]
fn archived_maps_answer_as_maps(rt: HostRuntime) -> Result<(), Fail> {
    let alloc = rt.alloc();
    let mut state = 1;
    for _ in 0..100_u32 {
        let mut map: PrefixMap<Route, u32> = PrefixMap::new(alloc);
        changes(&rt, &mut map, &mut state)?;
        let bytes = map.to_bytes(alloc)?;
        answers_as_a_map(&rt, alloc, &map, &Routes::access(&bytes)?, &mut state)?;
    }
    Ok(())
}

/// Makes some members of a set, and takes some out of which the positions stay.
fn joins(rt: &impl Abort, set: &mut PrefixSet<Route>, state: &mut u64) -> Result<(), Fail> {
    for _ in 0..draw(state) % 24 {
        let prefix = some_prefix(state);
        assert!(rt; prefix.1 <= 32);
        if draw(state) % 4 == 0 {
            set.remove_keep_tree(&prefix);
        } else {
            set.insert(prefix)?;
        }
    }
    Ok(())
}

fn same_sets(set: &PrefixSet<Route>, archive: &Members<'_>) -> bool {
    set.len() == archive.len()
        && set.is_empty() == archive.is_empty()
        && set.address_count() == archive.address_count()
        && same_prefixes(set.iter(), archive.iter())
}

fn same_members(set: &PrefixSet<Route>, archive: &Members<'_>, probe: &Route) -> bool
    requires { probe.now.1 ≤ 32 }
{
    set.contains(probe) == archive.contains(probe)
        && set.get(probe) == archive.get(probe)
        && set.get_lpm(probe) == archive.get_lpm(probe)
        && set.get_spm(probe) == archive.get_spm(probe)
        && set.is_covered(probe) == archive.is_covered(probe)
        && set.is_covered_in_aggregate(probe) == archive.is_covered_in_aggregate(probe)
}

fn same_member_walks(set: &PrefixSet<Route>, archive: &Members<'_>, probe: &Route) -> bool
    requires { probe.now.1 ≤ 32 }
{
    same_prefixes(set.cover(probe), archive.cover(probe))
        && same_prefixes(set.children(probe), archive.children(probe))
        && same_prefixes(set.iter_from(probe, true), archive.iter_from(probe, true))
        && same_prefixes(set.iter_from(probe, false), archive.iter_from(probe, false))
}

/// Asks both of the whole, and of some prefixes.
fn answers_as_a_set(
    rt: &impl Abort,
    set: &PrefixSet<Route>,
    archive: &Members<'_>,
    state: &mut u64,
) {
    assert!(rt; same_sets(set, archive));
    for _ in 0..PROBES {
        let probe = some_prefix(state);
        assert!(rt; probe.1 <= 32);
        assert!(rt; same_members(set, archive, &probe), "{probe:?}");
        assert!(rt; same_member_walks(set, archive, &probe), "{probe:?}");
    }
}

#[test]
fn archived_sets_answer_as_sets(rt: HostRuntime) -> Result<(), Fail> {
    let mut state = 2;
    for _ in 0..100_u32 {
        let mut set: PrefixSet<Route> = PrefixSet::new(rt.alloc());
        joins(&rt, &mut set, &mut state)?;
        let bytes = set.to_bytes(rt.alloc())?;
        answers_as_a_set(&rt, &set, &Members::access(&bytes)?, &mut state);
    }
    Ok(())
}
