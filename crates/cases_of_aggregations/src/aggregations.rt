ghost use Rattle.std.specs.Prelude.{◌≡◌, IfOk};
ghost use Rattle.prefix_model.specs.Tables.{HasWidth};

use prefix_aggregate::{
    ChangeSets, address_count, aggregate_consistent_map, aggregate_consistent_set,
    aggregate_fill_map, aggregate_map, aggregate_set, change_sets, covers_in_aggregate,
};
use prefix_table::{Bits, Key, MAX_ENTRIES, Table};
use std::alloc::{AllocError, Global};
use std::process::Abort;
use std::test::Fail;

const ONE: u32 = 0x8000_0000;

type Row<R> = (R, u32, u32);

/// The table of these entries.
fn table_of<R: Bits, T: Drop + From<u32>>(
    rt: &impl Abort,
    alloc: Global,
    rows: &[Row<R>],
) -> Result<Table<T>, Fail>
    ensures { IfOk result (λ table. HasWidth R.WIDTH table.entries) }
{
    let mut table = Table::new(alloc);
    for (key, len, value) in rows {
        assert!(rt; *len <= R::WIDTH);
        if let Err(_) = table.insert(*key, *len, T::from(*value)) {
            return Err(AllocError)?;
        }
    }
    Ok(table)
}

/// Whether a table has these entries and no others.
fn has_entries<R: Bits, T: Drop + From<u32> + PartialEq>(
    rt: &impl Abort,
    table: &Table<T>,
    rows: &[Row<R>],
) -> bool {
    for (key, len, value) in rows {
        assert!(rt; *len <= R::WIDTH);
        if table.get(*key, *len) != Some(&T::from(*value)) {
            return false;
        }
    }
    table.len() == rows.len()
}

/// Whether the first table is aggregated to the second, and stays as it is.
fn gives<R: Bits>(
    rt: &impl Abort,
    alloc: Global,
    rows: &[Row<R>],
    want: &[Row<R>],
) -> Result<bool, Fail> {
    let table: Table<u32> = table_of(rt, alloc, rows)?;
    let least = aggregate_map::<R, u32>(alloc, &table)?;
    Ok(has_entries(rt, &table, rows) && has_entries(rt, &least, want))
}

#[test]
fn gives_fewest_entries(rt: HostRuntime) -> Result<(), Fail> {
    let cases: [(&str, &[Row<u32>], &[Row<u32>]); 10] = [
        ("nothing", &[], &[]),
        (
            "two halves",
            &[(0, 1, 1), (ONE, 1, 2)],
            &[(0, 0, 1), (ONE, 1, 2)],
        ),
        ("equal halves", &[(0, 1, 7), (ONE, 1, 7)], &[(0, 0, 7)]),
        ("beside a hole", &[(ONE, 1, 7), (ONE, 2, 7)], &[(ONE, 1, 7)]),
        ("beside a hole, alone", &[(ONE, 2, 7)], &[(ONE, 2, 7)]),
        (
            "four quarters",
            &[
                (0, 2, 1),
                (0x4000_0000, 2, 2),
                (ONE, 2, 2),
                (0xc000_0000, 2, 3),
            ],
            &[(0, 0, 2), (0, 2, 1), (0xc000_0000, 2, 3)],
        ),
        (
            "default and half",
            &[(0, 0, 1), (ONE, 1, 2)],
            &[(0, 0, 1), (ONE, 1, 2)],
        ),
        (
            "default and other half",
            &[(0, 0, 2), (0, 1, 1)],
            &[(0, 0, 1), (ONE, 1, 2)],
        ),
        (
            "across nodes",
            &[(0, 4, 1), (0, 5, 2), (0x1000_0000, 4, 2)],
            &[(0, 3, 2), (0x0800_0000, 5, 1)],
        ),
        (
            "two host routes",
            &[(0x0102_0304, 32, 5), (0x0102_0305, 32, 5)],
            &[(0x0102_0304, 31, 5)],
        ),
    ];
    for (name, rows, want) in cases {
        assert!(rt; gives(&rt, rt.alloc(), rows, want)?, "{name}");
    }
    Ok(())
}

#[test]
fn reads_wide_keys(rt: HostRuntime) -> Result<(), Fail> {
    let site = 0x2001_0db8_0000_0000_0000_0000_0000_0000_u128;
    let rows = [
        (0, 0, 1),
        (site, 32, 2),
        (site, 128, 1),
        (site + 1, 128, 1),
        (site + 2, 127, 2),
    ];
    assert!(rt;
        gives(
            &rt,
            rt.alloc(),
            &rows,
            &[(0, 0, 1), (site, 32, 2), (site, 127, 1)]
        )?
    );
    Ok(())
}

/// A value of which there is no copy where it is 9.
#[derive(Drop, PartialEq, Eq, PartialOrd, Ord)]
struct Scarce(u32);

impl Clone for Scarce {
    ghost use Rattle.std.specs.Prelude.{◌≡◌};

    ghost is_clone = { λ x y. y ≡ x };

    fn clone(&self) -> Result<Self, AllocError> {
        if self.0 == 9 {
            Err(AllocError)
        } else {
            Ok(Scarce(self.0))
        }
    }
}

impl From<u32> for Scarce {
    fn from(value: u32) -> Self {
        Scarce(value)
    }
}

#[test]
fn stops_at_a_refused_copy(rt: HostRuntime) -> Result<(), Fail> {
    let rows: [Row<u32>; 3] = [(0, 1, 1), (ONE, 2, 2), (0xc000_0000, 2, 9)];
    let table: Table<Scarce> = table_of(&rt, rt.alloc(), &rows)?;
    assert!(rt; aggregate_map::<u32, Scarce>(rt.alloc(), &table).is_err());
    assert!(rt;
        has_entries(&rt, &table, &rows),
        "the table that is read stays"
    );

    let hidden: [Row<u32>; 3] = [(0, 0, 9), (0, 1, 1), (ONE, 1, 1)];
    let table: Table<Scarce> = table_of(&rt, rt.alloc(), &hidden)?;
    let least = aggregate_map::<u32, Scarce>(rt.alloc(), &table)?;
    assert!(rt;
        has_entries(&rt, &least, &[(0_u32, 0, 1)]),
        "a value that is not placed is not copied"
    );
    Ok(())
}

/// The value at the longest stored front of an address.
fn longest_match<T>(table: &Table<T>, address: u32) -> Option<&T> {
    let mut found = None;
    for len in 0..33 {
        if let Some(value) = table.get(address, len) {
            found = Some(value);
        }
    }
    found
}

/// Entries of at most six bits, with three values.
fn some_rows(alloc: Global, seed: u32) -> Result<Vec<Row<u32>>, AllocError> {
    let mut rows = Vec::new(alloc);
    let mut state = seed;
    for _ in 0..seed % 12 {
        state = state.wrapping_mul(0x915f_77f5).wrapping_add(0x3c6e_f35f);
        let len = (state >> 13) % 7;
        rows.push((state, len, (state >> 17) % 3))?;
    }
    Ok(rows)
}

#[test]
fn keeps_answers(rt: HostRuntime) -> Result<(), Fail> {
    for seed in 0..300 {
        let rows = some_rows(rt.alloc(), seed)?;
        let table: Table<u32> = table_of(&rt, rt.alloc(), &rows)?;
        let least = aggregate_map::<u32, u32>(rt.alloc(), &table)?;
        for front in 0_u32..64 {
            let address = (front << 26) | 0x2aa_5555;
            assert_eq!(rt;
                longest_match(&least, address),
                longest_match(&table, address),
                "table {seed} at {front}"
            );
        }
        assert!(rt; least.len() <= table.len(), "table {seed}");
    }
    Ok(())
}

/// The set of these members.
fn set_of<R: Bits>(rt: &impl Abort, alloc: Global, members: &[(R, u32)]) -> Result<Table<()>, Fail>
    ensures { IfOk result (λ set. HasWidth R.WIDTH set.entries) }
{
    let mut set = Table::new(alloc);
    for (key, len) in members {
        assert!(rt; *len <= R::WIDTH);
        if let Err(_) = set.insert(*key, *len, ()) {
            return Err(AllocError)?;
        }
    }
    Ok(set)
}

/// Whether a set has these members and no others.
fn has_members<R: Bits>(rt: &impl Abort, set: &Table<()>, members: &[(R, u32)]) -> bool {
    for (key, len) in members {
        assert!(rt; *len <= R::WIDTH);
        if set.get(*key, *len).is_none() {
            return false;
        }
    }
    set.len() == members.len()
}

/// Whether a table is filled with a value to the first of these tables, and made consistent to the second.
fn fills<R: Bits>(
    rt: &impl Abort,
    alloc: Global,
    rows: &[Row<R>],
    filled: &[Row<R>],
    consistent: &[Row<R>],
) -> Result<bool, Fail> {
    let table: Table<u32> = table_of(rt, alloc, rows)?;
    assert!(rt; table.len() < MAX_ENTRIES);
    let whole = aggregate_fill_map::<R, u32>(alloc, &table, &0)?;
    let parts = aggregate_consistent_map::<R, u32>(alloc, &table)?;
    Ok(has_entries(rt, &whole, filled) && has_entries(rt, &parts, consistent))
}

#[test]
fn fills_and_drops(rt: HostRuntime) -> Result<(), Fail> {
    let cases: [(&str, &[Row<u32>], &[Row<u32>], &[Row<u32>]); 2] = [
        (
            "one half",
            &[(ONE, 1, 7)],
            &[(0, 0, 0), (ONE, 1, 7)],
            &[(ONE, 1, 7)],
        ),
        (
            "what repeats",
            &[(0, 0, 1), (0, 1, 1), (0, 2, 2), (0, 3, 2), (ONE >> 2, 3, 1)],
            &[(0, 0, 1), (0, 3, 2)],
            &[(0, 0, 1), (0, 2, 2), (ONE >> 2, 3, 1)],
        ),
    ];
    for (name, rows, filled, consistent) in cases {
        assert!(rt; fills(&rt, rt.alloc(), rows, filled, consistent)?, "{name}");
    }
    Ok(())
}

/// Whether a set is aggregated to the first of these sets, and made consistent to the second.
fn gives_sets<R: Bits>(
    rt: &impl Abort,
    alloc: Global,
    members: &[(R, u32)],
    least: &[(R, u32)],
    consistent: &[(R, u32)],
) -> Result<bool, Fail> {
    let set = set_of(rt, alloc, members)?;
    let whole = aggregate_set::<R>(alloc, &set)?;
    let parts = aggregate_consistent_set::<R>(alloc, &set)?;
    Ok(has_members(rt, &whole, least) && has_members(rt, &parts, consistent))
}

#[test]
fn aggregates_sets(rt: HostRuntime) -> Result<(), Fail> {
    let halves = [(0_u32, 1), (ONE, 1)];
    let members = [(0, 1), (0, 2), (ONE, 1), (ONE, 2)];
    assert!(rt; gives_sets(&rt, rt.alloc(), &halves, &[(0, 0)], &halves)?);
    assert!(rt; gives_sets(&rt, rt.alloc(), &members, &[(0, 0)], &halves)?);
    Ok(())
}

/// Whether a set covers just what these rows say, and as many addresses.
fn covers<R: Key>(
    rt: &impl Abort,
    alloc: Global,
    members: &[(R, u32)],
    count: Option<R>,
    rows: &[(R, u32, bool)],
) -> Result<bool, Fail> {
    let set = set_of(rt, alloc, members)?;
    for (key, len, want) in rows {
        assert!(rt; *len <= R::WIDTH);
        if covers_in_aggregate(&set, *key, *len) != *want {
            return Ok(false);
        }
    }
    Ok(address_count::<R, ()>(&set) == count)
}

#[test]
fn covers_and_counts(rt: HostRuntime) -> Result<(), Fail> {
    let cases: [(&str, &[(u32, u32)], Option<u32>, &[(u32, u32, bool)]); 5] = [
        ("two halves", &[(0, 1), (ONE, 1)], None, &[(0, 0, true)]),
        (
            "one octet",
            &[(0x0a00_0000, 8)],
            Some(1 << 24),
            &[(0, 4, false)],
        ),
        (
            "across nodes",
            &[(0x0a00_0000, 9), (0x0a80_0000, 9)],
            Some(1 << 24),
            &[
                (0x0a00_0000, 8, true),
                (0x0a00_0000, 7, false),
                (0x0a80_0000, 9, true),
                (0x0a80_0001, 32, true),
                (0x0b00_0000, 32, false),
            ],
        ),
        (
            "hosts",
            &[(4, 31), (6, 32), (7, 32), (9, 32)],
            Some(5),
            &[(4, 30, true), (6, 31, true), (8, 31, false), (9, 32, true)],
        ),
        (
            "members within members",
            &[
                (0x0a00_0000, 9),
                (0x0a80_0000, 12),
                (0x0a80_0000, 13),
                (0x0a81_0000, 24),
                (0x0b00_0001, 32),
                (0x0b00_0000, 31),
            ],
            Some((1 << 23) + (1 << 20) + 2),
            &[],
        ),
    ];
    for (name, members, count, rows) in cases {
        assert!(rt; covers(&rt, rt.alloc(), members, count, rows)?, "{name}");
    }
    Ok(())
}

/// The change sets of a table without a default.
fn changes_of(alloc: Global, table: &Table<u32>) -> Result<ChangeSets<u32>, AllocError>
    requires { HasWidth 32 table.now.entries }
{
    change_sets::<u32, u32>(alloc, table, None)
}

/// Whether a table has these masks and these lists; an empty list stands for a hole.
fn has_changes(
    rt: &impl Abort,
    alloc: Global,
    rows: &[Row<u32>],
    masks: &[u32],
    lists: &[&[u32]],
) -> Result<bool, Fail> {
    let table: Table<u32> = table_of(rt, alloc, rows)?;
    let sets = changes_of(alloc, &table)?;
    if sets.len() != lists.len() {
        return Ok(false);
    }
    let mut same = sets.masks() == masks;
    for i in 0..lists.len() {
        same = same
            && match sets.list(i) {
                Some(list) => list == lists[i],
                None => lists[i].is_empty(),
            };
    }
    Ok(same)
}

#[test]
fn tells_change_sets(rt: HostRuntime) -> Result<(), Fail> {
    let quarters = [
        (0, 2, 1),
        (0x4000_0000, 2, 2),
        (ONE, 2, 2),
        (0xc000_0000, 2, 3),
    ];
    assert!(rt;
        has_changes(
            &rt,
            rt.alloc(),
            &quarters,
            &[0x7f],
            &[&[2], &[1, 2], &[2, 3], &[1], &[2], &[2], &[3]]
        )?
    );
    let nodes = [(0, 4, 1), (0, 5, 2), (0x1000_0000, 4, 2)];
    assert!(rt;
        has_changes(
            &rt,
            rt.alloc(),
            &nodes,
            &[0x8081, 0x1],
            &[&[], &[2], &[1, 2], &[2]]
        )?
    );
    Ok(())
}
