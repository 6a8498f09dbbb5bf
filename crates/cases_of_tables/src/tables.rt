ghost use Rattle.std.specs.Prelude.{◌≤◌, IfOk};
ghost use Rattle.prefix_model.specs.Tables.{HasWidth};

use prefix_table::{Table, TableWriter};
use std::alloc::Global;
use std::process::Abort;
use std::test::Fail;

type Row = (u32, u32, u32);

/// A table of these rows: a key, its length, and the value.
fn table_of(rt: &impl Abort, alloc: Global, rows: &[Row]) -> Result<Table<u32>, Fail>
    ensures { IfOk result (λ table. HasWidth 32 table.entries) }
{
    let mut table = Table::new(alloc);
    for (key, len, value) in rows {
        assert!(rt; *len <= 32);
        table.insert(*key, *len, *value)?;
    }
    Ok(table)
}

/// The value at a key of up to 32 bits.
fn value_of(rt: &impl Abort, table: &Table<u32>, key: u32, len: u32) -> Option<u32> {
    assert!(rt; len <= 32);
    table.get(key, len).copied()
}

/// Takes a key of up to 32 bits away, and its bare nodes where these are to go.
fn take(rt: &impl Abort, table: &mut Table<u32>, key: u32, len: u32, prune: bool) -> Option<u32> {
    assert!(rt; len <= 32);
    if prune {
        table.remove(key, len)
    } else {
        table.remove_keep_tree(key, len)
    }
}

/// The bitmaps along these children, from the root: the data bits and the child bits.
fn walk(rt: &impl Abort, table: &Table<u32>, ways: &[u32]) -> (u32, u32) {
    let mut at = table.root();
    for bit in ways {
        assert!(rt; *bit < 32);
        match table.child(at, *bit) {
            Some(child) => at = child,
            None => panic!(rt; "no child {bit}"),
        }
    }
    let node = table.node(at);
    (node.data_bits, node.child_bits)
}

#[test]
fn stands_in_nodes_of_five_levels(rt: HostRuntime) -> Result<(), Fail> {
    let rows = [
        (0, 0, 1),
        (0x0a00_0000, 8, 2),
        (0x0a01_0000, 16, 3),
        (0xffff_ffff, 0, 4),
        (0x0102_0304, 32, 5),
        (0x0102_0305, 32, 6),
    ];
    let table = table_of(&rt, rt.alloc(), &rows)?;
    assert_eq!(rt; table.len(), 5, "the bits behind a key do not count");
    for (key, len, want) in [
        (0, 0, Some(4)),
        (0x0a00_0000, 8, Some(2)),
        (0x0a00_0000, 9, None),
        (0x0a01_0000, 16, Some(3)),
        (0x0102_0304, 32, Some(5)),
        (0x0102_0306, 32, None),
    ] {
        assert_eq!(rt; value_of(&rt, &table, key, len), want, "at {len}");
    }
    assert_eq!(rt; walk(&rt, &table, &[]), (0x1, 0x3));
    assert_eq!(rt; walk(&rt, &table, &[1]), (0x200, 0x100));
    assert_eq!(rt; walk(&rt, &table, &[0, 4, 1, 0, 6, 1]), (0x18, 0));
    Ok(())
}

#[test]
fn serves_two_widths(rt: HostRuntime) -> Result<(), Fail> {
    let mut table = Table::new(rt.alloc());
    let key = 0x2001_0db8_0001_0000_0000_0000_0000_0001_u128;
    assert_eq!(rt; table.insert(key, 128, 5_u32)?, None);
    assert_eq!(rt; table.insert(0x2001_0db8_u32, 32, 6)?, None);
    assert_eq!(rt; table.get(0x2001_0db8_u128 << 96, 32), Some(&6));
    assert_eq!(rt; walk(&rt, &table, &[4, 0, 0]), (0, 0x10000));
    Ok(())
}

#[test]
fn keeps_an_empty_position(rt: HostRuntime) -> Result<(), Fail> {
    let rows = [
        (0x0a00_0000, 8, 1),
        (0x0a01_0000, 16, 2),
        (0xf000_0000, 6, 3),
    ];
    let mut table = table_of(&rt, rt.alloc(), &rows)?;
    assert_eq!(rt; take(&rt, &mut table, 0xf000_0000, 7, true), None);
    assert_eq!(rt; take(&rt, &mut table, 0xf000_0000, 6, false), Some(3));
    assert_eq!(rt; walk(&rt, &table, &[]), (0, 0x4000_0002));
    assert_eq!(rt; take(&rt, &mut table, 0xf000_0000, 6, true), None);
    assert_eq!(rt; walk(&rt, &table, &[]), (0, 0x2));
    assert_eq!(rt; take(&rt, &mut table, 0x0a00_0000, 8, true), Some(1));
    assert_eq!(rt; walk(&rt, &table, &[1]), (0, 0x100));
    assert_eq!(rt; take(&rt, &mut table, 0x0a01_0000, 16, true), Some(2));
    assert_eq!(rt; walk(&rt, &table, &[]), (0, 0));
    Ok(())
}

/// What a pseudo-random generator gives next.
fn draw(x: &mut u32) -> u32 {
    *x = x.wrapping_mul(1_664_525).wrapping_add(1_013_904_223);
    *x
}

#[test]
fn keeps_many_entries(rt: HostRuntime) -> Result<(), Fail> {
    let mut table = table_of(&rt, rt.alloc(), &[])?;
    let mut x = 1;
    for i in 0..2000_u32 {
        let key = draw(&mut x);
        table.insert(key, 8 + (key >> 16) % 25, i)?;
    }
    let full = table.len();
    assert!(rt; full > 1800);
    x = 1;
    for _ in 0..2000_u32 {
        let key = draw(&mut x);
        let len = 8 + (key >> 16) % 25;
        let there = value_of(&rt, &table, key, len);
        assert_eq!(rt; take(&rt, &mut table, key, len, true), there);
    }
    assert_eq!(rt; table.len(), 0);
    assert_eq!(rt; walk(&rt, &table, &[]), (0, 0));
    Ok(())
}

#[test]
fn writes_in_any_order(rt: HostRuntime) -> Result<(), Fail> {
    let mut writer = TableWriter::new(rt.alloc());
    for (key, len, value) in [
        (0x0a00_0000_u32, 8, 1_u32),
        (0x0a01_0000, 16, 2),
        (0x0a01_0200, 24, 3),
        (0xf000_0000, 6, 4),
        (0, 0, 5),
        (0x0a01_0300, 24, 6),
        (0x0a01_0001, 16, 7),
    ] {
        assert!(rt; len <= 32);
        let before = writer.insert(key, len, value)?;
        assert_eq!(rt; before, if value == 7 { Some(2) } else { None });
    }
    let table = writer.into_table();
    assert_eq!(rt; table.len(), 6);
    assert_eq!(rt; value_of(&rt, &table, 0x0a01_0000, 16), Some(7));
    assert_eq!(rt; walk(&rt, &table, &[]), (0x1, 0x4000_0002));
    assert_eq!(rt; walk(&rt, &table, &[1, 8, 0, 16]), (0x6_0000, 0));
    Ok(())
}

/// Keeps the entries with an even value: how many it asked about, and whether these came in key order.
fn keep_even(table: &mut Table<u32>) -> (u32, bool)
    requires { HasWidth 32 table.old.entries }
{
    let mut asked = 0_u32;
    let mut in_order = true;
    let mut last = 0_u64;
    table.retain(|key: u32, len: u32, value: &u32| {
        let at = (u64::from(key) << 6) | u64::from(len);
        in_order = in_order && (asked == 0 || last < at);
        asked = asked.wrapping_add(1);
        last = at;
        *value % 2 == 0
    });
    (asked, in_order)
}

#[test]
fn asks_about_each_entry(rt: HostRuntime) -> Result<(), Fail> {
    let rows = [
        (0xf000_0000, 6, 1),
        (0x0a01_0000, 16, 2),
        (0, 0, 4),
        (0x0a00_0000, 8, 3),
        (0x0a01_0200, 24, 5),
        (0, 1, 6),
    ];
    let mut table = table_of(&rt, rt.alloc(), &rows)?;
    assert_eq!(rt; keep_even(&mut table), (6, true));
    assert_eq!(rt; table.len(), 3);
    for (key, len, value) in rows {
        let want = if value % 2 == 0 { Some(value) } else { None };
        assert_eq!(rt; value_of(&rt, &table, key, len), want, "of {value}");
    }
    assert_eq!(rt; walk(&rt, &table, &[]), (0x3, 0x2));
    assert_eq!(rt; walk(&rt, &table, &[1, 8, 0]), (0x4, 0));
    Ok(())
}
