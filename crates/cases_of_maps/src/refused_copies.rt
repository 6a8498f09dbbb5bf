// Maps of values that can't all be copied.
use prefix_map::PrefixMap;
use prefix_table::MAX_ENTRIES;
use std::alloc::AllocError;
use std::process::Abort;
use std::test::Fail;

type Route = (u32, u8);

/// A number that can't be copied where it is 9.
#[derive(Drop, Debug, PartialEq, Eq, PartialOrd, Ord)]
struct Scarce(u32);

impl Clone for Scarce {
    ghost use Rattle.std.specs.Prelude.{◌≡◌};

    ghost is_clone = { λ x y. y ≡ x };

    fn clone(&self) -> Result<Self, AllocError> {
        if self.0 == 9 {
            Err(AllocError)
        } else {
            Ok(Scarce(self.0))
        }
    }
}

/// Whether the map has the entries that it was given, and the position that it kept.
fn is_as_made(map: &PrefixMap<Route, Scarce>) -> bool {
    let table = map.table();
    let bits = table.node(table.root());
    map.len() == 3
        && map.get(&(0, 1)) == Some(&Scarce(1))
        && map.get(&(0x8000_0000, 2)) == Some(&Scarce(1))
        && map.get(&(0xc000_0000, 2)) == Some(&Scarce(9))
        && bits.data_bits == 1 << 1 | 1 << 5 | 1 << 6
        && bits.child_bits == 1 << 30
}

/// Each aggregation is refused, and changes nothing.
fn refuses_each(rt: &impl Abort, map: &mut PrefixMap<Route, Scarce>) -> Result<(), Fail> {
    assert!(rt; map.aggregate().is_err());
    assert!(rt; is_as_made(map), "aggregate");
    assert!(rt; map.len() < MAX_ENTRIES);
    assert!(rt; map.aggregate_fill(|| Scarce(0)).is_err());
    assert!(rt; is_as_made(map), "aggregate_fill");
    assert!(rt; map.aggregate_consistent().is_err());
    assert!(rt; is_as_made(map), "aggregate_consistent");
    assert!(rt; map.try_clone().is_err());
    assert!(rt; is_as_made(map), "try_clone");
    Ok(())
}

#[test]
fn a_refused_copy_changes_nothing(rt: HostRuntime) -> Result<(), Fail> {
    let mut map: PrefixMap<Route, Scarce> = PrefixMap::new(rt.alloc());
    map.insert((0, 1), Scarce(1))?;
    map.insert((0x8000_0000, 2), Scarce(1))?;
    map.insert((0xc000_0000, 2), Scarce(9))?;
    map.insert((0xf000_0000, 6), Scarce(2))?;
    assert_eq!(rt; map.remove_keep_tree(&(0xf000_0000, 6)), Some(Scarce(2)));
    assert!(rt; is_as_made(&map));
    refuses_each(&rt, &mut map)
}
