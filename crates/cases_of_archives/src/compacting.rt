// What compacting gives, with bytes worked out by hand.
ghost use Rattle.std.specs.Prelude.{◌≡◌, IfOk};
ghost use Rattle.std.proofs.lemmas.Map.Lookups.{CmpEqualImpliesEq};
ghost use Rattle.prefix_model.specs.Spelling.{u32_codec};
ghost use Rattle.prefix_joint_archive.specs.Compacting.{IsCompacted};

use crate::words::{
    ACROSS_NODES, EMPTY, FOUR_QUARTERS, ONE_OCTET, Pair, bytes_of, joined, push_words,
};
use either::Either;
use prefix_joint::JointPrefix;
use prefix_joint_archive::compact_archive;
use prefix_layout::{ArchiveError, ValueCodec};
use std::alloc::Global;
use std::test::Fail;

type Twins = Either<(u32, u8), (u32, u8)>;

// Whether bytes are compacted to others, and these to themselves.
fn gives<P: JointPrefix, T: ValueCodec + Clone + Drop>(
    alloc: Global,
    bytes: &[u8],
    want: &[u8],
) -> Result<bool, Fail>
    requires order { CmpEqualImpliesEq T.cmp }
    requires clones { (x y : T) → T.is_clone x y → y ≡ x }
{
    let once = compact_archive::<P, T>(alloc, bytes)?;
    let twice = compact_archive::<P, T>(alloc, &once)?;
    Ok(once.as_slice() == want && twice.as_slice() == want)
}

// The archive of both routing tables with the fewest routes.
fn compact_routes(alloc: Global, bytes: &[u8]) -> Result<Vec<u8>, ArchiveError>
    ensures { IfOk result (λ output. IsCompacted u32_codec 32 128 bytes.now output.items) }
{
    compact_archive::<Either<(u32, u8), (u128, u8)>, u32>(alloc, bytes)
}

const ROWS: [(&str, &[u32], &[u32]); 12] = [
    ("nothing", EMPTY, EMPTY),
    ("one octet", ONE_OCTET, ONE_OCTET),
    (
        "two halves",
        &[1, 2, 0x6, 0, 0, 1, 1, 2],
        &[1, 2, 0x5, 0, 0, 1, 1, 2],
    ),
    (
        "equal halves",
        &[1, 2, 0x6, 0, 0, 1, 7, 7],
        &[1, 1, 0x1, 0, 0, 1, 7],
    ),
    (
        "beside a hole",
        &[1, 2, 0x24, 0, 0, 1, 7, 7],
        &[1, 1, 0x4, 0, 0, 1, 7],
    ),
    (
        "beside a hole, alone",
        &[1, 1, 0x20, 0, 0, 1, 7],
        &[1, 1, 0x20, 0, 0, 1, 7],
    ),
    (
        "four quarters",
        FOUR_QUARTERS,
        &[1, 3, 0x49, 0, 0, 1, 2, 1, 3],
    ),
    (
        "default and upper half",
        &[1, 2, 0x5, 0, 0, 1, 1, 2],
        &[1, 2, 0x5, 0, 0, 1, 1, 2],
    ),
    (
        "default and lower half",
        &[1, 2, 0x3, 0, 0, 1, 2, 1],
        &[1, 2, 0x5, 0, 0, 1, 1, 2],
    ),
    (
        "across nodes",
        ACROSS_NODES,
        &[2, 2, 0x80, 2, 0, 1, 1, 0, 1, 2, 2, 1],
    ),
    (
        "one host route",
        &[
            7, 1, 0, 1, 0, 1, 0, 1, 0, 2, 0, 1, 0, 3, 0, 1, 0, 4, 0, 1, 0, 5, 0, 1, 0, 6, 0x40, 0,
            0, 7, 7,
        ],
        &[
            7, 1, 0, 1, 0, 1, 0, 1, 0, 2, 0, 1, 0, 3, 0, 1, 0, 4, 0, 1, 0, 5, 0, 1, 0, 6, 0x40, 0,
            0, 7, 7,
        ],
    ),
    (
        "two host routes",
        &[
            7, 2, 0, 1, 0, 1, 0, 0x10, 0, 2, 0, 2, 0, 3, 0, 1, 0, 4, 0, 0x40, 0, 5, 0, 2, 0, 6,
            0x18, 0, 0, 7, 5, 5,
        ],
        &[
            7, 1, 0, 1, 0, 1, 0, 0x10, 0, 2, 0, 2, 0, 3, 0, 1, 0, 4, 0, 0x40, 0, 5, 0, 2, 0, 6,
            0x2, 0, 0, 7, 5,
        ],
    ),
];

#[test]
fn compacts_either_family(rt: HostRuntime) -> Result<(), Fail> {
    let alloc = rt.alloc();
    for (name, words, want) in ROWS {
        let bytes = joined(alloc, words, EMPTY)?;
        let least = joined(alloc, want, EMPTY)?;
        assert!(rt; gives::<Pair, u32>(alloc, &bytes, &least)?, "first: {name}");
        assert!(rt; compact_routes(alloc, &bytes)?.as_slice() == least.as_slice());
        let bytes = joined(alloc, EMPTY, words)?;
        let least = joined(alloc, EMPTY, want)?;
        assert!(rt;
            gives::<Pair, u32>(alloc, &bytes, &least)?,
            "second: {name}"
        );
    }
    Ok(())
}

#[test]
fn families_of_one_width_stay_apart(rt: HostRuntime) -> Result<(), Fail> {
    let alloc = rt.alloc();
    let halves: &[u32] = &[1, 2, 0x6, 0, 0, 1, 7, 7];
    let default: &[u32] = &[1, 1, 0x1, 0, 0, 1, 7];
    let quarter: &[u32] = &[1, 1, 0x20, 0, 0, 1, 9];
    let bytes = joined(alloc, halves, quarter)?;
    let least = joined(alloc, default, quarter)?;
    assert!(rt; gives::<Twins, u32>(alloc, &bytes, &least)?);
    let bytes = joined(alloc, quarter, halves)?;
    let least = joined(alloc, quarter, default)?;
    assert!(rt; gives::<Twins, u32>(alloc, &bytes, &least)?);
    Ok(())
}

#[test]
fn values_of_other_sizes(rt: HostRuntime) -> Result<(), Fail> {
    let alloc = rt.alloc();
    let mut bytes = bytes_of(alloc, &[1, 2, 0x6, 0, 0, 1], &[7, 7])?;
    push_words(&mut bytes, EMPTY)?;
    let mut least = bytes_of(alloc, &[1, 1, 0x1, 0, 0, 1], &[7])?;
    push_words(&mut least, EMPTY)?;
    assert!(rt; gives::<Pair, u8>(alloc, &bytes, &least)?);
    let bytes = joined(alloc, &[1, 2, 0x6, 0, 0, 1, 7, 8, 7, 8], EMPTY)?;
    let least = joined(alloc, &[1, 1, 0x1, 0, 0, 1, 7, 8], EMPTY)?;
    assert!(rt; gives::<Pair, u64>(alloc, &bytes, &least)?);
    Ok(())
}
