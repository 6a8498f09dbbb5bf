// Archives that are refused, each for its first cause.
use crate::words::{EMPTY, ONE_OCTET, Pair, bytes_of, joined, push_words};
use prefix_archive::{ArchivedPrefixMap, ArchivedPrefixSet};
use prefix_joint_archive::{ArchivedJointPrefixMap, compact_archive};
use prefix_joint_archive_set::ArchivedJointPrefixSet;
use prefix_layout::ArchiveError;
use std::alloc::{AllocError, Global};
use std::process::Abort;
use std::test::Fail;

// A name, words, how many records with the child 00000 alone follow, words and bytes.
type Case = (
    &'static str,
    &'static [u32],
    u32,
    &'static [u32],
    &'static [u8],
);

type Group = (ArchiveError, u8, &'static str, &'static [Case]);

const BEHIND_THE_LAST: Group = (
    ArchiveError::TrailingBytes,
    2,
    "Archive has trailing bytes.",
    &[
        ("a zero byte", EMPTY, 0, EMPTY, &[0]),
        (
            "an archive twice",
            &[2, 1, 0, 2, 0, 1, 0x200, 0, 0, 2, 1, 1, 0, 0, 0, 0, 1],
            0,
            &[2, 1, 0, 2, 0, 1, 0x200, 0, 0, 2, 1, 1, 0, 0, 0, 0, 1],
            &[],
        ),
    ],
);

const TOO_FEW_BYTES: Group = (
    ArchiveError::Truncated,
    1,
    "Archive is cut short.",
    &[
        ("seven bytes", &[], 0, &[], &[0; 7]),
        ("one empty table", EMPTY, 0, &[], &[]),
        ("a quarter of a record", &[1, 0, 0], 0, &[], &[]),
        ("no record", &[0xffff_ffff, 0], 0, &[], &[]),
    ],
);

const COUNTS_OF_NODES: [Group; 3] = [
    (
        ArchiveError::MissingRootNode,
        4,
        "Missing the root node.",
        &[
            ("eight zero bytes", &[0, 0], 0, &[], &[]),
            ("behind an empty table", EMPTY, 0, &[0, 0], &[]),
        ],
    ),
    (
        ArchiveError::NodeListTooLong,
        5,
        "Node list is too long",
        &[
            (
                "a node that names itself",
                &[2, 1, 0, 0, 0, 1, 1, 1, 0, 1, 1],
                0,
                EMPTY,
                &[],
            ),
            (
                "before an empty node",
                &[2, 0, 0, 0, 0, 1, 0, 0, 0, 1],
                0,
                EMPTY,
                &[],
            ),
        ],
    ),
    (
        ArchiveError::NodeListTooShort,
        6,
        "Node list is too short",
        &[
            (
                "one of two children",
                &[2, 1, 0, 3, 0, 1, 1, 0, 0, 3, 7],
                0,
                EMPTY,
                &[],
            ),
            ("the last of a chain", &[7, 0], 7, EMPTY, &[]),
        ],
    ),
];

const INDICES: [Group; 2] = [
    (
        ArchiveError::NodeListInconsistent,
        7,
        "Inconsistent node list",
        &[("a child index", &[1, 0, 0, 0, 0, 2], 0, EMPTY, &[])],
    ),
    (
        ArchiveError::DataListInconsistent,
        8,
        "Inconsistent data list",
        &[
            ("a data index", &[1, 0, 0, 0, 5, 1], 0, EMPTY, &[]),
            ("before the child index", &[1, 0, 0, 0, 5, 2], 0, EMPTY, &[]),
        ],
    ),
];

const COUNTS_OF_VALUES: [Group; 2] = [
    (
        ArchiveError::DataListTooShort,
        9,
        "Data list is too short",
        &[
            ("one of two", &[1, 1, 3, 0, 0, 1, 7], 0, EMPTY, &[]),
            ("before the end", &[1, 1, 3, 0, 0, 1, 7], 0, &[], &[]),
        ],
    ),
    (
        ArchiveError::DataListTooLong,
        10,
        "Data list is too long",
        &[
            ("two for one", &[1, 2, 1, 0, 0, 1, 7, 7], 0, EMPTY, &[]),
            (
                "before the end",
                &[1, 0xffff_ffff, 1, 0, 0, 1],
                0,
                EMPTY,
                &[],
            ),
        ],
    ),
];

const NODES: [Group; 2] = [
    (
        ArchiveError::ContainsEmptyNode,
        11,
        "Trie contains empty nodes.",
        &[
            (
                "below the root",
                &[2, 0, 0, 1, 0, 1, 0, 0, 0, 2],
                0,
                EMPTY,
                &[],
            ),
            (
                "before its indices",
                &[2, 0, 0, 1, 0, 1, 0, 0, 7, 9],
                0,
                EMPTY,
                &[],
            ),
        ],
    ),
    (
        ArchiveError::DepthExceedsPrefixRepr,
        12,
        "Depth of tree exceeds the number of bits in the prefix.",
        &[
            (
                "data bit 31",
                &[1, 1, 0x8000_0000, 0, 0, 1, 7],
                0,
                EMPTY,
                &[],
            ),
            (
                "before the data index",
                &[1, 1, 0x8000_0000, 0, 5, 2, 7],
                0,
                EMPTY,
                &[],
            ),
            (
                "a node at depth 35",
                &[8, 1],
                7,
                &[1, 0, 0, 8, 7, 1, 0, 0, 0, 0, 1],
                &[],
            ),
            (
                "a key of 33 bits",
                &[7, 1],
                6,
                &[0x80, 0, 0, 7, 7, 1, 0, 0, 0, 0, 1],
                &[],
            ),
            (
                "a node at depth 130",
                &[1, 0, 0, 0, 0, 1, 27, 1],
                26,
                &[1, 0, 0, 27, 7],
                &[],
            ),
        ],
    ),
];

fn bytes_of_case(alloc: Global, case: &Case) -> Result<Vec<u8>, AllocError> {
    let (_, head, chain, words, tail) = *case;
    let mut bytes = bytes_of(alloc, head, &[])?;
    for i in 0..chain {
        push_words(&mut bytes, &[0, 1, 0, i.wrapping_add(1)])?;
    }
    push_words(&mut bytes, words)?;
    bytes.extend_from_slice(tail)?;
    Ok(bytes)
}

// Whether both calls refuse the bytes with this error.
fn refused_with(alloc: Global, bytes: &[u8], error: ArchiveError) -> bool {
    let compacted = match compact_archive::<Pair, u32>(alloc, bytes) {
        Ok(_) => false,
        Err(found) => found == error,
    };
    let accessed = match ArchivedJointPrefixMap::<Pair, u32>::access(bytes) {
        Ok(_) => false,
        Err(found) => found == error,
    };
    compacted && accessed
}

fn refuses(rt: &impl Abort, alloc: Global, groups: &[Group]) -> Result<(), Fail> {
    for (error, code, text, cases) in groups {
        assert_eq!(rt; (error.code(), error.text()), (*code, *text));
        for case in *cases {
            let bytes = bytes_of_case(alloc, case)?;
            assert!(rt; refused_with(alloc, &bytes, *error), "{text}: {}", case.0);
        }
    }
    Ok(())
}

#[test]
fn each_cause(rt: HostRuntime) -> Result<(), Fail> {
    let alloc = rt.alloc();
    refuses(&rt, alloc, &[TOO_FEW_BYTES, BEHIND_THE_LAST])?;
    refuses(&rt, alloc, &COUNTS_OF_NODES)?;
    refuses(&rt, alloc, &INDICES)?;
    refuses(&rt, alloc, &COUNTS_OF_VALUES)?;
    refuses(&rt, alloc, &NODES)
}

#[test]
fn each_front_is_cut_short(rt: HostRuntime) -> Result<(), Fail> {
    let alloc = rt.alloc();
    let bytes = joined(alloc, ONE_OCTET, EMPTY)?;
    for at in 0..bytes.len() {
        let error = ArchiveError::Truncated;
        assert!(rt; refused_with(alloc, &bytes[..at], error), "first {at}");
    }
    Ok(())
}

// Whether bytes were refused with this error.
fn is_refused<A: Drop>(accessed: Result<A, ArchiveError>, error: ArchiveError) -> bool {
    match accessed {
        Ok(_) => false,
        Err(found) => found == error,
    }
}

// Of sets, too, whose values take no bytes: the count alone tells more than there are.
#[test]
fn each_kind_refuses(rt: HostRuntime) -> Result<(), Fail> {
    let alloc = rt.alloc();
    let many: &[u32] = &[1, 0xffff_ffff, 1, 0, 0, 1];
    let error = ArchiveError::DataListTooLong;
    let alone = bytes_of(alloc, many, &[])?;
    assert!(rt; is_refused(ArchivedPrefixMap::<(u32, u8), u32>::access(&alone), error));
    assert!(rt; is_refused(ArchivedPrefixSet::<(u32, u8)>::access(&alone), error));
    let pair = joined(alloc, many, EMPTY)?;
    assert!(rt; is_refused(ArchivedJointPrefixMap::<Pair, u32>::access(&pair), error));
    assert!(rt; is_refused(ArchivedJointPrefixSet::<Pair>::access(&pair), error));
    Ok(())
}
