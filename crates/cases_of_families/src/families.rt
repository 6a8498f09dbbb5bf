// Families worked out by hand: what is accepted, refused, read and written.
ghost use Rattle.std.specs.Prelude.{◌≤◌};

use prefix_layout::{
    ArchiveError, FamilySpan, ValueCodec, check_family, family_span, read_family, write_family,
};
use prefix_table::{Bits, Table};
use std::alloc::{AllocError, Global};
use std::process::Abort;
use std::test::Fail;

// No entry.
const EMPTY: &[u32] = &[1, 0, 0, 0, 0, 1];

// 10.0.0.0/8 with the value 1.
const ONE_OCTET: &[u32] = &[2, 1, 0, 2, 0, 1, 0x200, 0, 0, 2, 1];

// 0000 with the value 1, 00000 with 2 and 0001 with 2.
const TWO_NODES: &[u32] = &[2, 3, 0x18000, 1, 0, 1, 1, 0, 2, 2, 1, 2, 2];

// Eight nodes, each the first child of the one before. The last stands at 35 bits, and has no bit.
const DEEP_AND_EMPTY: &[u32] = &[
    8, 0, 0, 1, 0, 1, 0, 1, 0, 2, 0, 1, 0, 3, 0, 1, 0, 4, 0, 1, 0, 5, 0, 1, 0, 6, 0, 1, 0, 7, 0, 0,
    0, 8,
];

// Words as bytes.
fn bytes_of(alloc: Global, words: &[u32]) -> Result<Vec<u8>, AllocError> {
    let mut bytes = Vec::new(alloc);
    for word in words {
        bytes.extend_from_slice(&word.to_le_bytes())?;
    }
    Ok(bytes)
}

// The span that the check finds, and the one that is found with no check.
fn spans<T: ValueCodec>(bytes: &[u8], width: u32) -> Result<(FamilySpan, FamilySpan), ArchiveError>
    requires { width ≤ 128 }
{
    let checked = check_family::<T>(bytes, width)?;
    Ok((checked, family_span::<T>(bytes)))
}

#[test]
fn measures_what_is_accepted(rt: HostRuntime) -> Result<(), Fail> {
    for (words, nodes, entries) in [(EMPTY, 1, 0), (ONE_OCTET, 2, 1), (TWO_NODES, 2, 3)] {
        let mut bytes = bytes_of(rt.alloc(), words)?;
        let len = bytes.len();
        bytes.push(7)?;
        let (checked, span) = spans::<u32>(&bytes, 32)?;
        assert_eq!(rt;
            (checked.nodes, checked.entries, checked.len),
            (nodes, entries, len)
        );
        assert_eq!(rt; (span.nodes, span.entries, span.len), (nodes, entries, len));
    }
    Ok(())
}

// The one key 0, with a value of no bytes.
#[test]
fn reads_a_record_at_the_end(rt: HostRuntime) -> Result<(), Fail> {
    let mut bytes = bytes_of(rt.alloc(), &[1, 1, 2, 0, 0, 1])?;
    let (checked, span) = spans::<()>(&bytes, 32)?;
    assert_eq!(rt; (checked.nodes, checked.entries, checked.len), (1, 1, 24));
    assert_eq!(rt; (span.nodes, span.entries, span.len), (1, 1, 24));
    bytes.truncate(23);
    assert_eq!(rt;
        check_family::<()>(&bytes, 32).err(),
        Some(ArchiveError::Truncated)
    );
    Ok(())
}

#[test]
fn tells_the_first_cause(rt: HostRuntime) -> Result<(), Fail> {
    let refused: [(&[u32], ArchiveError); 13] = [
        (&[1], ArchiveError::Truncated),
        (&[0, 0], ArchiveError::MissingRootNode),
        (&[2, 0, 0, 0, 0, 1], ArchiveError::Truncated),
        (
            &[2, 1, 0, 0, 0, 1, 1, 1, 0, 1, 1],
            ArchiveError::NodeListTooLong,
        ),
        (
            &[2, 0, 0, 1, 0, 1, 0, 0, 0, 2],
            ArchiveError::ContainsEmptyNode,
        ),
        (
            &[1, 1, 0x8000_0000, 0, 0, 1, 1],
            ArchiveError::DepthExceedsPrefixRepr,
        ),
        // The one bit of a later record stands for no key, and yet the record is not empty.
        (
            &[2, 1, 0, 1, 0, 1, 0x8000_0000, 0, 0, 2, 1],
            ArchiveError::DepthExceedsPrefixRepr,
        ),
        // A node of a chain stands at 35 bits, and is told to be empty before it is told to be too deep.
        (DEEP_AND_EMPTY, ArchiveError::ContainsEmptyNode),
        (&[1, 0, 0, 0, 5, 1], ArchiveError::DataListInconsistent),
        (&[1, 0, 0, 0, 0, 2], ArchiveError::NodeListInconsistent),
        (
            &[2, 1, 0, 3, 0, 1, 1, 0, 0, 3, 1],
            ArchiveError::NodeListTooShort,
        ),
        (&[1, 1, 3, 0, 0, 1, 1], ArchiveError::DataListTooShort),
        (&[1, 2, 1, 0, 0, 1, 1, 2], ArchiveError::DataListTooLong),
    ];
    for (words, cause) in refused {
        let bytes = bytes_of(rt.alloc(), words)?;
        assert_eq!(rt; check_family::<u32>(&bytes, 32).err(), Some(cause));
    }
    Ok(())
}

// The table of an archive that is accepted.
fn read_table<R: Bits>(alloc: Global, words: &[u32]) -> Result<Table<u32>, Fail> {
    let bytes = bytes_of(alloc, words)?;
    let span = check_family::<u32>(&bytes, R::WIDTH)?;
    Ok(read_family::<R, u32>(alloc, &bytes[..span.len])?)
}

#[test]
fn reads_no_entry(rt: HostRuntime) -> Result<(), Fail> {
    let narrow = read_table::<u32>(rt.alloc(), EMPTY)?;
    assert_eq!(rt; narrow.len(), 0);
    assert_eq!(rt; narrow.get(0_u32, 0), None);
    let wide = read_table::<u128>(rt.alloc(), EMPTY)?;
    assert_eq!(rt; wide.len(), 0);
    assert_eq!(rt; wide.get(0_u128, 128), None);
    Ok(())
}

#[test]
fn reads_one_octet(rt: HostRuntime) -> Result<(), Fail> {
    let narrow = read_table::<u32>(rt.alloc(), ONE_OCTET)?;
    assert_eq!(rt; narrow.len(), 1);
    assert_eq!(rt; narrow.get(0x0a00_0000_u32, 8), Some(&1));
    assert_eq!(rt; narrow.get(0x0a00_0000_u32, 7), None);
    let wide = read_table::<u128>(rt.alloc(), ONE_OCTET)?;
    assert_eq!(rt; wide.get(0x0a_u128 << 120, 8), Some(&1));
    Ok(())
}

#[test]
fn reads_across_nodes(rt: HostRuntime) -> Result<(), Fail> {
    let table = read_table::<u32>(rt.alloc(), TWO_NODES)?;
    assert_eq!(rt; table.len(), 3);
    assert_eq!(rt; table.get(0_u32, 4), Some(&1));
    assert_eq!(rt; table.get(0_u32, 5), Some(&2));
    assert_eq!(rt; table.get(0x1000_0000_u32, 4), Some(&2));
    assert_eq!(rt; table.get(0x0800_0000_u32, 5), None);
    Ok(())
}

// A table of these keys, each with its length and value.
fn table_of(
    rt: &impl Abort,
    alloc: Global,
    entries: &[(u32, u32, u32)],
) -> Result<Table<u32>, Fail> {
    let mut table = Table::new(alloc);
    for (key, len, value) in entries {
        assert!(rt; *len <= 32);
        assert!(rt; table.insert(*key, *len, *value).is_ok());
    }
    Ok(table)
}

// What is written behind one byte of the output.
fn written(rt: &impl Abort, alloc: Global, entries: &[(u32, u32, u32)]) -> Result<Vec<u8>, Fail> {
    let table = table_of(rt, alloc, entries)?;
    let mut out = Vec::new(alloc);
    out.push(7)?;
    assert_eq!(rt; write_family(alloc, &table, &mut out), Ok(()));
    assert_eq!(rt; out.first(), Some(&7));
    Ok(Vec::from_slice(alloc, &out[1..])?)
}

#[test]
fn writes_counts_records_and_values(rt: HostRuntime) -> Result<(), Fail> {
    let none = bytes_of(rt.alloc(), EMPTY)?;
    assert_eq!(rt; written(&rt, rt.alloc(), &[])?, none);
    let octet = bytes_of(rt.alloc(), ONE_OCTET)?;
    assert_eq!(rt; written(&rt, rt.alloc(), &[(0x0a00_0000, 8, 1)])?, octet);
    let nodes = bytes_of(rt.alloc(), TWO_NODES)?;
    assert_eq!(rt;
        written(
            &rt,
            rt.alloc(),
            &[(0, 5, 2), (0, 4, 1), (0x1000_0000, 4, 2)]
        )?,
        nodes
    );
    Ok(())
}
