// Runs over memory, with bytes and lines worked out by hand.
mod commands;

use crate::run::{error_line, line, run};
use crate::status::Status;
use prefix_io::{Failed, MemorySink, MemorySource, SinkFail, Source};
use prefix_layout::ArchiveError;
use std::alloc::{AllocError, Global};
use std::process::Abort;
use std::test::Fail;

// An empty table: its counts of nodes and of entries, and its one node.
const EMPTY: &[u32] = &[1, 0, 0, 0, 0, 1];

// The archive of two empty tables.
const BOTH_EMPTY: &[u32] = &[1, 0, 0, 0, 0, 1, 1, 0, 0, 0, 0, 1];

// The archive of 10.0.0.0/8 with the value 1, and of an empty table.
const ONE_OCTET: &[u32] = &[
    2, 1, 0, 2, 0, 1, 0x200, 0, 0, 2, 1, //
    1, 0, 0, 0, 0, 1,
];

// 1.2.3.4/32 and 1.2.3.5/32 with the value 5, and 1.2.3.4/31 with the value 5.
const TWO_HOSTS: &[u32] = &[
    7, 2, 0, 1, 0, 1, 0, 0x10, 0, 2, 0, 2, 0, 3, 0, 1, 0, 4, 0, 0x40, 0, 5, 0, 2, 0, 6, 0x18, 0, //
    0, 7, 5, 5,
];

const ONE_PAIR: &[u32] = &[
    7, 1, 0, 1, 0, 1, 0, 0x10, 0, 2, 0, 2, 0, 3, 0, 1, 0, 4, 0, 0x40, 0, 5, 0, 2, 0, 6, 0x2, 0, //
    0, 7, 5,
];

// The line of bytes that end too soon.
const CUT_SHORT: &[u8] = b"prefix_app: Archive is cut short.\n";

// The line of a table with no node.
const NO_ROOT: &[u8] = b"prefix_app: Missing the root node.\n";

// The line of a key that is longer than an address, or of a bit that stands for none.
const DEPTH: &[u8] = b"prefix_app: Depth of tree exceeds the number of bits in the prefix.\n";

// Words, how many records with the child 00000 alone follow, words, bytes, and the line of their refusal.
type Refusal = (
    &'static str,
    &'static [u32],
    u32,
    &'static [u32],
    &'static [u8],
    &'static [u8],
);

fn bytes_of(alloc: Global, words: &[u32]) -> Result<Vec<u8>, AllocError> {
    let mut bytes = Vec::new(alloc);
    for word in words {
        bytes.extend_from_slice(&word.to_le_bytes())?;
    }
    Ok(bytes)
}

fn strings(alloc: Global, texts: &[&str]) -> Result<Vec<String>, Fail> {
    let mut words = Vec::new(alloc);
    for text in texts {
        words.push(String::from_str(alloc, text)?)?;
    }
    Ok(words)
}

#[derive(Drop)]
struct Ended {
    status: Status,
    output: MemorySink,
    errors: MemorySink,
}

// The first table's part of an input and of its output. Behind both stands an empty second table.
type Rows = (&'static str, &'static [u32], &'static [u32]);

// A run of `compact` on these bytes, eight a read.
fn compacted(
    alloc: Global,
    bytes: Vec<u8>,
    fail_reads: &[u64],
    fail_writes: &[SinkFail],
) -> Result<Ended, Fail> {
    ran(alloc, &["compact"], bytes, fail_reads, fail_writes)
}

// A run of a command on these bytes, eight a read.
fn ran(
    alloc: Global,
    texts: &[&str],
    bytes: Vec<u8>,
    fail_reads: &[u64],
    fail_writes: &[SinkFail],
) -> Result<Ended, Fail> {
    let words = strings(alloc, texts)?;
    let mut input = MemorySource::new(bytes, 8, fail_reads.to_vec(alloc)?);
    let mut output = MemorySink::with_room(alloc, 100_000, fail_writes.to_vec(alloc)?)?;
    let mut errors = MemorySink::with_room(alloc, 1000, Vec::new(alloc))?;
    let status = run(alloc, &words, &mut input, &mut output, &mut errors);
    Ok(Ended {
        status,
        output,
        errors,
    })
}

#[test]
fn tables_that_are_least_are_given_back(rt: HostRuntime) -> Result<(), Fail> {
    for words in [BOTH_EMPTY, ONE_OCTET] {
        let bytes = bytes_of(rt.alloc(), words)?;
        let ended = compacted(rt.alloc(), bytes_of(rt.alloc(), words)?, &[], &[])?;
        assert_eq!(rt; ended.status, Status::Done);
        assert_eq!(rt; ended.status.code(), 0);
        assert_eq!(rt; ended.output.written(), bytes.as_slice());
        assert_eq!(rt; ended.errors.written(), b"".as_slice());
    }
    Ok(())
}

// The left one of every two prefixes of fourteen bits, in order, with values from 0 to 2. No prefix has a neighbour,
// so that the table is least as it is.
fn apart(alloc: Global) -> Result<Vec<u8>, AllocError> {
    let mut words = Vec::new(alloc);
    words.extend_from_slice(&[1 + 32 + 1024, 8192, 0, 0xffff_ffff, 0, 1])?;
    for i in 0..32 {
        words.extend_from_slice(&[0, 0xffff_ffff, 0, 33 + 32 * i])?;
    }
    for i in 0..1024 {
        words.extend_from_slice(&[0x2aaa_8000, 0, 8 * i, 1 + 32 + 1024])?;
    }
    for i in 0..8192 {
        words.push(i % 3)?;
    }
    words.extend_from_slice(EMPTY)?;
    bytes_of(alloc, words.as_slice())
}

#[test]
fn thousands_of_entries_are_given_back(rt: HostRuntime) -> Result<(), Fail> {
    let bytes = apart(rt.alloc())?;
    let ended = compacted(rt.alloc(), apart(rt.alloc())?, &[], &[])?;
    assert_eq!(rt; ended.status, Status::Done);
    assert!(rt; ended.output.written() == bytes.as_slice());
    Ok(())
}

#[test]
fn tables_come_out_least(rt: HostRuntime) -> Result<(), Fail> {
    let cases: [Rows; 8] = [
        (
            "two halves",
            &[1, 2, 0x6, 0, 0, 1, 1, 2],
            &[1, 2, 0x5, 0, 0, 1, 1, 2],
        ),
        (
            "two halves alike",
            &[1, 2, 0x6, 0, 0, 1, 7, 7],
            &[1, 1, 0x1, 0, 0, 1, 7],
        ),
        (
            "a hole beside a half",
            &[1, 2, 0x24, 0, 0, 1, 7, 7],
            &[1, 1, 0x4, 0, 0, 1, 7],
        ),
        (
            "a quarter alone",
            &[1, 1, 0x20, 0, 0, 1, 7],
            &[1, 1, 0x20, 0, 0, 1, 7],
        ),
        (
            "four quarters",
            &[1, 4, 0x78, 0, 0, 1, 1, 2, 2, 3],
            &[1, 3, 0x49, 0, 0, 1, 2, 1, 3],
        ),
        (
            "either value above",
            &[1, 2, 0x3, 0, 0, 1, 2, 1],
            &[1, 2, 0x5, 0, 0, 1, 1, 2],
        ),
        (
            "across nodes",
            &[2, 3, 0x18000, 1, 0, 1, 1, 0, 2, 2, 1, 2, 2],
            &[2, 2, 0x80, 2, 0, 1, 1, 0, 1, 2, 2, 1],
        ),
        ("two host routes", TWO_HOSTS, ONE_PAIR),
    ];
    for (name, words, least) in cases {
        let mut bytes = bytes_of(rt.alloc(), words)?;
        bytes.extend_from_slice(&bytes_of(rt.alloc(), EMPTY)?)?;
        let mut wanted = bytes_of(rt.alloc(), least)?;
        wanted.extend_from_slice(&bytes_of(rt.alloc(), EMPTY)?)?;
        let ended = compacted(rt.alloc(), bytes, &[], &[])?;
        assert_eq!(rt; ended.status, Status::Done, "{name}");
        assert_eq!(rt; ended.output.written(), wanted.as_slice(), "{name}");
        let once = ended.output.written().to_vec(rt.alloc())?;
        let twice = compacted(rt.alloc(), once, &[], &[])?;
        assert_eq!(rt; twice.status, Status::Done, "{name}");
        assert_eq!(rt; twice.output.written(), wanted.as_slice(), "{name}");
    }
    Ok(())
}

const TOO_LITTLE: [Refusal; 4] = [
    ("seven bytes", &[1], 0, &[], &[0, 0, 0], CUT_SHORT),
    ("one table alone", EMPTY, 0, &[], &[], CUT_SHORT),
    ("a quarter of a record", &[1, 0, 0], 0, &[], &[], CUT_SHORT),
    ("no record", &[0xffff_ffff, 0], 0, &[], &[], CUT_SHORT),
];

const TOO_MUCH: [Refusal; 2] = [
    (
        "a byte behind the tables",
        BOTH_EMPTY,
        0,
        &[],
        &[0],
        b"prefix_app: Archive has trailing bytes.\n",
    ),
    (
        "the tables twice",
        ONE_OCTET,
        0,
        ONE_OCTET,
        &[],
        b"prefix_app: Archive has trailing bytes.\n",
    ),
];

const OTHER_COUNTS: [Refusal; 6] = [
    ("no root", &[0, 0], 0, &[], &[], NO_ROOT),
    ("no second root", EMPTY, 0, &[0, 0], &[], NO_ROOT),
    (
        "a node that no other names",
        &[2, 1, 0, 0, 0, 1, 1, 1, 0, 1, 7],
        0,
        EMPTY,
        &[],
        b"prefix_app: Node list is too long\n",
    ),
    (
        "the last of a chain",
        &[7, 0],
        7,
        EMPTY,
        &[],
        b"prefix_app: Node list is too short\n",
    ),
    (
        "one value of two",
        &[1, 1, 3, 0, 0, 1, 7],
        0,
        &[],
        &[],
        b"prefix_app: Data list is too short\n",
    ),
    (
        "no value of many",
        &[1, 0xffff_ffff, 1, 0, 0, 1],
        0,
        EMPTY,
        &[],
        b"prefix_app: Data list is too long\n",
    ),
];

const OTHER_NODES: [Refusal; 3] = [
    (
        "an empty node that no other names",
        &[2, 0, 0, 0, 0, 1, 0, 0, 0, 1],
        0,
        EMPTY,
        &[],
        b"prefix_app: Node list is too long\n",
    ),
    (
        "an empty node with other indices",
        &[2, 0, 0, 1, 0, 1, 0, 0, 7, 9],
        0,
        EMPTY,
        &[],
        b"prefix_app: Trie contains empty nodes.\n",
    ),
    (
        "both indices",
        &[1, 0, 0, 0, 5, 2],
        0,
        EMPTY,
        &[],
        b"prefix_app: Inconsistent data list\n",
    ),
];

const TOO_DEEP: [Refusal; 4] = [
    (
        "bit 31",
        &[1, 1, 0x8000_0000, 0, 5, 2, 7],
        0,
        EMPTY,
        &[],
        DEPTH,
    ),
    (
        "a node at depth 35",
        &[8, 1],
        7,
        &[1, 0, 0, 8, 7, 1, 0, 0, 0, 0, 1],
        &[],
        DEPTH,
    ),
    (
        "a key of 33 bits",
        &[7, 1],
        6,
        &[0x80, 0, 0, 7, 7, 1, 0, 0, 0, 0, 1],
        &[],
        DEPTH,
    ),
    (
        "a node at depth 130",
        &[1, 0, 0, 0, 0, 1, 27, 1],
        26,
        &[1, 0, 0, 27, 7],
        &[],
        DEPTH,
    ),
];

// The bytes of a case.
fn refused_bytes(alloc: Global, case: &Refusal) -> Result<Vec<u8>, AllocError> {
    let (_, words, chain, behind, tail, _) = *case;
    let mut bytes = bytes_of(alloc, words)?;
    for i in 0..chain {
        bytes.extend_from_slice(&bytes_of(alloc, &[0, 1, 0, i.wrapping_add(1)])?)?;
    }
    bytes.extend_from_slice(&bytes_of(alloc, behind)?)?;
    bytes.extend_from_slice(tail)?;
    Ok(bytes)
}

// Runs on these cases, each refused with its line.
fn refuses(rt: &impl Abort, alloc: Global, cases: &[Refusal]) -> Result<(), Fail> {
    for case in cases {
        let (name, _, _, _, _, line) = *case;
        let ended = compacted(alloc, refused_bytes(alloc, case)?, &[], &[])?;
        assert_eq!(rt; ended.status, Status::Refused, "{name}");
        assert_eq!(rt; ended.output.written(), b"".as_slice(), "{name}");
        assert_eq!(rt; ended.errors.written(), line, "{name}");
    }
    Ok(())
}

#[test]
fn bytes_that_spell_no_pair_are_refused(rt: HostRuntime) -> Result<(), Fail> {
    let alloc = rt.alloc();
    assert_eq!(rt; Status::Refused.code(), 1);
    refuses(&rt, alloc, &TOO_LITTLE)?;
    refuses(&rt, alloc, &TOO_MUCH)?;
    refuses(&rt, alloc, &OTHER_COUNTS)?;
    refuses(&rt, alloc, &OTHER_NODES)?;
    refuses(&rt, alloc, &TOO_DEEP)
}

#[test]
fn each_front_of_two_tables_is_cut_short(rt: HostRuntime) -> Result<(), Fail> {
    let bytes = bytes_of(rt.alloc(), ONE_OCTET)?;
    for at in 0..bytes.len() {
        let front = bytes[..at].to_vec(rt.alloc())?;
        let ended = compacted(rt.alloc(), front, &[], &[])?;
        assert_eq!(rt; ended.status, Status::Refused, "{at}");
        assert_eq!(rt; ended.output.written(), b"".as_slice(), "{at}");
        assert_eq!(rt; ended.errors.written(), CUT_SHORT, "{at}");
    }
    Ok(())
}

#[test]
fn a_read_that_fails_leaves_no_output(rt: HostRuntime) -> Result<(), Fail> {
    let bytes = bytes_of(rt.alloc(), ONE_OCTET)?;
    let ended = compacted(rt.alloc(), bytes, &[2], &[])?;
    assert_eq!(rt; ended.status, Status::ReadFault);
    assert_eq!(rt; ended.status.code(), 3);
    assert_eq!(rt; ended.output.written(), b"".as_slice());
    assert_eq!(rt;
        ended.errors.written(),
        b"prefix_app: read fault\n".as_slice()
    );
    Ok(())
}

#[test]
fn a_write_that_fails_leaves_what_it_took(rt: HostRuntime) -> Result<(), Fail> {
    let bytes = bytes_of(rt.alloc(), ONE_OCTET)?;
    let ended = compacted(rt.alloc(), bytes, &[], &[SinkFail { call: 1, take: 5 }])?;
    assert_eq!(rt; ended.status, Status::WriteFault);
    assert_eq!(rt; ended.status.code(), 4);
    assert_eq!(rt; ended.output.written(), [2, 0, 0, 0, 1].as_slice());
    assert_eq!(rt;
        ended.errors.written(),
        b"prefix_app: write fault\n".as_slice()
    );
    Ok(())
}

#[test]
fn other_words_are_no_command(rt: HostRuntime) -> Result<(), Fail> {
    let alloc = rt.alloc();
    let cases: [&[&str]; 7] = [
        &[],
        &["compact", "x"],
        &["Compact"],
        &["fill", "01"],
        &["lookup", "4", "0a", "8"],
        &["gen", "1", "100001"],
        &["--help"],
    ];
    for texts in cases {
        let words = strings(alloc, texts)?;
        let mut input = MemorySource::new(bytes_of(alloc, ONE_OCTET)?, 8, Vec::new(alloc));
        let mut output = MemorySink::with_room(alloc, 1000, Vec::new(alloc))?;
        let mut errors = MemorySink::with_room(alloc, 1000, Vec::new(alloc))?;
        let status = run(alloc, &words, &mut input, &mut output, &mut errors);
        assert_eq!(rt; status, Status::Usage, "{texts:?}");
        assert_eq!(rt; status.code(), 2);
        assert_eq!(rt; output.written(), b"".as_slice(), "{texts:?}");
        assert_eq!(rt;
            errors.written(),
            b"prefix_app: no such command\n".as_slice(),
            "{texts:?}"
        );
    }
    Ok(())
}

#[test]
fn each_read_that_fails_is_a_fault(rt: HostRuntime) -> Result<(), Fail> {
    for call in 1..11 {
        let bytes = bytes_of(rt.alloc(), ONE_OCTET)?;
        let ended = compacted(rt.alloc(), bytes, &[call], &[])?;
        assert_eq!(rt; ended.status, Status::ReadFault, "{call}");
        assert_eq!(rt; ended.output.written(), b"".as_slice(), "{call}");
    }
    let ended = compacted(rt.alloc(), bytes_of(rt.alloc(), ONE_OCTET)?, &[11], &[])?;
    assert_eq!(rt; ended.status, Status::Done);
    Ok(())
}

// The status of a run over these words with sinks of this room, and what was written.
fn in_room(alloc: Global, input: &[u32], room: usize, line: usize) -> Result<Ended, Fail> {
    let words = strings(alloc, &["compact"])?;
    let mut input = MemorySource::new(bytes_of(alloc, input)?, 8, Vec::new(alloc));
    let mut output = MemorySink::with_room(alloc, room, Vec::new(alloc))?;
    let mut errors = MemorySink::with_room(alloc, line, Vec::new(alloc))?;
    let status = run(alloc, &words, &mut input, &mut output, &mut errors);
    Ok(Ended {
        status,
        output,
        errors,
    })
}

#[test]
fn a_sink_takes_what_fits(rt: HostRuntime) -> Result<(), Fail> {
    let bytes = bytes_of(rt.alloc(), ONE_OCTET)?;
    for room in 0..68 {
        let ended = in_room(rt.alloc(), ONE_OCTET, room, 5)?;
        assert_eq!(rt; ended.status, Status::WriteFault, "{room}");
        assert_eq!(rt; ended.output.written().len(), room);
        assert!(rt; bytes.starts_with(ended.output.written()));
        assert_eq!(rt; ended.errors.written(), b"prefi".as_slice(), "{room}");
    }
    let ended = in_room(rt.alloc(), ONE_OCTET, 68, 5)?;
    assert_eq!(rt; ended.status, Status::Done);
    assert_eq!(rt; ended.output.written(), bytes.as_slice());
    let ended = in_room(rt.alloc(), EMPTY, 68, 5)?;
    assert_eq!(rt; ended.status, Status::Refused);
    assert_eq!(rt; ended.errors.written(), b"prefi".as_slice());
    Ok(())
}

/// A source with no end, which tells no bytes: each read fills the buffer with what it holds.
#[derive(Drop)]
struct Endless;

impl Source for Endless {
    ghost use Rattle.std.specs.Prelude.{None};

    ghost left = { λ _. None };

    ghost faults = { λ _. 0 };

    fn read(&mut self, buf: &mut [u8]) -> Result<usize, Failed> {
        Ok(buf.len())
    }
}

#[test]
fn a_source_with_no_end_is_too_long(rt: HostRuntime) -> Result<(), Fail> {
    let alloc = rt.alloc();
    let words = strings(alloc, &["compact"])?;
    let mut output = MemorySink::with_room(alloc, 1000, Vec::new(alloc))?;
    let mut errors = MemorySink::with_room(alloc, 1000, Vec::new(alloc))?;
    let status = run(alloc, &words, &mut Endless, &mut output, &mut errors);
    assert_eq!(rt; status, Status::TooLong);
    assert_eq!(rt; status.code(), 7);
    assert_eq!(rt; output.written(), b"".as_slice());
    assert_eq!(rt;
        errors.written(),
        b"prefix_app: input too long\n".as_slice()
    );
    Ok(())
}

#[test]
fn other_statuses_have_a_line(rt: HostRuntime) {
    assert_eq!(rt;
        line(Status::NoMemory),
        b"prefix_app: out of memory\n".as_slice()
    );
    assert_eq!(rt;
        error_line(ArchiveError::NodeIndexOverflow),
        b"prefix_app: Node list too long for 32-bit index.\n".as_slice()
    );
    assert_eq!(rt;
        line(Status::TooLong),
        b"prefix_app: input too long\n".as_slice()
    );
    assert_eq!(rt; Status::NoMemory.code(), 5);
    assert_eq!(rt; Status::Overflow.code(), 6);
    assert_eq!(rt; Status::BadLine.code(), 8);
}

// The first table's part of an archive, and behind it that of a second table.
fn archive_of(alloc: Global, first: &[u32], second: &[u32]) -> Result<Vec<u8>, AllocError> {
    let mut bytes = bytes_of(alloc, first)?;
    bytes.extend_from_slice(&bytes_of(alloc, second)?)?;
    Ok(bytes)
}

#[test]
fn other_aggregations_are_written(rt: HostRuntime) -> Result<(), Fail> {
    let alloc = rt.alloc();
    let half = archive_of(alloc, &[1, 1, 0x4, 0, 0, 1, 7], EMPTY)?;
    let ended = ran(alloc, &["fill", "0"], half, &[], &[])?;
    let wanted = archive_of(alloc, &[1, 2, 0x5, 0, 0, 1, 0, 7], &[1, 1, 0x1, 0, 0, 1, 0])?;
    assert_eq!(rt; ended.status, Status::Done);
    assert_eq!(rt; ended.output.written(), wanted.as_slice());
    let nested = archive_of(alloc, &[1, 5, 0x18b, 0, 0, 1, 1, 1, 2, 2, 1], EMPTY)?;
    let ended = ran(alloc, &["consistent"], nested, &[], &[])?;
    let wanted = archive_of(alloc, &[1, 3, 0x109, 0, 0, 1, 1, 2, 1], EMPTY)?;
    assert_eq!(rt; ended.status, Status::Done);
    assert_eq!(rt; ended.output.written(), wanted.as_slice());
    Ok(())
}

#[test]
fn lines_are_built(rt: HostRuntime) -> Result<(), Fail> {
    let alloc = rt.alloc();
    let twice = b"4 0a0000ff 8 7\n4 0a000000 8 1\n".to_vec(alloc)?;
    let once = ran(alloc, &["build"], twice, &[], &[])?;
    assert_eq!(rt;
        once.output.written(),
        bytes_of(alloc, ONE_OCTET)?.as_slice()
    );
    let none = ran(alloc, &["build"], Vec::new(alloc), &[], &[])?;
    assert_eq!(rt;
        none.output.written(),
        bytes_of(alloc, BOTH_EMPTY)?.as_slice()
    );
    Ok(())
}
