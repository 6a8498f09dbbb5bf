// Each command over small inputs, byte for byte.
use super::{ONE_OCTET, bytes_of, ran};
use crate::status::Status;
use std::alloc::{AllocError, Global};
use std::test::Fail;

// Words and what they print.
type Answer = (&'static [&'static str], &'static [u8]);

// Eight neighbours under a default, and three nested prefixes of the second family.
const LINES: &[u8] = b"4 00000000 0 1
4 0a010000 24 2
4 0a010100 24 2
4 0a010200 24 2
4 0a010300 24 2
4 0a010400 24 2
4 0a010500 24 2
4 0a010600 24 2
4 0a010700 24 2
6 00000000000000000000000000000000 0 1
6 20010db8000000000000000000000000 32 3
6 20010db8000100000000000000000000 48 4";

// The lines of the tables with the fewest entries that have the same answers.
const LEAST: &[u8] = b"4 00000000 0 1
4 0a010000 21 2
6 00000000000000000000000000000000 0 1
6 20010db8000000000000000000000000 32 3
6 20010db8000100000000000000000000 48 4
";

// Three prefixes, each in the one before.
const NESTED: &[u8] = b"4 0a000000 8 1\n4 0a010000 16 2\n4 0a010100 24 3\n";

// What a run over memory with ample room writes.
fn written(alloc: Global, texts: &[&str], bytes: &[u8]) -> Result<Vec<u8>, Fail> {
    let ended = ran(alloc, texts, bytes.to_vec(alloc)?, &[], &[])?;
    Ok(ended.output.written().to_vec(alloc)?)
}

#[test]
fn lines_outside_the_grammar_are_told(rt: HostRuntime) -> Result<(), Fail> {
    // Lines, and the number of the first bad one.
    let cases: [(&'static [u8], &'static [u8]); 15] = [
        (b"\n", b"1"),
        (b"4 00000000 0 1\n\n", b"2"),
        (b"4  00000000 0 1\n", b"1"),
        (b"4 00000000 0 1 \n", b"1"),
        (b"4\t00000000 0 1\n", b"1"),
        (b"4 00000000 0 1\r\n", b"1"),
        (b"4 00000000 +0 1\n", b"1"),
        (b"4 00000000 0 01\n", b"1"),
        (b"4 00000000 33 1\n", b"1"),
        (b"4 00000000 0 4294967296\n", b"1"),
        (b"4 0000000 0 1\n", b"1"),
        (b"4 000000000 0 1\n", b"1"),
        (b"6 00000000 0 1\n", b"1"),
        (b"4 0000000g 0 1\n", b"1"),
        (b"4 00000000 0 1\n4 0000000\xc3\xa9 0 1\n", b"2"),
    ];
    for (bytes, number) in cases {
        let ended = ran(rt.alloc(), &["build"], bytes.to_vec(rt.alloc())?, &[], &[])?;
        let mut line = Vec::new(rt.alloc());
        line.extend_from_slice(b"prefix_app: bad line ")?;
        line.extend_from_slice(number)?;
        line.push(b'\n')?;
        assert_eq!(rt; ended.status, Status::BadLine);
        assert_eq!(rt; ended.status.code(), 8);
        assert_eq!(rt; ended.output.written(), b"".as_slice());
        assert_eq!(rt; ended.errors.written(), line.as_slice());
    }
    Ok(())
}

#[test]
fn lines_are_compacted_and_told(rt: HostRuntime) -> Result<(), Fail> {
    let alloc = rt.alloc();
    let built = written(alloc, &["build"], LINES)?;
    assert_eq!(rt; built.len(), 304);
    let least = written(alloc, &["compact"], &built)?;
    assert_eq!(rt; least.len(), 276);
    let dumped = written(alloc, &["dump"], &least)?;
    assert_eq!(rt; dumped.as_slice(), LEAST);
    assert!(rt; written(alloc, &["build"], &dumped)? == least);
    assert!(rt; written(alloc, &["compact"], &least)? == least);
    assert_eq!(rt;
        written(alloc, &["check"], &least)?.as_slice(),
        b"4 nodes 5 entries 2 addresses all\n6 nodes 10 entries 3 addresses all\n".as_slice()
    );
    Ok(())
}

#[test]
fn archives_are_asked(rt: HostRuntime) -> Result<(), Fail> {
    let alloc = rt.alloc();
    let nested = written(alloc, &["build"], NESTED)?;
    let answers: [Answer; 7] = [
        (&["lookup", "4", "0a010180", "25"], b"4 0a010100 24 3\n"),
        (&["lookup", "4", "0A0101FF", "8"], b"4 0a000000 8 1\n"),
        (&["lookup", "4", "0b000000", "8"], b"none\n"),
        (
            &["lookup", "6", "20010db8000000000000000000000000", "32"],
            b"none\n",
        ),
        (
            &["cover", "4", "0a010180", "25"],
            b"4 0a000000 8 1\n4 0a010000 16 2\n4 0a010100 24 3\naggregate yes\n",
        ),
        (&["cover", "4", "00000000", "0"], b"aggregate no\n"),
        (&["dump"], NESTED),
    ];
    for (texts, text) in answers {
        assert_eq!(rt; written(alloc, texts, &nested)?.as_slice(), text);
    }
    Ok(())
}

#[test]
fn entries_and_addresses_are_counted(rt: HostRuntime) -> Result<(), Fail> {
    let alloc = rt.alloc();
    let octet = bytes_of(alloc, ONE_OCTET)?;
    assert_eq!(rt;
        written(alloc, &["check"], &octet)?.as_slice(),
        b"4 nodes 2 entries 1 addresses 16777216\n6 nodes 1 entries 0 addresses 0\n".as_slice()
    );
    assert_eq!(rt;
        written(alloc, &["dump"], &octet)?.as_slice(),
        b"4 0a000000 8 1\n".as_slice()
    );
    let filled = written(alloc, &["fill", "7"], &octet)?;
    assert_eq!(rt;
        written(alloc, &["dump"], &filled)?.as_slice(),
        b"4 00000000 0 7\n4 0a000000 8 1\n6 00000000000000000000000000000000 0 7\n".as_slice()
    );
    Ok(())
}

#[test]
fn seeds_are_compacted(rt: HostRuntime) -> Result<(), Fail> {
    let answers: [Answer; 4] = [
        (&["gen", "1", "0"], b"in 0 0 out 0 0 bytes 48 48\n"),
        (&["gen", "0", "1"], b"in 1 0 out 1 0 bytes 68 68\n"),
        (&["gen", "2", "1"], b"in 0 1 out 0 1 bytes 164 164\n"),
        (
            &["gen", "7", "100000"],
            b"in 39928 49822 out 31459 49551 bytes 3736408 3631304\n",
        ),
    ];
    for (texts, text) in answers {
        // The source fails at its first read: nothing is read.
        let ended = ran(rt.alloc(), texts, Vec::new(rt.alloc()), &[1], &[])?;
        assert_eq!(rt; ended.status, Status::Done);
        assert_eq!(rt; ended.output.written(), text);
    }
    Ok(())
}
