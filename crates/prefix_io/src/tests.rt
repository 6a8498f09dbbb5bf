// Cases worked out by hand, for the forms in memory and for those over the standard streams.
use crate::{Failed, MemorySink, MemorySource, Sink, SinkFail, Source, StdSink, StdSource};
use std::io::{Error, ErrorKind, Read, Write};
use std::test::Fail;

const LETTERS: &[u8] = b"abcdefg";

// The most bytes of a read, the length of the buffer, the reads that fail, and the answers.
type Reads = (
    usize,
    usize,
    &'static [u64],
    &'static [Result<usize, Failed>],
);

#[test]
fn a_memory_source_gives_pieces(rt: HostRuntime) -> Result<(), Fail> {
    let cases: [Reads; 5] = [
        (3, 8, &[], &[Ok(3), Ok(3), Ok(1), Ok(0), Ok(0)]),
        (9, 2, &[], &[Ok(2), Ok(2), Ok(2), Ok(1), Ok(0)]),
        (9, 8, &[], &[Ok(7), Ok(0)]),
        (
            4,
            8,
            &[3, 1],
            &[Err(Failed), Ok(4), Err(Failed), Ok(3), Ok(0)],
        ),
        (1, 1, &[0, 2, 2], &[Ok(1), Err(Failed), Ok(1), Ok(1)]),
    ];
    let alloc = rt.alloc();
    for (piece, room, fail, answers) in cases {
        assert!(rt; 1 <= piece && 1 <= room && room <= 8, "a case with no room");
        let mut source = MemorySource::new(LETTERS.to_vec(alloc)?, piece, fail.to_vec(alloc)?);
        let mut given = Vec::new(alloc);
        let mut faults = 0;
        for answer in answers {
            let mut buf = [b'-'; 8];
            let got = source.read(&mut buf[..room]);
            assert_eq!(rt; got, *answer, "pieces of {piece} into {room}");
            match got {
                Ok(count) => given.extend_from_slice(&buf[..count])?,
                Err(Failed) => faults = u64::saturating_add(faults, 1),
            }
            assert_eq!(rt; source.faults(), faults, "pieces of {piece} into {room}");
        }
        assert!(rt;
            LETTERS.starts_with(&given),
            "pieces of {piece} into {room}"
        );
    }
    Ok(())
}

// The room, the writes that fail, and for each write of `abc` its answer and the bytes so far.
type Writes = (
    usize,
    &'static [SinkFail],
    &'static [(Result<(), Failed>, &'static [u8])],
);

#[test]
fn a_memory_sink_takes_what_fits(rt: HostRuntime) -> Result<(), Fail> {
    const SECOND: SinkFail = SinkFail { call: 2, take: 1 };
    const FIRST: SinkFail = SinkFail { call: 1, take: 9 };
    const FIRST_AGAIN: SinkFail = SinkFail { call: 1, take: 0 };
    let cases: [Writes; 6] = [
        (
            1000,
            &[],
            &[
                (Ok(()), b"abc"),
                (Ok(()), b"abcabc"),
                (Ok(()), b"abcabcabc"),
            ],
        ),
        (
            5,
            &[],
            &[
                (Ok(()), b"abc"),
                (Err(Failed), b"abcab"),
                (Err(Failed), b"abcab"),
            ],
        ),
        (0, &[], &[(Err(Failed), b"")]),
        (
            9,
            &[SECOND],
            &[
                (Ok(()), b"abc"),
                (Err(Failed), b"abca"),
                (Ok(()), b"abcaabc"),
            ],
        ),
        (
            9,
            &[FIRST, FIRST_AGAIN],
            &[(Err(Failed), b"abc"), (Ok(()), b"abcabc")],
        ),
        (
            2,
            &[FIRST_AGAIN, FIRST],
            &[(Err(Failed), b""), (Err(Failed), b"ab")],
        ),
    ];
    let alloc = rt.alloc();
    for (room, fail, writes) in cases {
        let mut sink = MemorySink::with_room(alloc, room, fail.to_vec(alloc)?)?;
        let mut faults = 0;
        for (answer, written) in writes {
            assert_eq!(rt; sink.flush(), Ok(()));
            let got = sink.write(b"abc");
            assert_eq!(rt; got, *answer, "room for {room}");
            assert_eq!(rt; sink.written(), *written, "room for {room}");
            if got.is_err() {
                faults = u64::saturating_add(faults, 1);
            }
            assert_eq!(rt; sink.faults(), faults, "room for {room}");
        }
    }
    Ok(())
}

#[derive(Drop)]
struct Broken;

impl Read for Broken {
    fn read(&mut self, _buf: &mut [u8]) -> std::io::Result<usize> {
        Err(Error::from(ErrorKind::Other))
    }
}

impl Write for Broken {
    fn write(&mut self, _buf: &[u8]) -> std::io::Result<usize> {
        Err(Error::from(ErrorKind::Other))
    }

    fn flush(&mut self) -> std::io::Result<()> {
        Err(Error::from(ErrorKind::Other))
    }
}

/// Takes one byte a call.
#[derive(Drop)]
struct OneByte {
    bytes: Vec<u8>,
}

impl Write for OneByte {
    fn write(&mut self, buf: &[u8]) -> std::io::Result<usize> {
        if buf.is_empty() {
            return Ok(0);
        }
        self.bytes.push(buf[0])?;
        Ok(1)
    }

    fn flush(&mut self) -> std::io::Result<()> {
        Ok(())
    }
}

#[test]
fn a_std_source_passes_reads_on(rt: HostRuntime) {
    let mut buf = [0; 4];
    let mut source = StdSource::new(LETTERS);
    assert_eq!(rt; source.read(&mut buf), Ok(4));
    assert_eq!(rt; buf, *b"abcd");
    assert_eq!(rt; source.read(&mut buf), Ok(3));
    assert_eq!(rt; buf, *b"efgd");
    assert_eq!(rt; source.read(&mut buf), Ok(0));
    assert_eq!(rt; StdSource::new(Broken).read(&mut buf), Err(Failed));
}

#[test]
fn a_std_sink_passes_writes_on(rt: HostRuntime) {
    let mut bytes = Vec::new(rt.alloc());
    let mut sink = StdSink::new(&mut bytes);
    assert_eq!(rt; sink.write(b"abc"), Ok(()));
    assert_eq!(rt; sink.write(b"de"), Ok(()));
    assert_eq!(rt; sink.flush(), Ok(()));
    assert_eq!(rt; bytes.as_slice(), b"abcde".as_slice());

    // A slice takes as many bytes as it has, and then none.
    let mut room = [b'-'; 4];
    let mut sink = StdSink::new(room.as_mut_slice());
    assert_eq!(rt; sink.write(b"abc"), Ok(()));
    assert_eq!(rt; sink.write(b"de"), Err(Failed));
    assert_eq!(rt; sink.write(b""), Ok(()));
    assert_eq!(rt; room, *b"abcd");

    // What a writer leaves is handed to it again.
    let mut slow = OneByte {
        bytes: Vec::new(rt.alloc()),
    };
    let mut sink = StdSink::new(&mut slow);
    assert_eq!(rt; sink.write(b"abc"), Ok(()));
    assert_eq!(rt; sink.write(b"de"), Ok(()));
    assert_eq!(rt; slow.bytes.as_slice(), b"abcde".as_slice());

    let mut sink = StdSink::new(Broken);
    assert_eq!(rt; sink.flush(), Err(Failed));
    assert_eq!(rt; sink.write(b"abc"), Err(Failed));
}
