// A source and a sink over the standard readers and writers. They tell no bytes.
ghost use Rattle.std.specs.Prelude.{◌≡◌, None, true, false, length, OnOk, OnErr, is_ok, IsOk};
ghost use Rattle.std.specs.Io.{ReadsAtMost};
ghost use Rattle.std.specs.Io.KnownBytes.{Appends, Keeps, ReadConsumes};
ghost use Rattle.prefix_io.specs.Causes.{HasCause};
ghost use Rattle.prefix_io.specs.Streams.{AppendsPrefix};
ghost use Rattle.prefix_io.specs.Calls.{counted};
ghost use Rattle.prefix_io.specs.Standard.{std_source_inner, std_source_faults};
ghost use Rattle.prefix_io.specs.Standard.{std_sink_inner, std_sink_faults, is_std_sink_clean};

use crate::{Failed, Sink, Source};
use std::io::{Read, Write};

/// Passes reads on to a reader. Each error of the reader is a failed call.
#[derive(Drop)]
pub struct StdSource<R: Read> {
    inner: R,
    faults: u64,
}

impl<R: Read> StdSource<R> {
    /// A source over this reader. It tells no bytes.
    pub fn new(inner: R) -> StdSource<R>
        ensures inner { std_source_inner result ≡ inner }
        ensures faults { std_source_faults result ≡ 0 }
    {
        StdSource { inner, faults: 0 }
    }
}

impl<R: Read> Source for StdSource<R> {
    ghost left = { λ _. None };

    ghost faults = { λ s. std_source_faults s };

    fn read(&mut self, buf: &mut [u8]) -> Result<usize, Failed>
        ensures bound { ReadsAtMost result buf.new }
        ensures cause { HasCause (std_source_faults self.old) (std_source_faults self.new) result }
        // Where the bytes of the reader are known, they are what the read moved.
        ensures passed { ReadConsumes (R.remaining (std_source_inner self.old)) (R.remaining (std_source_inner self.new))
            result buf.new }
        ensures counts { std_source_faults self.new ≡ counted (std_source_faults self.old) result }
    {
        match self.inner.read(buf) {
            Ok(n) => Ok(n),
            Err(_) => {
                self.faults = self.faults.saturating_add(1);
                Err(Failed)
            }
        }
    }
}

/// Passes writes and flushes on to a writer. A call fails at the writer's first error, and at its first write
/// that takes none of the bytes that are left.
#[derive(Drop)]
pub struct StdSink<W: Write> {
    inner: W,
    faults: u64,
    is_clean: bool,
}

impl<W: Write> StdSink<W> {
    /// A sink over this writer. It tells no bytes.
    pub fn new(inner: W) -> StdSink<W>
        ensures inner { std_sink_inner result ≡ inner }
        ensures faults { std_sink_faults result ≡ 0 }
        ensures clean { is_std_sink_clean result ≡ true }
    {
        StdSink {
            inner,
            faults: 0,
            is_clean: true,
        }
    }
}

impl<W: Write> Sink for StdSink<W> {
    ghost written = { λ _. None };

    ghost faults = { λ s. std_sink_faults s };

    ghost clean = { λ s. is_std_sink_clean s };

    fn write(&mut self, bytes: &[u8]) -> Result<(), Failed>
        ensures unclean { is_std_sink_clean self.new ≡ false }
        ensures cause { HasCause (std_sink_faults self.old) (std_sink_faults self.new) result }
        // Where the bytes of the writer are known, they grow by all of the bytes, or by a prefix.
        ensures passed { OnOk result (Appends (W.contents (std_sink_inner self.old)) (W.contents (std_sink_inner self.new))
            bytes.now) }
        ensures passed_part { OnErr result (AppendsPrefix (W.contents (std_sink_inner self.old))
            (W.contents (std_sink_inner self.new)) bytes.now) }
        ensures counts { std_sink_faults self.new ≡ counted (std_sink_faults self.old) result }
        ensures nothing { length bytes.now ≡ 0 → IsOk result }
    {
        self.is_clean = false;
        match write_whole(&mut self.inner, bytes) {
            Ok(()) => Ok(()),
            Err(Failed) => {
                self.faults = self.faults.saturating_add(1);
                Err(Failed)
            }
        }
    }

    fn flush(&mut self) -> Result<(), Failed>
        ensures cleans { is_std_sink_clean self.new ≡ is_ok result }
        ensures cause { HasCause (std_sink_faults self.old) (std_sink_faults self.new) result }
        ensures passed { Keeps (W.contents (std_sink_inner self.old)) (W.contents (std_sink_inner self.new)) }
        ensures counts { std_sink_faults self.new ≡ counted (std_sink_faults self.old) result }
    {
        match self.inner.flush() {
            Ok(()) => {
                self.is_clean = true;
                Ok(())
            }
            Err(_) => {
                self.is_clean = false;
                self.faults = self.faults.saturating_add(1);
                Err(Failed)
            }
        }
    }
}

/// Writes all of the bytes. It fails at the first error, and at the first write that takes nothing.
fn write_whole<W: Write>(inner: &mut W, bytes: &[u8]) -> Result<(), Failed>
    ensures whole { OnOk result (Appends (W.contents inner.old) (W.contents inner.new) bytes.now) }
    ensures part { OnErr result (AppendsPrefix (W.contents inner.old) (W.contents inner.new) bytes.now) }
    ensures nothing { length bytes.now ≡ 0 → IsOk result }
{
    let mut done = 0;
    while done < bytes.len() {
        match inner.write(&bytes[done..]) {
            Ok(0) | Err(_) => return Err(Failed),
            Ok(n) => done += n,
        }
    }
    Ok(())
}
