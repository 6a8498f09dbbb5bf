// A source and a sink in memory, whose calls fail where they were told to.
ghost use Rattle.std.specs.Prelude.{◌≡◌, ◌≤◌, ◌<◌, ◌++◌, ◌+◌, [], Some, true, false, min, length, take, drop};
ghost use Rattle.std.specs.Prelude.{IsOk, IfOk, OnOk, OnErr, vec_len, vec_capacity};
ghost use Rattle.std.specs.Io.{ReadsAtMost};
ghost use Rattle.std.specs.Io.KnownBytes.{Appends, Keeps, ReadConsumes};
ghost use Rattle.prefix_io.specs.Causes.{HasCause};
ghost use Rattle.prefix_io.specs.Streams.{AppendsPrefix};
ghost use Rattle.prefix_io.specs.Calls.{counted, next_call};

use crate::{Failed, Sink, Source};
use std::alloc::{AllocError, Global};

/// Gives its bytes in pieces. It fails where it was told to, and nowhere else.
#[derive(Drop)]
pub struct MemorySource {
    bytes: Vec<u8>,
    start: usize,
    piece: usize,
    fail: Vec<u64>,
    call: Option<u64>,
    faults: u64,
    ghost in_bounds: { start ≤ vec_len bytes },
    ghost moves: { 1 ≤ piece },
}

impl MemorySource {
    ghost use Rattle.prefix_io.specs.Memory.{source_left, source_piece, source_fail, source_call, source_faults};
    ghost use Rattle.prefix_io.specs.Memory.{read_fails};

    /// A source of these bytes. A read gives at most `piece` of them, which is at least 1. `fail` has the
    /// numbers, from 1, of the reads that fail. It takes no memory.
    pub fn new(bytes: Vec<u8>, piece: usize, fail: Vec<u64>) -> MemorySource
        requires { 1 ≤ piece }
        ensures left { source_left result ≡ bytes.items }
        ensures piece { source_piece result ≡ piece }
        ensures fail { source_fail result ≡ fail.items }
        ensures call { source_call result ≡ Some 1 }
        ensures faults { source_faults result ≡ 0 }
    {
        MemorySource {
            bytes,
            start: 0,
            piece,
            fail,
            call: Some(1),
            faults: 0,
        }
    }

    /// How many reads have failed. The count stops at `u64::MAX`.
    pub fn faults(&self) -> u64
        ensures { result ≡ source_faults self.now }
    {
        self.faults
    }

    /// The bytes that are left.
    fn rest(&self) -> &[u8]
        ensures { result.now ≡ source_left self.now }
    {
        &self.bytes[self.start..]
    }

    /// Whether the next read fails.
    fn fails(&self) -> bool
        ensures { result ≡ read_fails self.now }
    {
        match self.call {
            Some(number) => self.fail.contains(&number),
            None => false,
        }
    }
}

impl Source for MemorySource {
    ghost use Rattle.prefix_io.specs.Memory.{source_left, source_piece, source_fail, source_call, source_faults};
    ghost use Rattle.prefix_io.specs.Memory.{read_answer, moved_to, rest_after};

    ghost left = { λ s. Some (source_left s) };

    ghost faults = { λ s. source_faults s };

    fn read(&mut self, buf: &mut [u8]) -> Result<usize, Failed>
        requires { 0 < length buf.old }
        ensures bound { ReadsAtMost result buf.new }
        ensures bytes { ReadConsumes (Some (source_left self.old)) (Some (source_left self.new)) result buf.new }
        ensures cause { HasCause (source_faults self.old) (source_faults self.new) result }

        // Which reads fail, and what the others give.
        ensures answer { result ≡ read_answer self.old (length buf.old) }
        ensures moved { buf.new ≡ moved_to (source_left self.old) result buf.old }
        ensures rest { source_left self.new ≡ rest_after (source_left self.old) result }
        ensures counts { source_faults self.new ≡ counted (source_faults self.old) result }
        ensures never { source_fail self.old ≡ [] → IsOk result }

        // What the next read needs.
        ensures call { source_call self.new ≡ next_call (source_call self.old) }
        ensures piece { source_piece self.new ≡ source_piece self.old }
        ensures fail { source_fail self.new ≡ source_fail self.old }
    {
        let fails = self.fails();
        self.call = after(self.call);
        if fails {
            self.faults = self.faults.saturating_add(1);
            return Err(Failed);
        }
        let count = copy_front(self.rest(), self.piece, buf);
        self.start += count;
        Ok(count)
    }
}

/// Copies the first bytes, at most `most` of them and at most as many as fit, and answers how many.
fn copy_front(from: &[u8], most: usize, to: &mut [u8]) -> usize
    ensures count { result ≡ min (min most (length to.old)) (length from.now) }
    ensures copied { to.new ≡ take result from.now ++ drop result to.old }
{
    let count = most.min(to.len()).min(from.len());
    to[..count].copy_from_slice(&from[..count]);
    count
}

/// The number of the call after this one, none past `u64::MAX`.
fn after(call: Option<u64>) -> Option<u64>
    ensures { result ≡ next_call call }
{
    match call {
        Some(number) => number.checked_add(1),
        None => None,
    }
}

/// A write that fails.
#[derive(Clone, Copy, Debug, PartialEq, Eq)]
pub struct SinkFail {
    /// The number of the write, from 1. Flushes are not counted.
    pub call: u64,
    /// The most bytes that it takes.
    pub take: usize,
}

/// Keeps what is written, in memory that it took when it was made. A write fails where it doesn't fit, and
/// where the sink was told to fail. A flush never fails.
#[derive(Drop)]
pub struct MemorySink {
    bytes: Vec<u8>,
    free: usize,
    fail: Vec<SinkFail>,
    call: Option<u64>,
    faults: u64,
    is_clean: bool,
    ghost reserved: { vec_len bytes + free ≤ vec_capacity bytes },
}

impl MemorySink {
    ghost use Rattle.prefix_io.specs.Memory.{sink_written, sink_free, sink_fail, sink_call, sink_faults};
    ghost use Rattle.prefix_io.specs.Memory.{is_sink_clean, write_plan};

    /// A sink with room for `room` bytes, in memory that it takes now. `fail` has the writes that fail; of two
    /// with one number, the first counts. Its one error is want of memory.
    pub fn with_room(
        alloc: Global,
        room: usize,
        fail: Vec<SinkFail>,
    ) -> Result<MemorySink, AllocError>
        ensures written { IfOk result (λ sink. sink_written sink ≡ []) }
        ensures free { IfOk result (λ sink. sink_free sink ≡ room) }
        ensures fail { IfOk result (λ sink. sink_fail sink ≡ fail.items) }
        ensures call { IfOk result (λ sink. sink_call sink ≡ Some 1) }
        ensures faults { IfOk result (λ sink. sink_faults sink ≡ 0) }
        ensures clean { IfOk result (λ sink. is_sink_clean sink ≡ true) }
        ensures succeeds { room ≡ 0 → IsOk result }
    {
        Ok(MemorySink {
            bytes: Vec::with_capacity(alloc, room)?,
            free: room,
            fail,
            call: Some(1),
            faults: 0,
            is_clean: true,
        })
    }

    /// The bytes so far.
    pub fn written(&self) -> &[u8]
        ensures { result.now ≡ sink_written self.now }
    {
        &self.bytes
    }

    /// How many writes have failed. The count stops at `u64::MAX`.
    pub fn faults(&self) -> u64
        ensures { result ≡ sink_faults self.now }
    {
        self.faults
    }

    /// What the next write takes at most, where it was told to fail.
    fn planned(&self) -> Option<usize>
        ensures { result ≡ write_plan self.now }
    {
        let number = self.call?;
        for failing in &self.fail {
            if failing.call == number {
                return Some(failing.take);
            }
        }
        None
    }
}

impl Sink for MemorySink {
    ghost use Rattle.prefix_io.specs.Memory.{sink_written, sink_free, sink_fail, sink_call, sink_faults};
    ghost use Rattle.prefix_io.specs.Memory.{is_sink_clean, write_answer, write_takes};

    ghost written = { λ s. Some (sink_written s) };

    ghost faults = { λ s. sink_faults s };

    ghost clean = { λ s. is_sink_clean s };

    fn write(&mut self, bytes: &[u8]) -> Result<(), Failed>
        ensures whole { OnOk result (Appends (Some (sink_written self.old)) (Some (sink_written self.new)) bytes.now) }
        ensures part { OnErr result (AppendsPrefix (Some (sink_written self.old)) (Some (sink_written self.new)) bytes.now) }
        ensures unclean { is_sink_clean self.new ≡ false }
        ensures cause { HasCause (sink_faults self.old) (sink_faults self.new) result }

        // Which writes fail, and what each takes.
        ensures answer { result ≡ write_answer self.old (length bytes.now) }
        ensures written { sink_written self.new
            ≡ sink_written self.old ++ take (write_takes self.old (length bytes.now)) bytes.now }
        ensures counts { sink_faults self.new ≡ counted (sink_faults self.old) result }

        // What the next write needs.
        ensures free { sink_free self.new + write_takes self.old (length bytes.now) ≡ sink_free self.old }
        ensures call { sink_call self.new ≡ next_call (sink_call self.old) }
        ensures fail { sink_fail self.new ≡ sink_fail self.old }
    {
        let planned = self.planned();
        let most = planned.unwrap_or(bytes.len());
        let count = most.min(bytes.len()).min(self.free);
        self.call = after(self.call);
        self.is_clean = false;
        self.free -= count;
        let _ = self.bytes.extend_from_slice(&bytes[..count]);
        if planned.is_some() || count < bytes.len() {
            self.faults = self.faults.saturating_add(1);
            return Err(Failed);
        }
        Ok(())
    }

    fn flush(&mut self) -> Result<(), Failed>
        ensures ok { IsOk result }
        ensures cleans { is_sink_clean self.new ≡ true }
        ensures written { sink_written self.new ≡ sink_written self.old }
        ensures faults { sink_faults self.new ≡ sink_faults self.old }
        ensures free { sink_free self.new ≡ sink_free self.old }
        ensures call { sink_call self.new ≡ sink_call self.old }
        ensures fail { sink_fail self.new ≡ sink_fail self.old }
    {
        self.is_clean = true;
        Ok(())
    }
}
