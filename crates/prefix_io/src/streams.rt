// What a source and a sink promise. The bytes that they hold may be told or not; failed calls are counted.
ghost use Rattle.std.specs.Prelude.{◌≡◌, ◌<◌, ℕ, Bool, List, Option, false, length, OnOk, OnErr, is_ok, is_some};
ghost use Rattle.std.specs.Io.{ReadsAtMost};
ghost use Rattle.std.specs.Io.KnownBytes.{Appends, Keeps, ReadConsumes};
ghost use Rattle.prefix_io.specs.Causes.{HasCause};
ghost use Rattle.prefix_io.specs.Streams.{AppendsPrefix};

/// A call of a source or a sink failed.
#[derive(Clone, Copy, Debug, PartialEq, Eq)]
pub struct Failed;

/// Where bytes come from. No call changes whether the bytes that are left are told.
pub trait Source {
    /// The bytes that are left, where the source tells them.
    ghost left: { Self → Option (List ℕ) };

    /// How many calls have failed. The count stops at `u64::MAX`.
    ghost faults: { Self → ℕ };

    /// Moves the first bytes that are left to the front of `buf`, and answers how many. `Ok(0)` comes only
    /// at the end. A call that fails moves none.
    fn read(&mut self, buf: &mut [u8]) -> Result<usize, Failed>
        requires { 0 < length buf.old }
        ensures bound { ReadsAtMost result buf.new }
        ensures bytes { ReadConsumes (left self.old) (left self.new) result buf.new }
        ensures told { is_some (left self.new) ≡ is_some (left self.old) }
        ensures cause { HasCause (faults self.old) (faults self.new) result };
}

/// Where bytes go to. No call changes whether the bytes so far are told.
pub trait Sink {
    /// The bytes so far, where the sink tells them.
    ghost written: { Self → Option (List ℕ) };

    /// How many calls have failed. The count stops at `u64::MAX`.
    ghost faults: { Self → ℕ };

    /// Whether all that was written has been flushed.
    ghost clean: { Self → Bool };

    /// Appends all of the bytes. A call that fails appends a prefix of them. After it the sink is not clean.
    fn write(&mut self, bytes: &[u8]) -> Result<(), Failed>
        ensures whole { OnOk result (Appends (written self.old) (written self.new) bytes.now) }
        ensures part { OnErr result (AppendsPrefix (written self.old) (written self.new) bytes.now) }
        ensures told { is_some (written self.new) ≡ is_some (written self.old) }
        ensures unclean { clean self.new ≡ false }
        ensures cause { HasCause (faults self.old) (faults self.new) result };

    /// Hands on what was written, and appends nothing. After it the sink is clean exactly if it answered `Ok`.
    fn flush(&mut self) -> Result<(), Failed>
        ensures same { Keeps (written self.old) (written self.new) }
        ensures told { is_some (written self.new) ≡ is_some (written self.old) }
        ensures cleans { clean self.new ≡ is_ok result }
        ensures cause { HasCause (faults self.old) (faults self.new) result };
}
