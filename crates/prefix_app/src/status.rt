// How a run ends.
ghost use Rattle.std.specs.Prelude.{◌≡◌};
ghost use Rattle.prefix_app.specs.Statuses.{code_of};

use std::alloc::AllocError;
use std::process::ExitCode;

/// How a run ended.
#[derive(Clone, Copy, Debug, PartialEq, Eq)]
pub enum Status {
    /// The output of the command was written and flushed.
    Done,
    /// The input is not an archive of two tables.
    Refused,
    /// The words are no command.
    Usage,
    /// A read of the input failed.
    ReadFault,
    /// A write or a flush of the output failed.
    WriteFault,
    /// Memory was refused.
    NoMemory,
    /// A table has more positions than an archive can count.
    Overflow,
    /// The input has more than 2^30 bytes.
    TooLong,
    /// A line of the input is outside the grammar.
    BadLine,
}

impl Status {
    /// The exit code, from 0 to 8.
    pub fn code(self) -> u8
        ensures { result ≡ code_of self }
    {
        self as u8
    }
}

impl From<AllocError> for Status {
    ghost use Rattle.prefix_app.specs.declared.status.Status.TheVariants.{NoMemory};

    ghost from_gives = { λ _ status. status ≡ NoMemory };

    fn from(_error: AllocError) -> Status {
        Status::NoMemory
    }
}

impl From<Status> for ExitCode {
    ghost use Rattle.std.specs.Process.{exit_status};

    ghost from_gives = { λ status code. exit_status code ≡ code_of status };

    fn from(status: Status) -> ExitCode {
        ExitCode::from(status.code())
    }
}
