// How a command ends without an output.
use prefix_layout::ArchiveError;
use std::alloc::AllocError;

/// Why a command has no output.
#[derive(Clone, Copy)]
pub enum Ending {
    /// Memory was refused.
    NoMemory,
    /// The archive is refused, or an archive can't be written.
    Archive(ArchiveError),
    /// The line of this number, from 1, is outside the grammar.
    BadLine(usize),
}

impl From<AllocError> for Ending {
    ghost use Rattle.std.specs.Prelude.{◌≡◌};
    ghost use Rattle.prefix_app.specs.declared.ending.Ending.TheVariants.{NoMemory};

    ghost from_gives = { λ _ ending. ending ≡ NoMemory };

    fn from(_error: AllocError) -> Ending {
        Ending::NoMemory
    }
}

impl From<ArchiveError> for Ending {
    ghost use Rattle.std.specs.Prelude.{◌≡◌};
    ghost use Rattle.prefix_app.specs.declared.ending.Ending.TheVariants.{Archive};

    ghost from_gives = { λ error ending. ending ≡ Archive error };

    fn from(error: ArchiveError) -> Ending {
        Ending::Archive(error)
    }
}
