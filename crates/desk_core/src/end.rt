//! How a run ends.
use std::alloc::{AllocError, AllocFailed};

/// How a run ended.
#[derive(Clone, Copy, Debug, PartialEq, Eq)]
pub enum RunEnd {
    /// Every line that the run takes was answered: true where nothing was refused or faulty.
    Done(bool),
    /// The reader failed, or was read too often.
    ReadFailed,
    /// The writer failed, or took no byte.
    WriteFailed,
    /// A growth was refused, as memory ran out.
    Memory,
    /// The database failed, or the desk was closed.
    Store,
}

/// Why a run stops before its end.
#[derive(Clone, Copy, Debug)]
pub enum Stop {
    ReadFailed,
    WriteFailed,
    Memory,
    Store,
}

impl Stop {
    ghost use Rattle.std.specs.Prelude.{◌≡◌};
    ghost use Rattle.desk_core.specs.Ends.{end_of};

    /// How a run ends that stops.
    pub fn end(self) -> RunEnd
        ensures { result ≡ end_of self }
    {
        match self {
            Stop::ReadFailed => RunEnd::ReadFailed,
            Stop::WriteFailed => RunEnd::WriteFailed,
            Stop::Memory => RunEnd::Memory,
            Stop::Store => RunEnd::Store,
        }
    }
}

impl From<AllocError> for Stop {
    ghost use Rattle.std.specs.Prelude.{◌≡◌};
    ghost use Rattle.desk_core.specs.declared.end.Stop.TheVariants.{Memory};

    ghost from_gives = { λ _ stop. stop ≡ Memory };

    fn from(_: AllocError) -> Self {
        Stop::Memory
    }
}

impl<T: Drop> From<AllocFailed<T>> for Stop {
    ghost use Rattle.std.specs.Prelude.{◌≡◌};
    ghost use Rattle.desk_core.specs.declared.end.Stop.TheVariants.{Memory};

    ghost from_gives = { λ _ stop. stop ≡ Memory };

    fn from(_: AllocFailed<T>) -> Self {
        Stop::Memory
    }
}
