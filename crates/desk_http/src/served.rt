//! How a connection ends.
use std::alloc::{AllocError, AllocFailed};

/// What came of one connection.
#[derive(Clone, Copy, Debug, PartialEq, Eq)]
pub enum Served {
    /// A response of this status was written whole.
    Answered(u16),
    /// The input ended before the request did.
    Ended,
    /// The reader failed, or was read too often.
    ReadFailed,
    /// The writer failed, or took no byte.
    WriteFailed,
    /// A growth was refused, and nothing was written.
    Memory,
}

/// Why no response was written whole.
#[derive(Clone, Copy, Debug)]
pub enum Stop {
    Ended,
    ReadFailed,
    WriteFailed,
    Memory,
}

impl From<AllocError> for Stop {
    ghost use Rattle.std.specs.Prelude.{◌≡◌};
    ghost use Rattle.desk_http.specs.declared.served.Stop.TheVariants.{Memory};

    ghost from_gives = { λ _ stop. stop ≡ Memory };

    fn from(_: AllocError) -> Self {
        Stop::Memory
    }
}

impl<T: Drop> From<AllocFailed<T>> for Stop {
    ghost use Rattle.std.specs.Prelude.{◌≡◌};
    ghost use Rattle.desk_http.specs.declared.served.Stop.TheVariants.{Memory};

    ghost from_gives = { λ _ stop. stop ≡ Memory };

    fn from(_: AllocFailed<T>) -> Self {
        Stop::Memory
    }
}
