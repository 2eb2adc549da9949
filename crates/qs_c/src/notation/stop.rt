//! Why parsing a shape stopped.

use std::alloc::{AllocError, AllocFailed};

/// Why parsing a shape stopped.
#[derive(Clone, Copy)]
pub(crate) enum Stop {
    /// The text isn't a shape, for this reason.
    Fault(&'static str),
    /// An allocation failed.
    OutOfMemory,
}

/// A part of a shape, or why parsing it stopped.
pub(crate) type Result<T> = std::result::Result<T, Stop>;

impl From<AllocError> for Stop {
    ghost use Rattle.std.specs.Prelude.{◌≡◌};
    ghost use Rattle.qs_c.specs.declared.notation.stop.Stop.TheVariants.{OutOfMemory};

    ghost from_gives = { λ _ stop. stop ≡ OutOfMemory };

    fn from(_: AllocError) -> Stop {
        Stop::OutOfMemory
    }
}

impl<T: Drop> From<AllocFailed<T>> for Stop {
    ghost use Rattle.std.specs.Prelude.{◌≡◌};
    ghost use Rattle.qs_c.specs.declared.notation.stop.Stop.TheVariants.{OutOfMemory};

    ghost from_gives = { λ _ stop. stop ≡ OutOfMemory };

    fn from(_: AllocFailed<T>) -> Stop {
        Stop::OutOfMemory
    }
}
