//! Why an event isn't written.

ghost use Rattle.qs_serde.specs.Halts.{IsHaltError};
ghost use Rattle.qs_serde.specs.Placed.{IsMemory};

use qs_data::Stop;
use qs_tree::{Config, Error};
use std::alloc::{AllocError, AllocFailed};

/// Why an event isn't written.
///
/// It is small, since each step of a serializer returns one. [`into_error`](Halt::into_error) makes an [`Error`] of it.
///
/// ```
/// query.serialize(&mut serializer)?; // Err(Halt::Stopped(Stop::TooDeep)) if the value nests deeper than is allowed
/// ```
#[derive(Drop)]
pub enum Halt {
    /// The type's own code rejects the value, or the event isn't allowed here, with this message.
    Custom(Box<String>),
    /// The writer stopped, or an allocation failed.
    Stopped(Stop),
    /// There was an error before.
    Failed,
}

impl Halt {
    /// Returns the error of a value that was written under this configuration: [`Custom`](Error::Custom),
    /// [`MaxSerializationDepthExceeded`](Error::MaxSerializationDepthExceeded), [`Unsupported`](Error::Unsupported),
    /// [`Failed`](Error::Failed) or [`OutOfMemory`](Error::OutOfMemory). It doesn't allocate.
    ///
    /// ```
    /// Err(halt) => Err(halt.into_error(config)),
    /// ```
    #[cold]
    #[inline(never)]
    pub fn into_error(self, config: Config) -> Error
        ensures { IsHaltError config self result }
    {
        match self {
            Halt::Custom(message) => Error::Custom(Box::into_inner(message)),
            Halt::Stopped(stop) => stop.into_error(config),
            Halt::Failed => Error::Failed,
        }
    }
}

impl From<AllocError> for Halt {
    ghost from_gives = { λ _ halt. IsMemory halt };

    fn from(_: AllocError) -> Halt {
        Halt::Stopped(Stop::OutOfMemory)
    }
}

impl<T: Drop> From<AllocFailed<T>> for Halt {
    ghost from_gives = { λ _ halt. IsMemory halt };

    fn from(_: AllocFailed<T>) -> Halt {
        Halt::Stopped(Stop::OutOfMemory)
    }
}
