//! Why a walk over data stops.

ghost use Rattle.std.specs.Prelude.{◌≡◌};

use qs_tree::{Config, Error};
use std::alloc::AllocError;

/// Why writing a value, or a part of one, stopped before its end.
///
/// ```
/// let stop = writer.data(&datum); // Err(Stop::TooDeep) where a path is longer than is allowed
/// ```
#[derive(Drop)]
pub enum Stop {
    /// A path is longer than the configuration allows.
    TooDeep,
    /// A map's key isn't a scalar.
    BadKey,
    /// The sink failed. The sink of a [`Writer`](crate::Writer) is text in memory, which fails if an allocation fails.
    Io,
    /// An allocation failed.
    OutOfMemory,
}

/// The result of a call that writes a part of a value: unit, or why it stopped.
///
/// ```
/// fn write_to(&self, writer: &mut Writer) -> WriteResult {
///     writer.scalar(Scalar::Char(self.letter))
/// }
/// ```
pub type WriteResult = Result<(), Stop>;

impl Stop {
    ghost use Rattle.qs_data.specs.write.Errors.{error_of};

    /// Returns the error of a value that was written in memory under this configuration: [`MaxSerializationDepthExceeded`](Error::MaxSerializationDepthExceeded),
    /// [`Unsupported`](Error::Unsupported) or [`OutOfMemory`](Error::OutOfMemory).
    ///
    /// ```
    /// Err(stop) => Err(stop.into_error(config)),
    /// ```
    pub fn into_error(self, config: Config) -> Error
        ensures { result ≡ error_of config self }
    {
        match self {
            Stop::TooDeep => Error::MaxSerializationDepthExceeded(config.get_max_depth()),
            Stop::BadKey => Error::Unsupported,
            Stop::Io | Stop::OutOfMemory => Error::OutOfMemory,
        }
    }
}

impl From<AllocError> for Stop {
    ghost use Rattle.std.specs.Prelude.{◌≡◌};
    ghost use Rattle.qs_data.specs.declared.write.stop.Stop.TheVariants.{OutOfMemory};

    ghost from_gives = { λ _ stop. stop ≡ OutOfMemory };

    fn from(_failed: AllocError) -> Stop {
        Stop::OutOfMemory
    }
}
