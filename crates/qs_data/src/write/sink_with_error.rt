//! A sink that keeps why it failed.

ghost use Rattle.std.specs.Prelude.{◌≡◌};

use crate::write::sink::Sink;
use std::io;

/// A sink, and why it failed.
#[derive(Drop)]
pub(crate) struct SinkWithError<S> {
    pub(crate) sink: S,
    /// Why a put failed. If none returned an error, it is that a put took nothing.
    pub(crate) cause: io::Error,
}

impl<S> SinkWithError<S> {
    /// Returns the sink, with no failed put yet.
    pub(crate) fn new(sink: S) -> SinkWithError<S>
        ensures { result.sink ≡ sink }
    {
        SinkWithError {
            sink,
            cause: io::Error::from(io::ErrorKind::WriteZero),
        }
    }
}

impl<S: Sink> Sink for SinkWithError<S> {
    ghost taken = { λ s. S.taken s.sink };

    ghost failed = { λ s. S.failed s.sink };

    ghost writer_name = { λ s. S.writer_name s.sink };

    #[inline(always)]
    fn put(&mut self, bytes: &[u8]) -> io::Result<usize> {
        match self.sink.put(bytes) {
            Ok(count) => Ok(count),
            Err(error) => {
                self.cause = error;
                Err(io::Error::from(io::ErrorKind::Other))
            }
        }
    }

    fn has_failed(&self) -> bool {
        self.sink.has_failed()
    }
}
