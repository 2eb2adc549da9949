//! A writer that records whether a write failed.

ghost use Rattle.std.specs.Prelude.{◌≡◌, ◌<◌, ◌≤◌, None, true, false, length, take, IfSome};
ghost use Rattle.std.specs.Option.{MatchOption};
ghost use Rattle.std.specs.Io.KnownBytes.{Appends, Keeps};

use std::io::Write;

/// A writer, and whether a write failed, was interrupted or took nothing.
#[derive(Drop)]
pub struct Output<W> {
    writer: W,
    has_failed: bool,
}

impl<W: Write> Output<W> {
    /// Wraps a writer. No write has failed yet.
    pub fn new(writer: W) -> Output<W>
        ensures writer { result.writer ≡ writer }
        ensures sound { result.has_failed ≡ false }
    {
        Output {
            writer,
            has_failed: false,
        }
    }

    /// Writes once, and returns how many bytes were taken. Returns `None` if the write failed or took no byte.
    pub fn write(&mut self, bytes: &[u8]) -> Option<usize>
        ensures bound { IfSome result (λ count. (0 < count) × (count ≤ length bytes.now)) }
        ensures bytes { MatchOption result (Keeps (W.contents self.old.writer) (W.contents self.new.writer))
            (λ count. Appends (W.contents self.old.writer) (W.contents self.new.writer) (take count bytes.now)) }
        ensures failed { result ≡ None → self.new.has_failed ≡ true }
        ensures sound { IfSome result (λ _. self.new.has_failed ≡ self.old.has_failed) }
    {
        match self.writer.write(bytes) {
            Ok(count) if count > 0 => Some(count),
            _ => {
                self.has_failed = true;
                None
            }
        }
    }
}
