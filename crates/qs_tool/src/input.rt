//! A reader with a limited number of reads.

ghost use Rattle.std.specs.Prelude.{◌≡◌, ◌≢◌, ◌+◌, ◌≤◌, None, length, take, IfSome};
ghost use Rattle.std.specs.Option.{MatchOption};
ghost use Rattle.std.specs.Io.KnownBytes.{Consumes, IsAtEnd, Keeps};
ghost use Rattle.qs_tool.specs.declared.input.State.TheVariants.{Open, Ended, Failed, Spent};

use std::io::Read;

/// The maximum number of reads.
const MAX_READS: usize = 1_000_000;

/// The maximum number of bytes in a read.
pub const READ_SIZE: usize = 8192;

/// The result of the last read.
#[derive(Clone, Copy, Debug, PartialEq, Eq)]
pub enum State {
    /// It returned bytes, or there was no read yet.
    Open,
    /// It reached the end.
    Ended,
    /// It failed or was interrupted.
    Failed,
    /// It wasn't made, because no read was left.
    Spent,
}

/// A reader, how many reads of it are left, and the result of the last one.
#[derive(Drop)]
pub struct Input<R> {
    reader: R,
    reads_left: usize,
    state: State,
}

impl<R: Read> Input<R> {
    /// Wraps a reader, with all reads left.
    pub fn new(reader: R) -> Input<R>
        ensures reader { result.reader ≡ reader }
        ensures reads { result.reads_left ≡ 1000000 }
        ensures open { result.state ≡ Open }
    {
        Input {
            reader,
            reads_left: MAX_READS,
            state: State::Open,
        }
    }

    /// Reads once, and returns how many bytes were read. Returns `None` if the read failed or no read is left.
    pub fn read(&mut self, buffer: &mut [u8; READ_SIZE]) -> Option<usize>
        ensures size { length buffer.new ≡ 8192 }
        ensures bound { IfSome result (λ count. count ≤ 8192) }
        ensures bytes { MatchOption result (Keeps (R.remaining self.old.reader) (R.remaining self.new.reader))
            (λ count. Consumes (R.remaining self.old.reader) (R.remaining self.new.reader) (take count buffer.new)) }
        ensures gave { IfSome result (λ count. count ≢ 0 → self.new.state ≡ Open) }
        ensures ended { IfSome result (λ count. count ≡ 0 → (self.new.state ≡ Ended) × IsAtEnd (R.remaining self.new.reader)) }
        ensures counted { self.old.reads_left ≢ 0 → self.old.reads_left ≡ self.new.reads_left + 1 }
        ensures failed { self.old.reads_left ≢ 0 → result ≡ None → self.new.state ≡ Failed }
        ensures spent { self.old.reads_left ≡ 0 → (result ≡ None) × (self.new ≡ record { reader = self.old.reader; reads_left = 0; state = Spent }) }
    {
        let Some(reads_left) = self.reads_left.checked_sub(1) else {
            self.state = State::Spent;
            return None;
        };
        self.reads_left = reads_left;
        let Ok(count) = self.reader.read(buffer) else {
            self.state = State::Failed;
            return None;
        };
        self.state = if count == 0 {
            State::Ended
        } else {
            State::Open
        };
        Some(count)
    }
}
