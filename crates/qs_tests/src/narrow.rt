//! A writer that takes few bytes at a time, and then stops once.

use std::alloc::{AllocError, Global};
use std::io;
use std::io::Write;

/// How a write to a full writer ends.
#[derive(Clone, Copy, Debug)]
pub enum Stop {
    Fails,
    IsInterrupted,
    TakesNothing,
}

/// Takes up to `step` bytes for each write until it is full, and then stops once. It takes what is written after that, so a test sees it.
#[derive(Drop)]
pub struct Narrow {
    pub held: Vec<u8>,
    step: usize,
    room: usize,
    stop: Stop,
}

impl Narrow {
    /// Returns an empty writer. No write allocates until it is full.
    pub fn new(alloc: Global, step: usize, room: usize, stop: Stop) -> Result<Narrow, AllocError> {
        let held = Vec::with_capacity(alloc, room)?;
        Ok(Narrow {
            held,
            step,
            room,
            stop,
        })
    }
}

impl Write for Narrow {
    fn write(&mut self, buf: &[u8]) -> io::Result<usize> {
        let count = buf.len().min(self.step).min(self.room);
        if count == 0 && !buf.is_empty() {
            self.room = usize::MAX;
            match self.stop {
                Stop::Fails => return Err(io::Error::from(io::ErrorKind::BrokenPipe)),
                Stop::IsInterrupted => return Err(io::Error::from(io::ErrorKind::Interrupted)),
                Stop::TakesNothing => return Ok(0),
            }
        }
        self.held.extend_from_slice(&buf[..count])?;
        self.room -= count;
        Ok(count)
    }

    fn flush(&mut self) -> io::Result<()> {
        Ok(())
    }
}
