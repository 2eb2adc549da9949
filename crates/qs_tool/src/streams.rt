//! Reads the whole input, and writes the whole line.

ghost use Rattle.std.specs.Prelude.{◌≡◌, ℕ, ◌<◌, true, length, take, IfErr, IfOk, IfSome, OnOk, OnErr};
ghost use Rattle.std.specs.Io.KnownBytes.{Appends, IsAtEnd};
ghost use Rattle.qs_tool.specs.declared.input.State.TheVariants.{Ended};
ghost use Rattle.qs_tool.specs.Streams.{IsReason};

use crate::input::{Input, READ_SIZE};
use crate::output::Output;
use std::alloc::{AllocError, Global};
use std::io::{Read, Write};

/// Why a run ends without its line.
#[derive(Debug, PartialEq, Eq, Drop)]
pub enum Stop {
    /// An allocation failed.
    OutOfMemory,
    /// A read or a write failed or was interrupted, a write took nothing, or no read reached the end.
    Stream,
}

impl From<AllocError> for Stop {
    ghost use Rattle.std.specs.Prelude.{◌≡◌};
    ghost use Rattle.qs_tool.specs.declared.streams.Stop.TheVariants.{OutOfMemory};

    ghost from_gives = { λ _ stop. stop ≡ OutOfMemory };

    fn from(_: AllocError) -> Stop {
        Stop::OutOfMemory
    }
}

/// Reads the input to its end, with the reads that are left.
pub fn read_input<R: Read>(alloc: Global, input: &mut Input<R>) -> Result<Vec<u8>, Stop>
    ensures all { IfOk result (λ bytes. IfSome (R.remaining input.old.reader) (λ known. bytes.items ≡ known)) }
    ensures ended { OnOk result ((input.new.state ≡ Ended) × IsAtEnd (R.remaining input.new.reader)) }
    ensures reason { IfErr result (IsReason input.new) }
{
    let mut bytes = Vec::new(alloc);
    let mut buffer = [0u8; READ_SIZE];
    loop {
        let Some(count) = input.read(&mut buffer) else {
            return Err(Stop::Stream);
        };
        if count == 0 {
            return Ok(bytes);
        }
        bytes.extend_from_slice(&buffer[..count])?;
    }
}

/// Writes these bytes, by one write after another. No write is repeated.
pub fn write_all<W: Write>(output: &mut Output<W>, bytes: &[u8]) -> Result<(), Stop>
    ensures whole { OnOk result (Appends (W.contents output.old.writer) (W.contents output.new.writer) bytes.now) }
    ensures part { OnErr result ((n : ℕ) × (n < length bytes.now)
        × Appends (W.contents output.old.writer) (W.contents output.new.writer) (take n bytes.now)) }
    ensures failed { OnErr result (output.new.has_failed ≡ true) }
{
    let mut rest = bytes;
    while !rest.is_empty() {
        let Some(count) = output.write(rest) else {
            return Err(Stop::Stream);
        };
        rest = &rest[count..];
    }
    Ok(())
}
