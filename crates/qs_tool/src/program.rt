//! The program over any reader and writer.

ghost use Rattle.std.specs.Prelude.{◌≡◌, ◌≢◌, ◌⊎◌, ℕ, ◌<◌, List, None, length, take, map, string_bytes, IfSome, true};
ghost use Rattle.std.specs.Io.KnownBytes.{Appends, IsAtEnd};
ghost use Rattle.qs_tool.specs.Arguments.{asked};
ghost use Rattle.qs_tool.specs.Line.{IsLine, IsBegun, memory_line, usage_line};
ghost use Rattle.qs_tool.specs.Streams.{IsCut};
ghost use Rattle.qs_tool.specs.declared.input.State.TheVariants.{Open, Ended};

use crate::answer::respond;
use crate::arguments::Request;
use crate::input::Input;
use crate::output::Output;
use crate::streams::{Stop, write_all};
use std::alloc::Global;
use std::io::{Read, Write};

/// What is written if the arguments are wrong.
const USAGE: &str =
    "usage: qs_tool flat|params|any [--form] [--strict] [--depth N] [--format indexed|empty|unindexed] [--duplicates last|error]\n";

/// What is written if an allocation failed.
const NO_MEMORY: &str = "error: out of memory\n";

/// Runs the program with these arguments: reads the input to its end, writes one line, and returns the status.
///
/// | status | line |
/// |---|---|
/// | 0 | what was read, written again, or shown by the command `any` |
/// | 1 | `error: ` and why the input was rejected |
/// | 2 | how the program is called; nothing was read |
/// | 3 | an allocation failed, with a line that says so if it can be written, or a read or a write failed |
///
/// The input is read by at most 1,000,000 reads of 8,192 bytes; if none of them reaches the end, that counts as a failed read. A
/// final newline isn't part of the input. The line is written by one `write` after another, and none is repeated: a write that
/// fails, is interrupted or takes nothing ends the run with status 3.
pub fn run<R: Read, W: Write>(
    alloc: Global,
    args: &[String],
    input: &mut Input<R>,
    output: &mut Output<W>,
) -> u8
    ensures line { IfSome (R.remaining input.old.reader) (λ known. result ≢ 3 →
        (line : List ℕ) × IsLine (map string_bytes args.now) known line result
        × Appends (W.contents output.old.writer) (W.contents output.new.writer) line) }
    ensures usage { asked (map string_bytes args.now) ≡ None → result ≢ 3 →
        (result ≡ 2) × Appends (W.contents output.old.writer) (W.contents output.new.writer) usage_line }
    ensures unread { asked (map string_bytes args.now) ≡ None → input.new ≡ input.old }
    ensures ended { result ≢ 3 → (asked (map string_bytes args.now) ≡ None) ⊎ ((input.new.state ≡ Ended) × IsAtEnd (R.remaining input.new.reader)) }
    ensures stopped { IfSome (R.remaining input.old.reader) (λ known. result ≡ 3 →
        (line : List ℕ) × (n : ℕ) × IsBegun (map string_bytes args.now) known (R.remaining input.new.reader) line n
        × Appends (W.contents output.old.writer) (W.contents output.new.writer) (take n line)) }
    ensures cut { input.old.state ≡ Open → IsCut input.new → (result ≡ 3) × (output.new ≡ output.old) }
    ensures reason { result ≡ 3 → IsCut input.new ⊎ ((output.new.has_failed ≡ true)
        ⊎ Appends (W.contents output.old.writer) (W.contents output.new.writer) memory_line) }
{
    let Some(request) = Request::from_words(args) else {
        return finish(output, USAGE.as_bytes(), 2);
    };
    match respond(alloc, request, input) {
        Ok(answer) => finish(output, answer.line.as_slice(), answer.status),
        Err(Stop::OutOfMemory) => finish(output, NO_MEMORY.as_bytes(), 3),
        Err(Stop::Stream) => 3,
    }
}

/// Writes the line, and returns the status, or 3 if the line wasn't written whole.
pub fn finish<W: Write>(output: &mut Output<W>, line: &[u8], status: u8) -> u8
    ensures done { result ≢ 3 → (result ≡ status) × Appends (W.contents output.old.writer) (W.contents output.new.writer) line.now }
    ensures cut { status ≢ 3 → result ≡ 3 → (n : ℕ) × (n < length line.now) × Appends (W.contents output.old.writer) (W.contents output.new.writer) (take n line.now) }
    ensures part { (n : ℕ) × Appends (W.contents output.old.writer) (W.contents output.new.writer) (take n line.now) }
    ensures failed { status ≢ 3 → result ≡ 3 → output.new.has_failed ≡ true }
    ensures whole { (output.new.has_failed ≡ true) ⊎ Appends (W.contents output.old.writer) (W.contents output.new.writer) line.now }
{
    match write_all(output, line) {
        Ok(()) => status,
        Err(_) => 3,
    }
}
