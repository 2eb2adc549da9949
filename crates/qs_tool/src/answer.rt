//! The result of an input: a line and a status.

ghost use Rattle.std.specs.Prelude.{◌≡◌, ◌≢◌, IfErr, IfOk, IfSome, OnOk};
ghost use Rattle.std.specs.Io.KnownBytes.{IsAtEnd};
ghost use Rattle.qs_tool.specs.declared.input.State.TheVariants.{Ended};
ghost use Rattle.qs_tool.specs.InputError.{is_memory};
ghost use Rattle.qs_tool.specs.Line.{IsAnswer, IsErrorLine, IsLineOfError, without_newline};
ghost use Rattle.qs_tool.specs.Streams.{IsReason};

use crate::arguments::Request;
use crate::input::Input;
use crate::printing::printed;
use crate::streams::{Stop, read_input};
use serde_qs::Error;
use std::alloc::{AllocError, Global};
use std::io::Read;

/// What the program writes, and the status that it ends with.
#[derive(Debug, Drop)]
pub struct Answer {
    pub line: Vec<u8>,
    pub status: u8,
}

/// Returns the result of the input.
pub fn respond<R: Read>(
    alloc: Global,
    request: Request,
    input: &mut Input<R>,
) -> Result<Answer, Stop>
    ensures answer { IfOk result (λ answer. IfSome (R.remaining input.old.reader)
        (λ known. IsAnswer request (without_newline known) answer.line.items answer.status)) }
    ensures status { IfOk result (λ answer. answer.status ≢ 3) }
    ensures ended { OnOk result ((input.new.state ≡ Ended) × IsAtEnd (R.remaining input.new.reader)) }
    ensures reason { IfErr result (IsReason input.new) }
{
    let bytes = read_input(alloc, input)?;
    Ok(answer_to(alloc, request, before_newline(bytes.as_slice()))?)
}

// Returns the result of this input.
fn answer_to(alloc: Global, request: Request, input: &[u8]) -> Result<Answer, AllocError>
    ensures { IfOk result (λ answer. IsAnswer request input.now answer.line.items answer.status) }
{
    match printed(alloc, request, input) {
        Ok(mut line) => {
            line.push(b'\n')?;
            Ok(Answer { line, status: 0 })
        }
        Err(error) => {
            if is_memory(&error) {
                return Err(AllocError);
            }
            let line = error_line(alloc, &error)?;
            Ok(Answer { line, status: 1 })
        }
    }
}

// Returns whether the error is a failed allocation, or a failed write to memory, which has no other cause.
fn is_memory(error: &Error) -> bool
    ensures { result ≡ is_memory error.now }
{
    matches!(error, Error::OutOfMemory | Error::Io(_))
}

// Returns the line of an error.
fn error_line(alloc: Global, error: &Error) -> Result<Vec<u8>, AllocError>
    ensures line { IfOk result (λ line. IsErrorLine line.items) }
    ensures text { IfOk result (λ line. IsLineOfError error.now line.items) }
{
    let text = format!(in alloc; "{error}")?;
    let mut line = Vec::from_slice(alloc, b"error: ")?;
    line.extend_from_slice(text.as_bytes())?;
    line.push(b'\n')?;
    Ok(line)
}

// Returns the input without one final newline.
fn before_newline(input: &[u8]) -> &[u8]
    ensures { result.now ≡ without_newline input.now }
{
    match input {
        [front @ .., b'\n'] => front,
        _ => input,
    }
}
