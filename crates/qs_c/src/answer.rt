//! What a call returns to its caller.

ghost use Rattle.std.specs.Prelude.{◌≡◌, ◌<◌, ◌≤◌, ◌++◌, length, drop, IsTrue, IsFalse};
ghost use Rattle.std.specs.Str.{IsUtf8};
ghost use Rattle.qs_c.specs.Answer.{IsHandedOut, IsLaidOut};
ghost use Rattle.qs_c.specs.Status.{code_of, text_of, IsDone};

use crate::failure::Failure;

/// What a call returns in addition to its status.
///
/// ```
/// qs_answer answer;
/// uint32_t status = qs_decode(QS_TEXT("a%5Bb%5D=1"), QS_ROOM(out), &answer); // answer.len is 6
/// ```
#[repr(C)]
#[derive(Drop)]
pub struct Answer {
    /// The length of the result, or of an error's text.
    pub len: usize,
    /// The error's position in the querystring, the shape or the JSON.
    pub position: usize,
}

/// Returns the bytes from the caller. If there are none, their pointer may be null, and isn't passed on.
pub(crate) fn given(bytes: &[u8]) -> &[u8]
    ensures { result.now ≡ bytes.now }
{
    if bytes.is_empty() {
        b"".as_slice()
    } else {
        bytes
    }
}

/// Copies the bytes to the front of `out`, if they fit there, and returns the status.
pub(crate) fn give(text: &[u8], out: &mut [u8], answer: &mut Answer) -> u32
    ensures text { IsHandedOut text.now out.old out.new result answer.new.len }
    ensures done { IsDone result }
    ensures position { answer.new.position ≡ 0 }
{
    answer.len = text.len();
    answer.position = 0;
    if put(text, out) { 0 } else { 1 }
}

/// Copies the error's text to the front of `out`, if it fits there, and returns the error's status.
#[tactic(auto, using(crate::proofs::Messages::text_is_utf8))]
pub(crate) fn fail(failure: Failure, out: &mut [u8], answer: &mut Answer) -> u32
    ensures failed { result ≡ code_of failure.kind }
    ensures fails { IsDone result → ⊥ }
    ensures text { IsLaidOut (text_of failure) out.old out.new answer.new.len }
    ensures utf8 { IsUtf8 (text_of failure) }
    ensures position { answer.new.position ≡ failure.position }
{
    answer.position = failure.position;
    answer.len = say(&failure, out);
    failure.kind.code()
}

// Copies the error's text to the front of `out`, if it fits there, and returns its length.
fn say(failure: &Failure, out: &mut [u8]) -> usize
    ensures { IsLaidOut (text_of failure.now) out.old out.new result }
{
    match &failure.text {
        Some(text) => {
            put(text.as_bytes(), out);
            text.len()
        }
        None => 0,
    }
}

// Copies the bytes to the front of `out`, and returns whether they fit there.
fn put(text: &[u8], out: &mut [u8]) -> bool
    ensures fits { IsTrue result → (length text.now ≤ length out.old) × (out.new ≡ text.now ++ drop (length text.now) out.old) }
    ensures too_long { IsFalse result → (length out.old < length text.now) × (out.new ≡ out.old) }
{
    if text.len() > out.len() {
        return false;
    }
    out[..text.len()].copy_from_slice(text);
    true
}
