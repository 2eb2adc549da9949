//! Explaining why a shape doesn't read a querystring.

ghost use Rattle.std.specs.Prelude.{◌≡◌, ◌++◌, false, List, ℕ, Some, IfOk, IfErr, OnOk, map};
ghost use Rattle.std.specs.Str.{IsUtf8};
ghost use Rattle.qs_spec.specs.Escape.{encoded};
ghost use Rattle.qs_spec.specs.Segment.{segment_text};
ghost use Rattle.qs_spec.specs.Written.{brackets_text, path_text};
ghost use Rattle.qs_data.specs.failure.Mismatch.{path_of, segment_of};
ghost use Rattle.qs_c.specs.Answer.{IsHandedOut, IsLaidOut, LeavesNothing};
ghost use Rattle.qs_c.specs.Explained.{IsExplained, IsLine, StartsWith, WhyNotExplained};
ghost use Rattle.qs_c.specs.Limits.{IsTooLarge};
ghost use Rattle.qs_c.specs.Messages.{SaysNotRead};
ghost use Rattle.qs_c.specs.Notation.{IsNoNotation};
ghost use Rattle.qs_c.specs.Settings.{config_of, AreNone};
ghost use Rattle.qs_c.specs.Status.{code_of, text_of, IsDone, IsHeldBack, IsStoppedEarly, MemoryHasNoText};
ghost use Rattle.qs_c.specs.declared.failure.FailureKind.{FailureKind};
ghost use Rattle.qs_c.specs.declared.failure.FailureKind.TheVariants as kind;

use crate::answer::{Answer, fail, give, given};
use crate::failure::Failure;
use crate::notation::shape_of_text;
use crate::settings::Settings;
use itoa::Buffer;
use qs_explain::{Explanation, Mismatch, Segment, explain};
use qs_tree::encode;
use std::alloc::{AllocError, Global};

/// Explains in one line why a shape in the notation of docs/LIBRARY.md doesn't read the querystring: which part is wrong, what is expected
/// there, and what was found.
///
/// The line begins with the path to the wrong part, written as a key, and `answer.position` is the path's length. The path is empty if the
/// querystring can't be parsed or is wrong as a whole. The line is empty if the shape reads the querystring.
///
/// Returns 0 and puts the line at the front of `out`, or returns 1 if it doesn't fit there. `answer.len` is its length. Any other status
/// is an error: `answer.len` is the length of its text, which is at the front of `out` if it fits there. The position is 0 except as the
/// list says:
///
/// - 2: an allocation failed; there is no text.
/// - 3: a number in the settings is too large.
/// - 7: the text isn't a shape. The position is how many of its bytes were parsed.
/// - 10: the querystring is larger than the settings allow.
///
/// It allocates for the shape, the tree and the explanation, and frees them before it returns. It takes about as long as reading the
/// querystring.
///
/// ```
/// uint32_t status = qs_explain(&qs_default, QS_TEXT("{age: u8}"), QS_TEXT("age=300"), QS_ROOM(out), &answer);
/// // age: expected u8, found the text "300"
/// ```
#[unsafe(no_mangle)]
pub extern "C" fn qs_explain(
    alloc: Global,
    settings: &Settings,
    shape: &[u8],
    input: &[u8],
    out: &mut [u8],
    answer: &mut Answer,
) -> u32
    ensures done { IsDone result → (text : List ℕ) × IsExplained (config_of settings.now) shape.now input.now text answer.new.position
        × IsHandedOut text out.old out.new result answer.new.len }
    ensures failed { (IsDone result → ⊥) → (kind : FailureKind) × (result ≡ code_of kind) × WhyNotExplained kind answer.new.position settings.now shape.now input.now }
    ensures message { (IsDone result → ⊥) → (kind : FailureKind) × (text : List ℕ) × (result ≡ code_of kind) × SaysNotRead kind answer.new.position settings.now input.now text
        × IsUtf8 text × IsLaidOut text out.old out.new answer.new.len }
    ensures memory { result ≡ 2 → LeavesNothing out.old out.new answer.new }
    ensures settings { AreNone settings.now → IsStoppedEarly result }
    ensures limits { IsTooLarge settings.now input.now → IsHeldBack result }
    ensures reason { result ≡ code_of kind.Shape → (reason : List ℕ) × IsNoNotation shape.now reason answer.new.position × IsLaidOut reason out.old out.new answer.new.len }
{
    match explained(alloc, settings, given(shape), given(input)) {
        Ok(line) => {
            let status = give(&line.text, out, answer);
            answer.position = line.path_len;
            status
        }
        Err(failure) => fail(failure, out, answer),
    }
}

/// An explanation as a line. Its first `path_len` bytes are the path.
#[derive(Drop)]
pub(crate) struct Line {
    pub(crate) text: Vec<u8>,
    pub(crate) path_len: usize,
}

// Parses the shape, and returns the line that explains why it doesn't read the querystring.
fn explained(
    alloc: Global,
    settings: &Settings,
    shape: &[u8],
    input: &[u8],
) -> Result<Line, Failure>
    ensures line { IfOk result (λ line. IsExplained (config_of settings.now) shape.now input.now line.text.items line.path_len) }
    ensures none { IfErr result (λ failure. WhyNotExplained failure.kind failure.position settings.now shape.now input.now) }
    ensures says { IfErr result (λ failure. SaysNotRead failure.kind failure.position settings.now input.now (text_of failure)) }
    ensures memory { IfErr result MemoryHasNoText }
    ensures sound { IfOk result (λ line. AreNone settings.now → ⊥) }
    ensures within { IfOk result (λ line. IsTooLarge settings.now input.now → ⊥) }
    ensures early { IfErr result (λ failure. AreNone settings.now → IsStoppedEarly (code_of failure.kind)) }
    ensures held { IfErr result (λ failure. IsTooLarge settings.now input.now → IsHeldBack (code_of failure.kind)) }
    ensures reason { IfErr result (λ failure. failure.kind ≡ kind.Shape → IsNoNotation shape.now (text_of failure) failure.position) }
{
    let config = settings.config(alloc)?;
    settings.test_input(alloc, input)?;
    let shape = shape_of_text(alloc, shape)?;
    let explanation = explain(alloc, config, &shape, input)?;
    Ok(line_or_none(alloc, &explanation)?)
}

// Returns the explanation as a line, which is empty if there is none.
fn line_or_none(alloc: Global, explanation: &Option<Explanation>) -> Result<Line, AllocError>
    ensures { IfOk result (λ line. IsLine explanation.now line.text.items line.path_len) }
{
    match explanation {
        Some(explanation) => line_of(alloc, explanation),
        None => Ok(whole(Vec::new(alloc))),
    }
}

/// Returns the explanation as a line.
pub(crate) fn line_of(alloc: Global, explanation: &Explanation) -> Result<Line, AllocError>
    ensures { IfOk result (λ line. IsLine (Some explanation.now) line.text.items line.path_len) }
{
    match explanation {
        Explanation::Mismatch(mismatch) => mismatch_line(alloc, mismatch),
        other => Ok(whole(other.to_string(alloc)?.into_bytes())),
    }
}

// Returns the text as a line without a path.
fn whole(text: Vec<u8>) -> Line
    ensures text { result.text ≡ text }
    ensures path { result.path_len ≡ 0 }
{
    Line { text, path_len: 0 }
}

// Returns the path followed by a colon and what is wrong with the part at the path.
fn mismatch_line(alloc: Global, mismatch: &Mismatch) -> Result<Line, AllocError>
    ensures { IfOk result (λ line. StartsWith (path_text false (map segment_text (path_of mismatch.now))) line.text.items line.path_len) }
{
    let mut text = path_text(alloc, &mismatch.path)?;
    let path_len = text.len();
    let problem = &mismatch.problem;
    let separator = if path_len > 0 { ": " } else { "" };
    let rest = format!(in alloc; "{separator}{problem}")?;
    text.extend_from_slice(rest.as_bytes())?;
    Ok(Line { text, path_len })
}

// Returns the path as a key of a querystring.
#[tactic(auto, using(crate::proofs::LineStarts::path_none, crate::proofs::LineStarts::path_some), unfolding(qs_spec::specs::Written::path_text))]
fn path_text(alloc: Global, path: &[Segment]) -> Result<Vec<u8>, AllocError>
    ensures { IfOk result (λ text. text.items ≡ path_text false (map segment_text (map segment_of path.now))) }
{
    let mut text = Vec::new(alloc);
    let [first, rest @ ..] = path else {
        return Ok(text);
    };
    append_segment(&mut text, first)?;
    append_in_brackets(&mut text, rest)?;
    Ok(text)
}

// Appends the segments, each in brackets.
fn append_in_brackets(text: &mut Vec<u8>, path: &[Segment]) -> Result<(), AllocError>
    ensures { OnOk result (text.new.items ≡ text.old.items ++ brackets_text false (map segment_text (map segment_of path.now))) }
{
    for segment in path {
        text.push(b'[')?;
        append_segment(text, segment)?;
        text.push(b']')?;
    }
    Ok(())
}

// Appends the segment, encoded.
fn append_segment(text: &mut Vec<u8>, segment: &Segment) -> Result<(), AllocError>
    ensures { OnOk result (text.new.items ≡ text.old.items ++ encoded false (segment_text (segment_of segment.now))) }
{
    match segment {
        Segment::Index(index) => {
            let mut buffer = Buffer::new();
            append_encoded(text, buffer.format(*index).as_bytes())
        }
        Segment::Key(key) => append_encoded(text, key),
    }
}

// Appends the bytes, encoded.
fn append_encoded(text: &mut Vec<u8>, bytes: &[u8]) -> Result<(), AllocError>
    ensures { OnOk result (text.new.items ≡ text.old.items ++ encoded false bytes.now) }
{
    match encode(bytes, false, text) {
        Ok(()) => Ok(()),
        Err(_) => Err(AllocError),
    }
}
