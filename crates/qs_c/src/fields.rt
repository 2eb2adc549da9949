//! Explaining each field that a shape doesn't read.

ghost use Rattle.std.specs.Prelude.{◌≡◌, List, ℕ, IfOk, IfErr};
ghost use Rattle.std.specs.Str.{IsUtf8};
ghost use Rattle.qs_c.specs.Answer.{IsHandedOut, IsLaidOut, LeavesNothing};
ghost use Rattle.qs_c.specs.Explained.{AreExplained, AreLines, WhyNotExplained};
ghost use Rattle.qs_c.specs.Limits.{IsTooLarge};
ghost use Rattle.qs_c.specs.Messages.{SaysNotRead};
ghost use Rattle.qs_c.specs.Notation.{IsNoNotation};
ghost use Rattle.qs_c.specs.Settings.{config_of, AreNone};
ghost use Rattle.qs_c.specs.Status.{code_of, text_of, IsDone, IsHeldBack, IsStoppedEarly, MemoryHasNoText};
ghost use Rattle.qs_c.specs.declared.failure.FailureKind.{FailureKind};
ghost use Rattle.qs_c.specs.declared.failure.FailureKind.TheVariants as kind;

use crate::answer::{Answer, fail, give, given};
use crate::explaining::line_of;
use crate::failure::Failure;
use crate::notation::shape_of_text;
use crate::settings::Settings;
use qs_explain::{Explanation, explain_fields};
use std::alloc::{AllocError, Global};

/// Explains each field of a struct that a shape in the notation of docs/LIBRARY.md doesn't read, a line each, for a page that shows an
/// error beside each of its fields.
///
/// The lines are in the order of the fields. Each has the form of a line of [`qs_explain`](crate::explaining::qs_explain): the path to
/// the wrong part, written as a key, a colon, a space and the reason; and a line feed is after it. If the whole is at fault, its line is
/// the first and has no path. If the querystring can't be parsed, or the shape isn't a struct, the line of
/// [`qs_explain`](crate::explaining::qs_explain) is the only one. There is no line if the shape reads the querystring.
///
/// Returns the same statuses as [`qs_explain`](crate::explaining::qs_explain). The position is 0 except with status 7.
///
/// It allocates for the shape, the tree and the explanations, and frees them before it returns. It takes about twice as long as reading
/// the querystring.
///
/// ```
/// uint32_t status = qs_explain_fields(&qs_default, QS_TEXT("{name: text, age: u8}"), QS_TEXT("age=300"), QS_ROOM(out), &answer);
/// // name: expected a text, found nothing
/// // age: expected u8, found the text "300"
/// ```
#[unsafe(no_mangle)]
pub extern "C" fn qs_explain_fields(
    alloc: Global,
    settings: &Settings,
    shape: &[u8],
    input: &[u8],
    out: &mut [u8],
    answer: &mut Answer,
) -> u32
    ensures done { IsDone result → (text : List ℕ) × AreExplained (config_of settings.now) shape.now input.now text
        × IsHandedOut text out.old out.new result answer.new.len }
    ensures position { IsDone result → answer.new.position ≡ 0 }
    ensures failed { (IsDone result → ⊥) → (kind : FailureKind) × (result ≡ code_of kind) × WhyNotExplained kind answer.new.position settings.now shape.now input.now }
    ensures message { (IsDone result → ⊥) → (kind : FailureKind) × (text : List ℕ) × (result ≡ code_of kind) × SaysNotRead kind answer.new.position settings.now input.now text
        × IsUtf8 text × IsLaidOut text out.old out.new answer.new.len }
    ensures memory { result ≡ 2 → LeavesNothing out.old out.new answer.new }
    ensures settings { AreNone settings.now → IsStoppedEarly result }
    ensures limits { IsTooLarge settings.now input.now → IsHeldBack result }
    ensures reason { result ≡ code_of kind.Shape → (reason : List ℕ) × IsNoNotation shape.now reason answer.new.position × IsLaidOut reason out.old out.new answer.new.len }
{
    match explained(alloc, settings, given(shape), given(input)) {
        Ok(text) => give(&text, out, answer),
        Err(failure) => fail(failure, out, answer),
    }
}

// Parses the shape, and returns the lines that explain which fields it doesn't read.
fn explained(
    alloc: Global,
    settings: &Settings,
    shape: &[u8],
    input: &[u8],
) -> Result<Vec<u8>, Failure>
    ensures lines { IfOk result (λ text. AreExplained (config_of settings.now) shape.now input.now text.items) }
    ensures none { IfErr result (λ failure. WhyNotExplained failure.kind failure.position settings.now shape.now input.now) }
    ensures says { IfErr result (λ failure. SaysNotRead failure.kind failure.position settings.now input.now (text_of failure)) }
    ensures memory { IfErr result MemoryHasNoText }
    ensures sound { IfOk result (λ text. AreNone settings.now → ⊥) }
    ensures within { IfOk result (λ text. IsTooLarge settings.now input.now → ⊥) }
    ensures early { IfErr result (λ failure. AreNone settings.now → IsStoppedEarly (code_of failure.kind)) }
    ensures held { IfErr result (λ failure. IsTooLarge settings.now input.now → IsHeldBack (code_of failure.kind)) }
    ensures reason { IfErr result (λ failure. failure.kind ≡ kind.Shape → IsNoNotation shape.now (text_of failure) failure.position) }
{
    let config = settings.config(alloc)?;
    settings.test_input(alloc, input)?;
    let shape = shape_of_text(alloc, shape)?;
    let explanations = explain_fields(alloc, config, &shape, input)?;
    Ok(lines_of(alloc, &explanations)?)
}

// Returns the lines of the explanations.
fn lines_of(alloc: Global, explanations: &[Explanation]) -> Result<Vec<u8>, AllocError>
    ensures { IfOk result (λ text. AreLines explanations.now text.items) }
{
    let mut text = Vec::new(alloc);
    for explanation in explanations {
        let line = line_of(alloc, explanation)?;
        text.extend_from_slice(&line.text)?;
        text.push(b'\n')?;
    }
    Ok(text)
}
