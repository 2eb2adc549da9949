//! Reading.

#![tactic(auto, using(crate::proofs::Messages::read_result))]

ghost use Rattle.std.specs.Prelude.{◌≡◌, true, List, ℕ, length, IfOk, IfErr};
ghost use Rattle.std.specs.Str.{IsUtf8};
ghost use Rattle.qs_spec.specs.Shape.{is_distinct};
ghost use Rattle.qs_data.specs.data.Views.{data_of};
ghost use Rattle.qs_data.specs.shape.Views.{shape_of};
ghost use Rattle.qs_c.specs.Answer.{IsHandedOut, IsLaidOut, LeavesNothing};
ghost use Rattle.qs_c.specs.Errors.{kind_of, position_of};
ghost use Rattle.qs_c.specs.Limits.{IsBeyond, IsTooLarge};
ghost use Rattle.qs_c.specs.Messages.{SaysNotRead, SaysUnread};
ghost use Rattle.qs_c.specs.Notation.{IsNoNotation};
ghost use Rattle.qs_c.specs.Outcomes.{IsParsed, IsRead, IsReadBy, IsReadByText, WhyNoJson, WhyNotParsed, WhyNotRead, WhyUnparsed, WhyUnread};
ghost use Rattle.qs_c.specs.Settings.{config_of, AreNone};
ghost use Rattle.qs_c.specs.Status.{code_of, text_of, IsDone, IsHeldBack, IsStoppedEarly, MemoryHasNoText};
ghost use Rattle.qs_c.specs.declared.failure.FailureKind.{FailureKind};
ghost use Rattle.qs_c.specs.declared.failure.FailureKind.TheVariants as kind;

use crate::answer::{Answer, fail, give, given};
use crate::errors::failure_of;
use crate::failure::Failure;
use crate::limits::test_output;
use crate::notation::shape_of_text;
use crate::settings::Settings;
use crate::showing::to_json;
use crate::trees::tree_to_json;
use qs_data::{Config, Data, Deserializer, Shape};
use qs_tree::parse;
use std::alloc::Global;

/// Reads the querystring into JSON, whatever it holds.
///
/// A list is an array, and so is a map whose keys are 0, 1 and so on; any other map is an object, with the texts of its keys as names. A
/// key alone, as `a`, is `null`, and `a=` is an empty string. Without pairs the JSON is `{}`. A value without a key is under the empty name.
///
/// Returns 0 and puts the JSON at the front of `out`, or returns 1 if it doesn't fit there. `answer.len` is its length. Any other status
/// is an error: `answer.len` is the length of its text, which is at the front of `out` if it fits there. The position is 0 except as the
/// list says:
///
/// - 2: an allocation failed; there is no text.
/// - 3: a number in the settings is too large.
/// - 4: the querystring can't be parsed. The position is how many of its bytes were parsed, plus one if the end was reached.
/// - 5 or 6: a string or a key isn't UTF-8, or two keys of a map have the same text, as in `1=a&%31=b` (5).
/// - 10: the querystring is larger than the settings allow. That is tested before it is parsed.
/// - 11: the JSON is longer than the settings allow.
///
/// It allocates for the tree and the JSON, and frees them before it returns. The time grows with the input and the JSON.
///
/// ```
/// uint32_t status = qs_parse(&qs_default, QS_TEXT("a[b]=1"), QS_ROOM(out), &answer); // {"a":{"b":"1"}}
/// ```
#[unsafe(no_mangle)]
pub extern "C" fn qs_parse(
    alloc: Global,
    settings: &Settings,
    input: &[u8],
    out: &mut [u8],
    answer: &mut Answer,
) -> u32
    ensures done { IsDone result → (text : List ℕ) × IsParsed (config_of settings.now) input.now text
        × IsHandedOut text out.old out.new result answer.new.len }
    ensures position { IsDone result → answer.new.position ≡ 0 }
    ensures failed { (IsDone result → ⊥) → (kind : FailureKind) × (result ≡ code_of kind) × WhyNotParsed kind answer.new.position settings.now input.now }
    ensures message { (IsDone result → ⊥) → (kind : FailureKind) × (text : List ℕ) × (result ≡ code_of kind) × SaysNotRead kind answer.new.position settings.now input.now text
        × IsUtf8 text × IsLaidOut text out.old out.new answer.new.len }
    ensures memory { result ≡ 2 → LeavesNothing out.old out.new answer.new }
    ensures settings { AreNone settings.now → IsStoppedEarly result }
    ensures limits { IsTooLarge settings.now input.now → IsHeldBack result }
    ensures longest { IsDone result → IsBeyond settings.now.max_output answer.new.len → ⊥ }
{
    match parsed(alloc, settings, given(input)) {
        Ok(text) => give(&text, out, answer),
        Err(failure) => fail(failure, out, answer),
    }
}

/// Reads the querystring into JSON by a shape in the notation of docs/LIBRARY.md.
///
/// Returns the same statuses as [`qs_parse`], but:
///
/// - 5 or 6: the querystring is parsed, but the shape doesn't read it.
/// - 7: the text isn't a shape. The position is how many of its bytes were parsed. This takes precedence over 4, 5, 6 and 11.
///
/// It allocates for the shape too, and frees it before it returns. The time grows with the text of the shape, the input and the JSON.
///
/// ```
/// uint32_t status = qs_read(&qs_default, QS_TEXT("{age: u8}"), QS_TEXT("age=7"), QS_ROOM(out), &answer); // {"age":7}
/// ```
#[unsafe(no_mangle)]
pub extern "C" fn qs_read(
    alloc: Global,
    settings: &Settings,
    shape: &[u8],
    input: &[u8],
    out: &mut [u8],
    answer: &mut Answer,
) -> u32
    ensures done { IsDone result → (text : List ℕ) × IsReadByText (config_of settings.now) shape.now input.now text
        × IsHandedOut text out.old out.new result answer.new.len }
    ensures position { IsDone result → answer.new.position ≡ 0 }
    ensures failed { (IsDone result → ⊥) → (kind : FailureKind) × (result ≡ code_of kind) × WhyNotRead kind answer.new.position settings.now shape.now input.now }
    ensures message { (IsDone result → ⊥) → (kind : FailureKind) × (text : List ℕ) × (result ≡ code_of kind) × SaysNotRead kind answer.new.position settings.now input.now text
        × IsUtf8 text × IsLaidOut text out.old out.new answer.new.len }
    ensures memory { result ≡ 2 → LeavesNothing out.old out.new answer.new }
    ensures settings { AreNone settings.now → IsStoppedEarly result }
    ensures limits { IsTooLarge settings.now input.now → IsHeldBack result }
    ensures longest { IsDone result → IsBeyond settings.now.max_output answer.new.len → ⊥ }
    ensures reason { result ≡ code_of kind.Shape → (reason : List ℕ) × IsNoNotation shape.now reason answer.new.position × IsLaidOut reason out.old out.new answer.new.len }
{
    match read(alloc, settings, given(shape), given(input)) {
        Ok(text) => give(&text, out, answer),
        Err(failure) => fail(failure, out, answer),
    }
}

// Returns the JSON of the querystring's tree.
fn parsed(alloc: Global, settings: &Settings, input: &[u8]) -> Result<Vec<u8>, Failure>
    ensures text { IfOk result (λ text. IsParsed (config_of settings.now) input.now text.items) }
    ensures none { IfErr result (λ failure. WhyNotParsed failure.kind failure.position settings.now input.now) }
    ensures says { IfErr result (λ failure. SaysNotRead failure.kind failure.position settings.now input.now (text_of failure)) }
    ensures memory { IfErr result MemoryHasNoText }
    ensures sound { IfOk result (λ text. AreNone settings.now → ⊥) }
    ensures early { IfErr result (λ failure. AreNone settings.now → IsStoppedEarly (code_of failure.kind)) }
    ensures within { IfOk result (λ text. IsTooLarge settings.now input.now → ⊥) }
    ensures held { IfErr result (λ failure. IsTooLarge settings.now input.now → IsHeldBack (code_of failure.kind)) }
    ensures longest { IfOk result (λ text. IsBeyond settings.now.max_output (length text.items) → ⊥) }
{
    let config = settings.config(alloc)?;
    settings.test_input(alloc, input)?;
    match json_of_input(alloc, config, input) {
        Ok(text) => test_output(alloc, settings.max_output, text),
        Err(error) => Err(failure_of(alloc, error)),
    }
}

// Returns the JSON of the input's tree.
fn json_of_input(alloc: Global, config: Config, input: &[u8]) -> qs_data::Result<Vec<u8>>
    ensures text { IfOk result (λ text. IsParsed config input.now text.items) }
    ensures none { IfErr result (λ error. WhyUnparsed (kind_of error) (position_of error) config input.now) }
{
    let tree = parse(alloc, input, config)?;
    Ok(tree_to_json(alloc, &tree)?)
}

// Parses the shape, and returns the JSON of what it reads.
fn read(alloc: Global, settings: &Settings, shape: &[u8], input: &[u8]) -> Result<Vec<u8>, Failure>
    ensures text { IfOk result (λ text. IsReadByText (config_of settings.now) shape.now input.now text.items) }
    ensures none { IfErr result (λ failure. WhyNotRead failure.kind failure.position settings.now shape.now input.now) }
    ensures says { IfErr result (λ failure. SaysNotRead failure.kind failure.position settings.now input.now (text_of failure)) }
    ensures memory { IfErr result MemoryHasNoText }
    ensures sound { IfOk result (λ text. AreNone settings.now → ⊥) }
    ensures early { IfErr result (λ failure. AreNone settings.now → IsStoppedEarly (code_of failure.kind)) }
    ensures within { IfOk result (λ text. IsTooLarge settings.now input.now → ⊥) }
    ensures held { IfErr result (λ failure. IsTooLarge settings.now input.now → IsHeldBack (code_of failure.kind)) }
    ensures longest { IfOk result (λ text. IsBeyond settings.now.max_output (length text.items) → ⊥) }
    ensures reason { IfErr result (λ failure. failure.kind ≡ kind.Shape → IsNoNotation shape.now (text_of failure) failure.position) }
{
    let config = settings.config(alloc)?;
    settings.test_input(alloc, input)?;
    let shape = shape_of_text(alloc, shape)?;
    read_json(alloc, config, settings.max_output, &shape, input)
}

// Returns the JSON of what the shape reads, or an error if it has more than `most` bytes. A limit of 0 is none.
#[tactic(auto, using(crate::proofs::Messages::failure_unread))]
fn read_json(
    alloc: Global,
    config: Config,
    most: usize,
    shape: &Shape,
    input: &[u8],
) -> Result<Vec<u8>, Failure>
    requires { is_distinct (shape_of shape.now) ≡ true }
    ensures text { IfOk result (λ text. IsRead config (shape_of shape.now) input.now text.items) }
    ensures none { IfErr result (λ failure. WhyNoJson failure.kind failure.position config most (shape_of shape.now) input.now) }
    ensures says { IfErr result (λ failure. SaysUnread failure.kind failure.position (text_of failure)) }
    ensures memory { IfErr result MemoryHasNoText }
    ensures longest { IfOk result (λ text. IsBeyond most (length text.items) → ⊥) }
{
    match read_data(alloc, config, shape, input) {
        Ok(datum) => test_output(alloc, most, to_json(alloc, &datum)?),
        Err(error) => Err(failure_of(alloc, error)),
    }
}

// Returns what the shape reads from the input.
fn read_data(alloc: Global, config: Config, shape: &Shape, input: &[u8]) -> qs_data::Result<Data>
    requires { is_distinct (shape_of shape.now) ≡ true }
    ensures data { IfOk result (λ datum. IsReadBy config (shape_of shape.now) input.now (data_of datum)) }
    ensures none { IfErr result (λ error. WhyUnread (kind_of error) (position_of error) config (shape_of shape.now) input.now) }
{
    let deserializer = Deserializer::with_config(alloc, config, input)?;
    let datum = deserializer.read(alloc, shape)?;
    Ok(datum)
}
