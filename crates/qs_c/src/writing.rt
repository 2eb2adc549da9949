//! Writing.

ghost use Rattle.std.specs.Prelude.{◌≡◌, None, false, List, ℕ, IfOk, IfErr};
ghost use Rattle.std.specs.Str.{IsUtf8};
ghost use Rattle.qs_spec.specs.Entry.{entries};
ghost use Rattle.qs_spec.specs.Written.{written};
ghost use Rattle.qs_data.specs.data.Views.{data_of};
ghost use Rattle.qs_c.specs.Answer.{IsHandedOut, IsLaidOut, LeavesNothing};
ghost use Rattle.qs_c.specs.Errors.{kind_of, position_of};
ghost use Rattle.qs_c.specs.Messages.{SaysNotWritten};
ghost use Rattle.qs_c.specs.Outcomes.{IsWritten, WhyNotWritten, WhyUnwritten};
ghost use Rattle.qs_c.specs.Settings.{config_of, AreNone};
ghost use Rattle.qs_c.specs.internal.Unwritten.{IsUnwritten};
ghost use Rattle.qs_c.specs.Status.{code_of, text_of as message_of, IsDone, IsStoppedEarly, MemoryHasNoText};
ghost use Rattle.qs_c.specs.declared.failure.FailureKind.{FailureKind};

use crate::answer::{Answer, fail, give, given};
use crate::errors::failure_of;
use crate::failure::Failure;
use crate::settings::Settings;
use crate::taking::taken;
use qs_data::{Config, Data, Serializer};
use std::alloc::Global;

/// Writes the JSON as a querystring.
///
/// Returns 0 and puts the querystring at the front of `out`, or returns 1 if it doesn't fit there. `answer.len` is its length. Any other
/// status is an error: `answer.len` is the length of its text, which is at the front of `out` if it fits there. The position is 0 except
/// as the list says:
///
/// - 2: an allocation failed; there is no text.
/// - 3: a number in the settings is too large.
/// - 8: the text isn't UTF-8, or can't be read as JSON. The position is where reading it stopped.
/// - 9: the JSON nests deeper than the settings allow.
///
/// It allocates for the data and the querystring, and frees them before it returns. The time grows with the JSON and the querystring.
///
/// ```
/// uint32_t status = qs_write(&qs_default, QS_TEXT("{\"a\":{\"b\":1}}"), QS_ROOM(out), &answer); // a[b]=1
/// ```
#[unsafe(no_mangle)]
pub extern "C" fn qs_write(
    alloc: Global,
    settings: &Settings,
    json: &[u8],
    out: &mut [u8],
    answer: &mut Answer,
) -> u32
    ensures done { IsDone result → (text : List ℕ) × IsWritten (config_of settings.now) json.now text
        × IsHandedOut text out.old out.new result answer.new.len }
    ensures position { IsDone result → answer.new.position ≡ 0 }
    ensures failed { (IsDone result → ⊥) → (kind : FailureKind) × (result ≡ code_of kind) × WhyNotWritten kind answer.new.position settings.now json.now }
    ensures message { (IsDone result → ⊥) → (kind : FailureKind) × (text : List ℕ) × (result ≡ code_of kind) × SaysNotWritten kind settings.now json.now text
        × IsUtf8 text × IsLaidOut text out.old out.new answer.new.len }
    ensures memory { result ≡ 2 → LeavesNothing out.old out.new answer.new }
    ensures settings { AreNone settings.now → IsStoppedEarly result }
{
    match written(alloc, settings, given(json)) {
        Ok(text) => give(&text, out, answer),
        Err(failure) => fail(failure, out, answer),
    }
}

// Returns the JSON as a querystring.
#[tactic(auto, using(crate::proofs::Messages::failure_unwritten))]
fn written(alloc: Global, settings: &Settings, json: &[u8]) -> Result<Vec<u8>, Failure>
    ensures text { IfOk result (λ text. IsWritten (config_of settings.now) json.now text.items) }
    ensures none { IfErr result (λ failure. WhyNotWritten failure.kind failure.position settings.now json.now) }
    ensures says { IfErr result (λ failure. SaysNotWritten failure.kind settings.now json.now (message_of failure)) }
    ensures memory { IfErr result MemoryHasNoText }
    ensures sound { IfOk result (λ text. AreNone settings.now → ⊥) }
    ensures early { IfErr result (λ failure. AreNone settings.now → IsStoppedEarly (code_of failure.kind)) }
{
    let config = settings.config(alloc)?;
    let datum = taken(alloc, json)?;
    match text_of(alloc, config, &datum) {
        Ok(text) => Ok(text),
        Err(error) => Err(failure_of(alloc, error)),
    }
}

// Returns the data as a querystring.
fn text_of(alloc: Global, config: Config, datum: &Data) -> qs_data::Result<Vec<u8>>
    ensures whole { IfOk result (λ text. (entries config (data_of datum.now)).error ≡ None) }
    ensures text { IfOk result (λ text. text.items ≡ written config.is_form false (entries config (data_of datum.now)).entries) }
    ensures none { IfErr result (λ error. WhyUnwritten (kind_of error) (position_of error) config (data_of datum.now)) }
    ensures errors { IfErr result (IsUnwritten config.max_depth) }
{
    let text = Vec::with_capacity(alloc, 128)?;
    let mut serializer = Serializer::new(text, config);
    serializer.serialize(alloc, datum)?;
    Ok(serializer.into_sink().into_writer())
}
