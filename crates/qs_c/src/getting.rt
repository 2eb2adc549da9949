//! Getting the value at a path.

ghost use Rattle.std.specs.Prelude.{◌≡◌, ℕ, List, IfOk, IfErr, IfSome, IfNone, Some, None};
ghost use Rattle.std.specs.Str.{IsUtf8};
ghost use Rattle.qs_tree.specs.tree.Views.{tree_of};
ghost use Rattle.qs_c.specs.Answer.{IsHandedOut, IsLaidOut, LeavesNothing};
ghost use Rattle.qs_c.specs.Errors.{kind_of, position_of};
ghost use Rattle.qs_c.specs.Limits.{IsTooLarge};
ghost use Rattle.qs_c.specs.Messages.{SaysNotRead, SaysUnread};
ghost use Rattle.qs_c.specs.Paths.{first_path, HoldsBytes, IsValueAt, LeadsTo, WhyNoBytes, WhyNoValue};
ghost use Rattle.qs_c.specs.Settings.{config_of, AreNone};
ghost use Rattle.qs_c.specs.Status.{code_of, text_of, IsDone, IsHeldBack, IsStoppedEarly, MemoryHasNoText};
ghost use Rattle.qs_c.specs.declared.failure.FailureKind.{FailureKind};

use crate::answer::{Answer, fail, give, given};
use crate::errors::failure_of;
use crate::failure::{Failure, FailureKind, failure_at};
use crate::path::{find, parse_path};
use crate::settings::Settings;
use qs_data::{Config, Data, Shape, read_value};
use qs_tree::{ParsedValue, parse};
use std::alloc::Global;

/// Gets the decoded value at a path of the querystring, such as `user[name]`, or `ids[0]` for the first item of a list.
///
/// The path is a key, escaped as in the querystring. It is parsed as one: `%31` is a string key, and the depth limit and form mode apply.
/// It leads from map to map by their keys. In a list a number is the index of an item, whether the list is written `ids[0]=x`, `ids[]=x`
/// or `ids=x`.
///
/// The value is what the shape `bytes` reads from the part at the path, and may hold any bytes. A key without a value, as in `a`, gives an
/// empty result. Several values, as in `a=1&a=2`, give the last, unless the settings reject them.
///
/// Returns 0 and puts the value at the front of `out`, or returns 1 if it doesn't fit there. `answer.len` is its length. Any other status
/// is an error: `answer.len` is the length of its text, which is at the front of `out` if it fits there. The position is 0 except as the
/// list says:
///
/// - 2: an allocation failed; there is no text.
/// - 3: a number in the settings is too large.
/// - 4: the querystring can't be parsed. The position is how many of its bytes were parsed, plus one if the end was reached.
/// - 5: the path leads to a map, or to several values that the settings reject.
/// - 10: the querystring is larger than the settings allow.
/// - 12: the path leads nowhere.
/// - 13: the path isn't a key.
///
/// It allocates for both trees and the value, and frees them before it returns. The time grows with the querystring and the path.
///
/// ```
/// uint32_t status = qs_get(&qs_default, QS_TEXT("user[name]"), QS_TEXT("user[name]=John"), QS_ROOM(out), &answer); // John
/// ```
#[unsafe(no_mangle)]
pub extern "C" fn qs_get(
    alloc: Global,
    settings: &Settings,
    path: &[u8],
    input: &[u8],
    out: &mut [u8],
    answer: &mut Answer,
) -> u32
    ensures done { IsDone result → (bytes : List ℕ) × IsValueAt (config_of settings.now) path.now input.now bytes
        × IsHandedOut bytes out.old out.new result answer.new.len }
    ensures position { IsDone result → answer.new.position ≡ 0 }
    ensures failed { (IsDone result → ⊥) → (kind : FailureKind) × (result ≡ code_of kind) × WhyNoValue kind answer.new.position settings.now path.now input.now }
    ensures message { (IsDone result → ⊥) → (kind : FailureKind) × (text : List ℕ) × (result ≡ code_of kind) × SaysNotRead kind answer.new.position settings.now input.now text
        × IsUtf8 text × IsLaidOut text out.old out.new answer.new.len }
    ensures memory { result ≡ 2 → LeavesNothing out.old out.new answer.new }
    ensures settings { AreNone settings.now → IsStoppedEarly result }
    ensures limits { IsTooLarge settings.now input.now → IsHeldBack result }
{
    match value_at(alloc, settings, given(path), given(input)) {
        Ok(bytes) => give(&bytes, out, answer),
        Err(failure) => fail(failure, out, answer),
    }
}

// Returns the value at a path.
fn value_at(
    alloc: Global,
    settings: &Settings,
    path: &[u8],
    input: &[u8],
) -> Result<Vec<u8>, Failure>
    ensures value { IfOk result (λ bytes. IsValueAt (config_of settings.now) path.now input.now bytes.items) }
    ensures none { IfErr result (λ failure. WhyNoValue failure.kind failure.position settings.now path.now input.now) }
    ensures says { IfErr result (λ failure. SaysNotRead failure.kind failure.position settings.now input.now (text_of failure)) }
    ensures memory { IfErr result MemoryHasNoText }
    ensures sound { IfOk result (λ _. AreNone settings.now → ⊥) }
    ensures early { IfErr result (λ failure. AreNone settings.now → IsStoppedEarly (code_of failure.kind)) }
    ensures within { IfOk result (λ _. IsTooLarge settings.now input.now → ⊥) }
    ensures held { IfErr result (λ failure. IsTooLarge settings.now input.now → IsHeldBack (code_of failure.kind)) }
{
    let config = settings.config(alloc)?;
    settings.test_input(alloc, input)?;
    let path = parse_path(alloc, config, path)?;
    bytes_at(alloc, config, &path, input)
}

// Returns the bytes at the path.
fn bytes_at(
    alloc: Global,
    config: Config,
    path: &ParsedValue<'_>,
    input: &[u8],
) -> Result<Vec<u8>, Failure>
    ensures bytes { IfOk result (λ bytes. HoldsBytes config (first_path (tree_of path.now)) input.now bytes.items) }
    ensures none { IfErr result (λ failure. WhyNoBytes failure.kind failure.position config (first_path (tree_of path.now)) input.now) }
    ensures says { IfErr result (λ failure. SaysUnread failure.kind failure.position (text_of failure)) }
    ensures memory { IfErr result MemoryHasNoText }
{
    match read_at(alloc, config, path, input) {
        Ok(Some(bytes)) => Ok(bytes),
        Ok(None) => Err(failure_at(alloc, FailureKind::Absent, "nothing is at the path", 0)),
        Err(error) => Err(failure_of(alloc, error)),
    }
}

// Reads the bytes at the path. Returns `None` if it leads nowhere.
fn read_at(
    alloc: Global,
    config: Config,
    path: &ParsedValue<'_>,
    input: &[u8],
) -> qs_data::Result<Option<Vec<u8>>>
    ensures bytes { IfOk result (λ found. IfSome found (λ bytes. HoldsBytes config (first_path (tree_of path.now)) input.now bytes.items)) }
    ensures absent { IfOk result (λ found. IfNone found (LeadsTo config (first_path (tree_of path.now)) input.now None)) }
    ensures none { IfErr result (λ error. WhyNoBytes (kind_of error) (position_of error) config (first_path (tree_of path.now)) input.now) }
{
    let tree = parse(alloc, input, config)?;
    let Some(node) = find(path, &tree) else {
        return Ok(None);
    };
    match read_value(alloc, config, &Shape::Bytes, node)? {
        Data::Bytes(bytes) => Ok(Some(bytes)),
        _ => unreachable!(),
    }
}
