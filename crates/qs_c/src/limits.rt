//! Limits on the size of a querystring and of its JSON.

ghost use Rattle.std.specs.Prelude.{◌≡◌, ◌<◌, ◌⊎◌, IfOk, IfErr, length};
ghost use Rattle.qs_c.specs.Limits.{IsBeyond, IsTooLarge, ampersands, is_beyond};
ghost use Rattle.qs_c.specs.Messages.{too_large_text, too_long_text};
ghost use Rattle.qs_c.specs.Status.{text_of, IsOutOfMemory};
ghost use Rattle.qs_c.specs.declared.failure.FailureKind.TheVariants as kind;

use crate::failure::{Failure, FailureKind, failure_at};
use crate::settings::Settings;
use std::alloc::Global;

impl Settings {
    /// Returns an error if the querystring is larger than the settings allow. The length is tested first.
    pub(crate) fn test_input(&self, alloc: Global, input: &[u8]) -> Result<(), Failure>
        ensures within { IfOk result (λ _. IsTooLarge self.now input.now → ⊥) }
        ensures none { IfErr result (λ failure. IsOutOfMemory failure ⊎ ((failure.kind ≡ kind.TooLarge) × (failure.position ≡ 0) × IsTooLarge self.now input.now × (text_of failure ≡ too_large_text self.now input.now))) }
    {
        if is_beyond(self.max_length, input.len()) {
            return Err(failure_at(
                alloc,
                FailureKind::TooLarge,
                "the querystring has more bytes than max_length",
                0,
            ));
        }
        if self.max_pairs > 0 && count_ampersands(input) >= self.max_pairs {
            return Err(failure_at(
                alloc,
                FailureKind::TooLarge,
                "the querystring has more pairs than max_pairs",
                0,
            ));
        }
        Ok(())
    }
}

/// Returns the JSON, or an error if it has more than `most` bytes. A limit of 0 is none.
pub(crate) fn test_output(alloc: Global, most: usize, json: Vec<u8>) -> Result<Vec<u8>, Failure>
    ensures json { IfOk result (λ text. text ≡ json) }
    ensures within { IfOk result (λ text. IsBeyond most (length json.items) → ⊥) }
    ensures none { IfErr result (λ failure. IsOutOfMemory failure ⊎ ((failure.kind ≡ kind.TooLong) × (failure.position ≡ 0) × IsBeyond most (length json.items) × (text_of failure ≡ too_long_text))) }
{
    if is_beyond(most, json.len()) {
        return Err(failure_at(
            alloc,
            FailureKind::TooLong,
            "the JSON has more bytes than max_output",
            0,
        ));
    }
    Ok(json)
}

// Returns whether `n` is more than `most`. A limit of 0 is none.
fn is_beyond(most: usize, n: usize) -> bool
    ensures { result ≡ is_beyond most n }
{
    most > 0 && n > most
}

// Returns the number of `&`s.
fn count_ampersands(input: &[u8]) -> usize
    ensures { result ≡ ampersands input.now }
{
    let mut count = 0;
    for byte in input {
        if *byte == b'&' {
            count += 1;
        }
    }
    count
}
