//! One line for the user that names the wrong part of an input.

ghost use Rattle.qs_callers.specs.Reply.{Replies};
ghost use Rattle.qs_spec.specs.Config.{default};

use qs_explain::explain;
use serde_qs::{Config, Deserialize, Error, Rejection, Shape, read_explained};
use std::alloc::{AllocError, Global};

/// Returns the value that is read from an input, or one line for the user that names the wrong part if no value is read.
///
/// The only error is that an allocation failed.
#[tactic(auto, using(crate::proofs::Unread::unread))]
pub fn explained<T: Deserialize>(alloc: Global, input: &str) -> Result<Result<T, String>, Error>
    ensures { Replies T.table.value default T.table.shape T.table.meaning input.now result }
{
    match read_explained(alloc, Config::new(), input.as_bytes())? {
        Ok(value) => Ok(Ok(value)),
        Err(rejection) => Ok(Err(line(alloc, &T::shape(alloc)?, input, &rejection)?)),
    }
}

// Returns the line for an input from which no value is read.
fn line(
    alloc: Global,
    shape: &Shape,
    input: &str,
    rejection: &Rejection,
) -> Result<String, AllocError> {
    match explain(alloc, Config::new(), shape, input.as_bytes())? {
        Some(explanation) => explanation.to_string(alloc), // age: expected u8, found the text "300"
        None => rejection.to_string(alloc), // age: invalid type: data, expected an age below 150
    }
}
