//! What the tests claim about values, about what is written and read, and about errors.

use crate::round_trips::comes_back;
use serde_qs::{Deserialize, Error, Result, RoundTrip, Serialize, from_str, to_string};
use std::alloc::Global;
use std::fmt::Debug;
use std::process::Abort;

/// Claims that this is so.
pub fn holds<R: Abort>(rt: &R, is_so: bool, what: &str) {
    assert!(rt; is_so, "{what}");
}

/// Claims that the text is this one.
pub fn is_text<R: Abort>(rt: &R, found: &str, wanted: &str) {
    assert!(rt; found == wanted, "{found}");
}

/// Claims that the value is this one.
pub fn is_equal<R: Abort, T: PartialEq + Debug + Drop>(rt: &R, found: T, wanted: T) {
    assert!(rt; found == wanted, "{found:?}");
}

/// Claims that the call returns this value.
pub fn gives<R: Abort, T: PartialEq + Debug + Drop>(rt: &R, outcome: Result<T>, wanted: T) {
    is_equal(rt, outcome.expect(rt, "a value"), wanted);
}

/// Claims that the call returns this text.
pub fn gives_text<R: Abort>(rt: &R, outcome: Result<String>, wanted: &str) {
    is_text(rt, outcome.expect(rt, wanted).as_str(), wanted);
}

/// Claims that the call returns a `Custom` error with this message.
pub fn fails<R: Abort, T: Drop>(rt: &R, outcome: Result<T>, wanted: &str) {
    match outcome {
        Ok(_) => panic!(rt; "a value, and not: {wanted}"),
        Err(Error::Custom(message)) => is_text(rt, message.as_str(), wanted),
        Err(error) => panic!(rt; "{error}"),
    }
}

/// Claims that the call returns a `Utf8` error.
pub fn is_not_utf8<R: Abort, T: Drop>(rt: &R, outcome: Result<T>, input: &str) {
    assert!(rt; matches!(outcome, Err(Error::Utf8(_))), "{input}");
}

/// Claims that this value is read from the input.
pub fn is_read<R: Abort, T: Deserialize + PartialEq + Debug + Drop>(
    rt: &R,
    alloc: Global,
    input: &str,
    wanted: T,
) {
    gives(rt, from_str(alloc, input), wanted);
}

/// Claims that no `T` is read from any of these inputs, and that the error has the message beside it.
pub fn are_rejected<R: Abort, T: Deserialize + Drop>(rt: &R, alloc: Global, rows: &[(&str, &str)]) {
    for &(input, wanted) in rows {
        is_rejected::<R, T>(rt, alloc, input, wanted);
    }
}

/// Claims that no `T` is read from the input, and that the error has this message.
pub fn is_rejected<R: Abort, T: Deserialize + Drop>(
    rt: &R,
    alloc: Global,
    input: &str,
    wanted: &str,
) {
    match from_str::<T>(alloc, input) {
        Ok(_) => panic!(rt; "{input}: a value"),
        Err(Error::Custom(message)) => assert!(rt;
            message.as_str() == wanted,
            "{input}: {message}"
        ),
        Err(error) => panic!(rt; "{input}: {error}"),
    }
}

/// Claims that the value is written as this text.
pub fn is_written<R: Abort, T: Serialize>(rt: &R, alloc: Global, value: &T, wanted: &str) {
    gives_text(rt, to_string(alloc, value), wanted);
}

/// Claims that the value is written as this text, and that it is read back in both modes.
pub fn is_written_and_read<R: Abort, T: RoundTrip + PartialEq + Drop>(
    rt: &R,
    alloc: Global,
    value: T,
    wanted: &str,
) {
    is_written(rt, alloc, &value, wanted);
    comes_back(rt, alloc, value);
}

/// Claims that the value that is read from the input is written as the same text.
pub fn is_written_as_read<R: Abort, T: Deserialize + Serialize + Drop>(
    rt: &R,
    alloc: Global,
    input: &str,
) -> T {
    let value: T = from_str(alloc, input).expect(rt, input);
    is_written(rt, alloc, &value, input);
    value
}
