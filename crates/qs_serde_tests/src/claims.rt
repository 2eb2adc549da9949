//! What tests claim.

use qs_serde::{Config, PathError, explain_str, to_string};
use serde::{Deserialize, Serialize};
use std::alloc::Global;
use std::process::Abort;

/// Claims that each input of a table is read and written back as the table says, or rejected with the error after a `!`.
pub fn each<'t, R: Abort, T: Deserialize<'t> + Serialize>(rt: &R, alloc: Global, table: &'t str) {
    for row in table.lines() {
        let Some((input, wanted)) = row.split_once(" | ") else {
            continue;
        };
        let found = answer::<R, T>(rt, alloc, input.trim());
        assert!(rt;
            found.as_str() == wanted,
            "{input}: found {found} in the place of {wanted}"
        );
    }
}

// Returns what is written of the value that is read from an input, or the error after a `!`.
fn answer<'t, R: Abort, T: Deserialize<'t> + Serialize>(
    rt: &R,
    alloc: Global,
    input: &'t str,
) -> String {
    let read: Result<T, PathError> = explain_str(alloc, Config::new(), input);
    match read {
        Ok(value) => to_string(alloc, &value).expect(rt, "its text"),
        Err(error) => format!(in alloc; "! {error}").expect(rt, "a text"),
    }
}
