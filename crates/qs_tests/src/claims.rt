//! What tests claim. A claim that fails ends the test and says what was found.

use std::fmt::Debug;
use std::process::Abort;

/// Claims that this holds for the case.
pub fn holds<R: Abort, C: Debug + Drop>(rt: &R, claim: bool, case: C) {
    assert!(rt; claim, "{case:?}");
}

/// Claims that the text of the case is the wanted one.
pub fn is_text<R: Abort>(rt: &R, found: &str, wanted: &str, case: &str) {
    assert!(rt;
        found == wanted,
        "{case}: found {found:?} in the place of {wanted:?}"
    );
}

/// Claims that the value of the case is the wanted one.
pub fn is_equal<R: Abort, T: PartialEq + Debug + Drop, C: Debug + Drop>(
    rt: &R,
    found: T,
    wanted: T,
    case: C,
) {
    assert!(rt;
        found == wanted,
        "{case:?}: found {found:?} in the place of {wanted:?}"
    );
}

/// Claims that a call succeeds, and returns what it made.
pub fn made<R: Abort, T, E: Debug>(rt: &R, outcome: Result<T, E>) -> T {
    outcome.expect(rt, "a value")
}

/// Claims that a call fails, and returns why.
pub fn fails<R: Abort, T: Debug, E>(rt: &R, outcome: Result<T, E>) -> E {
    outcome.expect_err(rt, "an error")
}

/// Claims that a value is there, and returns it.
pub fn present<R: Abort, T>(rt: &R, value: Option<T>, what: &str) -> T {
    value.expect(rt, what)
}
