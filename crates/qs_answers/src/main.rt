//! A program for scripts: it prints the trees of a table's cases, and what public calls return and write.
//!
//! Without arguments, each line of standard input is a case: form mode (0 or 1), the depth limit, and the input in hexadecimal,
//! separated by tabs. For each case a line is printed: `ok` and the tree, or `rejected`, the position, and the error's text in
//! hexadecimal.
//!
//! With the name of a type, all of standard input is one querystring. The program reads it as that type, and prints the querystring of
//! the value. Words after the name ask for something else, such as `explained` for which part isn't read: see `Question::from_words`.
//! `answers/calls.rt` has the names of calls that are made without a type.
#![tactic(auto)]

mod answers;

use crate::answers::Question;
use std::env;
use std::process::ExitCode;

// Prints the tree of each case, or the answer for the type or the call that a word names.
fn main(rt: HostRuntime) -> ExitCode {
    let Ok(mut words) = env::args(&rt) else {
        return ExitCode::from(3);
    };
    let Some(name) = words.nth(1) else {
        return answers::trees(&rt);
    };
    let (word, room) = (words.next(), words.next());
    match Question::from_words(word.as_deref(), room.as_deref()) {
        Some(question) => answers::answer_about(&rt, name.as_str(), question),
        None => ExitCode::from(2),
    }
}
