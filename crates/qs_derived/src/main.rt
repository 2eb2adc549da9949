//! A program for scripts: what types with serde's derives read from the querystrings of a table, and what they write.
//!
//! Each line of standard input is a case: `query` or `form`, the depth limit, `last` or `error` for repeated keys, the name of a type, and
//! a querystring after a `?`, separated by tabs. For each, the program prints a line: the value's text in each array format after a `?`,
//! once if they are the same; or the kind of the error, and its line. With the argument `compound` it uses the types of `qs_callers`, which
//! implement `Compound`.
#![tactic(auto)]

mod answers;
mod case;
mod types;

use crate::answers::{by_compound, by_derive};
use crate::case::Case;
use std::alloc::{AllocError, Global};
use std::io::BufRead;
use std::process::ExitCode;
use std::{env, io};

// Returns the answer to a line.
fn answer(alloc: Global, line: &str, is_compound: bool) -> Result<String, AllocError> {
    let Some(case) = Case::parse(line) else {
        return String::from_str(alloc, "no case");
    };
    if is_compound {
        by_compound(alloc, &case)
    } else {
        by_derive(alloc, &case)
    }
}

// Prints the answer to each line of standard input.
fn answer_all(rt: &HostRuntime, is_compound: bool) -> io::Result<()> {
    for line in rt.lines(rt.alloc()) {
        println!(rt; "{}", answer(rt.alloc(), line?.as_str(), is_compound)?)?;
    }
    Ok(())
}

// Prints the answer to each case, by the types that the arguments name.
fn main(rt: HostRuntime) -> ExitCode {
    let Ok(mut words) = env::args(&rt) else {
        return ExitCode::FAILURE;
    };
    let is_compound = words.nth(1).as_deref() == Some("compound");
    match answer_all(&rt, is_compound) {
        Ok(()) => ExitCode::SUCCESS,
        Err(_) => ExitCode::FAILURE,
    }
}
