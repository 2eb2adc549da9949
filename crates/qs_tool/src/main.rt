//! Reads a querystring from standard input, and writes it again or shows it: `qs_tool flat|params|any` with options.
#![tactic(auto)]

mod answer;
mod arguments;
mod flat;
mod information;
mod input;
mod misuse;
mod output;
mod params;
mod printing;
mod program;
mod showing;
mod streams;
mod strict;

use crate::arguments::Request;
use crate::information::Information;
use crate::input::Input;
use crate::output::Output;
use crate::program::{finish, run};
use std::alloc::AllocError;
use std::process::ExitCode;
use std::{env, io};

// Returns the words after the program's name.
fn words(rt: &HostRuntime) -> io::Result<Vec<String>> {
    let mut words = Vec::new(rt.alloc());
    for word in env::args(rt)?.skip(1) {
        words.push(word).map_err(AllocError::from)?;
    }
    Ok(words)
}

// Runs the program over the standard streams.
fn main(rt: HostRuntime) -> ExitCode {
    let Ok(words) = words(&rt) else {
        return ExitCode::from(3);
    };
    let words = words.as_slice();
    let mut output = Output::new(io::writer(&rt));
    if let Some(information) = Information::asked(words) {
        return ExitCode::from(finish(&mut output, information.text().as_bytes(), 0));
    }
    let mut input = Input::new(rt.reader());
    let status = run(rt.alloc(), words, &mut input, &mut output);
    if let Err(misuse) = Request::parse(words) {
        let _ = eprintln!(rt; "qs_tool: {misuse}");
    }
    ExitCode::from(status)
}
