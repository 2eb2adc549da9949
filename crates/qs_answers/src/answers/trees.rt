//! What the parser returns for the cases of a table.

use qs_tests::{Texts, line};
use qs_tree::{Config, Error, parse};
use std::alloc::{AllocError, Global};
use std::io;
use std::io::BufRead;
use std::process::ExitCode;

/// An input, and how it is read.
#[derive(Drop)]
struct Case {
    config: Config,
    input: Vec<u8>,
}

impl Case {
    // Parses a line as a case.
    fn parse(alloc: Global, line: &str) -> Option<Case> {
        let (form, rest) = line.split_once('\t')?;
        let (max_depth, input) = rest.split_once('\t')?;
        let config = Config::new()
            .use_form_encoding(form == "1")
            .max_depth(max_depth.parse().ok()?);
        let input = hex::decode(alloc, input).ok()?;
        Some(Case { config, input })
    }

    // Returns what the parser returns.
    fn answer(&self, alloc: Global) -> Result<String, AllocError> {
        match parse(alloc, self.input.as_slice(), self.config) {
            Ok(tree) => {
                let tree = line(alloc, &tree, Texts::Hexadecimal)?;
                format!(in alloc; "ok\t{tree}")
            }
            Err(Error::Parse(text, position)) => {
                let text = hex::encode(alloc, text.as_bytes())?;
                format!(in alloc; "rejected\t{position}\t{text}")
            }
            Err(_) => Err(AllocError),
        }
    }
}

// Prints the result of each line of standard input.
fn answer_all(rt: &HostRuntime) -> io::Result<()> {
    for line in rt.lines(rt.alloc()) {
        match Case::parse(rt.alloc(), line?.as_str()) {
            Some(case) => println!(rt; "{}", case.answer(rt.alloc())?)?,
            None => println!(rt; "no case")?,
        }
    }
    Ok(())
}

/// Prints the result of each line of standard input, and returns the status.
pub fn trees(rt: &HostRuntime) -> ExitCode {
    match answer_all(rt) {
        Ok(()) => ExitCode::SUCCESS,
        Err(_) => ExitCode::FAILURE,
    }
}
