//! What is wrong with the program's arguments.

use std::fmt::{Display, Error, Formatter, Write};

/// The first error in invalid arguments.
#[derive(Clone, Copy, Debug, PartialEq, Eq)]
pub enum Misuse<'a> {
    /// There are no arguments.
    NoCommand,
    /// The first word isn't a command.
    UnknownCommand(&'a str),
    /// A word in the place of an option isn't one.
    UnknownOption(&'a str),
    /// The option has no value, or one that it doesn't take.
    Value(&'a str),
    /// The option is given twice.
    Twice(&'a str),
    /// The command `flat` is given a depth.
    DepthOfFlat,
}

impl Display for Misuse<'_> {
    fn fmt<W: Write>(&self, f: &mut Formatter<W>) -> Result<(), Error> {
        match *self {
            Misuse::NoCommand => write!(f, "no command is given"),
            Misuse::UnknownCommand(name) => write!(f, "unknown command '{name}'"),
            Misuse::UnknownOption(name) => write!(f, "unknown option '{name}'"),
            Misuse::Value(name) => write!(f, "'{name}' takes {}", value_of(name)),
            Misuse::Twice(name) => write!(f, "'{name}' is given twice"),
            Misuse::DepthOfFlat => write!(f, "'flat' takes no '--depth'"),
        }
    }
}

// Returns what the option of this name takes.
fn value_of(name: &str) -> &'static str {
    match name {
        "--depth" => "a number from 0 to 18446744073709551615",
        "--format" => "'indexed', 'empty' or 'unindexed'",
        "--duplicates" => "'last' or 'error'",
        _ => "no value",
    }
}
